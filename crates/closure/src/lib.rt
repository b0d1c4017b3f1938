// The states that paths reach without binding a variable.
#![tactic(auto)]

ghost use Rattle.std.specs.Prelude.{◌≡◌, ◌<◌, fold};
ghost use Rattle.closure.specs.inner.Reach.{mark, reach_of, Free};

// A step: the state that it stands in, its target, the variables that it binds.
#[derive(Clone, Copy)]
pub struct Edge {
    pub from: usize,
    pub to: usize,
    pub binds: [bool; 8],
}

// One round over the steps in file order: a step from a marked state that does not bind the variable marks its target.
fn round_of(edges: &[Edge], v: usize, mut marks: [bool; 16]) -> [bool; 16]
    requires { v < 8 }
    ensures { result ≡ fold (mark v) marks edges.now }
{
    for edge in edges {
        if base::get_or(&marks, edge.from, false) && !edge.binds[v] && edge.to < 16 {
            marks[edge.to] = true;
        }
    }
    marks
}

// The states that some path reaches without binding the variable: state 0, then rounds until one adds nothing, which 16 do.
fn reach(edges: &[Edge], v: usize) -> [bool; 16]
    requires { v < 8 }
    ensures { result ≡ reach_of edges.now v }
{
    let mut marks = [false; 16];
    marks[0] = true;
    for _n in 0..16usize {
        let next = round_of(edges, v, marks);
        if next == marks {
            return marks;
        }
        marks = next;
    }
    marks
}

// Which variables some path to which state binds nowhere.
pub fn free_of(edges: &[Edge]) -> [bool; 128]
    ensures { Free edges.now result }
{
    let mut free = [false; 128];
    for v in 0..8 {
        free[v * 16..v * 16 + 16].copy_from_slice(&reach(edges, v));
    }
    free
}
