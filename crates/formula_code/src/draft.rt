// What is kept of a formula file: the summary, the outline, the steps, the places.
ghost use Rattle.std.specs.Prelude.{◌≡◌, ◌+◌, ◌^◌, ◌≤◌, ◌<◌};
ghost use Rattle.formula_code.specs.inner.Scan.{Counted, Ready, Within, no_clauses, advance_by, empty_draft, added};

use closure::Edge;
use command_reader::{Command, Taken};
use expression_reader::places::{NOWHERE, note, state_key};
use formula::Summary;

// What was kept of the file before `at`.
#[derive(Drop)]
pub struct Draft {
    pub at: usize,
    pub summary: Summary,
    // the kinds of the states, where the steps begin (step k of state s at s * 8 + k), the tied variables
    pub kinds: [u32; 16],
    pub table: [usize; 128],
    pub ties: [bool; 8],
    // the steps in file order, the first `count` (fixed memory: no Vec)
    pub edges: [Edge; 128],
    pub count: usize,
    // the variables that the last step binds
    pub own: [bool; 8],
    // where variables and states are first named
    pub places: [usize; 145],
}

// The summary where a state or a step begins: no clause, guard or list yet.
fn no_clauses(s: Summary) -> Summary
    ensures { result ≡ no_clauses s }
{
    Summary {
        clauses: 0,
        guarded: false,
        gathered: [false; 4],
        ..s
    }
}

// The summary after one more command.
fn advance(s: Summary, c: Command) -> Summary
    requires counted { Counted s }
    requires ready { Ready s c }
    ensures { result ≡ advance_by s c }
{
    match c {
        Command::Tied(_) => Summary {
            tied: s.tied + 1,
            ..s
        },
        Command::State(k) => Summary {
            states: s.states + 1,
            closed: 1 < k,
            steps: 0,
            ..no_clauses(s)
        },
        Command::Step(_) => Summary {
            steps: s.steps + 1,
            ..no_clauses(s)
        },
        Command::Test | Command::Testv(_) | Command::Bind(_) => Summary {
            clauses: s.clauses + 1,
            ..s
        },
        Command::Gather(v) => {
            let mut gathered = s.gathered;
            gathered[v] = true;
            Summary {
                clauses: s.clauses + 1,
                gathered,
                ..s
            }
        }
        Command::Guard => Summary { guarded: true, ..s },
    }
}

impl Draft {
    // Nothing kept yet.
    #[tactic(auto, unfolding(crate::specs::inner::Scan::empty_draft, expression_reader::specs::inner::Places::nowhere))]
    pub fn empty() -> Draft
        ensures { result ≡ empty_draft }
    {
        Draft {
            at: 0,
            summary: Summary {
                tied: 0,
                states: 0,
                closed: false,
                steps: 0,
                clauses: 0,
                guarded: false,
                gathered: [false; 4],
            },
            kinds: [0; 16],
            table: [0; 128],
            ties: [false; 8],
            edges: [Edge {
                from: 0,
                to: 0,
                binds: [false; 8],
            }; 128],
            count: 0,
            own: [false; 8],
            places: [NOWHERE; 145],
        }
    }

    // Keeps one more command, which stands at the draft's place.
    pub fn keep(&mut self, taken: Taken)
        requires counted { Counted self.old.summary }
        requires within { Within self.old.summary self.old.count }
        requires ready { Ready self.old.summary taken.command }
        requires fits { self.old.at + taken.used < 2 ^ 64 }
        ensures { self.new ≡ added self.old taken.command taken.used self.old.places }
    {
        let s = self.summary;
        let at = self.at;
        self.summary = advance(s, taken.command);
        self.at += taken.used;
        match taken.command {
            Command::Tied(v) => self.ties[v] = true,
            Command::State(k) => {
                self.kinds[s.states] = k;
                self.own = [false; 8];
            }
            Command::Step(to) => {
                self.table[(s.states - 1) * 8 + s.steps] = at;
                self.edges[self.count] = Edge {
                    from: s.states - 1,
                    to,
                    binds: [false; 8],
                };
                self.count += 1;
                self.own = [false; 8];
                note(&mut self.places, state_key(to), at);
            }
            Command::Testv(v) => note(&mut self.places, v * 16 + s.states.saturating_sub(1), at),
            Command::Bind(v) => {
                self.edges[self.count - 1].binds[v] = true;
                self.own[v] = true;
            }
            Command::Test | Command::Gather(_) | Command::Guard => {}
        }
    }
}
