// "Rising and falling are worked out on the expression, each from the other", by recursion over its bytes.
ghost use Rattle.std.specs.Prelude.{◌≡◌, ◌+◌, ◌^◌, ◌<◌, ◌≤◌, length};
ghost use Rattle.guard_code.specs.inner.Bytes.{leaf_used, leaf_marked, turned, kept, judgement, paired, agreed, tripled, trend_at, falls_at};

use crate::Marks;
use crate::commands::{ADD, AND, ATMOST, DIFFERENT, EQUAL, GUARD, LESS, NOT, OR, SUB, SUM, VAR};
use crate::guard::{leaf_used, operand_count};

// Whether an expression is rising, or falling, and the bytes that it took.
#[derive(Clone, Copy)]
struct Judged {
    yes: bool,
    used: usize,
}

impl Judged {
    // A judgement of an expression of so many bytes.
    fn new(yes: bool, used: usize) -> Judged
        ensures { result ≡ judgement yes used }
    {
        Judged { yes, used }
    }

    // A command of two operands that are both so.
    fn pair(self, b: Judged) -> Judged
        requires { 1 + self.used + b.used < 2 ^ 64 }
        ensures { result ≡ paired self b }
    {
        Judged {
            yes: self.yes && b.yes,
            used: 1 + self.used + b.used,
        }
    }

    // A command of three operands that are all so.
    fn triple(self, b: Judged, d: Judged) -> Judged
        requires { 1 + self.used + b.used + d.used < 2 ^ 64 }
        ensures { result ≡ tripled self b d }
    {
        Judged {
            yes: self.yes && b.yes && d.yes,
            used: 1 + self.used + b.used + d.used,
        }
    }

    // One operand judged both ways.
    fn agree(self, z: Judged) -> Judged
        ensures { result ≡ agreed self z }
    {
        Judged {
            yes: self.yes && z.yes,
            ..self
        }
    }
}

// LESS, ATMOST and NOT: the first operand is judged the other way.
#[tactic(auto, unfolding(crate::specs::inner::Bytes::turned))]
fn turns(command: u32) -> bool
    ensures { result ≡ turned command }
{
    matches!(command, LESS | ATMOST | NOT)
}

// "ADD, AND, OR keep what both operands are".
#[tactic(auto, unfolding(crate::specs::inner::Bytes::kept))]
fn keeps(command: u32) -> bool
    ensures { result ≡ kept command }
{
    matches!(command, ADD | AND | OR)
}

// "constants, counters .. are both", and a length; any other leaf is what its mark says.
#[tactic(auto, unfolding(crate::specs::inner::Bytes::leaf_marked))]
fn marked(part: &[u8], marks: &Marks) -> bool
    ensures { result ≡ leaf_marked marks.now part.now }
{
    let operand = base::byte_at(part, 1) as usize;
    match base::byte_at(part, 0) {
        VAR => base::get_or(&marks.variables, operand, false),
        SUM => base::get_or(&marks.sums, operand.saturating_sub(8), false),
        DIFFERENT => base::get_or(&marks.differents, operand.saturating_sub(8), false),
        _ => true,
    }
}

// Whether the expression at the front is rising; `grows` marks the leaves that are.
#[cycle(falling_at_rising_at)]
#[tactic(auto, using(crate::proofs::GuardOnBytes::operands_inside))]
fn rising_at(part: &[u8], held: &Marks, grows: &Marks, depth: usize) -> Judged
    ensures judged { result ≡ trend_at depth (leaf_marked grows.now) (leaf_marked held.now) part.now }
    ensures within { result.used ≤ length part.now }
{
    if depth == 0 {
        return Judged::new(false, 0);
    }
    let command = base::byte_at(part, 0);
    let operands = operand_count(command);
    if operands == 0 {
        return Judged::new(marked(part, grows), leaf_used(part));
    }
    let inner = depth - 1;
    let first = &part[1..];
    if turns(command) {
        let a = falling_at(first, held, grows, inner);
        if operands == 1 {
            return Judged::new(a.yes, 1 + a.used);
        }
        return a.pair(rising_at(&first[a.used..], held, grows, inner));
    }
    let a = rising_at(first, held, grows, inner);
    let second = &first[a.used..];
    if command == SUB {
        return a.pair(falling_at(second, held, grows, inner));
    }
    let b = rising_at(second, held, grows, inner);
    if keeps(command) {
        return a.pair(b);
    }
    let c = a.agree(falling_at(first, held, grows, inner));
    if command == EQUAL {
        return c.pair(b.agree(falling_at(second, held, grows, inner)));
    }
    c.triple(b, rising_at(&second[b.used..], held, grows, inner))
}

// Whether it is falling; `held` marks the leaves that are.
#[cycle(falling_at_rising_at)]
#[tactic(auto, using(crate::proofs::GuardOnBytes::operands_inside))]
fn falling_at(part: &[u8], held: &Marks, grows: &Marks, depth: usize) -> Judged
    ensures judged { result ≡ trend_at depth (leaf_marked held.now) (leaf_marked grows.now) part.now }
    ensures within { result.used ≤ length part.now }
{
    if depth == 0 {
        return Judged::new(false, 0);
    }
    let command = base::byte_at(part, 0);
    let operands = operand_count(command);
    if operands == 0 {
        return Judged::new(marked(part, held), leaf_used(part));
    }
    let inner = depth - 1;
    let first = &part[1..];
    if turns(command) {
        let a = rising_at(first, held, grows, inner);
        if operands == 1 {
            return Judged::new(a.yes, 1 + a.used);
        }
        return a.pair(falling_at(&first[a.used..], held, grows, inner));
    }
    let a = falling_at(first, held, grows, inner);
    let second = &first[a.used..];
    if command == SUB {
        return a.pair(rising_at(second, held, grows, inner));
    }
    let b = falling_at(second, held, grows, inner);
    if keeps(command) {
        return a.pair(b);
    }
    let c = a.agree(rising_at(first, held, grows, inner));
    if command == EQUAL {
        return c.pair(b.agree(rising_at(second, held, grows, inner)));
    }
    c.triple(b, falling_at(&second[b.used..], held, grows, inner))
}

// Whether the guard at an offset is falling; where none stands, none falls.
pub fn guard_falls(f: &[u8], at: usize, held: Marks, grows: Marks) -> bool
    ensures { result ≡ falls_at (leaf_marked held) (leaf_marked grows) f.now at }
{
    base::byte_at(f, at) == GUARD && falling_at(&f[at + 1..], &held, &grows, 8).yes
}
