// The value of a guard, by recursion over its bytes.
ghost use Rattle.std.specs.Prelude.{◌≡◌, ◌+◌, ◌≤◌, ◌++◌, length, take, drop, IfSome};
ghost use Rattle.base.specs.Lists.{some_below};
ghost use Rattle.guard_code.specs.inner.Bytes.{operands_of, applied, leaf_first, leaf_in, leaf_value, leaf_width, leaf_used, compound, evaluated, guard_at};
ghost use Rattle.guard_code.specs.inner.Reading.{placed, constant_placed, leaf_placed};
ghost use Rattle.machine.specs.Guard.{truth};

use crate::commands::{
    ADD, AND, ATMOST, CONST, COUNT, DIFFERENT, EQUAL, GUARD, IF, LESS, NOT, OR, SUB, SUM, VAR,
};

// An expression's value, and the place behind it.
#[derive(Clone, Copy)]
struct Reading {
    value: u32,
    next: usize,
}

// The number of operands of an expression command, 0 for any other byte.
#[tactic(auto, unfolding(crate::specs::inner::Bytes::operands_of))]
pub fn operand_count(command: u32) -> usize
    ensures { result ≡ operands_of command }
{
    match command {
        NOT => 1,
        IF => 3,
        ADD..=OR => 2,
        _ => 0,
    }
}

// What a command makes of its operands' values. "ADD stops at 4294967295", "SUB at 0", "LESS to OR give 0 or 1".
#[tactic(auto, unfolding(crate::specs::inner::Bytes::applied))]
fn apply(command: u32, a: u32, b: u32, d: u32) -> u32
    ensures { result ≡ applied command a b d }
{
    match command {
        ADD => a.saturating_add(b),
        SUB => a.saturating_sub(b),
        LESS => u32::from(a < b),
        ATMOST => u32::from(a <= b),
        EQUAL => u32::from(a == b),
        NOT => u32::from(a == 0),
        AND => u32::from(0 < a && 0 < b),
        OR => u32::from(0 < a || 0 < b),
        _ => if 0 < a { b } else { d },
    }
}

// Where among the leaves' values a command without operands counts its operand from. A list is written 8 + v.
fn first_of(command: u32) -> Option<usize>
    ensures { result ≡ some_below 36 (leaf_first command) }
{
    match command {
        COUNT => Some(20),
        VAR => Some(0),
        SUM..=DIFFERENT => Some((command - SUM) as usize * 4),
        _ => None,
    }
}

// The width of a command without operands, 0 for any other byte.
fn leaf_width(command: u32) -> usize
    ensures { result ≡ leaf_width command }
{
    if command == CONST {
        return 5;
    }
    if first_of(command).is_some() { 2 } else { 0 }
}

// The bytes of the command without operands at the front, as far as there are any.
pub fn leaf_used(part: &[u8]) -> usize
    ensures { result ≡ leaf_used part.now }
{
    leaf_width(base::byte_at(part, 0)).min(part.len())
}

// The constant at an offset, where it is there whole.
fn constant(part: &[u8], at: usize) -> Option<Reading>
    requires { at ≤ length part.now }
    ensures value { result ≡ constant_placed at part.now }
    ensures within { IfSome result (λ r. r.next ≤ length part.now) }
{
    if part.len() - at < 5 {
        return None;
    }
    Some(Reading {
        value: base::value_inside(part, at + 1),
        next: at + 5,
    })
}

// The command without operands at an offset, where one stands there whole.
// The bytes and the leaves' values are passed each for itself: in one struct that is lent they took 4 % more instructions.
fn leaf(part: &[u8], at: usize, leaves: &[u32; 36]) -> Option<Reading>
    requires { at ≤ length part.now }
    ensures value { result ≡ leaf_placed at (leaf_in leaves.now) (drop at part.now) }
    ensures within { IfSome result (λ r. r.next ≤ length part.now) }
{
    if part.len() - at < 2 {
        return None;
    }
    let command = u32::from(part[at]);
    if command == CONST {
        return constant(part, at);
    }
    let first = first_of(command)?;
    Some(Reading {
        value: base::get_or(leaves, first + usize::from(part[at + 1]), 0),
        next: at + 2,
    })
}

// The command with operands at an offset; at most so many such commands nested.
#[cycle(evaluate)]
#[tactic(auto, using(crate::proofs::GuardOnBytes::operands_inside))]
fn evaluate(part: &[u8], at: usize, leaves: &[u32; 36], depth: usize) -> Reading
    requires { at ≤ length part.now }
    ensures value { result ≡ placed at (compound depth (leaf_in leaves.now) (drop at part.now)) }
    ensures within { result.next ≤ length part.now }
{
    if depth == 0 {
        return Reading { value: 0, next: at };
    }
    let command = base::byte_at(part, at);
    if operand_count(command) == 0 {
        return Reading { value: 0, next: at };
    }
    let inner = depth - 1;
    let a = operand(part, at + 1, leaves, inner);
    if command == NOT {
        return Reading {
            value: apply(NOT, a.value, 0, 0),
            next: a.next,
        };
    }
    let b = operand(part, a.next, leaves, inner);
    if command == IF {
        let d = operand(part, b.next, leaves, inner);
        return Reading {
            value: apply(IF, a.value, b.value, d.value),
            next: d.next,
        };
    }
    Reading {
        value: apply(command, a.value, b.value, 0),
        next: b.next,
    }
}

// The operand at an offset, a command with or without operands. Put in line, so that a leaf is read without a call.
#[cycle(evaluate)]
#[inline(always)]
fn operand(part: &[u8], at: usize, leaves: &[u32; 36], depth: usize) -> Reading
    requires { at ≤ length part.now }
    ensures value { result ≡ placed at (evaluated depth (leaf_in leaves.now) (drop at part.now)) }
    ensures within { result.next ≤ length part.now }
{
    match leaf(part, at, leaves) {
        Some(a) => a,
        None => evaluate(part, at, leaves, depth),
    }
}

// Whether the expression at an offset is nonzero. AND, OR and IF read no operand that their first makes needless.
fn holds_at(part: &[u8], at: usize, leaves: &[u32; 36], depth: usize) -> bool
    requires { at ≤ length part.now }
    ensures { result ≡ truth (evaluated depth (leaf_in leaves.now) (drop at part.now)).value }
{
    let command = base::byte_at(part, at);
    if depth == 0 || command < AND || IF < command {
        return 0 < operand(part, at, leaves, depth).value;
    }
    let inner = depth - 1;
    let a = operand(part, at + 1, leaves, inner);
    match (command, 0 < a.value) {
        (AND, false) => false,
        (OR, true) => true,
        (IF, false) => {
            let b = operand(part, a.next, leaves, inner);
            holds_at(part, b.next, leaves, inner)
        }
        _ => holds_at(part, a.next, leaves, inner),
    }
}

// Writes values among the leaves', from the nth on.
fn lay(leaves: &mut [u32; 36], n: usize, values: &[u32])
    requires { n + length values.now ≤ 36 }
    ensures { leaves.new ≡ take n leaves.old ++ (values.now ++ drop (n + length values.now) leaves.old) }
{
    leaves[n..n + values.len()].copy_from_slice(values);
}

// Whether the guard at an offset is nonzero; where none stands, true.
pub fn guard_holds(
    f: &[u8],
    at: usize,
    values: [u32; 8],
    counters: [u32; 16],
    tallies: [u32; 12],
) -> bool
    ensures { result ≡ guard_at (leaf_value values counters tallies) f.now at }
{
    let command = base::byte_at(f, at);
    if command == GUARD {
        let mut leaves = [0u32; 36];
        lay(&mut leaves, 0, &values);
        lay(&mut leaves, 8, &tallies);
        lay(&mut leaves, 20, &counters);
        return holds_at(&f[at + 1..], 0, &leaves, 8);
    }
    true
}
