// A GUARD's expression: read in prefix order by recursion, with its VARs and COUNTs noted.
#![tactic(auto)]

pub mod places;

ghost use Rattle.std.specs.Prelude.{◌≡◌, ◌+◌, ◌^◌, ◌≤◌, ◌<◌, get_or, drop, length, IfOk};
ghost use Rattle.refusal.specs.declared.File.TheVariants.{Formula as InFormula};
ghost use Rattle.refusal.specs.declared.Refusal.TheVariants.{CutShort, Foreign, Value, Surplus};
ghost use Rattle.formula.specs.Read.{is_list, read_expr};
ghost use Rattle.expression_reader.specs.inner.Prefix.{operands_of, over, takes_at, end_of, operand_at, const_head, var_head, count_head, list_head, head_of, shape};

use crate::places::{note, note_var, state_key};
use refusal::{File, Refusal};

// The part of the formula file from an offset on.
#[derive(Clone, Copy)]
pub struct Part<'a> {
    pub bytes: &'a [u8],
    pub at: usize,
    ghost fits: { at + length bytes.now < 2 ^ 64 },
}

// Where an expression stands: the state of its STEP, and the variables that the step binds.
#[derive(Clone, Copy)]
pub struct Scope {
    pub state: usize,
    pub own: [bool; 8],
    ghost exists: { state < 16 },
}

// What an expression command takes: a value, a variable, a state, a list, or a number of operands.
#[derive(Clone, Copy)]
enum Takes {
    Value,
    Variable,
    State,
    List,
    Operands(usize),
    Foreign,
}

// The front of an expression: bytes used, commands still allowed.
#[derive(Clone, Copy)]
pub struct Prefix {
    pub used: usize,
    pub left: usize,
}

impl<'a> Part<'a> {
    // The part behind its first bytes.
    pub fn behind(self, used: usize) -> Part<'a>
        requires { used ≤ length self.bytes.now }
        ensures bytes { result.bytes.now ≡ drop used self.entry.bytes.now }
        ensures at { result.at ≡ self.entry.at + used }
    {
        Part {
            bytes: &self.bytes[used..],
            at: self.at + used,
        }
    }

    // The byte at an offset of the part, 0 past the end.
    pub fn byte(self, k: usize) -> u8
        ensures { result ≡ get_or self.entry.bytes.now k 0 }
    {
        base::get_or(self.bytes, k, 0)
    }

    // The refusal of the command that the part begins with, if its operands run past the end.
    pub fn cut_short(self) -> Refusal
        ensures { result ≡ CutShort InFormula self.entry.at }
    {
        Refusal::CutShort {
            file: File::Formula,
            place: self.at,
        }
    }

    // The refusal of that command, if it is unknown or not allowed there.
    pub fn foreign(self) -> Refusal
        ensures { result ≡ Foreign InFormula self.entry.at }
    {
        Refusal::Foreign {
            file: File::Formula,
            place: self.at,
        }
    }

    // The refusal of that command, if it has an operand that does not exist.
    pub fn absent(self) -> Refusal
        ensures { result ≡ Value InFormula self.entry.at }
    {
        Refusal::Value {
            file: File::Formula,
            place: self.at,
        }
    }

    // The refusal of that command, if it is one over a stated count or depth.
    pub fn surplus(self) -> Refusal
        ensures { result ≡ Surplus InFormula self.entry.at }
    {
        Refusal::Surplus {
            file: File::Formula,
            place: self.at,
        }
    }

    // The byte behind the command's, or that it is cut short.
    fn operand(self) -> Result<u8, Refusal>
        ensures { result ≡ operand_at self.entry.at self.entry.bytes.now }
    {
        self.bytes.get(1).copied().ok_or(self.cut_short())
    }
}

impl From<u8> for Takes {
    ghost use Rattle.formula.specs.Read.{expr_opcode};
    ghost use Rattle.expression_reader.specs.inner.Prefix.{takes};

    ghost from_gives = { λ b t. t ≡ takes (expr_opcode b) };

    // What the command that a byte names takes.
    #[tactic(auto, unfolding(formula::specs::Read::expr_opcode))]
    fn from(b: u8) -> Takes {
        match b {
            0x20 => Takes::Value,
            0x21 => Takes::Variable,
            0x22 => Takes::State,
            0x28 => Takes::Operands(1),
            0x23..=0x27 | 0x29 | 0x2A => Takes::Operands(2),
            0x2B => Takes::Operands(3),
            0x2C..=0x2E => Takes::List,
            _ => Takes::Foreign,
        }
    }
}

impl Takes {
    // How many operands follow the command.
    fn operands(self) -> usize
        ensures { result ≡ operands_of self }
    {
        match self {
            Takes::Operands(n) => n,
            _ => 0,
        }
    }
}

// The refusal of a command where none is allowed any more: surplus where it would begin an expression.
fn over(part: Part<'_>, t: Takes) -> Refusal
    ensures { result ≡ over t part.entry.at }
{
    match t {
        Takes::Foreign => part.foreign(),
        _ => part.surplus(),
    }
}

// The bytes of a CONST, or its refusal.
fn const_head(part: Part<'_>) -> Result<usize, Refusal>
    ensures is { result ≡ const_head part.entry.at part.entry.bytes.now }
    ensures inside { IfOk result (λ used. used ≤ length part.entry.bytes.now) }
{
    if part.bytes.len() < 5 {
        return Err(part.cut_short());
    }
    Ok(5)
}

// The bytes of a VAR, or its refusal.
fn var_head(part: Part<'_>, scope: Scope, places: &mut [usize; 145]) -> Result<usize, Refusal>
    ensures is { end_of result places.new ≡ var_head scope.state scope.own part.entry.at part.entry.bytes.now places.old }
    ensures inside { IfOk result (λ used. used ≤ length part.entry.bytes.now) }
{
    let v = usize::from(part.operand()?);
    if 8 <= v {
        return Err(part.absent());
    }
    note_var(places, scope, v, part.at);
    Ok(2)
}

// The bytes of a COUNT, or its refusal.
fn count_head(part: Part<'_>, places: &mut [usize; 145]) -> Result<usize, Refusal>
    ensures is { end_of result places.new ≡ count_head part.entry.at part.entry.bytes.now places.old }
    ensures inside { IfOk result (λ used. used ≤ length part.entry.bytes.now) }
{
    let key = state_key(usize::from(part.operand()?));
    note(places, key, part.at);
    Ok(2)
}

// Whether a byte names a list.
pub fn is_list(b: u32) -> bool
    ensures { result ≡ is_list b }
{
    (8..12).contains(&b)
}

// The bytes of a SUM, LENGTH or DIFFERENT, or its refusal.
fn list_head(part: Part<'_>) -> Result<usize, Refusal>
    ensures is { result ≡ list_head part.entry.at part.entry.bytes.now }
    ensures inside { IfOk result (λ used. used ≤ length part.entry.bytes.now) }
{
    if !is_list(u32::from(part.operand()?)) {
        return Err(part.absent());
    }
    Ok(2)
}

// The bytes of the expression command of this sort that the part begins with, without its operands, or its refusal.
fn head_of(
    part: Part<'_>,
    t: Takes,
    scope: Scope,
    places: &mut [usize; 145],
) -> Result<usize, Refusal>
    requires { 0 < length part.bytes.now }
    ensures is { end_of result places.new ≡ head_of scope.state scope.own part.entry.at part.entry.bytes.now places.old t }
    ensures inside { IfOk result (λ used. used ≤ length part.entry.bytes.now) }
{
    match t {
        Takes::Value => const_head(part),
        Takes::Variable => var_head(part, scope, places),
        Takes::State => count_head(part, places),
        Takes::List => list_head(part),
        Takes::Operands(_) => Ok(1),
        Takes::Foreign => Err(part.foreign()),
    }
}

// What the command takes that the part begins with, where one more is allowed, or its refusal.
fn takes_at(part: Part<'_>, depth: usize, left: usize) -> Result<Takes, Refusal>
    ensures is { result ≡ takes_at depth left part.entry.at part.entry.bytes.now }
    ensures allowed { IfOk result (λ t. (0 < length part.entry.bytes.now) × (0 < depth) × (0 < left)) }
{
    let Some(b) = part.bytes.first() else {
        return Err(part.cut_short());
    };
    let t = Takes::from(*b);
    if depth == 0 || left == 0 {
        return Err(over(part, t));
    }
    Ok(t)
}

// An expression in prefix order that the part begins with: its command, then its operands, each at most one level less deep. Its
// VARs and COUNTs are noted.
pub fn read_expr(
    part: Part<'_>,
    depth: usize,
    left: usize,
    scope: Scope,
    places: &mut [usize; 145],
) -> Result<Prefix, Refusal>
    ensures is { end_of result places.new ≡ shape scope.state scope.own part.entry.at places.old (read_expr depth left part.entry.at part.entry.bytes.now) }
    ensures inside { IfOk result (λ p. p.used ≤ length part.entry.bytes.now) }
{
    let takes = takes_at(part, depth, left)?;
    let used = head_of(part, takes, scope, places)?;
    let mut whole = Prefix {
        used,
        left: left - 1,
    };
    for _ in 0..takes.operands() {
        let operand = read_expr(
            part.behind(whole.used),
            depth - 1,
            whole.left,
            scope,
            places,
        )?;
        whole = Prefix {
            used: whole.used + operand.used,
            left: operand.left,
        };
    }
    Ok(whole)
}
