// The next command of a formula file: taken, END, or its refusal.
#![tactic(auto)]

ghost use Rattle.std.specs.Prelude.{◌≡◌, ◌-◌, ◌≤◌, ◌<◌, length};
ghost use Rattle.formula.specs.Read.{allowed, room, again, next};
ghost use Rattle.command_reader.specs.inner.Take.{fixed_at, state_at, step_at, tied_at, test_at, testv_at, bind_at, gather_at, guard_at, taken_at, taken_end, next_end, next_shape};

use expression_reader::{Part, Scope, is_list, read_expr};
use formula::{Opcode, Summary};
use refusal::Refusal;

// A command of the file with what is kept of it.
#[derive(Clone, Copy)]
pub enum Command {
    Tied(usize),
    State(u32),
    Step(usize),
    Test,
    Testv(usize),
    Bind(usize),
    Gather(usize),
    Guard,
}

// A command with its number of bytes.
#[derive(Clone, Copy)]
pub struct Taken {
    pub command: Command,
    pub used: usize,
}

// Whether the command is allowed here.
fn is_allowed(s: Summary, op: Opcode) -> bool
    ensures { result ≡ allowed s op }
{
    match op {
        Opcode::End => 0 < s.states,
        Opcode::State => true,
        Opcode::Step => 0 < s.states && !s.closed,
        Opcode::Test | Opcode::Testv | Opcode::Bind | Opcode::Gather => 0 < s.steps && !s.guarded,
        Opcode::Guard => 0 < s.steps,
        Opcode::Tied => s.states == 0,
        Opcode::Other => false,
    }
}

// Whether there is room for one more.
fn has_room(s: Summary, op: Opcode) -> bool
    ensures { result ≡ room s op }
{
    match op {
        Opcode::State => s.states < 16,
        Opcode::Step => s.steps < 8,
        Opcode::Test | Opcode::Testv | Opcode::Bind | Opcode::Gather => s.clauses < 8,
        Opcode::Guard => !s.guarded,
        Opcode::Tied => s.tied < 8,
        Opcode::End | Opcode::Other => true,
    }
}

// A command of a fixed width: cut short, or with an operand that does not exist, or taken.
#[tactic(auto, unfolding(crate::specs::inner::Take::fixed_at))]
fn fixed(part: Part<'_>, used: usize, exist: bool, command: Command) -> Result<Taken, Refusal>
    ensures { result ≡ fixed_at part.entry.bytes.now part.entry.at used exist command }
{
    if part.bytes.len() < used {
        return Err(part.cut_short());
    }
    if !exist {
        return Err(part.absent());
    }
    Ok(Taken { command, used })
}

// A STATE, or its refusal.
fn take_state(part: Part<'_>) -> Result<Taken, Refusal>
    ensures { result ≡ state_at part.entry.bytes.now part.entry.at }
{
    let k = part.byte(1);
    fixed(part, 2, k < 4, Command::State(u32::from(k)))
}

// A STEP, or its refusal.
fn take_step(part: Part<'_>) -> Result<Taken, Refusal>
    ensures { result ≡ step_at part.entry.bytes.now part.entry.at }
{
    let t = usize::from(part.byte(1));
    fixed(part, 2, true, Command::Step(t))
}

// A TIED, or its refusal.
fn take_tied(part: Part<'_>) -> Result<Taken, Refusal>
    ensures { result ≡ tied_at part.entry.bytes.now part.entry.at }
{
    let v = usize::from(part.byte(1));
    fixed(part, 2, v < 8, Command::Tied(v))
}

// A TEST, or its refusal; the operators are 0 to 5.
fn take_test(part: Part<'_>, fields: usize) -> Result<Taken, Refusal>
    ensures { result ≡ test_at part.entry.bytes.now part.entry.at fields }
{
    let f = usize::from(part.byte(1));
    let o = part.byte(2);
    fixed(part, 7, f < fields && o < 6, Command::Test)
}

// A TESTV, or its refusal; the operators are 0 to 5.
fn take_testv(part: Part<'_>, fields: usize) -> Result<Taken, Refusal>
    ensures { result ≡ testv_at part.entry.bytes.now part.entry.at fields }
{
    let f = usize::from(part.byte(1));
    let o = part.byte(2);
    let v = usize::from(part.byte(3));
    fixed(part, 4, f < fields && o < 6 && v < 8, Command::Testv(v))
}

// A BIND, or its refusal.
fn take_bind(part: Part<'_>, fields: usize) -> Result<Taken, Refusal>
    ensures { result ≡ bind_at part.entry.bytes.now part.entry.at fields }
{
    let f = usize::from(part.byte(1));
    let v = usize::from(part.byte(2));
    fixed(part, 3, f < fields && v < 8, Command::Bind(v))
}

// Whether a byte names a list that the step gathers into already.
fn is_again(seen: [bool; 4], b: u8) -> bool
    ensures { result ≡ again seen b }
{
    is_list(u32::from(b)) && seen[usize::from(b) - 8]
}

// A GATHER in a step that gathers into the lists marked, or its refusal.
fn take_gather(part: Part<'_>, fields: usize, seen: [bool; 4]) -> Result<Taken, Refusal>
    ensures { result ≡ gather_at seen part.entry.bytes.now part.entry.at fields }
{
    if part.bytes.len() < 3 {
        return Err(part.cut_short());
    }
    let f = usize::from(part.byte(1));
    let v = part.byte(2);
    let exist = f < fields && is_list(u32::from(v));
    if is_again(seen, v) {
        return Err(Refusal::Twice { place: part.at });
    }
    let list = usize::from(v).saturating_sub(8);
    fixed(part, 3, exist, Command::Gather(list))
}

// A GUARD with its expression, or the refusal.
fn take_guard(part: Part<'_>, scope: Scope, places: &mut [usize; 145]) -> Result<Taken, Refusal>
    requires { 0 < length part.bytes.now }
    ensures { taken_end result places.new ≡ guard_at scope.state scope.own part.entry.bytes.now part.entry.at places.old }
{
    let guard = read_expr(part.behind(1), 8, 31, scope, places)?;
    Ok(Taken {
        command: Command::Guard,
        used: 1 + guard.used,
    })
}

// A command that is allowed and has room, by the byte that names it: taken, none for END, or its refusal.
fn take_command(
    op: Opcode,
    part: Part<'_>,
    fields: usize,
    scope: Scope,
    seen: [bool; 4],
    places: &mut [usize; 145],
) -> Result<Option<Taken>, Refusal>
    requires { 0 < length part.bytes.now }
    ensures { next_end result places.new ≡ taken_at scope.state scope.own seen fields part.entry.bytes.now part.entry.at places.old op }
{
    let taken = match op {
        Opcode::End => return Ok(None),
        Opcode::State => take_state(part),
        Opcode::Step => take_step(part),
        Opcode::Test => take_test(part, fields),
        Opcode::Testv => take_testv(part, fields),
        Opcode::Bind => take_bind(part, fields),
        Opcode::Guard => take_guard(part, scope, places),
        Opcode::Tied => take_tied(part),
        Opcode::Gather => take_gather(part, fields, seen),
        Opcode::Other => Err(part.foreign()),
    };
    taken.map(Some)
}

// The next command, which the part begins with, none for END, or the refusal; `own` marks the variables that the last step binds.
#[tactic(auto, using(crate::proofs::NextCommand::next_is), unfolding(crate::specs::inner::Take::next_at))]
pub fn next_command(
    part: Part<'_>,
    fields: usize,
    s: Summary,
    own: [bool; 8],
    places: &mut [usize; 145],
) -> Result<Option<Taken>, Refusal>
    requires { s.states ≤ 16 }
    ensures { next_end result places.new ≡ next_shape (s.states - 1) own part.entry.at places.old (next fields s part.entry.at part.entry.bytes.now) }
{
    let Some(b) = part.bytes.first() else {
        return Err(part.cut_short());
    };
    let op = Opcode::from(*b);
    if !is_allowed(s, op) {
        return Err(part.foreign());
    }
    if !has_room(s, op) {
        return Err(part.surplus());
    }
    let scope = Scope {
        state: s.states.saturating_sub(1),
        own,
    };
    take_command(op, part, fields, scope, s.gathered, places)
}
