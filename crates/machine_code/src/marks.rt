// What an event alone says of a step: an absent field, or a TEST, which reads no variable. One pass over a step's clauses serves every configuration.
// What it says with the values held before the step; and what the step's bytes alone say of its expiry.
ghost use Rattle.std.specs.Prelude.{◌≡◌, ◌≤◌, ◌<◌, ◌+◌, ℕ, length, MatchResult};
ghost use Rattle.event_log.specs.Event.{together};
ghost use Rattle.machine_code.specs.inner.Bytes.{width_of};
ghost use Rattle.machine_code.specs.inner.Marks.{BarredIs, BarsIs, DueIs, LastsIs, PickedIs, EndedIs, fails_at, misses_at, denies_at, ages_at};

use crate::clauses::{holds, missed};
use crate::readings::Fields;
use crate::{BIND, GATHER, GUARD, TEST, TESTV};

// The bytes of a clause, by its command; 0 for what is no clause.
#[tactic(auto, unfolding(crate::specs::inner::Bytes::width_of))]
pub fn width(command: u32) -> usize
    ensures { result ≡ width_of command }
{
    match command {
        TEST => 7,
        TESTV => 4,
        BIND | GATHER => 3,
        _ => 0,
    }
}

// The place of the first clause from a place on that a test picks; else, as an error, where they end: where no clause stands, or one with
// fewer than `room` bytes from its first on, which the test may read.
fn first<F: Fn(u32, usize) -> bool>(
    f: &[u8],
    from: usize,
    room: usize,
    picks: F,
) -> Result<usize, usize>
    requires near { from ≤ length f.now + 1 }
    requires room { (1 ≤ room) × (room ≤ 7) }
    requires callable { (c p : ℕ) → p + room ≤ length f.now → F.pre picks c p }
    ensures { MatchResult result
        (PickedIs (λ c p. F.post picks c p) f.now from)
        (EndedIs (λ c p. F.post picks c p) f.now from room) }
{
    let mut place = from;
    while place + room <= f.len() {
        let command = u32::from(f[place]);
        let taken = width(command);
        if taken == 0 {
            return Err(place);
        }
        if picks(command, place) {
            return Ok(place);
        }
        place += taken;
    }
    Err(place)
}

// Whether the clause there is of an absent field, or a TEST that is false on the event.
#[tactic(auto, unfolding(crate::specs::inner::Marks::fails_at))]
fn fails(f: &[u8], command: u32, place: usize, event: &Fields<'_>) -> bool
    requires { place + 7 ≤ length f.now }
    ensures { result ≡ fails_at f.now command place event.now }
{
    let field = u32::from(f[place + 1]);
    !event.has(field)
        || command == TEST
            && !holds(
                u32::from(f[place + 2]),
                event.reading(field),
                base::value_inside(f, place + 3),
            )
}

// Whether the command there is a TEST that is past due by these values.
#[tactic(auto, unfolding(crate::specs::inner::Marks::misses_at))]
fn misses(f: &[u8], command: u32, place: usize, rises: &[bool], latest: &Fields<'_>) -> bool
    requires { place + 7 ≤ length f.now }
    ensures { result ≡ misses_at f.now command place rises.now latest.now }
{
    let field = u32::from(f[place + 1]);
    command == TEST
        && base::get_or(rises, field as usize, false)
        && latest.has(field)
        && missed(
            u32::from(f[place + 2]),
            latest.reading(field),
            base::value_inside(f, place + 3),
        )
}

// The place of the first clause of the STEP at an offset that is of an absent field, or a TEST that is false on the event: with such a
// clause the step does not fire, whatever the configuration.
pub fn barred(f: &[u8], at: usize, event: &[u32], there: &[bool]) -> Option<usize>
    ensures { BarredIs f.now at (together there.now event.now) result }
{
    if f.len() <= at {
        return None;
    }
    let event = Fields::new(event, there);
    first(f, at + 2, 7, |command, place| {
        fails(f, command, place, &event)
    })
    .ok()
}

// Whether a TEST from a place on is past due by these values: the step whose clause stands there is expired, whatever the
// configuration.
pub fn due(f: &[u8], from: usize, rises: &[bool], latest: &[u32], there: &[bool]) -> bool
    ensures { DueIs f.now from rises.now (together there.now latest.now) result }
{
    if f.len() <= from {
        return false;
    }
    let latest = Fields::new(latest, there);
    first(f, from, 7, |command, place| {
        misses(f, command, place, rises, &latest)
    })
    .is_ok()
}

// Whether the clause there is a TESTV that is false on the event, or a BIND of a held variable to another value.
#[tactic(auto, unfolding(crate::specs::inner::Marks::denies_at))]
fn denies(
    f: &[u8],
    command: u32,
    place: usize,
    held: &[bool; 8],
    prior: &[u32; 8],
    event: &Fields<'_>,
) -> bool
    requires { place + 4 ≤ length f.now }
    ensures { result ≡ denies_at f.now command place held.now prior.now event.now }
{
    let field = u32::from(f[place + 1]);
    match command {
        TESTV => {
            let x = event.reading(field);
            let v = usize::from(f[place + 3]);
            !holds(u32::from(f[place + 2]), x, base::get_or(prior, v, 0))
        }
        BIND => {
            let v = usize::from(f[place + 2]);
            base::get_or(held, v, false) && event.reading(field) != base::get_or(prior, v, 0)
        }
        _ => false,
    }
}

// Whether a TESTV or a BIND keeps the STEP at an offset from firing on the event, for a configuration with these held variables
// and values. For speed alone: a function that never says so would meet the contract.
pub fn bars(
    f: &[u8],
    at: usize,
    held: &[bool; 8],
    prior: &[u32; 8],
    event: &[u32; 8],
    there: &[bool; 8],
) -> bool
    ensures { BarsIs f.now at held.now prior.now (together there.now event.now) result }
{
    if f.len() <= at {
        return false;
    }
    let event = Fields::new(event, there);
    first(f, at + 2, 4, |command, place| {
        denies(f, command, place, held, prior, &event)
    })
    .is_ok()
}

// Whether the command there is a TEST or a TESTV with less or at most of a rising field.
#[tactic(auto, unfolding(crate::specs::inner::Marks::ages_at))]
fn ages(f: &[u8], command: u32, place: usize, rises: &[bool; 8]) -> bool
    requires { place < length f.now }
    ensures { result ≡ ages_at f.now command place rises.now }
{
    let operator = base::byte_at(f, place + 2);
    let field = base::byte_at(f, place + 1) as usize;
    matches!(command, TEST | TESTV)
        && matches!(operator, 2 | 4)
        && base::get_or(rises, field, false)
}

// Whether the STEP at an offset can never be expired, whatever the configuration and the values: it has no guard, and no TEST or
// TESTV with less or at most of a rising field. For speed alone: a function that never says so would meet the contract.
pub fn lasts(f: &[u8], at: usize, rises: &[bool; 8]) -> bool
    ensures { LastsIs f.now at rises.now result }
{
    if f.len() <= at {
        return false;
    }
    match first(f, at + 2, 1, |command, place| {
        ages(f, command, place, rises)
    }) {
        Ok(_) => false,
        Err(end) => base::byte_at(f, end) != GUARD,
    }
}
