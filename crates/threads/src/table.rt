// The table of an event, derived from the reader's table of steps and from nothing else, in three parts: where each step stands, in
// the first 0 where the event alone keeps the step from firing, in the second 0 where the last present values alone make it expired. A
// TEST reads no variable, so that one look serves every thread.
ghost use Rattle.std.specs.Prelude.{◌<◌};
ghost use Rattle.threads.specs.inner.Event.{Seated};
ghost use Rattle.threads.specs.inner.Setting.{Wide, MarkedIs, LastsAt, LastingIs, QuietIs};

use crate::{Moment, Seats};
use machine_code::marks::{barred, due, lasts};
use machine_code::steps::step_offset;

// The three parts, before an event says anything.
pub fn widened(steps: &[usize; 128]) -> [usize; 384]
    ensures { Wide steps.now result }
{
    let mut table = [0; 384];
    for i in 0..128 {
        table[i] = steps[i];
        table[128 + i] = steps[i];
        table[256 + i] = steps[i];
    }
    table
}

// Whether the step at an offset is there and never expires.
fn lasts_at(f: &[u8], at: usize, rises: &[bool; 8]) -> bool
    ensures { LastsAt f.now at rises.now result }
{
    at != 0 && at < f.len() && lasts(f, at, rises)
}

// States some step of which never expires, by the table of steps. For speed alone: a function that marks none would meet the contract.
pub fn lasting(f: &[u8], steps: &[usize; 128], rises: &[bool; 8]) -> [bool; 16]
    ensures { LastingIs f.now steps.now rises.now result }
{
    let mut states = [false; 16];
    for (i, at) in steps.iter().enumerate() {
        if lasts_at(f, *at, rises) {
            states[i / 8] = true;
        }
    }
    states
}

// Whether the event's table has no step of a state.
pub fn is_quiet(table: &[usize], s: u32) -> bool
    ensures { QuietIs table.now s result }
{
    (0..8).all(|k| step_offset(table, s, k) == 0)
}

// What tells an event's table: the formula's bytes, the table of its steps, which fields rise, and the event.
#[derive(Clone, Copy)]
pub struct Marker<'a> {
    pub formula: &'a [u8],
    pub steps: &'a [usize],
    pub rises: &'a [bool],
    pub moment: &'a Moment,
}

impl Marker<'_> {
    // What the event alone says of the step at index i. A TEST past due is false on the event or of an absent field, so it is looked for
    // from the first such clause on.
    fn mark_entry(&self, table: &mut [usize; 384], i: usize)
        requires { i < 128 }
        ensures { MarkedIs self.now.formula.now self.now.steps.now self.now.rises.now self.now.moment.now table.old table.new }
    {
        let at = base::get_or(self.steps, i, 0);
        let event = &self.moment.event;
        let Some(place) = barred(self.formula, at, &event.values, &event.present) else {
            return;
        };
        let latest = &self.moment.latest;
        table[i] = 0;
        if due(
            self.formula,
            place,
            self.rises,
            &latest.values,
            &latest.present,
        ) {
            table[128 + i] = 0;
        }
    }

    // What the event alone says of the steps of a state.
    fn mark_state(&self, table: &mut [usize; 384], s: usize)
        requires { s < 16 }
        ensures { MarkedIs self.now.formula.now self.now.steps.now self.now.rises.now self.now.moment.now table.old table.new }
    {
        for k in 0..8 {
            let i = s * 8 + k;
            if base::get_or(self.steps, i, 0) != 0 {
                self.mark_entry(table, i);
            }
        }
    }

    // What the event alone says of the steps of the states that threads wait in, each looked at once.
    pub fn mark_states(&self, table: &mut [usize; 384], work: &[u32], seats: Seats)
        requires { Seated seats work.now }
        ensures { MarkedIs self.now.formula.now self.now.steps.now self.now.rises.now self.now.moment.now table.old table.new }
    {
        let mut done = [false; 16];
        for j in 0..seats.count {
            let s = slots::state_at(work, j, seats.half) as usize;
            if s < 16 && !done[s] {
                self.mark_state(table, s);
                done[s] = true;
            }
        }
    }
}
