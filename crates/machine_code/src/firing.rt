// Whether a step fires on an event, and the configuration that it leaves.
ghost use Rattle.std.specs.Prelude.{◌≡◌, ◌<◌, false, cond, length, replicate};
ghost use Rattle.event_log.specs.Arrays.{in_event};
ghost use Rattle.machine_code.specs.inner.Bytes.{kept, gained, raised, guard_behind, fired, firing_of};

use crate::readings::Fields;
use crate::{Configuration, Gained, Scene, Walked};
use event_log::Event;
use guard_code::guard::guard_holds;

// One added to a state's counter; a counter stops at 4294967295.
#[tactic(auto, unfolding(crate::specs::inner::Bytes::raised))]
pub fn raise(counters: [u32; 16], s: u32) -> [u32; 16]
    ensures { result ≡ raised counters s }
{
    let i = s as usize;
    let mut then = counters;
    if i < 16 {
        then[i] = then[i].saturating_add(1);
    }
    then
}

impl Scene<'_> {
    // Whether the STEP at an offset fires, and the configuration that it leaves: Ok where it fires, else Err. `rises` marks no field.
    fn fire(&self, at: usize) -> Result<Configuration, Configuration>
        requires { self.now.rises.now ≡ replicate 8 false }
        ensures { result ≡ firing_of (fired self.now.f.now at self.now.c.now self.now.fresh.now self.now.fields) }
    {
        if self.f.len() <= at {
            return Err(*self.c);
        }
        let Some(w) = self.walk(at, |w| !w.passes) else {
            return Err(*self.c);
        };
        let Gained { tallies, .. } = self.gains(at, &w);
        let Walked {
            at: end,
            held,
            values,
            ..
        } = w;
        let counters = raise(self.c.counters, self.c.state);
        let config = Configuration {
            state: base::byte_at(self.f, at + 1),
            held,
            values,
            counters,
            tallies,
        };
        if guard_holds(self.f, end, values, counters, tallies) {
            Ok(config)
        } else {
            Err(config)
        }
    }

    // Whether the guard behind a walk of the STEP at an offset holds, by what the step gathers and the counters raised.
    pub fn holds(&self, at: usize, w: &Walked, counters: &[u32; 16]) -> bool
        requires { at < length self.now.f.now }
        ensures { result ≡ guard_behind self.now.f.now w.now counters.now (cond w.now.gathers (gained self.now.f.now at self.now.c.now.tallies self.now.fresh.now self.now.rises.now self.now.fields) (kept self.now.c.now.tallies)).tallies }
    {
        let gained = self.gains(at, w);
        guard_holds(self.f, w.at, w.values, *counters, gained.tallies)
    }

    // Whether the STEP at an offset fires: the same as of `fire`, without the configuration that it leaves.
    fn passes(&self, at: usize) -> bool
        requires { self.now.rises.now ≡ replicate 8 false }
        ensures { result ≡ (fired self.now.f.now at self.now.c.now self.now.fresh.now self.now.fields).fires }
    {
        if self.f.len() <= at {
            return false;
        }
        let Some(w) = self.walk(at, |w| !w.passes) else {
            return false;
        };
        let counters = raise(self.c.counters, self.c.state);
        self.holds(at, &w, &counters)
    }
}

impl<'a> Scene<'a> {
    // What a step is walked by where it is to fire: an event's fields, none of which rises.
    pub fn on_event(
        f: &'a [u8],
        c: &'a Configuration,
        fresh: &'a [bool; 32],
        event: &'a Event,
    ) -> Scene<'a>
        ensures bytes { result.f.now ≡ f.now }
        ensures before { result.c.now ≡ c.now }
        ensures fields { result.fields ≡ in_event event.now }
        ensures rises { result.rises.now ≡ replicate 8 false }
        ensures fresh { result.fresh.now ≡ fresh.now }
    {
        let fields = Fields::from(event);
        Scene {
            f,
            c,
            fields,
            rises: &[false; 8],
            fresh,
        }
    }
}

// Whether the STEP at an offset fires on an event, and the configuration that it leaves: Ok where it fires, else Err.
pub fn fire(
    f: &[u8],
    at: usize,
    c: Configuration,
    fresh: [bool; 32],
    event: Event,
) -> Result<Configuration, Configuration>
    ensures { result ≡ firing_of (fired f.now at c fresh (in_event event)) }
{
    Scene::on_event(f, &c, &fresh, &event).fire(at)
}

// Whether the STEP at an offset fires on an event: the same as of `fire`, without the configuration that it leaves.
pub fn passes(f: &[u8], at: usize, c: Configuration, fresh: [bool; 32], event: Event) -> bool
    ensures { result ≡ (fired f.now at c fresh (in_event event)).fires }
{
    Scene::on_event(f, &c, &fresh, &event).passes(at)
}
