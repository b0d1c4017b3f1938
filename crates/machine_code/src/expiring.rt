// Whether a step is expired (the paper's hopeless) after an event.
ghost use Rattle.std.specs.Prelude.{◌≡◌};
ghost use Rattle.event_log.specs.Arrays.{in_latest};
ghost use Rattle.machine_code.specs.inner.Bytes.{falls_behind, lapsed};

use crate::firing::raise;
use crate::readings::Fields;
use crate::{Configuration, Gained, Scene, Walked};
use event_log::Latest;
use guard_code::Marks;
use guard_code::guard::guard_holds;
use guard_code::trends::guard_falls;

impl Scene<'_> {
    // Whether the guard behind a walk is falling, given what the step gathers.
    fn falls_behind(&self, w: &Walked, g: &Gained) -> bool
        ensures { result ≡ falls_behind self.now.f.now w.now.at self.now.c.now.held w.now.grows g.now }
    {
        let falling = Marks {
            variables: self.c.held,
            sums: g.unchanged,
            differents: g.unchanged,
        };
        let growing = Marks {
            variables: w.grows,
            sums: g.rising,
            differents: g.unchanged,
        };
        guard_falls(self.f, w.at, falling, growing)
    }

    // Whether the STEP at an offset is expired.
    pub fn lapses(&self, at: usize) -> bool
        ensures { result ≡ lapsed self.now.f.now at self.now.c.now self.now.fresh.now self.now.rises.now self.now.fields }
    {
        if self.f.len() <= at {
            return true;
        }
        let Some(w) = self.walk(at, |w| w.due) else {
            return true;
        };
        let gained = self.gains(at, &w);
        let counters = raise(self.c.counters, self.c.state);
        !guard_holds(self.f, w.at, w.values, counters, gained.tallies)
            && self.falls_behind(&w, &gained)
    }
}

// Whether the STEP at an offset is expired by these values; `rises` marks the rising fields.
pub fn expired(
    f: &[u8],
    at: usize,
    c: Configuration,
    fresh: [bool; 32],
    rises: [bool; 8],
    latest: Latest,
) -> bool
    ensures { result ≡ lapsed f.now at c fresh rises (in_latest latest) }
{
    let fields = Fields::from(&latest);
    let scene = Scene {
        f,
        c: &c,
        fields,
        rises: &rises,
        fresh: &fresh,
    };
    scene.lapses(at)
}
