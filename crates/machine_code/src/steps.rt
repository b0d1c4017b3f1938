// The steps of a configuration's state, by their offsets: step k of state s stands in the table at s * 8 + k, 0 where there is none.
ghost use Rattle.std.specs.Prelude.{◌≡◌, false, replicate};
ghost use Rattle.base.specs.Lists.{some_below};
ghost use Rattle.event_log.specs.Arrays.{in_event, in_latest};
ghost use Rattle.machine_code.specs.inner.Bytes.{offset_of, is_step, fires_at, lowest_of, expires_at, alive_below};

use crate::clauses::is_clause;
use crate::firing::raise;
use crate::readings::Fields;
use crate::{Configuration, Scene, Walked};
use event_log::{Event, Latest};

// Where step k of state s stands, 0 where there is none, as in the table (`offset_of`).
#[tactic(auto, unfolding(crate::specs::inner::Bytes::offset_of))]
pub fn step_offset(table: &[usize], s: u32, k: usize) -> usize
    ensures { result ≡ offset_of table.now s k }
{
    if 8 <= k {
        return 0;
    }
    let i = s as usize * 8 + k;
    base::get_or(table, i, 0)
}

// Whether an offset is that of a step.
#[tactic(auto, unfolding(crate::specs::inner::Bytes::is_step))]
fn is_step(f: &[u8], at: usize) -> bool
    ensures { result ≡ is_step f.now at }
{
    at != 0 && at < f.len()
}

impl Scene<'_> {
    // Whether step k of the configuration's state is expired, as is one that is not there.
    #[tactic(auto, unfolding(crate::specs::inner::Bytes::expires_at))]
    fn expires(&self, table: &[usize], k: usize) -> bool
        ensures { result ≡ expires_at self.now.f.now table.now self.now.c.now self.now.fresh.now self.now.rises.now self.now.fields k }
    {
        let at = step_offset(table, self.c.state, k);
        !is_step(self.f, at) || self.lapses(at)
    }

    // The number of the lowest numbered step of the configuration's state that fires.
    fn lowest(&self, table: &[usize]) -> Option<usize>
        requires { self.now.rises.now ≡ replicate 8 false }
        ensures { result ≡ some_below 8 (lowest_of (fires_at self.now.f.now table.now self.now.c.now self.now.fresh.now self.now.fields)) }
    {
        let counters = raise(self.c.counters, self.c.state);
        'steps: {
            'step: for k in 0..8 {
                let at = step_offset(table, self.c.state, k);
                if !is_step(self.f, at) {
                    continue;
                }
                let mut w = Walked::begin(at, self.c);
                while is_clause(self.f, w.at) {
                    self.clause(&mut w);
                    if !w.passes {
                        continue 'step;
                    }
                }
                if self.holds(at, &w, &counters) {
                    break 'steps Some(k);
                }
            }
            None
        }
    }

    // Whether some step of the configuration's state is not expired.
    #[tactic(auto, unfolding(crate::specs::inner::Bytes::alive_below))]
    fn hopeful(&self, table: &[usize]) -> bool
        ensures { result ≡ alive_below (expires_at self.now.f.now table.now self.now.c.now self.now.fresh.now self.now.rises.now self.now.fields) 8 }
    {
        for k in 0..8 {
            if !self.expires(table, k) {
                return true;
            }
        }
        false
    }
}

// The number of the lowest numbered step of the configuration's state that fires on the event.
pub fn lowest(
    f: &[u8],
    table: &[usize],
    c: Configuration,
    fresh: [bool; 32],
    event: Event,
) -> Option<usize>
    ensures { result ≡ some_below 8 (lowest_of (fires_at f.now table.now c fresh (in_event event))) }
{
    Scene::on_event(f, &c, &fresh, &event).lowest(table)
}

// Whether some step of the configuration's state is not expired by these values.
pub fn hopeful(
    f: &[u8],
    table: &[usize],
    c: Configuration,
    fresh: [bool; 32],
    rises: [bool; 8],
    latest: Latest,
) -> bool
    ensures { result ≡ alive_below (expires_at f.now table.now c fresh rises (in_latest latest)) 8 }
{
    let fields = Fields::from(&latest);
    let scene = Scene {
        f,
        c: &c,
        fields,
        rises: &rises,
        fresh: &fresh,
    };
    scene.hopeful(table)
}
