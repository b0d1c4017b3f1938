// One step of a thread, by the code over the formula's bytes.
ghost use Rattle.threads.specs.inner.Calls.{EndsIs, MayIs, CanEndIs, FirstTakenIs, FiresIs, LowestIs, HopefulIs};

use crate::Scene;
use machine_code::firing::{fire, passes};
use machine_code::steps::{hopeful, lowest, step_offset};
use slots::Thread;

impl Scene<'_> {
    // Whether step k of a state leads to a state that accepts or rejects: such a step ends runs and leaves nothing to wait.
    pub(crate) fn ends_by(&self, state: u32, k: u32) -> bool
        ensures { EndsIs self.now state k result }
    {
        let at = step_offset(self.table, state, k as usize);
        at < self.formula.len() && self.rules.is_final(base::byte_at(self.formula, at + 1))
    }

    // Whether step k of a state may end runs on the event, or, with `ends` false, may leave what waits, as far as its target, the event's
    // table and the variables that a thread holds tell. For speed alone: one that says so of every step in the table would meet the contract.
    pub(crate) fn may(
        &self,
        state: u32,
        held: &[bool; 8],
        prior: &[u32; 8],
        k: u32,
        ends: bool,
    ) -> bool
        ensures { MayIs self.now state held.now prior.now k ends result }
    {
        let at = step_offset(self.table, state, k as usize);
        if at == 0 || self.formula.len() <= at {
            return false;
        }
        let kind = self.rules.kind_of(base::byte_at(self.formula, at + 1));
        if (2 <= kind) != ends {
            return false;
        }
        let event = &self.moment.event;
        !machine_code::marks::bars(self.formula, at, held, prior, &event.values, &event.present)
    }

    // Whether some step of a state may end runs on the event.
    pub(crate) fn can_end(&self, state: u32, held: &[bool; 8], prior: &[u32; 8]) -> bool
        ensures { CanEndIs self.now state held.now prior.now result }
    {
        for k in 0..8 {
            if self.may(state, held, prior, k, true) {
                return true;
            }
        }
        false
    }

    // The number of the lowest numbered step of a thread's state that fires on the event and ends a run, or, with `ends` false, that fires
    // and ends none. `ends` stays a test: it is compared with what a step does and selects no code.
    pub(crate) fn first_taken(&self, t: &Thread, ends: bool) -> Option<u32>
        ensures { FirstTakenIs self.now t.now ends result }
    {
        let config = &t.config;
        let fresh = self.fresh_at(t, &self.moment.event.values);
        'steps: {
            for k in 0..8 {
                if !self.may(config.state, &config.held, &config.values, k, ends) {
                    continue;
                }
                let at = step_offset(self.table, config.state, k as usize);
                if passes(self.formula, at, *config, fresh, self.moment.event) {
                    break 'steps Some(k);
                }
            }
            None
        }
    }

    // Step k of a thread's state on the event: the thread in the configuration that it leaves, its trail as before, if it fires.
    pub(crate) fn fires_at(&self, t: &Thread, k: u32) -> Option<Thread>
        ensures { FiresIs self.now t.now k result }
    {
        let at = step_offset(self.table, t.config.state, k as usize);
        if at == 0 {
            return None;
        }
        let fresh = self.fresh_at(t, &self.moment.event.values);
        let config = fire(self.formula, at, t.config, fresh, self.moment.event).ok()?;
        Some(Thread { config, ..*t })
    }

    // The number of the lowest numbered step of a thread's state that fires on the event.
    pub(crate) fn lowest_at(&self, t: &Thread) -> Option<u32>
        ensures { LowestIs self.now t.now result }
    {
        let fresh = self.fresh_at(t, &self.moment.event.values);
        let k = lowest(self.formula, self.table, t.config, fresh, self.moment.event)?;
        Some(k as u32)
    }

    // Whether some step of a thread's state is not expired after the event.
    pub(crate) fn hopeful_at(&self, t: &Thread) -> bool
        ensures { HopefulIs self.now t.now result }
    {
        if self.table.len() < 128 {
            return false;
        }
        if self.rules.is_lasting(t.config.state) {
            return true;
        }
        let fresh = self.fresh_at(t, &self.moment.latest.values);
        hopeful(
            self.formula,
            &self.table[128..],
            t.config,
            fresh,
            self.rules.rises,
            self.moment.latest,
        )
    }
}
