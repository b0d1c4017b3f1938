// The lists gathered along threads' trails: read back, the values that are new to them, and compared.
ghost use Rattle.std.specs.Prelude.{◌≡◌, true, ℕ, ◌+◌, ◌<◌, get_or};
ghost use Rattle.threads.specs.inner.Calls.{ListsIs, FreshIs, SameListsIs};

use crate::Scene;
use slots::Thread;

// Whether nothing was gathered: the lengths of the four lists are 0.
fn is_empty(tallies: &[u32; 12]) -> bool
    ensures { result ≡ true → (v : ℕ) → v < 4 → get_or tallies.now (4 + v) 0 ≡ 0 }
{
    tallies[4..8].iter().all(|n| *n == 0)
}

impl Scene<'_> {
    // The lists of a thread, read back from its trail and its number of steps.
    fn lists_at(&self, t: &Thread) -> [u32; 132]
        ensures { ListsIs self.now t.now result }
    {
        if self.table.len() < 256 {
            return [0; 132];
        }
        lists::lists_of(
            self.log,
            self.places,
            self.rules.fields,
            self.formula,
            &self.table[256..],
            t.trail,
            t.steps as usize,
        )
    }

    // Which of an event's values are new to the lists of a thread: every one where nothing was gathered.
    pub(crate) fn fresh_at(&self, t: &Thread, values: &[u32; 8]) -> [bool; 32]
        ensures { FreshIs self.now t.now values.now result }
    {
        if is_empty(&t.config.tallies) {
            return [true; 32];
        }
        lists::fresh_of(self.lists_at(t), *values)
    }

    // Whether two threads have gathered the same lists, read back and compared.
    fn same_read(&self, a: &Thread, b: &Thread) -> bool
        ensures { SameListsIs self.now a.now b.now result }
    {
        slots::same_words(&self.lists_at(a), &self.lists_at(b))
    }

    // Whether two threads whose words hold the same have gathered the same lists: so it is where neither has gathered.
    pub(crate) fn same_lists(&self, a: &Thread, b: &Thread) -> bool
        ensures { SameListsIs self.now a.now b.now result }
    {
        if is_empty(&a.config.tallies) && is_empty(&b.config.tallies) {
            return true;
        }
        self.same_read(a, b)
    }
}
