// Inserting a thread into a list: words are compared first and, where they agree, the lists read back from the trails.
ghost use Rattle.threads.specs.inner.Event.{Seated};
ghost use Rattle.threads.specs.inner.Calls.{FoundIs, InsertIs};

use crate::{Scene, Seats};
use slots::Thread;

impl Scene<'_> {
    // The first of the threads that stands for the same configuration.
    fn find(&self, work: &[u32], seats: Seats, b: &Thread) -> Option<usize>
        requires { Seated seats work.now }
        ensures { FoundIs self.now seats b.now work.now result }
    {
        let mut from = 0;
        while let Some(j) = slots::find_from(work, seats.half, seats.count, from, b.config) {
            let a = slots::load_slot(work, j, seats.half);
            if self.same_lists(&a, b) {
                return Some(j);
            }
            from = j + 1;
        }
        None
    }

    // Inserts a thread into a list: where a thread stands for the same configuration the lesser trail is kept, else it is appended.
    // The count of the list then, none where there is no room: every word stays.
    pub(crate) fn insert(&self, work: &mut [u32], seats: Seats, b: &Thread) -> Option<usize>
        requires { Seated seats work.old }
        ensures { InsertIs self.now seats b.now work.old work.new result }
    {
        let at = self.find(work, seats, b);
        slots::insert_at(work, seats.half, seats.count, seats.slots, at, *b)
    }
}
