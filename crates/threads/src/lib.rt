// One event of a search: the runs that end on it, and the waiting list after it, with threads in lent words.
#![tactic(auto)]

mod gathered;
mod insertion;
mod scene;
mod step;
pub mod table;

ghost use Rattle.std.specs.Prelude.{◌≡◌, false, IfSome, ◌+◌, ◌*◌, ◌≤◌, ◌<◌, leb, eqb, length, get_or};
ghost use Rattle.threads.specs.inner.Event.{Seated, EndingIs, SettledIs};
ghost use Rattle.threads.specs.inner.Calls.{MovedIs, StepNumber, LowestIs, FirstTakenIs, ChoiceIs, BetterIs, MayEndIs, EndedIs, WaitsIs, OfferIs, OfferMoveIs, OfferMovesIs, RemainIs, IdlesIs, SiftOneIs, SiftIs, MergeIs};
ghost use Rattle.slots.specs.inner.Words.{thread_at, place};

use event_log::{Event, Latest};
pub use scene::Scene;
use slots::Thread;

// What stays from event to event: the kind of each state (0 ordinary, 1 committed, 2 accept, 3 reject), which fields
// rise, how many fields the log has, and states some step of which never expires. A kind stays a number: it is the file's own byte, as its
// reader (formula_code) has it and `Setting.kinds_are` says.
#[derive(Clone, Copy)]
pub struct Rules {
    pub kinds: [u32; 16],
    pub rises: [bool; 8],
    pub fields: usize,
    pub lasting: [bool; 16],
}

impl Rules {
    // The kind of a state.
    fn kind_of(&self, state: u32) -> u32
        ensures { result ≡ get_or self.now.kinds state 0 }
    {
        base::get_or(&self.kinds, state as usize, 0)
    }

    // Whether a state accepts or rejects.
    fn is_final(&self, state: u32) -> bool
        ensures { result ≡ leb 2 (get_or self.now.kinds state 0) }
    {
        2 <= self.kind_of(state)
    }

    // Whether a state is committed.
    fn is_committed(&self, state: u32) -> bool
        ensures { result ≡ eqb (get_or self.now.kinds state 0) 1 }
    {
        self.kind_of(state) == 1
    }

    // Whether a state is marked as one some step of which never expires.
    fn is_lasting(&self, state: u32) -> bool
        ensures { result ≡ get_or self.now.lasting state false }
    {
        base::get_or(&self.lasting, state as usize, false)
    }
}

// An event with its number, and the values by which steps are judged expired after it.
#[derive(Clone, Copy)]
pub struct Moment {
    pub number: u32,
    pub event: Event,
    pub latest: Latest,
}

// Where a list of threads stands: the half of the slots, its count of threads, and how many slots there are.
#[derive(Clone, Copy)]
pub struct Seats {
    pub half: usize,
    pub count: usize,
    pub slots: usize,
}

// The steps that a thread may take on an event, those numbered from `from` on and below `to`, and whether it may stay.
#[derive(Clone, Copy)]
struct Choice {
    from: u32,
    to: u32,
    stays: bool,
}

// How many threads of a waiting list stay on the event, and how many threads their moves leave.
#[derive(Clone, Copy)]
struct Sifted {
    stayed: usize,
    moved: usize,
}

// Whether the thread of a slot can do nothing on the event but wait, as its state and its number of steps say. For speed alone: a
// function that never says so would meet the contract.
fn idles(work: &[u32], slot: usize, half: usize, table: &[usize], rules: &Rules) -> bool
    requires { (slot * 192 + 192 ≤ length work.now) × (half < 2) }
    ensures { IdlesIs table.now rules.now (thread_at work.now (place half slot)) result }
{
    if slots::steps_at(work, slot, half) == 0 {
        return false;
    }
    let s = slots::state_at(work, slot, half);
    rules.is_lasting(s) && table::is_quiet(table, s)
}

impl Scene<'_> {
    // Step k of a thread's state on the event: the thread with that step taken, if it fires.
    fn moved(&self, t: &Thread, k: u32) -> Option<Thread>
        requires { k < 8 }
        ensures { MovedIs self.now t.now k result }
    {
        let next = self.fires_at(t, k)?;
        if next.steps < 32 {
            Some(slots::with_step(next, self.moment.number, k))
        } else {
            None
        }
    }

    // What a thread may do on the event: in a committed state the lowest numbered step that fires is taken, which `lowest` finds; else
    // each step, and once the first step is taken they may be passed over.
    fn choice_of<F: FnOnce() -> Option<u32>>(&self, t: &Thread, lowest: F) -> Choice
        requires callable { F.IsAlwaysCallable lowest }
        requires number { (r : _) → F.post lowest r → StepNumber r }
        ensures { ChoiceIs self.now t.now (F.post lowest) result }
    {
        let begun = 0 < t.steps;
        if !self.rules.is_committed(t.config.state) {
            return Choice {
                from: 0,
                to: 8,
                stays: begun,
            };
        }
        match lowest() {
            Some(k) => Choice {
                from: k,
                to: k + 1,
                stays: false,
            },
            None => Choice {
                from: 8,
                to: 8,
                stays: begun,
            },
        }
    }

    // Makes the run that ends on the event by step k the best, if one does and it is the first or the lesser.
    fn better(&self, best: &mut Option<Thread>, t: &Thread, k: u32)
        requires { k < 8 }
        ensures { BetterIs self.now best.old t.now k best.new }
    {
        if !self.ends_by(t.config.state, k) {
            return;
        }
        let Some(thread) = self.moved(t, k) else {
            return;
        };
        if let Some(least) = *best {
            if !slots::later(least, thread) {
                return;
            }
        }
        *best = Some(thread);
    }

    // Makes the least of the runs that end on the event by a step of a thread the best, if it is the first or the lesser.
    fn ending_of(&self, best: &mut Option<Thread>, t: &Thread)
        ensures { EndedIs self.now best.old t.now best.new }
    {
        let lowest = ||
            ensures { LowestIs self.entry.now t.entry.now result }
        { self.lowest_at(t) };
        let choice = self.choice_of(t, lowest);
        for k in choice.from..choice.to {
            self.better(best, t, k);
        }
    }

    // Whether a step of a slot's thread may end a run on the event, as far as its state and the variables that it holds tell.
    fn may_end(&self, work: &[u32], slot: usize, half: usize) -> bool
        requires { (slot * 192 + 192 ≤ length work.now) × (half < 2) }
        ensures { MayEndIs self.now (thread_at work.now (place half slot)) result }
    {
        let s = slots::state_at(work, slot, half);
        if table::is_quiet(self.table, s) {
            return false;
        }
        let bound = slots::bound_at(work, slot, half);
        self.can_end(s, &bound.held, &bound.values)
    }

    // The same of the thread of a slot. Its trail is compared only where a run ends.
    fn ending_at(&self, best: &mut Option<Thread>, work: &[u32], seats: Seats, j: usize)
        requires { Seated seats work.now × (j < seats.count) }
        ensures { EndedIs self.now best.old (thread_at work.now (place seats.half j)) best.new }
    {
        let t = slots::load_slot(work, j, seats.half);
        if self.first_taken(&t, true).is_some() {
            self.ending_of(best, &t);
        }
    }

    // The least run that ends on the event, of the threads that wait. One that cannot end a run is not loaded.
    pub fn ending(&self, work: &[u32], seats: Seats) -> Option<Thread>
        requires { Seated seats work.now }
        ensures { EndingIs self.now seats work.now result }
    {
        let mut best = None;
        for j in 0..seats.count {
            if self.may_end(work, j, seats.half) {
                self.ending_at(&mut best, work, seats, j);
            }
        }
        best
    }

    // Inserts a thread into a list, if some step of its state is not expired after the event.
    fn wait(&self, work: &mut [u32], seats: Seats, b: &Thread) -> Option<usize>
        requires { Seated seats work.old }
        ensures { WaitsIs self.now seats b.now work.old work.new result }
    {
        if self.hopeful_at(b) {
            self.insert(work, seats, b)
        } else {
            Some(seats.count)
        }
    }

    // Inserts a thread that a step has left, if it may wait: it has not ended, in at most 31 steps, and some step of its state is
    // not expired.
    fn offer(&self, work: &mut [u32], seats: Seats, b: &Thread) -> Option<usize>
        requires { Seated seats work.old }
        ensures { OfferIs self.now seats b.now work.old work.new result }
    {
        if self.rules.is_final(b.config.state) || 32 <= b.steps {
            return Some(seats.count);
        }
        self.wait(work, seats, b)
    }

    // Offers what step k of a thread's state leaves on the event.
    fn offer_move(&self, work: &mut [u32], seats: Seats, t: &Thread, k: u32) -> Option<usize>
        requires { Seated seats work.old × (k < 8) }
        ensures { OfferMoveIs self.now seats t.now k work.old work.new result }
    {
        if self.ends_by(t.config.state, k) {
            return Some(seats.count);
        }
        match self.moved(t, k) {
            Some(b) => self.offer(work, seats, &b),
            None => Some(seats.count),
        }
    }

    // Offers what the steps that a thread may take leave, by rising step number; none where one more slot is needed.
    fn offer_moves(
        &self,
        work: &mut [u32],
        seats: Seats,
        t: &Thread,
        choice: Choice,
    ) -> Option<usize>
        requires { Seated seats work.old × (choice.to ≤ 8) }
        ensures { OfferMovesIs self.now seats t.now choice work.old work.new result }
    {
        let mut count = seats.count;
        for k in choice.from..choice.to {
            if self.may(t.config.state, &t.config.held, &t.config.values, k, false) {
                count = self.offer_move(work, Seats { count, ..seats }, t, k)?;
            }
        }
        Some(count)
    }

    // Keeps the thread of slot j at the end of a list in its half, which ends before it, if it may stay and some step of its state is not
    // expired. The count of the list then.
    fn remain(&self, work: &mut [u32], seats: Seats, t: &Thread, stays: bool, j: usize) -> usize
        requires { Seated seats work.old × (seats.count ≤ j) × (j < seats.slots) × (t.now ≡ thread_at work.old (place seats.half j)) }
        ensures { RemainIs self.now seats t.now stays j work.old work.new result }
    {
        if stays && self.hopeful_at(t) {
            slots::keep_slot(work, seats.half, seats.count, j, *t);
            return seats.count + 1;
        }
        seats.count
    }

    // Sifts the thread of slot j on an event on which no thread ends a run: if it stays it becomes the last of those that do, in the front of
    // the half; what its moves leave that may wait is inserted into the list in the other half. A thread that idles, with none dropped
    // before it, is not loaded. None where what moved needs one more slot.
    fn sift_one(&self, work: &mut [u32], seats: Seats, done: Sifted, j: usize) -> Option<Sifted>
        requires { Seated seats work.old × (done.stayed ≤ j) × (done.moved ≤ seats.slots) × (j < seats.count) }
        ensures { SiftOneIs self.now seats done j work.old work.new result }
    {
        if done.stayed == j && idles(work, j, seats.half, self.table, &self.rules) {
            return Some(Sifted {
                stayed: done.stayed + 1,
                ..done
            });
        }
        let t = slots::load_slot(work, j, seats.half);
        // No thread ends a run, so steps that end runs need not be tried.
        let lowest = ||
            ensures { FirstTakenIs self.entry.now t false result }
        { self.first_taken(&t, false) };
        let choice = self.choice_of(&t, lowest);
        let across = Seats {
            half: 1 - seats.half,
            count: done.moved,
            ..seats
        };
        let moved = self.offer_moves(work, across, &t, choice)?;
        let front = Seats {
            count: done.stayed,
            ..seats
        };
        let stayed = self.remain(work, front, &t, choice.stays, j);
        Some(Sifted { stayed, moved })
    }

    // Sifts a waiting list on the event, thread by thread; none where what moved needs one more slot.
    fn sift(&self, work: &mut [u32], seats: Seats) -> Option<Sifted>
        requires { Seated seats work.old }
        ensures { SiftIs self.now seats work.old work.new result }
    {
        let mut sifted = Sifted {
            stayed: 0,
            moved: 0,
        };
        for j in 0..seats.count {
            sifted = self.sift_one(work, seats, sifted, j)?;
        }
        Some(sifted)
    }

    // Inserts the threads of the other half into the list of one half, one by one. The count of the list then, none where one more slot is
    // needed.
    fn merge(&self, work: &mut [u32], seats: Seats, more: usize) -> Option<usize>
        requires { Seated seats work.old × (more ≤ seats.slots) }
        ensures { MergeIs self.now seats more work.old work.new result }
    {
        let mut count = seats.count;
        for i in 0..more {
            let b = slots::load_slot(work, i, 1 - seats.half);
            count = self.insert(work, Seats { count, ..seats }, &b)?;
        }
        Some(count)
    }

    // The waiting list after an event on which no run ends, in the half of the one before it: threads that stay are distinct, so only what
    // moved is inserted. Its count, none where it needs one more slot than there are.
    pub fn settle(&self, work: &mut [u32], seats: Seats) -> Option<usize>
        requires { Seated seats work.old }
        ensures settled_is { SettledIs self.now seats work.old work.new result }
        ensures upper_bound { IfSome result (λ n. n ≤ seats.slots) × (length work.new ≡ length work.old) }
    {
        let sifted = self.sift(work, seats)?;
        let front = Seats {
            count: sifted.stayed,
            ..seats
        };
        self.merge(work, front, sifted.moved)
    }
}
