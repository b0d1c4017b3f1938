// The search for the least run from one event of a log.
#![tactic(auto)]

ghost use Rattle.std.specs.Prelude.{◌≡◌, List, [], ◌∷◌, ℕ, ◌*◌, ◌≤◌, ◌<◌, IfOk, length, get_or};
ghost use Rattle.slots.specs.inner.Threads.{origin_thread};
ghost use Rattle.slots.specs.inner.Words.{list};
ghost use Rattle.search.specs.Search.{slots_of, without};
ghost use Rattle.search.specs.Call.{Searched};
ghost use Rattle.search_code.specs.inner.Turn.{verdict_at, named_answer, seen_next, seen_to, stretch_end, moment_of, TurnIs, TurnOf, Fits, scope_of, SearchedFrom};
ghost use Rattle.threads.specs.inner.Setting.{Wide, LastingIs};
ghost use Rattle.threads.specs.inner.Event.{Seated};
ghost use Rattle.search_code.specs.inner.Checks.{CheckedIs};

use event_log::{Event, Latest, LogReading};
use files_code::FilesReading;
use formula_code::FormulaReading;
use refusal::Refusal;
use search::{SearchAnswer, Verdict};
use slots::Thread;
use threads::table::Marker;
use threads::{Moment, Rules, Scene, Seats};

// What one event does to a search: the least run ends on it, more wait than there are slots, or so many wait after it.
#[derive(Clone, Copy)]
enum Turn {
    Found(Thread),
    Crowded,
    Waiting(usize),
}

// What a search is over: the log's number of events, the rules, and how many slots there are.
#[derive(Clone, Copy)]
pub struct Scope {
    pub events: usize,
    pub rules: Rules,
    pub slots: usize,
}

// The same with the files: the log's bytes and where its events stand, the formula's bytes and where its steps stand.
#[derive(Clone, Copy)]
pub struct Files<'a> {
    pub log: &'a [u8],
    pub places: &'a [usize; 1024],
    pub formula: &'a [u8],
    pub steps: &'a [usize; 128],
    pub scope: Scope,
}

// The waiting list before the first event: the start configuration, in slot 0.
fn origin_in(work: &mut [u32])
    requires { 192 ≤ length work.old }
    ensures { (list 0 1 work.new ≡ origin_thread ∷ []) × (length work.new ≡ length work.old) }
{
    slots::store_slot(work, 0, 0, slots::origin());
}

// What a run says that ends in a state.
fn verdict_at(rules: &Rules, state: u32) -> Verdict
    ensures { result ≡ verdict_at rules.now.kinds state }
{
    if base::get_or(&rules.kinds, state as usize, 0) == 2 {
        Verdict::Accept
    } else {
        Verdict::Reject
    }
}

// The answer that names a thread's trail as the run, unused entries 0.
fn named(t: &Thread, rules: &Rules, width: usize) -> SearchAnswer
    ensures { result ≡ named_answer rules.now.kinds t.now width }
{
    let steps = slots::capped(t.steps);
    let mut events = [0; 32];
    let mut numbers = [0; 32];
    for k in 0..steps {
        events[k] = t.trail[k] / 8;
        numbers[k] = t.trail[k] % 8;
    }
    let held = t.config.held;
    let values = t.config.values;
    SearchAnswer {
        verdict: verdict_at(rules, t.config.state),
        steps,
        events,
        numbers,
        held,
        values,
        width,
    }
}

// The answer without a run.
fn no_run(width: usize) -> SearchAnswer
    ensures { result ≡ without width }
{
    SearchAnswer {
        verdict: Verdict::Absent,
        steps: 0,
        events: [0; 32],
        numbers: [0; 32],
        held: [false; 8],
        values: [0; 8],
        width,
    }
}

// Event n and the values by which steps are judged expired after it: each field's last present one, from those before it.
fn moment_of(n: usize, seen: Latest, event: Event) -> Moment
    requires { n < 1024 }
    ensures { result ≡ moment_of n seen event }
{
    let latest = event_log_code::later(seen, event);
    Moment {
        number: n as u32,
        event,
        latest,
    }
}

// One event: the least run that ends on it; else how many wait after it, or crowded.
fn one_event(scene: &Scene<'_>, work: &mut [u32], seats: Seats) -> Turn
    requires { Seated seats work.old }
    ensures turn_is { TurnIs scene.now seats work.old work.new result }
    ensures fits { Fits seats.slots result × (length work.new ≡ length work.old) }
{
    match scene.ending(work, seats) {
        Some(least) => Turn::Found(least),
        None => match scene.settle(work, seats) {
            Some(more) => Turn::Waiting(more),
            None => Turn::Crowded,
        },
    }
}

impl<'a> Files<'a> {
    // The last present values behind event n, from those before it; a clock mark behind it leaves none.
    pub fn seen_after(&self, n: usize, seen: Latest) -> Latest
        requires { n < 1024 }
        ensures { result ≡ seen_next self.now.log.now self.now.scope.rules.fields (get_or self.now.places.now n 0) seen }
    {
        let loaded = event_log_code::event_at(self.log, self.scope.rules.fields, self.places[n]);
        if event_log_code::mark_at(self.log, loaded.next) {
            event_log_code::none_seen()
        } else {
            event_log_code::later(seen, loaded.event)
        }
    }

    // The last present values before a start.
    fn seen_before(&self, start: usize) -> Latest
        requires { start ≤ 1024 }
        ensures { result ≡ seen_to self.now.log.now self.now.places.now self.now.scope.rules.fields start }
    {
        let mut seen = event_log_code::none_seen();
        for n in 0..start {
            seen = self.seen_after(n, seen);
        }
        seen
    }

    // Where the stretch of a start ends: behind the first event that a clock mark follows.
    pub fn stretch_end(&self, start: usize) -> usize
        requires { (start ≤ self.now.scope.events) × (self.now.scope.events ≤ 1024) }
        ensures { (result ≡ stretch_end self.now.log.now self.now.places.now self.now.scope start) × (result ≤ self.now.scope.events) }
    {
        for n in start..self.scope.events {
            let loaded = event_log_code::event_at(
                self.log,
                self.scope.rules.fields,
                self.places[n],
            );
            if event_log_code::mark_at(self.log, loaded.next) {
                return n + 1;
            }
        }
        self.scope.events
    }

    // One event, with what it alone says of the steps told first: `wide` has the table of the steps in its three parts.
    fn at_event(
        &'a self,
        work: &mut [u32],
        seats: Seats,
        wide: &'a [usize; 384],
        moment: Moment,
    ) -> Turn
        requires { Seated seats work.old × (moment.number < 1024) × (length wide.now ≡ 384) }
        ensures by_index { (steps : List ℕ) → Wide steps wide.now → TurnOf self.now.log.now self.now.places.now self.now.formula.now steps self.now.scope.rules moment seats work.old work.new result }
        ensures fits { Fits seats.slots result × (length work.new ≡ length work.old) }
    {
        let places = self.places;
        let mut table = *wide;
        let marker = Marker {
            formula: self.formula,
            steps: wide,
            rises: &self.scope.rules.rises,
            moment: &moment,
        };
        marker.mark_states(&mut table, work, seats);
        let scene = Scene {
            log: self.log,
            places,
            formula: self.formula,
            table: &table,
            rules: self.scope.rules,
            moment,
        };
        one_event(&scene, work, seats)
    }

    // The search from one event of an accepted log with an accepted formula, event by event up to the end of its stretch; `before` has
    // the last present values before it.
    pub fn search_from(
        &self,
        start: usize,
        end: usize,
        before: Latest,
        work: &mut [u32],
    ) -> Result<SearchAnswer, Refusal>
        requires { (self.now.scope.slots * 192 ≤ length work.old) × (1 ≤ self.now.scope.slots) × (end ≤ 1024) }
        ensures searched_from { SearchedFrom self.now.log.now self.now.places.now self.now.formula.now self.now.steps.now self.now.scope start end before result }
        ensures width_le_slots { IfOk result (λ a. a.width ≤ self.now.scope.slots) × (length work.new ≡ length work.old) }
    {
        origin_in(work);
        let wide = threads::table::widened(self.steps);
        let mut count: usize = 1;
        let mut width: usize = 0;
        let mut seen = before;
        for n in start..end {
            let loaded = event_log_code::event_at(
                self.log,
                self.scope.rules.fields,
                self.places[n],
            );
            let moment = moment_of(n, seen, loaded.event);
            let seats = Seats {
                half: 0,
                count,
                slots: self.scope.slots,
            };
            match (&*self).at_event(work, seats, &wide, moment) {
                Turn::Found(least) => return Ok(named(&least, &self.scope.rules, width)),
                Turn::Crowded => return Err(Refusal::Crowded { place: n }),
                Turn::Waiting(more) => {
                    if more == 0 {
                        break;
                    }
                    count = more;
                    width = width.max(more);
                    seen = moment.latest;
                }
            }
        }
        Ok(no_run(width))
    }
}

// The number of slots in so many words.
pub fn slots_of(words: usize) -> usize
    ensures { result ≡ slots_of words }
{
    (words / 192).min(64)
}

// States some step of which never expires, by the readers' answers: for speed alone.
pub fn lasting_of(f: &[u8], log: &LogReading, formula: &FormulaReading) -> [bool; 16]
    ensures { LastingIs f.now formula.now.table log.now.rises result }
{
    threads::table::lasting(f, &formula.table, &log.rises)
}

// What the readers of two accepted files say of a search with so many slots; `lasting` marks states some step of which never expires.
pub fn scope_of(
    log: &LogReading,
    formula: &FormulaReading,
    lasting: [bool; 16],
    slots: usize,
) -> Scope
    ensures { result ≡ scope_of log.now formula.now lasting slots }
{
    let kinds = formula.kinds;
    let rises = log.rises;
    Scope {
        events: log.events,
        rules: Rules {
            kinds,
            rises,
            fields: log.fields,
            lasting,
        },
        slots,
    }
}

// A call whose files are accepted: the start and the lent words are checked, then the search runs.
fn checked(
    l: &[u8],
    f: &[u8],
    files: &FilesReading,
    start: usize,
    work: &mut [u32],
) -> Result<SearchAnswer, Refusal>
    requires { files.now.log.events ≤ 1024 }
    ensures checked_is { CheckedIs l.now f.now files.now start work.old work.new result }
    ensures work_len_unchanged { (length work.new ≡ length work.old) × IfOk result (λ a. a.width ≤ slots_of (length work.old)) }
{
    if files.log.events <= start {
        return Err(Refusal::Outside { start });
    }
    let words = work.len();
    if words < 192 {
        return Err(Refusal::Short { needed: 192 });
    }
    let lasting = lasting_of(f, &files.log, &files.formula);
    let read = Files {
        log: l,
        places: &files.log.places,
        formula: f,
        steps: &files.formula.table,
        scope: scope_of(&files.log, &files.formula, lasting, slots_of(words)),
    };
    let seen = read.seen_before(start);
    let end = read.stretch_end(start);
    read.search_from(start, end, seen, work)
}

// The search from an event, over the bytes of the two files, with threads in the lent words.
pub fn search(l: &[u8], f: &[u8], start: usize, work: &mut [u32]) -> Result<SearchAnswer, Refusal>
    ensures { Searched l.now f.now start work.old work.new result }
{
    let files = files_code::read_files(l, f)?;
    checked(l, f, &files, start, work)
}
