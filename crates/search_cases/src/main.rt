// Runs the search on stored cases and prints each whole answer on one line: the case's name, start and lent words, then the file,
// number and place of a refusal, or the verdict, the number of steps, 32 events, 32 step numbers, the mask of held variables (bit v
// set if variable v is held), 8 values and the width.
#![tactic(auto)]

ghost use Rattle.std.specs.Prelude.{◌≤◌};

use refusal::Report;
use search::{SearchAnswer, Verdict};
use std::{fmt, io};

// Numbers with commas between.
#[derive(Clone, Copy)]
struct List<'a>(&'a [u32]);

impl fmt::Display for List<'_> {
    fn fmt<W: fmt::Write>(&self, f: &mut fmt::Formatter<W>) -> fmt::Result {
        for (i, n) in self.0.iter().enumerate() {
            if 0 < i {
                f.write_str(",")?;
            }
            write!(f, "{n}")?;
        }
        Ok(())
    }
}

// A log, a formula, and the name of the two.
#[derive(Clone, Copy)]
struct Case<'a> {
    name: &'a str,
    log: &'a [u8],
    formula: &'a [u8],
}

impl<'a> Case<'a> {
    fn new(name: &'a str, log: &'a [u8], formula: &'a [u8]) -> Self {
        Case { name, log, formula }
    }

    // The case and what the search answers from a start with so many lent words, each of them 9, on one line.
    fn show(&self, rt: &impl Print, start: usize, words: usize) -> io::Result<()>
        requires { words ≤ 12480 }
    {
        let mut work = [9; 12480];
        print!(rt; "{} {start} {words} ", self.name)?;
        match search_code::search(self.log, self.formula, start, &mut work[..words]) {
            Ok(r) => put_answer(rt, &r),
            Err(why) => {
                let t = Report::from(why);
                println!(rt; "refused {} {} {}", t.file, t.number, t.place)
            }
        }
    }
}

// What a search answers that is not refused.
fn put_answer(rt: &impl Print, r: &SearchAnswer) -> io::Result<()> {
    let verdict = match r.verdict {
        Verdict::Absent => "none",
        Verdict::Accept => "accept",
        Verdict::Reject => "reject",
    };
    print!(rt;
        "{verdict} {} {} {}",
        r.steps,
        List(&r.events),
        List(&r.numbers)
    )?;
    println!(rt;
        " {} {} {}",
        base::mask_of(r.held),
        List(&r.values),
        r.width
    )
}

// L, the bench's log: time 500 twice; code 1 trip, 2 open.
const L: &[u8] = b"\x01\x01\x01\x00\
    \x02\x00\x00\x01\xF4\x00\x00\x00\x01\
    \x02\x00\x00\x01\xF4\x00\x00\x00\x02\
    \x00";

// L with its events exchanged.
const EXCHANGED: &[u8] = b"\x01\x01\x01\x00\
    \x02\x00\x00\x01\xF4\x00\x00\x00\x02\
    \x02\x00\x00\x01\xF4\x00\x00\x00\x01\
    \x00";

// F: trip, then open.
const F: &[u8] = b"\x10\x00\x11\x01\x12\x01\x00\x00\x00\x00\x01\x14\x00\x00\
    \x10\x00\x11\x02\x12\x01\x00\x00\x00\x00\x02\
    \x10\x02\x00";

// G: open, then trip at the same time.
const G: &[u8] = b"\x10\x00\x11\x01\x12\x01\x00\x00\x00\x00\x02\x14\x00\x00\
    \x10\x00\x11\x02\x13\x00\x00\x00\x12\x01\x00\x00\x00\x00\x01\
    \x10\x02\x00";

// F, but its end rejects.
const REJECTING: &[u8] = b"\x10\x00\x11\x01\x12\x01\x00\x00\x00\x00\x01\x14\x00\x00\
    \x10\x00\x11\x02\x12\x01\x00\x00\x00\x00\x02\
    \x10\x03\x00";

// Three events alike.
const THREE: &[u8] = b"\x01\x00\
    \x02\x00\x00\x00\x00\
    \x02\x00\x00\x00\x00\
    \x02\x00\x00\x00\x00\
    \x00";

// A bare step to a state with a bare step to itself.
const BARE: &[u8] = b"\x10\x00\x11\x01\
    \x10\x00\x11\x01\
    \x00";

// A state that gathers seven variables in any order, and one that gathers six: 36 and 28 configurations after three events.
const FULL: &[u8] = b"\x10\x00\x11\x01\x11\x02\
    \x10\x00\
    \x11\x01\x14\x00\x00\x11\x01\x14\x00\x01\x11\x01\x14\x00\x02\x11\x01\x14\x00\x03\
    \x11\x01\x14\x00\x04\x11\x01\x14\x00\x05\x11\x01\x14\x00\x06\
    \x10\x00\
    \x11\x02\x14\x00\x00\x11\x02\x14\x00\x01\x11\x02\x14\x00\x02\x11\x02\x14\x00\x03\
    \x11\x02\x14\x00\x04\x11\x02\x14\x00\x05\
    \x00";

// FULL with a state more that waits.
const OVER: &[u8] = b"\x10\x00\x11\x01\x11\x02\x11\x03\
    \x10\x00\
    \x11\x01\x14\x00\x00\x11\x01\x14\x00\x01\x11\x01\x14\x00\x02\x11\x01\x14\x00\x03\
    \x11\x01\x14\x00\x04\x11\x01\x14\x00\x05\x11\x01\x14\x00\x06\
    \x10\x00\
    \x11\x02\x14\x00\x00\x11\x02\x14\x00\x01\x11\x02\x14\x00\x02\x11\x02\x14\x00\x03\
    \x11\x02\x14\x00\x04\x11\x02\x14\x00\x05\
    \x10\x00\x11\x03\x12\x00\x00\x00\x00\x00\x01\
    \x00";

// Times 598 to 601 in a rising field.
const RISING: &[u8] = b"\x01\x01\
    \x02\x00\x00\x02\x56\
    \x02\x00\x00\x02\x57\
    \x02\x00\x00\x02\x58\
    \x02\x00\x00\x02\x59\
    \x00";

// The same in a plain field.
const PLAIN: &[u8] = b"\x01\x00\
    \x02\x00\x00\x02\x56\
    \x02\x00\x00\x02\x57\
    \x02\x00\x00\x02\x58\
    \x02\x00\x00\x02\x59\
    \x00";

// A state with a step to itself at times less than 600, and one with a bare step to itself.
const BEFORE: &[u8] = b"\x10\x00\x11\x01\x11\x02\
    \x10\x00\x11\x01\x12\x00\x02\x00\x00\x02\x58\
    \x10\x00\x11\x02\
    \x00";

// Two events alike, then a 9.
const NINE: &[u8] = b"\x01\x00\
    \x02\x00\x00\x00\x00\
    \x02\x00\x00\x00\x00\
    \x02\x00\x00\x00\x09\
    \x00";

// A bare step that may be repeated, then a 9: step 1 accepts.
const REPEATED: &[u8] = b"\x10\x00\x11\x01\
    \x10\x00\x11\x01\x11\x02\x12\x00\x00\x00\x00\x00\x09\
    \x10\x02\x00";

// 32 events alike.
const MANY: &[u8] = b"\x01\x00\
    \x02\x00\x00\x00\x00\x02\x00\x00\x00\x00\x02\x00\x00\x00\x00\x02\x00\x00\x00\x00\
    \x02\x00\x00\x00\x00\x02\x00\x00\x00\x00\x02\x00\x00\x00\x00\x02\x00\x00\x00\x00\
    \x02\x00\x00\x00\x00\x02\x00\x00\x00\x00\x02\x00\x00\x00\x00\x02\x00\x00\x00\x00\
    \x02\x00\x00\x00\x00\x02\x00\x00\x00\x00\x02\x00\x00\x00\x00\x02\x00\x00\x00\x00\
    \x02\x00\x00\x00\x00\x02\x00\x00\x00\x00\x02\x00\x00\x00\x00\x02\x00\x00\x00\x00\
    \x02\x00\x00\x00\x00\x02\x00\x00\x00\x00\x02\x00\x00\x00\x00\x02\x00\x00\x00\x00\
    \x02\x00\x00\x00\x00\x02\x00\x00\x00\x00\x02\x00\x00\x00\x00\x02\x00\x00\x00\x00\
    \x02\x00\x00\x00\x00\x02\x00\x00\x00\x00\x02\x00\x00\x00\x00\x02\x00\x00\x00\x00\
    \x00";

// A committed state with a step that accepts where it is the 32nd, its guard being COUNT 0 equal 32, else a bare step to itself.
const COUNTED: &[u8] = b"\x10\x01\
    \x11\x01\x15\x27\x22\x00\x20\x00\x00\x00\x20\
    \x11\x00\
    \x10\x02\x00";

// A trip at 500, one whose time is absent, an open at 520.
const UNTIMED: &[u8] = b"\x01\x01\x01\x00\
    \x02\x00\x00\x01\xF4\x00\x00\x00\x01\
    \x03\x02\x00\x00\x00\x00\x00\x00\x00\x01\
    \x03\x03\x00\x00\x02\x08\x00\x00\x00\x02\
    \x00";

// The same with nothing present in event 1.
const NOTHING: &[u8] = b"\x01\x01\x01\x00\
    \x02\x00\x00\x01\xF4\x00\x00\x00\x01\
    \x03\x00\x00\x00\x00\x00\x00\x00\x00\x00\
    \x03\x03\x00\x00\x02\x08\x00\x00\x00\x02\
    \x00";

// Three events without a time.
const UNSEEN: &[u8] = b"\x01\x01\
    \x03\x00\x00\x00\x00\x00\
    \x03\x00\x00\x00\x00\x00\
    \x03\x00\x00\x00\x00\x00\
    \x00";

// The time 600, then two events without.
const LATE: &[u8] = b"\x01\x01\
    \x03\x01\x00\x00\x02\x58\
    \x03\x00\x00\x00\x00\x00\
    \x03\x00\x00\x00\x00\x00\
    \x00";

// The time 599, then two events without.
const EARLY: &[u8] = b"\x01\x01\
    \x03\x01\x00\x00\x02\x57\
    \x03\x00\x00\x00\x00\x00\
    \x03\x00\x00\x00\x00\x00\
    \x00";

// The time 600, none, then 599.
const FALL: &[u8] = b"\x01\x01\
    \x03\x01\x00\x00\x02\x58\
    \x03\x00\x00\x00\x00\x00\
    \x02\x00\x00\x02\x57\
    \x00";

// L with a mark between its events.
const PARTED: &[u8] = b"\x01\x01\x01\x00\
    \x02\x00\x00\x01\xF4\x00\x00\x00\x01\
    \x04\
    \x02\x00\x00\x01\xF4\x00\x00\x00\x02\
    \x00";

// A trip at 500 and an open at 510, two marks, a trip at 5 and an open at 9.
const AGAIN: &[u8] = b"\x01\x01\x01\x00\
    \x02\x00\x00\x01\xF4\x00\x00\x00\x01\
    \x02\x00\x00\x01\xFE\x00\x00\x00\x02\
    \x04\x04\
    \x02\x00\x00\x00\x05\x00\x00\x00\x01\
    \x02\x00\x00\x00\x09\x00\x00\x00\x02\
    \x00";

// LATE with a mark behind the time 600.
const RESET: &[u8] = b"\x01\x01\
    \x03\x01\x00\x00\x02\x58\
    \x04\
    \x03\x00\x00\x00\x00\x00\
    \x03\x00\x00\x00\x00\x00\
    \x00";

// Binds the time; the guard is 0, and names the variable in the branch not taken.
const CHOICE: &[u8] = b"\x10\x00\x11\x01\
    \x10\x00\x11\x02\x14\x00\x01\
    \x15\x2B\x20\x00\x00\x00\x01\x20\x00\x00\x00\x00\x25\x21\x01\x20\x00\x00\x02\x58\
    \x10\x02\x00";

// Gathers the time; the guard is that the list's length is less than 1.
const LENGTH: &[u8] = b"\x10\x00\x11\x01\
    \x10\x00\x11\x02\x17\x00\x08\
    \x15\x25\x2D\x08\x20\x00\x00\x00\x01\
    \x10\x02\x00";

// L and F, L and G at every start and behind the last, with 64 slots and with one, and exchanged events; M7 is start 2, M8 is 191 words.
fn show_bench(rt: &impl Print) -> io::Result<()> {
    let l_f = Case::new("L F", L, F);
    for case in [l_f, Case::new("L G", L, G)] {
        case.show(rt, 0, 12288)?;
        case.show(rt, 1, 12288)?;
        case.show(rt, 2, 12288)?;
        case.show(rt, 0, 192)?;
        case.show(rt, 1, 192)?;
    }
    let exchanged = Case::new("exchanged G", EXCHANGED, G);
    exchanged.show(rt, 0, 12288)?;
    exchanged.show(rt, 1, 192)?;
    l_f.show(rt, 2, 191)?;
    l_f.show(rt, 0, 191)?;
    l_f.show(rt, 0, 0)
}

// Empty files.
fn show_empty(rt: &impl Print) -> io::Result<()> {
    Case::new("empty F", b"", F).show(rt, 0, 12288)?;
    Case::new("L empty", L, b"").show(rt, 0, 12288)?;
    Case::new("empty empty", b"", b"").show(rt, 0, 0)
}

// M12; 64 configurations in 63 and 64 slots, 65 in 64 and 65 slots.
fn show_crowded(rt: &impl Print) -> io::Result<()> {
    let three_bare = Case::new("three bare", THREE, BARE);
    three_bare.show(rt, 0, 384)?;
    three_bare.show(rt, 0, 576)?;
    three_bare.show(rt, 1, 384)?;
    let three_full = Case::new("three full", THREE, FULL);
    three_full.show(rt, 0, 12096)?;
    three_full.show(rt, 0, 12288)?;
    let three_over = Case::new("three over", THREE, OVER);
    three_over.show(rt, 0, 12288)?;
    three_over.show(rt, 0, 12480)
}

// Expired steps are dropped on a rising field, never on a plain one: the width tells; and nothing counts on the run's last event.
fn show_widths(rt: &impl Print) -> io::Result<()> {
    Case::new("rising before", RISING, BEFORE).show(rt, 0, 768)?;
    let plain_before = Case::new("plain before", PLAIN, BEFORE);
    plain_before.show(rt, 0, 768)?;
    plain_before.show(rt, 0, 1152)?;
    let nine_repeated = Case::new("nine repeated", NINE, REPEATED);
    nine_repeated.show(rt, 0, 384)?;
    nine_repeated.show(rt, 0, 192)
}

// A run that rejects; a run of 32 steps, and one event too few for it.
fn show_runs(rt: &impl Print) -> io::Result<()> {
    Case::new("L rejecting", L, REJECTING).show(rt, 0, 192)?;
    let many_counted = Case::new("many counted", MANY, COUNTED);
    many_counted.show(rt, 0, 12288)?;
    many_counted.show(rt, 1, 12288)
}

// Absent fields: a step that reads one does not fire; the last present time expires a step, that before the start too, and where
// none arrived only a guard that does not name it can.
fn show_absent(rt: &impl Print) -> io::Result<()> {
    let untimed_f = Case::new("untimed F", UNTIMED, F);
    untimed_f.show(rt, 0, 192)?;
    untimed_f.show(rt, 1, 192)?;
    let nothing_f = Case::new("nothing F", NOTHING, F);
    nothing_f.show(rt, 0, 192)?;
    nothing_f.show(rt, 1, 192)?;
    let unseen_before = Case::new("unseen before", UNSEEN, BEFORE);
    unseen_before.show(rt, 0, 192)?;
    unseen_before.show(rt, 0, 384)?;
    let late_before = Case::new("late before", LATE, BEFORE);
    late_before.show(rt, 0, 192)?;
    late_before.show(rt, 1, 192)?;
    let early_before = Case::new("early before", EARLY, BEFORE);
    early_before.show(rt, 1, 192)?;
    early_before.show(rt, 1, 384)?;
    Case::new("unseen choice", UNSEEN, CHOICE).show(rt, 0, 192)?;
    Case::new("late choice", LATE, CHOICE).show(rt, 0, 192)?;
    Case::new("unseen length", UNSEEN, LENGTH).show(rt, 0, 192)?;
    Case::new("fall F", FALL, F).show(rt, 0, 192)
}

// Marks: no run goes across one, what waits before it waits no longer, and a time before it expires no step behind it.
fn show_marks(rt: &impl Print) -> io::Result<()> {
    let parted_f = Case::new("parted F", PARTED, F);
    parted_f.show(rt, 0, 192)?;
    parted_f.show(rt, 1, 192)?;
    let again_f = Case::new("again F", AGAIN, F);
    again_f.show(rt, 0, 192)?;
    again_f.show(rt, 2, 192)?;
    again_f.show(rt, 4, 192)?;
    let reset_before = Case::new("reset before", RESET, BEFORE);
    reset_before.show(rt, 0, 192)?;
    reset_before.show(rt, 1, 192)?;
    reset_before.show(rt, 1, 384)?;
    reset_before.show(rt, 1, 576)
}

fn main(rt: HostRuntime) -> io::Result<()> {
    show_bench(&rt)?;
    show_empty(&rt)?;
    show_crowded(&rt)?;
    show_widths(&rt)?;
    show_runs(&rt)?;
    show_absent(&rt)?;
    show_marks(&rt)
}
