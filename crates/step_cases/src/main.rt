// Runs one step of the semantics on the bench's executed cases, and prints a line for each: whether a step with time less than 600
// is expired (the paper's hopeless) after 599, 600 and 601, on a rising and on a plain field, and one whose guard bounds the sum of
// such a field; the same of steps that read a time that never arrived; which events fire which steps of F, and which steps fire on
// an event without a time; and where the steps of a formula stand.
#![tactic(auto)]

use event_log::{Event, Latest};
use machine_code::Configuration;
use std::{fmt, io};

// "yes" or "no".
fn word(yes: bool) -> &'static str {
    if yes { "yes" } else { "no" }
}

// A time, or that there is none, as it is printed.
#[derive(Clone, Copy)]
struct Time(Option<u32>);

impl fmt::Display for Time {
    fn fmt<W: fmt::Write>(&self, f: &mut fmt::Formatter<W>) -> fmt::Result {
        match self.0 {
            Some(time) => write!(f, "{time}"),
            None => write!(f, "none"),
        }
    }
}

// An event with a time, or none, and a code.
fn event(time: Option<u32>, code: u32) -> Event {
    Event {
        values: [time.unwrap_or(0), code, 0, 0, 0, 0, 0, 0],
        present: [
            time.is_some(),
            true,
            false,
            false,
            false,
            false,
            false,
            false,
        ],
    }
}

const START: Configuration = Configuration {
    state: 0,
    held: [false; 8],
    values: [0; 8],
    counters: [0; 16],
    tallies: [0; 12],
};

// Variable 0 is held.
fn holding(x: u32) -> Configuration {
    let mut c = START;
    c.held[0] = true;
    c.values[0] = x;
    c
}

// List 8 holds one value, 100.
const GATHERED: Configuration = Configuration {
    tallies: [100, 0, 0, 0, 1, 0, 0, 0, 1, 0, 0, 0],
    ..START
};

// The time's field rises, or is plain.
const RISING: [bool; 8] = [true, false, false, false, false, false, false, false];

const PLAIN: [bool; 8] = [false; 8];

// A formula, and the configuration that tries its STEP at offset 2.
#[derive(Clone, Copy)]
struct Case<'a> {
    name: &'a str,
    formula: &'a [u8],
    from: Configuration,
}

impl<'a> Case<'a> {
    fn new(name: &'a str, formula: &'a [u8], from: Configuration) -> Self {
        Case {
            name,
            formula,
            from,
        }
    }

    // Whether the STEP is expired after a time, or none, and the code 1.
    fn show_expired(&self, rt: &impl Print, rises: [bool; 8], time: Option<u32>) -> io::Result<()> {
        let Event { values, present } = event(time, 1);
        let latest = Latest { values, present };
        let expired = machine_code::expiring::expired(
            self.formula,
            2,
            self.from,
            [true; 32],
            rises,
            latest,
        );
        println!(rt; "{} {} {}", self.name, Time(time), word(expired))
    }

    // The same after a time in a rising field, and after none.
    fn show_with_none(&self, rt: &impl Print, time: u32) -> io::Result<()> {
        self.show_expired(rt, RISING, Some(time))?;
        self.show_expired(rt, RISING, None)
    }

    // Whether the STEP fires on an event with a time, or none, and the code 1.
    fn show_fires_on(&self, rt: &impl Print, time: Option<u32>) -> io::Result<()> {
        let fired = machine_code::firing::fire(
            self.formula,
            2,
            self.from,
            [true; 32],
            event(time, 1),
        );
        println!(rt; "{} {} {}", self.name, Time(time), word(fired.is_ok()))
    }

    // The same with the time 0 and without.
    fn show_without(&self, rt: &impl Print) -> io::Result<()> {
        self.show_fires_on(rt, Some(0))?;
        self.show_fires_on(rt, None)
    }
}

// Time less than 600.
const BEFORE: &[u8] = b"\x10\x00\x11\x01\x12\x00\x02\x00\x00\x02\x58\x10\x02\x00";

// Gathers time into list 8, the guard being that the list's sum is less than 600.
const SUM: &[u8] = b"\x10\x00\
    \x11\x01\x17\x00\x08\x15\x25\x2C\x08\x20\x00\x00\x02\x58\
    \x10\x02\x00";

// Binds time to variable 0, the guard being that this is less than 600.
const BOUND: &[u8] = b"\x10\x00\
    \x11\x01\x14\x00\x00\x15\x25\x21\x00\x20\x00\x00\x02\x58\
    \x10\x02\x00";

// The times about a bound.
fn show_bounds(rt: &impl Print) -> io::Result<()> {
    let before = Case::new("expired after", BEFORE, START);
    before.show_expired(rt, RISING, Some(599))?;
    before.show_expired(rt, RISING, Some(600))?;
    before.show_expired(rt, RISING, Some(601))?;
    before.show_expired(rt, PLAIN, Some(601))?;
    let sum = Case::new("sum expired after", SUM, GATHERED);
    sum.show_expired(rt, RISING, Some(499))?;
    sum.show_expired(rt, RISING, Some(500))?;
    sum.show_expired(rt, PLAIN, Some(500))
}

// TEST and TESTV with less: no bound is past where no time arrived, not 0 either.
fn show_tests(rt: &impl Print) -> io::Result<()> {
    let zero = b"\x10\x00\x11\x01\x12\x00\x02\x00\x00\x00\x00\x10\x02\x00";
    let variable = b"\x10\x00\x11\x01\x13\x00\x02\x00\x10\x02\x00";
    Case::new("expired after", BEFORE, START).show_expired(rt, RISING, None)?;
    Case::new("less 0 expired after", zero, START).show_with_none(rt, 0)?;
    Case::new("less held 600 expired after", variable, holding(600)).show_with_none(rt, 600)?;
    Case::new("less held 0 expired after", variable, holding(0)).show_with_none(rt, 0)
}

// A sum needs the time that a step gathers into its list; a length counts it.
fn show_lists(rt: &impl Print) -> io::Result<()> {
    let sum_100 = b"\x10\x00\
        \x11\x01\x17\x00\x08\x15\x25\x2C\x08\x20\x00\x00\x00\x64\
        \x10\x02\x00";
    let sum_of_9 = b"\x10\x00\
        \x11\x01\x17\x00\x08\x15\x25\x2C\x09\x20\x00\x00\x00\x00\
        \x10\x02\x00";
    let length_2 = b"\x10\x00\
        \x11\x01\x17\x00\x08\x15\x25\x2D\x08\x20\x00\x00\x00\x02\
        \x10\x02\x00";
    let length_3 = b"\x10\x00\
        \x11\x01\x17\x00\x08\x15\x25\x2D\x08\x20\x00\x00\x00\x03\
        \x10\x02\x00";
    Case::new("sum expired after", SUM, GATHERED).show_with_none(rt, 500)?;
    Case::new("sum 100 expired after", sum_100, GATHERED).show_with_none(rt, 0)?;
    Case::new("sum of 9 expired after", sum_of_9, GATHERED).show_with_none(rt, 0)?;
    Case::new("length 2 expired after", length_2, GATHERED).show_with_none(rt, 499)?;
    Case::new("length 3 expired after", length_3, GATHERED).show_with_none(rt, 499)
}

// A guard that names a variable bound to the time, in a branch not taken too; a held one has its value; the first BIND decides.
fn show_variables(rt: &impl Print) -> io::Result<()> {
    let zero = b"\x10\x00\
        \x11\x01\x14\x00\x00\x15\x25\x21\x00\x20\x00\x00\x00\x00\
        \x10\x02\x00";
    let unnamed = b"\x10\x00\
        \x11\x01\x14\x00\x00\x15\x20\x00\x00\x00\x00\
        \x10\x02\x00";
    let choice = b"\x10\x00\
        \x11\x01\x14\x00\x00\
        \x15\x2B\x20\x00\x00\x00\x01\x20\x00\x00\x00\x00\x25\x21\x00\x20\x00\x00\x02\x58\
        \x10\x02\x00";
    let twice = b"\x10\x00\
        \x11\x01\x14\x00\x00\x14\x01\x00\x15\x25\x21\x00\x20\x00\x00\x02\x58\
        \x10\x02\x00";
    Case::new("variable expired after", BOUND, START).show_with_none(rt, 600)?;
    Case::new("variable below 0 expired after", zero, START).show_with_none(rt, 0)?;
    Case::new("held 600 expired after", BOUND, holding(600)).show_with_none(rt, 0)?;
    Case::new("held 599 expired after", BOUND, holding(599)).show_with_none(rt, 600)?;
    Case::new("unnamed expired after", unnamed, START).show_with_none(rt, 0)?;
    Case::new("branch expired after", choice, START).show_with_none(rt, 599)?;
    Case::new("bound twice expired after", twice, START).show_with_none(rt, 600)
}

// Whether the STEP at an offset of F fires on an event, from its state.
fn show_fires(
    rt: &impl Print,
    at: usize,
    from: Configuration,
    time: u32,
    code: u32,
) -> io::Result<()> {
    let f = b"\x10\x00\
        \x11\x01\x12\x01\x00\x00\x00\x00\x01\x14\x00\x00\
        \x10\x00\
        \x11\x02\x12\x01\x00\x00\x00\x00\x02\
        \x10\x02\x00";
    let fired = machine_code::firing::fire(f, at, from, [true; 32], event(Some(time), code));
    println!(rt; "fires at {at} {}", word(fired.is_ok()))
}

// No test of an absent time holds, unequal neither.
fn show_absent_tests(rt: &impl Print) -> io::Result<()> {
    let equal = b"\x10\x00\x11\x01\x12\x00\x00\x00\x00\x00\x00\x10\x02\x00";
    let unequal = b"\x10\x00\x11\x01\x12\x00\x01\x00\x00\x02\x58\x10\x02\x00";
    let at_most = b"\x10\x00\x11\x01\x12\x00\x04\x00\x00\x00\x00\x10\x02\x00";
    let at_least = b"\x10\x00\x11\x01\x12\x00\x05\x00\x00\x00\x00\x10\x02\x00";
    let equal_held = b"\x10\x00\x11\x01\x13\x00\x00\x00\x10\x02\x00";
    let unequal_held = b"\x10\x00\x11\x01\x13\x00\x01\x00\x10\x02\x00";
    Case::new("equal 0 fires on", equal, START).show_without(rt)?;
    Case::new("unequal 600 fires on", unequal, START).show_without(rt)?;
    Case::new("less 600 fires on", BEFORE, START).show_without(rt)?;
    Case::new("at most 0 fires on", at_most, START).show_without(rt)?;
    Case::new("at least 0 fires on", at_least, START).show_without(rt)?;
    Case::new("equal held 0 fires on", equal_held, holding(0)).show_without(rt)?;
    Case::new("unequal held 600 fires on", unequal_held, holding(600)).show_without(rt)
}

// No BIND or GATHER takes an absent time; a step that does not read it fires.
fn show_absent_values(rt: &impl Print) -> io::Result<()> {
    let bind = b"\x10\x00\x11\x01\x14\x00\x00\x10\x02\x00";
    let gather = b"\x10\x00\x11\x01\x17\x00\x08\x10\x02\x00";
    let code = b"\x10\x00\x11\x01\x12\x01\x00\x00\x00\x00\x01\x10\x02\x00";
    let bare = b"\x10\x00\x11\x01\x10\x02\x00";
    Case::new("bind fires on", bind, START).show_without(rt)?;
    Case::new("bind held 0 fires on", bind, holding(0)).show_without(rt)?;
    Case::new("gather fires on", gather, START).show_without(rt)?;
    Case::new("code fires on", code, START).show_without(rt)?;
    Case::new("bare fires on", bare, START).show_without(rt)
}

// Where step k of state s stands by a table with the offsets of three STEPs, 0 where there is none.
fn show_place(rt: &impl Print, s: u32, k: usize) -> io::Result<()> {
    let mut table = [0; 128];
    table[0] = 2;
    table[1] = 14;
    table[8] = 27;
    let offset = machine_code::steps::step_offset(&table, s, k);
    println!(rt; "step {k} of state {s} at {offset}")
}

fn main(rt: HostRuntime) -> io::Result<()> {
    show_bounds(&rt)?;
    show_tests(&rt)?;
    show_lists(&rt)?;
    show_variables(&rt)?;
    show_fires(&rt, 2, START, 500, 1)?;
    show_fires(&rt, 2, START, 500, 2)?;
    show_fires(&rt, 2, holding(500), 500, 1)?;
    show_fires(&rt, 2, holding(500), 501, 1)?;
    let tripped = Configuration {
        state: 1,
        ..holding(500)
    };
    show_fires(&rt, 16, tripped, 500, 1)?;
    show_fires(&rt, 16, tripped, 500, 2)?;
    show_absent_tests(&rt)?;
    show_absent_values(&rt)?;
    show_place(&rt, 0, 0)?;
    show_place(&rt, 0, 1)?;
    show_place(&rt, 1, 0)?;
    show_place(&rt, 1, 1)?;
    show_place(&rt, 2, 0)
}
