// One step of the semantics over the formula's bytes: clauses, firing, expiry, and the steps of a state by number.
#![tactic(auto)]

mod clauses;
pub mod expiring;
pub mod firing;
mod gaining;
pub mod marks;
mod readings;
pub mod steps;

use crate::readings::Fields;

// "12 TEST, 13 TESTV, 14 BIND, 15 GUARD, 17 GATHER". Commands and operators are matched as the bytes that they are: an enum would be
// decoded anew for every clause of every walk.
const TEST: u32 = 0x12;

const TESTV: u32 = 0x13;

const BIND: u32 = 0x14;

const GUARD: u32 = 0x15;

const GATHER: u32 = 0x17;

// "A configuration is a state, the held variables with values, and a counter per state"; a value is 0 where its variable is not held.
// Of the 4 lists it holds only what guards read: their sums, their lengths, their numbers of different values.
// Flags and values stay apart, as in the definition (`Config`) and as guards read them.
#[derive(Clone, Copy)]
pub struct Configuration {
    pub state: u32,
    pub held: [bool; 8],
    pub values: [u32; 8],
    pub counters: [u32; 16],
    pub tallies: [u32; 12],
}

// What a step is walked by: the formula's bytes, the configuration before it, the fields with which of them rise, and what is new to the
// lists: at i * 8 + n, whether no value of list i equals that of field n.
#[derive(Drop)]
struct Scene<'a> {
    f: &'a [u8],
    c: &'a Configuration,
    fields: Fields<'a>,
    rises: &'a [bool],
    fresh: &'a [bool; 32],
}

// A walk over a step's clauses: where it stands, whether every clause so far passes, whether one is past due, whether one is a
// GATHER, the variables held so far with their values, and those whose value only grows: held before the step, or first bound
// to a rising field that has a value.
#[derive(Clone, Copy)]
struct Walked {
    at: usize,
    passes: bool,
    due: bool,
    gathers: bool,
    held: [bool; 8],
    values: [u32; 8],
    grows: [bool; 8],
}

// What a step's GATHERs leave: the tallies, the lists into which every field gathered is rising and has a value, and those into which
// none was gathered.
#[derive(Clone, Copy)]
struct Gained {
    tallies: [u32; 12],
    rising: [bool; 4],
    unchanged: [bool; 4],
}
