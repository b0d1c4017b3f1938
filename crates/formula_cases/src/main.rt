// Runs the formula reader on the bench's formulas F and G and on one with steps of several lengths, cut at every byte and with every
// byte set to 0, 1, 2, 17 and 255, on a gathering formula, cut and with some bytes set, and on one with all 128 steps that there may be,
// against a log of two fields, and prints each answer: the file, number and place of a refusal, or an accepted formula's number of
// states and the state, number and offset of each step.
#![tactic(auto)]

ghost use Rattle.std.specs.Prelude.{◌<◌};

use refusal::Report;
use std::io;

// The state, number and offset of each step of a table.
fn put_steps(rt: &impl Print, table: &[usize; 128]) -> io::Result<()> {
    for (i, at) in table.iter().enumerate() {
        if 0 < *at {
            print!(rt; " {}.{}@{at}", i / 8, i % 8)?;
        }
    }
    Ok(())
}

// What the reader answers, on one line.
fn show(rt: &impl Print, f: &[u8]) -> io::Result<()> {
    match formula_code::read_formula(f, 2) {
        Ok(r) => {
            print!(rt; "accepted {}", r.states)?;
            put_steps(rt, &r.table)?;
            println!(rt; "")
        }
        Err(why) => {
            let t = Report::from(why);
            println!(rt; "refused {} {} {}", t.file, t.number, t.place)
        }
    }
}

// A formula cut at every byte, and whole.
fn show_cuts(rt: &impl Print, f: &[u8]) -> io::Result<()> {
    for n in 0..=f.len() {
        show(rt, &f[..n])?;
    }
    Ok(())
}

// A formula with one byte set.
fn show_set<const N: usize>(rt: &impl Print, f: [u8; N], at: usize, b: u8) -> io::Result<()>
    requires { at < N }
{
    let mut d = f;
    d[at] = b;
    show(rt, &d)
}

// A formula with every byte set to each of five values.
fn show_sets<const N: usize>(rt: &impl Print, f: [u8; N]) -> io::Result<()> {
    for at in 0..N {
        for b in [0, 1, 2, 17, 255] {
            show_set(rt, f, at, b)?;
        }
    }
    Ok(())
}

// F: trip, then open.
const F: [u8; 28] = *b"\x10\x00\x11\x01\x12\x01\x00\x00\x00\x00\x01\x14\x00\x00\
    \x10\x00\x11\x02\x12\x01\x00\x00\x00\x00\x02\
    \x10\x02\x00";

// G: open, then trip at the same time.
const G: [u8; 32] = *b"\x10\x00\x11\x01\x12\x01\x00\x00\x00\x00\x02\x14\x00\x00\
    \x10\x00\x11\x02\x13\x00\x00\x00\x12\x01\x00\x00\x00\x00\x01\
    \x10\x02\x00";

// Gathers into two lists, with a guard on the sum, a length and the different values.
const GATHERING: [u8; 22] = *b"\x10\x00\
    \x11\x01\x17\x00\x08\x17\x01\x09\x15\x26\x2C\x08\x23\x2D\x09\x2E\x08\
    \x10\x02\x00";

// Steps of several lengths: three of state 0, the second with a BIND, none of state 1, two of state 2, the first with a GUARD.
const SEVERAL: [u8; 27] = *b"\x16\x03\
    \x10\x00\x11\x01\x11\x02\x14\x00\x00\x11\x00\
    \x10\x01\
    \x10\x00\x11\x00\x15\x22\x00\x11\x03\
    \x10\x02\x00";

// An ordinary state with 8 bare steps, all into state 15.
const STATE: [u8; 18] = *b"\x10\x00\
    \x11\x0F\x11\x0F\x11\x0F\x11\x0F\x11\x0F\x11\x0F\x11\x0F\x11\x0F";

// A formula with 16 such states, all the steps that there may be.
fn show_full(rt: &impl Print) -> io::Result<()> {
    let mut f = [0; 289];
    for state in f[..288].chunks_exact_mut(18) {
        state.copy_from_slice(&STATE);
    }
    show(rt, &f)
}

fn main(rt: HostRuntime) -> io::Result<()> {
    show_cuts(&rt, &F)?;
    show_sets(&rt, F)?;
    show_cuts(&rt, &G)?;
    show_sets(&rt, G)?;
    show_cuts(&rt, &GATHERING)?;
    // the same list a second time: 12; a byte that names no list, or no field: 3
    show_set(&rt, GATHERING, 9, 8)?;
    show_set(&rt, GATHERING, 6, 9)?;
    show_set(&rt, GATHERING, 9, 7)?;
    show_set(&rt, GATHERING, 9, 12)?;
    show_set(&rt, GATHERING, 8, 2)?;
    show_set(&rt, GATHERING, 13, 7)?;
    show_set(&rt, GATHERING, 16, 12)?;
    show_cuts(&rt, &SEVERAL)?;
    show_sets(&rt, SEVERAL)?;
    show_full(&rt)
}
