// Runs the log reader on the bench's log L, cut at every byte and with every byte set to 0, 1, 2, 4 and 255, on a log that lacks
// a time, cut and with every byte set to these and 3, and on small logs with absent fields and with marks, and prints each answer:
// the file, number and place of a refusal, or an accepted log's numbers of fields and events.
#![tactic(auto)]

ghost use Rattle.std.specs.Prelude.{◌<◌, ◌^◌};

use refusal::Report;
use std::io;

// What the reader answers, on one line.
fn show(rt: &impl Print, l: &[u8]) -> io::Result<()> {
    match event_log_code::read_log(l) {
        Ok(r) => println!(rt; "accepted {} {}", r.fields, r.events),
        Err(why) => {
            let t = Report::from(why);
            println!(rt; "refused {} {} {}", t.file, t.number, t.place)
        }
    }
}

// Time 500 twice; code 1 trip, 2 open.
const BENCH: [u8; 23] = *b"\x01\x01\x01\x00\
    \x02\x00\x00\x01\xF4\x00\x00\x00\x01\
    \x02\x00\x00\x01\xF4\x00\x00\x00\x02\
    \x00";

// A trip at 500, one whose time is absent, an open at 520 with both bits set.
const LACKING: [u8; 34] = *b"\x01\x01\x01\x00\
    \x02\x00\x00\x01\xF4\x00\x00\x00\x01\
    \x03\x02\x00\x00\x00\x00\x00\x00\x00\x01\
    \x03\x03\x00\x00\x02\x08\x00\x00\x00\x02\
    \x00";

// A log cut at every byte, and with every byte set to each of some values.
fn show_changes<const N: usize>(rt: &impl Print, l: [u8; N], values: &[u8]) -> io::Result<()> {
    for n in 0..=N {
        show(rt, &l[..n])?;
    }
    for at in 0..N {
        for b in values {
            let mut d = l;
            d[at] = *b;
            show(rt, &d)?;
        }
    }
    Ok(())
}

// Bits and values of one field that may not be there, and a cut.
fn show_bits(rt: &impl Print) -> io::Result<()> {
    show(rt, b"\x01\x00\x03\x00\x00\x00\x00\x00\x00")?;
    show(rt, b"\x01\x00\x03\x02\x00\x00\x00\x00\x00")?;
    show(rt, b"\x01\x00\x03\x80\x00\x00\x00\x00\x00")?;
    show(rt, b"\x01\x00\x03\x00\x00\x00\x00\x01\x00")?;
    show(rt, b"\x01\x00\x03\x02\x00\x00\x00")
}

// A rising field across absent times: equal, then smaller than the last present one; a FIELD behind; a bit beyond and a fall.
fn show_falls(rt: &impl Print) -> io::Result<()> {
    show(
        rt,
        b"\x01\x01\
        \x03\x01\x00\x00\x00\x05\x03\x00\x00\x00\x00\x00\x03\x01\x00\x00\x00\x05\
        \x00",
    )?;
    show(
        rt,
        b"\x01\x01\
        \x03\x01\x00\x00\x00\x05\x03\x00\x00\x00\x00\x00\x03\x01\x00\x00\x00\x04\
        \x00",
    )?;
    show(
        rt,
        b"\x01\x01\
        \x02\x00\x00\x00\x05\x03\x00\x00\x00\x00\x00\x03\x00\x00\x00\x00\x00\x02\x00\x00\x00\x04\
        \x00",
    )?;
    show(rt, b"\x01\x01\x03\x00\x00\x00\x00\x00\x01\x01\x00")?;
    show(
        rt,
        b"\x01\x01\x02\x00\x00\x00\x05\x03\x03\x00\x00\x00\x04\x00",
    )
}

// Marks: alone, before the FIELDs, before a FIELD, twice behind the last event.
fn show_marks(rt: &impl Print) -> io::Result<()> {
    show(rt, b"\x01\x00\x04\x00")?;
    show(rt, b"\x04\x01\x00\x00")?;
    show(rt, b"\x01\x00\x04\x01\x00\x00")?;
    show(rt, b"\x01\x00\x02\x00\x00\x00\x01\x04\x04\x00")
}

// A rising field begins afresh behind a mark, but may not fall from there; an event without it between.
fn show_afresh(rt: &impl Print) -> io::Result<()> {
    show(
        rt,
        b"\x01\x01\
        \x02\x00\x00\x00\x05\x04\x02\x00\x00\x00\x04\
        \x00",
    )?;
    show(
        rt,
        b"\x01\x01\
        \x02\x00\x00\x00\x05\x04\x02\x00\x00\x00\x04\x02\x00\x00\x00\x03\
        \x00",
    )?;
    show(
        rt,
        b"\x01\x01\
        \x02\x00\x00\x00\x05\x04\x03\x00\x00\x00\x00\x00\x02\x00\x00\x00\x04\
        \x00",
    )
}

// A FIELD, marks up to so many bytes, and an END.
fn show_filled<const N: usize>(rt: &impl Print) -> io::Result<()>
    requires { (2 < N) × (N < 2 ^ 16) }
{
    let mut l = [4u8; N];
    l[0] = 1;
    l[1] = 0;
    l[N - 1] = 0;
    show(rt, &l)
}

fn main(rt: HostRuntime) -> io::Result<()> {
    show_changes(&rt, BENCH, &[0, 1, 2, 4, 255])?;
    show_changes(&rt, LACKING, &[0, 1, 2, 3, 4, 255])?;
    show_bits(&rt)?;
    show_falls(&rt)?;
    show_marks(&rt)?;
    show_afresh(&rt)?;
    // 64 marks, and one more
    show_filled::<67>(&rt)?;
    show_filled::<68>(&rt)
}
