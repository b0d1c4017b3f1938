// The program: reads log.bin and formula.bin, lends 64 slots (the paper's seats), and prints a line for each event, all in one write.
// Where the system refuses to open, read or write, it stops, and a line on standard error says what failed and why.
#![tactic(auto)]

ghost use Rattle.std.specs.Prelude.{◌≡◌, ◌+◌, ◌≤◌, length, IfOk};
ghost use Rattle.refusal.specs.Refusals.{report_of};
ghost use Rattle.event_log.specs.Read.{read_log};
ghost use Rattle.text.specs.inner.Adds.{Adds};
ghost use Rattle.text.specs.Text.{line, lines, refused_line, events_in, printed};

use refusal::Refusal;
use std::fs::File;
use std::io;
use std::io::{ErrorKind, Read};
use std::rt::Files;

// What failed, and why.
#[derive(Drop)]
struct Failure {
    what: &'static str,
    why: io::Error,
}

// Reads to the buffer's start until the buffer is full or the file ends. A read that a signal interrupts counts as failed.
fn read_all(file: &mut impl Read, buffer: &mut [u8]) -> io::Result<usize>
    ensures { IfOk result (λ n. n ≤ length buffer.new) }
{
    let mut at = 0;
    while at < buffer.len() {
        let more = file.read(&mut buffer[at..])?;
        if more == 0 {
            break;
        }
        at += more;
    }
    Ok(at)
}

// Loads a file of the folder that the program is run in. A missing file counts as empty; bytes beyond the buffer's 65,536 are not read,
// because no correct file has as many and they decide nothing.
fn load(rt: &impl Files, path: &'static str, buffer: &mut [u8]) -> Result<usize, Failure>
    ensures { IfOk result (λ n. n ≤ length buffer.new) }
{
    let loaded = match File::open(rt, path) {
        Ok(mut file) => read_all(&mut file, buffer),
        Err(e) if e.kind() == ErrorKind::NotFound => Ok(0),
        Err(e) => Err(e),
    };
    loaded.map_err(|why| Failure { what: path, why })
}

// Adds the line of event n, from its row.
fn add_line(n: usize, row: &[u32; 12], out: &mut [u8], at: usize) -> usize
    requires { at + 256 ≤ length out.old }
    ensures { Adds 256 out.old at out.new result (line n row.now) }
{
    let mut text = [0; 256];
    let end = text::line_of(n, *row, &mut text);
    text::add(&text[..end], out, at)
}

// The lines of all events.
fn lines_in(rows: &[u32], events: usize, out: &mut [u8]) -> usize
    requires { (events ≤ 1024) × (12288 ≤ length rows.now) × (262144 ≤ length out.old) }
    ensures { Adds 262144 out.old 0 out.new result (lines events rows.now) }
{
    let (chunks, _) = rows.as_chunks::<12>();
    let lined = &chunks[..events];
    let mut at = 0;
    for (n, row) in lined.iter().enumerate() {
        at = add_line(n, row, out, at);
    }
    at
}

// The line of a refusal.
fn refusal_in(r: Refusal, out: &mut [u8]) -> usize
    requires { 262144 ≤ length out.old }
    ensures { Adds 262144 out.old 0 out.new result (refused_line (report_of r)) }
{
    let mut text = [0; 256];
    let end = text::refused_line(r, &mut text);
    text::add(&text[..end], out, 0)
}

// How many events a log has; none if it is refused.
fn events_in(l: &[u8]) -> usize
    ensures { result ≡ events_in (read_log l.now) }
{
    match event_log_code::read_log(l) {
        Ok(log) => log.events,
        Err(_) => 0,
    }
}

// Analyses two files: the text that is to be printed, and where it ends.
fn answer(l: &[u8], f: &[u8], out: &mut [u8]) -> usize
    requires { 262144 ≤ length out.old }
    ensures { Adds 262144 out.old 0 out.new result (printed l.now f.now) }
{
    let mut work = [0; 12288];
    let mut rows = [0; 12288];
    match analysis_code::analyse(l, f, &mut work, &mut rows) {
        Ok(()) => lines_in(&rows, events_in(l), out),
        Err(why) => refusal_in(why, out),
    }
}

// Loads both files, analyses them and prints the text: room for two files, and for the lines of 1,024 events.
fn run(rt: &HostRuntime) -> Result<(), Failure> {
    let mut log = [0; 65536];
    let mut formula = [0; 65536];
    let m = load(rt, "log.bin", &mut log)?;
    let n = load(rt, "formula.bin", &mut formula)?;
    let mut out = [0; 262144];
    let end = answer(&log[..m], &formula[..n], &mut out);
    rt.write_all(&out[..end]).map_err(|why| Failure {
        what: "standard output",
        why,
    })
}

// Where standard error cannot be written, there is nowhere else to say what failed.
fn main(rt: HostRuntime) {
    if let Err(Failure { what, why }) = run(&rt) {
        let _ = eprintln!(rt; "{what}: {why}");
    }
}
