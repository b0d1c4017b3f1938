// The static library: what crate `exports` hands on, for C and Rust. A slice passes as a pointer and a length; sizes are `usize`.
#![tactic(auto)]

ghost use Rattle.exports.specs.Exports.{ExportsLog, ExportsFormula, ExportsSearch, ExportsAnalysis};

use exports::{Found, LogRead, Refused};

// Reads a log: its refusal, or the numbers of its fields and events.
#[unsafe(no_mangle)]
pub extern "C" fn hikwallu_read_log(l: &[u8]) -> LogRead
    ensures { ExportsLog l.now result }
{
    exports::hikwallu_read_log(l)
}

// Reads a formula against a log of so many fields: its refusal, if it has one.
#[unsafe(no_mangle)]
pub extern "C" fn hikwallu_read_formula(f: &[u8], fields: usize) -> Refused
    ensures { ExportsFormula f.now fields result }
{
    exports::hikwallu_read_formula(f, fields)
}

// Searches one start with the lent work words, which stay as they are where the call is refused before it runs.
#[unsafe(no_mangle)]
pub extern "C" fn hikwallu_search(l: &[u8], f: &[u8], start: usize, work: &mut [u32]) -> Found
    ensures { ExportsSearch l.now f.now start work.old work.new result }
{
    exports::hikwallu_search(l, f, start, work)
}

// Searches every start and writes the rows; where the call is refused before it runs, work words and rows stay as they are.
#[unsafe(no_mangle)]
pub extern "C" fn hikwallu_analyse(
    l: &[u8],
    f: &[u8],
    work: &mut [u32],
    rows: &mut [u32],
) -> Refused
    ensures { ExportsAnalysis l.now f.now work.old work.new rows.old rows.new result }
{
    exports::hikwallu_analyse(l, f, work, rows)
}
