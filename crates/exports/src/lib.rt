// The static library: the readers, the search and the analysis for C and Rust. Each function hands on what the crate below answers, as a
// struct of numbers. A slice passes as a pointer and a length.
#![tactic(auto)]

ghost use Rattle.std.specs.Prelude.{◌≡◌};
ghost use Rattle.exports.specs.Exports.{named, nothing, verdict_number};
ghost use Rattle.exports.specs.Exports.{ExportsLog, ExportsFormula, ExportsSearch, ExportsAnalysis};

use refusal::{Refusal, Report};
use search::Verdict;

// A refusal's file, number and place; number 0 where nothing is refused.
#[repr(C)]
#[derive(Clone, Copy)]
pub struct Refused {
    pub file: usize,
    pub number: usize,
    pub place: usize,
}

// What the log's reader answers.
#[repr(C)]
#[derive(Clone, Copy)]
pub struct LogRead {
    pub refused: Refused,
    pub fields: usize,
    pub events: usize,
}

// What a search answers; verdict 0 none, 1 accept, 2 reject.
#[repr(C)]
#[derive(Clone, Copy)]
pub struct Found {
    pub refused: Refused,
    pub verdict: usize,
    pub steps: usize,
    pub events: [u32; 32],
    pub numbers: [u32; 32],
    pub held: [bool; 8],
    pub values: [u32; 8],
    pub width: usize,
}

// Nothing refused.
fn none() -> Refused
    ensures { result ≡ nothing }
{
    Refused {
        file: 0,
        number: 0,
        place: 0,
    }
}

// A refusal's three numbers.
impl From<Refusal> for Refused {
    ghost from_gives = { λ r t. t ≡ named r };

    fn from(r: Refusal) -> Refused {
        let Report {
            file,
            number,
            place,
        } = Report::from(r);
        Refused {
            file,
            number,
            place,
        }
    }
}

// The number of a search's verdict.
fn verdict_number(v: Verdict) -> usize
    ensures { result ≡ verdict_number v }
{
    match v {
        Verdict::Absent => 0,
        Verdict::Accept => 1,
        Verdict::Reject => 2,
    }
}

// Reads a log: its refusal, or the numbers of its fields and events.
#[unsafe(no_mangle)]
pub extern "C" fn hikwallu_read_log(l: &[u8]) -> LogRead
    ensures { ExportsLog l.now result }
{
    match event_log_code::read_log(l) {
        Ok(log) => LogRead {
            refused: none(),
            fields: log.fields,
            events: log.events,
        },
        Err(why) => LogRead {
            refused: why.into(),
            fields: 0,
            events: 0,
        },
    }
}

// Reads a formula against a log of so many fields: its refusal, if it has one.
#[unsafe(no_mangle)]
pub extern "C" fn hikwallu_read_formula(f: &[u8], fields: usize) -> Refused
    ensures { ExportsFormula f.now fields result }
{
    match formula_code::read_formula(f, fields) {
        Ok(_) => none(),
        Err(why) => why.into(),
    }
}

// Searches one start with the lent work words, which stay as they are where the call is refused before it runs.
#[unsafe(no_mangle)]
pub extern "C" fn hikwallu_search(l: &[u8], f: &[u8], start: usize, work: &mut [u32]) -> Found
    ensures { ExportsSearch l.now f.now start work.old work.new result }
{
    match search_code::search(l, f, start, work) {
        Ok(answer) => {
            let events = answer.events;
            let numbers = answer.numbers;
            let held = answer.held;
            let values = answer.values;
            Found {
                refused: none(),
                verdict: verdict_number(answer.verdict),
                steps: answer.steps,
                events,
                numbers,
                held,
                values,
                width: answer.width,
            }
        }
        Err(why) => Found {
            refused: why.into(),
            verdict: 0,
            steps: 0,
            events: [0; 32],
            numbers: [0; 32],
            held: [false; 8],
            values: [0; 8],
            width: 0,
        },
    }
}

// Searches every start and writes the rows; where the call is refused before it runs, work words and rows stay as they are.
#[unsafe(no_mangle)]
pub extern "C" fn hikwallu_analyse(
    l: &[u8],
    f: &[u8],
    work: &mut [u32],
    rows: &mut [u32],
) -> Refused
    ensures { ExportsAnalysis l.now f.now work.old work.new rows.old rows.new result }
{
    match analysis_code::analyse(l, f, work, rows) {
        Ok(()) => none(),
        Err(why) => why.into(),
    }
}
