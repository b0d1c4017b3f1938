// The formula file: reading it.
#![tactic(auto)]

mod draft;

ghost use Rattle.std.specs.Prelude.{◌≡◌};
ghost use Rattle.formula_code.specs.Answer.{ReadsFormula};
ghost use Rattle.formula_code.specs.inner.Judge.{reading_from, judged};
ghost use Rattle.formula_code.specs.inner.Scan.{Scanned};

use crate::draft::Draft;
use closure::free_of;
use command_reader::next_command;
use expression_reader::Part;
use expression_reader::places::lowest_of;
use refusal::{File, Refusal};

// An accepted formula: its number of states, their kinds (0 ordinary, 1 committed, 2 accept, 3 reject), where its steps begin (step k
// of state s at s * 8 + k, 0 where there is none) and the mask of its tied variables (bit v set where variable v is tied).
#[derive(Clone, Copy)]
pub struct FormulaReading {
    pub states: usize,
    // numbers, as the definitions `kinds_of`, `step_table` and `tied_mask` have them
    pub kinds: [u32; 16],
    pub table: [usize; 128],
    pub tied: u32,
}

// Walks the commands of a file from the front to END or to the first bad one.
fn scan_file(l: &[u8], fields: usize) -> Result<Draft, Refusal>
    ensures { Scanned fields l.now result }
{
    let file = Part { bytes: l, at: 0 };
    let mut d = Draft::empty();
    while let Some(taken) = next_command(
        file.behind(d.at),
        fields,
        d.summary,
        d.own,
        &mut d.places,
    )? {
        d.keep(taken);
    }
    Ok(d)
}

// What is read of an accepted formula, from what was kept of it.
fn reading_from(d: &Draft) -> FormulaReading
    ensures { result ≡ reading_from d.now }
{
    FormulaReading {
        states: d.summary.states,
        kinds: d.kinds,
        table: d.table,
        tied: base::mask_of(d.ties),
    }
}

// After END: an absent state, a dead start, an unbound variable, in this order; the first place of each, if there is one.
fn judge(
    d: &Draft,
    absent: Option<usize>,
    unbound: Option<usize>,
) -> Result<FormulaReading, Refusal>
    ensures { result ≡ judged d.now absent unbound }
{
    if let Some(place) = absent {
        return Err(Refusal::AbsentState { place });
    }
    if 1 < d.kinds[0] {
        return Err(Refusal::DeadStart);
    }
    if let Some(place) = unbound {
        return Err(Refusal::Unbound { place });
    }
    Ok(reading_from(d))
}

// Reads a formula file against a log with this many fields: accepted or refused, exactly as the definition reads its bytes.
pub fn read_formula(l: &[u8], fields: usize) -> Result<FormulaReading, Refusal>
    ensures { ReadsFormula l.now fields result }
{
    let d = scan_file(l, fields)?;
    let behind = d.at + 1;
    if behind < l.len() {
        return Err(Refusal::Leftover {
            file: File::Formula,
            place: behind,
        });
    }
    let absent = lowest_of([false; 128], 128 + d.summary.states, &d.places);
    let free = free_of(&d.edges[..d.count]);
    judge(&d, absent, lowest_of(free, 145, &d.places))
}
