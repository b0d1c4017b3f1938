// Reading the two files of a call: the log, then the formula against it.
#![tactic(auto)]

ghost use Rattle.files_code.specs.inner.Reading.{ReadsFiles};

use event_log::LogReading;
use formula_code::FormulaReading;
use refusal::Refusal;

// What the readers found in two accepted files.
#[derive(Clone, Copy)]
pub struct FilesReading {
    pub log: LogReading,
    pub formula: FormulaReading,
}

// Reads both files, or tells the first refusal.
pub fn read_files(l: &[u8], f: &[u8]) -> Result<FilesReading, Refusal>
    ensures { ReadsFiles l.now f.now result }
{
    let log = event_log_code::read_log(l)?;
    let formula = formula_code::read_formula(f, log.fields)?;
    Ok(FilesReading { log, formula })
}
