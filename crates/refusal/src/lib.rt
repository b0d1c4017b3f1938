// Refusals: what a file or a call is refused with, and the file, number and place that an answer names.
#![tactic(auto)]

ghost use Rattle.std.specs.Prelude.{◌≡◌};
ghost use Rattle.refusal.specs.Refusals.{file_number, line, report_of};

// The file that a refusal speaks of; 9, 10 and 11 speak of the call, file 3.
#[derive(Clone, Copy, Debug, PartialEq, Eq)]
pub enum File {
    Log,
    Formula,
}

// One case for each refusal, in the order of their numbers. A place in a file is the offset of a command's first byte.
#[derive(Clone, Copy, Debug, PartialEq, Eq)]
pub enum Refusal {
    // 1: operands run past the end; with END missing, the file length
    CutShort { file: File, place: usize },
    // 2: unknown command, or one not allowed there
    Foreign { file: File, place: usize },
    // 3: a kind, operator, field or variable that does not exist
    Value { file: File, place: usize },
    // 4: one over a stated count or depth
    Surplus { file: File, place: usize },
    // 5: bytes after END; the first of them
    Leftover { file: File, place: usize },
    // 6: a rising field falls; its EVENT
    StepBack { place: usize },
    // 7: state 0 accepts or rejects
    DeadStart,
    // 8: a TESTV or VAR of an unbound variable
    Unbound { place: usize },
    // 9: the start is not below the event count
    Outside { start: usize },
    // 10: too few words lent; the words needed
    Short { needed: usize },
    // 11: more configurations wait than there are seats
    Crowded { place: usize },
    // 12: one STEP gathers a variable a second time
    Twice { place: usize },
    // 13: a STEP or COUNT names a state that the file does not declare
    AbsentState { place: usize },
}

// What an answer names: the file (1 log, 2 formula, 3 the call), the number and the place.
#[derive(Clone, Copy, Debug, PartialEq, Eq)]
pub struct Report {
    pub file: usize,
    pub number: usize,
    pub place: usize,
}

// The file's number.
impl From<File> for usize {
    ghost from_gives = { λ f n. n ≡ file_number f };

    fn from(f: File) -> usize {
        match f {
            File::Log => 1,
            File::Formula => 2,
        }
    }
}

// A line of the table of refusals.
fn line(file: usize, number: usize, place: usize) -> Report
    ensures { result ≡ line file number place }
{
    Report {
        file,
        number,
        place,
    }
}

// File, number and place of a refusal.
impl From<Refusal> for Report {
    ghost from_gives = { λ r t. t ≡ report_of r };

    fn from(r: Refusal) -> Report {
        match r {
            Refusal::CutShort { file, place } => line(file.into(), 1, place),
            Refusal::Foreign { file, place } => line(file.into(), 2, place),
            Refusal::Value { file, place } => line(file.into(), 3, place),
            Refusal::Surplus { file, place } => line(file.into(), 4, place),
            Refusal::Leftover { file, place } => line(file.into(), 5, place),
            Refusal::StepBack { place } => line(1, 6, place),
            Refusal::DeadStart => line(2, 7, 0),
            Refusal::Unbound { place } => line(2, 8, place),
            Refusal::Outside { start } => line(3, 9, start),
            Refusal::Short { needed } => line(3, 10, needed),
            Refusal::Crowded { place } => line(3, 11, place),
            Refusal::Twice { place } => line(2, 12, place),
            Refusal::AbsentState { place } => line(2, 13, place),
        }
    }
}
