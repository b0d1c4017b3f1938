// The analysis: a row for every event of the log.
#![tactic(auto)]

ghost use Rattle.std.specs.Prelude.{◌≡◌, cond, ltb, ◌+◌, ◌*◌, ◌≤◌, ◌<◌, length};
ghost use Rattle.slots.specs.inner.Words.{put};
ghost use Rattle.search_code.specs.inner.Turn.{stretch_end};
ghost use Rattle.analysis.specs.Rows.{tied_alike, row, subsumed, verdict};
ghost use Rattle.analysis.specs.Call.{Analyses};
ghost use Rattle.analysis_code.specs.inner.Starts.{named_of, said, variables, share, run_if, maybe, runs_of, runs_in, run_of, row_by, AllStarts};

use files_code::FilesReading;
use refusal::Refusal;
use search::{SearchAnswer, Verdict};
use search_code::Files;

// A start's named run, as its row holds it.
#[derive(Clone, Copy)]
struct RowRun {
    accepts: bool,
    last: u32,
    steps: u32,
    held: [bool; 8],
    values: [u32; 8],
}

// What a row says of its run, by the first of its words (numbers, as the definition `verdict` and the C interface have them); a row
// without a run has 0 there.
#[derive(Clone, Copy)]
enum RowVerdict {
    Alert = 1,
    Subsumed = 2,
    Rejected = 3,
}

// The rows of the starts before one, and which variables are tied.
#[derive(Clone, Copy)]
struct Earlier<'a> {
    rows: &'a [[u32; 12]],
    tied: &'a [bool; 8],
}

impl RowRun {
    // The run that a row holds, if it holds one.
    fn in_row(row: &[u32; 12]) -> Option<RowRun>
        ensures { maybe result ≡ run_if row.now }
    {
        if row[0] == 0 {
            return None;
        }
        let mut values = [0; 8];
        values.copy_from_slice(&row[4..12]);
        Some(RowRun {
            accepts: row[0] != RowVerdict::Rejected as u32,
            last: row[1],
            steps: row[2],
            held: base::bits_of(row[3], 8),
            values,
        })
    }

    // The run that a search answers.
    fn of(answer: &SearchAnswer) -> RowRun
        ensures { named_of result ≡ run_of answer.now }
    {
        let steps = answer.steps.min(32);
        let held = answer.held;
        let values = answer.values;
        RowRun {
            accepts: answer.verdict == Verdict::Accept,
            last: base::get_or(&answer.events, steps.saturating_sub(1), 0),
            steps: steps as u32,
            held,
            values,
        }
    }

    // Whether both runs hold a variable, with one value.
    fn shares(&self, other: &RowRun, v: usize) -> bool
        requires { v < 8 }
        ensures { result ≡ share (named_of self.now) (named_of other.now) v }
    {
        self.held[v] && other.held[v] && self.values[v] == other.values[v]
    }
}

// The tie rule: whether two runs have the same tied values.
fn tied_alike(tied: &[bool; 8], a: &RowRun, b: &RowRun) -> bool
    ensures { result ≡ tied_alike (variables tied.now) (named_of a.now) (named_of b.now) }
{
    for v in 0..8 {
        if tied[v] && !a.shares(b, v) {
            return false;
        }
    }
    true
}

impl Earlier<'_> {
    // Whether the run of an earlier row subsumes this one.
    fn subsumes(&self, row: &[u32; 12], run: &RowRun) -> bool
        ensures { result ≡ subsumed (variables self.now.tied.now) (length self.now.rows.now) (named_of run.now) (run_if row.now) }
    {
        let Some(earlier) = RowRun::in_row(row) else {
            return false;
        };
        self.rows.len() <= earlier.last as usize && tied_alike(self.tied, &earlier, run)
    }

    // What is said of a start's run.
    fn verdict(&self, run: &RowRun) -> RowVerdict
        ensures { said result ≡ verdict (variables self.now.tied.now) (length self.now.rows.now) (named_of run.now) (runs_of self.now.rows.now) }
    {
        if !run.accepts {
            RowVerdict::Rejected
        } else if self.rows.iter().any(|row| self.subsumes(row, run)) {
            RowVerdict::Subsumed
        } else {
            RowVerdict::Alert
        }
    }

    // The row of a start's run.
    fn row_of(&self, run: &RowRun) -> [u32; 12]
        ensures { result ≡ row (verdict (variables self.now.tied.now) (length self.now.rows.now) (named_of run.now) (runs_of self.now.rows.now)) (named_of run.now) }
    {
        let mut row = [0; 12];
        row[0] = self.verdict(run) as u32;
        row[1] = run.last;
        row[2] = run.steps;
        row[3] = base::mask_of(run.held);
        row[4..12].copy_from_slice(&run.values);
        row
    }

    // The row of a search's answer.
    fn row(&self, answer: &SearchAnswer) -> [u32; 12]
        ensures { result ≡ row_by (variables self.now.tied.now) (length self.now.rows.now) (runs_of self.now.rows.now) answer.now answer.now.verdict }
    {
        match answer.verdict {
            Verdict::Absent => [0; 12],
            Verdict::Accept | Verdict::Reject => self.row_of(&RowRun::of(answer)),
        }
    }
}

// Writes a start's row behind those of the starts before it, by its search's answer.
fn write_row(rows: &mut [u32], tied: &[bool; 8], start: usize, answer: &SearchAnswer)
    requires { start * 12 + 12 ≤ length rows.old }
    ensures { rows.new ≡ put rows.old (start * 12) (row_by (variables tied.now) start (runs_in start rows.old) answer.now answer.now.verdict) }
{
    let at = start * 12;
    let (earlier, _) = rows[..at].as_chunks();
    let row = Earlier {
        rows: earlier,
        tied,
    }
    .row(answer);
    // By the place of its words: of a slice lent as chunks to be written the library does not say what it ends as.
    rows[at..at + 12].copy_from_slice(&row);
}

// Where a start's stretch ends, from the end of the stretch before it or its own: another only where that one is over.
fn end_at(files: &Files<'_>, start: usize, end: usize) -> usize
    requires { (start ≤ files.now.scope.events) × (end ≤ files.now.scope.events) × (files.now.scope.events ≤ 1024) }
    ensures { (result ≡ cond (ltb start end) end (stretch_end files.now.log.now files.now.places.now files.now.scope start)) × (result ≤ files.now.scope.events) }
{
    if start < end {
        end
    } else {
        files.stretch_end(start)
    }
}

// Every start in order, up to one that is crowded; the last present values and the stretch's end are carried from start to start.
fn all_starts(
    files: &Files<'_>,
    tied: &[bool; 8],
    work: &mut [u32],
    rows: &mut [u32],
) -> Result<(), Refusal>
    requires { (files.now.scope.slots * 192 ≤ length work.old) × (1 ≤ files.now.scope.slots) × (12 * files.now.scope.events ≤ length rows.old) × (files.now.scope.events ≤ 1024) }
    ensures { AllStarts files.now.log.now files.now.places.now files.now.formula.now files.now.steps.now files.now.scope tied.now rows.old rows.new result }
{
    let mut seen = event_log_code::none_seen();
    let mut end = 0;
    for start in 0..files.scope.events {
        end = end_at(files, start, end);
        let Ok(answer) = files.search_from(start, end, seen, work) else {
            return Err(Refusal::Crowded { place: start });
        };
        write_row(rows, tied, start, &answer);
        seen = files.seen_after(start, seen);
    }
    Ok(())
}

// Analyses a log by a formula: a row for every event, exactly as the definition gives them. Once both files are accepted, the lent
// words are checked, then every start is searched.
pub fn analyse(l: &[u8], f: &[u8], work: &mut [u32], rows: &mut [u32]) -> Result<(), Refusal>
    ensures { Analyses l.now f.now work.old work.new rows.old rows.new result }
{
    let FilesReading { log, formula } = files_code::read_files(l, f)?;
    let words = work.len();
    if words < 192 {
        return Err(Refusal::Short { needed: 192 });
    }
    let needed = 12 * log.events;
    if rows.len() < needed {
        return Err(Refusal::Short { needed });
    }
    let tied = base::bits_of(formula.tied, 8);
    let lasting = search_code::lasting_of(f, &log, &formula);
    let slots = search_code::slots_of(words);
    let files = Files {
        log: l,
        places: &log.places,
        formula: f,
        steps: &formula.table,
        scope: search_code::scope_of(&log, &formula, lasting, slots),
    };
    all_starts(&files, &tied, work, rows)
}
