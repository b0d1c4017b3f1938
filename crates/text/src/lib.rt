// The program's text: the line of an event's row, and the line of a refusal, in lent bytes.
#![tactic(auto)]

ghost use Rattle.std.specs.Prelude.{cond, [], ◌∷◌, ◌++◌, ◌+◌, ◌≤◌, ◌<◌, ◌^◌, length};
ghost use Rattle.refusal.specs.Refusals.{report_of};
ghost use Rattle.text.specs.Text as Text;
ghost use Rattle.text.specs.inner.Adds.{Adds, Written};
ghost use Rattle.text.specs.inner.Grows.{Grows};

use refusal::{Refusal, Report};

// Lent bytes, the first `at` of which are the text so far. Each method adds one part to it.
#[derive(Drop)]
struct Page<'a> {
    out: &'a mut [u8],
    at: usize,
}

impl Page<'_> {
    // Adds bytes as they stand.
    fn add(&mut self, more: &[u8])
        requires { self.old.at + length more.now ≤ length self.old.out.now }
        ensures { Grows (length more.now) self.old self.new more.now }
    {
        let at = self.at;
        let end = at + more.len();
        let out = &mut *self.out;
        out[at..end].copy_from_slice(more);
        self.at = end;
    }

    // Adds the decimal digits of a number, at most so many.
    fn digits(&mut self, n: u64, places: usize)
        requires { self.old.at + places ≤ length self.old.out.now }
        ensures { Grows places self.old self.new (Text.digits places n) }
    {
        if places == 0 {
            return;
        }
        if 10 <= n {
            self.digits(n / 10, places - 1);
        }
        self.add(&[b'0' + (n % 10) as u8]);
    }

    // Adds bytes and a number behind them, which has at most so many places.
    fn number(&mut self, label: &[u8], n: u64, places: usize)
        requires n_bound { (n < 10 ^ places) × (0 < places) }
        requires places_in_bounds { self.old.at + (length label.now + places) ≤ length self.old.out.now }
        ensures { Grows (length label.now + places) self.old self.new (label.now ++ Text.decimal n) }
    {
        self.add(label);
        self.digits(n, places);
    }

    // Adds a space and a row's number.
    fn spaced(&mut self, n: u32)
        requires { self.old.at + 11 ≤ length self.old.out.now }
        ensures { Grows 11 self.old self.new (Text.spaced n) }
    {
        self.number(b" ", u64::from(n), 10);
    }

    // Adds a variable and its value, if it is held.
    fn variable(&mut self, held: bool, v: usize, value: u32)
        requires { (v < 8) × (self.old.at + 14 ≤ length self.old.out.now) }
        ensures { Grows 14 self.old self.new (cond held (Text.variable v value) []) }
    {
        if held {
            self.number(b" v", v as u64, 1);
            self.number(b"=", u64::from(value), 10);
        }
    }

    // Adds the held variables of a row, by rising number.
    fn variables(&mut self, row: &[u32; 12])
        requires { self.old.at + 112 ≤ length self.old.out.now }
        ensures { Grows 112 self.old self.new (Text.variables row.now) }
    {
        for v in 0..8 {
            self.variable((row[3] >> v) % 2 == 1, v, row[4 + v]);
        }
    }

    // Adds a space and the word for a verdict, as it stands in a row.
    fn word(&mut self, verdict: u32)
        requires { self.old.at + 9 ≤ length self.old.out.now }
        ensures { Grows 9 self.old self.new (Text.ascii " " ++ Text.word verdict) }
    {
        let word: &[u8] = match verdict {
            0 => b" none",
            1 => b" alert",
            2 => b" subsumed",
            _ => b" rejected",
        };
        self.add(word);
    }

    // Adds what stands behind the word: unless none, last event, step count and held variables.
    fn details(&mut self, row: &[u32; 12])
        requires { self.old.at + 134 ≤ length self.old.out.now }
        ensures { Grows 134 self.old self.new (Text.details row.now) }
    {
        if row[0] != 0 {
            self.spaced(row[1]);
            self.spaced(row[2]);
            self.variables(row);
        }
    }

    // Adds the line of event n, from its row.
    fn line(&mut self, n: usize, row: &[u32; 12])
        requires { self.old.at + 164 ≤ length self.old.out.now }
        ensures { Grows 164 self.old self.new (Text.line n row.now) }
    {
        self.digits(n as u64, 20);
        self.word(row[0]);
        self.details(row);
        self.add(b"\n");
    }

    // Adds the line of a refusal's three numbers.
    fn refusal(&mut self, t: Report)
        requires { self.old.at + 71 ≤ length self.old.out.now }
        ensures { Grows 71 self.old self.new (Text.refused_line t) }
    {
        let Report {
            file,
            number,
            place,
        } = t;
        self.number(b"refused ", file as u64, 20);
        self.number(b" ", number as u64, 20);
        self.number(b" ", place as u64, 20);
        self.add(b"\n");
    }
}

// Adds bytes behind the first `at` of the lent ones: where they end.
// Bytes and an offset in place of a page, here and below: what public functions promise may not change.
pub fn add(more: &[u8], out: &mut [u8], at: usize) -> usize
    requires { at + length more.now ≤ length out.old }
    ensures { Adds (length more.now) out.old at out.new result more.now }
{
    let mut page = Page { out, at };
    page.add(more);
    page.at
}

// The line of event n, from its row: where it ends in the lent bytes.
pub fn line_of(n: usize, row: [u32; 12], out: &mut [u8; 256]) -> usize
    ensures { Written out.new result (Text.line n row) }
{
    let mut page = Page { out, at: 0 };
    page.line(n, &row);
    page.at
}

// The line of a refusal: where it ends in the lent bytes.
pub fn refused_line(r: Refusal, out: &mut [u8; 256]) -> usize
    ensures { Written out.new result (Text.refused_line (report_of r)) }
{
    let mut page = Page { out, at: 0 };
    page.refusal(Report::from(r));
    page.at
}
