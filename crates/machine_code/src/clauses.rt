// A step's clauses, walked front to back.
ghost use Rattle.std.specs.Prelude.{◌≡◌, true, false, ◌&&◌, ◌<◌, ◌+◌, ◌^◌, get_or, length, MatchOption};
ghost use Rattle.std.specs.Fn.{FnReturnsAt};
ghost use Rattle.event_log.specs.Log.{present};
ghost use Rattle.machine_code.specs.declared.Walked.{Walked};
ghost use Rattle.machine_code.specs.inner.Bytes.{holds_by, missed_by, is_clause, tested, holding, bound, clause_on, clause_at, begun, walked};
ghost use Rattle.machine_code.specs.inner.Walking.{Walking};

use crate::{BIND, Configuration, GATHER, Scene, TEST, TESTV, Walked};

// "Operators: 0 equal, 1 unequal, 2 less, 3 greater, 4 at most, 5 at least; the field is on the left".
#[tactic(auto, unfolding(crate::specs::inner::Bytes::holds_by))]
pub fn holds(operator: u32, x: u32, y: u32) -> bool
    ensures { result ≡ holds_by operator x y }
{
    match operator {
        0 => x == y,
        1 => x != y,
        2 => x < y,
        3 => x > y,
        4 => x <= y,
        _ => x >= y,
    }
}

// A test with less or at most that is false.
#[tactic(auto, unfolding(crate::specs::inner::Bytes::missed_by))]
pub fn missed(operator: u32, x: u32, y: u32) -> bool
    ensures { result ≡ missed_by operator x y }
{
    match operator {
        2 => x >= y,
        4 => x > y,
        _ => false,
    }
}

// Whether a TEST, TESTV, BIND or GATHER stands there.
#[tactic(auto, unfolding(crate::specs::inner::Bytes::is_clause))]
pub fn is_clause(f: &[u8], at: usize) -> bool
    ensures { result ≡ is_clause (get_or f.now at 0) }
{
    matches!(base::byte_at(f, at), TEST | TESTV | BIND | GATHER)
}

impl Walked {
    // A walk begins behind the STEP and its target, with what the configuration holds.
    #[tactic(auto, unfolding(crate::specs::inner::Bytes::begun))]
    pub fn begin(at: usize, c: &Configuration) -> Walked
        requires { at + 2 < 2 ^ 64 }
        ensures { result ≡ begun at c.now }
    {
        Walked {
            at: at + 2,
            passes: true,
            due: false,
            gathers: false,
            held: c.held,
            values: c.values,
            grows: c.held,
        }
    }

    // A TEST or TESTV: a field's value against another; `rises` says whether the field does.
    #[tactic(auto, unfolding(crate::specs::inner::Bytes::tested))]
    fn test(&mut self, next: usize, operator: u32, x: u32, y: u32, rises: bool)
        ensures { self.new ≡ tested self.old next operator x y rises }
    {
        self.at = next;
        self.passes = self.passes && holds(operator, x, y);
        self.due = self.due || rises && missed(operator, x, y);
    }

    // Variable v holds x, unless it is held already.
    #[tactic(auto, unfolding(crate::specs::inner::Bytes::holding))]
    fn hold(&mut self, v: u32, x: u32, rises: bool)
        ensures { self.new ≡ holding self.old v x rises }
    {
        let i = v as usize;
        if i < 8 && !self.held[i] {
            self.held[i] = true;
            self.values[i] = x;
            self.grows[i] = rises;
        }
    }

    // A BIND: its variable holds the field's value, which agrees with the value that it holds.
    #[tactic(auto, unfolding(crate::specs::inner::Bytes::bound, crate::specs::inner::Bytes::holding))]
    fn bind(&mut self, next: usize, v: u32, x: u32, rises: bool)
        ensures { self.new ≡ bound self.old next v x rises }
    {
        self.hold(v, x, rises);
        self.at = next;
        self.passes = self.passes && x == base::get_or(&self.values, v as usize, 0);
    }
}

impl Scene<'_> {
    // Whether a field rises; one that is absent does not.
    pub fn rises(&self, n: u32) -> bool
        ensures { result ≡ (get_or self.now.rises.now n false && present self.now.fields n) }
    {
        base::get_or(self.rises, n as usize, false) && self.fields.has(n)
    }

    // The clause where the walk stands, of a field with value x, which is there and rises or not.
    #[tactic(auto, unfolding(crate::specs::inner::Bytes::clause_on, crate::specs::inner::Bytes::noted))]
    fn clause_on(&self, w: &mut Walked, x: u32, rising: bool)
        requires { w.old.at < length self.now.f.now }
        ensures { w.new ≡ clause_on self.now.f.now self.now.c.now.values w.old x rising }
    {
        let f = self.f;
        let at = w.at;
        let operand = base::byte_at(f, at + 2);
        match base::byte_at(f, at) {
            TEST => w.test(at + 7, operand, x, base::value_at(f, at + 3), rising),
            TESTV => {
                let v = base::byte_at(f, at + 3) as usize;
                w.test(
                    at + 4,
                    operand,
                    x,
                    base::get_or(&self.c.values, v, 0),
                    rising,
                )
            }
            GATHER => {
                w.at = at + 3;
                w.gathers = true;
            }
            _ => w.bind(at + 3, operand, x, rising),
        }
    }

    // The clause where the walk stands; one of an absent field keeps the step from firing.
    #[tactic(auto, unfolding(crate::specs::inner::Bytes::clause_at, crate::specs::inner::Bytes::met))]
    pub fn clause(&self, w: &mut Walked)
        requires { w.old.at < length self.now.f.now }
        ensures { w.new ≡ clause_at self.now.f.now self.now.c.now.values self.now.rises.now self.now.fields w.old }
    {
        let field = base::byte_at(self.f, w.at + 1);
        let present = self.fields.has(field);
        let rising = self.rises(field);
        w.passes = w.passes && present;
        self.clause_on(w, self.fields.reading(field), rising);
    }

    // The clauses of the STEP at an offset; none where a test stops the walk.
    pub fn walk<F: Fn(&Walked) -> bool>(&self, at: usize, stop: F) -> Option<Walked>
        requires inside { at < length self.now.f.now }
        requires callable { F.IsAlwaysCallable stop }
        ensures { MatchOption result
            ((w : Walked)
            × Walking self.now.f.now self.now.c.now.values self.now.rises.now self.now.fields (begun at self.now.c.now) w
            × FnReturnsAt F.Fn stop w true)
            (λ w. (w ≡ walked self.now.f.now at self.now.c.now self.now.rises.now self.now.fields) × FnReturnsAt F.Fn stop w false) }
    {
        let mut w = Walked::begin(at, self.c);
        while !stop(&w) {
            if !is_clause(self.f, w.at) {
                return Some(w);
            }
            self.clause(&mut w);
        }
        None
    }
}
