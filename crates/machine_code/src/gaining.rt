// What a step's GATHERs add to the lists, of which a configuration holds the tallies.
ghost use Rattle.std.specs.Prelude.{◌≡◌, cond, ◌<◌, length};
ghost use Rattle.machine.specs.inner.Along.{tally_add};
ghost use Rattle.machine_code.specs.inner.Bytes.{kept, gathered, gain_at, gained};

use crate::clauses::is_clause;
use crate::marks::width;
use crate::{GATHER, Gained, Scene, Walked};

// The tallies with x added to list i; `new` says that no value of the list equals x.
#[tactic(auto, unfolding(machine::specs::inner::Along::tally_add))]
fn tally_add(tallies: &mut [u32; 12], i: usize, x: u32, new: bool)
    requires { i < 4 }
    ensures { tallies.new ≡ tally_add tallies.old i x new }
{
    tallies[i] = tallies[i].saturating_add(x);
    tallies[4 + i] = tallies[4 + i].saturating_add(1);
    tallies[8 + i] = tallies[8 + i].saturating_add(u32::from(new));
}

impl Gained {
    // Nothing gathered.
    #[tactic(auto, unfolding(crate::specs::inner::Bytes::kept))]
    fn nothing(tallies: [u32; 12]) -> Gained
        ensures { result ≡ kept tallies }
    {
        Gained {
            tallies,
            rising: [true; 4],
            unchanged: [true; 4],
        }
    }

    // A GATHER of a field: its list, written 8 + i, gains the field's value. `fresh` says at i * 8 + field that no value of list i equals it.
    #[tactic(auto, unfolding(crate::specs::inner::Bytes::gathered, crate::specs::inner::Bytes::gaining))]
    fn gather(&mut self, field: u32, operand: u32, x: u32, rises: bool, fresh: &[bool; 32])
        requires { field < 256 }
        ensures { self.new ≡ gathered self.old field operand x rises fresh.now }
    {
        let i = operand.saturating_sub(8) as usize;
        if 4 <= i {
            return;
        }
        let new = base::get_or(fresh, i * 8 + field as usize, false);
        tally_add(&mut self.tallies, i, x, new);
        self.rising[i] = self.rising[i] && rises;
        self.unchanged[i] = false;
    }
}

impl Scene<'_> {
    // What the clause at a place adds.
    #[tactic(auto, unfolding(crate::specs::inner::Bytes::gain_at))]
    fn gain(&self, place: usize, g: &mut Gained)
        requires { place < length self.now.f.now }
        ensures { g.new ≡ gain_at self.now.f.now self.now.fresh.now self.now.rises.now self.now.fields place g.old }
    {
        if base::byte_at(self.f, place) != GATHER {
            return;
        }
        let field = base::byte_at(self.f, place + 1);
        let operand = base::byte_at(self.f, place + 2);
        let rising = self.rises(field);
        g.gather(
            field,
            operand,
            self.fields.reading(field),
            rising,
            self.fresh,
        );
    }

    // What the clauses of the STEP at an offset add.
    fn gain_all(&self, at: usize) -> Gained
        requires { at < length self.now.f.now }
        ensures { result ≡ gained self.now.f.now at self.now.c.now.tallies self.now.fresh.now self.now.rises.now self.now.fields }
    {
        let mut g = Gained::nothing(self.c.tallies);
        let mut place = at + 2;
        while is_clause(self.f, place) {
            self.gain(place, &mut g);
            place += width(base::byte_at(self.f, place));
        }
        g
    }

    // The same of a step that is walked: where the walk met no GATHER, nothing is gathered.
    pub fn gains(&self, at: usize, w: &Walked) -> Gained
        requires { at < length self.now.f.now }
        ensures { result ≡ cond w.now.gathers (gained self.now.f.now at self.now.c.now.tallies self.now.fresh.now self.now.rises.now self.now.fields) (kept self.now.c.now.tallies) }
    {
        if w.gathers {
            self.gain_all(at)
        } else {
            Gained::nothing(self.c.tallies)
        }
    }
}
