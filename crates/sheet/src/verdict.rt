ghost use Rattle.std.specs.Prelude.{◌≡◌, ℕ, ◌≤◌, length, pos, slice_index_or};
ghost use Rattle.theory.specs.Fields.{Cheapest, total};
ghost use Rattle.field.specs.Given.{picture_in, flows_in};
ghost use Rattle.sheet.specs.Given.{lent_field, lent_fits};
ghost use Rattle.sheet.specs.Claimed.{claim_field, claim_tried};
ghost use Rattle.sheet.specs.Words.{rules, word_of, few_places, Judged, Said, Answer, Accepted};

use super::claim::Claim;
use field::{Lent, Rooms};
use std::alloc::Global;
use word::Objection;

// A field of so many places is checked with no memory but the stack: 32 KiB.
const FEW_PLACES: usize = 4_096;

impl Claim<'_> {
    // The word of a claim whose picture has this cost, with a zero lent for each place. Inlined: where all of `check` goes
    // into one caller with a known field of a few places, the compiler then lays down zeros for these alone.
    #[inline(always)]
    fn judge(self, numbers: &mut [i64], cost: u64) -> Result<u64, Objection>
        requires room { length numbers.old ≡ self.field.places }
        requires blank { (i : ℕ) → slice_index_or numbers.old i (pos 0) ≡ pos 0 }
        ensures { result ≡ word_of (claim_tried self.entry) cost }
    {
        self.count(numbers)?.places_hold()?;
        Ok(cost)
    }

    // The same for a field of few places, with zeros on the stack.
    fn word_of_few(self, cost: u64) -> Result<u64, Objection>
        requires { self.field.places ≤ few_places }
        ensures { result ≡ word_of (claim_tried self.entry) cost }
    {
        let mut numbers = [0; FEW_PLACES];
        self.judge(&mut numbers[0..self.field.places], cost)
    }

    // The same for any field, with zeros from the heap where there are many places.
    fn word(self, heap: Global, cost: u64) -> Result<u64, Objection>
        ensures { Judged (claim_field self.entry) result (claim_tried self.entry) cost }
    {
        if self.field.places <= FEW_PLACES {
            return self.word_of_few(cost);
        }
        let mut numbers = vec![in heap; 0i64; self.field.places]?;
        self.judge(numbers.as_mut_slice(), cost)
    }
}

// The word of lent numbers that nobody has looked at.
fn answer(heap: Global, lent: Lent, picture: &[u32], flows: &[u32]) -> Result<u64, Objection>
    ensures { Said (lent_field lent.entry) result (lent_fits lent.entry picture.now flows.now) (rules (lent_field lent.entry) (picture_in picture.now) (flows_in flows.now)) (total (lent_field lent.entry) (picture_in picture.now)) }
{
    let rooms = Rooms::both(picture, flows);
    let field = lent.examine(rooms)?;
    let cost = field.cost_of(picture)?;
    let claim = Claim {
        field,
        picture,
        flows,
    };
    claim.word(heap, cost)
}

// Whether flows are a sheet for a picture: refused by the first of rules 1 to 6 that applies, or cheapest with what
// the picture costs, or the first side or else the first place with its first other value where the sheet's rule is
// broken. Where it answers cheapest, no picture of the field costs less.
pub fn check(heap: Global, lent: Lent, picture: &[u32], flows: &[u32]) -> Result<u64, Objection>
    ensures answer { Answer (lent_fits lent.entry picture.now flows.now) (lent_field lent.entry) (picture_in picture.now) (flows_in flows.now) result }
    ensures cheapest { Accepted result → Cheapest (lent_field lent.entry) (picture_in picture.now) }
{
    answer(heap, lent, picture, flows)
}
