ghost use Rattle.std.specs.Prelude.{◌≡◌, ℕ, ◌+◌, ◌*◌, ◌<◌, ◌≤◌, [], ◌∷◌, length, slice_index, slice_index_or};
ghost use Rattle.field.specs.Given.{sides_of};

use super::side::Side;

// The three numbers of each side: the library's `as_chunks`, with what it is of sides said once.
#[tactic(auto, using(crate::proofs::Triples::triple_at))]
pub(super) fn triples(sides: &[u32]) -> &[[u32; 3]]
    ensures count { length result.now ≡ sides_of sides.now }
    ensures each { (k : ℕ) → k < sides_of sides.now → slice_index_or result.now k [] ≡ slice_index sides.now (3 * k) ∷ slice_index sides.now (3 * k + 1) ∷ slice_index sides.now (3 * k + 2) ∷ [] }
{
    let (triples, _) = sides.as_chunks::<3>();
    triples
}

// The sides of lent numbers, three numbers each, in their order and each with its number. It counts by itself: what it gives
// is then said of a number, as the rules of sides are, and `enumerate` would be no plainer.
#[derive(Clone, Copy)]
pub struct Sides<'a> {
    numbers: &'a [u32],
    next: usize,
    ghost within: { next ≤ sides_of numbers.now },
}

impl<'a> Sides<'a> {
    pub(super) fn of(numbers: &'a [u32]) -> Self
        ensures numbers { result.numbers.now ≡ numbers.now }
        ensures start { result.next ≡ 0 }
    {
        Sides { numbers, next: 0 }
    }
}

impl<'a> Iterator for Sides<'a> {
    ghost use Rattle.field.specs.Sides.{GivesNext, still_to_come};

    type Item = (usize, Side);

    ghost next_gives = { GivesNext };

    ghost remaining = { still_to_come };

    fn next(&mut self) -> Option<(usize, Side)> {
        let number = self.next;
        let triple = triples(self.numbers).get(number)?;
        self.next += 1;
        Some((number, Side::from(*triple)))
    }
}
