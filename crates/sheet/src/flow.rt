ghost use Rattle.std.specs.Prelude.{◌≡◌, ℕ, ◌<◌, length, pos, neg_ℤ, ◌≤ℤ◌, slice_index, slice_index_or};
ghost use Rattle.theory.specs.Sheets.{tight_test};
ghost use Rattle.field.specs.Given.{picture_in};
ghost use Rattle.field.specs.Viewed.{side_of};
ghost use Rattle.sheet.specs.Balanced.{most_flow, both_counted};

use super::balance::count_at;
use field::Side;

// A side with what flows along it: there, from its first place to its second, and back.
#[derive(Clone, Copy)]
pub(super) struct Flow {
    pub side: Side,
    pub there: u32,
    pub back: u32,
}

impl Flow {
    // That both ends of a side lie within a slice each method asks anew: a side does not know the slice.

    // A side with its two flows, there and back.
    pub(super) fn of(side: Side, pair: &[u32; 2]) -> Self
        ensures side { result.side ≡ side }
        ensures there { result.there ≡ slice_index pair.now 0 }
        ensures back { result.back ≡ slice_index pair.now 1 }
    {
        let [there, back] = *pair;
        Flow { side, there, back }
    }

    // The rule of a side: both flows within the price, full from the higher place to the lower, and none back.
    pub(super) fn holds(self, picture: &[u32]) -> bool
        requires start { self.side.first < length picture.now }
        requires end { self.side.second < length picture.now }
        ensures { result ≡ tight_test (side_of self.side) (picture_in picture.now) self.there self.back }
    {
        let first = picture[self.side.first];
        let second = picture[self.side.second];
        let price = self.side.price;
        if first > second {
            self.there == price && self.back == 0
        } else if first < second {
            self.back == price && self.there == 0
        } else {
            self.there <= price && self.back <= price
        }
    }

    // Counts the flows at both ends: what leaves a place is added, what comes in is taken off. A side from a place to
    // itself does both there.
    pub(super) fn carry(self, balance: &mut [i64])
        requires start { self.side.first < length balance.old }
        requires end { self.side.second < length balance.old }
        requires low { (i : ℕ) → (neg_ℤ (pos most_flow)) ≤ℤ slice_index_or balance.old i (pos 0) }
        requires high { (i : ℕ) → slice_index_or balance.old i (pos 0) ≤ℤ pos most_flow }
        ensures { balance.new ≡ both_counted balance.old (side_of self.side) self.there self.back }
    {
        count_at(balance, self.side.first, self.there, self.back);
        count_at(balance, self.side.second, self.back, self.there);
    }
}
