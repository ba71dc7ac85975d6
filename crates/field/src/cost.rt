ghost use Rattle.std.specs.Prelude.{◌≡◌, ℕ, suc, ◌+◌, ◌*◌, ◌<◌, ◌≤◌, length, MatchOption, OnOk, slice_index};
ghost use Rattle.theory.specs.Fields.{Of, value_costs, side_costs, total};
ghost use Rattle.field.specs.Limits.{most_places, most_top, most_sides, most_cost, most_side_cost};
ghost use Rattle.field.specs.Given.{cost_in, picture_in};
ghost use Rattle.field.specs.Rules.{values_fit};
ghost use Rattle.field.specs.Viewed.{RowOf, field_of, side_of};
ghost use Rattle.field.specs.Costed.{answered, picture_fits};

use super::side::Side;
use super::sides::{Sides, triples};
use super::verdict::first_above;
use super::view::FieldView;
use word::Refusal;

// One place's costs by value, as an array with room for every value there can be; past the top it has 0.
fn place_costs(costs: &[u32], top: usize, place: usize) -> [u32; 256]
    requires low { top ≤ most_top }
    requires within { place * suc top + suc top ≤ length costs.now }
    ensures size { length result ≡ 256 }
    ensures each { (v : ℕ) → v ≤ top → slice_index result v ≡ cost_in top costs.now place v }
    ensures past { (v : ℕ) → top < v → slice_index result v ≡ 0 }
{
    let mut row = [0; 256];
    let start = place * (top + 1);
    row[0..top + 1].copy_from_slice(&costs[start..start + (top + 1)]);
    row
}

impl FieldView<'_> {
    // That a picture has a value for each place the parts of `cost_of` ask anew: a lent slice does not know its field.

    // What the values of a picture cost at their places. By place and value, as costs lie: chunks beside the picture would
    // be no plainer.
    fn values_cost(&self, picture: &[u32]) -> u64
        requires long { length picture.now ≡ self.now.places }
        requires low { (i : ℕ) → slice_index picture.now i ≤ self.now.top }
        ensures sum { result ≡ value_costs (field_of self.now) (picture_in picture.now) }
        ensures small { result ≤ most_places * most_cost }
    {
        let mut cost = 0;
        for (place, value) in picture.iter().enumerate() {
            cost += u64::from(self.costs[place * (self.top + 1) + *value as usize]);
        }
        cost
    }

    // What the steps between neighbours cost.
    fn sides_cost(&self, picture: &[u32]) -> u64
        requires long { length picture.now ≡ self.now.places }
        requires low { (i : ℕ) → slice_index picture.now i ≤ most_top }
        ensures sum { result ≡ side_costs (field_of self.now) (picture_in picture.now) }
        ensures small { result ≤ most_sides * most_side_cost }
    {
        let mut cost = 0;
        for (_, side) in self.sides() {
            cost += side.cost(picture);
        }
        cost
    }

    // 6: each value of a picture.
    fn values_fit(&self, picture: &[u32]) -> Result<(), Refusal>
        requires { length picture.now ≡ self.now.places }
        ensures answer { result ≡ values_fit self.now.top picture.now }
        ensures taken { OnOk result ((i : ℕ) → slice_index picture.now i ≤ self.now.top) }
    {
        match first_above(picture, self.top) {
            Some(place) => Err(Refusal::ValueTooHigh(place as u32)),
            None => Ok(()),
        }
    }

    // What a picture of the field costs. One of another length, or with a value above the top, is turned away.
    pub fn cost_of(&self, picture: &[u32]) -> Result<u64, Refusal>
        ensures answer { result ≡ answered (picture_fits self.now.places self.now.top picture.now) (total (field_of self.now) (picture_in picture.now)) }
        ensures of { OnOk result (Of (field_of self.now) (picture_in picture.now)) }
    {
        if picture.len() != self.places {
            return Err(Refusal::PictureLength);
        }
        self.values_fit(picture)?;
        Ok(self.values_cost(picture) + self.sides_cost(picture))
    }

    // One place's costs by value, as an array with 0 past the top; none past the field.
    pub fn costs_at(&self, place: usize) -> Option<[u32; 256]>
        ensures { MatchOption result (self.now.places ≤ place) (λ row. (place < self.now.places) × RowOf (field_of self.now) place row) }
    {
        if place >= self.places {
            return None;
        }
        Some(place_costs(self.costs, self.top, place))
    }

    // All sides in their order, each with its number.
    pub fn sides(&self) -> Sides<'_>
        ensures numbers { result.numbers.now ≡ self.now.sides.now }
        ensures start { result.next ≡ 0 }
    {
        Sides::of(self.sides)
    }

    // The k-th side; none past the last.
    pub fn side(&self, k: usize) -> Option<Side>
        ensures { MatchOption result ((field_of self.now).sides ≤ k) (λ s. (k < (field_of self.now).sides) × (side_of s ≡ (field_of self.now).side k)) }
    {
        triples(self.sides).get(k).map(|triple| Side::from(*triple))
    }
}
