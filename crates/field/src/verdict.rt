ghost use Rattle.std.specs.Prelude.{◌≡◌, ℕ, ◌<◌, ◌≤◌, length, MatchOption, slice_index};
ghost use Rattle.field.specs.Firsts.{first};
ghost use Rattle.field.specs.Given.{sides_of};
ghost use Rattle.field.specs.Rules.{fits, rooms_fit, cost_rule, side_rule, fits_looked_at};

use super::limits::MOST_COST;
use super::measured::Measured;
use super::rooms::Rooms;
use super::sides::Sides;
use word::Refusal;

// The first of some numbers that is above a limit.
pub(super) fn first_above(numbers: &[u32], most: usize) -> Option<usize>
    ensures { MatchOption result ((j : ℕ) → j < length numbers.now → slice_index numbers.now j ≤ most) (λ k. (k < length numbers.now) × (most < slice_index numbers.now k) × ((j : ℕ) → j < k → slice_index numbers.now j ≤ most)) }
{
    numbers.iter().position(|number| *number as usize > most)
}

// Room that is lent has to have the length that is wanted.
fn room_fits(lent: Option<usize>, wanted: usize) -> bool
    ensures { result ≡ fits lent wanted }
{
    lent.map_or(true, |length| length == wanted)
}

impl Measured<'_> {
    // 3: how much room for a picture and for flows.
    pub(super) fn rooms_fit(&self, rooms: Rooms) -> Result<(), Refusal>
        ensures { result ≡ rooms_fit self.now.places self.now.sides.now rooms }
    {
        if !room_fits(rooms.picture, self.places) {
            return Err(Refusal::PictureLength);
        }
        if !room_fits(rooms.flows, 2 * (self.sides.len() / 3)) {
            return Err(Refusal::FlowsLength);
        }
        Ok(())
    }

    // 4: each cost.
    pub(super) fn costs_fit(&self) -> Result<(), Refusal>
        ensures { result ≡ first (cost_rule self.now.costs.now) (length self.now.costs.now) }
    {
        match first_above(self.costs, MOST_COST as usize) {
            Some(k) => Err(Refusal::CostTooHigh(k as u32)),
            None => Ok(()),
        }
    }

    // 4: each side, counted on from the costs.
    pub(super) fn sides_fit(&self) -> Result<(), Refusal>
        ensures { result ≡ first (side_rule self.now.places (length self.now.costs.now) self.now.sides.now) (sides_of self.now.sides.now) }
    {
        for (k, side) in Sides::of(self.sides) {
            if !side.fits(self.places) {
                return Err(Refusal::SideOutOfRange {
                    costs: self.costs.len() as u32,
                    side: k as u32,
                });
            }
        }
        Ok(())
    }

    // 3 to 5, in their order.
    pub(super) fn fits(&self, rooms: Rooms) -> Result<(), Refusal>
        ensures { result ≡ fits_looked_at self.now.places self.now.top self.now.costs.now self.now.sides.now rooms }
    {
        self.rooms_fit(rooms)?;
        self.costs_fit()?;
        self.sides_fit()?;
        self.all_convex()
    }
}
