ghost use Rattle.std.specs.Prelude.{◌≡◌, Ok, IsOk, IfOk, OnOk};
ghost use Rattle.theory.specs.Fields.{Sound, Of, total};
ghost use Rattle.field.specs.Given.{picture_in, field_in};
ghost use Rattle.field.specs.Firsts.{and_then, said};
ghost use Rattle.field.specs.Rules.{sizes, lengths, rooms_fit, verdict};
ghost use Rattle.field.specs.Taken.{Taken};
ghost use Rattle.field.specs.Costed.{answered, one_picture, all_fits};

use super::limits::*;
use super::measured::Measured;
use super::rooms::Rooms;
use super::view::FieldView;
use word::Refusal;

// The numbers that a caller lends for a field, which nobody has looked at: how many places, the highest value, costs
// place by place, top + 1 of them each, and sides as three numbers each. They stay flat slices, as callers have them.
#[derive(Clone, Copy)]
pub struct Lent<'a> {
    pub places: u64,
    pub top: u64,
    pub costs: &'a [u32],
    pub sides: &'a [u32],
}

// 1: how many places, and the highest value.
fn sizes_fit(places: u64, top: u64) -> Result<(), Refusal>
    ensures { result ≡ sizes places top }
{
    if places < 1 || places > MOST_PLACES {
        return Err(Refusal::Places);
    }
    if top < 1 || top > MOST_TOP {
        return Err(Refusal::Top);
    }
    Ok(())
}

impl<'a> Lent<'a> {
    // 1 and 2: how many places and values, and as many costs and sides as they want.
    pub(super) fn measured(&self) -> Result<Measured<'a>, Refusal>
        ensures answer { said result ≡ and_then (sizes self.now.places self.now.top) (lengths self.now.places self.now.top self.now.costs.now self.now.sides.now) }
        ensures places { IfOk result (λ m. m.places ≡ self.now.places) }
        ensures top { IfOk result (λ m. m.top ≡ self.now.top) }
        ensures costs { IfOk result (λ m. m.costs.now ≡ self.now.costs.now) }
        ensures sides { IfOk result (λ m. m.sides.now ≡ self.now.sides.now) }
    {
        sizes_fit(self.places, self.top)?;
        let places = self.places as usize;
        let top = self.top as usize;
        if self.costs.len() != places * (top + 1) {
            return Err(Refusal::CostsLength);
        }
        if self.sides.len() % 3 != 0 || self.sides.len() / 3 > MOST_SIDES {
            return Err(Refusal::SidesLength);
        }
        Ok(Measured {
            places,
            top,
            costs: self.costs,
            sides: self.sides,
        })
    }

    // Whether the numbers are a field, with rooms of the right lengths: the field, or exactly the first of rules 1 to 5
    // that applies. What is taken is within all limits and sound, and all that is within them is taken.
    pub fn examine(&self, rooms: Rooms) -> Result<FieldView<'a>, Refusal>
        ensures answer { said result ≡ verdict self.now.places self.now.top self.now.costs.now self.now.sides.now rooms }
        ensures places { IfOk result (λ f. f.places ≡ self.now.places) }
        ensures top { IfOk result (λ f. f.top ≡ self.now.top) }
        ensures costs { IfOk result (λ f. f.costs.now ≡ self.now.costs.now) }
        ensures sides { IfOk result (λ f. f.sides.now ≡ self.now.sides.now) }
        ensures taken { OnOk result (Taken self.now.places self.now.top self.now.costs.now self.now.sides.now) }
        ensures sound { OnOk result (Sound (field_in self.now.places self.now.top self.now.costs.now self.now.sides.now)) }
        ensures complete { Taken self.now.places self.now.top self.now.costs.now self.now.sides.now → rooms_fit self.now.places self.now.sides.now rooms ≡ Ok tt → IsOk result }
    {
        let measured = self.measured()?;
        measured.fits(rooms)?;
        Ok(FieldView {
            places: measured.places,
            top: measured.top,
            costs: measured.costs,
            sides: measured.sides,
        })
    }

    // What a picture costs, over numbers that nobody has looked at: the first of rules 1 to 6 that applies, or the cost.
    pub fn picture_cost(&self, picture: &[u32]) -> Result<u64, Refusal>
        ensures answer { result ≡ answered (all_fits self.now.places self.now.top self.now.costs.now self.now.sides.now (one_picture picture.now) picture.now) (total (field_in self.now.places self.now.top self.now.costs.now self.now.sides.now) (picture_in picture.now)) }
        ensures of { OnOk result (Of (field_in self.now.places self.now.top self.now.costs.now self.now.sides.now) (picture_in picture.now)) }
    {
        let rooms = Rooms {
            picture: Some(picture.len()),
            ..Rooms::default()
        };
        self.examine(rooms)?.cost_of(picture)
    }
}
