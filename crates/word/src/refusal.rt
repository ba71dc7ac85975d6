ghost use Rattle.std.specs.Prelude.{◌≡◌, Some};
ghost use Rattle.word.specs.Numbered.{number_of, place_of};
ghost use Rattle.word.specs.Text.{refusal_text};

use std::error::Error;
use std::fmt;

// Why an input is turned away. The rules are tried in the order in which they stand here, and the first that applies
// is the answer.
#[derive(Clone, Copy, PartialEq, Eq, Debug)]
pub enum Refusal {
    // No place, or more than 65,536.
    Places,
    // A top of 0 or above 255.
    Top,
    // Costs of another length than places × (top + 1).
    CostsLength,
    // Sides whose length is no multiple of three, or more than 262,144 of them.
    SidesLength,
    // A lent picture of another length than places.
    PictureLength,
    // Lent flows of another length than two a side.
    FlowsLength,
    // A cost above 1,000,000,000, by its index among the costs.
    CostTooHigh(u32),
    // A side with a place past the field or a price above 1,000,000, and how many costs stand before the sides.
    SideOutOfRange { costs: u32, side: u32 },
    // Costs of a place that are not convex, with the value in the middle.
    NotConvex { place: u32, value: u32 },
    // A value above the top in a picture, by its place.
    ValueTooHigh(u32),
}

impl Refusal {
    // The number of the rule in the list. It stays beside the enum: what is printed, and what callers read, has numbers.
    pub fn number(self) -> u64
        ensures { result ≡ number_of self }
    {
        match self {
            Refusal::Places | Refusal::Top => 1,
            Refusal::CostsLength | Refusal::SidesLength => 2,
            Refusal::PictureLength | Refusal::FlowsLength => 3,
            Refusal::CostTooHigh(_) | Refusal::SideOutOfRange { .. } => 4,
            Refusal::NotConvex { .. } => 5,
            Refusal::ValueTooHigh(_) => 6,
        }
    }

    // Where the rule applies, as one number.
    pub fn place(self) -> u64
        ensures { result ≡ place_of self }
    {
        match self {
            Refusal::Places | Refusal::CostsLength | Refusal::PictureLength => 0,
            Refusal::Top | Refusal::SidesLength | Refusal::FlowsLength => 1,
            Refusal::CostTooHigh(cost) => u64::from(cost),
            Refusal::SideOutOfRange { costs, side } => u64::from(costs) + u64::from(side),
            Refusal::NotConvex { place, value } => u64::from(place) * 256 + u64::from(value),
            Refusal::ValueTooHigh(place) => u64::from(place),
        }
    }
}

impl fmt::Display for Refusal {
    ghost output = { λ e. Some (refusal_text e) };

    fn fmt<W: fmt::Write>(&self, f: &mut fmt::Formatter<W>) -> fmt::Result {
        let number = self.number();
        let place = self.place();
        write!(f, "refused {number} at {place}")
    }
}

impl Error for Refusal {}
