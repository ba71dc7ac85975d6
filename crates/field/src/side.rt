ghost use Rattle.std.specs.Prelude.{◌≡◌, ℕ, ◌*◌, ◌<◌, ◌≤◌, length, slice_index};
ghost use Rattle.theory.specs.Fields.{apart};
ghost use Rattle.field.specs.Limits.{most_top, most_price};
ghost use Rattle.field.specs.Given.{sides_of, side_in};
ghost use Rattle.field.specs.Rules.{side_test};

use super::limits::MOST_PRICE;

// A side: two places that lie side by side, and the price of each step between their values.
#[derive(Clone, Copy)]
pub struct Side {
    pub first: usize,
    pub second: usize,
    pub price: u32,
}

// A side is lent as three numbers.
impl From<[u32; 3]> for Side {
    ghost use Rattle.field.specs.Sides.{IsRead};

    ghost from_gives = { IsRead };

    fn from([first, second, price]: [u32; 3]) -> Self {
        Side {
            first: first as usize,
            second: second as usize,
            price,
        }
    }
}

impl Side {
    // Whether both places are places of the field, and the price is allowed.
    pub(super) fn fits(self, places: usize) -> bool
        ensures { result ≡ side_test places (record { first = self.first; second = self.second; price = self.price }) }
    {
        self.first < places && self.second < places && self.price <= MOST_PRICE
    }

    // What a picture pays for the side: the price for each step by which its two values are apart.
    pub(super) fn cost(self, picture: &[u32]) -> u64
        requires start { self.first < length picture.now }
        requires end { self.second < length picture.now }
        requires price { self.price ≤ most_price }
        requires low { (i : ℕ) → slice_index picture.now i ≤ most_top }
        ensures { result ≡ self.price * apart (slice_index picture.now self.first) (slice_index picture.now self.second) }
    {
        u64::from(self.price) * u64::from(picture[self.first].abs_diff(picture[self.second]))
    }
}
