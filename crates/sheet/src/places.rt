ghost use Rattle.std.specs.Prelude.{◌≡◌, ◌<◌, ◌≤◌, suc, ℕ, length, slice_index};
ghost use Rattle.theory.specs.Sheets.{best_at};
ghost use Rattle.field.specs.Firsts.{first};
ghost use Rattle.sheet.specs.Claimed.{claim_field, claim_picture, claim_flows, places_tried};
ghost use Rattle.sheet.specs.Balanced.{IsPriced};
ghost use Rattle.sheet.specs.Words.{place_rule};

use super::balance::{Priced, no_dearer};
use super::claim::Claim;
use super::counted::Balances;
use word::Broken;

impl<'a> Claim<'a> {
    // What each value costs at a place, lent as it lies, where `FieldView::costs_at` hands out a copy.
    fn row(&self, place: usize) -> &'a [u32]
        requires { place < self.now.field.places }
        ensures size { length result.now ≡ suc self.now.field.top }
        ensures each { (v : ℕ) → v ≤ self.now.field.top → slice_index result.now v ≡ (claim_field self.now).cost place v }
    {
        let values = self.field.top + 1;
        &self.field.costs[place * values..(place + 1) * values]
    }
}

impl Balances<'_, '_> {
    // The rule of a place, with its own value, against another. By the place's number, which a broken rule names too.
    fn value_holds(&self, place: usize, here: Priced, other: Priced) -> bool
        requires place { place < self.now.claim.field.places }
        requires value { here.value ≡ claim_picture self.now.claim place }
        requires here { IsPriced (claim_field self.now.claim) place here.value here.cost }
        requires other { IsPriced (claim_field self.now.claim) place other.value other.cost }
        ensures { result ≡ best_at (claim_field self.now.claim) (claim_picture self.now.claim) (claim_flows self.now.claim) place other.value }
    {
        no_dearer(self.numbers[place], here, other)
    }

    // The rule of each place against every value. The label leaves both loops at the first value against which it is
    // broken, the form that this project has for such passes.
    pub(super) fn places_hold(&self) -> Result<(), Broken>
        ensures { result ≡ places_tried self.now.claim }
    {
        let mut verdict = Ok(());
        'places: for (place, value) in self.claim.picture.iter().enumerate() {
            let row = self.claim.row(place);
            let here = Priced {
                value: *value,
                cost: row[*value as usize],
            };
            for (other, cost) in row.iter().enumerate() {
                let other = Priced {
                    value: other as u32,
                    cost: *cost,
                };
                if !self.value_holds(place, here, other) {
                    verdict = Err(Broken::Place {
                        place: place as u32,
                        value: other.value,
                    });
                    break 'places;
                }
            }
        }
        verdict
    }
}
