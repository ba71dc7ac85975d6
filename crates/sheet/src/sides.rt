ghost use Rattle.std.specs.Prelude.{◌≡◌, ℕ, ◌<◌, ◌∷◌, [], length, pos, OnOk, IfOk, slice_index_or};
ghost use Rattle.theory.specs.Sheets.{there, back};
ghost use Rattle.field.specs.Firsts.{first, said};
ghost use Rattle.field.specs.Viewed.{side_of};
ghost use Rattle.sheet.specs.Claimed.{claim_field, claim_picture, claim_flows, sides_tried};
ghost use Rattle.sheet.specs.Balanced.{Counted};
ghost use Rattle.sheet.specs.Words.{side_rule};

use super::claim::Claim;
use super::counted::Balances;
use super::flow::Flow;
use word::Broken;

impl<'a> Claim<'a> {
    // The two flows of each side, there and back: the library's `as_chunks`, with what it is of flows said once.
    #[tactic(auto, using(crate::proofs::Pairs::pair_at))]
    fn pairs(&self) -> &'a [[u32; 2]]
        ensures count { length result.now ≡ (claim_field self.now).sides }
        ensures each { (k : ℕ) → k < (claim_field self.now).sides → slice_index_or result.now k [] ≡ there (claim_flows self.now) k ∷ back (claim_flows self.now) k ∷ [] }
    {
        let (pairs, _) = self.flows.as_chunks::<2>();
        pairs
    }

    // That a zero is lent for each place `sides_hold`, `count` and `judge` ask anew: a lent slice does not know its claim.

    // The rule of each side, in one pass that counts what flows out of each place less what flows in. The label leaves it
    // at the first side whose rule is broken, the form that this project has for such passes.
    pub(super) fn sides_hold(&self, balance: &mut [i64]) -> Result<(), Broken>
        requires room { length balance.old ≡ self.now.field.places }
        requires blank { (i : ℕ) → slice_index_or balance.old i (pos 0) ≡ pos 0 }
        ensures answer { result ≡ sides_tried self.now }
        ensures counted { OnOk result (Counted (claim_field self.now) (claim_flows self.now) (claim_field self.now).sides balance.new) }
    {
        let mut verdict = Ok(());
        'sides: for ((k, side), pair) in self.field.sides().zip(self.pairs()) {
            let flow = Flow::of(side, pair);
            if !flow.holds(self.picture) {
                verdict = Err(Broken::Side(k as u32));
                break 'sides;
            }
            flow.carry(balance);
        }
        verdict
    }

    // The balances of a claim, where the rule of each side holds, in zeros that are lent for them.
    pub(super) fn count<'n>(self, numbers: &'n mut [i64]) -> Result<Balances<'a, 'n>, Broken>
        requires room { length numbers.old ≡ self.field.places }
        requires blank { (i : ℕ) → slice_index_or numbers.old i (pos 0) ≡ pos 0 }
        ensures claim { IfOk result (λ b. b.claim ≡ self.entry) }
        ensures answer { said result ≡ sides_tried self.entry }
    {
        self.sides_hold(numbers)?;
        Ok(Balances {
            claim: self,
            numbers,
        })
    }
}
