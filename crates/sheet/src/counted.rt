ghost use Rattle.std.specs.Prelude.{◌≡◌, length};
ghost use Rattle.sheet.specs.Claimed.{claim_field, claim_flows};
ghost use Rattle.sheet.specs.Balanced.{Counted};

use super::claim::Claim;

// A claim whose flows are counted: what flows out of each place less what flows in, along all its sides.
#[derive(Clone, Copy)]
pub(super) struct Balances<'a, 'n> {
    pub claim: Claim<'a>,
    pub numbers: &'n [i64],
    ghost room: { length numbers.now ≡ claim.field.places },
    ghost counted: { Counted (claim_field claim) (claim_flows claim) (claim_field claim).sides numbers.now },
}
