ghost use Rattle.std.specs.Prelude.{◌≡◌, ◌+◌, ◌*◌, ◌<◌, ◌≤◌, length, pos, ◌+ℤ◌, ◌-ℤ◌, neg_ℤ, ◌≤ℤ◌, slice_index_or};
ghost use Rattle.field.specs.Limits.{most_top};
ghost use Rattle.sheet.specs.Balanced.{most_flow, counted_at, balanced_test};

// That a balance is within its limits each function asks anew: it is one number of many.

// Counts at a place what flows out of it and what flows in; the other places stay as they are.
pub(super) fn count_at(balance: &mut [i64], place: usize, out: u32, into: u32)
    requires within { place < length balance.old }
    requires low { (neg_ℤ (pos (2 * most_flow))) ≤ℤ slice_index_or balance.old place (pos 0) }
    requires high { slice_index_or balance.old place (pos 0) ≤ℤ pos (2 * most_flow) }
    ensures { balance.new ≡ counted_at balance.old place out into }
{
    balance[place] += i64::from(out) - i64::from(into);
}

// A value and what it costs at a place.
#[derive(Clone, Copy)]
pub(super) struct Priced {
    pub value: u32,
    pub cost: u32,
    ghost low: { value ≤ most_top },
}

// A cost, and so many times the size of a balance.
fn weighed(cost: u32, size: u64, times: u32) -> u64
    requires size { size ≤ most_flow }
    requires times { times ≤ most_top }
    ensures { result ≡ cost + size * times }
{
    u64::from(cost) + size * u64::from(times)
}

// Whether one value is no dearer than another at a place with this balance.
pub(super) fn no_dearer(balance: i64, here: Priced, other: Priced) -> bool
    requires low { (neg_ℤ (pos most_flow)) ≤ℤ balance }
    requires high { balance ≤ℤ pos most_flow }
    ensures { result ≡ balanced_test balance here.cost here.value other.cost other.value }
{
    let size = balance.unsigned_abs();
    let (mine, theirs) = if balance < 0 {
        (other.value, here.value)
    } else {
        (here.value, other.value)
    };
    weighed(here.cost, size, mine) <= weighed(other.cost, size, theirs)
}
