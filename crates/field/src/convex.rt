ghost use Rattle.std.specs.Prelude.{◌≡◌, ℕ, suc, ◌+◌, ◌*◌, ◌<◌, ◌≤◌, length, MatchOption, slice_index};
ghost use Rattle.field.specs.Limits.{most_top};
ghost use Rattle.field.specs.Given.{cost_in};
ghost use Rattle.field.specs.Firsts.{first};
ghost use Rattle.field.specs.Rules.{convex_place};

use super::measured::Measured;
use word::Refusal;

// The first three costs side by side of which the middle one lies higher than half way between the other two, by the
// number of the first of the three.
fn first_bend(costs: &[u32]) -> Option<usize>
    ensures { MatchOption result ((v : ℕ) → v + 2 < length costs.now → 2 * slice_index costs.now (v + 1) ≤ slice_index costs.now v + slice_index costs.now (v + 2)) (λ k. (k + 2 < length costs.now) × (slice_index costs.now k + slice_index costs.now (k + 2) < 2 * slice_index costs.now (k + 1)) × ((v : ℕ) → v < k → 2 * slice_index costs.now (v + 1) ≤ slice_index costs.now v + slice_index costs.now (v + 2))) }
{
    costs.windows(3).position(|near| 2 * u64::from(near[1])
        > u64::from(near[0]) + u64::from(near[2]))
}

impl Measured<'_> {
    // 5: the costs of each place, at each value between two others.
    pub(super) fn all_convex(&self) -> Result<(), Refusal>
        ensures { result ≡ first (convex_place self.now.top self.now.costs.now) self.now.places }
    {
        for (place, row) in self.costs.chunks_exact(self.top + 1).enumerate() {
            if let Some(below) = first_bend(row) {
                return Err(Refusal::NotConvex {
                    place: place as u32,
                    value: below as u32 + 1,
                });
            }
        }
        Ok(())
    }
}
