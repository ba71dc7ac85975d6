ghost use Rattle.std.specs.Prelude.{◌≡◌, ◌<◌, length, pos, ◌≤ℤ◌, ◌<ℤ◌, Decides, MatchBool, slice_index, slice_index_or};

use super::residual::Residual;

impl Residual<'_, '_> {
    // Whether a place is open: it has the group's mark.
    pub fn is_open(&self, place: usize) -> bool
        requires { place < length self.now.marks.now }
        ensures { Decides result (slice_index self.now.marks.now place ≡ self.now.group) }
    {
        self.marks[place] == self.group
    }

    // Whether a place is a sink: its step is positive, so that it takes flow.
    pub fn is_sink(&self, place: usize) -> bool
        requires { place < length self.now.steps.now }
        ensures { MatchBool result (pos 0 <ℤ slice_index_or self.now.steps.now place (pos 0)) (slice_index_or self.now.steps.now place (pos 0) ≤ℤ pos 0) }
    {
        self.steps[place] > 0
    }
}
