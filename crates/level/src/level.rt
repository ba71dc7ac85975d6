ghost use Rattle.level.specs.Scenes.{scene_in};
ghost use Rattle.level.specs.Moves.{Facts};

use super::task::Task;
use search::Search;

// A level while its flows are found: what it works on; what flows along each arc, the step of each place, and its mark;
// and its search. Flows and marks are the caller's numbers, so they stay slices. All that changes is lent, the search
// too: a level that owns it was tried, and of the slices lent to such a level nothing was known afterwards.
#[derive(Drop)]
pub struct Level<'g, 'a> {
    pub task: Task<'g>,
    pub flows: &'a mut [u32],
    pub steps: &'a mut [i64],
    pub marks: &'a mut [u32],
    pub search: &'a mut Search,
    ghost facts: { Facts (scene_in task flows.now steps.now marks.now) search.now },
}
