ghost use Rattle.std.specs.Prelude.{◌≡◌, ℕ, ◌<◌, length, pos, ◌≤ℤ◌, slice_index};
ghost use Rattle.search.specs.Residuals.{step, Open};
ghost use Rattle.search.specs.Trees.{count, Seen, Ordered, Quiet, Explored};
ghost use Rattle.level.specs.Moves.{Closing};
ghost use Rattle.level.specs.Levels.{scene_of, root_of, Searched, Same, Worked};

use super::level::Level;
use search::Search;

// Gives all places that a search reached the mark of yes.
fn mark(search: &Search, marks: &mut [u32], yes: u32)
    requires { Ordered (length marks.old) search.now }
    ensures reached { (i : ℕ) → Seen search.now i → slice_index marks.new i ≡ yes }
    ensures others { (i : ℕ) → (Seen search.now i → ⊥) → slice_index marks.new i ≡ slice_index marks.old i }
{
    for reached in search.reached() {
        marks[reached.place as usize] = yes;
    }
}

impl Level<'_, '_> {
    // Closes all that a search reached which found no sink: it is yes.
    fn close(&mut self)
        requires searched { Searched self.old }
        requires quiet { Quiet (scene_of self.old) self.old.search.now }
        requires explored { Explored (scene_of self.old) self.old.search.now (count self.old.search.now) }
        ensures worked { Worked self.old self.new }
        ensures reached { (i : ℕ) → Seen self.old.search.now i → slice_index self.new.marks.now i ≡ self.old.task.yes }
        ensures others { (i : ℕ) → (Seen self.old.search.now i → ⊥) → slice_index self.new.marks.now i ≡ slice_index self.old.marks.now i }
        ensures flows { self.new.flows.now ≡ self.old.flows.now }
        ensures steps { self.new.steps.now ≡ self.old.steps.now }
        ensures shut { Open (scene_of self.new) (root_of self.old) → ⊥ }
    {
        mark(self.search, self.marks, self.task.yes);
    }

    // Sends what an open source has to sinks, one after the other, until it has nothing left or no sink can be reached.
    // Then all that can be reached from it is yes, and is closed.
    fn drain(&mut self, source: usize)
        requires { source < (scene_of self.old).places }
        ensures worked { Worked self.old self.new }
        ensures high { Open (scene_of self.new) source → pos 0 ≤ℤ step (scene_of self.new) source }
    {
        if self.marks[source] != self.task.group {
            return;
        }
        while self.steps[source] < 0 {
            let Some(sink) = self.nearest_sink(source) else {
                self.close();
                return;
            };
            self.augment(sink);
        }
    }

    // Solves the level of a group, whose places are listed: what is yes is closed, the least cut. Places are `u32`
    // where many are kept; `as usize` loses nothing there, and there is no `From`.
    pub fn run(&mut self, members: &[u32])
        requires inside { (k : ℕ) → k < length members.now → slice_index members.now k < (scene_of self.old).places }
        requires listed { (i : ℕ) → i < (scene_of self.old).places → Open (scene_of self.old) i → (k : ℕ) × (k < length members.now) × (slice_index members.now k ≡ i) }
        ensures closing { Closing (scene_of self.old) (scene_of self.new) self.old.task.yes }
        ensures high { (i : ℕ) → i < (scene_of self.old).places → Open (scene_of self.new) i → pos 0 ≤ℤ step (scene_of self.new) i }
        ensures same { Same self.old self.new }
    {
        for member in members {
            self.drain(*member as usize);
        }
    }
}
