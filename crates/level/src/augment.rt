ghost use Rattle.std.specs.Prelude.{◌≡◌, ◌≢◌, ℕ, ◌<◌, ◌≤◌, length, pos, ◌+ℤ◌, ◌-ℤ◌, ◌≤ℤ◌, ◌<ℤ◌, slice_index_or};
ghost use Rattle.field.specs.Given.{flows_in};
ghost use Rattle.search.specs.Residuals.{step, Open};
ghost use Rattle.search.specs.Trees.{count, reach, Seen, Explored, Sink, Found};
ghost use Rattle.level.specs.Levels.{scene_of, root_of, Searched, Same, Worked};
ghost use Rattle.level.specs.Carries.{Carrying};

use super::level::Level;
use graph::Residual;

impl Level<'_, '_> {
    // That a search has just been made each part after it asks, since a level is one before it too.

    // Searches from a source for the nearest sink.
    pub(super) fn nearest_sink(&mut self, source: usize) -> Option<usize>
        requires inside { source < (scene_of self.old).places }
        requires from { Open (scene_of self.old) source }
        requires source { step (scene_of self.old) source <ℤ pos 0 }
        ensures searched { Searched self.new }
        ensures first { root_of self.new ≡ source }
        ensures found { Found (scene_of self.new) self.new.search.now (Explored (scene_of self.new) self.new.search.now (count self.new.search.now)) result }
        ensures scene { scene_of self.new ≡ scene_of self.old }
        ensures same { Same self.old self.new }
    {
        // Lent by `&mut *`, the slices are known to come back as they were; by `&`, only their lengths would be.
        let residual = Residual {
            graph: self.task.graph,
            flows: &mut *self.flows,
            steps: &mut *self.steps,
            marks: &mut *self.marks,
            group: self.task.group,
        };
        self.search.run(&residual, source)
    }

    // Sends an amount along the path by which a search reached a sink, from the sink back to the root: arc by arc, as
    // far as the path goes, which no count says before.
    fn carry(&mut self, sink: usize, amount: u32)
        requires searched { Searched self.old }
        requires seen { Seen self.old.search.now sink }
        requires enough { amount ≤ reach self.old.search.now sink }
        ensures carrying { Carrying (scene_of self.old) self.old.search.now (flows_in self.new.flows.now) sink amount (root_of self.old) }
        ensures steps { self.new.steps.now ≡ self.old.steps.now }
        ensures marks { self.new.marks.now ≡ self.old.marks.now }
        ensures same { Same self.old self.new }
    {
        let graph = self.task.graph;
        let flows = &mut *self.flows;
        let search = &*self.search;
        let root = search.root();
        let mut place = sink;
        while place != root {
            let arc = search.arc_to(place);
            graph.push(flows, arc, amount);
            place = graph.tail(arc);
        }
    }

    // How much is sent to a sink: what the path has room for, and no more than the source has and the sink takes.
    fn amount(&self, sink: usize) -> u32
        requires searched { Searched self.now }
        requires sink { Sink (scene_of self.now) self.now.search.now sink }
        ensures some { 1 ≤ result }
        ensures path { result ≤ reach self.now.search.now sink }
        ensures surplus { (step (scene_of self.now) (root_of self.now) +ℤ pos result) ≤ℤ pos 0 }
        ensures need { pos result ≤ℤ step (scene_of self.now) sink }
    {
        let surplus = self.steps[self.search.root()].unsigned_abs();
        let need = self.steps[sink].unsigned_abs();
        let most = u32::try_from(surplus.min(need)).unwrap_or(u32::MAX);
        most.min(self.search.amount_to(sink))
    }

    // Sends flow from the root of a search to the sink that it reached: the step of the one rises, that of the other
    // falls, and all others stay.
    pub(super) fn augment(&mut self, sink: usize)
        requires searched { Searched self.old }
        requires sink { Sink (scene_of self.old) self.old.search.now sink }
        ensures worked { Worked self.old self.new }
        ensures rises { step (scene_of self.old) (root_of self.old) <ℤ step (scene_of self.new) (root_of self.old) }
        ensures marks { self.new.marks.now ≡ self.old.marks.now }
    {
        let source = self.search.root();
        let amount = self.amount(sink);
        self.carry(sink, amount);
        settle(self.steps, source, sink, amount);
    }
}

// What was sent from a source to a sink raises the step of the one and lowers that of the other, to 0 at most.
fn settle(steps: &mut [i64], source: usize, sink: usize, amount: u32)
    requires source { source < length steps.old }
    requires sink { sink < length steps.old }
    requires some { 1 ≤ amount }
    requires surplus { (slice_index_or steps.old source (pos 0) +ℤ pos amount) ≤ℤ pos 0 }
    requires need { pos amount ≤ℤ slice_index_or steps.old sink (pos 0) }
    ensures source { slice_index_or steps.new source (pos 0) ≡ slice_index_or steps.old source (pos 0) +ℤ pos amount }
    ensures sink { slice_index_or steps.new sink (pos 0) ≡ slice_index_or steps.old sink (pos 0) -ℤ pos amount }
    ensures others { (i : ℕ) → i ≢ source → i ≢ sink → slice_index_or steps.new i (pos 0) ≡ slice_index_or steps.old i (pos 0) }
{
    steps[source] += i64::from(amount);
    steps[sink] -= i64::from(amount);
}
