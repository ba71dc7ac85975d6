ghost use Rattle.std.specs.Prelude.{◌≡◌, ℕ, ◌+◌, ◌<◌, length, slice_index, slice_range};
ghost use Rattle.graph.specs.Flowed.{graph_net};

use super::graph::Graph;

impl<'a> Graph<'a> {
    // The row of a place, cut out by itself so that what is cut is said once: what `order` has from where its row begins to before where the next one does.
    fn row(&self, place: usize) -> &'a [u32]
        requires { place < self.now.places }
        ensures { result.now ≡ slice_range self.now.order.now (slice_index self.now.starts.now place) (slice_index self.now.starts.now (place + 1)) }
    {
        &self.order[self.starts[place] as usize..self.starts[place + 1] as usize]
    }

    // The arcs that leave a place, in ascending order.
    pub fn leaving(&self, place: usize) -> &'a [u32]
        requires { place < self.now.places }
        ensures each { (k : ℕ) → k < length result.now → (slice_index result.now k < length self.now.arcs.now) × (((graph_net self.now).arc (slice_index result.now k)).from ≡ place) }
        ensures every { (e : ℕ) → e < length self.now.arcs.now → ((graph_net self.now).arc e).from ≡ place → (k : ℕ) × (k < length result.now) × (slice_index result.now k ≡ e) }
    {
        self.row(place)
    }
}
