ghost use Rattle.graph.specs.Arcs.{Graphed};

use super::arc::Arc;

// A graph of arcs, the two directions of each side one after the other (2k there, 2k + 1 back), and its rows: the arcs
// that leave place i are those that `order` has from `starts[i]` to before `starts[i + 1]`, in ascending order.
// They are numbers of arcs and no copies, since flows are lent by the number of an arc.
#[derive(Clone, Copy)]
pub struct Graph<'a> {
    pub places: usize,
    pub arcs: &'a [Arc],
    pub starts: &'a [u32],
    pub order: &'a [u32],
    ghost laid: { Graphed places arcs.now starts.now order.now },
}
