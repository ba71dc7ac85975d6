ghost use Rattle.std.specs.Prelude.{length};
ghost use Rattle.graph.specs.Arcs.{Furnished};

use super::graph::Graph;

// A graph with flows along its arcs, a step for each place, and a mark for each place by which the open places are
// known, those whose mark is the group's: all that a search looks at. Marks stay numbers: they are values of the picture.
#[derive(Clone, Copy)]
pub struct Residual<'g, 'a> {
    pub graph: Graph<'g>,
    pub flows: &'a [u32],
    pub steps: &'a [i64],
    pub marks: &'a [u32],
    pub group: u32,
    ghost furnished: { Furnished graph.places graph.arcs.now flows.now (length steps.now) (length marks.now) },
}
