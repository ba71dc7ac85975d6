ghost use Rattle.std.specs.Prelude.{◌≡◌, ◌≢◌};

use graph::Graph;

// What a level works on: a graph, the mark of its group, which the open places have, and the mark that the places get
// that are found to be yes, by which they are closed. Marks stay numbers: they are values of the picture that is lent.
#[derive(Clone, Copy)]
pub struct Task<'g> {
    pub graph: Graph<'g>,
    pub group: u32,
    pub yes: u32,
    ghost other: { yes ≢ group },
}
