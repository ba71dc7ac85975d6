// Graphs of arcs: the arcs of a field's sides and the rows in which those that leave a place are found, the room of an
// arc, and a push along it.
#![tactic(auto)]

mod arc;
mod arcs;
mod few;
mod flow;
mod graph;
mod index;
mod lay;
mod open;
mod residual;
mod rows;

pub use arc::Arc;
pub use arcs::Arcs;
pub use few::{FEW_ARCS, FEW_PLACES, FEW_SIDES, FEW_STARTS};
pub use graph::Graph;
pub use index::{lay_arcs, lay_rows};
pub use lay::lay_graph;
pub use residual::Residual;
