// Breadth-first search over arcs with room, from a source to the nearest sink, inside the open places.
#![tactic(auto)]

mod reached;
mod scan;
mod search;

pub use reached::Reached;
pub use search::Search;
