// Sheets of flows, and the checker that accepts just those that show a picture to be cheapest.
#![tactic(auto)]

mod balance;
mod claim;
mod counted;
mod flow;
mod places;
mod sides;
mod verdict;

pub use verdict::check;
