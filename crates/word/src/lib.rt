// The words with which entries answer: why an input is turned away, and why flows are not accepted. A crate of its own,
// since the derived comparisons are dear to prove and seldom change.
#![tactic(auto)]

mod broken;
mod objection;
mod refusal;
mod unsolved;

pub use broken::Broken;
pub use objection::Objection;
pub use refusal::Refusal;
pub use unsolved::Unsolved;
