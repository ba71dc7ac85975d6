// A level on its own: the lowest cheapest choice of yes or no for each place of a field with two values, and a sheet
// for it.
#![tactic(auto)]

mod entry;
mod lay;
mod room;
mod work;

pub use entry::choose;
