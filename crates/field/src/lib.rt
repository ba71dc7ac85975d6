// Fields over lent numbers: what is turned away and why, a validated view of the rest, and what a picture costs.
#![tactic(auto)]

mod convex;
mod cost;
mod lent;
mod limits;
mod measured;
mod rooms;
mod side;
mod sides;
mod verdict;
mod view;

pub use lent::Lent;
pub use rooms::Rooms;
pub use side::Side;
pub use sides::Sides;
pub use view::FieldView;
