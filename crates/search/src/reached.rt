// A place that a search has reached, the arc that led there, and how much can be sent there from the root.
#[derive(Clone, Copy, Default)]
pub struct Reached {
    pub place: u32,
    pub arc: u32,
    pub amount: u32,
}
