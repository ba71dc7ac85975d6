// An arc as it is laid down: the place that it leaves, and its price. It leads to the place that its partner leaves.
#[derive(Clone, Copy, Default)]
pub struct Arc {
    pub end: u32,
    pub price: u32,
}
