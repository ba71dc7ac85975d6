use graph::Arc;

// Memory in which a field's graph is laid down.
#[derive(Drop)]
pub(super) struct Room<'m> {
    pub arcs: &'m mut [Arc],
    pub starts: &'m mut [u32],
    pub order: &'m mut [u32],
}
