ghost use Rattle.field.specs.Taken.{Sized, Laid};

// Lent numbers of which there are as many as a field wants; each of them is still to be looked at.
#[derive(Clone, Copy)]
pub(super) struct Measured<'a> {
    pub places: usize,
    pub top: usize,
    pub costs: &'a [u32],
    pub sides: &'a [u32],
    ghost sized: { Sized places top },
    ghost laid: { Laid places top costs.now sides.now },
}
