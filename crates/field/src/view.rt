ghost use Rattle.field.specs.Taken.{Taken};

// A field over lent numbers that are taken: costs place by place, top + 1 of them each, and sides as three numbers
// each. What holds of numbers that are taken is the invariant. It is owed wherever a view is lent, passed or returned, so
// whoever is given one may lean on it; `Lent::examine` makes it of numbers that nobody has looked at.
#[derive(Clone, Copy)]
pub struct FieldView<'a> {
    pub places: usize,
    pub top: usize,
    pub costs: &'a [u32],
    pub sides: &'a [u32],
    ghost taken: { Taken places top costs.now sides.now },
}
