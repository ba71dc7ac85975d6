ghost use Rattle.std.specs.Prelude.{◌≡◌, ℕ, ◌*◌, ◌<◌, ◌≤◌, length, slice_index};
ghost use Rattle.field.specs.Given.{sides_of};

use field::FieldView;

// A field that is taken, a picture of it, and flows for its sides, two numbers a side: what is claimed to be cheapest.
#[derive(Clone, Copy)]
pub(super) struct Claim<'a> {
    pub field: FieldView<'a>,
    pub picture: &'a [u32],
    pub flows: &'a [u32],
    ghost each: { length picture.now ≡ field.places },
    ghost low: { (i : ℕ) → i < field.places → slice_index picture.now i ≤ field.top },
    ghost pairs: { length flows.now ≡ 2 * sides_of field.sides.now },
}
