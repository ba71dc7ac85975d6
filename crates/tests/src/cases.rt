use field::{Lent, Rooms};
use std::alloc::{AllocError, Global};
use std::process::Abort;
use std::test::*;
use word::Refusal;

// Lent numbers, and what is answered of them: taken, or the number of a rule and the place where it applies.
#[derive(Clone, Copy)]
pub struct Case<'a> {
    pub lent: Lent<'a>,
    pub rooms: Rooms,
    pub answer: Result<(), (u64, u64)>,
}

// No room is lent. Written out, since a constant cannot call `default`.
pub const NO_ROOMS: Rooms = Rooms {
    picture: None,
    flows: None,
};

impl Case<'_> {
    pub(super) fn holds(&self, rt: &impl Abort) -> Result<(), Fail> {
        let answer = match self.lent.examine(self.rooms) {
            Ok(_) => Ok(()),
            Err(refusal) => Err(turned_away(refusal)),
        };
        assert_eq!(rt; answer, self.answer);
        Ok(())
    }
}

pub(super) fn turned_away(refusal: Refusal) -> (u64, u64) {
    (refusal.number(), refusal.place())
}

// As many copies of a few numbers.
pub(super) fn repeated(heap: Global, numbers: &[u32], times: u32) -> Result<Vec<u32>, AllocError> {
    let mut all = Vec::new(heap);
    for _ in 0..times {
        all.extend_from_slice(numbers)?;
    }
    Ok(all)
}

// The sides of a line of places.
pub(super) fn line(heap: Global, places: u32, price: u32) -> Result<Vec<u32>, AllocError> {
    let mut sides = Vec::new(heap);
    for second in 1..places {
        sides.extend_from_slice(&[second - 1, second, price])?;
    }
    Ok(sides)
}
