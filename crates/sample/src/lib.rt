// A small field that the programs speak of for now: a row of five places, measured 0 0 5 0 0, that pay the square of the
// distance from the measured value, and 1 for each step between neighbours.
#![tactic(auto)]

use field::Lent;

pub const FIELD: Lent<'static> = Lent {
    places: 5,
    top: 5,
    costs: &[
        0, 1, 4, 9, 16, 25, //
        0, 1, 4, 9, 16, 25, //
        25, 16, 9, 4, 1, 0, //
        0, 1, 4, 9, 16, 25, //
        0, 1, 4, 9, 16, 25,
    ],
    sides: &[0, 1, 1, 1, 2, 1, 2, 3, 1, 3, 4, 1],
};
