use super::cases::line;
use field::Lent;
use sheet::check;
use std::alloc::{AllocError, Global};
use std::process::Abort;
use std::test::*;

// How a value's cost grows with its distance from the measured value.
#[derive(Clone, Copy)]
enum Kind {
    Distance,
    Square,
}

// Places in a row with one side between neighbours, a cheapest picture of them, a sheet for it, and what it costs.
#[derive(Clone, Copy)]
struct Row {
    measured: &'static [u32],
    top: u32,
    price: u32,
    kind: Kind,
    picture: &'static [u32],
    flows: &'static [u32],
    cost: u64,
}

// Rows that differ in the picture alone have one sheet: it does for every cheapest picture.
const ROWS: [Row; 13] = [
    Row {
        measured: &[0, 0, 5, 0, 0],
        top: 5,
        price: 1,
        kind: Kind::Distance,
        picture: &[0, 0, 0, 0, 0],
        flows: &[0, 0, 0, 1, 0, 0, 0, 0],
        cost: 5,
    },
    Row {
        measured: &[0, 0, 5, 0, 0],
        top: 5,
        price: 1,
        kind: Kind::Square,
        picture: &[0, 0, 4, 0, 0],
        flows: &[0, 0, 0, 1, 1, 0, 0, 0],
        cost: 9,
    },
    Row {
        measured: &[0, 5, 5, 5, 0],
        top: 5,
        price: 1,
        kind: Kind::Distance,
        picture: &[0, 5, 5, 5, 0],
        flows: &[0, 1, 0, 1, 0, 0, 1, 0],
        cost: 10,
    },
    Row {
        measured: &[0, 5, 5, 5, 0],
        top: 5,
        price: 1,
        kind: Kind::Distance,
        picture: &[5, 5, 5, 5, 5],
        flows: &[0, 1, 0, 1, 0, 0, 1, 0],
        cost: 10,
    },
    Row {
        measured: &[1, 4, 2, 5, 3],
        top: 5,
        price: 1,
        kind: Kind::Distance,
        picture: &[1, 2, 2, 3, 3],
        flows: &[0, 1, 0, 0, 0, 1, 0, 0],
        cost: 6,
    },
    Row {
        measured: &[1, 4, 2, 5, 3],
        top: 5,
        price: 2,
        kind: Kind::Square,
        picture: &[2, 3, 3, 3, 3],
        flows: &[0, 2, 0, 0, 0, 2, 1, 0],
        cost: 9,
    },
    Row {
        measured: &[0, 3],
        top: 3,
        price: 1,
        kind: Kind::Distance,
        picture: &[0, 0],
        flows: &[0, 1],
        cost: 3,
    },
    Row {
        measured: &[0, 3],
        top: 3,
        price: 1,
        kind: Kind::Distance,
        picture: &[0, 3],
        flows: &[0, 1],
        cost: 3,
    },
    Row {
        measured: &[0, 3],
        top: 3,
        price: 1,
        kind: Kind::Distance,
        picture: &[3, 3],
        flows: &[0, 1],
        cost: 3,
    },
    Row {
        measured: &[0, 3],
        top: 3,
        price: 3,
        kind: Kind::Square,
        picture: &[1, 1],
        flows: &[0, 3],
        cost: 5,
    },
    Row {
        measured: &[2, 0, 4],
        top: 5,
        price: 5,
        kind: Kind::Distance,
        picture: &[2, 2, 2],
        flows: &[0, 0, 0, 1],
        cost: 4,
    },
    Row {
        measured: &[1, 4, 2, 5, 3],
        top: 5,
        price: 1,
        kind: Kind::Distance,
        picture: &[3, 3, 3, 3, 3],
        flows: &[0, 1, 0, 0, 0, 1, 0, 0],
        cost: 6,
    },
    Row {
        measured: &[1, 4, 2, 5, 3],
        top: 5,
        price: 2,
        kind: Kind::Square,
        picture: &[2, 3, 3, 4, 4],
        flows: &[0, 2, 0, 0, 0, 2, 1, 0],
        cost: 9,
    },
];

impl Kind {
    fn cost(self, distance: u32) -> u32 {
        match self {
            Kind::Distance => distance,
            Kind::Square => distance.saturating_mul(distance),
        }
    }
}

impl Row {
    fn costs(&self, heap: Global) -> Result<Vec<u32>, AllocError> {
        let mut costs = Vec::new(heap);
        for value in self.measured {
            for other in 0..=self.top {
                costs.push(self.kind.cost(other.abs_diff(*value)))?;
            }
        }
        Ok(costs)
    }

    fn holds(&self, rt: &impl Abort, heap: Global) -> Result<(), Fail> {
        let costs = self.costs(heap)?;
        let places = u32::try_from(self.measured.len()).unwrap_or(u32::MAX);
        let sides = line(heap, places, self.price)?;
        let lent = Lent {
            places: self.measured.len() as u64,
            top: u64::from(self.top),
            costs: costs.as_slice(),
            sides: sides.as_slice(),
        };
        assert_eq!(rt; lent.picture_cost(self.picture), Ok(self.cost));
        assert_eq!(rt; check(heap, lent, self.picture, self.flows), Ok(self.cost));
        Ok(())
    }
}

#[test]
fn known_pictures_and_sheets(rt: HostRuntime) -> Result<(), Fail> {
    for row in &ROWS {
        row.holds(&rt, rt.alloc())?;
    }
    Ok(())
}

// A side from a place to itself costs nothing, two sides between two places are both paid, and the price is paid for
// each step, whichever place is higher.
const SIDES: [(&[u32], u64); 5] = [
    (&[], 0),
    (&[0, 0, 9], 0),
    (&[0, 1, 9], 27),
    (&[0, 1, 9, 1, 0, 1], 30),
    (&[1, 0, 1_000_000], 3_000_000),
];

#[test]
fn costs_of_sides(rt: HostRuntime) -> Result<(), Fail> {
    for (sides, cost) in &SIDES {
        let lent = Lent {
            places: 2,
            top: 3,
            costs: &[0; 8],
            sides,
        };
        assert_eq!(rt; lent.picture_cost(&[3, 0]), Ok(*cost));
        assert_eq!(rt; lent.picture_cost(&[0, 3]), Ok(*cost));
    }
    Ok(())
}
