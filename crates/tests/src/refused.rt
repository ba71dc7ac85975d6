use super::cases::{Case, NO_ROOMS, turned_away};
use field::{Lent, Rooms};
use std::test::*;

// Two places, values up to 3, and three sides: two between the places, one from a place to itself.
const COSTS: [u32; 8] = [0, 1, 2, 3, 9, 4, 1, 0];

const SIDES: [u32; 9] = [0, 1, 7, 1, 0, 2, 1, 1, 5];

const CASES: [Case<'static>; 39] = [
    // 1: how many places, and the highest value.
    Case {
        lent: Lent {
            places: 0,
            top: 1,
            costs: &[],
            sides: &[],
        },
        rooms: NO_ROOMS,
        answer: Err((1, 0)),
    },
    Case {
        lent: Lent {
            places: 1,
            top: 1,
            costs: &[0, 0],
            sides: &[],
        },
        rooms: NO_ROOMS,
        answer: Ok(()),
    },
    Case {
        lent: Lent {
            places: u64::MAX,
            top: u64::MAX,
            costs: &[],
            sides: &[],
        },
        rooms: NO_ROOMS,
        answer: Err((1, 0)),
    },
    Case {
        lent: Lent {
            places: 1,
            top: 0,
            costs: &[0],
            sides: &[],
        },
        rooms: NO_ROOMS,
        answer: Err((1, 1)),
    },
    Case {
        lent: Lent {
            places: 1,
            top: 255,
            costs: &[0; 256],
            sides: &[],
        },
        rooms: NO_ROOMS,
        answer: Ok(()),
    },
    Case {
        lent: Lent {
            places: 1,
            top: 256,
            costs: &[0; 257],
            sides: &[],
        },
        rooms: NO_ROOMS,
        answer: Err((1, 1)),
    },
    Case {
        lent: Lent {
            places: 1,
            top: u64::MAX,
            costs: &[],
            sides: &[],
        },
        rooms: NO_ROOMS,
        answer: Err((1, 1)),
    },
    // 2: how many costs and sides.
    Case {
        lent: Lent {
            places: 2,
            top: 3,
            costs: &COSTS,
            sides: &SIDES,
        },
        rooms: NO_ROOMS,
        answer: Ok(()),
    },
    Case {
        lent: Lent {
            places: 2,
            top: 3,
            costs: &[0; 7],
            sides: &SIDES,
        },
        rooms: NO_ROOMS,
        answer: Err((2, 0)),
    },
    Case {
        lent: Lent {
            places: 2,
            top: 3,
            costs: &[0; 9],
            sides: &SIDES,
        },
        rooms: NO_ROOMS,
        answer: Err((2, 0)),
    },
    Case {
        lent: Lent {
            places: 2,
            top: 3,
            costs: &COSTS,
            sides: &[],
        },
        rooms: NO_ROOMS,
        answer: Ok(()),
    },
    Case {
        lent: Lent {
            places: 2,
            top: 3,
            costs: &COSTS,
            sides: &[0; 8],
        },
        rooms: NO_ROOMS,
        answer: Err((2, 1)),
    },
    Case {
        lent: Lent {
            places: 2,
            top: 3,
            costs: &COSTS,
            sides: &[0; 10],
        },
        rooms: NO_ROOMS,
        answer: Err((2, 1)),
    },
    // 3: how much room, where any is lent.
    Case {
        lent: Lent {
            places: 2,
            top: 3,
            costs: &COSTS,
            sides: &SIDES,
        },
        rooms: Rooms {
            picture: Some(2),
            flows: Some(6),
        },
        answer: Ok(()),
    },
    Case {
        lent: Lent {
            places: 2,
            top: 3,
            costs: &COSTS,
            sides: &SIDES,
        },
        rooms: Rooms {
            picture: Some(1),
            flows: Some(6),
        },
        answer: Err((3, 0)),
    },
    Case {
        lent: Lent {
            places: 2,
            top: 3,
            costs: &COSTS,
            sides: &SIDES,
        },
        rooms: Rooms {
            picture: Some(3),
            flows: Some(5),
        },
        answer: Err((3, 0)),
    },
    Case {
        lent: Lent {
            places: 2,
            top: 3,
            costs: &COSTS,
            sides: &SIDES,
        },
        rooms: Rooms {
            picture: Some(2),
            flows: Some(5),
        },
        answer: Err((3, 1)),
    },
    Case {
        lent: Lent {
            places: 2,
            top: 3,
            costs: &COSTS,
            sides: &SIDES,
        },
        rooms: Rooms {
            picture: None,
            flows: Some(7),
        },
        answer: Err((3, 1)),
    },
    // 4: a cost, and then a side, counted on from the costs.
    Case {
        lent: Lent {
            places: 2,
            top: 1,
            costs: &[0, 1_000_000_000, 5, 1_000_000_000],
            sides: &[],
        },
        rooms: NO_ROOMS,
        answer: Ok(()),
    },
    Case {
        lent: Lent {
            places: 2,
            top: 1,
            costs: &[0, 1, 5, 1_000_000_001],
            sides: &[],
        },
        rooms: NO_ROOMS,
        answer: Err((4, 3)),
    },
    Case {
        lent: Lent {
            places: 2,
            top: 1,
            costs: &[1_000_000_001, 1, 5, u32::MAX],
            sides: &[],
        },
        rooms: NO_ROOMS,
        answer: Err((4, 0)),
    },
    Case {
        lent: Lent {
            places: 2,
            top: 1,
            costs: &[0; 4],
            sides: &[0, 1, 1_000_000, 1, 1, 0],
        },
        rooms: NO_ROOMS,
        answer: Ok(()),
    },
    Case {
        lent: Lent {
            places: 2,
            top: 1,
            costs: &[0; 4],
            sides: &[0, 1, 9, 0, 1, 1_000_001],
        },
        rooms: NO_ROOMS,
        answer: Err((4, 5)),
    },
    Case {
        lent: Lent {
            places: 2,
            top: 1,
            costs: &[0; 4],
            sides: &[0, 1, 9, 0, 2, 1],
        },
        rooms: NO_ROOMS,
        answer: Err((4, 5)),
    },
    Case {
        lent: Lent {
            places: 2,
            top: 1,
            costs: &[0; 4],
            sides: &[2, 1, 9, 0, 2, 1],
        },
        rooms: NO_ROOMS,
        answer: Err((4, 4)),
    },
    // 5: costs that are not convex, at the place and the value in the middle.
    Case {
        lent: Lent {
            places: 2,
            top: 3,
            costs: &[0, 1, 2, 3, 6, 4, 3, 2],
            sides: &[],
        },
        rooms: NO_ROOMS,
        answer: Ok(()),
    },
    Case {
        lent: Lent {
            places: 2,
            top: 3,
            costs: &[0, 1, 2, 3, 6, 4, 3, 1],
            sides: &[],
        },
        rooms: NO_ROOMS,
        answer: Err((5, 256 + 2)),
    },
    Case {
        lent: Lent {
            places: 2,
            top: 3,
            costs: &[0, 1, 2, 3, 6, 5, 3, 1],
            sides: &[],
        },
        rooms: NO_ROOMS,
        answer: Err((5, 256 + 1)),
    },
    Case {
        lent: Lent {
            places: 2,
            top: 3,
            costs: &[0, 2, 3, 3, 6, 4, 3, 1],
            sides: &[],
        },
        rooms: NO_ROOMS,
        answer: Err((5, 1)),
    },
    Case {
        lent: Lent {
            places: 1,
            top: 1,
            costs: &[9, 0],
            sides: &[],
        },
        rooms: NO_ROOMS,
        answer: Ok(()),
    },
    // Where several rules apply, the first of the list.
    Case {
        lent: Lent {
            places: 0,
            top: 0,
            costs: &[0, 2, 3, 1_000_000_001],
            sides: &[1],
        },
        rooms: Rooms {
            picture: Some(9),
            flows: Some(9),
        },
        answer: Err((1, 0)),
    },
    Case {
        lent: Lent {
            places: 1,
            top: 0,
            costs: &[0, 2, 3, 1_000_000_001],
            sides: &[1],
        },
        rooms: Rooms {
            picture: Some(9),
            flows: Some(9),
        },
        answer: Err((1, 1)),
    },
    Case {
        lent: Lent {
            places: 1,
            top: 2,
            costs: &[0, 2, 3, 1_000_000_001],
            sides: &[1],
        },
        rooms: Rooms {
            picture: Some(9),
            flows: Some(9),
        },
        answer: Err((2, 0)),
    },
    Case {
        lent: Lent {
            places: 1,
            top: 3,
            costs: &[0, 2, 3, 1_000_000_001],
            sides: &[1],
        },
        rooms: Rooms {
            picture: Some(9),
            flows: Some(9),
        },
        answer: Err((2, 1)),
    },
    Case {
        lent: Lent {
            places: 1,
            top: 3,
            costs: &[0, 2, 3, 1_000_000_001],
            sides: &[1, 0, 0],
        },
        rooms: Rooms {
            picture: Some(9),
            flows: Some(9),
        },
        answer: Err((3, 0)),
    },
    Case {
        lent: Lent {
            places: 1,
            top: 3,
            costs: &[0, 2, 3, 1_000_000_001],
            sides: &[1, 0, 0],
        },
        rooms: Rooms {
            picture: Some(1),
            flows: Some(9),
        },
        answer: Err((3, 1)),
    },
    Case {
        lent: Lent {
            places: 1,
            top: 3,
            costs: &[0, 2, 3, 1_000_000_001],
            sides: &[1, 0, 0],
        },
        rooms: Rooms {
            picture: Some(1),
            flows: Some(2),
        },
        answer: Err((4, 3)),
    },
    Case {
        lent: Lent {
            places: 1,
            top: 3,
            costs: &[0, 2, 3, 9],
            sides: &[1, 0, 0],
        },
        rooms: Rooms {
            picture: Some(1),
            flows: Some(2),
        },
        answer: Err((4, 4)),
    },
    Case {
        lent: Lent {
            places: 1,
            top: 3,
            costs: &[0, 2, 3, 9],
            sides: &[0, 0, 0],
        },
        rooms: Rooms {
            picture: Some(1),
            flows: Some(2),
        },
        answer: Err((5, 1)),
    },
];

#[test]
fn each_rule_at_its_edge(rt: HostRuntime) -> Result<(), Fail> {
    for case in &CASES {
        case.holds(&rt)?;
    }
    Ok(())
}

#[test]
fn most_places(rt: HostRuntime) -> Result<(), Fail> {
    let zeros = vec![in rt.alloc(); 0u32; 131_074]?;
    let costs = zeros.as_slice();
    assert!(rt; costs.len() == 131_074);
    let rooms = NO_ROOMS;
    Case {
        lent: Lent {
            places: 65_536,
            top: 1,
            costs: &costs[0..131_072],
            sides: &[],
        },
        rooms,
        answer: Ok(()),
    }
    .holds(&rt)?;
    Case {
        lent: Lent {
            places: 65_537,
            top: 1,
            costs,
            sides: &[],
        },
        rooms,
        answer: Err((1, 0)),
    }
    .holds(&rt)
}

#[test]
fn most_sides(rt: HostRuntime) -> Result<(), Fail> {
    let zeros = vec![in rt.alloc(); 0u32; 786_435]?;
    let sides = zeros.as_slice();
    assert!(rt; sides.len() == 786_435);
    let rooms = NO_ROOMS;
    Case {
        lent: Lent {
            places: 2,
            top: 3,
            costs: &COSTS,
            sides: &sides[0..786_432],
        },
        rooms,
        answer: Ok(()),
    }
    .holds(&rt)?;
    Case {
        lent: Lent {
            places: 2,
            top: 3,
            costs: &COSTS,
            sides,
        },
        rooms,
        answer: Err((2, 1)),
    }
    .holds(&rt)
}

// 6: a value above the top; a picture of another length is turned away before it.
const PICTURES: [(&[u32], (u64, u64)); 5] = [
    (&[3, 4], (6, 1)),
    (&[4, 4], (6, 0)),
    (&[3], (3, 0)),
    (&[0, 0, 0], (3, 0)),
    (&[9], (3, 0)),
];

#[test]
fn pictures_turned_away(rt: HostRuntime) -> Result<(), Fail> {
    let lent = Lent {
        places: 2,
        top: 3,
        costs: &COSTS,
        sides: &SIDES,
    };
    for (picture, answer) in &PICTURES {
        match lent.picture_cost(picture) {
            Ok(_) => return Err(Fail::new("taken")),
            Err(refusal) => assert_eq!(rt; turned_away(refusal), *answer),
        }
    }
    Ok(())
}
