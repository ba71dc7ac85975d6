use super::cases::repeated;
use field::Lent;
use sheet::check;
use std::alloc::Global;
use std::process::Abort;
use std::test::*;
use word::{Broken, Objection, Refusal};

// Lent numbers, and the checker's word of them.
#[derive(Clone, Copy)]
struct Asked<'a> {
    lent: Lent<'a>,
    picture: &'a [u32],
    flows: &'a [u32],
    word: Result<u64, Objection>,
}

// Two places that pay their distances from 3 and from 0, and one side between them.
const COSTS: [u32; 8] = [3, 2, 1, 0, 0, 1, 2, 3];

const SIDES: [u32; 3] = [0, 1, 1];

static CASES: [Asked<'static>; 63] = [
    // The rule of a side: full from the higher place to the lower, and nothing back.
    Asked {
        lent: Lent {
            places: 2,
            top: 3,
            costs: &COSTS,
            sides: &SIDES,
        },
        picture: &[3, 0],
        flows: &[1, 0],
        word: Ok(3),
    },
    Asked {
        lent: Lent {
            places: 2,
            top: 3,
            costs: &COSTS,
            sides: &SIDES,
        },
        picture: &[3, 0],
        flows: &[0, 0],
        word: Err(Objection::Broken(Broken::Side(0))),
    },
    Asked {
        lent: Lent {
            places: 2,
            top: 3,
            costs: &COSTS,
            sides: &SIDES,
        },
        picture: &[3, 0],
        flows: &[1, 1],
        word: Err(Objection::Broken(Broken::Side(0))),
    },
    Asked {
        lent: Lent {
            places: 2,
            top: 3,
            costs: &COSTS,
            sides: &SIDES,
        },
        picture: &[3, 0],
        flows: &[2, 0],
        word: Err(Objection::Broken(Broken::Side(0))),
    },
    Asked {
        lent: Lent {
            places: 2,
            top: 3,
            costs: &COSTS,
            sides: &[1, 0, 1],
        },
        picture: &[3, 0],
        flows: &[0, 1],
        word: Ok(3),
    },
    Asked {
        lent: Lent {
            places: 2,
            top: 3,
            costs: &COSTS,
            sides: &[1, 0, 1],
        },
        picture: &[3, 0],
        flows: &[1, 0],
        word: Err(Objection::Broken(Broken::Side(0))),
    },
    Asked {
        lent: Lent {
            places: 2,
            top: 3,
            costs: &COSTS,
            sides: &[1, 0, 1],
        },
        picture: &[3, 0],
        flows: &[1, 1],
        word: Err(Objection::Broken(Broken::Side(0))),
    },
    // Between equals any flow within the price; one past it is a broken side, and no refusal.
    Asked {
        lent: Lent {
            places: 2,
            top: 3,
            costs: &COSTS,
            sides: &SIDES,
        },
        picture: &[2, 2],
        flows: &[1, 0],
        word: Ok(3),
    },
    Asked {
        lent: Lent {
            places: 2,
            top: 3,
            costs: &COSTS,
            sides: &SIDES,
        },
        picture: &[2, 2],
        flows: &[2, 0],
        word: Err(Objection::Broken(Broken::Side(0))),
    },
    Asked {
        lent: Lent {
            places: 2,
            top: 3,
            costs: &COSTS,
            sides: &SIDES,
        },
        picture: &[2, 2],
        flows: &[1, 2],
        word: Err(Objection::Broken(Broken::Side(0))),
    },
    Asked {
        lent: Lent {
            places: 2,
            top: 3,
            costs: &COSTS,
            sides: &SIDES,
        },
        picture: &[2, 2],
        flows: &[4_294_967_295, 4_294_967_295],
        word: Err(Objection::Broken(Broken::Side(0))),
    },
    Asked {
        lent: Lent {
            places: 2,
            top: 3,
            costs: &[0, 0, 0, 0, 0, 0, 0, 0],
            sides: &[0, 1, 5],
        },
        picture: &[2, 2],
        flows: &[5, 5],
        word: Ok(0),
    },
    Asked {
        lent: Lent {
            places: 2,
            top: 3,
            costs: &[0, 0, 0, 0, 0, 0, 0, 0],
            sides: &[0, 1, 5],
        },
        picture: &[2, 2],
        flows: &[5, 6],
        word: Err(Objection::Broken(Broken::Side(0))),
    },
    Asked {
        lent: Lent {
            places: 2,
            top: 3,
            costs: &[0, 0, 0, 0, 0, 0, 0, 0],
            sides: &[0, 1, 0],
        },
        picture: &[1, 2],
        flows: &[0, 0],
        word: Ok(0),
    },
    Asked {
        lent: Lent {
            places: 2,
            top: 3,
            costs: &[0, 0, 0, 0, 0, 0, 0, 0],
            sides: &[0, 1, 0],
        },
        picture: &[1, 2],
        flows: &[1, 0],
        word: Err(Objection::Broken(Broken::Side(0))),
    },
    // A side from a place to itself: its flows come back to where they were.
    Asked {
        lent: Lent {
            places: 2,
            top: 3,
            costs: &COSTS,
            sides: &[0, 1, 1, 1, 1, 5],
        },
        picture: &[3, 0],
        flows: &[1, 0, 5, 2],
        word: Ok(3),
    },
    Asked {
        lent: Lent {
            places: 2,
            top: 3,
            costs: &COSTS,
            sides: &[0, 1, 1, 1, 1, 5],
        },
        picture: &[3, 0],
        flows: &[1, 0, 6, 0],
        word: Err(Objection::Broken(Broken::Side(1))),
    },
    Asked {
        lent: Lent {
            places: 2,
            top: 3,
            costs: &COSTS,
            sides: &[0, 1, 1, 0, 0, 5],
        },
        picture: &[3, 0],
        flows: &[1, 0, 0, 5],
        word: Ok(3),
    },
    // Several sides, and the first of them that is broken.
    Asked {
        lent: Lent {
            places: 2,
            top: 3,
            costs: &COSTS,
            sides: &[0, 1, 1, 1, 0, 2],
        },
        picture: &[0, 0],
        flows: &[1, 0, 0, 2],
        word: Err(Objection::Broken(Broken::Place { place: 1, value: 1 })),
    },
    Asked {
        lent: Lent {
            places: 2,
            top: 3,
            costs: &COSTS,
            sides: &[0, 1, 1, 1, 0, 2],
        },
        picture: &[3, 0],
        flows: &[1, 0, 0, 2],
        word: Err(Objection::Broken(Broken::Place { place: 0, value: 0 })),
    },
    Asked {
        lent: Lent {
            places: 2,
            top: 3,
            costs: &COSTS,
            sides: &[0, 1, 1, 1, 0, 2],
        },
        picture: &[3, 0],
        flows: &[1, 0, 0, 1],
        word: Err(Objection::Broken(Broken::Side(1))),
    },
    Asked {
        lent: Lent {
            places: 2,
            top: 3,
            costs: &COSTS,
            sides: &[0, 1, 1, 1, 0, 2],
        },
        picture: &[3, 0],
        flows: &[0, 0, 0, 1],
        word: Err(Objection::Broken(Broken::Side(0))),
    },
    Asked {
        lent: Lent {
            places: 2,
            top: 3,
            costs: &COSTS,
            sides: &[0, 1, 1, 1, 0, 2],
        },
        picture: &[3, 0],
        flows: &[1, 0, 2, 0],
        word: Err(Objection::Broken(Broken::Side(1))),
    },
    // The rule of a place: equal is enough; the first other value, near or far; the first place.
    Asked {
        lent: Lent {
            places: 1,
            top: 3,
            costs: &[3, 2, 1, 0],
            sides: &[],
        },
        picture: &[3],
        flows: &[],
        word: Ok(0),
    },
    Asked {
        lent: Lent {
            places: 1,
            top: 3,
            costs: &[3, 2, 1, 0],
            sides: &[],
        },
        picture: &[2],
        flows: &[],
        word: Err(Objection::Broken(Broken::Place { place: 0, value: 3 })),
    },
    Asked {
        lent: Lent {
            places: 1,
            top: 3,
            costs: &[0, 1, 2, 3],
            sides: &[],
        },
        picture: &[1],
        flows: &[],
        word: Err(Objection::Broken(Broken::Place { place: 0, value: 0 })),
    },
    Asked {
        lent: Lent {
            places: 1,
            top: 3,
            costs: &[0, 1, 2, 3],
            sides: &[],
        },
        picture: &[3],
        flows: &[],
        word: Err(Objection::Broken(Broken::Place { place: 0, value: 0 })),
    },
    Asked {
        lent: Lent {
            places: 1,
            top: 3,
            costs: &[1, 0, 0, 0],
            sides: &[],
        },
        picture: &[1],
        flows: &[],
        word: Ok(0),
    },
    Asked {
        lent: Lent {
            places: 1,
            top: 3,
            costs: &[1, 0, 0, 0],
            sides: &[],
        },
        picture: &[3],
        flows: &[],
        word: Ok(0),
    },
    Asked {
        lent: Lent {
            places: 2,
            top: 3,
            costs: &COSTS,
            sides: &SIDES,
        },
        picture: &[3, 3],
        flows: &[1, 0],
        word: Ok(3),
    },
    Asked {
        lent: Lent {
            places: 2,
            top: 3,
            costs: &COSTS,
            sides: &SIDES,
        },
        picture: &[3, 3],
        flows: &[0, 0],
        word: Err(Objection::Broken(Broken::Place { place: 1, value: 0 })),
    },
    Asked {
        lent: Lent {
            places: 2,
            top: 3,
            costs: &COSTS,
            sides: &SIDES,
        },
        picture: &[0, 0],
        flows: &[1, 0],
        word: Ok(3),
    },
    Asked {
        lent: Lent {
            places: 2,
            top: 3,
            costs: &COSTS,
            sides: &SIDES,
        },
        picture: &[0, 0],
        flows: &[0, 0],
        word: Err(Objection::Broken(Broken::Place { place: 0, value: 1 })),
    },
    Asked {
        lent: Lent {
            places: 2,
            top: 3,
            costs: &COSTS,
            sides: &SIDES,
        },
        picture: &[0, 0],
        flows: &[0, 1],
        word: Err(Objection::Broken(Broken::Place { place: 0, value: 1 })),
    },
    Asked {
        lent: Lent {
            places: 2,
            top: 3,
            costs: &COSTS,
            sides: &SIDES,
        },
        picture: &[0, 3],
        flows: &[0, 1],
        word: Err(Objection::Broken(Broken::Place { place: 0, value: 1 })),
    },
    Asked {
        lent: Lent {
            places: 2,
            top: 3,
            costs: &COSTS,
            sides: &SIDES,
        },
        picture: &[2, 1],
        flows: &[1, 0],
        word: Ok(3),
    },
    // Sides come before places.
    Asked {
        lent: Lent {
            places: 2,
            top: 3,
            costs: &COSTS,
            sides: &SIDES,
        },
        picture: &[0, 3],
        flows: &[0, 0],
        word: Err(Objection::Broken(Broken::Side(0))),
    },
    Asked {
        lent: Lent {
            places: 2,
            top: 3,
            costs: &COSTS,
            sides: &[],
        },
        picture: &[0, 3],
        flows: &[],
        word: Err(Objection::Broken(Broken::Place { place: 0, value: 1 })),
    },
    // Each refusal, before any rule of a sheet.
    Asked {
        lent: Lent {
            places: 0,
            top: 3,
            costs: &COSTS,
            sides: &SIDES,
        },
        picture: &[3, 0],
        flows: &[0, 0],
        word: Err(Objection::Refused(Refusal::Places)),
    },
    Asked {
        lent: Lent {
            places: 2,
            top: 256,
            costs: &COSTS,
            sides: &SIDES,
        },
        picture: &[3, 0],
        flows: &[0, 0],
        word: Err(Objection::Refused(Refusal::Top)),
    },
    Asked {
        lent: Lent {
            places: 2,
            top: 3,
            costs: &[3, 2, 1, 0, 0, 1, 2, 3, 0],
            sides: &SIDES,
        },
        picture: &[3, 0],
        flows: &[0, 0],
        word: Err(Objection::Refused(Refusal::CostsLength)),
    },
    Asked {
        lent: Lent {
            places: 2,
            top: 3,
            costs: &COSTS,
            sides: &[0, 1, 1, 0],
        },
        picture: &[3, 0],
        flows: &[0, 0],
        word: Err(Objection::Refused(Refusal::SidesLength)),
    },
    Asked {
        lent: Lent {
            places: 2,
            top: 3,
            costs: &COSTS,
            sides: &SIDES,
        },
        picture: &[3],
        flows: &[0, 0],
        word: Err(Objection::Refused(Refusal::PictureLength)),
    },
    Asked {
        lent: Lent {
            places: 2,
            top: 3,
            costs: &COSTS,
            sides: &SIDES,
        },
        picture: &[3, 0],
        flows: &[0],
        word: Err(Objection::Refused(Refusal::FlowsLength)),
    },
    Asked {
        lent: Lent {
            places: 2,
            top: 3,
            costs: &COSTS,
            sides: &SIDES,
        },
        picture: &[3, 0],
        flows: &[0, 0, 0],
        word: Err(Objection::Refused(Refusal::FlowsLength)),
    },
    Asked {
        lent: Lent {
            places: 2,
            top: 3,
            costs: &COSTS,
            sides: &[],
        },
        picture: &[3, 0],
        flows: &[0, 0],
        word: Err(Objection::Refused(Refusal::FlowsLength)),
    },
    Asked {
        lent: Lent {
            places: 2,
            top: 3,
            costs: &[3, 2, 1, 0, 0, 1, 2, 1_000_000_001],
            sides: &SIDES,
        },
        picture: &[3, 0],
        flows: &[0, 0],
        word: Err(Objection::Refused(Refusal::CostTooHigh(7))),
    },
    Asked {
        lent: Lent {
            places: 2,
            top: 3,
            costs: &COSTS,
            sides: &[0, 2, 1],
        },
        picture: &[3, 0],
        flows: &[0, 0],
        word: Err(Objection::Refused(Refusal::SideOutOfRange { costs: 8, side: 0 })),
    },
    Asked {
        lent: Lent {
            places: 2,
            top: 3,
            costs: &COSTS,
            sides: &[0, 1, 1_000_001],
        },
        picture: &[3, 0],
        flows: &[0, 0],
        word: Err(Objection::Refused(Refusal::SideOutOfRange { costs: 8, side: 0 })),
    },
    Asked {
        lent: Lent {
            places: 2,
            top: 3,
            costs: &[0, 2, 3, 3, 0, 1, 2, 3],
            sides: &SIDES,
        },
        picture: &[3, 0],
        flows: &[0, 0],
        word: Err(Objection::Refused(Refusal::NotConvex { place: 0, value: 1 })),
    },
    Asked {
        lent: Lent {
            places: 2,
            top: 3,
            costs: &COSTS,
            sides: &SIDES,
        },
        picture: &[3, 4],
        flows: &[0, 0],
        word: Err(Objection::Refused(Refusal::ValueTooHigh(1))),
    },
    Asked {
        lent: Lent {
            places: 2,
            top: 3,
            costs: &COSTS,
            sides: &SIDES,
        },
        picture: &[4, 4],
        flows: &[0, 0],
        word: Err(Objection::Refused(Refusal::ValueTooHigh(0))),
    },
    // And in their order.
    Asked {
        lent: Lent {
            places: 0,
            top: 0,
            costs: &[1_000_000_001],
            sides: &[1],
        },
        picture: &[9],
        flows: &[9],
        word: Err(Objection::Refused(Refusal::Places)),
    },
    Asked {
        lent: Lent {
            places: 2,
            top: 0,
            costs: &[1_000_000_001],
            sides: &[1],
        },
        picture: &[9],
        flows: &[9],
        word: Err(Objection::Refused(Refusal::Top)),
    },
    Asked {
        lent: Lent {
            places: 2,
            top: 3,
            costs: &[1_000_000_001],
            sides: &[1],
        },
        picture: &[9],
        flows: &[9],
        word: Err(Objection::Refused(Refusal::CostsLength)),
    },
    Asked {
        lent: Lent {
            places: 2,
            top: 3,
            costs: &[1_000_000_001, 1, 1, 1, 1, 1, 1, 1],
            sides: &[1],
        },
        picture: &[9],
        flows: &[9],
        word: Err(Objection::Refused(Refusal::SidesLength)),
    },
    Asked {
        lent: Lent {
            places: 2,
            top: 3,
            costs: &[1_000_000_001, 0, 9, 0, 1, 1, 1, 1],
            sides: &[9, 9, 9],
        },
        picture: &[9],
        flows: &[9],
        word: Err(Objection::Refused(Refusal::PictureLength)),
    },
    Asked {
        lent: Lent {
            places: 2,
            top: 3,
            costs: &[1_000_000_001, 0, 9, 0, 1, 1, 1, 1],
            sides: &[9, 9, 9],
        },
        picture: &[9, 9],
        flows: &[9],
        word: Err(Objection::Refused(Refusal::FlowsLength)),
    },
    Asked {
        lent: Lent {
            places: 2,
            top: 3,
            costs: &[1_000_000_001, 0, 9, 0, 1, 1, 1, 1],
            sides: &[9, 9, 9],
        },
        picture: &[9, 9],
        flows: &[9, 9],
        word: Err(Objection::Refused(Refusal::CostTooHigh(0))),
    },
    Asked {
        lent: Lent {
            places: 2,
            top: 3,
            costs: &[1, 0, 9, 0, 1, 1, 1, 1],
            sides: &[9, 9, 9],
        },
        picture: &[9, 9],
        flows: &[9, 9],
        word: Err(Objection::Refused(Refusal::SideOutOfRange { costs: 8, side: 0 })),
    },
    Asked {
        lent: Lent {
            places: 2,
            top: 3,
            costs: &[1, 0, 9, 0, 1, 1, 1, 1],
            sides: &[0, 1, 9],
        },
        picture: &[9, 9],
        flows: &[9, 9],
        word: Err(Objection::Refused(Refusal::NotConvex { place: 0, value: 2 })),
    },
    Asked {
        lent: Lent {
            places: 2,
            top: 3,
            costs: &[1, 0, 0, 0, 1, 1, 1, 1],
            sides: &[0, 1, 9],
        },
        picture: &[9, 9],
        flows: &[10, 9],
        word: Err(Objection::Refused(Refusal::ValueTooHigh(0))),
    },
    Asked {
        lent: Lent {
            places: 2,
            top: 3,
            costs: &[1, 0, 0, 0, 1, 1, 1, 1],
            sides: &[0, 1, 9],
        },
        picture: &[3, 3],
        flows: &[10, 9],
        word: Err(Objection::Broken(Broken::Side(0))),
    },
];

impl Asked<'_> {
    fn holds(&self, rt: &impl Abort, heap: Global) -> Result<(), Fail> {
        assert_eq!(rt; check(heap, self.lent, self.picture, self.flows), self.word);
        Ok(())
    }
}

#[test]
fn each_word_at_its_edge(rt: HostRuntime) -> Result<(), Fail> {
    for case in &CASES {
        case.holds(&rt, rt.alloc())?;
    }
    Ok(())
}

// The most places that need no memory from the heap, and one more.
#[test]
fn few_places_and_many(rt: HostRuntime) -> Result<(), Fail> {
    let heap = rt.alloc();
    for places in [4_096u32, 4_097] {
        let costs = repeated(heap, &[0, 1], places)?;
        let picture = repeated(heap, &[0], places)?;
        Asked {
            lent: Lent {
                places: u64::from(places),
                top: 1,
                costs: costs.as_slice(),
                sides: &[],
            },
            picture: picture.as_slice(),
            flows: &[],
            word: Ok(0),
        }
        .holds(&rt, heap)?;
    }
    Ok(())
}

// As many places and sides as there may be, each side at the highest price between the first two places: all flows
// there, and then there and back.
#[test]
fn most_flows(rt: HostRuntime) -> Result<(), Fail> {
    let heap = rt.alloc();
    let costs = repeated(heap, &[0], 131_072)?;
    let picture = repeated(heap, &[0], 65_536)?;
    let sides = repeated(heap, &[0, 1, 1_000_000], 262_144)?;
    let there = repeated(heap, &[1_000_000, 0], 262_144)?;
    let both = repeated(heap, &[1_000_000, 1_000_000], 262_144)?;
    let asked = Asked {
        lent: Lent {
            places: 65_536,
            top: 1,
            costs: costs.as_slice(),
            sides: sides.as_slice(),
        },
        picture: picture.as_slice(),
        flows: there.as_slice(),
        word: Err(Objection::Broken(Broken::Place { place: 1, value: 1 })),
    };
    asked.holds(&rt, heap)?;
    Asked {
        flows: both.as_slice(),
        word: Ok(0),
        ..asked
    }
    .holds(&rt, heap)
}
