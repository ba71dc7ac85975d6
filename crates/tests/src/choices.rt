use super::cases::{NO_ROOMS, line, repeated};
use choice::choose;
use field::Lent;
use graph::Arcs;
use search::Search;
use sheet::check;
use std::alloc::Global;
use std::process::Abort;
use std::test::*;

// A field with the values 0 and 1, its lowest cheapest picture and what that costs.
#[derive(Clone, Copy)]
struct Choice<'a> {
    costs: &'a [u32],
    sides: &'a [u32],
    picture: &'a [u32],
    cost: u64,
}

const CHOICES: [Choice<'static>; 8] = [
    // No sides; of a place whose values cost the same, the lower one.
    Choice {
        costs: &[1, 0, 0, 0],
        sides: &[],
        picture: &[1, 0],
        cost: 0,
    },
    // Three pictures are cheapest: both places 0, both 1, and the second alone.
    Choice {
        costs: &[0, 1, 1, 0],
        sides: &[0, 1, 1],
        picture: &[0, 0],
        cost: 1,
    },
    // Two sides between two places, in opposite directions: both are paid.
    Choice {
        costs: &[0, 3, 3, 0],
        sides: &[0, 1, 1, 1, 0, 1],
        picture: &[0, 1],
        cost: 2,
    },
    Choice {
        costs: &[0, 3, 3, 0],
        sides: &[0, 1, 1, 1, 0, 2],
        picture: &[0, 0],
        cost: 3,
    },
    // A side from a place to itself, and one that costs nothing.
    Choice {
        costs: &[2, 0],
        sides: &[0, 0, 9],
        picture: &[1],
        cost: 0,
    },
    Choice {
        costs: &[0, 1, 1, 0],
        sides: &[0, 1, 0],
        picture: &[0, 1],
        cost: 0,
    },
    // A hub that would rather be 0, and four places round it that would rather be 1.
    Choice {
        costs: &[0, 2, 1, 0, 1, 0, 1, 0, 1, 0],
        sides: &[0, 1, 1, 0, 2, 1, 3, 0, 1, 4, 0, 1],
        picture: &[1, 1, 1, 1, 1],
        cost: 2,
    },
    // One place would rather be 1, by 4; two others would rather be 0, by 3 each, and win only together.
    Choice {
        costs: &[4, 0, 0, 3, 0, 3],
        sides: &[0, 1, 9, 0, 2, 9],
        picture: &[0, 0, 0],
        cost: 4,
    },
];

impl Choice<'_> {
    // The slices that are lent hold other numbers, and are written over.
    fn holds(&self, rt: &impl Abort, heap: Global) -> Result<(), Fail> {
        let places = self.picture.len() as u64;
        let mut picture = vec![in heap; 7u32; self.picture.len()]?;
        let mut flows = vec![in heap; 7u32; self.sides.len() / 3 * 2]?;
        assert_eq!(rt;
            choose(
                heap,
                places,
                self.costs,
                self.sides,
                picture.as_mut_slice(),
                flows.as_mut_slice(),
            ),
            Ok(())
        );
        assert_eq!(rt; picture.as_slice(), self.picture);
        let lent = Lent {
            places,
            top: 1,
            costs: self.costs,
            sides: self.sides,
        };
        assert_eq!(rt;
            check(heap, lent, picture.as_slice(), flows.as_slice()),
            Ok(self.cost)
        );
        Ok(())
    }
}

#[test]
fn lowest_cheapest_choices(rt: HostRuntime) -> Result<(), Fail> {
    for choice in &CHOICES {
        choice.holds(&rt, rt.alloc())?;
    }
    Ok(())
}

// A line of one place more than the stack serves: what its first place wants goes all the way to the last.
#[test]
fn long_line_in_heap_memory(rt: HostRuntime) -> Result<(), Fail> {
    let heap = rt.alloc();
    let mut costs = repeated(heap, &[5, 0], 1)?;
    costs.extend_from_slice(&[0; 2_046])?;
    costs.extend_from_slice(&[0, 3])?;
    let sides = line(heap, 1_025, 10)?;
    let picture = repeated(heap, &[1], 1_025)?;
    Choice {
        costs: costs.as_slice(),
        sides: sides.as_slice(),
        picture: picture.as_slice(),
        cost: 3,
    }
    .holds(&rt, heap)
}

// One side more than the stack serves, all between two places that would rather differ: together they cost more.
#[test]
fn many_sides_in_heap_memory(rt: HostRuntime) -> Result<(), Fail> {
    let heap = rt.alloc();
    let sides = repeated(heap, &[0, 1, 1], 2_049)?;
    Choice {
        costs: &[0, 3, 3, 0],
        sides: sides.as_slice(),
        picture: &[0, 0],
        cost: 3,
    }
    .holds(&rt, heap)
}

// A graph and a search larger than the stack serves: two memories that `choose` takes.
#[test]
fn large_graph_and_search(rt: HostRuntime) -> Result<(), Fail> {
    let heap = rt.alloc();
    let costs = repeated(heap, &[0, 0], 2_000)?;
    let sides = repeated(heap, &[0, 1_999, 7], 3_000)?;
    let lent = Lent {
        places: 2_000,
        top: 1,
        costs: costs.as_slice(),
        sides: sides.as_slice(),
    };
    let Ok(field) = lent.examine(NO_ROOMS) else {
        return Err(Fail::new("turned away"));
    };
    let arcs = Arcs::of(heap, &field)?;
    let graph = arcs.graph();
    assert_eq!(rt; graph.arcs.len(), 6_000);
    assert_eq!(rt; graph.leaving(0).len(), 3_000);
    assert_eq!(rt; graph.leaving(1).len(), 0);
    assert_eq!(rt; Search::new(heap, 2_000)?.reached().len(), 0);
    Ok(())
}
