ghost use Rattle.std.specs.Prelude.{◌≤◌, MatchBool};
ghost use Rattle.field.specs.Given.{field_in};
ghost use Rattle.field.specs.Rules.{verdict};
ghost use Rattle.field.specs.Costed.{both_rooms};
ghost use Rattle.field.specs.Viewed.{field_of};
ghost use Rattle.graph.specs.Few.{few_places, few_sides};
ghost use Rattle.choice.specs.Solved.{Large, Answered};

use super::lay::{lay_steps, list_places};
use super::work::Work;
use field::{FieldView, Lent, Rooms};
use graph::{FEW_PLACES, FEW_SIDES};
use search::Search;
use smallvec::SmallVec;
use std::alloc::Global;
use word::Unsolved;

// Whether a field is small enough for the stack.
fn is_small(field: &FieldView) -> bool
    ensures { MatchBool result (((field_of field.now).places ≤ few_places) × ((field_of field.now).sides ≤ few_sides)) (Large (field_of field.now)) }
{
    field.places <= FEW_PLACES && field.sides.len() / 3 <= FEW_SIDES
}

// The lowest cheapest choice of yes or no for each place of a field with two values, and a sheet for it, written into
// lent slices: refused by the first of rules 1 to 5 that applies, with nothing lent changed; or found. A field of more
// than 1,024 places or 2,048 sides wants memory from the heap, all of which is there before anything lent is written.
// Places, costs and sides are named one by one and not as a `Lent`, since the top is 1 and no caller should have to say so.
pub fn choose<'f>(
    heap: Global,
    places: u64,
    costs: &'f [u32],
    sides: &'f [u32],
    picture: &mut [u32],
    flows: &mut [u32],
) -> Result<(), Unsolved>
    ensures { Answered (verdict places 1 costs.now sides.now (both_rooms picture.old flows.old)) (field_in places 1 costs.now sides.now) picture.old flows.old result picture.new flows.new }
{
    let rooms = Rooms::both(picture, flows);
    let field = Lent {
        places,
        top: 1,
        costs,
        sides,
    }
    .examine(rooms)?;
    let mut search = Search::none(heap);
    search.make_room(field.places)?;
    let mut members = SmallVec::new(heap);
    list_places(&field, &mut members)?;
    let mut steps = SmallVec::new(heap);
    lay_steps(&field, &mut steps)?;
    let mut work = Work {
        field,
        members: members.as_slice(),
        steps: steps.as_mut_slice(),
        search: &mut search,
    };
    if is_small(&field) {
        work.solve_few(picture, flows);
        return Ok(());
    }
    work.solve_many(heap, picture, flows)?;
    Ok(())
}
