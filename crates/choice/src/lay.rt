ghost use Rattle.std.specs.Prelude.{◌≡◌, ◌≤◌, [], IsOk, OnOk};
ghost use Rattle.graph.specs.Few.{few_places};
ghost use Rattle.choice.specs.Worked.{Unflowed, Listed};

use field::FieldView;
use graph::FEW_PLACES;
use smallvec::SmallVec;
use std::alloc::AllocError;

// The step of each place with no flows: what yes costs less what no costs. Up to 1,024 of them stay where they are.
pub(super) fn lay_steps(
    field: &FieldView,
    steps: &mut SmallVec<i64, FEW_PLACES>,
) -> Result<(), AllocError>
    requires two { field.now.top ≡ 1 }
    requires none { steps.old.items ≡ [] }
    requires room { steps.old.capacity ≡ few_places }
    ensures laid { OnOk result (Unflowed field.now.places field.now.costs.now steps.new.items) }
    ensures small { field.now.places ≤ few_places → IsOk result }
    ensures inline { field.now.places ≤ few_places → steps.new.capacity ≡ few_places }
{
    steps.reserve_exact(field.places)?;
    for row in field.costs.chunks_exact(2) {
        steps.push_reserved(i64::from(row[1]) - i64::from(row[0]));
    }
    Ok(())
}

// All places, in their order; pushed on, since of `collect` it is not said that it succeeds where there is room.
pub(super) fn list_places(
    field: &FieldView,
    places: &mut SmallVec<u32, FEW_PLACES>,
) -> Result<(), AllocError>
    requires none { places.old.items ≡ [] }
    requires room { places.old.capacity ≡ few_places }
    ensures listed { OnOk result (Listed field.now.places places.new.items) }
    ensures small { field.now.places ≤ few_places → IsOk result }
    ensures inline { field.now.places ≤ few_places → places.new.capacity ≡ few_places }
{
    places.reserve_exact(field.places)?;
    for place in 0..field.places as u32 {
        places.push_reserved(place);
    }
    Ok(())
}
