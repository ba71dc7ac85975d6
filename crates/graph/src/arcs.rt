use super::arc::Arc;
use super::few::{FEW_ARCS, FEW_STARTS};
use super::graph::Graph;
use super::lay::lay_graph;
use field::FieldView;
use smallvec::SmallVec;
use std::alloc::{AllocError, Global};
use std::marker::Model;

// A graph that owns its arcs and their rows: those of a small field lie in the value itself, and those of a large one
// in memory from the heap.
#[derive(Drop)]
pub struct Arcs {
    places: usize,
    arcs: SmallVec<Arc, FEW_ARCS>,
    starts: SmallVec<u32, FEW_STARTS>,
    order: SmallVec<u32, FEW_ARCS>,
}

impl Model for Arcs {
    ghost use Rattle.graph.specs.Arcs.{Graphed};
    ghost use Rattle.graph.specs.Owned.{Owned};

    ghost Value = { Owned };

    ghost view = { λ s. record { places = s.places; arcs = s.arcs.items } };

    ghost invariant = { λ s. Graphed s.places s.arcs.items s.starts.items s.order.items };
}

impl Arcs {
    ghost use Rattle.std.specs.Prelude.{◌≡◌, ◌≤◌, length, IfOk, IsOk};
    ghost use Rattle.field.specs.Given.{sides_of};
    ghost use Rattle.graph.specs.Few.{few_places, few_sides};
    ghost use Rattle.graph.specs.Owned.{OfField};

    // The graph of a field's sides. It wants no memory for a field of up to 1,024 places and 2,048 sides.
    pub fn of(heap: Global, field: &FieldView) -> Result<Arcs, AllocError>
        ensures laid { IfOk result (OfField field.now) }
        ensures small { field.now.places ≤ few_places → sides_of field.now.sides.now ≤ few_sides → IsOk result }
    {
        let sides = field.sides.len() / 3;
        let mut arcs = SmallVec::from_elem(heap, Arc::default(), 2 * sides)?;
        let mut starts = SmallVec::from_elem(heap, 0u32, field.places + 1)?;
        let mut order = SmallVec::from_elem(heap, 0u32, 2 * sides)?;
        lay_graph(
            field,
            arcs.as_mut_slice(),
            starts.as_mut_slice(),
            order.as_mut_slice(),
        );
        Ok(Arcs {
            places: field.places,
            arcs,
            starts,
            order,
        })
    }

    // A view of the graph.
    pub fn graph(&self) -> Graph<'_>
        ensures places { result.places ≡ self.now.places }
        ensures arcs { result.arcs.now ≡ self.now.arcs }
    {
        Graph {
            places: self.places,
            arcs: self.arcs.as_slice(),
            starts: self.starts.as_slice(),
            order: self.order.as_slice(),
        }
    }
}
