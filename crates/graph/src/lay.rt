ghost use Rattle.std.specs.Prelude.{◌≡◌, ℕ, suc, ◌*◌, length, slice_index};
ghost use Rattle.field.specs.Given.{sides_of};
ghost use Rattle.graph.specs.Arcs.{Graphed};
ghost use Rattle.graph.specs.Owned.{OfField};

use super::arc::Arc;
use super::index::{lay_arcs, lay_rows};
use field::FieldView;

// Lays down the graph of a field's sides in memory that is lent: two arcs a side, and the rows of all places, from zeros.
pub fn lay_graph(field: &FieldView, arcs: &mut [Arc], starts: &mut [u32], order: &mut [u32])
    requires arcs { length arcs.old ≡ 2 * sides_of field.now.sides.now }
    requires starts { length starts.old ≡ suc field.now.places }
    requires blank { (i : ℕ) → slice_index starts.old i ≡ 0 }
    requires order { length order.old ≡ 2 * sides_of field.now.sides.now }
    ensures graphed { Graphed field.now.places arcs.new starts.new order.new }
    ensures laid { OfField field.now (record { places = field.now.places; arcs = arcs.new }) }
{
    lay_arcs(field.sides, arcs);
    lay_rows(arcs, starts, order);
}
