// A graph of so many places, and so many sides, lies in the value that owns it, and wants no memory from the heap.
pub const FEW_PLACES: usize = 1_024;

pub const FEW_SIDES: usize = 2_048;

pub const FEW_STARTS: usize = FEW_PLACES + 1;

pub const FEW_ARCS: usize = 2 * FEW_SIDES;
