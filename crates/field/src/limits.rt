// The limits of a field.
pub const MOST_PLACES: u64 = 65_536;

pub const MOST_TOP: u64 = 255;

pub const MOST_SIDES: usize = 262_144;

pub const MOST_COST: u32 = 1_000_000_000;

pub const MOST_PRICE: u32 = 1_000_000;
