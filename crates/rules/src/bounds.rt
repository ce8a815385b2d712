// The sizes of the paper, each named once. The contracts' names for them are in crates/meaning/specs/Bounds.antt.
pub const MOST_PLACES: usize = 366;

pub const MOST_STATES: usize = 64;

pub const MOST_VALUES: usize = 16;

pub const MOST_COST: u16 = 1000;

// The target that means: no arc.
pub const NO_TARGET: u8 = 255;

// The places of a lent rule table.
pub const TABLE_SIZE: usize = MOST_STATES * MOST_VALUES;

// The most changes that a planner can be asked for.
pub const MOST_CHANGES: u32 = 7;

// No running cost passes this.
pub const TOP: u32 = (MOST_PLACES as u32) * (MOST_COST as u32);
