// The sizes of a session and of its memory, each named once. The contracts' names for them are in crates/ledger/specs/Layout.antt.
pub const MOST_DECISIONS: u32 = 512;

pub const MOST_MARKS: u32 = 64;

pub const MOST_ENTRIES: usize = MOST_DECISIONS as usize + MOST_MARKS as usize;

// The numbers of an entry, and of the room for all of them.
pub const ROW_SIZE: usize = 3;

pub const ROWS_SIZE: usize = MOST_ENTRIES * ROW_SIZE;

// What is shown before the kept masks: the result and the least cost.
pub const RESULT: usize = 0;

pub const LEAST: usize = 1;

pub const SHOWN: usize = 2;

// Where the four sizes and both counts stand in what is held, where the spare zeros begin, the entries, and the opening.
pub const PLACES: usize = 0;

pub const STATES: usize = 1;

pub const VALUES: usize = 2;

pub const START: usize = 3;

pub const DECISIONS: usize = 4;

pub const MARKS: usize = 5;

pub const SPARE: usize = 6;

pub const ROWS: usize = SPARE + 56;

pub const OPENING: usize = ROWS + ROWS_SIZE;

// What the memory has besides three numbers for each place.
pub const REST_SIZE: usize = ROWS_SIZE + 64;
