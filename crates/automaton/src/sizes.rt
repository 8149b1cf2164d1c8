// How many places, positions and masks there are at most, and the bytes of a row and of an edge. specs/Sizes.antt and specs/Bytes.antt
// have the same numbers.
use actl::sizes::NODES;
use lts::sizes::{LABELS, STATES};

pub const PLACES: usize = NODES + 1;

pub const POSITIONS: usize = PLACES * STATES;

// For each place a mask of target places for each label, the silent step included.
pub const COLUMNS: usize = LABELS + 1;

pub const MASKS_LENGTH: usize = PLACES * COLUMNS;

pub const ROW_LENGTH: usize = 3;

pub const EDGE_LENGTH: usize = 5;

pub const LONGEST_WORD: usize = 1024;
