// How many sets of rows there may be, and the letters of a row of their table. specs/Sizes.antt has the same numbers.
use lts::sizes::{LABELS, STATES};

// 02: "may number at most 256"
pub const SETS: usize = 256;

// The labels of a table, the silent step 0 and the idle step among them.
pub const LETTERS: usize = LABELS + 2;

// Where the steps of each letter's column begin, and the last ones end.
pub const BEGINS: usize = LETTERS + 1;

pub const NEXT: usize = SETS * LETTERS;

// What stands in the table for a step that leads nowhere.
pub const NOWHERE: usize = SETS;

// States and edges, a mark for each state, three bytes for each edge.
pub const SMALLEST_LENGTH: usize = 4 + SETS + 3 * NEXT;

// A set: eight bytes for each state, its places as a mask.
pub const WORK_LENGTH: usize = SETS * STATES * 8;
