// What the program lends and keeps. specs/Sizes.antt has the same numbers.
use actl::sizes::LONGEST_TEXT;
use automaton::sizes::{EDGE_LENGTH, ROW_LENGTH};

// 01: "The program lends places for 1,024 rows and 4,096 edges."
pub const ROWS_LENT: usize = 1024;

pub const EDGES_LENT: usize = 4096;

pub const ROWS_LENGTH: usize = ROWS_LENT * ROW_LENGTH;

pub const EDGES_LENGTH: usize = EDGES_LENT * EDGE_LENGTH;

// Of the formula's file: one byte more than a formula may have.
pub const KEPT: usize = LONGEST_TEXT + 1;

// Lines of four and of three numbers, and room for the first line and one line more.
pub const TEXT_LENGTH: usize = ROWS_LENT * 25 + EDGES_LENT * 19 + 162;
