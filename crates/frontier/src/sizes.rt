// The length of a frontier: a mask of places for each state, and four masks of states behind them. specs/Sizes.antt has the same number.
use lts::sizes::STATES;

pub const MARKS_AT: usize = STATES;

pub const SECOND_MARKS: usize = STATES + 1;

pub const THIRD_MARKS: usize = STATES + 2;

pub const FOURTH_MARKS: usize = STATES + 3;

pub const FRONTIER: usize = STATES + 4;
