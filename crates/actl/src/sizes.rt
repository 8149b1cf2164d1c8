// 01's limits of a formula, and the lengths of docs/FORMATS.md that follow from them. specs/Sizes.antt has the same numbers.
use lts::sizes::STATES;

pub const LONGEST_TEXT: usize = 512;

pub const NODES: usize = 40;

// A prepared formula: the count of nodes, node slots.
pub const NODE_SLOT: usize = 17;

pub const FORMULA_LENGTH: usize = 1 + NODES * NODE_SLOT;

// Every node at every state.
pub const NODE_POSITIONS: usize = NODES * STATES;
