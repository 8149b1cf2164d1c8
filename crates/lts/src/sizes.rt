// 01's limits of a table, and the lengths and offsets of docs/FORMATS.md that follow from them. specs/Sizes.antt has the same numbers.

pub const STATES: usize = 256;

pub const LABELS: usize = 40;

pub const TRANSITIONS: usize = 1024;

// 02: "The idle step now prints as label 99." specs/Steps.antt has it for definitions.
pub const IDLE: usize = 99;

// A prepared table: counts and start, name slots, transition slots.
pub const HEAD: usize = 6;

pub const NAME_SLOT: usize = 16;

pub const TRANSITION: usize = 3;

// Where the first name's bytes stand, behind its length; and where its slot ends.
pub const NAME_BYTES_AT: usize = HEAD + 1;

pub const NAME_SLOT_END: usize = HEAD + NAME_SLOT;

pub const NAMES_LENGTH: usize = LABELS * NAME_SLOT;

pub const TRANSITIONS_AT: usize = HEAD + NAMES_LENGTH;

// Where the first transition's label and target stand.
pub const LABELS_AT: usize = TRANSITIONS_AT + 1;

pub const TARGETS_AT: usize = TRANSITIONS_AT + 2;

pub const TRANSITIONS_LENGTH: usize = TRANSITIONS * TRANSITION;

pub const TABLE_LENGTH: usize = TRANSITIONS_AT + TRANSITIONS_LENGTH;

// All steps, idle steps included; and where those of each state begin, and the last ones end.
pub const STEPS: usize = TRANSITIONS + STATES;

pub const FIRSTS: usize = STATES + 1;

// The longest text of a table, its lines with their LFs; and one byte more.
pub const LONGEST_TABLE_TEXT: usize = 25 + LABELS * 21 + TRANSITIONS * 19;

pub const ENOUGH_TABLE_TEXT: usize = LONGEST_TABLE_TEXT + 1;
