// What a letter makes of a set of rows, and whether a set has a final row.
#![tactic(auto)]

pub mod finals;
pub mod stepping;
