// Eight bytes as a number, and parts of bytes compared by such numbers, where they stand.
#![tactic(auto)]

pub mod same;
pub mod words;
