// Kept sets in chains by their hash: a set is found, or kept as the next one.
#![tactic(auto)]

pub mod chains;
pub mod entering;
pub mod hashing;
pub mod sizes;
