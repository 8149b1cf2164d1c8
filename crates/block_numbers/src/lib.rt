// Blocks numbered as a search from the first one meets them.
#![tactic(auto)]

pub mod finding;
