// What stands in the bytes of a prepared table: counts and transitions.
#![tactic(auto)]

pub mod prepared;
