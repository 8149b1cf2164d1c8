// What stands in the bytes of a prepared formula: its nodes, and which steps meet their conditions.
#![tactic(auto)]

pub mod conditions;
pub mod node;
