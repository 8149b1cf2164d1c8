// Labelled transition systems: state tables, their text, their prepared bytes. Definitions and laws; the code is in the crates above.
#![tactic(auto)]

pub mod sizes;
pub mod spans;
