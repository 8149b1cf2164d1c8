// Whether formula bytes are prepared, and what every entry over prepared bytes tests first.
#![tactic(auto)]

pub mod inputs;
