// Names of both tables in slots, by keys that compare them, and what each is called in the combined table.
#![tactic(auto)]

pub mod constants;
pub mod keys;
pub mod moved;
