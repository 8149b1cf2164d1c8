// Sets of rows kept in bytes, one behind the other.
#![tactic(auto)]

pub mod kept;
pub mod words;
