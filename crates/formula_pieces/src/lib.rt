// The pieces that a formula's text is made of: bytes and names, sets of labels.
#![tactic(auto)]

pub mod sets;
pub mod text;
