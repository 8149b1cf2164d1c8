// Deterministic automata, and the smallest one of a language: definitions and laws; the code is in the crates above.
#![tactic(auto)]

pub mod sizes;
