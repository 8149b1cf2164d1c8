// The positions that a word reaches, as masks of places by state, and that they are the automaton's. Definitions and laws.
#![tactic(auto)]

pub mod sizes;
