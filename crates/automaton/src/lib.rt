// Witnesses and counterexamples, and the automaton of their words: what it is, and that its words are theirs. Definitions and laws.
#![tactic(auto)]

pub mod sizes;

// How many rows and edges an automaton has, or were found of it so far.
#[derive(Clone, Copy)]
pub struct Totals {
    pub rows: usize,
    pub edges: usize,
}
