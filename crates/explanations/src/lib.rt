// What an unending run shows or breaks, what rows and edges trace, what is explained and printed. Definitions and laws.
#![tactic(auto)]

pub mod sizes;
