// Action logic: formulas, their grammar and meaning, their prepared bytes. Definitions and laws; the code is in the crates above.
#![tactic(auto)]

pub mod sizes;
