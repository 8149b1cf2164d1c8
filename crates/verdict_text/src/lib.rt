// What `print_verdicts` reads of its list, and the lines that it writes of the verdicts.
#![tactic(auto)]

pub mod lines;
pub mod list;
