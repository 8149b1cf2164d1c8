// A formula's text in the base notation, and what it is worth: it reads back, and has no bracket too many. Definitions and laws.
#![tactic(auto)]
