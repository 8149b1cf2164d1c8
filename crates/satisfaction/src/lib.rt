// Satisfaction over unending paths, and the test that decides it. Definitions and laws.
#![tactic(auto)]
