// One formula, many starts: the verdict at each state of a list. Definitions and laws.
#![tactic(auto)]
