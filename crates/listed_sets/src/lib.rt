// Sets of rows as masks are the sets of the listed rows: laws; the code is in the crates above.
#![tactic(auto)]
