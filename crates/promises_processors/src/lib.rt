// The promises of two processors on one board as theorems over the definitions of the crates below: no code that runs.
#![tactic(auto)]
