// The promises of pauses in the middle of a transfer as theorems over the definitions of the crates below: no code that runs.
#![tactic(auto)]
