// The promises of the machine as theorems over the definitions of the crates below: no code that runs.
#![tactic(auto)]
