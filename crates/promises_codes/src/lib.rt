// The codes of the data sheet in numbers, as theorems over the decoder's rules: no code that runs.
#![tactic(auto)]
