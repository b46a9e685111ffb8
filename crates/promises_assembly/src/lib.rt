// Assembling a listing gives back the listed bytes, as theorems over the rules of both: no code that runs.
#![tactic(auto)]
