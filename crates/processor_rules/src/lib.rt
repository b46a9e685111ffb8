// Two processors on one board: each call of one of them lifted to both, with its theorems; no code that runs.
#![tactic(auto)]
