// Block transfers of one channel: what is asked of one, its steps, its stages and its end, and that they come out; no code that runs.
#![tactic(auto)]
