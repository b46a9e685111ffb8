// What is promised of the calls for C, said of the contracts that the prover made of them: no code that runs.
#![tactic(auto)]
