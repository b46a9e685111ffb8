// What is promised of block transfers beyond single calls: a sweep and the plain steps that it stands for, as theorems over
// the definitions of the crates below: no code that runs.
#![tactic(auto)]
