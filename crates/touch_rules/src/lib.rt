// What a call touches, told before it is made: the places in order, and the lent words that they are written to; no code
// that runs.
#![tactic(auto)]
