// Types of the rules of a state in bytes.
#![tactic(auto)]
