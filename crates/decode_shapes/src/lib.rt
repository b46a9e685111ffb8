// An instruction as its first two bytes show it: the pair's fields, the shapes, and the rows of the instruction summary.
#![tactic(auto)]

pub mod pairs;
pub mod rows;
