// The forms of an assembly's lines: operands as they are written, and the entry of a word.
#![tactic(auto)]

// Operands: registers, memory and sums.
pub mod operands;
// The entries of the words.
pub mod table;
