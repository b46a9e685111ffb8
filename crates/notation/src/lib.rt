// The notation of a listing: the line of an instruction, by its shape and the bytes behind its pair, and the line of bytes
// that are none.
#![tactic(auto)]

// Characters, several in a number.
mod pieces;
// The words of the instructions.
mod mnemonics;
// Their operands.
mod forms;
// Their lines.
pub mod lines;
