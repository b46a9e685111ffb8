// The script program's text: the names of calls and registers, the call that a line is, registers set as they stand, and the buffers that bytes are written to.
#![tactic(auto)]

// The names of calls and registers.
pub mod names;
// Registers set as they stand.
pub mod registers;
// The call that a line is.
pub mod text;
// Buffers written and digested.
pub mod buffers;
