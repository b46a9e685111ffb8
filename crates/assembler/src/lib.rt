// A text assembled: its labels, the first line that a number refuses, and the bytes.
#![tactic(auto)]

// Lines of a text, and whether a line's label may be kept.
mod lines;
// The three passes over a text.
mod passes;
// The call.
pub mod assembly;
