// A state in bytes, as the caller keeps it.
#![tactic(auto)]

// One field of a state in bytes.
mod fields;
// A whole state in bytes.
pub mod layout;
// What a step on a state in bytes is given.
pub mod given;
// What calls on it answer.
pub mod answers;
