// The lister: a channel's program as lines that an engineer can read.
#![tactic(auto)]

// The reader over the program bytes: one instruction at a time.
pub mod reading;
// The listing of a part of memory.
pub mod listings;
