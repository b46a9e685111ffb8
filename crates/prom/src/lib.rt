// Firmware from Intel hexadecimal object files: a text is read into lent system memory, whole or not at all.
#![tactic(auto)]

// Why a file is not read.
mod refusals;
// The records of a text.
mod records;
// The call.
mod loads;

pub use crate::loads::load;
pub use crate::refusals::{LoadRefusal, Reason};
