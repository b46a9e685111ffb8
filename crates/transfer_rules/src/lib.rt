// Types of the rules of transfer steps.
#![tactic(auto)]

use ground_rules::Pointer;

// One side of a transfer: its pointer, whether it moves on, and whether it is 16 bits wide.
#[derive(Clone, Copy, PartialEq, Eq)]
pub struct Side {
    pub pointer: Pointer,
    pub moves: bool,
    pub wide: bool,
}

// The bytes to be stored.
#[derive(Clone, Copy, PartialEq, Eq)]
pub struct Data {
    pub first: u8,
    pub second: u8,
}
