// Types of the rules of the listing.
#![tactic(auto)]

use instruction_rules::{Memory, Shape};

// A place for an operand: none, a register, memory and where its offset byte lies, a number or a jump's target and where its
// bytes lie and whether there are two, a bit or a width.
#[derive(Clone, Copy)]
pub enum Slot {
    Empty,
    Name(u32),
    Place(Memory, u32),
    Number(u32, bool),
    Target(u32, bool),
    Digit(u32),
}

// The places of a line.
#[derive(Clone, Copy)]
pub struct Slots {
    pub first: Slot,
    pub second: Slot,
    pub third: Slot,
}

// What bytes begin with: a whole instruction with the operand of MOV M,M's second pair and its length, a byte at which none
// starts, or nothing.
#[derive(Clone, Copy)]
pub enum Item {
    Whole {
        shape: Shape,
        to: Memory,
        length: u32,
    },
    Byte,
    End,
}
