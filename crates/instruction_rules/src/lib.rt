// Types of the rules of instructions: what a pair of bytes stands for, and what an instruction comes to.
#![tactic(auto)]

ghost use Rattle.std.specs.Prelude.{◌≡◌};
ghost use Rattle.instruction_rules.specs.Unread.{refusal_of};

use ground_rules::{Pointer, Refusal};

// The memory operand of a pair: MM, AA and W.
#[derive(Clone, Copy, PartialEq, Eq)]
pub struct Memory {
    pub mm: u32,
    pub aa: u32,
    pub wide: bool,
}

// What an instruction with two operands does with them.
#[derive(Clone, Copy, PartialEq, Eq)]
pub enum Work {
    Mov,
    Add,
    Or,
    And,
    Not,
}

// What an instruction with one operand does with it.
#[derive(Clone, Copy, PartialEq, Eq)]
pub enum Single {
    Not,
    Inc,
    Dec,
}

// An instruction as its pair shows it; the bytes that follow the pair are not yet read.
#[derive(Clone, Copy, PartialEq, Eq)]
pub enum Shape {
    Nop,
    Sintr,
    Xfer,
    Wid {
        source: bool,
        destination: bool,
    },
    Hlt,
    Lpdi {
        ppp: u32,
    },
    RegisterImmediate {
        work: Work,
        rrr: u32,
        wide: bool,
    },
    Register {
        single: Single,
        rrr: u32,
    },
    JumpRegister {
        zero: bool,
        rrr: u32,
        two: bool,
    },
    RegisterMemory {
        work: Work,
        rrr: u32,
        m: Memory,
    },
    MemoryRegister {
        work: Work,
        rrr: u32,
        m: Memory,
    },
    MemoryImmediate {
        work: Work,
        m: Memory,
    },
    MemoryAlone {
        single: Single,
        m: Memory,
    },
    JumpMemory {
        zero: bool,
        m: Memory,
        two: bool,
    },
    Lpd {
        ppp: u32,
        m: Memory,
    },
    MovpLoad {
        ppp: u32,
        m: Memory,
    },
    MovpStore {
        ppp: u32,
        m: Memory,
    },
    MovMemory {
        m: Memory,
    },
    Tsl {
        m: Memory,
    },
    Call {
        m: Memory,
        two: bool,
    },
    JumpMasked {
        equal: bool,
        m: Memory,
        two: bool,
    },
    JumpBit {
        set: bool,
        bit: u32,
        m: Memory,
        two: bool,
    },
    Bit {
        on: bool,
        bit: u32,
        m: Memory,
    },
}

// Why a first pair is no instruction that can be done: it is of no row of the table, or it uses CC where it may not.
#[derive(Clone, Copy, PartialEq, Eq)]
pub enum Unread {
    NoInstruction,
    ControlUsed,
}

impl From<Unread> for Refusal {
    ghost from_gives = { λ unread refusal. refusal ≡ refusal_of unread };

    fn from(unread: Unread) -> Refusal {
        match unread {
            Unread::NoInstruction => Refusal::NotAnInstruction,
            Unread::ControlUsed => Refusal::ControlNamed,
        }
    }
}

// What a first pair is: an instruction, or why it is none.
pub type Decoded = Result<Shape, Unread>;

// The fields of a pair: RRR, dd, AA and W of its first byte, opcode and MM of its second.
#[derive(Clone, Copy, PartialEq, Eq)]
pub struct Pair {
    pub rrr: u32,
    pub dd: u32,
    pub aa: u32,
    pub w: u32,
    pub opcode: u32,
    pub mm: u32,
}

// A pair looked up: what it is, and the bytes of the instruction that it begins.
#[derive(Clone, Copy, PartialEq, Eq)]
pub struct Looked {
    pub decoded: Decoded,
    pub length: u32,
}

// What an instruction stores: the lowest `count` bytes of a value at a place, at most three, the lowest first.
#[derive(Clone, Copy, PartialEq, Eq)]
pub struct Change {
    pub count: u32,
    pub at: Pointer,
    pub value: u32,
}
