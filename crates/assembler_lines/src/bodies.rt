// Lines by the places of their parts, and why one is refused.
ghost use Rattle.std.specs.Prelude.{◌≡◌};
ghost use Rattle.assembler_lines.specs.Bodies.{line_refusal_number};

use assembler_forms::operands::Operands;
use assembler_forms::table::EntryCode;

// A part of the text: its first place and the one behind it.
#[derive(Clone, Copy)]
pub struct NameSpan {
    pub from: usize,
    pub to: usize,
}

// The front of a line: the name of its label, if it has one, and the place where the rest begins.
#[derive(Clone, Copy)]
pub struct Head {
    pub label: Option<NameSpan>,
    pub body: usize,
}

// What stands behind a label: nothing; data, in words or not, by its first place and its bytes; or an instruction by its entry
// and its operands. `two` is a flag because the rules' statement `items` has it so.
#[derive(Clone, Copy)]
pub enum Body {
    Blank,
    Items {
        two: bool,
        place: usize,
        bytes: usize,
    },
    Instruction {
        code: EntryCode,
        operands: Operands,
    },
}

// Why a line is refused: its word is none; its operands are none that the word takes; more than eight of its parentheses are
// open at once; a name is unknown, or its label may not be kept; a number may not stand in its place; its bytes have no room.
#[derive(Clone, Copy, PartialEq, Eq)]
pub enum LineRefusal {
    UnknownWord,
    UnknownForm,
    TooDeep,
    UnknownName,
    OutOfRange,
    NoRoom,
}

impl LineRefusal {
    // The number of a refusal.
    pub fn number(self) -> u32
        ensures { result ≡ line_refusal_number self }
    {
        match self {
            LineRefusal::UnknownWord => 30,
            LineRefusal::UnknownForm => 31,
            LineRefusal::TooDeep => 32,
            LineRefusal::UnknownName => 33,
            LineRefusal::OutOfRange => 34,
            LineRefusal::NoRoom => 35,
        }
    }
}
