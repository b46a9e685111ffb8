// The line of an instruction, and the line of bytes that are none.
ghost use Rattle.std.specs.Prelude.{◌≡◌, ◌≤◌, length, take};
ghost use Rattle.listing_rules.specs.Mnemonics.{is_listed};
ghost use Rattle.listing_rules.specs.Lines.{instruction_line, data_line};
ghost use Rattle.notation.specs.Writing.{text_in};

use crate::pieces::Pieces;
use crate::{forms, mnemonics, pieces};
use instruction_rules::{Memory, Shape};

// A line: its characters, the line feed too, and how many there are.
#[derive(Clone, Copy)]
pub struct Line {
    pub chars: [u8; 28],
    pub len: usize,
}

impl Line {
    ghost use Rattle.notation.specs.Writing.{held_in, held_in4, Fits, Wrote};

    // A line without characters.
    fn new() -> Line
        ensures { (length result.chars ≡ 28) × (result.len ≡ 0) }
    {
        Line {
            chars: [0; 28],
            len: 0,
        }
    }

    // Puts the characters of a number behind those of the line; the length stands in a variable meanwhile, since in the field
    // it counts 4 to 8 % more for each listed byte.
    fn push(&mut self, piece: u64)
        requires { Fits self.old.chars self.old.len (held_in piece) }
        ensures { Wrote self.old.chars self.new.chars self.old.len self.new.len (held_in piece) }
    {
        let mut rest = piece;
        let mut len = self.len;
        while rest != 0 {
            self.chars[len] = (rest % 256) as u8;
            len += 1;
            rest /= 256;
        }
        self.len = len;
    }

    // Puts the characters of four numbers behind those of the line.
    fn push_all(&mut self, pieces: Pieces)
        requires { Fits self.old.chars self.old.len (held_in4 pieces) }
        ensures { Wrote self.old.chars self.new.chars self.old.len self.new.len (held_in4 pieces) }
    {
        self.push(pieces.0);
        self.push(pieces.1);
        self.push(pieces.2);
        self.push(pieces.3);
    }
}

// Whether an instruction has a line of its own: all but CALL with W 0.
pub fn listed(s: Shape) -> bool
    ensures { result ≡ is_listed s }
{
    if let Shape::Call { m, .. } = s {
        m.wide
    } else {
        true
    }
}

// The line of the instruction that `bytes` begin with; `end` is the address behind it, `to` the operand of the second pair
// of MOV M,M.
pub fn instruction_line(bytes: &[u8], end: u32, s: Shape, to: Memory) -> Line
    ensures { (text_in result ≡ instruction_line bytes.now end s to) × (result.len ≡ length (text_in result)) }
{
    let places = forms::slots_of(s, to);
    let mut line = Line::new();
    line.push_all(mnemonics::mnemonic(s));
    line.push_all(forms::operand(32, bytes, end, places.first));
    line.push_all(forms::operand(44, bytes, end, places.second));
    line.push_all(forms::operand(44, bytes, end, places.third));
    line.push(10);
    line
}

// The first five of some bytes, or all of them.
fn first_five(bytes: &[u8]) -> &[u8]
    ensures { result.now ≡ take 5 bytes.now }
{
    if bytes.len() < 5 { bytes } else { &bytes[..5] }
}

// The DB line of the first five of some bytes.
pub fn data_line(bytes: &[u8]) -> Line
    ensures { (text_in result ≡ data_line (take 5 bytes.now)) × (result.len ≡ length (text_in result)) }
{
    let mut line = Line::new();
    line.push(0x4244);
    let mut separator: u64 = 32;
    for b in first_five(bytes) {
        line.push(separator);
        line.push(pieces::byte_number(*b));
        separator = 44;
    }
    line.push(10);
    line
}
