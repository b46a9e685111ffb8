// What stands at a place of the program bytes, and a reader that keeps its place.
ghost use Rattle.std.specs.Prelude.{◌≡◌, ◌+◌, ◌^◌, ◌<◌, ◌≤◌, ltb, length, drop};
ghost use Rattle.decode.specs.Cells.{cell_of};
ghost use Rattle.instruction_rules.specs.Lengths.{offset_length};
ghost use Rattle.instruction_rules.specs.declared.Shape.TheVariants.{MovMemory};
ghost use Rattle.listing_rules.specs.Items.{to_of, whole_of, item_of, count_of};

use instruction_rules::{Memory, Shape};
use listing_rules::Item;

// The opcodes that no instruction has, a bit for each.
const UNUSED: u64 = 0x90080000FFF020FA;

// Whether no instruction has the opcode in the second byte of a pair: told without the table, since data has many such.
fn unused(second: u8) -> bool
    ensures { result ≡ ltb (cell_of second) 16 }
{
    let opcode = (second / 4) as u32;
    (UNUSED >> opcode) % 2 == 1
}

// MOV M,M from a first operand, if its second pair is one and all its bytes are there.
fn mov_memory(bytes: &[u8], m: Memory) -> Item
    requires { 4 + offset_length m ≤ length bytes.now }
    ensures { result ≡ whole_of bytes.now (MovMemory m) (to_of bytes.now (MovMemory m)) }
{
    let offset = decode::offset_length(m);
    let i = offset as usize;
    let Some(to) = decode::decode_second(bytes[2 + i], bytes[3 + i], m.wide) else {
        return Item::Byte;
    };
    let length = 4 + offset + decode::offset_length(to);
    if bytes.len() < length as usize {
        return Item::Byte;
    }
    Item::Whole {
        shape: Shape::MovMemory { m },
        to,
        length,
    }
}

// What some bytes begin with.
fn item_of(bytes: &[u8]) -> Item
    ensures { result ≡ item_of bytes.now }
{
    if bytes.len() < 2 {
        if bytes.len() == 0 {
            return Item::End;
        }
        return Item::Byte;
    }
    if unused(bytes[1]) {
        return Item::Byte;
    }
    let looked = decode::look_up(bytes[0], bytes[1]);
    let decoded = looked.decoded;
    let Ok(shape) = decoded else {
        return Item::Byte;
    };
    let length = looked.length;
    if bytes.len() < length as usize {
        return Item::Byte;
    }
    if let Shape::MovMemory { m } = shape {
        return mov_memory(bytes, m);
    }
    let to = Memory {
        mm: 0,
        aa: 0,
        wide: false,
    };
    Item::Whole { shape, to, length }
}

// What stands at a position of the program bytes.
fn item_at(code: &[u8], at: usize) -> Item
    ensures value { result ≡ item_of (drop at code.now) }
    ensures place { at + count_of result < 2 ^ 64 }
{
    if code.len() < at {
        return Item::End;
    }
    item_of(&code[at..])
}

// A reader over the program bytes: it keeps its place, and hands out one instruction at a time.
#[derive(Clone, Copy)]
pub struct Reader<'a> {
    pub code: &'a [u8],
    pub at: usize,
}

impl<'a> Reader<'a> {
    // A reader at a position.
    pub fn new(code: &'a [u8], at: usize) -> Reader<'a>
        ensures { (result.code ≡ code.entry) × (result.at ≡ at) }
    {
        Reader { code, at }
    }
}

impl Iterator for Reader<'_> {
    ghost use Rattle.std.specs.Prelude.{◌-◌};
    ghost use Rattle.std.specs.Iterator.{at_most};
    ghost use Rattle.lister.specs.Readers.{HandsOut};

    type Item = Item;

    ghost next_gives = { HandsOut };

    ghost remaining = { λ reader. at_most (length reader.code.now - reader.at) };

    fn next(&mut self) -> Option<Item> {
        let item = item_at(self.code, self.at);
        match item {
            Item::Whole { length, .. } => {
                self.at += length as usize;
                Some(item)
            }
            Item::Byte => {
                self.at += 1;
                Some(item)
            }
            Item::End => None,
        }
    }
}

// What a reader at a position hands out first, for callers with the bytes and a number.
pub fn read_at(code: &[u8], at: usize) -> Item
    ensures value { result ≡ item_of (drop at code.now) }
    ensures place { at + count_of result < 2 ^ 64 }
{
    let mut reader = Reader::new(code, at);
    reader.next().unwrap_or(Item::End)
}
