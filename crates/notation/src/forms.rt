// The places of an instruction's operands, and the characters that its bytes put there.
ghost use Rattle.std.specs.Prelude.{◌≡◌, [], ◌∷◌, eqb, get_or};
ghost use Rattle.ground_rules.specs.Choice.{pick};
ghost use Rattle.listing_rules.specs.Characters.{number_text};
ghost use Rattle.listing_rules.specs.Mnemonics.{is_jump};
ghost use Rattle.listing_rules.specs.declared.Slot.TheVariants.{Empty, Name, Number, Target};
ghost use Rattle.listing_rules.specs.Forms.{width_of, after_offset, slots, slots_of, data_from, reach_from, target_of, word_bytes, filled, register_name, base_name, mode_text, offset_text, following};
ghost use Rattle.notation.specs.Writing.{held_in, held_in4};

use crate::pieces::Pieces;
use crate::{mnemonics, pieces};
use instruction_rules::{Memory, Shape, Work};
use listing_rules::{Slot, Slots};

// The width of a side.
fn width(wide: bool) -> u32
    ensures { result ≡ width_of wide }
{
    if wide { 16 } else { 8 }
}

// Where the bytes behind a pair and its offset byte lie.
fn after_offset(m: Memory) -> u32
    ensures { result ≡ after_offset m }
{
    2 + decode::offset_length(m)
}

// No operand. This and the next two stand here, since the room that declares `Slots` holds no function.
fn bare() -> Slots
    ensures { result ≡ slots Empty Empty Empty }
{
    Slots {
        first: Slot::Empty,
        second: Slot::Empty,
        third: Slot::Empty,
    }
}

// One operand.
fn alone(a: Slot) -> Slots
    ensures { result ≡ slots a Empty Empty }
{
    Slots {
        first: a,
        second: Slot::Empty,
        third: Slot::Empty,
    }
}

// Two operands.
fn both(a: Slot, b: Slot) -> Slots
    ensures { result ≡ slots a b Empty }
{
    Slots {
        first: a,
        second: b,
        third: Slot::Empty,
    }
}

// The target of a jump behind a memory operand.
fn jump(m: Memory, two: bool) -> Slot
    ensures { result ≡ Target (after_offset m) two }
{
    Slot::Target(after_offset(m), two)
}

// An immediate to a register, or a jump.
fn immediate(work: Work, rrr: u32, wide: bool) -> Slots
    ensures { result ≡ pick (is_jump work rrr) (slots (Target 2 wide) Empty Empty) (slots (Name rrr) (Number 2 wide) Empty) }
{
    if mnemonics::is_jump(work, rrr) {
        alone(Slot::Target(2, wide))
    } else {
        both(Slot::Name(rrr), Slot::Number(2, wide))
    }
}

// The places of an instruction's operands.
pub fn slots_of(s: Shape, to: Memory) -> Slots
    ensures { result ≡ slots_of s to }
{
    match s {
        Shape::Nop => bare(),
        Shape::Sintr => bare(),
        Shape::Xfer => bare(),
        Shape::Wid {
            source,
            destination,
        } => both(Slot::Digit(width(source)), Slot::Digit(width(destination))),
        Shape::Hlt => bare(),
        Shape::Lpdi { ppp } => Slots {
            first: Slot::Name(ppp),
            second: Slot::Number(2, true),
            third: Slot::Number(4, true),
        },
        Shape::RegisterImmediate { work, rrr, wide } => immediate(work, rrr, wide),
        Shape::Register { rrr, .. } => alone(Slot::Name(rrr)),
        Shape::JumpRegister { rrr, two, .. } => both(Slot::Name(rrr), Slot::Target(2, two)),
        Shape::RegisterMemory { rrr, m, .. } => both(Slot::Name(rrr), Slot::Place(m, 2)),
        Shape::MemoryRegister { rrr, m, .. } => both(Slot::Place(m, 2), Slot::Name(rrr)),
        Shape::MemoryImmediate { m, .. } => both(
            Slot::Place(m, 2),
            Slot::Number(after_offset(m), m.wide),
        ),
        Shape::MemoryAlone { m, .. } => alone(Slot::Place(m, 2)),
        Shape::JumpMemory { m, two, .. } => both(Slot::Place(m, 2), jump(m, two)),
        Shape::Lpd { ppp, m } => both(Slot::Name(ppp), Slot::Place(m, 2)),
        Shape::MovpLoad { ppp, m } => both(Slot::Name(ppp), Slot::Place(m, 2)),
        Shape::MovpStore { ppp, m } => both(Slot::Place(m, 2), Slot::Name(ppp)),
        Shape::MovMemory { m } => both(Slot::Place(to, after_offset(m) + 2), Slot::Place(m, 2)),
        Shape::Tsl { m } => Slots {
            first: Slot::Place(m, 2),
            second: Slot::Number(after_offset(m), false),
            third: Slot::Target(after_offset(m) + 1, false),
        },
        Shape::Call { m, two } => both(Slot::Place(m, 2), jump(m, two)),
        Shape::JumpMasked { m, two, .. } => both(Slot::Place(m, 2), jump(m, two)),
        Shape::JumpBit { bit, m, two, .. } => Slots {
            first: Slot::Place(m, 2),
            second: Slot::Digit(bit),
            third: jump(m, two),
        },
        Shape::Bit { bit, m, .. } => both(Slot::Place(m, 2), Slot::Digit(bit)),
    }
}

// A byte by its index, 0 beyond the end.
fn byte_at(bytes: &[u8], at: usize) -> u8
    ensures { result ≡ get_or bytes.now at 0 }
{
    if at < bytes.len() { bytes[at] } else { 0 }
}

// GA, GB, GC, BC, TP, IX, CC or MC.
fn register_name(rrr: u32) -> u64
    ensures { held_in result ≡ register_name rrr }
{
    match rrr {
        0 => 0x4147,
        1 => 0x4247,
        2 => 0x4347,
        3 => 0x4342,
        4 => 0x5054,
        5 => 0x5849,
        6 => 0x4343,
        _ => 0x434D,
    }
}

// GA, GB, GC or PP behind an opening bracket.
fn base_name(mm: u32) -> u64
    ensures { held_in result ≡ base_name mm }
{
    match mm {
        0 => 0x41475B,
        1 => 0x42475B,
        2 => 0x43475B,
        _ => 0x50505B,
    }
}

// What stands between a base and an offset byte.
fn mode_text(aa: u32) -> u64
    ensures { held_in result ≡ mode_text aa }
{
    match aa {
        0 => 0x5D,
        1 => 0x2E5D,
        2 => 0x5D58492B,
        _ => 0x5D_2B58492B,
    }
}

// The offset byte of an operand, if it has one.
fn offset(bytes: &[u8], m: Memory, at: u32) -> u64
    ensures { held_in result ≡ offset_text (pick (eqb m.aa 1) (get_or bytes.now at 0 ∷ []) []) }
{
    if m.aa == 1 {
        pieces::byte_number(byte_at(bytes, at as usize))
    } else {
        0
    }
}

// A number of one byte or two.
fn number(bytes: &[u8], at: u32, two: bool) -> u64
    ensures { held_in result ≡ number_text (data_from bytes.now at two) }
{
    let i = at as usize;
    let low = byte_at(bytes, i);
    if two {
        let high = byte_at(bytes, i + 1);
        pieces::word_number(low, high)
    } else {
        pieces::byte_number(low)
    }
}

// A displacement of one byte or two, sign-extended.
fn reach(bytes: &[u8], at: u32, two: bool) -> u32
    ensures { result ≡ reach_from bytes.now at two }
{
    let i = at as usize;
    let low = byte_at(bytes, i);
    if two {
        let high = byte_at(bytes, i + 1);
        words::extend_word(words::word(low, high))
    } else {
        words::extend_byte(low)
    }
}

// The address that a jump goes to.
fn target(bytes: &[u8], end: u32, at: u32, two: bool) -> u64
    ensures { held_in result ≡ number_text (word_bytes (target_of end (reach_from bytes.now at two))) }
{
    let d = reach(bytes, at, two);
    let t = (end % 65536 + d % 65536) % 65536;
    pieces::word_number((t % 256) as u8, (t / 256 % 256) as u8)
}

// An operand behind its separator.
pub(crate) fn operand(separator: u64, bytes: &[u8], end: u32, slot: Slot) -> Pieces
    requires { held_in separator ≡ separator ∷ [] }
    ensures { held_in4 result ≡ following separator (filled bytes.now end slot) }
{
    match slot {
        Slot::Empty => Pieces(0, 0, 0, 0),
        Slot::Name(rrr) => Pieces(separator, register_name(rrr), 0, 0),
        Slot::Place(m, at) => Pieces(
            separator,
            base_name(m.mm),
            mode_text(m.aa),
            offset(bytes, m, at),
        ),
        Slot::Number(at, two) => Pieces(separator, number(bytes, at, two), 0, 0),
        Slot::Target(at, two) => Pieces(separator, target(bytes, end, at, two), 0, 0),
        Slot::Digit(n) => Pieces(separator, pieces::digit(n), 0, 0),
    }
}
