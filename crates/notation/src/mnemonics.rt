// The words of the instructions.
ghost use Rattle.std.specs.Prelude.{◌≡◌};
ghost use Rattle.ground_rules.specs.Choice.{pick};
ghost use Rattle.listing_rules.specs.Characters.{ascii};
ghost use Rattle.listing_rules.specs.Mnemonics.{long_mark, byte_mark, work_stem, single_stem, is_jump, mnemonic_of};
ghost use Rattle.notation.specs.Writing.{held_in, held_in4};

use crate::pieces::Pieces;
use instruction_rules::{Shape, Single, Work};

// L, where the displacement has two bytes.
fn long_mark(two: bool) -> u64
    ensures { held_in result ≡ long_mark two }
{
    if two { 0x4C } else { 0 }
}

// B, where the operand is a byte.
fn byte_mark(wide: bool) -> u64
    ensures { held_in result ≡ byte_mark wide }
{
    if wide { 0 } else { 0x42 }
}

// MOV, ADD, OR, AND or NOT.
fn work_stem(work: Work) -> u64
    ensures { held_in result ≡ work_stem work }
{
    match work {
        Work::Mov => 0x564F4D,
        Work::Add => 0x444441,
        Work::Or => 0x524F,
        Work::And => 0x444E41,
        Work::Not => 0x544F4E,
    }
}

// NOT, INC or DEC.
fn single_stem(single: Single) -> u64
    ensures { held_in result ≡ single_stem single }
{
    match single {
        Single::Not => 0x544F4E,
        Single::Inc => 0x434E49,
        Single::Dec => 0x434544,
    }
}

// JZ or JNZ.
fn zero_stem(zero: bool) -> u64
    ensures { held_in result ≡ pick zero (ascii "JZ") (ascii "JNZ") }
{
    if zero { 0x5A4A } else { 0x5A4E4A }
}

// Whether an immediate to a register is a jump: ADDI to TP.
pub fn is_jump(work: Work, rrr: u32) -> bool
    ensures { result ≡ is_jump work rrr }
{
    if let Work::Add = work {
        rrr == 4
    } else {
        false
    }
}

// The word of an instruction.
pub fn mnemonic(s: Shape) -> Pieces
    ensures { held_in4 result ≡ mnemonic_of s }
{
    match s {
        Shape::Nop => Pieces(0, 0x504F4E, 0, 0),
        Shape::Sintr => Pieces(0, 0x52_544E4953, 0, 0),
        Shape::Xfer => Pieces(0, 0x52454658, 0, 0),
        Shape::Wid { .. } => Pieces(0, 0x444957, 0, 0),
        Shape::Hlt => Pieces(0, 0x544C48, 0, 0),
        Shape::Lpdi { .. } => Pieces(0, 0x4944504C, 0, 0),
        Shape::RegisterImmediate { work, rrr, wide } => {
            if is_jump(work, rrr) {
                Pieces(long_mark(wide), 0x504D4A, 0, 0)
            } else {
                Pieces(0, work_stem(work), byte_mark(wide), 0x49)
            }
        }
        Shape::Register { single, .. } => Pieces(0, single_stem(single), 0, 0),
        Shape::JumpRegister { zero, two, .. } => Pieces(long_mark(two), zero_stem(zero), 0, 0),
        Shape::RegisterMemory { work, m, .. } => Pieces(0, work_stem(work), byte_mark(m.wide), 0),
        Shape::MemoryRegister { work, m, .. } => Pieces(0, work_stem(work), byte_mark(m.wide), 0),
        Shape::MemoryImmediate { work, m } => Pieces(0, work_stem(work), byte_mark(m.wide), 0x49),
        Shape::MemoryAlone { single, m } => Pieces(0, single_stem(single), byte_mark(m.wide), 0),
        Shape::JumpMemory { zero, m, two } => Pieces(
            long_mark(two),
            zero_stem(zero),
            byte_mark(m.wide),
            0,
        ),
        Shape::Lpd { .. } => Pieces(0, 0x44504C, 0, 0),
        Shape::MovpLoad { .. } => Pieces(0, 0x50564F4D, 0, 0),
        Shape::MovpStore { .. } => Pieces(0, 0x50564F4D, 0, 0),
        Shape::MovMemory { m } => Pieces(0, 0x564F4D, byte_mark(m.wide), 0),
        Shape::Tsl { .. } => Pieces(0, 0x4C5354, 0, 0),
        Shape::Call { two, .. } => Pieces(long_mark(two), 0x4C4C4143, 0, 0),
        Shape::JumpMasked { equal, two, .. } => Pieces(
            long_mark(two),
            if equal { 0x45434D4A } else { 0x45_4E434D4A },
            0,
            0,
        ),
        Shape::JumpBit { set, two, .. } => Pieces(
            long_mark(two),
            if set { 0x54424A } else { 0x54424E4A },
            0,
            0,
        ),
        Shape::Bit { on, .. } => Pieces(0, if on { 0x42544553 } else { 0x524C43 }, 0, 0),
    }
}
