// The rows of the instruction summary, one function for those that differ only in their work.
ghost use Rattle.std.specs.Prelude.{◌≡◌, true, false, ◌&&◌};
ghost use Rattle.instruction_rules.specs.Pairs.{columns, wide_of, two_of};
ghost use Rattle.instruction_rules.specs.Pairs.Column.{'0, '1, '00, '10, '11, '000, '001, '100, 'RRR, 'PPP, 'BBB, 'dd, 'wb, 'AA, 'W, 'MM};
ghost use Rattle.instruction_rules.specs.Rows.{reading, is_control};
ghost use Rattle.instruction_rules.specs.declared.Shape.TheVariants.{Hlt, Lpdi, RegisterImmediate, Register, JumpRegister, RegisterMemory, MemoryRegister, MemoryImmediate, MemoryAlone, JumpMemory, MovMemory, Tsl, Call, JumpMasked, JumpBit, Bit};

use crate::pairs;
use instruction_rules::{Decoded, Memory, Pair, Shape, Single, Unread, Work};

// The answer of a row, by whether its columns are met and whether it uses CC.
pub fn answer(met: bool, control: bool, shape: Shape) -> Decoded
    ensures { result ≡ reading met control shape }
{
    if !met {
        return Err(Unread::NoInstruction);
    }
    if control {
        return Err(Unread::ControlUsed);
    }
    Ok(shape)
}

// LPDI.
pub fn lpdi(p: Pair) -> Decoded
    ensures { result ≡ reading (columns 'PPP '10 '00 '1 '00 p) false (Lpdi p.rrr) }
{
    answer(
        pairs::pointer(p.rrr) & ((p.mm == 0) & ((p.aa == 0) & ((p.w == 1) & (p.dd == 2)))),
        false,
        Shape::Lpdi { ppp: p.rrr },
    )
}

// ADDI, ORI, ANDI and MOVI to a register.
pub fn register_immediate(work: Work, control: bool, p: Pair) -> Decoded
    ensures { result ≡ reading (columns 'RRR 'wb '00 'W '00 p) (control && is_control p) (RegisterImmediate work p.rrr (wide_of p)) }
{
    answer(
        (p.mm == 0) & ((p.aa == 0) & pairs::immediate(p.dd, p.w)),
        control & (p.rrr == 6),
        Shape::RegisterImmediate {
            work,
            rrr: p.rrr,
            wide: p.w == 1,
        },
    )
}

// NOT, INC and DEC of a register.
pub fn register(single: Single, p: Pair) -> Decoded
    ensures { result ≡ reading (columns 'RRR '00 '00 '0 '00 p) (is_control p) (Register single p.rrr) }
{
    answer(
        pairs::bare(p),
        p.rrr == 6,
        Shape::Register { single, rrr: p.rrr },
    )
}

// JZ and JNZ on a register.
pub fn jump_register(zero: bool, p: Pair) -> Decoded
    ensures { result ≡ reading (columns 'RRR 'dd '00 '0 '00 p) (is_control p) (JumpRegister zero p.rrr (two_of p)) }
{
    answer(
        (p.mm == 0) & ((p.aa == 0) & ((p.w == 0) & pairs::displacement(p.dd))),
        p.rrr == 6,
        Shape::JumpRegister {
            zero,
            rrr: p.rrr,
            two: p.dd == 2,
        },
    )
}

// HLT.
pub fn halt(p: Pair) -> Decoded
    ensures { result ≡ reading (columns '001 '00 '00 '0 '00 p) false Hlt }
{
    answer((p.rrr == 1) & pairs::bare(p), false, Shape::Hlt)
}

// MOV, ADD, OR, AND and NOT to a register from memory.
pub fn register_memory(work: Work, control: bool, p: Pair, m: Memory) -> Decoded
    ensures { result ≡ reading (columns 'RRR '00 'AA 'W 'MM p) (control && is_control p) (RegisterMemory work p.rrr m) }
{
    answer(
        p.dd == 0,
        control & (p.rrr == 6),
        Shape::RegisterMemory {
            work,
            rrr: p.rrr,
            m,
        },
    )
}

// MOV, ADD, OR and AND to memory from a register.
pub fn memory_register(work: Work, control: bool, p: Pair, m: Memory) -> Decoded
    ensures { result ≡ reading (columns 'RRR '00 'AA 'W 'MM p) (control && is_control p) (MemoryRegister work p.rrr m) }
{
    answer(
        p.dd == 0,
        control & (p.rrr == 6),
        Shape::MemoryRegister {
            work,
            rrr: p.rrr,
            m,
        },
    )
}

// MOVI, ADDI, ORI and ANDI to memory.
pub fn memory_immediate(work: Work, p: Pair, m: Memory) -> Decoded
    ensures { result ≡ reading (columns '000 'wb 'AA 'W 'MM p) false (MemoryImmediate work m) }
{
    answer(
        (p.rrr == 0) & pairs::immediate(p.dd, p.w),
        false,
        Shape::MemoryImmediate { work, m },
    )
}

// NOT, INC and DEC of memory.
pub fn memory_alone(single: Single, p: Pair, m: Memory) -> Decoded
    ensures { result ≡ reading (columns '000 '00 'AA 'W 'MM p) false (MemoryAlone single m) }
{
    answer(
        (p.rrr == 0) & (p.dd == 0),
        false,
        Shape::MemoryAlone { single, m },
    )
}

// JZ and JNZ on memory.
pub fn jump_memory(zero: bool, p: Pair, m: Memory) -> Decoded
    ensures { result ≡ reading (columns '000 'dd 'AA 'W 'MM p) false (JumpMemory zero m (two_of p)) }
{
    answer(
        (p.rrr == 0) & pairs::displacement(p.dd),
        false,
        Shape::JumpMemory {
            zero,
            m,
            two: p.dd == 2,
        },
    )
}

// LPD and MOVP, of which the shape is given.
pub fn pointer_memory(p: Pair, shape: Shape) -> Decoded
    ensures { result ≡ reading (columns 'PPP '00 'AA '1 'MM p) false shape }
{
    answer(
        pairs::pointer(p.rrr) & ((p.w == 1) & (p.dd == 0)),
        false,
        shape,
    )
}

// MOV M,M, its first pair.
pub fn mov_memory(p: Pair, m: Memory) -> Decoded
    ensures { result ≡ reading (columns '000 '00 'AA 'W 'MM p) false (MovMemory m) }
{
    answer((p.rrr == 0) & (p.dd == 0), false, Shape::MovMemory { m })
}

// TSL.
pub fn tsl(p: Pair, m: Memory) -> Decoded
    ensures { result ≡ reading (columns '000 '11 'AA '0 'MM p) false (Tsl m) }
{
    answer(
        (p.rrr == 0) & ((p.w == 0) & (p.dd == 3)),
        false,
        Shape::Tsl { m },
    )
}

// CALL.
pub fn call(p: Pair, m: Memory) -> Decoded
    ensures { result ≡ reading (columns '100 'dd 'AA 'W 'MM p) false (Call m (two_of p)) }
{
    answer(
        (p.rrr == 4) & pairs::displacement(p.dd),
        false,
        Shape::Call { m, two: p.dd == 2 },
    )
}

// JMCE and JMCNE.
pub fn jump_masked(equal: bool, p: Pair, m: Memory) -> Decoded
    ensures { result ≡ reading (columns '000 'dd 'AA '0 'MM p) false (JumpMasked equal m (two_of p)) }
{
    answer(
        (p.rrr == 0) & ((p.w == 0) & pairs::displacement(p.dd)),
        false,
        Shape::JumpMasked {
            equal,
            m,
            two: p.dd == 2,
        },
    )
}

// JBT and JNBT.
pub fn jump_bit(set: bool, p: Pair, m: Memory) -> Decoded
    ensures { result ≡ reading (columns 'BBB 'dd 'AA '0 'MM p) false (JumpBit set p.rrr m (two_of p)) }
{
    answer(
        (p.w == 0) & pairs::displacement(p.dd),
        false,
        Shape::JumpBit {
            set,
            bit: p.rrr,
            m,
            two: p.dd == 2,
        },
    )
}

// SETB and CLR.
pub fn bit(on: bool, p: Pair, m: Memory) -> Decoded
    ensures { result ≡ reading (columns 'BBB '00 'AA '0 'MM p) false (Bit on p.rrr m) }
{
    answer(
        (p.w == 0) & (p.dd == 0),
        false,
        Shape::Bit { on, bit: p.rrr, m },
    )
}
