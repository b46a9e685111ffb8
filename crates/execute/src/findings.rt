// What an instruction finds before it is worked out: what its shape names, its operand, its data and its register, each
// read once.
ghost use Rattle.std.specs.Prelude.{◌≡◌, ℕ, ◌/◌, ◌%◌, true, false, ◌==◌};
ghost use Rattle.ground_rules.specs.Buffers.{lent, Buffers, AllBytes};
ghost use Rattle.ground_rules.specs.Choice.{pick};
ghost use Rattle.ground_rules.specs.Registers.{register_of};
ghost use Rattle.ground_rules.specs.declared.Pointer.{Pointer};
ghost use Rattle.instruction_rules.specs.Marks.{past_instruction};
ghost use Rattle.ground_rules.specs.Sums as Sums;
ghost use Rattle.execute.specs.Bytes.{four_at, eight_at};
ghost use Rattle.execute.specs.Findings.{naming_both, naming_one, naming_of, behind_at, place_named, finding_of};

use crate::{Finding, Naming, operands, windows};
use ground_rules::{Channel, Pointer};
use instruction_rules::{Memory, Shape};

// A memory operand, and the register that is read besides.
fn with_memory(rrr: u32, m: Memory) -> Naming
    ensures { result ≡ naming_both rrr m }
{
    Naming {
        memory: true,
        mm: m.mm,
        aa: m.aa,
        rrr,
    }
}

// A register alone; of a shape that reads none it is MC.
fn without_memory(rrr: u32) -> Naming
    ensures { result ≡ naming_one rrr }
{
    Naming {
        memory: false,
        mm: 3,
        aa: 0,
        rrr,
    }
}

// What a shape names.
fn named(shape: Shape) -> Naming
    ensures { result ≡ naming_of shape }
{
    match shape {
        Shape::Nop => without_memory(7),
        Shape::Sintr => without_memory(7),
        Shape::Xfer => without_memory(7),
        Shape::Wid {
            source,
            destination,
        } => without_memory(7),
        Shape::Hlt => without_memory(7),
        Shape::Lpdi { ppp } => without_memory(7),
        Shape::RegisterImmediate { work, rrr, wide } => without_memory(rrr),
        Shape::Register { single, rrr } => without_memory(rrr),
        Shape::JumpRegister { zero, rrr, two } => without_memory(rrr),
        Shape::RegisterMemory { work, rrr, m } => with_memory(rrr, m),
        Shape::MemoryRegister { work, rrr, m } => with_memory(rrr, m),
        Shape::MemoryImmediate { work, m } => with_memory(7, m),
        Shape::MemoryAlone { single, m } => with_memory(7, m),
        Shape::JumpMemory { zero, m, two } => with_memory(7, m),
        Shape::Lpd { ppp, m } => with_memory(7, m),
        Shape::MovpLoad { ppp, m } => with_memory(7, m),
        Shape::MovpStore { ppp, m } => with_memory(ppp, m),
        Shape::MovMemory { m } => with_memory(7, m),
        Shape::Tsl { m } => with_memory(7, m),
        Shape::Call { m, two } => with_memory(7, m),
        Shape::JumpMasked { equal, m, two } => with_memory(7, m),
        Shape::JumpBit { set, bit, m, two } => with_memory(7, m),
        Shape::Bit { on, bit, m } => with_memory(7, m),
    }
}

// The four bytes behind a pair and its offset byte, from the eight that the pair begins.
fn behind(bytes: u64, aa: u32) -> u32
    ensures { (m : Buffers) (p : Pointer) → AllBytes m → bytes ≡ eight_at m p.tag p.address → result ≡ behind_at m p aa }
{
    if aa == 1 {
        (bytes / 16777216 % 4294967296) as u32
    } else {
        (bytes / 65536 % 4294967296) as u32
    }
}

// The value of a register as an instruction finds it, TP being past it.
fn value(c: Channel, tp: u32, rrr: u32) -> u32
    ensures { (n : ℕ) → tp ≡ Sums.sum20 c.tp.address n → result ≡ register_of (past_instruction c n) rrr }
{
    match rrr {
        0 => c.ga.address,
        1 => c.gb.address,
        2 => c.gc.address,
        3 => c.bc as u32,
        4 => tp,
        5 => c.ix as u32,
        6 => c.cc as u32,
        _ => c.mc as u32,
    }
}

// Where the operand lies that a shape names; where it names none, at 0 of system memory.
fn place(c: Channel, n: Naming, bytes: u64) -> Pointer
    ensures { (m : Buffers) → AllBytes m → bytes ≡ eight_at m c.tp.tag c.tp.address → result ≡ place_named m c n }
{
    if n.memory {
        memory::onward(
            machine::registers::base(c, n.mm),
            operands::added(n.aa, c.ix, (bytes / 65536 % 256) as u32),
        )
    } else {
        Pointer {
            address: 0,
            tag: false,
        }
    }
}

// The four bytes of an operand, 0 where there is none.
fn operand(any: bool, tag: bool, address: u32, sys: &[u8], io: &[u8]) -> u32
    ensures { result ≡ pick any (four_at (lent sys.now io.now) tag address) 0 }
{
    if any {
        windows::four(tag, address, sys, io)
    } else {
        0
    }
}

// What an instruction of `count` bytes finds, `bytes` being the eight that it begins.
pub fn found(shape: Shape, count: u32, c: Channel, bytes: u64, sys: &[u8], io: &[u8]) -> Finding
    requires all_bytes { AllBytes (lent sys.now io.now) }
    requires bytes_value { bytes ≡ eight_at (lent sys.now io.now) c.tp.tag c.tp.address }
    ensures { result ≡ finding_of (lent sys.now io.now) c shape count }
{
    let n = named(shape);
    let tp = words::sum20(c.tp.address, count);
    let p = place(c, n, bytes);
    Finding {
        tp,
        code: c.tp.tag,
        ix: c.ix,
        mc: c.mc,
        psw: operands::used_up(c.armed, c.psw),
        armed: c.armed,
        at: p.address,
        space: p.tag,
        operand: operand(n.memory, p.tag, p.address, sys, io),
        behind: behind(bytes, n.aa),
        value: value(c, tp, n.rrr),
        tag: machine::registers::tag(c, n.rrr),
    }
}
