// Instructions whose result goes into a register.
ghost use Rattle.std.specs.Prelude.{◌≡◌, ℕ};
ghost use Rattle.ground_rules.specs.Buffers.{Buffers};
ghost use Rattle.ground_rules.specs.declared.Channel.{Channel};
ghost use Rattle.instruction_rules.specs.declared.Shape.TheVariants.{Lpdi, RegisterImmediate, Register, RegisterMemory, Lpd, MovpLoad};
ghost use Rattle.execute.specs.Writes.{write_to};
ghost use Rattle.execute.specs.Effects.{writing, Works};

use crate::{Effect, Finding, Write, operands};
use instruction_rules::{Memory, Single, Work};

// What writes a register, having read some bytes of its operand: RRR, its value, and its tag where it is a pointer.
fn writes(f: Finding, ix: u16, reads: u32, rrr: u32, value: u32, tag: bool) -> Effect
    ensures { result ≡ writing f ix reads (write_to rrr value tag) }
{
    Effect {
        reads,
        ix,
        write: Some(Write { rrr, value, tag }),
        ..Effect::past(f)
    }
}

// ADDI, ORI, ANDI and MOVI to a register: a move sets the tag of a pointer, other work keeps it.
pub fn register_immediate(f: Finding, work: Work, rrr: u32, wide: bool) -> Effect
    ensures { (busy : ℕ) (m : Buffers) (c : Channel) → Works (RegisterImmediate work rrr wide) busy f m c result }
{
    let v = operands::work(work, f.value, operands::operand_in(f.behind, wide));
    writes(f, f.ix, 0, rrr, v, operands::is_move(work) | f.tag)
}

// NOT, INC and DEC of a register.
pub fn register(f: Finding, single: Single, rrr: u32) -> Effect
    ensures { (busy : ℕ) (m : Buffers) (c : Channel) → Works (Register single rrr) busy f m c result }
{
    writes(f, f.ix, 0, rrr, operands::single(single, f.value), f.tag)
}

// MOV, ADD, OR, AND and NOT to a register from memory.
pub fn register_memory(f: Finding, work: Work, rrr: u32, o: Memory) -> Effect
    ensures { (busy : ℕ) (m : Buffers) (c : Channel) → Works (RegisterMemory work rrr o) busy f m c result }
{
    let v = operands::work(work, f.value, operands::operand_in(f.operand, o.wide));
    writes(
        f,
        operands::grown_by_width(o, f.ix),
        operands::size(o.wide),
        rrr,
        v,
        operands::is_move(work) | f.tag,
    )
}

// LPDI.
pub fn lpdi(f: Finding, ppp: u32) -> Effect
    ensures { (busy : ℕ) (m : Buffers) (c : Channel) → Works (Lpdi ppp) busy f m c result }
{
    let v = words::address((f.behind % 65536) as u16, (f.behind / 65536) as u16);
    writes(f, f.ix, 0, ppp, v, false)
}

// LPD.
pub fn lpd(f: Finding, ppp: u32, o: Memory) -> Effect
    ensures { (busy : ℕ) (m : Buffers) (c : Channel) → Works (Lpd ppp o) busy f m c result }
{
    let v = words::address((f.operand % 65536) as u16, (f.operand / 65536) as u16);
    writes(f, operands::grown_ix(o, f.ix, 4), 4, ppp, v, false)
}

// MOVP to a pointer.
pub fn movp_load(f: Finding, ppp: u32, o: Memory) -> Effect
    ensures { (busy : ℕ) (m : Buffers) (c : Channel) → Works (MovpLoad ppp o) busy f m c result }
{
    let low = (f.operand % 256) as u8;
    let middle = (f.operand / 256 % 256) as u8;
    let high = (f.operand / 65536 % 256) as u8;
    writes(
        f,
        operands::grown_ix(o, f.ix, 3),
        3,
        ppp,
        words::stored_address(low, middle, high),
        words::stored_tag(high),
    )
}
