// Instructions whose result goes into memory.
ghost use Rattle.std.specs.Prelude.{◌≡◌, ℕ, ◌==◌};
ghost use Rattle.ground_rules.specs.Buffers.{lent, Buffers, AllBytes};
ghost use Rattle.ground_rules.specs.Choice.{pick};
ghost use Rattle.instruction_rules.specs.MemoryForms as MemoryForms;
ghost use Rattle.instruction_rules.specs.MemoryForms.{mov_operand_deed};
ghost use Rattle.instruction_rules.specs.Operands.{size_of};
ghost use Rattle.instruction_rules.specs.Lengths.{length_of};
ghost use Rattle.instruction_rules.specs.Marks.{past_instruction};
ghost use Rattle.instruction_rules.specs.declared.Shape.TheVariants.{MemoryRegister, MemoryImmediate, MemoryAlone, MovpStore, MovMemory, Bit};
ghost use Rattle.execute.specs.Bytes.{operand_of_four, grown_ix};
ghost use Rattle.execute.specs.Findings.{finding_of};
ghost use Rattle.execute.specs.Effects.{storing_there, work_stored, DoesOr, Works, WorksOr};

use crate::{Effect, Finding, changes, operands};
use ground_rules::{Channel, Refusal};
use instruction_rules::{Memory, Single, Work};

// The bytes that work reads of a memory operand.
fn read_first(work: Work, wide: bool) -> u32
    ensures { result ≡ MemoryForms.read_first work wide }
{
    if operands::is_move(work) {
        0
    } else {
        operands::size(wide)
    }
}

// What stores some bytes of a value where its operand lies, having read some there.
pub fn stores(f: Finding, ix: u16, reads: u32, count: u32, value: u32) -> Effect
    ensures { result ≡ storing_there f ix reads count value }
{
    Effect {
        reads,
        ix,
        count,
        space: f.space,
        address: f.at,
        value,
        ..Effect::past(f)
    }
}

// What the work of a memory operand and another value stores back.
fn worked_back(f: Finding, work: Work, o: Memory, v: u32) -> Effect
    ensures { result ≡ work_stored f work o v }
{
    let w = operands::work(work, operands::operand_in(f.operand, o.wide), v);
    stores(
        f,
        operands::grown_by_width(o, f.ix),
        read_first(work, o.wide),
        operands::size(o.wide),
        w,
    )
}

// MOV, ADD, OR and AND to memory from a register.
pub fn memory_register(f: Finding, work: Work, rrr: u32, o: Memory) -> Effect
    ensures { (busy : ℕ) (m : Buffers) (c : Channel) → Works (MemoryRegister work rrr o) busy f m c result }
{
    worked_back(f, work, o, f.value)
}

// MOVI, ADDI, ORI and ANDI to memory.
pub fn memory_immediate(f: Finding, work: Work, o: Memory) -> Effect
    ensures { (busy : ℕ) (m : Buffers) (c : Channel) → Works (MemoryImmediate work o) busy f m c result }
{
    worked_back(f, work, o, operands::operand_in(f.behind, o.wide))
}

// NOT, INC and DEC of a memory operand.
pub fn memory_alone(f: Finding, single: Single, o: Memory) -> Effect
    ensures { (busy : ℕ) (m : Buffers) (c : Channel) → Works (MemoryAlone single o) busy f m c result }
{
    let w = operands::single(single, operands::operand_in(f.operand, o.wide));
    let size = operands::size(o.wide);
    stores(f, operands::grown_by_width(o, f.ix), size, size, w)
}

// MOVP from a pointer.
pub fn movp_store(f: Finding, ppp: u32, o: Memory) -> Effect
    ensures { (busy : ℕ) (m : Buffers) (c : Channel) → Works (MovpStore ppp o) busy f m c result }
{
    stores(
        f,
        operands::grown_ix(o, f.ix, 3),
        0,
        3,
        changes::stored_value(f.value, f.tag),
    )
}

// SETB and CLR.
pub fn bit(f: Finding, on: bool, bit: u32, o: Memory) -> Effect
    ensures { (busy : ℕ) (m : Buffers) (c : Channel) → Works (Bit on bit o) busy f m c result }
{
    let v = words::with_bit(f.operand % 256, bit, on);
    stores(f, operands::grown_ix(o, f.ix, 1), 1, 1, v)
}

// MOV M,M, its second operand read; the offset byte of that stands where TP is past the instruction.
fn mov_operand(
    f: Finding,
    c: Channel,
    o: Memory,
    q: Memory,
    sys: &[u8],
    io: &[u8],
) -> Result<Effect, Refusal>
    ensures { AllBytes (lent sys.now io.now) → f ≡ finding_of (lent sys.now io.now) c (MovMemory o) (length_of (MovMemory o)) → DoesOr (lent sys.now io.now) c f (mov_operand_deed (lent sys.now io.now) (past_instruction c (length_of (MovMemory o))) c.tp o q) result }
{
    let ix = operands::grown_by_width(o, f.ix);
    let base = machine::registers::base(c, q.mm);
    let n = decode::offset_length(q);
    if !memory::span_touchable(sys, io, f.code, f.tp, n) {
        return Err(Refusal::BeyondMemory);
    }
    let size = operands::size(o.wide);
    Ok(Effect {
        more: n,
        reads: size,
        tp: words::sum20(f.tp, n),
        ix: operands::grown_by_width(q, ix),
        count: size,
        space: base.tag,
        address: words::sum20(
            base.address,
            operands::added(q.aa, ix, f.behind / 65536 % 256),
        ),
        value: operands::operand_in(f.operand, o.wide),
        ..Effect::past(f)
    })
}

// MOV M,M.
pub fn mov_memory(
    f: Finding,
    c: Channel,
    o: Memory,
    sys: &[u8],
    io: &[u8],
) -> Result<Effect, Refusal>
    ensures { (busy : ℕ) → WorksOr (MovMemory o) busy f (lent sys.now io.now) c result }
{
    let second = decode::decode_second(
        (f.behind % 256) as u8,
        (f.behind / 256 % 256) as u8,
        o.wide,
    );
    let Some(q) = second else {
        return Err(decode::second_refusal());
    };
    mov_operand(f, c, o, q, sys, io)
}
