// Instructions that jump.
ghost use Rattle.std.specs.Prelude.{◌≡◌, ℕ};
ghost use Rattle.ground_rules.specs.Buffers.{Buffers};
ghost use Rattle.ground_rules.specs.declared.Channel.{Channel};
ghost use Rattle.instruction_rules.specs.JumpForms as Jumps;
ghost use Rattle.instruction_rules.specs.declared.Shape.TheVariants.{JumpRegister, JumpMemory, JumpMasked, JumpBit, Tsl, Call};
ghost use Rattle.execute.specs.Effects.{leaving, jumping, Works};

use crate::{Effect, Finding, changes, memories, operands};
use instruction_rules::Memory;

// A test, or its opposite.
fn agrees(wanted: bool, found: bool) -> bool
    ensures { result ≡ Jumps.agrees wanted found }
{
    wanted == found
}

// JZ and JNZ on a register.
pub fn jump_register(f: Finding, zero: bool, rrr: u32, two: bool) -> Effect
    ensures { (busy : ℕ) (m : Buffers) (c : Channel) → Works (JumpRegister zero rrr two) busy f m c result }
{
    let taken = agrees(zero, f.value % 65536 == 0);
    Effect {
        tp: operands::led_by(taken, f.tp, f.behind, two),
        ..Effect::past(f)
    }
}

// JZ and JNZ on a memory operand.
pub fn jump_memory(f: Finding, zero: bool, o: Memory, two: bool) -> Effect
    ensures { (busy : ℕ) (m : Buffers) (c : Channel) → Works (JumpMemory zero o two) busy f m c result }
{
    let taken = agrees(zero, operands::operand_in(f.operand, o.wide) == 0);
    Effect {
        reads: operands::size(o.wide),
        tp: operands::led_by(taken, f.tp, f.behind, two),
        ix: operands::grown_by_width(o, f.ix),
        ..Effect::past(f)
    }
}

// A jump on a byte that was tested.
fn jump_byte(f: Finding, taken: bool, o: Memory, two: bool) -> Effect
    ensures { result ≡ jumping f taken o two }
{
    Effect {
        reads: 1,
        tp: operands::led_by(taken, f.tp, f.behind, two),
        ix: operands::grown_ix(o, f.ix, 1),
        ..Effect::past(f)
    }
}

// JMCE and JMCNE.
pub fn jump_masked(f: Finding, equal: bool, o: Memory, two: bool) -> Effect
    ensures { (busy : ℕ) (m : Buffers) (c : Channel) → Works (JumpMasked equal o two) busy f m c result }
{
    let taken = agrees(equal, words::matches((f.operand % 256) as u8, f.mc));
    jump_byte(f, taken, o, two)
}

// JBT and JNBT.
pub fn jump_bit(f: Finding, set: bool, bit: u32, o: Memory, two: bool) -> Effect
    ensures { (busy : ℕ) (m : Buffers) (c : Channel) → Works (JumpBit set bit o two) busy f m c result }
{
    let taken = agrees(set, words::bit(f.operand % 256, bit));
    jump_byte(f, taken, o, two)
}

// TSL: the first of its two data bytes is stored, or the second leads on.
pub fn tsl(f: Finding, o: Memory) -> Effect
    ensures { (busy : ℕ) (m : Buffers) (c : Channel) → Works (Tsl o) busy f m c result }
{
    let ix = operands::grown_ix(o, f.ix, 1);
    if f.operand % 256 == 0 {
        return memories::stores(f, ix, 1, 1, f.behind % 256);
    }
    Effect {
        reads: 1,
        tp: operands::landing_by(f.tp, f.behind / 256, false),
        ix,
        ..Effect::past(f)
    }
}

// CALL.
pub fn call(f: Finding, o: Memory, two: bool) -> Effect
    ensures { (busy : ℕ) (m : Buffers) (c : Channel) → Works (Call o two) busy f m c result }
{
    Effect {
        tp: operands::landing_by(f.tp, f.behind, two),
        ix: operands::grown_ix(o, f.ix, 3),
        count: 3,
        space: f.space,
        address: f.at,
        value: changes::stored_value(f.tp, f.code),
        ..Effect::past(f)
    }
}
