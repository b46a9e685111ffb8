// One instruction of a channel: fetched, decoded, worked out in numbers, and its one store and its one register write made
// last.
#![tactic(auto)]

ghost use Rattle.std.specs.Prelude.{◌≡◌, true};
ghost use Rattle.ground_rules.specs.Buffers.{lent, AllBytes};
ghost use Rattle.ground_rules.specs.Choice.{pick};
ghost use Rattle.ground_rules.specs.Outcomes.{first, unless};
ghost use Rattle.ground_rules.specs.Places.{span, all_touchable};
ghost use Rattle.ground_rules.specs.declared.Mode.TheVariants.{Idle};
ghost use Rattle.execute.specs.Bytes.{eight_at};
ghost use Rattle.execute.specs.Answers.{executed_by};
ghost use Rattle.execute.specs.Effects.{going_past, channel_worked, WorksOr, Planned};
ghost use Rattle.ground_rules.specs.Refusals.{number_of, done_count};
ghost use Rattle.instruction_rules.specs.Lengths.{length_of};
ghost use Rattle.instruction_rules.specs.Operands.{bytes_at};
ghost use Rattle.instruction_rules.specs.Reading.{decoded_number};
ghost use Rattle.instruction_rules.specs.Execute.{decoded_at, deed_of, length_from, execute_of, execute_count};
ghost use Rattle.execute.specs.Plan.{later_number, plan_number};
ghost use Rattle.instruction_rules.specs.Kept.{deed_at};

use ground_rules::{Channel, Done, Mode, Pointer, Refusal};
use instruction_rules::{Shape, Unread};

// Places, the operands that lie there, and what the instructions work out of them.
pub mod operands;
// The bytes at a place as one number.
mod windows;
// What an instruction finds: what its shape names, its operand, its data and its register.
mod findings;
// What an instruction stores.
mod changes;
// NOP, SINTR, XFER, WID and HLT.
mod control;
// Results that go into a register.
mod registers;
// Results that go into memory.
mod memories;
// Instructions that jump.
mod jumps;

// The register that an instruction writes: which by RRR, its value, and the tag where it is a pointer.
#[derive(Clone, Copy)]
pub struct Write {
    pub rrr: u32,
    pub value: u32,
    pub tag: bool,
}

// Eight bytes as one number, the lowest first, and whether all of them are lent; they are read where they are not, too, so
// that this is no Option.
#[derive(Clone, Copy)]
pub struct Window {
    pub bytes: u64,
    pub near: bool,
}

// What a shape names: whether it has a memory operand, MM and AA of that, and the register that it reads. An Option of the
// operand in the place of the flag takes 176.0 instructions a step of two in turn, in the place of 170.5.
#[derive(Clone, Copy)]
pub struct Naming {
    pub memory: bool,
    pub mm: u32,
    pub aa: u32,
    pub rrr: u32,
}

// What an instruction finds: TP past it and TP's tag, IX, MC, PSW with the mark used up, whether there was one; its operand's
// address and tag, the four bytes there and the four behind its pair and offset byte; its register and that one's tag.
#[derive(Clone, Copy)]
pub struct Finding {
    pub tp: u32,
    pub code: bool,
    pub ix: u16,
    pub mc: u16,
    pub psw: u8,
    pub armed: bool,
    pub at: u32,
    pub space: bool,
    pub operand: u32,
    pub behind: u32,
    pub value: u32,
    pub tag: bool,
}

// What an instruction does, in numbers: how many bytes it reads of its operand, and how many besides; TP, IX, PSW, whether
// it halts and the mark after it; the register that it writes, if any; and how many bytes it stores, where, and of which
// value.
#[derive(Clone, Copy)]
pub struct Effect {
    pub more: u32,
    pub reads: u32,
    pub tp: u32,
    pub ix: u16,
    pub psw: u8,
    pub halts: bool,
    pub armed: bool,
    pub write: Option<Write>,
    pub count: u32,
    pub space: bool,
    pub address: u32,
    pub value: u32,
}

impl Effect {
    // What goes past the instruction and does nothing else.
    pub fn past(f: Finding) -> Effect
        ensures { result ≡ going_past f }
    {
        Effect {
            more: 0,
            reads: 0,
            tp: f.tp,
            ix: f.ix,
            psw: f.psw,
            halts: false,
            armed: false,
            write: None,
            count: 0,
            space: false,
            address: 0,
            value: 0,
        }
    }
}

// What an instruction of some shape does with what it finds; only MOV M,M, with a pair of its own, can be refused here.
fn perform(
    shape: Shape,
    f: Finding,
    c: Channel,
    busy: u32,
    sys: &[u8],
    io: &[u8],
) -> Result<Effect, Refusal>
    ensures { WorksOr shape busy f (lent sys.now io.now) c result }
{
    let effect = match shape {
        Shape::Nop => control::nop(f),
        Shape::Sintr => control::sintr(f),
        Shape::Xfer => control::xfer(f),
        Shape::Wid {
            source,
            destination,
        } => control::wid(f, source, destination),
        Shape::Hlt => control::hlt(f, busy),
        Shape::Lpdi { ppp } => registers::lpdi(f, ppp),
        Shape::RegisterImmediate { work, rrr, wide } => registers::register_immediate(
            f, work, rrr, wide,
        ),
        Shape::Register { single, rrr } => registers::register(f, single, rrr),
        Shape::JumpRegister { zero, rrr, two } => jumps::jump_register(f, zero, rrr, two),
        Shape::RegisterMemory { work, rrr, m } => registers::register_memory(f, work, rrr, m),
        Shape::MemoryRegister { work, rrr, m } => memories::memory_register(f, work, rrr, m),
        Shape::MemoryImmediate { work, m } => memories::memory_immediate(f, work, m),
        Shape::MemoryAlone { single, m } => memories::memory_alone(f, single, m),
        Shape::JumpMemory { zero, m, two } => jumps::jump_memory(f, zero, m, two),
        Shape::Lpd { ppp, m } => registers::lpd(f, ppp, m),
        Shape::MovpLoad { ppp, m } => registers::movp_load(f, ppp, m),
        Shape::MovpStore { ppp, m } => memories::movp_store(f, ppp, m),
        Shape::MovMemory { m } => memories::mov_memory(f, c, m, sys, io)?,
        Shape::Tsl { m } => jumps::tsl(f, m),
        Shape::Call { m, two } => jumps::call(f, m, two),
        Shape::JumpMasked { equal, m, two } => jumps::jump_masked(f, equal, m, two),
        Shape::JumpBit { set, bit, m, two } => jumps::jump_bit(f, set, bit, m, two),
        Shape::Bit { on, bit, m } => memories::bit(f, on, bit, m),
    };
    Ok(effect)
}

// Whether `count` bytes at a place may be touched, of which eight are known to be lent where they are near.
fn own_touchable(near: bool, tag: bool, address: u32, count: u32, sys: &[u8], io: &[u8]) -> bool
    requires { near ≡ true → all_touchable (lent sys.now io.now) (span tag address count) ≡ true }
    ensures { result ≡ all_touchable (lent sys.now io.now) (span tag address count) }
{
    if near {
        return true;
    }
    memory::span_touchable(sys, io, tag, address, count)
}

// An instruction of a channel that was decoded and has `count` bytes, worked out and neither stored nor written; its own
// bytes, which begin the window, are among those that are read.
fn shaped(
    shape: Shape,
    count: u32,
    c: Channel,
    w: Window,
    busy: u32,
    sys: &[u8],
    io: &[u8],
) -> Result<Effect, Refusal>
    requires count_value { count ≡ length_of shape }
    requires all_bytes { AllBytes (lent sys.now io.now) }
    requires bytes_value { w.bytes ≡ eight_at (lent sys.now io.now) c.tp.tag c.tp.address }
    requires count_value_2 { w.near ≡ true → all_touchable (lent sys.now io.now) (span c.tp.tag c.tp.address count) ≡ true }
    ensures { Planned c (first (unless (all_touchable (lent sys.now io.now) (bytes_at c.tp 2)) 2) (later_number (Ok shape) (lent sys.now io.now) c busy)) (length_of shape) (deed_of shape (lent sys.now io.now) c busy) result }
{
    if !own_touchable(w.near, c.tp.tag, c.tp.address, count, sys, io) {
        return Err(Refusal::BeyondMemory);
    }
    let f = findings::found(shape, count, c, w.bytes, sys, io);
    let e = perform(shape, f, c, busy, sys, io)?;
    if !memory::span_touchable(sys, io, f.space, f.at, e.reads) {
        return Err(Refusal::BeyondMemory);
    }
    Ok(Effect {
        // What is done reads at most five bytes.
        reads: std::num::wrapping_add_u32(count, std::num::wrapping_add_u32(e.more, e.reads)),
        ..e
    })
}

// Why what is no instruction is refused: its two bytes may not be touched, or they are none.
fn unshaped(unread: Unread, tp: Pointer, sys: &[u8], io: &[u8]) -> Refusal
    ensures { number_of result ≡ first (unless (all_touchable (lent sys.now io.now) (bytes_at tp 2)) 2) (decoded_number (Err unread)) }
{
    if operands::touchable(tp, 2, sys, io) {
        decode::refusal(unread)
    } else {
        Refusal::BeyondMemory
    }
}

// The next instruction of a channel, worked out and neither stored nor written; BUSY is at `busy` of system memory.
fn plan(c: Channel, busy: u32, sys: &[u8], io: &[u8]) -> Result<Effect, Refusal>
    ensures { Planned c (plan_number (lent sys.now io.now) c busy) (length_from (decoded_at (lent sys.now io.now) c.tp)) (deed_at (lent sys.now io.now) c busy) result }
{
    let w = windows::eight(c.tp.tag, c.tp.address, sys, io);
    let looked = decode::look_up((w.bytes % 256) as u8, (w.bytes / 256 % 256) as u8);
    match looked.decoded {
        Ok(shape) => shaped(shape, looked.length, c, w, busy, sys, io),
        Err(unread) => Err(unshaped(unread, c.tp, sys, io)),
    }
}

// The mode after an instruction.
fn mode_after(halts: bool, mode: Mode) -> Mode
    ensures { result ≡ pick halts Idle mode }
{
    if halts { Mode::Idle } else { mode }
}

// The channel after an instruction but for the register that it writes, its mode worked out before. Its pointers are
// copied by their parts, since one that is copied whole brings its padding along.
fn after(c: Channel, e: Effect, mode: Mode) -> Channel
    requires { mode ≡ pick e.halts Idle c.mode }
    ensures { result ≡ channel_worked c e }
{
    let fields = c.fields;
    Channel {
        ga: Pointer {
            address: c.ga.address,
            tag: c.ga.tag,
        },
        gb: Pointer {
            address: c.gb.address,
            tag: c.gb.tag,
        },
        gc: Pointer {
            address: c.gc.address,
            tag: c.gc.tag,
        },
        tp: Pointer {
            address: e.tp,
            tag: c.tp.tag,
        },
        pp: c.pp,
        bc: c.bc,
        ix: e.ix,
        cc: c.cc,
        mc: c.mc,
        psw: e.psw,
        mode,
        armed: e.armed,
        fields,
        held: None,
    }
}

// One instruction of a channel, done or refused; BUSY is at `busy` of system memory.
pub fn execute(c: Channel, busy: u32, sys: &mut [u8], io: &mut [u8]) -> Result<Done, Refusal>
    ensures left { executed_by c result (lent sys.new io.new) ≡ execute_of c busy (lent sys.old io.old) }
    ensures count { done_count result ≡ execute_count c busy (lent sys.old io.old) }
{
    let e = plan(c, busy, sys, io)?;
    if !changes::made(e.count, e.space, e.address, e.value, sys, io) {
        return Err(Refusal::BeyondMemory);
    }
    let count = e.reads + e.count;
    let next = after(c, e, mode_after(e.halts, c.mode));
    let Some(write) = e.write else {
        return Ok(Done {
            count,
            channel: next,
        });
    };
    Ok(Done {
        count,
        channel: machine::registers::with(next, write.rrr, write.value, write.tag),
    })
}
