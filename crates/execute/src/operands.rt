// Places, the operands that lie there, what the instructions work out of them, and what they store.
ghost use Rattle.std.specs.Prelude.{◌≡◌, ◌==◌};
ghost use Rattle.ground_rules.specs.Buffers.{lent};
ghost use Rattle.ground_rules.specs.Places.{all_touchable};
ghost use Rattle.ground_rules.specs.Choice.{pick};
ghost use Rattle.instruction_rules.specs.Marks.{used_up};
ghost use Rattle.instruction_rules.specs.Operands as Operands;
ghost use Rattle.instruction_rules.specs.Operands.{byte_here, bytes_at, size_of, work_of, single_of, is_move};
ghost use Rattle.execute.specs.Bytes.{operand_of_four, landing_by, grown_ix};

use ground_rules::{Channel, Pointer};
use instruction_rules::{Memory, Single, Work};

// The byte at a place.
pub fn byte(p: Pointer, sys: &[u8], io: &[u8]) -> u8
    ensures { result ≡ byte_here (lent sys.now io.now) p }
{
    memory::byte(sys, io, p.tag, p.address)
}

// Whether n bytes at a place may be touched.
pub fn touchable(p: Pointer, n: u32, sys: &[u8], io: &[u8]) -> bool
    ensures { result ≡ all_touchable (lent sys.now io.now) (bytes_at p n) }
{
    memory::span_touchable(sys, io, p.tag, p.address, n)
}

// The PSW once a mark is used up.
pub fn used_up(armed: bool, psw: u8) -> u8
    ensures { result ≡ used_up armed psw }
{
    if armed {
        machine::psw::with(psw, machine::psw::XF, true)
    } else {
        psw
    }
}

// The bytes of a byte or a word.
pub fn size(wide: bool) -> u32
    ensures { result ≡ size_of wide }
{
    if wide { 2 } else { 1 }
}

// What AA adds to the base: nothing, the offset byte, or IX.
pub fn added(aa: u32, ix: u16, offset: u32) -> u32
    ensures { result ≡ pick (aa == 0) 0 (pick (aa == 1) offset ix) }
{
    match aa {
        0 => 0,
        1 => offset,
        _ => ix as u32,
    }
}

// The place of a memory operand whose pair is at `pair`.
pub fn effective(c: Channel, m: Memory, pair: Pointer, sys: &[u8], io: &[u8]) -> Pointer
    ensures { result ≡ Operands.effective (lent sys.now io.now) c m pair }
{
    let offset = byte(memory::onward(pair, 2), sys, io);
    memory::onward(
        machine::registers::base(c, m.mm),
        added(m.aa, c.ix, offset as u32),
    )
}

// The channel with IX grown where AA is 11.
pub fn grown(c: Channel, m: Memory, by: u16) -> Channel
    ensures { result ≡ Operands.grown c m by }
{
    Channel {
        ix: grown_ix(m, c.ix, by),
        ..c
    }
}

// What two operands give.
pub fn work(work: Work, a: u32, b: u32) -> u32
    ensures { result ≡ work_of work a b }
{
    match work {
        Work::Mov => b,
        Work::Add => words::sum20(a, b),
        Work::Or => a | b,
        Work::And => a & b,
        Work::Not => 1048575 - b % 1048576,
    }
}

// What one operand gives.
pub fn single(single: Single, a: u32) -> u32
    ensures { result ≡ single_of single a }
{
    match single {
        Single::Not => 1048575 - a % 1048576,
        Single::Inc => words::sum20(a, 1),
        Single::Dec => words::sum20(a, 1048575),
    }
}

// Whether work only replaces.
pub fn is_move(work: Work) -> bool
    ensures { result ≡ is_move work }
{
    matches!(work, Work::Mov)
}

// The channel with IX grown by the operand's size where AA is 11.
pub fn grown_by_size(c: Channel, m: Memory) -> Channel
    ensures { result ≡ Operands.grown c m (size_of m.wide) }
{
    grown(c, m, size(m.wide) as u16)
}

// Where data or displacement stands: after the pair and its offset byte.
pub fn after_pair(tp: Pointer, m: Memory) -> Pointer
    ensures { result ≡ Operands.after_pair tp m }
{
    memory::onward(tp, 2 + decode::offset_length(m))
}

// The operand that four bytes begin with, a byte or a word, sign-extended to 20 bits.
pub fn operand_in(bytes: u32, wide: bool) -> u32
    ensures { result ≡ operand_of_four bytes wide }
{
    if wide {
        words::extend_word((bytes % 65536) as u16)
    } else {
        words::extend_byte((bytes % 256) as u8)
    }
}

// Where a jump leads by the displacement that four bytes begin with, of a byte or a word.
pub fn landing_by(tp: u32, bytes: u32, two: bool) -> u32
    ensures { result ≡ landing_by tp bytes two }
{
    if two {
        words::displaced_word(tp, (bytes % 65536) as u16)
    } else {
        words::displaced_byte(tp, (bytes % 256) as u8)
    }
}

// Where TP stands after a jump that is taken or not.
pub fn led_by(taken: bool, tp: u32, bytes: u32, two: bool) -> u32
    ensures { result ≡ pick taken (landing_by tp bytes two) tp }
{
    if taken {
        landing_by(tp, bytes, two)
    } else {
        tp
    }
}

// IX once an operand of some bytes was used: it grows where AA is 11.
pub fn grown_ix(m: Memory, ix: u16, by: u16) -> u16
    ensures { result ≡ grown_ix m ix by }
{
    if m.aa == 3 {
        std::num::wrapping_add_u16(ix, by)
    } else {
        ix
    }
}

// The same by the operand's size.
pub fn grown_by_width(m: Memory, ix: u16) -> u16
    ensures { result ≡ grown_ix m ix (size_of m.wide) }
{
    grown_ix(m, ix, size(m.wide) as u16)
}
