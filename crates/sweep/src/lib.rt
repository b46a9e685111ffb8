// A sweep in one go: all bytes that a block transfer has left, moved by one call.
#![tactic(auto)]

ghost use Rattle.std.specs.Prelude.{true, ◌≡◌, ◌+◌, ◌≤◌, length};
ghost use Rattle.ground_rules.specs.Buffers.{lent, within_limits};
ghost use Rattle.ground_rules.specs.Refusals.{answered};
ghost use Rattle.block_rules.specs.Stages as Stages;
ghost use Rattle.block_rules.specs.Totals as Totals;
ghost use Rattle.sweep_rules.specs.Copies.{copied_on};
ghost use Rattle.sweep_rules.specs.Ranges.{place_of, range_lent, ranges_apart};
ghost use Rattle.sweep_rules.specs.Sweep as Sweep;
ghost use Rattle.sweep_rules.specs.Sweep.{bytes_to_go, plain_fields, ranges_fit, sweep_number, swept_by, sweep_of};
ghost use Rattle.sweep.specs.Loops.{shifted, laid};
ghost use Rattle.sweep.specs.Remainders.{remainder_of};

use ground_rules::{Channel, Fields, Pointer, Refusal, State};
use sweep_rules::Swept;

// What a transfer has left: where its bytes come from, where they go, and how many they are.
#[derive(Clone, Copy)]
pub struct Remainder {
    pub from: Pointer,
    pub into: Pointer,
    pub bytes: u32,
}

// Bytes of a buffer put elsewhere in it, one after the other; copy_within calls memmove, which C does not link.
fn shift(buffer: &mut [u8], from: usize, into: usize, n: usize)
    requires { (from + n ≤ length buffer.old) × (into + n ≤ length buffer.old) }
    ensures { buffer.new ≡ shifted buffer.old from into n }
{
    for i in 0..n {
        buffer[into + i] = buffer[from + i];
    }
}

// Bytes of a buffer put into another, one after the other; copy_from_slice calls memcpy, which C does not link.
fn lay(source: &[u8], from: usize, target: &mut [u8], into: usize, n: usize)
    requires { (from + n ≤ length source.now) × (into + n ≤ length target.old) }
    ensures { target.new ≡ laid source.now from target.old into n }
{
    for i in 0..n {
        target[into + i] = source[from + i];
    }
}

// Where the byte that a pointer points to lies in its space.
fn place(p: Pointer) -> usize
    ensures { result ≡ place_of p }
{
    if p.tag {
        (p.address % 65536) as usize
    } else {
        (p.address % 1048576) as usize
    }
}

// The bytes to go.
fn bytes_to_go(c: Channel) -> u32
    ensures { (result ≡ bytes_to_go c) × (1 ≤ result) × (result ≤ 65536) }
{
    if c.bc == 0 {
        return 65536;
    }
    c.bc as u32
}

// What a channel's transfer has left.
pub fn remainder_of(c: Channel) -> Remainder
    ensures { (result ≡ remainder_of c) × (1 ≤ result.bytes) × (result.bytes ≤ 65536) }
{
    let f = c.fields;
    let ga = c.ga;
    let gb = c.gb;
    let bytes = bytes_to_go(c);
    if f.sourceIsGB {
        return Remainder {
            from: gb,
            into: ga,
            bytes,
        };
    }
    Remainder {
        from: ga,
        into: gb,
        bytes,
    }
}

// Whether bytes in a row are lent, without wrapping.
fn range_lent(sys: &[u8], io: &[u8], p: Pointer, n: u32) -> bool
    ensures { result ≡ range_lent (lent sys.now io.now) p n }
{
    let end = place(p) + n as usize;
    if p.tag {
        end <= io.len()
    } else {
        end <= sys.len()
    }
}

// Whether two ranges that do not wrap share no byte.
fn ranges_apart(p: Pointer, q: Pointer, n: u32) -> bool
    ensures { result ≡ ranges_apart p q n }
{
    let from = place(p);
    let into = place(q);
    let same = (p.tag & q.tag) | (!p.tag & !q.tag);
    !same | ((from + n as usize <= into) | (into + n as usize <= from))
}

// Whether both ranges are lent, do not wrap, and share no byte.
fn ranges_fit(c: Channel, sys: &[u8], io: &[u8]) -> bool
    ensures { result ≡ ranges_fit c (lent sys.now io.now) }
{
    let rest = remainder_of(c);
    let from = rest.from;
    let into = rest.into;
    range_lent(sys, io, from, rest.bytes)
        & (range_lent(sys, io, into, rest.bytes) & ranges_apart(from, into, rest.bytes))
}

// Bytes put where another pointer points, in whichever spaces both lie.
fn copy(sys: &mut [u8], io: &mut [u8], p: Pointer, q: Pointer, n: u32)
    requires { (within_limits (lent sys.old io.old) ≡ true) × (range_lent (lent sys.old io.old) p n ≡ true) × (range_lent (lent sys.old io.old) q n ≡ true) }
    ensures { lent sys.new io.new ≡ copied_on (lent sys.old io.old) p q n }
{
    let from = place(p);
    let into = place(q);
    let size = n as usize;
    if p.tag {
        if q.tag {
            shift(io, from, into, size);
        } else {
            lay(io, from, sys, into, size);
        }
    } else {
        if q.tag {
            lay(sys, from, io, into, size);
        } else {
            shift(sys, from, into, size);
        }
    }
}

// Whether the fields are those of a transfer that only its byte count ends.
fn plain_fields(f: Fields) -> bool
    ensures { result ≡ plain_fields f }
{
    f.sourceMoves
        & (f.destinationMoves
            & ((f.synchronised == 0)
                & (!f.translates
                    & ((f.countEnd != 0)
                        & ((f.matchEnd % 4 == 0) & ((f.externalEnd == 0) & !f.singleTransfer))))))
}

// Whether a channel can be swept.
fn sweepable(s: State, sys: &[u8], io: &[u8], second: bool, lines: u32) -> bool
    ensures { result ≡ Sweep.sweepable s (lent sys.now io.now) second lines }
{
    let c = machine::states::channel(s, second);
    let other = machine::states::channel(s, !second);
    let mode = c.mode;
    let f = c.fields;
    let still = other.mode;
    (!words::bit(lines, 2) & !words::bit(lines, 3))
        & (!machine::states::is_running(still)
            & ((machine::states::is_running(mode)
                & (machine::psw::transferring(c.psw) & plain_fields(f)))
                & ranges_fit(c, sys, io)))
}

// What is refused of a sweep: 12, then what every call is given, then 15.
pub fn check_sweep(s: State, sys: &[u8], io: &[u8], channel: u32, lines: u32) -> Result<(), Refusal>
    ensures { answered result ≡ sweep_number s (lent sys.now io.now) channel lines }
{
    if !(machine::states::is_channel(channel) & (lines < 16)) {
        return Err(Refusal::OutOfRange);
    }
    machine::states::check_given(s, sys, io)?;
    if sweepable(s, sys, io, machine::states::is_second(channel), lines) {
        Ok(())
    } else {
        Err(Refusal::NotSweepable)
    }
}

// How many bytes move alone at the start of a transfer with a wide side.
fn alone(c: Channel) -> u32
    ensures { (result ≡ Totals.alone c) × (result ≤ 1) }
{
    let rest = remainder_of(c);
    let p = rest.from;
    let q = rest.into;
    let from = machine::psw::source_wide(c.psw) & !words::bit(p.address, 0);
    let into = machine::psw::destination_wide(c.psw) & !words::bit(q.address, 0);
    if from | into { 0 } else { 1 }
}

// The transfer steps that the bytes to go take.
fn total(c: Channel, n: u32) -> u32
    requires { (1 ≤ n) × (n ≤ 65536) }
    ensures { result ≡ Totals.total c n }
{
    if !machine::psw::source_wide(c.psw) & !machine::psw::destination_wide(c.psw) {
        return n;
    }
    let first = alone(c);
    first + (n - first + 1) / 2
}

// The channel at the end.
fn finished(c: Channel, n: u32) -> Channel
    ensures { result ≡ Stages.finished c n }
{
    let ended = Channel {
        ga: memory::onward(c.ga, n),
        gb: memory::onward(c.gb, n),
        tp: memory::onward(c.tp, transfer::ends::offset(c.fields.countEnd as u32)),
        bc: 0,
        psw: machine::psw::with(c.psw, machine::psw::XF, false),
        ..c
    };
    machine::updates::holds(ended, None)
}

// All bytes that a block transfer has left, in one go.
pub fn sweep(
    s: State,
    sys: &mut [u8],
    io: &mut [u8],
    channel: u32,
    lines: u32,
) -> Result<Swept, Refusal>
    ensures { swept_by s result (lent sys.new io.new) ≡ sweep_of s (lent sys.old io.old) channel lines }
{
    check_sweep(s, sys, io, channel, lines)?;
    let second = machine::states::is_second(channel);
    let c = machine::states::channel(s, second);
    let rest = remainder_of(c);
    let from = rest.from;
    let into = rest.into;
    copy(sys, io, from, into, rest.bytes);
    Ok(Swept {
        steps: total(c, rest.bytes),
        count: 2 * rest.bytes,
        state: machine::states::with_last(
            machine::states::with_channel(s, second, finished(c, rest.bytes)),
            second,
        ),
    })
}
