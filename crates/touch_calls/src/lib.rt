// What the next call touches, for C: a state lives in the caller's bytes, which are only read, as both memories are; the
// places are told into the caller's words.
#![tactic(auto)]

ghost use Rattle.std.specs.Prelude.{◌≡◌};
ghost use Rattle.ground_rules.specs.Buffers.{lent};
ghost use Rattle.state_rules.specs.Calls as Calls;
ghost use Rattle.state_rules.specs.Calls.{answer_from};
ghost use Rattle.touch_rules.specs.TouchCalls.{telling, touches_attention, touches_power_up, touches_step, touches_sweep};

use ground_rules::Refusal;
use state_bytes::{answers, given, layout};
use touches::{Outlook, StepOutlook};
use turn_rules::Choice;

// An answer of its four parts.
fn answer(number: u32, channel: u32, kind: u32, count: usize) -> u32
    ensures { result ≡ answer_from number channel kind count }
{
    number % 256 + channel % 4 * 256 + kind % 4 * 1024 + (count % 16) as u32 * 4096
}

// An answer without channel and kind.
fn plain(o: Outlook) -> u32
    ensures { result ≡ answer_from o.number 0 0 o.count }
{
    answer(o.number, 0, 0, o.count)
}

// An answer with channel and kind.
fn whole(o: StepOutlook) -> u32
    ensures { result ≡ answer_from o.number o.channel (Calls.kind_number o.kind) o.count }
{
    let kind = o.kind;
    answer(o.number, o.channel, answers::kind_number(kind), o.count)
}

// Tells what an attention would touch.
#[unsafe(no_mangle)]
pub extern "C" fn iop89_touches_attention(
    state: &[u8],
    sys: &[u8],
    io: &[u8],
    channel: u32,
    places: &mut [u32],
) -> u32
    ensures { telling result places.new ≡ touches_attention state.now (lent sys.now io.now) channel places.old }
{
    if !layout::is_state(state) {
        return Refusal::NotAState.number();
    }
    let s = layout::state_in(state);
    plain(touches::attention(s, sys, io, channel, places))
}

// Tells what a power-up would touch.
#[unsafe(no_mangle)]
pub extern "C" fn iop89_touches_power_up(
    state: &[u8],
    sys: &[u8],
    io: &[u8],
    places: &mut [u32],
) -> u32
    ensures { telling result places.new ≡ touches_power_up state.now (lent sys.now io.now) places.old }
{
    if state.len() != 104 {
        return Refusal::NotAState.number();
    }
    plain(touches::power_up(sys, io, places))
}

// Tells what a step would touch.
#[unsafe(no_mangle)]
pub extern "C" fn iop89_touches_step(
    state: &[u8],
    sys: &[u8],
    io: &[u8],
    lines: u32,
    places: &mut [u32],
) -> u32
    ensures { telling result places.new ≡ touches_step state.now (lent sys.now io.now) lines places.old }
{
    if !layout::is_state(state) {
        return Refusal::NotAState.number();
    }
    let s = layout::looked_at(state);
    if let Err(refusal) = given::check_entry(state, s, lines, sys, io) {
        return answer(refusal.number(), 0, 0, 0);
    }
    match step::turns::choose(s, lines) {
        Choice::Nobody => answer(Refusal::NothingSteps.number(), 0, 0, 0),
        Choice::Ends(second) => answer(0, machine::states::number(second), 3, 0),
        Choice::Steps(second) => whole(touches::turn(
            s,
            second,
            layout::channel(state, second),
            sys,
            io,
            places,
        )),
    }
}

// Tells where the two ranges of a sweep begin.
#[unsafe(no_mangle)]
pub extern "C" fn iop89_touches_sweep(
    state: &[u8],
    sys: &[u8],
    io: &[u8],
    channel: u32,
    lines: u32,
    places: &mut [u32],
) -> u32
    ensures { telling result places.new ≡ touches_sweep state.now (lent sys.now io.now) channel lines places.old }
{
    if !layout::is_state(state) {
        return Refusal::NotAState.number();
    }
    let s = layout::state_in(state);
    plain(touches::sweep(s, sys, io, channel, lines, places))
}
