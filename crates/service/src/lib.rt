// The machine call by call for C: a state lives in the caller's bytes, and each call takes it from there and leaves it
// there.
#![tactic(auto)]

ghost use Rattle.std.specs.Prelude.{true, ◌≡◌, length, IfOk};
ghost use Rattle.ground_rules.specs.Buffers.{Buffers, lent};
ghost use Rattle.ground_rules.specs.Refusals.{number_of};
ghost use Rattle.ground_rules.specs.States.{reset_state, fresh_of, agree, fields_agree};
ghost use Rattle.attention_rules.specs.Attention.{attention_of};
ghost use Rattle.attention_rules.specs.Power.{power_up_of};
ghost use Rattle.turn_rules.specs.Step.{chosen_step, step_of};
ghost use Rattle.turn_rules.specs.declared.Choice.TheVariants.{Ends};
ghost use Rattle.sweep_rules.specs.Sweep.{sweep_of};
ghost use Rattle.state_rules.specs.Layout.{state_in, is_state, state_length};
ghost use Rattle.step.specs.Turns.{turned, turn_count};
ghost use Rattle.state_rules.specs.Calls.{made, served, step_left, answer_from, fresh_made, reset_made, power_served, attention_served, step_served, sweep_answer_from, sweep_served};

use ground_rules::Refusal;
use state_bytes::{answers, given, layout};
use step::{RefusedTurn, Turn};
use turn_rules::Choice;

// An answer of its four parts.
fn answer(number: u32, channel: u32, kind: u32, count: u32) -> u32
    ensures { result ≡ answer_from number channel kind count }
{
    number % 256 + channel % 4 * 256 + kind % 4 * 1024 + count % 16 * 4096
}

// The answer of a call that is refused.
fn refused(refusal: Refusal) -> u32
    ensures { result ≡ answer_from (number_of refusal) 0 0 0 }
{
    answer(refusal.number(), 0, 0, 0)
}

// Makes a fresh state of a CP.
#[unsafe(no_mangle)]
pub extern "C" fn iop89_fresh(state: &mut [u8], cp: u32) -> u32
    ensures left { made result state.new ≡ fresh_made state.old cp }
    ensures whole { length state.old ≡ state_length → state_in state.new ≡ (fresh_of cp).state }
{
    if state.len() != 104 {
        return Refusal::NotAState.number();
    }
    let a = machine::states::fresh(cp);
    let fresh = a.state;
    layout::put_state(state, fresh);
    answer(a.number, 0, 0, 0)
}

// Makes the state after reset.
#[unsafe(no_mangle)]
pub extern "C" fn iop89_reset(state: &mut [u8]) -> u32
    ensures left { made result state.new ≡ reset_made state.old }
    ensures whole { length state.old ≡ state_length → state_in state.new ≡ reset_state }
{
    if state.len() != 104 {
        return Refusal::NotAState.number();
    }
    layout::put_state(state, machine::states::reset());
    answer(0, 0, 0, 0)
}

// Powers the machine up, whatever state the bytes held.
#[unsafe(no_mangle)]
pub extern "C" fn iop89_power_up(state: &mut [u8], sys: &mut [u8], io: &mut [u8]) -> u32
    ensures left { served result state.new (lent sys.new io.new) ≡ power_served state.old (lent sys.old io.old) }
    ensures whole { length state.old ≡ state_length → state_in state.new ≡ (power_up_of (state_in state.old) (lent sys.old io.old)).state }
{
    if state.len() != 104 {
        return Refusal::NotAState.number();
    }
    match power::power_up(sys, io) {
        Ok(done) => {
            layout::put_state(state, done.state);
            answer(0, 0, 0, done.count)
        }
        Err(refusal) => refused(refusal),
    }
}

// Gives a channel attention. Only that channel is taken from the bytes and put back: as a call of `attention::attention` the
// whole state was copied four times over, by a function from outside.
#[unsafe(no_mangle)]
pub extern "C" fn iop89_attention(
    state: &mut [u8],
    sys: &mut [u8],
    io: &mut [u8],
    channel: u32,
) -> u32
    ensures left { served result state.new (lent sys.new io.new) ≡ attention_served state.old (lent sys.old io.old) channel }
    ensures whole { is_state state.old ≡ true → state_in state.new ≡ (attention_of (state_in state.old) (lent sys.old io.old) channel).state }
{
    if !layout::is_state(state) {
        return Refusal::NotAState.number();
    }
    if !machine::states::is_channel(channel) {
        return Refusal::OutOfRange.number();
    }
    let s = layout::state_in(state);
    if let Err(refusal) = machine::states::check_given(s, sys, io) {
        return refused(refusal);
    }
    let second = machine::states::is_second(channel);
    let block = machine::states::block(s, second);
    match attention::planned(sys, io, block, layout::channel(state, second)) {
        Ok(upshot) => {
            attention::effects::write(sys, io, upshot.writes);
            layout::put_order(state, second, upshot.channel);
            answer(0, 0, 0, upshot.count)
        }
        Err(refusal) => refused(refusal),
    }
}

// The external end of a channel's transfer, put into the bytes.
fn ended(state: &mut [u8], second: bool) -> u32
    requires { is_state state.old ≡ true }
    ensures left { (m : Buffers) → served result state.new m ≡ step_left (chosen_step (Ends second) (state_in state.old) m) 0 }
    ensures whole { (m : Buffers) → state_in state.new ≡ (chosen_step (Ends second) (state_in state.old) m).state }
{
    let c = transfer::external_end(layout::channel(state, second));
    layout::put_step(state, second, c);
    answer(0, machine::states::number(second), 3, 0)
}

// The answer of a channel's step, which is put into the bytes where it is done.
fn stepped(state: &mut [u8], second: bool, turn: Result<Turn, RefusedTurn>) -> u32
    requires { (is_state state.old ≡ true) × (agree (state_in state.old) ≡ true) × IfOk turn (λ t. fields_agree t.channel ≡ true) }
    ensures left { (m : Buffers) → served result state.new m ≡ step_left (turned (state_in state.old) second turn m) (turn_count turn) }
    ensures whole { (m : Buffers) → state_in state.new ≡ (turned (state_in state.old) second turn m).state }
{
    match turn {
        Ok(turn) => {
            let kind = turn.kind;
            layout::put_turn(state, second, turn.channel);
            answer(
                0,
                machine::states::number(second),
                answers::kind_number(kind),
                turn.count,
            )
        }
        Err(refusal) => refused(refusal.why),
    }
}

// Does one step of the machine. Only the channel that steps is taken from the bytes and put back; the other's stay where
// they are.
#[unsafe(no_mangle)]
pub extern "C" fn iop89_step(state: &mut [u8], sys: &mut [u8], io: &mut [u8], lines: u32) -> u32
    ensures left { served result state.new (lent sys.new io.new) ≡ step_served state.old (lent sys.old io.old) lines }
    ensures whole { is_state state.old ≡ true → state_in state.new ≡ (step_of (state_in state.old) (lent sys.old io.old) lines).state }
{
    if !layout::is_state(state) {
        return Refusal::NotAState.number();
    }
    let s = layout::looked_at(state);
    if let Err(refusal) = given::check_entry(state, s, lines, sys, io) {
        return refused(refusal);
    }
    match step::turns::choose(s, lines) {
        Choice::Nobody => refused(Refusal::NothingSteps),
        Choice::Ends(second) => ended(state, second),
        Choice::Steps(second) => {
            let turn = step::channel_turn(s, second, layout::stepping(state, second), sys, io);
            stepped(state, second, turn)
        }
    }
}

// The answer of a sweep: its number, the steps that it stands for and how many bytes it read and stored.
fn sweep_answer(number: u32, steps: u32, count: u32) -> u64
    ensures { result ≡ sweep_answer_from number steps count }
{
    (number % 256) as u64 + (steps % 16777216) as u64 * 256 + count as u64 * 4294967296
}

// Moves all bytes that a channel's block transfer has left.
#[unsafe(no_mangle)]
pub extern "C" fn iop89_sweep(
    state: &mut [u8],
    sys: &mut [u8],
    io: &mut [u8],
    channel: u32,
    lines: u32,
) -> u64
    ensures left { served result state.new (lent sys.new io.new) ≡ sweep_served state.old (lent sys.old io.old) channel lines }
    ensures whole { is_state state.old ≡ true → state_in state.new ≡ (sweep_of (state_in state.old) (lent sys.old io.old) channel lines).state }
{
    if !layout::is_state(state) {
        return Refusal::NotAState.number() as u64;
    }
    match sweep::sweep(layout::state_in(state), sys, io, channel, lines) {
        Ok(swept) => {
            let after = swept.state;
            let second = machine::states::is_second(channel);
            layout::put_step(state, second, machine::states::channel(after, second));
            sweep_answer(0, swept.steps, swept.count)
        }
        Err(refusal) => sweep_answer(refusal.number(), 0, 0),
    }
}
