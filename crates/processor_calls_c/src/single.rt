// The calls on one processor but the sweep.
ghost use Rattle.std.specs.Prelude.{length, true, ◌≡◌};
ghost use Rattle.ground_rules.specs.Buffers.{AllBytes, lent};
ghost use Rattle.ground_rules.specs.States.{fresh_of};
ghost use Rattle.attention_rules.specs.Attention.{attention_of};
ghost use Rattle.attention_rules.specs.Power.{power_up_of};
ghost use Rattle.turn_rules.specs.Step.{step_of};
ghost use Rattle.state_rules.specs.Calls.{made, served, fresh_made, reset_made, power_served, attention_served, step_served};
ghost use Rattle.state_rules.specs.Conditions.{Bytes};
ghost use Rattle.state_rules.specs.Layout.{state_in, is_state, state_length};
ghost use Rattle.schedule_calls.specs.Calls.{scheduled, schedule_served};
ghost use Rattle.schedule_calls.specs.Turns.{standing};

use schedule_rules::ScheduleRow;

// Makes a fresh state of a CP.
#[unsafe(no_mangle)]
pub extern "C" fn iop89_fresh(state: &mut [u8], cp: u32) -> u32
    ensures left { made result state.new ≡ fresh_made state.old cp }
    ensures whole { length state.old ≡ state_length → state_in state.new ≡ (fresh_of cp).state }
{
    processor_calls::single::iop89_fresh(state, cp)
}

// Makes the state after reset.
#[unsafe(no_mangle)]
pub extern "C" fn iop89_reset(state: &mut [u8]) -> u32
    ensures { made result state.new ≡ reset_made state.old }
{
    processor_calls::single::iop89_reset(state)
}

// Powers the machine up.
#[unsafe(no_mangle)]
pub extern "C" fn iop89_power_up(state: &mut [u8], sys: &mut [u8], io: &mut [u8]) -> u32
    ensures left { served result state.new (lent sys.new io.new) ≡ power_served state.old (lent sys.old io.old) }
    ensures whole { length state.old ≡ state_length → state_in state.new ≡ (power_up_of (state_in state.old) (lent sys.old io.old)).state }
{
    processor_calls::single::iop89_power_up(state, sys, io)
}

// Gives a channel attention.
#[unsafe(no_mangle)]
pub extern "C" fn iop89_attention(
    state: &mut [u8],
    sys: &mut [u8],
    io: &mut [u8],
    channel: u32,
) -> u32
    ensures left { served result state.new (lent sys.new io.new) ≡ attention_served state.old (lent sys.old io.old) channel }
    ensures whole { is_state state.old ≡ true → state_in state.new ≡ (attention_of (state_in state.old) (lent sys.old io.old) channel).state }
    ensures bytes { Bytes state.old × AllBytes (lent sys.old io.old) }
{
    processor_calls::single::iop89_attention(state, sys, io, channel)
}

// Does one step of the machine.
#[unsafe(no_mangle)]
pub extern "C" fn iop89_step(state: &mut [u8], sys: &mut [u8], io: &mut [u8], lines: u32) -> u32
    ensures left { served result state.new (lent sys.new io.new) ≡ step_served state.old (lent sys.old io.old) lines }
    ensures whole { is_state state.old ≡ true → state_in state.new ≡ (step_of (state_in state.old) (lent sys.old io.old) lines).state }
    ensures bytes { Bytes state.old × AllBytes (lent sys.old io.old) }
{
    processor_calls::single::iop89_step(state, sys, io, lines)
}

// Runs the rows of a schedule.
#[unsafe(no_mangle)]
pub extern "C" fn iop89_schedule(
    state: &mut [u8],
    rows: &[ScheduleRow],
    sys: &mut [u8],
    io: &mut [u8],
    report: &mut [u64],
) -> u32
    ensures { scheduled result (standing state.new (lent sys.new io.new) report.new) ≡ schedule_served (standing state.old (lent sys.old io.old) report.old) rows.now }
{
    processor_calls::single::iop89_schedule(state, rows, sys, io, report)
}
