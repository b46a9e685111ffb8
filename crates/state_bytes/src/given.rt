// What a step on a state's bytes is given, tested in the order of its refusals.
ghost use Rattle.std.specs.Prelude.{true, ◌≡◌};
ghost use Rattle.ground_rules.specs.Buffers.{lent};
ghost use Rattle.ground_rules.specs.Refusals.{answered};
ghost use Rattle.state_rules.specs.Layout.{state_in, is_state};
ghost use Rattle.turn_rules.specs.Step.{entry_number};

use crate::layout;
use ground_rules::{Refusal, State};

// What is refused of what a step is given; 14 is asked of the bytes, so that no field is taken from them for it.
// `step::check_entry` says the same, but is not inlined, since an attention asks it too, and would have the whole state
// go through memory.
pub fn check_entry(state: &[u8], s: State, lines: u32, sys: &[u8], io: &[u8]) -> Result<(), Refusal>
    requires { (is_state state.now ≡ true) × (s ≡ state_in state.now) }
    ensures { answered result ≡ entry_number s (lent sys.now io.now) lines }
{
    if 16 <= lines {
        return Err(Refusal::OutOfRange);
    }
    if !memory::within_limits(sys, io) {
        return Err(Refusal::BufferTooLong);
    }
    if !machine::states::sound(s) {
        return Err(Refusal::UnsoundState);
    }
    if !s.board.powered {
        return Err(Refusal::NotPoweredUp);
    }
    if !layout::agree(state) {
        return Err(Refusal::FieldsDiffer);
    }
    Ok(())
}
