// The sweep for C, in an object of its own: called in one place, its code is merged into the exported function.
#![tactic(auto)]

ghost use Rattle.std.specs.Prelude.{◌≡◌};
ghost use Rattle.ground_rules.specs.Buffers.{lent};
ghost use Rattle.state_rules.specs.Calls.{served, sweep_served};

// Moves all bytes that a channel's block transfer has left.
#[unsafe(no_mangle)]
pub extern "C" fn iop89_sweep(
    state: &mut [u8],
    sys: &mut [u8],
    io: &mut [u8],
    channel: u32,
    lines: u32,
) -> u64
    ensures { served result state.new (lent sys.new io.new) ≡ sweep_served state.old (lent sys.old io.old) channel lines }
{
    service::iop89_sweep(state, sys, io, channel, lines)
}
