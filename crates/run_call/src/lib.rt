// Both runs for C in one object, so that the code which they share stands in it once.
#![tactic(auto)]

ghost use Rattle.std.specs.Prelude.{◌≡◌, ◌*◌, ◌+◌, ◌%◌};
ghost use Rattle.ground_rules.specs.Buffers.{lent};
ghost use Rattle.run_rules.specs.Run.{stop_number};
ghost use Rattle.run_rules.specs.Run.{run_of, answer_of, called};
ghost use Rattle.run_rules.specs.Board.{board_run_of};

use ground_rules::Refusal;
use run_rules::Ran;

// The number of what stopped a run, 0 at the limit.
fn number(stopped: Option<Refusal>) -> u32
    ensures { result ≡ stop_number stopped }
{
    match stopped {
        Some(refusal) => refusal.number(),
        None => 0,
    }
}

// How a run ended, as one number: number × 65,536 + steps done.
fn answer(r: Ran) -> u32
    ensures { result ≡ stop_number r.stopped % 65536 * 65536 + r.steps % 65536 }
{
    number(r.stopped) % 65536 * 65536 + r.steps % 65536
}

// A run of a channel: number × 65,536 + steps done.
#[unsafe(no_mangle)]
pub extern "C" fn iop89_run(
    sys: &mut [u8],
    io: &mut [u8],
    cp: u32,
    channel: u32,
    lines: u32,
    limit: u32,
) -> u32
    ensures { called result (lent sys.new io.new) ≡ called (answer_of (run_of (lent sys.old io.old) cp channel lines limit)) (run_of (lent sys.old io.old) cp channel lines limit).memory }
{
    answer(panel::run(sys, io, cp, channel, lines, limit))
}

// A run of a channel from reset and power-up on: number × 65,536 + steps done.
#[unsafe(no_mangle)]
pub extern "C" fn iop89_board(
    sys: &mut [u8],
    io: &mut [u8],
    channel: u32,
    lines: u32,
    limit: u32,
) -> u32
    ensures { called result (lent sys.new io.new) ≡ called (answer_of (board_run_of (lent sys.old io.old) channel lines limit)) (board_run_of (lent sys.old io.old) channel lines limit).memory }
{
    answer(panel::boards::board_run(sys, io, channel, lines, limit))
}
