// Power-up: the processor reads in system memory what its board set up, whole or not at all.
#![tactic(auto)]

ghost use Rattle.std.specs.Prelude.{◌≡◌};
ghost use Rattle.ground_rules.specs.Buffers.{lent};
ghost use Rattle.ground_rules.specs.Places.{all_touchable};
ghost use Rattle.ground_rules.specs.Refusals.{answered, outcome_by, answer_count};
ghost use Rattle.ground_rules.specs.declared.State.{State};
ghost use Rattle.attention_rules.specs.Power.{configuration_of, control_of, board_of, power_places, power_number, power_up_of, power_count};

use ground_rules::{Answer, Board, Refusal};

// Where SYSBUS stands.
pub const SYSBUS_AT: u32 = 0xFFFF6;

// Where the pointer to the configuration block stands.
pub const CONFIGURATION_AT: u32 = 0xFFFF8;

// The configuration block.
#[tactic(auto, unfolding(attention_rules::specs::Power::configuration_of))]
pub fn configuration(sys: &[u8], io: &[u8]) -> u32
    ensures { result ≡ configuration_of (lent sys.now io.now) }
{
    memory::doubleword(sys, io, false, CONFIGURATION_AT)
}

// The control block.
#[tactic(auto, unfolding(attention_rules::specs::Power::control_of))]
pub fn control(sys: &[u8], io: &[u8]) -> u32
    ensures { result ≡ control_of (lent sys.now io.now) }
{
    memory::doubleword(sys, io, false, words::sum20(configuration(sys, io), 2))
}

// What the board set up.
#[tactic(auto, unfolding(attention_rules::specs::Power::board_of))]
fn read_board(sys: &[u8], io: &[u8]) -> Board
    ensures { result ≡ board_of (lent sys.now io.now) }
{
    let sysbus = memory::byte(sys, io, false, SYSBUS_AT) as u32;
    let soc = memory::byte(sys, io, false, configuration(sys, io)) as u32;
    Board {
        powered: true,
        sysbus: words::bit(sysbus, 0),
        soc: words::bit(soc, 0),
        grant: words::bit(soc, 1),
    }
}

// Whether the eleven bytes are lent.
fn board_lent(sys: &[u8], io: &[u8]) -> bool
    ensures { result ≡ all_touchable (lent sys.now io.now) (power_places (lent sys.now io.now)) }
{
    let block = configuration(sys, io);
    let busy = machine::states::busy(control(sys, io));
    memory::span_touchable(sys, io, false, SYSBUS_AT, 1)
        & memory::span_touchable(sys, io, false, CONFIGURATION_AT, 4)
        & memory::span_touchable(sys, io, false, block, 1)
        & memory::span_touchable(sys, io, false, words::sum20(block, 2), 4)
        & memory::span_touchable(sys, io, false, busy, 1)
}

// Refuses a buffer past its limit, then system memory without the eleven bytes.
fn check(sys: &[u8], io: &[u8]) -> Result<(), Refusal>
    ensures { answered result ≡ power_number (lent sys.now io.now) }
{
    if !memory::within_limits(sys, io) {
        return Err(Refusal::BufferTooLong);
    }
    if !board_lent(sys, io) {
        return Err(Refusal::BeyondMemory);
    }
    Ok(())
}

// Powers the processor up: the fresh state of the CP found, with what the board set up, and BUSY of channel 1 cleared.
pub fn power_up(sys: &mut [u8], io: &mut [u8]) -> Result<Answer, Refusal>
    ensures left { (s : State) → outcome_by s result (lent sys.new io.new) ≡ power_up_of s (lent sys.old io.old) }
    ensures count { answer_count result ≡ power_count (lent sys.old io.old) }
{
    check(sys, io)?;
    let cp = control(sys, io);
    let state = machine::states::blank(cp, read_board(sys, io));
    memory::store_byte(sys, io, false, machine::states::busy(cp), 0);
    Ok(Answer { count: 11, state })
}
