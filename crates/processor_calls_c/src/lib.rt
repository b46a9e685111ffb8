// The calls on one processor and on two for C, passed on as they are, in one object, so that the machine's code stands in it once.
#![tactic(auto)]

ghost use Rattle.std.specs.Prelude.{◌≡◌};
ghost use Rattle.processor_rules.specs.Lifting.{lifted_to};
ghost use Rattle.processor_rules.specs.Processors.{Memories, processors, memories};
ghost use Rattle.processor_calls.specs.Calls.{reported, pair_attention, pair_step, pair_reset, pair_power_up, pair_sweep, pair_schedule};

use schedule_rules::ScheduleRow;

// The calls on one processor.
pub mod single;

// Makes the state after reset of a processor.
#[unsafe(no_mangle)]
pub extern "C" fn iop89_pair_reset(processor: u32, one: &mut [u8], two: &mut [u8]) -> u32
    ensures { (m : Memories) → lifted_to result (processors one.new two.new) m ≡ pair_reset (processors one.old two.old) m processor }
{
    processor_calls::iop89_pair_reset(processor, one, two)
}

// Powers a processor up.
#[unsafe(no_mangle)]
pub extern "C" fn iop89_pair_power_up(
    processor: u32,
    one: &mut [u8],
    two: &mut [u8],
    sys: &mut [u8],
    io1: &mut [u8],
    io2: &mut [u8],
) -> u32
    ensures { lifted_to result (processors one.new two.new) (memories sys.new io1.new io2.new) ≡ pair_power_up (processors one.old two.old) (memories sys.old io1.old io2.old) processor }
{
    processor_calls::iop89_pair_power_up(processor, one, two, sys, io1, io2)
}

// Gives a channel of a processor attention.
#[unsafe(no_mangle)]
pub extern "C" fn iop89_pair_attention(
    processor: u32,
    one: &mut [u8],
    two: &mut [u8],
    sys: &mut [u8],
    io1: &mut [u8],
    io2: &mut [u8],
    channel: u32,
) -> u32
    ensures { lifted_to result (processors one.new two.new) (memories sys.new io1.new io2.new) ≡ pair_attention (processors one.old two.old) (memories sys.old io1.old io2.old) processor channel }
{
    processor_calls::iop89_pair_attention(processor, one, two, sys, io1, io2, channel)
}

// Does one step of a processor.
#[unsafe(no_mangle)]
pub extern "C" fn iop89_pair_step(
    processor: u32,
    one: &mut [u8],
    two: &mut [u8],
    sys: &mut [u8],
    io1: &mut [u8],
    io2: &mut [u8],
    lines: u32,
) -> u32
    ensures { lifted_to result (processors one.new two.new) (memories sys.new io1.new io2.new) ≡ pair_step (processors one.old two.old) (memories sys.old io1.old io2.old) processor lines }
{
    processor_calls::iop89_pair_step(processor, one, two, sys, io1, io2, lines)
}

// Moves all bytes that the block transfer of a processor's channel has left.
#[unsafe(no_mangle)]
pub extern "C" fn iop89_pair_sweep(
    processor: u32,
    one: &mut [u8],
    two: &mut [u8],
    sys: &mut [u8],
    io1: &mut [u8],
    io2: &mut [u8],
    channel: u32,
    lines: u32,
) -> u64
    ensures { lifted_to result (processors one.new two.new) (memories sys.new io1.new io2.new) ≡ pair_sweep (processors one.old two.old) (memories sys.old io1.old io2.old) processor channel lines }
{
    processor_calls::iop89_pair_sweep(processor, one, two, sys, io1, io2, channel, lines)
}

// The version of the service archive: IOP89_VERSION of the header that it was made with.
#[unsafe(no_mangle)]
pub extern "C" fn iop89_service_version() -> u32
    ensures { result ≡ 200 }
{
    processor_calls::iop89_service_version()
}

// Runs the rows of a schedule on a processor; 12 clears the report too.
#[unsafe(no_mangle)]
pub extern "C" fn iop89_pair_schedule(
    processor: u32,
    one: &mut [u8],
    two: &mut [u8],
    sys: &mut [u8],
    io1: &mut [u8],
    io2: &mut [u8],
    rows: &[ScheduleRow],
    report: &mut [u64],
) -> u32
    ensures { lifted_to (reported result report.new) (processors one.new two.new) (memories sys.new io1.new io2.new) ≡ pair_schedule (processors one.old two.old) (memories sys.old io1.old io2.old) report.old processor rows.now }
{
    processor_calls::iop89_pair_schedule(processor, one, two, sys, io1, io2, rows, report)
}
