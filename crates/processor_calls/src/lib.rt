// Two processors on one board for C: each state lives in the caller's bytes, and each call goes to the processor that a
// number names; of the other no byte is looked at.
#![tactic(auto)]

ghost use Rattle.std.specs.Prelude.{◌≡◌, List, ℕ};
ghost use Rattle.std.specs.Option.{unwrap_or};
ghost use Rattle.ground_rules.specs.Buffers.{Buffers};
ghost use Rattle.processor_rules.specs.Lifting.{Called, lifted_to, lifted};
ghost use Rattle.processor_rules.specs.Processors.{Memories, processors, memories};
ghost use Rattle.processor_calls.specs.Calls.{reported, pair_attention, pair_step, pair_reset, pair_power_up, pair_sweep, pair_schedule};
ghost use Rattle.processor_calls.specs.Named.{MakesCall};

use ground_rules::Refusal;
use schedule_rules::ScheduleRow;

// The calls on one processor.
pub mod single;

// Makes a call on the processor that a number names, with its state, system memory and its I/O memory; none where the
// number names no processor.
fn on_named<A: Drop, F: FnOnce(&mut [u8], &mut [u8], &mut [u8]) -> A>(
    processor: u32,
    one: &mut [u8],
    two: &mut [u8],
    sys: &mut [u8],
    io1: &mut [u8],
    io2: &mut [u8],
    call: F,
) -> Option<A>
    requires { F.IsAlwaysCallable call }
    ensures { (twelve : A) (single : List ℕ → Buffers → Called (List ℕ) A) → MakesCall F.FnOnce call single → lifted_to (unwrap_or result twelve) (processors one.new two.new) (memories sys.new io1.new io2.new) ≡ lifted twelve single (processors one.old two.old) (memories sys.old io1.old io2.old) processor }
{
    match processor {
        1 => Some(call(one, sys, io1)),
        2 => Some(call(two, sys, io2)),
        _ => None,
    }
}

// Makes the state after reset of a processor. It is lent no memory, so it does not go by `on_named`.
#[unsafe(no_mangle)]
pub extern "C" fn iop89_pair_reset(processor: u32, one: &mut [u8], two: &mut [u8]) -> u32
    ensures { (m : Memories) → lifted_to result (processors one.new two.new) m ≡ pair_reset (processors one.old two.old) m processor }
{
    match processor {
        1 => service::iop89_reset(one),
        2 => service::iop89_reset(two),
        _ => Refusal::OutOfRange.number(),
    }
}

// Powers a processor up.
#[unsafe(no_mangle)]
pub extern "C" fn iop89_pair_power_up(
    processor: u32,
    one: &mut [u8],
    two: &mut [u8],
    sys: &mut [u8],
    io1: &mut [u8],
    io2: &mut [u8],
) -> u32
    ensures { lifted_to result (processors one.new two.new) (memories sys.new io1.new io2.new) ≡ pair_power_up (processors one.old two.old) (memories sys.old io1.old io2.old) processor }
{
    on_named(
        processor,
        one,
        two,
        sys,
        io1,
        io2,
        |state, sys, io| service::iop89_power_up(state, sys, io),
    )
    .unwrap_or(Refusal::OutOfRange.number())
}

// Gives a channel of a processor attention.
#[unsafe(no_mangle)]
pub extern "C" fn iop89_pair_attention(
    processor: u32,
    one: &mut [u8],
    two: &mut [u8],
    sys: &mut [u8],
    io1: &mut [u8],
    io2: &mut [u8],
    channel: u32,
) -> u32
    ensures { lifted_to result (processors one.new two.new) (memories sys.new io1.new io2.new) ≡ pair_attention (processors one.old two.old) (memories sys.old io1.old io2.old) processor channel }
{
    on_named(
        processor,
        one,
        two,
        sys,
        io1,
        io2,
        |state, sys, io| service::iop89_attention(state, sys, io, channel),
    )
    .unwrap_or(Refusal::OutOfRange.number())
}

// Does one step of a processor.
#[unsafe(no_mangle)]
pub extern "C" fn iop89_pair_step(
    processor: u32,
    one: &mut [u8],
    two: &mut [u8],
    sys: &mut [u8],
    io1: &mut [u8],
    io2: &mut [u8],
    lines: u32,
) -> u32
    ensures { lifted_to result (processors one.new two.new) (memories sys.new io1.new io2.new) ≡ pair_step (processors one.old two.old) (memories sys.old io1.old io2.old) processor lines }
{
    on_named(
        processor,
        one,
        two,
        sys,
        io1,
        io2,
        |state, sys, io| service::iop89_step(state, sys, io, lines),
    )
    .unwrap_or(Refusal::OutOfRange.number())
}

// Moves all bytes that the block transfer of a processor's channel has left.
#[unsafe(no_mangle)]
pub extern "C" fn iop89_pair_sweep(
    processor: u32,
    one: &mut [u8],
    two: &mut [u8],
    sys: &mut [u8],
    io1: &mut [u8],
    io2: &mut [u8],
    channel: u32,
    lines: u32,
) -> u64
    ensures { lifted_to result (processors one.new two.new) (memories sys.new io1.new io2.new) ≡ pair_sweep (processors one.old two.old) (memories sys.old io1.old io2.old) processor channel lines }
{
    on_named(
        processor,
        one,
        two,
        sys,
        io1,
        io2,
        |state, sys, io| service::iop89_sweep(state, sys, io, channel, lines),
    )
    .unwrap_or(Refusal::OutOfRange.number() as u64)
}

// The version of the service archive: IOP89_VERSION of the header that it was made with.
#[unsafe(no_mangle)]
pub extern "C" fn iop89_service_version() -> u32
    ensures { result ≡ 200 }
{
    200
}

// Runs the rows of a schedule on a processor; 12 clears the report too. What a closure leaves of a report that it borrows is
// not known after its call, so this does not go by `on_named`.
#[unsafe(no_mangle)]
pub extern "C" fn iop89_pair_schedule(
    processor: u32,
    one: &mut [u8],
    two: &mut [u8],
    sys: &mut [u8],
    io1: &mut [u8],
    io2: &mut [u8],
    rows: &[ScheduleRow],
    report: &mut [u64],
) -> u32
    ensures { lifted_to (reported result report.new) (processors one.new two.new) (memories sys.new io1.new io2.new) ≡ pair_schedule (processors one.old two.old) (memories sys.old io1.old io2.old) report.old processor rows.now }
{
    match processor {
        1 => schedule_calls::iop89_schedule(one, rows, sys, io1, report),
        2 => schedule_calls::iop89_schedule(two, rows, sys, io2, report),
        _ => {
            schedule_calls::counting::clear(report);
            Refusal::OutOfRange.number()
        }
    }
}
