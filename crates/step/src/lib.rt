// The step call: one instruction, one transfer step or one external end.
#![tactic(auto)]

ghost use Rattle.std.specs.Prelude.{◌≡◌};
ghost use Rattle.ground_rules.specs.Buffers.{lent};
ghost use Rattle.ground_rules.specs.Outcomes.{counted};
ghost use Rattle.ground_rules.specs.Refusals.{answered};
ghost use Rattle.ground_rules.specs.States.{channel_of};
ghost use Rattle.transfer_rules.specs.Ends.{externally_ended};
ghost use Rattle.turn_rules.specs.declared.Choice.TheVariants.{Steps};
ghost use Rattle.turn_rules.specs.declared.Kind.TheVariants.{External};
ghost use Rattle.turn_rules.specs.Touched.{touched_in, step_count};
ghost use Rattle.step.specs.Turns.{done_as, taken, turn_count, turn_number, turn_of, turn_touched};
ghost use Rattle.turn_rules.specs.Step.{stepped_by, stepped_count, channel_step, chosen_step, entry_number, step_of};

use ground_rules::{Channel, Done, Refusal, State};
use turn_rules::{Choice, Kind, Stepped};

// Which channel steps.
pub mod turns;

// What a channel's step that is done comes to: how many bytes it read and stored, the channel after it and its kind.
#[derive(Clone, Copy)]
pub struct Turn {
    pub count: u32,
    pub channel: Channel,
    pub kind: Kind,
}

// Why a channel's step is refused, and its kind.
#[derive(Clone, Copy)]
pub struct RefusedTurn {
    pub why: Refusal,
    pub kind: Kind,
}

// A done step: the channel is put back, and it was the last to step.
fn done(s: State, second: bool, t: Turn) -> Stepped
    ensures { result ≡ done_as s second t.channel t.kind t.count }
{
    Stepped {
        count: t.count,
        state: machine::states::with_last(
            machine::states::with_channel(s, second, t.channel),
            second,
        ),
        channel: machine::states::number(second),
        kind: t.kind,
    }
}

// What was done, as one kind of step. The channel is handed on by its parts, so that the compiler keeps it out of memory.
fn turned(d: Done, kind: Kind) -> Turn
    ensures { result ≡ record { count = d.count; channel = d.channel; kind = kind } }
{
    let held = d.channel.held;
    Turn {
        count: d.count,
        channel: machine::updates::holds(d.channel, held),
        kind,
    }
}

// One step of a channel that has its turn: a transfer step with XF, else an instruction. The channel comes beside the
// state, since a caller that keeps a state in bytes takes it from there alone.
pub fn channel_turn(
    s: State,
    second: bool,
    c: Channel,
    sys: &mut [u8],
    io: &mut [u8],
) -> Result<Turn, RefusedTurn>
    ensures left { taken c result (lent sys.new io.new) ≡ turn_of c s (lent sys.old io.old) second }
    ensures count { turn_count result ≡ counted (turn_number result) (turn_touched c s (lent sys.old io.old) second) }
{
    if machine::psw::transferring(c.psw) {
        return match transfer::transfer(c, sys, io) {
            Ok(moved) => Ok(turned(moved, Kind::Transfer)),
            Err(why) => Err(RefusedTurn {
                why,
                kind: Kind::Transfer,
            }),
        };
    }
    let busy = machine::states::busy(machine::states::block(s, second));
    match execute::execute(c, busy, sys, io) {
        Ok(executed) => Ok(turned(executed, Kind::Instruction)),
        Err(why) => Err(RefusedTurn {
            why,
            kind: Kind::Instruction,
        }),
    }
}

// The same with the state after it.
fn channel_step(s: State, second: bool, sys: &mut [u8], io: &mut [u8]) -> Result<Stepped, Refusal>
    ensures left { stepped_by s result (lent sys.new io.new) ≡ channel_step s (lent sys.old io.old) second }
    ensures count { stepped_count result ≡ counted (answered result) (touched_in (Steps second) s (lent sys.old io.old)) }
{
    match channel_turn(s, second, machine::states::channel(s, second), sys, io) {
        Ok(turn) => Ok(done(s, second, turn)),
        Err(refused) => Err(refused.why),
    }
}

// The external end of a channel's transfer, which is the whole step.
fn external_step(s: State, second: bool) -> Stepped
    ensures { result ≡ done_as s second (externally_ended (channel_of s second)) External 0 }
{
    let t = Turn {
        count: 0,
        channel: transfer::external_end(machine::states::channel(s, second)),
        kind: Kind::External,
    };
    done(s, second, t)
}

// The step of a choice.
fn chosen(choice: Choice, s: State, sys: &mut [u8], io: &mut [u8]) -> Result<Stepped, Refusal>
    ensures left { stepped_by s result (lent sys.new io.new) ≡ chosen_step choice s (lent sys.old io.old) }
    ensures count { stepped_count result ≡ counted (answered result) (touched_in choice s (lent sys.old io.old)) }
{
    match choice {
        Choice::Nobody => Err(Refusal::NothingSteps),
        Choice::Ends(second) => Ok(external_step(s, second)),
        Choice::Steps(second) => channel_step(s, second, sys, io),
    }
}

// What is refused of what a step is given: 12 for lines past 15, then 11, 10, 13 and 14.
pub fn check_entry(s: State, lines: u32, sys: &[u8], io: &[u8]) -> Result<(), Refusal>
    ensures { answered result ≡ entry_number s (lent sys.now io.now) lines }
{
    if 16 <= lines {
        return Err(Refusal::OutOfRange);
    }
    machine::states::check_given(s, sys, io)
}

// One step of the machine.
pub fn step(s: State, sys: &mut [u8], io: &mut [u8], lines: u32) -> Result<Stepped, Refusal>
    ensures left { stepped_by s result (lent sys.new io.new) ≡ step_of s (lent sys.old io.old) lines }
    ensures count { stepped_count result ≡ step_count s (lent sys.old io.old) lines }
{
    check_entry(s, lines, sys, io)?;
    chosen(turns::choose(s, lines), s, sys, io)
}
