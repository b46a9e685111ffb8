// A bench schedule for C: rows are run from a state's bytes, and their report is left in lent words.
#![tactic(auto)]

ghost use mathlib.Core.{Bool.true, Bool.◌||◌, Path.◌≡◌};
ghost use Rattle.ground_rules.specs.{Choice.pick, Buffers.lent, Refusals.answered};
ghost use Rattle.state_rules.specs.Layout.{bytes_of, state_in, is_state};
ghost use Rattle.schedule_rules.specs.{Rows.is_attention, Rows.is_step, Rows.all_known};
ghost use Rattle.schedule_calls.specs.Calls.{ScheduleMet};
ghost use Rattle.schedule_calls.specs.Turns.{standing, StateBytes, RowRun, attention_row, step_row};

use ground_rules::Refusal;
use rows::RowKind;
use schedule_rules::ScheduleRow;

// The words of a report.
pub mod counting;
// What a row finds of a channel before its step.
mod finding;
// A row as what it asks for.
mod rows;

// Whether a schedule is run: on the bytes of a state, of rows of known kinds.
fn admitted(state: &[u8], rows: &[ScheduleRow]) -> Result<(), Refusal>
    ensures { answered result ≡ pick (is_state state.now) (pick (all_known rows.now) 0 16) 17 }
{
    if !state_bytes::layout::is_state(state) {
        return Err(Refusal::NotAState);
    }
    if !rows::all_known(rows) {
        return Err(Refusal::UnknownRow);
    }
    Ok(())
}

// A row that is an attention to a channel.
fn attend(state: &mut [u8], channel: u32, sys: &mut [u8], io: &mut [u8], report: &mut [u64])
    requires { StateBytes state.old }
    ensures { RowRun (attention_row channel) (standing state.old (lent sys.old io.old) report.old) (standing state.new (lent sys.new io.new) report.new) }
{
    let answer = service::iop89_attention(state, sys, io, channel);
    counting::attention(report, answer % 256 == 0, channel);
}

// A row that is a step with a line number.
fn step(state: &mut [u8], lines: u32, sys: &mut [u8], io: &mut [u8], report: &mut [u64])
    requires { StateBytes state.old }
    ensures { RowRun (step_row lines) (standing state.old (lent sys.old io.old) report.old) (standing state.new (lent sys.new io.new) report.new) }
{
    let first = finding::find(state_bytes::layout::channel(state, false), lines, false);
    let second = finding::find(state_bytes::layout::channel(state, true), lines, true);
    let answer = service::iop89_step(state, sys, io, lines);
    counting::step(report, first, second, answer);
}

// The turn of one row of a known kind.
fn turn(state: &mut [u8], row: ScheduleRow, sys: &mut [u8], io: &mut [u8], report: &mut [u64])
    requires state { StateBytes state.old }
    requires known { (is_attention row || is_step row) ≡ true }
    ensures { RowRun row (standing state.old (lent sys.old io.old) report.old) (standing state.new (lent sys.new io.new) report.new) }
{
    match RowKind::try_from(row) {
        Ok(RowKind::Attention(channel)) => attend(state, channel, sys, io, report),
        Ok(RowKind::Step(lines)) => step(state, lines, sys, io, report),
        Err(_) => {}
    }
}

// Runs the rows of a schedule.
#[unsafe(no_mangle)]
pub extern "C" fn iop89_schedule(
    state: &mut [u8],
    rows: &[ScheduleRow],
    sys: &mut [u8],
    io: &mut [u8],
    report: &mut [u64],
) -> u32
    ensures { ScheduleMet result (standing state.new (lent sys.new io.new) report.new) (standing state.old (lent sys.old io.old) report.old) rows.now }
{
    counting::clear(report);
    if let Err(refusal) = admitted(state, rows) {
        return refusal.number();
    }
    for row in rows {
        turn(state, *row, sys, io, report);
    }
    0
}
