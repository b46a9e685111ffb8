// The text of the trace program (§9): a line for each done step, and the last line.
#![tactic(auto)]

ghost use Rattle.std.specs.Prelude.{◌≡◌};
ghost use Rattle.ground_rules.specs.Buffers.{lent};
ghost use Rattle.ground_rules.specs.Refusals.{answered};
ghost use Rattle.ground_rules.specs.States.{channel_of, is_second};
ghost use Rattle.attention_rules.specs.Attention.{attention_of};
ghost use Rattle.page.specs.Pages.{sheet, written, Printed};
ghost use Rattle.run_rules.specs.Run.{ran, steps_from, attended_run};
ghost use Rattle.trace_text.specs.Line.{line_of, end_line};
ghost use Rattle.trace_text.specs.Trace.{steps_text, attended_text, trace_of, traced_run};

use ground_rules::{Refusal, State};
use page::Page;
use turn_rules::Kind;

// How a traced run ended: the refusal that stopped it, none where it came to its limit, and the steps done; and how many bytes of text it left.
#[derive(Clone, Copy)]
pub struct Traced {
    pub end: Result<(), Refusal>,
    pub steps: u32,
    pub count: usize,
}

// The number of an end, 0 at the limit.
fn number(end: Result<(), Refusal>) -> u32
    ensures { result ≡ answered end }
{
    match end {
        Ok(()) => 0,
        Err(refusal) => refusal.number(),
    }
}

// Puts the line of a done step behind a text: its number, the channel, the kind, and TP of that channel in the state after it.
fn step_line(page: &mut Page, number: u32, channel: u32, kind: Kind, s: State)
    ensures behind { sheet page.new ≡ written (sheet page.old) (line_of number channel kind (channel_of s (is_second channel)).tp.address) }
    ensures same { page.new.bytes.ghost_name ≡ page.old.bytes.ghost_name }
{
    let c = machine::states::channel(s, machine::states::is_second(channel));
    let tp = c.tp.address;
    page.append_decimal(number);
    page.append(b" ");
    page.append_decimal(channel);
    page.append(&[b' ', page::letter(kind), b' ']);
    page.append_hex(u64::from(tp), 5, false);
    page.append(b"\n");
}

// Puts the last line behind a text, and answers the run that it ends.
fn end_line(page: &mut Page, end: Result<(), Refusal>, steps: u32) -> Traced
    ensures behind { sheet page.new ≡ written (sheet page.old) (end_line (answered end) steps) }
    ensures same { page.new.bytes.ghost_name ≡ page.old.bytes.ghost_name }
    ensures run { (result.end ≡ end) × (result.steps ≡ steps) × (result.count ≡ page.new.count) }
{
    page.append(b"end ");
    page.append_decimal(number(end));
    page.append(b" ");
    page.append_decimal(steps);
    page.append(b"\n");
    Traced {
        end,
        steps,
        count: page.count,
    }
}

// The text of at most 1,000 steps with no line up.
fn steps(s: State, sys: &mut [u8], io: &mut [u8], page: &mut Page) -> Traced
    ensures behind { sheet page.new ≡ written (sheet page.old) (steps_text 1000 s (lent sys.old io.old) 0) }
    ensures same { page.new.bytes.ghost_name ≡ page.old.bytes.ghost_name }
    ensures io_value { ran (answered result.end) result.steps (lent sys.new io.new) ≡ steps_from 1000 s (lent sys.old io.old) 0 0 }
    ensures count { result.count ≡ page.new.count }
{
    let mut state = s;
    for done in 0..1000 {
        match step::step(state, sys, io, 0) {
            Ok(step) => {
                state = step.state;
                step_line(page, done + 1, step.channel, step.kind, state);
            }
            Err(refusal) => return end_line(page, Err(refusal), done),
        }
    }
    end_line(page, Ok(()), 1000)
}

// The text of one attention to channel 1, and of the steps after it.
fn attended(s: State, sys: &mut [u8], io: &mut [u8], page: &mut Page) -> Traced
    ensures behind { sheet page.new ≡ written (sheet page.old) (attended_text (attention_of s (lent sys.old io.old) 1)) }
    ensures same { page.new.bytes.ghost_name ≡ page.old.bytes.ghost_name }
    ensures io_value { ran (answered result.end) result.steps (lent sys.new io.new) ≡ attended_run (attention_of s (lent sys.old io.old) 1) 0 1000 }
    ensures count { result.count ≡ page.new.count }
{
    match attention::attention(s, sys, io, 1) {
        Ok(done) => steps(done.state, sys, io, page),
        Err(refusal) => end_line(page, Err(refusal), 0),
    }
}

// Puts the whole text of an input at the start of `out`, and leaves in the input what its run left in system memory.
pub fn trace(input: &mut [u8], out: &mut [u8; 32768]) -> Traced
    ensures printed { Printed out.old out.new result.count (trace_of input.old) }
    ensures number_value { (answered result.end ≡ (traced_run input.old).number) × (result.steps ≡ (traced_run input.old).steps) × (input.new ≡ (traced_run input.old).memory.sys) }
{
    let mut page = Page {
        bytes: out,
        count: 0,
    };
    if 4096 < input.len() {
        return end_line(&mut page, Err(Refusal::BufferTooLong), 0);
    }
    let mut space = [0u8; 256];
    let fresh = machine::states::fresh(0);
    attended(fresh.state, input, &mut space, &mut page)
}
