// Makes a call of the script program's text on a machine, and puts what it shows on a page.
#![tactic(auto)]

ghost use Rattle.std.specs.Prelude.{◌≡◌, ◌+◌, ◌≤◌, [], length};
ghost use Rattle.ground_rules.specs.Buffers.{buffers, lent};
ghost use Rattle.ground_rules.specs.Choice.{pick};
ghost use Rattle.ground_rules.specs.States.{fresh_of};
ghost use Rattle.attention_rules.specs.Attention.{attention_of, attention_count};
ghost use Rattle.attention_rules.specs.Power.{power_up_of, power_count};
ghost use Rattle.listing_rules.specs.Characters.{ascii};
ghost use Rattle.page.specs.Pages.{sheet, written, Printed};
ghost use Rattle.prom_rules.specs.Load.{load_of};
ghost use Rattle.script_text.specs.Text.{spanned, fourth_span};
ghost use Rattle.script_text.specs.Buffers.{has_room};
ghost use Rattle.script_lines.specs.Lines.{refused_line, answer_line, counted_line};
ghost use Rattle.script_answers.specs.declared.NotMade.TheVariants.{PastTheEnd, NoPart};
ghost use Rattle.script_answers.specs.Machine.{machine, remade, put_into, machine_attended, machine_advanced, machine_powered, machine_swept, is_part, call_performed, call_made, not_made};
ghost use Rattle.script_answers.specs.Shown.{advanced_line, sweep_text, put_line, listed_text, load_text, call_text};

use ground_rules::State;
use page::Page;
use script_text::text::ScriptCall;
use script_text::{buffers, registers, text};
use std::fmt;
use turn_rules::Kind;

// Why a call was not made.
#[derive(Clone, Copy, PartialEq, Eq, Debug)]
pub enum NotMade {
    NoCall,
    PastTheEnd,
    NoPart,
}

// Whether a call was made, or why not, and how many bytes of text it showed.
#[derive(Clone, Copy)]
pub struct Performed {
    pub made: Result<(), NotMade>,
    pub count: usize,
}

impl fmt::Display for NotMade {
    fn fmt<W: fmt::Write>(&self, f: &mut fmt::Formatter<W>) -> fmt::Result {
        f.write_str(match self {
            NotMade::NoCall => "no call",
            NotMade::PastTheEnd => "a byte past the buffer's end",
            NotMade::NoPart => "no part of the buffer, or one of more than 1024 bytes",
        })
    }
}

// Shows that a call was not made, and answers why.
fn refused(page: &mut Page, why: NotMade) -> Result<(), NotMade>
    ensures line { sheet page.new ≡ written (sheet page.old) refused_line }
    ensures same { page.new.bytes.ghost_name ≡ page.old.bytes.ghost_name }
    ensures why { result ≡ Err why }
{
    page.append(b"?\n");
    Err(why)
}

// I/O memory or system memory.
fn chosen<'a>(io_space: bool, sys: &'a [u8], io: &'a [u8]) -> &'a [u8]
    ensures { result.now ≡ pick io_space io.now sys.now }
{
    if io_space { io } else { sys }
}

// Makes every byte 0, and a fresh state.
fn make(state: &mut State, cp: u32, sys: &mut [u8], io: &mut [u8], page: &mut Page)
    ensures io_value { machine state.new (lent sys.new io.new) ≡ remade (lent sys.old io.old) cp }
    ensures behind { sheet page.new ≡ written (sheet page.old) (answer_line (ascii "make ") (fresh_of cp).number) }
    ensures same { page.new.bytes.ghost_name ≡ page.old.bytes.ghost_name }
{
    sys.fill(0);
    io.fill(0);
    let fresh = machine::states::fresh(cp);
    *state = fresh.state;
    script_lines::answer_line(page, b"make ", fresh.number);
}

// Writes the bytes that are a line's fourth word, and answers whether they were written.
fn put(io_space: bool, address: u32, line: &[u8], sys: &mut [u8], io: &mut [u8]) -> bool
    ensures value { result ≡ has_room (pick io_space io.old sys.old) address (spanned line.now (fourth_span line.now)) }
    ensures io_value { lent sys.new io.new ≡ put_into (lent sys.old io.old) io_space address (spanned line.now (fourth_span line.now)) }
{
    let span = text::fourth_word(line);
    let digits = &line[span.from..span.to];
    if io_space {
        return buffers::put(io, address as usize, digits);
    }
    buffers::put(sys, address as usize, digits)
}

// The line of `put`.
#[tactic(auto, unfolding(crate::specs::Shown::put_line))]
fn put_line(page: &mut Page, made: bool) -> Result<(), NotMade>
    ensures why { result ≡ pick made (Ok tt) (Err PastTheEnd) }
    ensures behind { sheet page.new ≡ written (sheet page.old) (put_line made) }
    ensures same { page.new.bytes.ghost_name ≡ page.old.bytes.ghost_name }
{
    if !made {
        return refused(page, NotMade::PastTheEnd);
    }
    script_lines::answer_line(page, b"put ", 0);
    Ok(())
}

// Gives a channel attention.
fn attend(state: &mut State, channel: u32, sys: &mut [u8], io: &mut [u8], page: &mut Page)
    ensures io_value { machine state.new (lent sys.new io.new) ≡ machine_attended state.old (lent sys.old io.old) channel }
    ensures behind { sheet page.new ≡ written (sheet page.old) (counted_line (ascii "ca ") (attention_of state.old (lent sys.old io.old) channel).number (attention_count state.old (lent sys.old io.old) channel)) }
    ensures same { page.new.bytes.ghost_name ≡ page.old.bytes.ghost_name }
{
    match attention::attention(*state, sys, io, channel) {
        Ok(done) => {
            *state = done.state;
            script_lines::counted_line(page, b"ca ", 0, done.count);
        }
        Err(refusal) => script_lines::counted_line(page, b"ca ", refusal.number(), 0),
    }
}

// Makes a step.
fn advance(state: &mut State, lines: u32, sys: &mut [u8], io: &mut [u8], page: &mut Page)
    ensures io_value { machine state.new (lent sys.new io.new) ≡ machine_advanced state.old (lent sys.old io.old) lines }
    ensures behind { sheet page.new ≡ written (sheet page.old) (advanced_line state.old (lent sys.old io.old) lines) }
    ensures same { page.new.bytes.ghost_name ≡ page.old.bytes.ghost_name }
{
    match step::step(*state, sys, io, lines) {
        Ok(done) => {
            *state = done.state;
            script_lines::stepped_line(page, 0, done.channel, done.kind, done.count);
        }
        Err(refusal) => script_lines::stepped_line(page, refusal.number(), 0, Kind::Nothing, 0),
    }
}

// Whether a part of a buffer is listed: one byte to 1,024, none past the end.
#[tactic(auto, unfolding(crate::specs::Machine::is_part))]
fn is_part(bytes: &[u8], address: u32, count: u32) -> bool
    ensures { result ≡ is_part bytes.now address count }
{
    match count {
        1..=1024 => address as usize + count as usize <= bytes.len(),
        _ => false,
    }
}

// Lists a part of a buffer, right into what is left of the page: 32,768 bytes hold the text of any part.
fn list(bytes: &[u8], address: u32, count: u32, page: &mut Page) -> Result<(), NotMade>
    requires room { page.old.count + 32768 ≤ length page.old.bytes.now }
    ensures why { result ≡ pick (is_part bytes.now address count) (Ok tt) (Err NoPart) }
    ensures behind { sheet page.new ≡ written (sheet page.old) (listed_text bytes.now address count) }
    ensures same { page.new.bytes.ghost_name ≡ page.old.bytes.ghost_name }
{
    if !is_part(bytes, address, count) {
        return refused(page, NotMade::NoPart);
    }
    let from = address as usize;
    let part = &bytes[from..from + count as usize];
    let listed = lister::listings::list(part, address, &mut page.bytes[page.count..]);
    page.count += listed.characters as usize;
    Ok(())
}

// Loads a file into system memory.
fn load(file: &[u8], sys: &mut [u8], page: &mut Page)
    ensures sys_after { sys.new ≡ (load_of file.now (buffers sys.old [])).memory.sys }
    ensures behind { sheet page.new ≡ written (sheet page.old) (load_text (load_of file.now (buffers sys.old []))) }
    ensures same { page.new.bytes.ghost_name ≡ page.old.bytes.ghost_name }
{
    match prom::load(file, sys) {
        Ok(start) => script_lines::loaded_line(page, 0, 0, start),
        Err(refused) => script_lines::loaded_line(page, refused.why.number(), refused.line, 0),
    }
}

// Powers the machine up.
fn wake(state: &mut State, sys: &mut [u8], io: &mut [u8], page: &mut Page)
    ensures io_value { machine state.new (lent sys.new io.new) ≡ machine_powered state.old (lent sys.old io.old) }
    ensures behind { sheet page.new ≡ written (sheet page.old) (counted_line (ascii "power ") (power_up_of state.old (lent sys.old io.old)).number (power_count (lent sys.old io.old))) }
    ensures same { page.new.bytes.ghost_name ≡ page.old.bytes.ghost_name }
{
    match power::power_up(sys, io) {
        Ok(done) => {
            *state = done.state;
            script_lines::counted_line(page, b"power ", 0, done.count);
        }
        Err(refusal) => script_lines::counted_line(page, b"power ", refusal.number(), 0),
    }
}

// Makes a sweep.
fn sweep_channel(
    state: &mut State,
    channel: u32,
    lines: u32,
    sys: &mut [u8],
    io: &mut [u8],
    page: &mut Page,
)
    ensures io_value { machine state.new (lent sys.new io.new) ≡ machine_swept state.old (lent sys.old io.old) channel lines }
    ensures behind { sheet page.new ≡ written (sheet page.old) (sweep_text state.old (lent sys.old io.old) channel lines) }
    ensures same { page.new.bytes.ghost_name ≡ page.old.bytes.ghost_name }
{
    match sweep::sweep(*state, sys, io, channel, lines) {
        Ok(done) => {
            *state = done.state;
            script_lines::swept_line(page, 0, done.steps, done.count);
        }
        Err(refusal) => script_lines::swept_line(page, refusal.number(), 0, 0),
    }
}

// Makes the call of a line, and puts what it shows behind a text that leaves 32,768 bytes.
fn answer(
    state: &mut State,
    call: ScriptCall,
    line: &[u8],
    sys: &mut [u8],
    io: &mut [u8],
    page: &mut Page,
) -> Result<(), NotMade>
    requires room { page.old.count + 32768 ≤ length page.old.bytes.now }
    ensures io_value { machine state.new (lent sys.new io.new) ≡ call_performed call line.now state.old (lent sys.old io.old) }
    ensures why { result ≡ pick (call_made call line.now (lent sys.old io.old)) (Ok tt) (Err (not_made call)) }
    ensures behind { sheet page.new ≡ written (sheet page.old) (call_text call line.now state.old (lent sys.old io.old)) }
    ensures same { page.new.bytes.ghost_name ≡ page.old.bytes.ghost_name }
{
    match call {
        ScriptCall::Nothing => Ok(()),
        ScriptCall::Unknown => refused(page, NotMade::NoCall),
        ScriptCall::Make(_, _, cp) => {
            make(state, cp, sys, io, page);
            Ok(())
        }
        ScriptCall::Put(io_space, address) => {
            let made = put(io_space, address, line, sys, io);
            put_line(page, made)
        }
        ScriptCall::Set(channel, register, value) => {
            *state = registers::with_register(*state, channel, register, value);
            script_lines::answer_line(page, b"set ", 0);
            Ok(())
        }
        ScriptCall::Attention(channel) => {
            attend(state, channel, sys, io, page);
            Ok(())
        }
        ScriptCall::Step(lines) => {
            advance(state, lines, sys, io, page);
            Ok(())
        }
        ScriptCall::Dump => {
            script_lines::dump(page, *state, sys, io);
            Ok(())
        }
        ScriptCall::Show(io_space, address) => {
            script_lines::shown_line(page, chosen(io_space, sys, io), address);
            Ok(())
        }
        ScriptCall::Listing(io_space, address, count) => {
            list(chosen(io_space, sys, io), address, count, page)
        }
        ScriptCall::Load => {
            load(line, sys, page);
            Ok(())
        }
        ScriptCall::Reset => {
            *state = machine::states::reset();
            script_lines::answer_line(page, b"reset ", 0);
            Ok(())
        }
        ScriptCall::PowerUp => {
            wake(state, sys, io, page);
            Ok(())
        }
        ScriptCall::Sweep(channel, lines) => {
            sweep_channel(state, channel, lines, sys, io, page);
            Ok(())
        }
    }
}

// Makes the call of a line, in the buffers that are lent after it, and puts what it shows at the start of `out`; `line` is its line, for `prom` the file that follows it.
pub fn perform(
    state: &mut State,
    call: ScriptCall,
    line: &[u8],
    sys: &mut [u8],
    io: &mut [u8],
    out: &mut [u8; 32768],
) -> Performed
    ensures io_value { machine state.new (lent sys.new io.new) ≡ call_performed call line.now state.old (lent sys.old io.old) }
    ensures why { result.made ≡ pick (call_made call line.now (lent sys.old io.old)) (Ok tt) (Err (not_made call)) }
    ensures printed { Printed out.old out.new result.count (call_text call line.now state.old (lent sys.old io.old)) }
{
    let mut page = Page {
        bytes: out,
        count: 0,
    };
    let made = answer(state, call, line, sys, io, &mut page);
    Performed {
        made,
        count: page.count,
    }
}
