// The lines that the script program shows, put on a page behind the text that it has: answers of calls, bytes, and dumps.
#![tactic(auto)]

ghost use Rattle.std.specs.Prelude.{◌≡◌};
ghost use Rattle.ground_rules.specs.Buffers.{buffers, lent};
ghost use Rattle.ground_rules.specs.Cc.{joined};
ghost use Rattle.page.specs.Pages.{sheet, written};
ghost use Rattle.script_lines.specs.Lines.{answer_line, count_text, counted_line, stepped_line, swept_line, loaded_line, register_text, mark_number, pointer_text, pointers_text, numbers_text, number_of_mode, marks_text, channel_line, buffer_text, board_text, shared_line, dump_text, byte_text, bytes_text, shown_line};

use ground_rules::{Board, Channel, Mode, Pointer, State};
use page::Page;
use script_text::buffers;
use turn_rules::Kind;

// A call's name and its number.
pub fn answer_line(page: &mut Page, name: &[u8], number: u32)
    ensures put { sheet page.new ≡ written (sheet page.old) (answer_line name.now number) }
    ensures same { page.new.bytes.ghost_name ≡ page.old.bytes.ghost_name }
{
    page.append(name);
    page.append_decimal(number);
    page.append(b"\n");
}

// How many bytes a call read and stored, which ends its line.
fn count_text(page: &mut Page, count: u32)
    ensures put { sheet page.new ≡ written (sheet page.old) (count_text count) }
    ensures same { page.new.bytes.ghost_name ≡ page.old.bytes.ghost_name }
{
    page.append(b" ");
    page.append_decimal(count);
    page.append(b"\n");
}

// A call's name, its number and its count.
pub fn counted_line(page: &mut Page, name: &[u8], number: u32, count: u32)
    ensures put { sheet page.new ≡ written (sheet page.old) (counted_line name.now number count) }
    ensures same { page.new.bytes.ghost_name ≡ page.old.bytes.ghost_name }
{
    page.append(name);
    page.append_decimal(number);
    count_text(page, count);
}

// What a step answered: its number, the channel, the letter of its kind, and its count.
pub fn stepped_line(page: &mut Page, number: u32, channel: u32, kind: Kind, count: u32)
    ensures put { sheet page.new ≡ written (sheet page.old) (stepped_line number channel kind count) }
    ensures same { page.new.bytes.ghost_name ≡ page.old.bytes.ghost_name }
{
    page.append(b"step ");
    page.append_decimal(number);
    page.append(b" ");
    page.append_decimal(channel);
    page.append(&[b' ', page::letter(kind)]);
    count_text(page, count);
}

// What a sweep answered: its number, the steps that it stands for, and its count.
pub fn swept_line(page: &mut Page, number: u32, steps: u32, count: u32)
    ensures put { sheet page.new ≡ written (sheet page.old) (swept_line number steps count) }
    ensures same { page.new.bytes.ghost_name ≡ page.old.bytes.ghost_name }
{
    page.append(b"sweep ");
    page.append_decimal(number);
    page.append(b" ");
    page.append_decimal(steps);
    count_text(page, count);
}

// What a load answered: its number, the line that decided, and the start address.
pub fn loaded_line(page: &mut Page, number: u32, line: u32, start: u32)
    ensures put { sheet page.new ≡ written (sheet page.old) (loaded_line number line start) }
    ensures same { page.new.bytes.ghost_name ≡ page.old.bytes.ghost_name }
{
    page.append(b"prom ");
    page.append_decimal(number);
    page.append(b" ");
    page.append_decimal(line);
    page.append(b" ");
    page.append_hex(u64::from(start), 8, true);
    page.append(b"\n");
}

// A register behind its name, in so many digits.
fn register(page: &mut Page, name: &[u8], value: u64, width: usize)
    ensures put { sheet page.new ≡ written (sheet page.old) (register_text name.now value width) }
    ensures same { page.new.bytes.ghost_name ≡ page.old.bytes.ghost_name }
{
    page.append(name);
    page.append_hex(value, width, true);
}

// A tag or a mark behind its name: 1 where it is set.
#[tactic(auto, unfolding(crate::specs::Lines::mark_number))]
fn mark(page: &mut Page, name: &[u8], mark: bool)
    ensures put { sheet page.new ≡ written (sheet page.old) (register_text name.now (mark_number mark) 1) }
    ensures same { page.new.bytes.ghost_name ≡ page.old.bytes.ghost_name }
{
    register(page, name, u64::from(mark), 1);
}

// A pointer behind its name, and its tag.
fn pointer(page: &mut Page, name: &[u8], p: Pointer)
    ensures put { sheet page.new ≡ written (sheet page.old) (pointer_text name.now p) }
    ensures same { page.new.bytes.ghost_name ≡ page.old.bytes.ghost_name }
{
    register(page, name, u64::from(p.address), 8);
    mark(page, b" ", p.tag);
}

// The pointers of a channel.
fn pointers(page: &mut Page, c: Channel)
    ensures put { sheet page.new ≡ written (sheet page.old) (pointers_text c.ga c.gb c.gc c.tp) }
    ensures same { page.new.bytes.ghost_name ≡ page.old.bytes.ghost_name }
{
    pointer(page, b" ga ", c.ga);
    pointer(page, b" gb ", c.gb);
    pointer(page, b" gc ", c.gc);
    pointer(page, b" tp ", c.tp);
}

// The numbers of a channel.
fn numbers(page: &mut Page, c: Channel)
    ensures put { sheet page.new ≡ written (sheet page.old) (numbers_text c.pp c.bc c.ix c.cc (joined c.fields) c.mc c.psw) }
    ensures same { page.new.bytes.ghost_name ≡ page.old.bytes.ghost_name }
{
    register(page, b" pp ", u64::from(c.pp), 8);
    register(page, b" bc ", u64::from(c.bc), 4);
    register(page, b" ix ", u64::from(c.ix), 4);
    register(page, b" cc ", u64::from(c.cc), 4);
    register(
        page,
        b" fields ",
        u64::from(machine::cc::joined(c.fields)),
        4,
    );
    register(page, b" mc ", u64::from(c.mc), 4);
    register(page, b" psw ", u64::from(c.psw), 2);
}

// 0 for idle, 1 for running, 2 for suspended.
#[tactic(auto, unfolding(crate::specs::Lines::number_of_mode))]
fn number_of_mode(mode: Mode) -> u64
    ensures { result ≡ number_of_mode mode }
{
    match mode {
        Mode::Idle => 0,
        Mode::Running => 1,
        Mode::Suspended => 2,
    }
}

// The mode of a channel, its armed mark and what it holds, which end its line.
fn marks(page: &mut Page, c: Channel)
    ensures put { sheet page.new ≡ written (sheet page.old) (marks_text c.mode c.armed c.held) }
    ensures same { page.new.bytes.ghost_name ≡ page.old.bytes.ghost_name }
{
    register(page, b" mode ", number_of_mode(c.mode), 1);
    mark(page, b" arm ", c.armed);
    register(
        page,
        b" held ",
        u64::from(machine::holdings::number(c.held)),
        4,
    );
    page.append(b"\n");
}

// A channel's line of a dump.
fn channel_line(page: &mut Page, name: &[u8], c: Channel)
    ensures put { sheet page.new ≡ written (sheet page.old) (channel_line name.now c) }
    ensures same { page.new.bytes.ghost_name ≡ page.old.bytes.ghost_name }
{
    page.append(name);
    pointers(page, c);
    numbers(page, c);
    marks(page, c);
}

// A buffer behind its name: its length, and the digest of its bytes.
fn buffer(page: &mut Page, name: &[u8], bytes: &[u8])
    ensures put { sheet page.new ≡ written (sheet page.old) (buffer_text name.now bytes.now) }
    ensures same { page.new.bytes.ghost_name ≡ page.old.bytes.ghost_name }
{
    register(page, name, bytes.len() as u64, 8);
    register(page, b" ", u64::from(buffers::digest(bytes)), 8);
}

// What the board set up.
fn board_marks(page: &mut Page, board: Board)
    ensures put { sheet page.new ≡ written (sheet page.old) (board_text board) }
    ensures same { page.new.bytes.ghost_name ≡ page.old.bytes.ghost_name }
{
    mark(page, b" up ", board.powered);
    mark(page, b" sysbus ", board.sysbus);
    mark(page, b" soc ", board.soc);
    mark(page, b" grant ", board.grant);
}

// A dump's line of what both channels share.
fn shared_line(page: &mut Page, s: State, sys: &[u8], io: &[u8])
    ensures put { sheet page.new ≡ written (sheet page.old) (shared_line s.cp s.last s.board sys.now io.now) }
    ensures same { page.new.bytes.ghost_name ≡ page.old.bytes.ghost_name }
{
    register(page, b"cp ", u64::from(s.cp), 8);
    register(
        page,
        b" last ",
        u64::from(machine::states::number(s.last)),
        1,
    );
    board_marks(page, s.board);
    buffer(page, b" sys ", sys);
    buffer(page, b" io ", io);
    page.append(b"\n");
}

// The three lines of a dump.
pub fn dump(page: &mut Page, s: State, sys: &[u8], io: &[u8])
    ensures put { sheet page.new ≡ written (sheet page.old) (dump_text s (lent sys.now io.now)) }
    ensures same { page.new.bytes.ghost_name ≡ page.old.bytes.ghost_name }
{
    channel_line(page, b"ch 1", s.first);
    channel_line(page, b"ch 2", s.second);
    shared_line(page, s, sys, io);
}

// The byte at an index of a buffer, or two dashes past its end.
fn byte(page: &mut Page, bytes: &[u8], index: usize)
    ensures put { sheet page.new ≡ written (sheet page.old) (byte_text bytes.now index) }
    ensures same { page.new.bytes.ghost_name ≡ page.old.bytes.ghost_name }
{
    match bytes.get(index) {
        Some(byte) => register(page, b" ", u64::from(*byte), 2),
        None => page.append(b" --"),
    }
}

// Sixteen bytes from an index on.
fn sixteen(page: &mut Page, bytes: &[u8], from: u32)
    ensures put { sheet page.new ≡ written (sheet page.old) (bytes_text 16 bytes.now from) }
    ensures same { page.new.bytes.ghost_name ≡ page.old.bytes.ghost_name }
{
    let start = from as usize;
    for offset in 0..16 {
        byte(page, bytes, start + offset);
    }
}

// The line of sixteen bytes of a buffer.
pub fn shown_line(page: &mut Page, bytes: &[u8], from: u32)
    ensures put { sheet page.new ≡ written (sheet page.old) (shown_line bytes.now from) }
    ensures same { page.new.bytes.ghost_name ≡ page.old.bytes.ghost_name }
{
    page.append(b"show");
    sixteen(page, bytes, from);
    page.append(b"\n");
}
