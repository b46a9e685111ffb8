// A whole state in 104 bytes: pointers, fields of CC, channels, what the board set up and the state itself, read, tested
// and put.
ghost use Rattle.std.specs.Prelude.{true, ◌&&◌, ◌≡◌, ◌+◌, ◌<◌, ◌≤◌, length};
ghost use Rattle.std.proofs.lemmas.List.Edits.{sets};
ghost use Rattle.ground_rules.specs.Cc.{joined, split};
ghost use Rattle.ground_rules.specs.Choice.{pick};
ghost use Rattle.ground_rules.specs.States as States;
ghost use Rattle.ground_rules.specs.States.{channel_of, with_channel, with_last, fields_agree};
ghost use Rattle.state_rules.specs.Conditions.{ChannelFits};
ghost use Rattle.ground_rules.specs.Holdings.{is_held_number};
ghost use Rattle.state_rules.specs.Fields.{little_in};
ghost use Rattle.state_bytes.specs.Puts.{front_bytes, put_agreeing};
ghost use Rattle.state_bytes.specs.Tests.{tags_fit, flags_fit, codes_fit};
ghost use Rattle.state_rules.specs.Layout.{pointer_bytes, pointers_bytes, numbers_bytes, marks_bytes, sides_bytes, ends_bytes, fields_bytes, held_bytes, channel_bytes, board_bytes, bytes_of, pointer_in, fields_in, channel_in, board_in, state_in, is_fields, is_board, is_state, state_length, held_place, first_at, second_from, block_from};

use crate::fields;
use ground_rules::{Board, Channel, Fields, Pointer, State};

// Where the block of channel 1 starts.
const FIRST_AT: usize = 10;

// Where the block of channel 2 starts.
const SECOND_AT: usize = 57;

// Where the block of a channel starts.
fn block_at(second: bool) -> usize
    ensures { result ≡ block_from second }
{
    if second { SECOND_AT } else { FIRST_AT }
}

// The pointer at an offset.
fn pointer_in(bytes: &[u8], at: usize) -> Pointer
    requires { at + 5 ≤ length bytes.now }
    ensures { result ≡ pointer_in bytes.now at }
{
    Pointer {
        address: fields::long(bytes, at),
        tag: fields::flag(bytes, at + 4),
    }
}

// The fields of CC from an offset on.
fn fields_in(bytes: &[u8], at: usize) -> Fields
    requires { at + 10 ≤ length bytes.now }
    ensures { result ≡ fields_in bytes.now at }
{
    Fields {
        destinationMoves: fields::flag(bytes, at),
        sourceMoves: fields::flag(bytes, at + 1),
        translates: fields::flag(bytes, at + 2),
        synchronised: fields::byte(bytes, at + 3),
        sourceIsGB: fields::flag(bytes, at + 4),
        chained: fields::flag(bytes, at + 5),
        singleTransfer: fields::flag(bytes, at + 6),
        externalEnd: fields::byte(bytes, at + 7),
        countEnd: fields::byte(bytes, at + 8),
        matchEnd: fields::byte(bytes, at + 9),
    }
}

// The channel whose block starts at an offset.
fn channel_in(bytes: &[u8], at: usize) -> Channel
    requires { at + 47 ≤ length bytes.now }
    ensures { result ≡ channel_in bytes.now at }
{
    Channel {
        ga: pointer_in(bytes, at),
        gb: pointer_in(bytes, at + 5),
        gc: pointer_in(bytes, at + 10),
        tp: pointer_in(bytes, at + 15),
        pp: fields::long(bytes, at + 20),
        bc: fields::word(bytes, at + 24),
        ix: fields::word(bytes, at + 26),
        cc: fields::word(bytes, at + 28),
        mc: fields::word(bytes, at + 30),
        psw: fields::byte(bytes, at + 32),
        mode: fields::mode(bytes, at + 33),
        armed: fields::flag(bytes, at + 34),
        fields: fields_in(bytes, at + 35),
        held: machine::holdings::from(fields::word(bytes, at + 45) as u32),
    }
}

// What the board set up.
fn board_in(bytes: &[u8]) -> Board
    requires { 10 ≤ length bytes.now }
    ensures { result ≡ board_in bytes.now }
{
    Board {
        powered: fields::flag(bytes, 6),
        sysbus: fields::flag(bytes, 7),
        soc: fields::flag(bytes, 8),
        grant: fields::flag(bytes, 9),
    }
}

// The state that bytes stand for.
pub fn state_in(bytes: &[u8]) -> State
    requires { length bytes.now ≡ state_length }
    ensures { result ≡ state_in bytes.now }
{
    State {
        first: channel_in(bytes, FIRST_AT),
        second: channel_in(bytes, SECOND_AT),
        cp: fields::long(bytes, 1),
        last: fields::flag(bytes, 5),
        board: board_in(bytes),
    }
}

// The same for the step, which looks at a part of it: a function of one caller is inlined, and what is not looked at is
// not read.
pub fn looked_at(bytes: &[u8]) -> State
    requires { length bytes.now ≡ state_length }
    ensures { result ≡ state_in bytes.now }
{
    State {
        first: channel_in(bytes, FIRST_AT),
        second: channel_in(bytes, SECOND_AT),
        cp: fields::long(bytes, 1),
        last: fields::flag(bytes, 5),
        board: board_in(bytes),
    }
}

// The channel of a name.
pub fn channel(bytes: &[u8], second: bool) -> Channel
    requires { length bytes.now ≡ state_length }
    ensures { result ≡ channel_of (state_in bytes.now) second }
{
    channel_in(bytes, block_at(second))
}

// The same where the fields of CC agree with it: they are worked out of CC, which the compiler does only where they are used.
pub fn stepping(bytes: &[u8], second: bool) -> Channel
    requires { (is_state bytes.now ≡ true) × (States.agree (state_in bytes.now) ≡ true) }
    ensures { result ≡ channel_of (state_in bytes.now) second }
{
    let mut c = channel_in(bytes, block_at(second));
    c.fields = machine::cc::split(c.cc);
    c
}

// Whether the tags and the armed mark of a block are truth values.
fn tags_fit(bytes: &[u8], at: usize) -> bool
    requires { at + 47 ≤ length bytes.now }
    ensures { result ≡ tags_fit bytes.now at }
{
    fields::is_flag(bytes, at + 4)
        & fields::is_flag(bytes, at + 9)
        & fields::is_flag(bytes, at + 14)
        & fields::is_flag(bytes, at + 19)
        & fields::is_flag(bytes, at + 34)
}

// Whether the flags of CC are truth values.
fn flags_fit(bytes: &[u8], at: usize) -> bool
    requires { at + 10 ≤ length bytes.now }
    ensures { result ≡ flags_fit bytes.now at }
{
    fields::is_flag(bytes, at)
        & fields::is_flag(bytes, at + 1)
        & fields::is_flag(bytes, at + 2)
        & fields::is_flag(bytes, at + 4)
        & fields::is_flag(bytes, at + 5)
        & fields::is_flag(bytes, at + 6)
}

// Whether SYN, TX and TBC have two bits.
fn codes_fit(bytes: &[u8], at: usize) -> bool
    requires { at + 10 ≤ length bytes.now }
    ensures { result ≡ codes_fit bytes.now at }
{
    fields::is_code(bytes, at + 3, 4)
        & fields::is_code(bytes, at + 7, 4)
        & fields::is_code(bytes, at + 8, 4)
}

// Whether a held number is one.
fn held_fits(bytes: &[u8], at: usize) -> bool
    requires { at + 2 ≤ length bytes.now }
    ensures { result ≡ is_held_number (little_in 2 bytes.now at) }
{
    machine::holdings::stands(fields::word(bytes, at) as u32)
}

// Whether those of both blocks are. Most often neither holds a byte, which is asked first.
fn both_held_fit(bytes: &[u8]) -> bool
    requires { length bytes.now ≡ state_length }
    ensures { result ≡ is_held_number (little_in 2 bytes.now (first_at + held_place)) && is_held_number (little_in 2 bytes.now (second_from + held_place)) }
{
    if (fields::word(bytes, FIRST_AT + 45) == 0) & (fields::word(bytes, SECOND_AT + 45) == 0) {
        return true;
    }
    held_fits(bytes, FIRST_AT + 45) & held_fits(bytes, SECOND_AT + 45)
}

// Whether what the board set up is four truth values.
fn is_board(bytes: &[u8]) -> bool
    requires { 10 ≤ length bytes.now }
    ensures { result ≡ is_board bytes.now }
{
    fields::is_flag(bytes, 6)
        & fields::is_flag(bytes, 7)
        & fields::is_flag(bytes, 8)
        & fields::is_flag(bytes, 9)
}

// Whether bytes are a state. Those that must be below the same number stand together, of both blocks, so that they are put
// into one byte by `or` and tested once; what is held is asked behind a branch of its own.
pub fn is_state(bytes: &[u8]) -> bool
    ensures { result ≡ is_state bytes.now }
{
    if bytes.len() != 104 {
        return false;
    }
    let fit = (fields::byte(bytes, 0) == 4)
        & (fields::is_flag(bytes, 5)
            & is_board(bytes)
            & (tags_fit(bytes, FIRST_AT) & flags_fit(bytes, FIRST_AT + 35))
            & (tags_fit(bytes, SECOND_AT) & flags_fit(bytes, SECOND_AT + 35)))
        & (codes_fit(bytes, FIRST_AT + 35) & codes_fit(bytes, SECOND_AT + 35))
        & (fields::is_code(bytes, FIRST_AT + 44, 8) & fields::is_code(bytes, SECOND_AT + 44, 8))
        & (fields::is_mode(bytes, FIRST_AT + 33) & fields::is_mode(bytes, SECOND_AT + 33));
    if !fit {
        return false;
    }
    both_held_fit(bytes)
}

// The CC that the fields from an offset on make up, its LOCK bit, between the source's and the chained one, at 0. Four of
// them at a time are read as one number, and one product puts them side by side from bit 24 on.
fn joined_in(bytes: &[u8], at: usize) -> u32
    requires { (at + 10 ≤ length bytes.now) × (is_fields bytes.now at ≡ true) }
    ensures { result ≡ joined (fields_in bytes.now at) }
{
    let sides = fields::long(bytes, at) as u64 * 268960769 / 16777216 % 32;
    let ends = fields::long(bytes, at + 4) as u64 * 537396225 / 16777216 % 64;
    let count = fields::byte(bytes, at + 8) as u32;
    let matching = fields::byte(bytes, at + 9) as u32;
    sides as u32 * 2048 + ends as u32 * 32 + count * 8 + matching
}

// Whether the fields of a block are those of its CC: they make it up but for its LOCK bit.
fn agrees(bytes: &[u8], at: usize) -> bool
    requires { (at + 47 ≤ length bytes.now) × (is_fields bytes.now (at + 35) ≡ true) }
    ensures { result ≡ fields_agree (channel_in bytes.now at) }
{
    let cc = fields::word(bytes, at + 28);
    joined_in(bytes, at + 35) == machine::cc::without_lock(cc) as u32
}

// Whether the fields of both channels are those of their CC; asked field by field that takes some 60 instructions more.
pub fn agree(bytes: &[u8]) -> bool
    requires { is_state bytes.now ≡ true }
    ensures { result ≡ States.agree (state_in bytes.now) }
{
    agrees(bytes, FIRST_AT) & agrees(bytes, SECOND_AT)
}

// A pointer put at an offset.
fn put_pointer(bytes: &mut [u8], at: usize, p: Pointer)
    requires { at + 5 ≤ length bytes.old }
    ensures { bytes.new ≡ sets bytes.old at (pointer_bytes p) }
{
    fields::put_long(bytes, at, p.address);
    fields::put(bytes, at + 4, fields::flag_byte(p.tag));
}

// The four pointers of a channel put at an offset.
fn put_pointers(bytes: &mut [u8], at: usize, c: Channel)
    requires { at + 20 ≤ length bytes.old }
    ensures { bytes.new ≡ sets bytes.old at (pointers_bytes c) }
{
    put_pointer(bytes, at, c.ga);
    put_pointer(bytes, at + 5, c.gb);
    put_pointer(bytes, at + 10, c.gc);
    put_pointer(bytes, at + 15, c.tp);
}

// PP and the registers of sixteen bits put at an offset.
fn put_numbers(bytes: &mut [u8], at: usize, c: Channel)
    requires { at + 12 ≤ length bytes.old }
    ensures { bytes.new ≡ sets bytes.old at (numbers_bytes c) }
{
    fields::put_long(bytes, at, c.pp);
    fields::put_word(bytes, at + 4, c.bc);
    fields::put_word(bytes, at + 6, c.ix);
    fields::put_word(bytes, at + 8, c.cc);
    fields::put_word(bytes, at + 10, c.mc);
}

// PSW, the mode and the armed mark put at an offset.
fn put_marks(bytes: &mut [u8], at: usize, c: Channel)
    requires { at + 3 ≤ length bytes.old }
    ensures { bytes.new ≡ sets bytes.old at (marks_bytes c) }
{
    let mode = c.mode;
    fields::put(bytes, at, c.psw);
    fields::put(bytes, at + 1, fields::mode_byte(mode));
    fields::put(bytes, at + 2, fields::flag_byte(c.armed));
}

// The fields of CC for a transfer's sides put at an offset.
fn put_sides(bytes: &mut [u8], at: usize, f: Fields)
    requires { at + 5 ≤ length bytes.old }
    ensures { bytes.new ≡ sets bytes.old at (sides_bytes f) }
{
    fields::put(bytes, at, fields::flag_byte(f.destinationMoves));
    fields::put(bytes, at + 1, fields::flag_byte(f.sourceMoves));
    fields::put(bytes, at + 2, fields::flag_byte(f.translates));
    fields::put(bytes, at + 3, f.synchronised);
    fields::put(bytes, at + 4, fields::flag_byte(f.sourceIsGB));
}

// The chained bit and the fields for a transfer's ends put at an offset.
fn put_ends(bytes: &mut [u8], at: usize, f: Fields)
    requires { at + 5 ≤ length bytes.old }
    ensures { bytes.new ≡ sets bytes.old at (ends_bytes f) }
{
    fields::put(bytes, at, fields::flag_byte(f.chained));
    fields::put(bytes, at + 1, fields::flag_byte(f.singleTransfer));
    fields::put(bytes, at + 2, f.externalEnd);
    fields::put(bytes, at + 3, f.countEnd);
    fields::put(bytes, at + 4, f.matchEnd);
}

// All fields of CC put at an offset.
fn put_fields(bytes: &mut [u8], at: usize, f: Fields)
    requires { at + 10 ≤ length bytes.old }
    ensures { bytes.new ≡ sets bytes.old at (fields_bytes f) }
{
    put_sides(bytes, at, f);
    put_ends(bytes, at + 5, f);
}

// The fields of a CC put at an offset, unless those of the same CC stand there.
fn put_changed(bytes: &mut [u8], at: usize, same: bool, cc: u16)
    requires { at + 10 ≤ length bytes.old }
    ensures { bytes.new ≡ pick same bytes.old (sets bytes.old at (fields_bytes (split cc))) }
{
    if !same {
        put_fields(bytes, at, machine::cc::split(cc));
    }
}

// What a channel's block has before the fields of CC put at an offset; its registers have the widths of their types.
fn put_front(bytes: &mut [u8], at: usize, c: Channel)
    requires { at + 35 ≤ length bytes.old }
    ensures fits { ChannelFits c }
    ensures put { bytes.new ≡ sets bytes.old at (front_bytes c) }
{
    put_pointers(bytes, at, c);
    put_numbers(bytes, at + 20, c);
    put_marks(bytes, at + 32, c);
}

// What a channel holds put at an offset.
fn put_held(bytes: &mut [u8], at: usize, c: Channel)
    requires { at + 2 ≤ length bytes.old }
    ensures { bytes.new ≡ sets bytes.old at (held_bytes c) }
{
    let held = c.held;
    fields::put_word(bytes, at, machine::holdings::number(held));
}

// A channel's block put at an offset.
fn put_channel(bytes: &mut [u8], at: usize, c: Channel)
    requires { at + 47 ≤ length bytes.old }
    ensures fits { ChannelFits c }
    ensures put { bytes.new ≡ sets bytes.old at (channel_bytes c) }
{
    put_front(bytes, at, c);
    put_fields(bytes, at + 35, c.fields);
    put_held(bytes, at + 45, c);
}

// The block of a channel whose fields agree with CC put over one whose fields do: they are put where CC changed.
fn put_agreeing(bytes: &mut [u8], at: usize, c: Channel)
    requires { at + 47 ≤ length bytes.old }
    ensures fits { ChannelFits c }
    ensures put { bytes.new ≡ put_agreeing bytes.old at c }
{
    let same = fields::word(bytes, at + 28) == c.cc;
    put_front(bytes, at, c);
    put_changed(bytes, at + 35, same, c.cc);
    put_held(bytes, at + 45, c);
}

// What the board set up put at its place.
fn put_board(bytes: &mut [u8], b: Board)
    requires { 10 ≤ length bytes.old }
    ensures { bytes.new ≡ sets bytes.old 6 (board_bytes b) }
{
    fields::put(bytes, 6, fields::flag_byte(b.powered));
    fields::put(bytes, 7, fields::flag_byte(b.sysbus));
    fields::put(bytes, 8, fields::flag_byte(b.soc));
    fields::put(bytes, 9, fields::flag_byte(b.grant));
}

// A state put into bytes, from the first on; it has the widths that let it come back whole.
pub fn put_state(bytes: &mut [u8], s: State)
    requires { length bytes.old ≡ state_length }
    ensures put { bytes.new ≡ sets bytes.old 0 (bytes_of s) }
    ensures whole { state_in (bytes_of s) ≡ s }
{
    fields::put(bytes, 0, 4);
    fields::put_long(bytes, 1, s.cp);
    fields::put(bytes, 5, fields::flag_byte(s.last));
    put_board(bytes, s.board);
    put_channel(bytes, FIRST_AT, s.first);
    put_channel(bytes, SECOND_AT, s.second);
}

// What an attention changed put: its channel.
pub fn put_order(bytes: &mut [u8], second: bool, c: Channel)
    requires { is_state bytes.old ≡ true }
    ensures put { bytes.new ≡ bytes_of (with_channel (state_in bytes.old) second c) }
    ensures whole { state_in bytes.new ≡ with_channel (state_in bytes.old) second c }
{
    put_channel(bytes, block_at(second), c);
}

// What a done step changed put: its channel, and that it was the last to step.
pub fn put_step(bytes: &mut [u8], second: bool, c: Channel)
    requires { is_state bytes.old ≡ true }
    ensures put { bytes.new ≡ bytes_of (with_last (with_channel (state_in bytes.old) second c) second) }
    ensures whole { state_in bytes.new ≡ with_last (with_channel (state_in bytes.old) second c) second }
{
    fields::put(bytes, 5, fields::flag_byte(second));
    put_channel(bytes, block_at(second), c);
}

// The same of a step by the channel's turn, where the fields of CC agree before and after it.
pub fn put_turn(bytes: &mut [u8], second: bool, c: Channel)
    requires { (is_state bytes.old ≡ true) × (States.agree (state_in bytes.old) ≡ true) × (fields_agree c ≡ true) }
    ensures put { bytes.new ≡ bytes_of (with_last (with_channel (state_in bytes.old) second c) second) }
    ensures whole { state_in bytes.new ≡ with_last (with_channel (state_in bytes.old) second c) second }
{
    put_agreeing(bytes, block_at(second), c);
    fields::put(bytes, 5, fields::flag_byte(second));
}
