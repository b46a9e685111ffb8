// Makes the calls of the script on standard input, one a line, on one machine, and prints what each answered; what was no call goes in words to standard error.
#![tactic(auto)]

ghost use Rattle.std.specs.Prelude.{◌≡◌, false, ◌+◌, ◌≤◌, ◌<◌, min, length, drop};
ghost use Rattle.ground_rules.specs.Choice.{pick};
ghost use Rattle.script_text.specs.Calls.{Limited};
ghost use Rattle.script_text.specs.Text.{until_same};
ghost use Rattle.script.specs.Lent.{lent_after};
ghost use Rattle.script.specs.Lines.{content_end, closes_file, file_end};

use script_text::text;
use script_text::text::ScriptCall;
use std::io;

// How many bytes of each buffer are lent.
#[derive(Clone, Copy)]
struct LentLengths {
    sys: usize,
    io: usize,
}

impl LentLengths {
    // How many bytes are lent after a call.
    #[tactic(auto, unfolding(crate::specs::Lent::lent_after))]
    fn after(self, call: ScriptCall) -> LentLengths
        requires limited { Limited call }
        requires sys_bound { (self.sys ≤ 1048577) × (self.io ≤ 65537) }
        ensures value { result ≡ lent_after call self }
        ensures sys_bound_2 { (result.sys ≤ 1048577) × (result.io ≤ 65537) }
    {
        match call {
            ScriptCall::Make(sys, io, _) => LentLengths {
                sys: sys as usize,
                io: io as usize,
            },
            _ => self,
        }
    }
}

// Where the line from an index of the text on ends: at its line feed, or with the text.
fn line_end(text: &[u8], at: usize) -> usize
    requires { at ≤ length text.now }
    ensures value { result ≡ at + until_same 10 (drop at text.now) }
    ensures lower_bound { (at ≤ result) × (result ≤ length text.now) }
{
    text::first_same(text, at, 10)
}

// Where the characters of a line end that goes from `at` to `end`: before one carriage return where a line feed follows it.
#[tactic(auto, unfolding(crate::specs::Lines::content_end))]
fn content_end(text: &[u8], at: usize, end: usize) -> usize
    requires { (at ≤ end) × (end ≤ length text.now) }
    ensures value { result ≡ content_end text.now at end }
    ensures lower_bound { (at ≤ result) × (result ≤ end) }
{
    if at < end && end < text.len() && text[end - 1] == b'\r' {
        end - 1
    } else {
        end
    }
}

// Whether a line starts at an index, as the caller says, that is `end` and nothing else, which closes a file.
fn closes_file(text: &[u8], at: usize, start: bool) -> bool
    requires { at ≤ length text.now }
    ensures { result ≡ pick start (closes_file text.now at) false }
{
    if !start {
        return false;
    }
    let end = line_end(text, at);
    let content = content_end(text, at, end);
    &text[at..content] == b"end".as_slice()
}

// Where the file ends whose first line starts at an index.
fn file_end(text: &[u8], at: usize) -> usize
    requires { at ≤ length text.now }
    ensures value { result ≡ file_end text.now at }
    ensures lower_bound { (at ≤ result) × (result ≤ length text.now) }
{
    let mut start = true;
    for i in at..text.len() {
        if closes_file(text, i, start) {
            return i;
        }
        start = text[i] == b'\n';
    }
    text.len()
}

// The index behind the line feed at another, or that one where the text ends there.
fn behind(text: &[u8], end: usize) -> usize
    requires { end ≤ length text.now }
    ensures { result ≡ min (end + 1) (length text.now) }
{
    (end + 1).min(text.len())
}

// What a call is given of the text, and where the next line starts.
#[derive(Clone, Copy)]
struct GivenText {
    from: usize,
    to: usize,
    next: usize,
}

// What the call of the line from `at` to `content`, which ends at `end`, is given: that line, or the file that follows it.
fn given_to(text: &[u8], at: usize, content: usize, end: usize, call: ScriptCall) -> GivenText
    requires at_le_content { (at ≤ content) × (content ≤ end) × (end ≤ length text.now) }
    requires at_in_bounds { at < length text.now }
    ensures { (result.from ≤ result.to) × (result.to ≤ length text.now) × (at < result.next) × (result.next ≤ length text.now) }
{
    let next = behind(text, end);
    if matches!(call, ScriptCall::Load) {
        let to = file_end(text, next);
        let last = line_end(text, to);
        return GivenText {
            from: next,
            to,
            next: behind(text, last),
        };
    }
    GivenText {
        from: at,
        to: content,
        next,
    }
}

// How many line feeds a text has.
fn feeds(text: &[u8]) -> usize
    ensures { result ≤ length text.now }
{
    text.iter().filter(|byte| **byte == b'\n').count()
}

// Makes the calls of a text, line by line, and writes out what each shows.
fn play(rt: HostRuntime, text: &[u8], sys: &mut [u8], io: &mut [u8]) -> io::Result<()>
    requires text_len_bound { length text.now ≤ 1048576 }
    requires value { (1048577 ≡ length sys.old) × (65537 ≡ length io.old) }
{
    let mut state = machine::states::fresh(0).state;
    let mut lent = LentLengths { sys: 0, io: 0 };
    let mut out = [0u8; 32768];
    let mut at = 0;
    let mut number = 1;
    while at < text.len() {
        let end = line_end(text, at);
        let content = content_end(text, at, end);
        let call = text::call_of(&text[at..content]);
        let given = given_to(text, at, content, end, call);
        lent = lent.after(call);
        let done = script_answers::perform(
            &mut state,
            call,
            &text[given.from..given.to],
            &mut sys[..lent.sys],
            &mut io[..lent.io],
            &mut out,
        );
        rt.write_all(&out[..done.count])?;
        if let Err(why) = done.made {
            // Where standard error cannot be written, nothing is said.
            let _ = eprintln!(rt; "line {number}: {why}");
        }
        number += feeds(&text[at..given.next]);
        at = given.next;
    }
    Ok(())
}

// An array as it is, with its length stated: the prover would count the zeros of so long a one.
fn counted(a: [u8; 1048577]) -> [u8; 1048577]
    ensures { 1048577 ≡ length result }
{
    a
}

// One byte more than system memory has, all 0.
fn large_space() -> [u8; 1048577]
    ensures { 1048577 ≡ length result }
{
    counted([0; 1048577])
}

// One byte more than I/O memory has, all 0.
fn small_space() -> [u8; 65537]
    ensures { 65537 ≡ length result }
{
    [0; 65537]
}

fn main(rt: HostRuntime) -> io::Result<()> {
    let mut text = large_space();
    let mut sys = large_space();
    let mut io = small_space();
    let length = input::read_full(&mut rt.stdin(), &mut text)?;
    if 1048576 < length {
        println!(rt; "?")?;
        // Where standard error cannot be written, nothing is said.
        let _ = eprintln!(rt; "the text is longer than 1048576 bytes");
        return Ok(());
    }
    play(rt, &text[..length], &mut sys, &mut io)
}
