// A line of the script program's text: its words, and the call that it is.
ghost use Rattle.std.specs.Prelude.{◌≡◌, ◌==◌, not, ◌+◌, ◌≤◌, ◌<◌, length, drop, get_or, position, unwrap_or, is_some, eqb, leb, ltb};
ghost use Rattle.std.specs.List.{list_all};
ghost use Rattle.ground_rules.specs.Choice.{pick};
ghost use Rattle.script_text.specs.Names.{name_of, 'none};
ghost use Rattle.script_text.specs.Text.{digit_told, numbered, number_in, until_same, until_other, numeral_of, is_pairs, span_at, line_word_at, words_of, fourth_span};
ghost use Rattle.script_text.specs.Calls.{make_call, put_call, set_call, attention_call, step_call, bare_call, show_call, list_call, sweep_call, call_from, call_of};

use crate::{names, registers};

// What a line calls for; nothing where it is passed over, unknown where it is no call.
#[derive(Clone, Copy)]
pub enum ScriptCall {
    Nothing,
    Unknown,
    Make(u32, u32, u32),
    Put(bool, u32),
    Set(u32, u64, u32),
    Attention(u32),
    Step(u32),
    Dump,
    Show(bool, u32),
    Listing(bool, u32, u32),
    Load,
    Reset,
    PowerUp,
    Sweep(u32, u32),
}

// Where a word lies in its line.
#[derive(Clone, Copy)]
pub struct Span {
    pub from: usize,
    pub to: usize,
}

// A word: its name, its number, whether it is pairs of digits, and where it ends.
#[derive(Clone, Copy)]
pub struct Word {
    pub name: u64,
    pub number: Option<u32>,
    pub pairs: bool,
    pub to: usize,
}

// The first five words of a line.
#[derive(Clone, Copy)]
pub struct Words {
    pub first: Word,
    pub second: Word,
    pub third: Word,
    pub fourth: Word,
    pub fifth: Word,
}

// The value of a hexadecimal digit.
#[tactic(auto, unfolding(crate::specs::Text::digit_of))]
pub fn digit(b: u8) -> Option<u32>
    ensures { result ≡ digit_told b }
{
    match b {
        b'0'..=b'9' => Some(u32::from(b - b'0')),
        b'A'..=b'F' => Some(u32::from(b - b'A' + 10)),
        b'a'..=b'f' => Some(u32::from(b - b'a' + 10)),
        _ => None,
    }
}

// Where the first byte stands that is b.
fn same(s: &[u8], b: u8) -> Option<usize>
    ensures { result ≡ position (λ x. x == b) s.now }
{
    s.iter().position(|byte| *byte == b)
}

// Where the first byte stands that is another than b.
fn other(s: &[u8], b: u8) -> Option<usize>
    ensures { result ≡ position (λ x. not (x == b)) s.now }
{
    s.iter().position(|byte| *byte != b)
}

// The first index from `at` on whose byte is b, or the length.
pub fn first_same(s: &[u8], at: usize, b: u8) -> usize
    ensures value { result ≡ at + until_same b (drop at s.now) }
    ensures lower_bound { (at ≤ result) × (at ≤ length s.now → result ≤ length s.now) }
{
    if s.len() < at {
        return at;
    }
    let rest = &s[at..];
    at + same(rest, b).unwrap_or(rest.len())
}

// The first index from `at` on whose byte is another than b, or the length.
fn first_other(s: &[u8], at: usize, b: u8) -> usize
    requires { at ≤ length s.now }
    ensures value { result ≡ at + until_other b (drop at s.now) }
    ensures lower_bound { (at ≤ result) × (result ≤ length s.now) }
{
    let rest = &s[at..];
    at + other(rest, b).unwrap_or(rest.len())
}

// The name that a word makes; 0 for more than six characters.
fn name(w: &[u8]) -> u64
    ensures { result ≡ name_of w.now }
{
    if 6 < w.len() {
        return 0;
    }
    let mut name = 1;
    // A loop, since the closure of a `fold` would have to show that its sum fits, whatever came before it.
    for byte in w {
        name = name * 256 + u64::from(*byte);
    }
    name
}

// The number that a word is.
fn number(w: &[u8]) -> Option<u32>
    ensures { result ≡ numbered (numeral_of w.now) }
{
    if w.is_empty() || 8 < w.len() {
        return None;
    }
    let mut number = 0;
    // A loop, as in `name`.
    for byte in w {
        number = number * 16 + digit(*byte)?;
    }
    Some(number)
}

// Whether every character of a word is a hexadecimal digit.
fn all_digits(w: &[u8]) -> bool
    ensures { result ≡ list_all (λ b. is_some (digit_told b)) w.now }
{
    w.iter().all(|byte| digit(*byte).is_some())
}

// Whether a word is one pair of hexadecimal digits or more.
fn is_pairs(w: &[u8]) -> bool
    ensures { result ≡ is_pairs w.now }
{
    !w.is_empty() & (w.len() % 2 == 0) & all_digits(w)
}

// Where the word from an index on lies.
fn span_at(line: &[u8], at: usize) -> Span
    requires { at ≤ length line.now }
    ensures value { result ≡ span_at line.now at }
    ensures from_le_to { (result.from ≤ result.to) × (result.to ≤ length line.now) }
{
    let from = first_other(line, at, 32);
    let to = first_same(line, from, 32);
    Span { from, to }
}

// The word from an index on.
fn word_at(line: &[u8], at: usize) -> Word
    requires { at ≤ length line.now }
    ensures value { result ≡ line_word_at line.now at }
    ensures to_in_bounds { result.to ≤ length line.now }
{
    let span = span_at(line, at);
    let word = &line[span.from..span.to];
    Word {
        name: name(word),
        number: number(word),
        pairs: is_pairs(word),
        to: span.to,
    }
}

// The first five words of a line.
fn words_of(line: &[u8]) -> Words
    ensures { result ≡ words_of line.now }
{
    let first = word_at(line, 0);
    let second = word_at(line, first.to);
    let third = word_at(line, second.to);
    let fourth = word_at(line, third.to);
    let fifth = word_at(line, fourth.to);
    Words {
        first,
        second,
        third,
        fourth,
        fifth,
    }
}

// Where the fourth word of a line lies.
pub fn fourth_word(line: &[u8]) -> Span
    ensures value { result ≡ fourth_span line.now }
    ensures from_le_to { (result.from ≤ result.to) × (result.to ≤ length line.now) }
{
    let first = span_at(line, 0);
    let second = span_at(line, first.to);
    let third = span_at(line, second.to);
    span_at(line, third.to)
}

// Goes on where a call has no word more.
fn ended(after: Word) -> Option<()>
    ensures { is_some result ≡ eqb after.name 'none }
{
    (after.name == names::NONE).then_some(())
}

// A number that is no more than another.
fn at_most(number: Option<u32>, most: u32) -> Option<u32>
    requires { most < 4294967296 }
    ensures { result ≡ pick (leb (number_in number) most) number None }
{
    number.filter(|n| *n <= most)
}

// Whether a space is I/O memory, 1, or system memory, 0.
fn space(number: Option<u32>) -> Option<bool>
    ensures { result ≡ pick (ltb (number_in number) 2) (Some (eqb (number_in number) 1)) None }
{
    match number? {
        0 => Some(false),
        1 => Some(true),
        _ => None,
    }
}

// The call of `make`.
#[tactic(auto, unfolding(crate::specs::Calls::make_call))]
fn make_call(w: Words) -> Option<ScriptCall>
    ensures { unwrap_or result ScriptCall.Unknown ≡ make_call (number_in w.second.number) (number_in w.third.number) (number_in w.fourth.number) w.fifth.name }
{
    ended(w.fifth)?;
    let sys = at_most(w.second.number, 0x10_0001)?;
    let io = at_most(w.third.number, 0x1_0001)?;
    Some(ScriptCall::Make(sys, io, w.fourth.number?))
}

// The call of `put`.
#[tactic(auto, unfolding(crate::specs::Calls::put_call))]
fn put_call(w: Words) -> Option<ScriptCall>
    ensures { unwrap_or result ScriptCall.Unknown ≡ put_call (number_in w.second.number) (number_in w.third.number) w.fourth.pairs w.fifth.name }
{
    ended(w.fifth)?;
    if !w.fourth.pairs {
        return None;
    }
    Some(ScriptCall::Put(space(w.second.number)?, w.third.number?))
}

// The call of `set`.
#[tactic(auto, unfolding(crate::specs::Calls::set_call))]
fn set_call(w: Words) -> Option<ScriptCall>
    ensures { unwrap_or result ScriptCall.Unknown ≡ set_call (number_in w.second.number) w.third.name (number_in w.fourth.number) w.fifth.name }
{
    ended(w.fifth)?;
    let channel = w.second.number?;
    let value = w.fourth.number?;
    if !registers::fits(channel, w.third.name, value) {
        return None;
    }
    Some(ScriptCall::Set(channel, w.third.name, value))
}

// The call of `ca`.
#[tactic(auto, unfolding(crate::specs::Calls::attention_call))]
fn attention_call(w: Words) -> Option<ScriptCall>
    ensures { unwrap_or result ScriptCall.Unknown ≡ attention_call (number_in w.second.number) w.third.name }
{
    ended(w.third)?;
    Some(ScriptCall::Attention(w.second.number?))
}

// The call of `step`.
#[tactic(auto, unfolding(crate::specs::Calls::step_call))]
fn step_call(w: Words) -> Option<ScriptCall>
    ensures { unwrap_or result ScriptCall.Unknown ≡ step_call (number_in w.second.number) w.third.name }
{
    ended(w.third)?;
    Some(ScriptCall::Step(w.second.number?))
}

// A call of one word.
#[tactic(auto, unfolding(crate::specs::Calls::bare_call))]
fn bare_call(call: ScriptCall, w: Words) -> Option<ScriptCall>
    ensures { unwrap_or result ScriptCall.Unknown ≡ bare_call call w.second.name }
{
    ended(w.second)?;
    Some(call)
}

// The call of `show`.
#[tactic(auto, unfolding(crate::specs::Calls::show_call))]
fn show_call(w: Words) -> Option<ScriptCall>
    ensures { unwrap_or result ScriptCall.Unknown ≡ show_call (number_in w.second.number) (number_in w.third.number) w.fourth.name }
{
    ended(w.fourth)?;
    Some(ScriptCall::Show(space(w.second.number)?, w.third.number?))
}

// The call of `list`.
#[tactic(auto, unfolding(crate::specs::Calls::list_call))]
fn list_call(w: Words) -> Option<ScriptCall>
    ensures { unwrap_or result ScriptCall.Unknown ≡ list_call (number_in w.second.number) (number_in w.third.number) (number_in w.fourth.number) w.fifth.name }
{
    ended(w.fifth)?;
    Some(ScriptCall::Listing(space(w.second.number)?, w.third.number?, w.fourth.number?))
}

// The call of `sweep`.
#[tactic(auto, unfolding(crate::specs::Calls::sweep_call))]
fn sweep_call(w: Words) -> Option<ScriptCall>
    ensures { unwrap_or result ScriptCall.Unknown ≡ sweep_call (number_in w.second.number) (number_in w.third.number) w.fourth.name }
{
    ended(w.fourth)?;
    Some(ScriptCall::Sweep(w.second.number?, w.third.number?))
}

// The call that words are; none where they are no call.
#[tactic(auto, unfolding(crate::specs::Calls::call_from))]
fn call_from(w: Words) -> Option<ScriptCall>
    ensures { unwrap_or result ScriptCall.Unknown ≡ call_from w }
{
    match w.first.name {
        names::NONE => Some(ScriptCall::Nothing),
        names::MAKE => make_call(w),
        names::PUT => put_call(w),
        names::SET => set_call(w),
        names::CA => attention_call(w),
        names::STEP => step_call(w),
        names::DUMP => bare_call(ScriptCall::Dump, w),
        names::SHOW => show_call(w),
        names::LIST => list_call(w),
        names::PROM => bare_call(ScriptCall::Load, w),
        names::RESET => bare_call(ScriptCall::Reset, w),
        names::POWER => bare_call(ScriptCall::PowerUp, w),
        names::SWEEP => sweep_call(w),
        _ => None,
    }
}

// The first character of a line, 0 where it has none.
fn first_byte(line: &[u8]) -> u8
    ensures { result ≡ get_or line.now 0 0 }
{
    line.first().copied().unwrap_or(0)
}

// The call that a line is.
pub fn call_of(line: &[u8]) -> ScriptCall
    ensures { result ≡ call_of line.now }
{
    if first_byte(line) == b'#' {
        return ScriptCall::Nothing;
    }
    call_from(words_of(line)).unwrap_or(ScriptCall::Unknown)
}
