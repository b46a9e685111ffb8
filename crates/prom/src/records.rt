// The records of a text, line by line.
ghost use Rattle.std.specs.Prelude.{◌≡◌, [], ◌∷◌, ◌+◌, ◌*◌, ◌%◌, ◌<◌, ◌≤◌, true, false, length, get_or, drop, MatchOption, MatchResult};
ghost use Rattle.ground_rules.specs.Buffers.{buffers, store_byte};
ghost use Rattle.prom_rules.specs.Records.{line_refusal, all_hex, hex_bytes, fits_type, type_of, hex_size, word_from, data_bytes};
ghost use Rattle.prom_rules.specs.File.{next_line, segment_after, start_after, stores_of, stores_from};
ghost use Rattle.prom_rules.specs.Load.{store_all};
ghost use Rattle.prom.specs.Parts.{ends_here, end_length, hex_digit, byte_in, sum_in, type_number, record_lent};

use crate::refusals::{LoadRefusal, Reason};

// The types of records.
#[derive(Clone, Copy, PartialEq, Eq)]
pub enum RecordKind {
    Data,
    End,
    Segment,
    Start,
}

impl TryFrom<u8> for RecordKind {
    ghost use Rattle.prom.specs.declared.refusals.Reason.TheVariants.{WrongType};

    type Error = Reason;

    ghost try_from_gives = { λ n r. MatchResult r (λ kind. type_number kind ≡ n) (λ why. (4 ≤ n) × (why ≡ WrongType)) };

    fn try_from(number: u8) -> Result<RecordKind, Reason> {
        match number {
            0 => Ok(RecordKind::Data),
            1 => Ok(RecordKind::End),
            2 => Ok(RecordKind::Segment),
            3 => Ok(RecordKind::Start),
            _ => Err(Reason::WrongType),
        }
    }
}

impl RecordKind {
    // Whether a record of this type may have so many data bytes.
    #[tactic(auto, unfolding(prom_rules::specs::Records::fits_type))]
    fn takes(self, size: u8) -> bool
        ensures { result ≡ fits_type (type_number self) size }
    {
        match self {
            RecordKind::Data => true,
            RecordKind::End => size == 0,
            RecordKind::Segment => size == 2,
            RecordKind::Start => size == 4,
        }
    }
}

// The value of a hexadecimal digit, by tests: a `match` on ranges counts 17 % more for each byte of a file (`make bench-hex`).
#[tactic(auto, unfolding(crate::specs::Parts::hex_digit, prom_rules::specs::Records::hex_value))]
fn digit(b: u8) -> Option<u8>
    ensures { result ≡ hex_digit b }
{
    if b.is_ascii_digit() {
        Some(b - b'0')
    } else if (b'A'..=b'F').contains(&b) {
        Some(b - b'A' + 10)
    } else if (b'a'..=b'f').contains(&b) {
        Some(b - b'a' + 10)
    } else {
        None
    }
}

// The byte that the two digits at a place write.
fn byte_at(text: &[u8], at: usize) -> Option<u8>
    ensures { result ≡ byte_in text.now at }
{
    let high = digit(*text.get(at)?)?;
    let low = digit(*text.get(at + 1)?)?;
    Some(high * 16 + low)
}

// A byte of digits.
fn byte_of(digits: &[u8], at: usize) -> u8
    requires all { all_hex digits.now ≡ true }
    requires inside { at * 2 + 1 < length digits.now }
    ensures { result ≡ get_or (hex_bytes digits.now) at 0 }
{
    byte_at(digits, at * 2).unwrap()
}

// The sum of the bytes that digits write, mod 256.
fn sum_of(digits: &[u8]) -> Option<u8>
    requires { length digits.now % 2 ≡ 0 }
    ensures { result ≡ sum_in 0 digits.now }
{
    let mut sum = 0u8;
    for pair in digits.chunks_exact(2) {
        sum = sum.wrapping_add(byte_at(pair, 0)?);
    }
    Some(sum)
}

// What stands behind the line end that a text begins with.
fn behind_end(text: &[u8]) -> Option<&[u8]>
    ensures { MatchOption result (ends_here text.now ≡ false) (λ rest. (ends_here text.now ≡ true) × (rest.now ≡ drop (end_length text.now) text.now)) }
{
    let Some((&first, rest)) = text.split_first() else {
        return Some(text);
    };
    if first == b'\n' {
        return Some(rest);
    }
    if first != b'\r' {
        return None;
    }
    let (&feed, rest) = rest.split_first()?;
    if feed == b'\n' { Some(rest) } else { None }
}

// A byte stored at an address; nothing happens beyond the lent end.
fn store_at(sys: &mut [u8], address: u32, v: u8)
    ensures { buffers sys.new [] ≡ store_byte (buffers sys.old []) false address v }
{
    let at = (address % 1048576) as usize;
    if at < sys.len() {
        sys[at] = v;
    }
}

// The line after this one; the count stays at its largest.
#[tactic(auto, unfolding(prom_rules::specs::File::next_line))]
fn next_line(line: u32) -> u32
    ensures { result ≡ next_line line }
{
    line.saturating_add(1)
}

// A line with what stands between its colon and the line end that its length asks for: as many digits, if they are digits.
#[derive(Clone, Copy)]
pub struct Frame<'a> {
    pub line: u32,
    pub digits: &'a [u8],
    ghost long: { length digits.now ≡ 2 * (hex_size (hex_bytes digits.now) + 5) },
}

impl<'a> Frame<'a> {
    ghost use Rattle.prom.specs.Parts.{first_line};
    ghost use Rattle.prom.specs.Refusals.{reason_number};
    ghost use Rattle.prom.specs.Frames.{Framed, frame_line};

    // The frame that a text begins with, and what stands behind its line end.
    fn read(text: &'a [u8], line: u32) -> Option<(Frame<'a>, &'a [u8])>
        ensures { MatchOption result (line_refusal (first_line text.now) ≡ 20) (λ p. Framed text.now p.0 p.1.now × (p.0.line ≡ line)) }
    {
        let (&colon, behind) = text.split_first()?;
        if colon != b':' {
            return None;
        }
        let size = byte_at(behind, 0)?;
        let (digits, after) = behind.split_at_checked((size as usize + 5) * 2)?;
        let rest = behind_end(after)?;
        Some((Frame { line, digits }, rest))
    }

    // A refusal by this line.
    fn refused(&self, why: Reason) -> LoadRefusal
        ensures { (result.why ≡ why) × (result.line ≡ self.now.line) }
    {
        LoadRefusal {
            why,
            line: self.line,
        }
    }

    // The good record that it is, or why it is none.
    pub fn check(self) -> Result<Record<'a>, LoadRefusal>
        ensures { MatchResult result (λ made. (made.digits.now ≡ self.entry.digits.now) × (made.line ≡ self.entry.line)) (λ refused. (reason_number refused.why ≡ line_refusal (frame_line self.entry)) × (refused.line ≡ self.entry.line)) }
    {
        let line = self.line;
        let digits = self.digits;
        let Some(sum) = sum_of(digits) else {
            return Err(self.refused(Reason::NoRecord));
        };
        if sum != 0 {
            return Err(self.refused(Reason::WrongSum));
        }
        let kind = match RecordKind::try_from(byte_of(digits, 3)) {
            Ok(kind) => kind,
            Err(why) => return Err(self.refused(why)),
        };
        if !kind.takes(byte_of(digits, 0)) {
            return Err(self.refused(Reason::WrongType));
        }
        Ok(Record { line, digits, kind })
    }

    // The good record that it is known to be.
    pub fn known(self) -> Record<'a>
        requires { line_refusal (frame_line self) ≡ 0 }
        ensures { result.digits.now ≡ self.entry.digits.now }
    {
        let line = self.line;
        let digits = self.digits;
        let kind = RecordKind::try_from(byte_of(digits, 3)).unwrap();
        Record { line, digits, kind }
    }
}

// A good record: its line, its digits, and its type.
#[derive(Clone, Copy)]
pub struct Record<'a> {
    pub line: u32,
    pub digits: &'a [u8],
    pub kind: RecordKind,
    ghost good: { line_refusal (58 ∷ digits.now) ≡ 0 },
    ghost typed: { type_number kind ≡ type_of (hex_bytes digits.now) },
}

impl<'a> Record<'a> {
    // The word at a place, high byte first.
    fn word(&self, at: usize) -> u32
        requires { at * 2 + 3 < length self.now.digits.now }
        ensures value { result ≡ word_from (hex_bytes self.now.digits.now) at }
        ensures bound { result < 65536 }
    {
        byte_of(self.digits, at) as u32 * 256 + byte_of(self.digits, at + 1) as u32
    }

    // The digits of its data.
    fn data(&self) -> &'a [u8]
        ensures value { hex_bytes result.now ≡ data_bytes (hex_bytes self.now.digits.now) }
        ensures all { all_hex result.now ≡ true }
        ensures count { length result.now ≡ 2 * hex_size (hex_bytes self.now.digits.now) }
        ensures few { length result.now < 512 }
    {
        &self.digits[8..self.digits.len() - 2]
    }

    // The segment behind it.
    pub fn segment_after(&self, segment: u32) -> u32
        ensures value { result ≡ segment_after (hex_bytes self.now.digits.now) segment }
        ensures bound { segment < 65536 → result < 65536 }
    {
        if self.kind == RecordKind::Segment {
            self.word(4)
        } else {
            segment
        }
    }

    // The start address behind it.
    pub fn start_after(&self, start: u32) -> u32
        ensures { result ≡ start_after (hex_bytes self.now.digits.now) start }
    {
        if self.kind == RecordKind::Start {
            (self.word(4) * 16 + self.word(6)) % 1048576
        } else {
            start
        }
    }

    // Whether all bytes that it stores are lent: those before its offset wraps, and those behind.
    pub fn is_lent(&self, sys: &[u8], segment: u32) -> bool
        requires { segment < 65536 }
        ensures { result ≡ record_lent (buffers sys.now []) segment (hex_bytes self.now.digits.now) }
    {
        if self.kind != RecordKind::Data {
            return true;
        }
        let first = segment * 16;
        let offset = self.word(1);
        let size = (self.data().len() / 2) as u32;
        if offset + size <= 65536 {
            return memory::span_lent(sys, b"", false, first + offset, size);
        }
        let before = 65536 - offset;
        memory::span_lent(sys, b"", false, first + offset, before)
            & memory::span_lent(sys, b"", false, first, size - before)
    }

    // Stores its bytes.
    pub fn store(&self, sys: &mut [u8], segment: u32)
        requires { segment < 65536 }
        ensures { buffers sys.new [] ≡ store_all (buffers sys.old []) (stores_of 0 segment (hex_bytes self.now.digits.now)) }
    {
        if self.kind == RecordKind::Data {
            store_row(sys, segment, self.word(1), self.data());
        }
    }
}

// The bytes that digits write, stored from an offset on.
fn store_row(sys: &mut [u8], segment: u32, offset: u32, digits: &[u8])
    requires all { all_hex digits.now ≡ true }
    requires segment_fits { segment < 65536 }
    requires offset_fits { offset < 65536 }
    ensures { buffers sys.new [] ≡ store_all (buffers sys.old []) (stores_from 0 segment offset (hex_bytes digits.now)) }
{
    let mut to = offset;
    for pair in digits.chunks_exact(2) {
        store_at(sys, (segment * 16 + to) % 1048576, byte_of(pair, 0));
        to = (to + 1) % 65536;
    }
}

// The frames of a text, up to the first line that is none, and the number of the line before them.
#[derive(Drop)]
pub struct Frames<'a> {
    pub rest: &'a [u8],
    pub line: u32,
}

impl<'a> Iterator for Frames<'a> {
    ghost use Rattle.std.specs.Iterator.{at_most};
    ghost use Rattle.prom.specs.Frames.{GivesFrame};

    type Item = Result<Frame<'a>, LoadRefusal>;

    ghost next_gives = { GivesFrame };

    ghost remaining = { λ frames. at_most (length frames.rest.now) };

    fn next(&mut self) -> Option<Result<Frame<'a>, LoadRefusal>> {
        let text = self.rest;
        if text.is_empty() {
            return None;
        }
        let line = next_line(self.line);
        self.line = line;
        match Frame::read(text, line) {
            Some((frame, rest)) => {
                self.rest = rest;
                Some(Ok(frame))
            }
            None => {
                self.rest = &[];
                Some(Err(LoadRefusal {
                    why: Reason::NoRecord,
                    line,
                }))
            }
        }
    }
}
