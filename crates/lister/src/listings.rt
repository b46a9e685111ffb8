// The listing of a part of memory.
ghost use Rattle.std.specs.Prelude.{◌≡◌, ◌+◌, ◌<◌, ◌≤◌, length, take, drop};
ghost use Rattle.std.proofs.Math.Seq.{paste};
ghost use Rattle.listing_rules.specs.Listings.{list_limit, listing, listing_of};
ghost use Rattle.lister.specs.Rows.{Shown, Onward};

use crate::reading;
use listing_rules::Item;
use notation::lines;
use notation::lines::Line;

// A line, and how many bytes it lists.
#[derive(Clone, Copy)]
struct ListedRow {
    line: Line,
    count: usize,
}

// The line of what stands at a place; `first` is the address of the part's first byte.
fn row_at(part: &[u8], first: u32, at: usize) -> ListedRow
    requires { (at ≤ length part.now) × (length part.now ≤ list_limit) }
    ensures { Shown result (first + at) (drop at part.now) }
{
    let bytes = &part[at..];
    match reading::read_at(part, at) {
        Item::Whole { shape, to, length } => {
            let count = length as usize;
            if lines::listed(shape) {
                let end = first % 65536 + at as u32 + length;
                let line = lines::instruction_line(bytes, end, shape, to);
                return ListedRow { line, count };
            }
            let line = lines::data_line(&bytes[..count]);
            ListedRow { line, count }
        }
        Item::Byte => {
            let line = lines::data_line(&bytes[..1]);
            ListedRow { line, count: 1 }
        }
        Item::End => {
            let line = lines::data_line(&bytes[..0]);
            ListedRow { line, count: 0 }
        }
    }
}

// Two characters of a line, written behind those before them.
fn two(text: &mut [u8], at: usize, chars: &[u8; 28], i: usize)
    requires { (at + (i + 2) ≤ length text.old) × (i + 2 ≤ 28) × (i + 2 ≤ length chars.now) }
    ensures { Onward text.old text.new chars.now at i (i + 2) }
{
    text[at + i] = chars[i];
    text[at + i + 1] = chars[i + 1];
}

// Four of them.
fn four(text: &mut [u8], at: usize, chars: &[u8; 28], i: usize)
    requires { (at + (i + 4) ≤ length text.old) × (i + 4 ≤ 28) × (i + 4 ≤ length chars.now) }
    ensures { Onward text.old text.new chars.now at i (i + 4) }
{
    two(text, at, chars, i);
    two(text, at, chars, i + 2);
}

// Four of them, where so many are left.
fn four_left(text: &mut [u8], at: usize, chars: &[u8; 28], i: usize, len: usize) -> usize
    requires { (at + len ≤ length text.old) × (len ≤ 28) × (len ≤ length chars.now) × (i ≤ len) × (len < i + 8) }
    ensures { Onward text.old text.new chars.now at i result × (result ≤ len) × (len < result + 4) }
{
    if len - i < 4 {
        return i;
    }
    four(text, at, chars, i);
    i + 4
}

// Two of them, where so many are left.
fn two_left(text: &mut [u8], at: usize, chars: &[u8; 28], i: usize, len: usize) -> usize
    requires { (at + len ≤ length text.old) × (len ≤ 28) × (len ≤ length chars.now) × (i ≤ len) × (len < i + 4) }
    ensures { Onward text.old text.new chars.now at i result × (result ≤ len) × (len < result + 2) }
{
    if len - i < 2 {
        return i;
    }
    two(text, at, chars, i);
    i + 2
}

// Writes a line from an index on, eight characters at a time, then what is left: `copy_from_slice` calls memcpy, which C would
// have to bring along, and a loop or a zip of iterators that goes one by one is taken for the same copy.
fn place(text: &mut [u8], at: usize, line: Line)
    requires len_in_bounds { at + line.len ≤ length text.old }
    requires len_bound { (line.len ≤ 28) × (line.len ≤ length line.chars) }
    ensures { text.new ≡ paste text.old at line.chars line.len }
{
    let chars = line.chars;
    let len = line.len;
    let mut i: usize = 0;
    while i + 7 < len {
        four(text, at, &chars, i);
        four(text, at, &chars, i + 4);
        i += 8;
    }
    let more = four_left(text, at, &chars, i, len);
    let last = two_left(text, at, &chars, more, len);
    if last < len {
        text[at + last] = chars[last];
    }
}

// What a listing answers: the characters written, and the byte at which it stopped.
#[derive(Clone, Copy)]
pub struct Listed {
    pub characters: u32,
    pub stop: u32,
}

// The part of memory that is listed.
fn lent_part(code: &[u8]) -> &[u8]
    ensures { result.now ≡ take list_limit code.now }
{
    if code.len() < 1048576 {
        code
    } else {
        &code[..1048576]
    }
}

// Lists a part of memory as lines; stops before the line that does not fit.
pub fn list(code: &[u8], first: u32, text: &mut [u8]) -> Listed
    ensures { listing result.characters result.stop text.new ≡ listing_of code.now first text.old }
{
    let part = lent_part(code);
    let mut at: usize = 0;
    let mut n: usize = 0;
    while at < part.len() {
        let row = row_at(part, first, at);
        let line = row.line;
        let len = line.len;
        if text.len() - n < len {
            return Listed {
                characters: n as u32,
                stop: at as u32,
            };
        }
        place(text, n, line);
        n += len;
        at += row.count;
    }
    Listed {
        characters: n as u32,
        stop: at as u32,
    }
}
