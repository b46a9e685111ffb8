// System and I/O memory as the caller lends them, two byte buffers of any length: every read and store has a meaning,
// also beyond the lent end.
#![tactic(auto)]

ghost use Rattle.std.specs.Prelude.{◌≡◌, ◌+◌, leb, length, get_or, set};
ghost use Rattle.ground_rules.specs.Buffers.{lent, index_of, lent_at, touchable_at, byte_at, store_byte, within_limits};
ghost use Rattle.ground_rules.specs.Choice.{pick};
ghost use Rattle.ground_rules.specs.Values as Values;
ghost use Rattle.ground_rules.specs.Values.{word_at, doubleword_at, pointer_at, store_word, store_doubleword, store_pointer};
ghost use Rattle.ground_rules.specs.Places.{span, all_lent, all_touchable};

use ground_rules::Pointer;

// The place n bytes on.
#[tactic(auto, unfolding(ground_rules::specs::Values::onward))]
pub fn onward(p: Pointer, n: u32) -> Pointer
    ensures { result ≡ Values.onward p n }
{
    Pointer {
        address: words::sum20(p.address, n),
        tag: p.tag,
    }
}

// Where an address lies in its buffer.
#[tactic(auto, unfolding(ground_rules::specs::Buffers::index_of, ground_rules::specs::Buffers::limit_of))]
fn index(tag: bool, address: u32) -> usize
    ensures { result ≡ index_of tag address }
{
    if tag {
        (address % 65536) as usize
    } else {
        (address % 1048576) as usize
    }
}

// The byte of a buffer, or another beyond its end.
fn read(space: &[u8], at: usize, beyond: u8) -> u8
    ensures { result ≡ get_or space.now at beyond }
{
    space.get(at).copied().unwrap_or(beyond)
}

// A byte put into a buffer, or nothing beyond its end.
fn write(buffer: &mut [u8], at: usize, v: u8)
    ensures { buffer.new ≡ set buffer.old at v }
{
    // By index: no proof ties what `get_mut` lends to the buffer that it leaves.
    if at < buffer.len() {
        buffer[at] = v;
    }
}

// Whether neither buffer is longer than its limit.
#[tactic(auto, unfolding(ground_rules::specs::Buffers::within_limits, ground_rules::specs::Buffers::limit_of))]
pub fn within_limits(sys: &[u8], io: &[u8]) -> bool
    ensures { result ≡ within_limits (lent sys.now io.now) }
{
    (sys.len() <= 1048576) & (io.len() <= 65536)
}

// Whether the byte at an address is lent.
#[tactic(auto, unfolding(ground_rules::specs::Buffers::lent_at, ground_rules::specs::Buffers::space_of))]
pub fn lent(sys: &[u8], io: &[u8], tag: bool, address: u32) -> bool
    ensures { result ≡ lent_at (lent sys.now io.now) tag address }
{
    let at = index(tag, address);
    if tag { at < io.len() } else { at < sys.len() }
}

// Where a row of bytes may end that is lent: at the end of its buffer, or anywhere if the buffer has `most` bytes, since
// addresses wrap there. It does not hang on the row, so that many rows are tested by one comparison each.
fn reach(space: &[u8], most: usize) -> usize
    ensures { result ≡ pick (leb most (length space.now)) 1099511627776 (length space.now) }
{
    if most <= space.len() {
        1099511627776
    } else {
        space.len()
    }
}

// Whether `count` bytes in a row are lent, wherever the addresses wrap.
pub fn span_lent(sys: &[u8], io: &[u8], tag: bool, address: u32, count: u32) -> bool
    ensures { result ≡ all_lent (lent sys.now io.now) (span tag address count) }
{
    if count == 0 {
        return true;
    }
    let end = index(tag, address) + count as usize;
    if tag {
        end <= reach(io, 65536)
    } else {
        end <= reach(sys, 1048576)
    }
}

// Whether a call may touch the byte at an address: in I/O space always, in system space where it is lent.
#[tactic(auto, unfolding(ground_rules::specs::Buffers::touchable_at))]
pub fn touchable(sys: &[u8], io: &[u8], tag: bool, address: u32) -> bool
    ensures { result ≡ touchable_at (lent sys.now io.now) tag address }
{
    if tag {
        return true;
    }
    lent(sys, io, tag, address)
}

// Whether a call may touch `count` bytes in a row.
pub fn span_touchable(sys: &[u8], io: &[u8], tag: bool, address: u32, count: u32) -> bool
    ensures { result ≡ all_touchable (lent sys.now io.now) (span tag address count) }
{
    if tag {
        return true;
    }
    span_lent(sys, io, tag, address, count)
}

// The byte at an address; FFh from an empty slot of I/O space.
#[tactic(auto, unfolding(ground_rules::specs::Buffers::byte_at, ground_rules::specs::Buffers::beyond_in, ground_rules::specs::Buffers::space_of))]
pub fn byte(sys: &[u8], io: &[u8], tag: bool, address: u32) -> u8
    ensures { result ≡ byte_at (lent sys.now io.now) tag address }
{
    let at = index(tag, address);
    if tag {
        read(io, at, 255)
    } else {
        read(sys, at, 0)
    }
}

// The word at an address.
pub fn word(sys: &[u8], io: &[u8], tag: bool, address: u32) -> u16
    ensures { result ≡ word_at (lent sys.now io.now) tag address }
{
    let low = byte(sys, io, tag, address);
    let high = byte(sys, io, tag, words::sum20(address, 1));
    words::word(low, high)
}

// The address that the doubleword pointer at an address gives.
pub fn doubleword(sys: &[u8], io: &[u8], tag: bool, address: u32) -> u32
    ensures { result ≡ doubleword_at (lent sys.now io.now) tag address }
{
    let offset = word(sys, io, tag, address);
    let segment = word(sys, io, tag, words::sum20(address, 2));
    words::address(offset, segment)
}

// The pointer that the three bytes at an address store.
pub fn stored_pointer(sys: &[u8], io: &[u8], tag: bool, address: u32) -> Pointer
    ensures { result ≡ pointer_at (lent sys.now io.now) tag address }
{
    let low = byte(sys, io, tag, address);
    let middle = byte(sys, io, tag, words::sum20(address, 1));
    let high = byte(sys, io, tag, words::sum20(address, 2));
    Pointer {
        address: words::stored_address(low, middle, high),
        tag: words::stored_tag(high),
    }
}

// A byte stored at an address.
#[tactic(auto, unfolding(ground_rules::specs::Buffers::store_byte))]
pub fn store_byte(sys: &mut [u8], io: &mut [u8], tag: bool, address: u32, v: u8)
    ensures { lent sys.new io.new ≡ store_byte (lent sys.old io.old) tag address v }
{
    let at = index(tag, address);
    if tag {
        write(io, at, v);
    } else {
        write(sys, at, v);
    }
}

// A word stored at an address.
pub fn store_word(sys: &mut [u8], io: &mut [u8], tag: bool, address: u32, v: u16)
    ensures { lent sys.new io.new ≡ store_word (lent sys.old io.old) tag address v }
{
    store_byte(sys, io, tag, address, words::low_byte(v));
    store_byte(sys, io, tag, words::sum20(address, 1), words::high_byte(v));
}

// A doubleword pointer stored at an address.
pub fn store_doubleword(
    sys: &mut [u8],
    io: &mut [u8],
    tag: bool,
    address: u32,
    offset: u16,
    segment: u16,
)
    ensures { lent sys.new io.new ≡ store_doubleword (lent sys.old io.old) tag address offset segment }
{
    store_word(sys, io, tag, address, offset);
    store_word(sys, io, tag, words::sum20(address, 2), segment);
}

// A pointer stored in three bytes at an address.
pub fn store_pointer(sys: &mut [u8], io: &mut [u8], tag: bool, address: u32, p: Pointer)
    ensures { lent sys.new io.new ≡ store_pointer (lent sys.old io.old) tag address p }
{
    store_byte(sys, io, tag, address, words::stored_low(p.address));
    store_byte(
        sys,
        io,
        tag,
        words::sum20(address, 1),
        words::stored_middle(p.address),
    );
    store_byte(
        sys,
        io,
        tag,
        words::sum20(address, 2),
        words::stored_high(p.address, p.tag),
    );
}
