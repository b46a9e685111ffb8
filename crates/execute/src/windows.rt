// The bytes at a place as one number, the lowest first: in one piece where they are lent and do not wrap, in up to three
// where they go over the end of a buffer, else byte by byte.
ghost use Rattle.std.specs.Prelude.{◌≡◌, ℕ, ◌+◌, ◌-◌, ◌<◌, ◌≤◌, true, length};
ghost use Rattle.ground_rules.specs.Buffers.{lent, AllBytes};
ghost use Rattle.ground_rules.specs.Places.{span, all_touchable};
ghost use Rattle.execute.specs.Bytes.{reachable, over_by, behind_end, four_from, eight_from, four_at, eight_at};

use crate::Window;

// Eight bytes of empty slots.
const EMPTY_SLOTS: u64 = 0xFFFF_FFFF_FFFF_FFFF;

// How many bytes of a buffer addresses reach, `most` at the most. It does not hang on a place, so that a place is tested by
// one comparison.
fn within(space: &[u8], most: usize) -> usize
    ensures { result ≡ reachable space.now most }
{
    if space.len() < most {
        space.len()
    } else {
        most
    }
}

// Four bytes of a buffer.
fn four_of(space: &[u8], at: usize) -> u32
    requires { at + 4 ≤ length space.now }
    ensures { result ≡ four_from space.now at }
{
    space[at] as u32
        + space[at + 1] as u32 * 256
        + space[at + 2] as u32 * 65536
        + space[at + 3] as u32 * 16777216
}

// Eight bytes of a buffer.
fn eight_of(space: &[u8], at: usize) -> u64
    requires { at + 8 ≤ length space.now }
    ensures { result ≡ eight_from space.now at }
{
    four_of(space, at) as u64 + four_of(space, at + 4) as u64 * 4294967296
}

// Four bytes at a place, each by itself.
fn four_singly(tag: bool, address: u32, sys: &[u8], io: &[u8]) -> u32
    ensures { result ≡ four_at (lent sys.now io.now) tag address }
{
    memory::byte(sys, io, tag, address) as u32
        + memory::byte(sys, io, tag, words::sum20(address, 1)) as u32 * 256
        + memory::byte(sys, io, tag, words::sum20(address, 2)) as u32 * 65536
        + memory::byte(sys, io, tag, words::sum20(address, 3)) as u32 * 16777216
}

// The four bytes at a place.
pub fn four(tag: bool, address: u32, sys: &[u8], io: &[u8]) -> u32
    ensures { result ≡ four_at (lent sys.now io.now) tag address }
{
    if tag {
        let at = (address % 65536) as usize;
        if at + 4 <= within(io, 65536) {
            return four_of(io, at);
        }
    } else {
        let at = (address % 1048576) as usize;
        if at + 4 <= within(sys, 1048576) {
            return four_of(sys, at);
        }
    }
    four_singly(tag, address, sys, io)
}

// Eight bytes: those of `low` behind its first ones, as many as are passed, and then the first ones of `high`.
fn over(low: u64, high: u64, passed: usize) -> u64
    requires { (1 ≤ passed) × (passed < 8) }
    ensures { result ≡ over_by low high passed }
{
    let by = (8 * passed) as u32;
    (low >> by) + (high << (64 - by))
}

// The eight bytes behind a buffer's end, which may stand below the top that addresses reach; `beyond` is what is read between.
// A buffer that ends just below the top is asked for first, since its bytes take the most instructions.
fn behind(space: &[u8], most: usize, beyond: u64) -> u64
    requires { 8 ≤ length space.now }
    ensures { result ≡ behind_end space.now most beyond }
{
    if (space.len() < most) & (most < space.len() + 8) {
        return over(beyond, eight_of(space, 0), space.len() + 8 - most);
    }
    if most <= space.len() {
        eight_of(space, 0)
    } else {
        beyond
    }
}

// The eight bytes of a buffer that begin before its end and end behind it.
fn about_end(space: &[u8], at: usize, end: usize, most: usize, beyond: u64) -> u64
    requires { (end ≡ reachable space.now most) × (8 ≤ end) × (at < end) × (end < at + 8) }
    ensures { result ≡ over_by (eight_from space.now (end - 8)) (behind_end space.now most beyond) (at + 8 - end) }
{
    let high = behind(space, most, beyond);
    over(eight_of(space, end - 8), high, at + 8 - end)
}

// The eight bytes at a place that are not in one piece.
fn eight_apart(tag: bool, address: u32, sys: &[u8], io: &[u8]) -> u64
    ensures { result ≡ eight_at (lent sys.now io.now) tag address }
{
    if tag {
        let at = (address % 65536) as usize;
        let end = within(io, 65536);
        if (8 <= end) & (at < end) & (end < at + 8) {
            return about_end(io, at, end, 65536, EMPTY_SLOTS);
        }
    } else {
        let at = (address % 1048576) as usize;
        let end = within(sys, 1048576);
        if (8 <= end) & (at < end) & (end < at + 8) {
            return about_end(sys, at, end, 1048576, 0);
        }
    }
    let low = four_singly(tag, address, sys, io) as u64;
    let high = four_singly(tag, words::sum20(address, 4), sys, io) as u64;
    low + high * 4294967296
}

// The eight bytes at a place.
pub fn eight(tag: bool, address: u32, sys: &[u8], io: &[u8]) -> Window
    ensures known { AllBytes (lent sys.now io.now) }
    ensures bytes { result.bytes ≡ eight_at (lent sys.now io.now) tag address }
    ensures near { (n : ℕ) → n ≤ 8 → result.near ≡ true → all_touchable (lent sys.now io.now) (span tag address n) ≡ true }
{
    if tag {
        let at = (address % 65536) as usize;
        if at + 8 <= within(io, 65536) {
            return Window {
                bytes: eight_of(io, at),
                near: true,
            };
        }
    } else {
        let at = (address % 1048576) as usize;
        if at + 8 <= within(sys, 1048576) {
            return Window {
                bytes: eight_of(sys, at),
                near: true,
            };
        }
    }
    Window {
        bytes: eight_apart(tag, address, sys, io),
        near: false,
    }
}
