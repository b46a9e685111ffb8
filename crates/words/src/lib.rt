// Numbers only: bit fields, bytes of a word, 20-bit sums, signed numbers, the stored form of a pointer, the masked
// compare and the byte count's subtraction.
#![tactic(auto)]

ghost use Rattle.std.specs.Prelude.{◌≡◌, true, false, nat_lt};
ghost use Rattle.ground_rules.specs.Choice.{pick};
ghost use Rattle.ground_rules.specs.Bits.{field_of, bit_of, with_bit};
ghost use Rattle.ground_rules.specs.Bytes.{low_byte, high_byte, word_of};
ghost use Rattle.ground_rules.specs.Sums as Sums;
ghost use Rattle.ground_rules.specs.Sums.{address_of, count_down};
ghost use Rattle.ground_rules.specs.Signs.{signed_of, extended, displaced_by};
ghost use Rattle.ground_rules.specs.Stored.{stored_low, stored_middle, stored_high, stored_address, stored_tag};
ghost use Rattle.ground_rules.specs.Compare.{match_of};

// One of two values, by a test.
pub fn choose<T: Copy>(test: bool, a: T, b: T) -> T
    ensures { result ≡ pick test a b }
{
    if test { a } else { b }
}

// The `width` bits of x from bit `at` upwards.
pub fn field(x: u32, at: u32, width: u32) -> u32
    ensures { result ≡ field_of x at width }
{
    if 32 <= at {
        return 0;
    }
    if 32 <= width {
        return x >> at;
    }
    (x >> at) & ((1 << width) - 1)
}

// Whether bit `at` of x is 1.
#[tactic(auto, unfolding(ground_rules::specs::Bits::field_of, ground_rules::specs::Bits::bit_of))]
pub fn bit(x: u32, at: u32) -> bool
    ensures { result ≡ bit_of x at }
{
    field(x, at, 1) == 1
}

// x with bit `at` made 1; there is no bit past 31.
pub fn set_bit(x: u32, at: u32) -> u32
    ensures { result ≡ pick (nat_lt at 32) (with_bit x at true) x }
{
    if at < 32 { x | (1 << at) } else { x }
}

// x with bit `at` made 0; there is no bit past 31.
pub fn clear_bit(x: u32, at: u32) -> u32
    ensures { result ≡ pick (nat_lt at 32) (with_bit x at false) x }
{
    if at < 32 { x & !(1 << at) } else { x }
}

// x with bit `at` as `on` says; there is no bit past 31.
pub fn with_bit(x: u32, at: u32, on: bool) -> u32
    ensures { result ≡ pick (nat_lt at 32) (with_bit x at on) x }
{
    if on { set_bit(x, at) } else { clear_bit(x, at) }
}

// Bits 7-0 of a word.
pub fn low_byte(x: u16) -> u8
    ensures { result ≡ low_byte x }
{
    (x & 255) as u8
}

// Bits 15-8 of a word.
pub fn high_byte(x: u16) -> u8
    ensures { result ≡ high_byte x }
{
    (x >> 8) as u8
}

// The word of a low and a high byte.
pub fn word(low: u8, high: u8) -> u16
    ensures { result ≡ word_of low high }
{
    low as u16 + high as u16 * 256
}

// The sum of two numbers, reduced to 20 bits.
pub fn sum20(a: u32, b: u32) -> u32
    ensures { result ≡ Sums.sum20 a b }
{
    (a % 1048576 + b % 1048576) % 1048576
}

// The address of an offset and a segment.
pub fn address(offset: u16, segment: u16) -> u32
    ensures { result ≡ address_of offset segment }
{
    (segment as u32 * 16 + offset as u32) % 1048576
}

// The byte count less some bytes.
pub fn count_down(count: u16, by: u16) -> u16
    ensures { result ≡ count_down count by }
{
    std::num::wrapping_sub_u16(count, by)
}

// Bytes and words have functions of their own, here and below: one of a width would ask of its callers that the width is
// small, and work out powers of two. A byte, sign-extended to 20 bits: the two halves of the numbers change places, and 128 is taken off. The compiler knows
// this for one instruction.
pub fn extend_byte(x: u8) -> u32
    ensures { result ≡ extended 8 x }
{
    std::num::wrapping_add_u32((x as u32 + 128) % 256, 4294967168) % 1048576
}

// A word, sign-extended to 20 bits in the same way.
pub fn extend_word(x: u16) -> u32
    ensures { result ≡ extended 16 x }
{
    std::num::wrapping_add_u32((x as u32 + 32768) % 65536, 4294934528) % 1048576
}

// The signed displacement of one byte, worked out likewise.
pub fn displacement_byte(x: u8) -> i32
    ensures { result ≡ signed_of 8 x }
{
    ((x as u32 + 128) % 256) as i32 - 128
}

// The signed displacement of two bytes.
pub fn displacement_word(x: u16) -> i32
    ensures { result ≡ signed_of 16 x }
{
    ((x as u32 + 32768) % 65536) as i32 - 32768
}

// A pointer moved by a signed displacement.
pub fn displaced(pointer: u32, by: i32) -> u32
    ensures { result ≡ displaced_by pointer by }
{
    let from = (pointer % 1048576) as i64 + 2147483648;
    ((from + by as i64) as u64 % 1048576) as u32
}

// The first byte of a pointer's stored form.
pub fn stored_low(address: u32) -> u8
    ensures { result ≡ stored_low address }
{
    (address % 256) as u8
}

// The second byte of a pointer's stored form.
pub fn stored_middle(address: u32) -> u8
    ensures { result ≡ stored_middle address }
{
    (address / 256 % 256) as u8
}

// The third byte of a pointer's stored form, with its tag.
pub fn stored_high(address: u32, tag: bool) -> u8
    ensures { result ≡ stored_high address tag }
{
    let half = (address / 65536 % 16 * 16) as u8;
    if tag { half + 8 } else { half }
}

// The address that three stored bytes give.
pub fn stored_address(low: u8, middle: u8, high: u8) -> u32
    ensures { result ≡ stored_address low middle high }
{
    low as u32 + middle as u32 * 256 + high as u32 / 16 * 65536
}

// The tag that the third stored byte gives.
pub fn stored_tag(high: u8) -> bool
    ensures { result ≡ stored_tag high }
{
    bit(high as u32, 3)
}

// The masked compare of a byte with MC.
#[tactic(auto, unfolding(ground_rules::specs::Compare::match_of))]
pub fn matches(byte: u8, mc: u16) -> bool
    ensures { result ≡ match_of byte mc }
{
    (byte ^ low_byte(mc)) & high_byte(mc) == 0
}

// A pointer moved by the signed displacement of one byte.
pub fn displaced_byte(pointer: u32, x: u8) -> u32
    ensures { result ≡ displaced_by pointer (signed_of 8 x) }
{
    displaced(pointer, displacement_byte(x))
}

// A pointer moved by the signed displacement of two bytes.
pub fn displaced_word(pointer: u32, x: u16) -> u32
    ensures { result ≡ displaced_by pointer (signed_of 16 x) }
{
    displaced(pointer, displacement_word(x))
}
