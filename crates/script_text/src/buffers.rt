// Buffers of bytes: written from hexadecimal digits, and digested.
ghost use Rattle.std.specs.Prelude.{◌≡◌};
ghost use Rattle.ground_rules.specs.Choice.{pick};
ghost use Rattle.script_text.specs.Buffers.{byte_of, bytes_written, has_room, digest_byte, digest_of};

use crate::text;

// The byte that two hexadecimal digits write.
fn byte(high: u8, low: u8) -> u8
    ensures { result ≡ byte_of high low }
{
    (text::digit(high).unwrap_or(0) * 16 + text::digit(low).unwrap_or(0)) as u8
}

// Writes bytes, two digits each, from an index on, and answers true; or answers false where one lies past the end.
pub fn put(s: &mut [u8], at: usize, digits: &[u8]) -> bool
    ensures value { result ≡ has_room s.old at digits.now }
    ensures s_after { s.new ≡ pick result (bytes_written s.old at digits.now) s.old }
{
    let count = digits.len() / 2;
    if s.len() < at || s.len() - at < count {
        return false;
    }
    for i in 0..count {
        s[at + i] = byte(digits[2 * i], digits[2 * i + 1]);
    }
    true
}

// The digest of the bytes before one, and that byte.
fn digest_byte(d: u32, b: u8) -> u32
    ensures { result ≡ digest_byte d b }
{
    let x = d ^ b as u32;
    ((x as u64 * 0x100_0193) % 0x1_0000_0000) as u32
}

// The digest of bytes: 32-bit FNV-1a.
#[tactic(auto, using(crate::proofs::BufferLaws::digest_fold), unfolding(crate::specs::Buffers::digest_of))]
pub fn digest(s: &[u8]) -> u32
    ensures { result ≡ digest_of s.now }
{
    s.iter()
        .fold(0x811c_9dc5, |digest, byte| digest_byte(digest, *byte))
}
