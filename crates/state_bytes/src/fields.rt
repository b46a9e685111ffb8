// One part of a state: a byte, a word, a long number of four bytes, a truth value, a mode or a code of CC, read from bytes
// that have it and put into them.
ghost use Rattle.std.specs.Prelude.{◌≡◌, [], ◌∷◌, ◌+◌, ◌<◌, ◌≤◌, length, get_or};
ghost use Rattle.std.proofs.lemmas.List.Edits.{sets};
ghost use Rattle.state_rules.specs.Fields as Fields;
ghost use Rattle.state_rules.specs.Fields.{little_end, little_in, flag_of, flag_in, is_flag, mode_in, is_mode, is_code};

use ground_rules::Mode;

// The byte at an offset.
pub fn byte(bytes: &[u8], at: usize) -> u8
    requires { at < length bytes.now }
    ensures { result ≡ get_or bytes.now at 0 }
{
    bytes[at]
}

// The word at an offset.
pub fn word(bytes: &[u8], at: usize) -> u16
    requires { at + 2 ≤ length bytes.now }
    ensures { result ≡ little_in 2 bytes.now at }
{
    words::word(byte(bytes, at), byte(bytes, at + 1))
}

// The long number at an offset.
pub fn long(bytes: &[u8], at: usize) -> u32
    requires { at + 4 ≤ length bytes.now }
    ensures { result ≡ little_in 4 bytes.now at }
{
    word(bytes, at) as u32 + word(bytes, at + 2) as u32 * 65536
}

// The truth value at an offset.
pub fn flag(bytes: &[u8], at: usize) -> bool
    requires { at < length bytes.now }
    ensures { result ≡ flag_in bytes.now at }
{
    byte(bytes, at) == 1
}

// Whether the byte at an offset stands for a truth value.
pub fn is_flag(bytes: &[u8], at: usize) -> bool
    requires { at < length bytes.now }
    ensures { result ≡ is_flag bytes.now at }
{
    byte(bytes, at) < 2
}

// The mode at an offset.
pub fn mode(bytes: &[u8], at: usize) -> Mode
    requires { at < length bytes.now }
    ensures { result ≡ mode_in bytes.now at }
{
    match byte(bytes, at) {
        0 => Mode::Idle,
        1 => Mode::Running,
        _ => Mode::Suspended,
    }
}

// Whether the byte at an offset stands for a mode.
pub fn is_mode(bytes: &[u8], at: usize) -> bool
    requires { at < length bytes.now }
    ensures { result ≡ is_mode bytes.now at }
{
    byte(bytes, at) < 3
}

// Whether the byte at an offset stands for a field of CC that has so many values.
pub fn is_code(bytes: &[u8], at: usize, values: u8) -> bool
    requires { at < length bytes.now }
    ensures { result ≡ is_code bytes.now at values }
{
    byte(bytes, at) < values
}

// A byte put at an offset.
pub fn put(bytes: &mut [u8], at: usize, v: u8)
    requires { at < length bytes.old }
    ensures { bytes.new ≡ sets bytes.old at (v ∷ []) }
{
    bytes[at] = v;
}

// A word put at an offset.
pub fn put_word(bytes: &mut [u8], at: usize, v: u16)
    requires { at + 2 ≤ length bytes.old }
    ensures { bytes.new ≡ sets bytes.old at (little_end 2 v) }
{
    put(bytes, at, words::low_byte(v));
    put(bytes, at + 1, words::high_byte(v));
}

// A long number put at an offset.
pub fn put_long(bytes: &mut [u8], at: usize, v: u32)
    requires { at + 4 ≤ length bytes.old }
    ensures { bytes.new ≡ sets bytes.old at (little_end 4 v) }
{
    put_word(bytes, at, (v % 65536) as u16);
    put_word(bytes, at + 2, (v / 65536) as u16);
}

// A truth value as a byte.
pub fn flag_byte(on: bool) -> u8
    ensures { result ≡ flag_of on }
{
    if on { 1 } else { 0 }
}

// A mode as a byte.
pub fn mode_byte(mode: Mode) -> u8
    ensures { result ≡ Fields.mode_byte mode }
{
    match mode {
        Mode::Idle => 0,
        Mode::Running => 1,
        Mode::Suspended => 2,
    }
}
