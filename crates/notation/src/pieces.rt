// Characters held in numbers, the first in the lowest eight bits, and numbers written in hexadecimal or decimal.
ghost use Rattle.std.specs.Prelude.{◌≡◌, [], ◌∷◌, ◌<◌, ◌≤◌};
ghost use Rattle.listing_rules.specs.Characters.{hex_glyph, number_text, digit_text};
ghost use Rattle.notation.specs.Writing.{held_in};

// Four times up to eight characters, to be written one after the other. As byte strings the words of the instructions count
// up to 5 % more for each listed byte (`make bench-list`).
#[derive(Clone, Copy)]
pub struct Pieces(pub u64, pub u64, pub u64, pub u64);

// The digit, a capital where it is over 9.
fn glyph(d: u64) -> u64
    requires { d < 16 }
    ensures value { result ≡ hex_glyph d }
    ensures lower_bound { (48 ≤ result) × (result ≤ 70) }
{
    if d < 10 { 48 + d } else { 55 + d }
}

// A number of one byte: 0, two digits, H.
pub fn byte_number(b: u8) -> u64
    ensures { held_in result ≡ number_text (b ∷ []) }
{
    let n = b as u64;
    let high = glyph(n / 16 % 16);
    let low = glyph(n % 16);
    48 + 256 * (high + 256 * (low + 256 * 72))
}

// A number of two bytes: 0, four digits, H.
pub fn word_number(low: u8, high: u8) -> u64
    ensures { held_in result ≡ number_text (low ∷ high ∷ []) }
{
    let n = low as u64;
    let m = high as u64;
    let d3 = glyph(m / 16 % 16);
    let d2 = glyph(m % 16);
    let d1 = glyph(n / 16 % 16);
    let d0 = glyph(n % 16);
    48 + 256 * (d3 + 256 * (d2 + 256 * (d1 + 256 * (d0 + 256 * 72))))
}

// A number in decimal, its last two digits.
pub fn digit(n: u32) -> u64
    ensures { held_in result ≡ digit_text n }
{
    if n < 10 {
        return (48 + n) as u64;
    }
    let tens = 48 + n / 10 % 10;
    let ones = 48 + n % 10;
    (tens + 256 * ones) as u64
}
