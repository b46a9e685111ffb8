// Text put on a page, a lent buffer with how much of it is text, behind what stands: characters, numbers, and the letter of a kind of step. What has no room is left out.
#![tactic(auto)]

ghost use Rattle.std.specs.Prelude.{◌≡◌, ◌<◌, ◌==◌, not, position, take};
ghost use Rattle.page.specs.Pages.{sheet, written};
ghost use Rattle.page.specs.Numbers as Numbers;
ghost use Rattle.page.specs.Numbers.{hex, decimal, unpadded};

use turn_rules::Kind;

// A lent buffer of any length, and how many of its first bytes are text. It is no `fmt::Write`: `write!` may answer an error, and of the page it then promises nothing.
#[derive(Drop)]
pub struct Page<'a> {
    pub bytes: &'a mut [u8],
    pub count: usize,
}

impl<'a> Page<'a> {
    // Puts a text behind the one that stands.
    pub fn append(&mut self, text: &[u8])
        ensures put { sheet self.new ≡ written (sheet self.old) text.now }
        ensures same { self.new.bytes.ghost_name ≡ self.old.bytes.ghost_name }
    {
        let mut count = self.count;
        // A loop: most pieces are one to eight bytes, for which a call of memcpy, which `copy_from_slice` makes, is dear.
        for byte in text {
            if self.bytes.len() <= count {
                break;
            }
            self.bytes[count] = *byte;
            count += 1;
        }
        self.count = count;
    }

    // Puts the last `width` hexadecimal digits of a number behind the text; at most eight.
    pub fn append_hex(&mut self, n: u64, width: usize, small: bool)
        ensures put { sheet self.new ≡ written (sheet self.old) (hex small width n) }
        ensures same { self.new.bytes.ghost_name ≡ self.old.bytes.ghost_name }
    {
        let shown = width.min(8);
        // One by one, since only those that are asked for are worked out.
        for i in 0..shown {
            let shift = 4 * (shown - 1 - i) as u32;
            self.append(&[glyph(small, n.wrapping_shr(shift) % 16)]);
        }
    }

    // Puts a number in decimal behind the text.
    pub fn append_decimal(&mut self, n: u32)
        ensures put { sheet self.new ≡ written (sheet self.old) (decimal n) }
        ensures same { self.new.bytes.ghost_name ≡ self.old.bytes.ghost_name }
    {
        // One by one: a `map` over the units would have to show that none of them is 0, and of an array's item the check knows nothing.
        let digits = [
            b'0' + (n / 1000000000 % 10) as u8,
            b'0' + (n / 100000000 % 10) as u8,
            b'0' + (n / 10000000 % 10) as u8,
            b'0' + (n / 1000000 % 10) as u8,
            b'0' + (n / 100000 % 10) as u8,
            b'0' + (n / 10000 % 10) as u8,
            b'0' + (n / 1000 % 10) as u8,
            b'0' + (n / 100 % 10) as u8,
            b'0' + (n / 10 % 10) as u8,
            b'0' + (n % 10) as u8,
        ];
        self.append(unpadded(&digits));
    }
}

// A hexadecimal digit; from ten on a letter, small or capital.
#[tactic(auto, unfolding(crate::specs::Numbers::glyph))]
fn glyph(small: bool, digit: u64) -> u8
    requires { digit < 16 }
    ensures { result ≡ Numbers.glyph small digit }
{
    let digit = digit as u8;
    match digit {
        0..=9 => b'0' + digit,
        _ if small => b'a' - 10 + digit,
        _ => b'A' - 10 + digit,
    }
}

// Where the first of ten digits stands that is no zero, the last one left out.
fn first_nonzero(digits: &[u8; 10]) -> Option<usize>
    ensures { result ≡ position (λ d. not (d == 48)) (take 9 digits.now) }
{
    digits[..9].iter().position(|digit| *digit != b'0')
}

// Ten digits without the zeros in front; the last digit stays.
fn unpadded(digits: &[u8; 10]) -> &[u8]
    ensures { result.now ≡ unpadded digits.now }
{
    &digits[first_nonzero(digits).unwrap_or(9)..]
}

// The letter of a kind of step.
#[tactic(auto, unfolding(crate::specs::Numbers::letter))]
pub fn letter(kind: Kind) -> u8
    ensures { result ≡ Numbers.letter kind }
{
    match kind {
        Kind::Nothing => b'.',
        Kind::Instruction => b'I',
        Kind::Transfer => b'T',
        Kind::External => b'X',
    }
}
