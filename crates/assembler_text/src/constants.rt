// Constants: runs that begin with a digit.
ghost use Rattle.std.specs.Prelude.{◌≡◌, ◌≤◌};
ghost use Rattle.assembly_rules.specs.Text.{capitals};
ghost use Rattle.assembly_rules.specs.Numbers.{digits_from, constant_of};
ghost use Rattle.assembler_text.specs.Places.{radix_told};

use crate::characters;

// The radix that a capital tells at a constant's end, if it tells one.
#[tactic(auto, unfolding(assembly_rules::specs::Numbers::is_radix, assembly_rules::specs::Numbers::radix_of))]
fn radix(letter: u8) -> Option<u32>
    ensures { result ≡ radix_told letter }
{
    match letter {
        b'B' => Some(2),
        b'O' | b'Q' => Some(8),
        b'D' => Some(10),
        b'H' => Some(16),
        _ => None,
    }
}

// Digits read in a radix, mod 65,536, if each is one of the radix.
fn read_digits(digits: &[u8], radix: u32) -> Option<u32>
    requires { (2 ≤ radix) × (radix ≤ 16) }
    ensures { result ≡ digits_from radix 0 (capitals digits.now) }
{
    let mut value: u32 = 0;
    for c in digits {
        value = (value * radix + (*c as char).to_digit(radix)?) % 65536;
    }
    Some(value)
}

// The constant that a run is, if it is one.
pub(crate) fn constant(run: &[u8]) -> Option<u32>
    ensures { result ≡ constant_of (capitals run.now) }
{
    let Some((last, front)) = run.split_last() else {
        return Some(0);
    };
    match radix(characters::capital(*last)) {
        Some(radix) => read_digits(front, radix),
        None => read_digits(run, 10),
    }
}
