// The held byte of a channel as one number: 0 for none, 256 + the byte.
ghost use Rattle.std.specs.Prelude.{◌≡◌};
ghost use Rattle.ground_rules.specs.Holdings.{held_number, held_from, is_held_number};

// The number that stands for what is held.
#[tactic(auto, unfolding(ground_rules::specs::Holdings::held_number))]
pub fn number(held: Option<u8>) -> u16
    ensures { result ≡ held_number held }
{
    match held {
        None => 0,
        Some(byte) => 256 + byte as u16,
    }
}

// What a number stands for.
#[tactic(auto, unfolding(ground_rules::specs::Holdings::held_from))]
pub fn from(number: u32) -> Option<u8>
    ensures { result ≡ held_from number }
{
    if number < 256 {
        return None;
    }
    Some((number % 256) as u8)
}

// Whether a number stands for something held or for nothing.
#[tactic(auto, unfolding(ground_rules::specs::Holdings::is_held_number))]
pub fn stands(number: u32) -> bool
    ensures { result ≡ is_held_number number }
{
    (number == 0) | ((256 <= number) & (number < 512))
}
