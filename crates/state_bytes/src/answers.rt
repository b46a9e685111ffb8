// What a call on a state's bytes answers, in numbers.
ghost use Rattle.std.specs.Prelude.{◌≡◌};
ghost use Rattle.state_rules.specs.Calls as Calls;

use turn_rules::Kind;

// The number of a step's kind.
pub fn kind_number(kind: Kind) -> u32
    ensures { result ≡ Calls.kind_number kind }
{
    match kind {
        Kind::Nothing => 0,
        Kind::Instruction => 1,
        Kind::Transfer => 2,
        Kind::External => 3,
    }
}
