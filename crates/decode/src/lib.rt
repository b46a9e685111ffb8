// The two bytes of an instruction's pair, read into one of the instruction's shapes or refused, and how many bytes the
// instruction has.
#![tactic(auto)]

use instruction_rules::Looked;

mod cells;
mod reads;

ghost use Rattle.std.specs.Prelude.{◌≡◌, ◌+◌, ◌<◌, eqb, leb, None, Err};
ghost use Rattle.ground_rules.specs.Refusals.{number_of};
ghost use Rattle.instruction_rules.specs.Pairs.{pair_of};
ghost use Rattle.instruction_rules.specs.Reading.{decode_of, decoded_number, second_of, second_number_of};
ghost use Rattle.instruction_rules.specs.Lengths.{more_by, two_by, offset_by, offset_length, pair_length};
ghost use Rattle.decode.specs.Cells.{cell_length};

use decode_shapes::pairs;
use ground_rules::Refusal;
use instruction_rules::{Decoded, Memory, Pair, Unread};

// What the first two bytes of an instruction are, and its length; the table is read once.
pub fn look_up(first: u8, second: u8) -> Looked
    ensures { result ≡ record { decoded = decode_of first second; length = pair_length (pair_of first second) } }
{
    let cell = cells::cell(second);
    let p = pairs::split(first, second);
    let decoded = reads::read(cell, p);
    Looked {
        decoded,
        length: cell_length(cell, p),
    }
}

// What the first two bytes of an instruction are.
pub fn decode(first: u8, second: u8) -> Decoded
    ensures { result ≡ decode_of first second }
{
    reads::read(cells::cell(second), pairs::split(first, second))
}

// Why a pair that is no instruction is refused.
pub fn refusal(unread: Unread) -> Refusal
    ensures { number_of result ≡ decoded_number (Err unread) }
{
    unread.into()
}

// The number that an answer stands for.
pub fn number(d: Decoded) -> u32
    ensures { result ≡ decoded_number d }
{
    match d {
        Ok(_) => 0,
        Err(unread) => refusal(unread).number(),
    }
}

// The operand that the second pair of MOV M,M gives, if it is one, after a first pair with W as `wide` says.
#[tactic(auto, unfolding(instruction_rules::specs::Reading::second_of))]
pub fn decode_second(first: u8, second: u8, wide: bool) -> Option<Memory>
    ensures { result ≡ second_of first second wide }
{
    let p = pairs::split(first, second);
    if (p.opcode == 0x33) & ((p.rrr == 0) & ((p.w == wide as u32) & (p.dd == 0))) {
        Some(pairs::operand(p))
    } else {
        None
    }
}

// Why a second pair that gives no operand is refused.
pub fn second_refusal() -> Refusal
    ensures { number_of result ≡ second_number_of None }
{
    Refusal::NotAnInstruction
}

// The number of an answer to a second pair.
pub fn second_number(second: Option<Memory>) -> u32
    ensures { result ≡ second_number_of second }
{
    match second {
        Some(_) => 0,
        None => second_refusal().number(),
    }
}

// The bytes of an offset: one for AA 01.
#[tactic(auto, unfolding(instruction_rules::specs::Lengths::offset_length))]
pub fn offset_length(m: Memory) -> u32
    ensures { result ≡ offset_length m }
{
    words::choose(m.aa == 1, 1, 0)
}

// The bytes of a pair, of its offset byte and of what dd announces, which is as many as it says and two for TSL's 11: a
// hexadecimal digit for each dd and AA, the lowest for 00 and 00.
const ANNOUNCED: u64 = 0x4454_4454_3343_2232;

// The bytes of a pair with that dd and AA and of what they announce.
fn announced(dd: u32, aa: u32) -> u32
    requires { (dd < 4) × (aa < 4) }
    ensures { result ≡ 2 + offset_by aa + (more_by (eqb dd 1) + two_by (leb 2 dd)) }
{
    ((ANNOUNCED >> (4 * (4 * dd + aa))) % 16) as u32
}

// The bytes of the instruction that a pair begins, by the cell of its opcode.
#[tactic(auto, unfolding(crate::specs::Cells::cell_length))]
fn cell_length(cell: u32, p: Pair) -> u32
    requires { (p.dd < 4) × (p.aa < 4) }
    ensures { result ≡ cell_length cell p }
{
    announced(p.dd, p.aa) + words::choose(0xF0 <= cell, 2, 0)
}

// The bytes of the instruction that a pair begins; for MOV M,M without the offset byte of its second pair.
pub fn pair_length(first: u8, second: u8) -> u32
    ensures { result ≡ pair_length (pair_of first second) }
{
    cell_length(cells::cell(second), pairs::split(first, second))
}
