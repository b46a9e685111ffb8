// Data: DB and DW.
ghost use Rattle.std.specs.Prelude.{◌≡◌, ℕ};
ghost use Rattle.assembly_rules.specs.Statements.{is_byte, statement_number, items_bytes};
ghost use Rattle.assembly_rules.specs.Statements.Statement.{items};
ghost use Rattle.assembler_text.specs.Places.{labels_of};
ghost use Rattle.assembler_lines.specs.Bodies.{line_answered};
ghost use Rattle.assembler_bytes.specs.Laid.{data_at, first_item, PartsAreSums, laid_at};

use crate::stores;
use assembler_forms::operands;
use assembler_lines::bodies::LineRefusal;
use assembler_text::labels::Labels;
use assembler_text::values;

#[tactic(auto, unfolding(assembly_rules::specs::Statements::is_byte))]
// Whether one byte holds a number, signed or not.
pub fn is_byte(n: u32) -> bool
    ensures { result ≡ is_byte n }
{
    n < 256 || 0xFF80 <= n
}

// The place of the first item of a line of data, none where the line ends.
fn first_item(text: &[u8], place: usize) -> Option<usize>
    ensures { result ≡ first_item text.now place }
{
    (!operands::ends(text, place)).then_some(place)
}

// Why a line of data whose items are sums is refused, if it is: a name is unknown, or an item is no byte.
pub fn check(text: &[u8], two: bool, place: usize, labels: &Labels) -> Result<(), LineRefusal>
    ensures { PartsAreSums (data_at text.now place) → (address : ℕ) → line_answered result ≡ statement_number (labels_of text.now labels.now) address (items two (data_at text.now place)) }
{
    let mut stands = true;
    let mut item = first_item(text, place);
    while let Some(at) = item {
        let worth = values::value(text, at, labels);
        if !worth.known {
            return Err(LineRefusal::UnknownName);
        }
        stands &= two | is_byte(worth.value);
        item = operands::next_part(text, at);
    }
    if !stands {
        return Err(LineRefusal::OutOfRange);
    }
    Ok(())
}

// Lays the bytes of a line of data whose items are sums at the start of a room. It walks the items as `check` does: one walk for
// both would take a closure that changes the room, of which nothing is known behind the call.
pub fn put(text: &[u8], two: bool, place: usize, labels: &Labels, code: &mut [u8])
    ensures { PartsAreSums (data_at text.now place) → code.new ≡ laid_at code.old 0 (items_bytes (labels_of text.now labels.now) two (data_at text.now place)) }
{
    let mut next: usize = 0;
    let mut item = first_item(text, place);
    while let Some(at) = item {
        let worth = values::value(text, at, labels);
        next = stores::put_value(code, next, two, worth.value);
        item = operands::next_part(text, at);
    }
}
