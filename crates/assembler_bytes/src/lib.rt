// What a line of an assembly is worth: why it is refused, if it is, and its bytes.
#![tactic(auto)]

// Data: DB and DW.
mod data;
// Bytes stored one behind another.
mod stores;
// The places of an instruction: their operands, and what these are worth.
mod placed;
// Instructions: whether one is refused, and their bytes.
mod instructions;

ghost use Rattle.std.specs.Prelude.{◌≡◌};
ghost use Rattle.assembly_rules.specs.Statements.{Statement, statement_number, statement_bytes};
ghost use Rattle.assembler_text.specs.Places.{labels_of};
ghost use Rattle.assembler_lines.specs.Bodies.{Says, BodyIs, line_answered};
ghost use Rattle.assembler_bytes.specs.Laid.{bytes_laid};

use assembler_lines::bodies::{Body, LineRefusal};
use assembler_text::labels::Labels;

// Why what stands behind a label is refused at an address, if it is: a name is unknown, or a number may not stand.
fn check_body(text: &[u8], body: Body, labels: &Labels, address: u32) -> Result<(), LineRefusal>
    ensures { (s : Statement) → Says text.now body s → line_answered result ≡ statement_number (labels_of text.now labels.now) address s }
{
    match body {
        Body::Blank => Ok(()),
        Body::Items { two, place, .. } => data::check(text, two, place, labels),
        Body::Instruction { code, operands } => instructions::check(
            text, code, operands, labels, address,
        ),
    }
}

// The same of a line that may be refused already, as the line itself shows.
pub fn check(
    text: &[u8],
    said: Result<Body, LineRefusal>,
    labels: &Labels,
    address: u32,
) -> Result<(), LineRefusal>
    ensures { (s : Statement) → BodyIs text.now said s → line_answered result ≡ statement_number (labels_of text.now labels.now) address s }
{
    match said {
        Ok(body) => check_body(text, body, labels, address),
        Err(refusal) => Err(refusal),
    }
}

// Lays the bytes of what stands behind a label at an address at the start of a room, as many as there is room for.
fn put_body(text: &[u8], body: Body, labels: &Labels, address: u32, room: &mut [u8])
    ensures { (s : Statement) → Says text.now body s → room.new ≡ bytes_laid (statement_bytes (labels_of text.now labels.now) address s) room.old }
{
    match body {
        Body::Blank => {}
        Body::Items { two, place, .. } => data::put(text, two, place, labels, room),
        Body::Instruction { code, operands } => instructions::put(
            text, code, operands, labels, address, room,
        ),
    }
}

// The same of a line that may be refused, which then has none.
pub fn put(
    text: &[u8],
    said: Result<Body, LineRefusal>,
    labels: &Labels,
    address: u32,
    room: &mut [u8],
)
    ensures { (s : Statement) → BodyIs text.now said s → room.new ≡ bytes_laid (statement_bytes (labels_of text.now labels.now) address s) room.old }
{
    if let Ok(body) = said {
        put_body(text, body, labels, address, room);
    }
}
