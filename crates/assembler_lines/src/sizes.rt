// How many bytes a line has.
ghost use Rattle.std.specs.Prelude.{◌≡◌, List, ℕ, ◌+◌, ◌≤◌, count_by};
ghost use Rattle.assembly_rules.specs.Statements.{Statement, statement_size};
ghost use Rattle.assembler_forms.specs.Forms.{offset_told};
ghost use Rattle.assembler_lines.specs.Bodies.{Says, BodyIs};
ghost use Rattle.assembler_lines.specs.Counts.{entry_size};

use crate::bodies::{Body, LineRefusal};
use assembler_forms::operands::Operands;
use assembler_forms::table::EntryCode;

// The bytes of an instruction but its offsets, by its entry.
fn entry_size(code: EntryCode) -> usize
    ensures value { result ≡ entry_size code }
    ensures few { result ≤ 17 }
{
    match code.opcode() {
        0x02 => 6,
        0x24 => 4,
        0x25 => 4,
        _ => 2 + code.dd() as usize,
    }
}

// The bytes of an instruction.
pub fn instruction_size(code: EntryCode, operands: Operands) -> usize
    ensures value { result ≡ entry_size code + count_by offset_told operands.forms }
    ensures few { result ≤ 20 }
{
    entry_size(code) + operands.offsets()
}

impl Body {
    // The bytes of what stands behind a label.
    fn size(self) -> usize
        ensures { (text : List ℕ) (s : Statement) → Says text self s → result ≡ statement_size s }
    {
        match self {
            Body::Blank => 0,
            Body::Items { bytes, .. } => bytes,
            Body::Instruction { code, operands } => instruction_size(code, operands),
        }
    }
}

// The bytes of what stands behind a label; a line that is refused has none.
pub fn size(said: Result<Body, LineRefusal>) -> usize
    ensures { (text : List ℕ) (s : Statement) → BodyIs text said s → result ≡ statement_size s }
{
    match said {
        Ok(body) => body.size(),
        Err(_) => 0,
    }
}
