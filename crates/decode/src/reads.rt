// The row that a cell of the table stands for, held against a pair.
ghost use Rattle.std.specs.Prelude.{◌≡◌};
ghost use Rattle.instruction_rules.specs.Reading.{lookup};
ghost use Rattle.decode.specs.Cells.{control_rows, cell_rows};

use crate::cells;
use decode_shapes::{pairs, rows};
use instruction_rules::{Decoded, Pair, Shape, Unread};

// The control codes: which one RRR says.
fn control(p: Pair) -> Decoded
    ensures { result ≡ lookup (control_rows p.opcode) p }
{
    let bare = pairs::bare(p);
    let rrr = p.rrr;
    match rrr {
        0 => rows::answer(bare, false, Shape::Nop),
        2 => rows::answer(bare, false, Shape::Sintr),
        3 => rows::answer(bare, false, Shape::Xfer),
        4..=7 => rows::answer(
            bare,
            false,
            Shape::Wid {
                source: words::bit(rrr, 1),
                destination: words::bit(rrr, 0),
            },
        ),
        _ => Err(Unread::NoInstruction),
    }
}

// What a pair is by a cell.
pub fn read(cell: u32, p: Pair) -> Decoded
    ensures { result ≡ lookup (cell_rows p.opcode cell) p }
{
    let m = pairs::operand(p);
    let form = cell / 16;
    let digit = cell % 16;
    match form {
        0x0 => Err(Unread::NoInstruction),
        0x1 => if digit == 0 {
            control(p)
        } else {
            rows::halt(p)
        },
        0x2 => rows::register_immediate(cells::work(digit), 1 <= digit, p),
        0x3 => rows::register(cells::single(digit), p),
        0x4 => rows::jump_register(digit == 1, p),
        0x5 => rows::memory_immediate(cells::work(digit), p, m),
        0x6 => rows::register_memory(cells::work(digit), 1 <= digit, p, m),
        0x7 => rows::memory_register(cells::work(digit), 1 <= digit, p, m),
        0x8 => rows::memory_alone(cells::single(digit), p, m),
        0x9 => rows::pointer_memory(p, cells::pointer(digit, p.rrr, m)),
        0xA => rows::jump_memory(digit == 1, p, m),
        0xB => rows::jump_masked(digit == 1, p, m),
        0xC => rows::jump_bit(digit == 1, p, m),
        0xD => rows::bit(digit == 1, p, m),
        0xE => if digit == 0 {
            rows::call(p, m)
        } else {
            rows::tsl(p, m)
        },
        0xF => if digit == 0 {
            rows::lpdi(p)
        } else {
            rows::mov_memory(p, m)
        },
        _ => Err(Unread::NoInstruction),
    }
}
