// The table of the decoder, a cell for each of the 64 opcodes, and what the second digit of a cell says.
//
// A cell is two digits. The first is the form of the opcode's row, which says what its columns print; the second is what
// the rows of one form differ in. Where there is no instruction it says nothing: it differs from its neighbours', since
// a run of equal bytes is copied in more and smaller pieces.
//
//   0  no instruction         4  jump on a register       8  memory alone        C  jump on a bit
//   1  by RRR, or HLT         5  memory, immediate        9  pointer, memory     D  a bit of memory
//   2  register, immediate    6  register, memory         A  jump on memory      E  CALL, or TSL
//   3  register alone         7  memory, register         B  jump on a match     F  LPDI, or MOV M,M: two bytes more
ghost use Rattle.std.specs.Prelude.{◌≡◌};
ghost use Rattle.decode.specs.Cells.{cell_of, work_by, single_by, pointer_by};

use instruction_rules::{Memory, Shape, Single, Work};

// The cells of the opcodes 00 to 3F.
const CELLS: [u8; 64] = [
    0x10, // 00 NOP, SINTR, XFER, WID
    0x01, // 01
    0xF0, // 02 LPDI P,I
    0x03, // 03
    0x04, // 04
    0x05, // 05
    0x06, // 06
    0x07, // 07
    0x21, // 08 ADDI R,I
    0x22, // 09 ORI R,I
    0x23, // 0A ANDI R,I
    0x30, // 0B NOT R
    0x20, // 0C MOVI R,I
    0x0D, // 0D
    0x31, // 0E INC R
    0x32, // 0F DEC R
    0x40, // 10 JNZ R
    0x41, // 11 JZ R
    0x11, // 12 HLT
    0x50, // 13 MOVI M,I
    0x04, // 14
    0x05, // 15
    0x06, // 16
    0x07, // 17
    0x08, // 18
    0x09, // 19
    0x0A, // 1A
    0x0B, // 1B
    0x0C, // 1C
    0x0D, // 1D
    0x0E, // 1E
    0x0F, // 1F
    0x60, // 20 MOV R,M
    0x70, // 21 MOV M,R
    0x90, // 22 LPD P,M
    0x91, // 23 MOVP P,M
    0xF1, // 24 MOV M,M
    0xE1, // 25 TSL
    0x92, // 26 MOVP M,P
    0xE0, // 27 CALL
    0x61, // 28 ADD R,M
    0x62, // 29 OR R,M
    0x63, // 2A AND R,M
    0x64, // 2B NOT R,M
    0xB1, // 2C JMCE
    0xB0, // 2D JMCNE
    0xC0, // 2E JNBT
    0xC1, // 2F JBT
    0x51, // 30 ADDI M,I
    0x52, // 31 ORI M,I
    0x53, // 32 ANDI M,I
    0x03, // 33 the second pair of MOV M,M
    0x71, // 34 ADD M,R
    0x72, // 35 OR M,R
    0x73, // 36 AND M,R
    0x80, // 37 NOT M
    0xA0, // 38 JNZ M
    0xA1, // 39 JZ M
    0x81, // 3A INC M
    0x82, // 3B DEC M
    0x0C, // 3C
    0xD1, // 3D SETB
    0xD0, // 3E CLR
    0x0F, // 3F
];

// The cell of the opcode in the second byte of a pair.
#[tactic(auto, unfolding(crate::specs::Cells::cells, crate::specs::Cells::cell_of, ground_rules::specs::Bits::field_of))]
pub fn cell(second: u8) -> u32
    ensures { result ≡ cell_of second }
{
    let opcode = (second / 4) as usize;
    CELLS[opcode] as u32
}

// The work that a second digit stands for.
pub fn work(digit: u32) -> Work
    ensures { result ≡ work_by digit }
{
    match digit {
        0 => Work::Mov,
        1 => Work::Add,
        2 => Work::Or,
        3 => Work::And,
        _ => Work::Not,
    }
}

// The work on one operand that a second digit stands for.
pub fn single(digit: u32) -> Single
    ensures { result ≡ single_by digit }
{
    match digit {
        0 => Single::Not,
        1 => Single::Inc,
        _ => Single::Dec,
    }
}

// LPD, MOVP P,M or MOVP M,P, as a second digit says.
pub fn pointer(digit: u32, ppp: u32, m: Memory) -> Shape
    ensures { result ≡ pointer_by digit ppp m }
{
    match digit {
        0 => Shape::Lpd { ppp, m },
        1 => Shape::MovpLoad { ppp, m },
        _ => Shape::MovpStore { ppp, m },
    }
}
