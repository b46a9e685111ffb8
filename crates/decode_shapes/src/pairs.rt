// The six fields of a pair of bytes, and the tests of a field that the instruction summary has a mark for.
ghost use Rattle.std.specs.Prelude.{◌≡◌};
ghost use Rattle.instruction_rules.specs.Pairs.{pair_of, memory_of, meets, columns};
ghost use Rattle.instruction_rules.specs.Pairs.Column.{'0, '00, 'RRR, 'PPP, 'dd, 'wb};

use instruction_rules::{Memory, Pair};

// The fields of two bytes.
pub fn split(first: u8, second: u8) -> Pair
    ensures { result ≡ pair_of first second }
{
    let a = first as u32;
    let b = second as u32;
    Pair {
        rrr: words::field(a, 5, 3),
        dd: words::field(a, 3, 2),
        aa: words::field(a, 1, 2),
        w: words::field(a, 0, 1),
        opcode: words::field(b, 2, 6),
        mm: words::field(b, 0, 2),
    }
}

// The memory operand that a pair gives.
pub fn operand(p: Pair) -> Memory
    ensures { result ≡ memory_of p }
{
    Memory {
        mm: p.mm,
        aa: p.aa,
        wide: p.w == 1,
    }
}

// PPP: GA, GB, GC or TP.
pub fn pointer(ppp: u32) -> bool
    ensures { result ≡ meets 'PPP 0 ppp }
{
    (ppp < 3) | (ppp == 4)
}

// dd: a displacement of one byte or two.
pub fn displacement(dd: u32) -> bool
    ensures { result ≡ meets 'dd 0 dd }
{
    (dd == 1) | (dd == 2)
}

// wb: an immediate of one byte or two, as W says.
pub fn immediate(dd: u32, w: u32) -> bool
    ensures { result ≡ meets 'wb w dd }
{
    (w < 2) & (dd == w % 2 + 1)
}

// Nothing but RRR and the opcode is set.
pub fn bare(p: Pair) -> bool
    ensures { result ≡ columns 'RRR '00 '00 '0 '00 p }
{
    (p.mm == 0) & ((p.aa == 0) & ((p.w == 0) & (p.dd == 0)))
}
