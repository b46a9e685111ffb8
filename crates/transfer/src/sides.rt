// The two sides of a transfer, and how many bytes move between them.
ghost use Rattle.std.specs.Prelude.{◌||◌, ◌≡◌};
ghost use Rattle.ground_rules.specs.Sums.{sum20};
ghost use Rattle.ground_rules.specs.Choice.{pick};
ghost use Rattle.transfer_rules.specs.Sides as Sides;
ghost use Rattle.transfer_rules.specs.Sides.{source, destination, word_side, second_address};
ghost use Rattle.transfer.specs.Setups.{setup_of};

use crate::Setup;
use crate::moving::Moving;
use ground_rules::{Channel, Pointer};
use transfer_rules::Side;

// One of two pointers, by its parts, as the channel has them.
pub(crate) fn chosen(test: bool, a: Pointer, b: Pointer) -> Pointer
    ensures { result ≡ pick test a b }
{
    if test {
        Pointer {
            address: a.address,
            tag: a.tag,
        }
    } else {
        Pointer {
            address: b.address,
            tag: b.tag,
        }
    }
}

// Whether a side is a word side.
pub(crate) fn word(s: Side) -> bool
    ensures { result ≡ word_side s }
{
    let p = s.pointer;
    s.wide & !words::bit(p.address, 0)
}

// The address of a side's second byte, told whether it is a word side.
fn second_by(s: Side, whole: bool) -> u32
    ensures { result ≡ pick (whole || s.moves) (sum20 s.pointer.address 1) s.pointer.address }
{
    let p = s.pointer;
    if whole | s.moves {
        words::sum20(p.address, 1)
    } else {
        p.address
    }
}

// The address of a side's second byte.
pub fn second(s: Side) -> u32
    ensures { result ≡ second_address s }
{
    second_by(s, word(s))
}

impl Moving {
    // The address of the source's second byte.
    pub(crate) fn second_from(self) -> u32
        ensures { result ≡ second_address (source self.channel) }
    {
        second_by(self.setup.source, self.setup.fromWord)
    }

    // The address of the destination's second byte.
    pub(crate) fn second_into(self) -> u32
        ensures { result ≡ second_address (destination self.channel) }
    {
        second_by(self.setup.destination, self.setup.intoWord)
    }
}

// A pointer that goes some bytes on, if it moves.
pub(crate) fn gained(moves: bool, p: Pointer, by: u32) -> Pointer
    ensures { result ≡ Sides.gained moves p by }
{
    if moves {
        memory::onward(p, by)
    } else {
        Pointer {
            address: p.address,
            tag: p.tag,
        }
    }
}

// What a channel says of its transfer.
pub fn plan(c: Channel) -> Setup
    ensures { result ≡ setup_of c }
{
    let f = c.fields;
    let source = Side {
        pointer: chosen(f.sourceIsGB, c.gb, c.ga),
        moves: f.sourceMoves,
        wide: machine::psw::source_wide(c.psw),
    };
    let destination = Side {
        pointer: chosen(f.sourceIsGB, c.ga, c.gb),
        moves: f.destinationMoves,
        wide: machine::psw::destination_wide(c.psw),
    };
    let intoWord = word(destination);
    let fromWord = word(source);
    let two = (fromWord | intoWord) & !((f.countEnd != 0) & (c.bc == 1));
    Setup {
        source,
        destination,
        two,
        singly: two & !intoWord,
        fromWord,
        intoWord,
    }
}
