// What a step comes to before its channel is written, and the channel.
ghost use Rattle.std.specs.Prelude.{◌≡◌};
ghost use Rattle.transfer.specs.Moves as Moves;

use crate::moving::Moving;
use crate::{Move, Moved};
use ground_rules::Channel;

// A first half: a byte is held.
pub(crate) fn holds(count: u32, byte: u8) -> Moved
    ensures { result ≡ Moves.moved_holding count byte }
{
    Moved {
        count,
        then: Move::Holds(byte),
    }
}

// The sides go on by some bytes, and the transfer ends by a code or goes on.
pub(crate) fn goes(count: u32, by: u32, code: u32) -> Moved
    ensures { result ≡ Moves.moved_on count by code }
{
    Moved {
        count,
        then: Move::GoesOn { by, code },
    }
}

impl Moving {
    // The channel that a step leaves: it holds the byte, or its sides go on with BC and the end.
    pub(crate) fn left(self, step: Move) -> Channel
        ensures { result ≡ Moves.landed self.channel step }
    {
        match step {
            Move::Holds(byte) => machine::updates::holds(self.channel, Some(byte)),
            Move::GoesOn { by, code } => self.landed(by, code),
        }
    }
}
