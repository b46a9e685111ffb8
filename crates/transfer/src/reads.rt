// The bytes that a transfer step reads, before it stores.
ghost use Rattle.std.specs.Prelude.{◌≡◌, false};
ghost use Rattle.ground_rules.specs.Buffers.{lent};
ghost use Rattle.transfer_rules.specs.Steps.{bad_mode};
ghost use Rattle.transfer.specs.Fetches.{sight, seen, fetch_of};

use crate::moving::Moving;
use transfer_rules::Data;

// A byte, and whether a call may touch it.
#[derive(Clone, Copy, PartialEq, Eq)]
pub struct Seen {
    pub byte: u8,
    pub touchable: bool,
}

// The byte at an address, and whether a call may touch it; the space is asked for once.
pub fn see(tag: bool, address: u32, sys: &[u8], io: &[u8]) -> Seen
    ensures { result ≡ sight (lent sys.now io.now) tag address }
{
    if tag {
        return Seen {
            byte: memory::byte(sys, io, true, address),
            touchable: true,
        };
    }
    let byte = memory::byte(sys, io, false, address);
    Seen {
        byte,
        touchable: memory::lent(sys, io, false, address),
    }
}

// The byte at an address, if a call may touch it.
pub fn read(tag: bool, address: u32, sys: &[u8], io: &[u8]) -> Option<u8>
    ensures { result ≡ seen (lent sys.now io.now) tag address }
{
    let there = see(tag, address, sys, io);
    if there.touchable {
        Some(there.byte)
    } else {
        None
    }
}

impl Moving {
    // The bytes to be stored, if all that is read for them may be touched.
    pub(crate) fn fetch(self, sys: &[u8], io: &[u8]) -> Option<Data>
        requires { bad_mode self.channel ≡ false }
        ensures { result ≡ fetch_of self.channel (lent sys.now io.now) }
    {
        let from = self.setup.source.pointer;
        let first = read(from.tag, from.address, sys, io)?;
        if self.setup.two {
            let second = read(from.tag, self.second_from(), sys, io)?;
            return Some(Data { first, second });
        }
        if self.channel.fields.translates {
            let gc = self.channel.gc;
            let entry = read(gc.tag, words::sum20(gc.address, first as u32), sys, io)?;
            return Some(Data {
                first: entry,
                second: 0,
            });
        }
        Some(Data { first, second: 0 })
    }
}
