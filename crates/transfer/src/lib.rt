// One transfer step of a channel, and the external end of a transfer.
#![tactic(auto)]

ghost use Rattle.std.specs.Prelude.{false, ◌≡◌, length};
ghost use Rattle.ground_rules.specs.Buffers.{Buffers, lent};
ghost use Rattle.ground_rules.specs.Refusals.{done_count};
ghost use Rattle.transfer_rules.specs.Ends.{externally_ended};
ghost use Rattle.transfer_rules.specs.Parts.{Whole, is_half, part_of};
ghost use Rattle.transfer_rules.specs.Reads.{bytes_fetched};
ghost use Rattle.transfer_rules.specs.Steps.{reads_by, accesses, bad_mode, step_by, count_by, transfer_of, transfer_count};
ghost use Rattle.transfer.specs.Moves.{transferred_by, left_by_move, moved_count};

use crate::moving::Moving;
use ground_rules::{Channel, Done, Refusal};
use transfer_rules::Side;

// The two sides, and what the channel says of a step.
pub mod sides;
// A channel together with what it says.
mod moving;
// The bytes read.
pub mod reads;
// The masked compare, the codes of the ends, and what an end does.
pub mod ends;
// The bytes stored, and the channel after.
pub mod stores;
// The halves of a pair of steps.
mod halves;
// What a step comes to.
mod moves;

// What a channel says of its transfer before a byte is read.
#[derive(Clone, Copy)]
pub struct Setup {
    pub source: Side,
    pub destination: Side,
    pub two: bool,
    pub singly: bool,
    pub fromWord: bool,
    pub intoWord: bool,
}

// How a step leaves its channel: it holds a byte, or its sides go on by some bytes and an end of a code ends it, 0 for none.
#[derive(Clone, Copy)]
pub enum Move {
    Holds(u8),
    GoesOn { by: u32, code: u32 },
}

// What a step comes to before its channel is written: how many bytes it read and stored, and how it leaves its channel.
#[derive(Clone, Copy)]
pub struct Moved {
    pub count: u32,
    pub then: Move,
}

// How many bytes a whole step reads and stores, by whether two move, two are stored, and a byte is translated.
fn count(two: bool, stored: bool, translated: bool) -> u32
    ensures { result ≡ accesses two stored translated }
{
    stores::one_or_two(two) as u32 + stores::one_or_two(stored) as u32 + translated as u32
}

impl Moving {
    // Whether the mode of the transfer is refused.
    fn bad_mode(self) -> bool
        ensures { result ≡ bad_mode self.channel }
    {
        let f = self.channel.fields;
        let p = self.setup;
        (f.synchronised == 3) | (f.translates & (p.source.wide | p.destination.wide))
    }

    // The whole move in one step.
    fn whole(self, sys: &mut [u8], io: &mut [u8]) -> Result<Moved, Refusal>
        requires { bad_mode self.channel ≡ false }
        ensures left { left_by_move self.channel result (lent sys.new io.new) ≡ step_by Whole self.channel (lent sys.old io.old) }
        ensures count { moved_count result ≡ count_by Whole self.channel (lent sys.old io.old) }
    {
        let Some(bytes) = self.fetch(sys, io) else {
            return Err(Refusal::BeyondMemory);
        };
        let done = self.finish(bytes);
        if !self.put(done.two, bytes, sys, io) {
            return Err(Refusal::BeyondMemory);
        }
        Ok(moves::goes(
            count(self.setup.two, done.two, self.channel.fields.translates),
            stores::one_or_two(done.two) as u32,
            done.code,
        ))
    }

    // The part of a move that is due: a half of a pair, else the whole.
    fn part(self, sys: &mut [u8], io: &mut [u8]) -> Result<Moved, Refusal>
        ensures left { left_by_move self.channel result (lent sys.new io.new) ≡ transfer_of self.channel (lent sys.old io.old) }
        ensures count { moved_count result ≡ transfer_count self.channel (lent sys.old io.old) }
    {
        if self.bad_mode() {
            return Err(Refusal::BadTransferMode);
        }
        if self.is_half() {
            return self.half(sys, io);
        }
        self.whole(sys, io)
    }
}

// Whether a channel's next transfer step is one half of a pair.
pub fn is_half(c: Channel) -> bool
    ensures { result ≡ is_half c }
{
    Moving::of(c).is_half()
}

// How many bytes a channel's next transfer step reads: a half its own, a whole one all that move and the translated one.
pub fn bytes_read(c: Channel) -> u32
    ensures { (m : Buffers) → result ≡ length (reads_by (part_of c) c m) }
{
    let moving = Moving::of(c);
    if !moving.is_half() {
        return stores::one_or_two(moving.setup.two) as u32 + c.fields.translates as u32;
    }
    if c.fields.synchronised == 1 {
        return 1;
    }
    match c.held {
        None => 2,
        Some(_) => 0,
    }
}

// How many bytes a whole move of a channel fetches from its source.
pub fn bytes_fetched(c: Channel) -> u16
    ensures { result ≡ bytes_fetched c }
{
    stores::one_or_two(sides::plan(c).two)
}

// What one transfer step comes to; its channel is not written yet.
pub fn comes_to(c: Channel, sys: &mut [u8], io: &mut [u8]) -> Result<Moved, Refusal>
    ensures left { left_by_move c result (lent sys.new io.new) ≡ transfer_of c (lent sys.old io.old) }
    ensures count { moved_count result ≡ transfer_count c (lent sys.old io.old) }
{
    Moving::of(c).part(sys, io)
}

// One transfer step: a half where one is due, else the whole move.
pub fn transfer(c: Channel, sys: &mut [u8], io: &mut [u8]) -> Result<Done, Refusal>
    ensures left { transferred_by c result (lent sys.new io.new) ≡ transfer_of c (lent sys.old io.old) }
    ensures count { done_count result ≡ transfer_count c (lent sys.old io.old) }
{
    let moving = Moving::of(c);
    let moved = moving.part(sys, io)?;
    Ok(Done {
        count: moved.count,
        channel: moving.left(moved.then),
    })
}

// The end that EXT brings: TP gains the offset of TX and XF clears, where TX is on; a held byte is dropped.
pub fn external_end(c: Channel) -> Channel
    ensures { result ≡ externally_ended c }
{
    ends::ended(
        machine::updates::holds(c, None),
        c.fields.externalEnd as u32,
    )
}
