// What a transfer step stores of the bytes that it read, and what the channel becomes.
ghost use Rattle.std.specs.Prelude.{true, ◌&&◌, ◌≡◌, eqb, ◌%◌};
ghost use Rattle.ground_rules.specs.Choice.{pick};
ghost use Rattle.ground_rules.specs.Buffers.{lent, touchable_at, store_byte};
ghost use Rattle.ground_rules.specs.Places.{all_touchable};
ghost use Rattle.transfer_rules.specs.Ends.{meets_tmc, code_if, larger};
ghost use Rattle.transfer_rules.specs.Stores.{match_met, stores_two, end_code, moved_by, put_on, places_on};
ghost use Rattle.transfer.specs.Moves.{landed_by};
ghost use Rattle.transfer_rules.specs.Sides.{destination, two_move};

use crate::moving::Moving;
use crate::{ends, sides};
use ground_rules::Channel;
use transfer_rules::Data;

// What is done with the bytes: whether two are stored, and the code of the end that this brings.
#[derive(Clone, Copy)]
pub(crate) struct StoreEnd {
    pub(crate) two: bool,
    pub(crate) code: u32,
}

// The number of bytes, of two or of one.
pub(crate) fn one_or_two(two: bool) -> u16
    ensures { result ≡ pick two 2 1 }
{
    if two { 2 } else { 1 }
}

// The code of the end by what the masked compare brought, by BC after the step and by TS.
fn end_from(c: Channel, matched: u32, bc: u16) -> u32
    ensures { result ≡ larger (larger matched (code_if (eqb bc 0) c.fields.countEnd)) (code_if c.fields.singleTransfer 1) }
{
    let f = c.fields;
    if (bc != 0) & !f.singleTransfer {
        return matched;
    }
    let counted = ends::code_if(bc == 0, f.countEnd as u32);
    let single = ends::code_if(f.singleTransfer, 1);
    ends::larger(ends::larger(matched, counted), single)
}

// A byte stored where a call may touch it, else nothing; and whether it may. The space is asked for once.
pub fn put_one(tag: bool, address: u32, v: u8, sys: &mut [u8], io: &mut [u8]) -> bool
    ensures { (result ≡ touchable_at (lent sys.old io.old) tag address) × (lent sys.new io.new ≡ store_byte (lent sys.old io.old) tag address v) }
{
    if tag {
        memory::store_byte(sys, io, true, address, v);
        return true;
    }
    let there = memory::lent(sys, io, false, address);
    memory::store_byte(sys, io, false, address, v);
    there
}

// Two bytes stored where a call may touch both places, else nothing; and whether it may. The space is asked for once.
pub fn put_two(tag: bool, address: u32, next: u32, d: Data, sys: &mut [u8], io: &mut [u8]) -> bool
    ensures { (result ≡ touchable_at (lent sys.old io.old) tag address && touchable_at (lent sys.old io.old) tag next) × (lent sys.new io.new ≡ pick result (store_byte (store_byte (lent sys.old io.old) tag address d.first) tag next d.second) (lent sys.old io.old)) }
{
    if tag {
        memory::store_byte(sys, io, true, address, d.first);
        memory::store_byte(sys, io, true, next, d.second);
        return true;
    }
    if !memory::lent(sys, io, false, next) {
        return false;
    }
    if !memory::lent(sys, io, false, address) {
        return false;
    }
    memory::store_byte(sys, io, false, address, d.first);
    memory::store_byte(sys, io, false, next, d.second);
    true
}

impl Moving {
    // What the masked compare decides; where TMC is off no byte is looked at.
    fn compare(self, d: Data) -> StoreEnd
        ensures { result ≡ record { two = stores_two self.channel d; code = code_if (match_met self.channel d) (self.channel.fields.matchEnd % 4) } }
    {
        let p = self.setup;
        let tmc = self.channel.fields.matchEnd as u32;
        if tmc % 4 == 0 {
            return StoreEnd {
                two: p.two,
                code: 0,
            };
        }
        let first = ends::meets(tmc, self.channel.mc, d.first);
        let second = ends::meets(tmc, self.channel.mc, d.second);
        StoreEnd {
            two: p.two & !(p.singly & first),
            code: ends::code_if(first | (p.singly & second), tmc % 4),
        }
    }

    // What a step does with the bytes that it read.
    pub(crate) fn finish(self, d: Data) -> StoreEnd
        ensures { result ≡ record { two = stores_two self.channel d; code = end_code self.channel (match_met self.channel d) } }
    {
        let bc = words::count_down(self.channel.bc, one_or_two(self.setup.two));
        let compared = self.compare(d);
        StoreEnd {
            two: compared.two,
            code: end_from(self.channel, compared.code, bc),
        }
    }

    // The code of the end of a second store, whose byte is compared by itself, where two bytes move.
    pub(crate) fn second_code(self, byte: u8) -> u32
        ensures { two_move self.channel ≡ true → result ≡ end_code self.channel (meets_tmc self.channel.fields.matchEnd self.channel.mc byte) }
    {
        let tmc = self.channel.fields.matchEnd as u32;
        let met = ends::meets(tmc, self.channel.mc, byte);
        end_from(
            self.channel,
            ends::code_if(met, tmc % 4),
            words::count_down(self.channel.bc, 2),
        )
    }

    // The channel with its moving sides on by some bytes, and a new BC; nothing is held.
    fn moved_by(self, by: u32, bc: u16) -> Channel
        ensures { result ≡ moved_by self.channel by bc }
    {
        let c = self.channel;
        let s = self.setup.source;
        let d = self.setup.destination;
        let source = sides::gained(s.moves, s.pointer, by);
        let destination = sides::gained(d.moves, d.pointer, by);
        let source_is_gb = c.fields.sourceIsGB;
        Channel {
            ga: sides::chosen(source_is_gb, destination, source),
            gb: sides::chosen(source_is_gb, source, destination),
            bc,
            held: None,
            ..c
        }
    }

    // The channel whose moving sides go on by some bytes, BC by those fetched, and that an end of a code ends.
    pub(crate) fn landed(self, by: u32, code: u32) -> Channel
        ensures { result ≡ landed_by self.channel by code }
    {
        let bc = words::count_down(self.channel.bc, one_or_two(self.setup.two));
        ends::ended(self.moved_by(by, bc), code)
    }

    // One byte or two stored on the destination where each place may be touched, else nothing; and whether it may.
    pub(crate) fn put(self, two: bool, d: Data, sys: &mut [u8], io: &mut [u8]) -> bool
        ensures told { result ≡ all_touchable (lent sys.old io.old) (places_on (destination self.channel) two) }
        ensures stored { lent sys.new io.new ≡ pick result (put_on (destination self.channel) two d (lent sys.old io.old)) (lent sys.old io.old) }
    {
        let at = self.setup.destination.pointer;
        if !two {
            return put_one(at.tag, at.address, d.first, sys, io);
        }
        put_two(at.tag, at.address, self.second_into(), d, sys, io)
    }
}
