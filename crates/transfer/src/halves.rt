// The halves of a pair of transfer steps: two fetches with one store of a word, or one fetch of a word with two stores.
ghost use Rattle.std.specs.Prelude.{true, false, ◌≡◌};
ghost use Rattle.ground_rules.specs.Buffers.{lent};
ghost use Rattle.transfer_rules.specs.Parts.{fetches_apart, stores_apart, is_half, FirstFetch, SecondFetch, FirstStore, SecondStore};
ghost use Rattle.transfer.specs.Moves.{left_by_move, moved_count};
ghost use Rattle.transfer_rules.specs.Steps.{bad_mode, step_by, count_by, transfer_of, transfer_count};

use crate::moving::Moving;
use crate::{Moved, moves, reads, stores};
use ground_rules::Refusal;
use transfer_rules::Data;

impl Moving {
    // Whether the next step is one half of a pair; without synchronisation none is.
    pub(crate) fn is_half(self) -> bool
        ensures { result ≡ is_half self.channel }
    {
        let p = self.setup;
        let synchronised = self.channel.fields.synchronised;
        if synchronised == 0 {
            return false;
        }
        ((synchronised == 1) & (p.two & !p.fromWord)) | ((synchronised == 2) & p.singly)
    }

    // The first of two fetches: its byte is held.
    fn first_fetch(self, sys: &[u8], io: &[u8]) -> Result<Moved, Refusal>
        requires { bad_mode self.channel ≡ false }
        ensures left { left_by_move self.channel result (lent sys.now io.now) ≡ step_by FirstFetch self.channel (lent sys.now io.now) }
        ensures count { moved_count result ≡ count_by FirstFetch self.channel (lent sys.now io.now) }
    {
        let from = self.setup.source.pointer;
        match reads::read(from.tag, from.address, sys, io) {
            Some(byte) => Ok(moves::holds(1, byte)),
            None => Err(Refusal::BeyondMemory),
        }
    }

    // The second of two fetches: a word is stored, the held byte below the one that is read.
    fn second_fetch(self, first: u8, sys: &mut [u8], io: &mut [u8]) -> Result<Moved, Refusal>
        requires { (bad_mode self.channel ≡ false) × (fetches_apart self.channel ≡ true) }
        ensures left { left_by_move self.channel result (lent sys.new io.new) ≡ step_by (SecondFetch first) self.channel (lent sys.old io.old) }
        ensures count { moved_count result ≡ count_by (SecondFetch first) self.channel (lent sys.old io.old) }
    {
        let from = self.setup.source.pointer;
        let Some(second) = reads::read(from.tag, self.second_from(), sys, io) else {
            return Err(Refusal::BeyondMemory);
        };
        let bytes = Data { first, second };
        if !self.put(true, bytes, sys, io) {
            return Err(Refusal::BeyondMemory);
        }
        let done = self.finish(bytes);
        Ok(moves::goes(3, 2, done.code))
    }

    // The first of two stores: the second byte is held, unless a match ends the transfer here.
    fn first_store(self, sys: &mut [u8], io: &mut [u8]) -> Result<Moved, Refusal>
        requires { (bad_mode self.channel ≡ false) × (stores_apart self.channel ≡ true) }
        ensures left { left_by_move self.channel result (lent sys.new io.new) ≡ step_by FirstStore self.channel (lent sys.old io.old) }
        ensures count { moved_count result ≡ count_by FirstStore self.channel (lent sys.old io.old) }
    {
        let Some(bytes) = self.fetch(sys, io) else {
            return Err(Refusal::BeyondMemory);
        };
        if !self.put(false, bytes, sys, io) {
            return Err(Refusal::BeyondMemory);
        }
        let done = self.finish(bytes);
        if done.two {
            Ok(moves::holds(3, bytes.second))
        } else {
            Ok(moves::goes(3, 1, done.code))
        }
    }

    // The second of two stores: the held byte is stored, and nothing is read.
    fn second_store(self, byte: u8, sys: &mut [u8], io: &mut [u8]) -> Result<Moved, Refusal>
        requires { (bad_mode self.channel ≡ false) × (stores_apart self.channel ≡ true) }
        ensures left { left_by_move self.channel result (lent sys.new io.new) ≡ step_by (SecondStore byte) self.channel (lent sys.old io.old) }
        ensures count { moved_count result ≡ count_by (SecondStore byte) self.channel (lent sys.old io.old) }
    {
        let at = self.setup.destination.pointer;
        if !stores::put_one(at.tag, self.second_into(), byte, sys, io) {
            return Err(Refusal::BeyondMemory);
        }
        Ok(moves::goes(1, 2, self.second_code(byte)))
    }

    // The half that is due: with the source synchronised a fetch, else a store; the first where nothing is held.
    pub(crate) fn half(self, sys: &mut [u8], io: &mut [u8]) -> Result<Moved, Refusal>
        requires { (bad_mode self.channel ≡ false) × (is_half self.channel ≡ true) }
        ensures left { left_by_move self.channel result (lent sys.new io.new) ≡ transfer_of self.channel (lent sys.old io.old) }
        ensures count { moved_count result ≡ transfer_count self.channel (lent sys.old io.old) }
    {
        let fetches = self.channel.fields.synchronised == 1;
        match self.channel.held {
            None if fetches => self.first_fetch(sys, io),
            None => self.first_store(sys, io),
            Some(byte) if fetches => self.second_fetch(byte, sys, io),
            Some(byte) => self.second_store(byte, sys, io),
        }
    }
}
