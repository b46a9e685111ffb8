// What a row finds of a channel before its step: whether it waits, and what its next transfer step would read.
ghost use mathlib.Core.{Bool.true, Bool.◌&&◌, Path.◌≡◌};
ghost use lib.{Dec.ltb, ListN.length};
ghost use Rattle.ground_rules.specs.{Buffers.Buffers, Psw.transferring};
ghost use Rattle.transfer_rules.specs.{Parts.part_of, Steps.reads_by};
ghost use Rattle.turn_rules.specs.Choosing.{requested};
ghost use Rattle.schedule_rules.specs.Counts.{waits_for_drq};

use ground_rules::Channel;

// Whether a channel waits for its DRQ, and how many bytes its next transfer step reads.
#[derive(Clone, Copy)]
pub(crate) struct Found {
    pub(crate) waits: bool,
    pub(crate) reads: u32,
}

// What a step row with these lines finds of a channel; what is read only where XF is set.
pub(crate) fn find(c: Channel, lines: u32, second: bool) -> Found
    ensures waits { result.waits ≡ (ltb lines 16 && waits_for_drq c (requested lines second)) }
    ensures reads { transferring c.psw ≡ true → (m : Buffers) → result.reads ≡ length (reads_by (part_of c) c m) }
{
    if !machine::psw::transferring(c.psw) {
        return Found {
            waits: false,
            reads: 0,
        };
    }
    let reads = transfer::bytes_read(c);
    let f = c.fields;
    // Asked first, by a branch: joined with what follows it takes ten instructions more a row.
    if !((f.synchronised == 1) | (f.synchronised == 2)) {
        return Found {
            waits: false,
            reads,
        };
    }
    let mode = c.mode;
    let drq = words::bit(lines, u32::from(second));
    Found {
        waits: (lines < 16) & machine::states::is_running(mode) & !drq,
        reads,
    }
}
