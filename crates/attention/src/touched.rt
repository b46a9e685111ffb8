// Whether the bytes of an order may be touched: all are of system space, so whether they are lent.
ghost use Rattle.std.specs.Prelude.{false, ◌≡◌, ◌++◌};
ghost use Rattle.ground_rules.specs.Buffers.{lent};
ghost use Rattle.ground_rules.specs.Places.{span, all_touchable};
ghost use Rattle.ground_rules.specs.States.{busy_in};
ghost use Rattle.attention_rules.specs.Blocks.{pointer_of};
ghost use Rattle.attention_rules.specs.Touched as Touched;

use attention_rules::{Command, Order};

// Whether BUSY may be touched.
fn busy(sys: &[u8], io: &[u8], block: u32) -> bool
    ensures { result ≡ all_touchable (lent sys.now io.now) (span false (busy_in block) 1) }
{
    memory::span_touchable(sys, io, false, machine::states::busy(block), 1)
}

// Whether PB's first `count` bytes and BUSY may be touched.
fn stored(sys: &[u8], io: &[u8], block: u32, pb: u32, count: u32) -> bool
    ensures { result ≡ all_touchable (lent sys.now io.now) (span false pb count ++ span false (busy_in block) 1) }
{
    memory::span_touchable(sys, io, false, pb, count) & busy(sys, io, block)
}

// Whether a start's bytes may be touched: the block's pointer, `count` bytes of PB, and BUSY.
fn started(sys: &[u8], io: &[u8], block: u32, pb: u32, count: u32) -> bool
    ensures { result ≡ all_touchable (lent sys.now io.now) ((span false (pointer_of block) 4 ++ span false pb count) ++ span false (busy_in block) 1) }
{
    memory::span_touchable(sys, io, false, words::sum20(block, 2), 4)
        & stored(sys, io, block, pb, count)
}

// Whether all bytes of an order after its CCW may be touched.
#[tactic(auto, unfolding(attention_rules::specs::Touched::others, attention_rules::specs::Touched::read_by, attention_rules::specs::Touched::stored_by, ground_rules::specs::Places::all_pass))]
pub fn others(sys: &[u8], io: &[u8], o: Order) -> bool
    ensures { result ≡ all_touchable (lent sys.now io.now) (Touched.others o) }
{
    let command = o.command;
    match command {
        Command::Update => true,
        Command::StartLocal => started(sys, io, o.block, o.pb, 2),
        Command::StartSystem => started(sys, io, o.block, o.pb, 4),
        Command::Suspend | Command::Resume => stored(sys, io, o.block, o.pb, 4),
        Command::Halt => busy(sys, io, o.block),
        Command::Unknown => true,
    }
}
