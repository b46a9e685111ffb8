// A channel's block, and the order that it holds.
ghost use Rattle.std.specs.Prelude.{◌≡◌};
ghost use Rattle.ground_rules.specs.Buffers.{lent};
ghost use Rattle.attention_rules.specs.Blocks.{parameter_block, order_of};

use crate::commands;
use attention_rules::{Command, Order};

// Where PB lies: a start reads it in the block, any other command takes it at PP.
#[tactic(auto, unfolding(attention_rules::specs::Blocks::parameter_block))]
fn parameter_block(sys: &[u8], io: &[u8], command: Command, block: u32, pp: u32) -> u32
    ensures { result ≡ parameter_block command (lent sys.now io.now) block pp }
{
    match command {
        Command::StartLocal | Command::StartSystem => {
            memory::doubleword(sys, io, false, words::sum20(block, 2))
        }
        _ => pp,
    }
}

// The order that a block holds for a channel with that PP.
#[tactic(auto, unfolding(attention_rules::specs::Blocks::order_of, attention_rules::specs::Blocks::ccw_of))]
pub fn order(sys: &[u8], io: &[u8], block: u32, pp: u32) -> Order
    ensures { result ≡ order_of (lent sys.now io.now) block pp }
{
    let ccw = memory::byte(sys, io, false, block);
    let command = commands::command(ccw);
    let pb = parameter_block(sys, io, command, block, pp);
    Order {
        command,
        ccw,
        block,
        pb,
    }
}
