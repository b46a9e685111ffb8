// The attention call: the order that a channel's block holds is read, tested, and carried out whole or not at all.
#![tactic(auto)]

ghost use Rattle.std.specs.Prelude.{◌≡◌, IfOk};
ghost use Rattle.ground_rules.specs.Buffers.{lent};
ghost use Rattle.ground_rules.specs.Refusals.{answered, outcome_by, answer_count};
ghost use Rattle.attention_rules.specs.Attention.{order_number, given_to, attention_of, attention_count};
ghost use Rattle.attention.specs.Plans.{planned_number, planned_of};

use attention_rules::Order;
use ground_rules::{Answer, Channel, Mode, Pointer, Refusal, State};
use machine::states;

// The command of a CCW, what it asks of the mode, and what it does to PSW.
pub mod commands;
// A channel's block and the order that it holds.
pub mod blocks;
// Whether the bytes of an order may be touched.
pub mod touched;
// What an accepted order makes of the channel and of memory.
pub mod effects;

// TP and PSW, to be saved at PB.
#[derive(Clone, Copy, PartialEq, Eq)]
pub struct Saved {
    pub pb: u32,
    pub tp: Pointer,
    pub psw: u8,
}

// What an order stores: TP and PSW at PB, if they are saved, then BUSY of its block, if that is stored.
#[derive(Clone, Copy, PartialEq, Eq)]
pub struct Writes {
    pub saved: Option<Saved>,
    pub block: u32,
    pub busy: Option<u8>,
}

// What an accepted order comes to: how many bytes it reads and stores, the channel after it, and what it stores.
#[derive(Clone, Copy, PartialEq, Eq)]
pub struct Upshot {
    pub count: u32,
    pub channel: Channel,
    pub writes: Writes,
}

// Refuses what an attention is given: a number that names no channel, then what every call refuses.
#[tactic(auto, unfolding(attention_rules::specs::Attention::given_to, ground_rules::specs::Outcomes::first, ground_rules::specs::Outcomes::unless))]
pub fn check_given(s: State, sys: &[u8], io: &[u8], channel: u32) -> Result<(), Refusal>
    ensures { answered result ≡ given_to s (lent sys.now io.now) channel }
{
    if !states::is_channel(channel) {
        return Err(Refusal::OutOfRange);
    }
    states::check_given(s, sys, io)
}

// Refuses an order to a channel in some mode.
#[tactic(auto, unfolding(attention_rules::specs::Attention::order_number, ground_rules::specs::Stages::stages_number, attention_rules::specs::Touched::order_stages, ground_rules::specs::Outcomes::first, ground_rules::specs::Outcomes::unless))]
fn check(sys: &[u8], io: &[u8], o: Order, mode: Mode) -> Result<(), Refusal>
    ensures { answered result ≡ order_number (lent sys.now io.now) o mode }
{
    if !memory::span_touchable(sys, io, false, o.block, 1) {
        return Err(Refusal::BeyondMemory);
    }
    commands::check(o.command, mode)?;
    if !touched::others(sys, io, o) {
        return Err(Refusal::BeyondMemory);
    }
    Ok(())
}

// What the order in a block comes to for its channel, before anything is stored.
#[tactic(auto, unfolding(crate::specs::Plans::planned_number, crate::specs::Plans::planned_of))]
pub fn planned(sys: &[u8], io: &[u8], block: u32, c: Channel) -> Result<Upshot, Refusal>
    ensures number { answered result ≡ planned_number (lent sys.now io.now) block c }
    ensures upshot { IfOk result (λ upshot. upshot ≡ planned_of (lent sys.now io.now) block c) }
{
    let o = blocks::order(sys, io, block, c.pp);
    check(sys, io, o, c.mode)?;
    Ok(Upshot {
        count: commands::count(o.command),
        channel: effects::channel_ordered(sys, io, o, c),
        writes: effects::writes_of(o, c),
    })
}

// Gives a channel attention. What was given is refused before any byte is looked at.
pub fn attention(s: State, sys: &mut [u8], io: &mut [u8], channel: u32) -> Result<Answer, Refusal>
    ensures left { outcome_by s result (lent sys.new io.new) ≡ attention_of s (lent sys.old io.old) channel }
    ensures count { answer_count result ≡ attention_count s (lent sys.old io.old) channel }
{
    check_given(s, sys, io, channel)?;
    let second = states::is_second(channel);
    let upshot = planned(
        sys,
        io,
        states::block(s, second),
        states::channel(s, second),
    )?;
    effects::write(sys, io, upshot.writes);
    Ok(Answer {
        count: upshot.count,
        state: states::with_channel(s, second, upshot.channel),
    })
}
