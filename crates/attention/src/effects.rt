// What an accepted order makes of the channel and of memory.
ghost use Rattle.std.specs.Prelude.{◌≡◌};
ghost use Rattle.ground_rules.specs.Buffers.{lent};
ghost use Rattle.attention_rules.specs.Effects as Effects;
ghost use Rattle.attention_rules.specs.Effects.{channel_ordered};
ghost use Rattle.attention.specs.Writes.{writes_of, saved_by, marked_by, writes_made};

use crate::{Saved, Writes, commands};
use attention_rules::{Command, Order};
use ground_rules::{Channel, Mode, Pointer};
use machine::{psw, updates};

// The channel after a start with PB and TP.
#[tactic(auto, unfolding(attention_rules::specs::Effects::started))]
fn started(c: Channel, pp: u32, tp: Pointer) -> Channel
    ensures { result ≡ Effects.started c pp tp }
{
    let after = psw::with(psw::with(c.psw, psw::TB, true), psw::XF, false);
    updates::holds(
        updates::with_control(c, tp, pp, after, Mode::Running, false),
        None,
    )
}

// The channel after suspend.
#[tactic(auto, unfolding(attention_rules::specs::Effects::suspended))]
fn suspended(c: Channel) -> Channel
    ensures { result ≡ Effects.suspended c }
{
    let tp = c.tp;
    updates::with_control(
        c,
        tp,
        c.pp,
        updates::stopped_psw(c.psw),
        Mode::Suspended,
        c.armed,
    )
}

// The channel after resume, with TP and PSW as they were saved.
#[tactic(auto, unfolding(attention_rules::specs::Effects::resumed))]
fn resumed(c: Channel, tp: Pointer, saved: u8) -> Channel
    ensures { result ≡ Effects.resumed c tp saved }
{
    updates::with_control(
        c,
        tp,
        c.pp,
        psw::with(saved, psw::TB, true),
        Mode::Running,
        c.armed,
    )
}

// The channel after a command.
fn commanded(sys: &[u8], io: &[u8], command: Command, pb: u32, c: Channel) -> Channel
    ensures { result ≡ Effects.commanded command (lent sys.now io.now) pb c }
{
    match command {
        Command::Update => c,
        Command::StartLocal => {
            let address = memory::word(sys, io, false, pb) as u32;
            started(c, pb, Pointer { address, tag: true })
        }
        Command::StartSystem => {
            let address = memory::doubleword(sys, io, false, pb);
            started(
                c,
                pb,
                Pointer {
                    address,
                    tag: false,
                },
            )
        }
        Command::Suspend => suspended(c),
        Command::Resume => {
            let saved = memory::byte(sys, io, false, words::sum20(pb, 3));
            resumed(c, memory::stored_pointer(sys, io, false, pb), saved)
        }
        Command::Halt => updates::halted(c),
        Command::Unknown => c,
    }
}

// The channel after an accepted order.
#[tactic(auto, unfolding(attention_rules::specs::Effects::channel_ordered, ground_rules::specs::Updates::with_control))]
pub fn channel_ordered(sys: &[u8], io: &[u8], o: Order, c: Channel) -> Channel
    ensures { result ≡ channel_ordered (lent sys.now io.now) o c }
{
    let mut next = commanded(sys, io, o.command, o.pb, c);
    next.psw = commands::ordered(o.ccw, next.psw);
    next
}

// What an accepted order to a channel stores.
#[tactic(auto, unfolding(crate::specs::Writes::writes_of))]
pub fn writes_of(o: Order, c: Channel) -> Writes
    ensures { result ≡ writes_of o.command o.block o.pb c }
{
    let block = o.block;
    match o.command {
        Command::Update | Command::Unknown => Writes {
            saved: None,
            block,
            busy: None,
        },
        Command::StartLocal | Command::StartSystem | Command::Resume => Writes {
            saved: None,
            block,
            busy: Some(255),
        },
        Command::Suspend => Writes {
            saved: Some(Saved {
                pb: o.pb,
                tp: c.tp,
                psw: c.psw,
            }),
            block,
            busy: Some(0),
        },
        Command::Halt => Writes {
            saved: None,
            block,
            busy: Some(0),
        },
    }
}

// TP and PSW saved in PB's first four bytes, if they are to be.
fn save(sys: &mut [u8], io: &mut [u8], tp_and_psw: Option<Saved>)
    ensures { lent sys.new io.new ≡ saved_by (lent sys.old io.old) tp_and_psw }
{
    if let Some(s) = tp_and_psw {
        memory::store_pointer(sys, io, false, s.pb, s.tp);
        memory::store_byte(sys, io, false, words::sum20(s.pb, 3), s.psw);
    }
}

// BUSY of a block stored, if it is to be.
#[tactic(auto, unfolding(attention_rules::specs::Effects::marked, crate::specs::Writes::marked_by))]
fn mark(sys: &mut [u8], io: &mut [u8], block: u32, busy: Option<u8>)
    ensures { lent sys.new io.new ≡ marked_by (lent sys.old io.old) block busy }
{
    if let Some(busy) = busy {
        memory::store_byte(sys, io, false, machine::states::busy(block), busy);
    }
}

// All stores of an attention.
#[tactic(auto, unfolding(crate::specs::Writes::writes_made))]
pub fn write(sys: &mut [u8], io: &mut [u8], w: Writes)
    ensures { lent sys.new io.new ≡ writes_made (lent sys.old io.old) w }
{
    save(sys, io, w.saved);
    mark(sys, io, w.block, w.busy);
}
