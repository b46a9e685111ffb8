// NOP, SINTR, XFER, WID and HLT.
ghost use Rattle.std.specs.Prelude.{◌≡◌, ℕ, not};
ghost use Rattle.ground_rules.specs.Buffers.{Buffers};
ghost use Rattle.ground_rules.specs.declared.Channel.{Channel};
ghost use Rattle.instruction_rules.specs.declared.Shape.TheVariants.{Nop, Sintr, Xfer, Wid, Hlt};
ghost use Rattle.execute.specs.Effects.{leaving, Works};

use crate::{Effect, Finding};
use machine::psw;

// NOP.
pub fn nop(f: Finding) -> Effect
    ensures { (busy : ℕ) (m : Buffers) (c : Channel) → Works Nop busy f m c result }
{
    Effect::past(f)
}

// SINTR: IS is set if IC is 1.
pub fn sintr(f: Finding) -> Effect
    ensures { (busy : ℕ) (m : Buffers) (c : Channel) → Works Sintr busy f m c result }
{
    if !psw::interrupt_control(f.psw) {
        return Effect::past(f);
    }
    Effect {
        psw: psw::with(f.psw, psw::IS, true),
        ..Effect::past(f)
    }
}

// XFER: the mark is set, unless XFER itself used one up.
pub fn xfer(f: Finding) -> Effect
    ensures { (busy : ℕ) (m : Buffers) (c : Channel) → Works Xfer busy f m c result }
{
    Effect {
        armed: !f.armed,
        ..Effect::past(f)
    }
}

// WID: the widths of source and destination.
pub fn wid(f: Finding, source: bool, destination: bool) -> Effect
    ensures { (busy : ℕ) (m : Buffers) (c : Channel) → Works (Wid source destination) busy f m c result }
{
    let first = psw::with(f.psw, psw::SOURCE_WIDE, source);
    Effect {
        psw: psw::with(first, psw::DESTINATION_WIDE, destination),
        ..Effect::past(f)
    }
}

// HLT: as the command halt does, with BUSY stored as 0.
pub fn hlt(f: Finding, busy: u32) -> Effect
    ensures { (m : Buffers) (c : Channel) → Works Hlt busy f m c result }
{
    Effect {
        psw: machine::updates::stopped_psw(f.psw),
        halts: true,
        count: 1,
        address: busy,
        ..Effect::past(f)
    }
}
