// The registers of a channel by RRR, and the bases by MM.
ghost use Rattle.std.specs.Prelude.{◌≡◌};
ghost use Rattle.ground_rules.specs.Registers.{register_of, tag_of, with_register, base_of};

use crate::cc;
use ground_rules::{Channel, Pointer};

// The value of a register: a pointer's address, or 16 bits.
#[tactic(auto, unfolding(ground_rules::specs::Registers::register_of, ground_rules::specs::Registers::by_rrr))]
pub fn value(c: Channel, rrr: u32) -> u32
    ensures { result ≡ register_of c rrr }
{
    match rrr {
        0 => c.ga.address,
        1 => c.gb.address,
        2 => c.gc.address,
        3 => c.bc as u32,
        4 => c.tp.address,
        5 => c.ix as u32,
        6 => c.cc as u32,
        _ => c.mc as u32,
    }
}

// The tag of a register that is a pointer, else false.
#[tactic(auto, unfolding(ground_rules::specs::Registers::tag_of, ground_rules::specs::Registers::by_rrr))]
pub fn tag(c: Channel, rrr: u32) -> bool
    ensures { result ≡ tag_of c rrr }
{
    match rrr {
        0 => c.ga.tag,
        1 => c.gb.tag,
        2 => c.gc.tag,
        4 => c.tp.tag,
        _ => false,
    }
}

// The channel with a register written; a pointer takes the tag too, and CC renews its fields.
#[tactic(auto, unfolding(ground_rules::specs::Registers::with_register))]
pub fn with(c: Channel, rrr: u32, value: u32, tag: bool) -> Channel
    ensures { result ≡ with_register c rrr value tag }
{
    let mut next = c;
    let p = Pointer {
        address: value % 1048576,
        tag,
    };
    let w = (value % 65536) as u16;
    match rrr {
        0 => next.ga = p,
        1 => next.gb = p,
        2 => next.gc = p,
        3 => next.bc = w,
        4 => next.tp = p,
        5 => next.ix = w,
        6 => {
            next.cc = w;
            next.fields = cc::split(w);
        }
        _ => next.mc = w,
    }
    next
}

// The base pointer that MM names.
#[tactic(auto, unfolding(ground_rules::specs::Registers::base_of))]
pub fn base(c: Channel, mm: u32) -> Pointer
    ensures { result ≡ base_of c mm }
{
    match mm {
        0 => c.ga,
        1 => c.gb,
        2 => c.gc,
        _ => Pointer {
            address: c.pp,
            tag: false,
        },
    }
}
