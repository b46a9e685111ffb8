// Registers by their names, set as they stand, also to what a sound state never has.
ghost use Rattle.std.specs.Prelude.{◌≡◌, true, false};
ghost use Rattle.script_text.specs.Registers.{values_of, fits_own, is_board_mark, fits_shared, fits_register, mode_numbered, with_raw, board_marked, with_shared, with_named};

use crate::names;
use ground_rules::{Board, Channel, Mode, State};

// How many values, from 0 on, fit a channel's register other than `held`; 0 where there is no such register.
#[tactic(auto, unfolding(crate::specs::Registers::values_of))]
fn values(register: u64) -> u64
    ensures { result ≡ values_of register }
{
    match register {
        names::GA | names::GB | names::GC | names::TP | names::PP => 0x1_0000_0000,
        names::BC | names::IX | names::CC | names::FIELDS | names::MC => 65536,
        names::PSW => 256,
        names::GA_TAG | names::GB_TAG | names::GC_TAG | names::TP_TAG | names::ARM => 2,
        names::MODE => 3,
        _ => 0,
    }
}

// Whether a value fits a channel's register.
#[tactic(auto, unfolding(crate::specs::Registers::fits_own))]
fn fits_own(register: u64, value: u32) -> bool
    ensures { result ≡ fits_own register value }
{
    if register == names::HELD {
        return machine::holdings::stands(value);
    }
    (value as u64) < values(register)
}

// Whether a register is a mark of the board.
#[tactic(auto, unfolding(crate::specs::Registers::is_board_mark))]
fn is_board_mark(register: u64) -> bool
    ensures { result ≡ is_board_mark register }
{
    matches!(
        register,
        names::UP | names::SYSBUS | names::SOC | names::GRANT
    )
}

// Whether a value fits a shared register.
#[tactic(auto, unfolding(crate::specs::Registers::fits_shared))]
fn fits_shared(register: u64, value: u32) -> bool
    ensures { result ≡ fits_shared register value }
{
    match register {
        names::CP => true,
        names::LAST => (value == 1) | (value == 2),
        _ => is_board_mark(register) & (value < 2),
    }
}

// Whether there is such a register of channel 1 or 2, or a shared one for channel 0, and the value fits it.
#[tactic(auto, unfolding(crate::specs::Registers::fits_register))]
pub fn fits(channel: u32, register: u64, value: u32) -> bool
    ensures { result ≡ fits_register channel register value }
{
    match channel {
        0 => fits_shared(register, value),
        1 | 2 => fits_own(register, value),
        _ => false,
    }
}

// The mode of a number: 0 idle, 1 running, 2 suspended.
#[tactic(auto, unfolding(crate::specs::Registers::mode_numbered))]
fn mode_of(value: u32) -> Mode
    ensures { result ≡ mode_numbered value }
{
    match value {
        0 => Mode::Idle,
        1 => Mode::Running,
        _ => Mode::Suspended,
    }
}

// A channel with a register set as it stands, CC without its fields and these without CC.
#[tactic(auto, unfolding(crate::specs::Registers::with_raw, crate::specs::Registers::pointer_set))]
fn with_raw(c: Channel, register: u64, value: u32) -> Channel
    ensures { result ≡ with_raw c register value }
{
    let mut next = c;
    let w = (value % 65536) as u16;
    let on = value == 1;
    match register {
        names::GA => next.ga.address = value,
        names::GB => next.gb.address = value,
        names::GC => next.gc.address = value,
        names::TP => next.tp.address = value,
        names::PP => next.pp = value,
        names::BC => next.bc = w,
        names::IX => next.ix = w,
        names::CC => next.cc = w,
        names::FIELDS => next.fields = machine::cc::split(w),
        names::MC => next.mc = w,
        names::PSW => next.psw = (value % 256) as u8,
        names::GA_TAG => next.ga.tag = on,
        names::GB_TAG => next.gb.tag = on,
        names::GC_TAG => next.gc.tag = on,
        names::TP_TAG => next.tp.tag = on,
        names::ARM => next.armed = on,
        names::MODE => next.mode = mode_of(value),
        names::HELD => next.held = machine::holdings::from(value),
        _ => {}
    }
    next
}

// What the board set up, with one of its marks set.
#[tactic(auto, unfolding(crate::specs::Registers::board_marked))]
fn with_mark(b: Board, register: u64, on: bool) -> Board
    ensures { result ≡ board_marked b register on }
{
    let mut next = b;
    match register {
        names::UP => next.powered = on,
        names::SYSBUS => next.sysbus = on,
        names::SOC => next.soc = on,
        names::GRANT => next.grant = on,
        _ => {}
    }
    next
}

// A state with a shared register set as it stands.
#[tactic(auto, unfolding(crate::specs::Registers::with_shared, crate::specs::Registers::board_marked))]
fn with_shared(s: State, register: u64, value: u32) -> State
    ensures { result ≡ with_shared s register value }
{
    let mut next = s;
    match register {
        names::CP => next.cp = value,
        names::LAST => next.last = value == 2,
        _ => next.board = with_mark(s.board, register, value == 1),
    }
    next
}

// A state with a register of channel 1 or 2, or a shared one for channel 0, set as it stands.
#[tactic(auto, unfolding(crate::specs::Registers::with_named))]
pub fn with_register(s: State, channel: u32, register: u64, value: u32) -> State
    ensures { result ≡ with_named s channel register value }
{
    if channel == 0 {
        return with_shared(s, register, value);
    }
    let second = machine::states::is_second(channel);
    let c = machine::states::channel(s, second);
    let next = with_raw(c, register, value);
    machine::states::with_channel(s, second, next)
}
