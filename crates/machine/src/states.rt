// A fresh state, a state after reset, a sound state, and the channels of a state by their names and numbers.
ghost use Rattle.std.specs.Prelude.{false, ◌≡◌};
ghost use Rattle.ground_rules.specs.Buffers.{lent};
ghost use Rattle.ground_rules.specs.Outcomes.{given_number};
ghost use Rattle.ground_rules.specs.Refusals.{answered};
ghost use Rattle.ground_rules.specs.States as States;
ghost use Rattle.ground_rules.specs.States.{board_with, idle_channel, blank_state, reset_state, fresh_of, channel_of, with_channel, with_last, sound_channel, fields_agree, is_running, is_suspended, block_of, busy_in, is_channel, is_second, channel_number};

use crate::cc;
use ground_rules::{Board, Channel, Made, Mode, Pointer, Refusal, State};

// A channel with all at 0 and idle.
#[tactic(auto, unfolding(ground_rules::specs::States::idle_channel))]
pub fn idle() -> Channel
    ensures { result ≡ idle_channel }
{
    let p = Pointer {
        address: 0,
        tag: false,
    };
    Channel {
        ga: p,
        gb: p,
        gc: p,
        tp: p,
        pp: 0,
        bc: 0,
        ix: 0,
        cc: 0,
        mc: 0,
        psw: 0,
        mode: Mode::Idle,
        armed: false,
        fields: cc::split(0),
        held: None,
    }
}

// The state in which nothing but CP and what the board set up is known.
pub fn blank(cp: u32, board: Board) -> State
    ensures { result ≡ blank_state cp board }
{
    let c = idle();
    State {
        first: c,
        second: c,
        cp,
        last: true,
        board,
    }
}

// What the board set up where neither SYSBUS nor SOC was read.
fn unread(powered: bool) -> Board
    ensures { result ≡ board_with powered false false false }
{
    Board {
        powered,
        sysbus: false,
        soc: false,
        grant: false,
    }
}

// A fresh state of a CP, or 10 and the one of CP 0.
#[tactic(auto, unfolding(ground_rules::specs::States::fresh_of, ground_rules::specs::States::fresh_state))]
pub fn fresh(cp: u32) -> Made
    ensures { result ≡ fresh_of cp }
{
    if cp < 1048576 {
        let state = blank(cp, unread(true));
        Made { number: 0, state }
    } else {
        let state = blank(0, unread(true));
        Made { number: 10, state }
    }
}

// The state after reset, which only power-up leads out of.
#[tactic(auto, unfolding(ground_rules::specs::States::reset_state))]
pub fn reset() -> State
    ensures { result ≡ reset_state }
{
    blank(0, unread(false))
}

// Whether no pointer of a channel is past 20 bits.
#[tactic(auto, unfolding(ground_rules::specs::States::sound_channel))]
pub fn sound_channel(c: Channel) -> bool
    ensures { result ≡ sound_channel c }
{
    (c.ga.address < 1048576)
        & (c.gb.address < 1048576)
        & (c.gc.address < 1048576)
        & (c.tp.address < 1048576)
        & (c.pp < 1048576)
}

// Whether no pointer of either channel, nor CP, is past 20 bits.
#[tactic(auto, unfolding(ground_rules::specs::States::sound))]
pub fn sound(s: State) -> bool
    ensures { result ≡ States.sound s }
{
    sound_channel(s.first) & sound_channel(s.second) & (s.cp < 1048576)
}

// Whether the fields of a channel are those of its CC.
pub fn fields_agree(c: Channel) -> bool
    ensures { result ≡ fields_agree c }
{
    c.fields == cc::split(c.cc)
}

// Whether the fields of both channels are those of their CC.
#[tactic(auto, unfolding(ground_rules::specs::States::agree))]
pub fn agree(s: State) -> bool
    ensures { result ≡ States.agree s }
{
    fields_agree(s.first) & fields_agree(s.second)
}

// The channel of a name: false is channel 1, true is channel 2.
#[tactic(auto, unfolding(ground_rules::specs::States::channel_of))]
pub fn channel(s: State, second: bool) -> Channel
    ensures { result ≡ channel_of s second }
{
    if second { s.second } else { s.first }
}

// The state with a channel put back under its name.
#[tactic(auto, unfolding(ground_rules::specs::States::with_channel))]
pub fn with_channel(s: State, second: bool, c: Channel) -> State
    ensures { result ≡ with_channel s second c }
{
    let mut next = s;
    if second {
        next.second = c;
    } else {
        next.first = c;
    }
    next
}

// The state with the channel that stepped last.
#[tactic(auto, unfolding(ground_rules::specs::States::with_last))]
pub fn with_last(s: State, second: bool) -> State
    ensures { result ≡ with_last s second }
{
    let mut next = s;
    next.last = second;
    next
}

// Whether a channel of a mode runs.
pub fn is_running(mode: Mode) -> bool
    ensures { result ≡ is_running mode }
{
    mode.is_running()
}

// Whether a channel of a mode is suspended.
pub fn is_suspended(mode: Mode) -> bool
    ensures { result ≡ is_suspended mode }
{
    mode.is_suspended()
}

// Where a channel's block starts.
#[tactic(auto, unfolding(ground_rules::specs::States::block_of))]
pub fn block(s: State, second: bool) -> u32
    ensures { result ≡ block_of s second }
{
    if second { words::sum20(s.cp, 8) } else { s.cp }
}

// Where BUSY stands in a channel's block.
#[tactic(auto, unfolding(ground_rules::specs::States::busy_in))]
pub fn busy(block: u32) -> u32
    ensures { result ≡ busy_in block }
{
    words::sum20(block, 1)
}

// Whether a number names a channel.
#[tactic(auto, unfolding(ground_rules::specs::States::is_channel))]
pub fn is_channel(number: u32) -> bool
    ensures { result ≡ is_channel number }
{
    (number == 1) | (number == 2)
}

// Whether a number names channel 2.
#[tactic(auto, unfolding(ground_rules::specs::States::is_second))]
pub fn is_second(number: u32) -> bool
    ensures { result ≡ is_second number }
{
    number == 2
}

// The number of a channel.
#[tactic(auto, unfolding(ground_rules::specs::States::channel_number))]
pub fn number(second: bool) -> u32
    ensures { result ≡ channel_number second }
{
    if second { 2 } else { 1 }
}

// Refuses what a call is given: a buffer past its limit, a state that is not sound, one that is not powered up, or one
// whose fields are not those of CC.
#[tactic(auto, unfolding(ground_rules::specs::Outcomes::given_number, ground_rules::specs::Outcomes::first, ground_rules::specs::Outcomes::unless))]
pub fn check_given(s: State, sys: &[u8], io: &[u8]) -> Result<(), Refusal>
    ensures { answered result ≡ given_number s (lent sys.now io.now) }
{
    if !memory::within_limits(sys, io) {
        return Err(Refusal::BufferTooLong);
    }
    if !sound(s) {
        return Err(Refusal::UnsoundState);
    }
    if !s.board.powered {
        return Err(Refusal::NotPoweredUp);
    }
    if !agree(s) {
        return Err(Refusal::FieldsDiffer);
    }
    Ok(())
}
