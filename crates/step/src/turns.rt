// Which channel steps: by its external end, by rank, by priority, or by turn.
ghost use Rattle.std.specs.Prelude.{◌≡◌};
ghost use Rattle.turn_rules.specs.Choosing as Choosing;
ghost use Rattle.turn_rules.specs.Choosing.{requested, ends_now, rank_of, second_wins, choice_of};

use ground_rules::{Channel, State};
use turn_rules::Choice;

// Whether a channel's DRQ is up.
pub fn request(lines: u32, second: bool) -> bool
    ensures { result ≡ requested lines second }
{
    words::bit(lines, second as u32)
}

// Whether a channel's EXT is up.
pub fn external(lines: u32, second: bool) -> bool
    ensures { result ≡ Choosing.external lines second }
{
    words::bit(lines, 2 + second as u32)
}

// Whether a channel's transfer ends by its EXT.
pub fn ends_now(c: Channel, ext: bool) -> bool
    ensures { result ≡ ends_now c ext }
{
    let mode = c.mode;
    let f = c.fields;
    machine::states::is_running(mode)
        & machine::psw::transferring(c.psw)
        & !(f.externalEnd == 0)
        & ext
}

// The rank of a running channel with XF, by its SYN.
fn transfer_rank(syn: u8, drq: bool) -> u32
    ensures { result ≡ Choosing.transfer_rank syn drq }
{
    if (syn == 0) | drq | (syn == 3) { 1 } else { 4 }
}

// The rank of a channel; 4 where it cannot step.
pub fn rank(c: Channel, drq: bool) -> u32
    ensures { result ≡ rank_of c drq }
{
    let mode = c.mode;
    let f = c.fields;
    if !machine::states::is_running(mode) {
        return 4;
    }
    if machine::psw::transferring(c.psw) {
        return transfer_rank(f.synchronised, drq);
    }
    if f.chained { 1 } else { 3 }
}

// Whether channel 2 goes before channel 1.
fn second_wins(rank1: u32, rank2: u32, priority1: bool, priority2: bool, last: bool) -> bool
    ensures { result ≡ second_wins rank1 rank2 priority1 priority2 last }
{
    if rank1 < rank2 {
        return false;
    }
    if rank2 < rank1 {
        return true;
    }
    if priority1 & !priority2 {
        return false;
    }
    if priority2 & !priority1 {
        return true;
    }
    !last
}

// The choice where no transfer ends.
fn ranked(s: State, rank1: u32, rank2: u32) -> Choice
    ensures { result ≡ Choosing.ranked s rank1 rank2 }
{
    if (rank1 == 4) & (rank2 == 4) {
        return Choice::Nobody;
    }
    let first = s.first;
    let second = s.second;
    let wins = second_wins(
        rank1,
        rank2,
        machine::psw::priority(first.psw),
        machine::psw::priority(second.psw),
        s.last,
    );
    Choice::Steps(wins)
}

// Who steps, with the lines as given.
pub fn choose(s: State, lines: u32) -> Choice
    ensures { result ≡ choice_of s lines }
{
    let first = s.first;
    let second = s.second;
    if ends_now(first, external(lines, false)) {
        return Choice::Ends(false);
    }
    if ends_now(second, external(lines, true)) {
        return Choice::Ends(true);
    }
    ranked(
        s,
        rank(first, request(lines, false)),
        rank(second, request(lines, true)),
    )
}
