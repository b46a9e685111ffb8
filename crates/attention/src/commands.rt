// CCW: its command, what that asks of the channel's mode, and what every accepted command does to PSW.
ghost use Rattle.std.specs.Prelude.{◌≡◌};
ghost use Rattle.ground_rules.specs.Outcomes.{unless};
ghost use Rattle.ground_rules.specs.Refusals.{answered, number_of};
ghost use Rattle.attention_rules.specs.Commands as Commands;
ghost use Rattle.attention_rules.specs.Commands.{command_of, command_number};
ghost use Rattle.attention_rules.specs.Touched.{command_count};

use attention_rules::Command;
use ground_rules::{Mode, Refusal};
use machine::psw;

// The command of a CCW.
#[tactic(auto, unfolding(attention_rules::specs::Commands::command_coded))]
pub fn command(ccw: u8) -> Command
    ensures { result ≡ command_of ccw }
{
    match words::field(ccw as u32, 0, 3) {
        0 => Command::Update,
        1 => Command::StartLocal,
        3 => Command::StartSystem,
        5 => Command::Resume,
        6 => Command::Suspend,
        7 => Command::Halt,
        _ => Command::Unknown,
    }
}

// Refuses unless a test holds.
#[tactic(auto, unfolding(ground_rules::specs::Outcomes::unless))]
fn allow(ok: bool, refusal: Refusal) -> Result<(), Refusal>
    ensures { answered result ≡ unless ok (number_of refusal) }
{
    if ok { Ok(()) } else { Err(refusal) }
}

// Refuses a command that is none, or that the channel's mode does not allow.
#[tactic(auto, unfolding(attention_rules::specs::Commands::command_number, attention_rules::specs::Commands::is_known, attention_rules::specs::Commands::mode_number, ground_rules::specs::Outcomes::first, ground_rules::specs::Outcomes::unless))]
pub fn check(command: Command, mode: Mode) -> Result<(), Refusal>
    ensures { answered result ≡ command_number command mode }
{
    match command {
        Command::Update | Command::Halt => Ok(()),
        Command::StartLocal | Command::StartSystem => {
            allow(!mode.is_running(), Refusal::AlreadyRunning)
        }
        Command::Suspend => allow(mode.is_running(), Refusal::NotRunning),
        Command::Resume => allow(mode.is_suspended(), Refusal::NotSuspended),
        Command::Unknown => Err(Refusal::BadCommand),
    }
}

// How many bytes an accepted command reads and stores.
#[tactic(auto, unfolding(attention_rules::specs::Touched::command_count))]
pub fn count(command: Command) -> u32
    ensures { result ≡ command_count command }
{
    match command {
        Command::Update => 1,
        Command::StartLocal => 8,
        Command::StartSystem => 10,
        Command::Suspend | Command::Resume => 6,
        Command::Halt => 2,
        Command::Unknown => 0,
    }
}

// PSW after the ICF of a CCW.
#[tactic(auto, unfolding(attention_rules::specs::Commands::obeyed))]
fn obeyed(ccw: u8, before: u8) -> u8
    ensures { result ≡ Commands.obeyed ccw before }
{
    match words::field(ccw as u32, 3, 2) {
        1 => psw::with(before, psw::IS, false),
        2 => psw::with(before, psw::IC, true),
        3 => psw::with(psw::with(before, psw::IS, false), psw::IC, false),
        _ => before,
    }
}

// PSW after what every accepted command does to it: bits 5 and 7 of the CCW are copied, then ICF is obeyed.
#[tactic(auto, unfolding(attention_rules::specs::Commands::ordered, attention_rules::specs::Commands::copied))]
pub fn ordered(ccw: u8, before: u8) -> u8
    ensures { result ≡ Commands.ordered ccw before }
{
    let limited = psw::with(before, psw::LOAD_LIMIT, words::bit(ccw as u32, 5));
    let copied = psw::with(limited, psw::PRIORITY, words::bit(ccw as u32, 7));
    obeyed(ccw, copied)
}
