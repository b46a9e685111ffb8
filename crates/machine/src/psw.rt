// The fields of PSW under their names, a function for each: the name is all that it adds to `words::bit`.
ghost use Rattle.std.specs.Prelude.{◌≡◌};
ghost use Rattle.ground_rules.specs.Psw as Psw;
ghost use Rattle.ground_rules.specs.Psw.{with_psw};

// The numbers of its bits.
pub const DESTINATION_WIDE: u32 = 0;

pub const SOURCE_WIDE: u32 = 1;

pub const TB: u32 = 2;

pub const IC: u32 = 3;

pub const IS: u32 = 4;

pub const LOAD_LIMIT: u32 = 5;

pub const XF: u32 = 6;

pub const PRIORITY: u32 = 7;

// Whether the destination is 16 bits wide.
pub fn destination_wide(psw: u8) -> bool
    ensures { result ≡ Psw.destination_wide psw }
{
    words::bit(psw as u32, DESTINATION_WIDE)
}

// Whether the source is 16 bits wide.
pub fn source_wide(psw: u8) -> bool
    ensures { result ≡ Psw.source_wide psw }
{
    words::bit(psw as u32, SOURCE_WIDE)
}

// TB: whether the task block program runs.
pub fn program_running(psw: u8) -> bool
    ensures { result ≡ Psw.program_running psw }
{
    words::bit(psw as u32, TB)
}

// IC: whether interrupts are allowed.
pub fn interrupt_control(psw: u8) -> bool
    ensures { result ≡ Psw.interrupt_control psw }
{
    words::bit(psw as u32, IC)
}

// IS: whether an interrupt is asked for.
pub fn interrupt_service(psw: u8) -> bool
    ensures { result ≡ Psw.interrupt_service psw }
{
    words::bit(psw as u32, IS)
}

// The interrupt line that a host reads: up while IS and IC are both 1.
#[tactic(auto, unfolding(ground_rules::specs::Psw::interrupt_line))]
pub fn interrupt_line(psw: u8) -> bool
    ensures { result ≡ Psw.interrupt_line psw }
{
    interrupt_service(psw) & interrupt_control(psw)
}

// The load limit, stored only.
pub fn load_limit(psw: u8) -> bool
    ensures { result ≡ Psw.load_limit psw }
{
    words::bit(psw as u32, LOAD_LIMIT)
}

// XF: whether a transfer is under way.
pub fn transferring(psw: u8) -> bool
    ensures { result ≡ Psw.transferring psw }
{
    words::bit(psw as u32, XF)
}

// The priority bit.
pub fn priority(psw: u8) -> bool
    ensures { result ≡ Psw.priority psw }
{
    words::bit(psw as u32, PRIORITY)
}

// PSW with one bit as `on` says.
pub fn with(psw: u8, at: u32, on: bool) -> u8
    ensures { result ≡ with_psw psw at on }
{
    if at < 8 {
        (words::with_bit(psw as u32, at, on) % 256) as u8
    } else {
        psw
    }
}
