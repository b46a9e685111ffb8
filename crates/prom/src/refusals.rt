// Why a file is not read.
ghost use Rattle.std.specs.Prelude.{◌≡◌};

// What keeps a file from being read.
#[derive(Clone, Copy, PartialEq, Eq)]
pub enum Reason {
    BeyondMemory,
    LongMemory,
    NoRecord,
    WrongSum,
    WrongType,
    NoEnd,
}

impl Reason {
    ghost use Rattle.prom.specs.Refusals.{reason_number};

    // Its number.
    pub fn number(self) -> u32
        ensures { result ≡ reason_number self }
    {
        match self {
            Reason::BeyondMemory => 2,
            Reason::LongMemory => 11,
            Reason::NoRecord => 20,
            Reason::WrongSum => 21,
            Reason::WrongType => 22,
            Reason::NoEnd => 23,
        }
    }
}

// A file that is not read: why, and the line that decides.
#[derive(Clone, Copy, PartialEq, Eq)]
pub struct LoadRefusal {
    pub why: Reason,
    pub line: u32,
}
