// Types of the ground: pointers, a channel, the board, a state, and what a call on one answers.
#![tactic(auto)]

ghost use Rattle.std.specs.Prelude.{◌≡◌};
ghost use Rattle.ground_rules.specs.Refusals.{number_of};
ghost use Rattle.ground_rules.specs.States.{is_running, is_suspended, mode_code, mode_coded};

// A pointer: 20 bits of address, and the tag that names its space (false system, true I/O).
#[derive(Clone, Copy, PartialEq, Eq)]
pub struct Pointer {
    pub address: u32,
    pub tag: bool,
}

// What a channel is doing.
#[derive(Clone, Copy, PartialEq, Eq)]
pub enum Mode {
    Idle,
    Running,
    Suspended,
}

impl Mode {
    // The mode alone says whether a channel runs.
    pub fn is_running(self) -> bool
        ensures { result ≡ is_running self }
    {
        self == Mode::Running
    }

    // Whether a channel is suspended.
    pub fn is_suspended(self) -> bool
        ensures { result ≡ is_suspended self }
    {
        self == Mode::Suspended
    }

    // The number that stands for the mode where states are stored and written.
    pub fn code(self) -> u8
        ensures { result ≡ mode_code self }
    {
        match self {
            Mode::Idle => 0,
            Mode::Running => 1,
            Mode::Suspended => 2,
        }
    }

    // The mode that a number stands for; 2 and more are suspended.
    pub fn coded(code: u32) -> Mode
        ensures { result ≡ mode_coded code }
    {
        match code {
            0 => Mode::Idle,
            1 => Mode::Running,
            _ => Mode::Suspended,
        }
    }
}

// The fields of CC: which sides move on, whether bytes are translated, SYN (0 none, 1 source, 2 destination), whether the
// source is GB, else GA, whether the program is chained, TS, and the codes of TX, TBC and TMC.
#[derive(Clone, Copy, PartialEq, Eq)]
pub struct Fields {
    pub destinationMoves: bool,
    pub sourceMoves: bool,
    pub translates: bool,
    pub synchronised: u8,
    pub sourceIsGB: bool,
    pub chained: bool,
    pub singleTransfer: bool,
    pub externalEnd: u8,
    pub countEnd: u8,
    pub matchEnd: u8,
}

// The registers of a channel, and the byte that it holds between the two halves of a pair of transfer steps; beside CC
// stand its fields, which every operation that writes CC renews.
#[derive(Clone, Copy, PartialEq, Eq)]
pub struct Channel {
    pub ga: Pointer,
    pub gb: Pointer,
    pub gc: Pointer,
    pub tp: Pointer,
    pub pp: u32,
    pub bc: u16,
    pub ix: u16,
    pub cc: u16,
    pub mc: u16,
    pub held: Option<u8>,
    pub psw: u8,
    pub mode: Mode,
    pub armed: bool,
    pub fields: Fields,
}

// What an instruction or a transfer step that is done answers: how many bytes it read and stored, and the channel after
// it.
#[derive(Clone, Copy, PartialEq, Eq)]
pub struct Done {
    pub count: u32,
    pub channel: Channel,
}

// What the board set up: whether the processor is powered up, the physical widths, SYSBUS bit 0 of the system bus and SOC
// bit 0 of the I/O bus (true = 16 bits), and SOC bit 1.
#[derive(Clone, Copy, PartialEq, Eq)]
pub struct Board {
    pub powered: bool,
    pub sysbus: bool,
    pub soc: bool,
    pub grant: bool,
}

// Both channels, the control block's address, whether channel 2 was the last to step, and what the board set up.
#[derive(Clone, Copy, PartialEq, Eq)]
pub struct State {
    pub first: Channel,
    pub second: Channel,
    pub cp: u32,
    pub last: bool,
    pub board: Board,
}

// What a call that is done answers: how many bytes it read and stored, and the state.
#[derive(Clone, Copy, PartialEq, Eq)]
pub struct Answer {
    pub count: u32,
    pub state: State,
}

// A state that was made of a CP, and the number of that, 0 for done. A refused CP gives a state too, that of CP 0, which
// `iop89_fresh` hands out: so the two stand side by side, and are no Result.
#[derive(Clone, Copy, PartialEq, Eq)]
pub struct Made {
    pub number: u32,
    pub state: State,
}

// Why a call is refused.
#[derive(Clone, Copy, PartialEq, Eq)]
pub enum Refusal {
    // No channel can step.
    NothingSteps,
    // A byte of system space that the call would read or store is not lent.
    BeyondMemory,
    // The bytes are no instruction.
    NotAnInstruction,
    // An instruction other than MOV and MOVI names CC as its register.
    ControlNamed,
    // A transfer has SYN 11, or it translates while a side is 16 bits wide.
    BadTransferMode,
    // The command is 010 or 100.
    BadCommand,
    // The command is resume, and the channel is not suspended.
    NotSuspended,
    // The command is start, and the channel is running.
    AlreadyRunning,
    // The command is suspend, and the channel is not running.
    NotRunning,
    // A pointer, PP or CP is 1,048,576 or more.
    UnsoundState,
    // A buffer is longer than its limit.
    BufferTooLong,
    // A number is out of range: of a processor, a channel, the lines, or a limit of steps.
    OutOfRange,
    // The processor is not powered up.
    NotPoweredUp,
    // The fields of a channel are not those of its CC.
    FieldsDiffer,
    // The conditions of a sweep are not met.
    NotSweepable,
    // A row of a schedule has an unknown kind.
    UnknownRow,
    // The bytes lent as a state are none.
    NotAState,
}

impl Refusal {
    // The number by which the refusal is answered.
    pub fn number(self) -> u32
        ensures { result ≡ number_of self }
    {
        match self {
            Refusal::NothingSteps => 1,
            Refusal::BeyondMemory => 2,
            Refusal::NotAnInstruction => 3,
            Refusal::ControlNamed => 4,
            Refusal::BadTransferMode => 5,
            Refusal::BadCommand => 6,
            Refusal::NotSuspended => 7,
            Refusal::AlreadyRunning => 8,
            Refusal::NotRunning => 9,
            Refusal::UnsoundState => 10,
            Refusal::BufferTooLong => 11,
            Refusal::OutOfRange => 12,
            Refusal::NotPoweredUp => 13,
            Refusal::FieldsDiffer => 14,
            Refusal::NotSweepable => 15,
            Refusal::UnknownRow => 16,
            Refusal::NotAState => 17,
        }
    }
}
