// Types of the rules of attention.
#![tactic(auto)]

// What a CCW commands. 010 and 100 are `Unknown`, a command of its own: it is refused by 6, counts nothing and changes nothing.
#[derive(Clone, Copy, PartialEq, Eq)]
pub enum Command {
    Update,
    StartLocal,
    StartSystem,
    Suspend,
    Resume,
    Halt,
    Unknown,
}

// What a block orders: the command, its CCW, the block itself and where PB lies.
#[derive(Clone, Copy, PartialEq, Eq)]
pub struct Order {
    pub command: Command,
    pub ccw: u8,
    pub block: u32,
    pub pb: u32,
}
