// Types of the rules of a step: who has the turn, and what a step answers.
#![tactic(auto)]

use ground_rules::State;

// What a step was; nothing where it was refused.
#[derive(Clone, Copy, PartialEq, Eq)]
pub enum Kind {
    Nothing,
    Instruction,
    Transfer,
    External,
}

// What a step that is done answers: how many bytes it read and stored, the state, and the number of the channel and the
// kind of its step.
#[derive(Clone, Copy, PartialEq, Eq)]
pub struct Stepped {
    pub count: u32,
    pub state: State,
    pub channel: u32,
    pub kind: Kind,
}

// Who steps: nobody, or the channel whose transfer an external line ends, or the one that has its turn; false is channel 1.
#[derive(Clone, Copy, PartialEq, Eq)]
pub enum Choice {
    Nobody,
    Ends(bool),
    Steps(bool),
}
