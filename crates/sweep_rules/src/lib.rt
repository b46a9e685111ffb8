// A sweep in one go: what the call answers, when it is refused, what it leaves, and the plain steps that it stands for; no
// code that runs.
#![tactic(auto)]

use ground_rules::State;

// What a sweep that is done answers: the steps that it stands for, how many bytes it read and stored, and the state.
#[derive(Clone, Copy)]
pub struct Swept {
    pub steps: u32,
    pub count: u32,
    pub state: State,
}
