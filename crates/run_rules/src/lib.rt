// Types of the rules of the run.
#![tactic(auto)]

use ground_rules::Refusal;

// How a run ended: the refusal that stopped it, none at the limit, and the steps done.
#[derive(Clone, Copy, PartialEq, Eq)]
pub struct Ran {
    pub stopped: Option<Refusal>,
    pub steps: u32,
}
