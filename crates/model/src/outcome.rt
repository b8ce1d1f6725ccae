//! How it stands with a round that is planned.
use crate::refusal::Refusal;

/// Only `Running` goes on; the others have stopped.
#[derive(Clone, Copy, PartialEq, Eq, Debug)]
pub enum Outcome {
    /// Turns can be made.
    Running,
    /// The node last taken is a plan of so many steps.
    Found { steps: usize },
    /// No plan within the horizon exists ("none").
    NoPlan,
    /// The table of nodes is full.
    Full,
    /// The task or the open list was not fit to begin with.
    Unfit(Unfitness),
}

/// Why a task or an open list is unfit, and the carrier that is named, if one is.
#[derive(Clone, Copy, PartialEq, Eq, Debug)]
pub struct Unfitness {
    pub refusal: Refusal,
    pub carrier: Option<usize>,
}
