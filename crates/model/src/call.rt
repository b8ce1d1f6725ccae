//! Calls, and what they answer.
use crate::outcome::Outcome;

/// A call: so many turns; a look; the place of a carrier at a moment of the found plan.
#[derive(Clone, Copy, PartialEq, Eq, Debug)]
pub enum Call {
    Advance(usize),
    Look,
    Show { carrier: usize, moment: usize },
}

/// What a look answers: how it stands, the turns made, the nodes made, and the floor.
#[derive(Clone, Copy, PartialEq, Eq, Debug)]
pub struct Look {
    pub outcome: Outcome,
    pub turns: usize,
    pub nodes: usize,
    pub floor: usize,
}

/// What an accepted call answers: how many turns were made; what was looked at; the place that was asked for. A call that is not
/// accepted answers its refusal in the place of this.
#[derive(Clone, Copy, PartialEq, Eq, Debug)]
pub enum Answer {
    Turns(usize),
    Looked(Look),
    Place(usize),
}
