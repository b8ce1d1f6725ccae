//! Refusals, by what is wrong.
ghost use Rattle.std.specs.Prelude.{◌≡◌};
ghost use Rattle.model.specs.Refusals.{number_of};

use std::error::Error;
use std::fmt;

/// What is wrong with an input, or with the state that a call finds. Each case has a number, by which people and sheets know it.
#[derive(Clone, Copy, PartialEq, Eq, Debug)]
pub enum Refusal {
    /// A number is out of its range.
    NumberOutOfRange = 5,
    /// A pair or a wall is given twice, or a place is paired with itself.
    GivenTwice = 6,
    /// There are not 1 to 8 carriers, or not as many goals as starts.
    CrewUnfit = 8,
    /// The horizon is above 64.
    HorizonTooFar = 9,
    /// A start or a goal is not open.
    StartOrGoalClosed = 10,
    /// The starts are out of contact.
    StartsOutOfContact = 11,
    /// The goals are out of contact.
    GoalsOutOfContact = 12,
    /// The turns asked for are not 1 to 10,000.
    TurnsOutOfRange = 13,
    /// There is no such carrier, or the moment is above the steps.
    NoSuchCarrierOrMoment = 14,
    /// There is no such place, or the reading is not from -400 to 600.
    NoSuchPlaceOrReading = 16,
    /// The cost is above 64.
    CostTooHigh = 17,
    /// The open list is not empty, or has room for fewer than 4,096 pairs.
    ListUnfit = 21,
    /// It has stopped and makes no more turns.
    HasStopped = 22,
    /// No plan has been found that could be shown.
    NotFound = 23,
    /// The open list is full.
    ListFull = 24,
}

impl Refusal {
    /// The number by which the refusal is known.
    pub fn number(self) -> usize
        ensures { result ≡ number_of self }
    {
        self as usize
    }

    /// The reason in words.
    fn reason(self) -> &'static str {
        match self {
            Refusal::NumberOutOfRange => "a number is out of its range",
            Refusal::GivenTwice =>
                "a pair or a wall is given twice, or a place is paired with itself",
            Refusal::CrewUnfit => "there are not 1 to 8 carriers, or not as many goals as starts",
            Refusal::HorizonTooFar => "the horizon is above 64",
            Refusal::StartOrGoalClosed => "a start or a goal is not open",
            Refusal::StartsOutOfContact => "the starts are out of contact",
            Refusal::GoalsOutOfContact => "the goals are out of contact",
            Refusal::TurnsOutOfRange => "the turns asked for are not 1 to 10,000",
            Refusal::NoSuchCarrierOrMoment =>
                "there is no such carrier, or the moment is above the steps",
            Refusal::NoSuchPlaceOrReading =>
                "there is no such place, or the reading is not from -400 to 600",
            Refusal::CostTooHigh => "the cost is above 64",
            Refusal::ListUnfit =>
                "the open list is not empty, or has room for fewer than 4,096 pairs",
            Refusal::HasStopped => "it has stopped and makes no more turns",
            Refusal::NotFound => "no plan has been found that could be shown",
            Refusal::ListFull => "the open list is full",
        }
    }
}

// Written out: a derived Display would have "refused by" and the number once for each case.
impl fmt::Display for Refusal {
    fn fmt<W: fmt::Write>(&self, f: &mut fmt::Formatter<W>) -> fmt::Result {
        let number = self.number();
        let reason = self.reason();
        write!(f, "refused by {number}: {reason}")
    }
}

impl Error for Refusal {}
