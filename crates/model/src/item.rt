//! What a splitting rule lists, and what a node asks of its carriers' paths.

/// What is asked of a carrier and a place.
#[derive(Clone, Copy, PartialEq, Eq, Debug)]
pub enum Demand {
    /// The carrier must be there.
    MustBe,
    /// The carrier must not be there.
    MustNotBe,
}

/// A carrier, numbered from 1, must be at a place, or must not be there.
#[derive(Clone, Copy, PartialEq, Eq, Debug)]
pub struct Item {
    pub carrier: usize,
    pub place: usize,
    pub demand: Demand,
}

/// An item at a moment (a constraint).
#[derive(Clone, Copy, PartialEq, Eq, Debug)]
pub struct Condition {
    pub item: Item,
    pub moment: usize,
}
