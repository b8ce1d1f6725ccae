//! Nodes of the tree of conditions.
use crate::item::Condition;

/// How a node hangs on another: its parent's number, and the condition that it has besides those of its parent.
#[derive(Clone, Copy, PartialEq, Eq, Debug)]
pub struct Branch {
    // A number, and no Box: the table of nodes has a fixed size and lies in one piece, and a node is copied.
    pub parent: usize,
    pub condition: Condition,
}

/// A node (of the constraint tree): how it hangs on its parent, and its cost, which is the latest arrival of its paths. Node 0 is
/// the root and hangs on nothing.
#[derive(Clone, Copy, PartialEq, Eq, Debug)]
pub struct Node {
    pub branch: Option<Branch>,
    pub cost: usize,
}
