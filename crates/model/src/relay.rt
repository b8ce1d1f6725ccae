//! Through whom a carrier is reached.

/// Whom a carrier hears last on its chain from the base: the base itself, or the carrier of this number.
// Not an Option: the base is somebody, and that nobody is heard is the None around this.
#[derive(Clone, Copy, PartialEq, Eq, Debug)]
pub enum Relay {
    Base,
    Carrier(usize),
}
