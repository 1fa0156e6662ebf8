//! What is told of many messages that are added.

use crate::faults::StoreFault;

/// What became of messages that were added: how many were new on the list, how many it held, and how many are too large.
#[derive(Clone, Copy, Debug, PartialEq, Eq)]
pub struct AddReport {
    /// Messages that the list did not hold.
    pub new: usize,
    /// Messages that it held.
    pub known: usize,
    /// Messages that no list takes.
    pub too_large: usize,
}

/// Where messages ceased to be added, for E4, E12, E14 or E15: the first `done` were taken in, known or too large, and no
/// other was taken in; after E14 and E15 that is so if the store is still open.
#[derive(Clone, Copy, Debug, PartialEq, Eq)]
pub struct AddError {
    /// How many of the messages were seen to.
    pub done: usize,
    /// Why no more were.
    pub fault: StoreFault,
}
