//! Which messages a walk gives.
use civil_time::Month;

/// Which messages of a list are walked over: all, in mailbox order; or those that are filed under a month or an author key, by
/// the sent date that is filed and then in mailbox order.
#[derive(Clone, Copy)]
pub enum Selection<'a> {
    /// All.
    Every,
    /// Those of a month.
    InMonth(Month),
    /// Those of an author key.
    ByAuthor(&'a [u8]),
}
