//! What a message says about threads.

use civil_time::Instant;
use mail_core::{MsgId, Octets, References};

/// A message of the mailbox, as far as threads ask for it: its id, if it has one; its references;
/// its sent date; its base subject (RFC 5256 section 2.1); and whether the base subject says that
/// it is a reply or forward.
#[derive(Drop)]
pub struct Entry {
    /// Its Message-ID, if it has one (RFC 5322, section 3.6.4).
    pub id: Option<MsgId>,
    /// The ids that it refers to, oldest first.
    pub refs: References,
    /// The sent date (RFC 5256, section 2.2).
    pub sent: Instant,
    /// The base subject (RFC 5256, section 2.1).
    pub base: Octets,
    /// Whether the base subject says that it is a reply or forward.
    pub reply: bool,
}
