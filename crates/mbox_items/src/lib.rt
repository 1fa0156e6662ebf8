//! The messages of an mbox (RFC 4155): separator lines, the senders that they name, where a text ends, and the messages with
//! their whole texts.
//!
//! Reading allocates nothing: each text is a slice of the bytes that it is read from. What is proved of all messages stands in
//! the contracts of `laws`.
#![tactic(auto)]

pub use items::{Item, ends_with_newline};
pub use lines::last_line_start;
pub use owned::{OwnedItem, written_sender};
pub use parts::{TextAndRest, next_part};
pub use senders::Sender;
pub use separators::{Envelope, separator};

mod items;
pub mod laws;
mod lines;
mod owned;
mod parts;
mod senders;
mod separators;
mod tokens;
