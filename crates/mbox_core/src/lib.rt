//! Mbox files (RFC 4155): cutting a file into its messages, and writing messages. What a message is stands in `mbox_items`,
//! and what is read from and written to in `byte_device`: both are passed on.
//!
//! Cutting allocates nothing: each item's text is a slice of the file's own bytes. What is proved of all files stands
//! in the contracts of `laws`.
#![tactic(auto)]

pub use byte_device as device;
pub use cutting::{Messages, cut};
pub use faults::MboxFault;
pub use mbox_items::{
    Envelope, Item, OwnedItem, Sender, ends_with_newline, last_line_start, separator,
    written_sender,
};
pub use writing::{write_item, written_len};

mod cutting;
mod faults;
mod heading;
pub mod laws;
mod writing;
