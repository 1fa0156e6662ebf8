//! What a reader is shown of a list: the view, one message, and the results that are made of the view (`specs/`), and the
//! same as code over messages and over the index of a list. It knows no store.
#![tactic(auto)]

mod access;
mod asking;
mod entries;
mod headers;
pub mod laws;
mod lines;
mod threads;

pub use access::{
    MessageFacts, ReaderFacts, asks_author, is_shown, is_withheld, lookup_message, message_facts,
    verdict,
};
pub use asking::{Ask, Asked, Reader};
pub use headers::{MessageSummary, summary_of};
pub use lines::{Line, TreeLine};
pub use threads::{
    ThreadColumns, columns_of, elements_in_range, line_at, thread_lines, tree_lines,
};
