//! The archive's pages: from the bytes of a request to the bytes of a reply (RFC 9112).
#![tactic(auto)]

mod answering;
mod faults;
mod finding;
pub mod laws;
mod listing;
mod pages;
mod paths;
mod replies;
mod routing;
mod writing;

pub use answering::{answer, answer_cached};
pub use faults::ServeFault;
pub use pages::{Client, Pages};
