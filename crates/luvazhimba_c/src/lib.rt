//! The libraries of mail for callers in C, and so in Python, Rust or Go: fields of messages, base subjects, message ids, sent dates, the
//! messages of an mbox, and threads.
//!
//! No call requires anything but what its types say, so a caller breaks no contract by the values that it passes. A call answers
//! 0 where it did what its name says, and else the number of a refusal; what stands in an array that it was to write to is then
//! not said. No call keeps anything.
#![tactic(auto)]

pub mod cutting;
pub mod dates;
mod entries;
pub mod fields;
pub mod ids;
mod keys;
pub mod laws;
pub mod mbox_fields;
pub mod messages;
mod outputs;
mod refusals;
pub mod rows;
pub mod subjects;
pub mod threads;
