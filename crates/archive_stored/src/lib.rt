//! What is answered from a file or from memory: pages over a `Store` of `archive_store`.
#![tactic(auto)]

pub mod laws;
mod running;

pub use running::{run_and_answer, run_and_answer_in_memory};
