//! Taking an mbox that is read piece by piece into a list, in the memory of one piece and of 8 MiB of texts, or of one message
//! that is longer.
#![tactic(auto)]

mod importing;
mod intake;
pub mod laws;

pub use importing::import_from;
