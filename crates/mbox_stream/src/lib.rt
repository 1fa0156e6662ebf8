//! Cutting an mbox (RFC 4155) that comes in pieces: each message waits as soon as its bytes are settled, and what is kept
//! beside the messages that wait is one message and a piece.
#![tactic(auto)]

pub use cutter::{Cutter, CutterPhase};

mod cutter;
mod finding;
mod gone;
pub mod laws;
mod window;
