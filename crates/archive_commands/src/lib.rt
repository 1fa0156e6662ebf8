//! Carrying out the orders of the words over an open store: it knows no file, no policy's text and no stream.
#![tactic(auto)]

mod commands;
mod getting;

pub use commands::{Answer, carry_out};
pub use getting::{GetError, get};
