//! The archive as a machine: what each command does to it and what it answers (`specs/`); and keys, tokens, addresses and
//! messages as code. It knows no tables.
#![tactic(auto)]

mod addresses;
mod found;
mod keys;
pub mod laws;
mod messages;
mod tokens;

pub use addresses::{is_address, normalize_address};
pub use found::{CommandFacts, NOTHING};
pub use keys::Key;
pub use messages::Message;
pub use tokens::is_token;
