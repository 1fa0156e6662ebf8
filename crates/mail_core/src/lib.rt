//! What a mail's header says, in the terms of RFC 5322: header fields, message identifiers, when it was sent and who wrote it.
#![tactic(auto)]

mod author;
mod comments;
mod field_blocks;
mod field_reading;
mod header;
mod id_reading;
mod id_scan;
mod id_sides;
pub mod laws;
pub mod lines;
mod message_header;
mod msg_id;
mod msg_id_ref;
mod octet_string;
mod octets_ref;
mod quotes;
mod references;
mod sent_date;
mod tokens;
mod unfolding;

pub use author::{author_key, trimmed};
pub use civil_time::Memory;
pub use field_reading::{Field, Fields};
pub use header::{fields, first};
pub use id_scan::{first_id, ids};
pub use message_header::Header;
pub use msg_id::MsgId;
pub use msg_id_ref::MsgIdRef;
pub use octet_string::Octets;
pub use references::References;
pub use sent_date::sent;
pub use unfolding::unfold;
