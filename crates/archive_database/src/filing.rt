//! What is filed of a message that is taken in.
ghost use Rattle.std.specs.Prelude.{◌≡◌, IfOk};
ghost use Rattle.archive_model.specs.Filing.{index_columns_of_text};
ghost use Rattle.archive_database.specs.Filed.{model_index_columns};

use civil_time::Instant;
use mail_core::{Header, Memory};
use std::alloc::Global;

/// Under what a message is filed: its sent date, in seconds since 1970-01-01 00:00:00 UTC; the month of that, as year times 12
/// plus month less 1; and its author key.
#[derive(Drop)]
pub struct IndexColumns {
    /// The sent date, in seconds since 1970-01-01 00:00:00 UTC (RFC 5256, section 2.2).
    pub sent: i64,
    /// The month of that, as year times 12 plus month less 1.
    pub month: i64,
    /// The author key, in ASCII lower case; empty where there is no From field.
    pub author: Vec<u8>,
}

/// What is filed of a whole text that arrived at this instant. It reads no byte behind the header.
pub fn file(alloc: Global, text: &[u8], arrival: Instant) -> Result<IndexColumns, Memory>
    ensures { IfOk result (λ filing. model_index_columns filing ≡ index_columns_of_text text.now arrival) }
{
    let header = Header::of(text);
    let sent = header.sent(arrival);
    Ok(IndexColumns {
        sent: sent.seconds(),
        month: i64::from(sent.month().index()),
        author: header.author_key(alloc)?,
    })
}
