//! What is filed of a message.
ghost use Rattle.std.specs.Prelude.{◌≡◌, IfOk};
ghost use Rattle.archive_model.specs.Filing.{index_columns_of_text};
ghost use Rattle.archive_memory.specs.Entries.{model_index_columns};

use civil_time::{Instant, Month};
use mail_core::{Header, Memory};
use std::alloc::Global;

/// What is filed of a message: its sent date, the month of that, and its author key.
#[derive(Drop)]
pub(crate) struct IndexColumns {
    pub(crate) sent: Instant,
    pub(crate) month: Month,
    pub(crate) author: Vec<u8>,
}

/// What is filed of a whole text that arrived at this instant. The call reads no byte after the header.
pub(crate) fn columns_of(
    alloc: Global,
    text: &[u8],
    arrival: Instant,
) -> Result<IndexColumns, Memory>
    ensures { IfOk result (λ columns. model_index_columns columns ≡ index_columns_of_text text.now arrival) }
{
    let header = Header::of(text);
    let sent = header.sent(arrival);
    Ok(IndexColumns {
        sent,
        month: sent.month(),
        author: header.author_key(alloc)?,
    })
}
