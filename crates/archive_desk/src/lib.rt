//! What a reader is shown of a list, and how a file is taken into one. It stands on the store, and knows no tables.
#![tactic(auto)]

mod exporting;
mod faults;
mod importing;
mod index;
pub mod laws;
mod listing;
mod messages;
mod passing;
mod viewing;

pub use exporting::{ExportStop, export, export_after};
pub use faults::DeskError;
pub use importing::{ImportError, ImportStop, Report, check_list_exists, import};
pub use listing::{ViewSummaries, author, month, read_view_summaries, thread, threads};
pub use messages::{find_message_facts, find_row, message};
pub use viewing::{resolve_reader, view};
