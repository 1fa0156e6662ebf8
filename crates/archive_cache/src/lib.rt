//! What is kept of views while an archive stays as it is, so that a list is read once for its threads, months and authors, and not for each page.
#![tactic(auto)]

mod cache;
mod dividing;
mod finding;
mod keyed;
mod list_indexes;
mod messages;
mod parts;
mod sending;
mod threaded;
mod weights;
mod withheld;

pub use cache::Cache;
pub use finding::get_or_build_index;
pub use list_indexes::ListIndex;
pub use messages::find_message;
pub use parts::ViewPart;
pub use sending::export_lines;
