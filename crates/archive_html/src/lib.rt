//! The archive's pages: HTML in ASCII, as definitions (`specs/`), and writing them.
#![tactic(auto)]

mod escapes;
pub mod laws;
mod links;
mod pages;
mod rows;
mod texts;
mod threads;

pub use pages::{author_page, lists_page, month_page};
pub use threads::{RenderedRows, thread_page, threads_page};
