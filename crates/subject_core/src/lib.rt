//! Base subjects: what of a mail's Subject says which thread it belongs to (RFC 5256, section 2.1).
//!
//! `base` gives the base of a subject and whether the subject marks a reply or a forward.
#![tactic(auto)]

mod answer;
pub mod laws;
mod pieces;
mod reading;
mod removal;
mod spacing;

pub use answer::Base;
pub use civil_time::Memory;
pub use reading::base;
