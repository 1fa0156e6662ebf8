//! A message without its text.

use civil_time::{Day, Instant};
use policy_core::Withdrawn;

/// What is known of a message without its text: when it came, who withdrew it, and the day until which it is embargoed.
#[derive(Clone, Copy)]
pub struct DatedMarks {
    /// When it came.
    pub arrival: Instant,
    /// Who withdrew it.
    pub withdrawn: Withdrawn,
    /// The day until which it is embargoed.
    pub embargo_until: Option<Day>,
}
