//! Civil time: days, months and instants from 1900 to 9998, the calendar in both directions, zones, and how all of these are
//! written and read. It knows no mail. Nothing here takes memory;
//! `Memory` is the refusal of all crates above for want of it.
#![tactic(auto)]

pub mod calendar;
pub mod clocks;
mod days;
pub mod digits;
mod instants;
pub mod laws;
mod months;
pub mod names;
mod refusal;
mod texts;
pub mod zones;

pub use days::Day;
pub use instants::Instant;
pub use months::Month;
pub use refusal::Memory;
pub use zones::zone;
