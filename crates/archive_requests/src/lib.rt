//! Requests of HTTP/1.1: the head that some bytes begin with, what it asks for, who asks, and the
//! route of its path.
//!
//! It knows no store and no page.
#![tactic(auto)]

pub use heads::{MOST_BYTES, MOST_FIELDS};
pub use reading::{RequestRead, read_request};
pub use requests::Request;
pub use routes::{Route, Routes, percent_decoded, route_of};

mod bearer;
mod head_reading;
mod heads;
mod reading;
mod requests;
mod routes;
