//! Messages by their places.

/// Where a message stands in some bytes, and when it arrived, in seconds since 1970-01-01 00:00:00 UTC.
#[repr(C)]
#[derive(Clone, Copy)]
pub struct LuvMessage {
    /// Where its text begins.
    pub start: usize,
    /// Where its text ends.
    pub end: usize,
    /// When it arrived.
    pub arrival: i64,
}
