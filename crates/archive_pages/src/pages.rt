//! What requests are answered by, and who makes one.
use archive_cache::Cache;
use archive_requests::Routes;
use civil_time::Day;
use policy_core::Policy;
use std::alloc::Global;

/// By what requests are answered, and what is kept for those that come later. What is kept has to be of one archive, this policy
/// and this day: nothing at first (`Cache::new`), and then what `answer_cached` leaves.
#[derive(Drop)]
pub struct Pages<'a, T> {
    /// What gives memory.
    pub alloc: Global,
    /// Decides what each reader is shown.
    pub policy: &'a Policy,
    /// Threads the messages of a list.
    pub threader: &'a T,
    /// The day that the policy is asked about, in UTC.
    pub day: Day,
    /// Those of the pages. `None`: a router is made where a path is looked at.
    pub routes: Option<Routes>,
    /// The outlines of lists that were read for their threads, and of months and authors.
    pub kept: Cache,
}

/// Who makes one request: what is read of it, and what is written to it.
#[derive(Drop)]
pub struct Client<R, W> {
    /// What the peer sends.
    pub input: R,
    /// What it is sent.
    pub output: W,
}
