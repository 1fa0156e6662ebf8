//! Commands of words one after the other, over any devices: what they say together, proved by the contract of `run` alone.
#![tactic(auto)]

mod publishing;
mod restarting;

pub use publishing::import_withdraw_and_serve;
pub use restarting::{ServerStatuses, publish_over_restarts};
