//! Carrying out what words order, over any devices: `run` is the whole program but for the streams, the files, the clock and the
//! ports of a machine. What it shares with a sift alone is `sift_run`'s.
#![tactic(auto)]

mod faults;
mod ordering;
mod running;
mod serving;
mod threaders;
mod working;
mod world;

pub use faults::RunError;
pub use running::run;
pub use threaders::Threaders;
pub use world::{Environment, Platform};
