//! The archive's pages over connections: `serve_on` answers so many, one after the other, and `serve` says before where it listens.
#![tactic(auto)]

mod announcing;
mod faults;
pub mod laws;
mod pages;
mod serving;

pub use announcing::serve;
pub use faults::ServingError;
pub use pages::ServingContext;
pub use serving::serve_on;
