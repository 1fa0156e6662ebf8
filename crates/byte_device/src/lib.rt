//! Devices of bytes: what is read from and what is written to, with the bytes that they told and their failures; reading a
//! whole text in, and writing one out.
#![tactic(auto)]

pub use counted::Counted;
pub use devices::{DeviceFailure, Sink, Source};
pub use reading::{ReadError, read_all};
pub use tap::Tap;
pub use told::Transcript;
pub use writing::{WriteFault, write_bytes, write_two_slices};

mod counted;
mod devices;
mod reading;
mod tap;
mod told;
mod writing;
