//! Connections one after the other: what listens, what answers, and the loop between them.
#![tactic(auto)]

mod asking;
mod connections;
mod errors;
mod exchanges;
mod faults;
mod gathered;
mod handles;
pub mod laws;
mod open;
mod peeked;
mod serving;
mod sockets;
mod streams;
mod system;
mod waiting;
mod watch;

pub use connections::{BoundListener, BufferedSink, Connection, Listener, Ports, Service};
pub use faults::{AcceptError, ConnectionError, ListenError};
pub use gathered::{ROOM, WriteBuffer};
pub use serving::serve_each;
pub use sockets::{DeadlineReader, Loopback, LoopbackPorts};
pub use system::HasPorts;
