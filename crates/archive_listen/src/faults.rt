//! Why a connection is not answered.
ghost use Rattle.std.specs.Prelude.{◌≡◌};
ghost use Rattle.archive_listen.specs.Connections.{connection_error_line};

use std::error::Error;
use std::fmt;

/// Why a connection was not answered, or not to its end. It prints its number and its name.
#[derive(Clone, Copy, Debug, PartialEq, Eq, Drop)]
pub enum ConnectionError {
    /// S1: a read failed or waited too long before the head of the request was whole, or the peer was gone before its
    /// connection was taken. Nothing was written.
    Read,
    /// S2: a write failed. The peer got a beginning of the reply.
    Write,
    /// S3: the answer broke off behind its first byte. The peer got a beginning of the reply.
    Broken,
}

impl fmt::Display for ConnectionError {
    fn fmt<W: fmt::Write>(&self, f: &mut fmt::Formatter<W>) -> fmt::Result {
        f.write_str(match self {
            ConnectionError::Read => "S1 Read",
            ConnectionError::Write => "S2 Write",
            ConnectionError::Broken => "S3 Broken",
        })
    }
}

impl Error for ConnectionError {}

impl ConnectionError {
    /// The line that tells of it, which takes no memory.
    pub fn line(self) -> &'static [u8]
        ensures { result.now ≡ connection_error_line self }
    {
        match self {
            ConnectionError::Read => b"archive: S1 Read\n",
            ConnectionError::Write => b"archive: S2 Write\n",
            ConnectionError::Broken => b"archive: S3 Broken\n",
        }
    }
}

/// Why a listener gave no connection.
#[derive(Clone, Copy, Debug, PartialEq, Eq, Drop)]
pub enum AcceptError {
    /// The connection's own: its peer was gone, or the network between. Another one may follow.
    Peer,
    /// The listener's: no descriptor, no memory, or it listens no more. To ask again could go on for ever.
    Listener,
}

/// F4: there is no listening, or no more of it.
#[derive(Clone, Copy, Debug, PartialEq, Eq, Drop)]
pub struct ListenError;

impl fmt::Display for ListenError {
    fn fmt<W: fmt::Write>(&self, f: &mut fmt::Formatter<W>) -> fmt::Result {
        f.write_str("F4 Net")
    }
}

impl Error for ListenError {}
