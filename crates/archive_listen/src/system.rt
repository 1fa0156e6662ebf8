//! The call of a system by which a port is had. Its relation says what the system gave, so code over this trait is proved for every
//! system. No clause says what the toolchain's own calls give, so the body here does nothing but call them.
use std::io::ErrorKind;
use std::net::{Net, OpenListener, SocketAddr, TcpListener};

/// A system that has ports.
pub trait HasPorts: Net {
    ghost use Rattle.std.specs.Prelude.{Result, Ok, Err, ⊤, MatchResult};
    ghost use Rattle.std.specs.declared.io.ErrorKind.{ErrorKind};
    ghost use Rattle.std.specs.declared.net.socket_addr.SocketAddr.{SocketAddr};

    // Holds of a system, of an address that it was asked for, and of the address that it gave, or of the error in its place.
    ghost binds: { Self → SocketAddr → Result SocketAddr ErrorKind → Type 0 } = { λ _ _ _. ⊤ };

    /// What listens on an address, and the address that the system says it has. An error: the system's.
    fn bind_address(&self, asked: SocketAddr) -> Result<(Self::Listener, SocketAddr), ErrorKind>
        ensures { MatchResult result (λ it. binds self.now asked (Ok it.1)) (λ kind. binds self.now asked (Err kind)) };
}

impl<R: Net> HasPorts for R {
    fn bind_address(&self, asked: SocketAddr) -> Result<(R::Listener, SocketAddr), ErrorKind> {
        let listener = TcpListener::bind(self, asked).map_err(|error| error.kind())?;
        let had = listener.local_addr().map_err(|error| error.kind())?;
        Ok((listener, had))
    }
}
