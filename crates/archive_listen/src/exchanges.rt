//! What went over connections, which only clauses read.
ghost use Rattle.std.specs.Prelude.{◌≡◌, ◌++◌, List, [], ◌∷◌};
ghost use Rattle.std.specs.Borrow.{ftrue};
ghost use Rattle.archive_listen.specs.Connections.{Exchange, exchange};

use byte_device::Transcript;
use std::marker::{Model, PhantomData};

/// Of each connection that was given back, in their order, what was read of its peer and what was sent to it. It takes no room,
/// and its calls do nothing when they run.
#[derive(Drop)]
pub(crate) struct Exchanges {
    marker: PhantomData<u8>,
    pub ghost all: { List Exchange },
}

impl Model for Exchanges {
    ghost also_owns = { λ _. ftrue };
}

impl Exchanges {
    /// None yet.
    pub(crate) fn new() -> Exchanges
        ensures { result.all ≡ [] }
    {
        Exchanges {
            marker: PhantomData,
        }
    }

    /// One more, behind those before.
    pub(crate) fn with(_before: &Exchanges, _read: &Transcript, _sent: &Transcript) -> Exchanges
        ensures { result.all ≡ _before.now.all ++ exchange _read.now.bytes _sent.now.bytes ∷ [] }
    {
        Exchanges {
            marker: PhantomData,
        }
    }

    /// Those of one list, and then those of another.
    pub(crate) fn and(_before: &Exchanges, _more: &Exchanges) -> Exchanges
        ensures { result.all ≡ _before.now.all ++ _more.now.all }
    {
        Exchanges {
            marker: PhantomData,
        }
    }
}
