//! What errors the system gave, which only clauses read.
ghost use Rattle.std.specs.Prelude.{◌≡◌, ◌++◌, List, [], ◌∷◌};
ghost use Rattle.std.specs.Borrow.{ftrue};
ghost use Rattle.std_io.specs.declared.io.kind.ErrorKind.{ErrorKind};

use std::io::ErrorKind;
use std::marker::{Model, PhantomData};

/// Their kinds, in their order. It takes no room, and its calls do nothing when they run.
#[derive(Drop)]
pub(crate) struct Errors {
    marker: PhantomData<u8>,
    pub ghost kinds: { List ErrorKind },
}

impl Model for Errors {
    ghost also_owns = { λ _. ftrue };
}

impl Errors {
    /// None yet.
    pub(crate) fn new() -> Errors
        ensures { result.kinds ≡ [] }
    {
        Errors {
            marker: PhantomData,
        }
    }

    /// One more, behind those before.
    pub(crate) fn with(_before: &Errors, _kind: &ErrorKind) -> Errors
        ensures { result.kinds ≡ _before.now.kinds ++ _kind.now ∷ [] }
    {
        Errors {
            marker: PhantomData,
        }
    }
}
