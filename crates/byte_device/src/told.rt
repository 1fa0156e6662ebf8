//! A list of bytes that only clauses read.
ghost use Rattle.std.specs.Prelude.{◌≡◌, ◌++◌, ℕ, List, []};
ghost use Rattle.std.specs.Borrow.{ftrue};

use std::marker::{Model, PhantomData};

/// The bytes that a device gave or took so far. It takes no room, and its calls do nothing when they run.
#[derive(Drop)]
pub struct Transcript {
    marker: PhantomData<u8>,
    pub ghost bytes: { List ℕ },
}

impl Model for Transcript {
    ghost also_owns = { λ _. ftrue };
}

impl Transcript {
    /// No byte yet.
    pub fn new() -> Transcript
        ensures { result.bytes ≡ [] }
    {
        Transcript {
            marker: PhantomData,
        }
    }

    /// Adds these bytes at the end.
    pub fn note(&mut self, _bytes: &[u8])
        ensures { self.new.bytes ≡ self.old.bytes ++ _bytes.now }
    {}
}
