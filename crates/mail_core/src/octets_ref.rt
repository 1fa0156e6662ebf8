//! Bytes that another value owns.
ghost use Rattle.std.specs.Prelude.{◌≡◌, nat_eq};
ghost use Rattle.std.specs.Cmp.Lexicographic.{pointwise};
ghost use Rattle.std.specs.Cmp.Rules.{comparing, hashing};
ghost use Rattle.std.specs.Hash as fed;
ghost use Rattle.std.proofs.Common.{rules};

use std::hash::{Hash, Hasher};
use std::marker::Model;

/// Bytes that another value owns. Clauses see it as the list of them.
#[derive(Debug, Drop)]
pub struct OctetsRef<'a> {
    bytes: &'a [u8],
}

impl<'a> Model for OctetsRef<'a> {
    ghost use Rattle.std.specs.Prelude.{List, ℕ};

    ghost Value = { List ℕ };

    ghost view = { λ s. s.bytes.now };
}

impl<'a> OctetsRef<'a> {
    /// These bytes, which takes no memory.
    pub fn new(bytes: &'a [u8]) -> OctetsRef<'a>
        ensures { result ≡ bytes.entry.now }
    {
        OctetsRef { bytes }
    }

    /// The bytes.
    pub fn as_slice(&self) -> &'a [u8]
        ensures { result.now ≡ self.now }
    {
        self.bytes
    }
}

impl<'a> PartialEq for OctetsRef<'a> {
    ghost eq = { pointwise nat_eq };

    ghost laws = { Prim.search (comparing, rules) };

    fn eq(&self, other: &OctetsRef<'a>) -> bool {
        self.as_slice() == other.as_slice()
    }
}

impl<'a> Eq for OctetsRef<'a> {
    ghost laws = { Prim.search (comparing, rules) };
}

impl<'a> Hash for OctetsRef<'a> {
    ghost hash_input = { λ s. fed.slice fed.u8 s };

    ghost respects_eq = { Prim.search (hashing, rules) };

    fn hash<H: Hasher>(&self, state: &mut H) {
        self.as_slice().hash(state);
    }
}
