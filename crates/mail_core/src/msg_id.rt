//! The identity of a message.
ghost use Rattle.std.specs.Prelude.{◌≡◌, IfOk};

use crate::msg_id_ref::MsgIdRef;
use crate::octet_string::Octets;
use civil_time::Memory;
use std::alloc::Global;
use std::marker::Model;

/// What a msg-id identifies: its left side, a quoted one without its quotes and the backslashes that quote, and its
/// right side (RFC 5322 section 3.6.4). Compared with case.
#[derive(PartialEq, Eq, Hash, Debug, Drop)]
pub struct MsgId {
    left: Octets,
    right: Octets,
}

impl Model for MsgId {
    ghost use Rattle.mail_core.specs.MsgIds.{MessageId};

    ghost Value = { MessageId };

    ghost view = { λ s. record { left = s.left; right = s.right } };

    ghost inverse = { λ id. record { left = id.left; right = id.right } };
}

impl MsgId {
    /// The identity with these sides, which takes no memory.
    pub fn new(left: Vec<u8>, right: Vec<u8>) -> MsgId
        ensures { result ≡ record { left = left.items; right = right.items } }
    {
        MsgId {
            left: Octets::new(left),
            right: Octets::new(right),
        }
    }

    /// What stands left of the last `@`.
    pub fn left(&self) -> &[u8]
        ensures { result.now ≡ self.now.left }
    {
        self.left.as_slice()
    }

    /// What stands right of the last `@`.
    pub fn right(&self) -> &[u8]
        ensures { result.now ≡ self.now.right }
    {
        self.right.as_slice()
    }

    /// The same identity in the bytes of this one, which takes no memory.
    pub fn borrowed(&self) -> MsgIdRef<'_>
        ensures { result ≡ self.now }
    {
        MsgIdRef::new(self.left(), self.right())
    }

    /// The same identity once more. `Memory` where no memory is left.
    pub fn try_clone(&self, alloc: Global) -> Result<MsgId, Memory>
        ensures { IfOk result (λ copy. copy ≡ self.now) }
    {
        Ok(MsgId {
            left: self.left.try_clone(alloc)?,
            right: self.right.try_clone(alloc)?,
        })
    }
}
