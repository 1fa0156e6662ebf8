//! The identity of a message, in bytes that another value owns.
ghost use Rattle.std.specs.Prelude.{◌≡◌, IfOk};

use crate::msg_id::MsgId;
use crate::octets_ref::OctetsRef;
use civil_time::Memory;
use std::alloc::Global;
use std::marker::Model;

/// What a msg-id identifies, as a `MsgId` does, in bytes that another value owns. Compared with case.
#[derive(PartialEq, Eq, Hash, Debug, Drop)]
pub struct MsgIdRef<'a> {
    left: OctetsRef<'a>,
    right: OctetsRef<'a>,
}

impl<'a> Model for MsgIdRef<'a> {
    ghost use Rattle.mail_core.specs.MsgIds.{MessageId};

    ghost Value = { MessageId };

    ghost view = { λ s. record { left = s.left; right = s.right } };

    ghost inverse = { λ id. record { left = id.left; right = id.right } };
}

impl<'a> MsgIdRef<'a> {
    /// The identity with these sides, which takes no memory.
    pub fn new(left: &'a [u8], right: &'a [u8]) -> MsgIdRef<'a>
        ensures { result ≡ record { left = left.entry.now; right = right.entry.now } }
    {
        MsgIdRef {
            left: OctetsRef::new(left),
            right: OctetsRef::new(right),
        }
    }

    /// What stands left of the last `@`.
    pub fn left(&self) -> &'a [u8]
        ensures { result.now ≡ self.now.left }
    {
        self.left.as_slice()
    }

    /// What stands right of the last `@`.
    pub fn right(&self) -> &'a [u8]
        ensures { result.now ≡ self.now.right }
    {
        self.right.as_slice()
    }

    /// The same identity in bytes of its own. `Memory` where no memory is left.
    pub fn try_owned(&self, alloc: Global) -> Result<MsgId, Memory>
        ensures { IfOk result (λ copy. copy ≡ self.now) }
    {
        let left = Vec::from_slice(alloc, self.left())?;
        let right = Vec::from_slice(alloc, self.right())?;
        Ok(MsgId::new(left, right))
    }
}
