//! Base subjects.
ghost use Rattle.std.specs.Prelude.{◌≡◌, ◌≢◌, ◌⊎◌, ◌↔◌, OnOk, IfErr};
ghost use Rattle.luvazhimba_c.specs.Bases.{HoldsBaseSubject, LacksRoomForBase};
ghost use Rattle.luvazhimba_c.specs.Numbers.{luv_done, luv_no_room, luv_no_memory, luv_too_long, refusal_number, IsArrayTooLong};

use crate::outputs::put;
use crate::refusals::{DONE, Refusal, is_too_long};
use std::alloc::Global;
use subject_core::base;

/// How long a base subject is, and whether its subject marks a reply or a forward.
#[repr(C)]
#[derive(Clone, Copy)]
pub struct LuvBase {
    /// In bytes.
    pub len: usize,
    /// Whether the subject marks a reply or a forward.
    pub is_reply: bool,
}

/// The base of an unfolded subject (RFC 5256, section 2.1), written to the front of `text`: as many bytes as `found` says, at
/// most as many as the subject has. It refuses where `text` has no room for them, and then `found` says how many they are,
/// where the subject is too long, and where a growth of memory is refused.
#[unsafe(no_mangle)]
pub extern "C" fn luv_base_subject(
    alloc: Global,
    subject: &[u8],
    text: &mut [u8],
    found: &mut LuvBase,
) -> u8
    ensures base { result ≡ luv_done → HoldsBaseSubject subject.now text.new found.new }
    ensures no_room { result ≡ luv_no_room → LacksRoomForBase subject.now text.old found.new }
    ensures too_long { (result ≡ luv_too_long) ↔ IsArrayTooLong subject.now }
    ensures refused { result ≢ luv_done → (result ≡ luv_no_room) ⊎ (result ≡ luv_no_memory) ⊎ (result ≡ luv_too_long) }
{
    match write_base(alloc, subject, text, found) {
        Ok(()) => DONE,
        Err(refusal) => refusal.number(),
    }
}

fn write_base(
    alloc: Global,
    subject: &[u8],
    text: &mut [u8],
    found: &mut LuvBase,
) -> Result<(), Refusal>
    ensures base { OnOk result (HoldsBaseSubject subject.now text.new found.new) }
    ensures fits { OnOk result (¬ IsArrayTooLong subject.now) }
    ensures no_room { IfErr result (λ e. refusal_number e ≡ luv_no_room → LacksRoomForBase subject.now text.old found.new) }
    ensures too_long { IfErr result (λ e. (refusal_number e ≡ luv_too_long) ↔ IsArrayTooLong subject.now) }
    ensures refused { IfErr result (λ e. (refusal_number e ≡ luv_no_room) ⊎ (refusal_number e ≡ luv_no_memory) ⊎ (refusal_number e ≡ luv_too_long)) }
{
    if is_too_long(subject) {
        return Err(Refusal::TooLong);
    }
    let Ok(base) = base(alloc, subject) else {
        return Err(Refusal::Memory);
    };
    *found = LuvBase {
        len: base.text.as_slice().len(),
        is_reply: base.reply,
    };
    put(text, base.text.as_slice())
}
