//! The base of a subject.
ghost use Rattle.std.specs.Prelude.{◌≡◌, ◌+◌, ◌≤◌, IfOk, take, drop, vec_len};
ghost use Rattle.subject_core.specs.Pieces.{ascii_lowercase};
ghost use Rattle.subject_core.specs.BaseSubject.{IsBaseSubject, base_subject_of, is_reply};

use crate::answer::Base;
use crate::removal::kept;
use crate::spacing::single_spaced;
use civil_time::Memory;
use mail_core::Octets;
use std::alloc::Global;

/// Moves a part of the bytes to the front, in ASCII lower case, and drops the rest.
fn keep_lower(text: &mut Vec<u8>, from: usize, len: usize)
    requires { from + len ≤ vec_len text.old }
    ensures { text.new.items ≡ ascii_lowercase (take len (drop from text.old.items)) }
{
    for at in 0..len {
        let byte = text[from + at];
        text[at] = byte.to_ascii_lowercase();
    }
    text.truncate(len);
}

/// The base of an unfolded subject, and whether the subject marks a reply or a forward (RFC 5256, section 2.1).
///
/// Of bytes other than letters of ASCII only tabs and spaces change: encoded words are not decoded. It takes memory
/// once, at most as many bytes as the subject has, and time in proportion to them.
pub fn base(alloc: Global, subject: &[u8]) -> Result<Base, Memory>
    ensures is_base { IfOk result (λ found. IsBaseSubject subject.now found.text found.reply) }
    ensures text { IfOk result (λ found. found.text ≡ base_subject_of subject.now) }
    ensures reply { IfOk result (λ found. found.reply ≡ is_reply subject.now) }
{
    let mut text = single_spaced(alloc, subject)?;
    let part = kept(&text);
    keep_lower(&mut text, part.from, part.len);
    Ok(Base {
        text: Octets::new(text),
        reply: part.reply,
    })
}
