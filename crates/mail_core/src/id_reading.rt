//! The msg-id at a place of a text (RFC 5322 section 3.6.4).
ghost use Rattle.std.specs.Prelude.{◌≡◌, ◌<◌, ◌≤◌, length, IfOk, IfSome, IfNone, None, drop, slice_index};
ghost use Rattle.mail_core.specs.MsgIds.{id_at, quoted_id, plain_id};
ghost use Rattle.mail_core.specs.Reading.{AppendsReadId};

use crate::id_sides::{divide, right_end};
use crate::msg_id_ref::MsgIdRef;
use crate::quotes::{quote_end, unquote};
use crate::references::References;
use civil_time::Memory;

/// Puts the msg-id whose quoted left side begins here, behind `<"`, behind those that were found; the answer is the
/// place behind it. Another left side may stand in `side` before, and this one after.
fn push_quoted_id(
    found: &mut References,
    side: &mut Vec<u8>,
    text: &[u8],
    from: usize,
) -> Result<Option<usize>, Memory>
    requires { from ≤ length text.now }
    ensures found { IfOk result (λ read. IfSome read (λ end. AppendsReadId found.old found.new (quoted_id (drop from text.now)) text.now from end)) }
    ensures none { IfOk result (λ read. IfNone read ((quoted_id (drop from text.now) ≡ None) × (found.new ≡ found.old))) }
{
    let Some(end) = quote_end(text, from) else {
        return Ok(None);
    };
    if end == text.len() {
        return Ok(None);
    }
    if text[end] != b'@' {
        return Ok(None);
    }
    let Some(close) = right_end(text, end + 1) else {
        return Ok(None);
    };
    unquote(side, &text[from..end - 1])?;
    found.push(&MsgIdRef::new(side.as_slice(), &text[end + 1..close]))?;
    Ok(Some(close + 1))
}

/// The same for the msg-id without quotes whose left side begins here, behind `<`.
fn push_plain_id(found: &mut References, text: &[u8], from: usize) -> Result<Option<usize>, Memory>
    requires { from ≤ length text.now }
    ensures found { IfOk result (λ read. IfSome read (λ end. AppendsReadId found.old found.new (plain_id (drop from text.now)) text.now from end)) }
    ensures none { IfOk result (λ read. IfNone read ((plain_id (drop from text.now) ≡ None) × (found.new ≡ found.old))) }
{
    let Some((at, close)) = divide(text, from) else {
        return Ok(None);
    };
    if at == from {
        return Ok(None);
    }
    found.push(&MsgIdRef::new(&text[from..at], &text[at + 1..close]))?;
    Ok(Some(close + 1))
}

/// The same for the msg-id that begins at a place of a text.
pub(crate) fn push_id(
    found: &mut References,
    side: &mut Vec<u8>,
    text: &[u8],
    from: usize,
) -> Result<Option<usize>, Memory>
    requires at { from < length text.now }
    requires opens { slice_index text.now from ≡ 60 }
    ensures found { IfOk result (λ read. IfSome read (λ end. AppendsReadId found.old found.new (id_at (drop from text.now)) text.now from end)) }
    ensures none { IfOk result (λ read. IfNone read ((id_at (drop from text.now) ≡ None) × (found.new ≡ found.old))) }
{
    if text.len() - from < 2 {
        return Ok(None);
    }
    if text[from + 1] == b'"' {
        push_quoted_id(found, side, text, from + 2)
    } else {
        push_plain_id(found, text, from + 1)
    }
}
