//! The msg-ids of a text.
ghost use Rattle.std.specs.Prelude.{◌≡◌, IfOk, take};
ghost use Rattle.mail_core.specs.MsgIds.{ids_of};
ghost use Rattle.mail_core.specs.Headers.{first_id_of_list};

use crate::comments::Comments;
use crate::id_reading::push_id;
use crate::msg_id::MsgId;
use crate::quotes::quote_end;
use crate::references::References;
use civil_time::Memory;
use std::alloc::Global;

/// The first msg-ids of an unfolded text, so many at most.
fn scan(alloc: Global, text: &[u8], most: usize) -> Result<References, Memory>
    ensures { IfOk result (λ found. found ≡ take most (ids_of text.now)) }
{
    let mut found = References::new(alloc);
    let mut side = Vec::new(alloc);
    let mut comments = Comments::of(alloc, text);
    let mut quotes_end = true;
    let mut at = 0;
    while at < text.len() && found.len() < most {
        let byte = text[at];
        if byte == b'(' {
            match comments.end(alloc, at)? {
                Some(end) => at = end,
                None => at += 1,
            }
        } else if byte == b'"' {
            at += 1;
            if quotes_end {
                match quote_end(text, at) {
                    Some(end) => at = end,
                    None => quotes_end = false,
                }
            }
        } else if byte == b'<' {
            match push_id(&mut found, &mut side, text, at)? {
                Some(end) => at = end,
                None => at += 1,
            }
        } else {
            at += 1;
        }
    }
    Ok(found)
}

/// The msg-ids of an unfolded text, in order: what stands in comments and in quoted strings is passed over.
/// `Memory` where no memory is left.
pub fn ids(alloc: Global, text: &[u8]) -> Result<References, Memory>
    ensures { IfOk result (λ found. found ≡ ids_of text.now) }
{
    scan(alloc, text, text.len())
}

/// The first msg-id of an unfolded text, as `ids` finds it, if there is one, without the others. `Memory`
/// where no memory is left.
pub fn first_id(alloc: Global, text: &[u8]) -> Result<Option<MsgId>, Memory>
    ensures { IfOk result (λ found. found ≡ first_id_of_list (ids_of text.now)) }
{
    let found = scan(alloc, text, 1)?;
    if found.is_empty() {
        return Ok(None);
    }
    Ok(Some(found.get(0).try_owned(alloc)?))
}
