//! Unfolding of header fields (RFC 5322 section 2.2.3).
ghost use Rattle.std.specs.Prelude.{◌≡◌, ◌<◌, length, drop, IfOk};
ghost use Rattle.mail_core.specs.Fields.{is_lf_before_wsp, is_folding_line_end, unfolded};

use crate::field_blocks::is_blank_byte;
use civil_time::Memory;
use std::alloc::Global;

/// Whether an LF stands at this place, directly before space or tab.
fn folds_at(text: &[u8], at: usize) -> bool
    ensures { result ≡ is_lf_before_wsp (drop at text.now) }
{
    if at >= text.len() {
        return false;
    }
    if at + 1 == text.len() {
        return false;
    }
    text[at] == b'\n' && is_blank_byte(text[at + 1])
}

/// Whether unfolding leaves out the byte at this place.
fn is_fold_at(text: &[u8], at: usize) -> bool
    requires { at < length text.now }
    ensures { result ≡ is_folding_line_end (drop at text.now) }
{
    folds_at(text, at) || (text[at] == b'\r' && folds_at(text, at + 1))
}

/// The text without the line ends that are directly followed by space or tab. `Memory` where no memory is left.
pub fn unfold(alloc: Global, text: &[u8]) -> Result<Vec<u8>, Memory>
    ensures { IfOk result (λ bytes. bytes.items ≡ unfolded text.now) }
{
    let mut bytes = Vec::with_capacity(alloc, text.len())?;
    for (at, byte) in text.iter().enumerate() {
        if is_fold_at(text, at) {
            continue;
        }
        bytes.push(*byte)?;
    }
    Ok(bytes)
}
