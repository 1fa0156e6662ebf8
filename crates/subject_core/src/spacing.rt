//! Tabs and runs of spaces as single spaces: RFC 5256, section 2.1, step (1).
ghost use Rattle.std.specs.Prelude.{◌≡◌, IfOk};
ghost use Rattle.subject_core.specs.Spaces.{is_space_or_tab, with_single_spaces};

use std::alloc::{AllocError, Global};

fn white(byte: u8) -> bool
    ensures { result ≡ is_space_or_tab byte }
{
    byte == b'\t' || byte == b' '
}

/// The subject with each run of tabs and spaces as one space, in one allocation of the subject's size.
pub(crate) fn single_spaced(alloc: Global, subject: &[u8]) -> Result<Vec<u8>, AllocError>
    ensures { IfOk result (λ text. text.items ≡ with_single_spaces subject.now) }
{
    let mut text = Vec::with_capacity(alloc, subject.len())?;
    let mut behind_space = false;
    for byte in subject {
        if !white(*byte) {
            text.push(*byte)?;
            behind_space = false;
        } else if !behind_space {
            text.push(b' ')?;
            behind_space = true;
        }
    }
    Ok(text)
}
