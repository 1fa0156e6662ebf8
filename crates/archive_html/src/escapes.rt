//! Escapes in links (RFC 3986, section 2).
ghost use Rattle.std.specs.Prelude.{◌≡◌, ◌++◌, OnOk};
ghost use Rattle.archive_html.specs.Links.{percent_encoded};

use percent_encoding::{AsciiSet, NON_ALPHANUMERIC, ascii_set, percent_encode};
use std::alloc::AllocError;

/// What is escaped: every ASCII byte but letters, digits and `-._~`.
const RESERVED: AsciiSet = ascii_set!(
    NON_ALPHANUMERIC
        .remove(b'-')
        .remove(b'.')
        .remove(b'_')
        .remove(b'~')
);

/// Adds a part of a link's target, with escapes.
pub(crate) fn push_escaped(page: &mut Vec<u8>, text: &[u8]) -> Result<(), AllocError>
    ensures { OnOk result (page.new.items ≡ page.old.items ++ percent_encoded text.now) }
{
    for piece in percent_encode(text, RESERVED) {
        page.extend_from_slice(piece.as_bytes())?;
    }
    Ok(())
}
