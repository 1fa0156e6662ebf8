//! Texts as a page shows them.
ghost use Rattle.std.specs.Prelude.{◌≡◌, ◌≤◌, ◌++◌, OnOk, length};
ghost use Rattle.std.specs.List.{prefix_len};
ghost use Rattle.archive_html.specs.Texts.{is_shown_unchanged, html_escaped_byte, html_escaped_text};

use std::alloc::AllocError;

/// Adds a byte as it is shown.
fn push_shown_byte(page: &mut Vec<u8>, byte: u8) -> Result<(), AllocError>
    ensures { OnOk result (page.new.items ≡ page.old.items ++ html_escaped_byte byte) }
{
    match byte {
        b'&' => page.extend_from_slice(b"&amp;"),
        b'<' => page.extend_from_slice(b"&lt;"),
        b'>' => page.extend_from_slice(b"&gt;"),
        b'"' => page.extend_from_slice(b"&quot;"),
        b' '..=b'~' => Ok(page.push(byte)?),
        _ => Ok(page.push(b'?')?),
    }
}

/// Whether a byte is shown as it is.
fn is_plain(byte: u8) -> bool
    ensures { result ≡ is_shown_unchanged byte }
{
    matches!(byte, b' '..=b'~') && byte != b'&' && byte != b'<' && byte != b'>' && byte != b'"'
}

/// How many bytes at the beginning of a text are shown as they are.
fn plain_len(text: &[u8]) -> usize
    ensures value { result ≡ prefix_len is_shown_unchanged text.now }
    ensures within { result ≤ length text.now }
{
    for (len, byte) in text.iter().enumerate() {
        if !is_plain(*byte) {
            return len;
        }
    }
    text.len()
}

/// Adds a text as it is shown, a run of plain bytes at a time.
pub(crate) fn push_shown(page: &mut Vec<u8>, text: &[u8]) -> Result<(), AllocError>
    ensures { OnOk result (page.new.items ≡ page.old.items ++ html_escaped_text text.now) }
{
    let mut rest = text;
    loop {
        let (plain, behind) = rest.split_at(plain_len(rest));
        page.extend_from_slice(plain)?;
        let Some((byte, after)) = behind.split_first() else {
            return Ok(());
        };
        push_shown_byte(page, *byte)?;
        rest = after;
    }
}
