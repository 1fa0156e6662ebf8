//! Links between pages, percent-encoded (RFC 3986, section 2.1).
ghost use Rattle.std.specs.Prelude.{◌≡◌, ◌++◌, OnOk, codes};
ghost use Rattle.archive_html.specs.Links.{month_link, author_link, subject_text, message_link, thread_link};

use crate::escapes::push_escaped;
use crate::texts::push_shown;
use civil_time::Instant;
use std::alloc::AllocError;

/// Adds the beginning of a link to a page of a list.
fn push_start(page: &mut Vec<u8>, list: &str, route: &[u8]) -> Result<(), AllocError>
    ensures { OnOk result (page.new.items ≡ page.old.items
        ++ (codes "<a href=\"/l/" ++ (list.now ++ route.now))) }
{
    page.extend_from_slice(b"<a href=\"/l/")?;
    page.extend_from_slice(list.as_bytes())?;
    page.extend_from_slice(route)?;
    Ok(())
}

/// Adds an instant that leads to its month.
pub(crate) fn push_month_link(
    page: &mut Vec<u8>,
    list: &str,
    sent: Instant,
) -> Result<(), AllocError>
    ensures { OnOk result (page.new.items ≡ page.old.items ++ month_link list.now sent) }
{
    let text = sent.text();
    push_start(page, list, b"/month/")?;
    page.extend_from_slice(&text[..7])?;
    page.extend_from_slice(b"\">")?;
    page.extend_from_slice(&text)?;
    page.extend_from_slice(b"</a>")?;
    Ok(())
}

/// Adds an author key that leads to all that this author wrote, or `(none)`.
#[tactic(auto, unfolding(crate::specs::Links::author_link))]
pub(crate) fn push_author_link(
    page: &mut Vec<u8>,
    list: &str,
    author: &[u8],
) -> Result<(), AllocError>
    ensures { OnOk result (page.new.items ≡ page.old.items ++ author_link list.now author.now) }
{
    if author.is_empty() {
        return page.extend_from_slice(b"(none)");
    }
    push_start(page, list, b"/by/")?;
    push_escaped(page, author)?;
    page.extend_from_slice(b"\">")?;
    push_shown(page, author)?;
    page.extend_from_slice(b"</a>")
}

#[tactic(auto, unfolding(crate::specs::Links::subject_text))]
fn push_subject(page: &mut Vec<u8>, subject: &[u8]) -> Result<(), AllocError>
    ensures { OnOk result (page.new.items ≡ page.old.items ++ subject_text subject.now) }
{
    if subject.is_empty() {
        return page.extend_from_slice(b"(no subject)");
    }
    push_shown(page, subject)
}

/// Adds a subject that leads to its message.
#[tactic(auto, unfolding(crate::specs::Links::message_link))]
pub(crate) fn push_message_link(
    page: &mut Vec<u8>,
    list: &str,
    key: &str,
    subject: &[u8],
) -> Result<(), AllocError>
    ensures { OnOk result (page.new.items ≡ page.old.items
        ++ message_link list.now key.now subject.now) }
{
    push_start(page, list, b"/m/")?;
    page.extend_from_slice(key.as_bytes())?;
    page.extend_from_slice(b"\">")?;
    push_subject(page, subject)?;
    page.extend_from_slice(b"</a>")
}

/// Adds the word `thread`, which leads to a message's thread.
#[tactic(auto, unfolding(crate::specs::Links::thread_link))]
pub(crate) fn push_thread_link(page: &mut Vec<u8>, list: &str, key: &str) -> Result<(), AllocError>
    ensures { OnOk result (page.new.items ≡ page.old.items ++ thread_link list.now key.now) }
{
    push_start(page, list, b"/t/")?;
    page.extend_from_slice(key.as_bytes())?;
    page.extend_from_slice(b"\">thread</a>")
}
