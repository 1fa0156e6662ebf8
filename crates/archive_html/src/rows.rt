//! The rows of pages, one a line.
ghost use Rattle.std.specs.Prelude.{◌≡◌, ◌++◌, OnOk, codes, decimal, min};
ghost use Rattle.archive_html.specs.Rows.{list_row, message_row, missing_row};

use crate::links::{push_author_link, push_message_link, push_month_link, push_thread_link};
use archive_results::Line;
use std::alloc::AllocError;

/// The greatest depth that is shown.
const DEEPEST: usize = 20;

/// Adds a depth in decimal digits.
#[tactic(auto, using(std::proofs::lemmas::Fmt::decimal_digit, crate::proofs::RowLemmas::two_digits))]
fn push_depth(page: &mut Vec<u8>, depth: usize) -> Result<(), AllocError>
    ensures { OnOk result (page.new.items ≡ page.old.items ++ decimal (min depth 20)) }
{
    let shown = depth.min(DEEPEST) as u8;
    if shown < 10 {
        page.push(b'0' + shown)?;
        return Ok(());
    }
    page.extend_from_slice(&[b'0' + shown / 10, b'0' + shown % 10])?;
    Ok(())
}

/// Adds the beginning of a row.
fn push_start(page: &mut Vec<u8>, depth: usize) -> Result<(), AllocError>
    ensures { OnOk result (page.new.items
        ≡ page.old.items ++ (codes "<div class=\"d" ++ (decimal (min depth 20) ++ codes "\">"))) }
{
    page.extend_from_slice(b"<div class=\"d")?;
    push_depth(page, depth)?;
    page.extend_from_slice(b"\">")?;
    Ok(())
}

/// Adds the row of a list: its name leads to its threads, `mbox` to its messages.
pub(crate) fn push_list(page: &mut Vec<u8>, list: &str) -> Result<(), AllocError>
    ensures { OnOk result (page.new.items ≡ page.old.items ++ list_row list.now) }
{
    page.extend_from_slice(b"<div class=\"d0\"><a href=\"/l/")?;
    page.extend_from_slice(list.as_bytes())?;
    page.extend_from_slice(b"/threads\">")?;
    page.extend_from_slice(list.as_bytes())?;
    page.extend_from_slice(b"</a> <a href=\"/l/")?;
    page.extend_from_slice(list.as_bytes())?;
    page.extend_from_slice(b"/mbox\">mbox</a></div>\n")?;
    Ok(())
}

/// Adds the row of a message: when it was sent, by whom, its subject, its thread.
pub(crate) fn push_message(
    page: &mut Vec<u8>,
    list: &str,
    depth: usize,
    line: &Line,
) -> Result<(), AllocError>
    ensures { OnOk result (page.new.items ≡ page.old.items ++ message_row list.now depth line.now) }
{
    let key = line.key.as_str();
    push_start(page, depth)?;
    push_month_link(page, list, line.sent)?;
    page.push(b' ')?;
    push_author_link(page, list, &line.author)?;
    page.push(b' ')?;
    push_message_link(page, list, key, &line.subject)?;
    page.push(b' ')?;
    push_thread_link(page, list, key)?;
    page.extend_from_slice(b"</div>\n")?;
    Ok(())
}

/// Adds the row of a message that is not there.
pub(crate) fn push_missing(page: &mut Vec<u8>) -> Result<(), AllocError>
    ensures { OnOk result (page.new.items ≡ page.old.items ++ missing_row) }
{
    page.extend_from_slice(b"<div class=\"d0\">(missing)</div>\n")?;
    Ok(())
}
