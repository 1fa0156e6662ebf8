//! Whole pages, from head to foot, one function each.
ghost use Rattle.std.specs.Prelude.{◌≡◌, ◌++◌, OnOk, IfOk, map, flat_map, codes, string_bytes};
ghost use Rattle.civil_time.specs.Texts.{month_text};
ghost use Rattle.archive_html.specs.Texts.{html_escaped_text};
ghost use Rattle.archive_html.specs.Rows.{list_row};
ghost use Rattle.archive_html.specs.Pages.{page, page_head, page_foot, list_title, lists_page};

use crate::rows::push_list;
use crate::texts::push_shown;
use civil_time::Month;
use mail_core::Memory;
use std::alloc::{AllocError, Global};

/// How many bytes stand behind the rows, or some more: so a page is not copied for them.
const FOOT_BYTES: usize = 64;

/// The title of a page of a list.
pub(crate) fn titled(alloc: Global, list: &str, rest: &[u8]) -> Result<Vec<u8>, AllocError>
    ensures { IfOk result (λ title. title.items ≡ list_title list.now rest.now) }
{
    let mut title = list.as_bytes().to_vec(alloc)?;
    title.extend_from_slice(b": ")?;
    title.extend_from_slice(rest)?;
    Ok(title)
}

/// A page with its title, up to its rows.
fn started(alloc: Global, title: &[u8]) -> Result<Vec<u8>, AllocError>
    ensures { IfOk result (λ page. page.items ≡ page_head title.now) }
{
    let mut page = Vec::new(alloc);
    page.extend_from_slice(b"<!DOCTYPE html>\n<html><head><title>")?;
    page.extend_from_slice(title)?;
    page.extend_from_slice(b"</title></head><body>\n<h1>")?;
    page.extend_from_slice(title)?;
    page.extend_from_slice(b"</h1>\n")?;
    Ok(page)
}

/// Adds what stands behind the rows.
#[tactic(auto, unfolding(crate::specs::Pages::page_foot))]
fn push_foot(page: &mut Vec<u8>) -> Result<(), AllocError>
    ensures { OnOk result (page.new.items ≡ page.old.items ++ page_foot) }
{
    page.extend_from_slice(b"</body></html>\n")?;
    Ok(())
}

/// Adds a row for each list.
fn push_lists(page: &mut Vec<u8>, names: &[String]) -> Result<(), AllocError>
    ensures { OnOk result (page.new.items ≡ page.old.items
        ++ flat_map (λ name. list_row (string_bytes name)) names.now) }
{
    for name in names {
        push_list(page, name)?;
    }
    Ok(())
}

/// The page of all lists, in the order in which they are given.
pub fn lists_page(alloc: Global, names: &[String]) -> Result<Vec<u8>, Memory>
    ensures { IfOk result (λ page. page.items ≡ lists_page (map string_bytes names.now)) }
{
    let mut page = started(alloc, b"Lists")?;
    push_lists(&mut page, names)?;
    push_foot(&mut page)?;
    Ok(page)
}

/// A page of rows, from their texts.
pub(crate) fn rows_page(alloc: Global, title: &[u8], rows: &[u8]) -> Result<Vec<u8>, AllocError>
    ensures { IfOk result (λ made. made.items ≡ page title.now rows.now) }
{
    let mut page = started(alloc, title)?;
    page.reserve(rows.len().saturating_add(FOOT_BYTES))?;
    page.extend_from_slice(rows)?;
    push_foot(&mut page)?;
    Ok(page)
}

/// The page of the messages of a month of a list, from the texts of their rows.
pub fn month_page(alloc: Global, list: &str, month: Month, rows: &[u8]) -> Result<Vec<u8>, Memory>
    ensures { IfOk result (λ made. made.items
        ≡ page (list_title list.now (month_text month)) rows.now) }
{
    let title = titled(alloc, list, &month.text())?;
    Ok(rows_page(alloc, &title, rows)?)
}

/// The page of the messages of an author of a list, from the texts of their rows. The author key is shown as it was asked for.
pub fn author_page(alloc: Global, list: &str, author: &[u8], rows: &[u8]) -> Result<Vec<u8>, Memory>
    ensures { IfOk result (λ made. made.items
        ≡ page (list_title list.now (codes "by " ++ html_escaped_text author.now)) rows.now) }
{
    let mut title = titled(alloc, list, b"by ")?;
    push_shown(&mut title, author)?;
    Ok(rows_page(alloc, &title, rows)?)
}
