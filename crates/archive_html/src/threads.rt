//! Pages of threads, and the texts of rows, which stand apart from the pages so that each is written once.
ghost use Rattle.std.specs.Prelude.{◌≡◌, ◌++◌, ℕ, List, IfOk, OnOk, codes, length, slice_index_or};
ghost use Rattle.thread_core.specs.declared.row.Row.{Row as Placed};
ghost use Rattle.archive_html.specs.Pages.{page, list_title};
ghost use Rattle.archive_html.specs.Rows.{AreRenderedRows, rows_text, tree_row};
ghost use Rattle.archive_results.specs.Results.{tree_line, elements_in_range};
ghost use Rattle.archive_results.specs.Shown.{Line as Shown};

use crate::pages::{rows_page, titled};
use crate::rows::{push_message, push_missing};
use archive_results::{Line, elements_in_range, line_at};
use mail_core::Memory;
use std::alloc::{AllocError, Global};
use thread_core::Row;

/// How many bytes a row takes, or some more: so a long page seldom grows.
const ROW_BYTES: usize = 384;

/// Adds a row with the line at its place, or the row of a message that is not there.
fn push_row(page: &mut Vec<u8>, list: &str, lines: &[Line], row: &Row) -> Result<(), AllocError>
    ensures { OnOk result (page.new.items ≡ page.old.items
        ++ tree_row list.now (tree_line lines.now row.now)) }
{
    match line_at(lines, row) {
        Some(line) => push_message(page, list, row.depth, line),
        None => push_missing(page),
    }
}

/// Rows as a page of their list has them, one after the other, and where each begins.
#[derive(Drop)]
pub struct RenderedRows {
    bytes: Vec<u8>,
    starts: Vec<usize>,
}

impl RenderedRows {
    /// The texts of some rows, each of which names its message by the place of the line.
    pub fn new(
        alloc: Global,
        list: &str,
        lines: &[Line],
        rows: &[Row],
    ) -> Result<RenderedRows, Memory>
        ensures { IfOk result (λ texts. AreRenderedRows list.now lines.now rows.now texts.bytes.items texts.starts.items) }
    {
        let mut bytes = Vec::new(alloc);
        bytes.reserve(rows.len().saturating_mul(ROW_BYTES))?;
        let mut starts = Vec::with_capacity(alloc, rows.len())?;
        for row in rows {
            starts.push(bytes.len())?;
            push_row(&mut bytes, list, lines, row)?;
        }
        Ok(RenderedRows { bytes, starts })
    }

    /// All of them.
    pub fn all(&self) -> &[u8]
        ensures { result.now ≡ self.entry.now.bytes.items }
    {
        &self.bytes
    }

    /// Where a row begins; the end for a row that is not there.
    fn start(&self, row: usize) -> usize
        ensures { result ≡ slice_index_or self.now.starts.items row (length self.now.bytes.items) }
    {
        match self.starts.get(row) {
            Some(start) => *start,
            None => self.bytes.len(),
        }
    }

    /// Those of the rows from one up to another.
    pub fn run(&self, first: usize, end: usize) -> &[u8]
        ensures { (list : List ℕ) (lines : List Shown) (rows : List Placed)
            → AreRenderedRows list lines rows self.entry.now.bytes.items self.entry.now.starts.items
            → result.now ≡ rows_text list lines (elements_in_range (first, end) rows) }
    {
        let from = self.start(first);
        let to = self.start(end.max(first));
        elements_in_range(&self.bytes, from, to)
    }
}

/// The page of all threads of a list, from the texts of their rows.
pub fn threads_page(alloc: Global, list: &str, rows: &[u8]) -> Result<Vec<u8>, Memory>
    ensures { IfOk result (λ made. made.items ≡ page (list_title list.now (codes "threads")) rows.now) }
{
    let title = titled(alloc, list, b"threads")?;
    Ok(rows_page(alloc, &title, rows)?)
}

/// The page of one thread of a list, from the texts of its rows.
pub fn thread_page(alloc: Global, list: &str, rows: &[u8]) -> Result<Vec<u8>, Memory>
    ensures { IfOk result (λ made. made.items ≡ page (list_title list.now (codes "thread")) rows.now) }
{
    let title = titled(alloc, list, b"thread")?;
    Ok(rows_page(alloc, &title, rows)?)
}
