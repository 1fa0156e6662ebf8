//! Views without the texts of their messages.
ghost use Rattle.std.specs.Prelude.{◌≡◌, ℕ, List, Bool, IfOk, flat_map, map, option_map};
ghost use Rattle.archive_html.specs.Rows.{tree_row};
ghost use Rattle.archive_results.specs.Index.{HoldsForEachView};
ghost use Rattle.archive_results.specs.Results.{place_of_key, thread_lines};
ghost use Rattle.archive_results.specs.Shown.{ShownMessage as Seen, shown_message};
ghost use Rattle.archive_cache.specs.ListIndexes.{index_of_lines, index_of_view, rendered_rows, thread_rows_of_key, top_rows_of};

use crate::keyed::KeyedLines;
use crate::threaded::ThreadedRows;
use archive_html::RenderedRows;
use archive_model::Key;
use archive_results::{Line, MessageSummary, columns_of};
use mail_core::Memory;
use std::alloc::Global;
use std::marker::Model;
use thread_core::{Row, Threader, threads};

/// A view without the texts of its messages: the line of each message, in mailbox order, and the rows of the threads, each with the
/// place of its message and its text, as the pages of the list have it. A message is found by its key, and its thread by its place,
/// without a look at the others. Of a month or an author it has the lines by sent date, and a row of depth 0 for each.
#[derive(Drop)]
pub struct ListIndex {
    list: String,
    lines: KeyedLines,
    rows: ThreadedRows,
    texts: RenderedRows,
}

impl Model for ListIndex {
    ghost use Rattle.std.specs.Prelude.{string_bytes};
    ghost use Rattle.archive_html.specs.Rows.{AreRenderedRows};
    ghost use Rattle.archive_cache.specs.ListIndexes.{ListIndex as Shown};

    ghost Value = { Shown };

    ghost view = { λ o. record { list = string_bytes o.list; lines = o.lines; rows = o.rows } };

    ghost invariant = { λ o. AreRenderedRows (string_bytes o.list) o.lines o.rows o.texts.bytes.items o.texts.starts.items };
}

impl ListIndex {
    /// The name of the list.
    pub(crate) fn list(&self) -> &str
        ensures { result.now ≡ self.entry.now.list }
    {
        &self.list
    }

    /// The line of each message, in mailbox order, or by sent date of a month or an author.
    pub fn lines(&self) -> &[Line]
        ensures { result.now ≡ self.entry.now.lines }
    {
        self.lines.as_slice()
    }

    /// The rows of the threads, in preorder, or of a month or an author, each with the place of its message's line.
    pub fn rows(&self) -> &[Row]
        ensures { result.now ≡ self.entry.now.rows }
    {
        self.rows.as_slice()
    }

    /// The texts of all rows, one after the other, as a page of the list has them.
    pub fn text(&self) -> &[u8]
        ensures { result.now ≡ rendered_rows self.entry.now self.entry.now.rows }
    {
        self.texts.all()
    }

    /// The place of the line of a key.
    pub(crate) fn place_of(&self, key: &Key) -> Option<usize>
        ensures { result ≡ place_of_key key.now self.now.lines }
    {
        self.lines.place_of(key)
    }

    /// The texts of the rows of the top thread that holds the message of a key. `None` where no line has the key.
    pub fn thread(&self, key: &Key) -> Option<&[u8]>
        ensures text { option_map (λ text. text.now) result ≡ option_map (rendered_rows self.entry.now)
            (thread_rows_of_key self.entry.now key.now) }
        ensures shown { (list : List ℕ) (merge : Bool) (view : List Seen)
            → self.entry.now ≡ index_of_view list merge view
            → option_map (λ text. text.now) result ≡ option_map (flat_map (tree_row list))
            (thread_lines merge key.now view) }
    {
        let place = self.place_of(key)?;
        let (first, end) = self.rows.thread_at(place)?;
        Some(self.texts.run(first, end))
    }
}

/// The outline of lines and of their rows. `Memory` where no memory is left.
fn outline_with(
    alloc: Global,
    list: &str,
    lines: Vec<Line>,
    rows: Vec<Row>,
) -> Result<ListIndex, Memory>
    ensures { IfOk result (λ outline. outline ≡ record
        { list = list.now; lines = lines.items; rows = rows.items }) }
{
    let texts = RenderedRows::new(alloc, list, &lines, &rows)?;
    let rows = ThreadedRows::new(alloc, rows, lines.len())?;
    let lines = KeyedLines::new(alloc, lines)?;
    let list = String::from_str(alloc, list)?;
    Ok(ListIndex {
        list,
        lines,
        rows,
        texts,
    })
}

/// The outline of a view of a list whose headers these are. Its threads of one subject are gathered where `merge` is true. `Memory`
/// where no memory is left.
pub(crate) fn outline_of<T: Threader>(
    alloc: Global,
    threader: &T,
    list: &str,
    headers: Vec<MessageSummary>,
    merge: bool,
) -> Result<ListIndex, Memory>
    ensures { HoldsForEachView headers.items (λ view.
        IfOk result (λ outline. outline ≡ index_of_view list.now merge (map shown_message view))) }
{
    let columns = columns_of(alloc, headers)?;
    let rows = threads(alloc, threader, &columns.entries, merge)?;
    outline_with(alloc, list, columns.lines, rows)
}

/// A row of depth 0 for each line, in their order.
fn top_rows(alloc: Global, lines: &[Line]) -> Result<Vec<Row>, Memory>
    ensures { IfOk result (λ rows. rows.items ≡ top_rows_of lines.now) }
{
    let count = lines.len();
    let mut rows = Vec::with_capacity(alloc, count)?;
    for place in 0..count {
        rows.push(Row {
            depth: 0,
            place: Some(place),
        })?;
    }
    Ok(rows)
}

/// The outline of lines that are not threaded. `Memory` where no memory is left.
pub(crate) fn outline_by(alloc: Global, list: &str, lines: Vec<Line>) -> Result<ListIndex, Memory>
    ensures { IfOk result (λ outline. outline ≡ index_of_lines list.now lines.items) }
{
    let rows = top_rows(alloc, &lines)?;
    outline_with(alloc, list, lines, rows)
}
