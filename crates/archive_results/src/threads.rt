//! The threads of a view (RFC 5256, section 3, THREAD=REFERENCES).
ghost use Rattle.std.specs.Prelude.{◌≡◌, IfOk, map, option_copied, option_map};
ghost use Rattle.archive_results.specs.Shown.{shown_message};
ghost use Rattle.archive_results.specs.Results.{place_of_key, elements_in_range, tree_line, tree_lines, thread_lines};
ghost use Rattle.archive_results.specs.Index.{HoldsForEachView, entries_in, lines_in};

use crate::headers::MessageSummary;
use crate::lines::{Line, TreeLine};
use archive_model::Key;
use mail_core::Memory;
use std::alloc::Global;
use thread_core::{Entry, Row, Threader, thread_of, threads};

/// The lines of some headers, and what the headers say about threads.
#[derive(Drop)]
pub struct ThreadColumns {
    /// What a list shows of each message.
    pub lines: Vec<Line>,
    /// What a threader asks of each message.
    pub entries: Vec<Entry>,
}

/// The columns of some headers, in their order. `Memory` where no memory is left.
pub fn columns_of(alloc: Global, headers: Vec<MessageSummary>) -> Result<ThreadColumns, Memory>
    ensures lines { IfOk result (λ columns. columns.lines.items ≡ lines_in headers.items) }
    ensures entries { IfOk result (λ columns. columns.entries.items ≡ entries_in headers.items) }
{
    let mut lines = Vec::with_capacity(alloc, headers.len())?;
    let mut entries = Vec::with_capacity(alloc, headers.len())?;
    for header in headers {
        lines.push(header.line)?;
        entries.push(header.entry)?;
    }
    Ok(ThreadColumns { lines, entries })
}

/// The line at the place of a row. `None` where it has no place, or no line is there.
pub fn line_at<'a>(lines: &'a [Line], row: &Row) -> Option<&'a Line>
    ensures { option_copied result ≡ (tree_line lines.entry.now row.entry.now).line }
{
    match row.place {
        Some(place) => lines.get(place),
        None => None,
    }
}

/// The elements of a range: from its first, up to the one before its end.
pub fn elements_in_range<T>(items: &[T], first: usize, end: usize) -> &[T]
    ensures { result.now ≡ elements_in_range (first, end) items.entry.now }
{
    let (_, rest) = items.split_at(first.min(items.len()));
    let (part, _) = rest.split_at(end.saturating_sub(first).min(rest.len()));
    part
}

/// The place of the message of a key.
fn place_of(lines: &[Line], key: &Key) -> Option<usize>
    ensures { result ≡ place_of_key key.now lines.now }
{
    lines.iter().position(|line| line.key == *key)
}

/// Rows, each with the line at its place.
fn lines_at(alloc: Global, lines: &[Line], rows: &[Row]) -> Result<Vec<TreeLine>, Memory>
    ensures { IfOk result (λ shown. shown.items ≡ map (tree_line lines.now) rows.now) }
{
    let mut shown = Vec::with_capacity(alloc, rows.len())?;
    for row in rows {
        let line = match line_at(lines, row) {
            Some(line) => Some(line.try_clone(alloc)?),
            None => None,
        };
        shown.push(TreeLine {
            depth: row.depth,
            line,
        })?;
    }
    Ok(shown)
}

/// All threads of a view whose headers these are: a row for each message, and one for a message that is missing and has two
/// replies or more, in preorder. Those of one subject are gathered where `merge` is true. `Memory` where no memory is left.
pub fn tree_lines<T: Threader>(
    alloc: Global,
    threader: &T,
    headers: Vec<MessageSummary>,
    merge: bool,
) -> Result<Vec<TreeLine>, Memory>
    ensures { HoldsForEachView headers.items (λ view.
        IfOk result (λ rows. rows.items ≡ tree_lines merge (map shown_message view))) }
{
    let columns = columns_of(alloc, headers)?;
    let rows = threads(alloc, threader, &columns.entries, merge)?;
    lines_at(alloc, &columns.lines, &rows)
}

/// Of a view whose headers these are, the rows of the top thread that holds the message of a key. `None` where the view does
/// not hold it, `Memory` where no memory is left.
pub fn thread_lines<T: Threader>(
    alloc: Global,
    threader: &T,
    headers: Vec<MessageSummary>,
    merge: bool,
    key: &Key,
) -> Result<Option<Vec<TreeLine>>, Memory>
    ensures { HoldsForEachView headers.items (λ view. IfOk result (λ found.
        option_map (λ rows. rows.items) found ≡ thread_lines merge key.now (map shown_message view))) }
{
    let columns = columns_of(alloc, headers)?;
    let Some(place) = place_of(&columns.lines, key) else {
        return Ok(None);
    };
    let all = threads(alloc, threader, &columns.entries, merge)?;
    let Some((first, end)) = thread_of(&all, place) else {
        return Ok(None);
    };
    let shown = lines_at(alloc, &columns.lines, elements_in_range(&all, first, end))?;
    Ok(Some(shown))
}
