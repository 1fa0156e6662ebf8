//! How many bytes what is kept takes, about.
ghost use Rattle.std.specs.Prelude.{◌≡◌, ◌-◌, ◌^◌, min, sum_by};
ghost use Rattle.archive_cache.specs.Views.{line_weight, index_weight};

use crate::list_indexes::ListIndex;
use archive_results::Line;

/// What a line takes beside the bytes of its author key and subject, with its place in the order of the keys and the start of
/// its thread.
const LINE_BYTES: usize = 192;

/// What a row takes beside its text, with the place where that begins.
const ROW_BYTES: usize = 32;

/// The weight of a line, as far as 64 bits go.
fn line_weight(line: &Line) -> usize
    ensures { result ≡ min (line_weight line.now) (2 ^ 64 - 1) }
{
    LINE_BYTES
        .saturating_add(line.author.len())
        .saturating_add(line.subject.len())
}

/// The weight of some lines, as far as 64 bits go.
fn lines_weight(lines: &[Line]) -> usize
    ensures { result ≡ min (sum_by line_weight lines.now) (2 ^ 64 - 1) }
{
    let mut weight: usize = 0;
    for line in lines {
        weight = weight.saturating_add(line_weight(line));
    }
    weight
}

/// The weight of an outline, as far as 64 bits go.
pub(crate) fn outline_weight(outline: &ListIndex) -> usize
    ensures { result ≡ min (index_weight outline.now) (2 ^ 64 - 1) }
{
    let rows = ROW_BYTES.saturating_mul(outline.rows().len());
    lines_weight(outline.lines())
        .saturating_add(rows)
        .saturating_add(outline.text().len())
}
