//! The lines of a month or an author, out of all lines of a view.
ghost use Rattle.std.specs.Prelude.{◌≡◌, IfOk, OnOk, filter};
ghost use Rattle.archive_results.specs.Results.{sort_lines_by_date};
ghost use Rattle.archive_cache.specs.ListIndexes.{is_line_in_part, lines_in_part};
ghost use Rattle.archive_cache.specs.Parts.{model_part};

use crate::parts::ViewPart;
use archive_results::Line;
use mail_core::Memory;
use std::alloc::{AllocError, Global};

/// Whether a line stands under a part.
fn is_in(line: &Line, part: &ViewPart<'_>) -> bool
    ensures { result ≡ is_line_in_part (model_part part.now) line.now }
{
    match part {
        ViewPart::Whole => true,
        ViewPart::Month(month) => line.sent.month() == *month,
        ViewPart::Author(key) => line.author.as_slice() == *key,
    }
}

/// The lines that stand under a part, in their order.
fn picked(alloc: Global, lines: &[Line], part: &ViewPart<'_>) -> Result<Vec<Line>, Memory>
    ensures { IfOk result (λ found. found.items ≡ filter (is_line_in_part (model_part part.now)) lines.now) }
{
    let mut found = Vec::new(alloc);
    for line in lines {
        if is_in(line, part) {
            found.push(line.try_clone(alloc)?)?;
        }
    }
    Ok(found)
}

/// Puts lines in the order of their sent dates; those of one sent date stay in theirs.
fn sort_by_sent(lines: &mut Vec<Line>) -> Result<(), AllocError>
    ensures { OnOk result (lines.new.items ≡ sort_lines_by_date lines.old.items) }
{
    lines.sort_by_key(|line| line.sent.seconds())
}

/// The lines that stand under a part, by sent date.
pub(crate) fn lines_under(
    alloc: Global,
    lines: &[Line],
    part: &ViewPart<'_>,
) -> Result<Vec<Line>, Memory>
    ensures { IfOk result (λ found. found.items ≡ lines_in_part (model_part part.now) lines.now) }
{
    let mut found = picked(alloc, lines, part)?;
    sort_by_sent(&mut found)?;
    Ok(found)
}
