//! What of a list is asked for.
ghost use Rattle.std.specs.Prelude.{◌≡◌, IfOk};
ghost use Rattle.archive_cache.specs.Parts.{model_part, model_owned_part, part_weight, same_part};

use civil_time::Month;
use mail_core::Memory;
use std::alloc::Global;

/// What of a list is asked for: all that its reader is shown, for its threads, or the messages of a month or of an author key.
#[derive(Clone, Copy)]
pub enum ViewPart<'a> {
    /// All, with their threads.
    Whole,
    /// Those whose sent date lies in a month.
    Month(Month),
    /// Those of an author key.
    Author(&'a [u8]),
}

/// The same, of a view that is cached.
#[derive(Drop)]
pub(crate) enum OwnPart {
    Whole,
    Month(Month),
    Author(Vec<u8>),
}

/// What is asked for, as it is cached. It takes memory for an author key alone.
pub(crate) fn own_part(alloc: Global, part: &ViewPart<'_>) -> Result<OwnPart, Memory>
    ensures { IfOk result (λ own. model_owned_part own ≡ model_part part.now) }
{
    Ok(match part {
        ViewPart::Whole => OwnPart::Whole,
        ViewPart::Month(month) => OwnPart::Month(*month),
        ViewPart::Author(key) => OwnPart::Author(key.to_vec(alloc)?),
    })
}

/// Whether a view is of the part that is asked for.
pub(crate) fn is_same_part(own: &OwnPart, part: &ViewPart<'_>) -> bool
    ensures { result ≡ same_part (model_owned_part own.now) (model_part part.now) }
{
    match (own, part) {
        (OwnPart::Whole, ViewPart::Whole) => true,
        (OwnPart::Month(own), ViewPart::Month(month)) => *own == *month,
        (OwnPart::Author(own), ViewPart::Author(key)) => own.as_slice() == *key,
        (OwnPart::Whole | OwnPart::Month(_) | OwnPart::Author(_), _) => false,
    }
}

/// How many bytes a part takes beside its view.
pub(crate) fn part_weight(own: &OwnPart) -> usize
    ensures { result ≡ part_weight (model_owned_part own.now) }
{
    match own {
        OwnPart::Whole | OwnPart::Month(_) => 0,
        OwnPart::Author(key) => key.len(),
    }
}
