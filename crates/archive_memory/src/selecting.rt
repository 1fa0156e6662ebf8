//! Walks over the messages of a list.
ghost use Rattle.std.specs.Prelude.{◌≡◌, ◌-◌, IfOk, OnOk, option_map, option_copied, drop, filter, length, map, slice_get};
ghost use Rattle.archive_memory.specs.Entries.{indexed_in, message_in};
ghost use Rattle.archive_memory.specs.Selecting.{ShowMessages, is_selected, places_in_order, selected_in_order, sort_places_by_date};
ghost use Rattle.archive_memory.specs.State.{remaining_place_count, remaining_places};

use crate::entries::MessageEntry;
use archive_port::{MemoryRefusal, Selection};
use civil_time::Instant;
use std::alloc::{AllocError, Global};

/// A walk over messages of a list, one at a time. The walk holds places, and each call takes the archive. You may drop a walk at any
/// message.
#[derive(Drop)]
pub struct MessageWalk {
    pub(crate) places: Vec<DatedPlace>,
    pub(crate) at: usize,
}

/// The place of a message among all, and its sent date.
#[derive(Clone, Copy)]
pub(crate) struct DatedPlace {
    pub(crate) sent: Instant,
    pub(crate) place: usize,
}

impl MessageWalk {
    /// The place of the next message. `None` where all were given.
    pub(crate) fn next_place(&self) -> Option<DatedPlace>
        ensures { result ≡ slice_get self.now.places.items self.now.at }
    {
        self.places.get(self.at).copied()
    }

    /// Passes the next message by. It does nothing where all were given.
    pub(crate) fn advance(&mut self)
        ensures passed { remaining_places self.new ≡ drop 1 (remaining_places self.old) }
        ensures left { remaining_place_count self.new ≡ remaining_place_count self.old - 1 }
    {
        if self.at < self.places.len() {
            self.at = self.at + 1;
        }
    }
}

/// The message at a place.
pub(crate) fn message_at<'a>(
    messages: &'a [MessageEntry],
    dated: DatedPlace,
) -> Option<&'a MessageEntry>
    ensures { option_map message_in (option_copied result) ≡ slice_get (map message_in messages.entry.now) dated.place }
{
    messages.get(dated.place)
}

/// The places of these of a list's messages: all in mailbox order, or by sent date and then in mailbox order.
pub(crate) fn select_places(
    alloc: Global,
    messages: &[MessageEntry],
    list: &str,
    which: &Selection<'_>,
) -> Result<Vec<DatedPlace>, MemoryRefusal>
    ensures { IfOk result (λ places. ShowMessages (map message_in messages.now) places.items
        (selected_in_order list.now which.now (map indexed_in messages.now))) }
{
    let mut places = find_places(alloc, messages, list, which)?;
    put_in_order(&mut places, which)?;
    Ok(places)
}

/// The places of these of a list's messages, in mailbox order.
fn find_places(
    alloc: Global,
    messages: &[MessageEntry],
    list: &str,
    which: &Selection<'_>,
) -> Result<Vec<DatedPlace>, AllocError>
    ensures { IfOk result (λ places. ShowMessages (map message_in messages.now) places.items
        (filter (is_selected list.now which.now) (map indexed_in messages.now))) }
{
    let mut places = Vec::new(alloc);
    for (place, entry) in messages.iter().enumerate() {
        if entry.is_selected(list, which) {
            places.push(DatedPlace {
                sent: entry.columns.sent,
                place,
            })?;
        }
    }
    Ok(places)
}

/// Puts places in the order in which a walk gives them.
fn put_in_order(places: &mut Vec<DatedPlace>, which: &Selection<'_>) -> Result<(), AllocError>
    ensures { OnOk result (places.new.items ≡ places_in_order which.now places.old.items) }
{
    match which {
        Selection::Every => Ok(()),
        Selection::InMonth(_) => sort_by_sent(places),
        Selection::ByAuthor(_) => sort_by_sent(places),
    }
}

/// Puts places in the order of their sent dates; those of one sent date stay in theirs.
fn sort_by_sent(places: &mut Vec<DatedPlace>) -> Result<(), AllocError>
    ensures { OnOk result (places.new.items ≡ sort_places_by_date places.old.items) }
{
    places.sort_by_key(|dated| dated.sent.seconds())
}
