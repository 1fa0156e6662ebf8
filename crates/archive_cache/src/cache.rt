//! Views that are kept, and marks of messages.
ghost use Rattle.std.specs.Prelude.{◌≡◌, ◌⊎◌, ◌<◌, ◌≤◌, ◌+◌, ◌-◌, ◌^◌, ℕ, drop, List, [], length, min, position, string_bytes, option_copied, option_map, IfOk, Some};
ghost use Rattle.std.specs.Option.{option_map_or};
ghost use Rattle.archive_cache.specs.Parts.{model_part};
ghost use Rattle.archive_cache.specs.ListIndexes.{ListIndex as Whole, index_restricted_to};
ghost use Rattle.archive_cache.specs.Views.{DropsOldest, IsCacheBounded, CachesWithheldMessage, CachesView, first_whole_list_place, is_view_of, is_whole_list_view};
ghost use Rattle.archive_cache.specs.Views.{cached_message_facts, empty_cache, cached_index_at, cached_line_place, insertion_place, same_address, same_reader, view_weight, views_weight};

use crate::dividing::lines_under;
use crate::list_indexes::{ListIndex, outline_by};
use crate::parts::{OwnPart, ViewPart, is_same_part, own_part, part_weight};
use crate::weights::outline_weight;
use crate::withheld::{KeptMarks, find_marks, put_marks};
use archive_model::Key;
use archive_results::{MessageFacts, ReaderFacts};
use mail_core::Memory;
use std::alloc::Global;
use std::marker::Model;

/// The outline of a part of what the readers of these marks are shown of a list.
#[derive(Drop)]
struct CachedView {
    list: String,
    reader: ReaderFacts,
    part: OwnPart,
    outline: ListIndex,
}

impl Model for CachedView {
    ghost use Rattle.std.specs.Prelude.{string_bytes};
    ghost use Rattle.archive_cache.specs.Parts.{model_owned_part};
    ghost use Rattle.archive_cache.specs.Views.{CachedView as Shown};

    ghost Value = { Shown };

    ghost view = { λ v. record { list = string_bytes v.list; reader = v.reader; part = model_owned_part v.part; outline = v.outline } };
}

/// Outlines of views, one of a part of a list and the marks of a reader: at most so many bytes, or one view alone. Months and authors
/// stand before whole lists, and each of the two in the order in which they came. Beside them the marks of messages that were withheld,
/// 256 at most.
#[derive(Drop)]
pub struct Cache {
    views: Vec<CachedView>,
    most: usize,
    withheld: Vec<KeptMarks>,
}

impl Model for Cache {
    ghost use Rattle.archive_cache.specs.Views.{IsCacheBounded, CacheState};

    ghost Value = { CacheState };

    ghost view = { λ k. record { most = k.most; views = k.views.items; withheld = k.withheld.items } };

    ghost invariant = { λ k. IsCacheBounded (record { most = k.most; views = k.views.items; withheld = k.withheld.items }) };
}

fn is_same_address(one: &Option<String>, other: &Option<String>) -> bool
    ensures { result ≡ same_address (option_map string_bytes one.now)
        (option_map string_bytes other.now) }
{
    match (one, other) {
        (None, None) => true,
        (Some(one), Some(other)) => one.as_str() == other.as_str(),
        (None, Some(_)) | (Some(_), None) => false,
    }
}

fn is_same_reader(one: &ReaderFacts, other: &ReaderFacts) -> bool
    ensures { result ≡ same_reader one.now other.now }
{
    one.standing.rank() == other.standing.rank() && is_same_address(&one.address, &other.address)
}

/// The marks of a reader once more.
fn copied(alloc: Global, reader: &ReaderFacts) -> Result<ReaderFacts, Memory>
    ensures { IfOk result (λ own. own ≡ reader.now) }
{
    let address = match &reader.address {
        Some(address) => Some(String::from_str(alloc, address)?),
        None => None,
    };
    Ok(ReaderFacts {
        standing: reader.standing,
        address,
    })
}

/// Whether it is the view of a part of a list for readers of these marks.
fn is_view_of(view: &CachedView, list: &str, reader: &ReaderFacts, part: &ViewPart<'_>) -> bool
    ensures { result ≡ is_view_of list.now reader.now (model_part part.now) view.now }
{
    is_same_part(&view.part, part)
        && (view.list.as_str() == list && is_same_reader(&view.reader, reader))
}

/// The place of the view of a part of a list for readers of these marks.
fn place_of(
    views: &[CachedView],
    list: &str,
    reader: &ReaderFacts,
    part: &ViewPart<'_>,
) -> Option<usize>
    ensures { result ≡ position (is_view_of list.now reader.now (model_part part.now)) views.now }
{
    views
        .iter()
        .position(|view| is_view_of(view, list, reader, part))
}

/// Whether it is the view of a whole list.
fn is_whole(view: &CachedView) -> bool
    ensures { result ≡ is_whole_list_view view.now }
{
    matches!(view.part, OwnPart::Whole)
}

/// The place of the first view of a whole list, if there is one.
fn find_whole(views: &[CachedView]) -> Option<usize>
    ensures { result ≡ position is_whole_list_view views.now }
{
    views.iter().position(|view| is_whole(view))
}

/// The same, or the end.
fn first_whole(views: &[CachedView]) -> usize
    ensures { result ≡ first_whole_list_place views.now }
{
    match find_whole(views) {
        Some(place) => place,
        None => views.len(),
    }
}

/// Where a view of a part is put.
fn put_place(views: &[CachedView], part: &ViewPart<'_>) -> usize
    ensures { result ≡ insertion_place (model_part part.now) views.now }
{
    match part {
        ViewPart::Whole => views.len(),
        ViewPart::Month(_) | ViewPart::Author(_) => first_whole(views),
    }
}

/// What a view takes beside its outline, its list's name, its reader's address and its author key. It is much, so that views are few,
/// since one is looked for among all.
const VIEW_BYTES: usize = 16_384;

/// The weight of a view, as far as 64 bits go.
fn view_weight(view: &CachedView) -> usize
    ensures { result ≡ min (view_weight view.now) (2 ^ 64 - 1) }
{
    let address = match &view.reader.address {
        Some(address) => address.len(),
        None => 0,
    };
    VIEW_BYTES
        .saturating_add(view.list.len())
        .saturating_add(address)
        .saturating_add(part_weight(&view.part))
        .saturating_add(outline_weight(&view.outline))
}

/// The first place from which the views have room beside one of this weight, or the end.
fn first_with_room(views: &[CachedView], most: usize, weight: usize) -> usize
    ensures within { result ≤ length views.now }
    ensures room { (views_weight (drop result views.now) + weight < most)
        ⊎ (result ≡ length views.now) }
    ensures first { (result ≡ 0) ⊎ (most ≤ views_weight (drop (result - 1) views.now) + weight) }
{
    let mut place = views.len();
    let mut used: usize = 0;
    while place > 0 {
        let more = used.saturating_add(view_weight(&views[place - 1]));
        if more.saturating_add(weight) >= most {
            break;
        }
        used = more;
        place -= 1;
    }
    place
}

/// Lets the first views go, as many as it takes that there is room for one of this weight.
fn make_room(views: &mut Vec<CachedView>, most: usize, weight: usize)
    ensures dropped { DropsOldest views.old.items views.new.items }
    ensures room { (views_weight views.new.items + weight < most) ⊎ (views.new.items ≡ []) }
{
    let place = first_with_room(views, most, weight);
    views.drain(..place);
}

impl Cache {
    /// Nothing is cached yet, and at most so many bytes will be, or one view alone.
    pub fn new(alloc: Global, most: usize) -> Cache
        ensures { result ≡ empty_cache most }
    {
        Cache {
            views: Vec::new(alloc),
            most,
            withheld: Vec::new(alloc),
        }
    }

    /// The outline at a place. `None` if no outline is cached at that place.
    pub fn outline(&self, place: usize) -> Option<&ListIndex>
        ensures outline { option_copied result ≡ cached_index_at self.entry.now place }
        ensures bounded { IsCacheBounded self.entry.now }
    {
        if place < self.views.len() {
            let view = &self.views[place];
            Some(&view.outline)
        } else {
            None
        }
    }

    /// The place of the view of a part of a list for readers of these marks, if it is cached.
    pub(crate) fn find(
        &self,
        list: &str,
        reader: &ReaderFacts,
        part: &ViewPart<'_>,
    ) -> Option<usize>
        ensures { result ≡ position (is_view_of list.now reader.now
            (model_part part.now)) self.now.views }
    {
        place_of(&self.views, list, reader, part)
    }

    /// The place of the line of a key in the view of a whole list for readers of these marks, if that view is cached.
    pub(crate) fn find_line(&self, list: &str, reader: &ReaderFacts, key: &Key) -> Option<usize>
        ensures { result ≡ cached_line_place self.now list.now reader.now key.now }
    {
        let view = self.find(list, reader, &ViewPart::Whole)?;
        self.outline(view)?.place_of(key)
    }

    /// Caches one view more, and answers its place. As many are let go as it takes that it fits beside the others: months and authors
    /// first, and of the two kinds the oldest.
    pub(crate) fn put(
        &mut self,
        alloc: Global,
        list: &str,
        reader: &ReaderFacts,
        part: &ViewPart<'_>,
        outline: ListIndex,
    ) -> Result<usize, Memory>
        ensures kept { CachesView self.old.views self.new.views
            (record { list = list.now; reader = reader.now; part = model_part part.now; outline = outline }) result }
        ensures rest { self.new ≡ record self.old { views = self.new.views } }
        ensures bounded { IsCacheBounded self.new }
    {
        let most = self.most;
        let view = CachedView {
            list: String::from_str(alloc, list)?,
            reader: copied(alloc, reader)?,
            part: own_part(alloc, part)?,
            outline,
        };
        make_room(&mut self.views, most, view_weight(&view));
        let place = put_place(&self.views, part);
        self.views.insert(place, view)?;
        Ok(place)
    }

    /// Caches a month or an author in the same way, made of the outline of the whole list that stands at a place.
    pub(crate) fn put_part(
        &mut self,
        alloc: Global,
        list: &str,
        reader: &ReaderFacts,
        part: &ViewPart<'_>,
        whole: usize,
    ) -> Result<usize, Memory>
        requires { whole < length self.old.views }
        ensures kept { (of : Whole) → cached_index_at self.old whole ≡ Some of
            → CachesView self.old.views self.new.views
            (record { list = list.now; reader = reader.now; part = model_part part.now; outline = index_restricted_to (model_part part.now) of }) result }
        ensures rest { self.new ≡ record self.old { views = self.new.views } }
        ensures bounded { IsCacheBounded self.new }
    {
        let of = &self.views[whole].outline;
        let lines = lines_under(alloc, of.lines(), part)?;
        let outline = outline_by(alloc, of.list(), lines)?;
        self.put(alloc, list, reader, part, outline)
    }

    /// The marks that are cached of the message of a list and key, for when it is not the reader's own.
    pub(crate) fn marks(&self, list: &str, key: &Key) -> Option<MessageFacts>
        ensures { result ≡ cached_message_facts self.now list.now key.now }
    {
        find_marks(&self.withheld, list, key)
    }

    /// Caches the marks of a message that was withheld. The oldest are let go for them; if memory is refused, they are not cached.
    pub(crate) fn put_marks(&mut self, alloc: Global, list: &str, key: &Key, marks: MessageFacts)
        ensures kept { CachesWithheldMessage self.old.withheld self.new.withheld
            (record { list = list.now; key = key.now; marks = marks }) }
        ensures rest { self.new ≡ record self.old { withheld = self.new.withheld } }
        ensures bounded { IsCacheBounded self.new }
    {
        put_marks(&mut self.withheld, alloc, list, key, marks);
    }
}
