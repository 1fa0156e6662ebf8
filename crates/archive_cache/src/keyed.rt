//! Lines of messages, one of which is found by its key.
ghost use Rattle.std.specs.Prelude.{◌≡◌, ◌<◌, ℕ, IfOk, length, bytes_eq, map, slice_get, slice_index, false};
ghost use Rattle.std.specs.List.{All, Contains};
ghost use Rattle.std.specs.Option.{option_map_or};
ghost use Rattle.std.specs.Ordering.{is_lt, nat_cmp};
ghost use Rattle.std.specs.Cmp.Lexicographic.{slice_cmp};
ghost use Rattle.archive_results.specs.Results.{place_of_key};
ghost use Rattle.archive_cache.specs.Keyed.{AreBytes, IsKeyOrder, IsKeyStart, key_at, key_start, place_cmp, start_at, start_cmp};

use archive_model::Key;
use archive_results::Line;
use mail_core::Memory;
use std::alloc::Global;
use std::cmp::Ordering;
use std::marker::Model;

/// Lines of messages, and their places in the order of their keys.
#[derive(Drop)]
pub(crate) struct KeyedLines {
    lines: Vec<Line>,
    by_key: Vec<usize>,
}

impl Model for KeyedLines {
    ghost use Rattle.std.specs.Prelude.{List};
    ghost use Rattle.archive_results.specs.Shown.{Line as Shown};
    ghost use Rattle.archive_cache.specs.Keyed.{IsKeyOrder};

    ghost Value = { List Shown };

    ghost view = { λ k. k.lines.items };

    ghost invariant = { λ k. IsKeyOrder k.lines.items k.by_key.items };
}

/// The place of a line, with how its key starts.
#[derive(Clone, Copy)]
struct KeyStart {
    /// The first eight bytes of the key, as one number.
    start: u64,
    place: usize,
}

/// The key of the line at a place. Empty where no line is there.
fn key_at(lines: &[Line], place: usize) -> &str
    ensures { result.now ≡ key_at lines.entry.now place }
{
    match lines.get(place) {
        Some(line) => line.key.as_str(),
        None => "",
    }
}

/// How two places stand by the keys of their lines; those of one key by themselves.
fn compare(lines: &[Line], one: usize, other: usize) -> Ordering
    ensures { result ≡ place_cmp lines.now one other }
{
    key_at(lines, one)
        .cmp(key_at(lines, other))
        .then(one.cmp(&other))
}

/// The byte at a place of a key. Zero where the key has none there.
fn byte_at(key: &str, at: usize) -> u8
    ensures { result ≡ slice_index key.now at }
{
    key.as_bytes().get(at).copied().unwrap_or(0)
}

/// The first eight bytes of a key, as one number.
fn start_of(key: &str) -> u64
    ensures value { result ≡ key_start key.now }
    ensures bytes { AreBytes key.now }
{
    u64::from_be_bytes([
        byte_at(key, 0),
        byte_at(key, 1),
        byte_at(key, 2),
        byte_at(key, 3),
        byte_at(key, 4),
        byte_at(key, 5),
        byte_at(key, 6),
        byte_at(key, 7),
    ])
}

/// The place of a line, with how its key starts.
fn start_at(lines: &[Line], place: usize) -> KeyStart
    ensures value { result ≡ start_at lines.now place }
    ensures bytes { AreBytes (key_at lines.now place) }
{
    KeyStart {
        start: start_of(key_at(lines, place)),
        place,
    }
}

/// How two places stand by the keys of their lines. It looks at the keys only where they start alike.
fn compare_starts(lines: &[Line], one: &KeyStart, other: &KeyStart) -> Ordering
    ensures { result ≡ start_cmp lines.now one.now other.now }
{
    match one.start.cmp(&other.start) {
        Ordering::Equal => compare(lines, one.place, other.place),
        unlike => unlike,
    }
}

/// The places of some lines, each with how its key starts.
fn starts_of(alloc: Global, lines: &[Line]) -> Result<Vec<KeyStart>, Memory>
    ensures each { IfOk result (λ starts. (place : ℕ) → place < length lines.now
        → Contains starts.items (start_at lines.now place)) }
    ensures right { IfOk result (λ starts. All (IsKeyStart lines.now) starts.items) }
{
    let count = lines.len();
    let mut starts = Vec::with_capacity(alloc, count)?;
    for place in 0..count {
        starts.push(start_at(lines, place))?;
    }
    Ok(starts)
}

/// The places alone.
fn places_of(alloc: Global, starts: &[KeyStart]) -> Result<Vec<usize>, Memory>
    ensures { IfOk result (λ places. places.items ≡ map (λ s. s.place) starts.now) }
{
    let mut places = Vec::with_capacity(alloc, starts.len())?;
    for start in starts {
        places.push(start.place)?;
    }
    Ok(places)
}

/// The places of some lines in the order of their keys.
fn key_order(alloc: Global, lines: &[Line]) -> Result<Vec<usize>, Memory>
    ensures { IfOk result (λ order. IsKeyOrder lines.now order.items) }
{
    let mut starts = starts_of(alloc, lines)?;
    starts.sort_unstable_by(|one, other| compare_starts(lines, one, other));
    places_of(alloc, &starts)
}

/// Whether the line at a place stands before a key.
fn is_before(lines: &[Line], place: usize, key: &str) -> bool
    ensures { result ≡ is_lt (slice_cmp nat_cmp (key_at lines.now place) key.now) }
{
    key_at(lines, place) < key
}

/// Whether there is a line at a place, and it is that of the message of this key.
fn has_key(lines: &[Line], place: usize, key: &str) -> bool
    ensures { result ≡ option_map_or (λ l. bytes_eq l.key key.now)
        (slice_get lines.now place) false }
{
    match lines.get(place) {
        Some(line) => line.key.as_str() == key,
        None => false,
    }
}

/// What stands at a place of an order.
fn place_at(order: &[usize], at: usize) -> Option<usize>
    ensures { result ≡ slice_get order.now at }
{
    order.get(at).copied()
}

/// The place of the message of a key, by an order of the keys.
fn find(lines: &[Line], order: &[usize], key: &str) -> Option<usize>
    requires { IsKeyOrder lines.now order.now }
    ensures { result ≡ place_of_key key.now lines.now }
{
    let at = order.partition_point(|place| is_before(lines, *place, key));
    let place = place_at(order, at)?;
    if has_key(lines, place, key) {
        Some(place)
    } else {
        None
    }
}

impl KeyedLines {
    /// Some lines, so that each is found by its key.
    pub(crate) fn new(alloc: Global, lines: Vec<Line>) -> Result<KeyedLines, Memory>
        ensures { IfOk result (λ keyed. keyed ≡ lines.items) }
    {
        let by_key = key_order(alloc, &lines)?;
        Ok(KeyedLines { lines, by_key })
    }

    /// The lines, in their order.
    pub(crate) fn as_slice(&self) -> &[Line]
        ensures { result.now ≡ self.entry.now }
    {
        &self.lines
    }

    /// The place of the message of a key.
    pub(crate) fn place_of(&self, key: &Key) -> Option<usize>
        ensures { result ≡ place_of_key key.now self.now }
    {
        find(&self.lines, &self.by_key, key.as_str())
    }
}
