//! What a cutter keeps of a stream while more may be fed.
ghost use Rattle.std.specs.Prelude.{◌≡◌, ◌∷◌, ◌++◌, ◌≤◌, [], length, take, drop, Some, IfOk, OnOk, IfErr, OnErr};
ghost use Rattle.mail_core.specs.Lines.{lines};
ghost use Rattle.mbox_core.specs.Division.{NoneSeparates, DividesIntoItems, items_after_separator};
ghost use Rattle.mbox_stream.specs.Stream.{IsBeginning, settled_items};
ghost use Rattle.mbox_stream.specs.Window.{IsBeforeFirstMessage, IsOpenMessageWindow, IsSearchedUpTo};
ghost use Rattle.mbox_stream.specs.Kept.{IsWindowAtPlace, HoldsNoSettledItem, FrontHoldsNoWholeLine, OpensMessageAt, IsStopReason, IsEndStopReason, AppendsPiece};

use crate::finding::{First, Found, find_first, find_next};
use crate::gone::Gone;
use mbox_core::device::Transcript;
use mbox_core::{Envelope, Item, MboxFault, Messages, OwnedItem, cut, ends_with_newline};
use memchr::memchr;
use std::alloc::{AllocError, Global};
use std::collections::VecDeque;

/// Where the bytes that are kept stand in the stream.
#[derive(Drop)]
pub(crate) enum Place {
    /// Before the first separator line, after so many bytes of blank lines.
    Front(u64),
    /// In this message, of which the envelope is known; no separating line begins before this place of the bytes.
    Message(OwnedItem, usize),
}

/// The bytes that are not decided, and where they stand.
#[derive(Drop)]
pub(crate) struct Window {
    pub(crate) bytes: Vec<u8>,
    pub(crate) place: Place,
}

/// Why no more is taken in.
#[derive(Clone, Copy, Drop)]
pub(crate) enum Stop {
    /// The first line that is not empty begins here, and is no separator line.
    Faulty(u64),
    /// A growth was refused.
    Memory,
}

/// A message that was cut off as far as the bytes tell.
#[derive(Drop)]
struct Cut {
    head: OwnedItem,
    start: usize,
    from: usize,
}

/// The message of this envelope and text.
fn message(alloc: Global, head: &OwnedItem, text: &[u8]) -> Result<OwnedItem, AllocError>
    requires { NoneSeparates (lines text.now) }
    ensures { IfOk result (λ m. m ≡ record { envelope = head.now.envelope; text = text.now }) }
{
    let complete = ends_with_newline(text);
    OwnedItem::of(
        alloc,
        &Item {
            envelope: head.as_item().envelope,
            text,
            complete,
        },
    )
}

/// A message of which the envelope is known.
fn head_of(alloc: Global, envelope: Envelope<'_>) -> Result<OwnedItem, AllocError>
    ensures { IfOk result (λ m. m.envelope ≡ envelope.entry) }
{
    let text: &[u8] = b"";
    let complete = ends_with_newline(text);
    OwnedItem::of(
        alloc,
        &Item {
            envelope,
            text,
            complete,
        },
    )
}

/// Puts the open message behind those that wait, with this text, and opens the next one.
fn cut_one(
    alloc: Global,
    head: OwnedItem,
    text: &[u8],
    next: Envelope<'_>,
    waiting: &mut VecDeque<OwnedItem>,
) -> Result<OwnedItem, AllocError>
    requires { NoneSeparates (lines text.now) }
    ensures head { IfOk result (λ h. h.envelope ≡ next.entry) }
    ensures ok { OnOk result (waiting.new.items ≡ waiting.old.items ++ record { envelope = head.envelope; text = text.now } ∷ []) }
    ensures err { OnErr result (waiting.new.items ≡ waiting.old.items) }
{
    let whole = message(alloc, &head, text)?;
    let opened = head_of(alloc, next)?;
    match waiting.push_back(whole) {
        Ok(()) => Ok(opened),
        Err(_) => Err(AllocError),
    }
}

/// Cuts off all messages that are settled.
fn cut_settled(
    alloc: Global,
    stream: &Transcript,
    taken: &Gone,
    head: OwnedItem,
    bytes: &[u8],
    from: usize,
    waiting: &mut VecDeque<OwnedItem>,
) -> Result<Cut, AllocError>
    requires window { IsOpenMessageWindow head.envelope stream.now.bytes bytes.now (taken.now.items ++ waiting.old.items) }
    requires looked { IsSearchedUpTo bytes.now from }
    ensures ok { IfOk result (λ c. OpensMessageAt c.head.envelope stream.now.bytes bytes.now c.start c.from (taken.now.items ++ waiting.new.items)) }
    ensures err { OnErr result (IsBeginning (taken.now.items ++ waiting.new.items) (settled_items stream.now.bytes)) }
    ensures grows { IsBeginning waiting.old.items waiting.new.items }
{
    let mut head = head;
    let mut start = 0;
    let mut from = from;
    loop {
        let (_, rest) = bytes.split_at(start);
        match find_next(rest, from) {
            Found::More(from) => return Ok(Cut { head, start, from }),
            Found::Next(text, next, len) => {
                head = match cut_one(alloc, head, text, next, waiting) {
                    Ok(opened) => opened,
                    Err(refused) => return Err(refused),
                };
                start += len;
                from = 0;
            }
        }
    }
}

/// Lets the first bytes go.
fn drop_front(bytes: &mut Vec<u8>, count: usize)
    requires { count ≤ length bytes.old.items }
    ensures { bytes.new.items ≡ drop count bytes.old.items }
{
    let len = bytes.len();
    bytes.copy_within(count..len, 0);
    bytes.truncate(len - count);
}

/// The same; where none go, no byte is moved.
fn let_go(bytes: &mut Vec<u8>, count: usize)
    requires { count ≤ length bytes.old.items }
    ensures { bytes.new.items ≡ drop count bytes.old.items }
{
    match count {
        0 => {}
        _ => drop_front(bytes, count),
    }
}

/// Cuts off all messages that are settled, and keeps what follows them.
fn settle_message(
    alloc: Global,
    stream: &Transcript,
    taken: &Gone,
    head: OwnedItem,
    bytes: Vec<u8>,
    from: usize,
    waiting: &mut VecDeque<OwnedItem>,
) -> Result<Window, Stop>
    requires window { IsOpenMessageWindow head.envelope stream.now.bytes bytes.items (taken.now.items ++ waiting.old.items) }
    requires looked { IsSearchedUpTo bytes.items from }
    ensures ok { IfOk result (λ w. IsWindowAtPlace w.place w.bytes.items stream.now.bytes (taken.now.items ++ waiting.new.items)) }
    ensures settled { IfOk result (λ w. HoldsNoSettledItem w.place w.bytes.items) }
    ensures err { IfErr result (λ stop. IsStopReason stop stream.now.bytes (taken.now.items ++ waiting.new.items)) }
    ensures grows { IsBeginning waiting.old.items waiting.new.items }
{
    let mut bytes = bytes;
    let Cut { head, start, from } = match cut_settled(
        alloc, stream, taken, head, &bytes, from, waiting,
    ) {
        Ok(cut) => cut,
        Err(_) => return Err(Stop::Memory),
    };
    let_go(&mut bytes, start);
    Ok(Window {
        bytes,
        place: Place::Message(head, from),
    })
}

/// Passes over blank lines, and opens the first message where its separator line is there.
fn open_first(
    alloc: Global,
    stream: &Transcript,
    bytes: Vec<u8>,
    skipped: u64,
) -> Result<Window, Stop>
    requires { IsBeforeFirstMessage stream.now.bytes bytes.items skipped [] }
    ensures ok { IfOk result (λ w. IsWindowAtPlace w.place w.bytes.items stream.now.bytes []) }
    ensures front { IfOk result (λ w. FrontHoldsNoWholeLine w.place w.bytes.items) }
    ensures err { IfErr result (λ stop. IsStopReason stop stream.now.bytes []) }
{
    let mut bytes = bytes;
    match find_first(&bytes) {
        First::Head(envelope, at) => {
            let head = match head_of(alloc, envelope) {
                Ok(head) => head,
                Err(_) => return Err(Stop::Memory),
            };
            drop_front(&mut bytes, at);
            Ok(Window {
                bytes,
                place: Place::Message(head, 0),
            })
        }
        First::Blank(at) => {
            drop_front(&mut bytes, at);
            Ok(Window {
                bytes,
                place: Place::Front(skipped.saturating_add(at as u64)),
            })
        }
        First::Faulty(at) => Err(Stop::Faulty(skipped.saturating_add(at as u64))),
    }
}

/// Looks at the front of the file, and behind it.
fn settle_front(
    alloc: Global,
    stream: &Transcript,
    taken: &Gone,
    bytes: Vec<u8>,
    skipped: u64,
    waiting: &mut VecDeque<OwnedItem>,
) -> Result<Window, Stop>
    requires { IsBeforeFirstMessage stream.now.bytes bytes.items skipped (taken.now.items ++ waiting.old.items) }
    ensures ok { IfOk result (λ w. IsWindowAtPlace w.place w.bytes.items stream.now.bytes (taken.now.items ++ waiting.new.items)) }
    ensures settled { IfOk result (λ w. HoldsNoSettledItem w.place w.bytes.items) }
    ensures err { IfErr result (λ stop. IsStopReason stop stream.now.bytes (taken.now.items ++ waiting.new.items)) }
    ensures grows { IsBeginning waiting.old.items waiting.new.items }
{
    let Window { bytes, place } = match open_first(alloc, stream, bytes, skipped) {
        Ok(window) => window,
        Err(stop) => return Err(stop),
    };
    match place {
        Place::Front(skipped) => Ok(Window {
            bytes,
            place: Place::Front(skipped),
        }),
        Place::Message(head, from) => settle_message(
            alloc, stream, taken, head, bytes, from, waiting,
        ),
    }
}

/// Adds a piece, which the stream has already, and puts all messages that it settles behind those that wait. A piece
/// without LF settles nothing.
pub(crate) fn take_in(
    alloc: Global,
    stream: &Transcript,
    taken: &Gone,
    window: Window,
    piece: &[u8],
    waiting: &mut VecDeque<OwnedItem>,
) -> Result<Window, Stop>
    requires { AppendsPiece window.place window.bytes.items piece.now stream.now.bytes (taken.now.items ++ waiting.old.items) }
    ensures ok { IfOk result (λ w. IsWindowAtPlace w.place w.bytes.items stream.now.bytes (taken.now.items ++ waiting.new.items)) }
    ensures settled { IfOk result (λ w. HoldsNoSettledItem w.place w.bytes.items) }
    ensures err { IfErr result (λ stop. IsStopReason stop stream.now.bytes (taken.now.items ++ waiting.new.items)) }
    ensures grows { IsBeginning waiting.old.items waiting.new.items }
{
    let Window { bytes, place } = window;
    let mut bytes = bytes;
    match bytes.extend_from_slice(piece) {
        Ok(()) => {}
        Err(_) => return Err(Stop::Memory),
    }
    match memchr(b'\n', piece) {
        None => return Ok(Window { bytes, place }),
        Some(_) => {}
    }
    match place {
        Place::Front(skipped) => settle_front(alloc, stream, taken, bytes, skipped, waiting),
        Place::Message(head, from) => settle_message(
            alloc, stream, taken, head, bytes, from, waiting,
        ),
    }
}

/// Copies of these messages.
fn copies(alloc: Global, messages: Messages<'_>) -> Result<VecDeque<OwnedItem>, Stop>
    ensures ok { IfOk result (λ all. all.items ≡ messages.entry) }
    ensures err { IfErr result (λ stop. stop ≡ Stop.Memory) }
{
    let mut all = VecDeque::new(alloc);
    for item in messages {
        let copy = match OwnedItem::of(alloc, &item) {
            Ok(copy) => copy,
            Err(_) => return Err(Stop::Memory),
        };
        match all.push_back(copy) {
            Ok(()) => {}
            Err(_) => return Err(Stop::Memory),
        }
    }
    Ok(all)
}

/// The open message and those that follow it.
fn messages_of<'a>(head: &'a OwnedItem, bytes: &'a [u8]) -> Messages<'a>
    ensures { result ≡ items_after_separator (Some head.entry.now.envelope) bytes.entry.now }
{
    Messages::after(head.as_item().envelope, bytes)
}

/// The messages of the bytes that are left at the end of the stream.
pub(crate) fn last_messages(
    alloc: Global,
    stream: &Transcript,
    taken: &Gone,
    waiting: &VecDeque<OwnedItem>,
    window: Window,
) -> Result<VecDeque<OwnedItem>, Stop>
    requires { IsWindowAtPlace window.place window.bytes.items stream.now.bytes (taken.now.items ++ waiting.now.items) }
    ensures ok { IfOk result (λ last. DividesIntoItems stream.now.bytes (taken.now.items ++ (waiting.now.items ++ last.items))) }
    ensures err { IfErr result (λ stop. IsEndStopReason stop stream.now.bytes) }
{
    let Window { bytes, place } = window;
    match place {
        Place::Front(skipped) => match cut(&bytes) {
            Ok(messages) => copies(alloc, messages),
            Err(MboxFault::Preamble(at)) => Err(Stop::Faulty(skipped.saturating_add(at))),
            Err(_) => Err(Stop::Memory),
        },
        Place::Message(head, _) => copies(alloc, messages_of(&head, &bytes)),
    }
}
