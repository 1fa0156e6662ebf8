//! The messages of an mbox, by their places.
ghost use Rattle.std.specs.Prelude.{◌≡◌, ◌≢◌, ◌<◌, ◌≤◌, ◌+◌, ◌^◌, ◌++◌, ◌∷◌, [], ◌⊎◌, ◌↔◌, ℕ, List, length, take, drop};
ghost use Rattle.std.specs.List.{AllByRecursion};
ghost use Rattle.mail_core.specs.Lines.{lines};
ghost use Rattle.mbox_core.specs.Division.{Item as Message, IsBlankLine, AreBlocks, DividesIntoItems, IsPreamble};
ghost use Rattle.mbox_core.specs.Faults.{IsCutFault};
ghost use Rattle.luvazhimba_c.specs.Numbers.{luv_done, luv_no_room, luv_no_mbox, luv_too_long, IsArrayTooLong};
ghost use Rattle.luvazhimba_c.specs.Places.{IsMessageAtOffset, AreMessagesFromOffset, ArePlacesOfMessages, HasNoBlankFirstLine};

use crate::messages::LuvMessage;
use crate::refusals::{DONE, Refusal, is_too_long};
use mail_core::lines::{line_content, line_end};
use mbox_core::{Item, MboxFault, Messages, cut};

/// The length of the line that begins there, 0 at the end.
fn line_len(bytes: &[u8], at: usize) -> usize
    requires { at ≤ length bytes.now }
    ensures within { at + result ≤ length bytes.now }
    ensures line { at < length bytes.now
        → lines (drop at bytes.now) ≡ take result (drop at bytes.now) ∷ lines (drop (at + result) bytes.now) }
    ensures some { at < length bytes.now → 0 < result }
    ensures end { length bytes.now ≤ at → result ≡ 0 }
{
    if at == bytes.len() {
        return 0;
    }
    line_end(&bytes[at..])
}

/// Where the first line begins that is not empty.
fn first_line(bytes: &[u8]) -> usize
    ensures within { result ≤ length bytes.now }
    ensures cut { lines bytes.now ≡ lines (take result bytes.now) ++ lines (drop result bytes.now) }
    ensures blank { AllByRecursion IsBlankLine (lines (take result bytes.now)) }
    ensures unblank { HasNoBlankFirstLine (lines (drop result bytes.now)) }
{
    let mut at = 0;
    while at < bytes.len() {
        let here = &bytes[at..];
        let len = line_end(here);
        let (line, _) = here.split_at(len);
        if !line_content(line).is_empty() {
            return at;
        }
        at += len;
    }
    at
}

/// How long the text of a message is, and when it arrived.
fn len_and_arrival(item: &Item<'_>) -> (usize, i64)
    ensures len { result.0 ≡ length item.now.text }
    ensures short { result.0 < 2 ^ 63 }
    ensures arrival { result.1 ≡ item.now.envelope.arrival }
{
    (item.text.len(), item.envelope.arrival.seconds())
}

/// Where a message stands whose separator line begins at `at`, and where the next one begins.
fn place_of(bytes: &[u8], at: usize, item: &Item<'_>) -> (LuvMessage, usize)
    requires low { at ≤ length bytes.now }
    requires blocks { (rest : List Message) × AreBlocks (item.now ∷ rest) (lines (drop at bytes.now)) }
    ensures stands { IsMessageAtOffset bytes.now at item.now result.0 result.1 }
    ensures later { (rest : List Message) → AreBlocks (item.now ∷ rest) (lines (drop at bytes.now))
        → AreBlocks rest (lines (drop result.1 bytes.now)) }
    ensures on { (at < result.1) × (result.1 ≤ length bytes.now) }
{
    let heading = line_len(bytes, at);
    let start = at + heading;
    let (text, arrival) = len_and_arrival(item);
    let end = start + text;
    let blank = line_len(bytes, end);
    (
        LuvMessage {
            start,
            end,
            arrival,
        },
        end + blank,
    )
}

/// Writes a place to an array, where that has room for it.
fn put_at(to: &mut [LuvMessage], at: usize, place: LuvMessage)
    ensures len { length to.new ≡ length to.old }
    ensures put { at < length to.old → take (at + 1) to.new ≡ take at to.old ++ place ∷ [] }
{
    if at < to.len() {
        to[at] = place;
    }
}

/// Writes to the front of an array where the messages stand whose separator lines begin at `at`, as many as it has room for, and
/// says how many messages there are.
fn put_places(bytes: &[u8], at: usize, messages: Messages<'_>, to: &mut [LuvMessage]) -> usize
    requires low { at ≤ length bytes.now }
    requires blocks { AreBlocks messages (lines (drop at bytes.now)) }
    ensures count { result ≡ length messages.entry }
    ensures stand { result ≤ length to.old → AreMessagesFromOffset bytes.now at messages.entry (take result to.new) }
{
    let mut next = at;
    let mut count = 0;
    for item in messages {
        let (place, behind) = place_of(bytes, next, &item);
        put_at(to, count, place);
        next = behind;
        count += 1;
    }
    count
}

/// Writes where the line begins that makes bytes no mbox; it says what the call answers.
pub(crate) fn answer_fault(fault: MboxFault, count: &mut usize) -> u8
    ensures number { result ≡ luv_no_mbox }
    ensures offset { (bytes : List ℕ) → IsCutFault bytes fault → IsPreamble bytes count.new }
{
    if let MboxFault::Preamble(offset) = fault {
        *count = offset as usize;
    }
    Refusal::Mbox.number()
}

/// The messages of an mbox (RFC 4155), written to the front of `messages`, in order; `count` is how many they are. It takes no
/// memory. It refuses just where `messages` has no room for them, where the mbox is too long, and where the first line that is not
/// empty is no separator line, and then `count` is where that line begins.
#[unsafe(no_mangle)]
pub extern "C" fn luv_cut(mbox: &[u8], messages: &mut [LuvMessage], count: &mut usize) -> u8
    ensures messages { result ≡ luv_done → ArePlacesOfMessages mbox.now (take count.new messages.new) × (count.new ≤ length messages.old) }
    ensures no_room { result ≡ luv_no_room
        → (items : List Message) × DividesIntoItems mbox.now items × (count.new ≡ length items) × (length messages.old < count.new) }
    ensures no_mbox { result ≡ luv_no_mbox → IsPreamble mbox.now count.new }
    ensures too_long { (result ≡ luv_too_long) ↔ IsArrayTooLong mbox.now }
    ensures refused { result ≢ luv_done → (result ≡ luv_no_room) ⊎ (result ≡ luv_no_mbox) ⊎ (result ≡ luv_too_long) }
{
    if is_too_long(mbox) {
        return Refusal::TooLong.number();
    }
    match cut(mbox) {
        Ok(found) => {
            *count = put_places(mbox, first_line(mbox), found, messages);
            if *count > messages.len() {
                return Refusal::NoRoom.number();
            }
            DONE
        }
        Err(fault) => answer_fault(fault, count),
    }
}
