//! All that a message says of itself, in one reading.
ghost use Rattle.std.specs.Prelude.{◌≡◌, ◌≢◌, ◌⊎◌, ◌↔◌, ◌++◌, false, pos, OnOk, IfOk, IfErr};
ghost use Rattle.std.specs.Ordering.{int_eq};
ghost use Rattle.civil_time.specs.Calendar.{is_instant};
ghost use Rattle.mail_core.specs.Headers.{sent_date_in};
ghost use Rattle.luvazhimba_c.specs.Fields.{unfolded_from_of, field_texts, field_text_lengths, field_numbers, HoldMessageFields, LacksRoomForFields};
ghost use Rattle.luvazhimba_c.specs.Numbers.{luv_done, luv_no_room, luv_no_memory, luv_no_instant, luv_too_long, refusal_number, IsArrayTooLong};

use crate::ids::Texts;
use crate::outputs::put;
use crate::refusals::{DONE, Refusal, is_too_long};
use civil_time::{Instant, Memory};
use mail_core::{Header, first, unfold};
use std::alloc::Global;

/// What a message says of itself, in numbers.
#[repr(C)]
#[derive(Clone, Copy)]
pub struct LuvFields {
    /// When it was sent, in seconds since 1970-01-01 00:00:00 UTC; when it arrived, where its Date field is no date.
    pub sent: i64,
    /// 1 where the message has an id of its own, else 0.
    pub own: usize,
    /// How many texts it has: its subject, its From, and its ids.
    pub count: usize,
    /// How long these are together, in bytes.
    pub len: usize,
    /// Whether its Date field says when it was sent.
    pub is_dated: bool,
}

/// Whether a Date field says when a message was sent, which arrived then and was sent at this instant.
fn is_dated(header: &Header<'_>, arrival: Instant, sent: Instant) -> bool
    requires { sent ≡ sent_date_in header.now arrival }
    ensures { result ≡ int_eq (sent_date_in header.now (pos 0)) (sent_date_in header.now (pos 1)) }
{
    if sent.seconds() != arrival.seconds() {
        return true;
    }
    let (Some(one), Some(other)) = (Instant::new(0), Instant::new(1)) else {
        return false;
    };
    header.sent(one).seconds() == header.sent(other).seconds()
}

/// The unfolded body of a message's From field, empty where it has none.
fn unfolded_from(alloc: Global, message: &[u8]) -> Result<Vec<u8>, Memory>
    ensures { IfOk result (λ from. from.items ≡ unfolded_from_of message.now) }
{
    unfold(alloc, first(message, b"from").unwrap_or(b""))
}

/// Puts the texts of a message behind others, and says the rest of what it says of itself, where it arrived then.
pub(crate) fn push_fields(
    alloc: Global,
    texts: &mut Texts,
    message: &[u8],
    arrival: Instant,
) -> Result<LuvFields, Memory>
    ensures bytes { OnOk result (texts.new.bytes.items ≡ texts.old.bytes.items ++ field_texts message.now) }
    ensures lens { OnOk result (texts.new.lens.items ≡ texts.old.lens.items ++ field_text_lengths message.now) }
    ensures numbers { IfOk result (λ found. found ≡ field_numbers message.now arrival) }
{
    let (count, len) = (texts.lens.len(), texts.bytes.len());
    let header = Header::of(message);
    texts.push_text(&header.unfolded_subject(alloc)?)?;
    texts.push_text(&unfolded_from(alloc, message)?)?;
    let own = texts.push_ids(alloc, &header)?;
    let sent = header.sent(arrival);
    Ok(LuvFields {
        sent: sent.seconds(),
        own,
        count: texts.lens.len() - count,
        len: texts.bytes.len() - len,
        is_dated: is_dated(&header, arrival, sent),
    })
}

/// All that a message says of itself that arrived then: the texts of its Subject and its From field (RFC 5322, sections 3.6.5 and
/// 3.6.2), unfolded, and of its ids, as `luv_message_ids` has them, written to the front of `texts`, one behind the other; how long
/// each is, to the front of `lens`; and `found`, which says when it was sent, as `luv_sent_date` has it, and whether its Date field says
/// so, whether an id of its own comes first, how many texts there are, and how long they are together. It refuses where the arrival lies outside the years 1900 to
/// 9998, where an array has no room, and then `found` says how much is wanted, where the message is too long, and where a growth of
/// memory is refused.
#[unsafe(no_mangle)]
pub extern "C" fn luv_fields(
    alloc: Global,
    message: &[u8],
    arrival: i64,
    texts: &mut [u8],
    lens: &mut [usize],
    found: &mut LuvFields,
) -> u8
    ensures fields { result ≡ luv_done → HoldMessageFields message.now arrival texts.new lens.new found.new }
    ensures no_room { result ≡ luv_no_room → LacksRoomForFields message.now arrival texts.old lens.old found.new }
    ensures no_instant { (result ≡ luv_no_instant) ↔ (is_instant arrival ≡ false) × ¬ IsArrayTooLong message.now }
    ensures too_long { (result ≡ luv_too_long) ↔ IsArrayTooLong message.now }
    ensures refused { result ≢ luv_done → (result ≡ luv_no_room) ⊎ (result ≡ luv_no_memory) ⊎ (result ≡ luv_no_instant) ⊎ (result ≡ luv_too_long) }
{
    if is_too_long(message) {
        return Refusal::TooLong.number();
    }
    let Some(arrival) = Instant::new(arrival) else {
        return Refusal::Arrival.number();
    };
    match write_fields(alloc, message, arrival, texts, lens, found) {
        Ok(()) => DONE,
        Err(refusal) => refusal.number(),
    }
}

fn write_fields(
    alloc: Global,
    message: &[u8],
    arrival: Instant,
    texts: &mut [u8],
    lens: &mut [usize],
    found: &mut LuvFields,
) -> Result<(), Refusal>
    ensures fields { OnOk result (HoldMessageFields message.now arrival texts.new lens.new found.new) }
    ensures no_room { IfErr result (λ e. refusal_number e ≡ luv_no_room → LacksRoomForFields message.now arrival texts.old lens.old found.new) }
    ensures refused { IfErr result (λ e. (refusal_number e ≡ luv_no_room) ⊎ (refusal_number e ≡ luv_no_memory)) }
{
    let mut said = Texts::new(alloc);
    *found = push_fields(alloc, &mut said, message, arrival)?;
    put(texts, &said.bytes)?;
    put(lens, &said.lens)
}
