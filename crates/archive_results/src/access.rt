//! What a policy says of a message.
ghost use Rattle.std.specs.Prelude.{◌≡◌, ℕ, List, Bool, None, false, IfOk, IsOk, option_map, string_bytes};
ghost use Rattle.policy_core.specs.Verdict.{ruling_of_verdict};
ghost use Rattle.archive_model.specs.Messages.{archived_message};
ghost use Rattle.archive_model.specs.Records.{Message as Remembered};
ghost use Rattle.archive_results.specs.Access.{is_own_by_address, message_facts, ruling_on, is_shown, is_withheld, asks_author, asked_of_message, spec_asked};

use crate::asking::{Ask, Asked};
use archive_model::Message;
use civil_time::{Day, Instant};
use mail_core::{Memory, author_key};
use policy_core::{Facts, Standing, Verdict, Withdrawn};
use std::alloc::Global;
use std::marker::Model;

/// What a policy asks of a reader: the standing on the list and the day, and the address of a person who has one.
#[derive(Drop)]
pub struct ReaderFacts {
    /// On the list, on the day.
    pub standing: Standing,
    /// In ASCII lower case. `None` for nobody in particular, and for a person without one.
    pub address: Option<String>,
}

impl Model for ReaderFacts {
    ghost use Rattle.std.specs.Prelude.{option_map, string_bytes};
    ghost use Rattle.archive_results.specs.Access.{ReaderFacts as Reading};

    ghost Value = { Reading };

    ghost view = { λ r. record { standing = r.standing; address = option_map string_bytes r.address } };
}

/// What a policy asks of a message: when it came, who withdrew it, the day up to which it is held back, and whether it is the
/// reader's own.
#[derive(Clone, Copy)]
pub struct MessageFacts {
    /// When it came.
    pub arrival: Instant,
    /// Who withdrew it.
    pub withdrawn: Withdrawn,
    /// The day up to which it is held back.
    pub embargo_until: Option<Day>,
    /// Whether the reader wrote it.
    pub own: bool,
}

impl Model for MessageFacts {
    ghost use Rattle.archive_results.specs.Access.{MessageFacts as Facts};

    ghost Value = { Facts };

    ghost view = { λ m. record { arrival = m.arrival; withdrawn = m.withdrawn; embargo_until = m.embargo_until; own = m.own } };

    ghost inverse = { λ m. record { arrival = m.arrival; withdrawn = m.withdrawn; embargo_until = m.embargo_until; own = m.own } };
}

/// Whether a message is the own one of a reader with this address. It takes memory only where there is one.
fn is_own(alloc: Global, address: &Option<String>, message: &Message) -> Result<bool, Memory>
    ensures own { (list : List ℕ)
        → IfOk result (λ own. own ≡ is_own_by_address (option_map string_bytes address.now)
        (archived_message list message.now)) }
    ensures free { address.now ≡ None → IsOk result }
{
    let Some(address) = address else {
        return Ok(false);
    };
    let key = author_key(alloc, message.item.as_item().text)?;
    Ok(address.as_bytes() == key.as_slice())
}

/// The marks of a message that is the reader's own or is not.
#[tactic(auto, unfolding(crate::specs::Access::message_facts))]
fn marks_with(own: bool, message: &Message) -> MessageFacts
    ensures { (list : List ℕ)
        → result ≡ record (message_facts None (archived_message list message.now)) { own = own } }
{
    MessageFacts {
        arrival: message.item.as_item().envelope.arrival,
        withdrawn: message.withdrawn,
        embargo_until: message.embargo_until,
        own,
    }
}

/// What a policy asks of a message, where the reader has this address. `Memory` where no memory is left for the author key,
/// which is made only where there is an address.
pub fn message_facts(
    alloc: Global,
    address: &Option<String>,
    message: &Message,
) -> Result<MessageFacts, Memory>
    ensures marks { (list : List ℕ)
        → IfOk result (λ marks. marks ≡ message_facts (option_map string_bytes address.now)
        (archived_message list message.now)) }
    ensures free { address.now ≡ None → IsOk result }
{
    let own = is_own(alloc, address, message)?;
    Ok(marks_with(own, message))
}

/// What the policy says of a message of these marks to a reader of these. It takes no memory.
#[tactic(auto, unfolding(crate::specs::Access::ruling_on))]
pub fn verdict<'a>(ask: &Ask<'a>, reader: &ReaderFacts, marks: MessageFacts) -> Verdict<'a>
    ensures { ruling_of_verdict result ≡ ruling_on ask.now reader.now marks }
{
    let facts = Facts {
        list: ask.list,
        standing: reader.standing,
        day: ask.day,
        arrival_day: marks.arrival.day(),
        withdrawn: marks.withdrawn,
        embargo_until: marks.embargo_until,
        own: marks.own,
    };
    ask.policy.verdict(&facts)
}

/// What the policy says of a message to a reader of these marks. No From field is read where no rule asks whether the message is
/// the reader's own, and none where the reader has no address.
fn judge<'a>(
    alloc: Global,
    ask: &Ask<'a>,
    reader: &ReaderFacts,
    message: &Message,
) -> Result<Verdict<'a>, Memory>
    ensures said { (list : List ℕ) → IfOk result (λ verdict.
        ruling_of_verdict verdict ≡ ruling_on ask.now reader.now
        (message_facts reader.now.address (archived_message list message.now))) }
    ensures free { asks_author ask.now reader.now ≡ false → IsOk result }
{
    if !ask.policy.asks_own() {
        return Ok(verdict(ask, reader, marks_with(false, message)));
    }
    let marks = message_facts(alloc, &reader.address, message)?;
    Ok(verdict(ask, reader, marks))
}

/// Whether who wrote a message matters to this reader: a rule asks whether it is the reader's own, and the reader has an address.
/// Where it does not, a message that is not the reader's own is judged as any other of its marks.
pub fn asks_author(ask: &Ask<'_>, reader: &ReaderFacts) -> bool
    ensures value { result ≡ asks_author ask.now reader.now }
    ensures alike { result ≡ false → (m : Remembered)
        → ruling_on ask.now reader.now (record (message_facts None m)
        { own = false }) ≡ ruling_on ask.now reader.now (message_facts reader.now.address m) }
{
    ask.policy.asks_own() && reader.address.is_some()
}

/// Whether the policy denies a message of these marks to a reader of these, whatever its text is. It says so of none where who
/// wrote it matters, and takes no memory.
pub fn is_withheld(ask: &Ask<'_>, reader: &ReaderFacts, marks: MessageFacts) -> bool
    ensures { (m : Remembered) → marks ≡ record (message_facts None m) { own = false }
        → result ≡ is_withheld ask.now reader.now m }
{
    if asks_author(ask, reader) {
        return false;
    }
    match verdict(ask, reader, marks) {
        Verdict::Allowed(_) => false,
        Verdict::Denied(_) => true,
    }
}

/// Whether the policy allows a message to a reader of these marks. `Memory` where no memory is left for the author key, which is
/// made only where a rule asks whether the message is the reader's own and the reader has an address.
pub fn is_shown(
    alloc: Global,
    ask: &Ask<'_>,
    reader: &ReaderFacts,
    message: &Message,
) -> Result<bool, Memory>
    ensures shown { (list : List ℕ)
        → IfOk result (λ shown. shown ≡ is_shown ask.now reader.now (archived_message list message.now)) }
    ensures free { asks_author ask.now reader.now ≡ false → IsOk result }
{
    match judge(alloc, ask, reader, message)? {
        Verdict::Allowed(_) => Ok(true),
        Verdict::Denied(_) => Ok(false),
    }
}

/// What a reader of these marks gets who asks for a message that the list holds, or for one that it does not hold. `Memory`
/// where no memory is left for its text, or for its author key.
pub fn lookup_message<'a>(
    alloc: Global,
    ask: &Ask<'a>,
    reader: &ReaderFacts,
    held: &Option<Message>,
) -> Result<Asked<'a>, Memory>
    ensures { (list : List ℕ) → IfOk result (λ asked.
        spec_asked asked ≡ asked_of_message ask.now reader.now (option_map (archived_message list) held.now)) }
{
    let Some(message) = held else {
        return Ok(Asked::Absent);
    };
    match judge(alloc, ask, reader, message)? {
        Verdict::Allowed(_) => Ok(Asked::Served(message.item.as_item().text.to_vec(alloc)?)),
        Verdict::Denied(rule) => Ok(Asked::Denied(rule)),
    }
}
