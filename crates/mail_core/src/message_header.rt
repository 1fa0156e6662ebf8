//! What a message says of itself in its header (RFC 5322 sections 3.6.1 to 3.6.5).
ghost use Rattle.std.specs.Prelude.{◌≡◌, IfOk};
ghost use Rattle.std.specs.Option.{option_copied};
ghost use Rattle.mail_core.specs.Fields.{unfolded};
ghost use Rattle.mail_core.specs.Author.{author_of_body};
ghost use Rattle.mail_core.specs.Headers.{header_of, or_empty, ids_in_field, first_id_of_list, own_id_in, references_in, sent_date_in, unfolded_subject_in};
ghost use Rattle.mail_core.specs.Gathering.{found_or_field_body, with_field};

use crate::author::key_of_field;
use crate::field_reading::{Field, next_field};
use crate::header::is_named;
use crate::id_scan::{first_id, ids};
use crate::msg_id::MsgId;
use crate::references::References;
use crate::sent_date::sent;
use crate::unfolding::unfold;
use civil_time::{Instant, Memory};
use std::alloc::Global;
use std::marker::Model;

/// The fields of a header that lists and threads of messages are made from: Message-ID, References, In-Reply-To, Date,
/// From and Subject, of each name the first. It borrows their bodies as they stand. Its calls read a field that is
/// absent as one without a body.
#[derive(Debug, Drop)]
pub struct Header<'a> {
    message_id: Option<&'a [u8]>,
    references: Option<&'a [u8]>,
    in_reply_to: Option<&'a [u8]>,
    date: Option<&'a [u8]>,
    from: Option<&'a [u8]>,
    subject: Option<&'a [u8]>,
}

impl<'a> Model for Header<'a> {
    ghost use Rattle.std.specs.Option.{option_copied};
    ghost use Rattle.mail_core.specs.Headers.{Header as Bodies};

    ghost Value = { Bodies };

    ghost view = { λ s. record {
      message_id = option_copied s.message_id;
      references = option_copied s.references;
      in_reply_to = option_copied s.in_reply_to;
      date = option_copied s.date;
      from = option_copied s.from;
      subject = option_copied s.subject;
    } };
}

/// The body that was found before, and else that of this field, where it has the name.
fn or_body<'a>(found: Option<&'a [u8]>, field: &Field<'a>, name: &[u8]) -> Option<&'a [u8]>
    ensures { option_copied result ≡ found_or_field_body name.now field.now (option_copied found.entry) }
{
    match found {
        Some(body) => Some(body),
        None => {
            if is_named(field, name) {
                Some(field.body)
            } else {
                None
            }
        }
    }
}

impl<'a> Header<'a> {
    /// The header of a message, by one pass over its lines. Bytes behind the first empty line are not read. It takes no
    /// memory.
    pub fn of(text: &'a [u8]) -> Header<'a>
        ensures { result ≡ header_of text.entry.now }
    {
        let mut found = Header {
            message_id: None,
            references: None,
            in_reply_to: None,
            date: None,
            from: None,
            subject: None,
        };
        let mut rest = text;
        while let Some((field, after)) = next_field(rest) {
            found = found.with(&field);
            rest = after;
        }
        found
    }

    /// What was found, and this field where it is the first of its name.
    fn with(self, field: &Field<'a>) -> Header<'a>
        ensures { result ≡ with_field field.now self.entry }
    {
        Header {
            message_id: or_body(self.message_id, field, b"message-id"),
            references: or_body(self.references, field, b"references"),
            in_reply_to: or_body(self.in_reply_to, field, b"in-reply-to"),
            date: or_body(self.date, field, b"date"),
            from: or_body(self.from, field, b"from"),
            subject: or_body(self.subject, field, b"subject"),
        }
    }

    /// The message's own identity: the first of its Message-ID field, if there is one. `Memory` where no memory is left.
    pub fn own_id(&self, alloc: Global) -> Result<Option<MsgId>, Memory>
        ensures { IfOk result (λ id. id ≡ own_id_in self.now) }
    {
        first_id_in(alloc, self.message_id)
    }

    /// The identities that the message refers to: all of its References field; where that has none, the first of its
    /// In-Reply-To field alone (RFC 5256 section 3). `Memory` where no memory is left.
    pub fn references(&self, alloc: Global) -> Result<References, Memory>
        ensures { IfOk result (λ references. references ≡ references_in self.now) }
    {
        let mut references = ids_in(alloc, self.references)?;
        if references.is_empty() {
            if let Some(id) = first_id_in(alloc, self.in_reply_to)? {
                references.push(&id.borrowed())?;
            }
        }
        Ok(references)
    }

    /// When the message was sent, by its Date field: as `sent` reads it. It takes no memory.
    pub fn sent(&self, arrival: Instant) -> Instant
        ensures { result ≡ sent_date_in self.now arrival }
    {
        sent(self.date.unwrap_or(b""), arrival)
    }

    /// The subject without the line ends that fold it. `Memory` where no memory is left.
    pub fn unfolded_subject(&self, alloc: Global) -> Result<Vec<u8>, Memory>
        ensures { IfOk result (λ subject. subject.items ≡ unfolded_subject_in self.now) }
    {
        unfold_field(alloc, self.subject)
    }

    /// The author's key, as `author_key` makes it. `Memory` where no memory is left.
    pub fn author_key(&self, alloc: Global) -> Result<Vec<u8>, Memory>
        ensures { IfOk result (λ key. key.items ≡ author_of_body self.now.from) }
    {
        key_of_field(alloc, self.from)
    }
}

/// The unfolded body of a field, empty where it is absent.
fn unfold_field(alloc: Global, body: Option<&[u8]>) -> Result<Vec<u8>, Memory>
    ensures { IfOk result (λ text. text.items ≡ unfolded (or_empty (option_copied body.entry))) }
{
    unfold(alloc, body.unwrap_or(b""))
}

/// The identities in a field.
fn ids_in(alloc: Global, body: Option<&[u8]>) -> Result<References, Memory>
    ensures { IfOk result (λ found. found ≡ ids_in_field (option_copied body.entry)) }
{
    let text = unfold_field(alloc, body)?;
    ids(alloc, text.as_slice())
}

/// The first identity in a field.
fn first_id_in(alloc: Global, body: Option<&[u8]>) -> Result<Option<MsgId>, Memory>
    ensures { IfOk result (λ id. id ≡ first_id_of_list (ids_in_field (option_copied body.entry))) }
{
    let text = unfold_field(alloc, body)?;
    first_id(alloc, text.as_slice())
}
