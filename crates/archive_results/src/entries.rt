//! What the header of a message says. Each call reads the header once, and no byte behind it.
ghost use Rattle.std.specs.Prelude.{◌≡◌, IfOk};
ghost use Rattle.mail_core.specs.Author.{author_of_body, trimmed};
ghost use Rattle.mail_core.specs.Headers.{own_id_in, references_in};
ghost use Rattle.subject_core.specs.BaseSubject.{base_subject_of, is_reply};

use crate::lines::Line;
use archive_model::Key;
use civil_time::Instant;
use mail_core::{Header as Fields, Memory, trimmed};
use std::alloc::Global;
use subject_core::base;
use thread_core::Entry;

/// What these fields say about threads, in a message of this sent date and unfolded subject.
pub(crate) fn entry_in(
    alloc: Global,
    fields: &Fields<'_>,
    sent: Instant,
    subject: &[u8],
) -> Result<Entry, Memory>
    ensures { IfOk result (λ entry. entry ≡ record {
      id = own_id_in fields.now;
      refs = references_in fields.now;
      sent = sent;
      base = base_subject_of subject.now;
      reply = is_reply subject.now;
    }) }
{
    let id = fields.own_id(alloc)?;
    let refs = fields.references(alloc)?;
    let base = base(alloc, subject)?;
    Ok(Entry {
        id,
        refs,
        sent,
        base: base.text,
        reply: base.reply,
    })
}

/// The line of a message of this key and these fields, of this sent date and unfolded subject.
pub(crate) fn line_in(
    alloc: Global,
    key: Key,
    fields: &Fields<'_>,
    sent: Instant,
    subject: &[u8],
) -> Result<Line, Memory>
    ensures { IfOk result (λ line. line ≡ record {
      key = key;
      sent = sent;
      author = author_of_body fields.now.from;
      subject = trimmed subject.now;
    }) }
{
    let author = fields.author_key(alloc)?;
    let subject = trimmed(subject).to_vec(alloc)?;
    Ok(Line {
        key,
        sent,
        author,
        subject,
    })
}
