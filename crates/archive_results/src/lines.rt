//! What a list shows of one message, and a row of a thread.
ghost use Rattle.std.specs.Prelude.{◌≡◌, IfOk};

use archive_model::Key;
use civil_time::Instant;
use mail_core::Memory;
use std::alloc::Global;
use std::marker::Model;

/// A message in a list.
#[derive(Drop)]
pub struct Line {
    /// The message's key, under which its page stands.
    pub key: Key,
    /// The sent date (RFC 5256, section 2.2).
    pub sent: Instant,
    /// The author key, in ASCII lower case; empty where there is no From field.
    pub author: Vec<u8>,
    /// The subject, unfolded and without the spaces and tabs at its ends; empty where there is no Subject field.
    pub subject: Vec<u8>,
}

impl Model for Line {
    ghost use Rattle.archive_results.specs.Shown.{Line as Shown};

    ghost Value = { Shown };

    ghost view = { λ l. record { key = l.key; sent = l.sent; author = l.author.items; subject = l.subject.items } };
}

impl Line {
    /// The same line once more. `Memory` where no memory is left.
    pub fn try_clone(&self, alloc: Global) -> Result<Line, Memory>
        ensures { IfOk result (λ own. own ≡ self.now) }
    {
        Ok(Line {
            key: self.key,
            sent: self.sent,
            author: self.author.to_vec(alloc)?,
            subject: self.subject.to_vec(alloc)?,
        })
    }
}

/// A row of a thread: how deep it stands, 0 at the top, and its message's line. `None` stands for a message that is missing.
#[derive(Drop)]
pub struct TreeLine {
    /// 0 at the top.
    pub depth: usize,
    /// `None`: the message is missing.
    pub line: Option<Line>,
}

impl Model for TreeLine {
    ghost use Rattle.archive_results.specs.Results.{TreeLine as Shown};

    ghost Value = { Shown };

    ghost view = { λ t. record { depth = t.depth; line = t.line } };
}
