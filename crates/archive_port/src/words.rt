//! What becomes of a message that is added.
ghost use Rattle.std.specs.Prelude.{◌≡◌};

/// What becomes of a message that is added: it is taken in, or the list holds its key already and nothing changes.
#[derive(Clone, Copy, Debug, PartialEq, Eq, Hash)]
pub enum Added {
    New,
    Known,
}

impl Added {
    ghost use Rattle.archive_port.specs.Words.{new_or_known};

    /// Returns `Known` if the list held the message, else `New`.
    pub fn of(is_held: bool) -> Added
        ensures { result ≡ new_or_known is_held }
    {
        if is_held { Added::Known } else { Added::New }
    }
}
