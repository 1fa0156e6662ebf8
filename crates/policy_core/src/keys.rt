//! The keys of a rule.
ghost use Rattle.std.specs.Prelude.{◌≡◌};
ghost use Rattle.policy_core.specs.Written.{is_condition_key, is_rule_key, key_row};

/// The key of a condition.
#[derive(Clone, Copy)]
pub(crate) enum Key {
    Lists,
    Standings,
    Withdrawn,
    Embargo,
    AgeMin,
    From,
    Until,
    Own,
}

/// The keys of conditions, in the order in which they are tested.
pub(crate) const KEYS: [Key; 8] = [
    Key::Lists,
    Key::Standings,
    Key::Withdrawn,
    Key::Embargo,
    Key::AgeMin,
    Key::From,
    Key::Until,
    Key::Own,
];

impl Key {
    /// As it is written in a policy.
    pub(crate) fn word(self) -> &'static str
        ensures { result.now ≡ (key_row self).word }
    {
        match self {
            Key::Lists => "lists",
            Key::Standings => "standings",
            Key::Withdrawn => "withdrawn",
            Key::Embargo => "embargo",
            Key::AgeMin => "age_min",
            Key::From => "from",
            Key::Until => "until",
            Key::Own => "own",
        }
    }
}

/// Whether a rule has this key.
pub(crate) fn is_rule_key(word: &str) -> bool
    ensures { result ≡ is_rule_key word.now }
{
    word == "name" || word == "effect" || is_condition_key(word)
}

/// Whether it is the key of a condition.
fn is_condition_key(word: &str) -> bool
    ensures { result ≡ is_condition_key word.now }
{
    KEYS.iter().any(|key| word == key.word())
}
