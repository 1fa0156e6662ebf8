//! The words of a policy.
ghost use Rattle.std.specs.Prelude.{◌≡◌};
ghost use Rattle.policy_core.specs.Written.{standing_named, withdrawal_named, effect_named};

use crate::access::{Standing, Withdrawn};

/// What a word of an array means.
pub(crate) trait Word: Sized + Drop {
    ghost use Rattle.std.specs.Prelude.{ℕ, List, Option};

    ghost named: { List ℕ → Option Self };

    /// What the word means, if it is one.
    fn named(word: &str) -> Option<Self>
        ensures { result ≡ named word.now };
}

impl Word for Standing {
    ghost named = { standing_named };

    fn named(word: &str) -> Option<Standing> {
        match word {
            "public" => Some(Standing::Public),
            "member" => Some(Standing::Member),
            "subscriber" => Some(Standing::Subscriber),
            "moderator" => Some(Standing::Moderator),
            _ => None,
        }
    }
}

impl Word for Withdrawn {
    ghost named = { withdrawal_named };

    fn named(word: &str) -> Option<Withdrawn> {
        match word {
            "no" => Some(Withdrawn::No),
            "author" => Some(Withdrawn::Author),
            "board" => Some(Withdrawn::Board),
            _ => None,
        }
    }
}

/// Whether the effect of this word allows.
pub(crate) fn effect_named(word: &str) -> Option<bool>
    ensures { result ≡ effect_named word.now }
{
    match word {
        "allow" => Some(true),
        "deny" => Some(false),
        _ => None,
    }
}
