//! Why a text is no policy.

ghost use Rattle.policy_core.specs.declared.faults.PolicyFault.TheVariants.{Memory};

use std::alloc::{AllocError, AllocFailed};
use std::error::Error;
use std::fmt;

/// The first refusal of a policy's text. The number is the rule's, from 1 on in the order of the text; 0 stands for what
/// is outside of the rules.
#[derive(Clone, Copy, Debug, PartialEq, Eq, Drop)]
pub enum PolicyFault {
    /// P1: the text is no TOML document.
    NotToml,
    /// P2: a key that no policy has.
    UnknownKey(usize),
    /// P3: a value, or a member of an array, of another type than its key has.
    WrongType(usize),
    /// P4: a rule's `name` is no name.
    BadName(usize),
    /// P5: a rule's `name` is `default`, or that of an earlier rule.
    DuplicateName(usize),
    /// P6: a value of the right type that its key does not have, a missing `name` or `effect`, an empty array, or `from`
    /// after `until`.
    BadValue(usize),
    /// P7: more than 200 rules.
    TooManyRules,
    /// P8: no memory was left.
    Memory,
}

impl From<AllocError> for PolicyFault {
    ghost use Rattle.std.specs.Prelude.{◌≡◌};

    ghost from_gives = { λ _ fault. fault ≡ Memory };

    fn from(_error: AllocError) -> PolicyFault {
        PolicyFault::Memory
    }
}

impl<T: Drop> From<AllocFailed<T>> for PolicyFault {
    ghost use Rattle.std.specs.Prelude.{◌≡◌};

    ghost from_gives = { λ _ fault. fault ≡ Memory };

    fn from(_error: AllocFailed<T>) -> PolicyFault {
        PolicyFault::Memory
    }
}

impl fmt::Display for PolicyFault {
    fn fmt<W: fmt::Write>(&self, f: &mut fmt::Formatter<W>) -> fmt::Result {
        match self {
            PolicyFault::NotToml => write!(f, "P1 NotToml"),
            PolicyFault::UnknownKey(rule) => write!(f, "P2 UnknownKey in rule {rule}"),
            PolicyFault::WrongType(rule) => write!(f, "P3 WrongType in rule {rule}"),
            PolicyFault::BadName(rule) => write!(f, "P4 BadName in rule {rule}"),
            PolicyFault::DuplicateName(rule) => write!(f, "P5 DuplicateName in rule {rule}"),
            PolicyFault::BadValue(rule) => write!(f, "P6 BadValue in rule {rule}"),
            PolicyFault::TooManyRules => write!(f, "P7 TooManyRules"),
            PolicyFault::Memory => write!(f, "P8 Memory"),
        }
    }
}

impl Error for PolicyFault {}
