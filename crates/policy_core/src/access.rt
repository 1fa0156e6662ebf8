//! What is asked of a policy, and what it answers.
ghost use Rattle.std.specs.Prelude.{◌≡◌};
ghost use Rattle.policy_core.specs.Facts.{is_embargoed, age, rank_of_standing};
ghost use Rattle.policy_core.specs.Numbers.{grant_kind_rank, withdrawn_by_number};
ghost use Rattle.policy_core.specs.Written.{standing_named};

use crate::words::Word;
use civil_time::Day;
use std::marker::Model;

/// The longest age that a policy or a command can ask for, in days.
pub const MOST_DAYS: i64 = 36_500;

/// What a reader is to a list, from the least to the most. Who has no grant on the list is `Public`.
#[derive(Clone, Copy, Debug, PartialEq, Eq, PartialOrd, Ord, Hash)]
pub enum Standing {
    Public,
    Member,
    Subscriber,
    Moderator,
}

impl Standing {
    /// The standing of this word: `public`, `member`, `subscriber` or `moderator`. `None` for another word.
    pub fn read(word: &str) -> Option<Standing>
        ensures { result ≡ standing_named word.now }
    {
        Standing::named(word)
    }

    /// Its place among the standings, from 0 for `Public` to 3 for `Moderator`.
    pub fn rank(self) -> u8
        ensures { result ≡ rank_of_standing self }
    {
        match self {
            Standing::Public => 0,
            Standing::Member => 1,
            Standing::Subscriber => 2,
            Standing::Moderator => 3,
        }
    }
}

/// What a grant makes of a person on a list: one of the standings above `Public`.
#[derive(Clone, Copy, Debug, PartialEq, Eq, Hash)]
pub enum GrantKind {
    Member,
    Subscriber,
    Moderator,
}

impl GrantKind {
    /// The rank of the standing that it gives, from 1 for `Member` to 3 for `Moderator`.
    pub fn rank(self) -> i64
        ensures { result ≡ grant_kind_rank self }
    {
        match self {
            GrantKind::Member => 1,
            GrantKind::Subscriber => 2,
            GrantKind::Moderator => 3,
        }
    }
}

/// Who withdraws a message: its author, or the list's board.
#[derive(Clone, Copy, Debug, PartialEq, Eq, Hash)]
pub enum WithdrawnBy {
    Author,
    Board,
}

impl WithdrawnBy {
    /// 1 for `Author`, 2 for `Board`.
    pub fn number(self) -> i64
        ensures { result ≡ withdrawn_by_number self }
    {
        match self {
            WithdrawnBy::Author => 1,
            WithdrawnBy::Board => 2,
        }
    }
}

/// Whether a message is withdrawn, and by whom: its author, or the list's board.
#[derive(Clone, Copy, Debug, PartialEq, Eq, Hash)]
pub enum Withdrawn {
    No,
    Author,
    Board,
}

/// A question to a policy: may this reader read this message on this day?
#[derive(Debug, Drop)]
pub struct Facts<'a> {
    /// The name of the message's list.
    pub list: &'a str,
    /// The reader's standing on that list, on the reading day.
    pub standing: Standing,
    /// The reading day.
    pub day: Day,
    /// The day, in UTC, on which the message arrived.
    pub arrival_day: Day,
    /// Whether the message is withdrawn.
    pub withdrawn: Withdrawn,
    /// The day on which the message's embargo ends, if it has one: it is on before this day.
    pub embargo_until: Option<Day>,
    /// Whether the message is the reader's own: the reader is a person with an address, and that is
    /// the message's author key.
    pub own: bool,
}

impl<'a> Model for Facts<'a> {
    ghost use Rattle.policy_core.specs.Facts.{Facts as Asked};

    ghost Value = { Asked };

    ghost view = { λ f. record { list = f.list.now; standing = f.standing; day = f.day; arrival_day = f.arrival_day; withdrawn = f.withdrawn; embargo_until = f.embargo_until; own = f.own } };
}

impl<'a> Facts<'a> {
    /// Whether the embargo is on: on the days before its until day.
    pub fn is_embargoed(&self) -> bool
        ensures { result ≡ is_embargoed self.now }
    {
        match self.embargo_until {
            Some(until) => self.day < until,
            None => false,
        }
    }

    /// Days from the arrival to the reading day; negative where the message arrives later.
    pub fn age(&self) -> i64
        ensures { result ≡ age self.now }
    {
        i64::from(self.day.number()) - i64::from(self.arrival_day.number())
    }
}

/// What a policy says, with the name of the first rule that fits; `default` where none fits.
#[derive(Clone, Copy, Debug, PartialEq, Eq)]
pub enum Verdict<'a> {
    Allowed(&'a str),
    Denied(&'a str),
}
