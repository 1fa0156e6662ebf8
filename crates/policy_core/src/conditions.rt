//! What a rule asks.
ghost use Rattle.std.specs.Prelude.{◌≡◌, map};
ghost use Rattle.std.specs.List.{list_any};
ghost use Rattle.policy_core.specs.Rules.{condition_holds, is_own_condition};
ghost use Rattle.policy_core.specs.Stated.{stated_condition};
ghost use Rattle.policy_core.specs.Written.{has_no_day, begins_after_end_of};

use crate::access::{Facts, Standing, Withdrawn};
use civil_time::Day;

/// What a rule asks of the list, the reader, the message or the reading day.
#[derive(Debug, Drop)]
pub(crate) enum Condition {
    /// The list is one of these.
    Lists(Vec<String>),
    /// The reader's standing is one of these.
    Standings(Vec<Standing>),
    /// The message is withdrawn by one of these.
    Withdrawn(Vec<Withdrawn>),
    /// The embargo is on, or off.
    Embargo(bool),
    /// At least so many days lie between the arrival day and the reading day.
    AgeMin(u16),
    /// The reading day is this day or later.
    From(Day),
    /// The reading day is this day or earlier.
    Until(Day),
    /// The message is the reader's own, or it is not.
    Own(bool),
}

impl Condition {
    /// Whether it holds.
    pub(crate) fn holds(&self, facts: &Facts) -> bool
        ensures { result ≡ condition_holds (stated_condition self.now) facts.now }
    {
        match self {
            Condition::Lists(names) => names.iter().any(|name| name.as_str() == facts.list),
            Condition::Standings(among) => among.iter().any(|standing| *standing == facts.standing),
            Condition::Withdrawn(among) => among.iter().any(|by| *by == facts.withdrawn),
            Condition::Embargo(on) => *on == facts.is_embargoed(),
            Condition::AgeMin(least) => i64::from(*least) <= facts.age(),
            Condition::From(first) => *first <= facts.day,
            Condition::Until(last) => facts.day <= *last,
            Condition::Own(stated) => *stated == facts.own,
        }
    }

    /// Whether it asks if a message is the reader's own.
    pub(crate) fn is_about_own(&self) -> bool
        ensures { result ≡ is_own_condition (stated_condition self.now) }
    {
        matches!(self, Condition::Own(_))
    }

    /// Whether it begins after the day on which the other ends.
    fn is_after(&self, other: &Condition) -> bool
        ensures { result ≡ begins_after_end_of (stated_condition self.now) (stated_condition other.now) }
    {
        match (self, other) {
            (Condition::From(first), Condition::Until(last)) => *last < *first,
            _ => false,
        }
    }
}

/// Whether no day is within all of these conditions.
pub(crate) fn has_no_day(conditions: &[Condition]) -> bool
    ensures { result ≡ has_no_day (map stated_condition conditions.now) }
{
    conditions
        .iter()
        .any(|first| ends_before(conditions, first))
}

/// Whether one of these conditions ends before the day on which another begins.
fn ends_before(conditions: &[Condition], first: &Condition) -> bool
    ensures { result ≡ list_any (begins_after_end_of (stated_condition first.now)) (map stated_condition conditions.now) }
{
    conditions.iter().any(|last| first.is_after(last))
}
