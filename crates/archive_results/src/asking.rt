//! What is asked of the archive, and what who asks for one message gets.
use civil_time::Day;
use policy_core::Policy;
use std::marker::Model;

/// Who asks: nobody in particular, who is the public on each list, or the person of this name.
#[derive(Clone, Copy, Debug, PartialEq, Eq)]
pub enum Reader<'a> {
    Nobody,
    Person(&'a str),
}

/// What is asked: under this policy, by this reader, of the list of this name, on this day.
#[derive(Drop)]
pub struct Ask<'a> {
    /// Decides what the reader is shown.
    pub policy: &'a Policy,
    /// Who asks.
    pub reader: Reader<'a>,
    /// The list's name, as it was asked for.
    pub list: &'a str,
    /// The day that the policy is asked about, in UTC.
    pub day: Day,
}

impl<'a> Model for Ask<'a> {
    ghost use Rattle.archive_results.specs.Access.{Ask as Question, reader_name};

    ghost Value = { Question };

    ghost view = { λ a. record { rules = a.policy.now; reader = reader_name a.reader; list = a.list.now; day = a.day } };
}

/// What who asks for a message by its key gets.
#[derive(Drop)]
pub enum Asked<'a> {
    /// Its whole text.
    Served(Vec<u8>),
    /// The name of the rule that denies it, `default` where none fits.
    Denied(&'a str),
    /// The list does not hold it.
    Absent,
}
