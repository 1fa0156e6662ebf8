//! What the words of a command line order.
use crate::commands::StoreCommand;
use civil_time::Day;
use policy_core::Standing;
use std::marker::Model;

/// A row of the command line, with its values read. It borrows the words.
#[derive(Debug, Drop)]
pub enum Order<'a> {
    /// Writes those messages of an mbox on standard input that pass. It is also the order of no words.
    Sift(SiftArgs<'a>),
    /// Carries out a command on lists, persons, grants or messages.
    Table(StoreArgs<'a>),
    /// Takes the messages of an mbox into a list.
    Import(ImportArgs<'a>),
    /// Writes one message, where the policy lets the reader read it.
    Get(GetArgs<'a>),
    /// Writes those messages of a list as an mbox that the policy lets the reader read.
    Export(ReaderArgs<'a>),
    /// Looks whether the database is whole.
    Check(CheckArgs<'a>),
    /// Answers requests over HTTP.
    Serve(ServeArgs<'a>),
}

/// The values of `sift`'s options.
#[derive(Debug, Drop)]
pub struct SiftArgs<'a> {
    /// The reading day; without it the clock is asked, where the order needs a day.
    pub day: Option<Day>,
    /// The least age of a message, in days: 0 to 36500.
    pub min_age: Option<u32>,
    /// The name of the policy's file; without one the policy is open.
    pub policy: Option<&'a str>,
    /// The name of the list that the messages are taken to be of.
    pub list: &'a str,
    /// The reader's standing on that list.
    pub standing: Standing,
}

impl<'a> Model for SiftArgs<'a> {
    ghost use Rattle.std.specs.Prelude.{option_map};
    ghost use Rattle.archive_args.specs.Values.{SiftValues};

    ghost Value = { SiftValues };

    ghost view = { λ o. record { day = o.day; min_age = o.min_age; policy = option_map (λ t. t.now) o.policy; list = o.list.now; standing = o.standing } };
}

/// A command over the tables of a database.
#[derive(Debug, Drop)]
pub struct StoreArgs<'a> {
    /// The name of the database's file.
    pub file: &'a str,
    /// The command, with its values.
    pub command: StoreCommand<'a>,
}

impl<'a> Model for StoreArgs<'a> {
    ghost use Rattle.archive_args.specs.Values.{StoreCommandValues, store_command_of};

    ghost Value = { StoreCommandValues };

    ghost view = { λ o. record { file = o.file.now; command = store_command_of o.command } };
}

/// The values of `import`.
#[derive(Debug, Drop)]
pub struct ImportArgs<'a> {
    /// The name of the database's file.
    pub file: &'a str,
    /// The name of the list, as it was given.
    pub list: &'a str,
    /// The name of the mbox's file.
    pub mbox: &'a str,
}

impl<'a> Model for ImportArgs<'a> {
    ghost use Rattle.archive_args.specs.Values.{ImportValues};

    ghost Value = { ImportValues };

    ghost view = { λ o. record { file = o.file.now; list = o.list.now; mbox = o.mbox.now } };
}

/// A question of a reader on a list: the values of `export`.
#[derive(Debug, Drop)]
pub struct ReaderArgs<'a> {
    /// The name of the database's file.
    pub file: &'a str,
    /// The name of the policy's file.
    pub policy: &'a str,
    /// The reading day; without it the clock is asked.
    pub day: Option<Day>,
    /// The name of the person who asks, as it was given; without it nobody asks.
    pub person: Option<&'a str>,
    /// The name of the list, as it was given.
    pub list: &'a str,
}

impl<'a> Model for ReaderArgs<'a> {
    ghost use Rattle.std.specs.Prelude.{option_map};
    ghost use Rattle.archive_args.specs.Values.{AskValues};

    ghost Value = { AskValues };

    ghost view = { λ o. record { file = o.file.now; policy = o.policy.now; day = o.day; person = option_map (λ t. t.now) o.person; list = o.list.now } };
}

/// The values of `get`: a question for one message.
#[derive(Debug, Drop)]
pub struct GetArgs<'a> {
    /// The question, without the message.
    pub asked: ReaderArgs<'a>,
    /// The key of the message, as it was given.
    pub key: &'a str,
}

impl<'a> Model for GetArgs<'a> {
    ghost use Rattle.archive_args.specs.Values.{GetValues};

    ghost Value = { GetValues };

    ghost view = { λ o. record { ask = o.asked; key = o.key.now } };
}

/// The values of `check`.
#[derive(Debug, Drop)]
pub struct CheckArgs<'a> {
    /// The name of the database's file.
    pub file: &'a str,
}

impl<'a> Model for CheckArgs<'a> {
    ghost use Rattle.archive_args.specs.Values.{CheckValues};

    ghost Value = { CheckValues };

    ghost view = { λ o. record { file = o.file.now } };
}

/// The values of `serve`.
#[derive(Debug, Drop)]
pub struct ServeArgs<'a> {
    /// The name of the database's file.
    pub file: &'a str,
    /// The name of the policy's file.
    pub policy: &'a str,
    /// The reading day; without it the clock is asked.
    pub day: Option<Day>,
    /// The port on 127.0.0.1; 0 lets the system choose a free one.
    pub port: u16,
    /// How many connections are answered: 0 to 1000000.
    pub count: u32,
}

impl<'a> Model for ServeArgs<'a> {
    ghost use Rattle.archive_args.specs.Values.{ServeValues};

    ghost Value = { ServeValues };

    ghost view = { λ o. record { file = o.file.now; policy = o.policy.now; day = o.day; port = o.port; count = o.count } };
}

/// Why words order nothing.
#[derive(Debug, Drop)]
pub enum OrderStop {
    /// Help or the version was asked for: this text.
    Help(String),
    /// Bad words, with the text that says what is wrong.
    Words(String),
    /// No memory.
    Memory,
}
