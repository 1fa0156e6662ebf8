//! The commands over the tables.
ghost use Rattle.std.specs.Prelude.{◌≡◌, Some, option_map};
ghost use Rattle.archive_port.specs.Commands.{reply_unless_refused, spec_command as stored};
ghost use Rattle.archive_port.specs.Crashes.{CrashSteps};
ghost use Rattle.archive_args.specs.Values.{store_command_of};
ghost use Rattle.archive_commands.specs.Commands.{StandsForModelCommand, answer_to, command_outcome, model_command, valid_key};
ghost use Rattle.archive_commands.specs.Working.{CarriesOutCommand, EndsStoreCommand};

use archive_args::StoreCommand;
use archive_port::{ArchiveStore, Command, CommandFacts, Key, StoreFault};
use std::alloc::Global;

/// The word that answers a command.
#[derive(Clone, Copy, Debug, PartialEq, Eq)]
pub enum Answer {
    /// A list or a person was added.
    Added,
    /// Whether threads of one subject are joined from now on.
    Merging(bool),
    AddressSet,
    Granted,
    Revoked,
    /// There was no grant to revoke.
    NoGrant,
    Withdrawn,
    Restored,
    Embargoed,
    Lifted,
    /// There was no embargo to lift.
    NoEmbargo,
}

impl Answer {
    ghost use Rattle.archive_commands.specs.Commands.{answer_line};

    /// The line that tells it, with its LF.
    pub fn line(self) -> &'static str
        ensures { result.now ≡ answer_line self }
    {
        match self {
            Answer::Added => "added\n",
            Answer::Merging(true) => "merge on\n",
            Answer::Merging(false) => "merge off\n",
            Answer::AddressSet => "address set\n",
            Answer::Granted => "granted\n",
            Answer::Revoked => "revoked\n",
            Answer::NoGrant => "no grant\n",
            Answer::Withdrawn => "withdrawn\n",
            Answer::Restored => "restored\n",
            Answer::Embargoed => "embargoed\n",
            Answer::Lifted => "lifted\n",
            Answer::NoEmbargo => "no embargo\n",
        }
    }
}

/// Carries out a command. It is refused as the call of `Store` of its name is, and with E8 where it has a key that is none,
/// before anything else.
pub fn carry_out<S: ArchiveStore>(
    store: &mut S,
    alloc: Global,
    words: &StoreCommand<'_>,
) -> Result<Answer, StoreFault>
    ensures carried { CarriesOutCommand S.ArchiveState store.old store.new (store_command_of words.now) result }
    ensures crash { CrashSteps S.ArchiveState store.old store.new
        (λ a. command_outcome a (store_command_of words.now)) }
    ensures ends { EndsStoreCommand S.ArchiveState store.old store.new (store_command_of words.now) result }
{
    let key = read_key(words);
    let Some(command) = told(alloc, words, &key) else {
        return Err(StoreFault::NoMessage);
    };
    match store.carry(&command) {
        Ok(found) => Ok(answer_to(words, &found)),
        Err(fault) => Err(fault),
    }
}

/// The key in the words of a command. `None`: they have none, or it is not valid.
fn read_key(words: &StoreCommand<'_>) -> Option<Key>
    ensures { result ≡ valid_key (store_command_of words.now) }
{
    match words {
        StoreCommand::Withdraw { key, .. } => Key::read(key),
        StoreCommand::Restore { key, .. } => Key::read(key),
        StoreCommand::Embargo { key, .. } => Key::read(key),
        StoreCommand::Lift { key, .. } => Key::read(key),
        _ => None,
    }
}

/// The command of the store that words stand for, with their key. `None`: they lack a valid one.
fn told<'k, 'w: 'k>(
    alloc: Global,
    words: &StoreCommand<'w>,
    key: &'k Option<Key>,
) -> Option<Command<'k>>
    ensures { key.now ≡ valid_key (store_command_of words.now)
        → StandsForModelCommand (store_command_of words.now) (option_map stored result) }
{
    Some(match (words, key) {
        (StoreCommand::ListAdd { name }, _) => Command::ListAdd { name },
        (StoreCommand::Merge { list, merged }, _) => Command::MergeSet {
            list,
            merge: *merged,
        },
        (StoreCommand::PersonAdd { name, token }, _) => Command::PersonAdd { name, token },
        (StoreCommand::PersonAddress { person, address }, _) => Command::AddressSet {
            alloc,
            person,
            address,
        },
        (
            StoreCommand::Grant {
                person,
                list,
                kind,
                from,
                until,
            },
            _,
        ) => Command::Grant {
            person,
            list,
            kind: *kind,
            from: *from,
            until: *until,
        },
        (StoreCommand::Revoke { person, list, kind }, _) => Command::Revoke {
            person,
            list,
            kind: *kind,
        },
        (StoreCommand::Withdraw { list, by, .. }, Some(key)) => Command::Withdraw {
            list,
            key,
            by: *by,
        },
        (StoreCommand::Restore { list, .. }, Some(key)) => Command::Restore { list, key },
        (StoreCommand::Embargo { list, until, .. }, Some(key)) => Command::Embargo {
            list,
            key,
            until: *until,
        },
        (StoreCommand::Lift { list, .. }, Some(key)) => Command::Lift { list, key },
        (_, None) => return None,
    })
}

/// The word for a command that was carried out, by what was found of its names.
fn answer_to(words: &StoreCommand<'_>, found: &CommandFacts) -> Answer
    ensures { answer_to (store_command_of words.now) (reply_unless_refused (model_command (store_command_of words.now)) found.now) ≡ Some result }
{
    match words {
        StoreCommand::ListAdd { .. } | StoreCommand::PersonAdd { .. } => Answer::Added,
        StoreCommand::Merge { merged, .. } => Answer::Merging(*merged),
        StoreCommand::PersonAddress { .. } => Answer::AddressSet,
        StoreCommand::Grant { .. } => Answer::Granted,
        StoreCommand::Revoke { .. } if found.grant => Answer::Revoked,
        StoreCommand::Revoke { .. } => Answer::NoGrant,
        StoreCommand::Withdraw { .. } => Answer::Withdrawn,
        StoreCommand::Restore { .. } => Answer::Restored,
        StoreCommand::Embargo { .. } => Answer::Embargoed,
        StoreCommand::Lift { .. } if found.embargo => Answer::Lifted,
        StoreCommand::Lift { .. } => Answer::NoEmbargo,
    }
}
