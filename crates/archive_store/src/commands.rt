//! Commands: what the tables hold of their names is looked up, that decides, and one text is written.
ghost use Rattle.std.specs.Prelude.{◌≡◌};
ghost use Rattle.archive_model.specs.Machine.{message_limit};
ghost use Rattle.archive_store.specs.Carrying.{ExecutesAndReturnsFacts, ExecutesWithinListLimit, ExecutesCommand, SaysDone, map_store_result};
ghost use Rattle.archive_port.specs.Commands.{spec_command};
ghost use Rattle.archive_port.specs.Replies.{reply_if_done};
ghost use Rattle.archive_port.specs.Words.{new_or_known};

use crate::deciding::{Settled, refused_unseen, settle};
use crate::limits::MESSAGES;
use crate::store::Store;
use archive_model::CommandFacts;
use archive_port::{Added, Command, StoreFault};
use sqlite::Alter;

impl<S: Alter> Store<S> {
    /// Carries a command out: one step of the archive's machine. What was found of its names before says what it answers: whether
    /// there was a grant to revoke or an embargo to lift, and whether the list held a message that is added. It is refused as the
    /// call of its name is.
    pub fn carry(&mut self, command: &Command<'_>) -> Result<CommandFacts, StoreFault>
        ensures { ExecutesAndReturnsFacts S.Store self.old self.new (spec_command command.now) result }
    {
        self.carry_within(command, MESSAGES)
    }

    /// The same with this limit of messages that a list holds.
    pub(crate) fn carry_within(
        &mut self,
        command: &Command<'_>,
        limit: u32,
    ) -> Result<CommandFacts, StoreFault>
        ensures { ExecutesWithinListLimit S.Store self.old self.new limit (spec_command command.now) result }
    {
        if let Some(fault) = refused_unseen(command) {
            return Err(fault);
        }
        let found = self.look(command, limit)?;
        match settle(command, &found) {
            Some(Settled::Refused(fault)) => Err(fault),
            Some(Settled::Known) => Ok(found),
            None => {
                self.write(command, &found)?;
                Ok(found)
            }
        }
    }

    /// Carries out a command that has nothing to say but that it is done.
    pub(crate) fn carry_done(&mut self, command: &Command<'_>) -> Result<(), StoreFault>
        requires { SaysDone (spec_command command.now) }
        ensures { ExecutesCommand S.Store self.old self.new message_limit (spec_command command.now) reply_if_done result }
    {
        done(self.carry(command))
    }
}

/// It is done.
fn done(told: Result<CommandFacts, StoreFault>) -> Result<(), StoreFault>
    ensures { result ≡ map_store_result (λ _. tt) told }
{
    match told {
        Ok(_) => Ok(()),
        Err(fault) => Err(fault),
    }
}

/// Whether the grant was there.
pub(crate) fn had_grant(told: Result<CommandFacts, StoreFault>) -> Result<bool, StoreFault>
    ensures { result ≡ map_store_result (λ found. found.grant) told }
{
    match told {
        Ok(found) => Ok(found.grant),
        Err(fault) => Err(fault),
    }
}

/// Whether the message had an embargo.
pub(crate) fn had_embargo(told: Result<CommandFacts, StoreFault>) -> Result<bool, StoreFault>
    ensures { result ≡ map_store_result (λ found. found.embargo) told }
{
    match told {
        Ok(found) => Ok(found.embargo),
        Err(fault) => Err(fault),
    }
}

/// What became of a message that is added.
pub(crate) fn added(told: Result<CommandFacts, StoreFault>) -> Result<Added, StoreFault>
    ensures { result ≡ map_store_result (λ found. new_or_known found.message) told }
{
    match told {
        Ok(found) => Ok(Added::of(found.message)),
        Err(fault) => Err(fault),
    }
}
