//! What the tables hold of the names in a command.
ghost use Rattle.std.specs.Prelude.{◌≡◌, option_map, nat_le, length};
ghost use Rattle.archive_model.specs.Questions.{has_list, has_person, has_token, has_grant, has_address, has_message, message_of, messages_in};
ghost use Rattle.archive_model.specs.Commands.{add};
ghost use Rattle.archive_tables.specs.Rows.{decoded_dated_marks};
ghost use Rattle.archive_model.specs.Machine.{command_facts_within_limit, command_facts_on_grant, command_facts_on_message, no_command_facts};
ghost use Rattle.archive_store.specs.Carrying.{ReadsArchive, facts_from_marks_row};
ghost use Rattle.archive_port.specs.Commands.{spec_command};
ghost use Rattle.policy_core.specs.Numbers.{grant_kind_rank};

use crate::store::Store;
use archive_database::taking::is_full;
use archive_model::{CommandFacts, Key, NOTHING};
use archive_port::{Command, StoreFault};
use archive_tables::rows::DatedMarksRow;
use archive_tables::texts;
use mbox_items::Item;
use policy_core::GrantKind;
use sqlite::Alter;

/// A message that is found, by its marks.
fn found_by(list: bool, marks: Option<DatedMarksRow>) -> CommandFacts
    ensures { result ≡ facts_from_marks_row list marks }
{
    let (message, withdrawn, embargo) = match marks {
        Some(marks) => (true, marks.withdrawn != 0, marks.embargo.is_some()),
        None => (false, false, false),
    };
    CommandFacts {
        list,
        message,
        withdrawn,
        embargo,
        ..NOTHING
    }
}

impl<S: Alter> Store<S> {
    fn knows_list(&mut self, name: &str) -> Result<bool, StoreFault>
        ensures { ReadsArchive S.Store self.old self.new result (λ a is. is ≡ has_list a name.now) }
    {
        let listed = texts::lists::has_list(&mut self.conn, name);
        self.wants.pass(listed)
    }

    fn knows_person(&mut self, name: &str) -> Result<bool, StoreFault>
        ensures { ReadsArchive S.Store self.old self.new result (λ a is. is ≡ has_person a name.now) }
    {
        let known = texts::persons::has_person(&mut self.conn, name);
        self.wants.pass(known)
    }

    fn knows_token(&mut self, token: &str) -> Result<bool, StoreFault>
        ensures { ReadsArchive S.Store self.old self.new result (λ a is. is ≡ has_token a token.now) }
    {
        let taken = texts::persons::has_token(&mut self.conn, token);
        self.wants.pass(taken)
    }

    fn knows_address(&mut self, person: &str) -> Result<bool, StoreFault>
        ensures { ReadsArchive S.Store self.old self.new result (λ a is. is ≡ has_address a person.now) }
    {
        let had = texts::addresses::has_address(&mut self.conn, person);
        self.wants.pass(had)
    }

    fn knows_grant(&mut self, person: &str, list: &str, kind: GrantKind) -> Result<bool, StoreFault>
        ensures { ReadsArchive S.Store self.old self.new result
            (λ a is. is ≡ has_grant a person.now list.now (grant_kind_rank kind)) }
    {
        let had = texts::grants::has_grant(&mut self.conn, person, list, kind.rank());
        self.wants.pass(had)
    }

    fn find_marks(&mut self, list: &str, key: &Key) -> Result<Option<DatedMarksRow>, StoreFault>
        ensures { ReadsArchive S.Store self.old self.new result
            (λ a marks. marks ≡ option_map decoded_dated_marks (message_of a list.now key.now)) }
    {
        let found = texts::messages::marks(&mut self.conn, list, key.as_str());
        self.wants.pass(found)
    }

    fn knows_message(&mut self, list: &str, key: &Key) -> Result<bool, StoreFault>
        ensures { ReadsArchive S.Store self.old self.new result
            (λ a is. is ≡ has_message a list.now key.now) }
    {
        let known = texts::messages::has_message(&mut self.conn, list, key.as_str());
        self.wants.pass(known)
    }

    fn knows_full(&mut self, list: &str, limit: u32) -> Result<bool, StoreFault>
        ensures { ReadsArchive S.Store self.old self.new result
            (λ a is. is ≡ nat_le limit (length (messages_in a list.now))) }
    {
        let full = is_full(&mut self.conn, list, limit);
        self.wants.pass(full)
    }

    fn look_list(&mut self, name: &str) -> Result<CommandFacts, StoreFault>
        ensures { ReadsArchive S.Store self.old self.new result
            (λ a found. found ≡ record no_command_facts { list = has_list a name.now }) }
    {
        let is_there = self.knows_list(name)?;
        Ok(CommandFacts {
            list: is_there,
            ..NOTHING
        })
    }

    /// A person, and whose a token is.
    fn look_person(&mut self, name: &str, token: &str) -> Result<CommandFacts, StoreFault>
        ensures { ReadsArchive S.Store self.old self.new result
            (λ a found. found ≡ record no_command_facts {
              person = has_person a name.now;
              token = has_token a token.now;
            }) }
    {
        let is_known = self.knows_person(name)?;
        let is_taken = self.knows_token(token)?;
        Ok(CommandFacts {
            person: is_known,
            token: is_taken,
            ..NOTHING
        })
    }

    /// A person, and an address of theirs.
    fn look_address(&mut self, person: &str) -> Result<CommandFacts, StoreFault>
        ensures { ReadsArchive S.Store self.old self.new result
            (λ a found. found ≡ record no_command_facts {
              person = has_person a person.now;
              address = has_address a person.now;
            }) }
    {
        let is_known = self.knows_person(person)?;
        let address = self.knows_address(person)?;
        Ok(CommandFacts {
            person: is_known,
            address,
            ..NOTHING
        })
    }

    /// A list, and a message of it.
    fn look_message(&mut self, list: &str, key: &Key) -> Result<CommandFacts, StoreFault>
        ensures { ReadsArchive S.Store self.old self.new result
            (λ a found. found ≡ command_facts_on_message a list.now key.now) }
    {
        let is_there = self.knows_list(list)?;
        let marks = self.find_marks(list, key)?;
        Ok(found_by(is_there, marks))
    }

    /// A list, whether it holds a message, and whether it is full.
    fn look_item(
        &mut self,
        list: &str,
        item: &Item<'_>,
        limit: u32,
    ) -> Result<CommandFacts, StoreFault>
        ensures { ReadsArchive S.Store self.old self.new result
            (λ a found. found ≡ command_facts_within_limit limit a (add list.now item.now)) }
    {
        let is_there = self.knows_list(list)?;
        let message = self.knows_message(list, &Key::of(item))?;
        let full = self.knows_full(list, limit)?;
        Ok(CommandFacts {
            list: is_there,
            message,
            full,
            ..NOTHING
        })
    }

    /// A person, a list, and a grant of the one on the other.
    fn look_grant(
        &mut self,
        person: &str,
        list: &str,
        kind: GrantKind,
    ) -> Result<CommandFacts, StoreFault>
        ensures { ReadsArchive S.Store self.old self.new result
            (λ a found. found ≡ command_facts_on_grant a person.now list.now (grant_kind_rank kind)) }
    {
        let is_known = self.knows_person(person)?;
        let is_there = self.knows_list(list)?;
        let grant = self.knows_grant(person, list, kind)?;
        Ok(CommandFacts {
            list: is_there,
            person: is_known,
            grant,
            ..NOTHING
        })
    }

    /// What a command names, and nothing else. None of the questions changes anything.
    pub(crate) fn look(
        &mut self,
        command: &Command<'_>,
        limit: u32,
    ) -> Result<CommandFacts, StoreFault>
        ensures { ReadsArchive S.Store self.old self.new result
            (λ a found. found ≡ command_facts_within_limit limit a (spec_command command.now)) }
    {
        match command {
            Command::ListAdd { name } => self.look_list(name),
            Command::MergeSet { list, .. } => self.look_list(list),
            Command::PersonAdd { name, token } => self.look_person(name, token),
            Command::AddressSet { person, .. } => self.look_address(person),
            Command::Grant {
                person,
                list,
                kind,
                ..
            }
            | Command::Revoke { person, list, kind } => self.look_grant(person, list, *kind),
            Command::Add { list, item, .. } => self.look_item(list, item, limit),
            Command::Withdraw { list, key, .. }
            | Command::Restore { list, key }
            | Command::Embargo { list, key, .. }
            | Command::Lift { list, key } => self.look_message(list, key),
        }
    }
}
