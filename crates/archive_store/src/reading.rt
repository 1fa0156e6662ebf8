//! Questions on lists and their messages.

use crate::store::Store;
use archive_database::reading::{checked_dated_marks, checked_message, read_names};
use archive_model::{Key, Message};
use archive_port::{DatedMarks, StoreFault};
use archive_tables::texts;
use sqlite::Alter;
use std::alloc::Global;

impl<S: Alter> Store<S> {
    ghost use Rattle.std.specs.Prelude.{◌≡◌, [], ◌∷◌, None, length, map, option_map, string_bytes, IsUtf8, MatchOption};
    ghost use Rattle.std.specs.List.{All};
    ghost use Rattle.std.specs.Option.{IsSomeAnd};
    ghost use Rattle.archive_model.specs.Questions.{has_list, list_names, list_refusal, message_of, messages_in};
    ghost use Rattle.archive_store.specs.Held.{store_connection};
    ghost use Rattle.archive_store.specs.Told.{EndsQuestion, EndsQuestionOrUnreadable, SeesSameDatabase, WasOpen, WritesNothing};
    ghost use Rattle.archive_port.specs.Messages.{AreDatedMarksOf, IsReadable};
    ghost use Rattle.archive_port.specs.Replies.{refusal_of_fault};
    ghost use Rattle.archive_store.specs.Replies.{AnswersStoreQuestion};
    ghost use Rattle.archive_model.specs.Commands.{no_list};
    ghost use Rattle.archive_model.specs.Messages.{archived_message};

    /// Whether there is a list of this name.
    pub fn has_list(&mut self, name: &str) -> Result<bool, StoreFault>
        ensures answer { AnswersStoreQuestion S.Store (store_connection self.old) (store_connection self.new) result (λ _. None)
            (λ a found. found ≡ has_list a name.now) }
        ensures writes_nothing { WritesNothing S.Store self.old self.new }
        ensures same { SeesSameDatabase S.Store self.old self.new result }
        ensures ends { EndsQuestion S.Store self.old self.new result [] }
        ensures was_open { WasOpen S.Store self.old self.new refusal_of_fault result }
    {
        let listed = texts::lists::has_list(&mut self.conn, name);
        self.wants.pass(listed)
    }

    /// The names of all lists, in the order of their bytes.
    pub fn lists(&mut self, alloc: Global) -> Result<Vec<String>, StoreFault>
        ensures answer { AnswersStoreQuestion S.Store (store_connection self.old) (store_connection self.new) result (λ _. None)
            (λ a names. map string_bytes names.items ≡ list_names a) }
        ensures ends { EndsQuestionOrUnreadable S.Store self.old self.new result [] (λ a. ¬ All IsUtf8 a.lists) }
        ensures writes_nothing { WritesNothing S.Store self.old self.new }
    {
        let shown = self.wants.pass(texts::lists::list_names(&mut self.conn))?;
        let names = read_names(alloc, &shown);
        self.wants.pass_fault(names)
    }

    /// How many messages a list holds. E4 where there is no such list. It reads the number of each.
    pub fn count(&mut self, list: &str) -> Result<usize, StoreFault>
        ensures answer { AnswersStoreQuestion S.Store (store_connection self.old) (store_connection self.new) result
            (λ a. list_refusal a list.now)
            (λ a count. count ≡ length (messages_in a list.now)) }
        ensures same { SeesSameDatabase S.Store self.old self.new result }
        ensures writes_nothing { WritesNothing S.Store self.old self.new }
        ensures ends { EndsQuestion S.Store self.old self.new result (no_list ∷ []) }
    {
        if !self.has_list(list)? {
            return Err(StoreFault::NoList);
        }
        let count = texts::messages::count_messages(&mut self.conn, list);
        self.wants.pass(count)
    }

    /// The message of a list with a key, if the list holds it. E4 where there is no such list.
    pub fn row(&mut self, list: &str, key: &Key) -> Result<Option<Message>, StoreFault>
        ensures answer { AnswersStoreQuestion S.Store (store_connection self.old) (store_connection self.new) result
            (λ a. list_refusal a list.now)
            (λ a found. option_map (archived_message list.now) found ≡ message_of a list.now key.now) }
        ensures ends { EndsQuestionOrUnreadable S.Store self.old self.new result (no_list ∷ [])
            (λ a. IsSomeAnd (message_of a list.now key.now) (λ m. ¬ IsReadable m)) }
        ensures was_open { WasOpen S.Store self.old self.new refusal_of_fault result }
        ensures writes_nothing { WritesNothing S.Store self.old self.new }
    {
        if !self.has_list(list)? {
            return Err(StoreFault::NoList);
        }
        self.find(list, key)
    }

    /// The same by one SELECT, for a caller who knows the list: `None`, too, where there is no such list.
    pub fn find(&mut self, list: &str, key: &Key) -> Result<Option<Message>, StoreFault>
        ensures answer { AnswersStoreQuestion S.Store (store_connection self.old) (store_connection self.new) result (λ _. None)
            (λ a found. option_map (archived_message list.now) found ≡ message_of a list.now key.now) }
        ensures ends { EndsQuestionOrUnreadable S.Store self.old self.new result []
            (λ a. IsSomeAnd (message_of a list.now key.now) (λ m. ¬ IsReadable m)) }
        ensures writes_nothing { WritesNothing S.Store self.old self.new }
    {
        let found = texts::messages::message(&mut self.conn, list, key.as_str());
        match self.wants.pass(found)? {
            Some(row) => Ok(Some(self.wants.pass_fault(checked_message(row))?)),
            None => Ok(None),
        }
    }

    /// The arrival and the marks of that message: its text is not read. E4 where there is no such list.
    pub fn marks(&mut self, list: &str, key: &Key) -> Result<Option<DatedMarks>, StoreFault>
        ensures answer { AnswersStoreQuestion S.Store (store_connection self.old) (store_connection self.new) result
            (λ a. list_refusal a list.now)
            (λ a found. MatchOption found (message_of a list.now key.now ≡ None)
            (λ marks. IsSomeAnd (message_of a list.now key.now) (AreDatedMarksOf marks))) }
        ensures ends { EndsQuestionOrUnreadable S.Store self.old self.new result (no_list ∷ [])
            (λ a. IsSomeAnd (message_of a list.now key.now) (λ m. ¬ IsReadable m)) }
        ensures was_open { WasOpen S.Store self.old self.new refusal_of_fault result }
        ensures writes_nothing { WritesNothing S.Store self.old self.new }
    {
        if !self.has_list(list)? {
            return Err(StoreFault::NoList);
        }
        let found = texts::messages::marks(&mut self.conn, list, key.as_str());
        let Some(row) = self.wants.pass(found)? else {
            return Ok(None);
        };
        Ok(Some(self.wants.pass_fault(checked_dated_marks(row))?))
    }
}
