//! Commands on lists and persons.
use crate::store::Store;
use archive_port::{Command, StoreFault};
use sqlite::Alter;

impl<S: Alter> Store<S> {
    ghost use Rattle.archive_model.specs.Machine.{step};
    ghost use Rattle.archive_store.specs.Held.{store_connection};
    ghost use Rattle.archive_store.specs.Told.{EndsWrite};
    ghost use Rattle.archive_store.specs.Refusals.{IsCommandRefused};
    ghost use Rattle.archive_model.specs.Commands.{list_add, person_add, bad_name, bad_text, list_exists, person_exists, token_taken};
    ghost use Rattle.archive_store.specs.Crashes.{CrashSteps};
    ghost use Rattle.archive_store.specs.Replies.{PerformsModelStep};
    ghost use Rattle.archive_port.specs.Replies.{reply_if_done};
    ghost use Rattle.std.specs.Prelude.{[], ◌∷◌};

    /// Adds a list, whose threads are gathered by subject. E1 where the name is none, E3 where the list is there.
    pub fn list_add(&mut self, name: &str) -> Result<(), StoreFault>
        ensures step { PerformsModelStep S.Store (store_connection self.old) (store_connection self.new)
            (λ a. step a (list_add name.now)) (reply_if_done result) }
        ensures crash { CrashSteps S.Store (store_connection self.old) (store_connection self.new)
            (λ a. step a (list_add name.now)) }
        ensures ends { EndsWrite S.Store self.old self.new result (bad_name ∷ list_exists ∷ [])
            (IsCommandRefused (list_add name.now)) }
    {
        self.carry_done(&Command::ListAdd { name })
    }

    /// Adds a person. E1 where the name is none, E2 where the token is none, E5 where the person is there, E7 where the
    /// token is another person's.
    pub fn person_add(&mut self, name: &str, token: &str) -> Result<(), StoreFault>
        ensures step { PerformsModelStep S.Store (store_connection self.old) (store_connection self.new)
            (λ a. step a (person_add name.now token.now)) (reply_if_done result) }
        ensures crash { CrashSteps S.Store (store_connection self.old) (store_connection self.new)
            (λ a. step a (person_add name.now token.now)) }
        ensures ends { EndsWrite S.Store self.old self.new result
            (bad_name ∷ bad_text ∷ person_exists ∷ token_taken ∷ [])
            (IsCommandRefused (person_add name.now token.now)) }
    {
        self.carry_done(&Command::PersonAdd { name, token })
    }
}
