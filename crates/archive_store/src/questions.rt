//! Questions of the store: whose a token is, what a person may do, what a list holds. They change nothing.
ghost use Rattle.std.specs.Prelude.{◌≡◌, ◌≢◌, None, IfSome};
ghost use Rattle.archive_port.specs.Words.{standing_rank};

use crate::store::Store;
use crate::words::day_number;
use archive_database::ranks::highest_rank;
use archive_port::StoreFault;
use archive_tables::texts;
use civil_time::Day;
use policy_core::Standing;
use sqlite::Alter;

impl<S: Alter> Store<S> {
    ghost use Rattle.std.specs.Prelude.{◌≡◌, ◌≢◌, [], ◌∷◌, None, option_map, string_bytes, IsUtf8};
    ghost use Rattle.std.specs.Option.{IsSomeAnd};
    ghost use Rattle.archive_model.specs.Questions.{person_of_token, standing_of, standing_refusal};
    ghost use Rattle.archive_store.specs.Held.{store_connection};
    ghost use Rattle.archive_store.specs.Told.{EndsQuestionOrUnreadable, WritesNothing};
    ghost use Rattle.archive_store.specs.Replies.{AnswersStoreQuestion};
    ghost use Rattle.archive_model.specs.Commands.{no_list, no_person};
    ghost use Rattle.archive_port.specs.Words.{standing_rank};

    /// The name of the person who has this token, if somebody has it.
    pub fn person_of_token(&mut self, token: &str) -> Result<Option<String>, StoreFault>
        ensures answer { AnswersStoreQuestion S.Store (store_connection self.old) (store_connection self.new) result (λ _. None)
            (λ a name. option_map string_bytes name ≡ person_of_token a token.now) }
        ensures ends { EndsQuestionOrUnreadable S.Store self.old self.new result []
            (λ a. IsSomeAnd (person_of_token a token.now) (λ name. ¬ IsUtf8 name)) }
        ensures writes_nothing { WritesNothing S.Store self.old self.new }
    {
        let name = texts::persons::person_of_token(&mut self.conn, token);
        self.wants.pass(name)
    }

    /// The standing of a person on a list and a day: the highest kind that a grant gives which holds on that day, and
    /// `Public` where none does. E6 where there is no such person, E4 where there is no such list.
    pub fn standing(&mut self, person: &str, list: &str, day: Day) -> Result<Standing, StoreFault>
        ensures answer { AnswersStoreQuestion S.Store (store_connection self.old) (store_connection self.new) result
            (λ a. standing_refusal a person.now list.now)
            (λ a standing. standing_rank standing ≡ standing_of a person.now list.now day) }
        ensures ends { EndsQuestionOrUnreadable S.Store self.old self.new result (no_person ∷ no_list ∷ [])
            (λ a. (standing : Standing)
            → standing_rank standing ≢ standing_of a person.now list.now day) }
        ensures writes_nothing { WritesNothing S.Store self.old self.new }
    {
        let known = texts::persons::has_person(&mut self.conn, person);
        if !self.wants.pass(known)? {
            return Err(StoreFault::NoPerson);
        }
        if !self.has_list(list)? {
            return Err(StoreFault::NoList);
        }
        let grants = texts::grants::grants_of(&mut self.conn, person, list);
        let grants = self.wants.pass(grants)?;
        let rank = self.wants.pass(highest_rank(&grants, day_number(day)))?;
        match standing_named(&rank) {
            Some(standing) => Ok(standing),
            None => Err(StoreFault::Store),
        }
    }
}

/// The standing that a rank names. `None` where it names none.
fn standing_named(rank: &i64) -> Option<Standing>
    ensures some { IfSome result (λ standing. standing_rank standing ≡ rank.now) }
    ensures none { result ≡ None → (standing : Standing) → standing_rank standing ≢ rank.now }
{
    match *rank {
        0 => Some(Standing::Public),
        1 => Some(Standing::Member),
        2 => Some(Standing::Subscriber),
        3 => Some(Standing::Moderator),
        _ => None,
    }
}
