//! The table `person`.

ghost use Rattle.std.specs.Prelude.{⊤, ◌≡◌, ◌++◌, ◌∷◌, [], bytes_eq, find, option_map, string_bytes, IsUtf8};
ghost use Rattle.std.specs.List.{list_any};
ghost use Rattle.std.specs.Option.{IsSomeAnd};
ghost use Rattle.sqlite.specs.Held.{state};
ghost use Rattle.archive_tables.specs.Tables.{archive_of};
ghost use Rattle.archive_tables.specs.Statements.{insert_person_statement};
ghost use Rattle.archive_tables.specs.Calls.{WritesByStatement, AnswersFromDatabase};

use crate::rows::read_name;
use sqlite::{Alter, Connection, Error, params};

/// Adds a person after the others.
pub fn add_person<S: Alter>(
    conn: &mut Connection<S>,
    name: &str,
    token: &str,
) -> Result<usize, Error>
    ensures { WritesByStatement S.Store conn.old conn.new result (λ _. ⊤)
        (λ a. record a {
          persons = a.persons ++ record { name = name.now; token = token.now } ∷ [];
        })
        (insert_person_statement (record { name = name.now; token = token.now })) }
{
    conn.execute(
        "INSERT INTO person (name, token) VALUES (?1, ?2)",
        params![name, token],
    )
}

/// Whether there is a person of the name.
pub fn has_person<S: Alter>(conn: &mut Connection<S>, name: &str) -> Result<bool, Error>
    ensures { AnswersFromDatabase S.Store conn.old conn.new result
        (λ a found. found ≡ list_any (λ p. bytes_eq p.name name.now) a.persons) ⊥ }
{
    let rows = conn.query_all("SELECT name FROM person WHERE name = ?1", params![name])?;
    Ok(!rows.is_empty())
}

/// Whether some person has the token.
pub fn has_token<S: Alter>(conn: &mut Connection<S>, token: &str) -> Result<bool, Error>
    ensures { AnswersFromDatabase S.Store conn.old conn.new result
        (λ a found. found ≡ list_any (λ p. bytes_eq p.token token.now) a.persons) ⊥ }
{
    let rows = conn.query_all("SELECT token FROM person WHERE token = ?1", params![token])?;
    Ok(!rows.is_empty())
}

/// The name of the person who has the token.
pub fn person_of_token<S: Alter>(
    conn: &mut Connection<S>,
    token: &str,
) -> Result<Option<String>, Error>
    ensures { AnswersFromDatabase S.Store conn.old conn.new result
        (λ a found. option_map string_bytes found
        ≡ option_map (λ p. p.name) (find (λ p. bytes_eq p.token token.now) a.persons))
        (IsSomeAnd (find (λ p. bytes_eq p.token token.now)
        (archive_of (state S.Store conn.old)).persons)
        (λ p. ¬ IsUtf8 p.name)) }
{
    let rows = conn.query_all(
        "SELECT name FROM person WHERE token = ?1 ORDER BY rowid",
        params![token],
    )?;
    match rows.first() {
        Some(row) => Ok(Some(read_name(row)?)),
        None => Ok(None),
    }
}
