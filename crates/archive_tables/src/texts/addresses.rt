//! The table `address`.

ghost use Rattle.std.specs.Prelude.{⊤, ◌≡◌, ◌++◌, ◌∷◌, [], map, find, option_map, string_bytes, IsUtf8};
ghost use Rattle.std.specs.List.{list_any};
ghost use Rattle.std.specs.Option.{IsSomeAnd};
ghost use Rattle.sqlite.specs.Held.{state};
ghost use Rattle.archive_model.specs.Questions.{is_address_of};
ghost use Rattle.archive_model.specs.Machine.{with_replaced_address};
ghost use Rattle.archive_tables.specs.Tables.{archive_of};
ghost use Rattle.archive_tables.specs.Statements.{insert_address_statement, update_address_statement};
ghost use Rattle.archive_tables.specs.Calls.{AnswersFromDatabase, WritesByStatement};

use crate::rows::read_name;
use sqlite::{Alter, Connection, Error, params};

/// Adds the address of a person after the others.
pub fn add_address<S: Alter>(
    conn: &mut Connection<S>,
    person: &str,
    address: &str,
) -> Result<usize, Error>
    ensures { WritesByStatement S.Store conn.old conn.new result (λ _. ⊤)
        (λ a. record a {
          addresses = a.addresses ++ record { person = person.now; address = address.now } ∷ [];
        })
        (insert_address_statement (record { person = person.now; address = address.now })) }
{
    conn.execute(
        "INSERT INTO address (person, address) VALUES (?1, ?2)",
        params![person, address],
    )
}

/// Whether the person has an address.
pub fn has_address<S: Alter>(conn: &mut Connection<S>, person: &str) -> Result<bool, Error>
    ensures { AnswersFromDatabase S.Store conn.old conn.new result
        (λ a found. found ≡ list_any (is_address_of person.now) a.addresses) ⊥ }
{
    let rows = conn.query_all(
        "SELECT person FROM address WHERE person = ?1",
        params![person],
    )?;
    Ok(!rows.is_empty())
}

/// Gives the person another address.
pub fn change_address<S: Alter>(
    conn: &mut Connection<S>,
    person: &str,
    address: &str,
) -> Result<usize, Error>
    ensures { WritesByStatement S.Store conn.old conn.new result (λ _. ⊤)
        (λ a. record a {
          addresses = map
              (with_replaced_address (record { person = person.now; address = address.now })) a.addresses;
        })
        (update_address_statement (record { person = person.now; address = address.now })) }
{
    conn.execute(
        "UPDATE address SET address = ?2 WHERE person = ?1",
        params![person, address],
    )
}

/// The address of the person, who may have none.
pub fn find_address<S: Alter>(
    conn: &mut Connection<S>,
    person: &str,
) -> Result<Option<String>, Error>
    ensures { AnswersFromDatabase S.Store conn.old conn.new result
        (λ a found. option_map string_bytes found
        ≡ option_map (λ x. x.address) (find (is_address_of person.now) a.addresses))
        (IsSomeAnd (find (is_address_of person.now) (archive_of (state S.Store conn.old)).addresses)
        (λ x. ¬ IsUtf8 x.address)) }
{
    let rows = conn.query_all(
        "SELECT address FROM address WHERE person = ?1 ORDER BY rowid",
        params![person],
    )?;
    match rows.first() {
        Some(row) => Ok(Some(read_name(row)?)),
        None => Ok(None),
    }
}
