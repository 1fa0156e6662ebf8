//! The table `grant_row`.

ghost use Rattle.std.specs.Prelude.{⊤, ◌≡◌, ◌++◌, ◌∷◌, [], ◌&&◌, not, false, bytes_eq, filter, map, if◌then◌else◌};
ghost use Rattle.std.specs.List.{list_any};
ghost use Rattle.archive_model.specs.Questions.{is_grant_of_rank};
ghost use Rattle.archive_tables.specs.Rows.{grant_result_row};
ghost use Rattle.archive_tables.specs.Statements.{insert_grant_statement, update_grant_statement, delete_grant_statement};
ghost use Rattle.archive_tables.specs.Calls.{AnswersFromDatabase, WritesByStatement};

use sqlite::{Alter, Connection, Error, Row, params};

/// Adds a grant of the rank, 1 to 3, after the others, from its first day to its last, counted from 1970-01-01.
pub fn add_grant<S: Alter>(
    conn: &mut Connection<S>,
    person: &str,
    list: &str,
    rank: i64,
    from_day: i64,
    until_day: i64,
) -> Result<usize, Error>
    ensures { WritesByStatement S.Store conn.old conn.new result
        (λ a. list_any (is_grant_of_rank person.now list.now rank) a.grants ≡ false)
        (λ a. record a {
          grants = a.grants ++ record {
            person = person.now;
            list = list.now;
            rank = rank;
            from_day = from_day;
            until_day = until_day;
          } ∷ [];
        })
        (insert_grant_statement (record { person = person.now; list = list.now; rank = rank; from_day = from_day; until_day = until_day })) }
{
    conn.execute(
        "INSERT INTO grant_row (person, list, kind, from_day, until_day) VALUES (?1, ?2, ?3, ?4, ?5)",
        params![person, list, rank, from_day, until_day],
    )
}

/// Whether the person has a grant of the rank on the list.
pub fn has_grant<S: Alter>(
    conn: &mut Connection<S>,
    person: &str,
    list: &str,
    rank: i64,
) -> Result<bool, Error>
    ensures { AnswersFromDatabase S.Store conn.old conn.new result
        (λ a found. found ≡ list_any (is_grant_of_rank person.now list.now rank) a.grants) ⊥ }
{
    let rows = conn.query_all(
        "SELECT kind FROM grant_row WHERE person = ?1 AND list = ?2 AND kind = ?3",
        params![person, list, rank],
    )?;
    Ok(!rows.is_empty())
}

/// Gives the grant of the rank other days.
pub fn change_grant<S: Alter>(
    conn: &mut Connection<S>,
    person: &str,
    list: &str,
    rank: i64,
    from_day: i64,
    until_day: i64,
) -> Result<usize, Error>
    ensures { WritesByStatement S.Store conn.old conn.new result (λ _. ⊤)
        (λ a. record a {
          grants = map (λ g. if is_grant_of_rank person.now list.now rank g
              then record g { from_day = from_day; until_day = until_day } else g) a.grants;
        })
        (update_grant_statement (record { person = person.now; list = list.now; rank = rank; from_day = from_day; until_day = until_day })) }
{
    conn.execute(
        "UPDATE grant_row SET from_day = ?4, until_day = ?5 WHERE person = ?1 AND list = ?2 AND kind = ?3",
        params![person, list, rank, from_day, until_day],
    )
}

/// Takes the grant of the rank away.
pub fn remove_grant<S: Alter>(
    conn: &mut Connection<S>,
    person: &str,
    list: &str,
    rank: i64,
) -> Result<usize, Error>
    ensures { WritesByStatement S.Store conn.old conn.new result (λ _. ⊤)
        (λ a. record a {
          grants = filter (λ g. not (is_grant_of_rank person.now list.now rank g)) a.grants;
        })
        (delete_grant_statement person.now list.now rank) }
{
    conn.execute(
        "DELETE FROM grant_row WHERE person = ?1 AND list = ?2 AND kind = ?3",
        params![person, list, rank],
    )
}

/// The grants of the person on the list, in the order in which they came. `read_grant` reads a row.
pub fn grants_of<S: Alter>(
    conn: &mut Connection<S>,
    person: &str,
    list: &str,
) -> Result<Vec<Row>, Error>
    ensures { AnswersFromDatabase S.Store conn.old conn.new result
        (λ a rows. rows.items
        ≡ map grant_result_row
        (filter (λ g. bytes_eq g.person person.now && bytes_eq g.list list.now) a.grants))
        ⊥ }
{
    conn.query_all(
        "SELECT kind, from_day, until_day FROM grant_row WHERE person = ?1 AND list = ?2 ORDER BY rowid",
        params![person, list],
    )
}
