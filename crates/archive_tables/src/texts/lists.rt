//! The table `list`.

ghost use Rattle.std.specs.Prelude.{◌≡◌, ⊤, ◌++◌, ◌∷◌, [], bytes_eq, map, IsPermutation, IsSorted};
ghost use Rattle.std.specs.List.{list_any};
ghost use Rattle.std.specs.Ordering.{nat_cmp};
ghost use Rattle.std.specs.Cmp.Lexicographic.{slice_cmp};
ghost use Rattle.archive_tables.specs.Rows.{name_result_row};
ghost use Rattle.archive_tables.specs.Statements.{insert_list_statement};
ghost use Rattle.archive_tables.specs.Calls.{WritesByStatement, AnswersFromDatabase};

use sqlite::{Alter, Connection, Error, Row, params};

/// Adds a list after the others.
pub fn add_list<S: Alter>(conn: &mut Connection<S>, name: &str) -> Result<usize, Error>
    ensures { WritesByStatement S.Store conn.old conn.new result (λ _. ⊤)
        (λ a. record a { lists = a.lists ++ name.now ∷ [] })
        (insert_list_statement name.now) }
{
    conn.execute("INSERT INTO list (name) VALUES (?1)", params![name])
}

/// Whether there is a list of the name.
pub fn has_list<S: Alter>(conn: &mut Connection<S>, name: &str) -> Result<bool, Error>
    ensures { AnswersFromDatabase S.Store conn.old conn.new result
        (λ a found. found ≡ list_any (λ n. bytes_eq n name.now) a.lists) ⊥ }
{
    let rows = conn.query_all("SELECT name FROM list WHERE name = ?1", params![name])?;
    Ok(!rows.is_empty())
}

/// The names of all lists, in the order of their bytes. `read_name` reads a row.
pub fn list_names<S: Alter>(conn: &mut Connection<S>) -> Result<Vec<Row>, Error>
    ensures { AnswersFromDatabase S.Store conn.old conn.new result
        (λ a rows. (names : _) × (rows.items ≡ map name_result_row names) × IsPermutation a.lists names
        × IsSorted (slice_cmp nat_cmp) names) ⊥ }
{
    conn.query_all("SELECT name FROM list ORDER BY name", &[])
}
