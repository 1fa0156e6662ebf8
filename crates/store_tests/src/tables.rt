//! What each statement does, and what is read of its rows.
use archive_tables::rows::{
    DatedMarksRow, GrantRow, IndexColumns, NewMessage, read_dated_marks, read_grant, read_message,
    read_name, read_rowid,
};
use archive_tables::texts::{addresses, grants, lists, messages, options, persons, schema};
use sqlite::{Alter, Connection, Error, ErrorCode, Row};
use std::process::Abort;
use std::test::Fail;

const KEY: &str = "5891b5b522d5df086d0ff0b110fbd9d21bb4fc7163af34d08286a2e846f6be03";

/// March 2003: the year times 12, and the month less 1.
const MARCH: i64 = 24038;

/// January 1970.
const EPOCH: i64 = 23640;

const OTHER: &str = "e3b0c44298fc1c149afbf4c8996fb92427ae41e4649b934ca495991b7852b855";

/// A case for a database with nothing in it.
#[derive(Clone, Copy)]
enum Case {
    Versions,
    Rollback,
    Lists,
    Cells,
    Persons,
    Grants,
    Messages,
    Filed,
    Changes,
    Marks,
    Numbers,
    Options,
    Addresses,
}

const CASES: [Case; 13] = [
    Case::Versions,
    Case::Rollback,
    Case::Lists,
    Case::Cells,
    Case::Persons,
    Case::Grants,
    Case::Messages,
    Case::Filed,
    Case::Changes,
    Case::Marks,
    Case::Numbers,
    Case::Options,
    Case::Addresses,
];

#[test]
fn tables_in_memory(rt: HostRuntime) -> Result<(), Fail> {
    for case in CASES {
        let mut conn = Connection::open_in_memory(rt.alloc())?;
        tell(&rt, &mut conn, case)?;
    }
    Ok(())
}

fn tell<S: Alter>(rt: &impl Abort, conn: &mut Connection<S>, case: Case) -> Result<(), Fail> {
    match case {
        Case::Versions => each_version_is_shown(rt, conn),
        Case::Rollback => a_rollback_leaves_no_table(rt, conn),
        Case::Lists => lists_come_by_name(rt, conn),
        Case::Cells => a_row_of_other_cells_is_not_read(rt, conn),
        Case::Persons => a_token_leads_to_its_person(rt, conn),
        Case::Grants => a_grant_is_changed_and_removed(rt, conn),
        Case::Messages => messages_come_in_the_order_of_the_mailbox(rt, conn),
        Case::Filed => numbers_come_by_what_is_filed(rt, conn),
        Case::Changes => a_message_is_withdrawn_and_held_back(rt, conn),
        Case::Marks => marks_are_those_of_the_message(rt, conn),
        Case::Numbers => numbers_reach_a_limit(rt, conn),
        Case::Options => a_list_says_how_its_threads_are_made(rt, conn),
        Case::Addresses => a_person_has_one_address(rt, conn),
    }
}

/// Begins a transaction, and makes the tables in it.
fn begin_tables<S: Alter>(conn: &mut Connection<S>) -> Result<(), Error> {
    schema::begin(conn)?;
    schema::create_version_table(conn)?;
    schema::create_list_table(conn)?;
    schema::create_person_table(conn)?;
    schema::create_grant_table(conn)?;
    schema::create_message_table(conn)?;
    schema::create_month_index(conn)?;
    schema::create_author_index(conn)?;
    schema::create_option_table(conn)?;
    schema::create_address_table(conn)?;
    schema::add_version(conn)?;
    Ok(())
}

/// Makes the tables, with no rows.
fn make<S: Alter>(conn: &mut Connection<S>) -> Result<(), Error> {
    begin_tables(conn)?;
    schema::commit(conn)?;
    Ok(())
}

/// The tables with the list `soc`, the person `anna` and two messages.
fn fill<S: Alter>(conn: &mut Connection<S>) -> Result<(), Error> {
    make(conn)?;
    lists::add_list(conn, "soc")?;
    persons::add_person(conn, "anna", "0123456789abcdef")?;
    let first = NewMessage {
        key: KEY,
        sender: b"anna@example.org",
        arrival: 1_046_772_000,
        text: b"hello\n",
    };
    messages::add_message(conn, "soc", &first, &filed(first.arrival, MARCH, b""))?;
    let second = short_message(OTHER, 0, b"");
    messages::add_message(conn, "soc", &second, &filed(0, EPOCH, b""))?;
    Ok(())
}

/// A message whose sender is `-`.
fn short_message<'a>(key: &'a str, arrival: i64, text: &'a [u8]) -> NewMessage<'a> {
    NewMessage {
        key,
        sender: b"-",
        arrival,
        text,
    }
}

fn filed(sent: i64, month: i64, author: &[u8]) -> IndexColumns<'_> {
    IndexColumns {
        sent,
        month,
        author,
    }
}

fn is_constraint(outcome: Result<usize, Error>) -> bool {
    match outcome {
        Err(Error::SqliteFailure(ErrorCode::ConstraintViolation(_))) => true,
        _ => false,
    }
}

fn each_version_is_shown<S: Alter>(rt: &impl Abort, conn: &mut Connection<S>) -> Result<(), Fail> {
    make(conn)?;
    are_versions(rt, conn, &[3])?;
    conn.execute("INSERT INTO version (number) VALUES (7)", &[])?;
    are_versions(rt, conn, &[3, 7])
}

fn are_versions<S: Alter>(
    rt: &impl Abort,
    conn: &mut Connection<S>,
    wanted: &[i64],
) -> Result<(), Fail> {
    let rows = schema::versions(conn)?;
    assert_eq!(rt; rows.len(), wanted.len());
    for (row, want) in rows.iter().zip(wanted.iter()) {
        let number: i64 = row.get(0)?;
        assert_eq!(rt; number, *want);
    }
    Ok(())
}

fn a_rollback_leaves_no_table<S: Alter>(
    rt: &impl Abort,
    conn: &mut Connection<S>,
) -> Result<(), Fail> {
    begin_tables(conn)?;
    schema::rollback(conn)?;
    assert!(rt; lists::has_list(conn, "soc").is_err());
    make(conn)?;
    assert!(rt; !lists::has_list(conn, "soc")?);
    Ok(())
}

fn lists_come_by_name<S: Alter>(rt: &impl Abort, conn: &mut Connection<S>) -> Result<(), Fail> {
    make(conn)?;
    for name in ["soc", "news", "t-1"] {
        lists::add_list(conn, name)?;
    }
    for (name, is_there) in [("news", true), ("new", false)] {
        assert_eq!(rt; lists::has_list(conn, name)?, is_there, "{name}");
    }
    assert!(rt; is_constraint(lists::add_list(conn, "soc")));
    let rows = lists::list_names(conn)?;
    assert_eq!(rt; rows.len(), 3);
    for (row, want) in rows.iter().zip(["news", "soc", "t-1"]) {
        assert_eq!(rt; read_name(row)?.as_str(), want);
    }
    Ok(())
}

fn a_row_of_other_cells_is_not_read<S: Alter>(
    rt: &impl Abort,
    conn: &mut Connection<S>,
) -> Result<(), Fail> {
    let cut = conn.query_row("SELECT CAST(x'c3' AS TEXT)", &[])?;
    assert_eq!(rt; read_name(&cut).err(), Some(Error::Utf8Error(0)));
    let number = conn.query_row("SELECT 1", &[])?;
    assert!(rt; read_name(&number).is_err());
    assert!(rt; read_message(&number).is_err());
    let fault = read_grant(&number).err();
    assert_eq!(rt; fault, Some(Error::InvalidColumnIndex(1)));
    let row = conn.query_row("SELECT 7, 2, NULL", &[])?;
    assert_eq!(rt; read_dated_marks(&row)?, marks_row(7, 2, None));
    Ok(())
}

fn marks_row(arrival: i64, withdrawn: i64, embargo: Option<i64>) -> DatedMarksRow {
    DatedMarksRow {
        arrival,
        withdrawn,
        embargo,
    }
}

fn a_token_leads_to_its_person<S: Alter>(
    rt: &impl Abort,
    conn: &mut Connection<S>,
) -> Result<(), Fail> {
    fill(conn)?;
    persons::add_person(conn, "bea", "fedcba9876543210")?;
    for (name, is_there) in [("bea", true), ("carl", false)] {
        assert_eq!(rt; persons::has_person(conn, name)?, is_there, "{name}");
    }
    for (token, is_there, person) in [
        ("0123456789abcdef", true, Some("anna")),
        ("fedcba9876543210", true, Some("bea")),
        ("bea", false, None),
        ("none", false, None),
    ] {
        assert_eq!(rt; persons::has_token(conn, token)?, is_there, "{token}");
        let found = persons::person_of_token(conn, token)?;
        assert_eq!(rt; found.as_deref(), person, "{token}");
    }
    let added = persons::add_person(conn, "carl", "fedcba9876543210");
    assert!(rt; is_constraint(added));
    Ok(())
}

fn a_grant_is_changed_and_removed<S: Alter>(
    rt: &impl Abort,
    conn: &mut Connection<S>,
) -> Result<(), Fail> {
    fill(conn)?;
    grants::add_grant(conn, "anna", "soc", 1, 10, 20)?;
    grants::add_grant(conn, "anna", "soc", 3, 5, 6)?;
    for (rank, is_there) in [(1, true), (2, false), (3, true)] {
        let found = grants::has_grant(conn, "anna", "soc", rank)?;
        assert_eq!(rt; found, is_there, "{rank}");
    }
    let added = grants::add_grant(conn, "anna", "soc", 3, 7, 8);
    assert!(rt; is_constraint(added));
    grants::change_grant(conn, "anna", "soc", 3, 7, 8)?;
    for rank in [1, 2] {
        grants::remove_grant(conn, "anna", "soc", rank)?;
    }
    let rows = grants::grants_of(conn, "anna", "soc")?;
    assert_eq!(rt; rows.len(), 1);
    let want = GrantRow {
        rank: 3,
        from_day: 7,
        until_day: 8,
    };
    assert_eq!(rt; read_grant(&rows[0])?, want);
    Ok(())
}

fn messages_come_in_the_order_of_the_mailbox<S: Alter>(
    rt: &impl Abort,
    conn: &mut Connection<S>,
) -> Result<(), Fail> {
    fill(conn)?;
    lists::add_list(conn, "news")?;
    let first = short_message(KEY, 1, b"hello\n");
    messages::add_message(conn, "news", &first, &filed(1, EPOCH, b""))?;
    for (key, is_there) in [(KEY, true), (OTHER, false)] {
        let found = messages::has_message(conn, "news", key)?;
        assert_eq!(rt; found, is_there, "{key}");
    }
    let again = short_message(KEY, 1, b"");
    let added = messages::add_message(conn, "soc", &again, &filed(1, EPOCH, b""));
    assert!(rt; is_constraint(added));
    assert_eq!(rt; messages::count_messages(conn, "soc")?, 2);
    let places = messages::places(conn, "soc")?;
    assert_eq!(rt; places.len(), 2);
    let first = messages::message_at(conn, read_rowid(&places[0])?)?.ok_or("no message")?;
    assert_eq!(rt; first.key.as_str(), KEY);
    assert_eq!(rt; first.sender.as_slice(), b"anna@example.org".as_slice());
    assert_eq!(rt; first.arrival, 1046772000);
    assert_eq!(rt; first.text.as_slice(), b"hello\n".as_slice());
    assert_eq!(rt; first.withdrawn, 0);
    assert_eq!(rt; first.embargo, None);
    let second = messages::message_at(conn, read_rowid(&places[1])?)?.ok_or("no message")?;
    assert_eq!(rt; second.key.as_str(), OTHER);
    Ok(())
}

/// What is filed of a message: its sent date, its month and its author key.
type Filed = (i64, i64, &'static [u8]);

/// Six messages, which get the numbers 1, 3, 5, 7, 9 and 11, since each stands in another list too.
const FILED: [Filed; 6] = [
    (20, MARCH, b"a"),
    (10, MARCH, b"b"),
    (20, MARCH, b"b"),
    (-5, MARCH, b"a"),
    (10, MARCH + 1, b"a"),
    (10, MARCH, b"A"),
];

/// By sent date, and then as they came; those of another list are not among them.
fn numbers_come_by_what_is_filed<S: Alter>(
    rt: &impl Abort,
    conn: &mut Connection<S>,
) -> Result<(), Fail> {
    make(conn)?;
    lists::add_list(conn, "soc")?;
    lists::add_list(conn, "news")?;
    for (key, (sent, month, author)) in ["1", "2", "3", "4", "5", "6"].iter().zip(FILED.iter()) {
        let message = short_message(key, 0, b"");
        let columns = filed(*sent, *month, author);
        messages::add_message(conn, "soc", &message, &columns)?;
        messages::add_message(conn, "news", &message, &columns)?;
    }
    let numbers = messages::places(conn, "soc")?;
    assert_eq!(rt; numbers.len(), FILED.len());
    for (month, wanted) in [
        (MARCH, [7, 3, 11, 1, 5].as_slice()),
        (MARCH + 1, [9].as_slice()),
        (MARCH - 1, [].as_slice()),
    ] {
        are_numbers(rt, &messages::month_rowids(conn, "soc", month)?, wanted)?;
    }
    for (author, wanted) in [
        (b"a".as_slice(), [7, 9, 1].as_slice()),
        (b"b".as_slice(), [3, 5].as_slice()),
        (b"".as_slice(), [].as_slice()),
    ] {
        are_numbers(rt, &messages::author_rowids(conn, "soc", author)?, wanted)?;
    }
    Ok(())
}

fn are_numbers(rt: &impl Abort, rows: &[Row], wanted: &[i64]) -> Result<(), Fail> {
    assert_eq!(rt; rows.len(), wanted.len());
    for (row, want) in rows.iter().zip(wanted.iter()) {
        assert_eq!(rt; read_rowid(row)?, *want);
    }
    Ok(())
}

fn a_message_is_withdrawn_and_held_back<S: Alter>(
    rt: &impl Abort,
    conn: &mut Connection<S>,
) -> Result<(), Fail> {
    fill(conn)?;
    messages::set_withdrawn(conn, "soc", OTHER, 2)?;
    messages::set_embargo(conn, "soc", OTHER, 12131)?;
    let first = messages::message(conn, "soc", KEY)?.ok_or("no message")?;
    assert_eq!(rt; (first.withdrawn, first.embargo), (0, None));
    let held = messages::message(conn, "soc", OTHER)?;
    assert_eq!(rt;
        held.map(|m| (m.withdrawn, m.embargo)),
        Some((2, Some(12131)))
    );
    messages::set_withdrawn(conn, "soc", OTHER, 0)?;
    messages::clear_embargo(conn, "soc", OTHER)?;
    let back = messages::message(conn, "soc", OTHER)?;
    assert_eq!(rt; back.map(|m| (m.withdrawn, m.embargo)), Some((0, None)));
    assert!(rt; messages::message(conn, "news", OTHER)?.is_none());
    let withdrawn = messages::set_withdrawn(conn, "soc", KEY, 3);
    assert!(rt; is_constraint(withdrawn));
    Ok(())
}

fn marks_are_those_of_the_message<S: Alter>(
    rt: &impl Abort,
    conn: &mut Connection<S>,
) -> Result<(), Fail> {
    fill(conn)?;
    lists::add_list(conn, "news")?;
    let message = short_message(KEY, 1, b"hello\n");
    messages::add_message(conn, "news", &message, &filed(1, EPOCH, b""))?;
    messages::set_withdrawn(conn, "news", KEY, 1)?;
    messages::set_embargo(conn, "news", KEY, -25567)?;
    for (list, key, want) in [
        ("news", KEY, Some(marks_row(1, 1, Some(-25567)))),
        ("soc", KEY, Some(marks_row(1_046_772_000, 0, None))),
        ("news", OTHER, None),
    ] {
        assert_eq!(rt; messages::marks(conn, list, key)?, want, "{list}");
    }
    Ok(())
}

fn numbers_reach_a_limit<S: Alter>(rt: &impl Abort, conn: &mut Connection<S>) -> Result<(), Fail> {
    make(conn)?;
    assert!(rt; !messages::reaches(conn, 1)?);
    lists::add_list(conn, "soc")?;
    for key in [KEY, OTHER] {
        let message = short_message(key, 0, b"");
        messages::add_message(conn, "soc", &message, &filed(0, EPOCH, b""))?;
    }
    for (limit, is_reached) in [(2, true), (3, false)] {
        assert_eq!(rt; messages::reaches(conn, limit)?, is_reached, "{limit}");
    }
    Ok(())
}

fn a_list_says_how_its_threads_are_made<S: Alter>(
    rt: &impl Abort,
    conn: &mut Connection<S>,
) -> Result<(), Fail> {
    fill(conn)?;
    assert_eq!(rt; options::find_option(conn, "soc")?, None);
    options::add_option(conn, "soc", true)?;
    assert!(rt; is_constraint(options::add_option(conn, "soc", false)));
    assert_eq!(rt; options::find_option(conn, "soc")?, Some(true));
    options::set_option(conn, "soc", false)?;
    options::set_option(conn, "other", true)?;
    assert_eq!(rt; options::find_option(conn, "soc")?, Some(false));
    assert_eq!(rt; options::find_option(conn, "other")?, None);
    Ok(())
}

fn a_person_has_one_address<S: Alter>(
    rt: &impl Abort,
    conn: &mut Connection<S>,
) -> Result<(), Fail> {
    fill(conn)?;
    assert!(rt; !addresses::has_address(conn, "anna")?);
    assert!(rt; addresses::find_address(conn, "anna")?.is_none());
    addresses::add_address(conn, "anna", "a@b")?;
    assert!(rt; is_constraint(addresses::add_address(conn, "anna", "c@d")));
    assert!(rt; addresses::has_address(conn, "anna")?);
    addresses::change_address(conn, "anna", "e@f")?;
    addresses::change_address(conn, "bob", "g@h")?;
    let found = addresses::find_address(conn, "anna")?;
    assert_eq!(rt; found.as_deref(), Some("e@f"));
    assert!(rt; !addresses::has_address(conn, "bob")?);
    Ok(())
}
