//! Files of versions 1 and 2, made by the texts of their time: what opens them brings them over, and they hold what they held. So
//! it is where a disk stops meanwhile, and of a file with many lists.
use crate::cases::Case;
use crate::files::{TABLES, few_pages, new_files, tell_files};
use crate::stops::{fused, hold_the_same, left};
use archive_store::{Store, StoreFault};
use policy_core::{Standing, Withdrawn};
use sqlite::{Alter, Connection, Files};
use sqlite_disk::Memory;
use std::alloc::Global;
use std::process::Abort;
use std::test::Fail;

/// The rows of a file, whatever its version: two lists, a person with a grant, and two messages of which one is withdrawn.
static ROWS: [&str; 6] = [
    "INSERT INTO list (name) VALUES ('soc')",
    "INSERT INTO list (name) VALUES ('other')",
    "INSERT INTO person (name, token) VALUES ('anna', '0123456789abcdef')",
    "INSERT INTO grant_row (person, list, kind, from_day, until_day) VALUES ('anna', 'soc', 1, 12053, 12417)",
    "INSERT INTO message (list, key, sender, arrival, text, withdrawn, embargo, sent, month, author) VALUES ('soc', \
     '2c8b08da5ce60398e1f19af0e5dccc744df274b826abe585eaba68c525434806', x'614062', 1046772000, x'6f6e650a', 1, NULL, \
     1046772000, 24038, x'')",
    "INSERT INTO message (list, key, sender, arrival, text, withdrawn, embargo, sent, month, author) VALUES ('soc', \
     '27dd8ed44a83ff94d557f9fd0412ed5a8cbca69ea04922d88c01184a07300a5a', x'634064', 1046772000, x'74776f0a', 0, NULL, \
     1046772000, 24038, x'')",
];

/// What version 2 has beside them: the threads of `soc` are not gathered by subject.
static OPTIONS: [&str; 2] = [
    "INSERT INTO list_option (list, merge) VALUES ('soc', 0)",
    "INSERT INTO list_option (list, merge) VALUES ('other', 1)",
];

/// How many lists a file of many has: more than a page has rows of their options.
const MANY: u32 = 500;

/// A file that is brought over.
#[derive(Clone, Copy, Debug)]
enum Form {
    /// Of version 1.
    First,
    /// Of version 2.
    Second,
    /// Of version 1, with many lists and nothing else.
    Many,
}

const FORMS: [Form; 3] = [Form::First, Form::Second, Form::Many];

/// What a store over such a file is told.
fn held(form: Form) -> Case {
    match form {
        Form::First => Case::OfFirst,
        Form::Second => Case::OfSecond,
        Form::Many => Case::OfMany,
    }
}

/// The files of a database of this form.
fn older(alloc: Global, form: Form) -> Result<Files<Memory>, Fail> {
    let files = new_files(alloc);
    if !files.may_be_used() {
        return Err(Fail::from("files that may be used"));
    }
    let Ok(mut connection) = Connection::open_files(alloc, files, few_pages()) else {
        return Err(Fail::from("an open file"));
    };
    fill(alloc, &mut connection, form)?;
    match connection.close_files() {
        Ok(files) => Ok(files),
        Err((_error, _store)) => Err(Fail::from("a closed file")),
    }
}

fn fill<S: Alter>(alloc: Global, connection: &mut Connection<S>, form: Form) -> Result<(), Fail> {
    let (tables, rows, options, number) = match form {
        Form::First => (7, ROWS.len(), 0, "INSERT INTO version (number) VALUES (1)"),
        Form::Second => (
            8,
            ROWS.len(),
            OPTIONS.len(),
            "INSERT INTO version (number) VALUES (2)",
        ),
        Form::Many => (7, 0, 0, "INSERT INTO version (number) VALUES (1)"),
    };
    let texts = TABLES.iter().take(tables);
    for text in texts
        .chain(ROWS.iter().take(rows))
        .chain(OPTIONS.iter().take(options))
    {
        connection.execute(text, &[])?;
    }
    connection.execute(number, &[])?;
    match form {
        Form::Many => add_many(alloc, connection),
        _ => Ok(()),
    }
}

fn add_many<S: Alter>(alloc: Global, connection: &mut Connection<S>) -> Result<(), Fail> {
    connection.execute("BEGIN", &[])?;
    for number in 0..MANY {
        let text = format!(in alloc; "INSERT INTO list (name) VALUES ('l-{number}')")?;
        connection.execute(text.as_str(), &[])?;
    }
    connection.execute("COMMIT", &[])?;
    Ok(())
}

/// A store holds what such a file held.
pub fn is_brought_over<S: Alter>(
    rt: &impl Abort,
    alloc: Global,
    store: &mut Store<S>,
    is_second: bool,
) -> Result<(), Fail> {
    for (list, merge) in [
        ("soc", Ok(!is_second)),
        ("other", Ok(true)),
        ("xyz", Err(StoreFault::NoList)),
    ] {
        assert_eq!(rt; store.merge_of(list), merge, "{list}");
    }
    assert!(rt; store.address("anna")?.is_none());
    let day = crate::questions::day("2003-03-04")?;
    assert_eq!(rt; store.standing("anna", "soc", day), Ok(Standing::Member));
    are_both_messages(rt, alloc, store)?;
    assert!(rt; store.check(alloc).is_ok());
    Ok(())
}

fn are_both_messages<S: Alter>(
    rt: &impl Abort,
    alloc: Global,
    store: &mut Store<S>,
) -> Result<(), Fail> {
    let rows = store.rows(alloc, "soc")?;
    assert_eq!(rt; rows.len(), 2);
    for (row, (text, withdrawn)) in rows.iter().zip([
        (b"one\n".as_slice(), Withdrawn::Author),
        (b"two\n".as_slice(), Withdrawn::No),
    ]) {
        assert_eq!(rt; row.item.as_item().text, text);
        assert_eq!(rt; row.withdrawn, withdrawn);
    }
    Ok(())
}

/// Each of the many lists has its option, and one that is added then has one too.
pub fn are_many<S: Alter>(
    rt: &impl Abort,
    alloc: Global,
    store: &mut Store<S>,
) -> Result<(), Fail> {
    store.list_add("new").ok();
    let names = store.lists(alloc)?;
    assert_eq!(rt; names.len(), 501);
    for name in &names {
        assert_eq!(rt; store.merge_of(name), Ok(true), "{name}");
    }
    Ok(())
}

#[test]
fn older_files_hold_what_they_held(rt: HostRuntime) -> Result<(), Fail> {
    for form in FORMS {
        let mut files = older(rt.alloc(), form)?;
        for _ in 0..2 {
            let (told, left) = tell_files(&rt, rt.alloc(), files, held(form))?;
            assert_eq!(rt; told, Some(1), "{form:?}");
            files = left;
        }
    }
    Ok(())
}

/// The log or the database file stops at each call in turn while the file is brought over: what is left holds what it held. It is
/// looked at where it is not what the stop before left.
fn stop_at_each_call(rt: &impl Abort, alloc: Global, form: Form, is_log: bool) -> Result<(), Fail> {
    let files = older(alloc, form)?;
    let mut seen = new_files(alloc);
    for calls in 0..400 {
        let (log, db) = if is_log {
            (calls, 1_000)
        } else {
            (1_000, calls)
        };
        let stopping = fused(alloc, &files, log, db)?;
        let (adopted, stopped) = tell_files(rt, alloc, stopping, Case::Nothing)?;
        if !hold_the_same(&stopped, &seen) {
            seen = left(alloc, &stopped)?;
            let (told, _files) = tell_files(rt, alloc, left(alloc, &stopped)?, held(form))?;
            assert_eq!(rt; told, Some(1), "{calls}");
        }
        if adopted.is_some() {
            return Ok(());
        }
    }
    Err(Fail::from("a disk that stops no more"))
}

#[test]
fn a_log_that_stops_leaves_an_older_file_or_a_new_one(rt: HostRuntime) -> Result<(), Fail> {
    for form in [Form::First, Form::Second] {
        stop_at_each_call(&rt, rt.alloc(), form, true)?;
    }
    Ok(())
}

#[test]
fn a_file_that_stops_is_an_older_one_or_a_new_one(rt: HostRuntime) -> Result<(), Fail> {
    for form in [Form::First, Form::Second] {
        stop_at_each_call(&rt, rt.alloc(), form, false)?;
    }
    Ok(())
}
