//! Files of versions 1 and 2, made by the texts of their time: their pages, their export and their check are what they were, also
//! where a disk stopped while they were brought over.
use crate::breaking::{Stage, Step, over_files};
use crate::disks::{Held, few_pages, hold_the_same, left, new_files, stopping};
use archive_desk::{DeskError, ExportStop, export};
use archive_port::ArchiveStore;
use archive_results::{Ask, Reader};
use mbox_core::device::Tap;
use pages_tests::cases::today;
use pages_tests::pages::{OF_TWO, all_get};
use policy_core::Policy;
use sqlite::Connection;
use std::alloc::Global;
use std::process::Abort;
use std::test::Fail;

/// The tables and indexes of version 1, and its list with two messages.
static FIRST: [&str; 10] = [
    "CREATE TABLE version (number INTEGER NOT NULL) STRICT",
    "CREATE TABLE list (name TEXT NOT NULL PRIMARY KEY) STRICT",
    "CREATE TABLE person (name TEXT NOT NULL PRIMARY KEY, token TEXT NOT NULL UNIQUE) STRICT",
    "CREATE TABLE grant_row (person TEXT NOT NULL REFERENCES person (name), list TEXT NOT NULL REFERENCES list (name), kind INTEGER NOT NULL CHECK (kind BETWEEN 1 AND 3), from_day INTEGER NOT NULL CHECK (from_day BETWEEN -25567 AND 2932531), until_day INTEGER NOT NULL CHECK (until_day BETWEEN -25567 AND 2932531), PRIMARY KEY (person, list, kind), CHECK (from_day <= until_day)) STRICT",
    "CREATE TABLE message (pos INTEGER PRIMARY KEY AUTOINCREMENT, list TEXT NOT NULL REFERENCES list (name), key TEXT NOT NULL, sender BLOB NOT NULL, arrival INTEGER NOT NULL, text BLOB NOT NULL, withdrawn INTEGER NOT NULL CHECK (withdrawn BETWEEN 0 AND 2), embargo INTEGER CHECK (embargo BETWEEN -25567 AND 2932531), sent INTEGER NOT NULL, month INTEGER NOT NULL, author BLOB NOT NULL, UNIQUE (list, key)) STRICT",
    "CREATE INDEX message_by_month ON message (list, month, sent, pos)",
    "CREATE INDEX message_by_author ON message (list, author, sent, pos)",
    "INSERT INTO list (name) VALUES ('soc')",
    "INSERT INTO message (list, key, sender, arrival, text, withdrawn, embargo, sent, month, author) VALUES ('soc', 'a9fda901d43094a70ddaab56f97a3ed4ab7d9e3f14e4c1717930bee493395661', x'616e6e61406578616d706c652e6f7267', 1046772000, x'46726f6d3a20416e6e61203c616e6e61406578616d706c652e6f72673e0a5375626a6563743a2048656c6c6f0a0a4f6e652e0a', 0, NULL, 1046772000, 24038, x'616e6e61406578616d706c652e6f7267')",
    "INSERT INTO message (list, key, sender, arrival, text, withdrawn, embargo, sent, month, author) VALUES ('soc', 'd41bdfeadb4b458370ddcfa1a3a8aa91197973a0a547288c06ee2a2ae4dbf327', x'626f62406578616d706c652e6f7267', 1047465000, x'5375626a6563743a2052653a2048656c6c6f0a0a54776f2e0a', 0, NULL, 1047465000, 24038, x'')",
];

static NUMBER_1: [&str; 1] = ["INSERT INTO version (number) VALUES (1)"];

/// What version 2 has beside them.
static SECOND: [&str; 3] = [
    "CREATE TABLE list_option (list TEXT NOT NULL PRIMARY KEY REFERENCES list (name), merge INTEGER NOT NULL CHECK (merge BETWEEN 0 AND 1)) STRICT",
    "INSERT INTO list_option (list, merge) VALUES ('soc', 1)",
    "INSERT INTO version (number) VALUES (2)",
];

/// More calls than a disk gets while a file is brought over.
const CALLS: u64 = 1000;

/// The files of version 1 or of version 2.
fn made(alloc: Global, more: &[&'static str]) -> Result<Held, Fail> {
    let files = new_files(alloc);
    if !files.may_be_used() {
        return Err(Fail::from("files that may be used"));
    }
    let Ok(mut connection) = Connection::open_files(alloc, files, few_pages()) else {
        return Err(Fail::from("an open file"));
    };
    for text in FIRST.iter().chain(more.iter()) {
        connection.execute(text, &[])?;
    }
    match connection.close_files() {
        Ok(files) => Ok(files),
        Err((_error, _store)) => Err(Fail::from("a closed file")),
    }
}

/// All pages of both messages; their export to a writer that takes ten bytes; and the store is whole.
pub fn is_as_before<A: ArchiveStore>(
    rt: &impl Abort,
    alloc: Global,
    store: &mut A,
) -> Result<(), Fail> {
    let policy = Policy::open();
    all_get(alloc, store, &policy, &OF_TWO)?;
    let ask = Ask {
        policy: &policy,
        reader: Reader::Nobody,
        list: "soc",
        day: today()?,
    };
    let mut out = Tap::new(alloc, b"", 10)?;
    let stopped = ExportStop {
        written: 10,
        fault: DeskError::Write,
    };
    assert_eq!(rt; export(store, alloc, &ask, &mut out), Err(stopped));
    assert_eq!(rt; out.bytes(), b"From anna@".as_slice());
    assert!(rt; store.check(alloc).is_ok());
    Ok(())
}

/// The log or the database file stops at each call in turn while the file is brought over: what is left is as before. It is looked at
/// where it is not what the stop before left.
fn stop_at_each_call(
    rt: &impl Abort,
    alloc: Global,
    files: &Held,
    is_log: bool,
) -> Result<(), Fail> {
    let mut seen = new_files(alloc);
    for calls in 0..CALLS {
        let (log, db) = if is_log {
            (calls, CALLS)
        } else {
            (CALLS, calls)
        };
        let fuses = stopping(alloc, files, log, db)?;
        let (opened, stopped) = over_files(rt, alloc, fuses, Step::Open)?;
        if !hold_the_same(&stopped, &seen) {
            seen = left(alloc, &stopped)?;
            let (shown, _files) = over_files(rt, alloc, left(alloc, &stopped)?, Step::Show)?;
            assert_eq!(rt; shown, Stage::Whole, "{calls}");
        }
        if opened == Stage::Whole {
            assert!(rt; calls > 0, "a disk that is called");
            return Ok(());
        }
    }
    Err(Fail::from("a disk that stops no more"))
}

#[test]
fn older_files_show_what_they_showed(rt: HostRuntime) -> Result<(), Fail> {
    for more in [NUMBER_1.as_slice(), SECOND.as_slice()] {
        let files = made(rt.alloc(), more)?;
        stop_at_each_call(&rt, rt.alloc(), &files, true)?;
        stop_at_each_call(&rt, rt.alloc(), &files, false)?;
    }
    Ok(())
}
