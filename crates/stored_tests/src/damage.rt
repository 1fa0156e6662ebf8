//! Rows that another program changed: `check` names the first, months and authors are by what is filed, and a question that
//! meets a row that cannot be read is E15.
use archive_desk::{DeskError, ExportStop, author, export, import, month, threads};
use archive_port::{ArchiveStore, CheckError, Key, StoreFault};
use archive_results::{Ask, Line, TreeLine};
use archive_store::Store;
use civil_time::Month;
use desk_tests::cases::{TWO, WITHDRAWN, by_nobody};
use desk_tests::listings::are_subjects;
use mbox_core::cut;
use mbox_core::device::Tap;
use policy_core::Policy;
use sqlite::{Connection, MemStore};
use std::alloc::Global;
use std::process::Abort;
use std::test::Fail;
use thread_core::PlainThreader;

/// Three messages, named by their subjects. The second answers the first, and the third is of April.
const THREE: &[u8] = b"\
From anna@example.org Tue Mar  4 10:00:00 2003\nFrom: anna@example.org\nMessage-ID: <1@x>\nSubject: one\n\n1\n\n\
From bob@example.org Wed Mar  5 10:00:00 2003\nFrom: bob@example.org\nIn-Reply-To: <1@x>\nSubject: two\n\n2\n\n\
From anna@example.org Tue Apr  1 10:00:00 2003\nFrom: anna@example.org\nSubject: three\n\n3\n\n";

/// Where the second message begins.
const SECOND: usize = 105;

/// The same with another text in the second.
const OTHER: &[u8] = b"\
From anna@example.org Tue Mar  4 10:00:00 2003\nFrom: anna@example.org\nMessage-ID: <1@x>\nSubject: one\n\n1\n\n\
From bob@example.org Wed Mar  5 10:00:00 2003\nSubject: other\n\nx\n\n\
From anna@example.org Tue Apr  1 10:00:00 2003\nFrom: anna@example.org\nSubject: three\n\n3\n\n";

/// What is answered where a row cannot be read.
const UNREADABLE: DeskError = DeskError::Store(StoreFault::Store);

/// The subjects of lines. None: E15.
type Shown = Option<&'static [&'static [u8]]>;

/// The depth and the subject of each row of the threads. None: E15.
type Rows = Option<&'static [(usize, &'static [u8])]>;

/// What another program set in the row of the second message, and what is answered then.
#[derive(Clone, Copy)]
struct Case {
    set: &'static str,
    /// The key that `check` names. None where it finds nothing.
    named: Option<&'static [u8]>,
    march: Shown,
    april: Shown,
    by_bob: Shown,
    threads: Rows,
    /// None where it breaks off behind the first message, by E15.
    export: Option<&'static [u8]>,
}

/// The key of the second message.
const KEY: &[u8] = b"82eb8668c099cf651c31cd8ed84f341053a8a2fa556240a6f876a86ddd99d4de";

const OTHER_KEY: &[u8] = b"aaaaaaaaaaaaaaaaaaaaaaaaaaaaaaaaaaaaaaaaaaaaaaaaaaaaaaaaaaaaaaaa";

/// The row is as it was.
const SAME: Case = Case {
    set: "month = month",
    named: None,
    march: Some(&[b"one", b"two"]),
    april: Some(&[b"three"]),
    by_bob: Some(&[b"two"]),
    threads: Some(&[(0, b"one"), (1, b"two"), (0, b"three")]),
    export: Some(THREE),
};

/// It has another text.
const CHANGED: Case = Case {
    set: "text = x'5375626a6563743a206f746865720a0a780a'",
    named: Some(KEY),
    march: Some(&[b"one", b"other"]),
    by_bob: Some(&[b"other"]),
    threads: Some(&[(0, b"one"), (0, b"other"), (0, b"three")]),
    export: Some(OTHER),
    ..SAME
};

/// It cannot be read.
const LOST: Case = Case {
    set: "sender = x'0a'",
    named: Some(KEY),
    march: None,
    by_bob: None,
    threads: None,
    export: None,
    ..SAME
};

/// A row that can be read is found by what is filed of it, and shown by its text. One that cannot be read is in the way of the
/// questions that meet it, and of no other.
const CASES: [Case; 14] = [
    SAME,
    // another key, none, and one that is no text
    Case {
        set: "key = 'aaaaaaaaaaaaaaaaaaaaaaaaaaaaaaaaaaaaaaaaaaaaaaaaaaaaaaaaaaaaaaaa'",
        named: Some(OTHER_KEY),
        ..SAME
    },
    Case {
        set: "key = 'two'",
        named: Some(b"two"),
        ..LOST
    },
    Case {
        set: "key = CAST(x'c3' AS TEXT)",
        named: Some(b"\xc3"),
        ..LOST
    },
    // a sender and an arrival that are none
    LOST,
    Case {
        set: "arrival = 9223372036854775807",
        ..LOST
    },
    // its own text without the LF at its end, another text, with and without it, and one that holds a separator line
    Case {
        set: "text = x'46726f6d3a20626f62406578616d706c652e6f72670a496e2d5265706c792d546f3a203c3140783e0a5375626a6563743a2074776f0a0a32'",
        named: Some(KEY),
        ..SAME
    },
    CHANGED,
    Case {
        set: "text = x'5375626a6563743a206f746865720a0a78'",
        ..CHANGED
    },
    Case {
        set: "text = x'5375626a6563743a206f746865720a0a46726f6d2061406220547565204d61722020342031303a30303a303020323030330a'",
        ..LOST
    },
    // another sent date, month and author key
    Case {
        set: "sent = 0",
        named: Some(KEY),
        march: Some(&[b"two", b"one"]),
        ..SAME
    },
    Case {
        set: "month = month + 1",
        named: Some(KEY),
        march: Some(&[b"one"]),
        april: Some(&[b"two", b"three"]),
        ..SAME
    },
    Case {
        set: "author = x'61'",
        named: Some(KEY),
        by_bob: Some(&[]),
        ..SAME
    },
    // what cannot be read is not in the way where it is filed elsewhere
    Case {
        set: "sender = x'0a', month = 0, author = x'61'",
        march: Some(&[b"one"]),
        by_bob: Some(&[]),
        ..LOST
    },
];

/// A store over a connection that another program used.
fn adopted(connection: Connection<MemStore>) -> Result<Store<MemStore>, Fail> {
    match Store::adopt(connection) {
        Ok(store) => Ok(store),
        Err(_stop) => Err(Fail::from("a store")),
    }
}

/// The list `soc` with these messages, once another program has carried this statement out.
pub fn changed(alloc: Global, mbox: &[u8], statement: &str) -> Result<Store<MemStore>, Fail> {
    let mut store = Store::open_in_memory(alloc)?;
    store.list_add("soc")?;
    import(&mut store, alloc, "soc", mbox)?;
    let mut connection = store.into_connection();
    connection.execute(statement, &[])?;
    adopted(connection)
}

/// `check` names the message of this key in `soc`, or none.
fn is_named<A: ArchiveStore>(
    rt: &impl Abort,
    alloc: Global,
    store: &mut A,
    wanted: Option<&[u8]>,
) -> Result<(), Fail> {
    match store.check(alloc) {
        Ok(()) => assert!(rt; wanted.is_none()),
        Err(CheckError::Damaged { list, key }) => {
            assert_eq!(rt; list.as_slice(), b"soc".as_slice());
            assert_eq!(rt; Some(key.as_slice()), wanted);
        }
        Err(CheckError::Failed(fault)) => return Err(Fail::from(fault)),
    }
    Ok(())
}

fn are_lines(
    rt: &impl Abort,
    found: Result<Vec<Line>, DeskError>,
    wanted: Shown,
) -> Result<(), Fail> {
    match (found, wanted) {
        (Ok(lines), Some(subjects)) => are_subjects(&lines, subjects),
        (Err(fault), None) => {
            assert_eq!(rt; fault, UNREADABLE);
            Ok(())
        }
        _ => Err(Fail::from("other lines")),
    }
}

fn are_rows(
    rt: &impl Abort,
    found: Result<Vec<TreeLine>, DeskError>,
    wanted: Rows,
) -> Result<(), Fail> {
    match (found, wanted) {
        (Ok(rows), Some(shown)) => {
            assert_eq!(rt; rows.len(), shown.len());
            for (row, (depth, subject)) in rows.iter().zip(shown.iter()) {
                let line = row.line.as_ref().ok_or("a line")?;
                assert_eq!(rt; (row.depth, line.subject.as_slice()), (*depth, *subject));
            }
            Ok(())
        }
        (Err(fault), None) => {
            assert_eq!(rt; fault, UNREADABLE);
            Ok(())
        }
        _ => Err(Fail::from("other threads")),
    }
}

fn is_export<A: ArchiveStore>(
    rt: &impl Abort,
    alloc: Global,
    store: &mut A,
    ask: &Ask<'_>,
    wanted: Option<&[u8]>,
) -> Result<(), Fail> {
    let mut out = Tap::new(alloc, b"", 1000)?;
    let told = export(store, alloc, ask, &mut out);
    match wanted {
        Some(text) => {
            assert_eq!(rt; told, Ok(text.len() as u64));
            assert_eq!(rt; out.bytes(), text);
        }
        None => {
            let stop = ExportStop {
                written: SECOND as u64,
                fault: UNREADABLE,
            };
            assert_eq!(rt; told, Err(stop));
            assert_eq!(rt; Some(out.bytes()), THREE.get(..SECOND));
        }
    }
    Ok(())
}

fn month_of<A: ArchiveStore>(
    alloc: Global,
    store: &mut A,
    ask: &Ask<'_>,
    text: &str,
) -> Result<Result<Vec<Line>, DeskError>, Fail> {
    let asked = Month::read(text.as_bytes()).ok_or("a month")?;
    Ok(month(store, alloc, ask, asked))
}

/// Asks each question of a store whose second message was changed.
fn ask_each<A: ArchiveStore>(
    rt: &impl Abort,
    alloc: Global,
    store: &mut A,
    case: &Case,
) -> Result<(), Fail> {
    is_named(rt, alloc, store, case.named)?;
    let policy = Policy::open();
    let ask = by_nobody(&policy)?;
    are_lines(rt, month_of(alloc, store, &ask, "2003-03")?, case.march)?;
    are_lines(rt, month_of(alloc, store, &ask, "2003-04")?, case.april)?;
    let by_bob = author(store, alloc, &ask, b"bob@example.org");
    are_lines(rt, by_bob, case.by_bob)?;
    are_rows(
        rt,
        threads(store, alloc, &ask, &PlainThreader),
        case.threads,
    )?;
    is_export(rt, alloc, store, &ask, case.export)
}

#[test]
fn each_damage_to_a_row_shows_where_it_is_met(rt: HostRuntime) -> Result<(), Fail> {
    for case in CASES.iter() {
        let statement = format!(in rt.alloc(); "UPDATE message SET {} WHERE pos = 2", case.set)?;
        let mut store = changed(rt.alloc(), THREE, statement.as_str())?;
        ask_each(&rt, rt.alloc(), &mut store, case)?;
    }
    Ok(())
}

/// The first message is named, and the months are one later.
fn are_a_month_later<A: ArchiveStore>(
    rt: &impl Abort,
    alloc: Global,
    store: &mut A,
) -> Result<(), Fail> {
    let first = Key::of(&cut(TWO)?.next().ok_or("a message")?);
    is_named(rt, alloc, store, Some(first.as_str().as_bytes()))?;
    let policy = Policy::open();
    let ask = by_nobody(&policy)?;
    for (text, wanted) in [
        ("2003-03", [].as_slice()),
        ("2003-04", [b"Hello".as_slice(), b"Re: Hello"].as_slice()),
    ] {
        let lines = month_of(alloc, store, &ask, text)??;
        are_subjects(&lines, wanted)?;
    }
    Ok(())
}

#[test]
fn months_are_by_the_column(rt: HostRuntime) -> Result<(), Fail> {
    let mut store = changed(rt.alloc(), TWO, "UPDATE message SET month = month + 1")?;
    are_a_month_later(&rt, rt.alloc(), &mut store)
}

/// What is set in the row of the second message, which is withdrawn too, and the lines of its month and of its author: where the
/// policy withholds a message its text is not read, so one that cannot be read is in the way only by its marks.
const WITHHELD: [(&str, Shown, Shown); 5] = [
    ("key = 'two'", Some(&[b"one"]), Some(&[])),
    ("sender = x'0a'", Some(&[b"one"]), Some(&[])),
    (
        "text = x'0a46726f6d2061406220547565204d61722020342031303a30303a303020323030330a'",
        Some(&[b"one"]),
        Some(&[]),
    ),
    ("embargo = -25567", Some(&[b"one"]), Some(&[])),
    ("arrival = 9223372036854775807", None, None),
];

/// The lines of the month and of the author.
fn are_withheld<A: ArchiveStore>(
    rt: &impl Abort,
    alloc: Global,
    store: &mut A,
    march: Shown,
    by_bob: Shown,
) -> Result<(), Fail> {
    let policy = Policy::read(alloc, WITHDRAWN)?;
    let ask = by_nobody(&policy)?;
    are_lines(rt, month_of(alloc, store, &ask, "2003-03")?, march)?;
    are_lines(rt, author(store, alloc, &ask, b"bob@example.org"), by_bob)
}

#[test]
fn what_is_withheld_is_not_read(rt: HostRuntime) -> Result<(), Fail> {
    for (set, march, by_bob) in WITHHELD {
        let statement = format!(in rt.alloc();
            "UPDATE message SET withdrawn = 2, {set} WHERE pos = 2"
        )?;
        let mut store = changed(rt.alloc(), THREE, statement.as_str())?;
        are_withheld(&rt, rt.alloc(), &mut store, march, by_bob)?;
    }
    Ok(())
}
