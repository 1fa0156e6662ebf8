//! An mbox that is asked for over files whose disks stop.
use crate::disks::{Held, few_pages, new_files, one_page, stopping};
use crate::older::is_as_before;
use archive_desk::import;
use archive_pages::{ServeFault, answer};
use archive_port::ArchiveStore;
use archive_store::{AdoptStop, Store};
use desk_tests::commands::list_add;
use mbox_core::device::Tap;
use pages_tests::calls::each_call;
use pages_tests::cases::today;
use policy_core::Policy;
use sqlite::{Connection, FileStore, Files};
use sqlite_disk::Disk;
use std::alloc::Global;
use std::process::Abort;
use std::test::Fail;
use thread_core::PlainThreader;

/// A request for the mbox.
const GET: &[u8] = b"GET /l/soc/mbox HTTP/1.1\r\n\r\n";

/// The head of its reply.
const HEAD: &[u8] =
    b"HTTP/1.1 200 OK\r\nContent-Type: application/mbox\r\nConnection: close\r\n\r\n";

/// More calls than a disk gets while an mbox is asked for: two to the power of `DOUBLINGS`.
const CALLS: u64 = 4096;

const DOUBLINGS: u32 = 12;

/// The headers of three messages, as an mbox has them.
const HEADERS: [&[u8]; 3] = [
    b"From anna@example.org Tue Mar  4 10:00:00 2003\nSubject: one\n\n",
    b"From bob@example.org Wed Mar 12 10:30:00 2003\nSubject: two\n\n",
    b"From cleo@example.org Thu Mar 13 11:00:00 2003\nSubject: three\n\n",
];

/// A line of a body.
const LINE: &[u8] = b"A body takes more bytes than a page of the database has.\n";

/// How many lines a body has.
const LINES: usize = 100;

/// 503.
pub const UNAVAILABLE: &[u8] =
    b"HTTP/1.1 503 Service Unavailable\r\nContent-Type: text/plain; charset=us-ascii\r\nContent-Length: 24\r\n\
      Connection: close\r\n\r\n503 Service Unavailable\n";

/// How far a request came.
#[derive(Clone, Copy, Debug, PartialEq, Eq)]
pub enum Stage {
    /// The files were not opened.
    Shut,
    /// The reply was 503.
    Unavailable,
    /// The reply broke off behind the head and so many messages.
    Broken(usize),
    /// The reply was whole.
    Whole,
}

/// Each stage, in the order in which disks that stop later reach it.
const STAGES: [Stage; 6] = [
    Stage::Shut,
    Stage::Unavailable,
    Stage::Broken(0),
    Stage::Broken(1),
    Stage::Broken(2),
    Stage::Whole,
];

/// What is done with a store.
#[derive(Clone, Copy)]
pub enum Step {
    /// Nothing.
    Open,
    /// Nothing, over a cache of one page, as `Ask` has it.
    OpenToAsk,
    Import,
    Ask,
    /// Each call of the desk and of the pages, on a store that is empty.
    Call,
    /// What it shows is looked at.
    Show,
}

/// Adds a message of these headers.
fn push_message(text: &mut Vec<u8>, headers: &[u8]) -> Result<(), Fail> {
    text.extend_from_slice(headers)?;
    for _line in 0..LINES {
        text.extend_from_slice(LINE)?;
    }
    text.push(b'\n')?;
    Ok(())
}

/// The first messages, behind this head.
fn first(alloc: Global, head: &[u8], count: usize) -> Result<Vec<u8>, Fail> {
    let mut text = Vec::new(alloc);
    text.extend_from_slice(head)?;
    for headers in HEADERS.iter().take(count) {
        push_message(&mut text, headers)?;
    }
    Ok(text)
}

/// How many messages stand behind a head in a reply that broke off.
fn count_of(alloc: Global, reply: &[u8]) -> Result<usize, Fail> {
    for count in 0..=HEADERS.len() {
        if first(alloc, HEAD, count)?.as_slice() == reply {
            return Ok(count);
        }
    }
    Err(Fail::from("the head and whole messages"))
}

/// Asks a store for the mbox: what is said of a reply that broke off is what was written.
fn ask<A: ArchiveStore>(rt: &impl Abort, alloc: Global, store: &mut A) -> Result<Stage, Fail> {
    let mut input = Tap::new(alloc, GET, 1000)?;
    let mut output = Tap::new(alloc, b"", 30_000)?;
    let told = answer(
        store,
        alloc,
        &Policy::open(),
        &PlainThreader,
        today()?,
        &mut input,
        &mut output,
    );
    match told {
        Ok(_) if output.bytes() == UNAVAILABLE => Ok(Stage::Unavailable),
        Ok(_) => {
            assert_eq!(rt; count_of(alloc, output.bytes())?, HEADERS.len());
            Ok(Stage::Whole)
        }
        Err(ServeFault::Broken { written }) => {
            assert_eq!(rt; written, output.bytes().len() as u64);
            Ok(Stage::Broken(count_of(alloc, output.bytes())?))
        }
        Err(_) => Err(Fail::from("an input and an output that do not fail")),
    }
}

fn take_step<A: ArchiveStore>(
    rt: &impl Abort,
    alloc: Global,
    store: &mut A,
    step: Step,
) -> Result<Stage, Fail> {
    match step {
        Step::Open | Step::OpenToAsk => Ok(Stage::Whole),
        Step::Ask => ask(rt, alloc, store),
        Step::Call => {
            each_call(alloc, store)?;
            Ok(Stage::Whole)
        }
        Step::Show => {
            is_as_before(rt, alloc, store)?;
            Ok(Stage::Whole)
        }
        Step::Import => {
            list_add(store, "soc")?;
            import(store, alloc, "soc", &first(alloc, b"", HEADERS.len())?)?;
            Ok(Stage::Whole)
        }
    }
}

/// Opens a store over these files, takes a step, and hands the files back.
pub fn over_files<D: Disk + Drop>(
    rt: &impl Abort,
    alloc: Global,
    files: Files<D>,
    step: Step,
) -> Result<(Stage, Files<D>), Fail> {
    if !files.may_be_used() {
        return Err(Fail::from("files that may be used"));
    }
    let options = match step {
        Step::Ask | Step::OpenToAsk => one_page(),
        Step::Open | Step::Import | Step::Call | Step::Show => few_pages(),
    };
    match Connection::open_files(alloc, files, options) {
        Ok(connection) => over_connection(rt, alloc, connection, step),
        Err((_error, left)) => Ok((Stage::Shut, left.into_files())),
    }
}

fn over_connection<D: Disk + Drop>(
    rt: &impl Abort,
    alloc: Global,
    connection: Connection<FileStore<D>>,
    step: Step,
) -> Result<(Stage, Files<D>), Fail> {
    match Store::adopt(connection) {
        Ok(mut store) => {
            let stage = take_step(rt, alloc, &mut store, step);
            let files = store.into_connection().into_store().close();
            Ok((stage?, files))
        }
        Err(
            AdoptStop {
                connection,
                fault: _fault,
                wants: _wants,
            },
        ) => Ok((Stage::Shut, connection.into_store().close())),
    }
}

/// Asks for the mbox over copies of these files whose disks stop after so many calls.
fn ask_over(rt: &impl Abort, alloc: Global, files: &Held, calls: u64) -> Result<Stage, Fail> {
    let fuses = stopping(alloc, files, calls, calls)?;
    let (stage, _files) = over_files(rt, alloc, fuses, Step::Ask)?;
    Ok(stage)
}

/// Whether a store is opened over copies of these files whose disks stop after so many calls.
fn is_opened(rt: &impl Abort, alloc: Global, files: &Held, calls: u64) -> Result<bool, Fail> {
    let fuses = stopping(alloc, files, calls, calls)?;
    let (stage, _files) = over_files(rt, alloc, fuses, Step::OpenToAsk)?;
    Ok(stage == Stage::Whole)
}

/// Calls of a disk over which a store is opened, at most twice as many as that takes.
fn enough(rt: &impl Abort, alloc: Global, files: &Held) -> Result<u64, Fail> {
    let mut calls: u64 = 1;
    for _turn in 0..DOUBLINGS {
        if is_opened(rt, alloc, files, calls)? {
            return Ok(calls);
        }
        calls = calls.saturating_mul(2);
    }
    Err(Fail::from("a disk that stops no more"))
}

/// The most calls of a disk over which no store is opened, by halving.
pub fn last_shut(rt: &impl Abort, alloc: Global, files: &Held) -> Result<u64, Fail> {
    let mut open = enough(rt, alloc, files)?;
    let mut shut = open / 2;
    for _turn in 0..DOUBLINGS {
        let calls = shut.saturating_add(open.saturating_sub(shut) / 2);
        if calls == shut {
            break;
        }
        if is_opened(rt, alloc, files, calls)? {
            open = calls;
        } else {
            shut = calls;
        }
    }
    Ok(shut)
}

#[test]
fn an_mbox_breaks_off_where_a_disk_stops(rt: HostRuntime) -> Result<(), Fail> {
    let (_imported, files) = over_files(&rt, rt.alloc(), new_files(rt.alloc()), Step::Import)?;
    let mut reached = Vec::new(rt.alloc());
    for calls in last_shut(&rt, rt.alloc(), &files)?..CALLS {
        let stage = ask_over(&rt, rt.alloc(), &files, calls)?;
        if reached.last() != Some(&stage) {
            reached.push(stage)?;
        }
        if stage == Stage::Whole {
            break;
        }
    }
    assert_eq!(rt; reached.as_slice(), STAGES.as_slice());
    Ok(())
}
