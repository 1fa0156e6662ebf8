//! Exports to writers that fail.
use crate::cases::{TWO, by_nobody};
use crate::chain::{ChainStop, import_and_ask};
use crate::checks::{expect, expect_equal};
use crate::commands::list_add;
use archive_desk::{
    DeskError, ExportStop, ImportError, ImportStop, Report, export, export_after, import,
};
use archive_port::{ArchiveStore, StoreFault};
use archive_results::{Ask, Reader};
use civil_time::Month;
use mbox_core::device::Tap;
use policy_core::Policy;
use std::alloc::Global;
use std::test::Fail;

/// What is written before the text.
const HEAD: &[u8] = b"head\n";

/// Exports of two messages: whole, to a writer that fails after so many bytes for each number, behind a head, and refused.
pub fn exports<A: ArchiveStore>(alloc: Global, store: &mut A) -> Result<(), Fail> {
    list_add(store, "soc")?;
    import(store, alloc, "soc", TWO)?;
    let policy = Policy::open();
    let ask = by_nobody(&policy)?;
    for passes in 0..TWO.len() {
        stops(alloc, store, &ask, passes)?;
    }
    whole(alloc, store, &ask)?;
    let ask = Ask {
        policy: &policy,
        reader: Reader::Person("who"),
        list: "soc",
        day: ask.day,
    };
    let mut out = Tap::new(alloc, b"", 1000)?;
    let refused = ExportStop {
        written: 0,
        fault: DeskError::NoPerson,
    };
    expect_equal(
        export_after(store, alloc, &ask, HEAD, &mut out),
        Err(refused),
    )?;
    expect(out.bytes().is_empty(), "something was written")
}

/// A writer that takes so many bytes and then fails has the first of the text, and the next export is as the first.
fn stops<A: ArchiveStore>(
    alloc: Global,
    store: &mut A,
    ask: &Ask<'_>,
    passes: usize,
) -> Result<(), Fail> {
    let mut out = Tap::new(alloc, b"", passes)?;
    let stopped = ExportStop {
        written: passes as u64,
        fault: DeskError::Write,
    };
    expect_equal(export(store, alloc, ask, &mut out), Err(stopped))?;
    expect_equal(Some(out.bytes()), TWO.get(..passes))?;
    let mut out = Tap::new(alloc, b"", passes)?;
    expect_equal(
        export_after(store, alloc, ask, HEAD, &mut out),
        Err(stopped),
    )?;
    let text = HEAD.iter().chain(TWO.iter()).take(passes);
    expect(
        out.bytes().iter().eq(text),
        format_args!("other first {passes} bytes"),
    )
}

/// What was imported is written back, alone and behind a head.
pub fn whole<A: ArchiveStore>(alloc: Global, store: &mut A, ask: &Ask<'_>) -> Result<(), Fail> {
    let len = TWO.len() as u64;
    let mut out = Tap::new(alloc, b"", 1000)?;
    expect_equal(export(store, alloc, ask, &mut out), Ok(len))?;
    expect_equal(out.bytes(), TWO)?;
    let mut out = Tap::new(alloc, b"", 1000)?;
    expect_equal(export_after(store, alloc, ask, HEAD, &mut out), Ok(len + 5))?;
    expect(
        out.bytes().iter().eq(HEAD.iter().chain(TWO.iter())),
        "another text behind the head",
    )
}

/// An import, a month and an export that follow one another: whole, to a writer that fails, and on a list that is not there.
pub fn chain<A: ArchiveStore>(alloc: Global, store: &mut A) -> Result<(), Fail> {
    let policy = Policy::open();
    let ask = by_nobody(&policy)?;
    let march = Month::read(b"2003-03").ok_or("a month")?;
    let mut out = Tap::new(alloc, b"", 10)?;
    let no_list = ChainStop::Import(ImportStop {
        done: 0,
        fault: ImportError::Store(StoreFault::NoList),
    });
    let came = import_and_ask(store, alloc, &ask, TWO, march, &mut out);
    expect_equal(came.err(), Some(no_list))?;
    list_add(store, "soc")?;
    let stopped = ChainStop::Export(ExportStop {
        written: 10,
        fault: DeskError::Write,
    });
    let came = import_and_ask(store, alloc, &ask, TWO, march, &mut out);
    expect_equal(came.err(), Some(stopped))?;
    let mut out = Tap::new(alloc, b"", 1000)?;
    let Ok(told) = import_and_ask(store, alloc, &ask, TWO, march, &mut out) else {
        return Err(Fail::from("three answers"));
    };
    let all_known = Report {
        new: 0,
        known: 2,
        too_large: 0,
    };
    expect_equal(told.report, all_known)?;
    expect_equal((told.lines.len(), told.count), (2, TWO.len() as u64))?;
    expect_equal(out.bytes(), TWO)
}
