//! What orders to import come to.
use crate::devices::{
    ARCHIVE, BROKEN, Desk, KnownFiles, MBOX, NO_MEMORY, Nodes, Quay, Shelf, Still,
};
use archive_listen::WriteBuffer;
use archive_run::{Environment, run};
use mbox_core::device::Tap;
use std::alloc::Global;
use std::process::Abort;
use std::test::Fail;

/// A list, an mbox, and what comes of its import.
#[derive(Clone, Copy)]
struct Case {
    list: &'static str,
    mbox: &'static str,
    status: u8,
    said: &'static [u8],
    told: &'static [u8],
}

/// The messages of the whole file, of which the list holds one.
const REST: Case = Case {
    list: "soc",
    mbox: MBOX,
    status: 0,
    said: b"new 1 known 1 too-large 0\n",
    told: b"",
};

/// A file that fails behind the second separator line.
const FAILS: Case = Case {
    mbox: BROKEN,
    status: 1,
    said: b"",
    told: b"archive: M2 Read after 1\n",
    ..REST
};

/// One after the other: no list, a file that cannot be opened, or for want of memory; one that fails in the middle, which
/// brings what was settled by then; and the whole file, which brings the rest.
const CASES: [Case; 7] = [
    Case {
        list: "xyz",
        told: b"archive: E4 NoList after 0\n",
        ..FAILS
    },
    Case {
        mbox: "absent.mbox",
        told: b"archive: F1 Read\n",
        ..FAILS
    },
    Case {
        mbox: NO_MEMORY,
        told: b"archive: F5 Memory\n",
        ..FAILS
    },
    FAILS,
    REST,
    Case {
        said: b"new 0 known 2 too-large 0\n",
        ..REST
    },
    FAILS,
];

/// Runs over one database, compares what went out and what was told, and gives the database back.
fn comes(
    rt: &impl Abort,
    alloc: Global,
    databases: Shelf,
    words: &[&str],
    case: &Case,
) -> Result<Shelf, Fail> {
    let mut world: Environment<Desk> = Environment {
        files: KnownFiles,
        databases,
        clock: Still(None),
        ports: Quay::new(alloc, &[]),
        threaders: Nodes(None),
        input: Tap::new(alloc, b"", 0)?,
        output: WriteBuffer::new(Tap::new(alloc, b"", 100)?),
        faults: Tap::new(alloc, b"", 100)?,
    };
    let status = run(alloc, &mut world, words);
    assert_eq!(rt; world.faults.bytes(), case.told);
    assert_eq!(rt; world.output.into_inner().bytes(), case.said);
    assert_eq!(rt; status, case.status);
    Ok(world.databases)
}

#[test]
fn a_file_is_imported_as_far_as_it_is_read(rt: HostRuntime) -> Result<(), Fail> {
    let alloc = rt.alloc();
    let added = Case {
        said: b"added\n",
        ..REST
    };
    let words = ["list-add", "--db", ARCHIVE, "soc"];
    let mut databases = comes(&rt, alloc, Shelf::new(), &words, &added)?;
    for case in &CASES {
        let words = ["import", "--db", ARCHIVE, case.list, case.mbox];
        databases = comes(&rt, alloc, databases, &words, case)?;
    }
    Ok(())
}
