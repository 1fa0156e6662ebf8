//! What orders to serve come to.
use crate::devices::{
    ARCHIVE, Desk, KnownFiles, NO_POLICY, Nodes, POLICY, Peer, Quay, Shelf, Still,
};
use archive_listen::WriteBuffer;
use archive_run::{Environment, run};
use civil_time::Day;
use mbox_core::device::Tap;
use std::alloc::Global;
use std::hash::RandomState;
use std::process::Abort;
use std::test::Fail;
use thread_core::NodeThreader;

/// An order, what it meets, and what comes of it.
#[derive(Clone, Copy)]
struct Case {
    file: &'static str,
    policy: &'static str,
    tells_day: bool,
    threads: bool,
    port: &'static str,
    count: &'static str,
    room: usize,
    status: u8,
    said: &'static [u8],
    told: &'static [u8],
    opened: u32,
    /// How many peers were sent the page.
    sent: usize,
}

/// Asks for all lists.
const ASKS: Peer = Peer::Says(b"GET / HTTP/1.1\r\n\r\n");

/// The page of all lists, of which there is none.
const NO_LISTS: &[u8] =
    b"HTTP/1.1 200 OK\r\nContent-Type: text/html; charset=us-ascii\r\nContent-Length: 92\r\nConnection: close\r\n\r\n\
      <!DOCTYPE html>\n<html><head><title>Lists</title></head><body>\n<h1>Lists</h1>\n</body></html>\n";

/// Those who come to each port.
const PEERS: [Peer; 3] = [ASKS, Peer::Gone, ASKS];

/// Three connections are ordered, and all that they need is there.
const WELL: Case = Case {
    file: ARCHIVE,
    policy: POLICY,
    tells_day: true,
    threads: true,
    port: "8080",
    count: "3",
    room: 100,
    status: 0,
    said: b"listening on 127.0.0.1:8080\n",
    told: b"archive: S1 Read\n",
    opened: 1,
    sent: 2,
};

const CASES: [Case; 12] = [
    WELL,
    Case {
        count: "0",
        told: b"",
        sent: 0,
        ..WELL
    },
    Case {
        count: "1",
        port: "0",
        said: b"listening on 127.0.0.1:49152\n",
        told: b"",
        sent: 1,
        ..WELL
    },
    Case {
        count: "4",
        status: 1,
        told: b"archive: S1 Read\narchive: F4 Net\n",
        ..WELL
    },
    Case {
        threads: false,
        status: 1,
        said: b"",
        told: b"archive: F1 Read\n",
        opened: 0,
        sent: 0,
        ..WELL
    },
    Case {
        policy: "absent.toml",
        status: 1,
        said: b"",
        told: b"archive: F1 Read\n",
        opened: 0,
        sent: 0,
        ..WELL
    },
    Case {
        policy: NO_POLICY,
        status: 1,
        said: b"",
        told: b"archive: P1 NotToml\n",
        opened: 0,
        sent: 0,
        ..WELL
    },
    Case {
        tells_day: false,
        status: 1,
        said: b"",
        told: b"archive: F3 Clock\n",
        opened: 0,
        sent: 0,
        ..WELL
    },
    Case {
        file: "other.db",
        status: 1,
        said: b"",
        told: b"archive: E15 Store\n",
        opened: 0,
        sent: 0,
        ..WELL
    },
    Case {
        port: "22",
        status: 1,
        said: b"",
        told: b"archive: F4 Net\n",
        sent: 0,
        ..WELL
    },
    Case {
        room: 9,
        status: 1,
        said: b"listening",
        told: b"archive: F2 Write\n",
        sent: 0,
        ..WELL
    },
    Case {
        room: 0,
        count: "0",
        status: 1,
        said: b"",
        told: b"archive: F2 Write\n",
        sent: 0,
        ..WELL
    },
];

/// The devices that an order meets.
fn world_of(alloc: Global, threader: NodeThreader, case: &Case) -> Result<Environment<Desk>, Fail> {
    let today = if case.tells_day {
        Day::of(2024, 3, 20)
    } else {
        None
    };
    let threader = if case.threads { Some(threader) } else { None };
    Ok(Environment {
        files: KnownFiles,
        databases: Shelf::new(),
        clock: Still(today),
        ports: Quay::new(alloc, &PEERS),
        threaders: Nodes(threader),
        input: Tap::new(alloc, b"", 0)?,
        output: WriteBuffer::new(Tap::new(alloc, b"", case.room)?),
        faults: Tap::new(alloc, b"", 1000)?,
    })
}

fn comes(rt: &impl Abort, alloc: Global, threader: NodeThreader, case: &Case) -> Result<(), Fail> {
    let mut world = world_of(alloc, threader, case)?;
    let words = [
        "serve",
        "--db",
        case.file,
        "--policy",
        case.policy,
        "--port",
        case.port,
        "--count",
        case.count,
    ];
    let status = run(alloc, &mut world, &words);
    assert_eq!(rt; status, case.status);
    assert_eq!(rt; world.output.into_inner().bytes(), case.said);
    assert_eq!(rt; world.faults.bytes(), case.told);
    assert_eq!(rt; world.databases.opened, case.opened);
    assert_eq!(rt; world.databases.closed, case.opened);
    assert_eq!(rt;
        world.ports.sent()?.as_slice(),
        NO_LISTS.repeat(alloc, case.sent)?.as_slice()
    );
    Ok(())
}

#[test]
fn each_order_comes_to_its_status(rt: HostRuntime) -> Result<(), Fail> {
    let threader = NodeThreader::new(RandomState::new(&rt)?);
    for case in &CASES {
        comes(&rt, rt.alloc(), threader, case)?;
    }
    Ok(())
}
