//! What an import, a withdrawal and two servers come to, and what the peers of both are sent.
use crate::devices::{
    ARCHIVE, Desk, HIDING, KnownFiles, MBOX, Nodes, POLICY, Peer, Quay, Shelf, Still,
};
use crate::publishing::{ALL_THREADS, ANSWER, REFUSAL, SHOWN, THREADS};
use archive_listen::WriteBuffer;
use archive_run::{Environment, run};
use example_served::publish_over_restarts;
use mbox_core::device::Tap;
use std::alloc::Global;
use std::hash::RandomState;
use std::process::Abort;
use std::test::Fail;
use thread_core::NodeThreader;

/// What each peer of a server is sent.
#[derive(Clone, Copy)]
enum Sent {
    /// The server had no connection.
    Nothing,
    /// What hides the answer.
    Hidden,
    /// What shows all.
    Shown,
}

/// What is withdrawn, how two servers are started then, and what comes of it.
#[derive(Clone, Copy)]
struct Case {
    key: &'static str,
    /// The policy, the port and the number of connections of the first server.
    policy: &'static str,
    port: &'static str,
    count: &'static str,
    /// The policy of the second server.
    second_policy: &'static str,
    /// The status of the import or the withdrawal, if that was not carried out.
    stopped: u8,
    first: u8,
    second: u8,
    said: &'static [u8],
    told: &'static [u8],
    first_sent: Sent,
    second_sent: Sent,
}

/// All messages of the list as an mbox: the first message alone.
const ONE_MESSAGE: &[u8] =
    b"HTTP/1.1 200 OK\r\nContent-Type: application/mbox\r\nConnection: close\r\n\r\n\
      From anna@example.org Tue Mar  4 10:00:00 2003\nFrom: Anna <anna@example.org>\nSubject: Hello\n\nOne.\n\n";

/// The same where all is shown.
const TWO_MESSAGES: &[u8] =
    b"HTTP/1.1 200 OK\r\nContent-Type: application/mbox\r\nConnection: close\r\n\r\n\
      From anna@example.org Tue Mar  4 10:00:00 2003\nFrom: Anna <anna@example.org>\nSubject: Hello\n\nOne.\n\n\
      From bob@example.org Wed Mar 12 10:30:00 2003\nSubject: Re: Hello\n\nTwo.\n\n";

/// One asks for the threads, one for the answer, and one for the mbox.
const PEERS: [Peer; 3] = [
    Peer::Says(b"GET /l/soc/threads HTTP/1.1\r\n\r\n"),
    Peer::Says(
        b"GET /l/soc/m/d41bdfeadb4b458370ddcfa1a3a8aa91197973a0a547288c06ee2a2ae4dbf327 HTTP/1.1\r\n\r\n",
    ),
    Peer::Says(b"GET /l/soc/mbox HTTP/1.1\r\n\r\n"),
];

/// The first server is to answer four, and three come. Both hide the answer.
const WELL: Case = Case {
    key: ANSWER,
    policy: HIDING,
    port: "8080",
    count: "4",
    second_policy: HIDING,
    stopped: 0,
    first: 1,
    second: 0,
    said: b"added\nnew 2 known 0 too-large 0\nwithdrawn\nlistening on 127.0.0.1:8080\nlistening on 127.0.0.1:8080\n",
    told: b"archive: F4 Net\n",
    first_sent: Sent::Hidden,
    second_sent: Sent::Hidden,
};

/// Then: three are ordered; a port that is taken; no such policy; a second server that shows all; and no such message.
const CASES: [Case; 6] = [
    WELL,
    Case {
        count: "3",
        first: 0,
        told: b"",
        ..WELL
    },
    Case {
        port: "22",
        said: b"added\nnew 2 known 0 too-large 0\nwithdrawn\nlistening on 127.0.0.1:8080\n",
        first_sent: Sent::Nothing,
        ..WELL
    },
    Case {
        policy: "absent.toml",
        said: b"added\nnew 2 known 0 too-large 0\nwithdrawn\nlistening on 127.0.0.1:8080\n",
        told: b"archive: F1 Read\n",
        first_sent: Sent::Nothing,
        ..WELL
    },
    Case {
        second_policy: POLICY,
        second_sent: Sent::Shown,
        ..WELL
    },
    Case {
        key: "a9fda901d43094a70ddaab56f97a3ed4ab7d9e3f14e4c1717930bee493395660",
        stopped: 1,
        first: 0,
        said: b"added\nnew 2 known 0 too-large 0\n",
        told: b"archive: E8 NoMessage\n",
        second_sent: Sent::Nothing,
        first_sent: Sent::Nothing,
        ..WELL
    },
];

/// The devices that the orders meet: no database yet, and the peers.
fn world_of(alloc: Global, threader: NodeThreader) -> Result<Environment<Desk>, Fail> {
    Ok(Environment {
        files: KnownFiles,
        databases: Shelf::new(),
        clock: Still(None),
        ports: Quay::new(alloc, &PEERS),
        threaders: Nodes(Some(threader)),
        input: Tap::new(alloc, b"", 0)?,
        output: WriteBuffer::new(Tap::new(alloc, b"", 200)?),
        faults: Tap::new(alloc, b"", 100)?,
    })
}

/// The replies to the peers of a server, in their order.
fn replies(sent: Sent) -> [&'static [u8]; 3] {
    match sent {
        Sent::Nothing => [b"", b"", b""],
        Sent::Hidden => [THREADS, REFUSAL, ONE_MESSAGE],
        Sent::Shown => [ALL_THREADS, SHOWN, TWO_MESSAGES],
    }
}

/// The words that start a server.
fn service(policy: &'static str, port: &'static str, count: &'static str) -> [&'static str; 11] {
    [
        "serve",
        "--db",
        ARCHIVE,
        "--policy",
        policy,
        "--day",
        "2003-03-20",
        "--port",
        port,
        "--count",
        count,
    ]
}

fn comes(rt: &impl Abort, alloc: Global, threader: NodeThreader, case: &Case) -> Result<(), Fail> {
    let mut world = world_of(alloc, threader)?;
    let list = ["list-add", "--db", ARCHIVE, "soc"];
    assert_eq!(rt; run(alloc, &mut world, &list), 0);
    let import = ["import", "--db", ARCHIVE, "soc", MBOX];
    let withdrawal = ["withdraw", "--db", ARCHIVE, "soc", case.key, "author"];
    let first = service(case.policy, case.port, case.count);
    let second = service(case.second_policy, "8080", "3");
    let ended = publish_over_restarts(alloc, &mut world, &import, &withdrawal, &first, &second);
    let (stopped, first, second) = match ended {
        Ok(statuses) => (0, statuses.first, statuses.second),
        Err(status) => (status, 0, 0),
    };
    assert_eq!(rt; world.faults.bytes(), case.told);
    assert_eq!(rt; world.output.into_inner().bytes(), case.said);
    assert_eq!(rt; stopped, case.stopped);
    assert_eq!(rt; first, case.first);
    assert_eq!(rt; second, case.second);
    let mut sent = replies(case.first_sent).concat(alloc)?;
    sent.extend_from_slice(replies(case.second_sent).concat(alloc)?.as_slice())?;
    assert_eq!(rt; world.ports.sent()?.as_slice(), sent.as_slice());
    Ok(())
}

#[test]
fn a_server_that_is_started_again_hides_what_was_withdrawn(rt: HostRuntime) -> Result<(), Fail> {
    let threader = NodeThreader::new(RandomState::new(&rt)?);
    for case in &CASES {
        comes(&rt, rt.alloc(), threader, case)?;
    }
    Ok(())
}
