//! What an import, a withdrawal and a server in a row come to, and what their peers are sent.
use crate::devices::{
    ARCHIVE, BROKEN, Desk, HIDING, KnownFiles, MBOX, Nodes, POLICY, Peer, Quay, Shelf, Still,
};
use archive_listen::WriteBuffer;
use archive_run::{Environment, run};
use example_served::import_withdraw_and_serve;
use mbox_core::device::Tap;
use std::alloc::Global;
use std::hash::RandomState;
use std::process::Abort;
use std::test::Fail;
use thread_core::NodeThreader;

/// What is imported and withdrawn, the policy by which peers are served then, and what comes of it.
#[derive(Clone, Copy)]
struct Case {
    mbox: &'static str,
    key: &'static str,
    policy: &'static str,
    status: u8,
    said: &'static [u8],
    told: &'static [u8],
    /// What the peers were sent.
    sent: [&'static [u8]; 2],
}

/// The second message of the mbox, an answer to the first.
pub const ANSWER: &str = "d41bdfeadb4b458370ddcfa1a3a8aa91197973a0a547288c06ee2a2ae4dbf327";

/// The threads of the list: the first message alone.
pub const THREADS: &[u8] =
    b"HTTP/1.1 200 OK\r\nContent-Type: text/html; charset=us-ascii\r\nContent-Length: 429\r\nConnection: close\r\n\r\n<!DOCTYPE html>\n<html><head><title>soc: threads</title></head><body>\n<h1>soc: threads</h1>\n<div class=\"d0\"><a href=\"/l/soc/month/2003-03\">2003-03-04 10:00</a> <a href=\"/l/soc/by/anna%40example.org\">anna@example.org</a> <a href=\"/l/soc/m/a9fda901d43094a70ddaab56f97a3ed4ab7d9e3f14e4c1717930bee493395661\">Hello</a> <a href=\"/l/soc/t/a9fda901d43094a70ddaab56f97a3ed4ab7d9e3f14e4c1717930bee493395661\">thread</a></div>\n</body></html>\n";

/// What is sent in place of the withdrawn message.
pub const REFUSAL: &[u8] =
    b"HTTP/1.1 403 Forbidden\r\nContent-Type: text/plain; charset=us-ascii\r\nContent-Length: 25\r\nConnection: close\r\n\r\n403 Forbidden: withdrawn\n";

/// The threads of the list where all is shown.
pub const ALL_THREADS: &[u8] =
    b"HTTP/1.1 200 OK\r\nContent-Type: text/html; charset=us-ascii\r\nContent-Length: 703\r\nConnection: close\r\n\r\n\
      <!DOCTYPE html>\n<html><head><title>soc: threads</title></head><body>\n<h1>soc: threads</h1>\n\
      <div class=\"d0\"><a href=\"/l/soc/month/2003-03\">2003-03-04 10:00</a> \
      <a href=\"/l/soc/by/anna%40example.org\">anna@example.org</a> \
      <a href=\"/l/soc/m/a9fda901d43094a70ddaab56f97a3ed4ab7d9e3f14e4c1717930bee493395661\">Hello</a> \
      <a href=\"/l/soc/t/a9fda901d43094a70ddaab56f97a3ed4ab7d9e3f14e4c1717930bee493395661\">thread</a></div>\n\
      <div class=\"d1\"><a href=\"/l/soc/month/2003-03\">2003-03-12 10:30</a> (none) \
      <a href=\"/l/soc/m/d41bdfeadb4b458370ddcfa1a3a8aa91197973a0a547288c06ee2a2ae4dbf327\">Re: Hello</a> \
      <a href=\"/l/soc/t/d41bdfeadb4b458370ddcfa1a3a8aa91197973a0a547288c06ee2a2ae4dbf327\">thread</a></div>\n\
      </body></html>\n";

/// The message that was withdrawn, where it is shown.
pub const SHOWN: &[u8] =
    b"HTTP/1.1 200 OK\r\nContent-Type: message/rfc822\r\nContent-Length: 25\r\nConnection: close\r\n\r\n\
      Subject: Re: Hello\n\nTwo.\n";

/// One asks for the threads, one for the answer, and one is gone.
const PEERS: [Peer; 3] = [
    Peer::Says(b"GET /l/soc/threads HTTP/1.1\r\n\r\n"),
    Peer::Says(
        b"GET /l/soc/m/d41bdfeadb4b458370ddcfa1a3a8aa91197973a0a547288c06ee2a2ae4dbf327 HTTP/1.1\r\n\r\n",
    ),
    Peer::Gone,
];

/// The answer is withdrawn, and hidden.
const WELL: Case = Case {
    mbox: MBOX,
    key: ANSWER,
    policy: HIDING,
    status: 0,
    said: b"added\nnew 2 known 0 too-large 0\nwithdrawn\nlistening on 127.0.0.1:8080\n",
    told: b"archive: S1 Read\n",
    sent: [THREADS, REFUSAL],
};

/// Then: a policy that shows all; no such message; and an mbox that fails.
const CASES: [Case; 4] = [
    WELL,
    Case {
        policy: POLICY,
        sent: [ALL_THREADS, SHOWN],
        ..WELL
    },
    Case {
        key: "a9fda901d43094a70ddaab56f97a3ed4ab7d9e3f14e4c1717930bee493395660",
        status: 1,
        said: b"added\nnew 2 known 0 too-large 0\n",
        told: b"archive: E8 NoMessage\n",
        sent: [b"", b""],
        ..WELL
    },
    Case {
        mbox: BROKEN,
        status: 1,
        said: b"added\n",
        told: b"archive: M2 Read after 1\n",
        sent: [b"", b""],
        ..WELL
    },
];

/// The devices that the orders meet: no database yet, and the peers.
fn world_of(alloc: Global, threader: NodeThreader) -> Result<Environment<Desk>, Fail> {
    Ok(Environment {
        files: KnownFiles,
        databases: Shelf::new(),
        clock: Still(None),
        ports: Quay::new(alloc, &PEERS),
        threaders: Nodes(Some(threader)),
        input: Tap::new(alloc, b"", 0)?,
        output: WriteBuffer::new(Tap::new(alloc, b"", 100)?),
        faults: Tap::new(alloc, b"", 100)?,
    })
}

fn comes(rt: &impl Abort, alloc: Global, threader: NodeThreader, case: &Case) -> Result<(), Fail> {
    let mut world = world_of(alloc, threader)?;
    let list = ["list-add", "--db", ARCHIVE, "soc"];
    assert_eq!(rt; run(alloc, &mut world, &list), 0);
    let import = ["import", "--db", ARCHIVE, "soc", case.mbox];
    let withdrawal = ["withdraw", "--db", ARCHIVE, "soc", case.key, "author"];
    let service = [
        "serve",
        "--db",
        ARCHIVE,
        "--policy",
        case.policy,
        "--day",
        "2003-03-20",
        "--port",
        "8080",
        "--count",
        "3",
    ];
    let status = import_withdraw_and_serve(alloc, &mut world, &import, &withdrawal, &service);
    assert_eq!(rt; world.faults.bytes(), case.told);
    assert_eq!(rt; world.output.into_inner().bytes(), case.said);
    assert_eq!(rt; status, case.status);
    assert_eq!(rt;
        world.ports.sent()?.as_slice(),
        case.sent.concat(alloc)?.as_slice()
    );
    Ok(())
}

#[test]
fn a_message_that_was_withdrawn_is_sent_to_no_peer(rt: HostRuntime) -> Result<(), Fail> {
    let threader = NodeThreader::new(RandomState::new(&rt)?);
    for case in &CASES {
        comes(&rt, rt.alloc(), threader, case)?;
    }
    Ok(())
}
