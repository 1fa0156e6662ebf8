//! Serves an archive without a database: imports the mbox on standard input into an archive in memory, withdraws its first message, and
//! prints the reply to each of three requests.
#![tactic(auto)]

mod publishing;

use anyhow::bail;
use archive_memory::MemoryArchive;
use archive_pages::Client;
use archive_port::Key;
use civil_time::Day;
use mbox_core::cut;
use mbox_core::device::{Counted, read_all};
use policy_core::Policy;
use publishing::{answer_client, publish};
use std::hash::RandomState;
use std::io;
use thread_core::NodeThreader;

/// A withdrawn message is denied to all, and each other message is allowed.
const POLICY: &str = "
[[rule]]
name = \"withdrawn\"
effect = \"deny\"
withdrawn = [\"author\", \"board\"]

[[rule]]
name = \"all\"
effect = \"allow\"
";

/// The threads, the message that was withdrawn, and the mbox.
const REQUESTS: [&[u8]; 3] = [
    b"GET /l/soc/threads HTTP/1.1\r\n\r\n",
    b"GET /l/soc/m/e99849088d0c8dad6857f3906a506fc0d185ce467f4c6a3317728a35ff0d5788 HTTP/1.1\r\n\r\n",
    b"GET /l/soc/mbox HTTP/1.1\r\n\r\n",
];

fn main(rt: HostRuntime) -> anyhow::Result<()> {
    let alloc = rt.alloc();
    let Ok(mbox) = read_all(alloc, &mut Counted::new(rt.reader())) else {
        bail!("the input cannot be read");
    };
    let (Some(day), Some(item)) = (Day::of(2003, 3, 20), cut(&mbox)?.next()) else {
        bail!("no day, or no message");
    };
    let mut archive = MemoryArchive::new(alloc);
    if publish(&mut archive, alloc, "soc", &mbox, &Key::of(&item)).is_err() {
        bail!("the mbox was not imported, or its first message not withdrawn");
    }
    let policy = Policy::read(alloc, POLICY)?;
    let threader = NodeThreader::new(RandomState::new(&rt)?);
    for request in REQUESTS {
        let mut client = Client {
            input: Counted::new(request),
            output: Counted::new(io::writer(&rt)),
        };
        answer_client(&mut archive, alloc, &policy, &threader, day, &mut client)?;
    }
    Ok(())
}
