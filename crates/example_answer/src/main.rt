//! Answers the request on standard input out of an archive in memory: a list with one mail, under the open policy.
#![tactic(auto)]

use anyhow::bail;
use archive_pages::Client;
use archive_store::Command;
use archive_stored::run_and_answer_in_memory;
use civil_time::Day;
use mbox_core::cut;
use mbox_core::device::Counted;
use policy_core::Policy;
use std::hash::RandomState;
use std::io;
use thread_core::NodeThreader;

const MBOX: &[u8] = b"From anna@example.org Tue Mar  4 10:00:00 2003\nSubject: hello\n\nHello.\n";

fn main(rt: HostRuntime) -> anyhow::Result<()> {
    let (Some(day), Some(item)) = (Day::of(2003, 3, 20), cut(MBOX)?.next()) else {
        bail!("no day, or no mail");
    };
    let commands = [
        Command::ListAdd { name: "soc" },
        Command::Add {
            alloc: rt.alloc(),
            list: "soc",
            item: &item,
        },
    ];
    run_and_answer_in_memory(
        rt.alloc(),
        &commands,
        &Policy::open(),
        &NodeThreader::new(RandomState::new(&rt)?),
        day,
        &mut Client {
            input: Counted::new(rt.reader()),
            output: Counted::new(io::writer(&rt)),
        },
    )??;
    Ok(())
}
