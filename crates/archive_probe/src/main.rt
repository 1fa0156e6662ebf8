//! Times a store, the desk and the pages over one list, for the benchmarks `store.py`, `desk.py` and `answers.py` in `bench`.
//!
//! Without words it shows all of it in memory: how many of a hundred messages it reads back; of the mbox on standard input
//! what becomes of its messages, taken in twice; how many messages, rows or bytes the desk answers to each of its
//! questions; and how many bytes a reply has, beside what the desk answers. Else the words are a call, a file, or
//! `:memory:`, and numbers, and it prints nanoseconds, one number on each line:
//!
//! - `import FILE` takes in the mbox on standard input, and once more;
//! - `desk FILE ROUNDS` asks the desk of the list for all its messages, and of the message in the middle its month and its
//!   author, and then for the threads and the mbox: of each the fastest of so many rounds, and then of threading alone;
//! - `pages FILE ROUNDS` takes in the mbox on standard input, and asks by requests for the message in the middle, its month,
//!   its thread, the threads and the mbox: of each the fastest of so many rounds, and beside it of the desk's answer; then
//!   of writing the page of all threads, and, as the last line, how many rows that has. In a round a message is asked for
//!   a thousand times;
//! - the calls of `numbered`.
#![tactic(auto)]

mod numbered;
mod questions;

use anyhow::bail;
use archive_store::{AdoptStop, Store};
use mbox_core::device::{Counted, read_all};
use sqlite::{Alter, Connection, File, FileStore};
use std::env;
use std::time::Duration;

/// The list of every store here.
const LIST: &str = "soc";

/// The name of a file that stands for a store in memory.
const MEMORY: &str = ":memory:";

/// What to time.
#[derive(Clone, Copy)]
enum Order {
    Numbered(numbered::Call),
    Import,
    Desk { rounds: u32 },
    Pages { rounds: u32 },
}

/// The order that a call and its numbers name.
fn order_of(call: &str, numbers: &[String]) -> anyhow::Result<Order> {
    Ok(match (call, numbers) {
        ("import", []) => Order::Import,
        ("desk", [rounds]) => Order::Desk {
            rounds: rounds.parse()?,
        },
        ("pages", [rounds]) => Order::Pages {
            rounds: rounds.parse()?,
        },
        _ => Order::Numbered(numbered::call_of(call, numbers)?),
    })
}

fn read_input(rt: &HostRuntime) -> anyhow::Result<Vec<u8>> {
    let mut input = Counted::new(rt.reader());
    let Ok(mbox) = read_all(rt.alloc(), &mut input) else {
        bail!("standard input cannot be read");
    };
    Ok(mbox)
}

fn tell(rt: &HostRuntime, took: Duration) -> anyhow::Result<()> {
    println!(rt; "{}", took.as_nanos())?;
    Ok(())
}

fn carry_out<S: Alter>(
    rt: &HostRuntime,
    store: &mut Store<S>,
    order: &Order,
) -> anyhow::Result<()> {
    match *order {
        Order::Numbered(call) => numbered::carry_out(rt, store, call),
        Order::Import => questions::time_imports(rt, store, &read_input(rt)?),
        Order::Desk { rounds } => questions::time_desk_questions(rt, store, rounds),
        Order::Pages { rounds } => {
            let mbox = read_input(rt)?;
            questions::time_page_questions(rt, store, &mbox, rounds)
        }
    }
}

fn open(rt: &HostRuntime, path: &str) -> anyhow::Result<Store<FileStore<File>>> {
    match Store::adopt(Connection::open(rt, path)?) {
        Ok(store) => Ok(store),
        Err(
            AdoptStop {
                connection,
                fault,
                wants: _wants,
            },
        ) => {
            connection.close()?;
            Err(fault.into())
        }
    }
}

fn over_file(rt: &HostRuntime, path: &str, order: &Order) -> anyhow::Result<()> {
    let mut store = open(rt, path)?;
    let done = carry_out(rt, &mut store, order);
    store.into_connection().close()?;
    done
}

fn in_memory(rt: &HostRuntime, order: &Order) -> anyhow::Result<()> {
    carry_out(rt, &mut Store::open_in_memory(rt.alloc())?, order)
}

/// Shows all of it in memory.
fn sample(rt: &HostRuntime) -> anyhow::Result<()> {
    numbered::show(rt, &mut Store::open_in_memory(rt.alloc())?)?;
    let mbox = read_input(rt)?;
    questions::show(rt, &mut Store::open_in_memory(rt.alloc())?, &mbox)
}

fn main(rt: HostRuntime) -> anyhow::Result<()> {
    let words: Vec<String> = env::args(&rt)?.collect(rt.alloc())?;
    match words.as_slice() {
        [_] => sample(&rt),
        [_, call, path, numbers @ ..] => {
            let order = order_of(call, numbers)?;
            match path.as_str() {
                MEMORY => in_memory(&rt, &order),
                _ => over_file(&rt, path, &order),
            }
        }
        _ => bail!("words: CALL FILE and the call's numbers"),
    }
}
