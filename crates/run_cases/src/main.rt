//! Runs the program by a script, over devices that can fail, and writes down what each run wrote and answered.
//!
//! The script stands on standard input. A line of it is one of these; another line is copied out as it is.
//!
//!     mbox TEXT      what the next runs read, with `\n`, `\r` and `\\` as escapes
//!     file NAME      what they read: this file
//!     new            no database is there
//!     sql NAME TEXT  another program carries out this statement of SQL in the database of this name
//!     clock DAY      the day that their clock tells; `clock none`: it tells none
//!     $ WORDS        a run with these words; a word in double quotes may be empty or hold spaces
//!     <N $ WORDS     a run whose input, and whose mbox, fails after N bytes
//!     >N $ WORDS     a run whose output fails after N bytes
//!     <each $ WORDS  runs whose input fails after each number of bytes
//!     >each $ WORDS  runs whose output fails after each number of bytes that it would have written
//!
//! A database `broken.db` cannot be opened, and for `no-memory.db` there is no memory; every other one is made where it is
//! not there, and kept.
#![tactic(auto)]

mod devices;
mod shelf;
mod short_files;

use anyhow::{Context, bail};
use archive_files::ArchiveDatabases;
use archive_listen::{BufferedSink, WriteBuffer};
use archive_run::{Environment, run};
use civil_time::Day;
use devices::{FixedClock, NoPorts, NoThreaders, TestPlatform};
use mbox_core::device::{Counted, Tap, read_all, write_bytes};
use shelf::TestDatabases;
use short_files::FailingFiles;
use sift_run::SystemFiles;
use sqlite::{Alter, FileStore};
use sqlite_disk::Memory;
use std::alloc::{AllocError, AllocGlobal, Global};
use std::rt::Files;
use std::{fs, io, mem};

/// More bytes than any run here reads or writes.
const ROOM: usize = 65_536;

/// What the runs are over.
#[derive(Drop)]
struct Stage {
    input: Vec<u8>,
    today: Option<Day>,
    databases: TestDatabases,
}

/// What came of a run.
#[derive(Drop)]
struct Ran {
    status: u8,
    output: Tap,
    faults: Tap,
}

/// So many runs, one after the other, that wrote so many bytes each.
#[derive(Drop)]
struct Wrote {
    runs: usize,
    bytes: usize,
}

/// What a run reads and writes.
#[derive(Drop)]
struct Streams {
    input: Tap,
    output: Tap,
    faults: Tap,
}

/// A run over these devices: the databases as it left them, and what came of it.
fn run_over<'a, RT: Files + AllocGlobal, T: Alter + Drop, B: ArchiveDatabases<T> + Drop>(
    alloc: Global,
    words: &[&str],
    databases: B,
    files: FailingFiles<'a, RT>,
    clock: FixedClock,
    streams: Streams,
) -> (B, Ran) {
    let Streams {
        input,
        output,
        faults,
    } = streams;
    let mut world: Environment<TestPlatform<'a, RT, T, B>> = Environment {
        files,
        databases,
        clock,
        ports: NoPorts::new(),
        threaders: NoThreaders,
        input,
        output: WriteBuffer::new(output),
        faults,
    };
    let status = run(alloc, &mut world, words);
    let _ = world.output.flush();
    let Environment {
        databases,
        output,
        faults,
        ..
    } = world;
    let ran = Ran {
        status,
        output: output.into_inner(),
        faults,
    };
    (databases, ran)
}

impl Stage {
    /// A run over an input and an mbox that pass `passes` bytes, and an output that passes `room`.
    fn run<RT: Files + AllocGlobal>(
        &mut self,
        rt: &RT,
        words: &[&str],
        passes: usize,
        room: usize,
    ) -> anyhow::Result<Ran> {
        let alloc = rt.alloc();
        let streams = Streams {
            input: Tap::new(alloc, &self.input, passes)?,
            output: Tap::new(alloc, b"", room)?,
            faults: Tap::new(alloc, b"", ROOM)?,
        };
        let databases = mem::replace(&mut self.databases, TestDatabases::new(alloc));
        let files = FailingFiles {
            files: SystemFiles { rt },
            passes,
        };
        let clock = FixedClock(self.today);
        let (databases, ran) = run_over::<RT, FileStore<Memory>, _>(
            rt.alloc(),
            words,
            databases,
            files,
            clock,
            streams,
        );
        self.databases = databases;
        Ok(ran)
    }

    /// The runs whose input fails, after each number of bytes, that wrote a beginning of what the whole run writes and said
    /// the same as the first.
    fn failing_reads<RT: Files + AllocGlobal>(
        &mut self,
        rt: &RT,
        words: &[&str],
    ) -> anyhow::Result<(Vec<Wrote>, Ran)> {
        let whole = self.run(rt, words, ROOM, ROOM)?;
        let first = self.run(rt, words, 0, ROOM)?;
        let mut wrote = Vec::new(rt.alloc());
        for passes in 0..self.input.len().saturating_add(1) {
            let ran = self.run(rt, words, passes, ROOM)?;
            if begins(&ran, &whole) && says_the_same(&ran, &first) {
                count_run(&mut wrote, ran.output.bytes().len())?;
            }
        }
        Ok((wrote, first))
    }

    /// How many of the runs whose output fails wrote just what the output took, and said the same as the first.
    fn failing_writes<RT: Files + AllocGlobal>(
        &mut self,
        rt: &RT,
        words: &[&str],
    ) -> anyhow::Result<(usize, Ran)> {
        let whole = self.run(rt, words, ROOM, ROOM)?;
        let first = self.run(rt, words, ROOM, 0)?;
        let mut alike: usize = 0;
        for room in 0..whole.output.bytes().len() {
            let ran = self.run(rt, words, ROOM, room)?;
            if whole.output.bytes().get(..room) == Some(ran.output.bytes())
                && says_the_same(&ran, &first)
            {
                alike = alike.saturating_add(1);
            }
        }
        Ok((alike, first))
    }
}

fn says_the_same(one: &Ran, other: &Ran) -> bool {
    one.status == other.status && one.faults.bytes() == other.faults.bytes()
}

/// Whether one run wrote a beginning of what the other wrote.
fn begins(one: &Ran, other: &Ran) -> bool {
    other.output.bytes().starts_with(one.output.bytes())
}

/// Counts a run that wrote so many bytes, with those before it that wrote as many.
fn count_run(wrote: &mut Vec<Wrote>, bytes: usize) -> Result<(), AllocError> {
    match wrote.last_mut() {
        Some(last) if last.bytes == bytes => last.runs = last.runs.saturating_add(1),
        _ => wrote.push(Wrote { runs: 1, bytes })?,
    }
    Ok(())
}

/// The words of a line.
fn words_of<'a>(alloc: Global, line: &'a str) -> Result<Vec<&'a str>, AllocError> {
    let mut words = Vec::new(alloc);
    let mut is_quoted = false;
    for piece in line.split('"') {
        if is_quoted {
            words.push(piece)?;
        } else {
            for word in piece.split(' ').filter(|word| !word.is_empty()) {
                words.push(word)?;
            }
        }
        is_quoted = !is_quoted;
    }
    Ok(words)
}

/// A text without its escapes.
fn unescaped(alloc: Global, text: &str) -> Result<Vec<u8>, AllocError> {
    let mut bytes = Vec::new(alloc);
    let mut is_escaped = false;
    for byte in text.bytes() {
        match (is_escaped, byte) {
            (false, b'\\') => {}
            (true, b'n') => bytes.push(b'\n')?,
            (true, b'r') => bytes.push(b'\r')?,
            (_, byte) => bytes.push(byte)?,
        }
        is_escaped = !is_escaped && byte == b'\\';
    }
    Ok(bytes)
}

/// Adds what a run wrote, what it said, and its status.
fn push_ran(page: &mut Vec<u8>, alloc: Global, ran: &Ran) -> anyhow::Result<()> {
    page.extend_from_slice(ran.output.bytes())?;
    page.extend_from_slice(ran.faults.bytes())?;
    let status = ran.status;
    page.extend_from_slice(format!(in alloc; "[{status}]\n")?.as_bytes())?;
    Ok(())
}

/// Adds how many runs were alike, with what the first one said.
fn push_alike(page: &mut Vec<u8>, alloc: Global, alike: (usize, Ran)) -> anyhow::Result<()> {
    let (count, first) = alike;
    page.extend_from_slice(format!(in alloc; "{count} runs alike\n")?.as_bytes())?;
    push_ran(page, alloc, &first)
}

/// Adds how many runs wrote how much, with what the first one said.
fn push_wrote(page: &mut Vec<u8>, alloc: Global, wrote: (Vec<Wrote>, Ran)) -> anyhow::Result<()> {
    let (groups, first) = wrote;
    for Wrote { runs, bytes } in &groups {
        page.extend_from_slice(format!(in alloc; "{runs} runs wrote {bytes} bytes\n")?.as_bytes())?;
    }
    push_ran(page, alloc, &first)
}

/// Carries out the run that a line orders: what stands before the sign `$`, and the words behind it.
fn play<RT: Files + AllocGlobal>(
    rt: &RT,
    stage: &mut Stage,
    devices: &str,
    line: &str,
    page: &mut Vec<u8>,
) -> anyhow::Result<()> {
    let alloc = rt.alloc();
    let words = words_of(alloc, line)?;
    let words = words.as_slice();
    match devices {
        "" => push_ran(page, alloc, &stage.run(rt, words, ROOM, ROOM)?),
        "<each " => push_wrote(page, alloc, stage.failing_reads(rt, words)?),
        ">each " => push_alike(page, alloc, stage.failing_writes(rt, words)?),
        _ => {
            let (passes, room) = limits(devices)?;
            push_ran(page, alloc, &stage.run(rt, words, passes, room)?)
        }
    }
}

/// After how many bytes the input and the output fail.
fn limits(devices: &str) -> anyhow::Result<(usize, usize)> {
    let devices = devices.trim();
    match (devices.strip_prefix('<'), devices.strip_prefix('>')) {
        (Some(passes), _) => Ok((passes.parse::<usize>()?, ROOM)),
        (_, Some(room)) => Ok((ROOM, room.parse::<usize>()?)),
        _ => bail!("a run is over `<N` or `>N`"),
    }
}

/// The name of a database, and the statement behind it.
fn named_statement(text: &str) -> Option<(&str, &str)> {
    text.split_once(' ')
}

/// Carries out a line of the script.
fn follow<RT: Files + AllocGlobal>(
    rt: &RT,
    stage: &mut Stage,
    line: &str,
    page: &mut Vec<u8>,
) -> anyhow::Result<()> {
    page.extend_from_slice(line.as_bytes())?;
    page.push(b'\n')?;
    if let Some(text) = line.strip_prefix("mbox ") {
        stage.input = unescaped(rt.alloc(), text)?;
    } else if let Some(name) = line.strip_prefix("file ") {
        stage.input = fs::read(rt, name)?;
    } else if line == "new" {
        stage.databases = TestDatabases::new(rt.alloc());
    } else if let Some((name, sql)) = line.strip_prefix("sql ").and_then(named_statement) {
        stage.databases.alter(rt.alloc(), name, sql)?;
    } else if let Some(day) = line.strip_prefix("clock ") {
        stage.today = Day::read(day.as_bytes());
    } else if let Some((devices, words)) = line.split_once('$') {
        play(rt, stage, devices, words, page)?;
    }
    Ok(())
}

fn main(rt: HostRuntime) -> anyhow::Result<()> {
    let alloc = rt.alloc();
    let Ok(script) = read_all(alloc, &mut Counted::new(rt.reader())) else {
        bail!("the script cannot be read");
    };
    let script = String::from_utf8(script).context("the script is no text")?;
    let mut stage = Stage {
        input: Vec::new(alloc),
        today: None,
        databases: TestDatabases::new(alloc),
    };
    let mut page = Vec::new(alloc);
    for line in script.lines() {
        follow(&rt, &mut stage, line, &mut page)?;
    }
    let mut output = Counted::new(io::writer(&rt));
    if write_bytes(&mut output, &page).is_err() {
        bail!("standard output failed");
    }
    Ok(())
}
