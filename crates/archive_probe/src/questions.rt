//! What nobody in particular asks of the list of an mbox, where all may be seen: how long imports, the desk's answers and
//! replies take.
use crate::{LIST, tell};
use anyhow::bail;
use archive_desk::{Report, author, export, import, message, month, thread, threads};
use archive_html::{RenderedRows, threads_page};
use archive_pages::answer;
use archive_results::{Ask, Asked, Line, Reader, TreeLine, summary_of};
use archive_store::{Key, Store, StoreFault};
use civil_time::{Day, Month};
use mbox_core::device::Counted;
use policy_core::Policy;
use sqlite::Alter;
use std::alloc::Global;
use std::hash::RandomState;
use std::io::{self, Write};
use std::time::{Duration, Instant};
use thread_core::{Entry, NodeThreader, Row};

/// A writer that keeps the number of its bytes alone.
#[derive(Drop)]
struct Scale {
    bytes: u64,
}

impl Write for Scale {
    fn write(&mut self, bytes: &[u8]) -> io::Result<usize> {
        self.bytes = self.bytes.saturating_add(bytes.len() as u64);
        Ok(bytes.len())
    }

    fn flush(&mut self) -> io::Result<()> {
        Ok(())
    }
}

/// What is asked for. A message, a month, an author and a thread are those of the message in the middle.
#[derive(Clone, Copy)]
enum Question {
    Rows,
    Message,
    Month,
    Author,
    Thread,
    Threads,
    Mbox,
}

/// What the desk is asked for.
const OF_THE_DESK: [Question; 5] = [
    Question::Rows,
    Question::Month,
    Question::Author,
    Question::Threads,
    Question::Mbox,
];

/// What is asked for by requests.
const BY_REQUESTS: [Question; 5] = [
    Question::Message,
    Question::Month,
    Question::Thread,
    Question::Threads,
    Question::Mbox,
];

/// How often a question is asked in a round.
fn times(question: Question) -> u32 {
    match question {
        Question::Message => 1_000,
        _ => 1,
    }
}

/// What answers are made of, and what is asked for by name.
#[derive(Drop)]
struct Given {
    threader: NodeThreader,
    policy: Policy,
    day: Day,
    key: Key,
    month: Month,
    author: Vec<u8>,
}

impl Given {
    /// By the message in the middle of the list.
    fn of<S: Alter>(rt: &HostRuntime, store: &mut Store<S>) -> anyhow::Result<Self> {
        let Some(day) = Day::read(b"2020-01-01") else {
            bail!("no day");
        };
        let messages = store.rows(rt.alloc(), LIST)?;
        let Some(message) = messages.get(messages.len() / 2) else {
            bail!("the list is empty");
        };
        let Ok(header) = summary_of(rt.alloc(), message) else {
            bail!("no memory");
        };
        Ok(Self {
            threader: NodeThreader::new(RandomState::new(rt)?),
            policy: Policy::open(),
            day,
            key: message.key,
            month: header.line.sent.month(),
            author: header.line.author,
        })
    }

    fn ask(&self) -> Ask<'_> {
        Ask {
            policy: &self.policy,
            reader: Reader::Nobody,
            list: LIST,
            day: self.day,
        }
    }
}

/// Adds the list where it is not there.
fn add_list<S: Alter>(store: &mut Store<S>) -> anyhow::Result<()> {
    match store.list_add(LIST) {
        Ok(()) | Err(StoreFault::ListExists) => Ok(()),
        Err(fault) => Err(fault.into()),
    }
}

/// Takes an mbox into the list.
fn take_in<S: Alter>(alloc: Global, store: &mut Store<S>, mbox: &[u8]) -> anyhow::Result<Report> {
    match import(store, alloc, LIST, mbox) {
        Ok(report) => Ok(report),
        Err(stop) => Err(stop.fault.into()),
    }
}

fn text_len<S: Alter>(alloc: Global, store: &mut Store<S>, given: &Given) -> anyhow::Result<u64> {
    match message(store, alloc, &given.ask(), &given.key)? {
        Asked::Served(text) => Ok(text.len() as u64),
        _ => bail!("the message may not be seen"),
    }
}

fn mbox_len<S: Alter>(alloc: Global, store: &mut Store<S>, given: &Given) -> anyhow::Result<u64> {
    let mut scale = Counted::new(Scale { bytes: 0 });
    match export(store, alloc, &given.ask(), &mut scale) {
        Ok(count) => Ok(count),
        Err(stop) => Err(stop.fault.into()),
    }
}

/// How many messages, lines or bytes the desk answers.
fn ask_desk<S: Alter>(
    alloc: Global,
    store: &mut Store<S>,
    given: &Given,
    question: Question,
) -> anyhow::Result<u64> {
    let ask = given.ask();
    let threader = &given.threader;
    Ok(match question {
        Question::Rows => store.rows(alloc, LIST)?.len() as u64,
        Question::Message => text_len(alloc, store, given)?,
        Question::Month => month(store, alloc, &ask, given.month)?.len() as u64,
        Question::Author => author(store, alloc, &ask, &given.author)?.len() as u64,
        Question::Thread => thread(store, alloc, &ask, threader, &given.key)?.len() as u64,
        Question::Threads => threads(store, alloc, &ask, threader)?.len() as u64,
        Question::Mbox => mbox_len(alloc, store, given)?,
    })
}

/// The request of a question; that for the rows is one for the mbox.
fn request_for(alloc: Global, given: &Given, question: Question) -> anyhow::Result<Vec<u8>> {
    let key = given.key.as_str().as_bytes();
    let month = given.month.text();
    let (route, name) = match question {
        Question::Message => (b"m/".as_slice(), key),
        Question::Month => (b"month/".as_slice(), month.as_slice()),
        Question::Author => (b"by/".as_slice(), given.author.as_slice()),
        Question::Thread => (b"t/".as_slice(), key),
        Question::Threads => (b"threads".as_slice(), b"".as_slice()),
        Question::Rows | Question::Mbox => (b"mbox".as_slice(), b"".as_slice()),
    };
    let mut text = b"GET /l/soc/".to_vec(alloc)?;
    text.extend_from_slice(route)?;
    text.extend_from_slice(name)?;
    text.extend_from_slice(b" HTTP/1.1\r\nHost: localhost\r\n\r\n")?;
    Ok(text)
}

/// How many bytes the reply to a request has, which has to be 200.
fn ask_pages<S: Alter>(
    alloc: Global,
    store: &mut Store<S>,
    given: &Given,
    request: &[u8],
) -> anyhow::Result<u64> {
    let mut scale = Scale { bytes: 0 };
    let status = answer(
        store,
        alloc,
        &given.policy,
        &given.threader,
        given.day,
        &mut Counted::new(request),
        &mut Counted::new(&mut scale),
    )?;
    if status.as_u16() != 200 {
        bail!("another status");
    }
    Ok(scale.bytes)
}

/// How long one round of the desk's answer takes.
fn time_desk<S: Alter>(
    rt: &HostRuntime,
    store: &mut Store<S>,
    given: &Given,
    question: Question,
) -> anyhow::Result<Duration> {
    let begun = Instant::now(rt)?;
    for _ in 0..times(question) {
        ask_desk(rt.alloc(), store, given, question)?;
    }
    Ok(begun.elapsed(rt)?)
}

/// How long one round of a request takes.
fn time_pages<S: Alter>(
    rt: &HostRuntime,
    store: &mut Store<S>,
    given: &Given,
    request: &[u8],
    times: u32,
) -> anyhow::Result<Duration> {
    let begun = Instant::now(rt)?;
    for _ in 0..times {
        ask_pages(rt.alloc(), store, given, request)?;
    }
    Ok(begun.elapsed(rt)?)
}

/// Tells the time of the fastest of so many rounds of the desk's answer.
fn time_question<S: Alter>(
    rt: &HostRuntime,
    store: &mut Store<S>,
    given: &Given,
    question: Question,
    rounds: u32,
) -> anyhow::Result<()> {
    let mut best = Duration::MAX;
    for _ in 0..rounds {
        best = best.min(time_desk(rt, store, given, question)?);
    }
    tell(rt, best)
}

/// Tells the times of the fastest of so many rounds of a request and of the desk's answer, which take turns.
fn time_both<S: Alter>(
    rt: &HostRuntime,
    store: &mut Store<S>,
    given: &Given,
    question: Question,
    rounds: u32,
) -> anyhow::Result<()> {
    let request = request_for(rt.alloc(), given, question)?;
    let mut pages = Duration::MAX;
    let mut desk = Duration::MAX;
    for _ in 0..rounds {
        pages = pages.min(time_pages(rt, store, given, &request, times(question))?);
        desk = desk.min(time_desk(rt, store, given, question)?);
    }
    tell(rt, pages)?;
    tell(rt, desk)
}

/// What threads ask of all messages.
fn entries<S: Alter>(alloc: Global, store: &mut Store<S>) -> anyhow::Result<Vec<Entry>> {
    let mut all = Vec::new(alloc);
    for message in store.rows(alloc, LIST)? {
        let Ok(header) = summary_of(alloc, &message) else {
            bail!("no memory");
        };
        all.push(header.entry)?;
    }
    Ok(all)
}

/// Tells the time of the fastest of so many rounds of threading alone.
fn time_threading(
    rt: &HostRuntime,
    threader: &NodeThreader,
    entries: &[Entry],
    rounds: u32,
) -> anyhow::Result<()> {
    let mut best = Duration::MAX;
    for _ in 0..rounds {
        let begun = Instant::now(rt)?;
        if thread_core::threads(rt.alloc(), threader, entries, true).is_err() {
            bail!("no memory");
        }
        best = best.min(begun.elapsed(rt)?);
    }
    tell(rt, best)
}

/// The lines of threads, and the rows with their places.
#[derive(Drop)]
struct Placed {
    lines: Vec<Line>,
    rows: Vec<Row>,
}

/// The lines of these rows apart from them.
fn apart(alloc: Global, tree: Vec<TreeLine>) -> anyhow::Result<Placed> {
    let mut lines = Vec::new(alloc);
    let mut rows = Vec::new(alloc);
    for TreeLine { depth, line } in tree {
        let mut place = None;
        if let Some(line) = line {
            place = Some(lines.len());
            lines.push(line)?;
        }
        rows.push(Row { depth, place })?;
    }
    Ok(Placed { lines, rows })
}

/// Writes a page of these rows.
fn write_page(alloc: Global, page: &Placed) -> anyhow::Result<Vec<u8>> {
    let texts = RenderedRows::new(alloc, LIST, &page.lines, &page.rows)?;
    Ok(threads_page(alloc, LIST, texts.all())?)
}

/// Tells the time of the fastest of so many rounds of writing a page of these rows.
fn time_page(rt: &HostRuntime, page: &Placed, rounds: u32) -> anyhow::Result<()> {
    let mut best = Duration::MAX;
    for _ in 0..rounds {
        let begun = Instant::now(rt)?;
        write_page(rt.alloc(), page)?;
        best = best.min(begun.elapsed(rt)?);
    }
    tell(rt, best)
}

/// Times the desk's answers over a file that holds the list.
pub fn time_desk_questions<S: Alter>(
    rt: &HostRuntime,
    store: &mut Store<S>,
    rounds: u32,
) -> anyhow::Result<()> {
    let given = Given::of(rt, store)?;
    for question in OF_THE_DESK {
        time_question(rt, store, &given, question, rounds)?;
    }
    let entries = entries(rt.alloc(), store)?;
    time_threading(rt, &given.threader, &entries, rounds)
}

/// Takes an mbox in, and times requests beside the desk's answers.
pub fn time_page_questions<S: Alter>(
    rt: &HostRuntime,
    store: &mut Store<S>,
    mbox: &[u8],
    rounds: u32,
) -> anyhow::Result<()> {
    add_list(store)?;
    take_in(rt.alloc(), store, mbox)?;
    let given = Given::of(rt, store)?;
    for question in BY_REQUESTS {
        time_both(rt, store, &given, question, rounds)?;
    }
    let tree = threads(store, rt.alloc(), &given.ask(), &given.threader)?;
    let page = apart(rt.alloc(), tree)?;
    time_page(rt, &page, rounds)?;
    println!(rt; "{}", page.rows.len())?;
    Ok(())
}

/// Tells how long an mbox takes to come in, and once more.
pub fn time_imports<S: Alter>(
    rt: &HostRuntime,
    store: &mut Store<S>,
    mbox: &[u8],
) -> anyhow::Result<()> {
    add_list(store)?;
    for _ in 0..2 {
        let begun = Instant::now(rt)?;
        take_in(rt.alloc(), store, mbox)?;
        tell(rt, begun.elapsed(rt)?)?;
    }
    Ok(())
}

/// Shows what becomes of an mbox that is taken in twice, and what is answered then.
pub fn show<S: Alter>(rt: &HostRuntime, store: &mut Store<S>, mbox: &[u8]) -> anyhow::Result<()> {
    add_list(store)?;
    for _ in 0..2 {
        let report = take_in(rt.alloc(), store, mbox)?;
        println!(rt;
            "{} new, {} known, {} too large",
            report.new, report.known, report.too_large
        )?;
    }
    show_answers(rt, store)
}

fn show_answers<S: Alter>(rt: &HostRuntime, store: &mut Store<S>) -> anyhow::Result<()> {
    let given = Given::of(rt, store)?;
    for question in OF_THE_DESK {
        println!(rt; "{}", ask_desk(rt.alloc(), store, &given, question)?)?;
    }
    for question in BY_REQUESTS {
        let request = request_for(rt.alloc(), &given, question)?;
        let reply = ask_pages(rt.alloc(), store, &given, &request)?;
        println!(rt;
            "{reply} {}",
            ask_desk(rt.alloc(), store, &given, question)?
        )?;
    }
    Ok(())
}
