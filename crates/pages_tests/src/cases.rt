//! What an archive is told and asked.
use crate::keeping::Reading;
use crate::links::Past;
use crate::{announced, devices, failing, hostile, keeping, links, own, pages, requests, serving};
use archive_pages::answer;
use archive_port::ArchiveStore;
use civil_time::Day;
use desk_tests::commands::{list_add, person_add};
use mbox_core::device::{Counted, Tap};
use policy_core::Policy;
use std::alloc::Global;
use std::io::{self, Read};
use std::test::Fail;
use thread_core::{NodeThreader, PlainThreader};

/// Two messages, the second an answer to the first.
pub const TWO: &[u8] =
    b"From anna@example.org Tue Mar  4 10:00:00 2003\nFrom: Anna <anna@example.org>\nSubject: Hello\n\nOne.\n\n\
      From bob@example.org Wed Mar 12 10:30:00 2003\nSubject: Re: Hello\n\nTwo.\n\n";

/// The second of the two alone.
pub const SECOND: &[u8] =
    b"From bob@example.org Wed Mar 12 10:30:00 2003\nSubject: Re: Hello\n\nTwo.\n\n";

/// A reader that gives at most so many bytes at once.
#[derive(Drop)]
struct Slow<'a> {
    rest: &'a [u8],
    most: usize,
}

impl<'a> Read for Slow<'a> {
    fn read(&mut self, buffer: &mut [u8]) -> io::Result<usize> {
        let count = buffer.len().min(self.rest.len()).min(self.most);
        buffer[..count].copy_from_slice(&self.rest[..count]);
        self.rest = &self.rest[count..];
        Ok(count)
    }
}

/// The day of each request.
pub fn today() -> Result<Day, Fail> {
    Ok(Day::read(b"2003-03-20").ok_or("a day")?)
}

/// Whether a request that comes in pieces of at most so many bytes gets just this reply, and `answer` tells its status.
pub fn gets<A: ArchiveStore>(
    alloc: Global,
    store: &mut A,
    policy: &Policy,
    request: &[u8],
    most: usize,
    reply: &[u8],
) -> Result<bool, Fail> {
    let mut input = Counted::new(Slow {
        rest: request,
        most,
    });
    let mut output = Tap::new(alloc, b"", 3000)?;
    let told = answer(
        store,
        alloc,
        policy,
        &PlainThreader,
        today()?,
        &mut input,
        &mut output,
    );
    let Ok(status) = told else {
        return Ok(false);
    };
    Ok(output.bytes() == reply && reply.get(9..12) == Some(status.as_str().as_bytes()))
}

/// What an archive with a list and a person is told and asked.
#[derive(Clone, Copy, Debug, PartialEq, Eq)]
pub enum Case {
    Requests,
    Heads,
    Devices,
    Pages,
    Withdrawn,
    Withheld,
    Alone,
    Apart,
    Own,
    Texts,
}

/// All cases.
pub const CASES: [Case; 10] = [
    Case::Requests,
    Case::Heads,
    Case::Devices,
    Case::Pages,
    Case::Withdrawn,
    Case::Withheld,
    Case::Alone,
    Case::Apart,
    Case::Own,
    Case::Texts,
];

/// Tells an empty archive a case.
fn tell<A: ArchiveStore>(alloc: Global, store: &mut A, case: Case) -> Result<(), Fail> {
    list_add(store, "soc")?;
    person_add(store, "mo", "0123456789abcdef")?;
    match case {
        Case::Requests => requests::requests(alloc, store),
        Case::Heads => requests::heads(alloc, store),
        Case::Devices => devices::devices(alloc, store),
        Case::Pages => pages::pages(alloc, store),
        Case::Withdrawn => pages::withdrawn(alloc, store),
        Case::Withheld => pages::withheld(alloc, store),
        Case::Alone => pages::alone(alloc, store),
        Case::Apart => pages::apart(alloc, store),
        Case::Own => own::own(alloc, store),
        Case::Texts => hostile::texts(alloc, store),
    }
}

/// What an archive is told: a case, or an archive of which all links are followed, also by who wrote a withdrawn message, whose
/// threads are asked for, once or again and again, whose pages are made by both threaders, or whose messages refer to each other
/// in a ring; a reading of a list; or one that is served to peers, also to some that fail.
#[derive(Clone, Copy)]
pub enum Order {
    Case(Case),
    Links,
    OwnLinks,
    Shown(Past),
    Asking,
    Keeping,
    ByBoth,
    Rings,
    Reading(Reading),
    Announced,
    Failing,
    Serving,
}

/// Tells an empty archive an order. What nobody in particular is shown of an archive; else nothing.
pub fn tell_order<A: ArchiveStore>(
    alloc: Global,
    store: &mut A,
    nodes: &NodeThreader,
    order: Order,
) -> Result<Vec<u8>, Fail> {
    match order {
        Order::Case(case) => tell(alloc, store, case)?,
        Order::Links => links::links(alloc, store)?,
        Order::OwnLinks => links::own(alloc, store)?,
        Order::Shown(past) => return links::shown(alloc, store, past),
        Order::Asking => links::asking(alloc, store)?,
        Order::Keeping => keeping::keeping(alloc, store)?,
        Order::ByBoth => links::by_both(alloc, store, nodes)?,
        Order::Rings => hostile::rings(alloc, store, nodes)?,
        Order::Reading(reading) => keeping::follow(alloc, store, &reading)?,
        Order::Announced => announced::all_say_where(alloc, store)?,
        Order::Failing => failing::all_fail(alloc, store)?,
        Order::Serving => serving::all_come(alloc, store)?,
    }
    Ok(Vec::new(alloc))
}
