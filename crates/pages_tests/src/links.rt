//! Every link of every page, followed from the page of all lists.
use crate::cases::today;
use archive_desk::import;
use archive_pages::answer;
use archive_port::{ArchiveStore, Key};
use civil_time::Day;
use desk_tests::checks::{expect, expect_equal};
use desk_tests::commands::{address_set, embargo, grant, list_add, person_add, withdraw};
use desk_tests::noting::Noting;
use mbox_core::cut;
use mbox_core::device::Tap;
use policy_core::{GrantKind, Policy, WithdrawnBy};
use std::alloc::Global;
use std::test::Fail;
use thread_core::{NodeThreader, PlainThreader, Threader};

/// What each standing may see, and that one's own messages may be read.
pub const POLICY: &str = "
[[rule]]
name = \"mine\"
effect = \"allow\"
own = true

[[rule]]
name = \"withdrawn\"
effect = \"deny\"
standings = [\"public\", \"member\", \"subscriber\"]
withdrawn = [\"author\", \"board\"]

[[rule]]
name = \"held-back\"
effect = \"deny\"
standings = [\"public\", \"member\"]
embargo = true

[[rule]]
name = \"old\"
effect = \"allow\"
age_min = 10

[[rule]]
name = \"known\"
effect = \"allow\"
standings = [\"member\", \"subscriber\", \"moderator\"]
";

/// The first message of a thread. Its author and its subject have what a page has to escape.
pub const FIRST: &[u8] = b"\
From a@b Tue Mar  4 10:00:00 2003\nFrom: <B/%b?#\"&@Example.ORG>\nMessage-ID: <1@x>\n\
Subject: 1 <a href=\"/nope\"> &amp;\n\n<a href=\"/nope\">\n\n";

/// An answer to it, which is withdrawn.
pub const WITHDRAWN: &[u8] = b"\
From a@b Wed Mar  5 10:00:00 2003\nFrom: eve@example.org\nMessage-ID: <2@x>\nReferences: <1@x>\n\
Subject: 2\n\nTwo.\n\n";

/// Answers to both; one that was sent in another month, by nobody; two to a message that never came; one with the id of the
/// withdrawn one, and an answer to that; one of five days, and one that is held back.
const OTHERS: &[u8] = b"\
From a@b Thu Mar  6 10:00:00 2003\nDate: Fri, 28 Feb 2003 10:00:00 +0000\nReferences: <1@x> <2@x>\n\nThree.\n\n\
From a@b Fri Mar  7 10:00:00 2003\nFrom: \xe9@example.org\nIn-Reply-To: <gone@x>\nSubject: 4\n\nFour.\n\n\
From a@b Sat Mar  8 10:00:00 2003\nFrom: anna@example.org\nIn-Reply-To: <gone@x>\nSubject: 5\n\nFive.\n\n\
From a@b Sun Mar  9 10:00:00 2003\nFrom: anna@example.org\nMessage-ID: <2@x>\nSubject: 6\n\nSix.\n\n\
From a@b Mon Mar 10 10:00:00 2003\nFrom: carl@example.org\nReferences: <2@x>\nSubject: 7\n\nSeven.\n\n\
From a@b Sat Mar 15 10:00:00 2003\nFrom: dave@example.org\nReferences: <1@x>\nSubject: 8\n\nEight.\n\n\
From a@b Mon Mar  3 10:00:00 2003\nFrom: fay@example.org\nSubject: 9\n\nNine.\n\n";

/// Two archives.
#[derive(Clone, Copy, Debug, PartialEq, Eq)]
pub enum Past {
    /// A message came and is withdrawn.
    Withdrawn,
    /// It never came.
    NeverCame,
}

/// The readers, by name, token and kind.
const PERSONS: [(&str, &str, GrantKind); 3] = [
    ("al", "0000000000000000", GrantKind::Member),
    ("sue", "1111111111111111", GrantKind::Subscriber),
    ("mo", "2222222222222222", GrantKind::Moderator),
];

/// How many pages there are for nobody and for each person.
pub const PAGES: [(Option<&str>, usize); 4] = [
    (None, 27),
    (Some("0000000000000000"), 30),
    (Some("1111111111111111"), 33),
    (Some("2222222222222222"), 36),
];

/// The first message of an mbox.
pub fn first_key(mbox: &[u8]) -> Result<Key, Fail> {
    Ok(Key::of(&cut(mbox)?.next().ok_or("a message")?))
}

/// Two lists with their messages, and the readers.
pub fn fill<A: ArchiveStore>(alloc: Global, store: &mut A, past: Past) -> Result<(), Fail> {
    list_add(store, "soc")?;
    list_add(store, "other")?;
    for (name, token, kind) in PERSONS {
        person_add(store, name, token)?;
        grant(store, name, "soc", kind, today()?, today()?)?;
    }
    import(store, alloc, "other", FIRST)?;
    import(store, alloc, "soc", FIRST)?;
    if past == Past::Withdrawn {
        import(store, alloc, "soc", WITHDRAWN)?;
        withdraw(store, "soc", &first_key(WITHDRAWN)?, WithdrawnBy::Author)?;
    }
    import(store, alloc, "soc", OTHERS)?;
    let last = Key::of(&cut(OTHERS)?.nth(6).ok_or("a message")?);
    embargo(
        store,
        "soc",
        &last,
        Day::read(b"2003-04-01").ok_or("a day")?,
    )?;
    Ok(())
}

/// A request for a path, of whoever has a token.
pub fn request_for(alloc: Global, token: Option<&str>, path: &[u8]) -> Result<Vec<u8>, Fail> {
    let mut request = Vec::new(alloc);
    request.extend_from_slice(b"GET ")?;
    request.extend_from_slice(path)?;
    request.extend_from_slice(b" HTTP/1.1\r\n")?;
    if let Some(token) = token {
        request.extend_from_slice(b"Authorization: Bearer ")?;
        request.extend_from_slice(token.as_bytes())?;
        request.extend_from_slice(b"\r\n")?;
    }
    request.extend_from_slice(b"\r\n")?;
    Ok(request)
}

/// The reply to a request for a path, by a threader.
pub fn reply<T: Threader, A: ArchiveStore>(
    alloc: Global,
    store: &mut A,
    policy: &Policy,
    threader: &T,
    token: Option<&str>,
    path: &[u8],
) -> Result<Tap, Fail> {
    let request = request_for(alloc, token, path)?;
    let mut input = Tap::new(alloc, &request, 10_000)?;
    let mut output = Tap::new(alloc, b"", 100_000)?;
    answer(
        store,
        alloc,
        policy,
        threader,
        today()?,
        &mut input,
        &mut output,
    )?;
    Ok(output)
}

/// Adds the targets of a page's links that are not there yet.
fn add_links(alloc: Global, paths: &mut Vec<Vec<u8>>, page: &[u8]) -> Result<(), Fail> {
    let mut is_target = false;
    for part in page.split(|byte| *byte == b'"') {
        if is_target && !paths.iter().any(|path| path.as_slice() == part) {
            paths.push(part.to_vec(alloc)?)?;
        }
        is_target = part.ends_with(b"href=");
    }
    Ok(())
}

/// All replies to one reader, and how many they are: each link of each page is followed, and each reply is 200.
fn walk<T: Threader, A: ArchiveStore>(
    alloc: Global,
    store: &mut A,
    threader: &T,
    token: Option<&str>,
) -> Result<(Vec<u8>, usize), Fail> {
    let policy = Policy::read(alloc, POLICY)?;
    let mut told = Vec::new(alloc);
    let mut paths = Vec::new(alloc);
    paths.push(b"/".to_vec(alloc)?)?;
    for turn in 0..200 {
        let Some(path) = paths.get(turn) else {
            return Ok((told, turn));
        };
        let output = reply(alloc, store, &policy, threader, token, path)?;
        let page = output.bytes();
        expect(
            page.starts_with(b"HTTP/1.1 200 OK\r\n"),
            format_args!("page {turn}"),
        )?;
        if page.starts_with(b"HTTP/1.1 200 OK\r\nContent-Type: text/html") {
            add_links(alloc, &mut paths, page)?;
        }
        told.extend_from_slice(page)?;
    }
    Err(Fail::from("an end of the links"))
}

/// Each reader follows all links, and finds so many pages.
pub fn links<A: ArchiveStore>(alloc: Global, store: &mut A) -> Result<(), Fail> {
    fill(alloc, store, Past::Withdrawn)?;
    for (token, count) in PAGES {
        let (_told, pages) = walk(alloc, store, &PlainThreader, token)?;
        expect(
            pages == count,
            format_args!("{pages} pages, not {count}, for {token:?}"),
        )?;
    }
    Ok(())
}

/// The token of who wrote the withdrawn message and has no grant, and how many pages there are for them once their address is
/// said: those of nobody, the message, its thread and its author.
const AUTHOR: (&str, usize) = ("3333333333333333", 30);

/// Until their address is said, who wrote the withdrawn message is shown what nobody in particular is; then more. All that others
/// are shown stays as it was, byte for byte.
pub fn own<A: ArchiveStore>(alloc: Global, store: &mut A) -> Result<(), Fail> {
    fill(alloc, store, Past::Withdrawn)?;
    let (token, count) = AUTHOR;
    person_add(store, "eve", token)?;
    let mut before = Vec::new(alloc);
    for (token, _pages) in PAGES {
        let (told, _pages) = walk(alloc, store, &PlainThreader, token)?;
        before.push(told)?;
    }
    let (to_author, _pages) = walk(alloc, store, &PlainThreader, Some(token))?;
    let to_nobody = before.first().ok_or("what nobody is shown")?;
    expect(
        to_author.as_slice() == to_nobody.as_slice(),
        "more than nobody is shown",
    )?;
    address_set(store, alloc, "eve", "Eve@Example.org")?;
    for ((token, _pages), told) in PAGES.iter().zip(before.iter()) {
        let (again, _pages) = walk(alloc, store, &PlainThreader, *token)?;
        expect(
            again.as_slice() == told.as_slice(),
            format_args!("{token:?}"),
        )?;
    }
    let (_told, pages) = walk(alloc, store, &PlainThreader, Some(token))?;
    expect_equal(pages, count)
}

/// All that nobody in particular is shown of an archive.
pub fn shown<A: ArchiveStore>(alloc: Global, store: &mut A, past: Past) -> Result<Vec<u8>, Fail> {
    fill(alloc, store, past)?;
    let (told, _pages) = walk(alloc, store, &PlainThreader, None)?;
    Ok(told)
}

/// A token, and of which messages a threader is asked for a page. Without a token the withdrawn message and the last two
/// are not seen; a moderator sees all.
const ASKED: [(Option<&str>, &[u8]); 2] = [
    (None, SEEN_BY_NOBODY),
    (Some("2222222222222222"), SEEN_BY_MODERATOR),
];

const SEEN_BY_NOBODY: &[u8] = b"|1 1 <a href=\"/nope\"> &amp;|<1> <2> |<gone> 4|<gone> 5|2 6|<2> 7";

const SEEN_BY_MODERATOR: &[u8] =
    b"|1 1 <a href=\"/nope\"> &amp;|2 <1> 2|<1> <2> |<gone> 4|<gone> 5|2 6|<2> 7|<1> 8|9";

/// For this page the threader is asked once, and of these messages.
fn asks_once<A: ArchiveStore>(
    alloc: Global,
    store: &mut A,
    policy: &Policy,
    token: Option<&str>,
    path: &[u8],
    entries: &[u8],
) -> Result<(), Fail> {
    let noting = Noting::new(alloc);
    let output = reply(alloc, store, policy, &noting, token, path)?;
    let noted = noting.into_noted();
    expect(
        output.bytes().starts_with(b"HTTP/1.1 200 OK\r\n"),
        "no page",
    )?;
    expect_equal((noted.joins, noted.rows), (1, 1))?;
    expect_equal(noted.entries.as_slice(), entries)?;
    Ok(())
}

/// For a page of threads the threader is asked once, and of the messages of the view alone, also where the view does not hold
/// the message of the thread.
pub fn asking<A: ArchiveStore>(alloc: Global, store: &mut A) -> Result<(), Fail> {
    fill(alloc, store, Past::Withdrawn)?;
    let policy = Policy::read(alloc, POLICY)?;
    let thread = thread_path(alloc, &first_key(FIRST)?)?;
    for (token, entries) in ASKED {
        asks_once(alloc, store, &policy, token, b"/l/soc/threads", entries)?;
        asks_once(alloc, store, &policy, token, &thread, entries)?;
    }
    let hidden = thread_path(alloc, &first_key(WITHDRAWN)?)?;
    let noting = Noting::new(alloc);
    let output = reply(alloc, store, &policy, &noting, None, &hidden)?;
    let noted = noting.into_noted();
    expect(
        output.bytes().starts_with(b"HTTP/1.1 404 Not Found\r\n"),
        "no 404",
    )?;
    expect_equal((noted.joins, noted.rows), (1, 1))?;
    expect_equal(noted.entries.as_slice(), SEEN_BY_NOBODY)?;
    Ok(())
}

/// The path of the thread of a message.
pub fn thread_path(alloc: Global, key: &Key) -> Result<Vec<u8>, Fail> {
    path_of(alloc, b"/l/soc/t/", key)
}

/// The path of a message.
pub fn message_path(alloc: Global, key: &Key) -> Result<Vec<u8>, Fail> {
    path_of(alloc, b"/l/soc/m/", key)
}

fn path_of(alloc: Global, route: &[u8], key: &Key) -> Result<Vec<u8>, Fail> {
    let mut path = Vec::new(alloc);
    path.extend_from_slice(route)?;
    path.extend_from_slice(key.as_str().as_bytes())?;
    Ok(path)
}

/// Both threaders give the same pages, to nobody and to each person.
pub fn by_both<A: ArchiveStore>(
    alloc: Global,
    store: &mut A,
    nodes: &NodeThreader,
) -> Result<(), Fail> {
    fill(alloc, store, Past::Withdrawn)?;
    for (token, _pages) in PAGES {
        let (plain, _pages) = walk(alloc, store, &PlainThreader, token)?;
        let (by_nodes, _pages) = walk(alloc, store, nodes, token)?;
        expect(
            plain.as_slice() == by_nodes.as_slice(),
            format_args!("{token:?}"),
        )?;
    }
    Ok(())
}
