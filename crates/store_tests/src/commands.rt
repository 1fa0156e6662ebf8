//! What each command answers.
use crate::questions::{are_names, day, item};
use archive_store::limits::add_limited;
use archive_store::{Added, Command, Key, Outcome, Store, StoreFault};
use civil_time::Day;
use mbox_core::Item;
use policy_core::{GrantKind, Withdrawn, WithdrawnBy};
use sqlite::Alter;
use std::alloc::Global;
use std::process::Abort;
use std::test::Fail;

/// Anna's token.
pub const TOKEN: &str = "0123456789abcdef";

const TOKEN_OF_BOB: &str = "0123456789abcdeF";

/// Tells a store some commands, one after the other, and compares its answers.
pub fn run<S: Alter>(
    rt: &impl Abort,
    alloc: Global,
    store: &mut Store<S>,
    told: &[Command<'_>],
    wanted: &[Outcome],
) -> Result<(), Fail> {
    match store.run(alloc, told) {
        Ok(outcomes) => {
            assert_eq!(rt; outcomes.as_slice(), wanted);
            Ok(())
        }
        Err(stop) => Err(Fail::from(stop.fault)),
    }
}

/// What each command answers, and each of its refusals but those of a full list and of a message that is too large.
pub fn commands<S: Alter>(
    rt: &impl Abort,
    alloc: Global,
    store: &mut Store<S>,
) -> Result<(), Fail> {
    let (first, last) = (day("2003-01-01")?, day("2003-12-31")?);
    let other = Key::of(&item("a@b", b"two")?);
    let one = item("a@b", b"one")?;
    let key = Key::of(&one);
    lists_and_persons(rt, alloc, store)?;
    names_and_tokens(rt, alloc, store)?;
    for kind in [GrantKind::Member, GrantKind::Subscriber] {
        grants(rt, alloc, store, kind, first, last)?;
    }
    withdrawals(rt, alloc, store, &one, &key)?;
    is_withdrawn_by_the_board(rt, store, &key)?;
    merges(rt, alloc, store)?;
    addresses(rt, alloc, store)?;
    embargoes(rt, alloc, store, &key, &other, last)
}

/// The lists `soc` and `a` and the persons `anna` and `bob`, and what is refused of others.
fn lists_and_persons<S: Alter>(
    rt: &impl Abort,
    alloc: Global,
    store: &mut Store<S>,
) -> Result<(), Fail> {
    let told = [
        Command::ListAdd { name: "soc" },
        Command::ListAdd { name: "soc" },
        Command::ListAdd { name: "Soc" },
        Command::ListAdd { name: "a" },
        person("Anna", TOKEN),
        person("Anna", "x"),
        person("anna", "0123456789abcde"),
        person("anna", TOKEN),
        person("anna", TOKEN),
        person("bob", TOKEN),
        person("bob", TOKEN_OF_BOB),
    ];
    let wanted = [
        Outcome::Done,
        Outcome::Refused(StoreFault::ListExists),
        Outcome::Refused(StoreFault::BadName),
        Outcome::Done,
        Outcome::Refused(StoreFault::BadName),
        Outcome::Refused(StoreFault::BadName),
        Outcome::Refused(StoreFault::BadText),
        Outcome::Done,
        Outcome::Refused(StoreFault::PersonExists),
        Outcome::Refused(StoreFault::TokenTaken),
        Outcome::Done,
    ];
    run(rt, alloc, store, &told, &wanted)
}

fn person<'a>(name: &'a str, token: &'a str) -> Command<'a> {
    Command::PersonAdd { name, token }
}

/// The lists by name, and the persons of three tokens.
fn names_and_tokens<S: Alter>(
    rt: &impl Abort,
    alloc: Global,
    store: &mut Store<S>,
) -> Result<(), Fail> {
    are_names(rt, alloc, store, &["a", "soc"])?;
    for (token, name) in [
        (TOKEN, Some("anna")),
        (TOKEN_OF_BOB, Some("bob")),
        ("nobody-has-this-one", None),
    ] {
        let found = store.person_of_token(token)?;
        assert_eq!(rt; found.as_deref(), name);
    }
    Ok(())
}

/// A grant that is given twice and taken back twice, one of another kind beside it, and what is refused of others.
fn grants<S: Alter>(
    rt: &impl Abort,
    alloc: Global,
    store: &mut Store<S>,
    kind: GrantKind,
    first: Day,
    last: Day,
) -> Result<(), Fail> {
    let told = [
        grant("eve", "xyz", kind, first, last),
        grant("anna", "xyz", kind, first, last),
        grant("anna", "soc", kind, last, first),
        grant("anna", "soc", kind, first, first),
        grant("anna", "soc", kind, first, last),
        grant("anna", "soc", GrantKind::Moderator, first, last),
        revoke("eve", "soc", kind),
        revoke("anna", "xyz", kind),
        revoke("anna", "soc", kind),
        revoke("anna", "soc", kind),
        revoke("anna", "soc", GrantKind::Moderator),
    ];
    let wanted = [
        Outcome::Refused(StoreFault::NoPerson),
        Outcome::Refused(StoreFault::NoList),
        Outcome::Refused(StoreFault::BadDays),
        Outcome::Done,
        Outcome::Done,
        Outcome::Done,
        Outcome::Refused(StoreFault::NoPerson),
        Outcome::Refused(StoreFault::NoList),
        Outcome::WasThere(true),
        Outcome::WasThere(false),
        Outcome::WasThere(true),
    ];
    run(rt, alloc, store, &told, &wanted)
}

fn grant<'a>(
    person: &'a str,
    list: &'a str,
    kind: GrantKind,
    from: Day,
    until: Day,
) -> Command<'a> {
    Command::Grant {
        person,
        list,
        kind,
        from,
        until,
    }
}

fn revoke<'a>(person: &'a str, list: &'a str, kind: GrantKind) -> Command<'a> {
    Command::Revoke { person, list, kind }
}

/// A message that comes again while it is withdrawn, and what is refused of others. The board withdraws it last.
fn withdrawals<'a, S: Alter>(
    rt: &impl Abort,
    alloc: Global,
    store: &mut Store<S>,
    item: &'a Item<'a>,
    key: &'a Key,
) -> Result<(), Fail> {
    let told = [
        withdraw("xyz", key, WithdrawnBy::Author),
        withdraw("soc", key, WithdrawnBy::Author),
        restore("soc", key),
        add(alloc, "xyz", item),
        add(alloc, "soc", item),
        restore("soc", key),
        withdraw("soc", key, WithdrawnBy::Author),
        add(alloc, "soc", item),
        withdraw("soc", key, WithdrawnBy::Author),
        withdraw("soc", key, WithdrawnBy::Board),
        restore("xyz", key),
        restore("soc", key),
        restore("soc", key),
        withdraw("soc", key, WithdrawnBy::Board),
    ];
    let wanted = [
        Outcome::Refused(StoreFault::NoList),
        Outcome::Refused(StoreFault::NoMessage),
        Outcome::Refused(StoreFault::NoMessage),
        Outcome::Refused(StoreFault::NoList),
        Outcome::Added(Added::New),
        Outcome::Refused(StoreFault::NotWithdrawn),
        Outcome::Done,
        Outcome::Added(Added::Known),
        Outcome::Refused(StoreFault::AlreadyWithdrawn),
        Outcome::Refused(StoreFault::AlreadyWithdrawn),
        Outcome::Refused(StoreFault::NoList),
        Outcome::Done,
        Outcome::Refused(StoreFault::NotWithdrawn),
        Outcome::Done,
    ];
    run(rt, alloc, store, &told, &wanted)
}

/// The command that adds a message.
pub fn add<'a>(alloc: Global, list: &'a str, item: &'a Item<'a>) -> Command<'a> {
    Command::Add { alloc, list, item }
}

/// The command that withdraws a message.
pub fn withdraw<'a>(list: &'a str, key: &'a Key, by: WithdrawnBy) -> Command<'a> {
    Command::Withdraw { list, key, by }
}

fn restore<'a>(list: &'a str, key: &'a Key) -> Command<'a> {
    Command::Restore { list, key }
}

fn is_withdrawn_by_the_board<S: Alter>(
    rt: &impl Abort,
    store: &mut Store<S>,
    key: &Key,
) -> Result<(), Fail> {
    let found = store.row("soc", key)?.ok_or("a message")?;
    assert_eq!(rt; found.withdrawn, Withdrawn::Board);
    Ok(())
}

/// The threads of one list are gathered by subject, and those of another are not; what is refused of others.
fn merges<S: Alter>(rt: &impl Abort, alloc: Global, store: &mut Store<S>) -> Result<(), Fail> {
    for list in ["a", "soc"] {
        assert_eq!(rt; store.merge_of(list), Ok(true));
    }
    let told = [
        merge("xyz", false),
        merge("soc", false),
        merge("a", false),
        merge("a", true),
        Command::ListAdd { name: "soc" },
    ];
    let wanted = [
        Outcome::Refused(StoreFault::NoList),
        Outcome::Done,
        Outcome::Done,
        Outcome::Done,
        Outcome::Refused(StoreFault::ListExists),
    ];
    run(rt, alloc, store, &told, &wanted)?;
    for (list, answer) in [
        ("a", Ok(true)),
        ("soc", Ok(false)),
        ("xyz", Err(StoreFault::NoList)),
    ] {
        assert_eq!(rt; store.merge_of(list), answer, "{list}");
    }
    Ok(())
}

fn merge(list: &str, merge: bool) -> Command<'_> {
    Command::MergeSet { list, merge }
}

/// An address that is given, and one that replaces it; what is refused of others.
fn addresses<S: Alter>(rt: &impl Abort, alloc: Global, store: &mut Store<S>) -> Result<(), Fail> {
    let told = [
        address(alloc, "eve", ""),
        address(alloc, "anna", ""),
        address(alloc, "anna", "a b"),
        address(alloc, "anna", "a@b"),
        address(alloc, "anna", "Anna@Example.org"),
        address(alloc, "bob", "anna@example.org"),
    ];
    let wanted = [
        Outcome::Refused(StoreFault::NoPerson),
        Outcome::Refused(StoreFault::BadText),
        Outcome::Refused(StoreFault::BadText),
        Outcome::Done,
        Outcome::Done,
        Outcome::Done,
    ];
    run(rt, alloc, store, &told, &wanted)?;
    for person in ["anna", "bob"] {
        let found = store.address(person)?;
        assert_eq!(rt; found.as_deref(), Some("anna@example.org"), "{person}");
    }
    assert!(rt; matches!(store.address("eve"), Err(StoreFault::NoPerson)));
    Ok(())
}

fn address<'a>(alloc: Global, person: &'a str, address: &'a str) -> Command<'a> {
    Command::AddressSet {
        alloc,
        person,
        address,
    }
}

/// A message that is held back and let go, and what is refused of another.
fn embargoes<'a, S: Alter>(
    rt: &impl Abort,
    alloc: Global,
    store: &mut Store<S>,
    key: &'a Key,
    other: &'a Key,
    until: Day,
) -> Result<(), Fail> {
    let told = [
        embargo("xyz", key, until),
        embargo("soc", other, until),
        lift("xyz", key),
        lift("soc", other),
        embargo("soc", key, until),
        lift("soc", key),
        lift("soc", key),
    ];
    let wanted = [
        Outcome::Refused(StoreFault::NoList),
        Outcome::Refused(StoreFault::NoMessage),
        Outcome::Refused(StoreFault::NoList),
        Outcome::Refused(StoreFault::NoMessage),
        Outcome::Done,
        Outcome::WasThere(true),
        Outcome::WasThere(false),
    ];
    run(rt, alloc, store, &told, &wanted)
}

/// The command that holds a message back.
pub fn embargo<'a>(list: &'a str, key: &'a Key, until: Day) -> Command<'a> {
    Command::Embargo { list, key, until }
}

fn lift<'a>(list: &'a str, key: &'a Key) -> Command<'a> {
    Command::Lift { list, key }
}

/// Each command by its own call.
pub fn calls<S: Alter>(rt: &impl Abort, alloc: Global, store: &mut Store<S>) -> Result<(), Fail> {
    let (first, last) = (day("2003-01-01")?, day("2003-12-31")?);
    let one = item("a@b", b"one")?;
    let key = Key::of(&one);
    store.list_add("soc")?;
    store.person_add("anna", TOKEN)?;
    store.grant("anna", "soc", GrantKind::Member, first, last)?;
    assert_eq!(rt; store.revoke("anna", "soc", GrantKind::Member), Ok(true));
    assert_eq!(rt; store.add(alloc, "soc", &one), Ok(Added::New));
    store.withdraw("soc", &key, WithdrawnBy::Author)?;
    store.restore("soc", &key)?;
    store.embargo("soc", &key, last)?;
    assert_eq!(rt; store.lift("soc", &key), Ok(true));
    store.merge_set("soc", false)?;
    assert_eq!(rt; store.merge_of("soc"), Ok(false));
    assert!(rt; store.address("anna")?.is_none());
    store.address_set(alloc, "anna", "Anna@Example.org")?;
    assert_eq!(rt; store.address("anna")?.as_deref(), Some("anna@example.org"));
    Ok(())
}

/// A limit of two messages: a third is refused, one of the two is known from any sender, and those of another list do
/// not count.
pub fn limits<S: Alter>(rt: &impl Abort, alloc: Global, store: &mut Store<S>) -> Result<(), Fail> {
    store.list_add("soc")?;
    store.list_add("other")?;
    has_no_message(rt, alloc, store)?;
    for (list, answer) in [("xyz", Err(StoreFault::NoList)), ("other", Ok(Added::New))] {
        assert_eq!(rt; store.add(alloc, list, &item("a@b", b"one")?), answer);
    }
    for (sender, text, answer) in [
        ("a@b", b"one".as_slice(), Ok(Added::New)),
        ("a@b", b"two\n".as_slice(), Ok(Added::New)),
        ("a@b", b"three\n".as_slice(), Err(StoreFault::ListFull)),
        ("a@b", b"one\n".as_slice(), Ok(Added::Known)),
        ("c@d", b"one\n".as_slice(), Ok(Added::Known)),
    ] {
        let added = add_limited(store, alloc, "soc", &item(sender, text)?, 2);
        assert_eq!(rt; added, answer);
    }
    assert_eq!(rt;
        store.add(alloc, "soc", &item("a@b", b"three\n")?),
        Ok(Added::New)
    );
    Ok(())
}

/// The list `soc` holds no message, and there is no list `xyz`.
fn has_no_message<S: Alter>(
    rt: &impl Abort,
    alloc: Global,
    store: &mut Store<S>,
) -> Result<(), Fail> {
    let key = Key::of(&item("a@b", b"one")?);
    assert!(rt; store.rows(alloc, "soc")?.is_empty());
    assert!(rt; store.row("soc", &key)?.is_none());
    assert!(rt; matches!(store.rows(alloc, "xyz"), Err(StoreFault::NoList)));
    Ok(())
}

/// How many of three lists a store says that it added.
pub fn add_three<S: Alter>(alloc: Global, store: &mut Store<S>) -> usize {
    let commands = [
        Command::ListAdd { name: "a" },
        Command::ListAdd { name: "b" },
        Command::ListAdd { name: "c" },
    ];
    match store.run(alloc, &commands) {
        Ok(outcomes) => outcomes.len(),
        Err(stop) => stop.done,
    }
}
