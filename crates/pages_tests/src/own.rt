//! A message that the board withdrew: what is shown of it to who wrote it, before their address is said and after, and what is
//! shown to others.
use crate::cases::{TWO, gets};
use crate::pages::{DENIED, OF_SECOND, OF_TWO, WITHDRAWN};
use archive_desk::import;
use archive_port::{ArchiveStore, Key};
use desk_tests::checks::expect;
use desk_tests::commands::{address_set, person_add, withdraw};
use mbox_core::cut;
use policy_core::{Policy, WithdrawnBy};
use std::alloc::Global;
use std::test::Fail;

/// The rule by which one's own messages may be read.
pub const MINE: &str = "
[[rule]]
name = \"mine\"
effect = \"allow\"
own = true
";

/// Two persons without grants, and their tokens; the first wrote the withdrawn message.
const PERSONS: [(&str, &str); 2] = [("anna", "aaaaaaaaaaaaaaaa"), ("bob", "bbbbbbbbbbbbbbbb")];

/// What is said of an address, and which of the two persons then sees both messages. The others see the second alone.
type Step = (Option<(&'static str, &'static str)>, [bool; 2]);

const STEPS: [Step; 5] = [
    (None, [false, false]),
    (Some(("anna", "Anna@Example.org")), [true, false]),
    // the second message has no author
    (Some(("bob", "bob@example.org")), [true, false]),
    (Some(("bob", "ANNA@example.org")), [true, true]),
    (Some(("anna", "anna@gone.invalid")), [false, true]),
];

/// A request with a token, if there is one.
fn with_token(alloc: Global, request: &str, token: Option<&str>) -> Result<Vec<u8>, Fail> {
    let mut text = Vec::new(alloc);
    let line = request
        .as_bytes()
        .strip_suffix(b"\r\n")
        .ok_or("an empty line")?;
    text.extend_from_slice(line)?;
    if let Some(token) = token {
        text.extend_from_slice(b"Authorization: Bearer ")?;
        text.extend_from_slice(token.as_bytes())?;
        text.extend_from_slice(b"\r\n")?;
    }
    text.extend_from_slice(b"\r\n")?;
    Ok(text)
}

/// Each of these requests, with a token if there is one, gets its reply.
fn all_get_with<A: ArchiveStore>(
    alloc: Global,
    store: &mut A,
    policy: &Policy,
    token: Option<&str>,
    pages: &[(&str, &[u8])],
) -> Result<(), Fail> {
    for (request, reply) in pages {
        let request = with_token(alloc, request, token)?;
        expect(
            gets(alloc, store, policy, &request, 8192, reply)?,
            format_args!("{token:?}"),
        )?;
    }
    Ok(())
}

/// Each page of a reader is what it is for all where both messages are seen, or what it is where the second alone is.
fn sees<A: ArchiveStore>(
    alloc: Global,
    store: &mut A,
    policy: &Policy,
    token: Option<&str>,
    is_whole: bool,
) -> Result<(), Fail> {
    if is_whole {
        return all_get_with(alloc, store, policy, token, &OF_TWO);
    }
    all_get_with(alloc, store, policy, token, &OF_SECOND)?;
    all_get_with(alloc, store, policy, token, &DENIED)
}

/// Imports the two messages, and withdraws the first. There are two persons beside.
fn fill<A: ArchiveStore>(alloc: Global, store: &mut A) -> Result<(), Fail> {
    import(store, alloc, "soc", TWO)?;
    let first = Key::of(&cut(TWO)?.next().ok_or("a first message")?);
    withdraw(store, "soc", &first, WithdrawnBy::Board)?;
    for (person, token) in PERSONS {
        person_add(store, person, token)?;
    }
    Ok(())
}

/// Who wrote the withdrawn message sees every page as if nothing was withdrawn, once the address is said and as long as it is;
/// the pages of others are byte for byte what they were.
pub fn own<A: ArchiveStore>(alloc: Global, store: &mut A) -> Result<(), Fail> {
    fill(alloc, store)?;
    let rules = format!(in alloc; "{MINE}{WITHDRAWN}")?;
    let policy = Policy::read(alloc, &rules)?;
    for (said, wholes) in STEPS {
        if let Some((person, address)) = said {
            address_set(store, alloc, person, address)?;
        }
        sees(alloc, store, &policy, None, false)?;
        for ((_person, token), is_whole) in PERSONS.iter().zip(wholes) {
            sees(alloc, store, &policy, Some(*token), is_whole)?;
        }
    }
    Ok(())
}
