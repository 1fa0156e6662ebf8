//! Threads of lists that gather those of one subject, and of lists that do not.
use crate::views::{message, outline};
use archive_model::Key;
use archive_results::{MessageSummary, summary_of, thread_lines, tree_lines};
use mbox_core::cut;
use policy_core::Withdrawn;
use std::alloc::Global;
use std::test::Fail;
use thread_core::PlainThreader;

/// A message and a reply of its subject that names none.
const TWO: &[u8] = b"From anna@example.org Tue Mar  4 10:00:00 2003
From: Anna <anna@example.org>
Subject: Hello

One.

From bob@example.org Wed Mar 12 10:30:00 2003
Subject: Re: Hello

Two.

";

/// A message, and two of its subject that reply to one that never came.
const TO_MISSING: &[u8] = b"From a@b Tue Mar  4 10:00:00 2003
Subject: Hello

From a@b Tue Mar  4 10:00:01 2003
Subject: hello
In-Reply-To: <p@q>

From a@b Tue Mar  4 10:00:02 2003
Subject: HELLO
In-Reply-To: <p@q>

";

/// Three of one subject, of which the third replies to the first by its id.
const BY_ID: &[u8] = b"From a@b Tue Mar  4 10:00:00 2003
Subject: Minutes
Message-ID: <1@x>

From a@b Tue Mar 11 10:00:00 2003
Subject: minutes
Message-ID: <2@x>

From a@b Wed Mar 12 10:00:00 2003
Subject: Re: Minutes
References: <1@x>

";

fn headers(alloc: Global, mbox: &[u8]) -> Result<Vec<MessageSummary>, Fail> {
    let mut found = Vec::new(alloc);
    for item in cut(mbox)? {
        let message = message(alloc, &item, Withdrawn::No)?;
        found.push(summary_of(alloc, &message)?)?;
    }
    Ok(found)
}

fn tree(alloc: Global, mbox: &[u8], merge: bool) -> Result<Vec<u8>, Fail> {
    let rows = tree_lines(alloc, &PlainThreader, headers(alloc, mbox)?, merge)?;
    outline(alloc, &rows)
}

/// The thread of the last message.
fn last(alloc: Global, mbox: &[u8], merge: bool) -> Result<Vec<u8>, Fail> {
    let mut key = Key::read("");
    for item in cut(mbox)? {
        key = Some(Key::of(&item));
    }
    let key = key.ok_or("no message")?;
    match thread_lines(alloc, &PlainThreader, headers(alloc, mbox)?, merge, &key)? {
        Some(rows) => outline(alloc, &rows),
        None => Ok(b"none".to_vec(alloc)?),
    }
}

#[test]
fn threads_are_gathered_by_subject_where_the_list_says_so(rt: HostRuntime) -> Result<(), Fail> {
    let cases: [(&[u8], bool, &[u8], &[u8]); 6] = [
        (TWO, true, b"0Hello1Re: Hello", b"0Hello1Re: Hello"),
        (TWO, false, b"0Hello0Re: Hello", b"0Re: Hello"),
        (
            TO_MISSING,
            true,
            b"0-1Hello1hello1HELLO",
            b"0-1Hello1hello1HELLO",
        ),
        (
            TO_MISSING,
            false,
            b"0Hello0-1hello1HELLO",
            b"0-1hello1HELLO",
        ),
        (
            BY_ID,
            true,
            b"0-1Minutes2Re: Minutes1minutes",
            b"0-1Minutes2Re: Minutes1minutes",
        ),
        (
            BY_ID,
            false,
            b"0Minutes1Re: Minutes0minutes",
            b"0Minutes1Re: Minutes",
        ),
    ];
    for (number, (mbox, merge, all, one)) in cases.iter().enumerate() {
        assert!(rt;
            tree(rt.alloc(), mbox, *merge)?.as_slice() == *all,
            "case {number}"
        );
        assert!(rt;
            last(rt.alloc(), mbox, *merge)?.as_slice() == *one,
            "case {number}"
        );
    }
    Ok(())
}
