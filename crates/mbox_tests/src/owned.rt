//! Messages that own their bytes.
use civil_time::Instant;
use mbox_core::{Item, OwnedItem, Sender, cut, written_sender};
use std::alloc::Global;
use std::test::Fail;

/// Whether two messages are the same.
fn is_same(a: &Item, b: &Item) -> bool {
    a.text == b.text
        && a.complete == b.complete
        && a.envelope.sender == b.envelope.sender
        && a.envelope.arrival == b.envelope.arrival
}

/// Whether a copy of the one message of an mbox is this message, and so complete.
fn is_copied(alloc: Global, bytes: &[u8], complete: bool) -> Result<bool, Fail> {
    let item = cut(bytes)?.next().ok_or("no message")?;
    let owned = OwnedItem::of(alloc, &item)?;
    let copy = owned.as_item();
    Ok(copy.complete == complete && is_same(&copy, &item))
}

/// Whether a copy of the one message of an mbox gives its text and its arrival.
fn gives_its_parts(alloc: Global, bytes: &[u8]) -> Result<bool, Fail> {
    let item = cut(bytes)?.next().ok_or("no message")?;
    let owned = OwnedItem::of(alloc, &item)?;
    Ok(owned.text() == item.text && owned.arrival() == item.envelope.arrival)
}

#[test]
fn a_copy_is_the_message(rt: HostRuntime) -> Result<(), Fail> {
    let mboxes: [(&[u8], bool); 3] = [
        (b"From a@b Tue Mar  4 10:00:00 2003\nhello", false),
        (b"From a@b Tue Mar  4 10:00:00 2003\nhello\n", true),
        (
            b"From a  at b Tue Mar  4 10:00:00 +0100 2003\nhello\n",
            true,
        ),
    ];
    for (number, (bytes, complete)) in mboxes.iter().enumerate() {
        assert!(rt; is_copied(rt.alloc(), bytes, *complete)?, "mbox {number}");
        assert!(rt; gives_its_parts(rt.alloc(), bytes)?, "mbox {number}");
    }
    Ok(())
}

/// Whether these parts make a message.
fn is_taken(alloc: Global, sender: &[u8], text: &[u8]) -> Result<bool, Fail> {
    let arrival = Instant::new(0).ok_or("an instant")?;
    let sender = sender.to_vec(alloc)?;
    Ok(OwnedItem::new(sender, arrival, text.to_vec(alloc)?).is_some())
}

#[test]
fn what_is_no_message_is_not_taken(rt: HostRuntime) -> Result<(), Fail> {
    let parts: [(&[u8], &[u8], bool); 6] = [
        (b"a@b", b"hello\n", true),
        (b"", b"hello\n", false),
        (b"a b", b"hello\n", false),
        (b"a at b", b"hello\n", true),
        (b"a  at b", b"hello\n", false),
        (
            b"a@b",
            b"hello\n\nFrom a@b Tue Mar  4 10:00:00 2003\n",
            false,
        ),
    ];
    for (number, (sender, text, taken)) in parts.iter().enumerate() {
        assert!(rt;
            is_taken(rt.alloc(), sender, text)? == *taken,
            "parts {number}"
        );
    }
    Ok(())
}

#[test]
fn a_sender_has_a_written_form(rt: HostRuntime) -> Result<(), Fail> {
    let senders: [(Sender<'_>, &[u8]); 2] = [
        (Sender::One(b"a@b"), b"a@b"),
        (Sender::At(b"a", b"b"), b"a at b"),
    ];
    for (sender, text) in senders {
        let written = written_sender(rt.alloc(), sender)?;
        assert!(rt; written.as_slice() == text);
    }
    Ok(())
}
