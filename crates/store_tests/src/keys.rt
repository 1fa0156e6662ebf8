//! The keys of messages, and tokens.
use archive_model::{Key, is_token};
use civil_time::Instant;
use mbox_core::{Envelope, Item, Sender};
use std::process::Abort;

/// A message with this text.
fn item<'a>(rt: &impl Abort, text: &'a [u8]) -> Item<'a> {
    let sender = Sender::read(b"a@b").expect(rt, "a sender");
    let arrival = Instant::new(1_046_772_000).expect(rt, "an instant");
    Item::new(Envelope { sender, arrival }, text).expect(rt, "a message")
}

const OF_NOTHING: &str = "e3b0c44298fc1c149afbf4c8996fb92427ae41e4649b934ca495991b7852b855";

const OF_HELLO: &str = "5891b5b522d5df086d0ff0b110fbd9d21bb4fc7163af34d08286a2e846f6be03";

#[test]
fn keys_of_messages(rt: HostRuntime) {
    for (text, key) in [
        (b"".as_slice(), OF_NOTHING),
        (b"hello".as_slice(), OF_HELLO),
        (b"hello\n".as_slice(), OF_HELLO),
    ] {
        assert_eq!(&rt; Key::of(&item(&rt, text)).as_str(), key);
    }
}

#[test]
fn keys_are_read_in_lower_case(rt: HostRuntime) {
    assert!(&rt; Key::read(OF_HELLO) == Some(Key::of(&item(&rt, b"hello"))));
    for text in [
        "",
        &OF_HELLO[1..],
        "5891B5b522d5df086d0ff0b110fbd9d21bb4fc7163af34d08286a2e846f6be03",
        "g891b5b522d5df086d0ff0b110fbd9d21bb4fc7163af34d08286a2e846f6be03",
    ] {
        assert!(&rt; Key::read(text).is_none(), "{text}");
    }
}

#[test]
fn tokens(rt: HostRuntime) {
    let long = "0123456789abcdef0123456789abcdef0123456789abcdef0123456789abcdef0";
    for (text, is) in [
        ("0123456789abcdef", true),
        ("-._~+/0123456789", true),
        ("0123456789ABCDE=", true),
        ("", false),
        ("0123456789abcde", false),
        ("================", false),
        ("0123456789=abcdef", false),
        ("0123456789 abcdef", false),
        (long, false),
        (&long[1..], true),
    ] {
        assert_eq!(&rt; is_token(text.as_bytes()), is, "{text}");
    }
}
