//! What the headers of known messages say.
use crate::msg_ids::{assert_ids, is_id};
use civil_time::Instant;
use mail_core::{Header, trimmed};
use std::test::Fail;

static OWN_IDS: [(&[u8], Option<(&[u8], &[u8])>); 6] = [
    // the first id of the first field
    (
        b"To: x\nmessage-ID: (of <x@y>)\n <a@b> <c@d>\nMessage-ID: <e@f>\n\nx",
        Some((b"a", b"b")),
    ),
    (b"Message-ID:\nMessage-ID: <e@f>\n", None),
    (b"Message-ID: a@b\r\n\r\nMessage-ID: <e@f>\r\n", None),
    (b"In-Reply-To: <a@b>\nReferences: <c@d>\n", None),
    (b"\nMessage-ID: <e@f>\n", None),
    (b"", None),
];

#[test]
fn the_own_id_is_the_first_of_its_field(rt: HostRuntime) -> Result<(), Fail> {
    for (text, wanted) in &OWN_IDS {
        let found = Header::of(text).own_id(rt.alloc())?;
        assert!(rt; is_id(&found, *wanted), "of {text:?}");
    }
    Ok(())
}

static REFERENCES: [(&[u8], &[(&[u8], &[u8])]); 7] = [
    // of two fields the first, and not In-Reply-To
    (
        b"In-Reply-To: <v@w>\nReferences: <a@b>\n\t<c@d>\nReferences: <e@f>\n",
        &[(b"a", b"b"), (b"c", b"d")],
    ),
    (b"References: <a@b>\nIn-Reply-To: <v@w>\n", &[(b"a", b"b")]),
    // the first of In-Reply-To where References has none
    (
        b"References: x\nIn-Reply-To: Anna's <v@w> and <x@y>\n",
        &[(b"v", b"w")],
    ),
    (b"In-Reply-To: <v@w>\nIn-Reply-To: <x@y>\n", &[(b"v", b"w")]),
    (b"References:\nReferences: <a@b>\n", &[]),
    (b"To: x\n\nReferences: <a@b>\n", &[]),
    (b"", &[]),
];

#[test]
fn references_are_those_of_the_first_field_or_one_id_of_in_reply_to(
    rt: HostRuntime,
) -> Result<(), Fail> {
    for (text, wanted) in &REFERENCES {
        assert_ids(&rt, &Header::of(text).references(rt.alloc())?, wanted);
    }
    Ok(())
}

// a message, and the seconds since 1970 at which it was sent, where it arrives in second 7
static DATES: [(&[u8], i64); 5] = [
    (b"DATE : 2 Jan 1970\n 00:00:05 +0000\nDate: x\n\n", 86_405),
    // the first field counts, though it is no date
    (b"Date: soon\nDate: 2 Jan 1970 00:00:05 +0000\n", 7),
    (b"Date:\n", 7),
    // a line of the body is no field
    (b"To: x\n\nDate: 2 Jan 1970 00:00:05 +0000\n", 7),
    (b"", 7),
];

#[test]
fn the_sent_date_is_that_of_the_first_date_field(rt: HostRuntime) -> Result<(), Fail> {
    let arrival = Instant::new(7).ok_or("no instant")?;
    for (text, seconds) in &DATES {
        assert_eq!(rt;
            Header::of(text).sent(arrival).seconds(),
            *seconds,
            "of {text:?}"
        );
    }
    Ok(())
}

// a message, its subject unfolded, and the same without the spaces around it
static SUBJECTS: [(&[u8], &[u8], &[u8]); 4] = [
    (
        b"Subject:  Re:\r\n\t Hello \t\r\nSubject: x\r\n",
        b"  Re:\t Hello \t",
        b"Re:\t Hello",
    ),
    (b"subject: \n \t\n\nx", b"  \t", b""),
    (b"To: x\n\nSubject: x", b"", b""),
    (b"", b"", b""),
];

#[test]
fn the_subject_is_unfolded_and_trimmed(rt: HostRuntime) -> Result<(), Fail> {
    for (text, unfolded, line) in &SUBJECTS {
        let header = Header::of(text);
        let subject = header.unfolded_subject(rt.alloc())?;
        assert_eq!(rt; subject.as_slice(), *unfolded);
        assert_eq!(rt; trimmed(&subject), *line);
    }
    Ok(())
}

static AUTHORS: [(&[u8], &[u8]); 3] = [
    (b"from: Anna\n <A@B>\nFrom: x\n", b"a@b"),
    (b"From: \nFrom: x\n", b""),
    (b"Subject: x\n\nFrom: a\n", b""),
];

#[test]
fn the_author_is_that_of_the_first_from_field(rt: HostRuntime) -> Result<(), Fail> {
    for (text, author) in &AUTHORS {
        assert_eq!(rt;
            Header::of(text).author_key(rt.alloc())?.as_slice(),
            *author
        );
    }
    Ok(())
}

static TRIMMED: [(&[u8], &[u8]); 4] = [
    (b" \ta b\t ", b"a b"),
    (b"\na\r\n", b"\na\r\n"),
    (b" \t", b""),
    (b"", b""),
];

#[test]
fn a_text_loses_the_spaces_and_tabs_at_its_ends(rt: HostRuntime) {
    for (text, wanted) in &TRIMMED {
        assert_eq!(rt; trimmed(text), *wanted);
    }
}
