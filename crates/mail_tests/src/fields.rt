//! Header fields of known texts.
use crate::long::repeated;
use mail_core::lines::{line_content, line_end};
use mail_core::{author_key, fields, first, unfold};
use std::process::Abort;
use std::test::Fail;

static TEXTS: [(&[u8], usize); 5] = [
    (b"a: b\r\nc\n", 6),
    (b"a\n\n", 2),
    (b"\n", 1),
    (b"a\r", 2),
    (b"a\r\r\n", 4),
];

#[test]
fn a_line_ends_behind_its_lf(rt: HostRuntime) {
    for (text, end) in &TEXTS {
        assert!(rt; !text.is_empty());
        assert_eq!(rt; line_end(text), *end);
    }
}

static LINES: [(&[u8], &[u8]); 6] = [
    (b"a: b\r\n", b"a: b"),
    (b"a\n", b"a"),
    (b"\n", b""),
    (b"a\r", b"a"),
    (b"a\r\r\n", b"a\r"),
    (b"", b""),
];

#[test]
fn a_line_has_no_end_in_its_content(rt: HostRuntime) {
    for (line, content) in &LINES {
        assert_eq!(rt; line_content(line), *content);
    }
}

const SAMPLE: &[u8] = b"A : x\nbad line\n more\nB:y\r\n z\n\nC:q";

fn assert_fields(rt: &impl Abort, text: &[u8], wanted: &[(&[u8], &[u8])]) {
    let mut found = fields(text);
    for (name, body) in wanted {
        match found.next() {
            Some(field) => assert_eq!(rt; (field.name, field.body), (*name, *body)),
            None => assert!(rt; false, "no field {name:?}"),
        }
    }
    assert!(rt; found.next().is_none());
}

#[test]
fn a_block_that_is_no_field_is_passed_over(rt: HostRuntime) {
    assert_fields(&rt, SAMPLE, &[(b"A", b" x"), (b"B", b"y\r\n z")]);
    assert_fields(&rt, b"", &[]);
}

static FIRSTS: [(&[u8], &[u8], Option<&[u8]>); 3] = [
    (SAMPLE, b"b", Some(b"y\r\n z")),
    (SAMPLE, b"C", None),
    (b"To: a\nTO: b\n", b"tO", Some(b" a")),
];

#[test]
fn the_first_field_of_a_name_counts(rt: HostRuntime) {
    for (text, name, body) in &FIRSTS {
        assert_eq!(rt; first(text, name), *body, "{name:?}");
    }
}

static FOLDED: [(&[u8], &[u8]); 3] = [
    (b"y\r\n z", b"y z"),
    (b"a\n\tb\r\r\n c\r\n", b"a\tb\r c\r\n"),
    (b"", b""),
];

#[test]
fn a_folded_body_is_unfolded(rt: HostRuntime) -> Result<(), Fail> {
    for (body, text) in &FOLDED {
        assert_eq!(rt; unfold(rt.alloc(), body)?.as_slice(), *text);
    }
    Ok(())
}

static AUTHORS: [(&[u8], &[u8]); 5] = [
    (b"From: \"X\" <A@B>\n", b"a@b"),
    (b"From:  Anna \n", b"anna"),
    (b"Subject: x\n\nFrom: a\n", b""),
    (b"from: <a> B\n <C@d> e>\nFrom: x\n", b"c@d"),
    (b"From: \t<a> B <C \t", b"<a> b <c"),
];

#[test]
fn the_author_is_the_address_in_lower_case(rt: HostRuntime) -> Result<(), Fail> {
    for (text, author) in &AUTHORS {
        assert_eq!(rt; author_key(rt.alloc(), text)?.as_slice(), *author);
    }
    Ok(())
}

#[test]
fn many_short_fields_are_counted(rt: HostRuntime) -> Result<(), Fail> {
    let text = repeated(rt.alloc(), b"a:\n", 200_000)?;
    let mut count = 0u32;
    for _ in fields(&text) {
        count = count.saturating_add(1);
    }
    assert_eq!(rt; count, 200_000);
    assert!(rt; first(&text, b"b").is_none());
    Ok(())
}

#[test]
fn a_field_of_many_folds_is_read(rt: HostRuntime) -> Result<(), Fail> {
    let mut text = repeated(rt.alloc(), b"From:", 1)?;
    let folds = repeated(rt.alloc(), b"\n <<", 200_000)?;
    text.extend_from_slice(&folds)?;
    let body = first(&text, b"from").unwrap_or(b"");
    assert_eq!(rt; body.len(), 800_000);
    assert_eq!(rt; unfold(rt.alloc(), body)?.len(), 600_000);
    assert_eq!(rt; author_key(rt.alloc(), &text)?.len(), 599_999);
    Ok(())
}
