//! Message identifiers of known texts.
use crate::long::repeated;
use mail_core::{MsgId, Octets, References, first_id, ids, unfold};
use std::alloc::{AllocError, Global};
use std::hash::{DefaultHasher, Hash, Hasher};
use std::process::Abort;
use std::test::Fail;

fn id(alloc: Global, left: &[u8], right: &[u8]) -> Result<MsgId, AllocError> {
    let left = Vec::from_slice(alloc, left)?;
    let right = Vec::from_slice(alloc, right)?;
    Ok(MsgId::new(left, right))
}

/// Asserts that these are the ids with these left and right sides, in their order.
pub fn assert_ids(rt: &impl Abort, found: &References, wanted: &[(&[u8], &[u8])]) {
    assert_eq!(rt; found.len(), wanted.len());
    assert_eq!(rt; found.is_empty(), wanted.is_empty());
    for (at, (left, right)) in wanted.iter().enumerate() {
        if at < found.len() {
            let id = found.get(at);
            assert_eq!(rt; (id.left(), id.right()), (*left, *right));
        }
    }
}

/// Whether an id has these sides, or is missing as they are.
pub fn is_id(found: &Option<MsgId>, wanted: Option<(&[u8], &[u8])>) -> bool {
    match (found, wanted) {
        (Some(id), Some((left, right))) => id.left() == left && id.right() == right,
        (None, None) => true,
        _ => false,
    }
}

static TEXTS: [(&[u8], &[(&[u8], &[u8])]); 12] = [
    // what stands in comments and quoted strings is passed over
    (
        b" (see <x@y>) <\"a\"@b>\n <c@d>",
        &[(b"a", b"b"), (b"c", b"d")],
    ),
    (
        b"\"<x@y>\" \"(\" <c@d> ((<x@y>) \\) <x@y>) <e@f>",
        &[(b"c", b"d"), (b"e", b"f")],
    ),
    // the last at sign divides
    (b"<a@b@c>", &[(b"a@b", b"c")]),
    // a quoted left side loses what quotes it
    (
        b"<\"a\\\"\\\\ b\"@c> <\"\"@b> <a(b@c)d>",
        &[(b"a\"\\ b", b"c"), (b"", b"b"), (b"a(b", b"c)d")],
    ),
    // an open comment is a byte
    (b"(<a@b>", &[(b"a", b"b")]),
    // no ids
    (b"<\"a\"b@c>", &[]),
    (b"<a b@c>", &[]),
    (b"<@b>", &[]),
    (b"<a@>", &[]),
    (b"a@b", &[]),
    (b"<a@b", &[]),
    (b"", &[]),
];

#[test]
fn known_texts_have_their_ids(rt: HostRuntime) -> Result<(), Fail> {
    for (text, wanted) in &TEXTS {
        let text = unfold(rt.alloc(), text)?;
        assert_ids(&rt, &ids(rt.alloc(), &text)?, wanted);
    }
    Ok(())
}

#[test]
fn the_first_id_of_a_text_is_found_alone(rt: HostRuntime) -> Result<(), Fail> {
    for (text, wanted) in &TEXTS {
        let text = unfold(rt.alloc(), text)?;
        let found = first_id(rt.alloc(), &text)?;
        assert!(rt; is_id(&found, wanted.first().copied()), "of {text:?}");
    }
    Ok(())
}

const ONE_ID: &[(&[u8], &[u8])] = &[(b"a", b"b")];

// parts, each with how often it stands, and the ids of the whole
static LONG_TEXTS: [(&[(&[u8], usize)], &[(&[u8], &[u8])]); 6] = [
    // open comments
    (&[(b"(", 10_000), (b"<a@b>", 1)], ONE_ID),
    // nested ones
    (&[(b"(", 10_000), (b")", 10_000), (b"<a@b>", 1)], ONE_ID),
    // closed ones in open ones
    (&[(b"((\\)x)", 60_000), (b"<a@b>", 1)], ONE_ID),
    // open comments and an open quote
    (
        &[
            (b"(", 200_000),
            (b"\"", 1),
            (b"\\\"", 200_000),
            (b"<a@b>", 1),
        ],
        ONE_ID,
    ),
    (&[(b"<", 200_000)], &[]),
    (&[(b"<", 1), (b"@", 199_999)], &[]),
];

#[test]
fn ids_of_long_texts_take_linear_time(rt: HostRuntime) -> Result<(), Fail> {
    for (parts, wanted) in &LONG_TEXTS {
        let mut text = Vec::new(rt.alloc());
        for (piece, times) in *parts {
            text.extend_from_slice(&repeated(rt.alloc(), piece, *times)?)?;
        }
        assert_ids(&rt, &ids(rt.alloc(), &text)?, wanted);
    }
    Ok(())
}

fn hash_of<T: Hash>(id: &T) -> u64 {
    let mut hasher = DefaultHasher::new();
    id.hash(&mut hasher);
    hasher.finish()
}

// left and right sides, and whether the id is that of the sides `a` and `b`
static SIDES: [(&[u8], &[u8], bool); 3] = [
    (b"a", b"b", true),
    (b"A", b"b", false),
    (b"ab", b"", false),
];

fn assert_equal(rt: &impl Abort, first: &MsgId, second: &MsgId, is_equal: bool) {
    assert_eq!(rt; *first == *second, is_equal);
    assert!(rt; !is_equal || hash_of(first) == hash_of(second));
    let (first, second) = (first.borrowed(), second.borrowed());
    assert_eq!(rt; first == second, is_equal);
    assert!(rt; !is_equal || hash_of(&first) == hash_of(&second));
}

fn assert_sides(
    rt: &impl Abort,
    alloc: Global,
    first: &MsgId,
    row: &(&[u8], &[u8], bool),
) -> Result<(), AllocError> {
    let (left, right, is_equal) = *row;
    let second = id(alloc, left, right)?;
    assert_equal(rt, first, &second, is_equal);
    Ok(())
}

#[test]
fn ids_are_equal_and_hash_alike_where_both_sides_are_the_same(rt: HostRuntime) -> Result<(), Fail> {
    let first = id(rt.alloc(), b"a", b"b")?;
    for row in &SIDES {
        assert_sides(&rt, rt.alloc(), &first, row)?;
    }
    Ok(())
}

#[test]
fn a_copy_of_an_id_is_equal_to_it(rt: HostRuntime) -> Result<(), Fail> {
    let copy = id(rt.alloc(), b"A", b"b")?.try_clone(rt.alloc())?;
    assert_eq!(rt;
        (copy.left(), copy.right()),
        (b"A".as_slice(), b"b".as_slice())
    );
    Ok(())
}

#[test]
fn octets_give_their_bytes_back(rt: HostRuntime) -> Result<(), Fail> {
    let octets = Octets::new(Vec::from_slice(rt.alloc(), b"xyz")?);
    let copy = octets.try_clone(rt.alloc())?;
    assert!(rt; octets == copy);
    assert_eq!(rt; copy.as_slice(), b"xyz".as_slice());
    Ok(())
}
