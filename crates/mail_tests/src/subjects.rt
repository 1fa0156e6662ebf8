//! Worked subjects, and long ones: a way through them that is not linear would not end in time.
use crate::long::repeated;
use subject_core::{Memory, base};

static SUBJECTS: [(&[u8], &[u8], bool); 28] = [
    // replies lose their marks
    (b"Re: [soc] Hello (fwd)", b"hello", true),
    (b"Re:", b"", true),
    (b"Re [2]: a  b", b"a b", true),
    (b"Re: Re: [a] [b] x", b"x", true),
    (b"FWD[x] : Hi", b"hi", true),
    (b"fw:fW :x", b"x", true),
    (b"Re[x]y: z", b"re[x]y: z", false),
    (b"Regarding: fw", b"regarding: fw", false),
    // a last blob stays
    (b"[soc]", b"[soc]", false),
    (b"[a] re: [b]", b"[b]", true),
    (b"[a] (fwd)", b"[a]", true),
    (b"[a][b] [c]", b"[c]", false),
    (b"[] fw: x", b"x", true),
    (b"[]", b"[]", false),
    (b"[a[b] x", b"[a[b] x", false),
    (b"Re [2: x", b"re [2: x", false),
    // pairs and trailers mark a reply
    (b"(fwd)", b"", true),
    (b"[Fwd: [fwd: x]]", b"x", true),
    (b"[fwd: x] y", b"y", false),
    (b"[fwd: x (fwd)]", b"x", true),
    (b"[fwd: x] (FWD)", b"x", true),
    (b"[fwd:]", b"", true),
    (b"[fwd:x", b"[fwd:x", false),
    // white space is single spaces
    (b"", b"", false),
    (b" \t ", b"", false),
    (b"Re:\tx \ty\t(Fwd)\t", b"x y", true),
    (b"re\t \t[2]\t:x", b"x", true),
    (b"Caf\xC3\x89\r\n", b"caf\xC3\x89\r\n", false),
];

#[test]
fn known_subjects_have_their_base(rt: HostRuntime) -> Result<(), Memory> {
    for (subject, text, reply) in &SUBJECTS {
        let found = base(rt.alloc(), subject)?;
        assert_eq!(rt;
            (found.text.as_slice(), found.reply),
            (*text, *reply),
            "{subject:?}"
        );
    }
    Ok(())
}

// a piece, how often it stands, what follows once, a piece that follows as often; the base, `None` for the subject itself; a reply
static LONG_SUBJECTS: [(&[u8], usize, &[u8], &[u8], Option<&[u8]>, bool); 5] = [
    (b"[a]", 100_000, b"x", b"", Some(b"x"), false),
    (b"re:", 100_000, b"", b"", Some(b""), true),
    (b"(fwd)", 100_000, b"", b"", Some(b""), true),
    (b"[fwd:", 100_000, b"", b"", None, false),
    (b"[fwd:[a]re:", 20_000, b"x", b"] (fwd)", Some(b"x"), true),
];

#[test]
fn long_subjects_take_linear_time(rt: HostRuntime) -> Result<(), Memory> {
    for (before, count, middle, behind, text, reply) in &LONG_SUBJECTS {
        let mut subject = repeated(rt.alloc(), before, *count)?;
        subject.extend_from_slice(middle)?;
        subject.extend_from_slice(&repeated(rt.alloc(), behind, *count)?)?;
        let found = base(rt.alloc(), &subject)?;
        assert!(rt; found.text.as_slice() == text.unwrap_or(&subject));
        assert_eq!(rt; found.reply, *reply);
    }
    Ok(())
}
