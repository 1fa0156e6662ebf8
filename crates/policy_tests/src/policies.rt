//! What a policy says of a message, and why a text is no policy.
use civil_time::Day;
use policy_core::{Facts, Policy, PolicyFault, Standing, Verdict, Withdrawn, is_name};
use std::alloc::{AllocError, Global};
use std::process::Abort;

const EXAMPLE: &str = "
[[rule]]
name = \"withdrawn\"
effect = \"deny\"
standings = [\"public\"]
withdrawn = [\"author\", \"board\"]

[[rule]]
name = \"all\"
effect = \"allow\"
";

fn day(rt: &impl Abort, text: &str) -> Day {
    Day::read(text.as_bytes()).expect(rt, "a day")
}

/// The public asks on 2003-03-20 for a message of `soc` that arrived on 2003-03-04.
fn asked(rt: &impl Abort) -> Facts<'static> {
    Facts {
        list: "soc",
        standing: Standing::Public,
        day: day(rt, "2003-03-20"),
        arrival_day: day(rt, "2003-03-04"),
        withdrawn: Withdrawn::No,
        embargo_until: None,
        own: false,
    }
}

/// A policy of this text, which is one.
fn policy(rt: &impl Abort, alloc: Global, text: &str) -> Policy {
    Policy::read(alloc, text).ok().expect(rt, "a policy")
}

/// The refusal of this text, if it has one.
fn refusal(alloc: Global, text: &str) -> Option<PolicyFault> {
    Policy::read(alloc, text).err()
}

/// One rule with the name `a`, the effect `allow` and one line more.
fn with_line(alloc: Global, line: &str) -> Result<String, AllocError> {
    let mut text = String::from_str(alloc, "[[rule]]\nname = \"a\"\neffect = \"allow\"\n")?;
    text.push_str(line)?;
    Ok(text)
}

#[test]
fn names_begin_with_a_small_letter(rt: HostRuntime) {
    for (text, want) in [("soc-2003", true), ("2003-soc", false), ("Soc", false)] {
        assert!(rt; is_name(text) == want, "{text}");
    }
}

#[test]
fn an_empty_text_is_a_policy_that_denies_by_default(rt: HostRuntime) {
    for text in ["", "# nobody\n", "rule = []"] {
        let policy = policy(&rt, rt.alloc(), text);
        assert!(rt;
            policy.verdict(&asked(&rt)) == Verdict::Denied("default"),
            "{text}"
        );
    }
}

#[test]
fn the_open_policy_allows_by_its_one_rule(rt: HostRuntime) {
    for withdrawn in [Withdrawn::No, Withdrawn::Board] {
        let facts = Facts {
            withdrawn,
            ..asked(&rt)
        };
        assert!(rt; Policy::open().verdict(&facts) == Verdict::Allowed("open"));
    }
}

#[test]
fn texts_that_are_refused_for_what_is_outside_of_the_rules(rt: HostRuntime) {
    for (text, want) in [
        ("a =", PolicyFault::NotToml),
        ("[[rule]", PolicyFault::NotToml),
        ("rule = 9223372036854775808", PolicyFault::NotToml),
        ("rule = []\nrule = []", PolicyFault::NotToml),
        ("rules = 1", PolicyFault::UnknownKey(0)),
        ("rules = 1\nrule = 3", PolicyFault::UnknownKey(0)),
        ("rule = 3", PolicyFault::WrongType(0)),
        ("[rule]\nname = \"a\"", PolicyFault::WrongType(0)),
        ("rule = [{}, 1]", PolicyFault::WrongType(0)),
    ] {
        assert!(rt; refusal(rt.alloc(), text) == Some(want), "{text}");
    }
}

#[test]
fn rules_that_are_refused_for_their_names_and_effects(rt: HostRuntime) {
    for (text, want) in [
        ("[[rule]]", PolicyFault::BadValue(1)),
        ("[[rule]]\nname = \"a\"", PolicyFault::BadValue(1)),
        ("[[rule]]\neffect = \"allow\"", PolicyFault::BadValue(1)),
        (
            "[[rule]]\nname = \"a\"\neffect = \"maybe\"",
            PolicyFault::BadValue(1),
        ),
        (
            "[[rule]]\nname = \"a\"\neffect = true",
            PolicyFault::WrongType(1),
        ),
        ("[[rule]]\nname = 1", PolicyFault::WrongType(1)),
        ("[[rule]]\nname = \"A\"", PolicyFault::BadName(1)),
        ("[[rule]]\nname = \"\"", PolicyFault::BadName(1)),
        ("[[rule]]\nname = \"1a\"", PolicyFault::BadName(1)),
        ("[[rule]]\nname = \"a_b\"", PolicyFault::BadName(1)),
        (
            "[[rule]]\nname = \"a23456789012345678901234567890123456789-1\"",
            PolicyFault::BadName(1),
        ),
        (
            "[[rule]]\nname = \"default\"\neffect = \"deny\"",
            PolicyFault::DuplicateName(1),
        ),
        (
            "[[rule]]\nname = \"a\"\neffect = \"deny\"\n[[rule]]\nname = \"a\"\neffect = \"allow\"",
            PolicyFault::DuplicateName(2),
        ),
        (
            "[[rule]]\nname = \"A\"\ncolour = 1",
            PolicyFault::UnknownKey(1),
        ),
    ] {
        assert!(rt; refusal(rt.alloc(), text) == Some(want), "{text}");
    }
}

#[test]
fn lines_of_a_rule_that_are_refused(rt: HostRuntime) -> Result<(), AllocError> {
    for (line, want) in [
        ("lists = \"soc\"", PolicyFault::WrongType(1)),
        ("lists = [1]", PolicyFault::WrongType(1)),
        ("lists = [\"Soc\", 1]", PolicyFault::WrongType(1)),
        ("standings = \"public\"", PolicyFault::WrongType(1)),
        ("standings = [\"nobody\", true]", PolicyFault::WrongType(1)),
        ("withdrawn = \"no\"", PolicyFault::WrongType(1)),
        ("withdrawn = [[]]", PolicyFault::WrongType(1)),
        ("embargo = \"true\"", PolicyFault::WrongType(1)),
        ("age_min = 1.0", PolicyFault::WrongType(1)),
        ("age_min = \"1\"", PolicyFault::WrongType(1)),
        ("from = 2003-03-04", PolicyFault::WrongType(1)),
        ("until = 20030304", PolicyFault::WrongType(1)),
        ("own = 1", PolicyFault::WrongType(1)),
        ("own = \"true\"", PolicyFault::WrongType(1)),
        ("lists = [\"Soc\"]", PolicyFault::BadValue(1)),
        ("lists = []", PolicyFault::BadValue(1)),
        ("standings = [\"nobody\"]", PolicyFault::BadValue(1)),
        ("standings = []", PolicyFault::BadValue(1)),
        ("withdrawn = [\"yes\"]", PolicyFault::BadValue(1)),
        ("withdrawn = []", PolicyFault::BadValue(1)),
        ("age_min = 36501", PolicyFault::BadValue(1)),
        ("age_min = -1", PolicyFault::BadValue(1)),
        ("from = \"2003-02-30\"", PolicyFault::BadValue(1)),
        ("from = \"1899-12-31\"", PolicyFault::BadValue(1)),
        ("until = \"9999-01-01\"", PolicyFault::BadValue(1)),
        ("until = \"2003-3-4\"", PolicyFault::BadValue(1)),
        (
            "from = \"2003-03-05\"\nuntil = \"2003-03-04\"",
            PolicyFault::BadValue(1),
        ),
        (
            "from = \"2003-03-05\"\nuntil = \"2003-03-04\"\nown = 1",
            PolicyFault::WrongType(1),
        ),
    ] {
        let text = with_line(rt.alloc(), line)?;
        assert!(rt; refusal(rt.alloc(), text.as_str()) == Some(want), "{line}");
    }
    Ok(())
}

#[test]
fn values_at_their_bounds_are_taken(rt: HostRuntime) -> Result<(), AllocError> {
    let longest_name =
        "[[rule]]\nname = \"a23456789012345678901234567890123456789-\"\neffect = \"deny\"";
    assert!(rt; refusal(rt.alloc(), longest_name).is_none());
    for line in [
        "lists = [\"soc\", \"soc\"]",
        "age_min = 0",
        "age_min = 36500",
        "from = \"1900-01-01\"",
        "until = \"9998-12-31\"",
        "from = \"2003-03-04\"\nuntil = \"2003-03-04\"",
        "own = true",
        "own = false",
    ] {
        let text = with_line(rt.alloc(), line)?;
        assert!(rt; refusal(rt.alloc(), text.as_str()).is_none(), "{line}");
    }
    Ok(())
}

fn digit(number: u32) -> char {
    char::from(b'0' + (number % 10) as u8)
}

/// So many rules with the names a000, a001 and so on, of which the last allows and the others deny another list.
fn many(alloc: Global, count: u32) -> Result<String, AllocError> {
    let mut text = String::new(alloc);
    for n in 0..count {
        text.push_str("[[rule]]\nname = \"a")?;
        for number in [n / 100, n / 10, n] {
            text.push(digit(number))?;
        }
        text.push_str(if n + 1 == count {
            "\"\neffect = \"allow\"\n"
        } else {
            "\"\neffect = \"deny\"\nlists = [\"dev\"]\n"
        })?;
    }
    Ok(text)
}

#[test]
fn two_hundred_rules_are_taken_and_one_more_is_not(rt: HostRuntime) -> Result<(), AllocError> {
    let policy = policy(&rt, rt.alloc(), many(rt.alloc(), 200)?.as_str());
    assert!(rt; policy.verdict(&asked(&rt)) == Verdict::Allowed("a199"));
    let mut empty = String::new(rt.alloc());
    for _ in 0..201 {
        empty.push_str("[[rule]]\n")?;
    }
    for text in [many(rt.alloc(), 201)?, empty] {
        assert!(rt; refusal(rt.alloc(), text.as_str()) == Some(PolicyFault::TooManyRules));
    }
    Ok(())
}

#[test]
fn a_withdrawn_message_is_denied_to_the_public_alone(rt: HostRuntime) {
    let policy = policy(&rt, rt.alloc(), EXAMPLE);
    for (standing, withdrawn, want) in [
        (Standing::Public, Withdrawn::No, Verdict::Allowed("all")),
        (
            Standing::Public,
            Withdrawn::Author,
            Verdict::Denied("withdrawn"),
        ),
        (
            Standing::Public,
            Withdrawn::Board,
            Verdict::Denied("withdrawn"),
        ),
        (Standing::Member, Withdrawn::Author, Verdict::Allowed("all")),
        (
            Standing::Moderator,
            Withdrawn::Author,
            Verdict::Allowed("all"),
        ),
    ] {
        let facts = Facts {
            standing,
            withdrawn,
            ..asked(&rt)
        };
        assert!(rt; policy.verdict(&facts) == want);
    }
}

#[test]
fn an_embargo_is_on_before_its_until_day(rt: HostRuntime) {
    let policy = policy(
        &rt,
        rt.alloc(),
        "[[rule]]\nname = \"embargo\"\neffect = \"deny\"\nembargo = true\n[[rule]]\nname = \"all\"\neffect = \"allow\"",
    );
    for (reading, want) in [
        ("2003-03-31", Verdict::Denied("embargo")),
        ("2003-04-01", Verdict::Allowed("all")),
    ] {
        let facts = Facts {
            day: day(&rt, reading),
            embargo_until: Some(day(&rt, "2003-04-01")),
            ..asked(&rt)
        };
        assert!(rt; policy.verdict(&facts) == want, "{reading}");
    }
    assert!(rt; policy.verdict(&asked(&rt)) == Verdict::Allowed("all"));
}

#[test]
fn an_age_counts_from_the_arrival_day(rt: HostRuntime) {
    for (least, reading, want) in [
        ("age_min = 0", "2003-03-03", Verdict::Denied("default")),
        ("age_min = 0", "2003-03-04", Verdict::Allowed("a")),
        ("age_min = 16", "2003-03-20", Verdict::Allowed("a")),
        ("age_min = 17", "2003-03-20", Verdict::Denied("default")),
    ] {
        let facts = Facts {
            day: day(&rt, reading),
            ..asked(&rt)
        };
        let text = with_line(rt.alloc(), least).ok().expect(&rt, "a text");
        let policy = policy(&rt, rt.alloc(), text.as_str());
        assert!(rt; policy.verdict(&facts) == want, "{reading}");
    }
}

#[test]
fn a_rule_is_on_from_its_first_to_its_last_day(rt: HostRuntime) {
    let policy = policy(
        &rt,
        rt.alloc(),
        "[[rule]]\nname = \"march\"\neffect = \"allow\"\nlists = [\"dev\", \"soc\"]\nfrom = \"2003-03-01\"\nuntil = \"2003-03-31\"",
    );
    for (reading, want) in [
        ("2003-02-28", Verdict::Denied("default")),
        ("2003-03-01", Verdict::Allowed("march")),
        ("2003-03-31", Verdict::Allowed("march")),
        ("2003-04-01", Verdict::Denied("default")),
    ] {
        let facts = Facts {
            day: day(&rt, reading),
            ..asked(&rt)
        };
        assert!(rt; policy.verdict(&facts) == want, "{reading}");
    }
    let elsewhere = Facts {
        list: "so",
        ..asked(&rt)
    };
    assert!(rt; policy.verdict(&elsewhere) == Verdict::Denied("default"));
}

#[test]
fn a_withdrawn_message_is_allowed_to_its_author(rt: HostRuntime) {
    let mut text = String::from_str(
        rt.alloc(),
        "[[rule]]\nname = \"mine\"\neffect = \"allow\"\nown = true\n",
    )
    .ok()
    .expect(&rt, "a text");
    text.push_str(EXAMPLE).ok().expect(&rt, "a text");
    let policy = policy(&rt, rt.alloc(), text.as_str());
    for (own, want) in [
        (true, Verdict::Allowed("mine")),
        (false, Verdict::Denied("withdrawn")),
    ] {
        let facts = Facts {
            withdrawn: Withdrawn::Board,
            own,
            ..asked(&rt)
        };
        assert!(rt; policy.verdict(&facts) == want, "{own}");
    }
}

#[test]
fn a_rule_for_what_is_not_own_does_not_fit_what_is(rt: HostRuntime) -> Result<(), AllocError> {
    let text = with_line(rt.alloc(), "own = false")?;
    let policy = policy(&rt, rt.alloc(), text.as_str());
    for (own, want) in [
        (false, Verdict::Allowed("a")),
        (true, Verdict::Denied("default")),
    ] {
        let facts = Facts { own, ..asked(&rt) };
        assert!(rt; policy.verdict(&facts) == want, "{own}");
    }
    Ok(())
}

#[test]
fn a_refusal_prints_its_number_its_name_and_its_rule(rt: HostRuntime) -> Result<(), AllocError> {
    for (fault, want) in [
        (PolicyFault::NotToml, "P1 NotToml"),
        (PolicyFault::UnknownKey(0), "P2 UnknownKey in rule 0"),
        (PolicyFault::WrongType(1), "P3 WrongType in rule 1"),
        (PolicyFault::BadName(2), "P4 BadName in rule 2"),
        (PolicyFault::DuplicateName(3), "P5 DuplicateName in rule 3"),
        (PolicyFault::BadValue(200), "P6 BadValue in rule 200"),
        (PolicyFault::TooManyRules, "P7 TooManyRules"),
        (PolicyFault::Memory, "P8 Memory"),
    ] {
        let text = format!(in rt.alloc(); "{fault}")?;
        assert!(rt; text.as_str() == want, "{want}");
    }
    Ok(())
}

static STANDINGS: [(&str, Option<Standing>, u8); 6] = [
    ("public", Some(Standing::Public), 0),
    ("member", Some(Standing::Member), 1),
    ("subscriber", Some(Standing::Subscriber), 2),
    ("moderator", Some(Standing::Moderator), 3),
    ("Member", None, 0),
    ("", None, 0),
];

#[test]
fn standings_have_words_and_ranks(rt: HostRuntime) {
    for (word, wanted, rank) in &STANDINGS {
        let standing = Standing::read(word);
        assert!(rt; standing == *wanted, "{word}");
        if let Some(standing) = standing {
            assert_eq!(rt; standing.rank(), *rank);
            assert_eq!(rt; standing >= Standing::Subscriber, *rank >= 2);
        }
    }
}
