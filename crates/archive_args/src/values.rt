//! Reading the values of words.
ghost use Rattle.std.specs.Prelude.{◌≡◌, ◌≤◌, Some, None, IfSome, MatchResult, option_map, codes};
ghost use Rattle.clap.specs.Words.{found_of, rows_of, first_of};
ghost use Rattle.civil_time.specs.Calendar.{day_of_text};
ghost use Rattle.archive_args.specs.Orders.{is_decimal, number_up_to, age_of_text, port_of_text, count_of_text, grant_kind_named};
ghost use Rattle.archive_args.specs.Orders.{withdrawn_by_named, yes_or_no, read_optional, list_or_inbox, standing_or_public, read_required};

use crate::stops::BadValue;
use civil_time::Day;
use clap::ArgMatches;
use policy_core::{GrantKind, MOST_DAYS, Standing, WithdrawnBy};

/// The greatest number of connections that can be asked for.
const MOST_CONNECTIONS: u32 = 1_000_000;

pub(crate) const DEFAULT_LIST: &str = "inbox";

/// The text of an argument.
pub(crate) fn text_of<'a>(inner: &ArgMatches<'a>, name: &str) -> Option<&'a str>
    ensures { option_map (λ t. t.now) result ≡ first_of name.now (rows_of (found_of inner.now)) }
{
    inner.get_str(name)
}

/// The text of an argument that has to be given.
pub(crate) fn needed<'a>(inner: &ArgMatches<'a>, name: &'a str) -> Result<&'a str, BadValue<'a>>
    ensures { MatchResult result
        (λ text. first_of name.entry.now (rows_of (found_of inner.now)) ≡ Some text.now)
        (λ _. first_of name.entry.now (rows_of (found_of inner.now)) ≡ None) }
{
    text_of(inner, name).ok_or(BadValue {
        option: name,
        text: "",
        wanted: "a value is required",
    })
}

/// A number in decimal digits, 0 to the greatest.
fn read_number(text: &str, greatest: u32) -> Option<u32>
    ensures value { result ≡ number_up_to greatest text.now }
    ensures range { IfSome result (λ number. number ≤ greatest) }
{
    if !is_decimal(text.as_bytes()) {
        return None;
    }
    match text.parse::<u32>() {
        Ok(number) => {
            if number <= greatest {
                Some(number)
            } else {
                None
            }
        }
        Err(_) => None,
    }
}

/// Whether a text is one decimal digit or more, and nothing else.
fn is_decimal(text: &[u8]) -> bool
    ensures { result ≡ is_decimal text.now }
{
    if text.is_empty() {
        return false;
    }
    text.iter().all(|b| b.is_ascii_digit())
}

/// The day that a text writes; the option is named where it writes none.
fn read_day<'a>(text: &'a str, option: &'a str) -> Result<Day, BadValue<'a>>
    ensures { MatchResult result
        (λ day. day_of_text text.entry.now ≡ Some day)
        (λ _. day_of_text text.entry.now ≡ None) }
{
    Day::read(text.as_bytes()).ok_or(BadValue {
        option,
        text,
        wanted: "expected a date yyyy-mm-dd from 1900-01-01 to 9998-12-31",
    })
}

/// The day of an option, where it is given.
pub(crate) fn given_day<'a>(text: Option<&'a str>) -> Result<Option<Day>, BadValue<'a>>
    ensures { MatchResult result
        (λ day. read_optional day_of_text (option_map (λ t. t.now) text.entry) ≡ Some day)
        (λ _. read_optional day_of_text (option_map (λ t. t.now) text.entry) ≡ None) }
{
    let Some(text) = text else {
        return Ok(None);
    };
    let day = read_day(text, "--day <DAY>")?;
    Ok(Some(day))
}

/// The age of an option, where it is given.
pub(crate) fn given_age<'a>(text: Option<&'a str>) -> Result<Option<u32>, BadValue<'a>>
    ensures { MatchResult result
        (λ age. read_optional age_of_text (option_map (λ t. t.now) text.entry) ≡ Some age)
        (λ _. read_optional age_of_text (option_map (λ t. t.now) text.entry) ≡ None) }
{
    let Some(text) = text else {
        return Ok(None);
    };
    let age = read_number(text, MOST_DAYS as u32).ok_or(BadValue {
        option: "--min-age <DAYS>",
        text,
        wanted: "expected a number of days from 0 to 36500",
    })?;
    Ok(Some(age))
}

pub(crate) fn given_standing<'a>(word: Option<&'a str>) -> Result<Standing, BadValue<'a>>
    ensures { MatchResult result
        (λ standing. standing_or_public (option_map (λ t. t.now) word.entry) ≡ Some standing)
        (λ _. standing_or_public (option_map (λ t. t.now) word.entry) ≡ None) }
{
    let Some(text) = word else {
        return Ok(Standing::Public);
    };
    Standing::read(text).ok_or(BadValue {
        option: "--standing <STANDING>",
        text,
        wanted: "expected public, member, subscriber or moderator",
    })
}

/// The list that the messages are taken to be of. Any text is the name of one.
pub(crate) fn given_list<'a>(name: Option<&'a str>) -> &'a str
    ensures { result.now ≡ list_or_inbox (option_map (λ t. t.now) name.entry) }
{
    name.unwrap_or(DEFAULT_LIST)
}

/// The day of an argument.
pub(crate) fn day_of<'a>(
    inner: &ArgMatches<'a>,
    name: &'a str,
    option: &'a str,
) -> Result<Day, BadValue<'a>>
    ensures { MatchResult result
        (λ day. read_required day_of_text name.entry.now (rows_of (found_of inner.now)) ≡ Some day)
        (λ _. read_required day_of_text name.entry.now (rows_of (found_of inner.now)) ≡ None) }
{
    let text = needed(inner, name)?;
    read_day(text, option)
}

/// What the word of a kind means.
fn read_kind(word: &str) -> Option<GrantKind>
    ensures { result ≡ grant_kind_named word.now }
{
    match word {
        "member" => Some(GrantKind::Member),
        "subscriber" => Some(GrantKind::Subscriber),
        "moderator" => Some(GrantKind::Moderator),
        _ => None,
    }
}

/// The argument KIND.
pub(crate) fn kind_of_grant<'a>(inner: &ArgMatches<'a>) -> Result<GrantKind, BadValue<'a>>
    ensures { MatchResult result
        (λ kind. read_required grant_kind_named (codes "kind") (rows_of (found_of inner.now)) ≡ Some kind)
        (λ _. read_required grant_kind_named (codes "kind") (rows_of (found_of inner.now)) ≡ None) }
{
    let text = needed(inner, "kind")?;
    read_kind(text).ok_or(BadValue {
        option: "<KIND>",
        text,
        wanted: "expected member, subscriber or moderator",
    })
}

/// What the word of a party means.
fn read_party(word: &str) -> Option<WithdrawnBy>
    ensures { result ≡ withdrawn_by_named word.now }
{
    match word {
        "author" => Some(WithdrawnBy::Author),
        "board" => Some(WithdrawnBy::Board),
        _ => None,
    }
}

/// The argument BY.
pub(crate) fn party_of_withdrawal<'a>(inner: &ArgMatches<'a>) -> Result<WithdrawnBy, BadValue<'a>>
    ensures { MatchResult result
        (λ by. read_required withdrawn_by_named (codes "by") (rows_of (found_of inner.now)) ≡ Some by)
        (λ _. read_required withdrawn_by_named (codes "by") (rows_of (found_of inner.now)) ≡ None) }
{
    let text = needed(inner, "by")?;
    read_party(text).ok_or(BadValue {
        option: "<BY>",
        text,
        wanted: "expected author or board",
    })
}

/// What `yes` and `no` mean.
fn read_yes_or_no(word: &str) -> Option<bool>
    ensures { result ≡ yes_or_no word.now }
{
    match word {
        "yes" => Some(true),
        "no" => Some(false),
        _ => None,
    }
}

/// The argument MERGE.
pub(crate) fn is_merged<'a>(inner: &ArgMatches<'a>) -> Result<bool, BadValue<'a>>
    ensures { MatchResult result
        (λ merged. read_required yes_or_no (codes "merge") (rows_of (found_of inner.now)) ≡ Some merged)
        (λ _. read_required yes_or_no (codes "merge") (rows_of (found_of inner.now)) ≡ None) }
{
    let text = needed(inner, "merge")?;
    read_yes_or_no(text).ok_or(BadValue {
        option: "<MERGE>",
        text,
        wanted: "expected yes or no",
    })
}

/// The argument PORT.
pub(crate) fn port_of<'a>(inner: &ArgMatches<'a>) -> Result<u16, BadValue<'a>>
    ensures { MatchResult result
        (λ port. read_required port_of_text (codes "port") (rows_of (found_of inner.now)) ≡ Some port)
        (λ _. read_required port_of_text (codes "port") (rows_of (found_of inner.now)) ≡ None) }
{
    let text = needed(inner, "port")?;
    match read_number(text, 65_535) {
        Some(port) => Ok(port as u16),
        None => Err(BadValue {
            option: "--port <PORT>",
            text,
            wanted: "expected a port number from 0 to 65535",
        }),
    }
}

/// The argument COUNT.
pub(crate) fn count_of<'a>(inner: &ArgMatches<'a>) -> Result<u32, BadValue<'a>>
    ensures { MatchResult result
        (λ count. read_required count_of_text (codes "count") (rows_of (found_of inner.now)) ≡ Some count)
        (λ _. read_required count_of_text (codes "count") (rows_of (found_of inner.now)) ≡ None) }
{
    let text = needed(inner, "count")?;
    read_number(text, MOST_CONNECTIONS).ok_or(BadValue {
        option: "--count <COUNT>",
        text,
        wanted: "expected a number from 0 to 1000000",
    })
}
