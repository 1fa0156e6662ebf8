//! Names of months and of weekdays (RFC 5322 section 3.3).
ghost use Rattle.std.specs.Prelude.{◌≡◌, ◌+◌, ◌*◌, ◌-◌, ◌<◌, ◌≤◌, length};
ghost use Rattle.civil_time.specs.Names.{equals_ignoring_case, month_of_name, is_day_name, name_at, weekday_names, month_names};

/// Whether a text is a name, but for ASCII case.
pub fn matches_ignoring_case(text: &[u8], name: &[u8]) -> bool
    ensures { result ≡ equals_ignoring_case text.now name.now }
{
    text.eq_ignore_ascii_case(name)
}

/// The month, from 1, of its name of three letters.
#[tactic(auto, unfolding(crate::specs::Names::month_of_name))]
pub fn read_month(name: &[u8]) -> Option<u8>
    ensures { result ≡ month_of_name name.now }
{
    if matches_ignoring_case(name, b"jan") {
        return Some(1);
    }
    if matches_ignoring_case(name, b"feb") {
        return Some(2);
    }
    if matches_ignoring_case(name, b"mar") {
        return Some(3);
    }
    if matches_ignoring_case(name, b"apr") {
        return Some(4);
    }
    if matches_ignoring_case(name, b"may") {
        return Some(5);
    }
    if matches_ignoring_case(name, b"jun") {
        return Some(6);
    }
    if matches_ignoring_case(name, b"jul") {
        return Some(7);
    }
    if matches_ignoring_case(name, b"aug") {
        return Some(8);
    }
    if matches_ignoring_case(name, b"sep") {
        return Some(9);
    }
    if matches_ignoring_case(name, b"oct") {
        return Some(10);
    }
    if matches_ignoring_case(name, b"nov") {
        return Some(11);
    }
    if matches_ignoring_case(name, b"dec") {
        return Some(12);
    }
    None
}

/// Whether this is a weekday's name of three letters.
#[tactic(auto, unfolding(crate::specs::Names::is_day_name))]
pub fn is_weekday_name(name: &[u8]) -> bool
    ensures { result ≡ is_day_name name.now }
{
    matches_ignoring_case(name, b"mon")
        || matches_ignoring_case(name, b"tue")
        || matches_ignoring_case(name, b"wed")
        || matches_ignoring_case(name, b"thu")
        || matches_ignoring_case(name, b"fri")
        || matches_ignoring_case(name, b"sat")
        || matches_ignoring_case(name, b"sun")
}

const WEEKDAYS: &[u8] = b"MonTueWedThuFriSatSun";

const MONTHS: &[u8] = b"JanFebMarAprMayJunJulAugSepOctNovDec";

/// The n-th of some names of three letters.
fn nth_name(n: u8, names: &[u8]) -> [u8; 3]
    requires { 3 * n + 2 < length names.now }
    ensures { result ≡ name_at n names.now }
{
    let at = 3 * n as usize;
    [names[at], names[at + 1], names[at + 2]]
}

/// The name of a weekday, Monday 0 to Sunday 6.
pub fn weekday_name(weekday: u8) -> [u8; 3]
    requires { weekday < 7 }
    ensures { result ≡ name_at weekday weekday_names }
{
    nth_name(weekday, WEEKDAYS)
}

/// The name of a month, January 1 to December 12.
pub fn month_name(month: u8) -> [u8; 3]
    requires { (1 ≤ month) × (month ≤ 12) }
    ensures { result ≡ name_at (month - 1) month_names }
{
    nth_name(month - 1, MONTHS)
}
