//! What known dates are, and that each call answers.
use civil_time::calendar::day_number;
use civil_time::clocks::seconds_of_day;
use civil_time::digits::{digit_pair, read_four, read_one_or_two, read_two};
use civil_time::names::{is_weekday_name, month_name, read_month, weekday_name};
use civil_time::{Day, Instant, Memory, Month};
use std::test::Fail;

static DAYS: [((i16, u8, u8), i32, u8); 7] = [
    ((1900, 1, 1), -25_567, 0),
    ((1912, 6, 23), -21_011, 6),
    ((1969, 12, 31), -1, 2),
    ((1970, 1, 1), 0, 3),
    ((2000, 2, 29), 11_016, 1),
    ((2003, 3, 4), 12_115, 1),
    ((9998, 12, 31), 2_932_531, 3),
];

#[test]
fn known_dates_have_their_number_and_weekday(rt: HostRuntime) -> Result<(), Fail> {
    for known in &DAYS {
        let ((year, month, day), _, _) = *known;
        let found = Day::of(year, month, day).ok_or("no day")?;
        assert_eq!(rt; (found.parts(), found.number(), found.weekday()), *known);
    }
    Ok(())
}

static NO_DAYS: [(i16, u8, u8); 8] = [
    (2003, 2, 29),
    (1900, 2, 29),
    (2003, 0, 1),
    (2003, 13, 1),
    (2003, 4, 31),
    (1899, 12, 31),
    (9999, 1, 1),
    (-2003, 3, 4),
];

#[test]
fn dates_that_no_calendar_has_are_refused(rt: HostRuntime) {
    for date in &NO_DAYS {
        let (year, month, day) = *date;
        assert_eq!(rt; Day::of(year, month, day), None, "{date:?}");
    }
}

#[test]
fn numbers_of_days_end_with_the_year_9999(rt: HostRuntime) {
    for (year, month, day, number) in [
        (9999u16, 12u8, 31u8, Some(2_932_896i32)),
        (10_000, 1, 1, None),
    ] {
        assert_eq!(rt; day_number(year, month, day), number);
    }
}

static TEXTS_OF_DAYS: [(&[u8], Option<i32>); 6] = [
    (b"2003-03-04", Some(12_115)),
    (b"2003-3-4", None),
    (b"2003-03-04 ", None),
    (b"2003/03/04", None),
    (b"+003-03-04", None),
    (b"", None),
];

#[test]
fn a_date_is_read_from_exactly_ten_bytes(rt: HostRuntime) {
    for (text, number) in &TEXTS_OF_DAYS {
        assert_eq!(rt; Day::read(text).map(|day| day.number()), *number);
    }
}

static INSTANTS: [(i64, i32, (i16, u8, u8), u32); 7] = [
    (-2_208_988_800, -25_567, (1900, 1, 1), 22_800),
    (-1, -1, (1969, 12, 31), 23_639),
    (0, 0, (1970, 1, 1), 23_640),
    (1_046_476_199, 12_111, (2003, 2, 28), 24_037),
    (1_046_476_200, 12_111, (2003, 2, 28), 24_037),
    (1_046_476_800, 12_112, (2003, 3, 1), 24_038),
    (253_370_764_799, 2_932_531, (9998, 12, 31), 119_987),
];

#[test]
fn an_instant_lies_in_its_day_and_its_month(rt: HostRuntime) -> Result<(), Fail> {
    for known in &INSTANTS {
        let instant = Instant::new(known.0).ok_or("no instant")?;
        let day = instant.day();
        let month = instant.month();
        assert_eq!(rt;
            (instant.seconds(), day.number(), day.parts(), month.index()),
            *known
        );
        assert!(rt; Month::of_day(day) == month);
    }
    Ok(())
}

#[test]
fn instants_lie_in_the_years_1900_to_9998(rt: HostRuntime) {
    for seconds in [-2_208_988_801i64, 253_370_764_800] {
        assert_eq!(rt; Instant::new(seconds), None);
    }
    assert!(rt; Instant::new(-2_208_988_800) < Instant::new(-1));
}

#[test]
fn the_refusal_for_memory_prints_its_cause(rt: HostRuntime) -> Result<(), Fail> {
    let text = format!(in rt.alloc(); "{}", Memory)?;
    assert_eq!(rt; text.as_str(), "out of memory");
    Ok(())
}

static TEXTS_OF_MONTHS: [(&[u8], Option<u32>); 9] = [
    (b"2003-03", Some(24_038)),
    (b"2003-13", None),
    (b"2003-00", None),
    (b"1899-12", None),
    (b"9999-01", None),
    (b"2003-3", None),
    (b"2003/03", None),
    (b"2003-03-04", None),
    (b"", None),
];

#[test]
fn a_month_is_read_from_exactly_seven_bytes(rt: HostRuntime) {
    for (text, index) in &TEXTS_OF_MONTHS {
        assert_eq!(rt; Month::read(text).map(|month| month.index()), *index);
    }
}

static WRITTEN: [(i64, &[u8; 10], &[u8; 5]); 6] = [
    (-2_208_988_800, b"1900-01-01", b"00:00"),
    (-1, b"1969-12-31", b"23:59"),
    (0, b"1970-01-01", b"00:00"),
    (951_868_799, b"2000-02-29", b"23:59"),
    (1_046_772_000, b"2003-03-04", b"10:00"),
    (253_370_764_799, b"9998-12-31", b"23:59"),
];

#[test]
fn what_is_written_of_an_instant_is_read_again(rt: HostRuntime) -> Result<(), Fail> {
    for (seconds, day, time) in &WRITTEN {
        let instant = Instant::new(*seconds).ok_or("no instant")?;
        let text = instant.text();
        assert_eq!(rt; instant.day().text(), **day);
        assert_eq!(rt;
            (&text[..10], text[10], &text[11..]),
            (&day[..], b' ', &time[..])
        );
        assert_eq!(rt;
            (&instant.month().text()[..], Day::read(*day)),
            (&day[..7], Some(instant.day()))
        );
        assert_eq!(rt; Month::read(&text[..7]), Some(instant.month()));
    }
    Ok(())
}

#[test]
fn names_that_are_written_are_read_again(rt: HostRuntime) {
    for month in 1u8..13 {
        assert_eq!(rt; read_month(&month_name(month)), Some(month));
    }
    for weekday in 0u8..7 {
        assert!(rt; is_weekday_name(&weekday_name(weekday)));
    }
    assert_eq!(rt;
        (read_month(b"Sept"), is_weekday_name(b"jan")),
        (None, false)
    );
}

#[test]
fn times_and_numbers_have_just_their_digits(rt: HostRuntime) {
    assert_eq!(rt;
        (seconds_of_day(23, 59, 60), seconds_of_day(24, 0, 0)),
        (Some(86_399), None)
    );
    assert_eq!(rt;
        (seconds_of_day(0, 60, 0), seconds_of_day(0, 0, 61)),
        (None, None)
    );
    assert_eq!(rt; (read_one_or_two(b"7"), read_two(b"7")), (Some(7), None));
    assert_eq!(rt;
        (read_two(b"07"), read_four(b"2003")),
        (Some(7), Some(2003))
    );
    assert_eq!(rt; digit_pair(7), *b"07");
}
