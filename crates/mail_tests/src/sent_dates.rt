//! Sent dates and zones of known texts.
use crate::long::repeated;
use civil_time::{Instant, zone};
use mail_core::sent;
use std::test::Fail;

// 2003-03-04 10:00:00
const ARRIVAL: i64 = 1_046_772_000;

static DATES: [(&[u8], i64); 19] = [
    (b"Tue, 4 Mar 49 10:00 EST", 2_498_482_800),
    (b"4 Mar 50 10:00:00 GMT", -625_759_200),
    (b"4 Mar 103 9:05 +0000 (CET)", 1_046_768_700),
    (b"31 Dec 2000 16:01:33 -0800", 978_307_293),
    (b"4 Mar 2003 10:00:60 +0199", 1_046_772_059),
    (b"5 Mar 2003 25:00 +0100", 1_046_822_400),
    (b"30 Feb 2003 12:00 +0000", ARRIVAL),
    (b"4 Mar 12003 12:00", ARRIVAL),
    (b"", ARRIVAL),
    (b"31 Dec 9998 23:00 -0200", ARRIVAL),
    (b"Tue , 4 Mar 2003 10:00:01 +0000", 1_046_772_001),
    (b"4Mar2003 10:00EST", 1_046_790_000),
    (b"4 MAR 2003 10:00:30 + 0100", 1_046_768_430),
    (b"28 Feb 2003 23:50:00 +0000", 1_046_476_200),
    (b"Mar 4 2003", ARRIVAL),
    (b"04 mar 1999 00:00 pdt", 920_530_800),
    (b"4 (a(b) Mar) Mar 2003 10:01 (\\) UT", 1_046_772_060),
    (b"1 Jan 9999 00:30 +0100", 253_370_763_000),
    (b"31 Dec 1899 23:00 -0200", -2_208_985_200),
];

#[test]
fn known_dates_have_their_instant(rt: HostRuntime) -> Result<(), Fail> {
    let arrival = Instant::new(ARRIVAL).ok_or("no instant")?;
    for (body, seconds) in &DATES {
        assert_eq!(rt; sent(body, arrival).seconds(), *seconds, "of {body:?}");
    }
    Ok(())
}

static ZONES: [(&[u8], Option<i32>); 19] = [
    (b"+0000", Some(0)),
    (b"-0330", Some(-12_600)),
    (b"+9959", Some(359_940)),
    (b"+0160", None),
    (b"0100", None),
    (b"+01000", None),
    (b"", None),
    (b"UT", Some(0)),
    (b"gmt", Some(0)),
    (b"EST", Some(-18_000)),
    (b"edt", Some(-14_400)),
    (b"CST", Some(-21_600)),
    (b"CDT", Some(-18_000)),
    (b"MST", Some(-25_200)),
    (b"MDT", Some(-21_600)),
    (b"PST", Some(-28_800)),
    (b"pDt", Some(-25_200)),
    (b"Z", Some(0)),
    (b"CET1", None),
];

#[test]
fn known_zones_have_their_offset(rt: HostRuntime) {
    for (text, offset) in &ZONES {
        assert_eq!(rt; zone(text), *offset, "of {text:?}");
    }
}

#[test]
fn a_date_among_a_million_parentheses(rt: HostRuntime) -> Result<(), Fail> {
    let arrival = Instant::new(ARRIVAL).ok_or("no instant")?;
    let mut text = repeated(rt.alloc(), b"(", 1_000_000)?;
    assert_eq!(rt; sent(&text, arrival), arrival);
    text.extend_from_slice(&repeated(rt.alloc(), b")", 1_000_000)?)?;
    text.extend_from_slice(b"4 Mar 2003 10:00:07 UT (")?;
    assert_eq!(rt; sent(&text, arrival).seconds(), ARRIVAL + 7);
    Ok(())
}
