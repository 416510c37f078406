//! Times: elements from outside, and what is rejected.

use crate::simple_types::made::is_hashed;
use asn1_core::{ParseErrorKind, ParseResult};
use asn1_values::values::{DateTime, GeneralizedTime, UtcTime, X509GeneralizedTime};
use std::alloc::Global;
use std::test::Fail;
use testing::{are_equal_or_not, are_invalid, is_shown, kind_of, refused, same, same_at};

const INVALID: Option<ParseErrorKind> = Some(ParseErrorKind::InvalidValue);

/// Year, month, day, hour, minute and second.
type Numbers = (u16, u8, u8, u8, u8, u8);

fn date_of(numbers: Numbers) -> ParseResult<DateTime> {
    let (year, month, day, hour, minute, second) = numbers;
    DateTime::new(year, month, day, hour, minute, second)
}

#[test]
fn other_numbers_are_no_dates() -> Result<(), Fail> {
    const ROWS: &[(Numbers, Option<ParseErrorKind>)] = &[
        ((2038, 13, 1, 12, 0, 0), INVALID),
        ((2000, 1, 1, 12, 60, 0), INVALID),
        ((2000, 1, 1, 12, 0, 60), INVALID),
        ((2000, 1, 1, 24, 0, 0), INVALID),
        ((2023, 2, 29, 0, 0, 0), INVALID),
        ((2024, 4, 31, 0, 0, 0), INVALID),
        ((2024, 2, 29, 0, 0, 0), None),
    ];
    for (numbers, kind) in ROWS {
        same_at(*numbers, kind_of(date_of(*numbers)), *kind)?;
    }
    Ok(())
}

/// Years, whether each is a leap year, and whether a `UTCTime` has it.
const YEARS: &[(u16, bool, bool)] = &[
    (1900, false, false),
    (1999, false, true),
    (2000, true, true),
    (2004, true, true),
    (2100, false, false),
    (2400, true, false),
];

/// Each month, its last day and the day after that in a common year, and the same in a leap year.
const MONTHS: &[(u8, (u8, u8), (u8, u8))] = &[
    (1, (31, 32), (31, 32)),
    (2, (28, 29), (29, 30)),
    (3, (31, 32), (31, 32)),
    (4, (30, 31), (30, 31)),
    (5, (31, 32), (31, 32)),
    (6, (30, 31), (30, 31)),
    (7, (31, 32), (31, 32)),
    (8, (31, 32), (31, 32)),
    (9, (30, 31), (30, 31)),
    (10, (31, 32), (31, 32)),
    (11, (30, 31), (30, 31)),
    (12, (31, 32), (31, 32)),
];

/// The element of a time with a year of four digits, at midnight.
fn general_text(alloc: Global, year: u16, month: u8, day: u8) -> Result<Vec<u8>, Fail> {
    let content = format!(in alloc; "{year:04}{month:02}{day:02}000000Z")?;
    let mut text = Vec::from_slice(alloc, &[0x18, 0x0f])?;
    text.extend_from_slice(content.as_bytes())?;
    Ok(text)
}

/// The same with a year of two digits.
fn utc_text(alloc: Global, year: u16, month: u8, day: u8) -> Result<Vec<u8>, Fail> {
    let digits = year % 100;
    let content = format!(in alloc; "{digits:02}{month:02}{day:02}000000Z")?;
    let mut text = Vec::from_slice(alloc, &[0x17, 0x0d])?;
    text.extend_from_slice(content.as_bytes())?;
    Ok(text)
}

/// Why there is no such date, and why no type of times reads it.
fn kinds(
    alloc: Global,
    year: u16,
    month: u8,
    day: u8,
) -> Result<[Option<ParseErrorKind>; 3], Fail> {
    let text = general_text(alloc, year, month, day)?;
    Ok([
        kind_of(DateTime::new(year, month, day, 0, 0, 0)),
        refused::<X509GeneralizedTime>(alloc, text.as_slice()),
        refused::<GeneralizedTime>(alloc, text.as_slice()),
    ])
}

/// The last day of a month is one, and the day after it isn't.
fn compare_month(alloc: Global, year: u16, month: u8, days: (u8, u8)) -> Result<(), Fail> {
    let found = (
        kinds(alloc, year, month, days.0)?,
        kinds(alloc, year, month, days.1)?,
    );
    same_at((year, month), found, ([None; 3], [INVALID; 3]))
}

/// The same of a `UTCTime`.
fn compare_utc_month(alloc: Global, year: u16, month: u8, days: (u8, u8)) -> Result<(), Fail> {
    let last = utc_text(alloc, year, month, days.0)?;
    let found = refused::<UtcTime>(alloc, last.as_slice());
    same_at((year, month), found, None)?;
    let behind = utc_text(alloc, year, month, days.1)?;
    let found = refused::<UtcTime>(alloc, behind.as_slice());
    same_at((year, month), found, INVALID)
}

#[test]
fn times_at_the_end_of_a_month(rt: HostRuntime) -> Result<(), Fail> {
    for (year, is_leap, is_utc) in YEARS {
        for (month, common, leap) in MONTHS {
            let days = if *is_leap { *leap } else { *common };
            compare_month(rt.alloc(), *year, *month, days)?;
            if *is_utc {
                compare_utc_month(rt.alloc(), *year, *month, days)?;
            }
        }
    }
    Ok(())
}

#[test]
fn dates() -> Result<(), Fail> {
    let date = DateTime::new(2009, 11, 15, 22, 56, 16)?;
    let day = (date.year(), date.month(), date.day());
    let time = (date.hour(), date.minute(), date.second());
    same((day, time), ((2009, 11, 15), (22, 56, 16)))?;
    same(&date.clone()?, &date)
}

/// Dates that differ from 2023-06-15 14:26:05 in one number, and whether they come after it.
const OTHERS: &[(Numbers, bool)] = &[
    ((2023, 6, 15, 14, 26, 6), true),
    ((2023, 6, 15, 14, 27, 5), true),
    ((2023, 6, 15, 15, 26, 5), true),
    ((2023, 6, 16, 14, 26, 5), true),
    ((2023, 7, 15, 14, 26, 5), true),
    ((2024, 6, 15, 14, 26, 5), true),
    ((2023, 6, 15, 14, 26, 4), false),
    ((2023, 6, 15, 14, 25, 5), false),
    ((2023, 6, 15, 13, 26, 5), false),
    ((2023, 6, 14, 14, 26, 5), false),
    ((2023, 5, 15, 14, 26, 5), false),
    ((2022, 6, 15, 14, 26, 5), false),
];

#[test]
fn dates_in_order() -> Result<(), Fail> {
    let point = DateTime::new(2023, 6, 15, 14, 26, 5)?;
    for (numbers, is_later) in OTHERS {
        let other = date_of(*numbers)?;
        let found = (point < other, point > other, point == other);
        same_at(*numbers, found, (*is_later, !*is_later, false))?;
    }
    Ok(())
}

#[test]
fn utc_times(rt: HostRuntime) -> Result<(), Fail> {
    const ROWS: &[(&[u8], Numbers)] = &[
        (b"\x17\x0d910506234540Z", (1991, 5, 6, 23, 45, 40)),
        (b"\x17\x0d700101000000Z", (1970, 1, 1, 0, 0, 0)),
        (b"\x17\x0d091115225616Z", (2009, 11, 15, 22, 56, 16)),
        (b"\x17\x0d500101000000Z", (1950, 1, 1, 0, 0, 0)),
        (b"\x17\x0d500101120000Z", (1950, 1, 1, 12, 0, 0)),
        (b"\x17\x0d491231235959Z", (2049, 12, 31, 23, 59, 59)),
        // The examples of X.690 11.8.3.
        (b"\x17\x0d920521000000Z", (1992, 5, 21, 0, 0, 0)),
        (b"\x17\x0d920622123421Z", (1992, 6, 22, 12, 34, 21)),
        (b"\x17\x0d920722132100Z", (1992, 7, 22, 13, 21, 0)),
    ];
    for (octets, numbers) in ROWS {
        let date = date_of(*numbers)?;
        let time = UtcTime::new(date.clone()?)?;
        same(time.as_datetime(), &date)?;
        is_hashed(rt.alloc(), time, octets)?;
    }
    Ok(())
}

#[test]
fn other_years_have_no_utc_time() -> Result<(), Fail> {
    const YEARS: &[u16] = &[1949, 2050, 2100];
    for year in YEARS {
        let date = DateTime::new(*year, 1, 1, 12, 0, 0)?;
        same_at(*year, kind_of(UtcTime::new(date)), INVALID)?;
    }
    Ok(())
}

#[test]
fn other_forms_are_no_utc_times(rt: HostRuntime) -> Result<(), Fail> {
    are_invalid::<UtcTime>(
        rt.alloc(),
        &[
            b"\x17\x11910506164540-0700",
            b"\x17\x11910506164540+0730",
            b"\x17\x0f5105062345+0000",
            b"\x17\x0b9105062345Z",
            b"\x17\x0b5105062345Z",
            b"\x17\x0e910506334400Za",
            b"\x17\x0e-100102030410Z",
            b"\x17\x0e10-0102030410Z",
            b"\x17\x0e10-0002030410Z",
            b"\x17\x0e1001-02030410Z",
            b"\x17\x0e100102-030410Z",
            b"\x17\x0e10010203-0410Z",
            b"\x17\x0e1001020304-10Z",
            b"\x17\x0c18102813516Z",
            b"\x17\x1018102813516+0730",
            b"\x17\x0f4912311047-2026",
        ],
    )
}

#[test]
fn other_numbers_are_no_utc_times(rt: HostRuntime) -> Result<(), Fail> {
    are_invalid::<UtcTime>(
        rt.alloc(),
        &[
            b"\x17\x0da10506234540Z",
            b"\x17\x0d91a506234540Z",
            b"\x17\x0d9105a6234540Z",
            b"\x17\x0d910506a34540Z",
            b"\x17\x0d910506334a40Z",
            b"\x17\x0d91050633444aZ",
            b"\x17\x0d910506334461Z",
            b"\x17\x0d000100000000Z",
            b"\x17\x0d101302030405Z",
            b"\x17\x0d100002030405Z",
            b"\x17\x0d100100030405Z",
            b"\x17\x0d100132030405Z",
            b"\x17\x0d100231030405Z",
            b"\x17\x0d100102240405Z",
            b"\x17\x0d100102036005Z",
            b"\x17\x0d100102030460Z",
            b"\x17\x0d230229000000Z",
            // The examples of X.690 11.8.3 that aren't DER: midnight as 24, and no seconds.
            b"\x17\x0d920520240000Z",
            b"\x17\x0b9207221321Z",
        ],
    )
}

#[test]
fn times_without_a_fraction(rt: HostRuntime) -> Result<(), Fail> {
    const ROWS: &[(&[u8], Numbers)] = &[
        (b"\x18\x0f19910506234540Z", (1991, 5, 6, 23, 45, 40)),
        (b"\x18\x0f19700101000000Z", (1970, 1, 1, 0, 0, 0)),
        (b"\x18\x0f20091115225616Z", (2009, 11, 15, 22, 56, 16)),
        (b"\x18\x0f20100102030405Z", (2010, 1, 2, 3, 4, 5)),
        (b"\x18\x0f20000229030405Z", (2000, 2, 29, 3, 4, 5)),
        (b"\x18\x0f20000229000000Z", (2000, 2, 29, 0, 0, 0)),
        (b"\x18\x0f00000101000000Z", (0, 1, 1, 0, 0, 0)),
    ];
    for (octets, numbers) in ROWS {
        let date = date_of(*numbers)?;
        let time = X509GeneralizedTime::new(date.clone()?)?;
        same(time.as_datetime(), &date)?;
        is_hashed(rt.alloc(), time, octets)?;
    }
    Ok(())
}

#[test]
fn the_last_year_of_a_time() -> Result<(), Fail> {
    let last = DateTime::new(2015, 6, 30, 23, 59, 59)?;
    let late = DateTime::new(10000, 1, 1, 0, 0, 0)?;
    let kinds = [
        kind_of(X509GeneralizedTime::new(last)),
        kind_of(X509GeneralizedTime::new(late)),
    ];
    same(kinds, [None, INVALID])
}

#[test]
fn other_forms_have_a_fraction_or_no_z(rt: HostRuntime) -> Result<(), Fail> {
    are_invalid::<X509GeneralizedTime>(
        rt.alloc(),
        &[
            b"\x18\x1320100102030405+0607",
            b"\x18\x1320100102030405-0607",
            b"\x18\x1320100602030405-0607",
            b"\x18\x0e20100102030405",
            b"\x18\x0f-20100102030410Z",
            b"\x18\x0f2010-0102030410Z",
            b"\x18\x0f2010-0002030410Z",
            b"\x18\x0f201001-02030410Z",
            b"\x18\x0f20100102-030410Z",
            b"\x18\x0f2010010203-0410Z",
            b"\x18\x0f201001020304-10Z",
            b"\x18\x1320100631030405-0607",
            b"\x18\x1320000230030405-0607",
            b"\x18\x1319000229030405-0607",
            b"\x18\x1319000228030405-3007",
            b"\x18\x1319000228030405-2367",
            b"\x18\x1019000228030405Z ",
            b"\x18\x1620100102030405.123456Z",
            b"\x18\x1520100102030405.123456",
            b"\x18\x1020100102030405.Z",
            b"\x18\x0f20100102030405.",
            b"\x18\x1120090101000000.5Z",
            b"\x18\x11-1\n110723459+1002",
            b"\x18\x0d0 1204000060Z",
        ],
    )
}

#[test]
fn other_numbers_are_no_times(rt: HostRuntime) -> Result<(), Fail> {
    are_invalid::<X509GeneralizedTime>(
        rt.alloc(),
        &[
            b"\x18\x0e00000100000000Z",
            b"\x18\x0e20101302030405Z",
            b"\x18\x0e20100002030405Z",
            b"\x18\x0e20100100030405Z",
            b"\x18\x0e20100132030405Z",
            b"\x18\x0e20100231030405Z",
            b"\x18\x0e20100102240405Z",
            b"\x18\x0e20100102036005Z",
            b"\x18\x0e20100102030460Z",
            b"\x18\x0f00000100000000Z",
            b"\x18\x0f20101302030405Z",
            b"\x18\x0f20100002030405Z",
            b"\x18\x0f20100100030405Z",
            b"\x18\x0f20100132030405Z",
            b"\x18\x0f20100231030405Z",
            b"\x18\x0f20100102240405Z",
            b"\x18\x0f20100102036005Z",
            b"\x18\x0f20100102030460Z",
            b"\x18\x0f19000229000000Z",
        ],
    )
}

#[test]
fn times_with_a_fraction(rt: HostRuntime) -> Result<(), Fail> {
    const ROWS: &[(&[u8], Numbers, Option<u32>)] = &[
        (
            b"\x18\x1919910506234540.000001234Z",
            (1991, 5, 6, 23, 45, 40),
            Some(1234),
        ),
        (
            b"\x18\x1919910506234540.000000001Z",
            (1991, 5, 6, 23, 45, 40),
            Some(1),
        ),
        (b"\x18\x0f19700101000000Z", (1970, 1, 1, 0, 0, 0), None),
        (
            b"\x18\x1120091115225616.1Z",
            (2009, 11, 15, 22, 56, 16),
            Some(100_000_000),
        ),
        (
            b"\x18\x1920091115225616.999999999Z",
            (2009, 11, 15, 22, 56, 16),
            Some(999_999_999),
        ),
        (
            b"\x18\x1620100102030405.123456Z",
            (2010, 1, 2, 3, 4, 5),
            Some(123_456_000),
        ),
        (
            b"\x18\x1120090101000000.5Z",
            (2009, 1, 1, 0, 0, 0),
            Some(500_000_000),
        ),
        (
            b"\x18\x1920090101000000.000000001Z",
            (2009, 1, 1, 0, 0, 0),
            Some(1),
        ),
        // The examples of X.690 11.7.5.
        (b"\x18\x0f19920521000000Z", (1992, 5, 21, 0, 0, 0), None),
        (b"\x18\x0f19920622123421Z", (1992, 6, 22, 12, 34, 21), None),
        (
            b"\x18\x1119920722132100.3Z",
            (1992, 7, 22, 13, 21, 0),
            Some(300_000_000),
        ),
    ];
    for (octets, numbers, nanoseconds) in ROWS {
        let date = date_of(*numbers)?;
        let time = GeneralizedTime::new(date.clone()?, *nanoseconds)?;
        same(
            (time.as_datetime(), time.nanoseconds()),
            (&date, *nanoseconds),
        )?;
        is_hashed(rt.alloc(), time, octets)?;
    }
    Ok(())
}

#[test]
fn other_fractions_are_refused(rt: HostRuntime) -> Result<(), Fail> {
    are_invalid::<GeneralizedTime>(
        rt.alloc(),
        &[
            b"\x18\x1419910506234540.1230Z",
            b"\x18\x1019910506234540.Z",
            b"\x18\x1a19910506234540.1234567891Z",
            b"\x18\x1120090101000000.0Z",
            b"\x18\x0f20090101240000Z",
            // The examples of X.690 11.7.5 that aren't DER: midnight as 24, and zeros at the end of a fraction.
            b"\x18\x0f19920520240000Z",
            b"\x18\x1119920622123421.0Z",
            b"\x18\x1219920722132100.30Z",
        ],
    )
}

#[test]
fn nanoseconds_of_a_second() -> Result<(), Fail> {
    const ROWS: &[(Option<u32>, Option<ParseErrorKind>)] = &[
        (None, None),
        (Some(1234), None),
        (Some(999_999_999), None),
        (Some(0), INVALID),
        (Some(1_000_000_000), INVALID),
        (Some(1_000_000_001), INVALID),
    ];
    for (nanoseconds, kind) in ROWS {
        let date = DateTime::new(2015, 6, 30, 23, 59, 59)?;
        let found = kind_of(GeneralizedTime::new(date, *nanoseconds));
        same_at(*nanoseconds, found, *kind)?;
    }
    let late = DateTime::new(10000, 1, 1, 0, 0, 0)?;
    same(kind_of(GeneralizedTime::new(late, None)), INVALID)
}

#[test]
fn fractions_in_order() -> Result<(), Fail> {
    let date = DateTime::new(2015, 6, 30, 23, 59, 59)?;
    let point = GeneralizedTime::new(date.clone()?, Some(1234))?;
    let other_year = DateTime::new(2023, 6, 30, 23, 59, 59)?;
    let other_year = GeneralizedTime::new(other_year, Some(1234))?;
    let behind = GeneralizedTime::new(date.clone()?, Some(1235))?;
    let before = GeneralizedTime::new(date, None)?;
    let found = (point < other_year, point < behind, point > before);
    same(found, (true, true, true))
}

#[test]
fn other_times_are_unequal(rt: HostRuntime) -> Result<(), Fail> {
    const UTC: &[u8] = b"\x17\x0d230615142605Z";
    are_equal_or_not::<UtcTime>(
        rt.alloc(),
        &[
            (UTC, b"\x17\x0d240615142605Z", false),
            (UTC, b"\x17\x0d230715142605Z", false),
            (UTC, b"\x17\x0d230616142605Z", false),
            (UTC, b"\x17\x0d230615152605Z", false),
            (UTC, b"\x17\x0d230615142705Z", false),
            (UTC, b"\x17\x0d230615142606Z", false),
        ],
    )?;
    const X509: &[u8] = b"\x18\x0f20230615142605Z";
    are_equal_or_not::<X509GeneralizedTime>(
        rt.alloc(),
        &[
            (X509, b"\x18\x0f20240615142605Z", false),
            (X509, b"\x18\x0f20230715142605Z", false),
            (X509, b"\x18\x0f20230616142605Z", false),
            (X509, b"\x18\x0f20230615152605Z", false),
            (X509, b"\x18\x0f20230615142705Z", false),
            (X509, b"\x18\x0f20230615142606Z", false),
        ],
    )
}

#[test]
fn other_fractions_are_unequal(rt: HostRuntime) -> Result<(), Fail> {
    const POINT: &[u8] = b"\x18\x1920230615142605.000001234Z";
    are_equal_or_not::<GeneralizedTime>(
        rt.alloc(),
        &[
            (POINT, b"\x18\x0f20230615142605Z", false),
            (POINT, b"\x18\x1920230615142605.000000001Z", false),
            (POINT, b"\x18\x1920230615142605.000001235Z", false),
            (POINT, b"\x18\x1420230615142605.1234Z", false),
            (POINT, b"\x18\x1920230615142606.000001234Z", false),
        ],
    )
}

#[test]
fn times_are_shown(rt: HostRuntime) -> Result<(), Fail> {
    let alloc = rt.alloc();
    let utc = UtcTime::new(DateTime::new(1991, 5, 6, 23, 45, 40)?)?;
    is_shown(
        alloc,
        &utc,
        "UtcTime(DateTime { year: 1991, month: 5, day: 6, hour: 23, minute: 45, second: 40 })",
    )?;
    let x509 = X509GeneralizedTime::new(DateTime::new(0, 1, 1, 0, 0, 0)?)?;
    is_shown(
        alloc,
        &x509,
        "X509GeneralizedTime(DateTime { year: 0, month: 1, day: 1, hour: 0, minute: 0, second: 0 })",
    )?;
    let time = GeneralizedTime::new(DateTime::new(2009, 11, 15, 22, 56, 16)?, Some(1234))?;
    is_shown(
        alloc,
        &time,
        "GeneralizedTime { datetime: DateTime { year: 2009, month: 11, day: 15, hour: 22, minute: 56, second: 16 }, nanoseconds: Some(1234) }",
    )
}
