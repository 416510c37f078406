//! Dates.

ghost use Rattle.asn1.specs.Comparisons.{IsEqualityOf};
ghost use Rattle.asn1.specs.DateValues.{date_content, day_of};
ghost use Rattle.asn1.specs.Dates.{IsDayText};
ghost use Rattle.asn1.specs.TimeValues.{TimesAreRead};

use asn1::laws::dates_are_read;
use asn1::laws_equality::dates_compare;
use asn1::{Date, ParseErrorKind};
use std::test::Fail;
use testing::{are_invalid, both_ways, hash_of, is_shown, kind_of, same};

/// The date of ISO 8601's examples, a 29th of February, and the first and the last year.
#[test]
fn dates(rt: HostRuntime) -> Result<(), Fail> {
    let alloc = rt.alloc();
    let date = Date::new(1985, 4, 12)?;
    same((date.year(), date.month(), date.day()), (1985, 4, 12))?;
    is_shown(alloc, &date, "Date { year: 1985, month: 4, day: 12 }")?;
    assert!(rt; date == date.clone()? && date != Date::new(1985, 12, 4)?);
    assert!(rt; hash_of(&date) != hash_of(&Date::new(1985, 12, 4)?));
    both_ways(alloc, date, b"\x1f\x1f\x0819850412")?;
    let date = Date::new(2012, 2, 29)?;
    both_ways(alloc, date, b"\x1f\x1f\x0820120229")?;
    both_ways(alloc, Date::new(1582, 1, 1)?, b"\x1f\x1f\x0815820101")?;
    both_ways(alloc, Date::new(9999, 12, 31)?, b"\x1f\x1f\x0899991231")
}

/// None; hyphens; a digit more, one less, and none; no such month or day; a year before 1582.
#[test]
fn other_octets_are_no_date(rt: HostRuntime) -> Result<(), Fail> {
    are_invalid::<Date>(
        rt.alloc(),
        &[
            b"\x1f\x1f\x00",
            b"\x1f\x1f\x0a1985-04-12",
            b"\x1f\x1f\x09198504120",
            b"\x1f\x1f\x071985041",
            b"\x1f\x1f\x08198504:2",
            b"\x1f\x1f\x0819850012",
            b"\x1f\x1f\x0819851312",
            b"\x1f\x1f\x0819850400",
            b"\x1f\x1f\x0819850431",
            b"\x1f\x1f\x0820110229",
            b"\x1f\x1f\x0815811231",
        ],
    )
}

#[test]
fn numbers_that_are_no_date(rt: HostRuntime) -> Result<(), Fail> {
    for (year, month, day) in [
        (1581, 1, 1),
        (10000, 1, 1),
        (1900, 2, 29),
        (2000, 0, 1),
        (2000, 1, 32),
    ] {
        assert!(rt; kind_of(Date::new(year, month, day)) == Some(ParseErrorKind::InvalidValue));
    }
    Ok(())
}

/// What the laws say of dates.
pub fn laws_of_dates()
    ensures equality { IsEqualityOf day_of ⟦<Date as PartialEq>⟧.eq }
    ensures read { TimesAreRead date_content IsDayText }
{
    dates_compare();
    dates_are_read();
}
