//! DATE (X.680 38.4.1, X.690 8.26).

ghost use Rattle.std.specs.Prelude.{◌≡◌, ◌+◌, ◌/◌, ◌%◌, MatchOption, MatchResult};
ghost use Rattle.asn1_core.specs.declared.parser.ParseErrorKind.TheVariants.{InvalidValue};
ghost use Rattle.asn1_core.specs.ReadError.{read_error};
ghost use Rattle.asn1_core.specs.Der.{simple_der};
ghost use Rattle.asn1_core.specs.Element.{element, element_encoding};
ghost use Rattle.asn1_core.specs.Reading.{Fits};
ghost use Rattle.asn1_core.specs.Tag.{universal};
ghost use Rattle.asn1_values.specs.TimeSteps.{front_two, is_digit, wrong};
ghost use Rattle.asn1.specs.Dates.{IsDay, day_alone, day_text, day_with, read_day};

use asn1_core::{
    Asn1Type, ParseError, ParseErrorKind, ParseResult, SimpleAsn1Readable, SimpleAsn1Writable, Tag,
    WriteBuf, WriteError, WriteResult,
};
use asn1_values::DateTime;
use std::alloc::Global;

/// Whether the octet is a decimal digit.
fn is_decimal(octet: u8) -> bool
    ensures { result ≡ is_digit octet }
{
    b'0' <= octet && octet <= b'9'
}

/// The number of the two digits at the start, and the remaining octets.
fn two_digits(octets: &[u8]) -> Option<(u8, &[u8])>
    ensures { MatchOption result (front_two octets.now ≡ wrong)
        (λ r. front_two octets.now ≡ Ok (r.0, r.1.now)) }
{
    let [tens, units, after @ ..] = octets else {
        return None;
    };
    if !is_decimal(*tens) || !is_decimal(*units) {
        return None;
    }
    Some(((*tens - b'0') * 10 + (*units - b'0'), after))
}

/// The digit of the tens of a number below 100.
fn tens(n: u8) -> u8
    ensures { result ≡ 0x30 + n / 10 }
{
    b'0' + n / 10
}

/// The digit of the units of a number.
fn units(n: u8) -> u8
    ensures { result ≡ 0x30 + n % 10 }
{
    b'0' + n % 10
}

/// DATE (X.680 38.4.1, X.690 8.26; universal 31): a date of the Gregorian calendar, of a year from 1582 to 9999.
///
/// The contents octets are `YYYYMMDD`, without the hyphens of the value notation. Reading rejects others, and those
/// that are no date, with `InvalidValue`.
///
/// ```text
/// let date = Date::new(2012, 2, 29)?;
/// both_ways(alloc, date, b"\x1f\x1f\x0820120229")?;
/// ```
#[derive(Debug, Clone, Copy, PartialEq, Eq, Hash)]
pub struct Date {
    year: u16,
    month: u8,
    day: u8,
    pub ghost is_day: { IsDay year month day },
}

impl Date {
    ghost use Rattle.asn1.specs.DateValues.{day_of};

    /// The date with these numbers: year 1582 to 9999, month 1 to 12, day from 1 to the month's last. The error is
    /// `InvalidValue`, without a location, if these numbers are no date.
    pub fn new(year: u16, month: u8, day: u8) -> ParseResult<Date>
        ensures { MatchResult result (λ d. day_of d ≡ day_with year month day)
            (λ e. (e ≡ read_error InvalidValue) × ¬ IsDay year month day) }
    {
        match Date::of_numbers(year, month, day) {
            Some(date) => Ok(date),
            None => Err(ParseError::new(ParseErrorKind::InvalidValue)),
        }
    }

    /// The date with these numbers. `None` if they are no date.
    fn of_numbers(year: u16, month: u8, day: u8) -> Option<Date>
        ensures { MatchOption result (¬ IsDay year month day)
            (λ d. day_of d ≡ day_with year month day) }
    {
        if year < 1582 || year > 9999 {
            return None;
        }
        match DateTime::new(year, month, day, 0, 0, 0) {
            Ok(_) => Some(Date { year, month, day }),
            Err(_) => None,
        }
    }

    /// The date with these contents octets. `None` if they are those of no date.
    fn in_octets(octets: &[u8]) -> Option<Date>
        ensures { MatchOption result (read_day octets.now ≡ wrong)
            (λ d. read_day octets.now ≡ Ok (day_of d)) }
    {
        let (hundreds, after) = two_digits(octets)?;
        let (years, after) = two_digits(after)?;
        let (month, after) = two_digits(after)?;
        let (day, after) = two_digits(after)?;
        Date::at_end(
            u16::from(hundreds) * 100 + u16::from(years),
            month,
            day,
            after,
        )
    }

    /// The date with these numbers. `None` if they are no date, or if octets follow.
    fn at_end(year: u16, month: u8, day: u8, after: &[u8]) -> Option<Date>
        ensures { MatchOption result (day_alone (day_with year month day) after.now ≡ wrong)
            (λ d. day_alone (day_with year month day) after.now ≡ Ok (day_of d)) }
    {
        if !after.is_empty() {
            return None;
        }
        Date::of_numbers(year, month, day)
    }

    /// The contents octets.
    fn octets(&self) -> [u8; 8]
        ensures { result ≡ day_text (day_of self.now) }
    {
        let hundreds = (self.year / 100) as u8;
        let years = (self.year % 100) as u8;
        [
            tens(hundreds),
            units(hundreds),
            tens(years),
            units(years),
            tens(self.month),
            units(self.month),
            tens(self.day),
            units(self.day),
        ]
    }

    /// The year, from 1582 to 9999.
    pub fn year(&self) -> u16
        ensures { result ≡ (day_of self.now).year }
    {
        self.year
    }

    /// The month, from 1 to 12.
    pub fn month(&self) -> u8
        ensures { result ≡ (day_of self.now).month }
    {
        self.month
    }

    /// The day of the month, from 1 to 31.
    pub fn day(&self) -> u8
        ensures { result ≡ (day_of self.now).day }
    {
        self.day
    }
}

impl Asn1Type for Date {
    ghost use Rattle.asn1.specs.DateValues.{day_of, date_content};
    ghost use Rattle.asn1.specs.LawsOf.Dates.{date_laws};

    ghost der = { simple_der day_of date_content date_laws };

    fn known(&self)
        ensures valid { date_content.valid (day_of self.now) }
        ensures fits { Fits (element_encoding
            (element (universal 31) (day_text (day_of self.now)))) }
    {}
}

impl<'a> SimpleAsn1Readable<'a> for Date {
    fn tag() -> Tag {
        Tag::primitive(0x1f)
    }

    fn parse_data(_alloc: Global, data: &'a [u8]) -> ParseResult<Date> {
        match Date::in_octets(data) {
            Some(date) => Ok(date),
            None => Err(ParseError::new(ParseErrorKind::InvalidValue)),
        }
    }
}

impl SimpleAsn1Writable for Date {
    type Error = WriteError;

    ghost length_known = { λ _. Unit {0} };

    fn tag() -> Tag {
        Tag::primitive(0x1f)
    }

    fn write_data(&self, dest: &mut WriteBuf) -> WriteResult<()> {
        dest.push_slice(&self.octets())
    }

    fn data_length(&self) -> Option<usize>
        ensures { result ≡ Some 8 }
    {
        Some(8)
    }

    fn writes_as_read() -> bool {
        true
    }
}
