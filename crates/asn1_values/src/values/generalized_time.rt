//! GeneralizedTime, with a fraction of a second or without (X.690 11.7).

ghost use Rattle.std.specs.Prelude.{◌≡◌, ◌≤◌, length, MatchResult};
ghost use Rattle.std.proofs.Props.{props};
ghost use Rattle.asn1_core.specs.declared.parser.ParseErrorKind.TheVariants.{InvalidValue};
ghost use Rattle.asn1_core.specs.ReadError.{read_error};
ghost use Rattle.asn1_core.specs.Der.{simple_der};
ghost use Rattle.asn1_core.specs.Element.{element, element_encoding};
ghost use Rattle.asn1_core.specs.Reading.{Fits};
ghost use Rattle.asn1_core.specs.Tag.{universal};
ghost use Rattle.asn1_values.specs.Times.{IsNanoseconds, instant, instant_text};

use crate::values::DateTime;
use crate::values::time_digits::general_octets;
use crate::values::time_fractions::{fraction_count, general, is_fraction, push_fraction};
use asn1_core::{
    Asn1Type, ParseError, ParseErrorKind, ParseResult, SimpleAsn1Readable, SimpleAsn1Writable, Tag,
    WriteBuf, WriteError, WriteResult,
};
use std::alloc::Global;

/// GeneralizedTime (X.690 11.7; universal 24): a date and a time of day in UTC, of a year from 0 to 9999, with a
/// fraction of a second in nanoseconds or without. Values are ordered by date and time of day, then no fraction before
/// any fraction, then by nanoseconds.
///
/// The contents octets are `YYYYMMDDHHMMSSZ`, or `YYYYMMDDHHMMSS.fZ` with a fraction. DER demands the seconds, the `Z`,
/// a point and no comma, and a last digit of the fraction that isn't 0. Reading rejects other contents octets with
/// `InvalidValue`, also those that are no date or no time of day. More than nine digits of a fraction are rejected too:
/// this bound is the library's.
///
/// ```text
/// let time = GeneralizedTime::new(date.clone()?, *nanoseconds)?;
/// same((time.as_datetime(), time.nanoseconds()), (&date, *nanoseconds))?;
/// ```
#[derive(Debug, Clone, Copy, PartialEq, Eq, PartialOrd, Hash)]
pub struct GeneralizedTime {
    datetime: DateTime,
    nanoseconds: Option<u32>,
    pub ghost in_range: { datetime.year ≤ 9999 },
    pub ghost in_second: { IsNanoseconds nanoseconds } by { Prim.hlevel props },
}

impl GeneralizedTime {
    ghost use Rattle.asn1_values.specs.TimeValues.{instant_of, moment};

    /// The time. The error is `InvalidValue`, without a location, if the year is after 9999, or if there are
    /// nanoseconds and they are 0 or above 999999999.
    pub fn new(datetime: DateTime, nanoseconds: Option<u32>) -> ParseResult<GeneralizedTime>
        ensures { MatchResult result (λ t. instant_of t ≡ instant (moment datetime) nanoseconds)
            (λ e. (e ≡ read_error InvalidValue) × ¬ (((moment datetime).year ≤ 9999)
            × IsNanoseconds nanoseconds)) }
    {
        if datetime.year() > 9999 || !is_fraction(nanoseconds) {
            return Err(ParseError::new(ParseErrorKind::InvalidValue));
        }
        Ok(GeneralizedTime {
            datetime,
            nanoseconds,
        })
    }

    /// The date and time, without the fraction.
    pub fn as_datetime(&self) -> &DateTime
        ensures { moment result.now ≡ (instant_of self.now).moment }
    {
        &self.datetime
    }

    /// The fraction of a second in nanoseconds, from 1 to 999999999. `None` if there is no fraction.
    pub fn nanoseconds(&self) -> Option<u32>
        ensures { result ≡ (instant_of self.now).nanoseconds }
    {
        self.nanoseconds
    }
}

impl Asn1Type for GeneralizedTime {
    ghost use Rattle.asn1_values.specs.TimeValues.{instant_of, instant_content};
    ghost use Rattle.asn1_values.specs.LawsOf.Values.{instant_laws};

    ghost der = { simple_der instant_of instant_content instant_laws };

    fn known(&self)
        ensures valid { instant_content.valid (instant_of self.now) }
        ensures fits { Fits (element_encoding (element (universal 24)
            (instant_text (instant_of self.now)))) }
    {}
}

impl<'a> SimpleAsn1Readable<'a> for GeneralizedTime {
    fn tag() -> Tag {
        Tag::primitive(0x18)
    }

    #[inline]
    fn parse_data(_alloc: Global, data: &'a [u8]) -> ParseResult<GeneralizedTime> {
        match general(data) {
            Some((datetime, nanoseconds)) => Ok(GeneralizedTime {
                datetime,
                nanoseconds,
            }),
            None => Err(ParseError::new(ParseErrorKind::InvalidValue)),
        }
    }
}

impl SimpleAsn1Writable for GeneralizedTime {
    ghost use Rattle.asn1_values.specs.TimeValues.{instant_of};

    type Error = WriteError;

    ghost length_known = { λ _. Unit {0} };

    fn tag() -> Tag {
        Tag::primitive(0x18)
    }

    fn write_data(&self, dest: &mut WriteBuf) -> WriteResult<()> {
        dest.push_slice(&general_octets(&self.datetime))?;
        push_fraction(self.nanoseconds, dest)?;
        dest.push_byte(b'Z')
    }

    fn data_length(&self) -> Option<usize>
        ensures { result ≡ Some (length (instant_text (instant_of self.now))) }
    {
        Some(15 + fraction_count(self.nanoseconds))
    }

    fn writes_as_read() -> bool {
        true
    }
}
