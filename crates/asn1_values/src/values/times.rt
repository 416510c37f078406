//! Times without a fraction of a second: UTCTime, and GeneralizedTime as in certificates (X.690 11.7, 11.8; RFC 5280
//! 4.1.2.5).

ghost use Rattle.std.specs.Prelude.{◌≡◌, ◌≤◌, MatchResult};
ghost use Rattle.asn1_core.specs.declared.parser.ParseErrorKind.TheVariants.{InvalidValue};
ghost use Rattle.asn1_core.specs.ReadError.{read_error};
ghost use Rattle.asn1_core.specs.Der.{simple_der};
ghost use Rattle.asn1_core.specs.Element.{element, element_encoding};
ghost use Rattle.asn1_core.specs.Reading.{Fits};
ghost use Rattle.asn1_core.specs.Tag.{universal};
ghost use Rattle.asn1_values.specs.Times.{utc_text, x509_text};

use crate::values::DateTime;
use crate::values::time_digits::{general_octets, utc, utc_octets, x509};
use asn1_core::{
    Asn1Type, ParseError, ParseErrorKind, ParseResult, SimpleAsn1Readable, SimpleAsn1Writable, Tag,
    WriteBuf, WriteError, WriteResult,
};
use std::alloc::Global;
use std::fmt;

/// UTCTime (X.690 11.8; universal 23): a date and a time of day to the second, in UTC, of a year from 1950 to 2049.
///
/// The contents octets are `YYMMDDHHMMSSZ`. A `YY` below 50 counts the years from 2000 on, any other those from 1900 on
/// (RFC 5280 4.1.2.5.1). DER demands the seconds and the `Z`. Reading rejects other contents octets, and those that are
/// no date or no time of day, with `InvalidValue`.
///
/// ```text
/// let time = UtcTime::new(date.clone()?)?;
/// same(time.as_datetime(), &date)?;
/// ```
#[derive(Clone, Copy, PartialEq, Eq, Hash)]
pub struct UtcTime {
    datetime: DateTime,
    pub ghost in_range: { (1950 ≤ datetime.year) × (datetime.year ≤ 2049) },
}

impl UtcTime {
    ghost use Rattle.asn1_values.specs.TimeValues.{utc_moment, moment};

    /// The time. The error is `InvalidValue`, without a location, if the year is before 1950 or after 2049.
    pub fn new(datetime: DateTime) -> ParseResult<UtcTime>
        ensures { MatchResult result (λ t. utc_moment t ≡ moment datetime)
            (λ e. (e ≡ read_error InvalidValue) × ¬ ((1950 ≤ (moment datetime).year)
            × ((moment datetime).year ≤ 2049))) }
    {
        if datetime.year() < 1950 || datetime.year() > 2049 {
            return Err(ParseError::new(ParseErrorKind::InvalidValue));
        }
        Ok(UtcTime { datetime })
    }

    /// The date and time.
    pub fn as_datetime(&self) -> &DateTime
        ensures { moment result.now ≡ utc_moment self.now }
    {
        &self.datetime
    }
}

impl fmt::Debug for UtcTime {
    fn fmt<W: fmt::Write>(&self, f: &mut fmt::Formatter<W>) -> fmt::Result {
        f.debug_tuple("UtcTime").field(&self.datetime).finish()
    }
}

impl Asn1Type for UtcTime {
    ghost use Rattle.asn1_values.specs.TimeValues.{utc_moment, utc_content};
    ghost use Rattle.asn1_values.specs.LawsOf.Values.{utc_laws};

    ghost der = { simple_der utc_moment utc_content utc_laws };

    fn known(&self)
        ensures valid { utc_content.valid (utc_moment self.now) }
        ensures fits { Fits (element_encoding (element (universal 23)
            (utc_text (utc_moment self.now)))) }
    {}
}

impl<'a> SimpleAsn1Readable<'a> for UtcTime {
    fn tag() -> Tag {
        Tag::primitive(0x17)
    }

    #[inline]
    fn parse_data(_alloc: Global, data: &'a [u8]) -> ParseResult<UtcTime> {
        match utc(data) {
            Some(datetime) => Ok(UtcTime { datetime }),
            None => Err(ParseError::new(ParseErrorKind::InvalidValue)),
        }
    }
}

impl SimpleAsn1Writable for UtcTime {
    type Error = WriteError;

    ghost length_known = { λ _. Unit {0} };

    fn tag() -> Tag {
        Tag::primitive(0x17)
    }

    fn write_data(&self, dest: &mut WriteBuf) -> WriteResult<()> {
        dest.push_slice(&utc_octets(&self.datetime))
    }

    fn data_length(&self) -> Option<usize>
        ensures { result ≡ Some 13 }
    {
        Some(13)
    }

    fn writes_as_read() -> bool {
        true
    }
}

/// GeneralizedTime (X.690 11.7; universal 24) as in certificates (RFC 5280 4.1.2.5.2): a date and a time of day to the
/// second, in UTC, of a year from 0 to 9999.
///
/// The contents octets are `YYYYMMDDHHMMSSZ`. Reading rejects others, also those with a fraction of a second, and those
/// that are no date or no time of day, with `InvalidValue`.
#[derive(Clone, Copy, PartialEq, Eq, Hash)]
pub struct X509GeneralizedTime {
    datetime: DateTime,
    pub ghost in_range: { datetime.year ≤ 9999 },
}

impl X509GeneralizedTime {
    ghost use Rattle.asn1_values.specs.TimeValues.{x509_moment, moment};

    /// The time. The error is `InvalidValue`, without a location, if the year is after 9999.
    pub fn new(datetime: DateTime) -> ParseResult<X509GeneralizedTime>
        ensures { MatchResult result (λ t. x509_moment t ≡ moment datetime)
            (λ e. (e ≡ read_error InvalidValue) × ¬ ((moment datetime).year ≤ 9999)) }
    {
        if datetime.year() > 9999 {
            return Err(ParseError::new(ParseErrorKind::InvalidValue));
        }
        Ok(X509GeneralizedTime { datetime })
    }

    /// The date and time.
    pub fn as_datetime(&self) -> &DateTime
        ensures { moment result.now ≡ x509_moment self.now }
    {
        &self.datetime
    }
}

impl fmt::Debug for X509GeneralizedTime {
    fn fmt<W: fmt::Write>(&self, f: &mut fmt::Formatter<W>) -> fmt::Result {
        f.debug_tuple("X509GeneralizedTime")
            .field(&self.datetime)
            .finish()
    }
}

impl Asn1Type for X509GeneralizedTime {
    ghost use Rattle.asn1_values.specs.TimeValues.{x509_moment, x509_content};
    ghost use Rattle.asn1_values.specs.LawsOf.Values.{x509_laws};

    ghost der = { simple_der x509_moment x509_content x509_laws };

    fn known(&self)
        ensures valid { x509_content.valid (x509_moment self.now) }
        ensures fits { Fits (element_encoding (element (universal 24)
            (x509_text (x509_moment self.now)))) }
    {}
}

impl<'a> SimpleAsn1Readable<'a> for X509GeneralizedTime {
    fn tag() -> Tag {
        Tag::primitive(0x18)
    }

    #[inline]
    fn parse_data(_alloc: Global, data: &'a [u8]) -> ParseResult<X509GeneralizedTime> {
        match x509(data) {
            Some(datetime) => Ok(X509GeneralizedTime { datetime }),
            None => Err(ParseError::new(ParseErrorKind::InvalidValue)),
        }
    }
}

impl SimpleAsn1Writable for X509GeneralizedTime {
    type Error = WriteError;

    ghost length_known = { λ _. Unit {0} };

    fn tag() -> Tag {
        Tag::primitive(0x18)
    }

    fn write_data(&self, dest: &mut WriteBuf) -> WriteResult<()> {
        dest.push_slice(&general_octets(&self.datetime))?;
        dest.push_byte(b'Z')
    }

    fn data_length(&self) -> Option<usize>
        ensures { result ≡ Some 15 }
    {
        Some(15)
    }

    fn writes_as_read() -> bool {
        true
    }
}
