//! Times (RFC 5280, 4.1.2.5).
// Printed by tools/derive from declarations/common/time.rs, with the sum a170c4c8.

ghost use Rattle.asn1.specs.AlternativeLists.{after1, choice, first1};
ghost use Rattle.asn1.specs.Reads.{HasOneEncoding};

use asn1::alternatives::{Alternatives, AlternativesReadable, AsOneOf, OneOf2, read_choice};
use asn1::{
    Asn1Readable, Asn1Type, Asn1Writable, ParseResult, Parser, Tag, UtcTime, WriteError,
    WriteResult, Writer, X509GeneralizedTime, choice_length, known_choice, take_choice,
    write_choice,
};

type TimeChoice = OneOf2<UtcTime, X509GeneralizedTime>;

type TimeValues = <TimeChoice as Alternatives>::Values;

/// Time (RFC 5280, 4.1), a CHOICE of two forms of a time in UTC, distinguished by the tag. Which form a year has to
/// have isn't checked.
#[derive(Debug, Clone, Copy, PartialEq, Eq)]
pub enum Time {
    /// utcTime: a time from 1950 to 2049.
    UtcTime(UtcTime),
    /// generalTime: a time of any year, in whole seconds.
    GeneralTime(X509GeneralizedTime),
}

impl AsOneOf<TimeValues> for Time {
    ghost use Rattle.pkix.specs.declared.common.time.Time.TheVariants.{UtcTime, GeneralTime};

    ghost seen = { elim [ UtcTime x ↦ first1 x | GeneralTime x ↦ after1 (first1 x) ] };

    fn from_one_of(value: TimeValues) -> Time {
        take_choice!(value; Time(x); UtcTime, GeneralTime)
    }
}

impl Asn1Type for Time {
    ghost der = { choice ⟦<Time as AsOneOf<TimeValues>>⟧.seen ⟦<TimeChoice as Alternatives>⟧.list };

    fn known(&self) {
        known_choice!(self; Time(x); UtcTime, GeneralTime)
    }
}

impl<'a> Asn1Readable<'a> for Time {
    fn parse(parser: &mut Parser<'a>) -> ParseResult<Time> {
        read_choice::<TimeChoice, Time>(parser)
    }

    fn can_parse(tag: Tag) -> bool {
        <TimeChoice as AlternativesReadable<'_>>::accepts(tag)
    }
}

impl Asn1Writable for Time {
    type Error = WriteError;

    ghost length_known = { λ _. Unit {0} };

    fn write(&self, dest: &mut Writer<'_>) -> WriteResult<()> {
        write_choice!(self, dest; Time(x); UtcTime, GeneralTime)
    }

    fn encoded_length(&self) -> Option<usize> {
        choice_length!(self; Time(x); UtcTime, GeneralTime)
    }

    fn writes_as_read() -> bool {
        true
    }
}

/// The laws of the types, which do nothing.
pub mod laws {
    use super::{Time, TimeChoice};
    use asn1::Asn1Type;
    use asn1::laws_wrappers::alternatives_apart_are_lawful;

    /// Each value of `Time` has one encoding, which is read back.
    pub fn time_is_lawful()
        ensures { HasOneEncoding ⟦<Time as Asn1Type>⟧.der }
    {
        alternatives_apart_are_lawful::<TimeChoice>();
    }
}
