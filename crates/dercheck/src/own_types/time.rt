//! A choice: a time of either form.

ghost use Rattle.std.proofs.Common.{inl, inr};
ghost use Rattle.asn1.specs.Choices.{only, or};
ghost use Rattle.asn1.specs.Der.{encoding_of};
ghost use Rattle.asn1.specs.LawsOf.Choices.{only_laws, or_laws};
ghost use Rattle.asn1.specs.Types.{choice_der};

use asn1::{
    Asn1Readable, Asn1Type, Asn1Writable, Choice2, ParseResult, Parser, Tag, UtcTime, WriteError,
    WriteResult, Writer, X509GeneralizedTime,
};

/// A time of either form, as its tag says.
#[derive(Debug, PartialEq, Eq, Drop)]
pub enum Time {
    /// A time from 1950 to 2049.
    UTCTime(UtcTime),
    /// A time of any year.
    X509GeneralizedTime(X509GeneralizedTime),
}

impl Asn1Type for Time {
    ghost use Rattle.dercheck.specs.declared.own_types.time.Time.TheVariants.{UTCTime, X509GeneralizedTime};

    ghost der = { choice_der (elim [
      | UTCTime x ↦ inl (⟦<UtcTime as Asn1Type>⟧.der.meaning x)
      | X509GeneralizedTime x ↦ inr (⟦<X509GeneralizedTime as Asn1Type>⟧.der.meaning x)
    ]) (or (encoding_of ⟦<UtcTime as Asn1Type>⟧.der)
        (only (encoding_of ⟦<X509GeneralizedTime as Asn1Type>⟧.der)))
        (or_laws ⟦<UtcTime as Asn1Type>⟧.der.laws
        (only_laws ⟦<X509GeneralizedTime as Asn1Type>⟧.der.laws)) };

    fn known(&self) {
        match self {
            Time::UTCTime(time) => time.known(),
            Time::X509GeneralizedTime(time) => time.known(),
        }
    }
}

impl<'a> Asn1Readable<'a> for Time {
    fn parse(parser: &mut Parser<'a>) -> ParseResult<Time> {
        match parser.read_element::<Choice2<UtcTime, X509GeneralizedTime>>()? {
            Choice2::ChoiceA(time) => Ok(Time::UTCTime(time)),
            Choice2::ChoiceB(time) => Ok(Time::X509GeneralizedTime(time)),
        }
    }

    fn can_parse(tag: Tag) -> bool {
        <Choice2<UtcTime, X509GeneralizedTime> as Asn1Readable<'_>>::can_parse(tag)
    }
}

impl Asn1Writable for Time {
    type Error = WriteError;

    fn write(&self, dest: &mut Writer<'_>) -> WriteResult<()> {
        match self {
            Time::UTCTime(time) => dest.write_element(time),
            Time::X509GeneralizedTime(time) => dest.write_element(time),
        }
    }

    fn encoded_length(&self) -> Option<usize> {
        match self {
            Time::UTCTime(time) => time.encoded_length(),
            Time::X509GeneralizedTime(time) => time.encoded_length(),
        }
    }
}
