//! CHOICE (X.690 8.13, X.680 29): an element that is read as the first alternative that accepts its tag.

ghost use Rattle.asn1_core.specs.Der.{encoding_of};
ghost use Rattle.asn1.specs.Choices.{only, or};
ghost use Rattle.asn1.specs.LawsOf.Choices.{only_laws, or_laws};
ghost use Rattle.asn1.specs.Types.{choice_der};
ghost use Rattle.asn1.specs.InHand.{choice1_meaning, choice2_meaning, choice3_meaning, OfChoice1, OfChoice2, OfChoice3};

use asn1_core::{
    Asn1Readable, Asn1Type, Asn1Writable, ParseError, ParseErrorKind, ParseResult, Parser, Tag,
    Tlv, WriteError, WriteResult, Writer,
};

/// CHOICE (X.690 8.13) of one alternative, selected by the tag. Its encoding is that of the alternative.
///
/// Reading frames the element first. The error is `UnexpectedTag` if the alternative doesn't accept the element's
/// tag, and else the alternative's. Writing returns `AllocationError`, or an error that the alternative names.
#[derive(Debug, Clone, Copy, PartialEq, Eq, Hash)]
pub enum Choice1<A> {
    /// A value of the first type.
    ChoiceA(A),
}

impl<A: Asn1Type> Asn1Type for Choice1<A> {
    ghost der = { choice_der (choice1_meaning A.der.meaning) (only (encoding_of A.der))
        (only_laws A.der.laws) };

    fn known(&self) {
        match self {
            Choice1::ChoiceA(value) => value.known(),
        }
    }
}

impl<'a, A: Asn1Readable<'a>> Asn1Readable<'a> for Choice1<A> {
    fn parse(parser: &mut Parser<'a>) -> ParseResult<Self> {
        let tlv = parser.read_element::<Tlv<'a>>()?;
        if A::can_parse(tlv.tag()) {
            return Ok(Choice1::ChoiceA(tlv.parse::<A>(parser.alloc())?));
        }
        Err(ParseError::new(ParseErrorKind::UnexpectedTag { actual: tlv.tag() }))
    }

    fn can_parse(tag: Tag) -> bool {
        A::can_parse(tag)
    }
}

impl<A: Asn1Writable<Error = WriteError>> Asn1Writable for Choice1<A> {
    type Error = WriteError;

    ghost write_errors = { λ v e. OfChoice1 (λ a. A.write_errors a e) v };

    ghost length_known = { OfChoice1 A.length_known };

    fn write(&self, dest: &mut Writer<'_>) -> WriteResult<()> {
        match self {
            Choice1::ChoiceA(value) => dest.write_element(value),
        }
    }

    fn encoded_length(&self) -> Option<usize> {
        match self {
            Choice1::ChoiceA(value) => value.encoded_length(),
        }
    }

    fn writes_as_read() -> bool {
        A::writes_as_read()
    }
}

/// CHOICE (X.690 8.13) of two alternatives, selected by the tag. Its encoding is that of the alternative.
///
/// Reading frames the element first. The first alternative that accepts the element's tag reads the element. If this
/// alternative rejects the element, the second isn't tried. The error is `UnexpectedTag` if none accepts the tag.
/// What is written is read back if no tag is accepted by both ([`crate::laws_wrappers::choices_are_lawful`]).
///
/// ```text
/// are_both_ways::<Choice2<bool, i64>>(
///     alloc,
///     &[
///         (Choice2::ChoiceA(true), &[1, 1, 0xff]),
///         (Choice2::ChoiceB(18), &[2, 1, 0x12]),
///     ],
/// )?;
/// ```
#[derive(Debug, Clone, Copy, PartialEq, Eq, Hash)]
pub enum Choice2<A, B> {
    /// A value of the first type.
    ChoiceA(A),
    /// A value of the second type.
    ChoiceB(B),
}

impl<A: Asn1Type, B: Asn1Type> Asn1Type for Choice2<A, B> {
    ghost der = { choice_der (choice2_meaning A.der.meaning B.der.meaning)
        (or (encoding_of A.der) (only (encoding_of B.der)))
        (or_laws A.der.laws (only_laws B.der.laws)) };

    fn known(&self) {
        match self {
            Choice2::ChoiceA(value) => value.known(),
            Choice2::ChoiceB(value) => value.known(),
        }
    }
}

impl<'a, A: Asn1Readable<'a>, B: Asn1Readable<'a>> Asn1Readable<'a> for Choice2<A, B> {
    fn parse(parser: &mut Parser<'a>) -> ParseResult<Self> {
        let tlv = parser.read_element::<Tlv<'a>>()?;
        if A::can_parse(tlv.tag()) {
            return Ok(Choice2::ChoiceA(tlv.parse::<A>(parser.alloc())?));
        }
        if B::can_parse(tlv.tag()) {
            return Ok(Choice2::ChoiceB(tlv.parse::<B>(parser.alloc())?));
        }
        Err(ParseError::new(ParseErrorKind::UnexpectedTag { actual: tlv.tag() }))
    }

    fn can_parse(tag: Tag) -> bool {
        // Each alternative is called, since by each contract the values of that alternative have one encoding.
        let first = A::can_parse(tag);
        let second = B::can_parse(tag);
        first || second
    }
}

impl<A: Asn1Writable<Error = WriteError>, B: Asn1Writable<Error = WriteError>> Asn1Writable
    for Choice2<A, B> {
    type Error = WriteError;

    ghost write_errors = { λ v e. OfChoice2 (λ a. A.write_errors a e)
        (λ b. B.write_errors b e) v };

    ghost length_known = { OfChoice2 A.length_known B.length_known };

    fn write(&self, dest: &mut Writer<'_>) -> WriteResult<()> {
        match self {
            Choice2::ChoiceA(value) => dest.write_element(value),
            Choice2::ChoiceB(value) => dest.write_element(value),
        }
    }

    fn encoded_length(&self) -> Option<usize> {
        match self {
            Choice2::ChoiceA(value) => value.encoded_length(),
            Choice2::ChoiceB(value) => value.encoded_length(),
        }
    }

    fn writes_as_read() -> bool {
        A::writes_as_read() && B::writes_as_read()
    }
}

/// CHOICE (X.690 8.13) of three alternatives, selected by the tag. Its encoding is that of the alternative.
///
/// Reading frames the element first. The first alternative that accepts the element's tag reads the element. If this
/// alternative rejects the element, no further one is tried. The error is `UnexpectedTag` if none accepts the tag.
/// What is written is read back if no tag is accepted by two ([`crate::laws_wrappers::choices_are_lawful`]).
#[derive(Debug, Clone, Copy, PartialEq, Eq, Hash)]
pub enum Choice3<A, B, C> {
    /// A value of the first type.
    ChoiceA(A),
    /// A value of the second type.
    ChoiceB(B),
    /// A value of the third type.
    ChoiceC(C),
}

impl<A: Asn1Type, B: Asn1Type, C: Asn1Type> Asn1Type for Choice3<A, B, C> {
    ghost der = { choice_der (choice3_meaning A.der.meaning B.der.meaning C.der.meaning)
        (or (encoding_of A.der) (or (encoding_of B.der) (only (encoding_of C.der))))
        (or_laws A.der.laws (or_laws B.der.laws (only_laws C.der.laws))) };

    fn known(&self) {
        match self {
            Choice3::ChoiceA(value) => value.known(),
            Choice3::ChoiceB(value) => value.known(),
            Choice3::ChoiceC(value) => value.known(),
        }
    }
}

impl<'a, A: Asn1Readable<'a>, B: Asn1Readable<'a>, C: Asn1Readable<'a>> Asn1Readable<'a>
    for Choice3<A, B, C> {
    fn parse(parser: &mut Parser<'a>) -> ParseResult<Self> {
        let tlv = parser.read_element::<Tlv<'a>>()?;
        if A::can_parse(tlv.tag()) {
            return Ok(Choice3::ChoiceA(tlv.parse::<A>(parser.alloc())?));
        }
        if B::can_parse(tlv.tag()) {
            return Ok(Choice3::ChoiceB(tlv.parse::<B>(parser.alloc())?));
        }
        if C::can_parse(tlv.tag()) {
            return Ok(Choice3::ChoiceC(tlv.parse::<C>(parser.alloc())?));
        }
        Err(ParseError::new(ParseErrorKind::UnexpectedTag { actual: tlv.tag() }))
    }

    fn can_parse(tag: Tag) -> bool {
        // Each alternative is called, since by each contract the values of that alternative have one encoding.
        let first = A::can_parse(tag);
        let second = B::can_parse(tag);
        let third = C::can_parse(tag);
        first || second || third
    }
}

impl<
    A: Asn1Writable<Error = WriteError>,
    B: Asn1Writable<Error = WriteError>,
    C: Asn1Writable<Error = WriteError>,
> Asn1Writable for Choice3<A, B, C> {
    type Error = WriteError;

    ghost write_errors = { λ v e. OfChoice3 (λ a. A.write_errors a e)
        (λ b. B.write_errors b e) (λ c. C.write_errors c e) v };

    ghost length_known = { OfChoice3 A.length_known B.length_known C.length_known };

    fn write(&self, dest: &mut Writer<'_>) -> WriteResult<()> {
        match self {
            Choice3::ChoiceA(value) => dest.write_element(value),
            Choice3::ChoiceB(value) => dest.write_element(value),
            Choice3::ChoiceC(value) => dest.write_element(value),
        }
    }

    fn encoded_length(&self) -> Option<usize> {
        match self {
            Choice3::ChoiceA(value) => value.encoded_length(),
            Choice3::ChoiceB(value) => value.encoded_length(),
            Choice3::ChoiceC(value) => value.encoded_length(),
        }
    }

    fn writes_as_read() -> bool {
        A::writes_as_read() && B::writes_as_read() && C::writes_as_read()
    }
}
