//! OPTIONAL components (X.690 8.9): a value of a type, or nothing.

ghost use Rattle.asn1_core.specs.Der.{option_der};
ghost use Rattle.asn1_core.specs.Options.{OfValue, OptionErrors};

use crate::parser::{ParseResult, Parser};
use crate::tag::Tag;
use crate::types::{Asn1Readable, Asn1Type, Asn1Writable};
use crate::writer::Writer;

/// An option means its value, or nothing. The encoding of nothing has no octets.
impl<T: Asn1Type> Asn1Type for Option<T> {
    ghost der = { option_der T.der };

    fn known(&self) {
        if let Some(inner) = self {
            inner.known();
        }
    }
}

/// Reads a value if a tag that `T` accepts is next. Else, also at the end of the input or if the next tag is
/// rejected, nothing is read, and `None` is returned. Errors are those of `T`.
impl<'a, T: Asn1Readable<'a>> Asn1Readable<'a> for Option<T> {
    fn parse(parser: &mut Parser<'a>) -> ParseResult<Option<T>> {
        match parser.peek_tag() {
            Some(tag) if T::can_parse(tag) => Ok(Some(parser.read_element::<T>()?)),
            _ => Ok(None),
        }
    }

    fn can_parse(tag: Tag) -> bool {
        T::can_parse(tag)
    }
}

impl<T: Asn1Writable> Asn1Writable for Option<T> {
    type Error = T::Error;

    ghost write_errors = { OptionErrors T.write_errors };

    ghost length_known = { OfValue T.length_known };

    fn write(&self, dest: &mut Writer<'_>) -> Result<(), T::Error> {
        match self {
            Some(inner) => dest.write_element(inner),
            None => Ok(()),
        }
    }

    fn encoded_length(&self) -> Option<usize> {
        match self {
            Some(inner) => inner.encoded_length(),
            None => Some(0),
        }
    }

    fn writes_as_read() -> bool {
        T::writes_as_read()
    }
}
