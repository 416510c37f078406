//! Values in a box or behind a reference. They have the meaning and the encoding of the value that they hold.

ghost use Rattle.std.specs.Prelude.{◌≡◌, length};
ghost use Rattle.asn1_core.specs.CoreTypes.{boxed_der};
ghost use Rattle.asn1_core.specs.Der.{viewed};
ghost use Rattle.asn1_core.specs.Element.{element_encoding};
ghost use Rattle.asn1_core.specs.Writing.{GivesLength};

use crate::parser::{ParseError, ParseErrorKind, ParseResult};
use crate::tag::Tag;
use crate::types::{Asn1Type, Asn1Writable, SimpleAsn1Readable, SimpleAsn1Writable, Tlv};
use crate::writer::{WriteBuf, WriteError, WriteResult, Writer};
use std::alloc::Global;

/// A value on the heap. Reading allocates only after the contents octets were found valid; `AllocationError` if out
/// of memory.
impl<T: Asn1Type> Asn1Type for Box<T> {
    ghost der = { boxed_der (λ b. b.value) T.der };

    fn known(&self) {
        (**self).known()
    }
}

impl<'a, T: SimpleAsn1Readable<'a>> SimpleAsn1Readable<'a> for Box<T> {
    fn tag() -> Tag {
        T::tag()
    }

    #[inline]
    fn parse_data(alloc: Global, data: &'a [u8]) -> ParseResult<Box<T>> {
        let value = T::parse_data(alloc, data)?;
        match Box::new(alloc, value) {
            Ok(boxed) => Ok(boxed),
            Err(_) => Err(ParseError::new(ParseErrorKind::AllocationError)),
        }
    }
}

impl<T: SimpleAsn1Writable> SimpleAsn1Writable for Box<T> {
    type Error = T::Error;

    ghost write_errors = { λ v. T.write_errors v.value };

    ghost length_known = { λ v. T.length_known v.value };

    fn tag() -> Tag {
        T::tag()
    }

    fn write_data(&self, dest: &mut WriteBuf) -> Result<(), T::Error> {
        (**self).write_data(dest)
    }

    fn data_length(&self) -> Option<usize> {
        (**self).data_length()
    }

    fn writes_as_read() -> bool {
        <T as SimpleAsn1Writable>::writes_as_read()
    }
}

/// A reference, which is written as what it points to, and not read.
impl<T: Asn1Type> Asn1Type for &T {
    ghost der = { viewed (λ r. r.now) T.der };

    fn known(&self) {
        (**self).known()
    }
}

impl<T: SimpleAsn1Writable> SimpleAsn1Writable for &T {
    type Error = T::Error;

    ghost write_errors = { λ v. T.write_errors v.now };

    ghost length_known = { λ v. T.length_known v.now };

    fn tag() -> Tag {
        T::tag()
    }

    fn write_data(&self, dest: &mut WriteBuf) -> Result<(), T::Error> {
        (**self).write_data(dest)
    }

    fn data_length(&self) -> Option<usize> {
        (**self).data_length()
    }
}

impl Asn1Writable for &Tlv<'_> {
    ghost use Rattle.asn1_core.specs.Tlv.{element_of};

    type Error = WriteError;

    ghost length_known = { λ _. Unit {0} };

    #[inline]
    fn write(&self, dest: &mut Writer<'_>) -> WriteResult<()> {
        (**self).write(dest)
    }

    fn encoded_length(&self) -> Option<usize>
        ensures length { GivesLength (Unit {0}) (λ t. t ≡ element_encoding
            (element_of self.now.now))
            result }
        ensures known { result ≡ Some (length (element_encoding (element_of self.now.now))) }
    {
        (**self).encoded_length()
    }
}
