//! BOOLEAN (X.690 8.2).

ghost use Rattle.std.specs.Prelude.{◌≡◌};
ghost use Rattle.asn1_core.specs.Boolean.{bool_content, bool_octets};
ghost use Rattle.asn1_core.specs.Der.{simple_der};
ghost use Rattle.asn1_core.specs.Element.{element, element_encoding};
ghost use Rattle.asn1_core.specs.LawsOf.Contents.{bool_laws};
ghost use Rattle.asn1_core.specs.Reading.{Fits};
ghost use Rattle.asn1_core.specs.Tag.{universal};

use crate::parser::{ParseError, ParseErrorKind, ParseResult};
use crate::tag::Tag;
use crate::types::{Asn1Type, SimpleAsn1Readable, SimpleAsn1Writable};
use crate::writer::{WriteBuf, WriteError, WriteResult};
use std::alloc::Global;

/// BOOLEAN (X.690 8.2, 11.1; universal 1): one contents octet, 0x00 for false and 0xff for true. Reading rejects all
/// other contents octets with `InvalidValue`.
impl Asn1Type for bool {
    ghost der = { simple_der (λ b. b) bool_content bool_laws };

    fn known(&self)
        ensures valid { bool_content.valid self.now }
        ensures fits { Fits (element_encoding (element (universal 1) (bool_octets self.now))) }
    {}
}

impl<'a> SimpleAsn1Readable<'a> for bool {
    fn tag() -> Tag {
        Tag::primitive(0x01)
    }

    #[inline]
    fn parse_data(_alloc: Global, data: &'a [u8]) -> ParseResult<bool> {
        match data {
            [0x00] => Ok(false),
            [0xff] => Ok(true),
            _ => Err(ParseError::new(ParseErrorKind::InvalidValue)),
        }
    }
}

impl SimpleAsn1Writable for bool {
    type Error = WriteError;

    ghost length_known = { λ _. Unit {0} };

    fn tag() -> Tag {
        Tag::primitive(0x01)
    }

    fn write_data(&self, dest: &mut WriteBuf) -> WriteResult<()> {
        if *self {
            dest.push_byte(0xff)
        } else {
            dest.push_byte(0x00)
        }
    }

    fn data_length(&self) -> Option<usize>
        ensures { result ≡ Some 1 }
    {
        Some(1)
    }

    fn writes_as_read() -> bool {
        true
    }
}
