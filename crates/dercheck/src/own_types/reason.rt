//! A simple type: an enumerated value.

ghost use Rattle.std.specs.Prelude.{◌≡◌};
ghost use Rattle.asn1.specs.Der.{simple_der};
ghost use Rattle.dercheck.specs.OwnTypes.{reason_content};
ghost use Rattle.dercheck.specs.LawsOf.{reason_laws};

use asn1::{
    Asn1Type, ParseError, ParseErrorKind, ParseResult, SimpleAsn1Readable, SimpleAsn1Writable, Tag,
    WriteBuf, WriteError, WriteResult,
};
use std::alloc::Global;

/// Why something was withdrawn.
#[derive(Clone, Copy, Debug, PartialEq, Eq)]
pub enum Reason {
    /// 0.
    Unspecified,
    /// 4.
    Superseded,
}

impl Asn1Type for Reason {
    ghost der = { simple_der (λ reason. reason) reason_content reason_laws };

    fn known(&self) {}
}

impl<'a> SimpleAsn1Readable<'a> for Reason {
    fn tag() -> Tag {
        Tag::primitive(0x0a)
    }

    fn parse_data(_alloc: Global, data: &'a [u8]) -> ParseResult<Reason> {
        match data {
            [0] => Ok(Reason::Unspecified),
            [4] => Ok(Reason::Superseded),
            _ => Err(ParseError::new(ParseErrorKind::InvalidValue)),
        }
    }
}

impl SimpleAsn1Writable for Reason {
    type Error = WriteError;

    fn tag() -> Tag {
        Tag::primitive(0x0a)
    }

    fn write_data(&self, dest: &mut WriteBuf) -> WriteResult<()> {
        match self {
            Reason::Unspecified => dest.push_byte(0),
            Reason::Superseded => dest.push_byte(4),
        }
    }

    fn data_length(&self) -> Option<usize>
        ensures { result ≡ Some 1 }
    {
        Some(1)
    }
}
