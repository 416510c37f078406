//! A structure of two numbers.

ghost use Rattle.std.specs.Prelude.{◌∷◌, []};
ghost use Rattle.asn1.specs.Structures.{field_names, structure, fields2};

use asn1::fields::{Fields2, Row};
use asn1::{
    Asn1Type, ParseResult, SimpleAsn1Readable, SimpleAsn1Writable, Tag, WriteBuf, WriteError,
    WriteResult, fields_length, known_fields, read_fields, write_fields,
};
use std::alloc::Global;

/// Two numbers in a sequence.
#[derive(Debug, Clone, PartialEq, Eq, Hash, Drop)]
pub struct Signature {
    /// The first number.
    pub r: u64,
    /// The second number.
    pub s: u64,
}

type Fields = Fields2<u64, u64>;

impl Asn1Type for Signature {
    ghost der = { structure (λ v. fields2 v.r v.s) ⟦<Fields as Row>⟧.list
        (field_names "Signature" ("r" ∷ "s" ∷ [])) };

    fn known(&self) {
        known_fields!(self; r, s)
    }
}

impl<'a> SimpleAsn1Readable<'a> for Signature {
    fn tag() -> Tag {
        Tag::constructed(0x10)
    }

    fn parse_data(alloc: Global, data: &'a [u8]) -> ParseResult<Signature> {
        read_fields!(Fields, alloc, data => Signature; r, s)
    }
}

impl SimpleAsn1Writable for Signature {
    type Error = WriteError;

    fn tag() -> Tag {
        Tag::constructed(0x10)
    }

    fn write_data(&self, dest: &mut WriteBuf) -> WriteResult<()> {
        write_fields!(self, dest; r, s)
    }

    fn data_length(&self) -> Option<usize> {
        fields_length!(self; r, s)
    }
}
