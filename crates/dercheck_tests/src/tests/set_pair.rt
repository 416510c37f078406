//! A set of two fields, in the order of their tags.

ghost use Rattle.std.specs.Prelude.{◌∷◌, []};
ghost use Rattle.asn1.specs.Structures.{field_names, set_structure, fields2};

use crate::tests::own_types::{is_at, other_tag, refusal};
use asn1::fields::{Fields2, Row};
use asn1::{
    Asn1Type, ParseResult, SimpleAsn1Readable, SimpleAsn1Writable, Tag, WriteBuf, WriteError,
    WriteResult, fields_length, known_fields, read_fields, write_fields,
};
use std::alloc::Global;
use std::test::Fail;
use testing::both_ways;

/// A Boolean and a number in a set.
#[derive(PartialEq, Drop)]
pub struct Pair {
    pub r: bool,
    pub s: u64,
}

type Fields = Fields2<bool, u64>;

impl Asn1Type for Pair {
    ghost der = { set_structure (λ v. fields2 v.r v.s) ⟦<Fields as Row>⟧.list
        (field_names "Pair" ("r" ∷ "s" ∷ [])) };

    fn known(&self) {
        known_fields!(self; r, s)
    }
}

impl<'a> SimpleAsn1Readable<'a> for Pair {
    fn tag() -> Tag {
        Tag::constructed(0x11)
    }

    fn parse_data(alloc: Global, data: &'a [u8]) -> ParseResult<Pair> {
        read_fields!(Fields, alloc, data => Pair; r, s)
    }
}

impl SimpleAsn1Writable for Pair {
    type Error = WriteError;

    fn tag() -> Tag {
        Tag::constructed(0x11)
    }

    fn write_data(&self, dest: &mut WriteBuf) -> WriteResult<()> {
        write_fields!(self, dest; r, s)
    }

    fn data_length(&self) -> Option<usize> {
        fields_length!(self; r, s)
    }
}

/// Each pair is written as one encoding, which is read back.
pub fn pairs_are_lawful()
    ensures { ⟦<Pair as Asn1Type>⟧.der.lawful × ⟦<Pair as Asn1Type>⟧.der.plain }
{}

#[test]
fn pairs(rt: HostRuntime) -> Result<(), Fail> {
    let alloc = rt.alloc();
    let octets = &[0x31, 6, 1, 1, 0xff, 2, 1, 2];
    both_ways(alloc, Pair { r: true, s: 2 }, octets)?;
    let turned = &[0x31, 6, 2, 1, 2, 1, 1, 0xff];
    is_at(refusal::<Pair>(alloc, turned), "Pair::r", other_tag(2))
}
