//! A structure made in code, with a list in it.

ghost use Rattle.std.specs.Prelude.{◌≡◌, ◌∷◌, []};
ghost use Rattle.asn1.specs.Structures.{field_names, structure, fields2};

use asn1::fields::{Fields2, Row};
use asn1::{
    Asn1Type, SetOfWriter, SimpleAsn1Writable, Tag, WriteBuf, WriteError, WriteResult,
    fields_length, known_fields, write_fields,
};
use std::test::Fail;
use testing::is_written;

/// Whether a bag is full, and the numbers in it.
#[derive(Drop)]
pub struct Bag<'a> {
    pub full: bool,
    pub numbers: SetOfWriter<'a, u64>,
}

type Fields<'a> = Fields2<bool, SetOfWriter<'a, u64>>;

impl<'a> Asn1Type for Bag<'a> {
    ghost der = { structure (λ v. fields2 v.full v.numbers) ⟦<Fields<'a> as Row>⟧.list
        (field_names "Bag" ("full" ∷ "numbers" ∷ [])) };

    fn known(&self) {
        known_fields!(self; full, numbers)
    }
}

impl<'a> SimpleAsn1Writable for Bag<'a> {
    type Error = WriteError;

    ghost write_errors = { λ v. ⟦<SetOfWriter<'a, u64> as SimpleAsn1Writable>⟧.write_errors
        v.numbers };

    fn tag() -> Tag
        ensures value { result ≡ ⟦<Bag<'a> as Asn1Type>⟧.der.content.tag }
        ensures simple { ⟦<Bag<'a> as Asn1Type>⟧.der.is_simple }
    {
        Tag::constructed(0x10)
    }

    fn write_data(&self, dest: &mut WriteBuf) -> WriteResult<()> {
        write_fields!(self, dest; full, numbers)
    }

    fn data_length(&self) -> Option<usize> {
        fields_length!(self; full, numbers)
    }
}

#[test]
fn bags(rt: HostRuntime) -> Result<(), Fail> {
    let bag = Bag {
        full: true,
        numbers: SetOfWriter::new(&[2, 1]),
    };
    let octets = &[0x30, 11, 1, 1, 0xff, 0x31, 6, 2, 1, 1, 2, 1, 2];
    is_written(rt.alloc(), &bag, octets)
}
