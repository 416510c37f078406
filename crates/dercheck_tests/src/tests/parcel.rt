//! Fields in one structure whose writes fail with different errors.

ghost use Rattle.std.specs.Prelude.{◌≡◌, ◌∷◌, [], true};
ghost use Rattle.asn1.specs.Reads.{HasOneEncoding};
ghost use Rattle.asn1.specs.Structures.{field_names, structure, fields3};
ghost use Rattle.dercheck.specs.declared.own_types.sealable.SealError.TheVariants.{Sealed};

use crate::tests::own_types::is_written_or_sealed;
use asn1::fields::{Fields3, Row};
use asn1::{
    Asn1Type, ErrorInto, ParseResult, SimpleAsn1Readable, SimpleAsn1Writable, Tag, WriteBuf,
    fields_length, known_fields, parse_single, read_fields, write_fields,
};
use dercheck::own_types::sealable::{SealError, Sealable};
use std::alloc::Global;
use std::test::Fail;

/// A number that may be sealed, a Boolean, and a weight that may be missing: the write of the first fails with a
/// `SealError`, and those of the others with a `WriteError`.
#[derive(Drop)]
pub struct Parcel {
    pub number: Sealable,
    pub fragile: ErrorInto<bool, SealError>,
    pub weight: ErrorInto<Option<u64>, SealError>,
}

type Fields = Fields3<Sealable, ErrorInto<bool, SealError>, ErrorInto<Option<u64>, SealError>>;

impl Asn1Type for Parcel {
    ghost der = { structure (λ v. fields3 v.number v.fragile v.weight) ⟦<Fields as Row>⟧.list
        (field_names "Parcel" ("number" ∷ "fragile" ∷ "weight" ∷ [])) };

    fn known(&self) {
        known_fields!(self; number, fragile, weight)
    }
}

impl<'a> SimpleAsn1Readable<'a> for Parcel {
    fn tag() -> Tag {
        Tag::constructed(0x10)
    }

    fn parse_data(alloc: Global, data: &'a [u8]) -> ParseResult<Parcel> {
        read_fields!(Fields, alloc, data => Parcel; number, fragile, weight)
    }
}

impl SimpleAsn1Writable for Parcel {
    type Error = SealError;

    ghost write_errors = { λ v error. (v.number.sealed ≡ true) × (error ≡ Sealed) };

    fn tag() -> Tag {
        Tag::constructed(0x10)
    }

    fn write_data(&self, dest: &mut WriteBuf) -> Result<(), SealError> {
        write_fields!(self, dest; number, fragile, weight)
    }

    fn data_length(&self) -> Option<usize> {
        fields_length!(self; number, fragile, weight)
    }
}

/// Each parcel has one encoding, which is read back.
pub fn parcels_are_lawful()
    ensures { HasOneEncoding ⟦<Parcel as Asn1Type>⟧.der }
{}

#[test]
fn parcels(rt: HostRuntime) -> Result<(), Fail> {
    let alloc = rt.alloc();
    let octets: &[u8] = &[0x30, 9, 2, 1, 7, 1, 1, 0xff, 2, 1, 5];
    let parcel = parse_single::<Parcel>(alloc, octets)?;
    assert!(rt; *parcel.fragile.as_inner());
    is_written_or_sealed(alloc, &parcel, Some(octets))?;
    let number = Sealable {
        number: 7,
        sealed: true,
    };
    let closed = Parcel {
        number,
        fragile: ErrorInto::new(true),
        weight: ErrorInto::new(None),
    };
    is_written_or_sealed(alloc, &closed, None)
}
