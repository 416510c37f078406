//! Types with tags of any class: those of the example of X.690, 8.14.3, and a structure.

ghost use Rattle.std.specs.Prelude.{◌∷◌, []};
ghost use Rattle.asn1.specs.Reads.{HasOneEncoding};
ghost use Rattle.asn1.specs.Structures.{field_names, structure, fields2};

use crate::lists::{is_refused, other_tag};
use asn1::fields::{Fields2, Row};
use asn1::laws_types::tagged_types_inherit;
use asn1::laws_wrappers::tagged_types_are_lawful;
use asn1::{
    ApplicationExplicit, ApplicationImplicit, Asn1Type, Explicit, IA5String, Implicit, ParseError,
    ParseErrorKind, ParseResult, PrivateExplicit, PrivateImplicit, SimpleAsn1Readable,
    SimpleAsn1Writable, Tag, TagClass, TaggedExplicit, TaggedImplicit, UniversalImplicit,
    VisibleString, WriteBuf, WriteError, WriteResult, fields_length, known_fields, read_fields,
    write_fields,
};
use std::alloc::Global;
use std::test::Fail;
use testing::both_ways;

/// Type2 ::= [APPLICATION 3] IMPLICIT VisibleString
type Type2<'a> = ApplicationImplicit<VisibleString<'a>, 3>;

/// Type3 ::= [2] Type2
type Type3<'a> = Explicit<Type2<'a>, 2>;

/// Type4 ::= [APPLICATION 7] IMPLICIT Type3
type Type4<'a> = ApplicationImplicit<Type3<'a>, 7>;

/// Type5 ::= [2] IMPLICIT Type2
type Type5<'a> = Implicit<Type2<'a>, 2>;

/// SEQUENCE { value INTEGER, used BOOLEAN }
#[derive(Debug, Clone, PartialEq, Eq, Hash, Drop)]
pub struct Use {
    pub value: u64,
    pub used: bool,
}

type Fields = Fields2<u64, bool>;

impl Asn1Type for Use {
    ghost der = { structure (λ v. fields2 v.value v.used) ⟦<Fields as Row>⟧.list
        (field_names "Use" ("value" ∷ "used" ∷ [])) };

    fn known(&self) {
        known_fields!(self; value, used)
    }
}

impl<'a> SimpleAsn1Readable<'a> for Use {
    fn tag() -> Tag {
        Tag::constructed(0x10)
    }

    fn parse_data(alloc: Global, data: &'a [u8]) -> ParseResult<Use> {
        read_fields!(Fields, alloc, data => Use; value, used)
    }
}

impl SimpleAsn1Writable for Use {
    type Error = WriteError;

    fn tag() -> Tag {
        Tag::constructed(0x10)
    }

    fn write_data(&self, dest: &mut WriteBuf) -> WriteResult<()> {
        write_fields!(self, dest; value, used)
    }

    fn data_length(&self) -> Option<usize> {
        fields_length!(self; value, used)
    }
}

/// Stamp ::= [APPLICATION 1] EXPLICIT SEQUENCE { value INTEGER, used BOOLEAN }
type Stamp = ApplicationExplicit<Use, 1>;

/// Seal ::= [PRIVATE 31] EXPLICIT Stamp
type Seal = PrivateExplicit<Stamp, 31>;

/// Mark ::= [PRIVATE 2] IMPLICIT OCTET STRING
type Mark<'a> = PrivateImplicit<&'a [u8], 2>;

/// GeneralString, which is the universal type 27 (X.680 41), here of the characters of an IA5String.
type GeneralString<'a> = UniversalImplicit<IA5String<'a>, 27>;

/// Each value of the types here has one encoding, which is read back.
pub fn types_with_tags_are_lawful()
    ensures type2 { HasOneEncoding ⟦<Type2<'static> as Asn1Type>⟧.der }
    ensures type4 { HasOneEncoding ⟦<Type4<'static> as Asn1Type>⟧.der }
    ensures type5 { HasOneEncoding ⟦<Type5<'static> as Asn1Type>⟧.der }
    ensures stamp { HasOneEncoding ⟦<Stamp as Asn1Type>⟧.der }
    ensures seal { HasOneEncoding ⟦<Seal as Asn1Type>⟧.der }
    ensures mark { HasOneEncoding ⟦<Mark<'static> as Asn1Type>⟧.der }
    ensures general { HasOneEncoding ⟦<GeneralString<'static> as Asn1Type>⟧.der }
{}

/// A type under an explicit tag of the class application has one encoding for each value if the type has. Under an
/// implicit tag it is lawful, and plain, if it is.
pub fn types_of_an_application<T: Asn1Type>()
    requires one { HasOneEncoding T.der }
    requires simple { T.der.is_simple }
    ensures explicit { HasOneEncoding ⟦<ApplicationExplicit<T, 1> as Asn1Type>⟧.der }
    ensures implicit { ⟦<ApplicationImplicit<T, 1> as Asn1Type>⟧.der.lawful }
    ensures plain { ⟦<ApplicationImplicit<T, 1> as Asn1Type>⟧.der.plain }
    ensures element { ⟦<ApplicationImplicit<T, 1> as Asn1Type>⟧.der.is_element }
{
    tagged_types_are_lawful::<T, 1, 1>();
    tagged_types_inherit::<T, 1, 1>();
}

/// "Jones" as the type with the tag 3.
fn jones() -> Result<Type2<'static>, Fail> {
    Ok(Type2::new(VisibleString::new("Jones").ok_or("no text")?))
}

/// "Jones" in the types `Type2` to `Type5`, as X.690 has it in 8.14.3.
#[test]
fn texts_of_an_application(rt: HostRuntime) -> Result<(), Fail> {
    let alloc = rt.alloc();
    both_ways(alloc, jones()?, b"\x43\x05Jones")?;
    both_ways(alloc, Type3::new(jones()?), b"\xa2\x07\x43\x05Jones")?;
    both_ways(
        alloc,
        Type4::new(Type3::new(jones()?)),
        b"\x67\x07\x43\x05Jones",
    )?;
    both_ways(alloc, Type5::new(jones()?), b"\x82\x05Jones")
}

/// Tags of the classes private and universal.
#[test]
fn tags_of_other_classes(rt: HostRuntime) -> Result<(), Fail> {
    let alloc = rt.alloc();
    both_ways(alloc, Mark::from(&[7u8] as &[u8]), &[0xc2, 1, 7])?;
    let general = IA5String::new("EXAMPLE.COM").ok_or("no text")?;
    both_ways(alloc, GeneralString::new(general), b"\x1b\x0bEXAMPLE.COM")?;
    both_ways(
        alloc,
        ApplicationExplicit::<_, 2>::new(true),
        &[0x62, 3, 1, 1, 0xff],
    )?;
    both_ways(
        alloc,
        ApplicationImplicit::<_, 2>::new(true),
        &[0x42, 1, 0xff],
    )?;
    both_ways(alloc, PrivateImplicit::<_, 2>::new(true), &[0xc2, 1, 0xff])
}

/// A class by its bits: context-specific is 2, as in `Explicit` and `Implicit`.
#[test]
fn classes_by_their_bits(rt: HostRuntime) -> Result<(), Fail> {
    let alloc = rt.alloc();
    both_ways(
        alloc,
        TaggedExplicit::<_, 2, 0>::new(5u8),
        &[0xa0, 3, 2, 1, 5],
    )?;
    both_ways(alloc, TaggedImplicit::<_, 2, 0>::new(5u8), &[0x80, 1, 5])?;
    both_ways(alloc, TaggedImplicit::<_, 4, 0>::new(5u8), &[0xc0, 1, 5])
}

/// The tag without the structure in it, or with another class, or with an octet more in it.
#[test]
fn stamps(rt: HostRuntime) -> Result<(), Fail> {
    let alloc = rt.alloc();
    let stamp = Stamp::new(Use {
        value: 7,
        used: true,
    });
    assert_eq!(rt; (stamp.as_inner().value, stamp.as_inner().used), (7, true));
    both_ways(alloc, stamp, &[0x61, 8, 0x30, 6, 2, 1, 7, 1, 1, 0xff])?;
    let sealed = Seal::new(Stamp::new(Use {
        value: 7,
        used: false,
    }));
    both_ways(
        alloc,
        sealed,
        &[0xff, 0x1f, 10, 0x61, 8, 0x30, 6, 2, 1, 7, 1, 1, 0],
    )?;
    let number = other_tag(Tag::primitive(2));
    is_refused::<Stamp>(alloc, &[0x61, 6, 2, 1, 7, 1, 1, 0xff], number)?;
    let private = other_tag(Tag::new(1, TagClass::Private, true));
    is_refused::<Stamp>(alloc, &[0xe1, 8, 0x30, 6, 2, 1, 7, 1, 1, 0xff], private)?;
    let extra = ParseError::new(ParseErrorKind::ExtraData);
    is_refused::<Stamp>(alloc, &[0x61, 9, 0x30, 6, 2, 1, 7, 1, 1, 0xff, 5], extra)
}
