//! Structures whose fields have tags and are always there. Numbers of tags from 31 on have octets of their own.

ghost use Rattle.std.specs.Prelude.{◌∷◌, []};
ghost use Rattle.asn1.specs.Reads.{HasOneEncoding};
ghost use Rattle.asn1.specs.Structures.{
  defaulted,
  explicit,
  field_names,
  fields16,
  fields2,
  fields3,
  implicit,
  structure,
};

use crate::lists::is_refused;
use asn1::fields::{Field, Fields2, Fields3, Fields16, Row};
use asn1::{
    Asn1Type, Asn1Writable, DefaultValue, Defaulted, Explicit, Implicit, ParseError,
    ParseErrorKind, ParseLocation, ParseResult, SimpleAsn1Readable, SimpleAsn1Writable, Tag,
    WriteBuf, WriteError, WriteResult, explicit_tag, fields_length, known_fields, read_fields,
    write_fields,
};
use std::alloc::Global;
use std::test::Fail;
use testing::{both_ways, is_written, is_written_back, same};

/// A number under an implicit tag, and a Boolean under an explicit one. Neither may be missing.
#[derive(PartialEq, Drop)]
pub struct Tagged {
    pub number: u64,
    pub flag: bool,
}

type Number = Implicit<u64, 31>;

type Flag = Explicit<bool, 128>;

type Fields = Fields2<Number, Flag>;

impl Asn1Type for Tagged {
    ghost der = { structure (λ v. fields2 (implicit v.number) (explicit v.flag))
        ⟦<Fields as Row>⟧.list (field_names "Tagged" ("number" ∷ "flag" ∷ [])) };

    fn known(&self) {
        known_fields!(self; number: Number, flag: Flag)
    }
}

impl<'a> SimpleAsn1Readable<'a> for Tagged {
    fn tag() -> Tag {
        Tag::constructed(0x10)
    }

    fn parse_data(alloc: Global, data: &'a [u8]) -> ParseResult<Tagged> {
        read_fields!(Fields, alloc, data => Tagged; number: Number, flag: Flag)
    }
}

impl SimpleAsn1Writable for Tagged {
    type Error = WriteError;

    ghost length_known = { λ _. Unit {0} };

    fn tag() -> Tag {
        Tag::constructed(0x10)
    }

    fn write_data(&self, dest: &mut WriteBuf) -> WriteResult<()> {
        write_fields!(self, dest; number: Number, flag: Flag)
    }

    fn data_length(&self) -> Option<usize> {
        fields_length!(self; number: Number, flag: Flag)
    }
}

/// Each value has one encoding, which is read back.
pub fn tagged_fields_are_lawful()
    ensures { HasOneEncoding ⟦<Tagged as Asn1Type>⟧.der }
{}

/// An error at a field.
fn at(name: &'static str, kind: ParseErrorKind) -> ParseError {
    ParseError::new(kind).add_location(ParseLocation::Field(name))
}

#[test]
fn fields_with_tags(rt: HostRuntime) -> Result<(), Fail> {
    let value = Tagged {
        number: 5,
        flag: true,
    };
    both_ways(
        rt.alloc(),
        value,
        &[0x30, 11, 0x9f, 0x1f, 1, 5, 0xbf, 0x81, 0x00, 3, 1, 1, 0xff],
    )
}

#[test]
fn fields_with_tags_that_are_missing(rt: HostRuntime) -> Result<(), Fail> {
    let alloc = rt.alloc();
    let actual = explicit_tag(128);
    let number = at("Tagged::number", ParseErrorKind::UnexpectedTag { actual });
    is_refused::<Tagged>(alloc, &[0x30, 7, 0xbf, 0x81, 0x00, 3, 1, 1, 0xff], number)?;
    let actual = Tag::primitive(1);
    let untagged = at("Tagged::flag", ParseErrorKind::UnexpectedTag { actual });
    is_refused::<Tagged>(alloc, &[0x30, 7, 0x9f, 0x1f, 1, 5, 1, 1, 0xff], untagged)?;
    let flag = at("Tagged::flag", ParseErrorKind::ShortData { needed: 1 });
    is_refused::<Tagged>(alloc, &[0x30, 4, 0x9f, 0x1f, 1, 5], flag)
}

/// What each field is if it is left out.
pub struct Three;

impl DefaultValue<u64> for Three {
    ghost default = { 3 };

    fn value() -> u64 {
        3
    }
}

impl DefaultValue<Explicit<u64, 31>> for Three {
    ghost default = { record { inner = 3 } };

    fn value() -> Explicit<u64, 31> {
        Explicit::new(3)
    }
}

impl DefaultValue<Implicit<u64, 127>> for Three {
    ghost default = { record { inner = 3 } };

    fn value() -> Implicit<u64, 127> {
        Implicit::new(3)
    }
}

/// Three numbers that are 3 by default: under an explicit tag, under an implicit one, and under none.
#[derive(PartialEq, Drop)]
pub struct Defaults {
    pub explicit: u64,
    pub implicit: u64,
    pub plain: u64,
}

type ExplicitThree = Defaulted<Explicit<u64, 31>, Three>;

type ImplicitThree = Defaulted<Implicit<u64, 127>, Three>;

type PlainThree = Defaulted<u64, Three>;

type DefaultsFields = Fields3<ExplicitThree, ImplicitThree, PlainThree>;

impl Asn1Type for Defaults {
    ghost der = { structure (λ v. fields3 (defaulted (explicit v.explicit))
        (defaulted (implicit v.implicit)) (defaulted v.plain)) ⟦<DefaultsFields as Row>⟧.list
        (field_names "Defaults" ("explicit" ∷ "implicit" ∷ "plain" ∷ [])) };

    fn known(&self) {
        known_fields!(self; explicit: ExplicitThree, implicit: ImplicitThree, plain: PlainThree)
    }
}

impl<'a> SimpleAsn1Readable<'a> for Defaults {
    fn tag() -> Tag {
        Tag::constructed(0x10)
    }

    fn parse_data(alloc: Global, data: &'a [u8]) -> ParseResult<Defaults> {
        read_fields!(DefaultsFields, alloc, data => Defaults;
            explicit: ExplicitThree, implicit: ImplicitThree, plain: PlainThree)
    }
}

impl SimpleAsn1Writable for Defaults {
    type Error = WriteError;

    ghost length_known = { λ _. Unit {0} };

    fn tag() -> Tag {
        Tag::constructed(0x10)
    }

    fn write_data(&self, dest: &mut WriteBuf) -> WriteResult<()> {
        write_fields!(self, dest;
            explicit: ExplicitThree, implicit: ImplicitThree, plain: PlainThree)
    }

    fn data_length(&self) -> Option<usize> {
        fields_length!(self; explicit: ExplicitThree, implicit: ImplicitThree, plain: PlainThree)
    }
}

/// Each value has one encoding, which is read back.
pub fn defaults_are_lawful()
    ensures { HasOneEncoding ⟦<Defaults as Asn1Type>⟧.der }
{}

#[test]
fn defaults_under_tags(rt: HostRuntime) -> Result<(), Fail> {
    let alloc = rt.alloc();
    let others = Defaults {
        explicit: 1,
        implicit: 2,
        plain: 4,
    };
    both_ways(
        alloc,
        others,
        &[0x30, 13, 0xbf, 0x1f, 3, 2, 1, 1, 0x9f, 0x7f, 1, 2, 2, 1, 4],
    )?;
    let all = Defaults {
        explicit: 3,
        implicit: 3,
        plain: 3,
    };
    both_ways(alloc, all, &[0x30, 0])?;
    let kind = ParseErrorKind::EncodedDefault;
    let explicit: &[u8] = &[0x30, 6, 0xbf, 0x1f, 3, 2, 1, 3];
    is_refused::<Defaults>(alloc, explicit, at("Defaults::explicit", kind))?;
    is_refused::<Defaults>(
        alloc,
        &[0x30, 4, 0x9f, 0x7f, 1, 3],
        at("Defaults::implicit", kind),
    )?;
    is_refused::<Defaults>(alloc, &[0x30, 3, 2, 1, 3], at("Defaults::plain", kind))
}

/// Eighteen numbers: more fields than any row that has a name.
#[derive(Drop)]
pub struct Eighteen {
    pub a: u8,
    pub b: u8,
    pub c: u8,
    pub d: u8,
    pub e: u8,
    pub f: u8,
    pub g: u8,
    pub h: u8,
    pub i: u8,
    pub j: u8,
    pub k: u8,
    pub l: u8,
    pub m: u8,
    pub n: u8,
    pub o: u8,
    pub p: u8,
    pub q: u8,
    pub r: u8,
}

type EighteenFields = Field<
    u8,
    Field<u8, Fields16<u8, u8, u8, u8, u8, u8, u8, u8, u8, u8, u8, u8, u8, u8, u8, u8>>,
>;

impl Asn1Type for Eighteen {
    ghost der = { structure (λ v. record {
      value = v.a;
      rest = record {
        value = v.b;
        rest =
            fields16 v.c v.d v.e v.f v.g v.h v.i v.j v.k v.l v.m v.n v.o v.p v.q v.r;
      };
    })
        ⟦<EighteenFields as Row>⟧.list
        (field_names "Eighteen" ("a" ∷ "b" ∷ "c" ∷ "d" ∷ "e" ∷ "f" ∷ "g" ∷ "h" ∷ "i" ∷ "j" ∷ "k" ∷
        "l" ∷ "m" ∷ "n" ∷ "o" ∷ "p" ∷ "q" ∷ "r" ∷ [])) };

    fn known(&self) {
        known_fields!(self; a, b, c, d, e, f, g, h, i, j, k, l, m, n, o, p, q, r)
    }
}

impl<'a> SimpleAsn1Readable<'a> for Eighteen {
    fn tag() -> Tag {
        Tag::constructed(0x10)
    }

    fn parse_data(alloc: Global, data: &'a [u8]) -> ParseResult<Eighteen> {
        read_fields!(EighteenFields, alloc, data => Eighteen;
            a, b, c, d, e, f, g, h, i, j, k, l, m, n, o, p, q, r)
    }
}

impl SimpleAsn1Writable for Eighteen {
    type Error = WriteError;

    ghost length_known = { λ _. Unit {0} };

    fn tag() -> Tag {
        Tag::constructed(0x10)
    }

    fn write_data(&self, dest: &mut WriteBuf) -> WriteResult<()> {
        write_fields!(self, dest; a, b, c, d, e, f, g, h, i, j, k, l, m, n, o, p, q, r)
    }

    fn data_length(&self) -> Option<usize> {
        fields_length!(self; a, b, c, d, e, f, g, h, i, j, k, l, m, n, o, p, q, r)
    }
}

#[test]
fn eighteen_fields(rt: HostRuntime) -> Result<(), Fail> {
    let alloc = rt.alloc();
    let value = Eighteen {
        a: 0,
        b: 1,
        c: 2,
        d: 3,
        e: 4,
        f: 5,
        g: 6,
        h: 7,
        i: 8,
        j: 9,
        k: 10,
        l: 11,
        m: 12,
        n: 13,
        o: 14,
        p: 15,
        q: 16,
        r: 17,
    };
    let octets: &[u8] = &[
        0x30, 54, 2, 1, 0, 2, 1, 1, 2, 1, 2, 2, 1, 3, 2, 1, 4, 2, 1, 5, 2, 1, 6, 2, 1, 7, 2, 1, 8,
        2, 1, 9, 2, 1, 10, 2, 1, 11, 2, 1, 12, 2, 1, 13, 2, 1, 14, 2, 1, 15, 2, 1, 16, 2, 1, 17,
    ];
    is_written(alloc, &value, octets)?;
    same(value.encoded_length(), Some(56))?;
    is_written_back::<Eighteen>(alloc, octets)?;
    let short: &[u8] = &[
        0x30, 51, 2, 1, 0, 2, 1, 1, 2, 1, 2, 2, 1, 3, 2, 1, 4, 2, 1, 5, 2, 1, 6, 2, 1, 7, 2, 1, 8,
        2, 1, 9, 2, 1, 10, 2, 1, 11, 2, 1, 12, 2, 1, 13, 2, 1, 14, 2, 1, 15, 2, 1, 16,
    ];
    let last = at("Eighteen::r", ParseErrorKind::ShortData { needed: 1 });
    is_refused::<Eighteen>(alloc, short, last)
}
