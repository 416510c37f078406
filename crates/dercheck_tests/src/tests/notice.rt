//! A field between an item and the value that it defines.

ghost use Rattle.std.specs.Prelude.{◌∷◌, [], false};
ghost use Rattle.asn1.specs.Reads.{HasOneEncoding};
ghost use Rattle.asn1.specs.Structures.{defaulted, field_names, structure};

use crate::tests::own_types::{EXTRA, INVALID, IS_DEFAULT, UNKNOWN, is_at, other_tag, refusal};
use asn1::fields::{Before, Item, Last, LastValue, Row, Value};
use asn1::{
    Asn1Type, DefaultValue, Defaulted, DefinedByMarker, Explicit, ObjectIdentifier, ParseResult,
    SimpleAsn1Readable, SimpleAsn1Writable, Tag, WriteBuf, WriteError, WriteResult, fields_length,
    known_fields, read_fields, write_fields,
};
use dercheck::own_types::my_sequence::Content;
use std::alloc::Global;
use std::test::Fail;
use testing::both_ways;

/// False, by default.
struct No;

impl DefaultValue<bool> for No {
    ghost default = { false };

    fn value() -> bool {
        false
    }
}

/// An OBJECT IDENTIFIER, a Boolean that is false by default, and the content that the first defines.
#[derive(PartialEq, Drop)]
pub struct Notice {
    pub kind: DefinedByMarker<ObjectIdentifier>,
    pub critical: bool,
    pub content: Explicit<Content, 0>,
}

type Critical = Defaulted<bool, No>;

type NoticeFields = Item<ObjectIdentifier, Before<Critical, LastValue<Explicit<Content, 0>>>>;

impl Asn1Type for Notice {
    ghost der = { structure (λ v. record {
      value = v.kind;
      rest = record {
        value = defaulted
            v.critical;
        rest = record { value = v.content };
      };
    }) ⟦<NoticeFields as Row>⟧.list (field_names "Notice" ("kind" ∷ "critical" ∷ "content" ∷ [])) };

    fn known(&self) {
        known_fields!(self;
            kind of content: ObjectIdentifier, critical: Critical, content by ObjectIdentifier)
    }
}

impl<'a> SimpleAsn1Readable<'a> for Notice {
    fn tag() -> Tag {
        Tag::constructed(0x10)
    }

    fn parse_data(alloc: Global, data: &'a [u8]) -> ParseResult<Notice> {
        read_fields!(NoticeFields, alloc, data => Notice; kind, critical: Critical, content)
    }
}

impl SimpleAsn1Writable for Notice {
    type Error = WriteError;

    fn tag() -> Tag {
        Tag::constructed(0x10)
    }

    fn write_data(&self, dest: &mut WriteBuf) -> WriteResult<()> {
        write_fields!(self, dest;
            kind of content: ObjectIdentifier, critical: Critical, content by ObjectIdentifier)
    }

    fn data_length(&self) -> Option<usize> {
        fields_length!(self;
            kind of content: ObjectIdentifier, critical: Critical, content by ObjectIdentifier)
    }
}

/// The same fields before a number.
#[derive(PartialEq, Drop)]
pub struct Letter {
    pub kind: DefinedByMarker<ObjectIdentifier>,
    pub critical: bool,
    pub content: Explicit<Content, 0>,
    pub number: u64,
}

type LetterFields = Item<
    ObjectIdentifier,
    Before<Critical, Value<Explicit<Content, 0>, Last<u64>>>,
>;

impl Asn1Type for Letter {
    ghost der = { structure (λ v. record {
      value = v.kind;
      rest = record {
        value = defaulted
            v.critical;
        rest = record { value = v.content; rest = record { value = v.number } };
      };
    })
        ⟦<LetterFields as Row>⟧.list
        (field_names "Letter" ("kind" ∷ "critical" ∷ "content" ∷ "number" ∷ [])) };

    fn known(&self) {
        known_fields!(self;
            kind of content: ObjectIdentifier, critical: Critical, content by ObjectIdentifier,
            number)
    }
}

impl<'a> SimpleAsn1Readable<'a> for Letter {
    fn tag() -> Tag {
        Tag::constructed(0x10)
    }

    fn parse_data(alloc: Global, data: &'a [u8]) -> ParseResult<Letter> {
        read_fields!(LetterFields, alloc, data => Letter; kind, critical: Critical, content, number)
    }
}

impl SimpleAsn1Writable for Letter {
    type Error = WriteError;

    fn tag() -> Tag {
        Tag::constructed(0x10)
    }

    fn write_data(&self, dest: &mut WriteBuf) -> WriteResult<()> {
        write_fields!(self, dest;
            kind of content: ObjectIdentifier, critical: Critical, content by ObjectIdentifier,
            number)
    }

    fn data_length(&self) -> Option<usize> {
        fields_length!(self;
            kind of content: ObjectIdentifier, critical: Critical, content by ObjectIdentifier,
            number)
    }
}

/// Each value of the types here has one encoding, which is read back.
pub fn notices_are_lawful()
    ensures notice { HasOneEncoding ⟦<Notice as Asn1Type>⟧.der }
    ensures letter { HasOneEncoding ⟦<Letter as Asn1Type>⟧.der }
{}

/// A notice of the one content.
fn notice_of_seven(critical: bool) -> Notice {
    Notice {
        kind: DefinedByMarker::marker(),
        critical,
        content: Explicit::new(Content::SomeVariant(7)),
    }
}

#[test]
fn notices(rt: HostRuntime) -> Result<(), Fail> {
    let alloc = rt.alloc();
    let octets = &[0x30, 12, 6, 2, 0x2a, 3, 1, 1, 0xff, 0xa0, 3, 2, 1, 7];
    both_ways(alloc, notice_of_seven(true), octets)?;
    let octets = &[0x30, 9, 6, 2, 0x2a, 3, 0xa0, 3, 2, 1, 7];
    both_ways(alloc, notice_of_seven(false), octets)?;
    is_at(
        refusal::<Notice>(alloc, &[0x30, 3, 1, 1, 0xff]),
        "Notice::kind",
        other_tag(1),
    )?;
    is_at(
        refusal::<Notice>(alloc, &[0x30, 12, 6, 2, 0x2a, 3, 1, 1, 0, 0xa0, 3, 2, 1, 7]),
        "Notice::critical",
        IS_DEFAULT,
    )?;
    is_at(
        refusal::<Notice>(alloc, &[0x30, 9, 6, 2, 0x2a, 4, 0xa0, 3, 2, 1, 7]),
        "Notice::content",
        UNKNOWN,
    )?;
    is_at(
        refusal::<Notice>(alloc, &[0x30, 11, 6, 2, 0x2a, 3, 0xa0, 3, 2, 1, 7, 5, 0]),
        "",
        EXTRA,
    )
}

#[test]
fn letters(rt: HostRuntime) -> Result<(), Fail> {
    let alloc = rt.alloc();
    let octets = &[
        0x30, 15, 6, 2, 0x2a, 3, 1, 1, 0xff, 0xa0, 3, 2, 1, 7, 2, 1, 9,
    ];
    let letter = Letter {
        kind: DefinedByMarker::marker(),
        critical: true,
        content: Explicit::new(Content::SomeVariant(7)),
        number: 9,
    };
    both_ways(alloc, letter, octets)?;
    let no_flag = &[0x30, 12, 6, 2, 0x2a, 3, 1, 1, 1, 0xa0, 3, 2, 1, 7];
    is_at(
        refusal::<Letter>(alloc, no_flag),
        "Letter::critical",
        INVALID,
    )?;
    let flag = &[0x30, 12, 6, 2, 0x2a, 3, 0xa0, 3, 2, 1, 7, 1, 1, 0xff];
    is_at(
        refusal::<Letter>(alloc, flag),
        "Letter::number",
        other_tag(1),
    )
}
