//! A structure whose content is defined by the OBJECT IDENTIFIER before it.

ghost use Rattle.std.specs.Prelude.{◌≡◌, ◌∷◌, []};
ghost use Rattle.asn1.specs.IdentifierValues.{identifier_of};
ghost use Rattle.asn1.specs.ItemsAndValues.{by_item, word_for_word};
ghost use Rattle.asn1.specs.Structures.{field_names, structure};
ghost use Rattle.dercheck.specs.OwnTypes.{some_numbers, content_both};

use asn1::fields::{DefinedField, Item, LastValue, Row, is_identifier, known_identifier};
use asn1::{
    Asn1DefinedBy, Asn1DefinedByReadable, Asn1DefinedByWritable, Asn1Type, Asn1Writable,
    DefinedByMarker, ObjectIdentifier, ParseError, ParseErrorKind, ParseResult, Parser,
    SimpleAsn1Readable, SimpleAsn1Writable, Tag, WriteBuf, WriteError, WriteResult, Writer,
    fields_length, known_fields, read_fields, write_fields,
};
use std::alloc::Global;

/// The object identifier of the one variant: 1.2.3.
pub fn some_oid() -> ObjectIdentifier
    ensures { identifier_of result ≡ some_numbers }
{
    known_identifier(b"\x2a\x03")
}

/// What follows the object identifier.
#[derive(Debug, Clone, PartialEq, Eq, Hash, Drop)]
pub enum Content {
    /// A number, by the object identifier 1.2.3.
    SomeVariant(i32),
}

impl Asn1DefinedBy<ObjectIdentifier> for Content {
    ghost by = { by_item content_both };

    fn known_by(&self) {
        match self {
            Content::SomeVariant(number) => number.known(),
        }
    }
}

impl DefinedField<ObjectIdentifier> for Content {
    ghost both = { content_both };

    fn known_item(&self) {
        self.item().known()
    }

    ghost agrees = { word_for_word _ };
}

impl<'a> Asn1DefinedByReadable<'a, ObjectIdentifier> for Content {
    fn parse(item: ObjectIdentifier, parser: &mut Parser<'a>) -> ParseResult<Content> {
        if !is_identifier(&item, some_oid()) {
            return Err(ParseError::new(ParseErrorKind::UnknownDefinedBy));
        }
        Ok(Content::SomeVariant(parser.read_element::<i32>()?))
    }

    fn one_encoding() {}
}

impl Asn1DefinedByWritable<ObjectIdentifier> for Content {
    type Error = WriteError;

    fn item(&self) -> ObjectIdentifier {
        match self {
            Content::SomeVariant(_) => some_oid(),
        }
    }

    fn write(&self, dest: &mut Writer<'_>) -> WriteResult<()> {
        match self {
            Content::SomeVariant(number) => dest.write_element(number),
        }
    }

    fn encoded_length(&self) -> Option<usize> {
        match self {
            Content::SomeVariant(number) => number.encoded_length(),
        }
    }
}

/// An OBJECT IDENTIFIER, and the content that it defines.
#[derive(Debug, Clone, PartialEq, Eq, Hash, Drop)]
pub struct MySequence {
    /// The OBJECT IDENTIFIER, which the content tells.
    pub content_type: DefinedByMarker<ObjectIdentifier>,
    /// The content.
    pub content: Content,
}

type Fields = Item<ObjectIdentifier, LastValue<Content>>;

impl Asn1Type for MySequence {
    ghost der = { structure (λ v. record {
      value = v.content_type;
      rest = record {
        value =
            v.content;
      };
    }) ⟦<Fields as Row>⟧.list (field_names "MySequence" ("content_type" ∷ "content" ∷ [])) };

    fn known(&self) {
        known_fields!(self; content_type of content: ObjectIdentifier, content by ObjectIdentifier)
    }
}

impl<'a> SimpleAsn1Readable<'a> for MySequence {
    fn tag() -> Tag {
        Tag::constructed(0x10)
    }

    fn parse_data(alloc: Global, data: &'a [u8]) -> ParseResult<MySequence> {
        read_fields!(Fields, alloc, data => MySequence; content_type, content)
    }
}

impl SimpleAsn1Writable for MySequence {
    type Error = WriteError;

    fn tag() -> Tag {
        Tag::constructed(0x10)
    }

    fn write_data(&self, dest: &mut WriteBuf) -> WriteResult<()> {
        write_fields!(self, dest;
            content_type of content: ObjectIdentifier, content by ObjectIdentifier)
    }

    fn data_length(&self) -> Option<usize> {
        fields_length!(self; content_type of content: ObjectIdentifier, content by ObjectIdentifier)
    }
}
