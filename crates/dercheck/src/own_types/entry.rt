//! A structure in which fields follow a value that the OBJECT IDENTIFIER before it defines.

ghost use Rattle.std.specs.Prelude.{◌∷◌, []};
ghost use Rattle.asn1.specs.Structures.{defaulted, explicit, field_names, structure, fields2};

use super::my_sequence::Content;
use asn1::fields::{Fields2, Item, Row, Value};
use asn1::{
    Asn1Type, DefaultValue, Defaulted, DefinedByMarker, Explicit, ObjectIdentifier, ParseResult,
    SimpleAsn1Readable, SimpleAsn1Writable, Tag, WriteBuf, WriteError, WriteResult, fields_length,
    known_fields, read_fields, write_fields,
};
use std::alloc::Global;

/// The version that an entry has if it states none.
pub struct One;

impl DefaultValue<Explicit<u8, 0>> for One {
    ghost default = { record { inner = 1 } };

    fn value() -> Explicit<u8, 0> {
        Explicit::new(1)
    }
}

/// An OBJECT IDENTIFIER and the content that it defines, a note that may be missing, and a version, 1 by default.
#[derive(Debug, Clone, PartialEq, Eq, Hash, Drop)]
pub struct Entry {
    /// The OBJECT IDENTIFIER, which the content tells.
    pub content_type: DefinedByMarker<ObjectIdentifier>,
    /// The content.
    pub content: Content,
    /// A note, which may be missing.
    pub note: Option<bool>,
    /// The version, under the explicit tag 0.
    pub version: u8,
}

type Version = Defaulted<Explicit<u8, 0>, One>;

type Fields = Item<ObjectIdentifier, Value<Content, Fields2<Option<bool>, Version>>>;

impl Asn1Type for Entry {
    ghost der = { structure (λ v. record {
      value = v.content_type;
      rest = record {
        value =
            v.content;
        rest = fields2 v.note (defaulted (explicit v.version));
      };
    })
        ⟦<Fields as Row>⟧.list
        (field_names "Entry" ("content_type" ∷ "content" ∷ "note" ∷ "version" ∷ [])) };

    fn known(&self) {
        known_fields!(self;
            content_type of content: ObjectIdentifier, content by ObjectIdentifier, note,
            version: Version)
    }
}

impl<'a> SimpleAsn1Readable<'a> for Entry {
    fn tag() -> Tag {
        Tag::constructed(0x10)
    }

    fn parse_data(alloc: Global, data: &'a [u8]) -> ParseResult<Entry> {
        read_fields!(Fields, alloc, data => Entry; content_type, content, note, version: Version)
    }
}

impl SimpleAsn1Writable for Entry {
    type Error = WriteError;

    fn tag() -> Tag {
        Tag::constructed(0x10)
    }

    fn write_data(&self, dest: &mut WriteBuf) -> WriteResult<()> {
        write_fields!(self, dest;
            content_type of content: ObjectIdentifier, content by ObjectIdentifier, note,
            version: Version)
    }

    fn data_length(&self) -> Option<usize> {
        fields_length!(self;
            content_type of content: ObjectIdentifier, content by ObjectIdentifier, note,
            version: Version)
    }
}
