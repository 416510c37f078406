//! Values that an item before them defines: each attribute of the original's derives for them, once.
// Printed by tools/derive from declarations/items.rs, with the sum c35480a0.

ghost use Rattle.std.specs.Prelude.{◌≡◌, ◌⊎◌, ◌∷◌, [], true, false, ⊤, IsTrue, MatchOption, OnErr};
ghost use Rattle.std.specs.Str.{bytes_eq};
ghost use Rattle.std.proofs.Common.{inl, inr};
ghost use Rattle.asn1.specs.IdentifierValues.{identifier_of};
ghost use Rattle.asn1.specs.ItemsAndValues.{by_item, word_for_word};
ghost use Rattle.asn1.specs.Options.{option_meaning};
ghost use Rattle.asn1.specs.Reading.{EndsWith};
ghost use Rattle.asn1.specs.Reads.{HasOneEncoding, ReadsContents, ReadsDefined};
ghost use Rattle.asn1.specs.Structures.{defaulted, explicit, field_names, implicit, structure, fields1};
ghost use Rattle.asn1.specs.Variants.{any_variant, identifier_with, or_variant, variant};
ghost use Rattle.derived_tests.specs.declared.items.TheConstants.{OTHER_OID_NUMBERS, SHA256_WITH_RSA_NUMBERS};
ghost use Rattle.derived_tests.specs.declared.items.TheConstants.{SOME_OID_NUMBERS};

use super::page::Tagged;
use super::tags::Either;
use asn1::fields::{
    Before, DefinedField, Field, Item, Last, LastValue, Row, Value, explicit_length, is_identifier,
    known_identifier, write_explicit,
};
use asn1::{
    Asn1DefinedBy, Asn1DefinedByReadable, Asn1DefinedByWritable, Asn1Type, Asn1Writable,
    DefaultValue, Defaulted, DefinedByMarker, Explicit, Implicit, Null, ObjectIdentifier,
    OctetStringEncoded, ParseError, ParseErrorKind, ParseResult, Parser, SequenceOf,
    SimpleAsn1Readable, SimpleAsn1Writable, Tag, Tlv, WriteBuf, WriteError, WriteResult, Writer,
    fields_length, known_fields, read_fields, write_fields,
};
use std::alloc::{AllocError, Global};

/// The numbers of [`some_oid`], as they are encoded: the first means two.
pub const SOME_OID_NUMBERS: [u64; 2] = [42, 3];

/// The identifier 1.2.3.
pub fn some_oid() -> ObjectIdentifier
    ensures { identifier_of result ≡ SOME_OID_NUMBERS }
{
    known_identifier(b"\x2a\x03")
}

/// The numbers of [`sha256_with_rsa`], as they are encoded: the first means two.
pub const SHA256_WITH_RSA_NUMBERS: [u64; 6] = [42, 840, 113549, 1, 1, 11];

/// RSA with SHA-256 (RFC 8017).
pub fn sha256_with_rsa() -> ObjectIdentifier
    ensures { identifier_of result ≡ SHA256_WITH_RSA_NUMBERS }
{
    known_identifier(b"\x2a\x86\x48\x86\xf7\x0d\x01\x01\x0b")
}

/// The numbers of [`other_oid`], as they are encoded: the first means two.
pub const OTHER_OID_NUMBERS: [u64; 2] = [42, 4];

/// The identifier 1.2.4.
pub fn other_oid() -> ObjectIdentifier
    ensures { identifier_of result ≡ OTHER_OID_NUMBERS }
{
    known_identifier(b"\x2a\x04")
}

/// An identifier, and what it defines.
#[derive(PartialEq, Drop)]
pub struct MySequence {
    /// The identifier, which the content tells.
    pub content_type: DefinedByMarker<ObjectIdentifier>,
    /// The content.
    pub content: Content,
}

type MySequenceFields = Item<ObjectIdentifier, LastValue<Content>>;

impl Asn1Type for MySequence {
    ghost der = { structure (λ v. record {
      value = v.content_type;
      rest = record {
        value = v.content;
      };
    }) ⟦<MySequenceFields as Row>⟧.list (field_names "MySequence" ("content_type" ∷
        "content" ∷ [])) };

    fn known(&self) {
        known_fields!(self; content_type of content: ObjectIdentifier, content by ObjectIdentifier)
    }
}

impl<'a> SimpleAsn1Readable<'a> for MySequence {
    fn tag() -> Tag {
        Tag::constructed(0x10)
    }

    fn parse_data(alloc: Global, data: &'a [u8]) -> ParseResult<MySequence> {
        read_fields!(MySequenceFields, alloc, data => MySequence;
            content_type of content: ObjectIdentifier, content by ObjectIdentifier)
    }
}

impl SimpleAsn1Writable for MySequence {
    type Error = WriteError;

    ghost length_known = { λ _. Unit {0} };

    fn tag() -> Tag {
        Tag::constructed(0x10)
    }

    fn write_data(&self, dest: &mut WriteBuf) -> WriteResult<()> {
        write_fields!(self, dest;
            content_type of content: ObjectIdentifier, content by ObjectIdentifier)
    }

    fn data_length(&self) -> Option<usize> {
        fields_length!(self; content_type of content: ObjectIdentifier, content by ObjectIdentifier)
    }

    fn writes_as_read() -> bool {
        true
    }
}

/// What an identifier defines that is one of two.
#[derive(PartialEq, Drop)]
pub enum Content {
    /// A number.
    SomeVariant(i32),
    /// Parameters that are null (RFC 8017, A.2.4).
    RsaParameters(Null),
}

impl Asn1DefinedBy<ObjectIdentifier> for Content {
    ghost use Rattle.derived_tests.specs.declared.items.Content.TheVariants.{SomeVariant, RsaParameters};

    ghost by = { by_item (record {
      item = ⟦<ObjectIdentifier as Asn1Type>⟧.der;
      value = or_variant (identifier_with SOME_OID_NUMBERS) ⟦<i32 as Asn1Type>⟧.der (variant
          (identifier_with SHA256_WITH_RSA_NUMBERS) ⟦<Null as Asn1Type>⟧.der (λ m. m)) (elim [
            | SomeVariant x ↦ inl (⟦<i32 as Asn1Type>⟧.der.meaning x)
            | RsaParameters x ↦ inr (⟦<Null as Asn1Type>⟧.der.meaning x)
          ]);
    }) };

    fn known_by(&self) {
        match self {
            Content::SomeVariant(x) => x.known(),
            Content::RsaParameters(x) => x.known(),
        }
    }
}

impl DefinedField<ObjectIdentifier> for Content {
    ghost both = { record {
      item = ⟦<ObjectIdentifier as Asn1Type>⟧.der;
      value = ⟦<Content as Asn1DefinedBy<ObjectIdentifier>>⟧.by.means;
    } };

    fn known_item(&self) {
        match self {
            Content::SomeVariant(_) => some_oid().known(),
            Content::RsaParameters(_) => sha256_with_rsa().known(),
        }
    }

    ghost agrees = { word_for_word _ };
}

impl<'a> Asn1DefinedByReadable<'a, ObjectIdentifier> for Content {
    fn parse(item: ObjectIdentifier, parser: &mut Parser<'a>) -> ParseResult<Content> {
        if is_identifier(&item, some_oid()) {
            return Ok(Content::SomeVariant(parser.read_element::<i32>()?));
        }
        if is_identifier(&item, sha256_with_rsa()) {
            return Ok(Content::RsaParameters(parser.read_element::<Null>()?));
        }
        Err(ParseError::new(ParseErrorKind::UnknownDefinedBy))
    }

    fn one_encoding() {}
}

impl Asn1DefinedByWritable<ObjectIdentifier> for Content {
    type Error = WriteError;

    ghost length_known_by = { λ _. Unit {0} };

    fn item(&self) -> ObjectIdentifier {
        match self {
            Content::SomeVariant(_) => some_oid(),
            Content::RsaParameters(_) => sha256_with_rsa(),
        }
    }

    fn write(&self, dest: &mut Writer<'_>) -> WriteResult<()> {
        match self {
            Content::SomeVariant(x) => x.write(dest),
            Content::RsaParameters(x) => x.write(dest),
        }
    }

    fn encoded_length(&self) -> Option<usize> {
        match self {
            Content::SomeVariant(x) => x.encoded_length(),
            Content::RsaParameters(x) => x.encoded_length(),
        }
    }
}

/// An item that no other variant of `AnyContent` is for, and the value.
#[derive(PartialEq, Drop)]
pub struct AnyContentUnknown<'a> {
    item: ObjectIdentifier,
    value: Tlv<'a>,
    pub ghost is_not_some_oid: { bytes_eq (identifier_of item) SOME_OID_NUMBERS ≡ false },
    pub ghost is_not_other_oid: { bytes_eq (identifier_of item) OTHER_OID_NUMBERS ≡ false },
    pub ghost is_not_sha256_with_rsa: { bytes_eq (identifier_of item) SHA256_WITH_RSA_NUMBERS ≡
        false },
}

impl<'a> AnyContentUnknown<'a> {
    /// Of this item and this value; `None` if another variant is for the item.
    pub fn new(item: ObjectIdentifier, value: Tlv<'a>) -> Option<AnyContentUnknown<'a>>
        ensures { MatchOption result ((bytes_eq (identifier_of item) SOME_OID_NUMBERS ≡ true) ⊎
            ((bytes_eq (identifier_of item) OTHER_OID_NUMBERS ≡ true) ⊎ (bytes_eq (identifier_of
            item) SHA256_WITH_RSA_NUMBERS ≡ true))) (λ v. (v.item ≡ item) × (v.value ≡
            value.entry)) }
    {
        if is_identifier(&item, some_oid())
            || is_identifier(&item, other_oid())
            || is_identifier(&item, sha256_with_rsa())
        {
            return None;
        }
        Some(AnyContentUnknown { item, value })
    }

    /// The item.
    pub fn item(&self) -> &ObjectIdentifier
        ensures { result.now ≡ self.now.item }
    {
        &self.item
    }

    /// The value.
    pub fn value(&self) -> Tlv<'a>
        ensures { result ≡ self.now.value }
    {
        self.value
    }
}

impl<'a> Clone for AnyContentUnknown<'a> {
    ghost is_clone = { λ x y. (identifier_of y.item ≡ identifier_of x.item) × (y.value ≡ x.value) };

    ghost is_infallible = { λ _. ⊤ };

    fn clone(&self) -> Result<AnyContentUnknown<'a>, AllocError> {
        Ok(AnyContentUnknown {
            item: self.item.clone()?,
            value: self.value,
        })
    }
}

/// What any identifier defines.
#[derive(Clone, PartialEq, Drop)]
pub enum AnyContent<'a> {
    /// Fields with tags, whose encoding is in an octet string.
    Tagged(OctetStringEncoded<Tagged<'a>>),
    /// Numbers under a tag around the list's own.
    Numbers(SequenceOf<'a, u64, 0, { usize::MAX }>),
    /// A flag, or none.
    Flag(Option<bool>),
    /// Every other identifier, and its value.
    Unknown(AnyContentUnknown<'a>),
}

impl<'a> Asn1DefinedBy<ObjectIdentifier> for AnyContent<'a> {
    ghost use Rattle.derived_tests.specs.declared.items.AnyContent.TheVariants.{Tagged, Numbers, Flag, Unknown};

    ghost by = { by_item (record {
      item = ⟦<ObjectIdentifier as Asn1Type>⟧.der;
      value = or_variant (identifier_with SOME_OID_NUMBERS)
          ⟦<OctetStringEncoded<Tagged<'a>> as Asn1Type>⟧.der (or_variant (identifier_with
          OTHER_OID_NUMBERS)
          ⟦<Explicit<SequenceOf<'a, u64, 0, 18446744073709551615>, 1> as Asn1Type>⟧.der (or_variant
          (identifier_with SHA256_WITH_RSA_NUMBERS) ⟦<Option<bool> as Asn1Type>⟧.der (any_variant
          ⟦<Tlv<'a> as Asn1Type>⟧.der (λ m. m)) (λ m. m)) (λ m. m)) (elim [
            | Tagged x ↦ inl
                (⟦<OctetStringEncoded<Tagged<'a>> as Asn1Type>⟧.der.meaning x)
            | Numbers x ↦ inr (inl
                (⟦<SequenceOf<'a, u64, 0, 18446744073709551615> as Asn1Type>⟧.der.meaning x))
            | Flag x ↦ inr (inr (inl (⟦<Option<bool> as Asn1Type>⟧.der.meaning x)))
            | Unknown x ↦ inr (inr (inr (
              ⟦<ObjectIdentifier as Asn1Type>⟧.der.meaning x.item,
              ⟦<Tlv<'a> as Asn1Type>⟧.der.meaning x.value,
            )))
          ]);
    }) };

    fn known_by(&self) {
        match self {
            AnyContent::Tagged(x) => x.known(),
            AnyContent::Numbers(x) => x.known(),
            AnyContent::Flag(x) => x.known(),
            AnyContent::Unknown(x) => x.value.known(),
        }
    }
}

impl<'a> DefinedField<ObjectIdentifier> for AnyContent<'a> {
    ghost both = { record {
      item = ⟦<ObjectIdentifier as Asn1Type>⟧.der;
      value = ⟦<AnyContent<'a> as Asn1DefinedBy<ObjectIdentifier>>⟧.by.means;
    } };

    fn known_item(&self) {
        match self {
            AnyContent::Tagged(_) => some_oid().known(),
            AnyContent::Numbers(_) => other_oid().known(),
            AnyContent::Flag(_) => sha256_with_rsa().known(),
            AnyContent::Unknown(x) => x.item.known(),
        }
    }

    ghost agrees = { word_for_word _ };
}

impl<'a> Asn1DefinedByReadable<'a, ObjectIdentifier> for AnyContent<'a> {
    fn parse(item: ObjectIdentifier, parser: &mut Parser<'a>) -> ParseResult<AnyContent<'a>>
        ensures answers { ReadsDefined ⟦<AnyContent<'a> as Asn1DefinedBy<ObjectIdentifier>>⟧.by item
            parser.old parser.new result }
        ensures rest { EndsWith parser.old parser.new }
        ensures stops { OnErr result
            (⟦<AnyContent<'a> as Asn1DefinedBy<ObjectIdentifier>>⟧.by.means.stops
            (⟦<AnyContent<'a> as Asn1DefinedBy<ObjectIdentifier>>⟧.by.seen item) parser.old
            parser.new) }
    {
        if is_identifier(&item, some_oid()) {
            return Ok(AnyContent::Tagged(parser.read_element::<OctetStringEncoded<Tagged<'a>>>()?));
        }
        if is_identifier(&item, other_oid()) {
            return Ok(AnyContent::Numbers(
                parser
                    .read_element::<Explicit<SequenceOf<'a, u64, 0, { usize::MAX }>, 1>>()?
                    .into_inner(),
            ));
        }
        if is_identifier(&item, sha256_with_rsa()) {
            return Ok(AnyContent::Flag(parser.read_element::<Option<bool>>()?));
        }
        Ok(AnyContent::Unknown(AnyContentUnknown {
            item,
            value: parser.read_element::<Tlv<'a>>()?,
        }))
    }

    fn one_encoding()
        ensures plain { ⟦<AnyContent<'a> as Asn1DefinedBy<ObjectIdentifier>>⟧.by.means.plain }
        ensures read { ⟦<AnyContent<'a> as Asn1DefinedBy<ObjectIdentifier>>⟧.by.means.is_read }
    {}
}

impl<'a> Asn1DefinedByWritable<ObjectIdentifier> for AnyContent<'a> {
    type Error = WriteError;

    ghost use Rattle.derived_tests.specs.declared.items.AnyContent.TheVariants.{Tagged, Numbers, Flag, Unknown};

    ghost length_known_by = { elim [
      | Tagged x ↦
          ⟦<OctetStringEncoded<Tagged<'a>> as Asn1Writable>⟧.length_known x
      | Numbers x ↦ Unit {0}
      | Flag x ↦ Unit {0}
      | Unknown x ↦ Unit {0}
    ] };

    fn item(&self) -> ObjectIdentifier {
        match self {
            AnyContent::Tagged(_) => some_oid(),
            AnyContent::Numbers(_) => other_oid(),
            AnyContent::Flag(_) => sha256_with_rsa(),
            AnyContent::Unknown(x) => x.item.clone().unwrap(),
        }
    }

    fn write(&self, dest: &mut Writer<'_>) -> WriteResult<()> {
        match self {
            AnyContent::Tagged(x) => x.write(dest),
            AnyContent::Numbers(x) => write_explicit(x, 1, dest),
            AnyContent::Flag(x) => x.write(dest),
            AnyContent::Unknown(x) => x.value.write(dest),
        }
    }

    fn encoded_length(&self) -> Option<usize> {
        match self {
            AnyContent::Tagged(x) => x.encoded_length(),
            AnyContent::Numbers(x) => explicit_length(x, 1),
            AnyContent::Flag(x) => x.encoded_length(),
            AnyContent::Unknown(x) => x.value.encoded_length(),
        }
    }
}

/// An identifier, and what it defines, whatever it is.
#[derive(Drop)]
pub struct AnySequence<'a> {
    /// The identifier, which the content tells.
    pub content_type: DefinedByMarker<ObjectIdentifier>,
    /// The content.
    pub content: AnyContent<'a>,
}

type AnySequenceFields<'a> = Item<ObjectIdentifier, LastValue<AnyContent<'a>>>;

impl<'a> Asn1Type for AnySequence<'a> {
    ghost der = { structure (λ v. record {
      value = v.content_type;
      rest = record {
        value = v.content;
      };
    }) ⟦<AnySequenceFields<'a> as Row>⟧.list (field_names "AnySequence" ("content_type"
        ∷ "content" ∷ [])) };

    fn known(&self) {
        known_fields!(self; content_type of content: ObjectIdentifier, content by ObjectIdentifier)
    }
}

impl<'a> SimpleAsn1Readable<'a> for AnySequence<'a> {
    fn tag() -> Tag
        ensures value { result ≡ ⟦<AnySequence<'a> as Asn1Type>⟧.der.content.tag }
        ensures simple { ⟦<AnySequence<'a> as Asn1Type>⟧.der.is_simple }
        ensures plain { ⟦<AnySequence<'a> as Asn1Type>⟧.der.plain }
        ensures read { ⟦<AnySequence<'a> as Asn1Type>⟧.der.is_read }
    {
        Tag::constructed(0x10)
    }

    fn parse_data(alloc: Global, data: &'a [u8]) -> ParseResult<AnySequence<'a>>
        ensures { ReadsContents ⟦<AnySequence<'a> as Asn1Type>⟧.der «data».entry.now result }
    {
        read_fields!(AnySequenceFields<'a>, alloc, data => AnySequence;
            content_type of content: ObjectIdentifier, content by ObjectIdentifier)
    }
}

impl<'a> SimpleAsn1Writable for AnySequence<'a> {
    type Error = WriteError;

    ghost length_known = { λ v.
        ⟦<AnyContent<'a> as Asn1DefinedByWritable<ObjectIdentifier>>⟧.length_known_by v.content };

    fn tag() -> Tag
        ensures value { result ≡ ⟦<AnySequence<'a> as Asn1Type>⟧.der.content.tag }
        ensures simple { ⟦<AnySequence<'a> as Asn1Type>⟧.der.is_simple }
    {
        Tag::constructed(0x10)
    }

    fn write_data(&self, dest: &mut WriteBuf) -> WriteResult<()> {
        write_fields!(self, dest;
            content_type of content: ObjectIdentifier, content by ObjectIdentifier)
    }

    fn data_length(&self) -> Option<usize> {
        fields_length!(self; content_type of content: ObjectIdentifier, content by ObjectIdentifier)
    }

    fn writes_as_read() -> bool
        ensures { IsTrue result }
    {
        true
    }
}

/// Two fields between an identifier and what it defines, one before both, and one after.
#[derive(PartialEq, Drop)]
pub struct Letter {
    /// A number.
    pub number: u64,
    /// The identifier, which the content tells.
    pub kind: DefinedByMarker<ObjectIdentifier>,
    /// Whether the content has to be known, false by default.
    pub critical: bool,
    /// How often it was sent.
    pub sent: Option<u8>,
    /// The content.
    pub content: Content,
    /// Whether it was read.
    pub is_read: bool,
}

/// What `critical` is if it is left out.
pub struct LetterCritical;

impl DefaultValue<bool> for LetterCritical {
    ghost default = { false };

    fn value() -> bool {
        false
    }
}

type LetterCriticalField = Defaulted<bool, LetterCritical>;

type LetterSentField = Option<Implicit<u8, 0>>;

type LetterFields = Field<
    u64,
    Item<
        ObjectIdentifier,
        Before<LetterCriticalField, Before<LetterSentField, Value<Content, Last<bool>>>>,
    >,
>;

macro_rules! fields_of_letter {
    ($body:ident, $($of:tt)*) => { $body!($($of)*;
        number, kind of content: ObjectIdentifier, critical: LetterCriticalField,
        sent: LetterSentField, content by ObjectIdentifier, is_read) };
}

impl Asn1Type for Letter {
    ghost der = { structure (λ v. record {
      value = v.number;
      rest = record {
        value = v.kind;
        rest = record {
          value = defaulted v.critical;
          rest = record {
            value = option_meaning implicit v.sent;
            rest = record {
              value = v.content;
              rest = fields1 v.is_read;
            };
          };
        };
      };
    }) ⟦<LetterFields as Row>⟧.list (field_names "Letter" ("number" ∷ "kind" ∷
        "critical" ∷ "sent" ∷ "content" ∷ "is_read" ∷ [])) };

    fn known(&self) {
        fields_of_letter!(known_fields, self)
    }
}

impl<'a> SimpleAsn1Readable<'a> for Letter {
    fn tag() -> Tag {
        Tag::constructed(0x10)
    }

    fn parse_data(alloc: Global, data: &'a [u8]) -> ParseResult<Letter> {
        fields_of_letter!(read_fields, LetterFields, alloc, data => Letter)
    }
}

impl SimpleAsn1Writable for Letter {
    type Error = WriteError;

    ghost length_known = { λ _. Unit {0} };

    fn tag() -> Tag {
        Tag::constructed(0x10)
    }

    fn write_data(&self, dest: &mut WriteBuf) -> WriteResult<()> {
        fields_of_letter!(write_fields, self, dest)
    }

    fn data_length(&self) -> Option<usize> {
        fields_of_letter!(fields_length, self)
    }

    fn writes_as_read() -> bool {
        true
    }
}

/// An item that no other variant of `Listed` is for, and the value.
#[derive(PartialEq, Drop)]
pub struct ListedUnknown<'a> {
    item: ObjectIdentifier,
    value: Tlv<'a>,
    pub ghost is_not_some_oid: { bytes_eq (identifier_of item) SOME_OID_NUMBERS ≡ false },
}

impl<'a> ListedUnknown<'a> {
    /// Of this item and this value; `None` if another variant is for the item.
    pub fn new(item: ObjectIdentifier, value: Tlv<'a>) -> Option<ListedUnknown<'a>>
        ensures { MatchOption result (bytes_eq (identifier_of item) SOME_OID_NUMBERS ≡ true) (λ v.
            (v.item ≡ item) × (v.value ≡ value.entry)) }
    {
        if is_identifier(&item, some_oid()) {
            return None;
        }
        Some(ListedUnknown { item, value })
    }

    /// The item.
    pub fn item(&self) -> &ObjectIdentifier
        ensures { result.now ≡ self.now.item }
    {
        &self.item
    }

    /// The value.
    pub fn value(&self) -> Tlv<'a>
        ensures { result ≡ self.now.value }
    {
        self.value
    }
}

/// A number, or any other content.
#[derive(PartialEq, Drop)]
pub enum Listed<'a> {
    /// A number.
    Number(i32),
    /// Every other identifier, and its value.
    Unknown(ListedUnknown<'a>),
}

impl<'a> Asn1DefinedBy<ObjectIdentifier> for Listed<'a> {
    ghost use Rattle.derived_tests.specs.declared.items.Listed.TheVariants.{Number, Unknown};

    ghost by = { by_item (record {
      item = ⟦<ObjectIdentifier as Asn1Type>⟧.der;
      value = or_variant (identifier_with SOME_OID_NUMBERS) ⟦<i32 as Asn1Type>⟧.der (any_variant
          ⟦<Tlv<'a> as Asn1Type>⟧.der (λ m. m)) (elim [
            | Number x ↦ inl
                (⟦<i32 as Asn1Type>⟧.der.meaning x)
            | Unknown x ↦ inr (
              ⟦<ObjectIdentifier as Asn1Type>⟧.der.meaning x.item,
              ⟦<Tlv<'a> as Asn1Type>⟧.der.meaning x.value,
            )
          ]);
    }) };

    fn known_by(&self) {
        match self {
            Listed::Number(x) => x.known(),
            Listed::Unknown(x) => x.value.known(),
        }
    }
}

impl<'a> DefinedField<ObjectIdentifier> for Listed<'a> {
    ghost both = { record {
      item = ⟦<ObjectIdentifier as Asn1Type>⟧.der;
      value = ⟦<Listed<'a> as Asn1DefinedBy<ObjectIdentifier>>⟧.by.means;
    } };

    fn known_item(&self) {
        match self {
            Listed::Number(_) => some_oid().known(),
            Listed::Unknown(x) => x.item.known(),
        }
    }

    ghost agrees = { word_for_word _ };
}

impl<'a> Asn1DefinedByReadable<'a, ObjectIdentifier> for Listed<'a> {
    fn parse(item: ObjectIdentifier, parser: &mut Parser<'a>) -> ParseResult<Listed<'a>>
        ensures answers { ReadsDefined ⟦<Listed<'a> as Asn1DefinedBy<ObjectIdentifier>>⟧.by item
            parser.old parser.new result }
        ensures rest { EndsWith parser.old parser.new }
        ensures stops { OnErr result
            (⟦<Listed<'a> as Asn1DefinedBy<ObjectIdentifier>>⟧.by.means.stops
            (⟦<Listed<'a> as Asn1DefinedBy<ObjectIdentifier>>⟧.by.seen item) parser.old
            parser.new) }
    {
        if is_identifier(&item, some_oid()) {
            return Ok(Listed::Number(parser.read_element::<i32>()?));
        }
        Ok(Listed::Unknown(ListedUnknown {
            item,
            value: parser.read_element::<Tlv<'a>>()?,
        }))
    }

    fn one_encoding()
        ensures plain { ⟦<Listed<'a> as Asn1DefinedBy<ObjectIdentifier>>⟧.by.means.plain }
        ensures read { ⟦<Listed<'a> as Asn1DefinedBy<ObjectIdentifier>>⟧.by.means.is_read }
    {}
}

impl<'a> Asn1DefinedByWritable<ObjectIdentifier> for Listed<'a> {
    type Error = WriteError;

    ghost length_known_by = { λ _. Unit {0} };

    fn item(&self) -> ObjectIdentifier {
        match self {
            Listed::Number(_) => some_oid(),
            Listed::Unknown(x) => x.item.clone().unwrap(),
        }
    }

    fn write(&self, dest: &mut Writer<'_>) -> WriteResult<()> {
        match self {
            Listed::Number(x) => x.write(dest),
            Listed::Unknown(x) => x.value.write(dest),
        }
    }

    fn encoded_length(&self) -> Option<usize> {
        match self {
            Listed::Number(x) => x.encoded_length(),
            Listed::Unknown(x) => x.value.encoded_length(),
        }
    }
}

/// An identifier, what it defines under a tag, and a note.
#[derive(PartialEq, Drop)]
pub struct Entry<'a> {
    /// The identifier, which the content tells.
    pub kind: DefinedByMarker<ObjectIdentifier>,
    /// The content.
    pub listed: Explicit<Listed<'a>, 3>,
    /// A note, which may be missing.
    pub note: Option<bool>,
}

type EntryFields<'a> = Item<ObjectIdentifier, Value<Explicit<Listed<'a>, 3>, Last<Option<bool>>>>;

impl<'a> Asn1Type for Entry<'a> {
    ghost der = { structure (λ v. record {
      value = v.kind;
      rest = record {
        value = v.listed;
        rest = fields1 v.note;
      };
    }) ⟦<EntryFields<'a> as Row>⟧.list (field_names "Entry" ("kind" ∷ "listed" ∷ "note"
        ∷ [])) };

    fn known(&self) {
        known_fields!(self; kind of listed: ObjectIdentifier, listed by ObjectIdentifier, note)
    }
}

impl<'a> SimpleAsn1Readable<'a> for Entry<'a> {
    fn tag() -> Tag
        ensures value { result ≡ ⟦<Entry<'a> as Asn1Type>⟧.der.content.tag }
        ensures simple { ⟦<Entry<'a> as Asn1Type>⟧.der.is_simple }
        ensures plain { ⟦<Entry<'a> as Asn1Type>⟧.der.plain }
        ensures read { ⟦<Entry<'a> as Asn1Type>⟧.der.is_read }
    {
        Tag::constructed(0x10)
    }

    fn parse_data(alloc: Global, data: &'a [u8]) -> ParseResult<Entry<'a>>
        ensures { ReadsContents ⟦<Entry<'a> as Asn1Type>⟧.der «data».entry.now result }
    {
        read_fields!(EntryFields<'a>, alloc, data => Entry;
            kind of listed: ObjectIdentifier, listed by ObjectIdentifier, note)
    }
}

impl<'a> SimpleAsn1Writable for Entry<'a> {
    type Error = WriteError;

    ghost length_known = { λ _. Unit {0} };

    fn tag() -> Tag
        ensures value { result ≡ ⟦<Entry<'a> as Asn1Type>⟧.der.content.tag }
        ensures simple { ⟦<Entry<'a> as Asn1Type>⟧.der.is_simple }
    {
        Tag::constructed(0x10)
    }

    fn write_data(&self, dest: &mut WriteBuf) -> WriteResult<()> {
        write_fields!(self, dest;
            kind of listed: ObjectIdentifier, listed by ObjectIdentifier, note)
    }

    fn data_length(&self) -> Option<usize> {
        fields_length!(self; kind of listed: ObjectIdentifier, listed by ObjectIdentifier, note)
    }

    fn writes_as_read() -> bool
        ensures { IsTrue result }
    {
        true
    }
}

/// What may be missing between an identifier and what it defines, behind a choice.
#[derive(PartialEq, Drop)]
pub struct Order<'a> {
    /// The identifier, which the content tells.
    pub kind: DefinedByMarker<ObjectIdentifier>,
    /// Octets or none.
    pub by: Either<'a>,
    /// A number.
    pub number: Option<u8>,
    /// Octets or none.
    pub from: Option<Either<'a>>,
    /// Octets.
    pub octets: Option<&'a [u8]>,
    /// A letter.
    pub letter: Option<Letter>,
    /// Whether.
    pub flag: Option<bool>,
    /// Another number.
    pub count: Option<u64>,
    /// The content.
    pub content: Content,
}

type OrderNumberField = Option<Explicit<u8, 0>>;

type OrderFromField<'a> = Option<Explicit<Either<'a>, 1>>;

type OrderOctetsField<'a> = Option<Implicit<&'a [u8], 2>>;

type OrderLetterField = Option<Explicit<Letter, 3>>;

type OrderFlagField = Option<Implicit<bool, 4>>;

type OrderCountField = Option<Implicit<u64, 5>>;

type OrderFields<'a> = Item<
    ObjectIdentifier,
    Before<
        Either<'a>,
        Before<
            OrderNumberField,
            Before<
                OrderFromField<'a>,
                Before<
                    OrderOctetsField<'a>,
                    Before<
                        OrderLetterField,
                        Before<OrderFlagField, Before<OrderCountField, LastValue<Content>>>,
                    >,
                >,
            >,
        >,
    >,
>;

macro_rules! fields_of_order {
    ($body:ident, $($of:tt)*) => { $body!($($of)*;
        kind of content: ObjectIdentifier, by, number: OrderNumberField, from: OrderFromField<'a>,
        octets: OrderOctetsField<'a>, letter: OrderLetterField, flag: OrderFlagField,
        count: OrderCountField, content by ObjectIdentifier) };
}

impl<'a> Asn1Type for Order<'a> {
    ghost der = { structure (λ v. record {
      value = v.kind;
      rest = record {
        value = v.by;
        rest = record {
          value = option_meaning explicit v.number;
          rest = record {
            value = option_meaning explicit v.from;
            rest = record {
              value = option_meaning implicit v.octets;
              rest = record {
                value = option_meaning explicit v.letter;
                rest = record {
                  value = option_meaning implicit v.flag;
                  rest = record {
                    value = option_meaning implicit v.count;
                    rest = record {
                      value = v.content;
                    };
                  };
                };
              };
            };
          };
        };
      };
    }) ⟦<OrderFields<'a> as Row>⟧.list (field_names "Order" ("kind" ∷ "by" ∷ "number" ∷
        "from" ∷ "octets" ∷ "letter" ∷ "flag" ∷ "count" ∷ "content" ∷ [])) };

    fn known(&self) {
        fields_of_order!(known_fields, self)
    }
}

impl<'a> SimpleAsn1Readable<'a> for Order<'a> {
    fn tag() -> Tag
        ensures value { result ≡ ⟦<Order<'a> as Asn1Type>⟧.der.content.tag }
        ensures simple { ⟦<Order<'a> as Asn1Type>⟧.der.is_simple }
        ensures plain { ⟦<Order<'a> as Asn1Type>⟧.der.plain }
        ensures read { ⟦<Order<'a> as Asn1Type>⟧.der.is_read }
    {
        Tag::constructed(0x10)
    }

    fn parse_data(alloc: Global, data: &'a [u8]) -> ParseResult<Order<'a>>
        ensures { ReadsContents ⟦<Order<'a> as Asn1Type>⟧.der «data».entry.now result }
    {
        fields_of_order!(read_fields, OrderFields<'a>, alloc, data => Order)
    }
}

impl<'a> SimpleAsn1Writable for Order<'a> {
    type Error = WriteError;

    ghost length_known = { λ v. ⟦<Either<'a> as Asn1Writable>⟧.length_known v.by ×
        ⟦<Option<Explicit<Either<'a>, 1>> as Asn1Writable>⟧.length_known (option_meaning explicit
        v.from) };

    fn tag() -> Tag
        ensures value { result ≡ ⟦<Order<'a> as Asn1Type>⟧.der.content.tag }
        ensures simple { ⟦<Order<'a> as Asn1Type>⟧.der.is_simple }
    {
        Tag::constructed(0x10)
    }

    fn write_data(&self, dest: &mut WriteBuf) -> WriteResult<()> {
        fields_of_order!(write_fields, self, dest)
    }

    fn data_length(&self) -> Option<usize> {
        fields_of_order!(fields_length, self)
    }

    fn writes_as_read() -> bool
        ensures { IsTrue result }
    {
        true
    }
}

/// The laws of the types, which do nothing.
pub mod laws {
    use super::{AnySequence, Entry, Letter, MySequence, Order};
    use asn1::Asn1Type;

    /// Each value of `MySequence` has one encoding, which is read back.
    pub fn my_sequence_is_lawful()
        ensures { HasOneEncoding ⟦<MySequence as Asn1Type>⟧.der }
    {}

    /// Each value of `AnySequence` has one encoding, which is read back.
    pub fn any_sequence_is_lawful()
        ensures { HasOneEncoding ⟦<AnySequence<'static> as Asn1Type>⟧.der }
    {
        super::super::page::laws::tagged_is_lawful();
    }

    /// Each value of `Letter` has one encoding, which is read back.
    #[tactic(auto, using(asn1::specs::Lemmas::Fields::tags_differ))]
    pub fn letter_is_lawful()
        ensures { HasOneEncoding ⟦<Letter as Asn1Type>⟧.der }
    {}

    /// Each value of `Entry` has one encoding, which is read back.
    pub fn entry_is_lawful()
        ensures { HasOneEncoding ⟦<Entry<'static> as Asn1Type>⟧.der }
    {}

    /// Each value of `Order` has one encoding, which is read back.
    #[tactic(auto, using(asn1::specs::Lemmas::Fields::tags_differ))]
    pub fn order_is_lawful()
        ensures { HasOneEncoding ⟦<Order<'static> as Asn1Type>⟧.der }
    {
        super::super::tags::laws::either_is_lawful();
        letter_is_lawful();
    }
}
