//! Items that are numbers, and defaults that aren't literals: each form of the script for them, once.
// Printed by tools/derive from declarations/numbers.rs, with the sum f479848a.

ghost use Rattle.std.specs.Prelude.{◌≡◌, ◌⊎◌, ◌∷◌, [], pos, negsuc, nat_eq, true, false, ⊤, IsTrue, MatchOption, OnErr};
ghost use Rattle.std.specs.Cmp.{partial_equiv_from_equiv};
ghost use Rattle.std.specs.Ordering.{int_eq, on};
ghost use Rattle.std.proofs.Common.{inl, inr, refl, sym};
ghost use Rattle.std.proofs.lemmas.Bool.Decides.{Decides-int_eq};
ghost use Rattle.std.proofs.lemmas.Cmp.{nat_eq_equiv, on_equiv};
ghost use Rattle.asn1.specs.DefaultIdentifiers.{identifier_from};
ghost use Rattle.asn1.specs.Element.{element, element_encoding};
ghost use Rattle.asn1.specs.IdentifierValues.{identifier_of};
ghost use Rattle.asn1.specs.Integer.{integer_content};
ghost use Rattle.asn1.specs.ItemsAndValues.{by_item, word_for_word};
ghost use Rattle.asn1.specs.Lemmas.Equalities.{naturals_content_tells, naturals_tell, number_text, seen_tells};
ghost use Rattle.asn1.specs.Numbered.{numbered};
ghost use Rattle.asn1.specs.Reading.{EndsWith, Fits};
ghost use Rattle.asn1.specs.Reads.{HasOneEncoding, ReadsContents, ReadsDefined};
ghost use Rattle.asn1.specs.Structures.{defaulted, explicit, field_names, implicit, structure, fields4};
ghost use Rattle.asn1.specs.Tag.{universal};
ghost use Rattle.asn1.specs.Variants.{any_variant, or_variant};
ghost use Rattle.derived_tests.specs.declared.numbers.TheConstants.{SHA1_NUMBERS};

use asn1::fields::{
    DefinedField, Fields4, Item, LastValue, Row, explicit_length, known_identifier, write_explicit,
};
use asn1::{
    Asn1DefinedBy, Asn1DefinedByReadable, Asn1DefinedByWritable, Asn1Type, Asn1Writable,
    DefaultValue, Defaulted, DefinedByMarker, Explicit, Implicit, MeaningEq, Numbered,
    ObjectIdentifier, ParseResult, Parser, RelativeOid, SimpleAsn1Readable, SimpleAsn1Writable,
    SimpleMeaningEq, Tag, TeletexString, Tlv, WriteBuf, WriteError, WriteResult, Writer,
    fields_length, known_fields, known_number, read_fields, read_number, write_fields,
};
use std::alloc::{AllocError, Global};

/// A number (RFC 4120, 7.5.2: PA-ENC-TIMESTAMP).
pub const ENC_TIMESTAMP: i32 = 2;

/// Another (RFC 6113, 7.1: PA-FX-FAST).
pub const FX_FAST: i32 = 136;

/// A number below zero (RFC 4120, 7.5.2: they are for local use).
const LOCAL: i32 = -1;

/// The version.
pub(crate) const VERSION: u8 = 5;

/// An item that no other variant of `PaValue` is for, and the value.
#[derive(PartialEq, Drop)]
pub(crate) struct PaValueOther<'a> {
    item: i32,
    value: Tlv<'a>,
    pub ghost is_not_enc_timestamp: { int_eq item (pos 2) ≡ false },
    pub ghost is_not_fx_fast: { int_eq item (pos 136) ≡ false },
    pub ghost is_not_local: { int_eq item (negsuc 0) ≡ false },
}

impl<'a> PaValueOther<'a> {
    /// Of this item and this value; `None` if another variant is for the item.
    pub fn new(item: i32, value: Tlv<'a>) -> Option<PaValueOther<'a>>
        ensures { MatchOption result ((int_eq item (pos 2) ≡ true) ⊎ ((int_eq item (pos 136) ≡ true)
            ⊎ (int_eq item (negsuc 0) ≡ true))) (λ v. (v.item ≡ item) × (v.value ≡ value.entry)) }
    {
        if item == ENC_TIMESTAMP || item == FX_FAST || item == LOCAL {
            return None;
        }
        Some(PaValueOther { item, value })
    }

    /// The item.
    pub fn item(&self) -> &i32
        ensures { result.now ≡ self.now.item }
    {
        &self.item
    }

    /// The value.
    pub fn value(&self) -> Tlv<'a>
        ensures { result ≡ self.now.value }
    {
        self.value
    }
}

impl<'a> Clone for PaValueOther<'a> {
    ghost is_clone = { λ x y. (y.item ≡ x.item) × (y.value ≡ x.value) };

    ghost is_infallible = { λ _. ⊤ };

    fn clone(&self) -> Result<PaValueOther<'a>, AllocError> {
        Ok(PaValueOther {
            item: self.item,
            value: self.value,
        })
    }
}

/// What a number of an i32 defines.
#[derive(Clone, PartialEq, Drop)]
pub(crate) enum PaValue<'a> {
    /// A number.
    Timestamp(u64),
    /// Octets, under a tag.
    Fast(&'a [u8]),
    /// A flag.
    Local(bool),
    /// Every other number, and its value.
    Other(PaValueOther<'a>),
}

impl<'a> Asn1DefinedBy<i32> for PaValue<'a> {
    ghost use Rattle.derived_tests.specs.declared.numbers.PaValue.TheVariants.{Timestamp, Fast, Local, Other};

    ghost by = { by_item (record {
      item = ⟦<i32 as Asn1Type>⟧.der;
      value = or_variant (record {
        item = pos 2;
        is = λ n. int_eq n (pos 2);
        itself = refl;
        alone = λ n same. sym ((Decides-int_eq n (pos 2)).0 same);
      }) ⟦<u64 as Asn1Type>⟧.der (or_variant (record {
        item = pos 136;
        is = λ n. int_eq n (pos 136);
        itself = refl;
        alone = λ n same. sym ((Decides-int_eq n (pos 136)).0 same);
      }) ⟦<Explicit<&'a [u8], 0> as Asn1Type>⟧.der (or_variant (record {
        item = negsuc 0;
        is = λ n. int_eq n (negsuc 0);
        itself = refl;
        alone = λ n same. sym ((Decides-int_eq n (negsuc 0)).0 same);
      }) ⟦<bool as Asn1Type>⟧.der (any_variant ⟦<Tlv<'a> as Asn1Type>⟧.der (λ m. m)) (λ
          m. m)) (λ m. m)) (elim [
            | Timestamp x ↦ inl (⟦<u64 as Asn1Type>⟧.der.meaning x)
            | Fast x ↦ inr (inl (⟦<&'a [u8] as Asn1Type>⟧.der.meaning x))
            | Local x ↦ inr (inr (inl (⟦<bool as Asn1Type>⟧.der.meaning x)))
            | Other x ↦ inr (inr (inr (
              ⟦<i32 as Asn1Type>⟧.der.meaning x.item,
              ⟦<Tlv<'a> as Asn1Type>⟧.der.meaning x.value,
            )))
          ]);
    }) };

    fn known_by(&self) {
        match self {
            PaValue::Timestamp(x) => x.known(),
            PaValue::Fast(x) => x.known(),
            PaValue::Local(x) => x.known(),
            PaValue::Other(x) => x.value.known(),
        }
    }
}

impl<'a> DefinedField<i32> for PaValue<'a> {
    ghost both = { record {
      item = ⟦<i32 as Asn1Type>⟧.der;
      value = ⟦<PaValue<'a> as Asn1DefinedBy<i32>>⟧.by.means;
    } };

    fn known_item(&self) {
        match self {
            PaValue::Timestamp(_) => ENC_TIMESTAMP.known(),
            PaValue::Fast(_) => FX_FAST.known(),
            PaValue::Local(_) => LOCAL.known(),
            PaValue::Other(x) => x.item.known(),
        }
    }

    ghost agrees = { word_for_word _ };
}

impl<'a> Asn1DefinedByReadable<'a, i32> for PaValue<'a> {
    fn parse(item: i32, parser: &mut Parser<'a>) -> ParseResult<PaValue<'a>>
        ensures answers { ReadsDefined ⟦<PaValue<'a> as Asn1DefinedBy<i32>>⟧.by item parser.old
            parser.new result }
        ensures rest { EndsWith parser.old parser.new }
        ensures stops { OnErr result (⟦<PaValue<'a> as Asn1DefinedBy<i32>>⟧.by.means.stops
            (⟦<PaValue<'a> as Asn1DefinedBy<i32>>⟧.by.seen item) parser.old parser.new) }
    {
        if item == ENC_TIMESTAMP {
            return Ok(PaValue::Timestamp(parser.read_element::<u64>()?));
        }
        if item == FX_FAST {
            return Ok(PaValue::Fast(parser.read_element::<Explicit<&'a [u8], 0>>()?.into_inner()));
        }
        if item == LOCAL {
            return Ok(PaValue::Local(parser.read_element::<bool>()?));
        }
        Ok(PaValue::Other(PaValueOther {
            item,
            value: parser.read_element::<Tlv<'a>>()?,
        }))
    }

    fn one_encoding()
        ensures plain { ⟦<PaValue<'a> as Asn1DefinedBy<i32>>⟧.by.means.plain }
        ensures read { ⟦<PaValue<'a> as Asn1DefinedBy<i32>>⟧.by.means.is_read }
    {}
}

impl<'a> Asn1DefinedByWritable<i32> for PaValue<'a> {
    type Error = WriteError;

    ghost length_known_by = { λ _. Unit {0} };

    fn item(&self) -> i32 {
        match self {
            PaValue::Timestamp(_) => ENC_TIMESTAMP,
            PaValue::Fast(_) => FX_FAST,
            PaValue::Local(_) => LOCAL,
            PaValue::Other(x) => x.item,
        }
    }

    fn write(&self, dest: &mut Writer<'_>) -> WriteResult<()> {
        match self {
            PaValue::Timestamp(x) => x.write(dest),
            PaValue::Fast(x) => write_explicit(x, 0, dest),
            PaValue::Local(x) => x.write(dest),
            PaValue::Other(x) => x.value.write(dest),
        }
    }

    fn encoded_length(&self) -> Option<usize> {
        match self {
            PaValue::Timestamp(x) => x.encoded_length(),
            PaValue::Fast(x) => explicit_length(x, 0),
            PaValue::Local(x) => x.encoded_length(),
            PaValue::Other(x) => x.value.encoded_length(),
        }
    }
}

/// A number, and what it defines.
#[derive(PartialEq, Drop)]
pub(crate) struct PaData<'a> {
    /// The field.
    pub kind: DefinedByMarker<i32>,
    /// The field.
    pub value: PaValue<'a>,
}

type PaDataFields<'a> = Item<i32, LastValue<PaValue<'a>>>;

impl<'a> Asn1Type for PaData<'a> {
    ghost der = { structure (λ v. record {
      value = v.kind;
      rest = record {
        value = v.value;
      };
    }) ⟦<PaDataFields<'a> as Row>⟧.list (field_names "PaData" ("kind" ∷ "value" ∷
        [])) };

    fn known(&self) {
        known_fields!(self; kind of value: i32, value by i32)
    }
}

impl<'a> SimpleAsn1Readable<'a> for PaData<'a> {
    fn tag() -> Tag
        ensures value { result ≡ ⟦<PaData<'a> as Asn1Type>⟧.der.content.tag }
        ensures simple { ⟦<PaData<'a> as Asn1Type>⟧.der.is_simple }
        ensures plain { ⟦<PaData<'a> as Asn1Type>⟧.der.plain }
        ensures read { ⟦<PaData<'a> as Asn1Type>⟧.der.is_read }
    {
        Tag::constructed(0x10)
    }

    fn parse_data(alloc: Global, data: &'a [u8]) -> ParseResult<PaData<'a>>
        ensures { ReadsContents ⟦<PaData<'a> as Asn1Type>⟧.der «data».entry.now result }
    {
        read_fields!(PaDataFields<'a>, alloc, data => PaData; kind of value: i32, value by i32)
    }
}

impl<'a> SimpleAsn1Writable for PaData<'a> {
    type Error = WriteError;

    ghost length_known = { λ _. Unit {0} };

    fn tag() -> Tag
        ensures value { result ≡ ⟦<PaData<'a> as Asn1Type>⟧.der.content.tag }
        ensures simple { ⟦<PaData<'a> as Asn1Type>⟧.der.is_simple }
    {
        Tag::constructed(0x10)
    }

    fn write_data(&self, dest: &mut WriteBuf) -> WriteResult<()> {
        write_fields!(self, dest; kind of value: i32, value by i32)
    }

    fn data_length(&self) -> Option<usize> {
        fields_length!(self; kind of value: i32, value by i32)
    }

    fn writes_as_read() -> bool
        ensures { IsTrue result }
    {
        true
    }
}

/// An item that no other variant of `OfVersion` is for, and the value.
#[derive(PartialEq, Drop)]
pub(crate) struct OfVersionOther<'a> {
    item: u8,
    value: Tlv<'a>,
    pub ghost is_not_version: { nat_eq item 5 ≡ false },
}

impl<'a> OfVersionOther<'a> {
    /// Of this item and this value; `None` if another variant is for the item.
    pub fn new(item: u8, value: Tlv<'a>) -> Option<OfVersionOther<'a>>
        ensures { MatchOption result (nat_eq item 5 ≡ true) (λ v. (v.item ≡ item) × (v.value ≡
            value.entry)) }
    {
        if item == VERSION {
            return None;
        }
        Some(OfVersionOther { item, value })
    }

    /// The item.
    pub fn item(&self) -> &u8
        ensures { result.now ≡ self.now.item }
    {
        &self.item
    }

    /// The value.
    pub fn value(&self) -> Tlv<'a>
        ensures { result ≡ self.now.value }
    {
        self.value
    }
}

/// What the version alone defines.
#[derive(PartialEq, Drop)]
pub(crate) enum OfVersion<'a> {
    /// This alternative.
    Number(u64),
    /// This alternative.
    Other(OfVersionOther<'a>),
}

impl<'a> Asn1DefinedBy<u8> for OfVersion<'a> {
    ghost use Rattle.derived_tests.specs.declared.numbers.OfVersion.TheVariants.{Number, Other};

    ghost by = { by_item (record {
      item = ⟦<u8 as Asn1Type>⟧.der;
      value = or_variant (record {
        item = pos 5;
        is = λ n. int_eq n (pos 5);
        itself = refl;
        alone = λ n same. sym ((Decides-int_eq n (pos 5)).0 same);
      }) ⟦<u64 as Asn1Type>⟧.der (any_variant ⟦<Tlv<'a> as Asn1Type>⟧.der (λ m. m))
          (elim [
            | Number x ↦ inl (⟦<u64 as Asn1Type>⟧.der.meaning x)
            | Other x ↦ inr (
              ⟦<u8 as Asn1Type>⟧.der.meaning x.item,
              ⟦<Tlv<'a> as Asn1Type>⟧.der.meaning x.value,
            )
          ]);
    }) };

    fn known_by(&self) {
        match self {
            OfVersion::Number(x) => x.known(),
            OfVersion::Other(x) => x.value.known(),
        }
    }
}

impl<'a> DefinedField<u8> for OfVersion<'a> {
    ghost both = { record {
      item = ⟦<u8 as Asn1Type>⟧.der;
      value = ⟦<OfVersion<'a> as Asn1DefinedBy<u8>>⟧.by.means;
    } };

    fn known_item(&self) {
        match self {
            OfVersion::Number(_) => VERSION.known(),
            OfVersion::Other(x) => x.item.known(),
        }
    }

    ghost agrees = { word_for_word _ };
}

impl<'a> Asn1DefinedByReadable<'a, u8> for OfVersion<'a> {
    fn parse(item: u8, parser: &mut Parser<'a>) -> ParseResult<OfVersion<'a>>
        ensures answers { ReadsDefined ⟦<OfVersion<'a> as Asn1DefinedBy<u8>>⟧.by item parser.old
            parser.new result }
        ensures rest { EndsWith parser.old parser.new }
        ensures stops { OnErr result (⟦<OfVersion<'a> as Asn1DefinedBy<u8>>⟧.by.means.stops
            (⟦<OfVersion<'a> as Asn1DefinedBy<u8>>⟧.by.seen item) parser.old parser.new) }
    {
        if item == VERSION {
            return Ok(OfVersion::Number(parser.read_element::<u64>()?));
        }
        Ok(OfVersion::Other(OfVersionOther {
            item,
            value: parser.read_element::<Tlv<'a>>()?,
        }))
    }

    fn one_encoding()
        ensures plain { ⟦<OfVersion<'a> as Asn1DefinedBy<u8>>⟧.by.means.plain }
        ensures read { ⟦<OfVersion<'a> as Asn1DefinedBy<u8>>⟧.by.means.is_read }
    {}
}

impl<'a> Asn1DefinedByWritable<u8> for OfVersion<'a> {
    type Error = WriteError;

    ghost length_known_by = { λ _. Unit {0} };

    fn item(&self) -> u8 {
        match self {
            OfVersion::Number(_) => VERSION,
            OfVersion::Other(x) => x.item,
        }
    }

    fn write(&self, dest: &mut Writer<'_>) -> WriteResult<()> {
        match self {
            OfVersion::Number(x) => x.write(dest),
            OfVersion::Other(x) => x.value.write(dest),
        }
    }

    fn encoded_length(&self) -> Option<usize> {
        match self {
            OfVersion::Number(x) => x.encoded_length(),
            OfVersion::Other(x) => x.value.encoded_length(),
        }
    }
}

/// A version, and what it defines.
#[derive(PartialEq, Drop)]
pub(crate) struct Versioned<'a> {
    /// The field.
    pub version: DefinedByMarker<u8>,
    /// The field.
    pub value: OfVersion<'a>,
}

type VersionedFields<'a> = Item<u8, LastValue<OfVersion<'a>>>;

impl<'a> Asn1Type for Versioned<'a> {
    ghost der = { structure (λ v. record {
      value = v.version;
      rest = record {
        value = v.value;
      };
    }) ⟦<VersionedFields<'a> as Row>⟧.list (field_names "Versioned" ("version" ∷ "value"
        ∷ [])) };

    fn known(&self) {
        known_fields!(self; version of value: u8, value by u8)
    }
}

impl<'a> SimpleAsn1Readable<'a> for Versioned<'a> {
    fn tag() -> Tag
        ensures value { result ≡ ⟦<Versioned<'a> as Asn1Type>⟧.der.content.tag }
        ensures simple { ⟦<Versioned<'a> as Asn1Type>⟧.der.is_simple }
        ensures plain { ⟦<Versioned<'a> as Asn1Type>⟧.der.plain }
        ensures read { ⟦<Versioned<'a> as Asn1Type>⟧.der.is_read }
    {
        Tag::constructed(0x10)
    }

    fn parse_data(alloc: Global, data: &'a [u8]) -> ParseResult<Versioned<'a>>
        ensures { ReadsContents ⟦<Versioned<'a> as Asn1Type>⟧.der «data».entry.now result }
    {
        read_fields!(VersionedFields<'a>, alloc, data => Versioned;
            version of value: u8, value by u8)
    }
}

impl<'a> SimpleAsn1Writable for Versioned<'a> {
    type Error = WriteError;

    ghost length_known = { λ _. Unit {0} };

    fn tag() -> Tag
        ensures value { result ≡ ⟦<Versioned<'a> as Asn1Type>⟧.der.content.tag }
        ensures simple { ⟦<Versioned<'a> as Asn1Type>⟧.der.is_simple }
    {
        Tag::constructed(0x10)
    }

    fn write_data(&self, dest: &mut WriteBuf) -> WriteResult<()> {
        write_fields!(self, dest; version of value: u8, value by u8)
    }

    fn data_length(&self) -> Option<usize> {
        fields_length!(self; version of value: u8, value by u8)
    }

    fn writes_as_read() -> bool
        ensures { IsTrue result }
    {
        true
    }
}

/// INTEGER { v1(0), v2(1) }, with these numbers alone.
#[derive(Clone, Copy)]
pub(crate) enum Version {
    /// This value.
    V1 = 0,
    /// This value.
    V2 = 1,
}

impl Numbered for Version {
    ghost use Rattle.derived_tests.specs.declared.numbers.Version.TheVariants.{V1, V2};

    ghost number_of = { elim [ V1 ↦ 0 | V2 ↦ 1 ] };

    ghost numbers = { 0 ∷ 1 ∷ [] };

    ghost values = { V1 ∷ V2 ∷ [] };

    fn number(self) -> u32 {
        self as u32
    }

    fn from_number(number: u32) -> Option<Version> {
        match number {
            0 => Some(Version::V1),
            1 => Some(Version::V2),
            _ => None,
        }
    }
}

impl Asn1Type for Version {
    ghost der = { numbered (universal 2) ⟦<Version as Numbered>⟧.number_of
        ⟦<Version as Numbered>⟧.numbers };

    fn known(&self)
        ensures valid { (numbered (universal 2) ⟦<Version as Numbered>⟧.number_of
            ⟦<Version as Numbered>⟧.numbers).valid (pos (⟦<Version as Numbered>⟧.number_of
            self.now)) }
        ensures fits { Fits (element_encoding (element (universal 2) (integer_content (pos
            (⟦<Version as Numbered>⟧.number_of self.now))))) }
    {
        known_number(*self)
    }
}

impl PartialEq for Version {
    ghost eq = { on ⟦<Version as Numbered>⟧.number_of nat_eq };

    ghost laws = { partial_equiv_from_equiv (on_equiv ⟦<Version as Numbered>⟧.number_of
        nat_eq_equiv) };

    fn eq(&self, other: &Version) -> bool {
        self.number() == other.number()
    }
}

impl Eq for Version {
    ghost laws = { on_equiv ⟦<Version as Numbered>⟧.number_of nat_eq_equiv };
}

impl MeaningEq for Version {
    ghost tells = { λ a b. seen_tells ⟦<Version as Numbered>⟧.number_of (λ n. pos n) (number_text
        (universal 2)) nat_eq a b (naturals_tell (universal 2) (⟦<Version as Numbered>⟧.number_of a)
        (⟦<Version as Numbered>⟧.number_of b)) };
}

impl SimpleMeaningEq for Version {
    ghost content_tells = { λ a b. naturals_content_tells (⟦<Version as Numbered>⟧.number_of a)
        (⟦<Version as Numbered>⟧.number_of b) };
}

impl<'a> SimpleAsn1Readable<'a> for Version {
    fn tag() -> Tag {
        Tag::primitive(2)
    }

    fn parse_data(alloc: Global, data: &'a [u8]) -> ParseResult<Version> {
        read_number(alloc, data)
    }
}

impl SimpleAsn1Writable for Version {
    type Error = WriteError;

    ghost length_known = { λ _. Unit {0} };

    fn tag() -> Tag {
        Tag::primitive(2)
    }

    fn write_data(&self, dest: &mut WriteBuf) -> WriteResult<()> {
        self.number().write_data(dest)
    }

    fn data_length(&self) -> Option<usize> {
        self.number().data_length()
    }

    fn writes_as_read() -> bool {
        true
    }
}

/// Defaults.
#[derive(PartialEq, Drop)]
pub(crate) struct Defaults {
    /// The field.
    pub version: Version,
    /// The field.
    pub number: u8,
    /// The field.
    pub other: Version,
    /// The field.
    pub octets: [u8; 2],
}

/// What `version` is if it is left out.
pub(crate) struct DefaultsVersion;

impl DefaultValue<Explicit<Version, 0>> for DefaultsVersion {
    ghost use Rattle.derived_tests.specs.declared.numbers.Version.TheVariants.{V1};

    ghost default = { record { inner = V1 } };

    fn value() -> Explicit<Version, 0> {
        Explicit::new(Version::V1)
    }
}

/// What `number` is if it is left out.
pub(crate) struct DefaultsNumber;

impl DefaultValue<u8> for DefaultsNumber {
    ghost default = { 5 };

    fn value() -> u8 {
        5
    }
}

/// What `other` is if it is left out.
pub(crate) struct DefaultsOther;

impl DefaultValue<Implicit<Version, 1>> for DefaultsOther {
    ghost use Rattle.derived_tests.specs.declared.numbers.Version.TheVariants.{V2};

    ghost default = { record { inner = V2 } };

    fn value() -> Implicit<Version, 1> {
        Implicit::new(Version::V2)
    }
}

/// What `octets` is if it is left out.
pub(crate) struct DefaultsOctets;

impl DefaultValue<[u8; 2]> for DefaultsOctets {
    ghost default = { 1 ∷ 255 ∷ [] };

    fn value() -> [u8; 2] {
        [1, 255]
    }
}

type DefaultsVersionField = Defaulted<Explicit<Version, 0>, DefaultsVersion>;

type DefaultsNumberField = Defaulted<u8, DefaultsNumber>;

type DefaultsOtherField = Defaulted<Implicit<Version, 1>, DefaultsOther>;

type DefaultsOctetsField = Defaulted<[u8; 2], DefaultsOctets>;

type DefaultsFields = Fields4<
    DefaultsVersionField,
    DefaultsNumberField,
    DefaultsOtherField,
    DefaultsOctetsField,
>;

macro_rules! fields_of_defaults {
    ($body:ident, $($of:tt)*) => { $body!($($of)*;
        version: DefaultsVersionField, number: DefaultsNumberField, other: DefaultsOtherField,
        octets: DefaultsOctetsField) };
}

impl Asn1Type for Defaults {
    ghost der = { structure (λ v. fields4 (defaulted (explicit v.version)) (defaulted v.number)
        (defaulted (implicit v.other)) (defaulted v.octets)) ⟦<DefaultsFields as Row>⟧.list
        (field_names "Defaults" ("version" ∷ "number" ∷ "other" ∷ "octets" ∷ [])) };

    fn known(&self) {
        fields_of_defaults!(known_fields, self)
    }
}

impl<'a> SimpleAsn1Readable<'a> for Defaults {
    fn tag() -> Tag {
        Tag::constructed(0x10)
    }

    fn parse_data(alloc: Global, data: &'a [u8]) -> ParseResult<Defaults> {
        fields_of_defaults!(read_fields, DefaultsFields, alloc, data => Defaults)
    }
}

impl SimpleAsn1Writable for Defaults {
    type Error = WriteError;

    ghost length_known = { λ _. Unit {0} };

    fn tag() -> Tag {
        Tag::constructed(0x10)
    }

    fn write_data(&self, dest: &mut WriteBuf) -> WriteResult<()> {
        fields_of_defaults!(write_fields, self, dest)
    }

    fn data_length(&self) -> Option<usize> {
        fields_of_defaults!(fields_length, self)
    }

    fn writes_as_read() -> bool {
        true
    }
}

/// The numbers of [`sha1`], as they are encoded: the first means two.
pub(crate) const SHA1_NUMBERS: [u64; 5] = [43, 14, 3, 2, 26];

/// SHA-1, which is the default of a hash function in RFC 8017, A.2.1.
pub(crate) fn sha1() -> ObjectIdentifier
    ensures { identifier_of result ≡ SHA1_NUMBERS }
{
    known_identifier(b"\x2b\x0e\x03\x02\x1a")
}

/// Identifiers that may be left out, and types whose octets are kept.
#[derive(PartialEq, Drop)]
pub(crate) struct Named<'a> {
    /// The field.
    pub hash: ObjectIdentifier,
    /// The field.
    pub other: ObjectIdentifier,
    /// The field.
    pub place: RelativeOid<'a>,
    /// The field.
    pub name: TeletexString<'a>,
}

/// What `hash` is if it is left out.
pub(crate) struct NamedHash;

impl DefaultValue<Explicit<ObjectIdentifier, 0>> for NamedHash {
    ghost default = { record { inner = identifier_from SHA1_NUMBERS } };

    #[tactic(auto, using(asn1::specs::Lemmas::DefaultIdentifiers::identifier_of_default))]
    fn value() -> Explicit<ObjectIdentifier, 0> {
        Explicit::new(sha1())
    }
}

/// What `other` is if it is left out.
pub(crate) struct NamedOther;

impl DefaultValue<ObjectIdentifier> for NamedOther {
    ghost default = { identifier_from SHA1_NUMBERS };

    #[tactic(auto, using(asn1::specs::Lemmas::DefaultIdentifiers::identifier_of_default))]
    fn value() -> ObjectIdentifier {
        sha1()
    }
}

type NamedHashField = Defaulted<Explicit<ObjectIdentifier, 0>, NamedHash>;

type NamedOtherField = Defaulted<ObjectIdentifier, NamedOther>;

type NamedFields<'a> = Fields4<NamedHashField, NamedOtherField, RelativeOid<'a>, TeletexString<'a>>;

impl<'a> Asn1Type for Named<'a> {
    ghost der = { structure (λ v. fields4 (defaulted (explicit v.hash)) (defaulted v.other) v.place
        v.name) ⟦<NamedFields<'a> as Row>⟧.list (field_names "Named" ("hash" ∷ "other" ∷ "place" ∷
        "name" ∷ [])) };

    fn known(&self) {
        known_fields!(self; hash: NamedHashField, other: NamedOtherField, place, name)
    }
}

impl<'a> SimpleAsn1Readable<'a> for Named<'a> {
    fn tag() -> Tag
        ensures value { result ≡ ⟦<Named<'a> as Asn1Type>⟧.der.content.tag }
        ensures simple { ⟦<Named<'a> as Asn1Type>⟧.der.is_simple }
        ensures plain { ⟦<Named<'a> as Asn1Type>⟧.der.plain }
        ensures read { ⟦<Named<'a> as Asn1Type>⟧.der.is_read }
    {
        Tag::constructed(0x10)
    }

    fn parse_data(alloc: Global, data: &'a [u8]) -> ParseResult<Named<'a>>
        ensures { ReadsContents ⟦<Named<'a> as Asn1Type>⟧.der «data».entry.now result }
    {
        read_fields!(NamedFields<'a>, alloc, data => Named;
            hash: NamedHashField, other: NamedOtherField, place, name)
    }
}

impl<'a> SimpleAsn1Writable for Named<'a> {
    type Error = WriteError;

    ghost length_known = { λ _. Unit {0} };

    fn tag() -> Tag
        ensures value { result ≡ ⟦<Named<'a> as Asn1Type>⟧.der.content.tag }
        ensures simple { ⟦<Named<'a> as Asn1Type>⟧.der.is_simple }
    {
        Tag::constructed(0x10)
    }

    fn write_data(&self, dest: &mut WriteBuf) -> WriteResult<()> {
        write_fields!(self, dest; hash: NamedHashField, other: NamedOtherField, place, name)
    }

    fn data_length(&self) -> Option<usize> {
        fields_length!(self; hash: NamedHashField, other: NamedOtherField, place, name)
    }

    fn writes_as_read() -> bool
        ensures { IsTrue result }
    {
        true
    }
}

/// The laws of the types, which do nothing.
pub mod laws {
    use super::{Defaults, Named, PaData, Version, Versioned};
    use asn1::Asn1Type;

    /// Each value of `PaData` has one encoding, which is read back.
    pub(crate) fn pa_data_is_lawful()
        ensures { HasOneEncoding ⟦<PaData<'static> as Asn1Type>⟧.der }
    {}

    /// Each value of `Versioned` has one encoding, which is read back.
    pub(crate) fn versioned_is_lawful()
        ensures { HasOneEncoding ⟦<Versioned<'static> as Asn1Type>⟧.der }
    {}

    /// Each value of `Version` has one encoding, which is read back.
    pub(crate) fn version_is_lawful()
        ensures { HasOneEncoding ⟦<Version as Asn1Type>⟧.der }
    {}

    /// Each value of `Defaults` has one encoding, which is read back.
    pub(crate) fn defaults_is_lawful()
        ensures { HasOneEncoding ⟦<Defaults as Asn1Type>⟧.der }
    {
        version_is_lawful();
    }

    /// Each value of `Named` has one encoding, which is read back.
    pub(crate) fn named_is_lawful()
        ensures { HasOneEncoding ⟦<Named<'static> as Asn1Type>⟧.der }
    {}
}
