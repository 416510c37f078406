//! General names (RFC 5280, 4.2.1.6).
// Printed by tools/derive from declarations/common/general_name.rs, with the sum eae30bd4.

ghost use Rattle.std.specs.Prelude.{◌≡◌, ◌∷◌, [], IsTrue, OnErr, IfOk};
ghost use Rattle.asn1.specs.AlternativeLists.{after8, choice, first1, first8, second8, third8, fourth8, fifth8};
ghost use Rattle.asn1.specs.AlternativeLists.{sixth8, seventh8, eighth8};
ghost use Rattle.asn1.specs.Options.{option_meaning};
ghost use Rattle.asn1.specs.Reading.{EndsWith};
ghost use Rattle.asn1.specs.Reads.{BeginsWithEncodingOf, HasOneEncoding, ReadsContents, ReadsPrefix};
ghost use Rattle.asn1.specs.Structures.{explicit, field_names, structure, fields2};

use crate::common::{DirectoryString, Name};
use asn1::alternatives::{
    Alternatives, AlternativesReadable, AsOneOf, ExplicitTag, ImplicitTag, OneOf9, read_choice,
};
use asn1::fields::{Fields2, Row};
use asn1::{
    Asn1Readable, Asn1Type, Asn1Writable, Explicit, IA5String, ObjectIdentifier, ParseResult,
    Parser, Sequence, SequenceOf, SimpleAsn1Readable, SimpleAsn1Writable, Tag, Tlv, WriteBuf,
    WriteError, WriteResult, Writer, choice_length, fields_length, known_choice, known_fields,
    read_fields, take_choice, write_choice, write_fields,
};
use std::alloc::Global;

/// OtherName (RFC 5280, 4.2.1.6), a SEQUENCE: a name of a form that an identifier names.
#[derive(Debug, Clone, Copy, PartialEq, Eq)]
pub struct OtherName<'a> {
    /// The form.
    pub type_id: ObjectIdentifier,
    /// The name: an element of the type that `type_id` defines.
    pub value: Tlv<'a>,
}

impl<'a> OtherName<'a> {
    /// The fields that have another name in ASN.1 than theirs with capitals, as errors name them, with that name.
    pub const NAMES: &'static [(&'static str, &'static str)] = &[("OtherName::type_id", "type-id")];
}

type OtherNameValueField<'a> = Explicit<Tlv<'a>, 0>;

type OtherNameFields<'a> = Fields2<ObjectIdentifier, OtherNameValueField<'a>>;

impl<'a> Asn1Type for OtherName<'a> {
    ghost der = { structure (λ v. fields2 v.type_id (explicit v.value))
        ⟦<OtherNameFields<'a> as Row>⟧.list (field_names "OtherName" ("type_id" ∷ "value" ∷ [])) };

    fn known(&self) {
        known_fields!(self; type_id, value: OtherNameValueField<'a>)
    }
}

impl<'a> SimpleAsn1Readable<'a> for OtherName<'a> {
    fn tag() -> Tag
        ensures value { result ≡ ⟦<OtherName<'a> as Asn1Type>⟧.der.content.tag }
        ensures simple { ⟦<OtherName<'a> as Asn1Type>⟧.der.is_simple }
        ensures plain { ⟦<OtherName<'a> as Asn1Type>⟧.der.plain }
        ensures read { ⟦<OtherName<'a> as Asn1Type>⟧.der.is_read }
    {
        Tag::constructed(0x10)
    }

    fn parse_data(alloc: Global, data: &'a [u8]) -> ParseResult<OtherName<'a>>
        ensures { ReadsContents ⟦<OtherName<'a> as Asn1Type>⟧.der «data».entry.now result }
    {
        read_fields!(OtherNameFields<'a>, alloc, data => OtherName;
            type_id, value: OtherNameValueField<'a>)
    }
}

impl<'a> SimpleAsn1Writable for OtherName<'a> {
    type Error = WriteError;

    ghost length_known = { λ _. Unit {0} };

    fn tag() -> Tag
        ensures value { result ≡ ⟦<OtherName<'a> as Asn1Type>⟧.der.content.tag }
        ensures simple { ⟦<OtherName<'a> as Asn1Type>⟧.der.is_simple }
    {
        Tag::constructed(0x10)
    }

    fn write_data(&self, dest: &mut WriteBuf) -> WriteResult<()> {
        write_fields!(self, dest; type_id, value: OtherNameValueField<'a>)
    }

    fn data_length(&self) -> Option<usize> {
        fields_length!(self; type_id, value: OtherNameValueField<'a>)
    }

    fn writes_as_read() -> bool
        ensures { IsTrue result }
    {
        true
    }
}

/// EDIPartyName (RFC 5280, 4.2.1.6), a SEQUENCE.
#[derive(Debug, Clone, Copy, PartialEq, Eq)]
pub struct EdiPartyName<'a> {
    /// Who assigned the name.
    pub name_assigner: Option<DirectoryString<'a>>,
    /// The name.
    pub party_name: DirectoryString<'a>,
}

type EdiPartyNameNameAssignerField<'a> = Option<Explicit<DirectoryString<'a>, 0>>;

type EdiPartyNamePartyNameField<'a> = Explicit<DirectoryString<'a>, 1>;

type EdiPartyNameFields<'a> = Fields2<
    EdiPartyNameNameAssignerField<'a>,
    EdiPartyNamePartyNameField<'a>,
>;

macro_rules! fields_of_edi_party_name {
    ($body:ident, $($of:tt)*) => { $body!($($of)*;
        name_assigner: EdiPartyNameNameAssignerField<'a>,
        party_name: EdiPartyNamePartyNameField<'a>) };
}

impl<'a> Asn1Type for EdiPartyName<'a> {
    ghost der = { structure (λ v. fields2 (option_meaning explicit v.name_assigner) (explicit
        v.party_name)) ⟦<EdiPartyNameFields<'a> as Row>⟧.list (field_names "EdiPartyName"
        ("name_assigner" ∷ "party_name" ∷ [])) };

    fn known(&self) {
        fields_of_edi_party_name!(known_fields, self)
    }
}

impl<'a> SimpleAsn1Readable<'a> for EdiPartyName<'a> {
    fn tag() -> Tag
        ensures value { result ≡ ⟦<EdiPartyName<'a> as Asn1Type>⟧.der.content.tag }
        ensures simple { ⟦<EdiPartyName<'a> as Asn1Type>⟧.der.is_simple }
        ensures plain { ⟦<EdiPartyName<'a> as Asn1Type>⟧.der.plain }
        ensures read { ⟦<EdiPartyName<'a> as Asn1Type>⟧.der.is_read }
    {
        Tag::constructed(0x10)
    }

    fn parse_data(alloc: Global, data: &'a [u8]) -> ParseResult<EdiPartyName<'a>>
        ensures { ReadsContents ⟦<EdiPartyName<'a> as Asn1Type>⟧.der «data».entry.now result }
    {
        fields_of_edi_party_name!(read_fields, EdiPartyNameFields<'a>, alloc, data => EdiPartyName)
    }
}

impl<'a> SimpleAsn1Writable for EdiPartyName<'a> {
    type Error = WriteError;

    ghost length_known = { λ v.
        ⟦<Option<Explicit<DirectoryString<'a>, 0>> as Asn1Writable>⟧.length_known (option_meaning
        explicit v.name_assigner) ×
        ⟦<Explicit<DirectoryString<'a>, 1> as Asn1Writable>⟧.length_known (explicit v.party_name) };

    fn tag() -> Tag
        ensures value { result ≡ ⟦<EdiPartyName<'a> as Asn1Type>⟧.der.content.tag }
        ensures simple { ⟦<EdiPartyName<'a> as Asn1Type>⟧.der.is_simple }
    {
        Tag::constructed(0x10)
    }

    fn write_data(&self, dest: &mut WriteBuf) -> WriteResult<()> {
        fields_of_edi_party_name!(write_fields, self, dest)
    }

    fn data_length(&self) -> Option<usize> {
        fields_of_edi_party_name!(fields_length, self)
    }

    fn writes_as_read() -> bool
        ensures { IsTrue result }
    {
        true
    }
}

type GeneralNameChoice<'a> = OneOf9<
    ImplicitTag<OtherName<'a>, 0>,
    ImplicitTag<IA5String<'a>, 1>,
    ImplicitTag<IA5String<'a>, 2>,
    ImplicitTag<Sequence<'a>, 3>,
    ExplicitTag<Name<'a>, 4>,
    ImplicitTag<EdiPartyName<'a>, 5>,
    ImplicitTag<IA5String<'a>, 6>,
    ImplicitTag<&'a [u8], 7>,
    ImplicitTag<ObjectIdentifier, 8>,
>;

type GeneralNameValues<'a> = <GeneralNameChoice<'a> as Alternatives>::Values;

macro_rules! variants_of_general_name {
    ($body:ident, $($of:tt)*) => { $body!($($of)*; GeneralName(x);
        OtherName: implicit 0, Rfc822Name: implicit 1, DnsName: implicit 2, X400Address: implicit 3,
        DirectoryName: explicit 4, EdiPartyName: implicit 5, UniformResourceIdentifier: implicit 6,
        IpAddress: implicit 7, RegisteredId: implicit 8) };
}

/// GeneralName (RFC 5280, 4.2.1.6), a CHOICE of nine.
#[derive(Debug, Clone, PartialEq, Eq, Drop)]
pub enum GeneralName<'a> {
    /// A name of another form.
    OtherName(OtherName<'a>),
    /// An address of electronic mail.
    Rfc822Name(IA5String<'a>),
    /// A name of the domain name system.
    DnsName(IA5String<'a>),
    /// An ORAddress, whose elements aren't read.
    X400Address(Sequence<'a>),
    /// A name of a directory.
    DirectoryName(Name<'a>),
    /// A name of electronic data interchange.
    EdiPartyName(EdiPartyName<'a>),
    /// A uniform resource identifier.
    UniformResourceIdentifier(IA5String<'a>),
    /// The octets of an address of the internet: four or sixteen, or in name constraints twice as many. How many there
    /// are isn't checked.
    IpAddress(&'a [u8]),
    /// A registered identifier.
    RegisteredId(ObjectIdentifier),
}

impl<'a> AsOneOf<GeneralNameValues<'a>> for GeneralName<'a> {
    ghost use Rattle.pkix.specs.declared.common.general_name.GeneralName.TheVariants.{OtherName, Rfc822Name, DnsName};
    ghost use Rattle.pkix.specs.declared.common.general_name.GeneralName.TheVariants.{X400Address, DirectoryName};
    ghost use Rattle.pkix.specs.declared.common.general_name.GeneralName.TheVariants.{EdiPartyName};
    ghost use Rattle.pkix.specs.declared.common.general_name.GeneralName.TheVariants.{UniformResourceIdentifier};
    ghost use Rattle.pkix.specs.declared.common.general_name.GeneralName.TheVariants.{IpAddress, RegisteredId};

    ghost seen = { elim [
      | OtherName x ↦ first8 x
      | Rfc822Name x ↦ second8 x
      | DnsName x ↦ third8 x
      | X400Address x ↦ fourth8 x
      | DirectoryName x ↦ fifth8 x
      | EdiPartyName x ↦ sixth8 x
      | UniformResourceIdentifier x ↦ seventh8 x
      | IpAddress x ↦ eighth8 x
      | RegisteredId x ↦ after8 (first1 x)
    ] };

    fn from_one_of(value: GeneralNameValues<'a>) -> GeneralName<'a>
        ensures { ⟦<GeneralName<'a> as AsOneOf<GeneralNameValues<'a>>>⟧.seen result ≡ value.entry }
    {
        variants_of_general_name!(take_choice, value)
    }
}

impl<'a> Asn1Type for GeneralName<'a> {
    ghost der = { choice ⟦<GeneralName<'a> as AsOneOf<GeneralNameValues<'a>>>⟧.seen
        ⟦<GeneralNameChoice<'a> as Alternatives>⟧.list };

    fn known(&self) {
        variants_of_general_name!(known_choice, self)
    }
}

impl<'a> Asn1Readable<'a> for GeneralName<'a> {
    fn parse(parser: &mut Parser<'a>) -> ParseResult<GeneralName<'a>>
        ensures answers { ReadsPrefix ⟦<GeneralName<'a> as Asn1Type>⟧.der parser.old parser.new
            result }
        ensures found { IfOk result (λ v. BeginsWithEncodingOf ⟦<GeneralName<'a> as Asn1Type>⟧.der v
            parser.old parser.new) }
        ensures rest { EndsWith parser.old parser.new }
        ensures stops { OnErr result (⟦<GeneralName<'a> as Asn1Type>⟧.der.stops parser.old
            parser.new) }
    {
        read_choice::<GeneralNameChoice<'a>, GeneralName<'a>>(parser)
    }

    fn can_parse(tag: Tag) -> bool
        ensures value { result ≡ ⟦<GeneralName<'a> as Asn1Type>⟧.der.accepts tag }
        ensures plain { ⟦<GeneralName<'a> as Asn1Type>⟧.der.plain }
        ensures read { ⟦<GeneralName<'a> as Asn1Type>⟧.der.is_read }
    {
        <GeneralNameChoice<'a> as AlternativesReadable<'a>>::accepts(tag)
    }
}

impl<'a> Asn1Writable for GeneralName<'a> {
    type Error = WriteError;

    ghost use Rattle.pkix.specs.declared.common.general_name.GeneralName.TheVariants.{OtherName, Rfc822Name, DnsName};
    ghost use Rattle.pkix.specs.declared.common.general_name.GeneralName.TheVariants.{X400Address, DirectoryName};
    ghost use Rattle.pkix.specs.declared.common.general_name.GeneralName.TheVariants.{EdiPartyName};
    ghost use Rattle.pkix.specs.declared.common.general_name.GeneralName.TheVariants.{UniformResourceIdentifier};
    ghost use Rattle.pkix.specs.declared.common.general_name.GeneralName.TheVariants.{IpAddress, RegisteredId};

    ghost length_known = { elim [
      | OtherName x ↦ Unit {0}
      | Rfc822Name x ↦ Unit {0}
      | DnsName x ↦ Unit {0}
      | X400Address x ↦ Unit {0}
      | DirectoryName x ↦ ⟦<Name<'a> as Asn1Writable>⟧.length_known x
      | EdiPartyName x ↦ ⟦<EdiPartyName<'a> as Asn1Writable>⟧.length_known x
      | UniformResourceIdentifier x ↦ Unit {0}
      | IpAddress x ↦ Unit {0}
      | RegisteredId x ↦ Unit {0}
    ] };

    fn write(&self, dest: &mut Writer<'_>) -> WriteResult<()> {
        variants_of_general_name!(write_choice, self, dest)
    }

    fn encoded_length(&self) -> Option<usize> {
        variants_of_general_name!(choice_length, self)
    }

    fn writes_as_read() -> bool
        ensures { IsTrue result }
    {
        true
    }
}

/// GeneralNames (RFC 5280, 4.2.1.6), a SEQUENCE of at least one GeneralName.
pub type GeneralNames<'a> = SequenceOf<'a, GeneralName<'a>, 1, { usize::MAX }>;

/// The laws of the types, which do nothing.
pub mod laws {
    use super::{EdiPartyName, GeneralName, GeneralNameChoice, GeneralNames, OtherName};
    use asn1::Asn1Type;
    use asn1::laws_wrappers::alternatives_apart_are_lawful;

    /// Each value of `OtherName` has one encoding, which is read back.
    pub fn other_name_is_lawful()
        ensures { HasOneEncoding ⟦<OtherName<'static> as Asn1Type>⟧.der }
    {}

    /// Each value of `EdiPartyName` has one encoding, which is read back.
    pub fn edi_party_name_is_lawful()
        ensures { HasOneEncoding ⟦<EdiPartyName<'static> as Asn1Type>⟧.der }
    {
        crate::common::laws::directory_string_is_lawful();
    }

    /// Each value of `GeneralName` has one encoding, which is read back.
    pub fn general_name_is_lawful()
        ensures { HasOneEncoding ⟦<GeneralName<'static> as Asn1Type>⟧.der }
    {
        other_name_is_lawful();
        crate::common::laws::name_is_lawful();
        edi_party_name_is_lawful();
        alternatives_apart_are_lawful::<GeneralNameChoice<'static>>();
    }

    /// Each value of `GeneralNames` has one encoding, which is read back.
    pub fn general_names_is_lawful()
        ensures { HasOneEncoding ⟦<GeneralNames<'static> as Asn1Type>⟧.der }
    {
        general_name_is_lawful();
    }
}
