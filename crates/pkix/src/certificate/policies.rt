//! The policies of a certificate, and what it demands of those that follow it in a path (RFC 5280, 4.2.1.4, 4.2.1.5,
//! 4.2.1.10, 4.2.1.11 and 4.2.1.14).
// Printed by tools/derive from declarations/certificate/policies.rs, with the sum 5006f7a8.

ghost use Rattle.std.specs.Prelude.{◌≡◌, ◌∷◌, [], IsTrue, OnErr, IfOk};
ghost use Rattle.asn1.specs.AlternativeLists.{IsLengthOf, after3, choice, first1, first3, second3, third3};
ghost use Rattle.asn1.specs.Options.{option_meaning};
ghost use Rattle.asn1.specs.Reading.{EndsWith};
ghost use Rattle.asn1.specs.Reads.{BeginsWithEncodingOf, HasOneEncoding, ReadsContents, ReadsPrefix};
ghost use Rattle.asn1.specs.Structures.{defaulted, field_names, implicit, structure, fields2, fields3};
ghost use Rattle.asn1.specs.Writing.{GivesLength};

use crate::common::GeneralName;
use asn1::alternatives::{Alternatives, AlternativesReadable, AsOneOf, OneOf4, read_choice};
use asn1::fields::{Fields2, Fields3, Row};
use asn1::{
    Asn1Readable, Asn1Type, Asn1Writable, BMPString, BigInt, BigUint, DefaultValue, Defaulted,
    IA5String, Implicit, ObjectIdentifier, ParseResult, Parser, SequenceOf, SimpleAsn1Readable,
    SimpleAsn1Writable, Tag, Tlv, Utf8String, VisibleString, WriteBuf, WriteError, WriteResult,
    Writer, choice_length, fields_length, known_choice, known_fields, read_fields, take_choice,
    write_choice, write_fields,
};
use std::alloc::Global;

/// PolicyQualifierInfo (RFC 5280, 4.2.1.4), a SEQUENCE: more about a policy.
#[derive(Debug, Clone, Copy, PartialEq, Eq)]
pub struct PolicyQualifierInfo<'a> {
    /// Which qualifier it is: the RFC has id-qt-cps and id-qt-unotice. Any identifier is read.
    pub policy_qualifier_id: ObjectIdentifier,
    /// The qualifier: an element of the type that `policy_qualifier_id` defines, which isn't checked.
    pub qualifier: Tlv<'a>,
}

type PolicyQualifierInfoFields<'a> = Fields2<ObjectIdentifier, Tlv<'a>>;

impl<'a> Asn1Type for PolicyQualifierInfo<'a> {
    ghost der = { structure (λ v. fields2 v.policy_qualifier_id v.qualifier)
        ⟦<PolicyQualifierInfoFields<'a> as Row>⟧.list (field_names "PolicyQualifierInfo"
        ("policy_qualifier_id" ∷ "qualifier" ∷ [])) };

    fn known(&self) {
        known_fields!(self; policy_qualifier_id, qualifier)
    }
}

impl<'a> SimpleAsn1Readable<'a> for PolicyQualifierInfo<'a> {
    fn tag() -> Tag
        ensures value { result ≡ ⟦<PolicyQualifierInfo<'a> as Asn1Type>⟧.der.content.tag }
        ensures simple { ⟦<PolicyQualifierInfo<'a> as Asn1Type>⟧.der.is_simple }
        ensures plain { ⟦<PolicyQualifierInfo<'a> as Asn1Type>⟧.der.plain }
        ensures read { ⟦<PolicyQualifierInfo<'a> as Asn1Type>⟧.der.is_read }
    {
        Tag::constructed(0x10)
    }

    fn parse_data(alloc: Global, data: &'a [u8]) -> ParseResult<PolicyQualifierInfo<'a>>
        ensures { ReadsContents ⟦<PolicyQualifierInfo<'a> as Asn1Type>⟧.der «data».entry.now
            result }
    {
        read_fields!(PolicyQualifierInfoFields<'a>, alloc, data => PolicyQualifierInfo;
            policy_qualifier_id, qualifier)
    }
}

impl<'a> SimpleAsn1Writable for PolicyQualifierInfo<'a> {
    type Error = WriteError;

    ghost length_known = { λ _. Unit {0} };

    fn tag() -> Tag
        ensures value { result ≡ ⟦<PolicyQualifierInfo<'a> as Asn1Type>⟧.der.content.tag }
        ensures simple { ⟦<PolicyQualifierInfo<'a> as Asn1Type>⟧.der.is_simple }
    {
        Tag::constructed(0x10)
    }

    fn write_data(&self, dest: &mut WriteBuf) -> WriteResult<()> {
        write_fields!(self, dest; policy_qualifier_id, qualifier)
    }

    fn data_length(&self) -> Option<usize> {
        fields_length!(self; policy_qualifier_id, qualifier)
    }

    fn writes_as_read() -> bool
        ensures { IsTrue result }
    {
        true
    }
}

/// CPSuri (RFC 5280, 4.2.1.4), an IA5String: where the statement of how certificates are issued is; the qualifier of
/// id-qt-cps, identifier 1.3.6.1.5.5.7.2.1.
pub type CpsUri<'a> = IA5String<'a>;

type DisplayTextChoice<'a> = OneOf4<
    IA5String<'a>,
    VisibleString<'a>,
    BMPString<'a>,
    Utf8String<'a>,
>;

type DisplayTextValues<'a> = <DisplayTextChoice<'a> as Alternatives>::Values;

/// DisplayText (RFC 5280, 4.2.1.4), a CHOICE: words for people. Of each string the RFC says `SIZE (1..200)`, which
/// isn't checked.
#[derive(Debug, Clone, Copy, PartialEq, Eq)]
pub enum DisplayText<'a> {
    /// ia5String.
    Ia5(IA5String<'a>),
    /// visibleString.
    Visible(VisibleString<'a>),
    /// bmpString.
    Bmp(BMPString<'a>),
    /// utf8String.
    Utf8(Utf8String<'a>),
}

impl<'a> AsOneOf<DisplayTextValues<'a>> for DisplayText<'a> {
    ghost use Rattle.pkix.specs.declared.certificate.policies.DisplayText.TheVariants.{Ia5, Visible, Bmp, Utf8};

    ghost seen = { elim [
      | Ia5 x ↦ first3 x
      | Visible x ↦ second3 x
      | Bmp x ↦ third3 x
      | Utf8 x ↦ after3 (first1 x)
    ] };

    fn from_one_of(value: DisplayTextValues<'a>) -> DisplayText<'a>
        ensures { ⟦<DisplayText<'a> as AsOneOf<DisplayTextValues<'a>>>⟧.seen result ≡ value.entry }
    {
        take_choice!(value; DisplayText(x); Ia5, Visible, Bmp, Utf8)
    }
}

impl<'a> Asn1Type for DisplayText<'a> {
    ghost der = { choice ⟦<DisplayText<'a> as AsOneOf<DisplayTextValues<'a>>>⟧.seen
        ⟦<DisplayTextChoice<'a> as Alternatives>⟧.list };

    fn known(&self) {
        known_choice!(self; DisplayText(x); Ia5, Visible, Bmp, Utf8)
    }
}

impl<'a> Asn1Readable<'a> for DisplayText<'a> {
    fn parse(parser: &mut Parser<'a>) -> ParseResult<DisplayText<'a>>
        ensures answers { ReadsPrefix ⟦<DisplayText<'a> as Asn1Type>⟧.der parser.old parser.new
            result }
        ensures found { IfOk result (λ v. BeginsWithEncodingOf ⟦<DisplayText<'a> as Asn1Type>⟧.der v
            parser.old parser.new) }
        ensures rest { EndsWith parser.old parser.new }
        ensures stops { OnErr result (⟦<DisplayText<'a> as Asn1Type>⟧.der.stops parser.old
            parser.new) }
    {
        read_choice::<DisplayTextChoice<'a>, DisplayText<'a>>(parser)
    }

    fn can_parse(tag: Tag) -> bool
        ensures value { result ≡ ⟦<DisplayText<'a> as Asn1Type>⟧.der.accepts tag }
        ensures plain { ⟦<DisplayText<'a> as Asn1Type>⟧.der.plain }
        ensures read { ⟦<DisplayText<'a> as Asn1Type>⟧.der.is_read }
    {
        <DisplayTextChoice<'a> as AlternativesReadable<'a>>::accepts(tag)
    }
}

impl<'a> Asn1Writable for DisplayText<'a> {
    type Error = WriteError;

    ghost length_known = { λ _. Unit {0} };

    fn write(&self, dest: &mut Writer<'_>) -> WriteResult<()> {
        write_choice!(self, dest; DisplayText(x); Ia5, Visible, Bmp, Utf8)
    }

    fn encoded_length(&self) -> Option<usize>
        ensures length { GivesLength (Unit {0})
            (⟦<DisplayText<'a> as Asn1Type>⟧.der.encodings
            (⟦<DisplayText<'a> as Asn1Type>⟧.der.meaning self.now)) result }
        ensures exact { IsLengthOf ⟦<DisplayText<'a> as Asn1Type>⟧.der self.now result }
    {
        choice_length!(self; DisplayText(x); Ia5, Visible, Bmp, Utf8)
    }

    fn writes_as_read() -> bool
        ensures { IsTrue result }
    {
        true
    }
}

/// NoticeReference (RFC 5280, 4.2.1.4), a SEQUENCE: notices that an organization has by their numbers.
#[derive(Debug, Clone, PartialEq, Eq, Drop)]
pub struct NoticeReference<'a> {
    /// The organization.
    pub organization: DisplayText<'a>,
    /// The numbers of the notices. They may be negative.
    pub notice_numbers: SequenceOf<'a, BigInt<'a>, 0, { usize::MAX }>,
}

type NoticeReferenceFields<'a> = Fields2<
    DisplayText<'a>,
    SequenceOf<'a, BigInt<'a>, 0, { usize::MAX }>,
>;

impl<'a> Asn1Type for NoticeReference<'a> {
    ghost der = { structure (λ v. fields2 v.organization v.notice_numbers)
        ⟦<NoticeReferenceFields<'a> as Row>⟧.list (field_names "NoticeReference" ("organization" ∷
        "notice_numbers" ∷ [])) };

    fn known(&self) {
        known_fields!(self; organization, notice_numbers)
    }
}

impl<'a> SimpleAsn1Readable<'a> for NoticeReference<'a> {
    fn tag() -> Tag
        ensures value { result ≡ ⟦<NoticeReference<'a> as Asn1Type>⟧.der.content.tag }
        ensures simple { ⟦<NoticeReference<'a> as Asn1Type>⟧.der.is_simple }
        ensures plain { ⟦<NoticeReference<'a> as Asn1Type>⟧.der.plain }
        ensures read { ⟦<NoticeReference<'a> as Asn1Type>⟧.der.is_read }
    {
        Tag::constructed(0x10)
    }

    fn parse_data(alloc: Global, data: &'a [u8]) -> ParseResult<NoticeReference<'a>>
        ensures { ReadsContents ⟦<NoticeReference<'a> as Asn1Type>⟧.der «data».entry.now result }
    {
        read_fields!(NoticeReferenceFields<'a>, alloc, data => NoticeReference;
            organization, notice_numbers)
    }
}

impl<'a> SimpleAsn1Writable for NoticeReference<'a> {
    type Error = WriteError;

    ghost length_known = { λ _. Unit {0} };

    fn tag() -> Tag
        ensures value { result ≡ ⟦<NoticeReference<'a> as Asn1Type>⟧.der.content.tag }
        ensures simple { ⟦<NoticeReference<'a> as Asn1Type>⟧.der.is_simple }
    {
        Tag::constructed(0x10)
    }

    fn write_data(&self, dest: &mut WriteBuf) -> WriteResult<()> {
        write_fields!(self, dest; organization, notice_numbers)
    }

    fn data_length(&self) -> Option<usize> {
        fields_length!(self; organization, notice_numbers)
    }

    fn writes_as_read() -> bool
        ensures { IsTrue result }
    {
        true
    }
}

/// UserNotice (RFC 5280, 4.2.1.4), a SEQUENCE: what a user of the certificate is to be shown; the qualifier of
/// id-qt-unotice, identifier 1.3.6.1.5.5.7.2.2. One without fields is read.
#[derive(Debug, Clone, PartialEq, Eq, Drop)]
pub struct UserNotice<'a> {
    /// Where the notice is.
    pub notice_ref: Option<NoticeReference<'a>>,
    /// The notice.
    pub explicit_text: Option<DisplayText<'a>>,
}

type UserNoticeFields<'a> = Fields2<Option<NoticeReference<'a>>, Option<DisplayText<'a>>>;

impl<'a> Asn1Type for UserNotice<'a> {
    ghost der = { structure (λ v. fields2 v.notice_ref v.explicit_text)
        ⟦<UserNoticeFields<'a> as Row>⟧.list (field_names "UserNotice" ("notice_ref" ∷
        "explicit_text" ∷ [])) };

    fn known(&self) {
        known_fields!(self; notice_ref, explicit_text)
    }
}

impl<'a> SimpleAsn1Readable<'a> for UserNotice<'a> {
    fn tag() -> Tag
        ensures value { result ≡ ⟦<UserNotice<'a> as Asn1Type>⟧.der.content.tag }
        ensures simple { ⟦<UserNotice<'a> as Asn1Type>⟧.der.is_simple }
        ensures plain { ⟦<UserNotice<'a> as Asn1Type>⟧.der.plain }
        ensures read { ⟦<UserNotice<'a> as Asn1Type>⟧.der.is_read }
    {
        Tag::constructed(0x10)
    }

    fn parse_data(alloc: Global, data: &'a [u8]) -> ParseResult<UserNotice<'a>>
        ensures { ReadsContents ⟦<UserNotice<'a> as Asn1Type>⟧.der «data».entry.now result }
    {
        read_fields!(UserNoticeFields<'a>, alloc, data => UserNotice; notice_ref, explicit_text)
    }
}

impl<'a> SimpleAsn1Writable for UserNotice<'a> {
    type Error = WriteError;

    ghost length_known = { λ _. Unit {0} };

    fn tag() -> Tag
        ensures value { result ≡ ⟦<UserNotice<'a> as Asn1Type>⟧.der.content.tag }
        ensures simple { ⟦<UserNotice<'a> as Asn1Type>⟧.der.is_simple }
    {
        Tag::constructed(0x10)
    }

    fn write_data(&self, dest: &mut WriteBuf) -> WriteResult<()> {
        write_fields!(self, dest; notice_ref, explicit_text)
    }

    fn data_length(&self) -> Option<usize> {
        fields_length!(self; notice_ref, explicit_text)
    }

    fn writes_as_read() -> bool
        ensures { IsTrue result }
    {
        true
    }
}

/// PolicyInformation (RFC 5280, 4.2.1.4), a SEQUENCE: a policy.
#[derive(Debug, Clone, PartialEq, Eq, Drop)]
pub struct PolicyInformation<'a> {
    /// Which policy it is.
    pub policy_identifier: ObjectIdentifier,
    /// More about the policy, a SEQUENCE of at least one PolicyQualifierInfo.
    pub policy_qualifiers: Option<SequenceOf<'a, PolicyQualifierInfo<'a>, 1, { usize::MAX }>>,
}

type PolicyInformationFields<'a> = Fields2<
    ObjectIdentifier,
    Option<SequenceOf<'a, PolicyQualifierInfo<'a>, 1, { usize::MAX }>>,
>;

impl<'a> Asn1Type for PolicyInformation<'a> {
    ghost der = { structure (λ v. fields2 v.policy_identifier v.policy_qualifiers)
        ⟦<PolicyInformationFields<'a> as Row>⟧.list (field_names "PolicyInformation"
        ("policy_identifier" ∷ "policy_qualifiers" ∷ [])) };

    fn known(&self) {
        known_fields!(self; policy_identifier, policy_qualifiers)
    }
}

impl<'a> SimpleAsn1Readable<'a> for PolicyInformation<'a> {
    fn tag() -> Tag
        ensures value { result ≡ ⟦<PolicyInformation<'a> as Asn1Type>⟧.der.content.tag }
        ensures simple { ⟦<PolicyInformation<'a> as Asn1Type>⟧.der.is_simple }
        ensures plain { ⟦<PolicyInformation<'a> as Asn1Type>⟧.der.plain }
        ensures read { ⟦<PolicyInformation<'a> as Asn1Type>⟧.der.is_read }
    {
        Tag::constructed(0x10)
    }

    fn parse_data(alloc: Global, data: &'a [u8]) -> ParseResult<PolicyInformation<'a>>
        ensures { ReadsContents ⟦<PolicyInformation<'a> as Asn1Type>⟧.der «data».entry.now result }
    {
        read_fields!(PolicyInformationFields<'a>, alloc, data => PolicyInformation;
            policy_identifier, policy_qualifiers)
    }
}

impl<'a> SimpleAsn1Writable for PolicyInformation<'a> {
    type Error = WriteError;

    ghost length_known = { λ _. Unit {0} };

    fn tag() -> Tag
        ensures value { result ≡ ⟦<PolicyInformation<'a> as Asn1Type>⟧.der.content.tag }
        ensures simple { ⟦<PolicyInformation<'a> as Asn1Type>⟧.der.is_simple }
    {
        Tag::constructed(0x10)
    }

    fn write_data(&self, dest: &mut WriteBuf) -> WriteResult<()> {
        write_fields!(self, dest; policy_identifier, policy_qualifiers)
    }

    fn data_length(&self) -> Option<usize> {
        fields_length!(self; policy_identifier, policy_qualifiers)
    }

    fn writes_as_read() -> bool
        ensures { IsTrue result }
    {
        true
    }
}

/// CertificatePolicies (RFC 5280, 4.2.1.4), a SEQUENCE of at least one PolicyInformation; identifier 2.5.29.32. That
/// each policy occurs once isn't checked.
pub type CertificatePolicies<'a> = SequenceOf<'a, PolicyInformation<'a>, 1, { usize::MAX }>;

/// An item of PolicyMappings (RFC 5280, 4.2.1.5), a SEQUENCE: two policies that are equal for the issuer. That neither
/// is anyPolicy isn't checked.
#[derive(Debug, Clone, Copy, PartialEq, Eq)]
pub struct PolicyMapping {
    /// The issuer's policy.
    pub issuer_domain_policy: ObjectIdentifier,
    /// The subject's policy.
    pub subject_domain_policy: ObjectIdentifier,
}

type PolicyMappingFields = Fields2<ObjectIdentifier, ObjectIdentifier>;

impl Asn1Type for PolicyMapping {
    ghost der = { structure (λ v. fields2 v.issuer_domain_policy v.subject_domain_policy)
        ⟦<PolicyMappingFields as Row>⟧.list (field_names "PolicyMapping" ("issuer_domain_policy" ∷
        "subject_domain_policy" ∷ [])) };

    fn known(&self) {
        known_fields!(self; issuer_domain_policy, subject_domain_policy)
    }
}

impl<'a> SimpleAsn1Readable<'a> for PolicyMapping {
    fn tag() -> Tag {
        Tag::constructed(0x10)
    }

    fn parse_data(alloc: Global, data: &'a [u8]) -> ParseResult<PolicyMapping> {
        read_fields!(PolicyMappingFields, alloc, data => PolicyMapping;
            issuer_domain_policy, subject_domain_policy)
    }
}

impl SimpleAsn1Writable for PolicyMapping {
    type Error = WriteError;

    ghost length_known = { λ _. Unit {0} };

    fn tag() -> Tag {
        Tag::constructed(0x10)
    }

    fn write_data(&self, dest: &mut WriteBuf) -> WriteResult<()> {
        write_fields!(self, dest; issuer_domain_policy, subject_domain_policy)
    }

    fn data_length(&self) -> Option<usize> {
        fields_length!(self; issuer_domain_policy, subject_domain_policy)
    }

    fn writes_as_read() -> bool {
        true
    }
}

/// PolicyMappings (RFC 5280, 4.2.1.5), a SEQUENCE of at least one item; identifier 2.5.29.33.
pub type PolicyMappings<'a> = SequenceOf<'a, PolicyMapping, 1, { usize::MAX }>;

/// GeneralSubtree (RFC 5280, 4.2.1.10), a SEQUENCE: the names below one.
#[derive(Debug, Clone, PartialEq, Eq, Drop)]
pub struct GeneralSubtree<'a> {
    /// The name.
    pub base: GeneralName<'a>,
    /// How far below `base` the names begin: the RFC allows 0 alone. A number of 2^32 or more is rejected.
    pub minimum: u32,
    /// How far below `base` the names end. The RFC allows none here, which isn't checked.
    pub maximum: Option<BigUint<'a>>,
}

/// What `minimum` is if it is left out.
pub struct GeneralSubtreeMinimum;

impl DefaultValue<Implicit<u32, 0>> for GeneralSubtreeMinimum {
    ghost default = { record { inner = 0 } };

    fn value() -> Implicit<u32, 0> {
        Implicit::new(0)
    }
}

type GeneralSubtreeMinimumField = Defaulted<Implicit<u32, 0>, GeneralSubtreeMinimum>;

type GeneralSubtreeMaximumField<'a> = Option<Implicit<BigUint<'a>, 1>>;

type GeneralSubtreeFields<'a> = Fields3<
    GeneralName<'a>,
    GeneralSubtreeMinimumField,
    GeneralSubtreeMaximumField<'a>,
>;

impl<'a> Asn1Type for GeneralSubtree<'a> {
    ghost der = { structure (λ v. fields3 v.base (defaulted (implicit v.minimum)) (option_meaning
        implicit v.maximum)) ⟦<GeneralSubtreeFields<'a> as Row>⟧.list (field_names "GeneralSubtree"
        ("base" ∷ "minimum" ∷ "maximum" ∷ [])) };

    fn known(&self) {
        known_fields!(self;
            base, minimum: GeneralSubtreeMinimumField, maximum: GeneralSubtreeMaximumField<'a>)
    }
}

impl<'a> SimpleAsn1Readable<'a> for GeneralSubtree<'a> {
    fn tag() -> Tag
        ensures value { result ≡ ⟦<GeneralSubtree<'a> as Asn1Type>⟧.der.content.tag }
        ensures simple { ⟦<GeneralSubtree<'a> as Asn1Type>⟧.der.is_simple }
        ensures plain { ⟦<GeneralSubtree<'a> as Asn1Type>⟧.der.plain }
        ensures read { ⟦<GeneralSubtree<'a> as Asn1Type>⟧.der.is_read }
    {
        Tag::constructed(0x10)
    }

    fn parse_data(alloc: Global, data: &'a [u8]) -> ParseResult<GeneralSubtree<'a>>
        ensures { ReadsContents ⟦<GeneralSubtree<'a> as Asn1Type>⟧.der «data».entry.now result }
    {
        read_fields!(GeneralSubtreeFields<'a>, alloc, data => GeneralSubtree;
            base, minimum: GeneralSubtreeMinimumField, maximum: GeneralSubtreeMaximumField<'a>)
    }
}

impl<'a> SimpleAsn1Writable for GeneralSubtree<'a> {
    type Error = WriteError;

    ghost length_known = { λ v. ⟦<GeneralName<'a> as Asn1Writable>⟧.length_known v.base };

    fn tag() -> Tag
        ensures value { result ≡ ⟦<GeneralSubtree<'a> as Asn1Type>⟧.der.content.tag }
        ensures simple { ⟦<GeneralSubtree<'a> as Asn1Type>⟧.der.is_simple }
    {
        Tag::constructed(0x10)
    }

    fn write_data(&self, dest: &mut WriteBuf) -> WriteResult<()> {
        write_fields!(self, dest;
            base, minimum: GeneralSubtreeMinimumField, maximum: GeneralSubtreeMaximumField<'a>)
    }

    fn data_length(&self) -> Option<usize> {
        fields_length!(self;
            base, minimum: GeneralSubtreeMinimumField, maximum: GeneralSubtreeMaximumField<'a>)
    }

    fn writes_as_read() -> bool
        ensures { IsTrue result }
    {
        true
    }
}

/// GeneralSubtrees (RFC 5280, 4.2.1.10), a SEQUENCE of at least one GeneralSubtree.
pub type GeneralSubtrees<'a> = SequenceOf<'a, GeneralSubtree<'a>, 1, { usize::MAX }>;

/// NameConstraints (RFC 5280, 4.2.1.10), a SEQUENCE: the names that the subjects of later certificates may have;
/// identifier 2.5.29.30. One without fields is read, which the RFC forbids.
#[derive(Debug, Clone, PartialEq, Eq, Drop)]
pub struct NameConstraints<'a> {
    /// The names that they may have.
    pub permitted_subtrees: Option<GeneralSubtrees<'a>>,
    /// The names that they may not have.
    pub excluded_subtrees: Option<GeneralSubtrees<'a>>,
}

type NameConstraintsPermittedSubtreesField<'a> = Option<Implicit<GeneralSubtrees<'a>, 0>>;

type NameConstraintsExcludedSubtreesField<'a> = Option<Implicit<GeneralSubtrees<'a>, 1>>;

type NameConstraintsFields<'a> = Fields2<
    NameConstraintsPermittedSubtreesField<'a>,
    NameConstraintsExcludedSubtreesField<'a>,
>;

macro_rules! fields_of_name_constraints {
    ($body:ident, $($of:tt)*) => { $body!($($of)*;
        permitted_subtrees: NameConstraintsPermittedSubtreesField<'a>,
        excluded_subtrees: NameConstraintsExcludedSubtreesField<'a>) };
}

impl<'a> Asn1Type for NameConstraints<'a> {
    ghost der = { structure (λ v. fields2 (option_meaning implicit v.permitted_subtrees)
        (option_meaning implicit v.excluded_subtrees)) ⟦<NameConstraintsFields<'a> as Row>⟧.list
        (field_names "NameConstraints" ("permitted_subtrees" ∷ "excluded_subtrees" ∷ [])) };

    fn known(&self) {
        fields_of_name_constraints!(known_fields, self)
    }
}

impl<'a> SimpleAsn1Readable<'a> for NameConstraints<'a> {
    fn tag() -> Tag
        ensures value { result ≡ ⟦<NameConstraints<'a> as Asn1Type>⟧.der.content.tag }
        ensures simple { ⟦<NameConstraints<'a> as Asn1Type>⟧.der.is_simple }
        ensures plain { ⟦<NameConstraints<'a> as Asn1Type>⟧.der.plain }
        ensures read { ⟦<NameConstraints<'a> as Asn1Type>⟧.der.is_read }
    {
        Tag::constructed(0x10)
    }

    fn parse_data(alloc: Global, data: &'a [u8]) -> ParseResult<NameConstraints<'a>>
        ensures { ReadsContents ⟦<NameConstraints<'a> as Asn1Type>⟧.der «data».entry.now result }
    {
        fields_of_name_constraints!(read_fields,
            NameConstraintsFields<'a>, alloc, data => NameConstraints)
    }
}

impl<'a> SimpleAsn1Writable for NameConstraints<'a> {
    type Error = WriteError;

    ghost length_known = { λ _. Unit {0} };

    fn tag() -> Tag
        ensures value { result ≡ ⟦<NameConstraints<'a> as Asn1Type>⟧.der.content.tag }
        ensures simple { ⟦<NameConstraints<'a> as Asn1Type>⟧.der.is_simple }
    {
        Tag::constructed(0x10)
    }

    fn write_data(&self, dest: &mut WriteBuf) -> WriteResult<()> {
        fields_of_name_constraints!(write_fields, self, dest)
    }

    fn data_length(&self) -> Option<usize> {
        fields_of_name_constraints!(fields_length, self)
    }

    fn writes_as_read() -> bool
        ensures { IsTrue result }
    {
        true
    }
}

/// PolicyConstraints (RFC 5280, 4.2.1.11), a SEQUENCE; identifier 2.5.29.36. One without fields is read, which the RFC
/// forbids. Its numbers are SkipCerts: how many certificates may come before.
#[derive(Debug, Clone, Copy, PartialEq, Eq)]
pub struct PolicyConstraints<'a> {
    /// After how many certificates each has to have a policy that is accepted.
    pub require_explicit_policy: Option<BigUint<'a>>,
    /// After how many certificates policies may not be mapped.
    pub inhibit_policy_mapping: Option<BigUint<'a>>,
}

type PolicyConstraintsRequireExplicitPolicyField<'a> = Option<Implicit<BigUint<'a>, 0>>;

type PolicyConstraintsInhibitPolicyMappingField<'a> = Option<Implicit<BigUint<'a>, 1>>;

type PolicyConstraintsFields<'a> = Fields2<
    PolicyConstraintsRequireExplicitPolicyField<'a>,
    PolicyConstraintsInhibitPolicyMappingField<'a>,
>;

macro_rules! fields_of_policy_constraints {
    ($body:ident, $($of:tt)*) => { $body!($($of)*;
        require_explicit_policy: PolicyConstraintsRequireExplicitPolicyField<'a>,
        inhibit_policy_mapping: PolicyConstraintsInhibitPolicyMappingField<'a>) };
}

impl<'a> Asn1Type for PolicyConstraints<'a> {
    ghost der = { structure (λ v. fields2 (option_meaning implicit v.require_explicit_policy)
        (option_meaning implicit v.inhibit_policy_mapping))
        ⟦<PolicyConstraintsFields<'a> as Row>⟧.list (field_names "PolicyConstraints"
        ("require_explicit_policy" ∷ "inhibit_policy_mapping" ∷ [])) };

    fn known(&self) {
        fields_of_policy_constraints!(known_fields, self)
    }
}

impl<'a> SimpleAsn1Readable<'a> for PolicyConstraints<'a> {
    fn tag() -> Tag
        ensures value { result ≡ ⟦<PolicyConstraints<'a> as Asn1Type>⟧.der.content.tag }
        ensures simple { ⟦<PolicyConstraints<'a> as Asn1Type>⟧.der.is_simple }
        ensures plain { ⟦<PolicyConstraints<'a> as Asn1Type>⟧.der.plain }
        ensures read { ⟦<PolicyConstraints<'a> as Asn1Type>⟧.der.is_read }
    {
        Tag::constructed(0x10)
    }

    fn parse_data(alloc: Global, data: &'a [u8]) -> ParseResult<PolicyConstraints<'a>>
        ensures { ReadsContents ⟦<PolicyConstraints<'a> as Asn1Type>⟧.der «data».entry.now result }
    {
        fields_of_policy_constraints!(read_fields,
            PolicyConstraintsFields<'a>, alloc, data => PolicyConstraints)
    }
}

impl<'a> SimpleAsn1Writable for PolicyConstraints<'a> {
    type Error = WriteError;

    ghost length_known = { λ _. Unit {0} };

    fn tag() -> Tag
        ensures value { result ≡ ⟦<PolicyConstraints<'a> as Asn1Type>⟧.der.content.tag }
        ensures simple { ⟦<PolicyConstraints<'a> as Asn1Type>⟧.der.is_simple }
    {
        Tag::constructed(0x10)
    }

    fn write_data(&self, dest: &mut WriteBuf) -> WriteResult<()> {
        fields_of_policy_constraints!(write_fields, self, dest)
    }

    fn data_length(&self) -> Option<usize> {
        fields_of_policy_constraints!(fields_length, self)
    }

    fn writes_as_read() -> bool
        ensures { IsTrue result }
    {
        true
    }
}

/// InhibitAnyPolicy (RFC 5280, 4.2.1.14), an INTEGER from 0: after how many certificates anyPolicy matches no other
/// policy; identifier 2.5.29.54.
pub type InhibitAnyPolicy<'a> = BigUint<'a>;

/// The laws of the types, which do nothing.
pub mod laws {
    use super::{
        CertificatePolicies, CpsUri, DisplayText, DisplayTextChoice, GeneralSubtree,
        GeneralSubtrees, InhibitAnyPolicy, NameConstraints, NoticeReference, PolicyConstraints,
        PolicyInformation, PolicyMapping, PolicyMappings, PolicyQualifierInfo, UserNotice,
    };
    use asn1::Asn1Type;
    use asn1::laws_wrappers::alternatives_apart_are_lawful;

    /// Each value of `PolicyQualifierInfo` has one encoding, which is read back.
    pub fn policy_qualifier_info_is_lawful()
        ensures { HasOneEncoding ⟦<PolicyQualifierInfo<'static> as Asn1Type>⟧.der }
    {}

    /// Each value of `CpsUri` has one encoding, which is read back.
    pub fn cps_uri_is_lawful()
        ensures { HasOneEncoding ⟦<CpsUri<'static> as Asn1Type>⟧.der }
    {}

    /// Each value of `DisplayText` has one encoding, which is read back.
    pub fn display_text_is_lawful()
        ensures { HasOneEncoding ⟦<DisplayText<'static> as Asn1Type>⟧.der }
    {
        alternatives_apart_are_lawful::<DisplayTextChoice<'static>>();
    }

    /// Each value of `NoticeReference` has one encoding, which is read back.
    pub fn notice_reference_is_lawful()
        ensures { HasOneEncoding ⟦<NoticeReference<'static> as Asn1Type>⟧.der }
    {
        display_text_is_lawful();
    }

    /// Each value of `UserNotice` has one encoding, which is read back.
    #[tactic(auto, using(asn1::specs::Lemmas::Fields::tags_differ))]
    pub fn user_notice_is_lawful()
        ensures { HasOneEncoding ⟦<UserNotice<'static> as Asn1Type>⟧.der }
    {
        notice_reference_is_lawful();
        display_text_is_lawful();
    }

    /// Each value of `PolicyInformation` has one encoding, which is read back.
    pub fn policy_information_is_lawful()
        ensures { HasOneEncoding ⟦<PolicyInformation<'static> as Asn1Type>⟧.der }
    {
        policy_qualifier_info_is_lawful();
    }

    /// Each value of `CertificatePolicies` has one encoding, which is read back.
    pub fn certificate_policies_is_lawful()
        ensures { HasOneEncoding ⟦<CertificatePolicies<'static> as Asn1Type>⟧.der }
    {
        policy_information_is_lawful();
    }

    /// Each value of `PolicyMapping` has one encoding, which is read back.
    pub fn policy_mapping_is_lawful()
        ensures { HasOneEncoding ⟦<PolicyMapping as Asn1Type>⟧.der }
    {}

    /// Each value of `PolicyMappings` has one encoding, which is read back.
    pub fn policy_mappings_is_lawful()
        ensures { HasOneEncoding ⟦<PolicyMappings<'static> as Asn1Type>⟧.der }
    {
        policy_mapping_is_lawful();
    }

    /// Each value of `GeneralSubtree` has one encoding, which is read back.
    pub fn general_subtree_is_lawful()
        ensures { HasOneEncoding ⟦<GeneralSubtree<'static> as Asn1Type>⟧.der }
    {
        crate::common::laws::general_name_is_lawful();
    }

    /// Each value of `GeneralSubtrees` has one encoding, which is read back.
    pub fn general_subtrees_is_lawful()
        ensures { HasOneEncoding ⟦<GeneralSubtrees<'static> as Asn1Type>⟧.der }
    {
        general_subtree_is_lawful();
    }

    /// Each value of `NameConstraints` has one encoding, which is read back.
    pub fn name_constraints_is_lawful()
        ensures { HasOneEncoding ⟦<NameConstraints<'static> as Asn1Type>⟧.der }
    {
        general_subtrees_is_lawful();
    }

    /// Each value of `PolicyConstraints` has one encoding, which is read back.
    pub fn policy_constraints_is_lawful()
        ensures { HasOneEncoding ⟦<PolicyConstraints<'static> as Asn1Type>⟧.der }
    {}

    /// Each value of `InhibitAnyPolicy` has one encoding, which is read back.
    pub fn inhibit_any_policy_is_lawful()
        ensures { HasOneEncoding ⟦<InhibitAnyPolicy<'static> as Asn1Type>⟧.der }
    {}
}
