//! Where revocation lists are found, and what they have (RFC 5280, 4.2.1.13 and 5.2.5).
// Printed by tools/derive from declarations/certificate/distribution.rs, with the sum ade6b4e6.

ghost use Rattle.std.specs.Prelude.{◌≡◌, ◌∷◌, [], false, IsTrue, OnErr, IfOk};
ghost use Rattle.asn1.specs.AlternativeLists.{after1, choice, first1};
ghost use Rattle.asn1.specs.Options.{option_meaning};
ghost use Rattle.asn1.specs.Reading.{EndsWith};
ghost use Rattle.asn1.specs.Reads.{BeginsWithEncodingOf, HasOneEncoding, ReadsContents, ReadsPrefix};
ghost use Rattle.asn1.specs.Structures.{defaulted, explicit, field_names, implicit, structure, fields3, fields6};

use crate::common::{AttributeTypeAndValue, GeneralNames, NamedBits};
use asn1::alternatives::{
    Alternatives, AlternativesReadable, AsOneOf, ImplicitTag, OneOf2, read_choice,
};
use asn1::fields::{Fields3, Fields6, Row};
use asn1::{
    Asn1Readable, Asn1Type, Asn1Writable, DefaultValue, Defaulted, Explicit, Implicit, ParseResult,
    Parser, SequenceOf, SetOf, SimpleAsn1Readable, SimpleAsn1Writable, Tag, WriteBuf, WriteError,
    WriteResult, Writer, choice_length, fields_length, known_choice, known_fields, read_fields,
    take_choice, write_choice, write_fields,
};
use std::alloc::Global;

type DistributionPointNameChoice<'a> = OneOf2<
    ImplicitTag<GeneralNames<'a>, 0>,
    ImplicitTag<SetOf<'a, AttributeTypeAndValue<'a>>, 1>,
>;

type DistributionPointNameValues<'a> = <DistributionPointNameChoice<'a> as Alternatives>::Values;

/// DistributionPointName (RFC 5280, 4.2.1.13), a CHOICE.
#[derive(Debug, Clone, PartialEq, Eq, Drop)]
pub enum DistributionPointName<'a> {
    /// The names of the list, each by itself.
    FullName(GeneralNames<'a>),
    /// The attributes that follow the name of the list's issuer. Of this set the RFC says `SIZE (1..MAX)`, which isn't
    /// checked.
    NameRelativeToCrlIssuer(SetOf<'a, AttributeTypeAndValue<'a>>),
}

impl<'a> AsOneOf<DistributionPointNameValues<'a>> for DistributionPointName<'a> {
    ghost use Rattle.pkix.specs.declared.certificate.distribution.DistributionPointName.TheVariants.{FullName};
    ghost use Rattle.pkix.specs.declared.certificate.distribution.DistributionPointName.TheVariants.{NameRelativeToCrlIssuer};

    ghost seen = { elim [ FullName x ↦ first1 x | NameRelativeToCrlIssuer x ↦ after1 (first1 x) ] };

    fn from_one_of(value: DistributionPointNameValues<'a>) -> DistributionPointName<'a>
        ensures { ⟦<DistributionPointName<'a> as AsOneOf<DistributionPointNameValues<'a>>>⟧.seen
            result ≡ value.entry }
    {
        take_choice!(value;
            DistributionPointName(x); FullName: implicit 0, NameRelativeToCrlIssuer: implicit 1)
    }
}

impl<'a> Asn1Type for DistributionPointName<'a> {
    ghost der = { choice
        ⟦<DistributionPointName<'a> as AsOneOf<DistributionPointNameValues<'a>>>⟧.seen
        ⟦<DistributionPointNameChoice<'a> as Alternatives>⟧.list };

    fn known(&self) {
        known_choice!(self;
            DistributionPointName(x); FullName: implicit 0, NameRelativeToCrlIssuer: implicit 1)
    }
}

impl<'a> Asn1Readable<'a> for DistributionPointName<'a> {
    fn parse(parser: &mut Parser<'a>) -> ParseResult<DistributionPointName<'a>>
        ensures answers { ReadsPrefix ⟦<DistributionPointName<'a> as Asn1Type>⟧.der parser.old
            parser.new result }
        ensures found { IfOk result (λ v. BeginsWithEncodingOf
            ⟦<DistributionPointName<'a> as Asn1Type>⟧.der v parser.old parser.new) }
        ensures rest { EndsWith parser.old parser.new }
        ensures stops { OnErr result (⟦<DistributionPointName<'a> as Asn1Type>⟧.der.stops parser.old
            parser.new) }
    {
        read_choice::<DistributionPointNameChoice<'a>, DistributionPointName<'a>>(parser)
    }

    fn can_parse(tag: Tag) -> bool
        ensures value { result ≡ ⟦<DistributionPointName<'a> as Asn1Type>⟧.der.accepts tag }
        ensures plain { ⟦<DistributionPointName<'a> as Asn1Type>⟧.der.plain }
        ensures read { ⟦<DistributionPointName<'a> as Asn1Type>⟧.der.is_read }
    {
        <DistributionPointNameChoice<'a> as AlternativesReadable<'a>>::accepts(tag)
    }
}

impl<'a> Asn1Writable for DistributionPointName<'a> {
    type Error = WriteError;

    ghost use Rattle.pkix.specs.declared.certificate.distribution.DistributionPointName.TheVariants.{FullName};
    ghost use Rattle.pkix.specs.declared.certificate.distribution.DistributionPointName.TheVariants.{NameRelativeToCrlIssuer};

    ghost length_known = { elim [
      | FullName x ↦ ⟦<GeneralNames<'a> as Asn1Writable>⟧.length_known x
      | NameRelativeToCrlIssuer x ↦ Unit {0}
    ] };

    fn write(&self, dest: &mut Writer<'_>) -> WriteResult<()> {
        write_choice!(self, dest;
            DistributionPointName(x); FullName: implicit 0, NameRelativeToCrlIssuer: implicit 1)
    }

    fn encoded_length(&self) -> Option<usize> {
        choice_length!(self;
            DistributionPointName(x); FullName: implicit 0, NameRelativeToCrlIssuer: implicit 1)
    }

    fn writes_as_read() -> bool
        ensures { IsTrue result }
    {
        true
    }
}

/// DistributionPoint (RFC 5280, 4.2.1.13), a SEQUENCE: where a revocation list is, and what it is for. That it has a
/// distribution point or an issuer isn't checked.
#[derive(Debug, Clone, PartialEq, Eq, Drop)]
pub struct DistributionPoint<'a> {
    /// Where the list is.
    pub distribution_point: Option<DistributionPointName<'a>>,
    /// The reasons that the list has; all of them if there are none here.
    pub reasons: Option<NamedBits<'a>>,
    /// Who issues the list, if that isn't the certificate's issuer.
    pub crl_issuer: Option<GeneralNames<'a>>,
}

impl<'a> DistributionPoint<'a> {
    /// The fields that have another name in ASN.1 than theirs with capitals, as errors name them, with that name.
    pub const NAMES: &'static [(&'static str, &'static str)] = &[(
        "DistributionPoint::crl_issuer",
        "cRLIssuer",
    )];
}

type DistributionPointDistributionPointField<'a> = Option<Explicit<DistributionPointName<'a>, 0>>;

type DistributionPointReasonsField<'a> = Option<Implicit<NamedBits<'a>, 1>>;

type DistributionPointCrlIssuerField<'a> = Option<Implicit<GeneralNames<'a>, 2>>;

type DistributionPointFields<'a> = Fields3<
    DistributionPointDistributionPointField<'a>,
    DistributionPointReasonsField<'a>,
    DistributionPointCrlIssuerField<'a>,
>;

macro_rules! fields_of_distribution_point {
    ($body:ident, $($of:tt)*) => { $body!($($of)*;
        distribution_point: DistributionPointDistributionPointField<'a>,
        reasons: DistributionPointReasonsField<'a>,
        crl_issuer: DistributionPointCrlIssuerField<'a>) };
}

impl<'a> Asn1Type for DistributionPoint<'a> {
    ghost der = { structure (λ v. fields3 (option_meaning explicit v.distribution_point)
        (option_meaning implicit v.reasons) (option_meaning implicit v.crl_issuer))
        ⟦<DistributionPointFields<'a> as Row>⟧.list (field_names "DistributionPoint"
        ("distribution_point" ∷ "reasons" ∷ "crl_issuer" ∷ [])) };

    fn known(&self) {
        fields_of_distribution_point!(known_fields, self)
    }
}

impl<'a> SimpleAsn1Readable<'a> for DistributionPoint<'a> {
    fn tag() -> Tag
        ensures value { result ≡ ⟦<DistributionPoint<'a> as Asn1Type>⟧.der.content.tag }
        ensures simple { ⟦<DistributionPoint<'a> as Asn1Type>⟧.der.is_simple }
        ensures plain { ⟦<DistributionPoint<'a> as Asn1Type>⟧.der.plain }
        ensures read { ⟦<DistributionPoint<'a> as Asn1Type>⟧.der.is_read }
    {
        Tag::constructed(0x10)
    }

    fn parse_data(alloc: Global, data: &'a [u8]) -> ParseResult<DistributionPoint<'a>>
        ensures { ReadsContents ⟦<DistributionPoint<'a> as Asn1Type>⟧.der «data».entry.now result }
    {
        fields_of_distribution_point!(read_fields,
            DistributionPointFields<'a>, alloc, data => DistributionPoint)
    }
}

impl<'a> SimpleAsn1Writable for DistributionPoint<'a> {
    type Error = WriteError;

    ghost length_known = { λ v.
        ⟦<Option<Explicit<DistributionPointName<'a>, 0>> as Asn1Writable>⟧.length_known
        (option_meaning explicit v.distribution_point) ×
        ⟦<Option<Implicit<NamedBits<'a>, 1>> as Asn1Writable>⟧.length_known (option_meaning implicit
        v.reasons) × ⟦<Option<Implicit<GeneralNames<'a>, 2>> as Asn1Writable>⟧.length_known
        (option_meaning implicit v.crl_issuer) };

    fn tag() -> Tag
        ensures value { result ≡ ⟦<DistributionPoint<'a> as Asn1Type>⟧.der.content.tag }
        ensures simple { ⟦<DistributionPoint<'a> as Asn1Type>⟧.der.is_simple }
    {
        Tag::constructed(0x10)
    }

    fn write_data(&self, dest: &mut WriteBuf) -> WriteResult<()> {
        fields_of_distribution_point!(write_fields, self, dest)
    }

    fn data_length(&self) -> Option<usize> {
        fields_of_distribution_point!(fields_length, self)
    }

    fn writes_as_read() -> bool
        ensures { IsTrue result }
    {
        true
    }
}

/// CRLDistributionPoints (RFC 5280, 4.2.1.13), a SEQUENCE of at least one DistributionPoint; identifier 2.5.29.31. The
/// value of freshestCRL (4.2.1.15 and 5.2.6), identifier 2.5.29.46, is of this type too.
pub type CrlDistributionPoints<'a> = SequenceOf<'a, DistributionPoint<'a>, 1, { usize::MAX }>;

/// IssuingDistributionPoint (RFC 5280, 5.2.5), a SEQUENCE: where this revocation list is, and what it has; identifier
/// 2.5.29.28. One without fields is read, and one in which several of `onlyContains` are true: the RFC forbids both.
#[derive(Debug, Clone, PartialEq, Eq, Drop)]
pub struct IssuingDistributionPoint<'a> {
    /// Where the list is.
    pub distribution_point: Option<DistributionPointName<'a>>,
    /// Whether all its certificates are of users.
    pub only_contains_user_certs: bool,
    /// Whether all its certificates are of authorities.
    pub only_contains_ca_certs: bool,
    /// The reasons that the list has; all of them if there are none here.
    pub only_some_reasons: Option<NamedBits<'a>>,
    /// Whether it may have certificates of other issuers.
    pub indirect_crl: bool,
    /// Whether all its certificates are of attributes.
    pub only_contains_attribute_certs: bool,
}

impl<'a> IssuingDistributionPoint<'a> {
    /// The fields that have another name in ASN.1 than theirs with capitals, as errors name them, with that name.
    pub const NAMES: &'static [(&'static str, &'static str)] = &[
        (
            "IssuingDistributionPoint::only_contains_ca_certs",
            "onlyContainsCACerts",
        ),
        ("IssuingDistributionPoint::indirect_crl", "indirectCRL"),
    ];
}

/// What `only_contains_user_certs` is if it is left out.
pub struct IssuingDistributionPointOnlyContainsUserCerts;

impl DefaultValue<Implicit<bool, 1>> for IssuingDistributionPointOnlyContainsUserCerts {
    ghost default = { record { inner = false } };

    fn value() -> Implicit<bool, 1> {
        Implicit::new(false)
    }
}

/// What `only_contains_ca_certs` is if it is left out.
pub struct IssuingDistributionPointOnlyContainsCaCerts;

impl DefaultValue<Implicit<bool, 2>> for IssuingDistributionPointOnlyContainsCaCerts {
    ghost default = { record { inner = false } };

    fn value() -> Implicit<bool, 2> {
        Implicit::new(false)
    }
}

/// What `indirect_crl` is if it is left out.
pub struct IssuingDistributionPointIndirectCrl;

impl DefaultValue<Implicit<bool, 4>> for IssuingDistributionPointIndirectCrl {
    ghost default = { record { inner = false } };

    fn value() -> Implicit<bool, 4> {
        Implicit::new(false)
    }
}

/// What `only_contains_attribute_certs` is if it is left out.
pub struct IssuingDistributionPointOnlyContainsAttributeCerts;

impl DefaultValue<Implicit<bool, 5>> for IssuingDistributionPointOnlyContainsAttributeCerts {
    ghost default = { record { inner = false } };

    fn value() -> Implicit<bool, 5> {
        Implicit::new(false)
    }
}

type IssuingDistributionPointDistributionPointField<'a> = Option<
    Explicit<DistributionPointName<'a>, 0>,
>;

type IssuingDistributionPointOnlyContainsUserCertsField = Defaulted<
    Implicit<bool, 1>,
    IssuingDistributionPointOnlyContainsUserCerts,
>;

type IssuingDistributionPointOnlyContainsCaCertsField = Defaulted<
    Implicit<bool, 2>,
    IssuingDistributionPointOnlyContainsCaCerts,
>;

type IssuingDistributionPointOnlySomeReasonsField<'a> = Option<Implicit<NamedBits<'a>, 3>>;

type IssuingDistributionPointIndirectCrlField = Defaulted<
    Implicit<bool, 4>,
    IssuingDistributionPointIndirectCrl,
>;

type IssuingDistributionPointOnlyContainsAttributeCertsField = Defaulted<
    Implicit<bool, 5>,
    IssuingDistributionPointOnlyContainsAttributeCerts,
>;

type IssuingDistributionPointFields<'a> = Fields6<
    IssuingDistributionPointDistributionPointField<'a>,
    IssuingDistributionPointOnlyContainsUserCertsField,
    IssuingDistributionPointOnlyContainsCaCertsField,
    IssuingDistributionPointOnlySomeReasonsField<'a>,
    IssuingDistributionPointIndirectCrlField,
    IssuingDistributionPointOnlyContainsAttributeCertsField,
>;

macro_rules! fields_of_issuing_distribution_point {
    ($body:ident, $($of:tt)*) => { $body!($($of)*;
        distribution_point: IssuingDistributionPointDistributionPointField<'a>,
        only_contains_user_certs: IssuingDistributionPointOnlyContainsUserCertsField,
        only_contains_ca_certs: IssuingDistributionPointOnlyContainsCaCertsField,
        only_some_reasons: IssuingDistributionPointOnlySomeReasonsField<'a>,
        indirect_crl: IssuingDistributionPointIndirectCrlField,
        only_contains_attribute_certs: IssuingDistributionPointOnlyContainsAttributeCertsField) };
}

impl<'a> Asn1Type for IssuingDistributionPoint<'a> {
    ghost der = { structure (λ v. fields6 (option_meaning explicit v.distribution_point) (defaulted
        (implicit v.only_contains_user_certs)) (defaulted (implicit v.only_contains_ca_certs))
        (option_meaning implicit v.only_some_reasons) (defaulted (implicit v.indirect_crl))
        (defaulted (implicit v.only_contains_attribute_certs)))
        ⟦<IssuingDistributionPointFields<'a> as Row>⟧.list (field_names "IssuingDistributionPoint"
        ("distribution_point" ∷ "only_contains_user_certs" ∷ "only_contains_ca_certs" ∷
        "only_some_reasons" ∷ "indirect_crl" ∷ "only_contains_attribute_certs" ∷ [])) };

    fn known(&self) {
        fields_of_issuing_distribution_point!(known_fields, self)
    }
}

impl<'a> SimpleAsn1Readable<'a> for IssuingDistributionPoint<'a> {
    fn tag() -> Tag
        ensures value { result ≡ ⟦<IssuingDistributionPoint<'a> as Asn1Type>⟧.der.content.tag }
        ensures simple { ⟦<IssuingDistributionPoint<'a> as Asn1Type>⟧.der.is_simple }
        ensures plain { ⟦<IssuingDistributionPoint<'a> as Asn1Type>⟧.der.plain }
        ensures read { ⟦<IssuingDistributionPoint<'a> as Asn1Type>⟧.der.is_read }
    {
        Tag::constructed(0x10)
    }

    fn parse_data(alloc: Global, data: &'a [u8]) -> ParseResult<IssuingDistributionPoint<'a>>
        ensures { ReadsContents ⟦<IssuingDistributionPoint<'a> as Asn1Type>⟧.der «data».entry.now
            result }
    {
        fields_of_issuing_distribution_point!(read_fields,
            IssuingDistributionPointFields<'a>, alloc, data => IssuingDistributionPoint)
    }
}

impl<'a> SimpleAsn1Writable for IssuingDistributionPoint<'a> {
    type Error = WriteError;

    ghost length_known = { λ v.
        ⟦<Option<Explicit<DistributionPointName<'a>, 0>> as Asn1Writable>⟧.length_known
        (option_meaning explicit v.distribution_point) ×
        ⟦<Option<Implicit<NamedBits<'a>, 3>> as Asn1Writable>⟧.length_known (option_meaning implicit
        v.only_some_reasons) };

    fn tag() -> Tag
        ensures value { result ≡ ⟦<IssuingDistributionPoint<'a> as Asn1Type>⟧.der.content.tag }
        ensures simple { ⟦<IssuingDistributionPoint<'a> as Asn1Type>⟧.der.is_simple }
    {
        Tag::constructed(0x10)
    }

    fn write_data(&self, dest: &mut WriteBuf) -> WriteResult<()> {
        fields_of_issuing_distribution_point!(write_fields, self, dest)
    }

    fn data_length(&self) -> Option<usize> {
        fields_of_issuing_distribution_point!(fields_length, self)
    }

    fn writes_as_read() -> bool
        ensures { IsTrue result }
    {
        true
    }
}

/// The laws of the types, which do nothing.
pub mod laws {
    use super::{
        CrlDistributionPoints, DistributionPoint, DistributionPointName,
        DistributionPointNameChoice, IssuingDistributionPoint,
    };
    use asn1::Asn1Type;
    use asn1::laws_wrappers::alternatives_apart_are_lawful;

    /// Each value of `DistributionPointName` has one encoding, which is read back.
    pub fn distribution_point_name_is_lawful()
        ensures { HasOneEncoding ⟦<DistributionPointName<'static> as Asn1Type>⟧.der }
    {
        crate::common::laws::general_names_is_lawful();
        crate::common::laws::attribute_type_and_value_is_lawful();
        alternatives_apart_are_lawful::<DistributionPointNameChoice<'static>>();
    }

    /// Each value of `DistributionPoint` has one encoding, which is read back.
    pub fn distribution_point_is_lawful()
        ensures { HasOneEncoding ⟦<DistributionPoint<'static> as Asn1Type>⟧.der }
    {
        distribution_point_name_is_lawful();
        crate::common::laws::named_bits_is_lawful();
        crate::common::laws::general_names_is_lawful();
    }

    /// Each value of `CrlDistributionPoints` has one encoding, which is read back.
    pub fn crl_distribution_points_is_lawful()
        ensures { HasOneEncoding ⟦<CrlDistributionPoints<'static> as Asn1Type>⟧.der }
    {
        distribution_point_is_lawful();
    }

    /// Each value of `IssuingDistributionPoint` has one encoding, which is read back.
    pub fn issuing_distribution_point_is_lawful()
        ensures { HasOneEncoding ⟦<IssuingDistributionPoint<'static> as Asn1Type>⟧.der }
    {
        distribution_point_name_is_lawful();
        crate::common::laws::named_bits_is_lawful();
    }
}
