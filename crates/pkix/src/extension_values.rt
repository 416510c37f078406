//! Values of extensions, whose types their identifiers name (RFC 5280, 4.2 and 5).

ghost use Rattle.std.specs.Prelude.{◌≡◌};
ghost use Rattle.asn1.specs.Identifier.{read_identifier};
ghost use Rattle.asn1.specs.IdentifierValues.{identifier_of};
ghost use Rattle.pkix.specs.Extensions.{extension_numbers, extension_with, ReadsExtension};
ghost use Rattle.pkix.specs.Identifiers.{typed};
ghost use Rattle.pkix.specs.declared.extension_values.ExtensionValue.TheVariants as value;
ghost use Rattle.pkix.specs.declared.extension_values.KnownExtension.TheVariants as known;

use crate::certificate::access::AuthorityInfoAccess;
use crate::certificate::distribution::{CrlDistributionPoints, IssuingDistributionPoint};
use crate::certificate::extensions::{
    AuthorityKeyIdentifier, BasicConstraints, ExtendedKeyUsage, KeyUsage, SubjectAltName,
    SubjectDirectoryAttributes, SubjectKeyIdentifier,
};
use crate::certificate::policies::{
    CertificatePolicies, InhibitAnyPolicy, NameConstraints, PolicyConstraints, PolicyMappings,
};
use crate::common::{Extension, GeneralNames};
use crate::revocation::extensions::{BaseCrlNumber, CrlNumber, CrlReason, InvalidityDate};
use asn1::fields::{is_identifier, known_identifier};
use asn1::{Asn1Type, ObjectIdentifier, ParseResult, parse_single};
use std::alloc::Global;

/// An extension whose value has a type here.
#[derive(Debug, Clone, Copy, PartialEq, Eq)]
pub enum KnownExtension {
    /// Where other data of the issuer is.
    AuthorityInfoAccess,
    /// Which key signed.
    AuthorityKeyIdentifier,
    /// Whether the subject may sign certificates.
    BasicConstraints,
    /// Who issued the certificate of an entry of a revocation list.
    CertificateIssuer,
    /// The policies of a certificate.
    CertificatePolicies,
    /// Where revocation lists are.
    CrlDistributionPoints,
    /// The number of a revocation list.
    CrlNumber,
    /// Why a certificate was revoked.
    CrlReason,
    /// Which revocation list this one completes.
    DeltaCrlIndicator,
    /// The purposes of a key.
    ExtendedKeyUsage,
    /// Where the lists are that complete revocation lists.
    FreshestCrl,
    /// After how many certificates anyPolicy matches no other policy.
    InhibitAnyPolicy,
    /// Since when a key may be known to others.
    InvalidityDate,
    /// Other names of the issuer.
    IssuerAltName,
    /// Where a revocation list is, and what it has.
    IssuingDistributionPoint,
    /// What a key may be used for.
    KeyUsage,
    /// The names that subjects of later certificates may have.
    NameConstraints,
    /// After how many certificates policies have to be accepted, or may not be mapped.
    PolicyConstraints,
    /// Policies that are equal for the issuer.
    PolicyMappings,
    /// Other names of the subject.
    SubjectAltName,
    /// More about the subject.
    SubjectDirectoryAttributes,
    /// Where other data of the subject is.
    SubjectInfoAccess,
    /// Which key the subject has.
    SubjectKeyIdentifier,
}

impl KnownExtension {
    /// Each of them once.
    pub const ALL: &'static [KnownExtension] = &[
        KnownExtension::AuthorityInfoAccess,
        KnownExtension::AuthorityKeyIdentifier,
        KnownExtension::BasicConstraints,
        KnownExtension::CertificateIssuer,
        KnownExtension::CertificatePolicies,
        KnownExtension::CrlDistributionPoints,
        KnownExtension::CrlNumber,
        KnownExtension::CrlReason,
        KnownExtension::DeltaCrlIndicator,
        KnownExtension::ExtendedKeyUsage,
        KnownExtension::FreshestCrl,
        KnownExtension::InhibitAnyPolicy,
        KnownExtension::InvalidityDate,
        KnownExtension::IssuerAltName,
        KnownExtension::IssuingDistributionPoint,
        KnownExtension::KeyUsage,
        KnownExtension::NameConstraints,
        KnownExtension::PolicyConstraints,
        KnownExtension::PolicyMappings,
        KnownExtension::SubjectAltName,
        KnownExtension::SubjectDirectoryAttributes,
        KnownExtension::SubjectInfoAccess,
        KnownExtension::SubjectKeyIdentifier,
    ];

    /// The contents octets of its identifier.
    fn contents(self) -> &'static [u8]
        ensures octets { read_identifier result.now ≡ Ok (extension_numbers self) }
        ensures found { extension_with (extension_numbers self) ≡ Some self }
    {
        match self {
            KnownExtension::AuthorityInfoAccess => b"\x2b\x06\x01\x05\x05\x07\x01\x01",
            KnownExtension::AuthorityKeyIdentifier => b"\x55\x1d\x23",
            KnownExtension::BasicConstraints => b"\x55\x1d\x13",
            KnownExtension::CertificateIssuer => b"\x55\x1d\x1d",
            KnownExtension::CertificatePolicies => b"\x55\x1d\x20",
            KnownExtension::CrlDistributionPoints => b"\x55\x1d\x1f",
            KnownExtension::CrlNumber => b"\x55\x1d\x14",
            KnownExtension::CrlReason => b"\x55\x1d\x15",
            KnownExtension::DeltaCrlIndicator => b"\x55\x1d\x1b",
            KnownExtension::ExtendedKeyUsage => b"\x55\x1d\x25",
            KnownExtension::FreshestCrl => b"\x55\x1d\x2e",
            KnownExtension::InhibitAnyPolicy => b"\x55\x1d\x36",
            KnownExtension::InvalidityDate => b"\x55\x1d\x18",
            KnownExtension::IssuerAltName => b"\x55\x1d\x12",
            KnownExtension::IssuingDistributionPoint => b"\x55\x1d\x1c",
            KnownExtension::KeyUsage => b"\x55\x1d\x0f",
            KnownExtension::NameConstraints => b"\x55\x1d\x1e",
            KnownExtension::PolicyConstraints => b"\x55\x1d\x24",
            KnownExtension::PolicyMappings => b"\x55\x1d\x21",
            KnownExtension::SubjectAltName => b"\x55\x1d\x11",
            KnownExtension::SubjectDirectoryAttributes => b"\x55\x1d\x09",
            KnownExtension::SubjectInfoAccess => b"\x2b\x06\x01\x05\x05\x07\x01\x0b",
            KnownExtension::SubjectKeyIdentifier => b"\x55\x1d\x0e",
        }
    }

    /// Its identifier, which [`Self::with_identifier`] finds.
    pub fn identifier(self) -> ObjectIdentifier
        ensures value { identifier_of result ≡ extension_numbers self }
        ensures found { extension_with (identifier_of result) ≡ Some self }
    {
        known_identifier(self.contents())
    }

    /// The one with this identifier.
    pub fn with_identifier(identifier: &ObjectIdentifier) -> Option<KnownExtension>
        ensures { result ≡ extension_with (identifier_of identifier.now) }
    {
        KnownExtension::ALL.iter().copied().find(|extension| is_identifier(
            identifier,
            extension.identifier(),
        ))
    }
}

/// The value of an extension, read as the type that its identifier names.
#[derive(Debug, PartialEq, Eq, Drop)]
pub enum ExtensionValue<'a> {
    /// Of authorityInfoAccess (RFC 5280, 4.2.2.1).
    AuthorityInfoAccess(AuthorityInfoAccess<'a>),
    /// Of authorityKeyIdentifier (RFC 5280, 4.2.1.1).
    AuthorityKeyIdentifier(AuthorityKeyIdentifier<'a>),
    /// Of basicConstraints (RFC 5280, 4.2.1.9).
    BasicConstraints(BasicConstraints<'a>),
    /// Of certificateIssuer (RFC 5280, 5.3.3), GeneralNames.
    CertificateIssuer(GeneralNames<'a>),
    /// Of certificatePolicies (RFC 5280, 4.2.1.4).
    CertificatePolicies(CertificatePolicies<'a>),
    /// Of cRLDistributionPoints (RFC 5280, 4.2.1.13).
    CrlDistributionPoints(CrlDistributionPoints<'a>),
    /// Of cRLNumber (RFC 5280, 5.2.3).
    CrlNumber(CrlNumber<'a>),
    /// Of reasonCode (RFC 5280, 5.3.1).
    CrlReason(CrlReason),
    /// Of deltaCRLIndicator (RFC 5280, 5.2.4), BaseCRLNumber.
    DeltaCrlIndicator(BaseCrlNumber<'a>),
    /// Of extKeyUsage (RFC 5280, 4.2.1.12).
    ExtendedKeyUsage(ExtendedKeyUsage<'a>),
    /// Of freshestCRL (RFC 5280, 4.2.1.15 and 5.2.6), CRLDistributionPoints.
    FreshestCrl(CrlDistributionPoints<'a>),
    /// Of inhibitAnyPolicy (RFC 5280, 4.2.1.14).
    InhibitAnyPolicy(InhibitAnyPolicy<'a>),
    /// Of invalidityDate (RFC 5280, 5.3.2).
    InvalidityDate(InvalidityDate),
    /// Of issuerAltName (RFC 5280, 4.2.1.7), GeneralNames.
    IssuerAltName(GeneralNames<'a>),
    /// Of issuingDistributionPoint (RFC 5280, 5.2.5).
    IssuingDistributionPoint(IssuingDistributionPoint<'a>),
    /// Of keyUsage (RFC 5280, 4.2.1.3).
    KeyUsage(KeyUsage<'a>),
    /// Of nameConstraints (RFC 5280, 4.2.1.10).
    NameConstraints(NameConstraints<'a>),
    /// Of policyConstraints (RFC 5280, 4.2.1.11).
    PolicyConstraints(PolicyConstraints<'a>),
    /// Of policyMappings (RFC 5280, 4.2.1.5).
    PolicyMappings(PolicyMappings<'a>),
    /// Of subjectAltName (RFC 5280, 4.2.1.6).
    SubjectAltName(SubjectAltName<'a>),
    /// Of subjectDirectoryAttributes (RFC 5280, 4.2.1.8).
    SubjectDirectoryAttributes(SubjectDirectoryAttributes<'a>),
    /// Of subjectInfoAccess (RFC 5280, 4.2.2.2), of the type of authorityInfoAccess.
    SubjectInfoAccess(AuthorityInfoAccess<'a>),
    /// Of subjectKeyIdentifier (RFC 5280, 4.2.1.2).
    SubjectKeyIdentifier(SubjectKeyIdentifier<'a>),
    /// The octets of every other extension.
    Other(&'a [u8]),
}

// Reads all of the octets as a value of the variant with the name of the extension.
macro_rules! read_value {
    ($extension:expr, $alloc:expr, $octets:expr; $($of:ident),+) => {
        match $extension {
            $(KnownExtension::$of => match parse_single($alloc, $octets) {
                Ok(value) => Ok(ExtensionValue::$of(value)),
                Err(error) => Err(error),
            },)+
        }
    };
}

impl<'a> Extension<'a> {
    /// The value, read as [`parse_single`] reads the type that `extn_id` names. For an extension that isn't a
    /// [`KnownExtension`] the value is the octets. Returns the first error of the octets if they aren't the encoding of
    /// a value of that type.
    pub fn value(&self, alloc: Global) -> ParseResult<ExtensionValue<'a>>
        ensures { ReadsExtension (elim [
          | known.AuthorityInfoAccess ↦ typed ⟦<AuthorityInfoAccess<'a> as Asn1Type>⟧.der
              value.AuthorityInfoAccess
          | known.AuthorityKeyIdentifier ↦ typed ⟦<AuthorityKeyIdentifier<'a> as Asn1Type>⟧.der
              value.AuthorityKeyIdentifier
          | known.BasicConstraints ↦ typed ⟦<BasicConstraints<'a> as Asn1Type>⟧.der
              value.BasicConstraints
          | known.CertificateIssuer ↦ typed ⟦<GeneralNames<'a> as Asn1Type>⟧.der
              value.CertificateIssuer
          | known.CertificatePolicies ↦ typed ⟦<CertificatePolicies<'a> as Asn1Type>⟧.der
              value.CertificatePolicies
          | known.CrlDistributionPoints ↦ typed ⟦<CrlDistributionPoints<'a> as Asn1Type>⟧.der
              value.CrlDistributionPoints
          | known.CrlNumber ↦ typed ⟦<CrlNumber<'a> as Asn1Type>⟧.der
              value.CrlNumber
          | known.CrlReason ↦ typed ⟦<CrlReason as Asn1Type>⟧.der
              value.CrlReason
          | known.DeltaCrlIndicator ↦ typed ⟦<BaseCrlNumber<'a> as Asn1Type>⟧.der
              value.DeltaCrlIndicator
          | known.ExtendedKeyUsage ↦ typed ⟦<ExtendedKeyUsage<'a> as Asn1Type>⟧.der
              value.ExtendedKeyUsage
          | known.FreshestCrl ↦ typed ⟦<CrlDistributionPoints<'a> as Asn1Type>⟧.der
              value.FreshestCrl
          | known.InhibitAnyPolicy ↦ typed ⟦<InhibitAnyPolicy<'a> as Asn1Type>⟧.der
              value.InhibitAnyPolicy
          | known.InvalidityDate ↦ typed ⟦<InvalidityDate as Asn1Type>⟧.der
              value.InvalidityDate
          | known.IssuerAltName ↦ typed ⟦<GeneralNames<'a> as Asn1Type>⟧.der
              value.IssuerAltName
          | known.IssuingDistributionPoint ↦ typed ⟦<IssuingDistributionPoint<'a> as Asn1Type>⟧.der
              value.IssuingDistributionPoint
          | known.KeyUsage ↦ typed ⟦<KeyUsage<'a> as Asn1Type>⟧.der
              value.KeyUsage
          | known.NameConstraints ↦ typed ⟦<NameConstraints<'a> as Asn1Type>⟧.der
              value.NameConstraints
          | known.PolicyConstraints ↦ typed ⟦<PolicyConstraints<'a> as Asn1Type>⟧.der
              value.PolicyConstraints
          | known.PolicyMappings ↦ typed ⟦<PolicyMappings<'a> as Asn1Type>⟧.der
              value.PolicyMappings
          | known.SubjectAltName ↦ typed ⟦<SubjectAltName<'a> as Asn1Type>⟧.der
              value.SubjectAltName
          | known.SubjectDirectoryAttributes ↦ typed
              ⟦<SubjectDirectoryAttributes<'a> as Asn1Type>⟧.der value.SubjectDirectoryAttributes
          | known.SubjectInfoAccess ↦ typed ⟦<AuthorityInfoAccess<'a> as Asn1Type>⟧.der
              value.SubjectInfoAccess
          | known.SubjectKeyIdentifier ↦ typed ⟦<SubjectKeyIdentifier<'a> as Asn1Type>⟧.der
              value.SubjectKeyIdentifier
        ]) value.Other (extension_with (identifier_of self.now.extn_id))
            self.now.extn_value result }
    {
        let octets = self.extn_value;
        let Some(extension) = KnownExtension::with_identifier(&self.extn_id) else {
            return Ok(ExtensionValue::Other(octets));
        };
        read_value!(extension, alloc, octets;
            AuthorityInfoAccess, AuthorityKeyIdentifier, BasicConstraints, CertificateIssuer,
            CertificatePolicies, CrlDistributionPoints, CrlNumber, CrlReason, DeltaCrlIndicator,
            ExtendedKeyUsage, FreshestCrl, InhibitAnyPolicy, InvalidityDate, IssuerAltName,
            IssuingDistributionPoint, KeyUsage, NameConstraints, PolicyConstraints, PolicyMappings,
            SubjectAltName, SubjectDirectoryAttributes, SubjectInfoAccess, SubjectKeyIdentifier)
    }
}
