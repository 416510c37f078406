//! Values of extensions (RFC 5280, 4.2.1 and 4.2.2): each type is what the octets of an extension hold.
// Printed by tools/derive from declarations/certificate/extensions.rs, with the sum 8a150205.

ghost use Rattle.std.specs.Prelude.{◌≡◌, ◌∷◌, [], false, IsTrue};
ghost use Rattle.asn1.specs.Options.{option_meaning};
ghost use Rattle.asn1.specs.Reads.{HasOneEncoding, ReadsContents};
ghost use Rattle.asn1.specs.Structures.{defaulted, field_names, implicit, structure, fields2, fields3};

use crate::common::{Attribute, GeneralNames, NamedBits};
use asn1::fields::{Fields2, Fields3, Row};
use asn1::{
    Asn1Type, Asn1Writable, BigInt, BigUint, DefaultValue, Defaulted, Implicit, ObjectIdentifier,
    ParseResult, SequenceOf, SimpleAsn1Readable, SimpleAsn1Writable, Tag, WriteBuf, WriteError,
    WriteResult, fields_length, known_fields, read_fields, write_fields,
};
use std::alloc::Global;

/// BasicConstraints (RFC 5280, 4.2.1.9), a SEQUENCE; identifier 2.5.29.19.
#[derive(Debug, Clone, Copy, PartialEq, Eq)]
pub struct BasicConstraints<'a> {
    /// Whether the subject may sign certificates.
    pub ca: bool,
    /// How many certificates that aren't issued by their own subject may follow in a path.
    pub path_len_constraint: Option<BigUint<'a>>,
}

impl<'a> BasicConstraints<'a> {
    /// The fields that have another name in ASN.1 than theirs with capitals, as errors name them, with that name.
    pub const NAMES: &'static [(&'static str, &'static str)] = &[("BasicConstraints::ca", "cA")];
}

/// What `ca` is if it is left out.
pub struct BasicConstraintsCa;

impl DefaultValue<bool> for BasicConstraintsCa {
    ghost default = { false };

    fn value() -> bool {
        false
    }
}

type BasicConstraintsCaField = Defaulted<bool, BasicConstraintsCa>;

type BasicConstraintsFields<'a> = Fields2<BasicConstraintsCaField, Option<BigUint<'a>>>;

impl<'a> Asn1Type for BasicConstraints<'a> {
    ghost der = { structure (λ v. fields2 (defaulted v.ca) v.path_len_constraint)
        ⟦<BasicConstraintsFields<'a> as Row>⟧.list (field_names "BasicConstraints" ("ca" ∷
        "path_len_constraint" ∷ [])) };

    fn known(&self) {
        known_fields!(self; ca: BasicConstraintsCaField, path_len_constraint)
    }
}

impl<'a> SimpleAsn1Readable<'a> for BasicConstraints<'a> {
    fn tag() -> Tag
        ensures value { result ≡ ⟦<BasicConstraints<'a> as Asn1Type>⟧.der.content.tag }
        ensures simple { ⟦<BasicConstraints<'a> as Asn1Type>⟧.der.is_simple }
        ensures plain { ⟦<BasicConstraints<'a> as Asn1Type>⟧.der.plain }
        ensures read { ⟦<BasicConstraints<'a> as Asn1Type>⟧.der.is_read }
    {
        Tag::constructed(0x10)
    }

    fn parse_data(alloc: Global, data: &'a [u8]) -> ParseResult<BasicConstraints<'a>>
        ensures { ReadsContents ⟦<BasicConstraints<'a> as Asn1Type>⟧.der «data».entry.now result }
    {
        read_fields!(BasicConstraintsFields<'a>, alloc, data => BasicConstraints;
            ca: BasicConstraintsCaField, path_len_constraint)
    }
}

impl<'a> SimpleAsn1Writable for BasicConstraints<'a> {
    type Error = WriteError;

    ghost length_known = { λ _. Unit {0} };

    fn tag() -> Tag
        ensures value { result ≡ ⟦<BasicConstraints<'a> as Asn1Type>⟧.der.content.tag }
        ensures simple { ⟦<BasicConstraints<'a> as Asn1Type>⟧.der.is_simple }
    {
        Tag::constructed(0x10)
    }

    fn write_data(&self, dest: &mut WriteBuf) -> WriteResult<()> {
        write_fields!(self, dest; ca: BasicConstraintsCaField, path_len_constraint)
    }

    fn data_length(&self) -> Option<usize> {
        fields_length!(self; ca: BasicConstraintsCaField, path_len_constraint)
    }

    fn writes_as_read() -> bool
        ensures { IsTrue result }
    {
        true
    }
}

/// AuthorityKeyIdentifier (RFC 5280, 4.2.1.1), a SEQUENCE; identifier 2.5.29.35. That it has both or neither of the
/// issuer and the serial number isn't checked.
#[derive(Debug, Clone, PartialEq, Eq, Drop)]
pub struct AuthorityKeyIdentifier<'a> {
    /// The identifier of the key that signed.
    pub key_identifier: Option<&'a [u8]>,
    /// The issuer of that key's certificate.
    pub authority_cert_issuer: Option<GeneralNames<'a>>,
    /// The serial number of that certificate.
    pub authority_cert_serial_number: Option<BigInt<'a>>,
}

type AuthorityKeyIdentifierKeyIdentifierField<'a> = Option<Implicit<&'a [u8], 0>>;

type AuthorityKeyIdentifierAuthorityCertIssuerField<'a> = Option<Implicit<GeneralNames<'a>, 1>>;

type AuthorityKeyIdentifierAuthorityCertSerialNumberField<'a> = Option<Implicit<BigInt<'a>, 2>>;

type AuthorityKeyIdentifierFields<'a> = Fields3<
    AuthorityKeyIdentifierKeyIdentifierField<'a>,
    AuthorityKeyIdentifierAuthorityCertIssuerField<'a>,
    AuthorityKeyIdentifierAuthorityCertSerialNumberField<'a>,
>;

macro_rules! fields_of_authority_key_identifier {
    ($body:ident, $($of:tt)*) => { $body!($($of)*;
        key_identifier: AuthorityKeyIdentifierKeyIdentifierField<'a>,
        authority_cert_issuer: AuthorityKeyIdentifierAuthorityCertIssuerField<'a>,
        authority_cert_serial_number: AuthorityKeyIdentifierAuthorityCertSerialNumberField<'a>) };
}

impl<'a> Asn1Type for AuthorityKeyIdentifier<'a> {
    ghost der = { structure (λ v. fields3 (option_meaning implicit v.key_identifier) (option_meaning
        implicit v.authority_cert_issuer) (option_meaning implicit v.authority_cert_serial_number))
        ⟦<AuthorityKeyIdentifierFields<'a> as Row>⟧.list (field_names "AuthorityKeyIdentifier"
        ("key_identifier" ∷ "authority_cert_issuer" ∷ "authority_cert_serial_number" ∷ [])) };

    fn known(&self) {
        fields_of_authority_key_identifier!(known_fields, self)
    }
}

impl<'a> SimpleAsn1Readable<'a> for AuthorityKeyIdentifier<'a> {
    fn tag() -> Tag
        ensures value { result ≡ ⟦<AuthorityKeyIdentifier<'a> as Asn1Type>⟧.der.content.tag }
        ensures simple { ⟦<AuthorityKeyIdentifier<'a> as Asn1Type>⟧.der.is_simple }
        ensures plain { ⟦<AuthorityKeyIdentifier<'a> as Asn1Type>⟧.der.plain }
        ensures read { ⟦<AuthorityKeyIdentifier<'a> as Asn1Type>⟧.der.is_read }
    {
        Tag::constructed(0x10)
    }

    fn parse_data(alloc: Global, data: &'a [u8]) -> ParseResult<AuthorityKeyIdentifier<'a>>
        ensures { ReadsContents ⟦<AuthorityKeyIdentifier<'a> as Asn1Type>⟧.der «data».entry.now
            result }
    {
        fields_of_authority_key_identifier!(read_fields,
            AuthorityKeyIdentifierFields<'a>, alloc, data => AuthorityKeyIdentifier)
    }
}

impl<'a> SimpleAsn1Writable for AuthorityKeyIdentifier<'a> {
    type Error = WriteError;

    ghost length_known = { λ v.
        ⟦<Option<Implicit<GeneralNames<'a>, 1>> as Asn1Writable>⟧.length_known (option_meaning
        implicit v.authority_cert_issuer) };

    fn tag() -> Tag
        ensures value { result ≡ ⟦<AuthorityKeyIdentifier<'a> as Asn1Type>⟧.der.content.tag }
        ensures simple { ⟦<AuthorityKeyIdentifier<'a> as Asn1Type>⟧.der.is_simple }
    {
        Tag::constructed(0x10)
    }

    fn write_data(&self, dest: &mut WriteBuf) -> WriteResult<()> {
        fields_of_authority_key_identifier!(write_fields, self, dest)
    }

    fn data_length(&self) -> Option<usize> {
        fields_of_authority_key_identifier!(fields_length, self)
    }

    fn writes_as_read() -> bool
        ensures { IsTrue result }
    {
        true
    }
}

/// SubjectKeyIdentifier (RFC 5280, 4.2.1.2), an OCTET STRING; identifier 2.5.29.14.
pub type SubjectKeyIdentifier<'a> = &'a [u8];

/// KeyUsage (RFC 5280, 4.2.1.3), a BIT STRING with named bits; identifier 2.5.29.15. That at least one bit is set isn't
/// checked.
pub type KeyUsage<'a> = NamedBits<'a>;

/// SubjectAltName (RFC 5280, 4.2.1.6), GeneralNames; identifier 2.5.29.17.
pub type SubjectAltName<'a> = GeneralNames<'a>;

/// SubjectDirectoryAttributes (RFC 5280, 4.2.1.8), a SEQUENCE of at least one Attribute; identifier 2.5.29.9.
pub type SubjectDirectoryAttributes<'a> = SequenceOf<'a, Attribute<'a>, 1, { usize::MAX }>;

/// ExtKeyUsageSyntax (RFC 5280, 4.2.1.12), a SEQUENCE of at least one purpose; identifier 2.5.29.37.
pub type ExtendedKeyUsage<'a> = SequenceOf<'a, ObjectIdentifier, 1, { usize::MAX }>;

/// The laws of the types, which do nothing.
pub mod laws {
    use super::{
        AuthorityKeyIdentifier, BasicConstraints, ExtendedKeyUsage, KeyUsage, SubjectAltName,
        SubjectDirectoryAttributes, SubjectKeyIdentifier,
    };
    use asn1::Asn1Type;

    /// Each value of `BasicConstraints` has one encoding, which is read back.
    pub fn basic_constraints_is_lawful()
        ensures { HasOneEncoding ⟦<BasicConstraints<'static> as Asn1Type>⟧.der }
    {}

    /// Each value of `AuthorityKeyIdentifier` has one encoding, which is read back.
    pub fn authority_key_identifier_is_lawful()
        ensures { HasOneEncoding ⟦<AuthorityKeyIdentifier<'static> as Asn1Type>⟧.der }
    {
        crate::common::laws::general_names_is_lawful();
    }

    /// Each value of `SubjectKeyIdentifier` has one encoding, which is read back.
    pub fn subject_key_identifier_is_lawful()
        ensures { HasOneEncoding ⟦<SubjectKeyIdentifier<'static> as Asn1Type>⟧.der }
    {}

    /// Each value of `KeyUsage` has one encoding, which is read back.
    pub fn key_usage_is_lawful()
        ensures { HasOneEncoding ⟦<KeyUsage<'static> as Asn1Type>⟧.der }
    {
        crate::common::laws::named_bits_is_lawful();
    }

    /// Each value of `SubjectAltName` has one encoding, which is read back.
    pub fn subject_alt_name_is_lawful()
        ensures { HasOneEncoding ⟦<SubjectAltName<'static> as Asn1Type>⟧.der }
    {
        crate::common::laws::general_names_is_lawful();
    }

    /// Each value of `SubjectDirectoryAttributes` has one encoding, which is read back.
    pub fn subject_directory_attributes_is_lawful()
        ensures { HasOneEncoding ⟦<SubjectDirectoryAttributes<'static> as Asn1Type>⟧.der }
    {
        crate::common::laws::attribute_is_lawful();
    }

    /// Each value of `ExtendedKeyUsage` has one encoding, which is read back.
    pub fn extended_key_usage_is_lawful()
        ensures { HasOneEncoding ⟦<ExtendedKeyUsage<'static> as Asn1Type>⟧.der }
    {}
}
