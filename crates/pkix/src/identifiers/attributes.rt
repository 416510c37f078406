//! Types of attributes, in names (RFC 5280, A.1), in requests (RFC 2985, 5.4) and in signed data (RFC 5652, 11).
// Printed by tools/derive from declarations/identifiers/attributes.rs, with the sum e61d7836.

ghost use Rattle.std.specs.Prelude.{◌≡◌};
ghost use Rattle.asn1.specs.IdentifierValues.{identifier_of};
ghost use Rattle.pkix.specs.declared.identifiers.attributes.TheConstants.{CHALLENGE_PASSWORD_NUMBERS};
ghost use Rattle.pkix.specs.declared.identifiers.attributes.TheConstants.{COMMON_NAME_NUMBERS, CONTENT_TYPE_NUMBERS};
ghost use Rattle.pkix.specs.declared.identifiers.attributes.TheConstants.{COUNTRY_NAME_NUMBERS, DN_QUALIFIER_NUMBERS};
ghost use Rattle.pkix.specs.declared.identifiers.attributes.TheConstants.{DOMAIN_COMPONENT_NUMBERS};
ghost use Rattle.pkix.specs.declared.identifiers.attributes.TheConstants.{EMAIL_ADDRESS_NUMBERS};
ghost use Rattle.pkix.specs.declared.identifiers.attributes.TheConstants.{EXTENSION_REQUEST_NUMBERS};
ghost use Rattle.pkix.specs.declared.identifiers.attributes.TheConstants.{GENERATION_QUALIFIER_NUMBERS};
ghost use Rattle.pkix.specs.declared.identifiers.attributes.TheConstants.{GIVEN_NAME_NUMBERS, INITIALS_NUMBERS};
ghost use Rattle.pkix.specs.declared.identifiers.attributes.TheConstants.{LOCALITY_NAME_NUMBERS};
ghost use Rattle.pkix.specs.declared.identifiers.attributes.TheConstants.{MESSAGE_DIGEST_NUMBERS};
ghost use Rattle.pkix.specs.declared.identifiers.attributes.TheConstants.{ORGANIZATIONAL_UNIT_NAME_NUMBERS};
ghost use Rattle.pkix.specs.declared.identifiers.attributes.TheConstants.{ORGANIZATION_NAME_NUMBERS};
ghost use Rattle.pkix.specs.declared.identifiers.attributes.TheConstants.{PSEUDONYM_NUMBERS, SERIAL_NUMBER_NUMBERS};
ghost use Rattle.pkix.specs.declared.identifiers.attributes.TheConstants.{SIGNING_TIME_NUMBERS};
ghost use Rattle.pkix.specs.declared.identifiers.attributes.TheConstants.{STATE_OR_PROVINCE_NAME_NUMBERS};
ghost use Rattle.pkix.specs.declared.identifiers.attributes.TheConstants.{SURNAME_NUMBERS, TITLE_NUMBERS};

use asn1::ObjectIdentifier;
use asn1::fields::known_identifier;

/// The numbers of [`common_name`], as they are encoded: the first means two.
pub const COMMON_NAME_NUMBERS: [u64; 3] = [85, 4, 3];

/// id-at-commonName.
pub fn common_name() -> ObjectIdentifier
    ensures { identifier_of result ≡ COMMON_NAME_NUMBERS }
{
    known_identifier(b"\x55\x04\x03")
}

/// The numbers of [`surname`], as they are encoded: the first means two.
pub const SURNAME_NUMBERS: [u64; 3] = [85, 4, 4];

/// id-at-surname.
pub fn surname() -> ObjectIdentifier
    ensures { identifier_of result ≡ SURNAME_NUMBERS }
{
    known_identifier(b"\x55\x04\x04")
}

/// The numbers of [`serial_number`], as they are encoded: the first means two.
pub const SERIAL_NUMBER_NUMBERS: [u64; 3] = [85, 4, 5];

/// id-at-serialNumber: the number of a device or a person, and not that of a certificate.
pub fn serial_number() -> ObjectIdentifier
    ensures { identifier_of result ≡ SERIAL_NUMBER_NUMBERS }
{
    known_identifier(b"\x55\x04\x05")
}

/// The numbers of [`country_name`], as they are encoded: the first means two.
pub const COUNTRY_NAME_NUMBERS: [u64; 3] = [85, 4, 6];

/// id-at-countryName: two letters of ISO 3166, a PrintableString.
pub fn country_name() -> ObjectIdentifier
    ensures { identifier_of result ≡ COUNTRY_NAME_NUMBERS }
{
    known_identifier(b"\x55\x04\x06")
}

/// The numbers of [`locality_name`], as they are encoded: the first means two.
pub const LOCALITY_NAME_NUMBERS: [u64; 3] = [85, 4, 7];

/// id-at-localityName.
pub fn locality_name() -> ObjectIdentifier
    ensures { identifier_of result ≡ LOCALITY_NAME_NUMBERS }
{
    known_identifier(b"\x55\x04\x07")
}

/// The numbers of [`state_or_province_name`], as they are encoded: the first means two.
pub const STATE_OR_PROVINCE_NAME_NUMBERS: [u64; 3] = [85, 4, 8];

/// id-at-stateOrProvinceName.
pub fn state_or_province_name() -> ObjectIdentifier
    ensures { identifier_of result ≡ STATE_OR_PROVINCE_NAME_NUMBERS }
{
    known_identifier(b"\x55\x04\x08")
}

/// The numbers of [`organization_name`], as they are encoded: the first means two.
pub const ORGANIZATION_NAME_NUMBERS: [u64; 3] = [85, 4, 10];

/// id-at-organizationName.
pub fn organization_name() -> ObjectIdentifier
    ensures { identifier_of result ≡ ORGANIZATION_NAME_NUMBERS }
{
    known_identifier(b"\x55\x04\x0a")
}

/// The numbers of [`organizational_unit_name`], as they are encoded: the first means two.
pub const ORGANIZATIONAL_UNIT_NAME_NUMBERS: [u64; 3] = [85, 4, 11];

/// id-at-organizationalUnitName.
pub fn organizational_unit_name() -> ObjectIdentifier
    ensures { identifier_of result ≡ ORGANIZATIONAL_UNIT_NAME_NUMBERS }
{
    known_identifier(b"\x55\x04\x0b")
}

/// The numbers of [`title`], as they are encoded: the first means two.
pub const TITLE_NUMBERS: [u64; 3] = [85, 4, 12];

/// id-at-title.
pub fn title() -> ObjectIdentifier
    ensures { identifier_of result ≡ TITLE_NUMBERS }
{
    known_identifier(b"\x55\x04\x0c")
}

/// The numbers of [`given_name`], as they are encoded: the first means two.
pub const GIVEN_NAME_NUMBERS: [u64; 3] = [85, 4, 42];

/// id-at-givenName.
pub fn given_name() -> ObjectIdentifier
    ensures { identifier_of result ≡ GIVEN_NAME_NUMBERS }
{
    known_identifier(b"\x55\x04\x2a")
}

/// The numbers of [`initials`], as they are encoded: the first means two.
pub const INITIALS_NUMBERS: [u64; 3] = [85, 4, 43];

/// id-at-initials.
pub fn initials() -> ObjectIdentifier
    ensures { identifier_of result ≡ INITIALS_NUMBERS }
{
    known_identifier(b"\x55\x04\x2b")
}

/// The numbers of [`generation_qualifier`], as they are encoded: the first means two.
pub const GENERATION_QUALIFIER_NUMBERS: [u64; 3] = [85, 4, 44];

/// id-at-generationQualifier.
pub fn generation_qualifier() -> ObjectIdentifier
    ensures { identifier_of result ≡ GENERATION_QUALIFIER_NUMBERS }
{
    known_identifier(b"\x55\x04\x2c")
}

/// The numbers of [`dn_qualifier`], as they are encoded: the first means two.
pub const DN_QUALIFIER_NUMBERS: [u64; 3] = [85, 4, 46];

/// id-at-dnQualifier, a PrintableString.
pub fn dn_qualifier() -> ObjectIdentifier
    ensures { identifier_of result ≡ DN_QUALIFIER_NUMBERS }
{
    known_identifier(b"\x55\x04\x2e")
}

/// The numbers of [`pseudonym`], as they are encoded: the first means two.
pub const PSEUDONYM_NUMBERS: [u64; 3] = [85, 4, 65];

/// id-at-pseudonym.
pub fn pseudonym() -> ObjectIdentifier
    ensures { identifier_of result ≡ PSEUDONYM_NUMBERS }
{
    known_identifier(b"\x55\x04\x41")
}

/// The numbers of [`domain_component`], as they are encoded: the first means two.
pub const DOMAIN_COMPONENT_NUMBERS: [u64; 6] = [9, 2342, 19200300, 100, 1, 25];

/// id-domainComponent, an IA5String.
pub fn domain_component() -> ObjectIdentifier
    ensures { identifier_of result ≡ DOMAIN_COMPONENT_NUMBERS }
{
    known_identifier(b"\x09\x92\x26\x89\x93\xf2\x2c\x64\x01\x19")
}

/// The numbers of [`email_address`], as they are encoded: the first means two.
pub const EMAIL_ADDRESS_NUMBERS: [u64; 6] = [42, 840, 113549, 1, 9, 1];

/// id-emailAddress, an IA5String.
pub fn email_address() -> ObjectIdentifier
    ensures { identifier_of result ≡ EMAIL_ADDRESS_NUMBERS }
{
    known_identifier(b"\x2a\x86\x48\x86\xf7\x0d\x01\x09\x01")
}

/// The numbers of [`content_type`], as they are encoded: the first means two.
pub const CONTENT_TYPE_NUMBERS: [u64; 6] = [42, 840, 113549, 1, 9, 3];

/// id-contentType: [`ContentType`](crate::signatures::ContentType).
pub fn content_type() -> ObjectIdentifier
    ensures { identifier_of result ≡ CONTENT_TYPE_NUMBERS }
{
    known_identifier(b"\x2a\x86\x48\x86\xf7\x0d\x01\x09\x03")
}

/// The numbers of [`message_digest`], as they are encoded: the first means two.
pub const MESSAGE_DIGEST_NUMBERS: [u64; 6] = [42, 840, 113549, 1, 9, 4];

/// id-messageDigest: [`MessageDigest`](crate::signatures::MessageDigest).
pub fn message_digest() -> ObjectIdentifier
    ensures { identifier_of result ≡ MESSAGE_DIGEST_NUMBERS }
{
    known_identifier(b"\x2a\x86\x48\x86\xf7\x0d\x01\x09\x04")
}

/// The numbers of [`signing_time`], as they are encoded: the first means two.
pub const SIGNING_TIME_NUMBERS: [u64; 6] = [42, 840, 113549, 1, 9, 5];

/// id-signingTime: [`SigningTime`](crate::signatures::SigningTime).
pub fn signing_time() -> ObjectIdentifier
    ensures { identifier_of result ≡ SIGNING_TIME_NUMBERS }
{
    known_identifier(b"\x2a\x86\x48\x86\xf7\x0d\x01\x09\x05")
}

/// The numbers of [`challenge_password`], as they are encoded: the first means two.
pub const CHALLENGE_PASSWORD_NUMBERS: [u64; 6] = [42, 840, 113549, 1, 9, 7];

/// challengePassword: a password to revoke the certificate by, a DirectoryString.
pub fn challenge_password() -> ObjectIdentifier
    ensures { identifier_of result ≡ CHALLENGE_PASSWORD_NUMBERS }
{
    known_identifier(b"\x2a\x86\x48\x86\xf7\x0d\x01\x09\x07")
}

/// The numbers of [`extension_request`], as they are encoded: the first means two.
pub const EXTENSION_REQUEST_NUMBERS: [u64; 6] = [42, 840, 113549, 1, 9, 14];

/// extensionRequest: [`Extensions`](crate::common::Extensions) that the certificate is to have.
pub fn extension_request() -> ObjectIdentifier
    ensures { identifier_of result ≡ EXTENSION_REQUEST_NUMBERS }
{
    known_identifier(b"\x2a\x86\x48\x86\xf7\x0d\x01\x09\x0e")
}
