//! Purposes of keys (RFC 5280, 4.2.1.12), the items of
//! [`ExtendedKeyUsage`](crate::certificate::extensions::ExtendedKeyUsage).
// Printed by tools/derive from declarations/identifiers/purposes.rs, with the sum b843d400.

ghost use Rattle.std.specs.Prelude.{◌≡◌};
ghost use Rattle.asn1.specs.IdentifierValues.{identifier_of};
ghost use Rattle.pkix.specs.declared.identifiers.purposes.TheConstants.{ANY_EXTENDED_KEY_USAGE_NUMBERS};
ghost use Rattle.pkix.specs.declared.identifiers.purposes.TheConstants.{CLIENT_AUTH_NUMBERS, CODE_SIGNING_NUMBERS};
ghost use Rattle.pkix.specs.declared.identifiers.purposes.TheConstants.{EMAIL_PROTECTION_NUMBERS};
ghost use Rattle.pkix.specs.declared.identifiers.purposes.TheConstants.{OCSP_SIGNING_NUMBERS, SERVER_AUTH_NUMBERS};
ghost use Rattle.pkix.specs.declared.identifiers.purposes.TheConstants.{TIME_STAMPING_NUMBERS};

use asn1::ObjectIdentifier;
use asn1::fields::known_identifier;

/// The numbers of [`any_extended_key_usage`], as they are encoded: the first means two.
pub const ANY_EXTENDED_KEY_USAGE_NUMBERS: [u64; 4] = [85, 29, 37, 0];

/// anyExtendedKeyUsage: each purpose.
pub fn any_extended_key_usage() -> ObjectIdentifier
    ensures { identifier_of result ≡ ANY_EXTENDED_KEY_USAGE_NUMBERS }
{
    known_identifier(b"\x55\x1d\x25\x00")
}

/// The numbers of [`server_auth`], as they are encoded: the first means two.
pub const SERVER_AUTH_NUMBERS: [u64; 8] = [43, 6, 1, 5, 5, 7, 3, 1];

/// id-kp-serverAuth: servers of TLS.
pub fn server_auth() -> ObjectIdentifier
    ensures { identifier_of result ≡ SERVER_AUTH_NUMBERS }
{
    known_identifier(b"\x2b\x06\x01\x05\x05\x07\x03\x01")
}

/// The numbers of [`client_auth`], as they are encoded: the first means two.
pub const CLIENT_AUTH_NUMBERS: [u64; 8] = [43, 6, 1, 5, 5, 7, 3, 2];

/// id-kp-clientAuth: clients of TLS.
pub fn client_auth() -> ObjectIdentifier
    ensures { identifier_of result ≡ CLIENT_AUTH_NUMBERS }
{
    known_identifier(b"\x2b\x06\x01\x05\x05\x07\x03\x02")
}

/// The numbers of [`code_signing`], as they are encoded: the first means two.
pub const CODE_SIGNING_NUMBERS: [u64; 8] = [43, 6, 1, 5, 5, 7, 3, 3];

/// id-kp-codeSigning: programs.
pub fn code_signing() -> ObjectIdentifier
    ensures { identifier_of result ≡ CODE_SIGNING_NUMBERS }
{
    known_identifier(b"\x2b\x06\x01\x05\x05\x07\x03\x03")
}

/// The numbers of [`email_protection`], as they are encoded: the first means two.
pub const EMAIL_PROTECTION_NUMBERS: [u64; 8] = [43, 6, 1, 5, 5, 7, 3, 4];

/// id-kp-emailProtection: electronic mail.
pub fn email_protection() -> ObjectIdentifier
    ensures { identifier_of result ≡ EMAIL_PROTECTION_NUMBERS }
{
    known_identifier(b"\x2b\x06\x01\x05\x05\x07\x03\x04")
}

/// The numbers of [`time_stamping`], as they are encoded: the first means two.
pub const TIME_STAMPING_NUMBERS: [u64; 8] = [43, 6, 1, 5, 5, 7, 3, 8];

/// id-kp-timeStamping: time stamps.
pub fn time_stamping() -> ObjectIdentifier
    ensures { identifier_of result ≡ TIME_STAMPING_NUMBERS }
{
    known_identifier(b"\x2b\x06\x01\x05\x05\x07\x03\x08")
}

/// The numbers of [`ocsp_signing`], as they are encoded: the first means two.
pub const OCSP_SIGNING_NUMBERS: [u64; 8] = [43, 6, 1, 5, 5, 7, 3, 9];

/// id-kp-OCSPSigning: responses of OCSP.
pub fn ocsp_signing() -> ObjectIdentifier
    ensures { identifier_of result ≡ OCSP_SIGNING_NUMBERS }
{
    known_identifier(b"\x2b\x06\x01\x05\x05\x07\x03\x09")
}
