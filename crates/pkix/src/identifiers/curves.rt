//! Curves, the parameters of keys of elliptic curves (RFC 5480, 2.1.1.1; SEC 2).
// Printed by tools/derive from declarations/identifiers/curves.rs, with the sum 627f2761.

ghost use Rattle.std.specs.Prelude.{◌≡◌};
ghost use Rattle.asn1.specs.IdentifierValues.{identifier_of};
ghost use Rattle.pkix.specs.declared.identifiers.curves.TheConstants.{SECP192R1_NUMBERS, SECP224R1_NUMBERS};
ghost use Rattle.pkix.specs.declared.identifiers.curves.TheConstants.{SECP256K1_NUMBERS, SECP256R1_NUMBERS};
ghost use Rattle.pkix.specs.declared.identifiers.curves.TheConstants.{SECP384R1_NUMBERS, SECP521R1_NUMBERS};

use asn1::ObjectIdentifier;
use asn1::fields::known_identifier;

/// The numbers of [`secp192r1`], as they are encoded: the first means two.
pub const SECP192R1_NUMBERS: [u64; 6] = [42, 840, 10045, 3, 1, 1];

/// secp192r1: P-192.
pub fn secp192r1() -> ObjectIdentifier
    ensures { identifier_of result ≡ SECP192R1_NUMBERS }
{
    known_identifier(b"\x2a\x86\x48\xce\x3d\x03\x01\x01")
}

/// The numbers of [`secp224r1`], as they are encoded: the first means two.
pub const SECP224R1_NUMBERS: [u64; 4] = [43, 132, 0, 33];

/// secp224r1: P-224.
pub fn secp224r1() -> ObjectIdentifier
    ensures { identifier_of result ≡ SECP224R1_NUMBERS }
{
    known_identifier(b"\x2b\x81\x04\x00\x21")
}

/// The numbers of [`secp256r1`], as they are encoded: the first means two.
pub const SECP256R1_NUMBERS: [u64; 6] = [42, 840, 10045, 3, 1, 7];

/// secp256r1: P-256.
pub fn secp256r1() -> ObjectIdentifier
    ensures { identifier_of result ≡ SECP256R1_NUMBERS }
{
    known_identifier(b"\x2a\x86\x48\xce\x3d\x03\x01\x07")
}

/// The numbers of [`secp384r1`], as they are encoded: the first means two.
pub const SECP384R1_NUMBERS: [u64; 4] = [43, 132, 0, 34];

/// secp384r1: P-384.
pub fn secp384r1() -> ObjectIdentifier
    ensures { identifier_of result ≡ SECP384R1_NUMBERS }
{
    known_identifier(b"\x2b\x81\x04\x00\x22")
}

/// The numbers of [`secp521r1`], as they are encoded: the first means two.
pub const SECP521R1_NUMBERS: [u64; 4] = [43, 132, 0, 35];

/// secp521r1: P-521.
pub fn secp521r1() -> ObjectIdentifier
    ensures { identifier_of result ≡ SECP521R1_NUMBERS }
{
    known_identifier(b"\x2b\x81\x04\x00\x23")
}

/// The numbers of [`secp256k1`], as they are encoded: the first means two.
pub const SECP256K1_NUMBERS: [u64; 4] = [43, 132, 0, 10];

/// secp256k1, which SEC 2 has.
pub fn secp256k1() -> ObjectIdentifier
    ensures { identifier_of result ≡ SECP256K1_NUMBERS }
{
    known_identifier(b"\x2b\x81\x04\x00\x0a")
}
