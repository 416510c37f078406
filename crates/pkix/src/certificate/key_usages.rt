//! The bits of [`KeyUsage`](crate::certificate::extensions::KeyUsage) (RFC 5280, 4.2.1.3), by their numbers, as
//! [`NamedBits::has_bit_set`](crate::common::NamedBits::has_bit_set) takes them.

/// digitalSignature: signatures other than those of certificates and revocation lists.
pub const DIGITAL_SIGNATURE: usize = 0;

/// nonRepudiation, or contentCommitment: signatures that the signer can't deny.
pub const NON_REPUDIATION: usize = 1;

/// keyEncipherment: encryption of keys.
pub const KEY_ENCIPHERMENT: usize = 2;

/// dataEncipherment: encryption of data without a key between.
pub const DATA_ENCIPHERMENT: usize = 3;

/// keyAgreement: agreement on a key.
pub const KEY_AGREEMENT: usize = 4;

/// keyCertSign: signatures of certificates.
pub const KEY_CERT_SIGN: usize = 5;

/// cRLSign: signatures of revocation lists.
pub const CRL_SIGN: usize = 6;

/// encipherOnly: keys that were agreed on encrypt alone.
pub const ENCIPHER_ONLY: usize = 7;

/// decipherOnly: keys that were agreed on decrypt alone.
pub const DECIPHER_ONLY: usize = 8;
