//! What an input is by its first octets: an object of a kind, or another document.

use crate::kinds::Kind;
use asn1::{ParseErrorKind, strip_tlv};
use std::alloc::{AllocError, Global};

/// How many elements are looked at.
const COUNT: usize = 12;

/// How the objects of the kinds begin: the identifier octets of their first elements, each before those within it. If
/// several rows fit, the first is the likeliest.
pub(crate) const BEGINNINGS: &[(&[u8], Kind)] = &[
    (b"\x30\x30\xa0", Kind::Certificate),
    (b"\x30\x30\x02\x30\x06\xa0", Kind::TimestampResponse),
    (b"\x30\x30\x02\x30\x06", Kind::Crl),
    (b"\x30\x30\x02\x30\x06", Kind::Certificate),
    (b"\x30\x30\x02\x30\x31", Kind::Request),
    (b"\x30\x30\x02\x30\x30\x30", Kind::Request),
    (b"\x30\x30\x02", Kind::TimestampResponse),
    (b"\x30\x30\x30\x06", Kind::Crl),
    (b"\x30\x30\x06\x04", Kind::Signature),
    (b"\x30\x30\x06\x05\x04", Kind::Signature),
    (b"\x30\x30\x06", Kind::Key),
    (b"\x30\x06", Kind::Signature),
    (b"\x30\x02\x30\x30", Kind::TimestampRequest),
    (b"\x30\x02\x30\x06", Kind::Key),
    (b"\x30\x02\x02", Kind::Key),
    (b"\x30\x02\x04", Kind::Key),
];

const OCSP_REQUEST: &str = "a request of OCSP; `openssl ocsp` shows it";

const OCSP_RESPONSE: &str = "a response of OCSP; `openssl ocsp` shows it";

const PKCS12: &str = "PKCS #12; `openssl pkcs12` shows it";

const DSA_KEY: &str = "a private key of DSA; `openssl pkey` makes it PKCS #8";

const PARAMETERS: &str = "parameters of DSA or Diffie-Hellman";

const DH_PARAMETERS: &str = "parameters of Diffie-Hellman; `openssl dhparam` shows them";

const CURVE: &str = "an identifier, as of an elliptic curve";

const BER: &str = "BER, whose first length is indefinite, and not DER";

const UTF16: &str = "text in UTF-16, and not PEM";

const JAVA: &str = "a key store of Java; `keytool` shows it";

const SSH: &str = "a public key of SSH; `ssh-keygen -e -m PKCS8` converts it";

const SSH2: &str = "a public key of SSH; `ssh-keygen -i` converts it";

const SSH_TOKEN: &str = "a public key of SSH";

const PUTTY: &str = "a key of PuTTY; `puttygen` converts it";

const SMIME: &str = "S/MIME; `openssl cms -verify` shows it";

const BASE64: &str = "base64 without the lines of PEM around it";

const HEX: &str = "hex, and not the octets themselves";

/// How other documents in DER begin, likewise. A zero octet stands for the end of the input.
const OTHERS: &[(&[u8], &str)] = &[
    (b"\x06\x00", CURVE),
    (b"\x30\x0a", OCSP_RESPONSE),
    (b"\x30\x30\x30\x30", OCSP_REQUEST),
    (b"\x30\x30\xa1\x81", OCSP_REQUEST),
    (b"\x30\x30\xa1\x82", OCSP_REQUEST),
    (b"\x30\x30\xa1\xa4", OCSP_REQUEST),
    (b"\x30\x30\xa1\x86", OCSP_REQUEST),
    (b"\x30\x02\x30\x06\xa0", PKCS12),
    (b"\x30\x02\x02\x02\x00", PARAMETERS),
    (b"\x30\x02\x02\x02\x02\x02\x02\x00", DSA_KEY),
];

/// The first octets of what isn't in DER.
const STARTS: &[(&[u8], &str)] = &[
    (b"\x30\x80", BER),
    (b"\xff\xfe", UTF16),
    (b"\xfe\xff", UTF16),
    (b"-\x00-\x00", UTF16),
    (b"\x00-\x00-", UTF16),
    (b"\xfe\xed\xfe\xed", JAVA),
    (b"\xce\xce\xce\xce", JAVA),
    (b"ssh-", SSH),
    (b"ecdsa-sha2-", SSH),
    (b"sk-", SSH_TOKEN),
    (b"---- BEGIN SSH2", SSH2),
    (b"PuTTY-User-Key-File", PUTTY),
    (b"MIME-Version:", SMIME),
    (b"MC4C", BASE64),
    (b"MCow", BASE64),
    (b"MFkw", BASE64),
    (b"MFow", BASE64),
    (b"MHYw", BASE64),
    (b"MHcC", BASE64),
    (b"MIG", BASE64),
    (b"MIH", BASE64),
    (b"MII", BASE64),
    (b"308", HEX),
    (b"30 8", HEX),
];

/// The labels in PEM of other documents.
const OTHER_LABELS: &[(&[u8], &str)] = &[
    (
        b"ATTRIBUTE CERTIFICATE",
        "a certificate of attributes (RFC 5755)",
    ),
    (b"DH PARAMETERS", DH_PARAMETERS),
    (
        b"DSA PARAMETERS",
        "parameters of DSA; `openssl dsaparam` shows them",
    ),
    (b"DSA PRIVATE KEY", DSA_KEY),
    (
        b"EC PARAMETERS",
        "parameters of elliptic curves; `openssl ecparam` shows them",
    ),
    (b"OCSP REQUEST", OCSP_REQUEST),
    (b"OCSP RESPONSE", OCSP_RESPONSE),
    (
        b"OPENSSH PRIVATE KEY",
        "a private key of SSH; `ssh-keygen -p -m PKCS8` converts it",
    ),
    (b"PGP", "OpenPGP; `gpg` shows it"),
    (b"PKCS12", PKCS12),
    (
        b"TRUSTED CERTIFICATE",
        "a certificate that OpenSSL trusts; `openssl x509` writes the certificate",
    ),
    (b"X9.42 DH PARAMETERS", DH_PARAMETERS),
];

/// What begins with this label in PEM, if it is a document that isn't read.
pub(crate) fn other_labelled(label: &[u8]) -> Option<&'static str> {
    begun(OTHER_LABELS, label)
}

/// Whether these are two integers as parameters of Diffie-Hellman are (PKCS #3, 9): a prime of 512 bits or more, and
/// the generator 2, which is no exponent of an RSA key.
fn is_diffie_hellman(octets: &[u8]) -> bool {
    let Ok((whole, _rest)) = strip_tlv(octets) else {
        return false;
    };
    match strip_tlv(whole.data()) {
        Ok((prime, generator)) => prime.data().len() >= 64
            && generator == b"\x02\x01\x02".as_slice(),
        Err(_error) => false,
    }
}

/// How far the next element is: behind a primitive element, or behind the identifier and length octets of one that has
/// elements within it. The latter's length isn't looked at, as it may be wrong.
fn step(octets: &[u8]) -> Option<usize> {
    let (identifier, length) = (*octets.first()?, *octets.get(1)?);
    if identifier / 0x20 % 2 == 1 {
        return Some(usize::from(length.saturating_sub(0x80)).saturating_add(2));
    }
    let (element, _rest) = strip_tlv(octets).ok()?;
    Some(element.full_data().len())
}

/// The identifier octets of the first elements, each before those within it, and a zero octet if the input ends there.
pub(crate) fn identifiers(alloc: Global, octets: &[u8]) -> Result<Vec<u8>, AllocError> {
    let mut found = Vec::new(alloc);
    let mut start = 0usize;
    for _ in 0..COUNT {
        let rest = octets.get(start..).unwrap_or(&[]);
        let (Some(identifier), Some(length)) = (rest.first(), step(rest)) else {
            break;
        };
        found.push(*identifier)?;
        start = start.saturating_add(length);
    }
    if start == octets.len() {
        found.push(0)?;
    }
    Ok(found)
}

/// What begins like these octets, by the first row that fits.
fn begun(rows: &[(&[u8], &'static str)], octets: &[u8]) -> Option<&'static str> {
    let row = rows.iter().find(|row| octets.starts_with(row.0))?;
    Some(row.1)
}

/// What the octets are if they begin as another document.
pub(crate) fn other_document(
    alloc: Global,
    octets: &[u8],
) -> Result<Option<&'static str>, AllocError> {
    if is_diffie_hellman(octets) {
        return Ok(Some(DH_PARAMETERS));
    }
    let identifiers = identifiers(alloc, octets)?;
    Ok(begun(OTHERS, identifiers.as_slice()).or(begun(STARTS, octets)))
}

/// What is around the first element of an input that isn't one element, in words after a semicolon.
pub(crate) fn around(octets: &[u8]) -> &'static str {
    let rest = match strip_tlv(octets) {
        Ok((_element, rest)) => rest,
        Err(error) if matches!(error.kind(), ParseErrorKind::ShortData { .. }) => {
            return "; the input ends within its first element";
        }
        Err(_error) => return "",
    };
    if rest.is_empty() {
        ""
    } else if rest.trim_ascii().is_empty() {
        "; line ends or blanks follow the object"
    } else if strip_tlv(rest).is_ok() {
        "; another element follows the object"
    } else {
        "; octets that are no element follow the object"
    }
}
