//! Identifiers by the numbers that their documents give them, and the bits of a key's usages. The command `openssl
//! asn1parse -genstr OID:NAME` encodes the identifier that has the name.

use asn1::ObjectIdentifier;
use pkix::certificate::extensions::KeyUsage;
use pkix::certificate::key_usages;
use pkix::identifiers::{attributes, curves, purposes};
use std::alloc::Global;
use std::test::Fail;
use testing::{read, same, same_at};

/// Each identifier is this one, in dotted form.
fn are(alloc: Global, rows: &[(ObjectIdentifier, &str)]) -> Result<(), Fail> {
    for (identifier, dotted) in rows {
        same(format!(in alloc; "{identifier}")?.as_str(), *dotted)?;
    }
    Ok(())
}

#[test]
fn types_of_attributes(rt: HostRuntime) -> Result<(), Fail> {
    are(
        rt.alloc(),
        &[
            (attributes::common_name(), "2.5.4.3"),
            (attributes::surname(), "2.5.4.4"),
            (attributes::serial_number(), "2.5.4.5"),
            (attributes::country_name(), "2.5.4.6"),
            (attributes::locality_name(), "2.5.4.7"),
            (attributes::state_or_province_name(), "2.5.4.8"),
            (attributes::organization_name(), "2.5.4.10"),
            (attributes::organizational_unit_name(), "2.5.4.11"),
            (attributes::title(), "2.5.4.12"),
            (attributes::given_name(), "2.5.4.42"),
            (attributes::initials(), "2.5.4.43"),
            (attributes::generation_qualifier(), "2.5.4.44"),
            (attributes::dn_qualifier(), "2.5.4.46"),
            (attributes::pseudonym(), "2.5.4.65"),
            (attributes::domain_component(), "0.9.2342.19200300.100.1.25"),
            (attributes::email_address(), "1.2.840.113549.1.9.1"),
            (attributes::content_type(), "1.2.840.113549.1.9.3"),
            (attributes::message_digest(), "1.2.840.113549.1.9.4"),
            (attributes::signing_time(), "1.2.840.113549.1.9.5"),
            (attributes::challenge_password(), "1.2.840.113549.1.9.7"),
            (attributes::extension_request(), "1.2.840.113549.1.9.14"),
        ],
    )
}

#[test]
fn purposes_and_curves(rt: HostRuntime) -> Result<(), Fail> {
    are(
        rt.alloc(),
        &[
            (purposes::any_extended_key_usage(), "2.5.29.37.0"),
            (purposes::server_auth(), "1.3.6.1.5.5.7.3.1"),
            (purposes::client_auth(), "1.3.6.1.5.5.7.3.2"),
            (purposes::code_signing(), "1.3.6.1.5.5.7.3.3"),
            (purposes::email_protection(), "1.3.6.1.5.5.7.3.4"),
            (purposes::time_stamping(), "1.3.6.1.5.5.7.3.8"),
            (purposes::ocsp_signing(), "1.3.6.1.5.5.7.3.9"),
            (curves::secp192r1(), "1.2.840.10045.3.1.1"),
            (curves::secp224r1(), "1.3.132.0.33"),
            (curves::secp256r1(), "1.2.840.10045.3.1.7"),
            (curves::secp384r1(), "1.3.132.0.34"),
            (curves::secp521r1(), "1.3.132.0.35"),
            (curves::secp256k1(), "1.3.132.0.10"),
        ],
    )
}

/// Each usage, and the keyUsage that OpenSSL makes of its name.
const USAGES: &[(usize, &[u8])] = &[
    (key_usages::DIGITAL_SIGNATURE, b"\x03\x02\x07\x80"),
    (key_usages::NON_REPUDIATION, b"\x03\x02\x06\x40"),
    (key_usages::KEY_ENCIPHERMENT, b"\x03\x02\x05\x20"),
    (key_usages::DATA_ENCIPHERMENT, b"\x03\x02\x04\x10"),
    (key_usages::KEY_AGREEMENT, b"\x03\x02\x03\x08"),
    (key_usages::KEY_CERT_SIGN, b"\x03\x02\x02\x04"),
    (key_usages::CRL_SIGN, b"\x03\x02\x01\x02"),
    (key_usages::ENCIPHER_ONLY, b"\x03\x02\x00\x01"),
    (key_usages::DECIPHER_ONLY, b"\x03\x03\x07\x00\x80"),
];

#[test]
fn usages_of_keys(rt: HostRuntime) -> Result<(), Fail> {
    let alloc = rt.alloc();
    for (usage, octets) in USAGES {
        let value = read::<KeyUsage<'_>>(alloc, *octets)?;
        for (other, _) in USAGES {
            same_at(
                (*usage, *other),
                value.has_bit_set(*other),
                *usage == *other,
            )?;
        }
    }
    Ok(())
}
