//! Values of extensions, read by the identifiers of RFC 5280 (4.2, 5.2 and 5.3).

use crate::boundaries::words_of;
use crate::objects::{CRL, CURVE, DELTA_CRL, FULL, POLICIES, RSA};
use asn1::ObjectIdentifier;
use pkix::certificate::Certificate;
use pkix::common::{Extension, Extensions};
use pkix::extension_values::{ExtensionValue, KnownExtension};
use pkix::revocation::CertificateList;
use std::alloc::Global;
use std::test::Fail;
use testing::{error_of, read, same, same_at};

/// A line for each known extension, in the order of `ALL`, with its identifier.
const IDENTIFIERS: &str = "\
AuthorityInfoAccess 1.3.6.1.5.5.7.1.1\n\
AuthorityKeyIdentifier 2.5.29.35\n\
BasicConstraints 2.5.29.19\n\
CertificateIssuer 2.5.29.29\n\
CertificatePolicies 2.5.29.32\n\
CrlDistributionPoints 2.5.29.31\n\
CrlNumber 2.5.29.20\n\
CrlReason 2.5.29.21\n\
DeltaCrlIndicator 2.5.29.27\n\
ExtendedKeyUsage 2.5.29.37\n\
FreshestCrl 2.5.29.46\n\
InhibitAnyPolicy 2.5.29.54\n\
InvalidityDate 2.5.29.24\n\
IssuerAltName 2.5.29.18\n\
IssuingDistributionPoint 2.5.29.28\n\
KeyUsage 2.5.29.15\n\
NameConstraints 2.5.29.30\n\
PolicyConstraints 2.5.29.36\n\
PolicyMappings 2.5.29.33\n\
SubjectAltName 2.5.29.17\n\
SubjectDirectoryAttributes 2.5.29.9\n\
SubjectInfoAccess 1.3.6.1.5.5.7.1.11\n\
SubjectKeyIdentifier 2.5.29.14\n";

#[test]
fn identifiers_of_extensions(rt: HostRuntime) -> Result<(), Fail> {
    let alloc = rt.alloc();
    let mut lines = String::new(alloc);
    for extension in KnownExtension::ALL {
        let identifier = extension.identifier();
        same(
            KnownExtension::with_identifier(&identifier),
            Some(*extension),
        )?;
        writeln!(lines, "{extension:?} {identifier}")?;
    }
    same(lines.as_str(), IDENTIFIERS)
}

/// The extension that this is a value of.
fn extension_of(value: &ExtensionValue<'_>) -> Option<KnownExtension> {
    match value {
        ExtensionValue::AuthorityInfoAccess(_) => Some(KnownExtension::AuthorityInfoAccess),
        ExtensionValue::AuthorityKeyIdentifier(_) => Some(KnownExtension::AuthorityKeyIdentifier),
        ExtensionValue::BasicConstraints(_) => Some(KnownExtension::BasicConstraints),
        ExtensionValue::CertificateIssuer(_) => Some(KnownExtension::CertificateIssuer),
        ExtensionValue::CertificatePolicies(_) => Some(KnownExtension::CertificatePolicies),
        ExtensionValue::CrlDistributionPoints(_) => Some(KnownExtension::CrlDistributionPoints),
        ExtensionValue::CrlNumber(_) => Some(KnownExtension::CrlNumber),
        ExtensionValue::CrlReason(_) => Some(KnownExtension::CrlReason),
        ExtensionValue::DeltaCrlIndicator(_) => Some(KnownExtension::DeltaCrlIndicator),
        ExtensionValue::ExtendedKeyUsage(_) => Some(KnownExtension::ExtendedKeyUsage),
        ExtensionValue::FreshestCrl(_) => Some(KnownExtension::FreshestCrl),
        ExtensionValue::InhibitAnyPolicy(_) => Some(KnownExtension::InhibitAnyPolicy),
        ExtensionValue::InvalidityDate(_) => Some(KnownExtension::InvalidityDate),
        ExtensionValue::IssuerAltName(_) => Some(KnownExtension::IssuerAltName),
        ExtensionValue::IssuingDistributionPoint(_) => Some(
            KnownExtension::IssuingDistributionPoint,
        ),
        ExtensionValue::KeyUsage(_) => Some(KnownExtension::KeyUsage),
        ExtensionValue::NameConstraints(_) => Some(KnownExtension::NameConstraints),
        ExtensionValue::PolicyConstraints(_) => Some(KnownExtension::PolicyConstraints),
        ExtensionValue::PolicyMappings(_) => Some(KnownExtension::PolicyMappings),
        ExtensionValue::SubjectAltName(_) => Some(KnownExtension::SubjectAltName),
        ExtensionValue::SubjectDirectoryAttributes(_) => Some(
            KnownExtension::SubjectDirectoryAttributes,
        ),
        ExtensionValue::SubjectInfoAccess(_) => Some(KnownExtension::SubjectInfoAccess),
        ExtensionValue::SubjectKeyIdentifier(_) => Some(KnownExtension::SubjectKeyIdentifier),
        ExtensionValue::Other(_) => None,
    }
}

/// The values are those of these extensions, in this order.
fn are_read(
    alloc: Global,
    extensions: Option<&Extensions<'_>>,
    wanted: &[KnownExtension],
) -> Result<(), Fail> {
    let Some(extensions) = extensions else {
        return Err(Fail::new(format_args!("no extensions")));
    };
    let mut wanted = wanted.iter().copied();
    for extension in extensions.clone()? {
        let value = extension?.value(alloc)?;
        same(extension_of(&value), wanted.next())?;
    }
    same(wanted.next(), None)
}

/// The extensions of each certificate that OpenSSL made, as its own listing has them.
const OF_CERTIFICATES: &[(&str, &[KnownExtension])] = &[
    (
        RSA,
        &[
            KnownExtension::BasicConstraints,
            KnownExtension::KeyUsage,
            KnownExtension::SubjectAltName,
            KnownExtension::SubjectKeyIdentifier,
        ],
    ),
    (
        CURVE,
        &[
            KnownExtension::BasicConstraints,
            KnownExtension::KeyUsage,
            KnownExtension::SubjectAltName,
            KnownExtension::SubjectKeyIdentifier,
        ],
    ),
    (
        FULL,
        &[
            KnownExtension::BasicConstraints,
            KnownExtension::KeyUsage,
            KnownExtension::SubjectKeyIdentifier,
            KnownExtension::AuthorityKeyIdentifier,
            KnownExtension::SubjectAltName,
            KnownExtension::ExtendedKeyUsage,
            KnownExtension::CrlDistributionPoints,
            KnownExtension::AuthorityInfoAccess,
        ],
    ),
    (
        POLICIES,
        &[
            KnownExtension::CertificatePolicies,
            KnownExtension::PolicyMappings,
            KnownExtension::NameConstraints,
            KnownExtension::PolicyConstraints,
            KnownExtension::InhibitAnyPolicy,
            KnownExtension::FreshestCrl,
            KnownExtension::SubjectInfoAccess,
            KnownExtension::SubjectKeyIdentifier,
        ],
    ),
];

#[test]
fn extensions_of_certificates(rt: HostRuntime) -> Result<(), Fail> {
    let alloc = rt.alloc();
    for (object, wanted) in OF_CERTIFICATES {
        let octets = hex::decode(alloc, object)?;
        let certificate = read::<Certificate<'_>>(alloc, octets.as_slice())?;
        are_read(
            alloc,
            certificate.tbs_certificate.extensions.as_ref(),
            wanted,
        )?;
    }
    Ok(())
}

/// The extensions of each revocation list, and of its entries that have some.
const OF_LISTS: &[(&str, &[KnownExtension], &[KnownExtension])] = &[
    (
        CRL,
        &[
            KnownExtension::AuthorityKeyIdentifier,
            KnownExtension::CrlNumber,
        ],
        &[KnownExtension::CrlReason],
    ),
    (
        DELTA_CRL,
        &[
            KnownExtension::IssuingDistributionPoint,
            KnownExtension::DeltaCrlIndicator,
            KnownExtension::FreshestCrl,
            KnownExtension::CrlNumber,
        ],
        &[KnownExtension::CrlReason, KnownExtension::InvalidityDate],
    ),
];

#[test]
fn extensions_of_revocation_lists(rt: HostRuntime) -> Result<(), Fail> {
    let alloc = rt.alloc();
    for (object, of_list, of_entry) in OF_LISTS {
        let octets = hex::decode(alloc, object)?;
        let list = read::<CertificateList<'_>>(alloc, octets.as_slice())?;
        let extensions = list.tbs_cert_list.crl_extensions.as_ref();
        are_read(alloc, extensions, of_list)?;
        let Some(entries) = &list.tbs_cert_list.revoked_certificates else {
            return Err(Fail::new(format_args!("no entries")));
        };
        for entry in entries.clone()? {
            let entry = entry?;
            if entry.crl_entry_extensions.is_some() {
                are_read(alloc, entry.crl_entry_extensions.as_ref(), of_entry)?;
            }
        }
    }
    Ok(())
}

/// Names of an issuer and attributes of a subject, which no stored object has; and octets that no known extension has,
/// and that aren't DER.
#[test]
fn other_extensions(rt: HostRuntime) -> Result<(), Fail> {
    let alloc = rt.alloc();
    let names: &[u8] = b"\x30\x03\x82\x01a";
    let attributes: &[u8] = b"\x30\x0a\x30\x08\x06\x02\x2a\x03\x31\x02\x05\x00";
    for (known, octets) in [
        (KnownExtension::IssuerAltName, names),
        (KnownExtension::CertificateIssuer, names),
        (KnownExtension::SubjectDirectoryAttributes, attributes),
    ] {
        let of_known = Extension {
            extn_id: known.identifier(),
            critical: false,
            extn_value: octets,
        };
        let value = of_known.value(alloc)?;
        same(extension_of(&value), Some(known))?;
    }
    let Some(identifier) = ObjectIdentifier::from_string("2.5.29.99") else {
        return Err(Fail::new(format_args!("no identifier")));
    };
    let octets: &[u8] = b"\x30\x01";
    let unknown = Extension {
        extn_id: identifier,
        critical: true,
        extn_value: octets,
    };
    match unknown.value(alloc)? {
        ExtensionValue::Other(value) => same(value, octets),
        _ => Err(Fail::new(format_args!("a known extension"))),
    }
}

/// Values that each known extension rejects, in the rows of `boundaries`.
const REJECTED: &[(KnownExtension, &str)] = &[
    (KnownExtension::AuthorityInfoAccess, "3000: 0 items"),
    (
        KnownExtension::AuthorityKeyIdentifier,
        "3003020105: ExtraData",
    ),
    (
        KnownExtension::BasicConstraints,
        "3003010100: EncodedDefault BasicConstraints::ca",
    ),
    (KnownExtension::CertificateIssuer, "3000: 0 items"),
    (
        KnownExtension::CertificatePolicies,
        "30023000: short 1 0 PolicyInformation::policy_identifier",
    ),
    (
        KnownExtension::CertificatePolicies,
        "300a300606022a0330003000: 0 items 0 PolicyInformation::policy_qualifiers",
    ),
    (KnownExtension::CrlDistributionPoints, "3000: 0 items"),
    (KnownExtension::CrlNumber, "02011f00: ExtraData"),
    (KnownExtension::CrlNumber, "0201ff: InvalidValue"),
    (KnownExtension::CrlReason, "0a01ff: InvalidValue"),
    (KnownExtension::DeltaCrlIndicator, "0201ff: InvalidValue"),
    (KnownExtension::ExtendedKeyUsage, "30020500: tag 05 0"),
    (KnownExtension::FreshestCrl, "3100: tag 31"),
    (KnownExtension::InhibitAnyPolicy, "040100: tag 04"),
    (
        KnownExtension::InvalidityDate,
        "170d3236313033313233353935395a: tag 17",
    ),
    (
        KnownExtension::InvalidityDate,
        "181132303236313033313233353935392e355a: InvalidValue",
    ),
    (KnownExtension::IssuerAltName, "30020500: tag 05 0"),
    (
        KnownExtension::IssuingDistributionPoint,
        "3003810100: EncodedDefault IssuingDistributionPoint::only_contains_user_certs",
    ),
    (KnownExtension::KeyUsage, "030200a0: InvalidValue"),
    (
        KnownExtension::NameConstraints,
        "300aa0083006820161800100: EncodedDefault NameConstraints::permitted_subtrees 0 GeneralSubtree::minimum",
    ),
    (
        KnownExtension::PolicyConstraints,
        "3005a003020100: ExtraData",
    ),
    (
        KnownExtension::PolicyMappings,
        "3006300406022a03: short 1 0 PolicyMapping::subject_domain_policy",
    ),
    (KnownExtension::SubjectAltName, "30030101ff: tag 01 0"),
    (
        KnownExtension::SubjectDirectoryAttributes,
        "30023000: short 1 0 Attribute::type_id",
    ),
    (
        KnownExtension::SubjectInfoAccess,
        "3006300406022a03: short 1 0 AccessDescription::access_location",
    ),
    (KnownExtension::SubjectKeyIdentifier, ": short 1"),
    (KnownExtension::SubjectKeyIdentifier, "020105: tag 02"),
];

#[test]
fn values_that_are_rejected(rt: HostRuntime) -> Result<(), Fail> {
    let alloc = rt.alloc();
    for (known, row) in REJECTED {
        let (digits, wanted) = row.split_once(": ").unwrap_or((row, ""));
        let octets = hex::decode(alloc, digits)?;
        let extension = Extension {
            extn_id: known.identifier(),
            critical: false,
            extn_value: octets.as_slice(),
        };
        match error_of(extension.value(alloc)) {
            Some(error) => same_at(*known, words_of(alloc, "", &error)?.as_str(), wanted)?,
            None => return Err(Fail::new(format_args!("{known:?}: {row} is read"))),
        }
    }
    Ok(())
}
