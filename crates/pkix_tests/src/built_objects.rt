//! A revocation list, a request, a request for a time stamp, keys and policies that are built from parts equal those
//! that OpenSSL made. `openssl asn1parse` counts the octets that are taken from them.

use crate::built::{identifier, list_of, name_of, octets_of, set_of, subject};
use crate::objects::{CRL, EC_KEY, EC_KEY_PKCS8, POLICIES, REQUEST, RSA_KEY, STAMP_REQUEST};
use asn1::{
    BigInt, BigUint, BitString, DateTime, Enumerated, IA5String, PrintableString, SequenceOf,
    SetOf, Tlv, UtcTime, Utf8String, VisibleString, parse_single, write_readable,
};
use pkix::certificate::extensions::AuthorityKeyIdentifier;
use pkix::certificate::key_usages::DIGITAL_SIGNATURE;
use pkix::certificate::policies::{
    CertificatePolicies, CpsUri, DisplayText, NoticeReference, PolicyInformation,
    PolicyQualifierInfo, UserNotice,
};
use pkix::common::{
    AlgorithmIdentifier, Attribute, Attributes, Extension, Extensions, GeneralName, GeneralNames,
    NamedBits, SubjectPublicKeyInfo, Time,
};
use pkix::identifiers::{attributes, curves};
use pkix::keys::{EcPrivateKey, OneAsymmetricKey, OtherPrimeInfo, OtherPrimeInfos, RsaPrivateKey};
use pkix::request::CertificationRequestInfo;
use pkix::revocation::extensions::CrlReason;
use pkix::revocation::{RevokedCertificate, TbsCertList};
use pkix::timestamps::{MessageImprint, TimeStampReq};
use std::alloc::Global;
use std::test::Fail;
use testing::{read, same};

/// The octets of an object, which are never freed.
fn object<'a>(alloc: Global, digits: &str) -> Result<&'a [u8], Fail> {
    Ok(hex::decode(alloc, digits)?.leak())
}

/// So many octets from this one on.
fn piece(octets: &[u8], start: usize, length: usize) -> Result<&[u8], Fail> {
    let after = octets.get(start..).ok_or("no piece")?;
    Ok(after.get(..length).ok_or("no piece")?)
}

/// An algorithm with these parameters, as they are encoded.
fn algorithm<'a>(
    alloc: Global,
    dotted: &str,
    parameters: Option<&'a [u8]>,
) -> Result<AlgorithmIdentifier<'a>, Fail> {
    let parameters = match parameters {
        Some(octets) => Some(read::<Tlv<'a>>(alloc, octets)?),
        None => None,
    };
    Ok(AlgorithmIdentifier {
        algorithm: identifier(dotted)?,
        parameters,
    })
}

/// An extension that isn't critical.
fn extension<'a>(dotted: &str, extn_value: &'a [u8]) -> Result<Extension<'a>, Fail> {
    Ok(Extension {
        extn_id: identifier(dotted)?,
        critical: false,
        extn_value,
    })
}

/// The time of this day of November or December 2026.
fn day(month: u8, day: u8, hour: u8, minute: u8, second: u8) -> Result<Time, Fail> {
    let time = DateTime::new(2026, month, day, hour, minute, second)?;
    Ok(Time::UtcTime(UtcTime::new(time)?))
}

/// An entry of a revocation list, with its reason if it has one.
fn entry<'a>(
    alloc: Global,
    number: &'a [u8],
    revocation_date: Time,
    reason: Option<u32>,
) -> Result<RevokedCertificate<'a>, Fail> {
    let crl_entry_extensions = match reason {
        Some(reason) => {
            let value: CrlReason = Enumerated::new(reason);
            let reason = extension("2.5.29.21", octets_of(alloc, &value)?)?;
            Some(list_of(alloc, &[reason])?)
        }
        None => None,
    };
    Ok(RevokedCertificate {
        user_certificate: BigInt::new(number).ok_or("no number")?,
        revocation_date,
        crl_entry_extensions,
    })
}

/// The extensions of the list: the key's identifier and the list's number.
fn extensions_of_list<'a>(alloc: Global, key: &'a [u8]) -> Result<Extensions<'a>, Fail> {
    let key = AuthorityKeyIdentifier {
        key_identifier: Some(key),
        authority_cert_issuer: None,
        authority_cert_serial_number: None,
    };
    let number = BigUint::new(&[0x1f]).ok_or("no number")?;
    let both = [
        extension("2.5.29.35", octets_of(alloc, &key)?)?,
        extension("2.5.29.20", octets_of(alloc, &number)?)?,
    ];
    list_of(alloc, &both)
}

#[test]
fn a_revocation_list_is_built(rt: HostRuntime) -> Result<(), Fail> {
    let alloc = rt.alloc();
    let octets = object(alloc, CRL)?;
    let entries = [
        entry(alloc, &[0x0a], day(11, 1, 12, 0, 0)?, Some(1))?,
        entry(alloc, &[0x0b], day(11, 3, 14, 0, 0)?, None)?,
        entry(alloc, &[0, 0xff, 0xee], day(11, 2, 13, 0, 0)?, Some(4))?,
    ];
    let list = TbsCertList {
        version: Some(1),
        signature: algorithm(alloc, "1.2.840.10045.4.3.2", None)?,
        issuer: subject(alloc)?,
        this_update: day(11, 24, 10, 50, 10)?,
        next_update: Some(day(12, 24, 10, 50, 10)?),
        revoked_certificates: Some(list_of(alloc, &entries)?),
        crl_extensions: Some(extensions_of_list(alloc, piece(octets, 223, 20)?)?),
    };
    let built = write_readable(alloc, &list)?;
    same(built.as_slice(), piece(octets, 4, 251)?)
}

/// The value of an attribute of one value.
fn attribute<'a>(
    alloc: Global,
    type_id: asn1::ObjectIdentifier,
    value: &'a [u8],
) -> Result<Attribute<'a>, Fail> {
    let value = read::<Tlv<'a>>(alloc, value)?;
    Ok(Attribute {
        type_id,
        values: set_of(alloc, &[value])?,
    })
}

/// The attributes of the request: a password, and the extensions that are asked for.
fn attributes_of_request<'a>(alloc: Global) -> Result<Attributes<'a>, Fail> {
    let name = GeneralName::DnsName(IA5String::new("request.example").ok_or("no name")?);
    let names: GeneralNames<'_> = list_of(alloc, &[name])?;
    let usage = BitString::new(&[0x80 >> DIGITAL_SIGNATURE], 7).ok_or("no bits")?;
    let usage = octets_of(alloc, &NamedBits::new(usage).ok_or("no usage")?)?;
    let mut usage = extension("2.5.29.15", usage)?;
    usage.critical = true;
    let both = [extension("2.5.29.17", octets_of(alloc, &names)?)?, usage];
    let extensions: Extensions<'_> = list_of(alloc, &both)?;
    let password = octets_of(alloc, &Utf8String::new("a password"))?;
    let all = [
        attribute(alloc, attributes::challenge_password(), password)?,
        attribute(
            alloc,
            attributes::extension_request(),
            octets_of(alloc, &extensions)?,
        )?,
    ];
    set_of(alloc, &all)
}

#[test]
fn a_request_is_built(rt: HostRuntime) -> Result<(), Fail> {
    let alloc = rt.alloc();
    let octets = object(alloc, REQUEST)?;
    let country = octets_of(alloc, &PrintableString::new("AT").ok_or("no country")?)?;
    let organization = octets_of(alloc, &Utf8String::new("Example Works"))?;
    let common_name = octets_of(alloc, &Utf8String::new("request.example"))?;
    let names = [
        ("2.5.4.6", country),
        ("2.5.4.10", organization),
        ("2.5.4.3", common_name),
    ];
    let curve = octets_of(alloc, &curves::secp256r1())?;
    let request = CertificationRequestInfo {
        version: 0,
        subject: name_of(alloc, &names)?,
        subject_pk_info: SubjectPublicKeyInfo {
            algorithm: algorithm(alloc, "1.2.840.10045.2.1", Some(curve))?,
            subject_public_key: BitString::new(piece(octets, 101, 65)?, 0).ok_or("no bits")?,
        },
        attributes: attributes_of_request(alloc)?,
    };
    let built = write_readable(alloc, &request)?;
    same(built.as_slice(), piece(octets, 4, 252)?)
}

#[test]
fn a_request_for_a_time_stamp_is_built(rt: HostRuntime) -> Result<(), Fail> {
    let alloc = rt.alloc();
    let octets = object(alloc, STAMP_REQUEST)?;
    let request = TimeStampReq {
        version: 1,
        message_imprint: MessageImprint {
            hash_algorithm: algorithm(alloc, "2.16.840.1.101.3.4.2.1", Some(b"\x05\x00"))?,
            hashed_message: piece(octets, 24, 32)?,
        },
        req_policy: Some(identifier("1.2.3.4.1")?),
        nonce: Some(BigInt::new(piece(octets, 64, 8)?).ok_or("no number")?),
        cert_req: true,
        extensions: None,
    };
    let built = write_readable(alloc, &request)?;
    same(built.as_slice(), octets)
}

/// The number whose contents octets these are.
fn number(octets: &[u8], start: usize, length: usize) -> Result<BigUint<'_>, Fail> {
    Ok(BigUint::new(piece(octets, start, length)?).ok_or("no number")?)
}

/// The prime after the first two.
fn third_prime<'a>(alloc: Global, octets: &'a [u8]) -> Result<OtherPrimeInfos<'a>, Fail> {
    let third = [OtherPrimeInfo {
        prime: number(octets, 509, 43)?,
        exponent: number(octets, 554, 43)?,
        coefficient: number(octets, 599, 43)?,
    }];
    list_of(alloc, &third)
}

#[test]
fn a_key_of_three_primes_is_built(rt: HostRuntime) -> Result<(), Fail> {
    let alloc = rt.alloc();
    let octets = object(alloc, RSA_KEY)?;
    let key = RsaPrivateKey {
        version: 1,
        modulus: number(octets, 10, 129)?,
        public_exponent: number(octets, 141, 3)?,
        private_exponent: number(octets, 147, 129)?,
        prime1: number(octets, 278, 43)?,
        prime2: number(octets, 323, 43)?,
        exponent1: number(octets, 368, 43)?,
        exponent2: number(octets, 413, 43)?,
        coefficient: number(octets, 458, 43)?,
        other_prime_infos: Some(third_prime(alloc, octets)?),
    };
    let built = write_readable(alloc, &key)?;
    same(built.as_slice(), octets)
}

#[test]
fn keys_on_a_curve_are_built(rt: HostRuntime) -> Result<(), Fail> {
    let alloc = rt.alloc();
    let octets = object(alloc, EC_KEY)?;
    let key = EcPrivateKey {
        version: 1,
        private_key: piece(octets, 7, 32)?,
        parameters: Some(curves::secp256r1()),
        public_key: Some(BitString::new(piece(octets, 56, 65)?, 0).ok_or("no bits")?),
    };
    let built = write_readable(alloc, &key)?;
    same(built.as_slice(), octets)?;
    // In PKCS #8 the curve is that of the algorithm alone.
    let key = EcPrivateKey {
        parameters: None,
        ..key
    };
    let curve = octets_of(alloc, &curves::secp256r1())?;
    let key = OneAsymmetricKey {
        version: 0,
        private_key_algorithm: algorithm(alloc, "1.2.840.10045.2.1", Some(curve))?,
        private_key: octets_of(alloc, &key)?,
        attributes: None,
        public_key: None,
    };
    let built = write_readable(alloc, &key)?;
    same(built.as_slice(), object(alloc, EC_KEY_PKCS8)?)
}

/// A notice of an organization, which has it under two numbers, and its text.
fn notice<'a>(alloc: Global) -> Result<UserNotice<'a>, Fail> {
    let numbers = [
        BigInt::new(&[1]).ok_or("no number")?,
        BigInt::new(&[2]).ok_or("no number")?,
    ];
    let organization = VisibleString::new("Example Works").ok_or("no organization")?;
    Ok(UserNotice {
        notice_ref: Some(NoticeReference {
            organization: DisplayText::Visible(organization),
            notice_numbers: list_of(alloc, &numbers)?,
        }),
        explicit_text: Some(DisplayText::Utf8(Utf8String::new("Read this"))),
    })
}

/// A qualifier whose value has these octets.
fn qualifier<'a>(
    alloc: Global,
    dotted: &str,
    octets: &'a [u8],
) -> Result<PolicyQualifierInfo<'a>, Fail> {
    Ok(PolicyQualifierInfo {
        policy_qualifier_id: identifier(dotted)?,
        qualifier: parse_single(alloc, octets)?,
    })
}

#[test]
fn policies_are_built(rt: HostRuntime) -> Result<(), Fail> {
    let alloc = rt.alloc();
    let octets = object(alloc, POLICIES)?;
    let place: CpsUri<'_> = IA5String::new("http://policies.example/").ok_or("no place")?;
    let qualifiers = [
        qualifier(alloc, "1.3.6.1.5.5.7.2.1", octets_of(alloc, &place)?)?,
        qualifier(
            alloc,
            "1.3.6.1.5.5.7.2.2",
            octets_of(alloc, &notice(alloc)?)?,
        )?,
    ];
    let all = [
        PolicyInformation {
            policy_identifier: identifier("1.2.3.4")?,
            policy_qualifiers: None,
        },
        PolicyInformation {
            policy_identifier: identifier("1.2.3.5")?,
            policy_qualifiers: Some(list_of(alloc, &qualifiers)?),
        },
        PolicyInformation {
            policy_identifier: identifier("2.5.29.32.0")?,
            policy_qualifiers: None,
        },
    ];
    let policies: CertificatePolicies<'_> = list_of(alloc, &all)?;
    let built = write_readable(alloc, &policies)?;
    same(built.as_slice(), piece(octets, 407, 114)?)
}
