//! A certificate that is built from parts, with lists that are made, equals the one that OpenSSL made. The examples of
//! docs/PKIX.md that read names and build one.

use crate::objects::FULL;
use asn1::{
    Asn1Readable, Asn1Writable, BigInt, BigUint, BitString, DateTime, IA5String, ObjectIdentifier,
    PrintableString, SequenceOf, SetOf, Tlv, UtcTime, Utf8String, WriteError, parse_single,
    write_readable,
};
use pkix::certificate::access::{AccessDescription, AuthorityInfoAccess};
use pkix::certificate::distribution::{
    CrlDistributionPoints, DistributionPoint, DistributionPointName,
};
use pkix::certificate::extensions::{AuthorityKeyIdentifier, BasicConstraints, ExtendedKeyUsage};
use pkix::certificate::{Certificate, TbsCertificate, Validity};
use pkix::common::{
    AlgorithmIdentifier, AttributeTypeAndValue, DirectoryString, Extension, Extensions,
    GeneralName, GeneralNames, Name, NamedBits, OtherName, SubjectPublicKeyInfo, Time,
};
use pkix::identifiers::attributes;
use std::alloc::Global;
use std::test::Fail;
use testing::{read, same};

/// The common names of the subject of a certificate.
fn common_names<'a>(
    alloc: Global,
    certificate: &Certificate<'a>,
) -> Result<Vec<DirectoryString<'a>>, Fail> {
    let mut names = Vec::new(alloc);
    for set in certificate.tbs_certificate.subject.clone()? {
        for attribute in set? {
            let attribute = attribute?;
            if attribute.type_id == attributes::common_name() {
                names.push(attribute.value.parse::<DirectoryString<'_>>(alloc)?)?;
            }
        }
    }
    Ok(names)
}

/// The name of one attribute, a common name, whose octets are in three vectors.
fn common_name<'a>(
    alloc: Global,
    text: &str,
    value: &'a mut Vec<u8>,
    set: &'a mut Vec<u8>,
    name: &'a mut Vec<u8>,
) -> Result<Name<'a>, Fail> {
    *value = write_readable(alloc, &Utf8String::new(text))?;
    let attribute = AttributeTypeAndValue {
        type_id: attributes::common_name(),
        value: parse_single(alloc, value.as_slice())?,
    };
    let set = SetOf::of(alloc, &[attribute], set)??;
    Ok(SequenceOf::of(alloc, &[set], name)??)
}

/// An object identifier in dotted form.
pub fn identifier(dotted: &str) -> Result<ObjectIdentifier, Fail> {
    Ok(ObjectIdentifier::from_string(dotted).ok_or("no object identifier")?)
}

/// A vector for the octets of a list, which is never freed.
pub fn store<'a>(alloc: Global) -> Result<&'a mut Vec<u8>, Fail> {
    Ok(Box::leak(Box::new(alloc, Vec::new(alloc))?))
}

/// A list of these items, whose octets are never freed. It says nothing of what they mean, so that no proof of a test
/// holds this for its type.
pub fn list_of<
    'a,
    T: Asn1Readable<'a> + Asn1Writable<Error = WriteError> + 'a,
    const MIN: usize,
    const MAX: usize,
>(alloc: Global, items: &[T]) -> Result<SequenceOf<'a, T, MIN, MAX>, Fail> {
    Ok(SequenceOf::of(alloc, items, store(alloc)?)??)
}

/// A set of these items.
pub fn set_of<'a, T: Asn1Readable<'a> + Asn1Writable<Error = WriteError> + 'a>(
    alloc: Global,
    items: &[T],
) -> Result<SetOf<'a, T>, Fail> {
    Ok(SetOf::of(alloc, items, store(alloc)?)??)
}

/// The encoding of a value, which is never freed.
pub fn octets_of<'a, 'b, T: Asn1Readable<'b> + Asn1Writable<Error = WriteError>>(
    alloc: Global,
    value: &T,
) -> Result<&'a [u8], Fail> {
    Ok(write_readable(alloc, value)?.leak())
}

/// A name with a set for each attribute.
pub fn name_of<'a>(alloc: Global, parts: &[(&str, &'a [u8])]) -> Result<Name<'a>, Fail> {
    let mut sets = Vec::new(alloc);
    for (type_id, octets) in parts {
        let attribute = AttributeTypeAndValue {
            type_id: identifier(type_id)?,
            value: read::<Tlv<'a>>(alloc, octets)?,
        };
        sets.push(set_of(alloc, &[attribute])?)?;
    }
    list_of(alloc, sets.as_slice())
}

/// The name of the certificate's subject, which is its issuer.
pub fn subject<'a>(alloc: Global) -> Result<Name<'a>, Fail> {
    let country = PrintableString::new("AT").ok_or("no country")?;
    let country = octets_of(alloc, &country)?;
    let organization = octets_of(alloc, &Utf8String::new("Example Works"))?;
    let common_name = octets_of(alloc, &Utf8String::new("full.example"))?;
    name_of(
        alloc,
        &[
            ("2.5.4.6", country),
            ("2.5.4.10", organization),
            ("2.5.4.3", common_name),
        ],
    )
}

/// A URI as a name.
fn uri(text: &str) -> Result<GeneralName<'_>, Fail> {
    Ok(GeneralName::UniformResourceIdentifier(IA5String::new(text).ok_or("no URI")?))
}

/// The name of a directory of one attribute.
fn directory<'a>(alloc: Global) -> Result<GeneralName<'a>, Fail> {
    let common_name = octets_of(alloc, &Utf8String::new("crl.example"))?;
    Ok(GeneralName::DirectoryName(name_of(alloc, &[("2.5.4.3", common_name)])?))
}

/// The other names of the subject, each of another form.
fn other_names<'a>(alloc: Global) -> Result<GeneralNames<'a>, Fail> {
    let other = octets_of(alloc, &Utf8String::new("other"))?;
    let names = [
        GeneralName::DnsName(IA5String::new("full.example").ok_or("no name")?),
        GeneralName::IpAddress(&[192, 0, 2, 1]),
        GeneralName::Rfc822Name(IA5String::new("a@full.example").ok_or("no name")?),
        uri("http://full.example/")?,
        GeneralName::RegisteredId(identifier("1.2.3.4")?),
        directory(alloc)?,
        GeneralName::OtherName(OtherName {
            type_id: identifier("1.2.3.5")?,
            value: parse_single(alloc, other)?,
        }),
    ];
    list_of(alloc, &names)
}

/// Where the revocation list is.
fn distribution_points<'a>(alloc: Global) -> Result<CrlDistributionPoints<'a>, Fail> {
    let full_name = list_of(alloc, &[uri("http://crl.example/a.crl")?])?;
    let reasons = BitString::new(&[0x60], 5).ok_or("no bits")?;
    let issuer = list_of(alloc, &[directory(alloc)?])?;
    let point = DistributionPoint {
        distribution_point: Some(DistributionPointName::FullName(full_name)),
        reasons: Some(NamedBits::new(reasons).ok_or("no named bits")?),
        crl_issuer: Some(issuer),
    };
    list_of(alloc, &[point])
}

/// What the key is for.
fn purposes<'a>(alloc: Global) -> Result<ExtendedKeyUsage<'a>, Fail> {
    let both = [
        identifier("1.3.6.1.5.5.7.3.1")?,
        identifier("1.3.6.1.5.5.7.3.2")?,
    ];
    list_of(alloc, &both)
}

/// The identifier of the key of the issuer, with its name and the number of its certificate.
fn issuer_key<'a>(alloc: Global) -> Result<AuthorityKeyIdentifier<'a>, Fail> {
    let name = GeneralName::DirectoryName(subject(alloc)?);
    let issuer = list_of(alloc, &[name])?;
    Ok(AuthorityKeyIdentifier {
        key_identifier: Some(KEY_IDENTIFIER),
        authority_cert_issuer: Some(issuer),
        authority_cert_serial_number: Some(BigInt::new(&[0x12, 0x34]).ok_or("no number")?),
    })
}

/// Where other data is, by what it is.
fn access<'a>(alloc: Global) -> Result<AuthorityInfoAccess<'a>, Fail> {
    let both = [
        AccessDescription {
            access_method: identifier("1.3.6.1.5.5.7.48.1")?,
            access_location: uri("http://ocsp.example/")?,
        },
        AccessDescription {
            access_method: identifier("1.3.6.1.5.5.7.48.2")?,
            access_location: uri("http://ca.example/c.der")?,
        },
    ];
    list_of(alloc, &both)
}

const KEY_IDENTIFIER: &[u8] = &[
    0xc7, 0xf2, 0xe2, 0x72, 0x1c, 0xa1, 0x22, 0x85, 0x41, 0xf5, 0x39, 0xdd, 0xeb, 0x9a, 0xec, 0xdd,
    0x1e, 0xa6, 0xb3, 0x0b,
];

/// The key, a point of the curve P-256.
const POINT: &str = "\
04e73cebd78667ddd2b909d4fae42473d5760b30796608c10a43988621abae7717720653a3c90f8175db821efe684d312d\
ceb3cb5df5d2245364b634df7efc68e4";

/// The extensions, each with its value.
fn extensions<'a>(alloc: Global) -> Result<Extensions<'a>, Fail> {
    let constraints = BasicConstraints {
        ca: true,
        path_len_constraint: Some(BigUint::new(&[1]).ok_or("no number")?),
    };
    let usage = NamedBits::new(BitString::new(&[6], 1).ok_or("no bits")?).ok_or("no usage")?;
    let values = [
        ("2.5.29.19", true, octets_of(alloc, &constraints)?),
        ("2.5.29.15", true, octets_of(alloc, &usage)?),
        ("2.5.29.14", false, octets_of(alloc, &KEY_IDENTIFIER)?),
        ("2.5.29.35", false, octets_of(alloc, &issuer_key(alloc)?)?),
        ("2.5.29.17", false, octets_of(alloc, &other_names(alloc)?)?),
        ("2.5.29.37", false, octets_of(alloc, &purposes(alloc)?)?),
        (
            "2.5.29.31",
            false,
            octets_of(alloc, &distribution_points(alloc)?)?,
        ),
        (
            "1.3.6.1.5.5.7.1.1",
            false,
            octets_of(alloc, &access(alloc)?)?,
        ),
    ];
    let mut all = Vec::new(alloc);
    for (extn_id, critical, extn_value) in values {
        all.push(Extension {
            extn_id: identifier(extn_id)?,
            critical,
            extn_value,
        })?;
    }
    list_of(alloc, all.as_slice())
}

/// The key, with its curve.
fn public_key<'a>(alloc: Global) -> Result<SubjectPublicKeyInfo<'a>, Fail> {
    let curve = octets_of(alloc, &identifier("1.2.840.10045.3.1.7")?)?;
    let point = hex::decode(alloc, POINT)?.leak();
    Ok(SubjectPublicKeyInfo {
        algorithm: AlgorithmIdentifier {
            algorithm: identifier("1.2.840.10045.2.1")?,
            parameters: Some(parse_single(alloc, curve)?),
        },
        subject_public_key: BitString::new(point, 0).ok_or("no bits")?,
    })
}

/// The certificate's part that is signed.
fn certificate<'a>(alloc: Global) -> Result<TbsCertificate<'a>, Fail> {
    let subject = subject(alloc)?;
    Ok(TbsCertificate {
        version: 2,
        serial_number: BigInt::new(&[0x12, 0x34]).ok_or("no number")?,
        signature: AlgorithmIdentifier {
            algorithm: identifier("1.2.840.10045.4.3.2")?,
            parameters: None,
        },
        issuer: subject.clone()?,
        validity: Validity {
            not_before: Time::UtcTime(UtcTime::new(DateTime::new(2026, 11, 24, 10, 50, 10)?)?),
            not_after: Time::UtcTime(UtcTime::new(DateTime::new(2036, 11, 21, 10, 50, 10)?)?),
        },
        subject,
        subject_public_key_info: public_key(alloc)?,
        issuer_unique_id: None,
        subject_unique_id: None,
        extensions: Some(extensions(alloc)?),
    })
}

#[test]
fn a_certificate_is_built(rt: HostRuntime) -> Result<(), Fail> {
    let alloc = rt.alloc();
    let octets = hex::decode(alloc, FULL)?;
    let built = write_readable(alloc, &certificate(alloc)?)?;
    same(Some(built.as_slice()), octets.as_slice().get(4..763))
}

#[test]
fn names_are_read_and_built(rt: HostRuntime) -> Result<(), Fail> {
    let alloc = rt.alloc();
    let octets = hex::decode(alloc, FULL)?;
    let certificate = read::<Certificate<'_>>(alloc, octets.as_slice())?;
    let names = common_names(alloc, &certificate)?;
    match names.as_slice().first() {
        Some(DirectoryString::Utf8(found)) => same(found.as_str(), "full.example")?,
        _ => return Err(Fail::new(format_args!("no name"))),
    }
    let (mut value, mut set, mut name) = (Vec::new(alloc), Vec::new(alloc), Vec::new(alloc));
    let built = common_name(alloc, "crl.example", &mut value, &mut set, &mut name)?;
    let octets = write_readable(alloc, &built)?;
    same(
        octets.as_slice(),
        &hex::decode(alloc, "30163114301206035504030c0b63726c2e6578616d706c65")?,
    )
}
