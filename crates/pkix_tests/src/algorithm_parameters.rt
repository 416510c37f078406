//! Parameters of algorithms, read by their identifiers (RFC 3279, 3370, 4055, 5480, 5754, 5758, 8410).

use crate::objects::DSA_PUBLIC;
use asn1::{ObjectIdentifier, ParseErrorKind, ParseResult, Tag, Tlv, parse_single};
use pkix::algorithm_parameters::{AlgorithmParameters, KnownAlgorithm};
use pkix::common::{AlgorithmIdentifier, SubjectPublicKeyInfo};
use pkix::keys::{DssParms, RsassaPssParams};
use std::alloc::{AllocError, Global};
use std::test::Fail;
use testing::{all_same, are_written_back, kind_of, same, same_at};

/// A line for each known algorithm, in the order of `ALL`, with its identifier.
const IDENTIFIERS: &str = "\
RsaEncryption 1.2.840.113549.1.1.1\n\
Sha1WithRsaEncryption 1.2.840.113549.1.1.5\n\
Sha224WithRsaEncryption 1.2.840.113549.1.1.14\n\
Sha256WithRsaEncryption 1.2.840.113549.1.1.11\n\
Sha384WithRsaEncryption 1.2.840.113549.1.1.12\n\
Sha512WithRsaEncryption 1.2.840.113549.1.1.13\n\
RsassaPss 1.2.840.113549.1.1.10\n\
Dsa 1.2.840.10040.4.1\n\
DsaWithSha1 1.2.840.10040.4.3\n\
DsaWithSha224 2.16.840.1.101.3.4.3.1\n\
DsaWithSha256 2.16.840.1.101.3.4.3.2\n\
EcPublicKey 1.2.840.10045.2.1\n\
EcDh 1.3.132.1.12\n\
EcMqv 1.3.132.1.13\n\
EcdsaWithSha1 1.2.840.10045.4.1\n\
EcdsaWithSha224 1.2.840.10045.4.3.1\n\
EcdsaWithSha256 1.2.840.10045.4.3.2\n\
EcdsaWithSha384 1.2.840.10045.4.3.3\n\
EcdsaWithSha512 1.2.840.10045.4.3.4\n\
Ed25519 1.3.101.112\n\
Ed448 1.3.101.113\n\
X25519 1.3.101.110\n\
X448 1.3.101.111\n\
Sha1 1.3.14.3.2.26\n\
Sha224 2.16.840.1.101.3.4.2.4\n\
Sha256 2.16.840.1.101.3.4.2.1\n\
Sha384 2.16.840.1.101.3.4.2.2\n\
Sha512 2.16.840.1.101.3.4.2.3\n";

#[test]
fn identifiers_of_algorithms(rt: HostRuntime) -> Result<(), Fail> {
    let alloc = rt.alloc();
    let mut lines = String::new(alloc);
    for algorithm in KnownAlgorithm::ALL {
        let identifier = algorithm.identifier();
        same(
            KnownAlgorithm::with_identifier(&identifier),
            Some(*algorithm),
        )?;
        writeln!(lines, "{algorithm:?} {identifier}")?;
    }
    same(lines.as_str(), IDENTIFIERS)
}

/// Algorithms in hex, most of them of objects that OpenSSL made, each with its parameters.
const ALGORITHMS: &[(&str, &str)] = &[
    // The signature and the key of certificates: of RSA, and on the curve P-256 (RFC 5480, 2.1.1.1).
    ("300d06092a864886f70d01010b0500", "null"),
    ("300d06092a864886f70d0101010500", "null"),
    ("300a06082a8648ce3d040302", "absent"),
    (
        "301306072a8648ce3d020106082a8648ce3d030107",
        "curve 1.2.840.10045.3.1.7",
    ),
    // A key of Ed25519, and digests, which OpenSSL writes with NULL.
    ("300506032b6570", "absent"),
    ("300d06096086480165030402010500", "null"),
    ("300b0609608648016503040201", "absent"),
    // An algorithm that isn't known: md5WithRSAEncryption (RFC 3279, 2.2.1).
    ("300b06092a864886f70d010104", "other, none"),
    ("300d06092a864886f70d0101040500", "other 0500"),
];

/// Parameters in words.
fn words_of(alloc: Global, parameters: &AlgorithmParameters<'_>) -> Result<String, AllocError> {
    match parameters {
        AlgorithmParameters::Absent => format!(in alloc; "absent"),
        AlgorithmParameters::Null => format!(in alloc; "null"),
        AlgorithmParameters::NamedCurve(curve) => format!(in alloc; "curve {curve}"),
        AlgorithmParameters::Dss(_) => format!(in alloc; "of DSA"),
        AlgorithmParameters::RsassaPss(_) => format!(in alloc; "of RSASSA-PSS"),
        AlgorithmParameters::Other(None) => format!(in alloc; "other, none"),
        AlgorithmParameters::Other(Some(element)) => {
            let digits = hex::encode(alloc, element.full_data())?;
            format!(in alloc; "other {digits}")
        }
    }
}

#[test]
fn parameters_of_algorithms(rt: HostRuntime) -> Result<(), Fail> {
    let alloc = rt.alloc();
    for (digits, wanted) in ALGORITHMS {
        let octets = hex::decode(alloc, digits)?;
        let algorithm = parse_single::<AlgorithmIdentifier<'_>>(alloc, octets.as_slice())?;
        let parameters = algorithm.read_parameters(alloc)?;
        same_at(*digits, words_of(alloc, &parameters)?.as_str(), *wanted)?;
    }
    Ok(())
}

/// What reading these parameters of an algorithm returns. If there are no octets, there are no parameters.
fn read<'a>(
    alloc: Global,
    algorithm: ObjectIdentifier,
    octets: &'a [u8],
) -> ParseResult<AlgorithmParameters<'a>> {
    let parameters = parse_single::<Option<Tlv<'a>>>(alloc, octets)?;
    let algorithm = AlgorithmIdentifier {
        algorithm,
        parameters,
    };
    algorithm.read_parameters(alloc)
}

/// For each of these algorithms the parameters of each row are rejected with its kind, or read if it has none.
fn are_answered(
    alloc: Global,
    algorithms: &[KnownAlgorithm],
    rows: &[(&[u8], Option<ParseErrorKind>)],
) -> Result<(), Fail> {
    for algorithm in algorithms {
        for (octets, kind) in rows {
            let found = kind_of(read(alloc, algorithm.identifier(), octets));
            same_at((*algorithm, *octets), found, *kind)?;
        }
    }
    Ok(())
}

/// No parameters, NULL, the identifier 1.2.3, and elements with these tags and other contents octets.
const NONE: &[u8] = b"";

const NULL: &[u8] = b"\x05\x00";

const IDENTIFIER: &[u8] = b"\x06\x02\x2a\x03";

const LONG_NULL: &[u8] = b"\x05\x01\x00";

const EMPTY_IDENTIFIER: &[u8] = b"\x06\x00";

#[test]
fn parameters_that_are_null(rt: HostRuntime) -> Result<(), Fail> {
    let identifier = Tag::primitive(0x06);
    are_answered(
        rt.alloc(),
        &[
            KnownAlgorithm::RsaEncryption,
            KnownAlgorithm::Sha1WithRsaEncryption,
        ],
        &[
            (NONE, Some(ParseErrorKind::ShortData { needed: 1 })),
            (NULL, None),
            (
                IDENTIFIER,
                Some(ParseErrorKind::UnexpectedTag { actual: identifier }),
            ),
            (LONG_NULL, Some(ParseErrorKind::InvalidValue)),
        ],
    )
}

#[test]
fn parameters_that_are_a_curve(rt: HostRuntime) -> Result<(), Fail> {
    let null = Tag::primitive(0x05);
    are_answered(
        rt.alloc(),
        &[
            KnownAlgorithm::EcPublicKey,
            KnownAlgorithm::EcDh,
            KnownAlgorithm::EcMqv,
        ],
        &[
            (NONE, Some(ParseErrorKind::ShortData { needed: 1 })),
            (NULL, Some(ParseErrorKind::UnexpectedTag { actual: null })),
            (IDENTIFIER, None),
            (EMPTY_IDENTIFIER, Some(ParseErrorKind::InvalidValue)),
        ],
    )
}

#[test]
fn parameters_that_are_absent(rt: HostRuntime) -> Result<(), Fail> {
    are_answered(
        rt.alloc(),
        &[
            KnownAlgorithm::DsaWithSha1,
            KnownAlgorithm::DsaWithSha224,
            KnownAlgorithm::DsaWithSha256,
            KnownAlgorithm::EcdsaWithSha1,
            KnownAlgorithm::EcdsaWithSha224,
            KnownAlgorithm::EcdsaWithSha256,
            KnownAlgorithm::EcdsaWithSha384,
            KnownAlgorithm::EcdsaWithSha512,
            KnownAlgorithm::Ed25519,
            KnownAlgorithm::Ed448,
            KnownAlgorithm::X25519,
            KnownAlgorithm::X448,
        ],
        &[
            (NONE, None),
            (NULL, Some(ParseErrorKind::ExtraData)),
            (IDENTIFIER, Some(ParseErrorKind::ExtraData)),
        ],
    )
}

#[test]
fn parameters_that_may_be_absent(rt: HostRuntime) -> Result<(), Fail> {
    are_answered(
        rt.alloc(),
        &[
            KnownAlgorithm::Sha224WithRsaEncryption,
            KnownAlgorithm::Sha256WithRsaEncryption,
            KnownAlgorithm::Sha384WithRsaEncryption,
            KnownAlgorithm::Sha512WithRsaEncryption,
            KnownAlgorithm::Sha1,
            KnownAlgorithm::Sha224,
            KnownAlgorithm::Sha256,
            KnownAlgorithm::Sha384,
            KnownAlgorithm::Sha512,
        ],
        &[
            (NONE, None),
            (NULL, None),
            (IDENTIFIER, Some(ParseErrorKind::ExtraData)),
            (LONG_NULL, Some(ParseErrorKind::InvalidValue)),
        ],
    )
}

/// Parameters of a key, as OpenSSL lists them; inherited ones, which are none; and others.
#[test]
fn parameters_of_dsa(rt: HostRuntime) -> Result<(), Fail> {
    let alloc = rt.alloc();
    let octets = hex::decode(alloc, DSA_PUBLIC)?;
    let key = parse_single::<SubjectPublicKeyInfo<'_>>(alloc, octets.as_slice())?;
    let AlgorithmParameters::Dss(found) = key.algorithm.read_parameters(alloc)? else {
        return Err(Fail::new(format_args!("no parameters of DSA")));
    };
    let rows = [
        (found.p.as_bytes(), 24, 153),
        (found.q.as_bytes(), 155, 176),
        (found.g.as_bytes(), 179, 307),
    ];
    for (number, start, end) in rows {
        same(Some(number), octets.as_slice().get(start..end))?;
    }
    let Some(parameters) = octets.as_slice().get(17..307) else {
        return Err(Fail::new(format_args!("no octets")));
    };
    are_written_back::<DssParms<'_>>(alloc, &[parameters])?;
    are_answered(
        alloc,
        &[KnownAlgorithm::Dsa],
        &[
            (NONE, None),
            (parameters, None),
            (NULL, Some(ParseErrorKind::ExtraData)),
            (b"\x30\x00", Some(ParseErrorKind::ShortData { needed: 1 })),
        ],
    )
}

/// The parameters of RSASSA-PSS in the certificate: SHA-256, MGF1 with SHA-256, and 32 octets of salt.
const PSS: &[u8] =
    b"\x30\x34\xa0\x0f\x30\x0d\x06\x09\x60\x86\x48\x01\x65\x03\x04\x02\x01\x05\x00\xa1\x1c\x30\
    \x1a\x06\x09\x2a\x86\x48\x86\xf7\x0d\x01\x01\x08\x30\x0d\x06\x09\x60\x86\x48\x01\x65\x03\x04\
    \x02\x01\x05\x00\xa2\x03\x02\x01\x20";

/// Each default left out; the defaults that are structures also encoded, which isn't rejected; and other numbers.
#[test]
fn parameters_of_pss(rt: HostRuntime) -> Result<(), Fail> {
    let alloc = rt.alloc();
    let sha1 = b"\x30\x0d\xa0\x0b\x30\x09\x06\x05\x2b\x0e\x03\x02\x1a\x05\x00";
    let trailer = b"\x30\x05\xa3\x03\x02\x01\x02";
    are_written_back::<RsassaPssParams<'_>>(alloc, &[PSS, b"\x30\x00", sha1, trailer])?;
    are_answered(
        alloc,
        &[KnownAlgorithm::RsassaPss],
        &[
            (NONE, None),
            (b"\x30\x00", None),
            (sha1, None),
            (PSS, None),
            (NULL, Some(ParseErrorKind::ExtraData)),
            (
                b"\x30\x05\xa2\x03\x02\x01\x14",
                Some(ParseErrorKind::EncodedDefault),
            ),
        ],
    )?;
    let defaults = RsassaPssParams {
        hash_algorithm: None,
        mask_gen_algorithm: None,
        salt_length: 20,
        trailer_field: 1,
    };
    let pss = KnownAlgorithm::RsassaPss;
    all_same(&[
        (
            read(alloc, pss.identifier(), NONE)?,
            AlgorithmParameters::Absent,
        ),
        (
            read(alloc, pss.identifier(), b"\x30\x00")?,
            AlgorithmParameters::RsassaPss(defaults),
        ),
    ])
}
