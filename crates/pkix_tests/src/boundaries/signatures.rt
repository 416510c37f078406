//! Values of signatures, and signed data (RFC 5652).

use crate::boundaries::are_answered;
use pkix::signatures::{
    ContentInfo, ContentType, DigestInfo, EcdsaSigValue, EncapsulatedContentInfo,
    IssuerAndSerialNumber, MessageDigest, SignedData, SignerIdentifier, SignerInfo, SigningTime,
};
use std::alloc::Global;
use std::test::Fail;

/// EcdsaSigValue (RFC 3279, 2.2.3).
const ECDSA_SIG_VALUE: &str = "\
+ 020101: short 1 s; ExtraData; tag 8e r
= 020100: read
= 0209010000000000000000: read
= 0201ff: InvalidValue r
= 02020005: InvalidValue r
+ 020102: short 1 s; ExtraData; tag 8e s
= 020100: read
= 0209010000000000000000: read
= 0201ff: InvalidValue s
= 02020005: InvalidValue s";

/// DigestInfo (RFC 8017, 9.2).
const DIGEST_INFO: &str = "\
+ 300406022a03: tag 04 digest_algorithm; tag 30 digest; tag ae digest_algorithm
+ 0401ab: short 1 digest; ExtraData; tag 8e digest
= 0400: read";

/// ContentInfo (RFC 5652, 3).
const CONTENT_INFO: &str = "\
+ 06022a03: tag a0 content_type; tag 06 content; tag 8e content_type
= 0600: InvalidValue content_type
+ a0020500: short 1 content; ExtraData; tag ae content
= a000: short 1 content
= a00405000500: ExtraData content";

/// EncapsulatedContentInfo (RFC 5652, 5.2).
const ENCAPSULATED_CONTENT_INFO: &str = "\
+ 06022a03: tag a0 e_content_type; ExtraData; tag 8e e_content_type
= 0600: InvalidValue e_content_type
? a0030401ab: read; ExtraData; ExtraData
= a0020400: read
= a000: short 1 e_content
= a0050401ab0500: ExtraData e_content";

/// SignedData (RFC 5652, 5.1).
const SIGNED_DATA: &str = "\
+ 020103: tag 31 version; tag 02 digest_algorithms; tag 8e version
= 020200ff: read
= 02020100: IntegerOverflow version
= 0201ff: InvalidValue version
+ 3100: tag 30 digest_algorithms; tag 31 encap_content_info; tag ae digest_algorithms
= 31023000: short 1 digest_algorithms 0 AlgorithmIdentifier::algorithm
+ 300406022a03: tag a0 encap_content_info; tag 30 signer_infos; tag ae encap_content_info
? a000: read; tag a0 signer_infos; tag ae signer_infos
= a0023000: short 1 certificates 0 Certificate::tbs_certificate
= a0818e30453039020105300406022a043000301e170d3236313132343130353031305a170d3236313132343130353031305a3000300a30\
    0406022a0303020001300406022a030302000130453039020105300406022a033000301e170d3236313132343130353031305a170d323631\
    3132343130353031305a3000300a300406022a0303020001300406022a0303020001: InvalidSetOrdering certificates 1
? a100: read; tag a1 signer_infos; tag ae signer_infos
= a1023000: short 1 crls 0 CertificateList::tbs_cert_list
= a14a30233017300406022a043000170d3236313132343130353031305a300406022a030302000130233017300406022a033000170d3236\
    313132343130353031305a300406022a0303020001: InvalidSetOrdering crls 1
+ 3100: short 1 signer_infos; ExtraData; tag ae signer_infos
= 31023000: short 1 signer_infos 0 SignerInfo::version";

/// IssuerAndSerialNumber (RFC 5652, 10.2.4).
const ISSUER_AND_SERIAL_NUMBER: &str = "\
+ 3000: tag 02 issuer; tag 30 serial_number; tag ae issuer
= 30023100: read
+ 020105: short 1 serial_number; ExtraData; tag 8e serial_number
= 0209010000000000000000: read
= 0201ff: read
= 0202ffff: InvalidValue serial_number";

/// SignerIdentifier (RFC 5652, 5.3).
const SIGNER_IDENTIFIER: &str = "\
30053000020105: read
8001ab: read
8000: read
a000: tag a0
8100: tag 81
ae053000020105: tag ae
: short 1";

/// SignerInfo (RFC 5652, 5.3).
const SIGNER_INFO: &str = "\
+ 020101: tag 30 version; tag 02 sid; tag 8e version
= 020200ff: read
= 02020100: IntegerOverflow version
= 0201ff: InvalidValue version
+ 30053000020105: tag 06 sid IssuerAndSerialNumber::issuer; \
    tag 30 digest_algorithm AlgorithmIdentifier::algorithm; tag ae sid
= 8001ab: read
+ 300406022a03: tag a0 digest_algorithm; tag a0 signature; tag ae digest_algorithm
? a000: read; tag a0 signature_algorithm; tag ae signature_algorithm
= a0023000: short 1 signed_attrs 0 Attribute::type_id
= a010300606022a043100300606022a033100: InvalidSetOrdering signed_attrs 1
+ 300406022a03: tag 04 signature_algorithm; tag 30 signature; tag ae signature_algorithm
+ 0401ab: tag a1 signature; ExtraData; tag 8e signature
= 0400: read
? a100: read; ExtraData; ExtraData
= a1023000: short 1 unsigned_attrs 0 Attribute::type_id
= a110300606022a043100300606022a033100: InvalidSetOrdering unsigned_attrs 1";

/// ContentType (RFC 5652, 11.1).
const CONTENT_TYPE: &str = "\
06022a03: read
0600: InvalidValue
04022a03: tag 04
: short 1";

/// MessageDigest (RFC 5652, 11.2).
const MESSAGE_DIGEST: &str = "\
0401ab: read
0400: read
0301ab: tag 03
: short 1";

/// SigningTime (RFC 5652, 11.3).
const SIGNING_TIME: &str = "\
170d3236313132343130353031305a: read
180f32303236313132343130353031305a: read
181132303236313132343130353031302e355a: InvalidValue
040161: tag 04
: short 1";

/// Each of these types answers as its rows say.
pub fn signed_data(alloc: Global) -> Result<(), Fail> {
    are_answered::<EcdsaSigValue<'_>>(alloc, "EcdsaSigValue", ECDSA_SIG_VALUE)?;
    are_answered::<DigestInfo<'_>>(alloc, "DigestInfo", DIGEST_INFO)?;
    are_answered::<ContentInfo<'_>>(alloc, "ContentInfo", CONTENT_INFO)?;
    are_answered::<EncapsulatedContentInfo<'_>>(
        alloc,
        "EncapsulatedContentInfo",
        ENCAPSULATED_CONTENT_INFO,
    )?;
    are_answered::<SignedData<'_>>(alloc, "SignedData", SIGNED_DATA)?;
    are_answered::<IssuerAndSerialNumber<'_>>(
        alloc,
        "IssuerAndSerialNumber",
        ISSUER_AND_SERIAL_NUMBER,
    )?;
    are_answered::<SignerIdentifier<'_>>(alloc, "SignerIdentifier", SIGNER_IDENTIFIER)?;
    are_answered::<SignerInfo<'_>>(alloc, "SignerInfo", SIGNER_INFO)?;
    are_answered::<ContentType>(alloc, "ContentType", CONTENT_TYPE)?;
    are_answered::<MessageDigest<'_>>(alloc, "MessageDigest", MESSAGE_DIGEST)?;
    are_answered::<SigningTime>(alloc, "SigningTime", SIGNING_TIME)
}
