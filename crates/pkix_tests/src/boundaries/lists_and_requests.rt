//! Revocation lists (RFC 5280, 5) and requests (RFC 2986, 4).

use crate::boundaries::are_answered;
use pkix::request::{CertificationRequest, CertificationRequestInfo};
use pkix::revocation::extensions::{BaseCrlNumber, CrlNumber, CrlReason, InvalidityDate};
use pkix::revocation::{CertificateList, RevokedCertificate, RevokedCertificates, TbsCertList};
use std::alloc::Global;
use std::test::Fail;

/// RevokedCertificate (RFC 5280, 5.1.2.6).
const REVOKED_CERTIFICATE: &str = "\
+ 020105: tag 17 user_certificate; tag 02 revocation_date; tag 8e user_certificate
= 0209010000000000000000: read
= 0201ff: read
= 0202ffff: InvalidValue user_certificate
+ 170d3236313132343130353031305a: tag 30 revocation_date; ExtraData; tag 8e revocation_date
= 180f32303236313132343130353031305a: read
? 3009300706022a030401ab: read; ExtraData; ExtraData
= 3000: 0 items crl_entry_extensions
= 30023000: short 1 crl_entry_extensions 0 Extension::extn_id";

/// RevokedCertificates (RFC 5280, 5.1.2.6).
const REVOKED_CERTIFICATES: &str = "\
3000: read
30023000: short 1 0 RevokedCertificate::user_certificate
ae00: tag ae
: short 1";

/// TbsCertList (RFC 5280, 5.1.2).
const TBS_CERT_LIST: &str = "\
? 020101: read; tag 02 signature; tag 8e signature
= 020200ff: read
= 02020100: IntegerOverflow version
= 0201ff: InvalidValue version
+ 300406022a03: short 1 signature AlgorithmIdentifier::algorithm; tag 06 issuer 0; tag ae signature
+ 3000: tag 17 issuer; tag 30 this_update; tag ae issuer
= 30023100: read
+ 170d3236313132343130353031305a: read; ExtraData; tag 8e this_update
= 180f32303236313132343130353031305a: read
? 170d3236313132343130353031305a: read; ExtraData; ExtraData
= 180f32303236313132343130353031305a: read
? 3000: read; ExtraData; ExtraData
= 30023000: short 1 revoked_certificates 0 RevokedCertificate::user_certificate
? a00b3009300706022a030401ab: read; ExtraData; ExtraData
= a0023000: 0 items crl_extensions
= a00430023000: short 1 crl_extensions 0 Extension::extn_id
= a000: short 1 crl_extensions
= a00d3009300706022a030401ab0500: ExtraData crl_extensions";

/// CertificateList (RFC 5280, 5.1.1).
const CERTIFICATE_LIST: &str = "\
+ 3017300406022a033000170d3236313132343130353031305a: tag 06 tbs_cert_list TbsCertList::signature; \
    tag 30 signature_algorithm AlgorithmIdentifier::algorithm; tag ae tbs_cert_list
+ 300406022a03: tag 03 signature_algorithm; tag 30 signature_value; tag ae signature_algorithm
+ 03020001: short 1 signature_value; ExtraData; tag 8e signature_value
= 030200a0: read
= 030207ff: InvalidValue signature_value";

/// CrlNumber (RFC 5280, 5.2.3).
const CRL_NUMBER: &str = "\
020105: read
020100: read
0209010000000000000000: read
0201ff: InvalidValue
02020005: InvalidValue
8e0105: tag 8e
: short 1";

/// BaseCrlNumber (RFC 5280, 5.2.4).
const BASE_CRL_NUMBER: &str = "\
020105: read
020100: read
0209010000000000000000: read
0201ff: InvalidValue
02020005: InvalidValue
8e0105: tag 8e
: short 1";

/// CrlReason (RFC 5280, 5.3.1).
const CRL_REASON: &str = "\
0a0101: read
0a04ffffffff: InvalidValue
0a0500ffffffff: read
0a050100000000: IntegerOverflow
0a01ff: InvalidValue
8e0101: tag 8e
: short 1";

/// InvalidityDate (RFC 5280, 5.3.2).
const INVALIDITY_DATE: &str = "\
180f32303236313132343130353031305a: read
181132303236313132343130353031302e355a: InvalidValue
180d3230323631313234313035305a: InvalidValue
8e0f32303236313132343130353031305a: tag 8e
: short 1
170d3236313033313233353935395a: tag 17";

/// CertificationRequestInfo (RFC 2986, 4.1).
const CERTIFICATION_REQUEST_INFO: &str = "\
+ 020100: tag 30 version; tag 02 subject; tag 8e version
= 020200ff: read
= 02020100: IntegerOverflow version
= 0201ff: InvalidValue version
+ 3000: tag 30 subject 0; short 1 subject_pk_info SubjectPublicKeyInfo::algorithm; tag ae subject
= 30023100: read
+ 300a300406022a0303020001: tag a0 subject_pk_info; tag 30 attributes; tag ae subject_pk_info
+ a000: short 1 attributes; ExtraData; tag ae attributes
= a0023000: short 1 attributes 0 Attribute::type_id
= a010300606022a043100300606022a033100: InvalidSetOrdering attributes 1";

/// CertificationRequest (RFC 2986, 4.2).
const CERTIFICATION_REQUEST: &str = "\
+ 30130201003000300a300406022a0303020001a000: \
    tag 06 certification_request_info CertificationRequestInfo::version; \
    tag 02 signature_algorithm AlgorithmIdentifier::algorithm; tag ae certification_request_info
+ 300406022a03: tag 03 signature_algorithm; tag 30 signature; tag ae signature_algorithm
+ 03020001: short 1 signature; ExtraData; tag 8e signature
= 030200a0: read
= 030207ff: InvalidValue signature";

/// Each of these types answers as its rows say.
pub fn lists_and_requests(alloc: Global) -> Result<(), Fail> {
    are_answered::<RevokedCertificate<'_>>(alloc, "RevokedCertificate", REVOKED_CERTIFICATE)?;
    are_answered::<RevokedCertificates<'_>>(alloc, "RevokedCertificates", REVOKED_CERTIFICATES)?;
    are_answered::<TbsCertList<'_>>(alloc, "TbsCertList", TBS_CERT_LIST)?;
    are_answered::<CertificateList<'_>>(alloc, "CertificateList", CERTIFICATE_LIST)?;
    are_answered::<CrlNumber<'_>>(alloc, "CrlNumber", CRL_NUMBER)?;
    are_answered::<BaseCrlNumber<'_>>(alloc, "BaseCrlNumber", BASE_CRL_NUMBER)?;
    are_answered::<CrlReason>(alloc, "CrlReason", CRL_REASON)?;
    are_answered::<InvalidityDate>(alloc, "InvalidityDate", INVALIDITY_DATE)?;
    are_answered::<CertificationRequestInfo<'_>>(
        alloc,
        "CertificationRequestInfo",
        CERTIFICATION_REQUEST_INFO,
    )?;
    are_answered::<CertificationRequest<'_>>(alloc, "CertificationRequest", CERTIFICATION_REQUEST)
}
