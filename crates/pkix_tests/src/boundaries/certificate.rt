//! Certificates and the values of their extensions (RFC 5280, 4.1 and 4.2).

use crate::boundaries::are_answered;
use pkix::certificate::access::{AccessDescription, AuthorityInfoAccess};
use pkix::certificate::distribution::{
    CrlDistributionPoints, DistributionPoint, DistributionPointName, IssuingDistributionPoint,
};
use pkix::certificate::extensions::{
    AuthorityKeyIdentifier, BasicConstraints, ExtendedKeyUsage, KeyUsage, SubjectAltName,
    SubjectDirectoryAttributes, SubjectKeyIdentifier,
};
use pkix::certificate::policies::{
    CertificatePolicies, CpsUri, DisplayText, GeneralSubtree, GeneralSubtrees, InhibitAnyPolicy,
    NameConstraints, NoticeReference, PolicyConstraints, PolicyInformation, PolicyMapping,
    PolicyMappings, PolicyQualifierInfo, UserNotice,
};
use pkix::certificate::{Certificate, TbsCertificate, Validity};
use std::alloc::Global;
use std::test::Fail;

/// Validity (RFC 5280, 4.1.2.5).
const VALIDITY: &str = "\
+ 170d3236313132343130353031305a: short 1 not_after; ExtraData; tag 8e not_before
= 180f32303236313132343130353031305a: read
+ 170d3236313132343130353031305a: short 1 not_after; ExtraData; tag 8e not_after
= 180f32303236313132343130353031305a: read
301c170b323631313233303035375a170d3336313132303030353735365a: InvalidValue not_before
3022170d3236313132333030353735365a17113336313132303030353735362b30313030: InvalidValue not_after";

/// TbsCertificate (RFC 5280, 4.1.2).
const TBS_CERTIFICATE: &str = "\
? a003020102: read; tag a0 serial_number; tag ae serial_number
= a003020100: EncodedDefault version
= a004020200ff: read
= a00402020100: IntegerOverflow version
= a0030201ff: InvalidValue version
= a000: short 1 version
= a0050201020500: ExtraData version
+ 020105: tag 30 serial_number; tag 02 signature; tag 8e serial_number
= 0209010000000000000000: read
= 0201ff: read
= 0202ffff: InvalidValue serial_number
+ 300406022a03: short 1 signature AlgorithmIdentifier::algorithm; tag 06 issuer 0; tag ae signature
+ 3000: tag 17 issuer 0; short 1 validity Validity::not_before; tag ae issuer
= 30023100: read
+ 301e170d3236313132343130353031305a170d3236313132343130353031305a: short 1 validity Validity::not_before; \
    tag 17 subject 0; tag ae validity
+ 3000: tag 30 subject 0; short 1 subject_public_key_info SubjectPublicKeyInfo::algorithm; tag ae subject
= 30023100: read
+ 300a300406022a0303020001: tag 81 subject_public_key_info; ExtraData; tag ae subject_public_key_info
? 81020001: read; ExtraData; ExtraData
= 810200a0: read
= 810207ff: InvalidValue issuer_unique_id
? 82020001: read; ExtraData; ExtraData
= 820200a0: read
= 820207ff: InvalidValue subject_unique_id
? a30b3009300706022a030401ab: read; ExtraData; ExtraData
= a3023000: 0 items extensions
= a30430023000: short 1 extensions 0 Extension::extn_id
= a300: short 1 extensions
= a30d3009300706022a030401ab0500: ExtraData extensions";

/// Certificate (RFC 5280, 4.1.1).
const CERTIFICATE: &str = "\
+ 3039020105300406022a033000301e170d3236313132343130353031305a170d3236313132343130353031305a3000300a300406022a03\
    03020001: tag 06 tbs_certificate TbsCertificate::serial_number; \
    tag 02 signature_algorithm AlgorithmIdentifier::algorithm; tag ae tbs_certificate
+ 300406022a03: tag 03 signature_algorithm; tag 30 signature_value; tag ae signature_algorithm
+ 03020001: short 1 signature_value; ExtraData; tag 8e signature_value
= 030200a0: read
= 030207ff: InvalidValue signature_value";

/// AuthorityKeyIdentifier (RFC 5280, 4.2.1.1).
const AUTHORITY_KEY_IDENTIFIER: &str = "\
? 8001ab: read; ExtraData; ExtraData
= 8000: read
? a103820161: read; ExtraData; ExtraData
= a100: 0 items authority_cert_issuer
= a106820162820161: read
? 820105: read; ExtraData; ExtraData
= 8209010000000000000000: read
= 8201ff: read
= 8202ffff: InvalidValue authority_cert_serial_number
305c8014c7f2e2721ca1228541f539ddeb9aecdd1ea6b30ba140a43e303c310b300906035504061302415431163014060355040a0c0d4578\
    616d706c6520576f726b733115301306035504030c0c66756c6c2e6578616d706c6582021234: read";

/// SubjectKeyIdentifier (RFC 5280, 4.2.1.2).
const SUBJECT_KEY_IDENTIFIER: &str = "\
0401ab: read
0400: read
8e01ab: tag 8e
: short 1
0414c7f2e2721ca1228541f539ddeb9aecdd1ea6b30b: read";

/// KeyUsage (RFC 5280, 4.2.1.3).
const KEY_USAGE: &str = "\
03020560: read
03020060: InvalidValue
03020460: InvalidValue
03020001: read
030100: read
8e020560: tag 8e
: short 1";

/// SubjectAltName (RFC 5280, 4.2.1.6).
const SUBJECT_ALT_NAME: &str = "\
3003820161: read
3000: 0 items
ae03820161: tag ae
: short 1
3069820c66756c6c2e6578616d706c658704c0000201810e614066756c6c2e6578616d706c658614687474703a2f2f66756c6c2e6578616d\
    706c652f88032a0304a41830163114301206035504030c0b63726c2e6578616d706c65a00e06032a0305a0070c056f74686572: read";

/// SubjectDirectoryAttributes (RFC 5280, 4.2.1.8).
const SUBJECT_DIRECTORY_ATTRIBUTES: &str = "\
300a300806022a0331020500: read
3000: 0 items
30023000: short 1 0 Attribute::type_id
3010300606022a033100300606022a033100: read
ae0a300806022a0331020500: tag ae
: short 1";

/// ExtendedKeyUsage (RFC 5280, 4.2.1.12).
const EXTENDED_KEY_USAGE: &str = "\
300406022a03: read
3000: 0 items
300806022a0306022a04: read
30020201: short 1 0
ae0406022a03: tag ae
: short 1
301406082b0601050507030106082b06010505070302: read";

/// BasicConstraints (RFC 5280, 4.2.1.9).
const BASIC_CONSTRAINTS: &str = "\
? 0101ff: read; ExtraData; ExtraData
= 010100: EncodedDefault ca
= 010101: InvalidValue ca
? 020105: read; ExtraData; ExtraData
= 020100: read
= 0209010000000000000000: read
= 0201ff: InvalidValue path_len_constraint
= 02020005: InvalidValue path_len_constraint";

/// PolicyQualifierInfo (RFC 5280, 4.2.1.4).
const POLICY_QUALIFIER_INFO: &str = "\
+ 06022a03: tag 05 policy_qualifier_id; ExtraData; tag 8e policy_qualifier_id
= 0600: InvalidValue policy_qualifier_id
+ 0500: short 1 qualifier; ExtraData; read";

/// CpsUri (RFC 5280, 4.2.1.4).
const CPS_URI: &str = "\
160161: read
160180: InvalidValue
0c0161: tag 0c
: short 1";

/// DisplayText (RFC 5280, 4.2.1.4).
const DISPLAY_TEXT: &str = "\
160161: read
160180: InvalidValue
1a0161: read
1a010a: InvalidValue
1e020061: read
1e0161: InvalidValue
0c02c3a9: read
0c01c3: InvalidValue
130161: tag 13
8e0161: tag 8e
: short 1";

/// NoticeReference (RFC 5280, 4.2.1.4).
const NOTICE_REFERENCE: &str = "\
+ 160161: tag 30 organization; tag 16 notice_numbers; tag 8e organization
= 0c0161: read
= 160180: InvalidValue organization
+ 3003020105: short 1 notice_numbers; ExtraData; tag ae notice_numbers
= 3000: read
= 30030201ff: read
= 300402020005: InvalidValue notice_numbers 0";

/// UserNotice (RFC 5280, 4.2.1.4).
const USER_NOTICE: &str = "\
? 30081601613003020105: read; ExtraData; ExtraData
= 3000: short 1 notice_ref NoticeReference::organization
? 0c0161: read; ExtraData; ExtraData
= 160161: read
= 0c01c3: InvalidValue explicit_text
3000: read";

/// PolicyInformation (RFC 5280, 4.2.1.4).
const POLICY_INFORMATION: &str = "\
+ 06022a03: tag 30 policy_identifier; ExtraData; tag 8e policy_identifier
= 0600: InvalidValue policy_identifier
? 3008300606022a030500: read; ExtraData; ExtraData
= 3000: 0 items policy_qualifiers
= 30023000: short 1 policy_qualifiers 0 PolicyQualifierInfo::policy_qualifier_id";

/// CertificatePolicies (RFC 5280, 4.2.1.4).
const CERTIFICATE_POLICIES: &str = "\
3006300406022a03: read
3000: 0 items
30023000: short 1 0 PolicyInformation::policy_identifier
ae06300406022a03: tag ae
: short 1
3070300506032a0304305f06032a03053058302406082b060105050702011618687474703a2f2f706f6c69636965732e6578616d706c652f\
    303006082b06010505070202302430171a0d4578616d706c6520576f726b7330060201010201020c0952656164207468697330060604551d\
    2000: read";

/// PolicyMapping (RFC 5280, 4.2.1.5).
const POLICY_MAPPING: &str = "\
+ 06022a03: short 1 subject_domain_policy; ExtraData; tag 8e issuer_domain_policy
= 0600: InvalidValue issuer_domain_policy
+ 06022a04: short 1 subject_domain_policy; ExtraData; tag 8e subject_domain_policy
= 0600: InvalidValue subject_domain_policy";

/// PolicyMappings (RFC 5280, 4.2.1.5).
const POLICY_MAPPINGS: &str = "\
300a300806022a0306022a04: read
3000: 0 items
30023000: short 1 0 PolicyMapping::issuer_domain_policy
ae0a300806022a0306022a04: tag ae
: short 1
3018300a06032a030406032a0305300a06032a030606032a0307: read";

/// Each of these types answers as its rows say.
pub fn certificates_and_policies(alloc: Global) -> Result<(), Fail> {
    are_answered::<Validity>(alloc, "Validity", VALIDITY)?;
    are_answered::<TbsCertificate<'_>>(alloc, "TbsCertificate", TBS_CERTIFICATE)?;
    are_answered::<Certificate<'_>>(alloc, "Certificate", CERTIFICATE)?;
    are_answered::<AuthorityKeyIdentifier<'_>>(
        alloc,
        "AuthorityKeyIdentifier",
        AUTHORITY_KEY_IDENTIFIER,
    )?;
    are_answered::<SubjectKeyIdentifier<'_>>(
        alloc,
        "SubjectKeyIdentifier",
        SUBJECT_KEY_IDENTIFIER,
    )?;
    are_answered::<KeyUsage<'_>>(alloc, "KeyUsage", KEY_USAGE)?;
    are_answered::<SubjectAltName<'_>>(alloc, "SubjectAltName", SUBJECT_ALT_NAME)?;
    are_answered::<SubjectDirectoryAttributes<'_>>(
        alloc,
        "SubjectDirectoryAttributes",
        SUBJECT_DIRECTORY_ATTRIBUTES,
    )?;
    are_answered::<ExtendedKeyUsage<'_>>(alloc, "ExtendedKeyUsage", EXTENDED_KEY_USAGE)?;
    are_answered::<BasicConstraints<'_>>(alloc, "BasicConstraints", BASIC_CONSTRAINTS)?;
    are_answered::<PolicyQualifierInfo<'_>>(alloc, "PolicyQualifierInfo", POLICY_QUALIFIER_INFO)?;
    are_answered::<CpsUri<'_>>(alloc, "CpsUri", CPS_URI)?;
    are_answered::<DisplayText<'_>>(alloc, "DisplayText", DISPLAY_TEXT)?;
    are_answered::<NoticeReference<'_>>(alloc, "NoticeReference", NOTICE_REFERENCE)?;
    are_answered::<UserNotice<'_>>(alloc, "UserNotice", USER_NOTICE)?;
    are_answered::<PolicyInformation<'_>>(alloc, "PolicyInformation", POLICY_INFORMATION)?;
    are_answered::<CertificatePolicies<'_>>(alloc, "CertificatePolicies", CERTIFICATE_POLICIES)?;
    are_answered::<PolicyMapping>(alloc, "PolicyMapping", POLICY_MAPPING)?;
    are_answered::<PolicyMappings<'_>>(alloc, "PolicyMappings", POLICY_MAPPINGS)
}

/// GeneralSubtree (RFC 5280, 4.2.1.10).
const GENERAL_SUBTREE: &str = "\
+ 820161: tag 80 base; ExtraData; tag 8e base
? 800101: read; ExtraData; ExtraData
= 800100: EncodedDefault minimum
= 800500ffffffff: read
= 80050100000000: IntegerOverflow minimum
= 8001ff: InvalidValue minimum
? 810105: read; ExtraData; ExtraData
= 810100: read
= 8109010000000000000000: read
= 8101ff: InvalidValue maximum
= 81020005: InvalidValue maximum";

/// GeneralSubtrees (RFC 5280, 4.2.1.10).
const GENERAL_SUBTREES: &str = "\
30053003820161: read
3000: 0 items
30023000: short 1 0 GeneralSubtree::base
ae053003820161: tag ae
: short 1";

/// NameConstraints (RFC 5280, 4.2.1.10).
const NAME_CONSTRAINTS: &str = "\
? a0053003820161: read; ExtraData; ExtraData
= a000: 0 items permitted_subtrees
= a0023000: short 1 permitted_subtrees 0 GeneralSubtree::base
= a00a30038201623003820161: read
? a1053003820161: read; ExtraData; ExtraData
= a100: 0 items excluded_subtrees
= a1023000: short 1 excluded_subtrees 0 GeneralSubtree::base
= a10a30038201623003820161: read
303aa017300982076578616d706c65300a8708c0000200ffffff00a11f300a81082e6578616d706c653011a40f300d310b30090603550406\
    13024154: read
300ea00c300a8201618001018102012c: read
3008a106300488022a03: read";

/// PolicyConstraints (RFC 5280, 4.2.1.11).
const POLICY_CONSTRAINTS: &str = "\
? 800105: read; ExtraData; ExtraData
= 800100: read
= 8009010000000000000000: read
= 8001ff: InvalidValue require_explicit_policy
= 80020005: InvalidValue require_explicit_policy
? 810105: read; ExtraData; ExtraData
= 810100: read
= 8109010000000000000000: read
= 8101ff: InvalidValue inhibit_policy_mapping
= 81020005: InvalidValue inhibit_policy_mapping
3005a003020100: ExtraData";

/// InhibitAnyPolicy (RFC 5280, 4.2.1.14).
const INHIBIT_ANY_POLICY: &str = "\
020105: read
020100: read
0209010000000000000000: read
0201ff: InvalidValue
02020005: InvalidValue
8e0105: tag 8e
: short 1";

/// AccessDescription (RFC 5280, 4.2.2.1).
const ACCESS_DESCRIPTION: &str = "\
+ 06022a03: tag 82 access_method; tag 06 access_location; tag 8e access_method
= 0600: InvalidValue access_method
+ 820161: short 1 access_location; ExtraData; tag 8e access_location";

/// AuthorityInfoAccess (RFC 5280, 4.2.2.1).
const AUTHORITY_INFO_ACCESS: &str = "\
3009300706022a03820161: read
3000: 0 items
30023000: short 1 0 AccessDescription::access_method
ae09300706022a03820161: tag ae
: short 1
3047302006082b060105050730018614687474703a2f2f6f6373702e6578616d706c652f302306082b060105050730028617687474703a2f\
    2f63612e6578616d706c652f632e646572: read";

/// DistributionPointName (RFC 5280, 4.2.1.13).
const DISTRIBUTION_POINT_NAME: &str = "\
a003820161: read
a100: read
a000: 0 items
a10a300806035504030c0161: read
a006820162820161: read
a110300606022a040500300606022a030500: InvalidSetOrdering 1
8000: tag 80
8100: tag 81
8200: tag 82
a200: tag a2
ae03820161: tag ae
: short 1";

/// DistributionPoint (RFC 5280, 4.2.1.13).
const DISTRIBUTION_POINT: &str = "\
? a005a003820161: read; ExtraData; ExtraData
= a002a100: read
= a000: short 1 distribution_point
= a007a0038201610500: ExtraData distribution_point
? 81020560: read; ExtraData; ExtraData
= 81020060: InvalidValue reasons
= 81020460: InvalidValue reasons
= 81020001: read
? a203820161: read; ExtraData; ExtraData
= a200: 0 items crl_issuer
= a206820162820161: read";

/// CrlDistributionPoints (RFC 5280, 4.2.1.13).
const CRL_DISTRIBUTION_POINTS: &str = "\
30023000: read
3000: 0 items
300430003000: read
ae023000: tag ae
: short 1
3040303ea01ca01a8618687474703a2f2f63726c2e6578616d706c652f612e63726c81020560a21aa41830163114301206035504030c0b63\
    726c2e6578616d706c65: read";

/// IssuingDistributionPoint (RFC 5280, 5.2.5).
const ISSUING_DISTRIBUTION_POINT: &str = "\
? a005a003820161: read; ExtraData; ExtraData
= a002a100: read
= a000: short 1 distribution_point
= a007a0038201610500: ExtraData distribution_point
? 8101ff: read; ExtraData; ExtraData
= 810100: EncodedDefault only_contains_user_certs
= 810101: InvalidValue only_contains_user_certs
? 8201ff: read; ExtraData; ExtraData
= 820100: EncodedDefault only_contains_ca_certs
= 820101: InvalidValue only_contains_ca_certs
? 83020560: read; ExtraData; ExtraData
= 83020060: InvalidValue only_some_reasons
= 83020460: InvalidValue only_some_reasons
= 83020001: read
? 8401ff: read; ExtraData; ExtraData
= 840100: EncodedDefault indirect_crl
= 840101: InvalidValue indirect_crl
? 8501ff: read; ExtraData; ExtraData
= 850100: EncodedDefault only_contains_attribute_certs
= 850101: InvalidValue only_contains_attribute_certs
302ba01fa01d861b687474703a2f2f63726c2e6578616d706c652f736f6d652e63726c8101ff830205608401ff: read
3011a00ca10a300806035504030c01618501ff: read";

/// Each of these types answers as its rows say.
pub fn constraints_and_points(alloc: Global) -> Result<(), Fail> {
    are_answered::<GeneralSubtree<'_>>(alloc, "GeneralSubtree", GENERAL_SUBTREE)?;
    are_answered::<GeneralSubtrees<'_>>(alloc, "GeneralSubtrees", GENERAL_SUBTREES)?;
    are_answered::<NameConstraints<'_>>(alloc, "NameConstraints", NAME_CONSTRAINTS)?;
    are_answered::<PolicyConstraints<'_>>(alloc, "PolicyConstraints", POLICY_CONSTRAINTS)?;
    are_answered::<InhibitAnyPolicy<'_>>(alloc, "InhibitAnyPolicy", INHIBIT_ANY_POLICY)?;
    are_answered::<AccessDescription<'_>>(alloc, "AccessDescription", ACCESS_DESCRIPTION)?;
    are_answered::<AuthorityInfoAccess<'_>>(alloc, "AuthorityInfoAccess", AUTHORITY_INFO_ACCESS)?;
    are_answered::<DistributionPointName<'_>>(
        alloc,
        "DistributionPointName",
        DISTRIBUTION_POINT_NAME,
    )?;
    are_answered::<DistributionPoint<'_>>(alloc, "DistributionPoint", DISTRIBUTION_POINT)?;
    are_answered::<CrlDistributionPoints<'_>>(
        alloc,
        "CrlDistributionPoints",
        CRL_DISTRIBUTION_POINTS,
    )?;
    are_answered::<IssuingDistributionPoint<'_>>(
        alloc,
        "IssuingDistributionPoint",
        ISSUING_DISTRIBUTION_POINT,
    )
}
