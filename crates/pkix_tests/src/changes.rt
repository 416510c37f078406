//! Objects in which one octet is replaced, with the answers that are due, in the words of `boundaries`. These were
//! worked out from the modules of the RFCs, apart from the types.

use crate::boundaries::are_octets_answered;
use crate::objects::{DELTA_CRL, FULL, STAMP_RESPONSE};
use asn1::{Asn1Readable, Asn1Writable, WriteError};
use pkix::certificate::Certificate;
use pkix::revocation::CertificateList;
use pkix::timestamps::TimeStampResp;
use std::alloc::Global;
use std::test::Fail;

/// Which octet a row replaces, counted from 0, the other octet, and the answer.
fn change_of(row: &str) -> Option<(usize, u8, &str)> {
    let (change, wanted) = row.split_once(": ")?;
    let (place, octet) = change.split_once(" is ")?;
    Some((place.parse().ok()?, octet.parse().ok()?, wanted))
}

/// The object answers as each row says.
fn are_changes_answered<'a, T: Asn1Readable<'a> + Asn1Writable<Error = WriteError>>(
    alloc: Global,
    name: &str,
    object: &str,
    rows: &str,
) -> Result<(), Fail> {
    let whole = hex::decode(alloc, object)?;
    for row in rows.split('\n') {
        let Some((place, octet, wanted)) = change_of(row) else {
            return Err(Fail::new(format_args!("the row {row} has no change")));
        };
        let mut other = Vec::from_slice(alloc, whole.as_slice())?;
        if let Some(replaced) = other.get_mut(place) {
            *replaced = octet;
        }
        // What is read borrows from the octets, which are never freed.
        are_octets_answered::<T>(alloc, name, other.leak(), wanted)?;
    }
    Ok(())
}

/// A certificate with eight extensions.
const FULL_CHANGED: &str = "\
0 is 49: tag 31
1 is 2: short 76 tbs_certificate
1 is 125: tag 03 tbs_certificate
1 is 131: short 215269
1 is 162: InvalidLength
5 is 2: InvalidLength tbs_certificate TbsCertificate::serial_number
5 is 162: InvalidLength tbs_certificate
7 is 242: short 1 tbs_certificate TbsCertificate::extensions
8 is 161: tag a1 tbs_certificate TbsCertificate::serial_number
9 is 2: short 1 tbs_certificate TbsCertificate::version
9 is 35: ExtraData tbs_certificate TbsCertificate::version
9 is 252: InvalidLength tbs_certificate TbsCertificate::version
10 is 3: tag 03 tbs_certificate TbsCertificate::version
11 is 0: InvalidValue tbs_certificate TbsCertificate::version
14 is 3: tag 0a tbs_certificate TbsCertificate::signature
14 is 130: short 3914 tbs_certificate TbsCertificate::serial_number
15 is 19: read
18 is 11: short 1 tbs_certificate TbsCertificate::signature AlgorithmIdentifier::parameters
18 is 138: InvalidLength tbs_certificate TbsCertificate::signature
19 is 7: tag 07 tbs_certificate TbsCertificate::signature AlgorithmIdentifier::algorithm
20 is 9: short 1 tbs_certificate TbsCertificate::signature AlgorithmIdentifier::algorithm
20 is 136: InvalidLength tbs_certificate TbsCertificate::signature AlgorithmIdentifier::algorithm
28 is 3: read
28 is 130: InvalidValue tbs_certificate TbsCertificate::signature AlgorithmIdentifier::algorithm
29 is 49: tag 31 tbs_certificate TbsCertificate::issuer
30 is 61: short 1 tbs_certificate TbsCertificate::issuer 3
30 is 188: InvalidLength tbs_certificate TbsCertificate::issuer
31 is 48: tag 30 tbs_certificate TbsCertificate::issuer 0
32 is 10: short 1 tbs_certificate TbsCertificate::issuer 0 0
32 is 43: tag 31 tbs_certificate TbsCertificate::issuer 0 1
32 is 139: InvalidLength tbs_certificate TbsCertificate::issuer 0
34 is 8: short 1 tbs_certificate TbsCertificate::issuer 0 0 AttributeTypeAndValue::value
34 is 137: InvalidLength tbs_certificate TbsCertificate::issuer 0 0
35 is 7: tag 07 tbs_certificate TbsCertificate::issuer 0 0 AttributeTypeAndValue::type_id
36 is 35: short 28 tbs_certificate TbsCertificate::issuer 0 0 AttributeTypeAndValue::type_id
36 is 252: InvalidLength tbs_certificate TbsCertificate::issuer 0 0 AttributeTypeAndValue::type_id
39 is 134: InvalidValue tbs_certificate TbsCertificate::issuer 0 0 AttributeTypeAndValue::type_id
41 is 253: InvalidLength tbs_certificate TbsCertificate::issuer 0 0 AttributeTypeAndValue::value
43 is 85: read
49 is 2: ExtraData tbs_certificate TbsCertificate::issuer 1 0
91 is 49: tag 31 tbs_certificate TbsCertificate::validity
92 is 31: ExtraData tbs_certificate TbsCertificate::validity
92 is 158: InvalidLength tbs_certificate TbsCertificate::validity
93 is 22: tag 16 tbs_certificate TbsCertificate::validity Validity::not_before
94 is 12: InvalidValue tbs_certificate TbsCertificate::validity Validity::not_before
94 is 45: short 17 tbs_certificate TbsCertificate::validity Validity::not_before
94 is 141: InvalidLength tbs_certificate TbsCertificate::validity Validity::not_before
95 is 51: read
108 is 22: tag 16 tbs_certificate TbsCertificate::validity Validity::not_after
109 is 12: InvalidValue tbs_certificate TbsCertificate::validity Validity::not_after
109 is 45: short 32 tbs_certificate TbsCertificate::validity Validity::not_after
123 is 49: tag 31 tbs_certificate TbsCertificate::subject
124 is 188: InvalidLength tbs_certificate TbsCertificate::subject
185 is 49: tag 31 tbs_certificate TbsCertificate::subject_public_key_info
186 is 88: short 1 tbs_certificate TbsCertificate::subject_public_key_info \
    SubjectPublicKeyInfo::subject_public_key
186 is 121: ExtraData tbs_certificate TbsCertificate::subject_public_key_info
186 is 217: InvalidLength tbs_certificate TbsCertificate::subject_public_key_info
187 is 49: tag 31 tbs_certificate TbsCertificate::subject_public_key_info SubjectPublicKeyInfo::algorithm
188 is 18: short 1 tbs_certificate TbsCertificate::subject_public_key_info SubjectPublicKeyInfo::algorithm \
    AlgorithmIdentifier::parameters
188 is 51: ExtraData tbs_certificate TbsCertificate::subject_public_key_info SubjectPublicKeyInfo::algorithm
188 is 147: InvalidLength tbs_certificate TbsCertificate::subject_public_key_info \
    SubjectPublicKeyInfo::algorithm
189 is 7: tag 07 tbs_certificate TbsCertificate::subject_public_key_info SubjectPublicKeyInfo::algorithm \
    AlgorithmIdentifier::algorithm
190 is 39: short 22 tbs_certificate TbsCertificate::subject_public_key_info SubjectPublicKeyInfo::algorithm \
    AlgorithmIdentifier::algorithm
190 is 135: InvalidLength tbs_certificate TbsCertificate::subject_public_key_info \
    SubjectPublicKeyInfo::algorithm AlgorithmIdentifier::algorithm
197 is 129: InvalidValue tbs_certificate TbsCertificate::subject_public_key_info \
    SubjectPublicKeyInfo::algorithm AlgorithmIdentifier::algorithm
199 is 136: InvalidLength tbs_certificate TbsCertificate::subject_public_key_info \
    SubjectPublicKeyInfo::algorithm AlgorithmIdentifier::parameters
208 is 2: tag 02 tbs_certificate TbsCertificate::subject_public_key_info \
    SubjectPublicKeyInfo::subject_public_key
209 is 194: InvalidLength tbs_certificate TbsCertificate::subject_public_key_info \
    SubjectPublicKeyInfo::subject_public_key
210 is 32: InvalidValue tbs_certificate TbsCertificate::subject_public_key_info \
    SubjectPublicKeyInfo::subject_public_key
211 is 5: read
276 is 162: ExtraData tbs_certificate
277 is 162: InvalidLength tbs_certificate TbsCertificate::extensions
280 is 49: tag 31 tbs_certificate TbsCertificate::extensions
281 is 2: InvalidLength tbs_certificate TbsCertificate::extensions 0
283 is 222: short 1 tbs_certificate TbsCertificate::extensions 7
284 is 49: tag 31 tbs_certificate TbsCertificate::extensions 0
285 is 19: ExtraData tbs_certificate TbsCertificate::extensions 0
286 is 7: tag 07 tbs_certificate TbsCertificate::extensions 0 Extension::extn_id
287 is 2: tag 13 tbs_certificate TbsCertificate::extensions 0 Extension::extn_value
287 is 35: short 19 tbs_certificate TbsCertificate::extensions 0 Extension::extn_id
287 is 252: InvalidLength tbs_certificate TbsCertificate::extensions 0 Extension::extn_id
290 is 147: InvalidValue tbs_certificate TbsCertificate::extensions 0 Extension::extn_id
292 is 0: InvalidValue tbs_certificate TbsCertificate::extensions 0 Extension::critical
292 is 33: short 22 tbs_certificate TbsCertificate::extensions 0 Extension::critical
292 is 254: InvalidLength tbs_certificate TbsCertificate::extensions 0 Extension::critical
293 is 0: EncodedDefault tbs_certificate TbsCertificate::extensions 0 Extension::critical
295 is 9: short 1 tbs_certificate TbsCertificate::extensions 0 Extension::extn_value
295 is 136: InvalidLength tbs_certificate TbsCertificate::extensions 0 Extension::extn_value
300 is 254: read
763 is 49: tag 31 signature_algorithm
775 is 2: tag 02 signature_value
776 is 70: ExtraData
776 is 103: short 32 signature_value
776 is 199: InvalidLength signature_value
777 is 1: InvalidValue signature_value
847 is 58: read";

/// A revocation list with an entry.
const DELTA_CRL_CHANGED: &str = "\
0 is 49: tag 31
1 is 2: short 107 tbs_cert_list
1 is 125: tag 01 tbs_cert_list
1 is 131: short 92614
1 is 162: InvalidLength
3 is 106: short 1 signature_value
5 is 2: short 17 tbs_cert_list TbsCertList::signature
5 is 125: tag 01 tbs_cert_list TbsCertList::signature
5 is 162: InvalidLength tbs_cert_list
7 is 16: short 1 tbs_cert_list TbsCertList::crl_extensions
7 is 49: ExtraData tbs_cert_list
9 is 0: InvalidValue tbs_cert_list TbsCertList::version
9 is 33: IntegerOverflow tbs_cert_list TbsCertList::version
9 is 129: InvalidLength tbs_cert_list TbsCertList::version
12 is 11: short 1 tbs_cert_list TbsCertList::signature AlgorithmIdentifier::parameters
12 is 42: ExtraData tbs_cert_list TbsCertList::signature
12 is 138: InvalidLength tbs_cert_list TbsCertList::signature
13 is 7: tag 07 tbs_cert_list TbsCertList::signature AlgorithmIdentifier::algorithm
14 is 9: short 1 tbs_cert_list TbsCertList::signature AlgorithmIdentifier::algorithm
14 is 136: InvalidLength tbs_cert_list TbsCertList::signature AlgorithmIdentifier::algorithm
22 is 130: InvalidValue tbs_cert_list TbsCertList::signature AlgorithmIdentifier::algorithm
23 is 49: tag 31 tbs_cert_list TbsCertList::issuer
24 is 26: short 1 tbs_cert_list TbsCertList::issuer 0
24 is 59: tag 17 tbs_cert_list TbsCertList::issuer 1
24 is 155: InvalidLength tbs_cert_list TbsCertList::issuer
26 is 24: short 1 tbs_cert_list TbsCertList::issuer 0 0
26 is 153: InvalidLength tbs_cert_list TbsCertList::issuer 0
27 is 49: tag 31 tbs_cert_list TbsCertList::issuer 0 0
28 is 22: short 1 tbs_cert_list TbsCertList::issuer 0 0 AttributeTypeAndValue::value
28 is 151: InvalidLength tbs_cert_list TbsCertList::issuer 0 0
29 is 7: tag 07 tbs_cert_list TbsCertList::issuer 0 0 AttributeTypeAndValue::type_id
30 is 2: ExtraData tbs_cert_list TbsCertList::issuer 0 0
30 is 35: short 14 tbs_cert_list TbsCertList::issuer 0 0 AttributeTypeAndValue::type_id
30 is 252: InvalidLength tbs_cert_list TbsCertList::issuer 0 0 AttributeTypeAndValue::type_id
33 is 131: InvalidValue tbs_cert_list TbsCertList::issuer 0 0 AttributeTypeAndValue::type_id
35 is 144: InvalidLength tbs_cert_list TbsCertList::issuer 0 0 AttributeTypeAndValue::value
36 is 113: read
52 is 22: tag 16 tbs_cert_list TbsCertList::this_update
53 is 12: InvalidValue tbs_cert_list TbsCertList::this_update
53 is 141: InvalidLength tbs_cert_list TbsCertList::this_update
68 is 12: InvalidValue tbs_cert_list TbsCertList::next_update
83 is 61: short 1 tbs_cert_list TbsCertList::revoked_certificates 1
83 is 188: InvalidLength tbs_cert_list TbsCertList::revoked_certificates
84 is 49: tag 31 tbs_cert_list TbsCertList::revoked_certificates 0
85 is 26: short 32 tbs_cert_list TbsCertList::revoked_certificates 0 RevokedCertificate::crl_entry_extensions
85 is 186: InvalidLength tbs_cert_list TbsCertList::revoked_certificates 0
86 is 3: tag 03 tbs_cert_list TbsCertList::revoked_certificates 0 RevokedCertificate::user_certificate
87 is 0: InvalidValue tbs_cert_list TbsCertList::revoked_certificates 0 RevokedCertificate::user_certificate
87 is 33: short 64 tbs_cert_list TbsCertList::revoked_certificates 0 RevokedCertificate::revocation_date
87 is 129: InvalidLength tbs_cert_list TbsCertList::revoked_certificates 0 RevokedCertificate::user_certificate
88 is 10: read
89 is 22: tag 16 tbs_cert_list TbsCertList::revoked_certificates 0 RevokedCertificate::revocation_date
90 is 12: InvalidValue tbs_cert_list TbsCertList::revoked_certificates 0 RevokedCertificate::revocation_date
90 is 141: InvalidLength tbs_cert_list TbsCertList::revoked_certificates 0 RevokedCertificate::revocation_date
91 is 51: read
104 is 49: ExtraData tbs_cert_list TbsCertList::revoked_certificates 0
105 is 6: short 6 tbs_cert_list TbsCertList::revoked_certificates 0 RevokedCertificate::crl_entry_extensions 0
105 is 166: InvalidLength tbs_cert_list TbsCertList::revoked_certificates 0 \
    RevokedCertificate::crl_entry_extensions
106 is 49: tag 31 tbs_cert_list TbsCertList::revoked_certificates 0 RevokedCertificate::crl_entry_extensions 0
107 is 11: ExtraData tbs_cert_list TbsCertList::revoked_certificates 0 RevokedCertificate::crl_entry_extensions \
    0
107 is 138: InvalidLength tbs_cert_list TbsCertList::revoked_certificates 0 \
    RevokedCertificate::crl_entry_extensions 0
108 is 7: tag 07 tbs_cert_list TbsCertList::revoked_certificates 0 RevokedCertificate::crl_entry_extensions 0 \
    Extension::extn_id
109 is 2: tag 15 tbs_cert_list TbsCertList::revoked_certificates 0 RevokedCertificate::crl_entry_extensions 0 \
    Extension::extn_value
109 is 35: short 27 tbs_cert_list TbsCertList::revoked_certificates 0 RevokedCertificate::crl_entry_extensions \
    0 Extension::extn_id
109 is 252: InvalidLength tbs_cert_list TbsCertList::revoked_certificates 0 \
    RevokedCertificate::crl_entry_extensions 0 Extension::extn_id
112 is 149: InvalidValue tbs_cert_list TbsCertList::revoked_certificates 0 \
    RevokedCertificate::crl_entry_extensions 0 Extension::extn_id
114 is 35: short 32 tbs_cert_list TbsCertList::revoked_certificates 0 RevokedCertificate::crl_entry_extensions \
    0 Extension::extn_value
114 is 252: InvalidLength tbs_cert_list TbsCertList::revoked_certificates 0 \
    RevokedCertificate::crl_entry_extensions 0 Extension::extn_value
145 is 126: tag 86 tbs_cert_list TbsCertList::crl_extensions
145 is 128: InvalidLength tbs_cert_list TbsCertList::crl_extensions
148 is 1: short 1 tbs_cert_list TbsCertList::crl_extensions 0
148 is 126: tag 83 tbs_cert_list TbsCertList::crl_extensions 0
151 is 54: short 1 tbs_cert_list TbsCertList::crl_extensions 0 Extension::extn_value
151 is 183: InvalidLength tbs_cert_list TbsCertList::crl_extensions 0
152 is 7: tag 07 tbs_cert_list TbsCertList::crl_extensions 0 Extension::extn_id
153 is 2: tag 1c tbs_cert_list TbsCertList::crl_extensions 0 Extension::extn_value
153 is 131: short 5577962 tbs_cert_list TbsCertList::crl_extensions 0 Extension::extn_id
153 is 252: InvalidLength tbs_cert_list TbsCertList::crl_extensions 0 Extension::extn_id
156 is 156: InvalidValue tbs_cert_list TbsCertList::crl_extensions 0 Extension::extn_id
158 is 0: InvalidValue tbs_cert_list TbsCertList::crl_extensions 0 Extension::critical
158 is 129: short 208 tbs_cert_list TbsCertList::crl_extensions 0 Extension::critical
158 is 254: InvalidLength tbs_cert_list TbsCertList::crl_extensions 0 Extension::critical
159 is 0: EncodedDefault tbs_cert_list TbsCertList::crl_extensions 0 Extension::critical
161 is 44: ExtraData tbs_cert_list TbsCertList::crl_extensions 0
161 is 173: InvalidLength tbs_cert_list TbsCertList::crl_extensions 0 Extension::extn_value
281 is 49: tag 31 signature_algorithm
282 is 11: short 1 signature_algorithm AlgorithmIdentifier::parameters
282 is 138: InvalidLength signature_algorithm
283 is 7: tag 07 signature_algorithm AlgorithmIdentifier::algorithm
284 is 9: short 1 signature_algorithm AlgorithmIdentifier::algorithm
284 is 136: InvalidLength signature_algorithm AlgorithmIdentifier::algorithm
292 is 130: InvalidValue signature_algorithm AlgorithmIdentifier::algorithm
293 is 2: tag 02 signature_value
294 is 200: InvalidLength signature_value
295 is 1: InvalidValue signature_value
366 is 196: read";

/// A response with a time stamp.
const STAMP_RESPONSE_CHANGED: &str = "\
0 is 49: tag 31
1 is 2: short 19 status
1 is 125: tag 04 status
1 is 131: short 266014
1 is 162: InvalidLength
3 is 18: short 1 time_stamp_token
5 is 2: short 1 status PkiStatusInfo::status
5 is 35: short 1006 status PkiStatusInfo::status_string
5 is 252: InvalidLength status
6 is 3: tag 03 status PkiStatusInfo::status
7 is 0: InvalidValue status PkiStatusInfo::status
7 is 129: InvalidLength status PkiStatusInfo::status
8 is 1: read
9 is 49: ExtraData
10 is 2: short 10 time_stamp_token ContentInfo::content_type
10 is 125: tag 04 time_stamp_token ContentInfo::content_type
10 is 162: InvalidLength time_stamp_token
14 is 8: InvalidLength time_stamp_token ContentInfo::content
14 is 41: tag 0b time_stamp_token ContentInfo::content
14 is 137: InvalidLength time_stamp_token ContentInfo::content_type
23 is 130: InvalidValue time_stamp_token ContentInfo::content_type
25 is 131: short 259894 time_stamp_token ContentInfo::content
29 is 2: ExtraData time_stamp_token ContentInfo::content
1046 is 174: read";

#[test]
fn changed_octets(rt: HostRuntime) -> Result<(), Fail> {
    let alloc = rt.alloc();
    are_changes_answered::<Certificate<'_>>(alloc, "Certificate", FULL, FULL_CHANGED)?;
    are_changes_answered::<CertificateList<'_>>(
        alloc,
        "CertificateList",
        DELTA_CRL,
        DELTA_CRL_CHANGED,
    )?;
    are_changes_answered::<TimeStampResp<'_>>(
        alloc,
        "TimeStampResp",
        STAMP_RESPONSE,
        STAMP_RESPONSE_CHANGED,
    )
}
