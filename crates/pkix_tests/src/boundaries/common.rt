//! What certificates, revocation lists, requests and time stamps have in common (RFC 5280).

use crate::boundaries::are_answered;
use asn1::TeletexString;
use pkix::common::{
    AlgorithmIdentifier, Attribute, AttributeTypeAndValue, Attributes, DirectoryString,
    EdiPartyName, Extension, Extensions, GeneralName, GeneralNames, Name, OtherName,
    SubjectPublicKeyInfo, Time,
};
use std::alloc::Global;
use std::test::Fail;

/// AlgorithmIdentifier (RFC 5280, 4.1.1.2).
const ALGORITHM_IDENTIFIER: &str = "\
+ 06022a03: tag 05 algorithm; ExtraData; tag 8e algorithm
= 0600: InvalidValue algorithm
? 0500: read; ExtraData; read";

/// SubjectPublicKeyInfo (RFC 5280, 4.1.2.7).
const SUBJECT_PUBLIC_KEY_INFO: &str = "\
+ 300406022a03: tag 03 algorithm; tag 30 subject_public_key; tag ae algorithm
+ 03020001: short 1 subject_public_key; ExtraData; tag 8e subject_public_key
= 030200a0: read
= 030207ff: InvalidValue subject_public_key";

/// Extension (RFC 5280, 4.1).
const EXTENSION: &str = "\
+ 06022a03: tag 01 extn_id; tag 06 extn_value; tag 8e extn_id
= 0600: InvalidValue extn_id
? 0101ff: read; tag 01 extn_value; tag 8e extn_value
= 010100: EncodedDefault critical
= 010101: InvalidValue critical
+ 0401ab: short 1 extn_value; ExtraData; tag 8e extn_value
= 0400: read
3081070603551d130400: InvalidLength
30080603551d13048100: InvalidLength extn_value
30800603551d1304000000: InvalidLength";

/// Extensions (RFC 5280, 4.1).
const EXTENSIONS: &str = "\
3009300706022a030401ab: read
3000: 0 items
30023000: short 1 0 Extension::extn_id
3012300706022a03040100300706022a04040100: read
ae09300706022a030401ab: tag ae
: short 1";

/// Time (RFC 5280, 4.1).
const TIME: &str = "\
170d3236313132343130353031305a: read
180f32303236313132343130353031305a: read
170b323631313234313035305a: InvalidValue
170f3236313132343130353031302e355a: InvalidValue
17113236313132343131353031302b30313030: InvalidValue
170d3236303233303130353031305a: InvalidValue
181132303236313132343130353031302e355a: InvalidValue
180d3230323631313234313035305a: InvalidValue
8e0d3236313132343130353031305a: tag 8e
: short 1";

/// AttributeTypeAndValue (RFC 5280, 4.1.2.4).
const ATTRIBUTE_TYPE_AND_VALUE: &str = "\
+ 06022a03: tag 05 type_id; ExtraData; tag 8e type_id
= 0600: InvalidValue type_id
+ 0500: short 1 value; ExtraData; read";

/// Name (RFC 5280, 4.1.2.4).
const NAME: &str = "\
3000: read
30023100: read
30163114300806035504050c0161300806035504030c0162: InvalidSetOrdering 0 1
30163114300806035504030c0162300806035504050c0161: read
ae00: tag ae
: short 1";

/// Attribute (RFC 2986, 4.1).
const ATTRIBUTE: &str = "\
+ 06022a03: tag 31 type_id; tag 06 values; tag 8e type_id
= 0600: InvalidValue type_id
+ 3100: short 1 values; ExtraData; tag ae values
= 31020500: read";

/// Attributes (RFC 2986, 4.1).
const ATTRIBUTES: &str = "\
3100: read
31023000: short 1 0 Attribute::type_id
310c300406022a033100: short 4
3110300606022a033100300606022a043100: read
3110300606022a043100300606022a033100: InvalidSetOrdering 1
ae00: tag ae
: short 1";

/// DirectoryString (RFC 5280, 4.1.2.4).
const DIRECTORY_STRING: &str = "\
140161: read
1401e9: read
1400: read
130161: read
130140: InvalidValue
1c0400000061: read
1c03000061: InvalidValue
0c02c3a9: read
0c01c3: InvalidValue
1e020061: read
1e0161: InvalidValue
120131: tag 12
160161: tag 16
040161: tag 04
330161: tag 33
8e0161: tag 8e
: short 1";

/// TeletexString (X.680 41).
const TELETEX_STRING: &str = "\
140161: read
1401e9: read
1400: read
040161: tag 04
340161: tag 34
: short 1";

/// OtherName (RFC 5280, 4.2.1.6).
const OTHER_NAME: &str = "\
+ 06022a03: tag a0 type_id; tag 06 value; tag 8e type_id
= 0600: InvalidValue type_id
+ a0020500: short 1 value; ExtraData; tag ae value
= a000: short 1 value
= a00405000500: ExtraData value";

/// EdiPartyName (RFC 5280, 4.2.1.6).
const EDI_PARTY_NAME: &str = "\
? a0030c0161: read; tag a0 party_name; tag ae party_name
= a003140161: read
= a003130161: read
= a0061c0400000061: read
= a0041e020061: read
= a0020c00: read
= a0020500: tag 05 name_assigner
= a003160161: tag 16 name_assigner
= a003130140: InvalidValue name_assigner
= a0030c01c3: InvalidValue name_assigner
= a000: short 1 name_assigner
= a0060c01610c0162: ExtraData name_assigner
= 0c0161: tag 0c party_name
= 800161: tag 80 party_name
+ a1030c0161: short 1 party_name; ExtraData; tag ae party_name
= a103140161: read
= a103130161: read
= a1061c0400000061: read
= a1041e020061: read
= a1020c00: read
= a1020500: tag 05 party_name
= a103160161: tag 16 party_name
= a103130140: InvalidValue party_name
= a1030c01c3: InvalidValue party_name
= a100: short 1 party_name
= a1060c01610c0162: ExtraData party_name
= 0c0161: tag 0c party_name
= 810161: tag 81 party_name";

/// GeneralName (RFC 5280, 4.2.1.6).
const GENERAL_NAME: &str = "\
a00806022a03a0020500: read
810161: read
820161: read
a300: read
a4023000: read
a505a1030c0161: read
860161: read
8704c0000201: read
88022a03: read
800806022a03a0020500: tag 80
81017f: read
810180: InvalidValue
8102c3a9: InvalidValue
a10161: tag a1
82017f: read
820180: InvalidValue
8202c3a9: InvalidValue
a20161: tag a2
a306020101010100: read
a3020500: read
8300: tag 83
a40430023100: read
a400: short 1
a40430000500: ExtraData
84023000: tag 84
a504a1020500: tag 05 EdiPartyName::party_name
8505a1030c0161: tag 85
86017f: read
860180: InvalidValue
8602c3a9: InvalidValue
a60161: tag a6
8700: read
a704c0000201: tag a7
8800: InvalidValue
a8022a03: tag a8
8900: tag 89
a900: tag a9
ae0806022a03a0020500: tag ae
: short 1";

/// GeneralNames (RFC 5280, 4.2.1.6).
const GENERAL_NAMES: &str = "\
3003820161: read
3000: 0 items
3006820161820162: read
ae03820161: tag ae
: short 1
3011a40f300d310b3009060355040613024154: read";

/// Each of these types answers as its rows say.
pub fn names_and_extensions(alloc: Global) -> Result<(), Fail> {
    are_answered::<AlgorithmIdentifier<'_>>(alloc, "AlgorithmIdentifier", ALGORITHM_IDENTIFIER)?;
    are_answered::<SubjectPublicKeyInfo<'_>>(
        alloc,
        "SubjectPublicKeyInfo",
        SUBJECT_PUBLIC_KEY_INFO,
    )?;
    are_answered::<Extension<'_>>(alloc, "Extension", EXTENSION)?;
    are_answered::<Extensions<'_>>(alloc, "Extensions", EXTENSIONS)?;
    are_answered::<Time>(alloc, "Time", TIME)?;
    are_answered::<AttributeTypeAndValue<'_>>(
        alloc,
        "AttributeTypeAndValue",
        ATTRIBUTE_TYPE_AND_VALUE,
    )?;
    are_answered::<Name<'_>>(alloc, "Name", NAME)?;
    are_answered::<Attribute<'_>>(alloc, "Attribute", ATTRIBUTE)?;
    are_answered::<Attributes<'_>>(alloc, "Attributes", ATTRIBUTES)?;
    are_answered::<DirectoryString<'_>>(alloc, "DirectoryString", DIRECTORY_STRING)?;
    are_answered::<TeletexString<'_>>(alloc, "TeletexString", TELETEX_STRING)?;
    are_answered::<OtherName<'_>>(alloc, "OtherName", OTHER_NAME)?;
    are_answered::<EdiPartyName<'_>>(alloc, "EdiPartyName", EDI_PARTY_NAME)?;
    are_answered::<GeneralName<'_>>(alloc, "GeneralName", GENERAL_NAME)?;
    are_answered::<GeneralNames<'_>>(alloc, "GeneralNames", GENERAL_NAMES)
}
