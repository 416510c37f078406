//! Time stamps (RFC 3161, 2.4).

use crate::boundaries::are_answered;
use pkix::timestamps::{
    Accuracy, MessageImprint, PkiFreeText, PkiStatusInfo, TimeStampReq, TimeStampResp, TstInfo,
};
use std::alloc::Global;
use std::test::Fail;

/// MessageImprint (RFC 3161, 2.4.1).
const MESSAGE_IMPRINT: &str = "\
+ 300406022a03: tag 04 hash_algorithm; tag 30 hashed_message; tag ae hash_algorithm
+ 0401ab: short 1 hashed_message; ExtraData; tag 8e hashed_message
= 0400: read";

/// TimeStampReq (RFC 3161, 2.4.1).
const TIME_STAMP_REQ: &str = "\
+ 020101: tag 30 version; tag 02 message_imprint; tag 8e version
= 020200ff: read
= 02020100: IntegerOverflow version
= 0201ff: InvalidValue version
+ 3009300406022a030401ab: tag 06 message_imprint; ExtraData; tag ae message_imprint
? 06022a03: read; ExtraData; ExtraData
= 0600: InvalidValue req_policy
? 020105: read; ExtraData; ExtraData
= 0209010000000000000000: read
= 0201ff: read
= 0202ffff: InvalidValue nonce
? 0101ff: read; ExtraData; ExtraData
= 010100: EncodedDefault cert_req
= 010101: InvalidValue cert_req
? a009300706022a030401ab: read; ExtraData; ExtraData
= a000: 0 items extensions
= a0023000: short 1 extensions 0 Extension::extn_id
= a012300706022a040401ab300706022a030401ab: read
301d020101300b300406022a030403616263a00b300906032a030404020500: read";

/// PkiStatusInfo (RFC 3161, 2.4.2).
const PKI_STATUS_INFO: &str = "\
+ 020101: tag 30 status; ExtraData; tag 8e status
= 020500ffffffff: read
= 02050100000000: IntegerOverflow status
= 0201ff: InvalidValue status
? 30030c0161: read; ExtraData; ExtraData
= 3000: 0 items status_string
? 03020520: read; ExtraData; ExtraData
= 03020060: InvalidValue fail_info
= 03020460: InvalidValue fail_info
= 03020001: read";

/// PkiFreeText (RFC 3161, 2.4.2).
const PKI_FREE_TEXT: &str = "\
30030c0161: read
3000: 0 items
30060c01610c0162: read
30040c02c3a9: read
30030c01ff: InvalidValue 0
3003160161: tag 16 0
ae030c0161: tag ae
: short 1";

/// TimeStampResp (RFC 3161, 2.4.2).
const TIME_STAMP_RESP: &str = "\
+ 3003020101: tag 06 status PkiStatusInfo::status; tag 02 time_stamp_token ContentInfo::content_type; \
    tag ae status
? 300806022a03a0020500: read; ExtraData; ExtraData";

/// Accuracy (RFC 3161, 2.4.2).
const ACCURACY: &str = "\
? 020105: read; ExtraData; ExtraData
= 0209010000000000000000: read
= 0201ff: read
= 0202ffff: InvalidValue seconds
? 800101: read; ExtraData; ExtraData
= 800300ffff: read
= 8003010000: IntegerOverflow millis
= 8001ff: InvalidValue millis
? 810101: read; ExtraData; ExtraData
= 810300ffff: read
= 8103010000: IntegerOverflow micros
= 8101ff: InvalidValue micros";

/// TstInfo (RFC 3161, 2.4.2).
const TST_INFO: &str = "\
+ 020101: tag 06 version; tag 02 policy; tag 8e version
= 020200ff: read
= 02020100: IntegerOverflow version
= 0201ff: InvalidValue version
+ 06022a03: tag 30 policy; tag 06 message_imprint; tag 8e policy
= 0600: InvalidValue policy
+ 3009300406022a030401ab: tag 02 message_imprint; tag 30 serial_number; tag ae message_imprint
+ 020105: tag 18 serial_number; tag 02 gen_time; tag 8e serial_number
= 0209010000000000000000: read
= 0201ff: read
= 0202ffff: InvalidValue serial_number
+ 180f32303236313132343130353031305a: tag 30 gen_time; ExtraData; tag 8e gen_time
= 181132303236313132343130353031302e355a: read
= 181932303236313132343130353031302e3132333435363738395a: read
= 181232303236313132343130353031302e35305a: InvalidValue gen_time
= 181a32303236313132343130353031302e313233343536373839315a: InvalidValue gen_time
= 180d3230323631313234313035305a: InvalidValue gen_time
? 3000: read; ExtraData; ExtraData
? 0101ff: read; ExtraData; ExtraData
= 010100: EncodedDefault ordering
= 010101: InvalidValue ordering
? 020105: read; ExtraData; ExtraData
= 0209010000000000000000: read
= 0201ff: read
= 0202ffff: InvalidValue nonce
? a003820161: read; ExtraData; ExtraData
= a000: short 1 tsa
= a0058201610500: ExtraData tsa
? a109300706022a030401ab: read; ExtraData; ExtraData
= a100: 0 items extensions
= a1023000: short 1 extensions 0 Extension::extn_id
= a112300706022a040401ab300706022a030401ab: read
303502010106022a03300b300406022a030403616263020105180f32303236313132363132303030305aa10b300906032a030404020500: \
    read";

/// Each of these types answers as its rows say.
pub fn time_stamps(alloc: Global) -> Result<(), Fail> {
    are_answered::<MessageImprint<'_>>(alloc, "MessageImprint", MESSAGE_IMPRINT)?;
    are_answered::<TimeStampReq<'_>>(alloc, "TimeStampReq", TIME_STAMP_REQ)?;
    are_answered::<PkiStatusInfo<'_>>(alloc, "PkiStatusInfo", PKI_STATUS_INFO)?;
    are_answered::<PkiFreeText<'_>>(alloc, "PkiFreeText", PKI_FREE_TEXT)?;
    are_answered::<TimeStampResp<'_>>(alloc, "TimeStampResp", TIME_STAMP_RESP)?;
    are_answered::<Accuracy<'_>>(alloc, "Accuracy", ACCURACY)?;
    are_answered::<TstInfo<'_>>(alloc, "TstInfo", TST_INFO)
}
