//! Requests for time stamps, responses, and what is stamped (RFC 3161, 2.4).

use crate::extensions::Named;
use crate::show::{Lines, Show, fields, with_name};
use pkix::timestamps::{
    Accuracy, MessageImprint, PkiStatusInfo, TimeStampReq, TimeStampResp, TstInfo,
};

impl Show for MessageImprint<'_> {
    fn show(&self, lines: &mut Lines) {
        fields!(lines, self, MessageImprint: hash_algorithm, hashed_message);
    }
}

impl Show for TimeStampReq<'_> {
    fn show(&self, lines: &mut Lines) {
        fields!(lines, self, TimeStampReq:
            version, message_imprint, req_policy, nonce, cert_req, extensions);
    }
}

/// The names of each status, from 0 (RFC 3161, 2.4.2).
const STATUSES: &str = "granted grantedWithMods rejection waiting revocationWarning \
    revocationNotification";

/// The names of each failure, in the order of their bits (RFC 3161, 2.4.2). The others aren't used.
const FAILURES: &str = "badAlg unused badRequest unused unused badDataFormat unused unused unused \
    unused unused unused unused unused timeNotAvailable unacceptedPolicy unacceptedExtension \
    addInfoNotAvailable unused unused unused unused unused unused unused systemFailure";

impl Show for PkiStatusInfo<'_> {
    fn show(&self, lines: &mut Lines) {
        fields!(lines, self, PkiStatusInfo:
            status = &with_name(lines.alloc, self.status, STATUSES),
            status_string, fail_info = &Named(self.fail_info.as_ref(), FAILURES));
    }
}

impl Show for TimeStampResp<'_> {
    fn show(&self, lines: &mut Lines) {
        fields!(lines, self, TimeStampResp: status, time_stamp_token);
    }
}

impl Show for Accuracy<'_> {
    fn show(&self, lines: &mut Lines) {
        fields!(lines, self, Accuracy: seconds, millis, micros);
    }
}

impl Show for TstInfo<'_> {
    fn show(&self, lines: &mut Lines) {
        fields!(lines, self, TstInfo:
            version, policy, message_imprint, serial_number, gen_time, accuracy, ordering, nonce,
            tsa, extensions);
    }
}
