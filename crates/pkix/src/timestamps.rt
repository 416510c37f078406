//! Time stamps (RFC 3161).

mod exchange;
mod info;

pub use exchange::{MessageImprint, PkiFreeText, PkiStatusInfo, TimeStampReq, TimeStampResp};
pub use info::{Accuracy, TstInfo};

/// The laws of the types, which do nothing.
pub mod laws {
    pub use super::exchange::laws::{
        message_imprint_is_lawful, pki_free_text_is_lawful, pki_status_info_is_lawful,
        time_stamp_req_is_lawful, time_stamp_resp_is_lawful,
    };
    pub use super::info::laws::{accuracy_is_lawful, tst_info_is_lawful};
}
