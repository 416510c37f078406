//! Signatures (RFC 3279, RFC 8017), and signed data as far as time stamps need it (RFC 5652).

mod signed_data;
mod signer;
mod values;

pub use signed_data::{ContentInfo, EncapsulatedContentInfo, SignedData};
pub use signer::{
    ContentType, IssuerAndSerialNumber, MessageDigest, SignerIdentifier, SignerInfo, SigningTime,
};
pub use values::{DigestInfo, EcdsaSigValue};

/// The laws of the types, which do nothing.
pub mod laws {
    pub use super::signed_data::laws::{
        content_info_is_lawful, encapsulated_content_info_is_lawful, signed_data_is_lawful,
    };
    pub use super::signer::laws::{
        content_type_is_lawful, issuer_and_serial_number_is_lawful, message_digest_is_lawful,
        signer_identifier_is_lawful, signer_info_is_lawful, signing_time_is_lawful,
    };
    pub use super::values::laws::{digest_info_is_lawful, ecdsa_sig_value_is_lawful};
}
