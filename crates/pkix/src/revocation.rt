//! Revocation lists (RFC 5280, 5), and the values of extensions that they carry.

pub mod extensions;
mod lists;

pub use lists::{CertificateList, RevokedCertificate, RevokedCertificates, TbsCertList};

/// The laws of the types, which do nothing.
pub mod laws {
    pub use super::lists::laws::{
        certificate_list_is_lawful, revoked_certificate_is_lawful, revoked_certificates_is_lawful,
        tbs_cert_list_is_lawful,
    };
}
