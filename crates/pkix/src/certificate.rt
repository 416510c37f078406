//! Certificates (RFC 5280, 4.1), and the values of extensions that most of them carry (4.2).

pub mod access;
pub mod distribution;
pub mod extensions;
pub mod key_usages;
pub mod policies;
mod whole;

pub use whole::{Certificate, TbsCertificate, Validity};

/// The laws of the types, which do nothing.
pub mod laws {
    pub use super::whole::laws::{
        certificate_is_lawful, tbs_certificate_is_lawful, validity_is_lawful,
    };
}
