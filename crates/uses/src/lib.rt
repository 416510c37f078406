//! Callers of `asn1` and `pkix`, to copy from. Each module is short, and is proved by the contracts of the libraries
//! alone, with no proof by hand.
//!
//! - [`framing`] cuts octets of a stream into elements, and never splits one.
//! - [`store`] reads a list of records, puts one behind it, and writes the longer list.
//! - [`hosts`] tells whether a certificate names a host.
//! - [`issued`] tells whether the issuer of a certificate is the subject of another.
#![tactic(auto)]

pub mod framing;
pub mod hosts;
pub mod issued;
pub mod store;
#[cfg(test)]
mod tests;
