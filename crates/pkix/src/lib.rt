//! Readers and writers of certificates, revocation lists, requests, keys, signatures and time stamps, in DER (X.690).
//!
//! Each type is that of its document. [`asn1::parse_single`] reads a value, and [`asn1::write_readable`] writes it as
//! the same octets. What isn't DER is rejected, but for what is within elements of any type and within octets: nothing
//! there is looked at. Parameters of algorithms, values of attributes and of other names, qualifiers of policies and
//! contents of messages are elements of any type, of which the tag and the length are read; of an ORAddress too the
//! elements aren't read. Values of extensions, private keys, bits of public keys and of signatures, and encapsulated
//! contents are octets. [`common::AlgorithmIdentifier::read_parameters`] reads the parameters of known algorithms, and
//! [`common::Extension::value`] the values of known extensions. Other elements and octets are read by
//! [`asn1::parse_single`] as the type that they should have, such as [`common::DirectoryString`] or
//! [`certificate::policies::UserNotice`].
//!
//! The modules `laws` have a function for each type, which does nothing, and whose contract says that each value has
//! one encoding, which is read back.
#![tactic(auto)]

pub mod algorithm_parameters;
pub mod certificate;
pub mod common;
pub mod extension_values;
pub mod identifiers;
pub mod keys;
pub mod request;
pub mod revocation;
pub mod signatures;
pub mod timestamps;
