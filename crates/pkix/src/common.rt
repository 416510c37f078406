//! What certificates, revocation lists, requests and keys have in common (RFC 5280, 4.1).

mod algorithm;
mod extension;
mod general_name;
mod named_bits;
mod names;
mod time;

pub use algorithm::{AlgorithmIdentifier, SubjectPublicKeyInfo};
pub use extension::{Extension, Extensions};
pub use general_name::{EdiPartyName, GeneralName, GeneralNames, OtherName};
pub use named_bits::NamedBits;
pub use names::{Attribute, AttributeTypeAndValue, Attributes, DirectoryString, Name};
pub use time::Time;

/// The laws of the types, which do nothing.
pub mod laws {
    pub use super::algorithm::laws::{
        algorithm_identifier_is_lawful, subject_public_key_info_is_lawful,
    };
    pub use super::extension::laws::{extension_is_lawful, extensions_is_lawful};
    pub use super::general_name::laws::{
        edi_party_name_is_lawful, general_name_is_lawful, general_names_is_lawful,
        other_name_is_lawful,
    };
    pub use super::named_bits::laws::named_bits_is_lawful;
    pub use super::names::laws::{
        attribute_is_lawful, attribute_type_and_value_is_lawful, attributes_is_lawful,
        directory_string_is_lawful, name_is_lawful,
    };
    pub use super::time::laws::time_is_lawful;
}
