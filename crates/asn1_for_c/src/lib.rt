//! The calls of the library for C: elements, whether octets are the one encoding of a value, and values. The crate
//! `asn1_c` exports them under the same names. Each states the clauses of the call of `asn1` that it makes.
#![tactic(auto)]

mod elements;
mod errors;
mod locations;
mod objects;
mod octets;
mod set_of;
mod texts;
mod types;
mod values;

pub use elements::{Asn1Element, asn1_strip_tlv};
pub use errors::Asn1Error;
pub use objects::{Described, Object, pkix_check, pkix_form};
pub use octets::{Rejecting, pkix_error_octet};
pub use set_of::asn1_set_of;
pub use texts::{asn1_error_text, asn1_version};
pub use types::{TypeName, asn1_check};
pub use values::{
    Asn1Bits, Asn1Time, asn1_read_bits, asn1_read_bool, asn1_read_generalized_time, asn1_read_oid,
    asn1_read_signed, asn1_read_unsigned, asn1_read_utc_time,
};
