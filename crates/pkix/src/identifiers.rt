//! Identifiers of attributes, purposes and curves. Those of extensions and algorithms are in
//! [`KnownExtension`](crate::extension_values::KnownExtension) and
//! [`KnownAlgorithm`](crate::algorithm_parameters::KnownAlgorithm).

pub mod attributes;
pub mod curves;
pub mod purposes;
