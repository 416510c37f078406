//! The sizes of keys, in bits.

use crate::show::Lines;
use asn1::{BigInt, BigUint, ObjectIdentifier, parse_single};
use pkix::algorithm_parameters::{AlgorithmParameters, KnownAlgorithm};
use pkix::common::AlgorithmIdentifier;
use pkix::keys::RsaPublicKey;
use std::alloc::Global;

/// The bits of the order of each curve's base point (RFC 5480, 2.1.1.1; SEC 2; RFC 5639).
const CURVES: &[(&str, usize)] = &[
    ("1.2.840.10045.3.1.1", 192),
    ("1.2.840.10045.3.1.7", 256),
    ("1.3.132.0.1", 163),
    ("1.3.132.0.10", 256),
    ("1.3.132.0.15", 163),
    ("1.3.132.0.16", 281),
    ("1.3.132.0.17", 282),
    ("1.3.132.0.26", 232),
    ("1.3.132.0.27", 233),
    ("1.3.132.0.33", 224),
    ("1.3.132.0.34", 384),
    ("1.3.132.0.35", 521),
    ("1.3.132.0.36", 407),
    ("1.3.132.0.37", 409),
    ("1.3.132.0.38", 570),
    ("1.3.132.0.39", 570),
    ("1.3.36.3.3.2.8.1.1.11", 384),
    ("1.3.36.3.3.2.8.1.1.13", 512),
    ("1.3.36.3.3.2.8.1.1.7", 256),
];

/// How many bits a number has.
pub(crate) fn bits(number: &BigUint<'_>) -> Option<usize> {
    let octets = number.as_bytes();
    // Contents octets that were read are never longer, which their types don't say.
    u32::try_from(octets.len()).ok()?;
    Some(BigInt::new(octets)?.bit_length())
}

/// How many bits the modulus of a key has, if its octets are an RSA public key (RFC 8017, A.1.1).
pub(crate) fn modulus_size(alloc: Global, octets: &[u8]) -> Option<usize> {
    bits(
        &parse_single::<RsaPublicKey<'_>>(alloc, octets)
            .ok()?
            .modulus,
    )
}

/// How many bits a key has that is on this curve, if the curve is known.
pub(crate) fn size_on(curve: &ObjectIdentifier) -> Option<usize> {
    let row = CURVES.iter().find(|row| {
        ObjectIdentifier::from_string(row.0).as_ref() == Some(curve)
    })?;
    Some(row.1)
}

/// How many bits a key has by its algorithm: by the curve, by the prime of DSA (RFC 3279, 2.3.2), or by the algorithm
/// itself (RFC 8032, 5; RFC 7748, 5). `None` if the algorithm doesn't tell.
pub(crate) fn size_by_algorithm(
    alloc: Global,
    algorithm: &AlgorithmIdentifier<'_>,
) -> Option<usize> {
    match KnownAlgorithm::with_identifier(&algorithm.algorithm)? {
        KnownAlgorithm::Ed25519 | KnownAlgorithm::X25519 => Some(256),
        KnownAlgorithm::Ed448 => Some(456),
        KnownAlgorithm::X448 => Some(448),
        _ => match algorithm.read_parameters(alloc).ok()? {
            AlgorithmParameters::NamedCurve(curve) => size_on(&curve),
            AlgorithmParameters::Dss(parameters) => bits(&parameters.p),
            _ => None,
        },
    }
}

/// Appends the line of a key's size, if it is known.
pub(crate) fn show_size(lines: &mut Lines, size: Option<usize>) {
    if let Some(size) = size {
        lines.part("keySize", &format!(in lines.alloc; "{size} bits"));
    }
}
