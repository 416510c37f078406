//! What holds of each value that is made from octets or text, whatever its type.

use asn1_core::{Asn1Readable, Asn1Writable, WriteError, parse_single};
use std::alloc::Global;
use std::fmt::Debug;
use std::hash::Hash;
use std::test::Fail;
use testing::{both_ways, hash_of, same};

/// The value is written as the octets. What they are read as equals it, and has a copy that does.
pub fn is_made<
    'a,
    T: Asn1Readable<'a> + Asn1Writable<Error = WriteError> + Clone + PartialEq + Debug,
>(alloc: Global, value: T, octets: &'a [u8]) -> Result<(), Fail> {
    let read = parse_single::<T>(alloc, octets)?;
    same(&read.clone()?, &value)?;
    both_ways(alloc, value, octets)
}

/// The same, and both have the same hash.
pub fn is_hashed<
    'a,
    T: Asn1Readable<'a> + Asn1Writable<Error = WriteError> + Clone + PartialEq + Debug + Hash,
>(alloc: Global, value: T, octets: &'a [u8]) -> Result<(), Fail> {
    let read = parse_single::<T>(alloc, octets)?;
    same(hash_of(&read), hash_of(&value))?;
    is_made(alloc, value, octets)
}
