//! Laws of integers of any length and of enumerated values: how they compare, and what clones are. Each is the contract
//! of a function that does nothing.

ghost use Rattle.asn1_values.specs.Comparisons.{
  ClonesAreEqual,
  HashesAlike,
  IsEqualityOf,
  NeverFails,
};
ghost use Rattle.asn1_values.specs.Values.{enumerated_value, big_int_number, big_int_octets, big_uint_number};
ghost use Rattle.asn1_values.specs.Values.{big_uint_octets, owned_big_int_number, owned_big_int_octets};
ghost use Rattle.asn1_values.specs.Values.{owned_big_uint_number, owned_big_uint_octets};

use crate::values::{BigInt, BigUint, Enumerated, OwnedBigInt, OwnedBigUint};
use std::hash::Hash;

/// Two `BigInt`s are equal exactly if their numbers are the same, which is exactly if their contents octets are. Then
/// their hashes are equal too. A clone never fails, and equals its source.
pub fn big_ints_compare()
    ensures octets { IsEqualityOf big_int_octets ⟦<BigInt<'static> as PartialEq>⟧.eq }
    ensures equality { IsEqualityOf big_int_number ⟦<BigInt<'static> as PartialEq>⟧.eq }
    ensures hash { HashesAlike big_int_number ⟦<BigInt<'static> as Hash>⟧.hash_input }
    ensures clone { ClonesAreEqual ⟦<BigInt<'static> as Clone>⟧.is_clone
        ⟦<BigInt<'static> as PartialEq>⟧.eq }
    ensures infallible { NeverFails ⟦<BigInt<'static> as Clone>⟧.is_infallible }
{}

/// Two `BigUint`s are equal exactly if their numbers are the same, which is exactly if their contents octets are. Then
/// their hashes are equal too. A clone never fails, and equals its source.
pub fn big_uints_compare()
    ensures octets { IsEqualityOf big_uint_octets ⟦<BigUint<'static> as PartialEq>⟧.eq }
    ensures equality { IsEqualityOf big_uint_number ⟦<BigUint<'static> as PartialEq>⟧.eq }
    ensures hash { HashesAlike big_uint_number ⟦<BigUint<'static> as Hash>⟧.hash_input }
    ensures clone { ClonesAreEqual ⟦<BigUint<'static> as Clone>⟧.is_clone
        ⟦<BigUint<'static> as PartialEq>⟧.eq }
    ensures infallible { NeverFails ⟦<BigUint<'static> as Clone>⟧.is_infallible }
{}

/// Two `OwnedBigInt`s are equal exactly if their numbers are the same, which is exactly if their contents octets are.
/// Then their hashes are equal too. A clone equals its source.
pub fn owned_big_ints_compare()
    ensures octets { IsEqualityOf owned_big_int_octets ⟦<OwnedBigInt as PartialEq>⟧.eq }
    ensures equality { IsEqualityOf owned_big_int_number ⟦<OwnedBigInt as PartialEq>⟧.eq }
    ensures hash { HashesAlike owned_big_int_number ⟦<OwnedBigInt as Hash>⟧.hash_input }
    ensures clone { ClonesAreEqual ⟦<OwnedBigInt as Clone>⟧.is_clone
        ⟦<OwnedBigInt as PartialEq>⟧.eq }
{}

/// Two `OwnedBigUint`s are equal exactly if their numbers are the same, which is exactly if their contents octets are.
/// Then their hashes are equal too. A clone equals its source.
pub fn owned_big_uints_compare()
    ensures octets { IsEqualityOf owned_big_uint_octets ⟦<OwnedBigUint as PartialEq>⟧.eq }
    ensures equality { IsEqualityOf owned_big_uint_number ⟦<OwnedBigUint as PartialEq>⟧.eq }
    ensures hash { HashesAlike owned_big_uint_number ⟦<OwnedBigUint as Hash>⟧.hash_input }
    ensures clone { ClonesAreEqual ⟦<OwnedBigUint as Clone>⟧.is_clone
        ⟦<OwnedBigUint as PartialEq>⟧.eq }
{}

/// Two `Enumerated`s are equal exactly if their numbers are the same.
pub fn enumerated_values_compare()
    ensures equality { IsEqualityOf enumerated_value ⟦<Enumerated as PartialEq>⟧.eq }
{}
