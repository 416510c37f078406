//! Laws of bit strings, each the contract of a function that does nothing.

ghost use Rattle.asn1_values.specs.Bits.{BitsAreAList, EachListHasBits, FilledOctetsAreBits, OneBitString, SetBits};
ghost use Rattle.asn1_values.specs.BitStrings.{bits_of, owned_bits_of};
ghost use Rattle.asn1_values.specs.Comparisons.{ClonesAreEqual, HashesAlike, IsEqualityOf, NeverFails};

use crate::bit_string::{BitString, OwnedBitString};
use std::hash::Hash;

/// A bit string means a list of bits.
pub fn bits_are_a_list()
    ensures { BitsAreAList }
{}

/// Octets that are filled by a list of bits and then zero bits, fewer than eight, are a bit string.
pub fn filled_octets_are_bits()
    ensures { FilledOctetsAreBits }
{}

/// Each list of bits has a bit string.
pub fn each_list_has_bits()
    ensures { EachListHasBits }
{}

/// A list of bits has only one bit string.
pub fn one_bit_string()
    ensures { OneBitString }
{}

/// A bit is set exactly if its index is within the list and the list's bit there is set.
pub fn set_bits()
    ensures { SetBits }
{}

/// Two `BitString`s are equal exactly if both their octets and their numbers of unused bits are the same, and then
/// their hashes are equal too. A clone never fails, and equals its source.
pub fn bit_strings_compare()
    ensures equality { IsEqualityOf bits_of ⟦<BitString<'static> as PartialEq>⟧.eq }
    ensures hash { HashesAlike bits_of ⟦<BitString<'static> as Hash>⟧.hash_input }
    ensures clone { ClonesAreEqual ⟦<BitString<'static> as Clone>⟧.is_clone
        ⟦<BitString<'static> as PartialEq>⟧.eq }
    ensures infallible { NeverFails ⟦<BitString<'static> as Clone>⟧.is_infallible }
{}

/// Two `OwnedBitString`s are equal exactly if both their octets and their numbers of unused bits are the same, and then
/// their hashes are equal too. A clone equals its source.
pub fn owned_bit_strings_compare()
    ensures equality { IsEqualityOf owned_bits_of ⟦<OwnedBitString as PartialEq>⟧.eq }
    ensures hash { HashesAlike owned_bits_of ⟦<OwnedBitString as Hash>⟧.hash_input }
    ensures clone { ClonesAreEqual ⟦<OwnedBitString as Clone>⟧.is_clone
        ⟦<OwnedBitString as PartialEq>⟧.eq }
{}
