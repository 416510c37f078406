//! Laws of character strings: how they compare, and what clones are. Each is the contract of a function that does
//! nothing.

ghost use Rattle.asn1_values.specs.Comparisons.{
  ClonesAreEqual,
  HashesAlike,
  IsEqualityOf,
  NeverFails,
};
ghost use Rattle.asn1_values.specs.TextValues.{ia5_octets, printable_octets, utf8_octets, visible_octets, bmp_octets};
ghost use Rattle.asn1_values.specs.TextValues.{universal_octets};

use crate::values::{
    BMPString, IA5String, PrintableString, UniversalString, Utf8String, VisibleString,
};
use std::hash::Hash;

/// Two `PrintableString`s are equal exactly if their octets are the same, and then their hashes are equal too. A clone
/// never fails, and equals its source.
pub fn printable_strings_compare()
    ensures equality { IsEqualityOf printable_octets ⟦<PrintableString<'static> as PartialEq>⟧.eq }
    ensures hash { HashesAlike printable_octets ⟦<PrintableString<'static> as Hash>⟧.hash_input }
    ensures clone { ClonesAreEqual ⟦<PrintableString<'static> as Clone>⟧.is_clone
        ⟦<PrintableString<'static> as PartialEq>⟧.eq }
    ensures infallible { NeverFails ⟦<PrintableString<'static> as Clone>⟧.is_infallible }
{}

/// Two `IA5String`s are equal exactly if their octets are the same. A clone never fails, and equals its source.
pub fn ia5_strings_compare()
    ensures equality { IsEqualityOf ia5_octets ⟦<IA5String<'static> as PartialEq>⟧.eq }
    ensures clone { ClonesAreEqual ⟦<IA5String<'static> as Clone>⟧.is_clone
        ⟦<IA5String<'static> as PartialEq>⟧.eq }
    ensures infallible { NeverFails ⟦<IA5String<'static> as Clone>⟧.is_infallible }
{}

/// Two `VisibleString`s are equal exactly if their octets are the same. A clone never fails, and equals its source.
pub fn visible_strings_compare()
    ensures equality { IsEqualityOf visible_octets ⟦<VisibleString<'static> as PartialEq>⟧.eq }
    ensures clone { ClonesAreEqual ⟦<VisibleString<'static> as Clone>⟧.is_clone
        ⟦<VisibleString<'static> as PartialEq>⟧.eq }
    ensures infallible { NeverFails ⟦<VisibleString<'static> as Clone>⟧.is_infallible }
{}

/// Two `Utf8String`s are equal exactly if their octets are the same, and then their hashes are equal too. A clone never
/// fails, and equals its source.
pub fn utf8_strings_compare()
    ensures equality { IsEqualityOf utf8_octets ⟦<Utf8String<'static> as PartialEq>⟧.eq }
    ensures hash { HashesAlike utf8_octets ⟦<Utf8String<'static> as Hash>⟧.hash_input }
    ensures clone { ClonesAreEqual ⟦<Utf8String<'static> as Clone>⟧.is_clone
        ⟦<Utf8String<'static> as PartialEq>⟧.eq }
    ensures infallible { NeverFails ⟦<Utf8String<'static> as Clone>⟧.is_infallible }
{}

/// Two `BMPString`s are equal exactly if their octets are the same, and then their hashes are equal too. A clone never
/// fails, and equals its source.
pub fn bmp_strings_compare()
    ensures equality { IsEqualityOf bmp_octets ⟦<BMPString<'static> as PartialEq>⟧.eq }
    ensures hash { HashesAlike bmp_octets ⟦<BMPString<'static> as Hash>⟧.hash_input }
    ensures clone { ClonesAreEqual ⟦<BMPString<'static> as Clone>⟧.is_clone
        ⟦<BMPString<'static> as PartialEq>⟧.eq }
    ensures infallible { NeverFails ⟦<BMPString<'static> as Clone>⟧.is_infallible }
{}

/// Two `UniversalString`s are equal exactly if their octets are the same, and then their hashes are equal too. A clone
/// never fails, and equals its source.
pub fn universal_strings_compare()
    ensures equality { IsEqualityOf universal_octets ⟦<UniversalString<'static> as PartialEq>⟧.eq }
    ensures hash { HashesAlike universal_octets ⟦<UniversalString<'static> as Hash>⟧.hash_input }
    ensures clone { ClonesAreEqual ⟦<UniversalString<'static> as Clone>⟧.is_clone
        ⟦<UniversalString<'static> as PartialEq>⟧.eq }
    ensures infallible { NeverFails ⟦<UniversalString<'static> as Clone>⟧.is_infallible }
{}
