//! Laws of times: which octets are read and written, how times compare, and what clones are. Each is the contract of a
//! function that does nothing.

ghost use Rattle.std.specs.Cmp.{IsTotalOrder};
ghost use Rattle.asn1_values.specs.Comparisons.{AreInLine, ClonesAreEqual, HashesAlike, IsEqualityOf, IsOrderOf};
ghost use Rattle.asn1_values.specs.Comparisons.{IsTieOf, IsTransitive, NeverFails};
ghost use Rattle.asn1_values.specs.TimeValues.{TimesAreRead, TimesAreWritten};
ghost use Rattle.asn1_values.specs.TimeValues.{instant_content, utc_content, x509_content};
ghost use Rattle.asn1_values.specs.TimeValues.{moment, instant_of, utc_moment, x509_moment};
ghost use Rattle.asn1_values.specs.Times.{IsInstantText, IsUtcText, IsX509Text};
ghost use Rattle.asn1_values.specs.Times.{instant_order, moment_order};

use crate::values::{DateTime, GeneralizedTime, UtcTime, X509GeneralizedTime};
use std::hash::Hash;

/// Reading returns the time of contents octets, and rejects all other octets with `InvalidValue`.
pub fn times_are_read()
    ensures utc { TimesAreRead utc_content IsUtcText }
    ensures x509 { TimesAreRead x509_content IsX509Text }
    ensures general { TimesAreRead instant_content IsInstantText }
{}

/// Each valid time has its contents octets, which are written, and no others.
pub fn times_are_written()
    ensures utc { TimesAreWritten utc_content IsUtcText }
    ensures x509 { TimesAreWritten x509_content IsX509Text }
    ensures general { TimesAreWritten instant_content IsInstantText }
{}

/// A `DateTime` is ordered by year, month, day, hour, minute and second, in turn. Two are equal exactly if these are
/// the same, and then their hashes are equal too. Of two others exactly one is before the other (`line`, `apart`), and
/// what is before an earlier one is earlier (`transitive`). A clone never fails, and equals its source.
pub fn date_times_compare()
    ensures order { IsOrderOf moment moment_order ⟦<DateTime as PartialOrd>⟧.partial_cmp }
    ensures line { IsTotalOrder moment_order }
    ensures transitive { IsTransitive ⟦<DateTime as PartialOrd>⟧.partial_cmp }
    ensures apart { AreInLine moment moment_order }
    ensures tie { IsTieOf moment moment_order }
    ensures equality { IsEqualityOf moment ⟦<DateTime as PartialEq>⟧.eq }
    ensures hash { HashesAlike moment ⟦<DateTime as Hash>⟧.hash_input }
    ensures clone { ClonesAreEqual ⟦<DateTime as Clone>⟧.is_clone ⟦<DateTime as PartialEq>⟧.eq }
    ensures infallible { NeverFails ⟦<DateTime as Clone>⟧.is_infallible }
{
    date_times_are_ordered();
}

/// Two `DateTime`s compare in the order of their dates and times of day.
fn date_times_are_ordered()
    ensures { IsOrderOf moment moment_order ⟦<DateTime as PartialOrd>⟧.partial_cmp }
{}

/// A `GeneralizedTime` is ordered by date and time of day, then no fraction before any fraction, then by nanoseconds.
/// Two are equal exactly if these are the same, and then their hashes are equal too. Of two others exactly one is
/// before the other (`line`, `apart`), and what is before an earlier one is earlier (`transitive`). A clone never
/// fails, and equals its source.
pub fn generalized_times_compare()
    ensures order { IsOrderOf instant_of instant_order
        ⟦<GeneralizedTime as PartialOrd>⟧.partial_cmp }
    ensures line { IsTotalOrder instant_order }
    ensures transitive { IsTransitive ⟦<GeneralizedTime as PartialOrd>⟧.partial_cmp }
    ensures apart { AreInLine instant_of instant_order }
    ensures tie { IsTieOf instant_of instant_order }
    ensures equality { IsEqualityOf instant_of ⟦<GeneralizedTime as PartialEq>⟧.eq }
    ensures hash { HashesAlike instant_of ⟦<GeneralizedTime as Hash>⟧.hash_input }
    ensures clone { ClonesAreEqual ⟦<GeneralizedTime as Clone>⟧.is_clone
        ⟦<GeneralizedTime as PartialEq>⟧.eq }
    ensures infallible { NeverFails ⟦<GeneralizedTime as Clone>⟧.is_infallible }
{
    generalized_times_are_ordered();
}

/// Two `GeneralizedTime`s compare in the order of their instants.
fn generalized_times_are_ordered()
    ensures { IsOrderOf instant_of instant_order ⟦<GeneralizedTime as PartialOrd>⟧.partial_cmp }
{}

/// Two `UtcTime`s are equal exactly if their dates and times of day are, and then their hashes are equal too. A clone
/// never fails, and equals its source.
pub fn utc_times_compare()
    ensures equality { IsEqualityOf utc_moment ⟦<UtcTime as PartialEq>⟧.eq }
    ensures hash { HashesAlike utc_moment ⟦<UtcTime as Hash>⟧.hash_input }
    ensures clone { ClonesAreEqual ⟦<UtcTime as Clone>⟧.is_clone ⟦<UtcTime as PartialEq>⟧.eq }
    ensures infallible { NeverFails ⟦<UtcTime as Clone>⟧.is_infallible }
{}

/// Two `X509GeneralizedTime`s are equal exactly if their dates and times of day are, and then their hashes are equal
/// too. A clone never fails, and equals its source.
pub fn x509_generalized_times_compare()
    ensures equality { IsEqualityOf x509_moment ⟦<X509GeneralizedTime as PartialEq>⟧.eq }
    ensures hash { HashesAlike x509_moment ⟦<X509GeneralizedTime as Hash>⟧.hash_input }
    ensures clone { ClonesAreEqual ⟦<X509GeneralizedTime as Clone>⟧.is_clone
        ⟦<X509GeneralizedTime as PartialEq>⟧.eq }
    ensures infallible { NeverFails ⟦<X509GeneralizedTime as Clone>⟧.is_infallible }
{}
