//! Values of the types that C has: Booleans, integers, bits, times, and the dotted text of an object identifier.

ghost use Rattle.std.specs.Prelude.{◌≡◌, ℤ, ℕ, IfSome};
ghost use Rattle.std.specs.Fmt.InlineText.{inline_text};
ghost use Rattle.asn1.specs.Identifier.{dotted_text};
ghost use Rattle.asn1.specs.IdentifierValues.{identifier_of};
ghost use Rattle.asn1.specs.Reading.{whole};
ghost use Rattle.asn1.specs.CoreTypes.{signed_der, unsigned_der};
ghost use Rattle.asn1.specs.TimeValues.{moment};
ghost use Rattle.asn1_for_c.specs.Errors.{told_read, unknown_type, without_details};
ghost use Rattle.asn1_for_c.specs.Types.{IsReadAs, LeavesRead};
ghost use Rattle.asn1_for_c.specs.Values.{IsWidth, LeavesDotted, LeavesNatural, bits_in, shown_time};

use crate::errors::{Asn1Error, BUFFER_TOO_SMALL, UNKNOWN_TYPE, error_of};
use crate::texts::leave_text;
use asn1::{
    Asn1Readable, Asn1Type, BitString, DateTime, GeneralizedTime, ObjectIdentifier, ParseErrorKind,
    UtcTime, parse_single,
};
use std::alloc::Global;
use std::fmt::{InlineText, Write};

/// A value that was read, or `None` and the error.
fn read_as<'a, T: Asn1Readable<'a>>(
    alloc: Global,
    octets: &'a [u8],
    error: &mut Asn1Error,
) -> Option<T>
    requires { T.der.takes_memory → ⊥ }
    ensures error { error.new ≡ told_read (whole (T.der.read octets.entry.now)) }
    ensures value { IsReadAs T.der.meaning result (whole (T.der.read octets.entry.now)) }
{
    match parse_single::<T>(alloc, octets) {
        Ok(value) => {
            *error = Asn1Error::without_details(0);
            Some(value)
        }
        Err(fault) => {
            *error = error_of(fault.kind());
            None
        }
    }
}

/// Reads a Boolean. Returns 0 and sets `value`; or returns the number of the error and leaves `value`.
pub fn asn1_read_bool(alloc: Global, octets: &[u8], value: &mut bool, error: &mut Asn1Error) -> u32
    ensures exact { LeavesRead (λ it. it) value.old value.new error.new
        (whole (⟦<bool as Asn1Type>⟧.der.read octets.now)) }
    ensures number { result ≡ error.new.number }
{
    if let Some(found) = read_as::<bool>(alloc, octets, error) {
        *value = found;
    }
    error.number
}

/// Reads an integer of this many bits with a sign: 8, 16, 32 or 64. Returns 0 and sets `value`; or returns the number
/// of the error and leaves `value`.
pub fn asn1_read_signed(
    alloc: Global,
    bits: u32,
    octets: &[u8],
    value: &mut i64,
    error: &mut Asn1Error,
) -> u32
    ensures exact { IsWidth bits → LeavesRead (λ it. it) value.old value.new error.new
        (whole ((signed_der {V = ℤ} bits (λ it. it)).read octets.now)) }
    ensures other { ¬ IsWidth bits → error.new ≡ without_details unknown_type }
    ensures kept { ¬ IsWidth bits → value.new ≡ value.old }
    ensures number { result ≡ error.new.number }
{
    let found = match bits {
        8 => read_as::<i8>(alloc, octets, error).map(i64::from),
        16 => read_as::<i16>(alloc, octets, error).map(i64::from),
        32 => read_as::<i32>(alloc, octets, error).map(i64::from),
        64 => read_as::<i64>(alloc, octets, error),
        _ => {
            *error = Asn1Error::without_details(UNKNOWN_TYPE);
            None
        }
    };
    if let Some(found) = found {
        *value = found;
    }
    error.number
}

/// Reads an integer of this many bits without a sign: 8, 16, 32 or 64. Returns 0 and sets `value`; or returns the
/// number of the error and leaves `value`.
pub fn asn1_read_unsigned(
    alloc: Global,
    bits: u32,
    octets: &[u8],
    value: &mut u64,
    error: &mut Asn1Error,
) -> u32
    ensures exact { IsWidth bits → LeavesNatural value.old value.new error.new
        (whole ((unsigned_der {V = ℕ} bits (λ it. it)).read octets.now)) }
    ensures other { ¬ IsWidth bits → error.new ≡ without_details unknown_type }
    ensures kept { ¬ IsWidth bits → value.new ≡ value.old }
    ensures number { result ≡ error.new.number }
{
    let found = match bits {
        8 => read_as::<u8>(alloc, octets, error).map(u64::from),
        16 => read_as::<u16>(alloc, octets, error).map(u64::from),
        32 => read_as::<u32>(alloc, octets, error).map(u64::from),
        64 => read_as::<u64>(alloc, octets, error),
        _ => {
            *error = Asn1Error::without_details(UNKNOWN_TYPE);
            None
        }
    };
    if let Some(found) = found {
        *value = found;
    }
    error.number
}

/// The bits of a bit string: octets at the end of those that were read.
#[repr(C)]
#[derive(Drop)]
pub struct Asn1Bits {
    /// Where the octets of the bits begin.
    pub start: usize,
    /// How many octets the bits have.
    pub count: usize,
    /// How many low bits of the last octet are no bits of the string: 0 to 7.
    pub padding: u8,
}

/// Reads a bit string. Returns 0 and sets `value`; or returns the number of the error and leaves `value`.
pub fn asn1_read_bits(
    alloc: Global,
    octets: &[u8],
    value: &mut Asn1Bits,
    error: &mut Asn1Error,
) -> u32
    ensures exact { LeavesRead (bits_in octets.now) value.old value.new error.new
        (whole (⟦<BitString<'static> as Asn1Type>⟧.der.read octets.now)) }
    ensures number { result ≡ error.new.number }
{
    if let Some(found) = read_as::<BitString<'_>>(alloc, octets, error) {
        *value = Asn1Bits {
            start: octets.len().saturating_sub(found.as_bytes().len()),
            count: found.as_bytes().len(),
            padding: found.padding_bits(),
        };
    }
    error.number
}

/// A date and a time of day in UTC.
#[repr(C)]
#[derive(Drop)]
pub struct Asn1Time {
    /// The year, 0 to 9999.
    pub year: u16,
    /// The month, 1 to 12.
    pub month: u8,
    /// The day of the month, 1 to 31.
    pub day: u8,
    /// The hour, 0 to 23.
    pub hour: u8,
    /// The minute, 0 to 59.
    pub minute: u8,
    /// The second, 0 to 59.
    pub second: u8,
    /// The fraction of a second in nanoseconds, 0 to 999999999: 0 if there is none.
    pub nanoseconds: u32,
}

/// The date and time with this fraction.
fn time_with(time: &DateTime, nanoseconds: Option<u32>) -> Asn1Time
    ensures { result ≡ shown_time (moment time.now) nanoseconds }
{
    Asn1Time {
        year: time.year(),
        month: time.month(),
        day: time.day(),
        hour: time.hour(),
        minute: time.minute(),
        second: time.second(),
        nanoseconds: nanoseconds.unwrap_or(0),
    }
}

/// Reads a UTCTime, of a year from 1950 to 2049. Returns 0 and sets `value`; or returns the number of the error and
/// leaves `value`.
pub fn asn1_read_utc_time(
    alloc: Global,
    octets: &[u8],
    value: &mut Asn1Time,
    error: &mut Asn1Error,
) -> u32
    ensures exact { LeavesRead (λ it. shown_time it None) value.old value.new error.new
        (whole (⟦<UtcTime as Asn1Type>⟧.der.read octets.now)) }
    ensures number { result ≡ error.new.number }
{
    if let Some(found) = read_as::<UtcTime>(alloc, octets, error) {
        *value = time_with(found.as_datetime(), None);
    }
    error.number
}

/// Reads a GeneralizedTime, with a fraction of a second or without. Returns 0 and sets `value`; or returns the number
/// of the error and leaves `value`.
pub fn asn1_read_generalized_time(
    alloc: Global,
    octets: &[u8],
    value: &mut Asn1Time,
    error: &mut Asn1Error,
) -> u32
    ensures exact { LeavesRead (λ it. shown_time it.moment it.nanoseconds) value.old value.new
        error.new (whole (⟦<GeneralizedTime as Asn1Type>⟧.der.read octets.now)) }
    ensures number { result ≡ error.new.number }
{
    if let Some(found) = read_as::<GeneralizedTime>(alloc, octets, error) {
        *value = time_with(found.as_datetime(), found.nanoseconds());
    }
    error.number
}

/// The most characters of the dotted text of an object identifier: 63 octets, each a number of up to three digits, with
/// points between.
const MAX_DOTTED: usize = 256;

/// The dotted text. `None` if it has more octets than any has.
fn dotted(identifier: &ObjectIdentifier) -> Option<InlineText<MAX_DOTTED>>
    ensures { IfSome result
        (λ text. inline_text text ≡ dotted_text (identifier_of identifier.now)) }
{
    let mut text = InlineText::<MAX_DOTTED>::new();
    match write!(text, "{identifier}") {
        Ok(()) => Some(text),
        Err(_) => None,
    }
}

/// Reads an object identifier, and leaves its dotted text, such as `2.5.4.3`, in `text` if it has room for it. Sets
/// `count` to how many octets the text has. Returns 0, or the number of a buffer that is too small; or the number of
/// the error, and then leaves `text`, and sets `count` to 0.
pub fn asn1_read_oid(
    alloc: Global,
    octets: &[u8],
    text: &mut [u8],
    count: &mut usize,
    error: &mut Asn1Error,
) -> u32
    ensures exact { LeavesDotted text.old text.new count.new error.new
        (whole (⟦<ObjectIdentifier as Asn1Type>⟧.der.read octets.now)) }
    ensures number { result ≡ error.new.number }
{
    *count = 0;
    if let Some(found) = read_as::<ObjectIdentifier>(alloc, octets, error) {
        match dotted(&found) {
            None => *error = error_of(ParseErrorKind::AllocationError),
            Some(shown) => {
                if !leave_text(shown.as_str().as_bytes(), text, count) {
                    *error = Asn1Error::without_details(BUFFER_TOO_SMALL);
                }
            }
        }
    }
    error.number
}
