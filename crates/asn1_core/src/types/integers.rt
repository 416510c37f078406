//! INTEGER (X.690 8.3): its contents octets, and the types of fixed width.

ghost use Rattle.std.specs.Prelude.{◌≡◌, ◌+◌, ◌-◌, ◌^◌, ◌<◌, ◌≤◌, ◌||◌, ◌==◌, ◌++◌, if◌then◌else◌, ◌≤ℤ◌, ◌<ℤ◌};
ghost use Rattle.std.specs.Prelude.{length, pos, neg_ℤ, IfOk, OnOk, OnErr, IsOkUnless};
ghost use Rattle.asn1_core.specs.Base256.{signed_number};
ghost use Rattle.asn1_core.specs.Integer.{nine_bits, is_minimal, integer_content, below, read_sized};
ghost use Rattle.asn1_core.specs.ReadError.{framed};
ghost use Rattle.asn1_core.specs.Reading.{Returns, Fits};
ghost use Rattle.asn1_core.specs.Sized.{integer_text};
ghost use Rattle.asn1_core.specs.declared.writer.WriteError.TheVariants.{AllocationError};
ghost use Rattle.asn1_core.specs.declared.parser.ParseErrorKind.TheVariants.{IntegerOverflow};

mod nonzero;
mod signed;
mod unsigned;

use crate::parser::ParseErrorKind;
use crate::writer::{WriteBuf, WriteError, WriteResult};

/// Longer contents octets are outside the range of every type of fixed width.
const MAX_CONTENT_OCTETS: usize = 9;

/// How many octets an `i64` has.
const WORD_OCTETS: usize = 8;

/// How many octets an `i128` has.
const OCTETS: usize = 16;

/// Whether the octet is superfluous before the next: its bits and the top bit of the next are all zero or all one
/// (8.3.2).
fn is_superfluous(octet: u8, next: u8) -> bool
    ensures { result ≡ (nine_bits octet next == 0 || nine_bits octet next == 0x1ff) }
{
    let bits = u16::from(octet) * 2 + u16::from(next / 0x80);
    bits == 0 || bits == 0x1ff
}

/// Whether the octets are the contents octets of an INTEGER (X.690 8.3): there is one; or there are more, and the first
/// nine bits are neither all zero nor all one.
pub fn is_integer_content(octets: &[u8]) -> bool
    ensures { result ≡ is_minimal octets.now }
{
    match octets {
        [] => false,
        [_] => true,
        [octet, next, ..] => !is_superfluous(*octet, *next),
    }
}

/// The octet that extends a sign: its bits are all one for a negative number, and else all zero.
fn sign_octet(is_negative: bool) -> u8
    ensures { result ≡ (if is_negative then 0xff else 0x00) }
{
    if is_negative { 0xff } else { 0x00 }
}

/// The number of one to nine octets in two's complement. Three or more are sign-extended to sixteen.
fn signed_number(octets: &[u8]) -> i128
    requires some { 0 < length octets.now }
    requires few { length octets.now ≤ MAX_CONTENT_OCTETS }
    ensures { result ≡ signed_number octets.now }
{
    // Most numbers are small, and these need no array.
    if let [octet] = octets {
        return i128::from(octet.cast_signed());
    }
    if let [octet, next] = octets {
        return i128::from(octet.cast_signed()) * 0x100 + i128::from(*next);
    }
    let sign = sign_octet(octets[0] >= 0x80);
    let mut extended = [sign; OCTETS];
    extended[OCTETS - octets.len()..].copy_from_slice(octets);
    i128::from_be_bytes(extended)
}

/// Why a number outside the range of a type is rejected: it is below, or above.
fn beyond(is_below: bool, low: i128) -> ParseErrorKind
    ensures { result ≡ (if is_below then below low else IntegerOverflow) }
{
    if is_below && low >= 0 {
        ParseErrorKind::InvalidValue
    } else {
        ParseErrorKind::IntegerOverflow
    }
}

/// The number that contents octets encode, for a type with the range `low` to `high`; on an error, the kind alone.
///
/// `InvalidValue` if the octets aren't contents octets of an INTEGER, and for a negative number if the type is
/// unsigned; `IntegerOverflow` for another number outside the range.
pub(crate) fn read(octets: &[u8], low: i128, high: i128) -> Result<i128, ParseErrorKind>
    requires least { neg_ℤ (pos (2 ^ 71)) ≤ℤ low }
    requires greatest { high <ℤ pos (2 ^ 71) }
    requires ordered { low ≤ℤ high }
    ensures exact { Returns (λ z. z) (λ _. ⊥) (framed result) (read_sized low high octets.now) }
    ensures within { IfOk result (λ z. (low ≤ℤ z) × (z ≤ℤ high)) }
{
    if !is_integer_content(octets) {
        return Err(ParseErrorKind::InvalidValue);
    }
    if octets.len() > MAX_CONTENT_OCTETS {
        return Err(beyond(octets[0] >= 0x80, low));
    }
    let number = signed_number(octets);
    if number < low || number > high {
        return Err(beyond(number < low, low));
    }
    Ok(number)
}

/// Appends the contents octets of the number. `AllocationError` if out of memory; then nothing was appended.
///
/// Nearly all numbers fit in a word, and take a third of the instructions then.
#[inline(always)]
pub(crate) fn write(number: i128, dest: &mut WriteBuf) -> WriteResult<()>
    ensures ok { OnOk result (dest.new.bytes ≡ dest.old.bytes ++ integer_content number) }
    ensures err { OnErr result (dest.new ≡ dest.old) }
    ensures error { IsOkUnless result WriteError.AllocationError }
{
    match i64::try_from(number) {
        Ok(word) => write_word(word, dest),
        Err(_) => write_wide(number, dest),
    }
}

/// The same for a number in one word.
#[inline]
fn write_word(number: i64, dest: &mut WriteBuf) -> WriteResult<()>
    ensures ok { OnOk result (dest.new.bytes ≡ dest.old.bytes ++ integer_content number) }
    ensures err { OnErr result (dest.new ≡ dest.old) }
    ensures error { IsOkUnless result WriteError.AllocationError }
{
    let octets = number.to_be_bytes();
    let start = WORD_OCTETS - word_length(number);
    dest.push_slice(&octets[start..])
}

/// The same for any number.
#[cold]
#[inline(never)]
fn write_wide(number: i128, dest: &mut WriteBuf) -> WriteResult<()>
    ensures ok { OnOk result (dest.new.bytes ≡ dest.old.bytes ++ integer_content number) }
    ensures err { OnErr result (dest.new ≡ dest.old) }
    ensures error { IsOkUnless result WriteError.AllocationError }
{
    let octets = number.to_be_bytes();
    let start = OCTETS - wide_length(number);
    dest.push_slice(&octets[start..])
}

/// How many contents octets the number has: enough for its bits and one for the sign.
#[inline(always)]
pub(crate) fn length(number: i128) -> usize
    ensures { result ≡ length (integer_content number) }
{
    match i64::try_from(number) {
        Ok(word) => word_length(word),
        Err(_) => wide_length(number),
    }
}

/// The same for a number in one word.
#[inline(always)]
fn word_length(number: i64) -> usize
    ensures { result ≡ length (integer_content number) }
{
    let size = word_without_sign(number);
    let bits = 64 - size.leading_zeros();
    (bits / 8) as usize + 1
}

/// The same for any number.
#[inline]
fn wide_length(number: i128) -> usize
    ensures { result ≡ length (integer_content number) }
{
    let size = without_sign(number);
    let bits = 128 - size.leading_zeros();
    (bits / 8) as usize + 1
}

/// States that the encoding of a number of fixed width is short enough to be read. The call does nothing at run time.
#[inline(always)]
fn is_short(number: i128)
    requires least { neg_ℤ (pos (2 ^ 71)) ≤ℤ number }
    requires greatest { number <ℤ pos (2 ^ 71) }
    ensures { Fits (integer_text number) }
{}

/// The number n itself, or -n - 1 if n is negative; both have the same number of contents octets.
#[inline]
fn without_sign(number: i128) -> u128
    ensures { length (integer_content (pos result)) ≡ length (integer_content number) }
{
    let size = number.unsigned_abs();
    if number < 0 {
        return size - 1;
    }
    size
}

/// The same for a number in one word.
#[inline(always)]
fn word_without_sign(number: i64) -> u64
    ensures { length (integer_content (pos result)) ≡ length (integer_content number) }
{
    let size = number.unsigned_abs();
    if number < 0 {
        return size - 1;
    }
    size
}
