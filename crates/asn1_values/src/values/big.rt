//! INTEGER of any length (X.690 8.3), whose contents octets are borrowed; and properties of contents octets.

ghost use Rattle.std.specs.Prelude.{◌≡◌, ◌+◌, ◌*◌, ◌-◌, ◌/◌, ◌^◌, ◌∷◌, ◌<◌, ◌≤◌, ◌↔◌};
ghost use Rattle.std.specs.Prelude.{length, pos, int_lt, IsTrue, MatchOption, EachIndex, slice_index};
ghost use Rattle.asn1_core.specs.Base256.{number, signed_number};
ghost use Rattle.asn1_core.specs.Tag.{universal};
ghost use Rattle.asn1_core.specs.Integer.{integer_content};
ghost use Rattle.asn1_core.specs.Reads.{ReadsContents};
ghost use Rattle.asn1_core.specs.Writing.{GivesLength};
ghost use Rattle.asn1_core.specs.Der.{simple_der};
ghost use Rattle.asn1_values.specs.Big.{IsSigned, IsUnsigned, IsSignedForm, IsUnsignedForm, bit_count};
ghost use Rattle.asn1_values.specs.BigSteps.{IsMagnitude, magnitude};

use asn1_core::types::is_integer_content;
use asn1_core::{
    Asn1Type, ParseError, ParseErrorKind, ParseResult, SimpleAsn1Readable, SimpleAsn1Writable, Tag,
    WriteBuf, WriteError, WriteResult,
};
use std::alloc::Global;
use std::fmt;

/// INTEGER (X.690 8.3; universal 2) that isn't negative, of any length: its contents octets, borrowed from the input.
///
/// DER demands the fewest octets (8.3.2). Reading rejects more than the fewest octets, no octets, and a negative number
/// with `InvalidValue`.
#[derive(Clone, Copy, PartialEq, Eq, Hash)]
pub struct BigUint<'a> {
    octets: &'a [u8],
    pub ghost is_content: { IsUnsignedForm octets.now },
}

impl<'a> BigUint<'a> {
    ghost use Rattle.asn1_values.specs.Values.{big_uint_octets};

    /// The integer with these contents octets, the most significant first. `None` if there is no octet; if there are
    /// more than one and the first nine bits are all zero or all one; and if the number is negative, since the top bit
    /// is set.
    pub fn new(octets: &'a [u8]) -> Option<BigUint<'a>>
        ensures { MatchOption result (¬ IsUnsigned octets.entry.now)
            (λ n. big_uint_octets n ≡ octets.entry.now) }
    {
        if !is_unsigned_content(octets) {
            return None;
        }
        Some(BigUint { octets })
    }

    /// The contents octets, with a leading 0x00 if the number's top bit needs one.
    pub fn as_bytes(&self) -> &'a [u8]
        ensures value { result.now ≡ big_uint_octets self.now }
        ensures content { IsUnsigned result.now }
    {
        self.octets
    }
}

impl fmt::Debug for BigUint<'_> {
    fn fmt<W: fmt::Write>(&self, f: &mut fmt::Formatter<W>) -> fmt::Result {
        f.debug_struct("BigUint")
            .field("data", &self.octets)
            .finish()
    }
}

impl<'a> Asn1Type for BigUint<'a> {
    ghost use Rattle.asn1_values.specs.Values.{big_uint_number, unsigned_content};
    ghost use Rattle.asn1_values.specs.LawsOf.Values.{unsigned_laws};

    ghost der = { simple_der big_uint_number unsigned_content unsigned_laws };

    fn known(&self) {}
}

impl<'a> SimpleAsn1Readable<'a> for BigUint<'a> {
    ghost use Rattle.asn1_values.specs.Values.{big_uint_number};

    fn tag() -> Tag
        ensures value { result ≡ universal 2 }
        ensures simple { Unit {0} }
        ensures plain { Unit {0} }
        ensures read { Unit {0} }
    {
        Tag::primitive(0x02)
    }

    #[inline]
    fn parse_data(_alloc: Global, data: &'a [u8]) -> ParseResult<BigUint<'a>>
        ensures { ReadsContents ⟦<BigUint<'a> as Asn1Type>⟧.der «data».entry.now result }
    {
        match BigUint::new(data) {
            Some(number) => Ok(number),
            None => Err(ParseError::new(ParseErrorKind::InvalidValue)),
        }
    }
}

impl SimpleAsn1Writable for BigUint<'_> {
    ghost use Rattle.asn1_values.specs.Values.{big_uint_number, unsigned_content};

    type Error = WriteError;

    ghost length_known = { λ _. Unit {0} };

    fn tag() -> Tag
        ensures value { result ≡ universal 2 }
        ensures simple { Unit {0} }
    {
        Tag::primitive(0x02)
    }

    fn write_data(&self, dest: &mut WriteBuf) -> WriteResult<()> {
        dest.push_slice(self.octets)
    }

    fn data_length(&self) -> Option<usize>
        ensures known { GivesLength (Unit {0}) (unsigned_content.encodings
            (big_uint_number self.now))
            result }
        ensures exact { result ≡ Some (length (integer_content (big_uint_number self.now))) }
    {
        Some(self.octets.len())
    }

    fn writes_as_read() -> bool
        ensures { IsTrue result }
    {
        true
    }
}

/// INTEGER (X.690 8.3; universal 2) of any length: its contents octets, borrowed from the input.
///
/// DER demands the fewest octets (8.3.2). Reading rejects more than the fewest octets, and no octets, with
/// `InvalidValue`.
///
/// ```text
/// let number = BigInt::new(content).ok_or(NONE)?;
/// same(number.as_bytes(), *content)?;
/// ```
#[derive(Clone, Copy, PartialEq, Eq, Hash)]
pub struct BigInt<'a> {
    octets: &'a [u8],
    pub ghost is_content: { IsSignedForm octets.now },
}

impl<'a> BigInt<'a> {
    ghost use Rattle.asn1_values.specs.Values.{big_int_octets, big_int_number};

    /// The integer with these contents octets in two's complement, the most significant first. `None` if there is no
    /// octet, and if there are more than one and the first nine bits are all zero or all one.
    pub fn new(octets: &'a [u8]) -> Option<BigInt<'a>>
        ensures { MatchOption result (¬ IsSigned octets.entry.now)
            (λ n. big_int_octets n ≡ octets.entry.now) }
    {
        if !is_signed_content(octets) {
            return None;
        }
        Some(BigInt { octets })
    }

    /// The contents octets.
    pub fn as_bytes(&self) -> &'a [u8]
        ensures value { result.now ≡ big_int_octets self.now }
        ensures content { IsSigned result.now }
    {
        self.octets
    }

    /// Whether the number is negative.
    pub fn is_negative(&self) -> bool
        ensures { result ≡ int_lt (big_int_number self.now) (pos 0) }
    {
        is_negative(self.octets)
    }

    /// How many binary digits the absolute value has: 0 for 0. The caller has to prove that there are fewer than 2^61
    /// contents octets (`requires`), so that the count fits a `usize`.
    pub fn bit_length(&self) -> usize
        requires { length (big_int_octets self.now) < 2 ^ 61 }
        ensures { result ≡ bit_count (big_int_number self.now) }
    {
        bit_length(self.octets)
    }
}

impl fmt::Debug for BigInt<'_> {
    fn fmt<W: fmt::Write>(&self, f: &mut fmt::Formatter<W>) -> fmt::Result {
        f.debug_struct("BigInt")
            .field("data", &self.octets)
            .finish()
    }
}

impl<'a> Asn1Type for BigInt<'a> {
    ghost use Rattle.asn1_values.specs.Values.{big_int_number, signed_content};
    ghost use Rattle.asn1_values.specs.LawsOf.Values.{signed_laws};

    ghost der = { simple_der big_int_number signed_content signed_laws };

    fn known(&self) {}
}

impl<'a> SimpleAsn1Readable<'a> for BigInt<'a> {
    ghost use Rattle.asn1_values.specs.Values.{big_int_number};

    fn tag() -> Tag
        ensures value { result ≡ universal 2 }
        ensures simple { Unit {0} }
        ensures plain { Unit {0} }
        ensures read { Unit {0} }
    {
        Tag::primitive(0x02)
    }

    #[inline]
    fn parse_data(_alloc: Global, data: &'a [u8]) -> ParseResult<BigInt<'a>>
        ensures { ReadsContents ⟦<BigInt<'a> as Asn1Type>⟧.der «data».entry.now result }
    {
        match BigInt::new(data) {
            Some(number) => Ok(number),
            None => Err(ParseError::new(ParseErrorKind::InvalidValue)),
        }
    }
}

impl SimpleAsn1Writable for BigInt<'_> {
    ghost use Rattle.asn1_values.specs.Values.{big_int_number, signed_content};

    type Error = WriteError;

    ghost length_known = { λ _. Unit {0} };

    fn tag() -> Tag
        ensures value { result ≡ universal 2 }
        ensures simple { Unit {0} }
    {
        Tag::primitive(0x02)
    }

    fn write_data(&self, dest: &mut WriteBuf) -> WriteResult<()> {
        dest.push_slice(self.octets)
    }

    fn data_length(&self) -> Option<usize>
        ensures known { GivesLength (Unit {0}) (signed_content.encodings (big_int_number self.now))
            result }
        ensures exact { result ≡ Some (length (integer_content (big_int_number self.now))) }
    {
        Some(self.octets.len())
    }

    fn writes_as_read() -> bool
        ensures { IsTrue result }
    {
        true
    }
}

/// Whether the octets are contents octets of an INTEGER.
pub(super) fn is_signed_content(octets: &[u8]) -> bool
    ensures { IsTrue result ↔ IsSigned octets.now }
{
    is_integer_content(octets)
}

/// Whether the octets are contents octets of an INTEGER that isn't negative.
pub(super) fn is_unsigned_content(octets: &[u8]) -> bool
    ensures { IsTrue result ↔ IsUnsigned octets.now }
{
    is_integer_content(octets) && octets[0] < 0x80
}

/// Whether the number that contents octets encode is negative.
pub(super) fn is_negative(octets: &[u8]) -> bool
    requires { IsSigned octets.now }
    ensures { result ≡ int_lt (signed_number octets.now) (pos 0) }
{
    octets[0] >= 0x80
}

/// Whether each octet is zero.
fn is_zero(octets: &[u8]) -> bool
    ensures { IsTrue result ↔ EachIndex octets.now (λ k. slice_index octets.now k ≡ 0) }
{
    octets.iter().all(|octet| *octet == 0)
}

/// The absolute value of a signed or unsigned number, divided by the weight of its first octet and rounded down.
fn leading(is_negative: bool, first: u8, others: &[u8]) -> u16
    ensures value { result ≡ magnitude is_negative (first ∷ others.now) / 256 ^ length others.now }
    ensures small { result < 2 ^ 9 }
{
    let first = u16::from(first);
    if !is_negative {
        first
    } else if is_zero(others) {
        0x100 - first
    } else {
        0xff - first
    }
}

/// The contents octets without the first one if its bits are all zero or all one, so that it shows only the sign.
fn without_sign(octets: &[u8]) -> &[u8]
    requires { IsSigned octets.now }
    ensures magnitude { IsMagnitude octets.now result.now
        (int_lt (signed_number octets.now) (pos 0)) }
    ensures few { length result.now ≤ length octets.now }
{
    if octets[0] == 0x00 || octets[0] == 0xff {
        &octets[1..]
    } else {
        octets
    }
}

/// How many binary digits the absolute value of the number that contents octets encode has.
pub(super) fn bit_length(octets: &[u8]) -> usize
    requires content { IsSigned octets.now }
    requires few { length octets.now < 2 ^ 61 }
    ensures { result ≡ bit_count (signed_number octets.now) }
{
    let is_negative = is_negative(octets);
    let rest = without_sign(octets);
    match rest {
        [] => usize::from(is_negative),
        [first, others @ ..] => {
            let high = leading(is_negative, *first, others);
            8 * others.len() + high.ilog2() as usize + 1
        }
    }
}
