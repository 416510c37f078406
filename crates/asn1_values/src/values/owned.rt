//! INTEGER of any length (X.690 8.3), which owns its contents octets.

ghost use Rattle.std.specs.Prelude.{◌≡◌, ◌^◌, ◌<◌, length, pos, int_lt, MatchOption};
ghost use Rattle.asn1_core.specs.Integer.{integer_content};
ghost use Rattle.asn1_core.specs.Der.{simple_der};
ghost use Rattle.asn1_core.specs.Boxed.{boxed};
ghost use Rattle.asn1_core.specs.LawsOf.Encodings.{boxed_content_laws};
ghost use Rattle.asn1_values.specs.Big.{IsSigned, IsUnsigned, IsSignedForm, IsUnsignedForm, bit_count};

use crate::values::big::{bit_length, is_negative, is_signed_content, is_unsigned_content};
use asn1_core::{
    Asn1Type, ParseError, ParseErrorKind, ParseResult, SimpleAsn1Readable, SimpleAsn1Writable, Tag,
    WriteBuf, WriteError, WriteResult,
};
use std::alloc::{AllocError, Global};
use std::fmt;

/// INTEGER (X.690 8.3; universal 2) that isn't negative, of any length, which owns its contents octets. This type is
/// read and written as [`crate::BigUint`] is. Reading allocates only after the contents octets were found valid, and
/// returns `AllocationError` if out of memory.
#[derive(PartialEq, Eq, Hash, Drop)]
pub struct OwnedBigUint {
    octets: Vec<u8>,
    pub ghost is_content: { IsUnsignedForm octets.items },
}

impl OwnedBigUint {
    ghost use Rattle.asn1_values.specs.Values.{owned_big_uint_octets};

    /// The integer with these contents octets, the most significant first. `None` if there is no octet; if there are
    /// more than one and the first nine bits are all zero or all one; and if the number is negative, since the top bit
    /// is set.
    pub fn new(octets: Vec<u8>) -> Option<OwnedBigUint>
        ensures { MatchOption result (¬ IsUnsigned octets.items)
            (λ n. owned_big_uint_octets n ≡ octets.items) }
    {
        if !is_unsigned_content(octets.as_slice()) {
            return None;
        }
        Some(OwnedBigUint { octets })
    }

    /// The contents octets, with a leading 0x00 if the number's top bit needs one.
    pub fn as_bytes(&self) -> &[u8]
        ensures value { result.now ≡ owned_big_uint_octets self.now }
        ensures content { IsUnsigned result.now }
    {
        self.octets.as_slice()
    }
}

/// Allocates; returns `AllocError` if out of memory.
impl Clone for OwnedBigUint {
    ghost use Rattle.asn1_values.specs.Values.{owned_big_uint_octets};

    ghost is_clone = { λ x y. owned_big_uint_octets y ≡ owned_big_uint_octets x };

    fn clone(&self) -> Result<OwnedBigUint, AllocError> {
        let octets = Vec::from_slice(*self.octets.allocator(), self.octets.as_slice())?;
        Ok(OwnedBigUint { octets })
    }
}

impl fmt::Debug for OwnedBigUint {
    fn fmt<W: fmt::Write>(&self, f: &mut fmt::Formatter<W>) -> fmt::Result {
        f.debug_struct("OwnedBigUint")
            .field("data", &self.octets)
            .finish()
    }
}

impl Asn1Type for OwnedBigUint {
    ghost use Rattle.asn1_values.specs.Values.{owned_big_uint_number, unsigned_content};
    ghost use Rattle.asn1_values.specs.LawsOf.Values.{unsigned_laws};

    ghost der = { simple_der owned_big_uint_number (boxed unsigned_content)
        (boxed_content_laws unsigned_laws) };

    fn known(&self) {}
}

impl<'a> SimpleAsn1Readable<'a> for OwnedBigUint {
    fn tag() -> Tag {
        Tag::primitive(0x02)
    }

    #[inline]
    fn parse_data(alloc: Global, data: &'a [u8]) -> ParseResult<OwnedBigUint> {
        if !is_unsigned_content(data) {
            return Err(ParseError::new(ParseErrorKind::InvalidValue));
        }
        match Vec::from_slice(alloc, data) {
            Ok(octets) => Ok(OwnedBigUint { octets }),
            Err(_) => Err(ParseError::new(ParseErrorKind::AllocationError)),
        }
    }
}

impl SimpleAsn1Writable for OwnedBigUint {
    ghost use Rattle.asn1_values.specs.Values.{owned_big_uint_number};

    type Error = WriteError;

    ghost length_known = { λ _. Unit {0} };

    fn tag() -> Tag {
        Tag::primitive(0x02)
    }

    fn write_data(&self, dest: &mut WriteBuf) -> WriteResult<()> {
        dest.push_slice(self.octets.as_slice())
    }

    fn data_length(&self) -> Option<usize>
        ensures { result ≡ Some (length (integer_content (owned_big_uint_number self.now))) }
    {
        Some(self.octets.len())
    }

    fn writes_as_read() -> bool {
        true
    }
}

/// INTEGER (X.690 8.3; universal 2) of any length, which owns its contents octets. This type is read and written as
/// [`crate::BigInt`] is. Reading allocates only after the contents octets were found valid, and returns
/// `AllocationError` if out of memory.
#[derive(PartialEq, Eq, Hash, Drop)]
pub struct OwnedBigInt {
    octets: Vec<u8>,
    pub ghost is_content: { IsSignedForm octets.items },
}

impl OwnedBigInt {
    ghost use Rattle.asn1_values.specs.Values.{owned_big_int_octets, owned_big_int_number};

    /// The integer with these contents octets in two's complement, the most significant first. `None` if there is no
    /// octet, and if there are more than one and the first nine bits are all zero or all one.
    pub fn new(octets: Vec<u8>) -> Option<OwnedBigInt>
        ensures { MatchOption result (¬ IsSigned octets.items)
            (λ n. owned_big_int_octets n ≡ octets.items) }
    {
        if !is_signed_content(octets.as_slice()) {
            return None;
        }
        Some(OwnedBigInt { octets })
    }

    /// The contents octets.
    pub fn as_bytes(&self) -> &[u8]
        ensures value { result.now ≡ owned_big_int_octets self.now }
        ensures content { IsSigned result.now }
    {
        self.octets.as_slice()
    }

    /// Whether the number is negative.
    pub fn is_negative(&self) -> bool
        ensures { result ≡ int_lt (owned_big_int_number self.now) (pos 0) }
    {
        is_negative(self.octets.as_slice())
    }

    /// How many binary digits the absolute value has: 0 for 0. The caller has to prove that there are fewer than 2^61
    /// contents octets (`requires`), so that the count fits a `usize`.
    pub fn bit_length(&self) -> usize
        requires { length (owned_big_int_octets self.now) < 2 ^ 61 }
        ensures { result ≡ bit_count (owned_big_int_number self.now) }
    {
        bit_length(self.octets.as_slice())
    }
}

/// Allocates; returns `AllocError` if out of memory.
impl Clone for OwnedBigInt {
    ghost use Rattle.asn1_values.specs.Values.{owned_big_int_octets};

    ghost is_clone = { λ x y. owned_big_int_octets y ≡ owned_big_int_octets x };

    fn clone(&self) -> Result<OwnedBigInt, AllocError> {
        let octets = Vec::from_slice(*self.octets.allocator(), self.octets.as_slice())?;
        Ok(OwnedBigInt { octets })
    }
}

impl fmt::Debug for OwnedBigInt {
    fn fmt<W: fmt::Write>(&self, f: &mut fmt::Formatter<W>) -> fmt::Result {
        f.debug_struct("OwnedBigInt")
            .field("data", &self.octets)
            .finish()
    }
}

impl Asn1Type for OwnedBigInt {
    ghost use Rattle.asn1_values.specs.Values.{owned_big_int_number, signed_content};
    ghost use Rattle.asn1_values.specs.LawsOf.Values.{signed_laws};

    ghost der = { simple_der owned_big_int_number (boxed signed_content)
        (boxed_content_laws signed_laws) };

    fn known(&self) {}
}

impl<'a> SimpleAsn1Readable<'a> for OwnedBigInt {
    fn tag() -> Tag {
        Tag::primitive(0x02)
    }

    #[inline]
    fn parse_data(alloc: Global, data: &'a [u8]) -> ParseResult<OwnedBigInt> {
        if !is_signed_content(data) {
            return Err(ParseError::new(ParseErrorKind::InvalidValue));
        }
        match Vec::from_slice(alloc, data) {
            Ok(octets) => Ok(OwnedBigInt { octets }),
            Err(_) => Err(ParseError::new(ParseErrorKind::AllocationError)),
        }
    }
}

impl SimpleAsn1Writable for OwnedBigInt {
    ghost use Rattle.asn1_values.specs.Values.{owned_big_int_number};

    type Error = WriteError;

    ghost length_known = { λ _. Unit {0} };

    fn tag() -> Tag {
        Tag::primitive(0x02)
    }

    fn write_data(&self, dest: &mut WriteBuf) -> WriteResult<()> {
        dest.push_slice(self.octets.as_slice())
    }

    fn data_length(&self) -> Option<usize>
        ensures { result ≡ Some (length (integer_content (owned_big_int_number self.now))) }
    {
        Some(self.octets.len())
    }

    fn writes_as_read() -> bool {
        true
    }
}
