//! BIT STRING (X.690 8.6, 11.2), borrowed and owned.

ghost use Rattle.std.specs.Prelude.{◌≡◌, IsTrue, true, length, MatchOption};
ghost use Rattle.asn1_core.specs.Reads.{ReadsContents};
ghost use Rattle.asn1_core.specs.Der.{simple_der};
ghost use Rattle.asn1_core.specs.Boxed.{boxed};
ghost use Rattle.asn1_core.specs.LawsOf.Encodings.{boxed_content_laws};
ghost use Rattle.asn1_core.specs.Tag.{universal};
ghost use Rattle.asn1_core.specs.Writing.{GivesLength};
ghost use Rattle.asn1_values.specs.Bits.{is_padded, IsBits, bits, bits_text, has_bit};

use asn1_core::{
    Asn1Type, ParseError, ParseErrorKind, ParseResult, SimpleAsn1Readable, SimpleAsn1Writable, Tag,
    WriteBuf, WriteError, WriteResult,
};
use std::alloc::{AllocError, Global};
use std::fmt;

/// Whether the unused bits are valid: at most 7, none if there is no octet, and those of the last octet are zero.
const fn has_padding(octets: &[u8], padding: u8) -> bool
    ensures { result ≡ is_padded padding octets.now }
{
    if padding > 7 {
        return false;
    }
    match octets {
        [] => padding == 0,
        [.., last] => *last % (1 << padding) == 0,
    }
}

/// BIT STRING (X.690 8.6, 11.2; universal 3), whose octets are borrowed from the input.
///
/// The contents octets are the number of unused bits, 0 to 7, and the octets. DER demands that the unused bits, the low
/// ones of the last octet, are zero (11.2.1), and that an empty string has none. Reading rejects other contents octets
/// with `InvalidValue`. Named bits aren't treated differently: their trailing zero bits (11.2.2) are kept.
///
/// ```text
/// let bits = BitString::new(&[0x81, 0xf0], 4).ok_or(PADDING)?;
///
/// const TEXT: &[u8] = &[0x03, 0x03, 0x04, 0x81, 0xf0];
///
/// let read = parse_single::<BitString<'_>>(alloc, TEXT)?;
/// same(&bits.clone()?, &read)?;
/// ```
#[derive(Clone, Copy, PartialEq, Eq, Hash)]
pub struct BitString<'a> {
    octets: &'a [u8],
    padding: u8,
    pub ghost is_bits: { is_padded padding octets.now ≡ true },
}

impl<'a> BitString<'a> {
    ghost use Rattle.asn1_values.specs.BitStrings.{bits_of};

    /// The bits of `octets` except the last `padding` bits, which are unused. `None` if `padding` is above 7, or isn't
    /// 0 for an empty string, or if one of the unused bits is set.
    pub const fn new(octets: &'a [u8], padding: u8) -> Option<BitString<'a>>
        ensures { MatchOption result (¬ IsBits (bits octets.entry.now padding))
            (λ b. bits_of b ≡ bits octets.entry.now padding) }
    {
        if !has_padding(octets, padding) {
            return None;
        }
        Some(BitString { octets, padding })
    }

    /// The octets, unused bits included.
    pub fn as_bytes(&self) -> &'a [u8]
        ensures { result.now ≡ (bits_of self.now).octets }
    {
        self.octets
    }

    /// How many low bits of the last octet are unused: 0 to 7.
    pub fn padding_bits(&self) -> u8
        ensures { result ≡ (bits_of self.now).padding }
    {
        self.padding
    }

    /// Whether the bit with the index `n` is set. Bit 0 is the top bit of the first octet (8.6.2). False for unused
    /// bits and past the end.
    pub fn has_bit_set(&self, n: usize) -> bool
        ensures { result ≡ has_bit (bits_of self.now) n }
    {
        let index = n / 8;
        if index >= self.octets.len() {
            return false;
        }
        (self.octets[index] >> (7 - n % 8)) % 2 == 1
    }
}

impl fmt::Debug for BitString<'_> {
    fn fmt<W: fmt::Write>(&self, f: &mut fmt::Formatter<W>) -> fmt::Result {
        f.debug_struct("BitString")
            .field("data", &self.octets)
            .field("padding_bits", &self.padding)
            .finish()
    }
}

impl<'a> Asn1Type for BitString<'a> {
    ghost use Rattle.asn1_values.specs.BitStrings.{bits_of, bits_content};
    ghost use Rattle.asn1_values.specs.LawsOf.Values.{bits_laws};

    ghost der = { simple_der bits_of bits_content bits_laws };

    fn known(&self) {}
}

impl<'a> SimpleAsn1Readable<'a> for BitString<'a> {
    ghost use Rattle.asn1_values.specs.BitStrings.{bits_of};

    fn tag() -> Tag
        ensures value { result ≡ universal 3 }
        ensures simple { Unit {0} }
        ensures plain { Unit {0} }
        ensures read { Unit {0} }
    {
        Tag::primitive(0x03)
    }

    #[inline]
    fn parse_data(_alloc: Global, data: &'a [u8]) -> ParseResult<BitString<'a>>
        ensures { ReadsContents ⟦<BitString<'a> as Asn1Type>⟧.der «data».entry.now result }
    {
        let [padding, octets @ ..] = data else {
            return Err(ParseError::new(ParseErrorKind::InvalidValue));
        };
        match BitString::new(octets, *padding) {
            Some(bits) => Ok(bits),
            None => Err(ParseError::new(ParseErrorKind::InvalidValue)),
        }
    }
}

impl SimpleAsn1Writable for BitString<'_> {
    ghost use Rattle.asn1_values.specs.BitStrings.{bits_of, bits_content};

    type Error = WriteError;

    ghost length_known = { λ _. Unit {0} };

    fn tag() -> Tag
        ensures value { result ≡ universal 3 }
        ensures simple { Unit {0} }
    {
        Tag::primitive(0x03)
    }

    fn write_data(&self, dest: &mut WriteBuf) -> WriteResult<()> {
        dest.push_byte(self.padding)?;
        dest.push_slice(self.octets)
    }

    fn data_length(&self) -> Option<usize>
        ensures known { GivesLength (Unit {0}) (bits_content.encodings (bits_of self.now)) result }
        ensures exact { result ≡ Some (length (bits_text (bits_of self.now))) }
    {
        Some(1 + self.octets.len())
    }

    fn writes_as_read() -> bool
        ensures { IsTrue result }
    {
        true
    }
}

/// BIT STRING (X.690 8.6, 11.2; universal 3), which owns its octets. This type is read and written as [`BitString`] is.
/// Reading allocates only after the contents octets were found valid, and returns `AllocationError` if out of memory.
#[derive(PartialEq, Eq, Hash, Drop)]
pub struct OwnedBitString {
    octets: Vec<u8>,
    padding: u8,
    pub ghost is_bits: { is_padded padding octets.items ≡ true },
}

impl OwnedBitString {
    ghost use Rattle.asn1_values.specs.BitStrings.{bits_of, owned_bits_of};

    /// The bits of `octets` except the last `padding` bits, which are unused. `None` if `padding` is above 7, or isn't
    /// 0 for an empty string, or if one of the unused bits is set.
    pub fn new(octets: Vec<u8>, padding: u8) -> Option<OwnedBitString>
        ensures { MatchOption result (¬ IsBits (bits octets.items padding))
            (λ b. owned_bits_of b ≡ bits octets.items padding) }
    {
        if !has_padding(octets.as_slice(), padding) {
            return None;
        }
        Some(OwnedBitString { octets, padding })
    }

    /// The same bits, borrowed.
    pub fn as_bitstring(&self) -> BitString<'_>
        ensures { bits_of result ≡ owned_bits_of self.now }
    {
        BitString {
            octets: self.octets.as_slice(),
            padding: self.padding,
        }
    }
}

/// Allocates; returns `AllocError` if out of memory.
impl Clone for OwnedBitString {
    ghost use Rattle.asn1_values.specs.BitStrings.{owned_bits_of};

    ghost is_clone = { λ x y. owned_bits_of y ≡ owned_bits_of x };

    fn clone(&self) -> Result<OwnedBitString, AllocError> {
        let octets = Vec::from_slice(*self.octets.allocator(), self.octets.as_slice())?;
        Ok(OwnedBitString {
            octets,
            padding: self.padding,
        })
    }
}

impl fmt::Debug for OwnedBitString {
    fn fmt<W: fmt::Write>(&self, f: &mut fmt::Formatter<W>) -> fmt::Result {
        f.debug_struct("OwnedBitString")
            .field("data", &self.octets)
            .field("padding_bits", &self.padding)
            .finish()
    }
}

impl Asn1Type for OwnedBitString {
    ghost use Rattle.asn1_values.specs.BitStrings.{owned_bits_of, bits_content};
    ghost use Rattle.asn1_values.specs.LawsOf.Values.{bits_laws};

    ghost der = { simple_der owned_bits_of (boxed bits_content)
        (boxed_content_laws bits_laws) };

    fn known(&self) {}
}

impl<'a> SimpleAsn1Readable<'a> for OwnedBitString {
    fn tag() -> Tag {
        Tag::primitive(0x03)
    }

    #[inline]
    fn parse_data(alloc: Global, data: &'a [u8]) -> ParseResult<OwnedBitString> {
        let [padding, octets @ ..] = data else {
            return Err(ParseError::new(ParseErrorKind::InvalidValue));
        };
        let padding = *padding;
        if !has_padding(octets, padding) {
            return Err(ParseError::new(ParseErrorKind::InvalidValue));
        }
        match Vec::from_slice(alloc, octets) {
            Ok(octets) => Ok(OwnedBitString { octets, padding }),
            Err(_) => Err(ParseError::new(ParseErrorKind::AllocationError)),
        }
    }
}

impl SimpleAsn1Writable for OwnedBitString {
    ghost use Rattle.asn1_values.specs.BitStrings.{owned_bits_of};

    type Error = WriteError;

    ghost length_known = { λ _. Unit {0} };

    fn tag() -> Tag {
        Tag::primitive(0x03)
    }

    fn write_data(&self, dest: &mut WriteBuf) -> WriteResult<()> {
        dest.push_byte(self.padding)?;
        dest.push_slice(self.octets.as_slice())
    }

    fn data_length(&self) -> Option<usize>
        ensures { result ≡ Some (length (bits_text (owned_bits_of self.now))) }
    {
        Some(1 + self.octets.len())
    }

    fn writes_as_read() -> bool {
        true
    }
}
