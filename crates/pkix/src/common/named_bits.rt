//! Bit strings whose bits have names (X.690 11.2.2).

ghost use Rattle.std.specs.Prelude.{◌≡◌, true, MatchOption};
ghost use Rattle.asn1.specs.BitStrings.{bits_of};
ghost use Rattle.asn1.specs.Bits.{has_bit};
ghost use Rattle.asn1.specs.Der.{simple_der};
ghost use Rattle.asn1.specs.Reads.{HasOneEncoding, ReadsContents};
ghost use Rattle.pkix.specs.NamedBits.{ends_with_one, named_bits_content};

use asn1::{
    Asn1Type, BitString, ParseError, ParseErrorKind, ParseResult, SimpleAsn1Readable,
    SimpleAsn1Writable, Tag, WriteBuf, WriteError, WriteResult,
};
use std::alloc::Global;

/// Whether the last bit is a one, or there is none.
fn has_one_at_end(bits: &BitString<'_>) -> bool
    ensures { result ≡ ends_with_one (bits_of bits.now) }
{
    match bits.as_bytes() {
        [] => true,
        [.., last] => (*last >> bits.padding_bits()) % 2 == 1,
    }
}

/// BIT STRING with named bits (X.690 11.2.2; universal 3): zero bits at its end are removed before it is encoded, so
/// that the last bit, if there is any, is a one. Reading rejects other contents octets with `InvalidValue`. Which bits
/// have names isn't checked.
#[derive(Debug, Clone, Copy, PartialEq, Eq)]
pub struct NamedBits<'a> {
    bits: BitString<'a>,
    pub ghost is_named: { ends_with_one (bits_of bits) ≡ true },
}

impl<'a> NamedBits<'a> {
    /// These bits. `None` if the last bit is a zero.
    pub fn new(bits: BitString<'a>) -> Option<NamedBits<'a>>
        ensures { MatchOption result (¬ (ends_with_one (bits_of bits.entry) ≡ true))
            (λ named. named.bits ≡ bits.entry) }
    {
        if !has_one_at_end(&bits) {
            return None;
        }
        Some(NamedBits { bits })
    }

    /// The bits.
    pub fn as_bitstring(&self) -> &BitString<'a>
        ensures { result.now ≡ self.now.bits }
    {
        &self.bits
    }

    /// Whether the bit with the number `n` is set, as [`BitString::has_bit_set`] says: false from the end on.
    pub fn has_bit_set(&self, n: usize) -> bool
        ensures { result ≡ has_bit (bits_of self.now.bits) n }
    {
        self.bits.has_bit_set(n)
    }
}

impl<'a> Asn1Type for NamedBits<'a> {
    ghost use Rattle.pkix.specs.LawsOf.{named_bits_laws};

    ghost der = { simple_der (λ v. bits_of v.bits) named_bits_content named_bits_laws };

    fn known(&self) {
        self.bits.known()
    }
}

impl<'a> SimpleAsn1Readable<'a> for NamedBits<'a> {
    fn tag() -> Tag
        ensures value { result ≡ ⟦<NamedBits<'a> as Asn1Type>⟧.der.content.tag }
        ensures simple { ⟦<NamedBits<'a> as Asn1Type>⟧.der.is_simple }
        ensures plain { ⟦<NamedBits<'a> as Asn1Type>⟧.der.plain }
        ensures read { ⟦<NamedBits<'a> as Asn1Type>⟧.der.is_read }
    {
        Tag::primitive(0x03)
    }

    fn parse_data(alloc: Global, data: &'a [u8]) -> ParseResult<NamedBits<'a>>
        ensures { ReadsContents ⟦<NamedBits<'a> as Asn1Type>⟧.der «data».entry.now result }
    {
        match NamedBits::new(<BitString<'a> as SimpleAsn1Readable<'a>>::parse_data(alloc, data)?) {
            Some(named) => Ok(named),
            None => Err(ParseError::new(ParseErrorKind::InvalidValue)),
        }
    }
}

impl<'a> SimpleAsn1Writable for NamedBits<'a> {
    type Error = WriteError;

    ghost length_known = { λ _. Unit {0} };

    fn tag() -> Tag
        ensures value { result ≡ ⟦<NamedBits<'a> as Asn1Type>⟧.der.content.tag }
        ensures simple { ⟦<NamedBits<'a> as Asn1Type>⟧.der.is_simple }
    {
        Tag::primitive(0x03)
    }

    fn write_data(&self, dest: &mut WriteBuf) -> WriteResult<()> {
        self.bits.write_data(dest)
    }

    fn data_length(&self) -> Option<usize> {
        self.bits.data_length()
    }
}

/// The law of the type, which does nothing.
pub mod laws {
    use super::NamedBits;
    use asn1::Asn1Type;

    /// Each value of `NamedBits` has one encoding, which is read back.
    pub fn named_bits_is_lawful()
        ensures { HasOneEncoding ⟦<NamedBits<'static> as Asn1Type>⟧.der }
    {}
}
