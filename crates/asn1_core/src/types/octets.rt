//! OCTET STRING and NULL (X.690 8.7, 8.8).

ghost use Rattle.std.specs.Prelude.{◌≡◌, IsTrue, [], length};
ghost use Rattle.asn1_core.specs.Base256.{IsOctets};
ghost use Rattle.asn1_core.specs.Element.{element, element_encoding};
ghost use Rattle.asn1_core.specs.Tag.{universal};
ghost use Rattle.asn1_core.specs.Octets.{octets_content, sized_octets_content, null_content};
ghost use Rattle.asn1_core.specs.Reading.{Fits};
ghost use Rattle.asn1_core.specs.Reads.{ReadsContents};
ghost use Rattle.asn1_core.specs.Writing.{GivesLength};
ghost use Rattle.asn1_core.specs.Der.{simple_der};
ghost use Rattle.asn1_core.specs.LawsOf.Contents.{octets_laws, sized_octets_laws, null_laws};

use crate::parser::{ParseError, ParseErrorKind, ParseResult};
use crate::tag::Tag;
use crate::types::{Asn1Type, SimpleAsn1Readable, SimpleAsn1Writable};
use crate::writer::{WriteBuf, WriteError, WriteResult};
use std::alloc::Global;

/// NULL (X.690 8.8; universal 5): no contents octets. Reading rejects any with `InvalidValue`.
pub type Null = ();

impl Asn1Type for () {
    ghost der = { simple_der (λ m. m) null_content null_laws };

    fn known(&self)
        ensures valid { null_content.valid self.now }
        ensures fits { Fits (element_encoding (element (universal 5) [])) }
    {}
}

impl<'a> SimpleAsn1Readable<'a> for () {
    fn tag() -> Tag {
        Tag::primitive(0x05)
    }

    #[inline]
    fn parse_data(_alloc: Global, data: &'a [u8]) -> ParseResult<()> {
        if !data.is_empty() {
            return Err(ParseError::new(ParseErrorKind::InvalidValue));
        }
        Ok(())
    }
}

impl SimpleAsn1Writable for () {
    type Error = WriteError;

    ghost length_known = { λ _. Unit {0} };

    fn tag() -> Tag {
        Tag::primitive(0x05)
    }

    fn write_data(&self, _dest: &mut WriteBuf) -> WriteResult<()> {
        Ok(())
    }

    fn data_length(&self) -> Option<usize>
        ensures { result ≡ Some 0 }
    {
        Some(0)
    }

    fn writes_as_read() -> bool {
        true
    }
}

/// States that a slice holds octets. The body looks at the slice, whose type says so.
fn are_octets(octets: &[u8])
    ensures { IsOctets octets.now }
{
    let _count = octets.len();
}

/// OCTET STRING (X.690 8.7; universal 4), of any length. Reading borrows the contents octets from the input and rejects
/// none. As DER demands (10.2), the encoding is primitive: a constructed one is `UnexpectedTag`.
impl<'a> Asn1Type for &'a [u8] {
    ghost der = { simple_der (λ octets. octets.now) octets_content octets_laws };

    fn known(&self) {
        are_octets(self)
    }
}

impl<'a> SimpleAsn1Readable<'a> for &'a [u8] {
    fn tag() -> Tag
        ensures value { result ≡ universal 4 }
        ensures simple { Unit {0} }
        ensures plain { Unit {0} }
        ensures read { Unit {0} }
    {
        Tag::primitive(0x04)
    }

    #[inline]
    fn parse_data(_alloc: Global, data: &'a [u8]) -> ParseResult<&'a [u8]>
        ensures { ReadsContents ⟦<&'a [u8] as Asn1Type>⟧.der «data».entry.now result }
    {
        Ok(data)
    }
}

impl SimpleAsn1Writable for &[u8] {
    type Error = WriteError;

    ghost length_known = { λ _. Unit {0} };

    fn tag() -> Tag
        ensures value { result ≡ universal 4 }
        ensures simple { Unit {0} }
    {
        Tag::primitive(0x04)
    }

    fn write_data(&self, dest: &mut WriteBuf) -> WriteResult<()> {
        dest.push_slice(self)
    }

    fn data_length(&self) -> Option<usize>
        ensures known { GivesLength (Unit {0}) (octets_content.encodings self.now.now) result }
        ensures exact { result ≡ Some (length self.now.now) }
    {
        Some(self.len())
    }

    fn writes_as_read() -> bool
        ensures { IsTrue result }
    {
        true
    }
}

/// OCTET STRING (X.690 8.7; universal 4) of `N` octets, which reading copies. Reading rejects another number of octets
/// with `InvalidValue`.
impl<const N: usize> Asn1Type for [u8; N] {
    ghost der = { simple_der (λ octets. octets) (sized_octets_content N) (sized_octets_laws N) };

    fn known(&self) {
        are_octets(self)
    }
}

impl<'a, const N: usize> SimpleAsn1Readable<'a> for [u8; N] {
    fn tag() -> Tag {
        Tag::primitive(0x04)
    }

    fn parse_data(_alloc: Global, data: &'a [u8]) -> ParseResult<[u8; N]> {
        match <[u8; N]>::try_from(data) {
            Ok(octets) => Ok(octets),
            Err(_) => Err(ParseError::new(ParseErrorKind::InvalidValue)),
        }
    }
}

impl<const N: usize> SimpleAsn1Writable for [u8; N] {
    type Error = WriteError;

    ghost length_known = { λ _. Unit {0} };

    fn tag() -> Tag {
        Tag::primitive(0x04)
    }

    fn write_data(&self, dest: &mut WriteBuf) -> WriteResult<()> {
        dest.push_slice(self)
    }

    fn data_length(&self) -> Option<usize>
        ensures known { GivesLength (Unit {0}) ((sized_octets_content N).encodings self.now)
            result }
        ensures exact { result ≡ Some N }
    {
        Some(N)
    }

    fn writes_as_read() -> bool {
        true
    }
}
