//! Character strings of two or four octets a character (X.690 8.23, X.680 41).

ghost use Rattle.std.specs.Prelude.{◌≡◌, ◌+◌, ◌%◌, ◌<◌, ◌≤◌, ◌↔◌, [], ◌∷◌};
ghost use Rattle.std.specs.Prelude.{drop, true, false, length, MatchOption, IsTrue};
ghost use Rattle.std.specs.Char.{IsScalar};
ghost use Rattle.asn1_core.specs.Base256.{number};
ghost use Rattle.asn1_core.specs.Tag.{universal};
ghost use Rattle.asn1_core.specs.Reads.{ReadsContents};
ghost use Rattle.asn1_core.specs.Writing.{GivesLength};
ghost use Rattle.asn1_core.specs.Der.{simple_der};
ghost use Rattle.asn1_values.specs.Texts.{is_paired, is_utf16_text, is_utf32_text, IsTextOf};

use asn1_core::{
    Asn1Type, ParseError, ParseErrorKind, ParseResult, SimpleAsn1Readable, SimpleAsn1Writable, Tag,
    WriteBuf, WriteError, WriteResult,
};
use std::alloc::Global;
use std::fmt;

/// How many octets of UTF-16 the character at an index has: 2, or 4 for a pair of surrogates. 0 if a surrogate has no
/// partner.
fn utf16_length(octets: &[u8], at: usize) -> usize
    requires { at + 2 ≤ length octets.now }
    ensures unpaired { result ≡ 0 → is_paired (drop at octets.now) ≡ false }
    ensures paired { 0 < result → is_paired (drop at octets.now)
        ≡ is_paired (drop (at + result) octets.now) }
    ensures units { result % 2 ≡ 0 }
    ensures within { at + result ≤ length octets.now }
{
    let first = octets[at];
    if first < 0xd8 || 0xdf < first {
        return 2;
    }
    if first > 0xdb || octets.len() - at < 4 {
        return 0;
    }
    let second = octets[at + 2];
    if second < 0xdc || 0xdf < second {
        return 0;
    }
    4
}

/// Whether the octets are UTF-16, the most significant octet of a unit first.
fn is_utf16_text(octets: &[u8]) -> bool
    ensures { result ≡ is_utf16_text octets.now }
{
    if octets.len() % 2 != 0 {
        return false;
    }
    let mut at = 0;
    while at < octets.len() {
        let length = utf16_length(octets, at);
        if length == 0 {
            return false;
        }
        at += length;
    }
    true
}

/// Whether four octets are the number of a character.
fn is_character(first: u8, second: u8, third: u8, fourth: u8) -> bool
    ensures { IsTrue result ↔ IsScalar (number (first ∷ second ∷ third ∷ fourth ∷ [])) }
{
    let high = u32::from(first) * 0x100 + u32::from(second);
    let low = u32::from(third) * 0x100 + u32::from(fourth);
    char::from_u32(high * 0x1_0000 + low).is_some()
}

/// Whether the octets are UTF-32, the most significant octet of a character first.
fn is_utf32_text(octets: &[u8]) -> bool
    ensures { result ≡ is_utf32_text octets.now }
{
    if octets.len() % 4 != 0 {
        return false;
    }
    let mut at = 0;
    while at < octets.len() {
        if !is_character(octets[at], octets[at + 1], octets[at + 2], octets[at + 3]) {
            return false;
        }
        at += 4;
    }
    true
}

/// BMPString (X.690 8.23, X.680 41; universal 30): UTF-16, the most significant octet of each unit first, borrowed from
/// the input. The type has only the characters of two octets; pairs of surrogates are read too, as in the original.
///
/// The encoding is primitive (10.2). Reading rejects an odd number of octets, and a surrogate without its partner, with
/// `InvalidValue`.
#[derive(Clone, Copy, PartialEq, Eq, Hash)]
pub struct BMPString<'a> {
    octets: &'a [u8],
    pub ghost is_text: { IsTextOf is_utf16_text octets.now },
}

impl<'a> BMPString<'a> {
    ghost use Rattle.asn1_values.specs.TextValues.{bmp_octets};

    /// The string with these octets. `None` if their number is odd, or if a surrogate has no partner.
    pub fn new(octets: &'a [u8]) -> Option<BMPString<'a>>
        ensures { MatchOption result (¬ IsTextOf is_utf16_text octets.entry.now)
            (λ s. bmp_octets s ≡ octets.entry.now) }
    {
        if !is_utf16_text(octets) {
            return None;
        }
        Some(BMPString { octets })
    }

    /// The octets: UTF-16, the most significant octet of each unit first.
    pub fn as_utf16_be_bytes(&self) -> &'a [u8]
        ensures { result.now ≡ bmp_octets self.now }
    {
        self.octets
    }
}

impl fmt::Debug for BMPString<'_> {
    fn fmt<W: fmt::Write>(&self, f: &mut fmt::Formatter<W>) -> fmt::Result {
        f.debug_tuple("BMPString").field(&self.octets).finish()
    }
}

impl<'a> Asn1Type for BMPString<'a> {
    ghost use Rattle.asn1_values.specs.TextValues.{bmp_octets, utf16_content};
    ghost use Rattle.asn1_values.specs.LawsOf.Values.{utf16_laws};

    ghost der = { simple_der bmp_octets utf16_content utf16_laws };

    fn known(&self) {}
}

impl<'a> SimpleAsn1Readable<'a> for BMPString<'a> {
    ghost use Rattle.asn1_values.specs.TextValues.{bmp_octets};

    fn tag() -> Tag
        ensures value { result ≡ universal 30 }
        ensures simple { Unit {0} }
        ensures plain { Unit {0} }
        ensures read { Unit {0} }
    {
        Tag::primitive(0x1e)
    }

    #[inline]
    fn parse_data(_alloc: Global, data: &'a [u8]) -> ParseResult<BMPString<'a>>
        ensures { ReadsContents ⟦<BMPString<'a> as Asn1Type>⟧.der «data».entry.now result }
    {
        match BMPString::new(data) {
            Some(text) => Ok(text),
            None => Err(ParseError::new(ParseErrorKind::InvalidValue)),
        }
    }
}

impl SimpleAsn1Writable for BMPString<'_> {
    ghost use Rattle.asn1_values.specs.TextValues.{bmp_octets, utf16_content};

    type Error = WriteError;

    ghost length_known = { λ _. Unit {0} };

    fn tag() -> Tag
        ensures value { result ≡ universal 30 }
        ensures simple { Unit {0} }
    {
        Tag::primitive(0x1e)
    }

    fn write_data(&self, dest: &mut WriteBuf) -> WriteResult<()> {
        dest.push_slice(self.octets)
    }

    fn data_length(&self) -> Option<usize>
        ensures known { GivesLength (Unit {0}) (utf16_content.encodings (bmp_octets self.now))
            result }
        ensures exact { result ≡ Some (length (bmp_octets self.now)) }
    {
        Some(self.octets.len())
    }

    fn writes_as_read() -> bool
        ensures { IsTrue result }
    {
        true
    }
}

/// UniversalString (X.690 8.23, X.680 41; universal 28): UTF-32, the most significant octet of each character first,
/// borrowed from the input. The encoding is primitive (10.2). Reading rejects the octets that [`UniversalString::new`]
/// rejects, with `InvalidValue`.
#[derive(Clone, Copy, PartialEq, Eq, Hash)]
pub struct UniversalString<'a> {
    octets: &'a [u8],
    pub ghost is_text: { IsTextOf is_utf32_text octets.now },
}

impl<'a> UniversalString<'a> {
    ghost use Rattle.asn1_values.specs.TextValues.{universal_octets};

    /// The string with these octets. `None` if their number isn't a multiple of four, or if four of them are above
    /// 0x10ffff or a surrogate (0xd800 to 0xdfff).
    pub fn new(octets: &'a [u8]) -> Option<UniversalString<'a>>
        ensures { MatchOption result (¬ IsTextOf is_utf32_text octets.entry.now)
            (λ s. universal_octets s ≡ octets.entry.now) }
    {
        if !is_utf32_text(octets) {
            return None;
        }
        Some(UniversalString { octets })
    }

    /// The octets: UTF-32, the most significant octet of each character first.
    pub fn as_utf32_be_bytes(&self) -> &'a [u8]
        ensures { result.now ≡ universal_octets self.now }
    {
        self.octets
    }
}

impl fmt::Debug for UniversalString<'_> {
    fn fmt<W: fmt::Write>(&self, f: &mut fmt::Formatter<W>) -> fmt::Result {
        f.debug_tuple("UniversalString")
            .field(&self.octets)
            .finish()
    }
}

impl<'a> Asn1Type for UniversalString<'a> {
    ghost use Rattle.asn1_values.specs.TextValues.{universal_octets, utf32_content};
    ghost use Rattle.asn1_values.specs.LawsOf.Values.{utf32_laws};

    ghost der = { simple_der universal_octets utf32_content utf32_laws };

    fn known(&self) {}
}

impl<'a> SimpleAsn1Readable<'a> for UniversalString<'a> {
    ghost use Rattle.asn1_values.specs.TextValues.{universal_octets};

    fn tag() -> Tag
        ensures value { result ≡ universal 28 }
        ensures simple { Unit {0} }
        ensures plain { Unit {0} }
        ensures read { Unit {0} }
    {
        Tag::primitive(0x1c)
    }

    #[inline]
    fn parse_data(_alloc: Global, data: &'a [u8]) -> ParseResult<UniversalString<'a>>
        ensures { ReadsContents ⟦<UniversalString<'a> as Asn1Type>⟧.der «data».entry.now result }
    {
        match UniversalString::new(data) {
            Some(text) => Ok(text),
            None => Err(ParseError::new(ParseErrorKind::InvalidValue)),
        }
    }
}

impl SimpleAsn1Writable for UniversalString<'_> {
    ghost use Rattle.asn1_values.specs.TextValues.{universal_octets, utf32_content};

    type Error = WriteError;

    ghost length_known = { λ _. Unit {0} };

    fn tag() -> Tag
        ensures value { result ≡ universal 28 }
        ensures simple { Unit {0} }
    {
        Tag::primitive(0x1c)
    }

    fn write_data(&self, dest: &mut WriteBuf) -> WriteResult<()> {
        dest.push_slice(self.octets)
    }

    fn data_length(&self) -> Option<usize>
        ensures known { GivesLength (Unit {0}) (utf32_content.encodings (universal_octets self.now))
            result }
        ensures exact { result ≡ Some (length (universal_octets self.now)) }
    {
        Some(self.octets.len())
    }

    fn writes_as_read() -> bool
        ensures { IsTrue result }
    {
        true
    }
}
