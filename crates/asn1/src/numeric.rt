//! NumericString (X.690 8.23, X.680 41), and the character strings whose contents octets are kept as they are.

ghost use Rattle.std.specs.Prelude.{◌≡◌, IsTrue, true, false, length, MatchOption};
ghost use Rattle.asn1_core.specs.Tag.{universal};
ghost use Rattle.asn1_core.specs.Reads.{ReadsContents};
ghost use Rattle.asn1_core.specs.Writing.{GivesLength};
ghost use Rattle.asn1_core.specs.Der.{simple_der};
ghost use Rattle.asn1_values.specs.Texts.{IsTextOf};
ghost use Rattle.asn1.specs.Numeric.{is_numeric, is_numeric_text};

use crate::wrappers::UniversalImplicit;
use asn1_core::{
    Asn1Type, ParseError, ParseErrorKind, ParseResult, SimpleAsn1Readable, SimpleAsn1Writable, Tag,
    WriteBuf, WriteError, WriteResult,
};
use std::alloc::Global;
use std::fmt;

/// TeletexString, or T61String (X.680 41; universal 20): the octets as they are. They stand for characters of several
/// sets, and for codes that choose among the sets. No octet is rejected.
pub type TeletexString<'a> = UniversalImplicit<&'a [u8], 20>;

/// VideotexString (X.680 41; universal 21): the octets as they are, as in [`TeletexString`].
pub type VideotexString<'a> = UniversalImplicit<&'a [u8], 21>;

/// GraphicString (X.680 41; universal 25): the octets as they are, as in [`TeletexString`].
pub type GraphicString<'a> = UniversalImplicit<&'a [u8], 25>;

/// GeneralString (X.680 41; universal 27): the octets as they are, as in [`TeletexString`].
pub type GeneralString<'a> = UniversalImplicit<&'a [u8], 27>;

/// Whether a `NumericString` may have this character.
fn is_numeric(octet: u8) -> bool
    ensures { result ≡ is_numeric octet }
{
    (0x30 <= octet && octet <= 0x39) || octet == 0x20
}

/// Whether each octet is a digit or a space.
fn is_numeric_text(octets: &[u8]) -> bool
    ensures { result ≡ is_numeric_text octets.now }
{
    octets.iter().all(|octet| is_numeric(*octet))
}

/// NumericString (X.690 8.23, X.680 41; universal 18): digits and spaces, an octet each, borrowed from the input. The
/// encoding is primitive (10.2). Reading rejects other octets with `InvalidValue`.
///
/// ```text
/// let number = NumericString::new("49 30").ok_or("no numeric string")?;
/// both_ways(alloc, number, &[0x12, 5, 0x34, 0x39, 0x20, 0x33, 0x30])?;
/// ```
#[derive(Clone, Copy, PartialEq, Eq, Hash)]
pub struct NumericString<'a> {
    text: &'a str,
    pub ghost is_text: { IsTextOf is_numeric_text text.now },
}

impl<'a> NumericString<'a> {
    ghost use Rattle.asn1.specs.NumericValues.{numeric_octets};

    /// The string with these characters. `None` if one isn't a digit or a space.
    pub fn new(text: &'a str) -> Option<NumericString<'a>>
        ensures { MatchOption result (¬ IsTextOf is_numeric_text text.entry.now)
            (λ s. numeric_octets s ≡ text.entry.now) }
    {
        if !is_numeric_text(text.as_bytes()) {
            return None;
        }
        Some(NumericString { text })
    }

    /// The characters.
    pub fn as_str(&self) -> &'a str
        ensures { result.now ≡ numeric_octets self.now }
    {
        self.text
    }
}

impl fmt::Debug for NumericString<'_> {
    fn fmt<W: fmt::Write>(&self, f: &mut fmt::Formatter<W>) -> fmt::Result {
        f.debug_tuple("NumericString").field(&self.text).finish()
    }
}

impl<'a> Asn1Type for NumericString<'a> {
    ghost use Rattle.asn1_values.specs.LawsOf.Values.{text_laws};
    ghost use Rattle.asn1.specs.NumericValues.{numeric_octets, numeric_content};

    ghost der = { simple_der numeric_octets numeric_content (text_laws 18 is_numeric_text) };

    fn known(&self) {}
}

/// The octets as `str`, if each is a digit or a space.
fn numeric_text_in(octets: &[u8]) -> Option<&str>
    ensures { MatchOption result (is_numeric_text octets.now ≡ false)
        (λ text. (is_numeric_text octets.now ≡ true) × (text.now ≡ octets.entry.now)) }
{
    if !is_numeric_text(octets) {
        return None;
    }
    Some(unsafe { str::from_utf8_unchecked(octets) })
}

impl<'a> SimpleAsn1Readable<'a> for NumericString<'a> {
    ghost use Rattle.asn1.specs.NumericValues.{numeric_octets};

    fn tag() -> Tag
        ensures value { result ≡ universal 18 }
        ensures simple { Unit {0} }
        ensures plain { Unit {0} }
        ensures read { Unit {0} }
    {
        Tag::primitive(0x12)
    }

    fn parse_data(_alloc: Global, data: &'a [u8]) -> ParseResult<NumericString<'a>>
        ensures { ReadsContents ⟦<NumericString<'a> as Asn1Type>⟧.der «data».entry.now result }
    {
        match numeric_text_in(data) {
            Some(text) => Ok(NumericString { text }),
            None => Err(ParseError::new(ParseErrorKind::InvalidValue)),
        }
    }
}

impl SimpleAsn1Writable for NumericString<'_> {
    ghost use Rattle.asn1.specs.NumericValues.{numeric_octets, numeric_content};

    type Error = WriteError;

    ghost length_known = { λ _. Unit {0} };

    fn tag() -> Tag
        ensures value { result ≡ universal 18 }
        ensures simple { Unit {0} }
    {
        Tag::primitive(0x12)
    }

    fn write_data(&self, dest: &mut WriteBuf) -> WriteResult<()> {
        dest.push_slice(self.text.as_bytes())
    }

    fn data_length(&self) -> Option<usize>
        ensures known { GivesLength (Unit {0}) (numeric_content.encodings (numeric_octets self.now))
            result }
        ensures exact { result ≡ Some (length (numeric_octets self.now)) }
    {
        Some(self.text.len())
    }

    fn writes_as_read() -> bool
        ensures { IsTrue result }
    {
        true
    }
}
