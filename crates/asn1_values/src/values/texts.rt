//! Character strings whose contents octets are read as `str` (X.690 8.23, X.680 41).

ghost use Rattle.std.specs.Prelude.{◌≡◌, IsTrue, true, false, length, MatchOption, IsUtf8};
ghost use Rattle.asn1_core.specs.Tag.{universal};
ghost use Rattle.asn1_core.specs.Reads.{ReadsContents};
ghost use Rattle.asn1_core.specs.Writing.{GivesLength};
ghost use Rattle.asn1_core.specs.Der.{simple_der};
ghost use Rattle.asn1_values.specs.Texts.{is_printable, is_printable_text, is_ia5_text, is_visible_text, is_utf8_text};
ghost use Rattle.asn1_values.specs.Texts.{IsTextOf};

use asn1_core::{
    Asn1Type, ParseError, ParseErrorKind, ParseResult, SimpleAsn1Readable, SimpleAsn1Writable, Tag,
    WriteBuf, WriteError, WriteResult,
};
use std::alloc::Global;
use std::fmt;

/// A bit for each character below 64 that a `PrintableString` may have: space, `'()+,-./:=?` and the digits.
const LOW_PRINTABLE: u64 = 0xa7ff_fb81_0000_0000;

/// The same from 64 to 127: the letters.
const HIGH_PRINTABLE: u64 = 0x07ff_fffe_07ff_fffe;

/// Whether a `PrintableString` may have this character.
fn is_printable(octet: u8) -> bool
    ensures { result ≡ is_printable octet }
{
    let characters = if octet < 64 {
        LOW_PRINTABLE
    } else {
        HIGH_PRINTABLE
    };
    octet < 128 && (characters >> (octet % 64)) % 2 == 1
}

/// Whether each octet is a character of a `PrintableString`.
fn is_printable_text(octets: &[u8]) -> bool
    ensures { result ≡ is_printable_text octets.now }
{
    octets.iter().all(|octet| is_printable(*octet))
}

/// Whether each octet is ASCII.
fn is_ia5_text(octets: &[u8]) -> bool
    ensures { result ≡ is_ia5_text octets.now }
{
    octets.is_ascii()
}

/// Whether each octet is ASCII and no control character.
fn is_visible_text(octets: &[u8]) -> bool
    ensures { result ≡ is_visible_text octets.now }
{
    octets.iter().all(|octet| 0x20 <= *octet && *octet <= 0x7e)
}

/// The octets as `str` if they follow their rule, as `is_text` says. Octets that follow their rule are UTF-8.
fn text_in(octets: &[u8], is_text: bool) -> Option<&str>
    requires { is_text ≡ true → IsUtf8 octets.now }
    ensures { MatchOption result (is_text ≡ false)
        (λ text. (is_text ≡ true) × (text.now ≡ octets.entry.now)) }
{
    if !is_text {
        return None;
    }
    Some(unsafe { str::from_utf8_unchecked(octets) })
}

/// PrintableString (X.690 8.23, X.680 41; universal 19): letters, digits, space and `'()+,-./:=?`, an octet each,
/// borrowed from the input. The encoding is primitive (10.2). Reading rejects other octets with `InvalidValue`.
#[derive(Clone, Copy, PartialEq, Eq, Hash)]
pub struct PrintableString<'a> {
    text: &'a str,
    pub ghost is_text: { IsTextOf is_printable_text text.now },
}

impl<'a> PrintableString<'a> {
    ghost use Rattle.asn1_values.specs.TextValues.{printable_octets};

    /// The string with these characters. `None` if one isn't a letter, a digit, a space or one of `'()+,-./:=?`.
    pub fn new(text: &'a str) -> Option<PrintableString<'a>>
        ensures { MatchOption result (¬ IsTextOf is_printable_text text.entry.now)
            (λ s. printable_octets s ≡ text.entry.now) }
    {
        if !is_printable_text(text.as_bytes()) {
            return None;
        }
        Some(PrintableString { text })
    }

    /// The characters.
    pub fn as_str(&self) -> &'a str
        ensures { result.now ≡ printable_octets self.now }
    {
        self.text
    }
}

impl fmt::Debug for PrintableString<'_> {
    fn fmt<W: fmt::Write>(&self, f: &mut fmt::Formatter<W>) -> fmt::Result {
        f.debug_tuple("PrintableString").field(&self.text).finish()
    }
}

impl<'a> Asn1Type for PrintableString<'a> {
    ghost use Rattle.asn1_values.specs.TextValues.{printable_octets, printable_content};
    ghost use Rattle.asn1_values.specs.LawsOf.Values.{printable_laws};

    ghost der = { simple_der printable_octets printable_content printable_laws };

    fn known(&self) {}
}

impl<'a> SimpleAsn1Readable<'a> for PrintableString<'a> {
    ghost use Rattle.asn1_values.specs.TextValues.{printable_octets};

    fn tag() -> Tag
        ensures value { result ≡ universal 19 }
        ensures simple { Unit {0} }
        ensures plain { Unit {0} }
        ensures read { Unit {0} }
    {
        Tag::primitive(0x13)
    }

    #[inline]
    fn parse_data(_alloc: Global, data: &'a [u8]) -> ParseResult<PrintableString<'a>>
        ensures { ReadsContents ⟦<PrintableString<'a> as Asn1Type>⟧.der «data».entry.now result }
    {
        match text_in(data, is_printable_text(data)) {
            Some(text) => Ok(PrintableString { text }),
            None => Err(ParseError::new(ParseErrorKind::InvalidValue)),
        }
    }
}

impl SimpleAsn1Writable for PrintableString<'_> {
    ghost use Rattle.asn1_values.specs.TextValues.{printable_octets, printable_content};

    type Error = WriteError;

    ghost length_known = { λ _. Unit {0} };

    fn tag() -> Tag
        ensures value { result ≡ universal 19 }
        ensures simple { Unit {0} }
    {
        Tag::primitive(0x13)
    }

    fn write_data(&self, dest: &mut WriteBuf) -> WriteResult<()> {
        dest.push_slice(self.text.as_bytes())
    }

    fn data_length(&self) -> Option<usize>
        ensures known { GivesLength (Unit {0}) (printable_content.encodings
            (printable_octets self.now))
            result }
        ensures exact { result ≡ Some (length (printable_octets self.now)) }
    {
        Some(self.text.len())
    }

    fn writes_as_read() -> bool
        ensures { IsTrue result }
    {
        true
    }
}

/// IA5String (X.690 8.23, X.680 41; universal 22): ASCII characters, control characters included, an octet each,
/// borrowed from the input. The encoding is primitive (10.2). Reading rejects octets from 0x80 on with `InvalidValue`.
#[derive(Clone, Copy, PartialEq, Eq)]
pub struct IA5String<'a> {
    text: &'a str,
    pub ghost is_text: { IsTextOf is_ia5_text text.now },
}

impl<'a> IA5String<'a> {
    ghost use Rattle.asn1_values.specs.TextValues.{ia5_octets};

    /// The string with these characters. `None` if one isn't ASCII.
    pub fn new(text: &'a str) -> Option<IA5String<'a>>
        ensures { MatchOption result (¬ IsTextOf is_ia5_text text.entry.now)
            (λ s. ia5_octets s ≡ text.entry.now) }
    {
        if !is_ia5_text(text.as_bytes()) {
            return None;
        }
        Some(IA5String { text })
    }

    /// The characters.
    pub fn as_str(&self) -> &'a str
        ensures { result.now ≡ ia5_octets self.now }
    {
        self.text
    }
}

impl fmt::Debug for IA5String<'_> {
    fn fmt<W: fmt::Write>(&self, f: &mut fmt::Formatter<W>) -> fmt::Result {
        f.debug_tuple("IA5String").field(&self.text).finish()
    }
}

impl<'a> Asn1Type for IA5String<'a> {
    ghost use Rattle.asn1_values.specs.TextValues.{ia5_octets, ia5_content};
    ghost use Rattle.asn1_values.specs.LawsOf.Values.{ia5_laws};

    ghost der = { simple_der ia5_octets ia5_content ia5_laws };

    fn known(&self) {}
}

impl<'a> SimpleAsn1Readable<'a> for IA5String<'a> {
    ghost use Rattle.asn1_values.specs.TextValues.{ia5_octets};

    fn tag() -> Tag
        ensures value { result ≡ universal 22 }
        ensures simple { Unit {0} }
        ensures plain { Unit {0} }
        ensures read { Unit {0} }
    {
        Tag::primitive(0x16)
    }

    #[inline]
    fn parse_data(_alloc: Global, data: &'a [u8]) -> ParseResult<IA5String<'a>>
        ensures { ReadsContents ⟦<IA5String<'a> as Asn1Type>⟧.der «data».entry.now result }
    {
        match text_in(data, is_ia5_text(data)) {
            Some(text) => Ok(IA5String { text }),
            None => Err(ParseError::new(ParseErrorKind::InvalidValue)),
        }
    }
}

impl SimpleAsn1Writable for IA5String<'_> {
    ghost use Rattle.asn1_values.specs.TextValues.{ia5_octets, ia5_content};

    type Error = WriteError;

    ghost length_known = { λ _. Unit {0} };

    fn tag() -> Tag
        ensures value { result ≡ universal 22 }
        ensures simple { Unit {0} }
    {
        Tag::primitive(0x16)
    }

    fn write_data(&self, dest: &mut WriteBuf) -> WriteResult<()> {
        dest.push_slice(self.text.as_bytes())
    }

    fn data_length(&self) -> Option<usize>
        ensures known { GivesLength (Unit {0}) (ia5_content.encodings (ia5_octets self.now))
            result }
        ensures exact { result ≡ Some (length (ia5_octets self.now)) }
    {
        Some(self.text.len())
    }

    fn writes_as_read() -> bool
        ensures { IsTrue result }
    {
        true
    }
}

/// VisibleString (X.690 8.23, X.680 41; universal 26): the ASCII characters from space to `~`, an octet each, borrowed
/// from the input. The encoding is primitive (10.2). Reading rejects other octets with `InvalidValue`.
#[derive(Clone, Copy, PartialEq, Eq)]
pub struct VisibleString<'a> {
    text: &'a str,
    pub ghost is_text: { IsTextOf is_visible_text text.now },
}

impl<'a> VisibleString<'a> {
    ghost use Rattle.asn1_values.specs.TextValues.{visible_octets};

    /// The string with these characters. `None` if one isn't ASCII, or is a control character.
    pub fn new(text: &'a str) -> Option<VisibleString<'a>>
        ensures { MatchOption result (¬ IsTextOf is_visible_text text.entry.now)
            (λ s. visible_octets s ≡ text.entry.now) }
    {
        if !is_visible_text(text.as_bytes()) {
            return None;
        }
        Some(VisibleString { text })
    }

    /// The characters.
    pub fn as_str(&self) -> &'a str
        ensures { result.now ≡ visible_octets self.now }
    {
        self.text
    }
}

impl fmt::Debug for VisibleString<'_> {
    fn fmt<W: fmt::Write>(&self, f: &mut fmt::Formatter<W>) -> fmt::Result {
        f.debug_tuple("VisibleString").field(&self.text).finish()
    }
}

impl<'a> Asn1Type for VisibleString<'a> {
    ghost use Rattle.asn1_values.specs.TextValues.{visible_octets, visible_content};
    ghost use Rattle.asn1_values.specs.LawsOf.Values.{visible_laws};

    ghost der = { simple_der visible_octets visible_content visible_laws };

    fn known(&self) {}
}

impl<'a> SimpleAsn1Readable<'a> for VisibleString<'a> {
    ghost use Rattle.asn1_values.specs.TextValues.{visible_octets};

    fn tag() -> Tag
        ensures value { result ≡ universal 26 }
        ensures simple { Unit {0} }
        ensures plain { Unit {0} }
        ensures read { Unit {0} }
    {
        Tag::primitive(0x1a)
    }

    #[inline]
    fn parse_data(_alloc: Global, data: &'a [u8]) -> ParseResult<VisibleString<'a>>
        ensures { ReadsContents ⟦<VisibleString<'a> as Asn1Type>⟧.der «data».entry.now result }
    {
        match text_in(data, is_visible_text(data)) {
            Some(text) => Ok(VisibleString { text }),
            None => Err(ParseError::new(ParseErrorKind::InvalidValue)),
        }
    }
}

impl SimpleAsn1Writable for VisibleString<'_> {
    ghost use Rattle.asn1_values.specs.TextValues.{visible_octets, visible_content};

    type Error = WriteError;

    ghost length_known = { λ _. Unit {0} };

    fn tag() -> Tag
        ensures value { result ≡ universal 26 }
        ensures simple { Unit {0} }
    {
        Tag::primitive(0x1a)
    }

    fn write_data(&self, dest: &mut WriteBuf) -> WriteResult<()> {
        dest.push_slice(self.text.as_bytes())
    }

    fn data_length(&self) -> Option<usize>
        ensures known { GivesLength (Unit {0}) (visible_content.encodings (visible_octets self.now))
            result }
        ensures exact { result ≡ Some (length (visible_octets self.now)) }
    {
        Some(self.text.len())
    }

    fn writes_as_read() -> bool
        ensures { IsTrue result }
    {
        true
    }
}

/// UTF8String (X.690 8.23, X.680 41; universal 12): any Unicode characters in UTF-8, borrowed from the input. The
/// encoding is primitive (10.2). Reading rejects octets that aren't UTF-8 with `InvalidValue`.
#[derive(Clone, Copy, PartialEq, Eq, Hash)]
pub struct Utf8String<'a> {
    text: &'a str,
    pub ghost is_text: { IsTextOf is_utf8_text text.now },
}

impl<'a> Utf8String<'a> {
    ghost use Rattle.asn1_values.specs.TextValues.{utf8_octets};

    /// The string with these characters, which may be any.
    pub fn new(text: &'a str) -> Utf8String<'a>
        ensures { utf8_octets result ≡ text.entry.now }
    {
        Utf8String { text }
    }

    /// The characters.
    pub fn as_str(&self) -> &'a str
        ensures { result.now ≡ utf8_octets self.now }
    {
        self.text
    }
}

impl fmt::Debug for Utf8String<'_> {
    fn fmt<W: fmt::Write>(&self, f: &mut fmt::Formatter<W>) -> fmt::Result {
        f.debug_tuple("Utf8String").field(&self.text).finish()
    }
}

impl<'a> Asn1Type for Utf8String<'a> {
    ghost use Rattle.asn1_values.specs.TextValues.{utf8_octets, utf8_content};
    ghost use Rattle.asn1_values.specs.LawsOf.Values.{utf8_laws};

    ghost der = { simple_der utf8_octets utf8_content utf8_laws };

    fn known(&self) {}
}

impl<'a> SimpleAsn1Readable<'a> for Utf8String<'a> {
    ghost use Rattle.asn1_values.specs.TextValues.{utf8_octets};

    fn tag() -> Tag
        ensures value { result ≡ universal 12 }
        ensures simple { Unit {0} }
        ensures plain { Unit {0} }
        ensures read { Unit {0} }
    {
        Tag::primitive(0x0c)
    }

    #[inline]
    fn parse_data(_alloc: Global, data: &'a [u8]) -> ParseResult<Utf8String<'a>>
        ensures { ReadsContents ⟦<Utf8String<'a> as Asn1Type>⟧.der «data».entry.now result }
    {
        match str::from_utf8(data) {
            Ok(text) => Ok(Utf8String { text }),
            Err(_) => Err(ParseError::new(ParseErrorKind::InvalidValue)),
        }
    }
}

impl SimpleAsn1Writable for Utf8String<'_> {
    ghost use Rattle.asn1_values.specs.TextValues.{utf8_octets, utf8_content};

    type Error = WriteError;

    ghost length_known = { λ _. Unit {0} };

    fn tag() -> Tag
        ensures value { result ≡ universal 12 }
        ensures simple { Unit {0} }
    {
        Tag::primitive(0x0c)
    }

    fn write_data(&self, dest: &mut WriteBuf) -> WriteResult<()> {
        dest.push_slice(self.text.as_bytes())
    }

    fn data_length(&self) -> Option<usize>
        ensures known { GivesLength (Unit {0}) (utf8_content.encodings (utf8_octets self.now))
            result }
        ensures exact { result ≡ Some (length (utf8_octets self.now)) }
    {
        Some(self.text.len())
    }

    fn writes_as_read() -> bool
        ensures { IsTrue result }
    {
        true
    }
}
