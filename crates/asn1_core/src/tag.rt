//! Tags and identifier octets: a class, a form, primitive or constructed, and a number (X.690 8.1.2). Numbers from 2^32
//! on aren't read.

ghost use Rattle.std.specs.Prelude.{◌≡◌, ◌+◌, ◌*◌, ◌/◌, ◌<◌, ◌≤◌, ◌++◌};
ghost use Rattle.std.specs.Prelude.{length, SomeIff, OnOk, OnErr, IsOkUnless, true, false};
ghost use Rattle.asn1_core.specs.declared.tag.TagClass.TheVariants.{Universal};
ghost use Rattle.asn1_core.specs.ReadError.{ReturnsPlain, ReturnsKind, with_rest};
ghost use Rattle.asn1_core.specs.Tag.{tag_before, tag_class, tag_constructed, tag_number, tag_with, universal};
ghost use Rattle.asn1_core.specs.Tag.{universal_constructed, implicit_tag_of, explicit_tag_of, class_number, class_of};
ghost use Rattle.asn1_core.specs.Tag.{tag_of, leading_tag, identifier_octets, first_octet, tag_eq};

use crate::base128;
use crate::parser::{ParseErrorKind, ParseResult, kind_as_error};
use crate::writer::{WriteBuf, WriteError, WriteResult};

/// The class of a tag (X.690 8.1.2.2). The discriminants are bits 8 and 7 of the first identifier octet.
#[derive(Clone, Copy, Debug, PartialEq, Eq, Hash)]
pub enum TagClass {
    /// Types that ASN.1 itself defines, such as BOOLEAN.
    Universal = 0b00,
    /// Types that an application defines.
    Application = 0b01,
    /// Types told apart by the structure around them, as by the tags `[0]`, `[1]` in it.
    ContextSpecific = 0b10,
    /// Types that an organization defines for itself.
    Private = 0b11,
}

impl TagClass {
    /// The class as bits 8 and 7 of the first identifier octet.
    fn bits(self) -> u8
        ensures { result ≡ class_number self }
    {
        self as u8
    }
}

/// A tag: its class, whether the encoding is constructed, and its number, below 2^32 (X.690 8.1.2). Tags are equal if
/// all three are.
#[derive(Clone, Copy, Debug, PartialEq, Eq, Hash)]
pub struct Tag {
    value: u32,
    constructed: bool,
    class: TagClass,
}

/// Bit 6 of the first identifier octet, which is set if the encoding is constructed (8.1.2.5).
const CONSTRUCTED: u8 = 0x20;
/// The five low bits of the first identifier octet that announce a number in base 128 after it.
pub(crate) const LONG_FORM: u8 = 0x1f;
/// How many identifier octets there are at most.
const MAX_TAG_OCTETS: usize = 6;

/// The class in the first identifier octet.
fn class_in(first: u8) -> TagClass
    ensures { result ≡ class_of (first / 64) }
{
    match first >> 6 {
        0 => TagClass::Universal,
        1 => TagClass::Application,
        2 => TagClass::ContextSpecific,
        _ => TagClass::Private,
    }
}

impl Tag {
    /// Whether this is the other tag: the derived `==`, under a clause that names the definition.
    pub(crate) fn is(self, other: Tag) -> bool
        ensures { result ≡ tag_eq self other }
    {
        self == other
    }

    /// Whether this tag comes before the other: by class, from universal to private, and within a class by number
    /// (X.680 8.6). Whether an encoding is constructed doesn't matter.
    #[inline]
    pub fn comes_before(self, other: Tag) -> bool
        ensures { result ≡ tag_before self other }
    {
        let (class, other_class) = (self.class.bits(), other.class.bits());
        class < other_class || (class == other_class && self.value < other.value)
    }

    /// Reads the identifier octets at the start of `octets`: returns the tag and the remaining octets.
    ///
    /// Errors, without a location: `InvalidTag` for a number in the long form (8.1.2.4) that begins with 0x80, is
    /// below 31, is 2^32 or more, or doesn't end within 19 octets. `ShortData { needed: 1 }` if the octets end before
    /// the tag does, also if there are none.
    pub fn from_bytes(octets: &[u8]) -> ParseResult<(Tag, &[u8])>
        ensures { ReturnsPlain with_rest result (leading_tag octets.now) }
    {
        kind_as_error(Tag::read(octets))
    }

    /// What [`Tag::from_bytes`] returns, with the kind of the error alone.
    #[inline(always)]
    pub(crate) fn read(octets: &[u8]) -> Result<(Tag, &[u8]), ParseErrorKind>
        ensures { ReturnsKind with_rest result (leading_tag octets.now) }
    {
        let [first, rest @ ..] = octets else {
            return Err(ParseErrorKind::ShortData { needed: 1 });
        };
        let low = *first & LONG_FORM;
        if low < LONG_FORM {
            return Ok((Tag::from_first_octet(*first, u32::from(low)), rest));
        }
        let (number, rest) = match base128::read_number(rest) {
            Ok(found) => found,
            Err(kind) => {
                return match kind {
                    ParseErrorKind::ShortData { .. } => Err(kind),
                    _ => Err(ParseErrorKind::InvalidTag),
                };
            }
        };
        if number < u128::from(LONG_FORM) || number > u128::from(u32::MAX) {
            return Err(ParseErrorKind::InvalidTag);
        }
        Ok((Tag::from_first_octet(*first, number as u32), rest))
    }

    /// The tag with this number, and with the class and the form that the first identifier octet gives.
    pub(crate) fn from_first_octet(first: u8, value: u32) -> Tag
        ensures { result ≡ tag_of first value }
    {
        Tag {
            value,
            constructed: first & CONSTRUCTED == CONSTRUCTED,
            class: class_in(first),
        }
    }

    /// The tag with this number and class, of a constructed encoding or of a primitive one.
    pub fn new(value: u32, class: TagClass, constructed: bool) -> Tag
        ensures { result ≡ tag_with class constructed value }
    {
        Tag {
            value,
            constructed,
            class,
        }
    }

    /// The primitive tag of the universal class with this number.
    pub fn primitive(value: u32) -> Tag
        ensures { result ≡ universal value }
    {
        Tag::new(value, TagClass::Universal, false)
    }

    /// The constructed tag of the universal class with this number.
    pub fn constructed(value: u32) -> Tag
        ensures { result ≡ universal_constructed value }
    {
        Tag::new(value, TagClass::Universal, true)
    }

    /// The identifier octet, if the tag has only one: if its number is at most 30. Else `None`.
    pub fn as_u8(self) -> Option<u8>
        ensures { SomeIff result (tag_number self < 31) (first_octet self (tag_number self)) }
    {
        if self.value >= u32::from(LONG_FORM) {
            return None;
        }
        Some(self.first_octet(self.value as u8))
    }

    /// The first identifier octet, with these five low bits.
    fn first_octet(self, low: u8) -> u8
        requires { low < 32 }
        ensures { result ≡ first_octet self low }
    {
        let constructed = if self.constructed { CONSTRUCTED } else { 0 };
        (self.class.bits() << 6) | constructed | low
    }

    /// Appends the identifier octets. `AllocationError` if out of memory; then nothing was appended.
    #[inline(always)]
    pub(crate) fn write_to(self, dest: &mut WriteBuf) -> WriteResult<()>
        ensures ok { OnOk result (dest.new.bytes ≡ dest.old.bytes ++ identifier_octets self) }
        ensures err { OnErr result (dest.new ≡ dest.old) }
        ensures error { IsOkUnless result WriteError.AllocationError }
    {
        if self.value < u32::from(LONG_FORM) {
            return dest.push_byte(self.first_octet(self.value as u8));
        }
        self.write_long(dest)
    }

    /// The same for a number in the long form, which few tags have.
    #[cold]
    #[inline(never)]
    fn write_long(self, dest: &mut WriteBuf) -> WriteResult<()>
        requires { 31 ≤ tag_number self }
        ensures ok { OnOk result (dest.new.bytes ≡ dest.old.bytes ++ identifier_octets self) }
        ensures err { OnErr result (dest.new ≡ dest.old) }
        ensures error { IsOkUnless result WriteError.AllocationError }
    {
        let mut octets = [0u8; MAX_TAG_OCTETS];
        octets[0] = self.first_octet(LONG_FORM);
        let Some(count) = base128::write(u128::from(self.value), &mut octets[1..]) else {
            unreachable!()
        };
        dest.push_slice(&octets[..count + 1])
    }

    /// How many identifier octets the tag has: 1 to 6.
    pub(crate) fn encoded_length(self) -> usize
        ensures value { result ≡ length (identifier_octets self) }
        ensures most { result ≤ MAX_TAG_OCTETS }
    {
        if self.value < u32::from(LONG_FORM) {
            1
        } else {
            1 + base128::length(u128::from(self.value))
        }
    }

    /// Whether an encoding with this tag is constructed, that is, made of elements (8.1.2.5).
    pub fn is_constructed(self) -> bool
        ensures { result ≡ tag_constructed self }
    {
        self.constructed
    }

    /// The tag's class.
    pub fn class(self) -> TagClass
        ensures { result ≡ tag_class self }
    {
        self.class
    }

    /// The tag's number, below 2^32.
    pub fn value(self) -> u32
        ensures { result ≡ tag_number self }
    {
        self.value
    }
}

/// The tag of an implicitly tagged type (X.680 31.2.7): context-specific, with the number `value`, and constructed
/// exactly if the replaced tag, `inner`, is.
pub fn implicit_tag(value: u32, inner: Tag) -> Tag
    ensures { result ≡ implicit_tag_of value inner }
{
    Tag::new(value, TagClass::ContextSpecific, inner.constructed)
}

/// The tag of an explicitly tagged type (X.680 31.2.5): context-specific and constructed, with the number `value`.
pub fn explicit_tag(value: u32) -> Tag
    ensures { result ≡ explicit_tag_of value }
{
    Tag::new(value, TagClass::ContextSpecific, true)
}
