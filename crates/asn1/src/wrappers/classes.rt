//! Tagged types whose tag is of any class (X.690 8.14).

ghost use Rattle.std.specs.Prelude.{◌≡◌};
ghost use Rattle.asn1_core.specs.Tag.{class_of};
ghost use Rattle.asn1.specs.InHand.{tagged_explicit_inner, tagged_implicit_inner};
ghost use Rattle.asn1.specs.Tagged.{explicit_tag_in, implicit_tag_in};
ghost use Rattle.asn1.specs.Types.{changed_der, inside_der};

use asn1_core::{
    Asn1Readable, Asn1Type, Asn1Writable, ParseResult, SimpleAsn1Readable, SimpleAsn1Writable, Tag,
    TagClass, WriteBuf, Writer, parse_single,
};
use std::alloc::Global;

/// The class with these bits 8 and 7 of the first identifier octet.
fn class_of(bits: u8) -> TagClass
    ensures { result ≡ class_of bits }
{
    match bits {
        0 => TagClass::Universal,
        1 => TagClass::Application,
        2 => TagClass::ContextSpecific,
        _ => TagClass::Private,
    }
}

/// The tag of an explicitly tagged type.
fn explicit_tag_in(class: u8, number: u32) -> Tag
    ensures { result ≡ explicit_tag_in class number }
{
    Tag::new(number, class_of(class), true)
}

/// The tag of an implicitly tagged type, with this tag inside.
fn implicit_tag_in(class: u8, number: u32, inner: Tag) -> Tag
    ensures { result ≡ implicit_tag_in class number inner }
{
    Tag::new(number, class_of(class), inner.is_constructed())
}

/// An explicitly tagged type (X.690 8.14, X.680 31.2): an element with the constructed tag `NUMBER` of a class, whose
/// contents octets are the encoding of a value of `T` and nothing else. [`ApplicationExplicit`] and [`PrivateExplicit`]
/// name the class; [`crate::Explicit`] is for the context-specific class.
///
/// `CLASS` has bits 8 and 7 of the first identifier octet (8.1.2.2): 0 is universal, 1 application, 2 context-specific,
/// and 3 private, as is any other number.
///
/// Errors of reading, after those of framing: `UnexpectedTag`, the first error of `T` in the contents octets,
/// `ExtraData` if octets remain there. Writing returns what writing `T` does.
///
/// ```text
/// both_ways(alloc, ApplicationExplicit::<_, 2>::new(true), &[0x62, 3, 1, 1, 0xff])?;
/// ```
#[derive(Debug, Clone, Copy, PartialEq, Eq, Hash)]
pub struct TaggedExplicit<T, const CLASS: u8, const NUMBER: u32> {
    pub(crate) inner: T,
}

impl<T, const CLASS: u8, const NUMBER: u32> TaggedExplicit<T, CLASS, NUMBER> {
    /// The value under the tag.
    pub fn new(inner: T) -> Self
        ensures { tagged_explicit_inner result ≡ inner }
    {
        TaggedExplicit { inner }
    }

    /// The value under the tag.
    pub fn as_inner(&self) -> &T
        ensures { result.now ≡ tagged_explicit_inner self.now }
    {
        &self.inner
    }

    /// The value under the tag.
    pub fn into_inner(self) -> T
        ensures { result ≡ tagged_explicit_inner self }
    {
        self.inner
    }
}

impl<T, const CLASS: u8, const NUMBER: u32> From<T> for TaggedExplicit<T, CLASS, NUMBER> {
    ghost from_gives = { λ inner result. tagged_explicit_inner result ≡ inner };

    fn from(inner: T) -> Self {
        TaggedExplicit::new(inner)
    }
}

impl<T: Asn1Type, const CLASS: u8, const NUMBER: u32> Asn1Type
    for TaggedExplicit<T, CLASS, NUMBER> {
    ghost der = { inside_der (explicit_tag_in CLASS NUMBER) tagged_explicit_inner T.der };

    fn known(&self) {
        self.inner.known()
    }
}

impl<'a, T: Asn1Readable<'a>, const CLASS: u8, const NUMBER: u32> SimpleAsn1Readable<'a>
    for TaggedExplicit<T, CLASS, NUMBER> {
    fn tag() -> Tag {
        let tag = explicit_tag_in(CLASS, NUMBER);
        // By this call's contract each value of the type has one encoding.
        let _is_accepted = T::can_parse(tag);
        tag
    }

    fn parse_data(alloc: Global, data: &'a [u8]) -> ParseResult<Self> {
        Ok(TaggedExplicit::new(parse_single::<T>(alloc, data)?))
    }
}

impl<T: Asn1Writable, const CLASS: u8, const NUMBER: u32> SimpleAsn1Writable
    for TaggedExplicit<T, CLASS, NUMBER> {
    type Error = T::Error;

    ghost write_errors = { λ x. T.write_errors (tagged_explicit_inner x) };

    ghost length_known = { λ x. T.length_known (tagged_explicit_inner x) };

    fn tag() -> Tag {
        explicit_tag_in(CLASS, NUMBER)
    }

    fn write_data(&self, dest: &mut WriteBuf) -> Result<(), T::Error> {
        Writer::new(dest).write_element(&self.inner)
    }

    fn data_length(&self) -> Option<usize> {
        self.inner.encoded_length()
    }

    fn writes_as_read() -> bool {
        T::writes_as_read()
    }
}

/// An implicitly tagged type (X.690 8.14, X.680 31.2): a value of `T`, a type with a tag of its own, with the tag
/// `NUMBER` of a class in place of that. The contents octets and the constructed bit are the same.
/// [`ApplicationImplicit`], [`PrivateImplicit`] and [`UniversalImplicit`] name the class; [`crate::Implicit`] is for
/// the context-specific class. `CLASS` is as in [`TaggedExplicit`].
///
/// Errors of reading, after those of framing: `UnexpectedTag`, then the first error of `T` in the contents octets.
/// Writing returns what writing `T` does.
///
/// ```text
/// both_ways(alloc, ApplicationImplicit::<_, 2>::new(true), &[0x42, 1, 0xff])?;
/// ```
#[derive(Debug, Clone, Copy, PartialEq, Eq, Hash)]
pub struct TaggedImplicit<T, const CLASS: u8, const NUMBER: u32> {
    pub(crate) inner: T,
}

impl<T, const CLASS: u8, const NUMBER: u32> TaggedImplicit<T, CLASS, NUMBER> {
    /// The value under the tag.
    pub fn new(inner: T) -> Self
        ensures { tagged_implicit_inner result ≡ inner }
    {
        TaggedImplicit { inner }
    }

    /// The value under the tag.
    pub fn as_inner(&self) -> &T
        ensures { result.now ≡ tagged_implicit_inner self.now }
    {
        &self.inner
    }

    /// The value under the tag.
    pub fn into_inner(self) -> T
        ensures { result ≡ tagged_implicit_inner self }
    {
        self.inner
    }
}

impl<T, const CLASS: u8, const NUMBER: u32> From<T> for TaggedImplicit<T, CLASS, NUMBER> {
    ghost from_gives = { λ inner result. tagged_implicit_inner result ≡ inner };

    fn from(inner: T) -> Self {
        TaggedImplicit::new(inner)
    }
}

impl<T: Asn1Type, const CLASS: u8, const NUMBER: u32> Asn1Type
    for TaggedImplicit<T, CLASS, NUMBER> {
    ghost der = { changed_der (implicit_tag_in CLASS NUMBER) tagged_implicit_inner T.der };

    fn known(&self) {
        self.inner.known()
    }
}

impl<'a, T: SimpleAsn1Readable<'a>, const CLASS: u8, const NUMBER: u32> SimpleAsn1Readable<'a>
    for TaggedImplicit<T, CLASS, NUMBER> {
    fn tag() -> Tag {
        implicit_tag_in(CLASS, NUMBER, T::tag())
    }

    fn parse_data(alloc: Global, data: &'a [u8]) -> ParseResult<Self> {
        Ok(TaggedImplicit::new(T::parse_data(alloc, data)?))
    }
}

impl<T: SimpleAsn1Writable, const CLASS: u8, const NUMBER: u32> SimpleAsn1Writable
    for TaggedImplicit<T, CLASS, NUMBER> {
    type Error = T::Error;

    ghost write_errors = { λ x. T.write_errors (tagged_implicit_inner x) };

    ghost length_known = { λ x. T.length_known (tagged_implicit_inner x) };

    fn tag() -> Tag {
        implicit_tag_in(CLASS, NUMBER, T::tag())
    }

    fn write_data(&self, dest: &mut WriteBuf) -> Result<(), T::Error> {
        self.inner.write_data(dest)
    }

    fn data_length(&self) -> Option<usize> {
        self.inner.data_length()
    }

    fn writes_as_read() -> bool {
        <T as SimpleAsn1Writable>::writes_as_read()
    }
}

/// `[APPLICATION N] EXPLICIT T` (X.680 31.2).
pub type ApplicationExplicit<T, const N: u32> = TaggedExplicit<T, 1, N>;

/// `[APPLICATION N] IMPLICIT T` (X.680 31.2).
pub type ApplicationImplicit<T, const N: u32> = TaggedImplicit<T, 1, N>;

/// `[PRIVATE N] EXPLICIT T` (X.680 31.2).
pub type PrivateExplicit<T, const N: u32> = TaggedExplicit<T, 3, N>;

/// `[PRIVATE N] IMPLICIT T` (X.680 31.2).
pub type PrivateImplicit<T, const N: u32> = TaggedImplicit<T, 3, N>;

/// `[UNIVERSAL N] IMPLICIT T`: a type that ASN.1 itself defines, with the contents octets of `T`, such as GeneralString
/// (27) of the characters of an IA5String.
pub type UniversalImplicit<T, const N: u32> = TaggedImplicit<T, 0, N>;
