//! Tagged types (X.690 8.14), and OCTET STRING that holds an encoding.

ghost use Rattle.std.specs.Prelude.{◌≡◌};
ghost use Rattle.asn1_core.specs.Tag.{explicit_tag_of, implicit_tag_of, universal};
ghost use Rattle.asn1.specs.InHand.{explicit_inner, implicit_inner, octet_string_inner};
ghost use Rattle.asn1.specs.Types.{changed_der, inside_der};

use asn1_core::{
    Asn1Readable, Asn1Type, Asn1Writable, ParseResult, SimpleAsn1Readable, SimpleAsn1Writable, Tag,
    WriteBuf, Writer, explicit_tag, implicit_tag, parse_single,
};
use std::alloc::Global;
use std::fmt;

/// An explicitly tagged type (X.690 8.14, X.680 31.2): an element with the context-specific, constructed tag `TAG`,
/// whose contents octets are the encoding of a value of `T` and nothing else.
///
/// Errors of reading, after those of framing: `UnexpectedTag`, the first error of `T` in the contents octets,
/// `ExtraData` if octets remain there. Writing returns what writing `T` does.
///
/// ```text
/// both_ways(alloc, Explicit::<_, 2>::new(true), &[0xa2, 3, 1, 1, 0xff])?;
/// ```
#[derive(Debug, Clone, Copy, PartialEq, Eq, Hash)]
pub struct Explicit<T, const TAG: u32> {
    pub(crate) inner: T,
}

impl<T, const TAG: u32> Explicit<T, TAG> {
    /// The value under the tag.
    pub fn new(inner: T) -> Self
        ensures { explicit_inner result ≡ inner }
    {
        Explicit { inner }
    }

    /// The value under the tag.
    pub fn as_inner(&self) -> &T
        ensures { result.now ≡ explicit_inner self.now }
    {
        &self.inner
    }

    /// The value under the tag.
    pub fn into_inner(self) -> T
        ensures { result ≡ explicit_inner self }
    {
        self.inner
    }
}

impl<T, const TAG: u32> From<T> for Explicit<T, TAG> {
    ghost from_gives = { λ inner result. explicit_inner result ≡ inner };

    fn from(inner: T) -> Self {
        Explicit::new(inner)
    }
}

impl<T: Asn1Type, const TAG: u32> Asn1Type for Explicit<T, TAG> {
    ghost der = { inside_der (explicit_tag_of TAG) explicit_inner T.der };

    fn known(&self) {
        self.inner.known()
    }
}

impl<'a, T: Asn1Readable<'a>, const TAG: u32> SimpleAsn1Readable<'a> for Explicit<T, TAG> {
    fn tag() -> Tag {
        let tag = explicit_tag(TAG);
        // By this call's contract each value of the type has one encoding.
        let _is_accepted = T::can_parse(tag);
        tag
    }

    fn parse_data(alloc: Global, data: &'a [u8]) -> ParseResult<Self> {
        Ok(Explicit::new(parse_single::<T>(alloc, data)?))
    }
}

impl<T: Asn1Writable, const TAG: u32> SimpleAsn1Writable for Explicit<T, TAG> {
    type Error = T::Error;

    ghost write_errors = { λ x. T.write_errors (explicit_inner x) };

    ghost length_known = { λ x. T.length_known (explicit_inner x) };

    fn tag() -> Tag {
        explicit_tag(TAG)
    }

    fn write_data(&self, dest: &mut WriteBuf) -> Result<(), T::Error> {
        Writer::new(dest).write_element(&self.inner)
    }

    fn data_length(&self) -> Option<usize> {
        self.inner.encoded_length()
    }

    fn writes_as_read() -> bool {
        T::writes_as_read()
    }
}

/// An implicitly tagged type (X.690 8.14, X.680 31.2): a value of `T`, a type with a tag of its own, with the
/// context-specific tag `TAG` in place of that. The contents octets and the constructed bit are the same.
///
/// Errors of reading, after those of framing: `UnexpectedTag`, then the first error of `T` in the contents octets.
/// Writing returns what writing `T` does.
///
/// ```text
/// both_ways(alloc, Implicit::<_, 2>::new(true), &[0x82, 1, 0xff])?;
/// ```
#[derive(Debug, Clone, Copy, PartialEq, Eq, Hash)]
pub struct Implicit<T, const TAG: u32> {
    pub(crate) inner: T,
}

impl<T, const TAG: u32> Implicit<T, TAG> {
    /// The value under the tag.
    pub fn new(inner: T) -> Self
        ensures { implicit_inner result ≡ inner }
    {
        Implicit { inner }
    }

    /// The value under the tag.
    pub fn as_inner(&self) -> &T
        ensures { result.now ≡ implicit_inner self.now }
    {
        &self.inner
    }

    /// The value under the tag.
    pub fn into_inner(self) -> T
        ensures { result ≡ implicit_inner self }
    {
        self.inner
    }
}

impl<T, const TAG: u32> From<T> for Implicit<T, TAG> {
    ghost from_gives = { λ inner result. implicit_inner result ≡ inner };

    fn from(inner: T) -> Self {
        Implicit::new(inner)
    }
}

impl<T: Asn1Type, const TAG: u32> Asn1Type for Implicit<T, TAG> {
    ghost der = { changed_der (implicit_tag_of TAG) implicit_inner T.der };

    fn known(&self) {
        self.inner.known()
    }
}

impl<'a, T: SimpleAsn1Readable<'a>, const TAG: u32> SimpleAsn1Readable<'a> for Implicit<T, TAG> {
    fn tag() -> Tag {
        implicit_tag(TAG, T::tag())
    }

    fn parse_data(alloc: Global, data: &'a [u8]) -> ParseResult<Self> {
        Ok(Implicit::new(T::parse_data(alloc, data)?))
    }
}

impl<T: SimpleAsn1Writable, const TAG: u32> SimpleAsn1Writable for Implicit<T, TAG> {
    type Error = T::Error;

    ghost write_errors = { λ x. T.write_errors (implicit_inner x) };

    ghost length_known = { λ x. T.length_known (implicit_inner x) };

    fn tag() -> Tag {
        implicit_tag(TAG, T::tag())
    }

    fn write_data(&self, dest: &mut WriteBuf) -> Result<(), T::Error> {
        self.inner.write_data(dest)
    }

    fn data_length(&self) -> Option<usize> {
        self.inner.data_length()
    }

    fn writes_as_read() -> bool {
        <T as SimpleAsn1Writable>::writes_as_read()
    }
}

/// OCTET STRING (X.690 8.7; universal 4), whose octets are the encoding of a value of `T` and nothing else.
///
/// Errors of reading, after those of framing: `UnexpectedTag`, the first error of `T` in the contents octets,
/// `ExtraData` if octets remain there. Writing returns what writing `T` does.
///
/// ```text
/// both_ways(alloc, OctetStringEncoded::new(true), &[4, 3, 1, 1, 0xff])?;
/// ```
#[derive(Clone, Copy, PartialEq, Eq, Hash)]
pub struct OctetStringEncoded<T> {
    inner: T,
}

impl<T: fmt::Debug> fmt::Debug for OctetStringEncoded<T> {
    fn fmt<W: fmt::Write>(&self, f: &mut fmt::Formatter<W>) -> fmt::Result {
        f.debug_tuple("OctetStringEncoded")
            .field(&self.inner)
            .finish()
    }
}

impl<T> OctetStringEncoded<T> {
    /// The value in an octet string.
    pub fn new(inner: T) -> Self
        ensures { octet_string_inner result ≡ inner }
    {
        OctetStringEncoded { inner }
    }

    /// The value in the octet string.
    pub fn get(&self) -> &T
        ensures { result.now ≡ octet_string_inner self.now }
    {
        &self.inner
    }

    /// The value in the octet string.
    pub fn into_inner(self) -> T
        ensures { result ≡ octet_string_inner self }
    {
        self.inner
    }
}

impl<T: Asn1Type> Asn1Type for OctetStringEncoded<T> {
    ghost der = { inside_der (universal 4) octet_string_inner T.der };

    fn known(&self) {
        self.inner.known()
    }
}

impl<'a, T: Asn1Readable<'a>> SimpleAsn1Readable<'a> for OctetStringEncoded<T> {
    fn tag() -> Tag {
        let tag = Tag::primitive(0x04);
        // By this call's contract each value of the type has one encoding.
        let _is_accepted = T::can_parse(tag);
        tag
    }

    fn parse_data(alloc: Global, data: &'a [u8]) -> ParseResult<Self> {
        Ok(OctetStringEncoded::new(parse_single::<T>(alloc, data)?))
    }
}

impl<T: Asn1Writable> SimpleAsn1Writable for OctetStringEncoded<T> {
    type Error = T::Error;

    ghost write_errors = { λ x. T.write_errors (octet_string_inner x) };

    ghost length_known = { λ x. T.length_known (octet_string_inner x) };

    fn tag() -> Tag {
        Tag::primitive(0x04)
    }

    fn write_data(&self, dest: &mut WriteBuf) -> Result<(), T::Error> {
        Writer::new(dest).write_element(&self.inner)
    }

    fn data_length(&self) -> Option<usize> {
        self.inner.encoded_length()
    }

    fn writes_as_read() -> bool {
        T::writes_as_read()
    }
}
