//! Reading: errors with their locations, framing, and the parser.

ghost use Rattle.std.specs.Prelude.{◌≡◌, ◌↔◌, ◌*◌, ◌<◌, ◌≤◌, ◌==◌, ◌++◌};
ghost use Rattle.std.specs.Prelude.{ℕ, [], List, Result, length, IsTrue, IfOk, IfErr, IfSome, IsOk, OnErr, false};
ghost use Rattle.asn1_core.specs.declared.parser.ParseErrorKind.{ParseErrorKind};
ghost use Rattle.asn1_core.specs.declared.parser.ParseErrorKind.TheVariants.{ShortData};
ghost use Rattle.asn1_core.specs.Base256.{IsOctets, number};
ghost use Rattle.asn1_core.specs.Tag.{leading_tag, found_tag};
ghost use Rattle.asn1_core.specs.Length.{leading_length};
ghost use Rattle.asn1_core.specs.Element.{Element, IsLeadingElement, leading_content, leading_element};
ghost use Rattle.asn1_core.specs.Element.{element_encoding};
ghost use Rattle.asn1_core.specs.Tlv.{element_of, full_octets, stripped};
ghost use Rattle.asn1_core.specs.ReadError.{read_error, within, framed, ReturnsPlain, ReturnsKind, IsOfInput, place_of};
ghost use Rattle.asn1_core.specs.ReadError.{error_text, kind_eq, place_eq, read_error_eq, with_rest};
ghost use Rattle.asn1_core.specs.Reading.{EndsWith, Fits, ReadsBy, rest_rejected, expected_contents, simple_stops};
ghost use Rattle.asn1_core.specs.Reads.{BeginsWithEncodingOf, BeginsWithExplicit, BeginsWithImplicit, IsEncodingOf};
ghost use Rattle.asn1_core.specs.Reads.{ReadsBack, ReadsBackExplicit, ReadsBackImplicit, ReadsBackPrefix};
ghost use Rattle.asn1_core.specs.Reads.{ReadsExplicit, ReadsImplicit, ReadsPrefix, ReadsWhole};
ghost use Rattle.asn1_core.specs.Laws.{IsShort, with_more};
ghost use Rattle.std.specs.Cmp.{decided, partial_equiv_from_equiv};
ghost use Rattle.asn1_core.specs.Lemmas.Same.{place_eq_decides, read_error_eq_decides};

mod name;

use crate::tag::{LONG_FORM, Tag, explicit_tag, implicit_tag};
use crate::types::{Asn1Readable, Asn1Type, SimpleAsn1Readable, Tlv};
pub use name::FieldName;
use std::alloc::Global;
use std::error::Error;
use std::fmt;
use std::marker::Model;

/// Why input was rejected.
#[derive(Clone, Copy, Debug, PartialEq, Eq)]
pub enum ParseErrorKind {
    /// The contents octets encode no value of the type. A constructor, such as the one of a time, returns this error
    /// for numbers that make no value.
    InvalidValue,
    /// The number of a tag is encoded wrongly: in the long form (X.690 8.1.2.4) it begins with 0x80, is below 31, is
    /// 2^32 or more, or doesn't end within 19 octets.
    InvalidTag,
    /// The length octets are wrong: the length is indefinite (0x80), isn't in the fewest octets (X.690 8.1.3.5, 10.1),
    /// or has more than four further octets, which aren't read here.
    InvalidLength,
    /// A SEQUENCE OF has more or fewer items than its bounds allow.
    InvalidSize {
        /// The smallest count of items allowed.
        min: usize,
        /// The greatest count of items allowed.
        max: usize,
        /// How many items there are.
        actual: usize,
    },
    /// The element has another tag than the type.
    UnexpectedTag {
        /// The tag of the element.
        actual: Tag,
    },
    /// The input ends too early.
    ShortData {
        /// How many octets are missing at least. With them reading may still fail.
        needed: usize,
    },
    /// The integer is outside the range of its type. (A negative one is `InvalidValue` for an unsigned type.)
    IntegerOverflow,
    /// Octets remain after the value; or an item of a list has no octets.
    ExtraData,
    /// The elements of a SET aren't in the order of their tags (X.690 10.3), or those of a SET OF not in the order of
    /// their encodings (11.6).
    InvalidSetOrdering,
    /// A value that equals its DEFAULT is encoded (X.690 11.5).
    EncodedDefault,
    /// An OBJECT IDENTIFIER has more contents octets than can be stored: more than 63.
    OidTooLong,
    /// The value that defines another field, as an OBJECT IDENTIFIER does, has no known variant.
    UnknownDefinedBy,
    /// Out of memory. Only types that own memory, a box among them, return this error.
    AllocationError,
}

/// A location of an error: its position in a structure around it.
#[derive(Debug, PartialEq, Eq, Drop)]
pub enum ParseLocation {
    /// In the field with this name.
    Field(&'static str),
    /// In the item with this index, counted from 0.
    Index(usize),
}

/// How many locations an error keeps: the innermost ones.
pub const MAX_PLACES: usize = 8;

/// A location as an error keeps it, with no reference.
#[derive(Drop)]
pub enum Place {
    // First, so that the slots of a new error are zeros.
    /// In the item with this index, counted from 0.
    Index(usize),
    /// In the field with this name.
    Field(FieldName),
}

impl PartialEq for Place {
    ghost eq = { place_eq };

    ghost laws = { partial_equiv_from_equiv (decided place_eq place_eq_decides) };

    fn eq(&self, other: &Place) -> bool {
        match (self, other) {
            (Place::Field(a), Place::Field(b)) => a.as_str() == b.as_str(),
            (Place::Index(a), Place::Index(b)) => a == b,
            _ => false,
        }
    }
}

impl Eq for Place {
    ghost laws = { decided place_eq place_eq_decides };
}

impl From<ParseLocation> for Place {
    ghost from_gives = { λ location place. place ≡ place_of location };

    fn from(location: ParseLocation) -> Place {
        match location {
            ParseLocation::Field(name) => Place::Field(FieldName::new(name)),
            ParseLocation::Index(index) => Place::Index(index),
        }
    }
}

/// Why input was rejected: the kind, and the innermost [`MAX_PLACES`] locations.
#[derive(Drop)]
pub struct ParseError {
    kind: ParseErrorKind,
    // The locations, innermost first. Slots past `depth` hold anything.
    places: [Place; MAX_PLACES],
    // How many locations there are.
    depth: usize,
}

impl Model for ParseError {
    ghost use Rattle.std.specs.Prelude.{◌≡◌, ◌≤◌, length, take};
    ghost use Rattle.asn1_core.specs.declared.parser.TheConstants.{MAX_PLACES};
    ghost use Rattle.asn1_core.specs.ReadError.{ReadError};

    ghost Value = { ReadError };

    ghost view = { λ e. record { kind = e.kind; places = take e.depth e.places } };

    ghost invariant = { λ e. (e.depth ≤ MAX_PLACES) × (length e.places ≡ MAX_PLACES) };
}

/// A value, or why it could not be read.
pub type ParseResult<T> = Result<T, ParseError>;

impl ParseError {
    /// An error of this kind, without a location.
    #[inline(always)]
    pub fn new(kind: ParseErrorKind) -> ParseError
        ensures { result ≡ read_error kind }
    {
        ParseError {
            kind,
            places: [
                Place::Index(0),
                Place::Index(0),
                Place::Index(0),
                Place::Index(0),
                Place::Index(0),
                Place::Index(0),
                Place::Index(0),
                Place::Index(0),
            ],
            depth: 0,
        }
    }

    /// The error's kind.
    pub fn kind(&self) -> ParseErrorKind
        ensures { result ≡ self.now.kind }
    {
        self.kind
    }

    /// The error's locations, the innermost first.
    pub fn places(&self) -> &[Place]
        ensures { result.now ≡ self.now.places }
    {
        &self.places[..self.depth]
    }

    /// Adds a location around the locations that the error has. The innermost [`MAX_PLACES`] are kept, and further
    /// ones are dropped.
    pub fn add_location(mut self, location: ParseLocation) -> ParseError
        ensures { result ≡ within (place_of location) self }
    {
        if self.depth == MAX_PLACES {
            return self;
        }
        self.places[self.depth] = Place::from(location);
        self.depth += 1;
        self
    }
}

impl fmt::Debug for Place {
    fn fmt<W: fmt::Write>(&self, f: &mut fmt::Formatter<W>) -> fmt::Result {
        match self {
            Place::Field(name) => fmt::Debug::fmt(name.as_str(), f),
            Place::Index(index) => fmt::Debug::fmt(index, f),
        }
    }
}

/// Shows the kind, and no location.
impl fmt::Display for ParseError {
    ghost output = { λ e. error_text e.kind };

    fn fmt<W: fmt::Write>(&self, f: &mut fmt::Formatter<W>) -> fmt::Result {
        f.write_str("ASN.1 parsing error: ")?;
        match self.kind {
            ParseErrorKind::InvalidValue => f.write_str("invalid value"),
            ParseErrorKind::InvalidTag => f.write_str("invalid tag"),
            ParseErrorKind::InvalidLength => f.write_str("invalid length"),
            ParseErrorKind::InvalidSize { min, max, actual } => write!(
                f,
                "invalid container size (expected between {min} and {max}, got {actual})"
            ),
            ParseErrorKind::UnexpectedTag { actual } => {
                write!(f, "unexpected tag (got {actual:?})")
            }
            ParseErrorKind::ShortData { needed } => {
                write!(f, "short data (needed at least {needed} additional bytes)")
            }
            ParseErrorKind::IntegerOverflow => f.write_str("integer overflow"),
            ParseErrorKind::ExtraData => f.write_str("extra data"),
            ParseErrorKind::InvalidSetOrdering => f.write_str("SET value was ordered incorrectly"),
            ParseErrorKind::EncodedDefault => f.write_str("DEFAULT value was explicitly encoded"),
            ParseErrorKind::OidTooLong => f.write_str(
                "OBJECT IDENTIFIER was too large to be stored in rust-asn1's buffer",
            ),
            ParseErrorKind::UnknownDefinedBy => f.write_str("DEFINED BY with unknown value"),
            ParseErrorKind::AllocationError => f.write_str("allocation error"),
        }
    }
}

impl Error for ParseError {}

/// Shows the kind and the locations, the outermost first.
impl fmt::Debug for ParseError {
    fn fmt<W: fmt::Write>(&self, f: &mut fmt::Formatter<W>) -> fmt::Result {
        let kind = self.kind;
        write!(f, "ParseError {{ kind: {kind:?}")?;
        let mut is_first = true;
        for place in self.places().iter().rev() {
            let mark = if is_first { ", location: [" } else { ", " };
            write!(f, "{mark}{place:?}")?;
            is_first = false;
        }
        if is_first {
            f.write_str(" }")
        } else {
            f.write_str("] }")
        }
    }
}

/// Two errors are equal exactly if their kinds are, and the locations that they keep.
impl PartialEq for ParseError {
    ghost eq = { read_error_eq };

    ghost laws = { partial_equiv_from_equiv (decided read_error_eq read_error_eq_decides) };

    fn eq(&self, other: &ParseError) -> bool
        ensures value { result ≡ read_error_eq self.now other.now }
        ensures same { IsTrue result ↔ (self.now ≡ other.now) }
    {
        same_kind(self.kind, other.kind) && self.places[..self.depth] == other.places[..other.depth]
    }
}

impl Eq for ParseError {
    ghost laws = { decided read_error_eq read_error_eq_decides };
}

/// Whether two kinds are equal: the derived `==`, under a clause that names the definition.
fn same_kind(a: ParseErrorKind, b: ParseErrorKind) -> bool
    ensures { result ≡ kind_eq a b }
{
    a == b
}

/// Reads elements from octets, one after another. What it reads borrows from these octets; only `Box` and the owned
/// types allocate.
#[derive(Drop)]
pub struct Parser<'a> {
    data: &'a [u8],
    alloc: Global,
}

impl<'a> Model for Parser<'a> {
    ghost use Rattle.std.specs.Prelude.{List, ℕ};

    ghost Value = { List ℕ };

    ghost view = { λ p. p.«data».now };
}

impl<'a> Parser<'a> {
    /// A parser over `data`. Values that own memory allocate it from `alloc`.
    #[inline]
    pub fn new(alloc: Global, data: &'a [u8]) -> Parser<'a>
        ensures { result ≡ «data».entry.now }
    {
        Parser { data, alloc }
    }

    /// The allocator given to `new`. All `Global`s are equal, so the clause says that it equals any.
    #[inline]
    pub fn alloc(&self) -> Global
        ensures { (handed : Global) → result ≡ handed }
    {
        self.alloc
    }

    /// The remaining octets: those that aren't read yet.
    #[inline]
    pub fn rest(&self) -> &'a [u8]
        ensures same { result.now ≡ self.now }
        ensures octets { IsOctets self.now }
    {
        self.are_octets();
        self.data
    }

    /// Whether no octets remain.
    #[inline]
    pub fn is_empty(&self) -> bool
        ensures { result ≡ (length self.now == 0) }
    {
        self.data.is_empty()
    }

    /// The tag at the start of the remaining octets, which stay unread. `None` if the identifier octets there are
    /// incomplete, or are rejected with `InvalidTag`.
    pub fn peek_tag(&mut self) -> Option<Tag>
        ensures tag { result ≡ found_tag (leading_tag self.old) }
        ensures unmoved { self.new ≡ self.old }
    {
        match Tag::read(self.data) {
            Ok((tag, _rest)) => Some(tag),
            Err(_) => None,
        }
    }

    /// States that the remaining octets are octets.
    #[inline(always)]
    pub(crate) fn are_octets(&self)
        ensures { IsOctets self.now }
    {
        self.data.known()
    }

    /// Rejects remaining octets with `ExtraData`.
    #[inline]
    fn finish(self) -> ParseResult<()>
        ensures { result ≡ rest_rejected self.entry }
    {
        if !self.is_empty() {
            return Err(ParseError::new(ParseErrorKind::ExtraData));
        }
        Ok(())
    }

    /// Reads the next element. On an error the parser stays where it was.
    #[inline]
    pub(crate) fn read_tlv(&mut self) -> Result<Tlv<'a>, ParseErrorKind>
        ensures answers { ReturnsKind (λ t. (element_of t, self.new)) result
            (leading_element self.old) }
        ensures rest { EndsWith self.old self.new }
        ensures unmoved { OnErr result (self.new ≡ self.old) }
    {
        if let Some((tlv, rest)) = read_short_tlv(self.data) {
            self.data = rest;
            return Ok(tlv);
        }
        self.read_any_tlv()
    }

    /// What [`Self::read_tlv`] returns, for an element of any form.
    #[inline(never)]
    fn read_any_tlv(&mut self) -> Result<Tlv<'a>, ParseErrorKind>
        ensures answers { ReturnsKind (λ t. (element_of t, self.new)) result
            (leading_element self.old) }
        ensures rest { EndsWith self.old self.new }
        ensures unmoved { OnErr result (self.new ≡ self.old) }
    {
        let (tlv, rest) = read_any_tlv(self.data)?;
        self.data = rest;
        Ok(tlv)
    }

    /// Reads the next element, which must have this tag, and returns its contents octets.
    ///
    /// An error of framing leaves the parser where it was; `UnexpectedTag` leaves it after the element.
    #[inline]
    pub(crate) fn read_expected(&mut self, tag: Tag) -> Result<&'a [u8], ParseErrorKind>
        ensures answers { ReturnsKind (λ content. (content.now, self.new)) result
            (expected_contents tag self.old) }
        ensures rest { EndsWith self.old self.new }
        ensures stops { simple_stops self.old self.new }
    {
        let tlv = self.read_tlv()?;
        if !tlv.tag.is(tag) {
            return Err(ParseErrorKind::UnexpectedTag { actual: tlv.tag });
        }
        Ok(tlv.data)
    }

    /// Reads a value of the type `T`.
    ///
    /// Returns what `T` returns: the value, or the first error in the order of the input. An error leaves the parser
    /// before a suffix of its octets, as the type says: for a type with a tag of its own where it was, if framing
    /// failed, and else after the element. Only a type that allocates returns `AllocationError`.
    #[inline(always)]
    pub fn read_element<T: Asn1Readable<'a>>(&mut self) -> ParseResult<T>
        ensures answers { ReadsPrefix T.der self.old self.new result }

        // The octets that were there are the value's encoding and the octets that remain.
        ensures found { IfOk result (λ v. BeginsWithEncodingOf T.der v self.old self.new) }

        // The encoding of a value is read as that value.
        ensures only { ReadsBackPrefix T.der self.old self.new result }

        // A value that is one element is not empty, so fewer octets remain.
        ensures progress { T.der.lawful → T.der.is_element
            → IfOk result (λ _. length self.new < length self.old) }
        ensures rest { EndsWith self.old self.new }
        ensures stops { OnErr result (T.der.stops self.old self.new) }

        // A type that doesn't allocate is never out of memory.
        ensures no_memory_error { ¬ T.der.takes_memory → IfErr result IsOfInput }
    {
        T::parse(self)
    }

    /// Reads a value of the type `T` under the explicit tag with the number `tag` (X.690 8.14): an element with this
    /// tag, whose contents octets are the encoding of the value and nothing else.
    ///
    /// Errors: those of framing, which leave the parser where it was; then, with the parser after the element,
    /// `UnexpectedTag`, the first error of the value in the contents octets, and `ExtraData` if octets remain there.
    pub fn read_explicit_element<T: Asn1Readable<'a>>(&mut self, tag: u32) -> ParseResult<T>
        ensures answers { ReadsExplicit tag T.der self.old self.new result }

        // The octets that were there are the element of the value's encoding and the octets that remain.
        ensures found { IfOk result (λ v. BeginsWithExplicit tag T.der v self.old self.new) }

        // Such an element is read as that value.
        ensures only { ReadsBackExplicit tag T.der self.old self.new result }
        ensures progress { IfOk result (λ _. length self.new < length self.old) }
        ensures rest { EndsWith self.old self.new }
        ensures stops { OnErr result (simple_stops self.old self.new) }
        ensures no_memory_error { ¬ T.der.takes_memory → IfErr result IsOfInput }
    {
        self.are_octets();
        self.read_explicit(tag)
    }

    /// The same, in a function of its own so that the further clauses are proved at one return.
    #[inline(always)]
    fn read_explicit<T: Asn1Readable<'a>>(&mut self, tag: u32) -> ParseResult<T>
        ensures answers { ReadsExplicit tag T.der self.old self.new result }
        ensures rest { EndsWith self.old self.new }
        ensures stops { OnErr result (simple_stops self.old self.new) }
    {
        let content = kind_as_error(self.read_expected(explicit_tag(tag)))?;
        parse_single::<T>(self.alloc, content)
    }

    /// Reads a value of the type `T`, whose own tag is replaced by the implicit one with the number `tag` (X.690 8.14).
    ///
    /// Errors: those of framing, which leave the parser where it was; then, with the parser after the element,
    /// `UnexpectedTag`, and the first error of the contents octets.
    pub fn read_implicit_element<T: SimpleAsn1Readable<'a>>(&mut self, tag: u32) -> ParseResult<T>
        ensures answers { ReadsImplicit tag T.der self.old self.new result }

        // The octets that were there are the element of the value's contents octets and the octets that remain.
        ensures found { IfOk result (λ v. BeginsWithImplicit tag T.der v self.old self.new) }

        // Such an element is read as that value.
        ensures only { ReadsBackImplicit tag T.der self.old self.new result }
        ensures progress { IfOk result (λ _. length self.new < length self.old) }
        ensures rest { EndsWith self.old self.new }
        ensures stops { OnErr result (simple_stops self.old self.new) }
        ensures no_memory_error { ¬ T.der.takes_memory → IfErr result IsOfInput }
    {
        self.are_octets();
        self.read_implicit(tag)
    }

    /// The same, in a function of its own so that the further clauses are proved at one return.
    #[inline(always)]
    fn read_implicit<T: SimpleAsn1Readable<'a>>(&mut self, tag: u32) -> ParseResult<T>
        ensures answers { ReadsImplicit tag T.der self.old self.new result }
        ensures rest { EndsWith self.old self.new }
        ensures stops { OnErr result (simple_stops self.old self.new) }
    {
        let content = kind_as_error(self.read_expected(implicit_tag(tag, T::tag())))?;
        T::parse_data(self.alloc, content)
    }
}

/// The result with its error as a [`ParseError`] without a location.
///
/// Framing returns kinds alone. These are small, and framing spends no time on locations, which it never has.
#[inline(always)]
pub(crate) fn kind_as_error<T: Drop>(answer: Result<T, ParseErrorKind>) -> ParseResult<T>
    ensures { result ≡ framed answer }
{
    match answer {
        Ok(found) => Ok(found),
        Err(kind) => Err(ParseError::new(kind)),
    }
}

/// The number that the octets are in base 256, the most significant first.
#[inline]
pub(crate) fn number_in(octets: &[u8]) -> usize
    requires { length octets.now ≤ 8 }
    ensures { result ≡ number octets.now }
{
    let mut n = 0usize;
    for octet in octets {
        n = (n << 8) | usize::from(*octet);
    }
    n
}

/// The length at the start of the octets, and the remaining octets.
#[inline(always)]
fn read_length(octets: &[u8]) -> Result<(usize, &[u8]), ParseErrorKind>
    ensures { ReturnsKind with_rest result (leading_length octets.now) }
{
    let [first, rest @ ..] = octets else {
        return Err(ParseErrorKind::ShortData { needed: 1 });
    };
    let first = *first;
    if first < 0x80 {
        return Ok((usize::from(first), rest));
    }
    if first == 0x80 || first > 0x84 {
        return Err(ParseErrorKind::InvalidLength);
    }
    let count = usize::from(first - 0x80);
    if rest.len() < count {
        let needed = count - rest.len();
        return Err(ParseErrorKind::ShortData { needed });
    }
    let (octets, rest) = rest.split_at(count);
    let n = number_in(octets);
    if octets[0] == 0 || n < 0x80 {
        return Err(ParseErrorKind::InvalidLength);
    }
    Ok((n, rest))
}

/// Cuts off the element at the start of `data`: returns the element and the remaining octets. Allocates nothing.
///
/// The first of identifier octets, length octets and contents octets that is wrong or incomplete decides the error:
/// `InvalidTag`, `InvalidLength`, or `ShortData` with the number of octets that this part lacks at least. The error
/// has no location. A result other than `ShortData` stays the same for every longer input, except that the remaining
/// octets are longer.
///
/// ```text
/// let octets = [5u8, 0, 1].as_slice();
///
/// let (tlv, rest) = strip_tlv(octets)?;
///
/// same((tlv.full_data(), rest), (&[5, 0], &[1]))
/// ```
#[inline]
pub fn strip_tlv(data: &[u8]) -> ParseResult<(Tlv<'_>, &[u8])>
    // The result is the one that the definitions allow.
    ensures grammar { IsLeadingElement «data».now (stripped result) }
    ensures only { (answer : Result (Element × List ℕ) ParseErrorKind) → IsLeadingElement «data».now
        answer
        → stripped result ≡ answer }

    // The full data is the element's encoding, and an error has no location.
    ensures full_data { IfOk result (λ x. full_octets x.0 ≡ element_encoding (element_of x.0)) }
    ensures no_place { IfErr result (λ e. e.places ≡ []) }

    // Fewer octets remain after an element.
    ensures progress { IfOk result (λ x. length x.1.now < length «data».now) }

    // The result stays the same for every longer input, unless octets are missing.
    ensures stays { (more : List ℕ) → IsOctets more → ¬ IsShort (stripped result)
        → leading_element («data».now ++ more) ≡ with_more (stripped result) more }
    ensures fewer { (more : List ℕ) (needed : ℕ) → IsOctets more
        → stripped result ≡ Err (ShortData needed) → length more < needed
        → IsShort (leading_element («data».now ++ more)) }
    ensures exact { ReturnsPlain (λ x. (element_of x.0, x.1.now)) result
        (leading_element «data».now) }
{
    kind_as_error(read_any_tlv(data))
}

/// The element at the start of the octets, and the remaining octets.
#[inline(always)]
fn read_any_tlv(octets: &[u8]) -> Result<(Tlv<'_>, &[u8]), ParseErrorKind>
    ensures answer { ReturnsKind (λ x. (element_of x.0, x.1.now)) result
        (leading_element octets.now) }
    ensures parts { IfOk result (λ x. octets.now ≡ full_octets x.0 ++ x.1.now) }
{
    let (tag, rest) = Tag::read(octets)?;
    let (n, rest) = read_length(rest)?;
    if rest.len() < n {
        let needed = n - rest.len();
        return Err(ParseErrorKind::ShortData { needed });
    }
    Ok(cut(octets, tag, n, rest))
}

/// What [`read_any_tlv`] returns, if the element has one identifier octet and one length octet, as most have.
#[inline(always)]
fn read_short_tlv(octets: &[u8]) -> Option<(Tlv<'_>, &[u8])>
    ensures answer { IfSome result (λ x. leading_element octets.now ≡ Ok
        (element_of x.0, x.1.now)) }
    ensures parts { IfSome result (λ x. octets.now ≡ full_octets x.0 ++ x.1.now) }
{
    let [first, length, rest @ ..] = octets else {
        return None;
    };
    let low = *first & LONG_FORM;
    let n = usize::from(*length);
    if low >= LONG_FORM || n >= 0x80 || rest.len() < n {
        return None;
    }
    let tag = Tag::from_first_octet(*first, u32::from(low));
    Some(cut(octets, tag, n, rest))
}

/// The element with this tag and `n` contents octets, those at the start of `rest`; and the octets after it.
#[inline(always)]
fn cut<'a>(octets: &'a [u8], tag: Tag, n: usize, rest: &'a [u8]) -> (Tlv<'a>, &'a [u8])
    requires header { leading_element octets.now ≡ leading_content tag n rest.now }
    requires enough { n ≤ length rest.now }
    ensures answer { leading_element octets.now ≡ Ok (element_of result.0, result.1.now) }
    ensures parts { octets.now ≡ full_octets result.0 ++ result.1.now }
{
    let (data, rest) = rest.split_at(n);
    let full_data = &octets[..octets.len() - rest.len()];
    (
        Tlv {
            tag,
            data,
            full_data,
        },
        rest,
    )
}

/// Reads `data` by `f`, which is given a parser over it, and returns what `f` returns.
///
/// Errors: an error of `f` is returned as it is; if `f` returns a value and octets remain, the error is `ExtraData`,
/// converted by `E::from`. The caller has to prove that `f` may always be called (`requires`).
///
/// ```text
/// let pair = parse(alloc, &[1, 1, 0xff, 1, 1, 0], |parser| -> ParseResult<(bool, bool)> {
///     Ok((parser.read_element::<bool>()?, parser.read_element::<bool>()?))
/// })?;
/// ```
#[inline]
pub fn parse<'a, T: Drop, E: From<ParseError> + Drop, F: FnOnce(&mut Parser<'a>) -> Result<T, E>>(
    alloc: Global,
    data: &'a [u8],
    f: F,
) -> Result<T, E>
    requires { F.IsAlwaysCallable f }
    ensures { ReadsBy F.FnOnce E.from_gives f «data».entry.now result }
{
    let mut parser = Parser::new(alloc, data);
    let answer = f(&mut parser)?;
    parser.finish()?;
    Ok(answer)
}

/// Reads one value of the type `T`, whose encoding has to be the whole of `data`.
///
/// For a lawful type a value is returned exactly if `data` is its one encoding (`found`, `only`). All other input is
/// rejected with the type's first error in the order of the input, or with `ExtraData` if octets remain after a
/// value. Only a type that allocates returns `AllocationError`.
///
/// ```text
/// let value = parse_single::<bool>(alloc, &[0x01, 0x01, 0xff])?;
/// ```
#[inline(always)]
pub fn parse_single<'a, T: Asn1Readable<'a>>(alloc: Global, data: &'a [u8]) -> ParseResult<T>
    ensures exact { ReadsWhole T.der «data».entry.now result }

    // A value that is returned has these octets as its encoding.
    ensures found { IfOk result (λ v. IsEncodingOf T.der v «data».entry.now) }

    // The encoding of a value is read as that value.
    ensures only { ReadsBack T.der «data».entry.now result }

    // Octets that encode a value are read, if the type doesn't allocate.
    ensures some { T.der.lawful → ¬ T.der.takes_memory → (m : T.der.Meaning) → T.der.valid m
        → T.der.allowed m → Fits (T.der.encoding m) → «data».entry.now ≡ T.der.encoding m
        → IsOk result }

    // They are the encoding of no other valid value, be it within the bounds of the type or not.
    ensures one { T.der.lawful → (m : T.der.Meaning) → T.der.valid m
        → «data».entry.now ≡ T.der.encoding m → IfOk result (λ v. T.der.meaning v ≡ m) }

    // A type that doesn't allocate is never out of memory.
    ensures no_memory_error { ¬ T.der.takes_memory → IfErr result IsOfInput }
{
    // Its contract says that values of the type are read.
    let _accepted = T::can_parse(Tag::primitive(0));
    read_single(alloc, data)
}

/// Reads one value and nothing after it. It is a function of its own so that the clauses of [`parse_single`] are
/// proved at one return.
#[inline(always)]
fn read_single<'a, T: Asn1Readable<'a>>(alloc: Global, data: &'a [u8]) -> ParseResult<T>
    ensures { ReadsWhole T.der «data».entry.now result }
{
    let mut parser = Parser::new(alloc, data);
    let value = parser.read_element::<T>()?;
    parser.finish()?;
    Ok(value)
}
