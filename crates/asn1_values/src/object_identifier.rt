//! OBJECT IDENTIFIER (X.690 8.19), and its dotted form in decimal.

ghost use Rattle.std.specs.Prelude.{◌≡◌, ◌+◌, ◌<◌, ◌≤◌, ◌^◌, ◌∷◌};
ghost use Rattle.std.specs.Prelude.{IfSome, option_map, length, true, Some, take, is_some};
ghost use Rattle.std.specs.Prelude.{MatchOption};
ghost use Rattle.asn1_core.specs.declared.parser.ParseErrorKind.{ParseErrorKind};
ghost use Rattle.asn1_core.specs.Base128.{leading_number, number_octets};
ghost use Rattle.asn1_core.specs.Reading.{Returns, Fits};
ghost use Rattle.asn1_core.specs.Element.{element, element_encoding};
ghost use Rattle.asn1_core.specs.Tag.{universal};
ghost use Rattle.asn1_core.specs.Der.{simple_der};
ghost use Rattle.asn1_values.specs.Identifier.{identifier_content, identifier_numbers, numbers_in, read_identifier};
ghost use Rattle.asn1_values.specs.Identifier.{IsIdentifierForm, IsIdentifier, dotted_text, part_number, text_numbers};
ghost use Rattle.asn1_values.specs.Identifier.{first_of, and_then, if_few, read_dotted};
ghost use Rattle.asn1_values.specs.IdentifierSteps.{AppendsNumber, first_text, left_numbers, left_size};
ghost use Rattle.std.specs.Fmt.{DisplaysOnOk};

use asn1_core::{
    Asn1Type, ParseError, ParseErrorKind, ParseResult, SimpleAsn1Readable, SimpleAsn1Writable, Tag,
    WriteBuf, WriteError, WriteResult, base128,
};
use std::alloc::Global;
use std::fmt;

/// How many contents octets there are at most.
const MAX_OCTETS: usize = 63;

/// The number in base 128 at the start of the octets, and the remaining octets. `None` if there is no number.
fn number_before(octets: &[u8]) -> Option<(u128, &[u8])>
    ensures { MatchOption result ((kind : ParseErrorKind) × (leading_number octets.now ≡ Err kind))
        (λ x. leading_number octets.now ≡ Ok (x.0, x.1.now)) }
{
    base128::read(octets).ok()
}

/// The number at the start of the octets, which are a concatenation of numbers in base 128, and the remaining octets.
fn first_number(octets: &[u8]) -> (u128, &[u8])
    requires some { 0 < length octets.now }
    requires numbers { is_some (numbers_in octets.now) ≡ true }
    ensures number { leading_number octets.now ≡ Ok (result.0, result.1.now) }
{
    match number_before(octets) {
        Some(found) => found,
        None => unreachable!(),
    }
}

/// Whether the octets are a concatenation of numbers in base 128.
fn are_numbers(octets: &[u8]) -> bool
    ensures { result ≡ is_some (numbers_in octets.now) }
{
    let mut rest = octets;
    while !rest.is_empty() {
        match number_before(rest) {
            Some((_, after)) => rest = after,
            None => return false,
        }
    }
    true
}

/// The number of a part between dots.
fn part_number(part: &str) -> Option<u128>
    ensures { result ≡ part_number part.now }
{
    match part.parse::<u128>() {
        Ok(number) => Some(number),
        Err(_) => None,
    }
}

/// The number at the start of a dotted form, and what follows its dot if there is one.
fn next_part(text: &str) -> Option<(u128, Option<&str>)>
    ensures value { MatchOption result (text_numbers text.now ≡ None)
        (λ x. text_numbers text.now ≡ option_map (λ numbers. x.0 ∷ numbers) (left_numbers x.1)) }
    ensures shorter { IfSome result (λ x. left_size x.1 ≤ length text.now) }
    ensures small { IfSome result (λ x. x.0 < 2 ^ 128) }
{
    match text.split_once('.') {
        Some((part, rest)) => {
            let number = part_number(part)?;
            Some((number, Some(rest)))
        }
        None => {
            let number = part_number(text)?;
            Some((number, None))
        }
    }
}

/// The first encoded number, for the first two numbers of the dotted form (8.19.4).
fn first_of(first: u128, second: u128) -> Option<u128>
    ensures { result ≡ first_of first second }
{
    if first > 2 {
        return None;
    }
    if first < 2 && second >= 40 {
        return None;
    }
    (40 * first).checked_add(second)
}

/// OBJECT IDENTIFIER (X.690 8.19; universal 6).
///
/// Its contents octets are one or more numbers in base 128, each in the fewest octets. The first number encodes the
/// first two of the identifier (8.19.4). Here numbers are below 2^128, and there are 1 to 63 contents octets, copied
/// and kept in place. Reading rejects more octets with `OidTooLong`, and other contents octets with `InvalidValue`.
///
/// ```text
/// let identifier = ObjectIdentifier::from_string("1.+2.03").ok_or(NONE)?;
/// same(identifier.as_der(), &[0x2a, 0x03])?;
/// is_displayed(alloc, &identifier, "1.2.3")
/// ```
#[derive(Clone, Copy, PartialEq, Eq, Hash)]
pub struct ObjectIdentifier {
    octets: [u8; MAX_OCTETS],
    count: u8,
    pub ghost is_content: { IsIdentifierForm octets count },
}

/// Writes a number in base 128 after the first `count` octets, and returns how many octets there are then. `None` if
/// there is no room for the number.
fn append_number(octets: &mut [u8; MAX_OCTETS], count: usize, number: u128) -> Option<usize>
    requires { count ≤ 63 }
    ensures { MatchOption result (63 < count + length (number_octets number))
        (AppendsNumber count number octets.old octets.new) }
{
    let added = base128::write(number, &mut octets[count..])?;
    Some(count + added)
}

impl ObjectIdentifier {
    ghost use Rattle.asn1_values.specs.IdentifierValues.{oid_octets, identifier_of};

    /// The identifier with this first encoded number, and with those of the dotted form after it.
    fn with_others(first: u128, mut rest: Option<&str>) -> Option<ObjectIdentifier>
        ensures { option_map identifier_of result
            ≡ and_then (option_map (λ numbers. first ∷ numbers) (left_numbers rest.entry)) if_few }
    {
        let mut octets = [0; MAX_OCTETS];
        let mut count = append_number(&mut octets, 0, first)?;
        while let Some(text) = rest {
            let (number, after) = next_part(text)?;
            count = append_number(&mut octets, count, number)?;
            rest = after;
        }
        Some(ObjectIdentifier {
            octets,
            count: count as u8,
        })
    }

    /// The identifier with this dotted form: two or more decimal numbers with dots between them, for example
    /// `1.2.840.113549`. The first is 0, 1 or 2, and the second is below 40 if the first is 0 or 1. As in Rust's
    /// numbers, each may begin with a plus sign, with zeros, or with both.
    ///
    /// `None` for any other string; if a number, or the sum of the second and 40 times the first, is 2^128 or more; and
    /// if there would be more than 63 contents octets.
    pub fn from_string(text: &str) -> Option<ObjectIdentifier>
        ensures { option_map identifier_of result ≡ read_dotted text.now }
    {
        let (first, rest) = next_part(text)?;
        let (second, rest) = next_part(rest?)?;
        let number = first_of(first, second)?;
        ObjectIdentifier::with_others(number, rest)
    }

    /// The identifier with these contents octets. Errors: `OidTooLong` if there are more than 63; else `InvalidValue`
    /// if there are none, or if they aren't numbers in base 128, each below 2^128 and in the fewest octets.
    #[inline(always)]
    pub fn from_der(octets: &[u8]) -> ParseResult<ObjectIdentifier>
        ensures { Returns identifier_of (λ _. ⊥) result (read_identifier octets.now) }
    {
        if octets.len() > MAX_OCTETS {
            return Err(ParseError::new(ParseErrorKind::OidTooLong));
        }
        if octets.is_empty() || !are_numbers(octets) {
            return Err(ParseError::new(ParseErrorKind::InvalidValue));
        }
        let mut all = [0; MAX_OCTETS];
        all[..octets.len()].copy_from_slice(octets);
        Ok(ObjectIdentifier {
            octets: all,
            count: octets.len() as u8,
        })
    }

    /// The identifier whose contents octets are the first `count` of `octets`. The caller has to prove that these are
    /// contents octets of an identifier, 1 to 63, and that those after them are zero (`requires`); nothing is tested at
    /// run time.
    pub const fn from_der_unchecked(octets: [u8; MAX_OCTETS], count: u8) -> ObjectIdentifier
        requires { IsIdentifierForm octets count }
        ensures { identifier_of result ≡ identifier_numbers (take count octets) }
    {
        ObjectIdentifier { octets, count }
    }

    /// The contents octets: 1 to 63.
    pub fn as_der(&self) -> &[u8]
        ensures octets { result.now ≡ oid_octets self.now }
        ensures content { result.now ≡ identifier_content (identifier_of self.now) }
        ensures value { IsIdentifier (identifier_of self.now) }
    {
        &self.octets[..usize::from(self.count)]
    }
}

/// Shows the two numbers that the first encoded number of an identifier encodes.
fn show_first<W: fmt::Write>(first: u128, f: &mut fmt::Formatter<W>) -> fmt::Result
    ensures { DisplaysOnOk W.write_str_gives f.old result (Some (first_text first)) f.new }
{
    if first < 80 {
        let (high, low) = (first / 40, first % 40);
        write!(f, "{high}.{low}")
    } else {
        let low = first - 80;
        write!(f, "2.{low}")
    }
}

/// Shows the dotted form.
impl fmt::Display for ObjectIdentifier {
    ghost use Rattle.asn1_values.specs.IdentifierValues.{identifier_of};

    ghost output = { λ o. Some (dotted_text (identifier_of o)) };

    fn fmt<W: fmt::Write>(&self, f: &mut fmt::Formatter<W>) -> fmt::Result {
        let (first, mut rest) = first_number(self.as_der());
        show_first(first, f)?;
        while !rest.is_empty() {
            let (number, after) = first_number(rest);
            write!(f, ".{number}")?;
            rest = after;
        }
        Ok(())
    }
}

/// The dotted form, as `Debug` shows it.
#[derive(Drop)]
struct Numbers<'a>(&'a ObjectIdentifier);

impl fmt::Debug for Numbers<'_> {
    fn fmt<W: fmt::Write>(&self, f: &mut fmt::Formatter<W>) -> fmt::Result {
        fmt::Display::fmt(self.0, f)
    }
}

impl fmt::Debug for ObjectIdentifier {
    fn fmt<W: fmt::Write>(&self, f: &mut fmt::Formatter<W>) -> fmt::Result {
        f.debug_struct("ObjectIdentifier")
            .field("oid", &Numbers(self))
            .finish()
    }
}

impl Asn1Type for ObjectIdentifier {
    ghost use Rattle.asn1_values.specs.IdentifierValues.{identifier_of, identifier_basic};
    ghost use Rattle.asn1_values.specs.LawsOf.Values.{identifier_laws};

    ghost der = { simple_der identifier_of identifier_basic identifier_laws };

    fn known(&self)
        ensures valid { identifier_basic.valid (identifier_of self.now) }
        ensures fits { Fits (element_encoding (element (universal 6)
            (identifier_content (identifier_of self.now)))) }
    {}
}

impl<'a> SimpleAsn1Readable<'a> for ObjectIdentifier {
    fn tag() -> Tag {
        Tag::primitive(0x06)
    }

    #[inline(always)]
    fn parse_data(_alloc: Global, data: &'a [u8]) -> ParseResult<ObjectIdentifier> {
        ObjectIdentifier::from_der(data)
    }
}

impl SimpleAsn1Writable for ObjectIdentifier {
    ghost use Rattle.asn1_values.specs.IdentifierValues.{identifier_of};

    type Error = WriteError;

    ghost length_known = { λ _. Unit {0} };

    fn tag() -> Tag {
        Tag::primitive(0x06)
    }

    fn write_data(&self, dest: &mut WriteBuf) -> WriteResult<()> {
        dest.push_slice(self.as_der())
    }

    fn data_length(&self) -> Option<usize>
        ensures { result ≡ Some (length (identifier_content (identifier_of self.now))) }
    {
        Some(self.as_der().len())
    }

    fn writes_as_read() -> bool {
        true
    }
}
