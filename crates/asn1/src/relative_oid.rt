//! RELATIVE-OID (X.690 8.20).

ghost use Rattle.std.specs.Prelude.{◌≡◌, ◌∷◌, ◌<◌, IsTrue, true, Some, length, is_some};
ghost use Rattle.asn1_core.specs.Base128.{leading_number};
ghost use Rattle.asn1_core.specs.Reading.{Returns};
ghost use Rattle.asn1_core.specs.Reads.{ReadsContents};
ghost use Rattle.asn1_core.specs.Tag.{universal};
ghost use Rattle.asn1_core.specs.Writing.{GivesLength};
ghost use Rattle.asn1_core.specs.Der.{simple_der};
ghost use Rattle.asn1_values.specs.Identifier.{identifier_content, numbers_in};
ghost use Rattle.asn1.specs.Relative.{IsRelative, IsRelativeForm, arcs_text, read_relative};

use asn1_core::{
    Asn1Type, ParseError, ParseErrorKind, ParseResult, SimpleAsn1Readable, SimpleAsn1Writable, Tag,
    WriteBuf, WriteError, WriteResult, base128,
};
use std::alloc::Global;
use std::fmt;

/// Whether the octets are a concatenation of arcs in base 128.
fn are_arcs(octets: &[u8]) -> bool
    ensures { result ≡ is_some (numbers_in octets.now) }
{
    let mut rest = octets;
    while !rest.is_empty() {
        match base128::read(rest) {
            Ok((_, after)) => rest = after,
            Err(_) => return false,
        }
    }
    true
}

/// The arc at the start of the octets, which are a concatenation of arcs in base 128, and the remaining octets.
fn first_arc(octets: &[u8]) -> (u128, &[u8])
    requires some { 0 < length octets.now }
    requires arcs { is_some (numbers_in octets.now) ≡ true }
    ensures { leading_number octets.now ≡ Ok (result.0, result.1.now) }
{
    match base128::read(octets) {
        Ok(found) => found,
        Err(_) => unreachable!(),
    }
}

/// RELATIVE-OID (X.690 8.20; universal 13): the arcs that lead to a node of the tree of object identifiers from another
/// one, which both sides know. It is borrowed from the input.
///
/// Its contents octets are one or more arcs in base 128, each in the fewest octets. Unlike the first number of an
/// OBJECT IDENTIFIER, each stands for one arc. Here arcs are below 2^128. Reading rejects other contents octets with
/// `InvalidValue`.
///
/// ```text
/// let relative = RelativeOid::from_der(&[0xc2, 0x7b, 0x03, 0x02])?;
/// is_displayed(alloc, &relative, "8571.3.2")?;
/// let rest = RelativeOid::from_der(&[0x03, 0x02])?;
/// assert!(rt; relative.split_first() == (8571, Some(rest)));
/// ```
#[derive(Clone, Copy, PartialEq, Eq, Hash)]
pub struct RelativeOid<'a> {
    octets: &'a [u8],
    pub ghost is_content: { IsRelativeForm octets.now },
}

impl<'a> RelativeOid<'a> {
    ghost use Rattle.asn1.specs.RelativeValues.{relative_arcs, left_arcs};

    /// The relative identifier with these contents octets. The error is `InvalidValue`, without a location, if there
    /// are none, or if they aren't arcs in base 128, each below 2^128 and in the fewest octets.
    pub fn from_der(octets: &'a [u8]) -> ParseResult<RelativeOid<'a>>
        ensures { Returns relative_arcs (λ _. ⊥) result (read_relative octets.entry.now) }
    {
        if octets.is_empty() || !are_arcs(octets) {
            return Err(ParseError::new(ParseErrorKind::InvalidValue));
        }
        Ok(RelativeOid { octets })
    }

    /// The contents octets, at least one.
    pub fn as_der(&self) -> &'a [u8]
        ensures content { result.now ≡ identifier_content (relative_arcs self.now) }
        ensures value { IsRelative (relative_arcs self.now) }
    {
        self.octets
    }

    /// The first arc, and the arcs after it if there are any.
    pub fn split_first(&self) -> (u128, Option<RelativeOid<'a>>)
        ensures { relative_arcs self.now ≡ result.0 ∷ left_arcs result.1 }
    {
        let (arc, rest) = first_arc(self.octets);
        if rest.is_empty() {
            return (arc, None);
        }
        (arc, Some(RelativeOid { octets: rest }))
    }
}

/// Shows the arcs in decimal, with points between them.
impl fmt::Display for RelativeOid<'_> {
    ghost use Rattle.asn1.specs.RelativeValues.{relative_arcs};

    ghost output = { λ o. Some (arcs_text (relative_arcs o)) };

    fn fmt<W: fmt::Write>(&self, f: &mut fmt::Formatter<W>) -> fmt::Result {
        let (arc, mut rest) = first_arc(self.octets);
        write!(f, "{arc}")?;
        while !rest.is_empty() {
            let (arc, after) = first_arc(rest);
            write!(f, ".{arc}")?;
            rest = after;
        }
        Ok(())
    }
}

/// The dotted form, as `Debug` shows it.
#[derive(Drop)]
struct Arcs<'a, 'b>(&'b RelativeOid<'a>);

impl fmt::Debug for Arcs<'_, '_> {
    fn fmt<W: fmt::Write>(&self, f: &mut fmt::Formatter<W>) -> fmt::Result {
        fmt::Display::fmt(self.0, f)
    }
}

impl fmt::Debug for RelativeOid<'_> {
    fn fmt<W: fmt::Write>(&self, f: &mut fmt::Formatter<W>) -> fmt::Result {
        f.debug_tuple("RelativeOid").field(&Arcs(self)).finish()
    }
}

impl<'a> Asn1Type for RelativeOid<'a> {
    ghost use Rattle.asn1.specs.RelativeValues.{relative_arcs, relative_content};
    ghost use Rattle.asn1.specs.LawsOf.Relative.{relative_laws};

    ghost der = { simple_der relative_arcs relative_content relative_laws };

    fn known(&self) {}
}

impl<'a> SimpleAsn1Readable<'a> for RelativeOid<'a> {
    fn tag() -> Tag
        ensures value { result ≡ universal 13 }
        ensures simple { Unit {0} }
        ensures plain { Unit {0} }
        ensures read { Unit {0} }
    {
        Tag::primitive(0x0d)
    }

    fn parse_data(_alloc: Global, data: &'a [u8]) -> ParseResult<RelativeOid<'a>>
        ensures { ReadsContents ⟦<RelativeOid<'a> as Asn1Type>⟧.der «data».entry.now result }
    {
        RelativeOid::from_der(data)
    }
}

impl SimpleAsn1Writable for RelativeOid<'_> {
    ghost use Rattle.asn1.specs.RelativeValues.{relative_arcs, relative_content};

    type Error = WriteError;

    ghost length_known = { λ _. Unit {0} };

    fn tag() -> Tag
        ensures value { result ≡ universal 13 }
        ensures simple { Unit {0} }
    {
        Tag::primitive(0x0d)
    }

    fn write_data(&self, dest: &mut WriteBuf) -> WriteResult<()> {
        dest.push_slice(self.as_der())
    }

    fn data_length(&self) -> Option<usize>
        ensures known { GivesLength (Unit {0}) (relative_content.encodings (relative_arcs self.now))
            result }
        ensures exact { result ≡ Some (length (identifier_content (relative_arcs self.now))) }
    {
        Some(self.as_der().len())
    }

    fn writes_as_read() -> bool
        ensures { IsTrue result }
    {
        true
    }
}
