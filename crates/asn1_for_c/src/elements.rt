//! The element at the start of octets.

ghost use Rattle.std.specs.Prelude.{◌≡◌, ◌+◌, ◌<◌, ◌≤◌, ◌++◌, ℕ, List, length, Result};
ghost use Rattle.asn1.specs.declared.ParseErrorKind.{ParseErrorKind};
ghost use Rattle.asn1.specs.Element.{Element, IsLeadingElement, leading_element};
ghost use Rattle.asn1.specs.Laws.{IsShort};
ghost use Rattle.asn1.specs.Base256.{IsOctets};
ghost use Rattle.asn1.specs.Tlv.{element_of, stripped};
ghost use Rattle.asn1_for_c.specs.Elements.{Leaves, shown_element};

use crate::errors::{Asn1Error, class_number, error_of};
use asn1::{ParseResult, Tlv, strip_tlv};

/// What octets begin with: the tag of an element, and how many octets it has.
#[repr(C)]
#[derive(Drop)]
pub struct Asn1Element {
    /// The number of the tag.
    pub number: u32,
    /// The class of the tag: 0 to 3, as in the identifier octets.
    pub class: u8,
    /// Whether the encoding is constructed.
    pub constructed: bool,
    /// How many identifier and length octets there are.
    pub header_length: usize,
    /// How many contents octets there are.
    pub contents_length: usize,
}

/// What is shown of an element.
fn shown(tlv: &Tlv<'_>) -> Asn1Element
    ensures { result ≡ shown_element (element_of tlv.now) }
{
    Asn1Element {
        number: tlv.tag().value(),
        class: class_number(tlv.tag().class()),
        constructed: tlv.tag().is_constructed(),
        header_length: tlv.full_data().len().saturating_sub(tlv.data().len()),
        contents_length: tlv.data().len(),
    }
}

/// Sets what a result says: the element, or its error.
fn tell(found: &ParseResult<(Tlv<'_>, &[u8])>, element: &mut Asn1Element, error: &mut Asn1Error)
    ensures { Leaves element.old element.new error.new (stripped found.now) }
{
    match found {
        Ok((tlv, _rest)) => {
            *element = shown(tlv);
            *error = Asn1Error::without_details(0);
        }
        Err(fault) => *error = error_of(fault.kind()),
    }
}

/// Cuts off the element at the start of the octets, as `asn1::strip_tlv` does. Returns 0 and sets `element`; or returns
/// the number of the error and leaves `element`. Sets `error` in each case.
pub fn asn1_strip_tlv(octets: &[u8], element: &mut Asn1Element, error: &mut Asn1Error) -> u32
    // The result is the one that the definitions allow.
    ensures grammar { (answer : Result (Element × List ℕ) ParseErrorKind)
        × IsLeadingElement octets.now answer × Leaves element.old element.new error.new answer }
    ensures only { (answer : Result (Element × List ℕ) ParseErrorKind)
        → IsLeadingElement octets.now answer → Leaves element.old element.new error.new answer }
    ensures number { result ≡ error.new.number }

    // The element is within the octets.
    ensures within { result ≡ 0
        → element.new.header_length + element.new.contents_length ≤ length octets.now }

    // The result stays the same for every longer input, unless octets are missing.
    ensures stays { (more : List ℕ) → IsOctets more → ¬ (result ≡ 6)
        → Leaves element.old element.new error.new (leading_element (octets.now ++ more)) }
    ensures fewer { (more : List ℕ) → IsOctets more → result ≡ 6
        → length more < error.new.needed → IsShort (leading_element (octets.now ++ more)) }
    ensures exact { Leaves element.old element.new error.new (leading_element octets.now) }
{
    let found = strip_tlv(octets);
    tell(&found, element, error);
    error.number
}
