//! Octets of a stream are cut into elements, and no element is split (X.690 8.1.1).
//!
//! It shows `strip_tlv` in an iterator of one's own. The iterator's ghost members say what each step hands on and what
//! remains, so std's methods say it of all steps, and a loop over it ends.

ghost use Rattle.std.specs.Prelude.{◌≡◌, ℕ, IfOk, List, length};
ghost use Rattle.std.specs.Iterator.{TryForEachTurn, at_most};
ghost use Rattle.asn1.specs.Element.{leading_element};
ghost use Rattle.asn1.specs.declared.Tlv.{Tlv};
ghost use Rattle.uses.specs.Framing.{AreCut, CutsOff, TakesEach, lacking};

use asn1::{ParseErrorKind, Tlv, strip_tlv};
use std::alloc::{AllocError, Global};
use std::marker::Model;
use std::ops::Try;

/// The elements at the start of octets, one after another.
#[derive(Drop)]
pub struct Elements<'a> {
    rest: &'a [u8],
}

impl<'a> Model for Elements<'a> {
    ghost use Rattle.std.specs.Prelude.{ℕ, List};

    ghost Value = { List ℕ };

    ghost view = { λ elements. elements.rest.now };
}

impl<'a> Elements<'a> {
    /// Those at the start of these octets.
    pub fn new(octets: &'a [u8]) -> Elements<'a>
        ensures { result ≡ octets.entry.now }
    {
        Elements { rest: octets }
    }

    /// The octets that remain.
    pub fn rest(&self) -> &'a [u8]
        ensures { result.now ≡ self.now }
    {
        self.rest
    }
}

impl<'a> Iterator for Elements<'a> {
    type Item = Tlv<'a>;

    ghost next_gives = { CutsOff };

    ghost remaining = { λ octets. at_most (length octets) };

    fn next(&mut self) -> Option<Tlv<'a>> {
        let (element, rest) = strip_tlv(self.rest).ok()?;
        self.rest = rest;
        Some(element)
    }
}

/// The elements at the start of the octets, as many as are whole.
pub fn whole_elements<'a>(alloc: Global, octets: &'a [u8]) -> Result<Vec<Tlv<'a>>, AllocError>
    ensures { IfOk result (λ all. (rest : List ℕ) × AreCut octets.entry.now all.items rest) }
{
    Elements::new(octets).collect(alloc)
}

/// Hands on each whole element at the start of the octets, and returns the octets after the last. An error of
/// `hand_on` ends it.
pub fn each_element<'a, E, F: FnMut(Tlv<'a>) -> Result<(), E>>(
    octets: &'a [u8],
    hand_on: F,
) -> Result<&'a [u8], E>
    requires { F.IsAlwaysCallable hand_on }
    ensures { IfOk result (λ rest. (all : List Tlv) × AreCut octets.entry.now all rest.now
        × TakesEach (TryForEachTurn F.FnMut ⟦<Result<(), E> as Try>⟧.branch_gives) hand_on all) }
{
    let mut elements = Elements::new(octets);
    elements.try_for_each(hand_on)?;
    Ok(elements.rest())
}

/// How many octets are missing at least, if the octets begin with an unfinished element.
pub fn missing(octets: &[u8]) -> Option<usize>
    ensures { result ≡ lacking (leading_element octets.now) }
{
    match strip_tlv(octets).err()?.kind() {
        ParseErrorKind::ShortData { needed } => Some(needed),
        _ => None,
    }
}
