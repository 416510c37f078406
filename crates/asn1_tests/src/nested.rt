//! Lists in one another: the locations of an error, of which the innermost eight are kept.

ghost use Rattle.std.specs.Prelude.{◌≡◌};
ghost use Rattle.asn1.specs.Der.{viewed};
ghost use Rattle.asn1.specs.Listing.{sequence_tag};
ghost use Rattle.asn1.specs.Reading.{Returns};

use crate::lists::{List, is_refused};
use asn1::{
    Asn1Type, ParseError, ParseErrorKind, ParseLocation, ParseResult, SimpleAsn1Readable, Tag,
};
use std::alloc::Global;
use std::test::Fail;

type Four<'a> = List<'a, List<'a, List<'a, List<'a, bool>>>>;

/// Four lists in one another, under a name of their own: a check of more at once takes many steps.
#[derive(Drop)]
struct Inner<'a>(Four<'a>);

impl<'a> Asn1Type for Inner<'a> {
    ghost der = { viewed (λ v. v.0) ⟦<Four<'a> as Asn1Type>⟧.der };

    fn known(&self) {
        self.0.known()
    }
}

impl<'a> SimpleAsn1Readable<'a> for Inner<'a> {
    fn tag() -> Tag
        ensures value { result ≡ sequence_tag }
        ensures simple { Unit {0} }
        ensures plain { Unit {0} }
        ensures read { Unit {0} }
    {
        Tag::constructed(0x10)
    }

    fn parse_data(alloc: Global, data: &'a [u8]) -> ParseResult<Inner<'a>>
        ensures { Returns (λ v. ⟦<Four<'a> as Asn1Type>⟧.der.meaning v.0)
            (⟦<Four<'a> as Asn1Type>⟧.der.content.runs_out «data».entry.now) result
            (⟦<Four<'a> as Asn1Type>⟧.der.content.read «data».entry.now) }
    {
        match <Four<'a>>::parse_data(alloc, data) {
            Ok(list) => Ok(Inner(list)),
            Err(error) => Err(error),
        }
    }
}

/// `InvalidValue` with this many locations, each the first item of a list.
fn in_first_items(count: usize) -> ParseError {
    let mut error = ParseError::new(ParseErrorKind::InvalidValue);
    for _ in 0..count {
        error = error.add_location(ParseLocation::Index(0));
    }
    error
}

#[test]
fn five_and_six_lists_in_one_another(rt: HostRuntime) -> Result<(), Fail> {
    let octets: &[u8] = &[
        0x30, 0x0b, 0x30, 0x09, 0x30, 0x07, 0x30, 0x05, 0x30, 0x03, 0x01, 0x01, 0x01,
    ];
    is_refused::<List<'_, Inner<'_>>>(rt.alloc(), octets, in_first_items(5))?;
    let octets: &[u8] = &[
        0x30, 0x0d, 0x30, 0x0b, 0x30, 0x09, 0x30, 0x07, 0x30, 0x05, 0x30, 0x03, 0x01, 0x01, 0x01,
    ];
    is_refused::<List<'_, List<'_, Inner<'_>>>>(rt.alloc(), octets, in_first_items(6))
}

type Five<'a> = List<'a, List<'a, List<'a, List<'a, List<'a, Inner<'a>>>>>>;

#[test]
fn nine_lists_in_one_another(rt: HostRuntime) -> Result<(), Fail> {
    let octets: &[u8] = &[
        0x30, 0x13, 0x30, 0x11, 0x30, 0x0f, 0x30, 0x0d, 0x30, 0x0b, 0x30, 0x09, 0x30, 0x07, 0x30,
        0x05, 0x30, 0x03, 0x01, 0x01, 0x01,
    ];
    is_refused::<Five<'_>>(rt.alloc(), octets, in_first_items(8))
}
