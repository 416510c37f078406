//! Nested lists around a structure: the locations of an error in a field.

ghost use Rattle.std.specs.Prelude.{◌≡◌};
ghost use Rattle.asn1.specs.Der.{viewed};
ghost use Rattle.asn1.specs.Listing.{sequence_tag};
ghost use Rattle.asn1.specs.Reading.{Returns};

use asn1::{
    Asn1Type, ParseError, ParseErrorKind, ParseLocation, ParseResult, SequenceOf,
    SimpleAsn1Readable, Tag,
};
use dercheck::own_types::signature::Signature;
use std::alloc::Global;
use std::test::Fail;
use testing::are_refused_with;

/// A list of any count of items.
type List<'a, T> = SequenceOf<'a, T, 0, { usize::MAX }>;

type Three<'a> = List<'a, List<'a, List<'a, Signature>>>;

/// Three nested lists as a type of their own: a check of five at once takes too many steps.
#[derive(Drop)]
struct Inner<'a>(Three<'a>);

impl<'a> Asn1Type for Inner<'a> {
    ghost der = { viewed (λ v. v.0) ⟦<Three<'a> as Asn1Type>⟧.der };

    fn known(&self) {
        self.0.known()
    }
}

impl<'a> SimpleAsn1Readable<'a> for Inner<'a> {
    fn tag() -> Tag
        ensures value { result ≡ sequence_tag }
        ensures simple { Unit {0} }
        ensures plain { ⟦<Three<'a> as Asn1Type>⟧.der.plain }
        ensures read { ⟦<Three<'a> as Asn1Type>⟧.der.is_read }
    {
        <Three<'a> as SimpleAsn1Readable<'a>>::tag()
    }

    fn parse_data(alloc: Global, data: &'a [u8]) -> ParseResult<Inner<'a>>
        ensures { Returns (λ v. ⟦<Three<'a> as Asn1Type>⟧.der.meaning v.0)
            (⟦<Three<'a> as Asn1Type>⟧.der.content.runs_out «data».entry.now) result
            (⟦<Three<'a> as Asn1Type>⟧.der.content.read «data».entry.now) }
    {
        match <Three<'a>>::parse_data(alloc, data) {
            Ok(list) => Ok(Inner(list)),
            Err(error) => Err(error),
        }
    }
}

#[test]
fn five_lists_around_a_structure(rt: HostRuntime) -> Result<(), Fail> {
    let octets: &[u8] = &[
        0x30, 0x10, 0x30, 0x0e, 0x30, 0x0c, 0x30, 0x0a, 0x30, 0x08, 0x30, 0x06, 0x02, 0x01, 0x01,
        0x01, 0x01, 0xff,
    ];
    let kind = ParseErrorKind::UnexpectedTag {
        actual: Tag::primitive(1),
    };
    let mut error = ParseError::new(kind).add_location(ParseLocation::Field("Signature::s"));
    for _ in 0..5 {
        error = error.add_location(ParseLocation::Index(0));
    }
    are_refused_with::<List<'_, List<'_, Inner<'_>>>>(rt.alloc(), &[(octets, error)])
}
