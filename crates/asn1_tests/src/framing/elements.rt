use crate::framing::errors::KINDS;
use asn1_core::parser::{
    ParseError, ParseErrorKind, ParseLocation, ParseResult, Parser, strip_tlv,
};
use asn1_core::tag::{Tag, TagClass, implicit_tag};
use asn1_core::types::{Asn1Readable, Tlv};
use asn1_core::writer::{WriteError, Writer};
use std::alloc::Global;
use std::test::Fail;
use testing::{
    are_refused, closure_writes, is_displayed, is_refusal, is_written, kind_of, read, same, same_at,
};

const LENGTH: ParseErrorKind = ParseErrorKind::InvalidLength;

const TAG: ParseErrorKind = ParseErrorKind::InvalidTag;

const SHORT: ParseErrorKind = ParseErrorKind::ShortData { needed: 1 };

/// The octets begin with an octet string of three letters, and `remaining` comes after it.
fn compare_abc(octets: &[u8], remaining: &[u8]) -> Result<(), Fail> {
    let (tlv, rest) = strip_tlv(octets)?;
    same((tlv.tag(), rest), (Tag::primitive(4), remaining))?;
    compare_octets(&tlv, &[0x04], b"abc", &[0x04, 0x03, 0x61, 0x62, 0x63])
}

/// The element has these octets of its tag, these contents octets, and these octets in all.
fn compare_octets(tlv: &Tlv<'_>, tag: &[u8], content: &[u8], octets: &[u8]) -> Result<(), Fail> {
    let found = (tlv.tag_bytes(), tlv.data(), tlv.full_data());
    same(found, (tag, content, octets))
}

#[test]
fn elements_in_front() -> Result<(), Fail> {
    let octets = [0x04, 0x03, 0x61, 0x62, 0x63, 0x00, 0x00, 0x00];
    compare_abc(&octets[..6], &octets[5..6])?;
    compare_abc(&octets, &octets[5..])
}

/// The element at the start of the octets.
fn front(octets: &[u8]) -> ParseResult<Tlv<'_>> {
    let (tlv, _rest) = strip_tlv(octets)?;
    Ok(tlv)
}

#[test]
fn an_element_alone() -> Result<(), Fail> {
    let octets = [0x04, 0x03, 0x61, 0x62, 0x63, 0x00, 0x00, 0x00];
    let (alone, rest) = strip_tlv(&octets[..5])?;
    same(rest, &[])?;
    same(&alone, &front(&octets)?)
}

const FAULTS: &[(&[u8], ParseErrorKind)] = &[
    (&[], SHORT),
    (&[0x04], SHORT),
    (&[0x04, 0x03], ParseErrorKind::ShortData { needed: 3 }),
    (&[0x04, 0x03, 0x61], ParseErrorKind::ShortData { needed: 2 }),
    (&[0x04, 0x03, 0x61, 0x62], SHORT),
    (&[0x04, 0x82], ParseErrorKind::ShortData { needed: 2 }),
    (&[0x04, 0x82, 0x00], SHORT),
    (&[0x04, 0x82, 0x00, 0x10], LENGTH),
    (&[0x04, 0x80], LENGTH),
    (&[0x04, 0x85], LENGTH),
    (&[0x04, 0xff], LENGTH),
    (&[0x04, 0x81, 0x7f], LENGTH),
    (&[0x04, 0x83, 0x00, 0xff, 0xff], LENGTH),
    (&[0x04, 0x84, 0x00, 0xff, 0xff, 0xff], LENGTH),
    (&[0x04, 0x84, 0x00], ParseErrorKind::ShortData { needed: 3 }),
    (&[0x1f], SHORT),
    (&[0xff], SHORT),
    (&[0x1f, 0x85], SHORT),
    (&[0x1f, 0x90, 0x80, 0x80, 0x80, 0x80], SHORT),
    (&[0x1f, 0x90, 0x80, 0x80, 0x80, 0x80, 0x00], TAG),
    (&[0x1f, 0x88, 0x80, 0x80, 0x80, 0x80, 0x00], TAG),
    (&[0x1f, 0x1e, 0x00], TAG),
    (&[0xff, 0x80, 0x84, 0x01, 0x01, 0xa9], TAG),
];

#[test]
fn faults_of_framing() -> Result<(), Fail> {
    for (octets, kind) in FAULTS {
        same_at(*octets, kind_of(strip_tlv(octets)), Some(*kind))?;
    }
    Ok(())
}

#[test]
fn faults_of_any_element(rt: HostRuntime) -> Result<(), Fail> {
    are_refused::<Tlv<'_>>(rt.alloc(), FAULTS)
}

/// Enough octets follow for contents octets of the length that the second octet would be in the short form.
#[test]
fn other_forms_are_not_short_ones(rt: HostRuntime) -> Result<(), Fail> {
    let mut indefinite = [0u8; 130];
    indefinite[0] = 0x04;
    indefinite[1] = 0x80;
    is_refusal(read::<Tlv<'_>>(rt.alloc(), &indefinite), LENGTH)?;
    are_refused::<Tlv<'_>>(rt.alloc(), &[(&[0x1f, 0x02, 0x00, 0x00], TAG)])
}

/// Each prefix of the octets is too short: the one of n octets lacks `needed[n]` octets.
fn compare_fronts(octets: &[u8], needed: &[usize]) -> Result<(), Fail> {
    for (end, needed) in needed.iter().enumerate() {
        let front = octets.get(..end).ok_or("too few octets")?;
        let short = ParseErrorKind::ShortData { needed: *needed };
        same_at(front, kind_of(strip_tlv(front)), Some(short))?;
    }
    Ok(())
}

#[test]
fn what_fronts_need() -> Result<(), Fail> {
    let sequence = &[
        0x30, 0x09, 0x02, 0x01, 0x01, 0x02, 0x01, 0x02, 0x02, 0x01, 0x03,
    ];
    compare_fronts(sequence, &[1, 1, 9, 8, 7, 6, 5, 4, 3, 2, 1])?;
    compare_fronts(&[0x04, 0x82, 0x01, 0x00], &[1, 1, 2, 1, 256])?;
    compare_fronts(&[0x1f, 0x81, 0x80, 0x01, 0x00], &[1, 1, 1, 1, 1])
}

/// The octets begin with an octet string with these contents octets, and one more octet remains.
fn compare_front(octets: &[u8], content: &[u8]) -> Result<(), Fail> {
    let (tlv, rest) = strip_tlv(octets)?;
    let found = (tlv.tag(), tlv.data() == content, rest);
    same_at(
        content.len(),
        found,
        (Tag::primitive(4), true, b"a".as_slice()),
    )?;
    same(tlv.full_data().len().checked_add(1), Some(octets.len()))
}

/// This many letters are the contents octets after the header, and one more octet remains.
fn compare_long(alloc: Global, header: &[u8], count: usize) -> Result<(), Fail> {
    let content = vec![in alloc; b'a'; count]?;
    let mut octets = Vec::from_slice(alloc, header)?;
    octets.extend_from_slice(content.as_slice())?;
    octets.push(b'a')?;
    compare_front(octets.as_slice(), content.as_slice())
}

#[test]
fn elements_with_long_lengths(rt: HostRuntime) -> Result<(), Fail> {
    compare_long(rt.alloc(), &[0x04, 0x82, 0x01, 0x00], 256)?;
    compare_long(rt.alloc(), &[0x04, 0x83, 0x01, 0x00, 0x00], 65536)?;
    compare_long(rt.alloc(), &[0x04, 0x84, 0x01, 0x00, 0x00, 0x00], 16777216)
}

#[test]
fn parts_of_an_element(rt: HostRuntime) -> Result<(), Fail> {
    let octets = [0x01, 0x03, 0x61, 0x62, 0x63];
    let tlv = read::<Tlv<'_>>(rt.alloc(), &octets)?;
    compare_octets(&tlv, &[0x01], b"abc", &octets)
}

/// Elements, each with its octets of the tag, the class and the number of the tag, and its contents octets.
const ELEMENTS: &[(&[u8], &[u8], TagClass, u32, &[u8])] = &[
    (
        &[0x04, 0x03, 0x61, 0x62, 0x63],
        &[0x04],
        TagClass::Universal,
        4,
        b"abc",
    ),
    (&[0x01, 0x01, 0x00], &[0x01], TagClass::Universal, 1, &[0]),
    (
        &[0x1f, 0x1f, 0],
        &[0x1f, 0x1f],
        TagClass::Universal,
        31,
        &[],
    ),
    (
        &[0x1f, 0x1f, 0x03, 0x61, 0x62, 0x63],
        &[0x1f, 0x1f],
        TagClass::Universal,
        31,
        b"abc",
    ),
    (
        &[0x1f, 0x81, 0x00, 0x00],
        &[0x1f, 0x81, 0x00],
        TagClass::Universal,
        128,
        &[],
    ),
    (
        &[0x1f, 0x81, 0x80, 0x01, 0x00],
        &[0x1f, 0x81, 0x80, 0x01],
        TagClass::Universal,
        16385,
        &[],
    ),
    (&[0x41, 0x00], &[0x41], TagClass::Application, 1, &[]),
];

/// The element is written as these octets, by reference too, and its tag is primitive, with this class and number.
fn compare_written(
    alloc: Global,
    tlv: &Tlv<'_>,
    octets: &[u8],
    tag: (TagClass, u32),
) -> Result<(), Fail> {
    let found = tlv.tag();
    let found = (found.class(), found.value(), found.is_constructed());
    same_at(octets, found, (tag.0, tag.1, false))?;
    is_written(alloc, tlv, octets)?;
    is_written(alloc, &tlv, octets)
}

#[test]
fn any_element_is_read_and_written(rt: HostRuntime) -> Result<(), Fail> {
    for (octets, tag, class, number, content) in ELEMENTS {
        let tlv = read::<Tlv<'_>>(rt.alloc(), octets)?;
        compare_octets(&tlv, tag, content, octets)?;
        compare_written(rt.alloc(), &tlv, octets, (*class, *number))?;
    }
    Ok(())
}

/// The element at the start of the octets, read as a value.
fn read_front<'a, T: Asn1Readable<'a>>(alloc: Global, octets: &'a [u8]) -> ParseResult<T> {
    front(octets)?.parse::<T>(alloc)
}

#[test]
fn an_element_is_read_as_a_value(rt: HostRuntime) -> Result<(), Fail> {
    same(read_front::<u64>(rt.alloc(), &[0x02, 0x01, 0x03])?, 3)?;
    same(read_front::<bool>(rt.alloc(), &[0x01, 0x01, 0xff])?, true)
}

#[test]
fn an_element_is_no_value_of_another_type(rt: HostRuntime) -> Result<(), Fail> {
    let actual = Tag::primitive(2);
    is_refusal(
        read_front::<&[u8]>(rt.alloc(), &[0x02, 0x01, 0x03]),
        ParseErrorKind::UnexpectedTag { actual },
    )
}

#[test]
fn implicit_tags_known_at_run_time(rt: HostRuntime) -> Result<(), Fail> {
    let implicit = [0x82, 0x01, 0xff];
    closure_writes(
        rt.alloc(),
        |writer: &mut Writer<'_>| writer.write_implicit_element(&true, 2),
        &implicit,
    )?;
    let mut parser = Parser::new(rt.alloc(), &implicit);
    let truth = parser.read_implicit_element::<bool>(2)?;
    same((truth, parser.is_empty()), (true, true))
}

#[test]
fn implicit_tags_keep_the_form() -> Result<(), Fail> {
    let primitive = implicit_tag(3, Tag::primitive(2)).as_u8();
    let constructed = implicit_tag(3, Tag::constructed(2)).as_u8();
    same((primitive, constructed), (Some(0x83), Some(0xa3)))
}

#[test]
fn explicit_tags_known_at_run_time(rt: HostRuntime) -> Result<(), Fail> {
    let explicit = [0xa2, 0x03, 0x01, 0x01, 0xff];
    closure_writes(
        rt.alloc(),
        |writer: &mut Writer<'_>| writer.write_explicit_element(&true, 2),
        &explicit,
    )?;
    let mut parser = Parser::new(rt.alloc(), &explicit);
    let truth = parser.read_explicit_element::<bool>(2)?;
    same((truth, parser.is_empty()), (true, true))
}

#[test]
fn another_tag_is_passed_over(rt: HostRuntime) -> Result<(), Fail> {
    let octets = [0x81, 0x01, 0xff, 0x05, 0x00];
    let actual = implicit_tag(1, Tag::primitive(1));
    let unexpected = ParseErrorKind::UnexpectedTag { actual };
    let mut parser = Parser::new(rt.alloc(), &octets);
    is_refusal(parser.read_implicit_element::<bool>(2), unexpected)?;
    let found = (parser.peek_tag(), parser.rest());
    same(found, (Some(Tag::primitive(5)), &octets[3..]))
}

#[test]
fn no_tag_is_seen(rt: HostRuntime) -> Result<(), Fail> {
    let unfinished = Parser::new(rt.alloc(), &[0x1f]).peek_tag();
    let nothing = Parser::new(rt.alloc(), &[]).peek_tag();
    same((unfinished, nothing), (None, None))
}

/// An error with no location, with a field, or with an index and then a field.
pub fn with_places(kind: ParseErrorKind, places: usize) -> ParseError {
    let error = ParseError::new(kind);
    let field = ParseLocation::Field("Abc::123");
    match places {
        0 => error,
        1 => error.add_location(field),
        _ => error
            .add_location(ParseLocation::Index(12))
            .add_location(field),
    }
}

/// An error of this kind is displayed as this text, whatever its locations.
fn compare_displayed(alloc: Global, kind: ParseErrorKind, text: &str) -> Result<(), Fail> {
    let wanted = format!(in alloc; "ASN.1 parsing error: {text}")?;
    for places in 0..3 {
        let error = with_places(kind, places);
        is_displayed(alloc, &error, wanted.as_str())?;
    }
    same(ParseError::new(kind).kind(), kind)
}

#[test]
fn errors_displayed(rt: HostRuntime) -> Result<(), Fail> {
    for (kind, _, text) in KINDS {
        compare_displayed(rt.alloc(), *kind, text)?;
    }
    compare_displayed(
        rt.alloc(),
        ParseErrorKind::UnexpectedTag {
            actual: Tag::primitive(12),
        },
        "unexpected tag (got Tag { value: 12, constructed: false, class: Universal })",
    )
}

#[test]
fn errors_of_writes_displayed(rt: HostRuntime) -> Result<(), Fail> {
    let memory = WriteError::AllocationError;
    is_displayed(rt.alloc(), &memory, "allocation error")?;
    let order = WriteError::InvalidSetOrdering;
    is_displayed(rt.alloc(), &order, "SET elements are not in DER order")
}
