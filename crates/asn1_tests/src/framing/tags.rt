use crate::framing::writing::announced_element;
use asn1_core::base128;
use asn1_core::parser::ParseErrorKind;
use asn1_core::tag::{Tag, TagClass};
use std::test::Fail;
use testing::{all_different, kind_of, same, same_at};

const INVALID: ParseErrorKind = ParseErrorKind::InvalidTag;

const SHORT: ParseErrorKind = ParseErrorKind::ShortData { needed: 1 };

#[test]
fn numbers_that_are_too_large() -> Result<(), Fail> {
    let mut lowest = [0x80; 19];
    lowest[0] = 0x90;
    let mut highest = [0xff; 19];
    highest[0] = 0x83;
    highest[18] = 0x80;
    let kinds = (
        kind_of(base128::read(&lowest)),
        kind_of(base128::read(&highest)),
    );
    let invalid = Some(ParseErrorKind::InvalidValue);
    same(kinds, (invalid, invalid))
}

/// The number has this many octets, which are read back, and no other is written.
fn compare_number(number: u128, length: usize) -> Result<(), Fail> {
    let mut octets = [7; 32];
    let lengths = (base128::length(number), base128::write(number, &mut octets));
    same_at(number, lengths, (length, Some(length)))?;
    let (written, others) = octets.split_at_checked(length).ok_or("too long")?;
    let (read, rest) = base128::read(written)?;
    same_at(
        number,
        (read, rest.len(), others.first()),
        (number, 0, Some(&7)),
    )
}

#[test]
fn numbers_are_read_back() -> Result<(), Fail> {
    compare_number(0, 1)?;
    compare_number(10, 1)?;
    compare_number(127, 1)?;
    compare_number(128, 2)?;
    compare_number(u128::MAX, 19)
}

#[test]
fn numbers_without_room_are_not_written() -> Result<(), Fail> {
    let mut octets = [7; 3];
    same(base128::write(1 << 21, &mut octets), None)?;
    same(octets.as_slice(), &[7, 7, 7])
}

/// The octet of a tag, its class, whether it is constructed, and its number.
const ONE_OCTET: &[(u8, TagClass, bool, u32)] = &[
    (0x65, TagClass::Application, true, 5),
    (0x05, TagClass::Universal, false, 5),
    (0xa0, TagClass::ContextSpecific, true, 0),
    (0xde, TagClass::Private, false, 30),
];

#[test]
fn tags_of_one_octet() -> Result<(), Fail> {
    for (octet, class, constructed, number) in ONE_OCTET {
        let octets = [*octet, 0x07];
        let (tag, rest) = Tag::from_bytes(&octets)?;
        let found = (tag.class(), tag.is_constructed(), tag.value());
        same_at(*octet, found, (*class, *constructed, *number))?;
        same((tag.as_u8(), rest), (Some(*octet), b"\x07".as_slice()))?;
    }
    Ok(())
}

#[test]
fn constructed_tags_of_one_octet() -> Result<(), Fail> {
    for number in 0..31u8 {
        let tag = Tag::constructed(u32::from(number));
        let found = (tag.is_constructed(), tag.as_u8());
        same_at(number, found, (true, Some(0x20 | number)))?;
    }
    let longer = (Tag::constructed(31).as_u8(), Tag::primitive(31).as_u8());
    same(longer, (None, None))
}

#[test]
fn tags_of_several_octets() -> Result<(), Fail> {
    let octets = [0x1f, 0x8f, 0xff, 0xff, 0xff, 0x7f];
    let (tag, rest) = Tag::from_bytes(&octets)?;
    same((tag, rest.len()), (Tag::primitive(4294967295), 0))?;
    let found = (tag.class(), tag.is_constructed(), tag.value(), tag.as_u8());
    same(found, (TagClass::Universal, false, 4294967295, None))
}

/// Tags that differ in the number, in the form or in the class.
#[test]
fn unequal_tags() -> Result<(), Fail> {
    let tag = Tag::new(1, TagClass::Private, true);
    all_different(&[
        (tag, Tag::new(2, TagClass::Private, true)),
        (tag, Tag::new(1, TagClass::Private, false)),
        (tag, Tag::new(1, TagClass::Universal, true)),
        (tag, Tag::new(1, TagClass::Application, true)),
        (tag, Tag::new(1, TagClass::ContextSpecific, true)),
    ])?;
    all_different(&[
        (TagClass::Universal, TagClass::Application),
        (TagClass::Universal, TagClass::ContextSpecific),
        (TagClass::Application, TagClass::ContextSpecific),
        (TagClass::ContextSpecific, TagClass::Private),
    ])
}

const FAULTS: &[(&[u8], ParseErrorKind)] = &[
    (&[0x1f, 0x90, 0x80, 0x80, 0x80, 0x00], INVALID),
    (&[0x1f, 0x90, 0x80, 0x80, 0x80, 0x1f], INVALID),
    (&[0x1f, 0x1e], INVALID),
    (&[0x1f, 0x80], INVALID),
    (&[0x1f], SHORT),
    (&[], SHORT),
];

#[test]
fn faults_of_tags() -> Result<(), Fail> {
    for (octets, kind) in FAULTS {
        same_at(*octets, kind_of(Tag::from_bytes(octets)), Some(*kind))?;
    }
    let mut octets = [0xff; 20];
    octets[0] = 0x1f;
    same(kind_of(Tag::from_bytes(&octets[..19])), Some(SHORT))?;
    octets[19] = 0x00;
    same(kind_of(Tag::from_bytes(&octets)), Some(INVALID))
}

const TAGS: &[&[u8]] = &[
    &[0x65, 0x00],
    &[0x05, 0x00],
    &[0x1f, 0x1f, 0x00],
    &[0xa0, 0x00],
    &[0xdf, 0x7f, 0x00],
    &[0x1f, 0x8f, 0xff, 0xff, 0xff, 0x7f, 0x00],
];

#[test]
fn tags_are_read_back(rt: HostRuntime) -> Result<(), Fail> {
    for text in TAGS {
        let (tag, _rest) = Tag::from_bytes(text)?;
        let octets = announced_element(rt.alloc(), tag, &[])?;
        same(octets.as_slice(), *text)?;
    }
    Ok(())
}

#[test]
fn order_of_tags() -> Result<(), Fail> {
    // In ascending order: by class, and within a class by number.
    let texts: [&[u8]; 7] = [
        &[0x01],
        &[0x02],
        &[0x30],
        &[0x40],
        &[0x9f, 0xff, 0x7f],
        &[0x9f, 0x81, 0x80, 0x00],
        &[0xc0],
    ];
    for i in 0..texts.len() {
        for k in 0..texts.len() {
            let (first, _rest) = Tag::from_bytes(texts[i])?;
            let (second, _rest) = Tag::from_bytes(texts[k])?;
            same_at((i, k), first.comes_before(second), i < k)?;
        }
    }
    let (constructed, _rest) = Tag::from_bytes(&[0xa0])?;
    let (primitive, _rest) = Tag::from_bytes(&[0x80])?;
    let found = (
        constructed.comes_before(primitive),
        primitive.comes_before(constructed),
    );
    same(found, (false, false))
}
