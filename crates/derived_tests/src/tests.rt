//! Values of the printed types are read, looked at, and written back as the same octets.

mod ec_private_key;
mod kerberos;
mod numbers;
mod snmp;
mod spellings;
mod tags;

use crate::items::{
    AnyContent, AnyContentUnknown, AnySequence, Content, Entry, Letter, Listed, MySequence, Order,
    other_oid, sha256_with_rsa, some_oid,
};
use crate::page::{Alternative, Bag, Nothing, ResponderId, Responders, Signature, Tagged};
use asn1::{
    Asn1Readable, Asn1Writable, DefinedByMarker, Explicit, ObjectIdentifier, OctetStringEncoded,
    ParseError, ParseErrorKind, ParseLocation, SequenceOf, SetOfWriter, Tag, TagClass, Tlv,
    WriteError, parse_single, write_readable,
};
use std::alloc::Global;
use std::test::Fail;
use testing::{all_same, both_ways, error_of, is_written, read, same, same_owned};

/// The value is written as these octets, whose length it returns.
fn writes<'a, T: Asn1Readable<'a> + Asn1Writable<Error = WriteError>>(
    alloc: Global,
    value: &T,
    octets: &[u8],
) -> Result<(), Fail> {
    same(write_readable(alloc, value)?.as_slice(), octets)?;
    same(value.encoded_length(), Some(octets.len()))
}

/// The octets of each row are read as the type and written as the same octets.
fn are_written_back<'a, T: Asn1Readable<'a> + Asn1Writable<Error = WriteError>>(
    alloc: Global,
    rows: &[&'a [u8]],
) -> Result<(), Fail> {
    for octets in rows {
        writes(alloc, &parse_single::<T>(alloc, octets)?, octets)?;
    }
    Ok(())
}

/// Why the octets aren't the encoding of a value of the type.
fn refusal<'a, T: Asn1Readable<'a>>(alloc: Global, octets: &'a [u8]) -> Option<ParseError> {
    error_of(parse_single::<T>(alloc, octets))
}

/// The error is of this kind, in the field with this name; an empty name is of none.
fn is_at(found: Option<ParseError>, name: &'static str, kind: ParseErrorKind) -> Result<(), Fail> {
    let mut error = ParseError::new(kind);
    if !name.is_empty() {
        error = error.add_location(ParseLocation::Field(name));
    }
    same_owned(found, Some(error))
}

/// The kind of the error for an element with this primitive universal tag.
fn other_tag(number: u32) -> ParseErrorKind {
    ParseErrorKind::UnexpectedTag {
        actual: Tag::primitive(number),
    }
}

const SHORT: ParseErrorKind = ParseErrorKind::ShortData { needed: 1 };

const EXTRA: ParseErrorKind = ParseErrorKind::ExtraData;

const IS_DEFAULT: ParseErrorKind = ParseErrorKind::EncodedDefault;

const UNKNOWN: ParseErrorKind = ParseErrorKind::UnknownDefinedBy;

#[test]
fn signatures(rt: HostRuntime) -> Result<(), Fail> {
    let alloc = rt.alloc();
    both_ways(
        alloc,
        Signature { r: 7, s: 9 },
        &[0x30, 6, 2, 1, 7, 2, 1, 9],
    )?;
    is_at(
        refusal::<Signature>(alloc, &[0x30, 3, 2, 1, 7]),
        "Signature::s",
        SHORT,
    )
}

#[test]
fn no_fields(rt: HostRuntime) -> Result<(), Fail> {
    let alloc = rt.alloc();
    both_ways(alloc, Nothing {}, &[0x30, 0])?;
    is_at(refusal::<Nothing>(alloc, &[0x30, 2, 5, 0]), "", EXTRA)?;
    is_at(refusal::<Nothing>(alloc, &[5, 0]), "", other_tag(5))
}

/// All fields with tags.
const ALL: &[u8] = &[
    0x30, 26, 0xa2, 3, 2, 1, 3, 0xa3, 6, 2, 1, 1, 2, 1, 2, 0xa4, 8, 0x30, 6, 2, 1, 7, 2, 1, 9,
    0x85, 1, 7,
];

/// Those that may not be missing.
const FEW: &[u8] = &[
    0x30, 15, 0xa3, 3, 2, 1, 1, 0xa4, 8, 0x30, 6, 2, 1, 7, 2, 1, 9,
];

/// The fields, of which the list is told by its length.
fn fields_of(value: &Tagged<'_>) -> (u8, usize, (u64, u64), i8) {
    (
        value.version,
        value.numbers.len(),
        (value.signature.r, value.signature.s),
        value.level,
    )
}

#[test]
fn fields_with_tags(rt: HostRuntime) -> Result<(), Fail> {
    let alloc = rt.alloc();
    are_written_back::<Tagged<'_>>(alloc, &[ALL, FEW])?;
    let all = fields_of(&read::<Tagged<'_>>(alloc, ALL)?);
    same(all, (3, 2, (7, 9), 7))?;
    let few = fields_of(&read::<Tagged<'_>>(alloc, FEW)?);
    same(few, (1, 1, (7, 9), -1))
}

/// An empty list that has to have an item.
const SIZE: ParseErrorKind = ParseErrorKind::InvalidSize {
    min: 1,
    max: 4,
    actual: 0,
};

#[test]
fn rejected_fields(rt: HostRuntime) -> Result<(), Fail> {
    is_at(
        refusal::<Tagged<'_>>(
            rt.alloc(),
            &[
                0x30, 18, 0xa3, 3, 2, 1, 1, 0xa4, 8, 0x30, 6, 2, 1, 7, 2, 1, 9, 0x85, 1, 0xff,
            ],
        ),
        "Tagged::level",
        IS_DEFAULT,
    )?;
    is_at(
        refusal::<Tagged<'_>>(
            rt.alloc(),
            &[0x30, 12, 0xa3, 0, 0xa4, 8, 0x30, 6, 2, 1, 7, 2, 1, 9],
        ),
        "Tagged::numbers",
        SIZE,
    )?;
    is_at(
        refusal::<Tagged<'_>>(rt.alloc(), &[0x30, 5, 0xa3, 3, 2, 1, 1]),
        "Tagged::signature",
        SHORT,
    )
}

#[test]
fn who_answers(rt: HostRuntime) -> Result<(), Fail> {
    let alloc = rt.alloc();
    both_ways(
        alloc,
        ResponderId::ByKey(b"ab"),
        &[0xa2, 4, 4, 2, b'a', b'b'],
    )?;
    let name = &[0xa1, 7, 0x31, 5, 0x13, 3, b'a', b'b', b'c'];
    are_written_back::<ResponderId<'_>>(alloc, &[name])?;
    is_at(refusal::<ResponderId<'_>>(alloc, &[5, 0]), "", other_tag(5))
}

#[test]
fn who_may_answer(rt: HostRuntime) -> Result<(), Fail> {
    let alloc = rt.alloc();
    let listed: &[u8] = &[0x30, 6, 0xa2, 4, 4, 2, b'a', b'b'];
    are_written_back::<Responders<'_>>(alloc, &[listed, &[0x80, 1, b'a']])?;
    let none = ParseErrorKind::InvalidSize {
        min: 1,
        max: usize::MAX,
        actual: 0,
    };
    is_at(refusal::<Responders<'_>>(alloc, &[0x30, 0]), "", none)
}

#[test]
fn a_choice_that_may_be_missing(rt: HostRuntime) -> Result<(), Fail> {
    let alloc = rt.alloc();
    let key: &[u8] = &[0x30, 6, 0xa2, 4, 4, 2, b'a', b'b'];
    are_written_back::<Alternative<'_>>(alloc, &[key, &[0x30, 0]])?;
    let missing = read::<Alternative<'_>>(alloc, &[0x30, 0])?;
    assert!(rt; missing.responder.is_none());
    Ok(())
}

#[test]
fn identifiers() -> Result<(), Fail> {
    all_same(&[
        (ObjectIdentifier::from_string("1.2.3"), Some(some_oid())),
        (ObjectIdentifier::from_string("1.2.4"), Some(other_oid())),
        (
            ObjectIdentifier::from_string("1.2.840.113549.1.1.11"),
            Some(sha256_with_rsa()),
        ),
    ])
}

#[test]
fn a_list_made_in_code(rt: HostRuntime) -> Result<(), Fail> {
    let bag = Bag {
        full: true,
        numbers: SetOfWriter::new(&[2, 1]),
    };
    let octets = &[0x30, 11, 1, 1, 0xff, 0x31, 6, 2, 1, 1, 2, 1, 2];
    is_written(rt.alloc(), &bag, octets)
}

#[test]
fn a_content_by_its_identifier(rt: HostRuntime) -> Result<(), Fail> {
    let alloc = rt.alloc();
    let made = MySequence {
        content_type: DefinedByMarker::marker(),
        content: Content::SomeVariant(5),
    };
    both_ways(alloc, made, &[0x30, 7, 6, 2, 0x2a, 3, 2, 1, 5])?;
    let null = &[
        0x30, 13, 6, 9, 0x2a, 0x86, 0x48, 0x86, 0xf7, 0x0d, 1, 1, 0x0b, 5, 0,
    ];
    are_written_back::<MySequence>(alloc, &[null])?;
    let unknown = &[0x30, 7, 6, 2, 0x2a, 4, 2, 1, 5];
    is_at(
        refusal::<MySequence>(alloc, unknown),
        "MySequence::content",
        UNKNOWN,
    )
}

/// A letter with the number nine and the content five.
fn letter(critical: bool, sent: Option<u8>) -> Letter {
    Letter {
        number: 9,
        kind: DefinedByMarker::marker(),
        critical,
        sent,
        content: Content::SomeVariant(5),
        is_read: true,
    }
}

#[test]
fn two_fields_between_an_identifier_and_its_content(rt: HostRuntime) -> Result<(), Fail> {
    let alloc = rt.alloc();
    let octets = &[
        0x30, 19, 2, 1, 9, 6, 2, 0x2a, 3, 1, 1, 0xff, 0x80, 1, 4, 2, 1, 5, 1, 1, 0xff,
    ];
    both_ways(alloc, letter(true, Some(4)), octets)?;
    let octets = &[0x30, 13, 2, 1, 9, 6, 2, 0x2a, 3, 2, 1, 5, 1, 1, 0xff];
    both_ways(alloc, letter(false, None), octets)?;
    is_at(
        refusal::<Letter>(
            alloc,
            &[
                0x30, 16, 2, 1, 9, 6, 2, 0x2a, 3, 1, 1, 0, 2, 1, 5, 1, 1, 0xff,
            ],
        ),
        "Letter::critical",
        IS_DEFAULT,
    )?;
    is_at(
        refusal::<Letter>(
            alloc,
            &[0x30, 13, 2, 1, 9, 6, 2, 0x2a, 4, 2, 1, 5, 1, 1, 0xff],
        ),
        "Letter::content",
        UNKNOWN,
    )?;
    is_at(
        refusal::<Letter>(alloc, &[0x30, 10, 2, 1, 9, 6, 2, 0x2a, 3, 2, 1, 5]),
        "Letter::is_read",
        SHORT,
    )
}

/// Fields that may be missing between an identifier and its content: each by itself, and in their order alone.
#[test]
fn what_may_be_missing_between_them(rt: HostRuntime) -> Result<(), Fail> {
    let alloc = rt.alloc();
    are_written_back::<Order<'_>>(
        alloc,
        &[
            &[0x30, 9, 6, 2, 0x2a, 3, 5, 0, 2, 1, 5],
            &[0x30, 14, 6, 2, 0x2a, 3, 5, 0, 0xa0, 3, 2, 1, 7, 2, 1, 5],
            &[0x30, 14, 6, 2, 0x2a, 3, 5, 0, 0xa1, 3, 4, 1, 9, 2, 1, 5],
            &[0x30, 12, 6, 2, 0x2a, 3, 5, 0, 0x82, 1, 9, 2, 1, 5],
            &[
                0x30, 26, 6, 2, 0x2a, 3, 5, 0, 0xa3, 15, 0x30, 13, 2, 1, 9, 6, 2, 0x2a, 3, 2, 1, 5,
                1, 1, 0xff, 2, 1, 5,
            ],
            &[0x30, 12, 6, 2, 0x2a, 3, 5, 0, 0x84, 1, 0xff, 2, 1, 5],
            &[
                0x30, 16, 6, 2, 0x2a, 3, 4, 1, 9, 0x82, 1, 9, 0x85, 1, 3, 2, 1, 5,
            ],
        ],
    )?;
    let octets = &[
        0x30, 15, 6, 2, 0x2a, 3, 5, 0, 0x85, 1, 3, 0x82, 1, 9, 2, 1, 5,
    ];
    is_at(
        refusal::<Order<'_>>(alloc, octets),
        "Order::content",
        ParseErrorKind::UnexpectedTag {
            actual: Tag::new(2, TagClass::ContextSpecific, false),
        },
    )
}

/// Fields with tags.
const TAGGED: &[u8] = &[
    0x30, 23, 6, 2, 0x2a, 3, 4, 17, 0x30, 15, 0xa3, 3, 2, 1, 1, 0xa4, 8, 0x30, 6, 2, 1, 7, 2, 1, 9,
];

const NUMBERS: &[u8] = &[0x30, 14, 6, 2, 0x2a, 4, 0xa1, 8, 0x30, 6, 2, 1, 1, 2, 1, 2];

const FLAG: &[u8] = &[
    0x30, 14, 6, 9, 0x2a, 0x86, 0x48, 0x86, 0xf7, 0x0d, 1, 1, 0x0b, 1, 1, 0xff,
];

const NO_FLAG: &[u8] = &[
    0x30, 11, 6, 9, 0x2a, 0x86, 0x48, 0x86, 0xf7, 0x0d, 1, 1, 0x0b,
];

/// Null, by an identifier that no other variant is for.
const OTHER: &[u8] = &[0x30, 6, 6, 2, 0x2a, 5, 5, 0];

/// Whether this is the content of an unknown identifier, 1.2.5, with the value null.
fn is_null_by_another(content: &AnyContent<'_>) -> bool {
    match content {
        AnyContent::Unknown(other) => {
            ObjectIdentifier::from_string("1.2.5").as_ref() == Some(other.item())
                && other.value().full_data() == [5u8, 0].as_slice()
        }
        _ => false,
    }
}

#[test]
fn contents_by_any_identifier(rt: HostRuntime) -> Result<(), Fail> {
    let alloc = rt.alloc();
    are_written_back::<AnySequence<'_>>(alloc, &[TAGGED, NUMBERS, FLAG, NO_FLAG, OTHER])?;
    let string = &[0x30, 6, 6, 2, 0x2a, 3, 5, 0];
    is_at(
        refusal::<AnySequence<'_>>(alloc, string),
        "AnySequence::content",
        other_tag(5),
    )?;
    let other = read::<AnySequence<'_>>(alloc, OTHER)?.content;
    assert!(rt; is_null_by_another(&other));
    assert!(rt; other.clone()? == other);
    Ok(())
}

/// The content is written behind its identifier.
fn is_made(alloc: Global, content: AnyContent<'_>, octets: &[u8]) -> Result<(), Fail> {
    let made = AnySequence {
        content_type: DefinedByMarker::marker(),
        content,
    };
    writes(alloc, &made, octets)
}

type List<'a> = SequenceOf<'a, u64, 0, { usize::MAX }>;

#[test]
fn contents_that_are_made(rt: HostRuntime) -> Result<(), Fail> {
    let alloc = rt.alloc();
    let tagged = OctetStringEncoded::new(read::<Tagged<'_>>(alloc, FEW)?);
    is_made(alloc, AnyContent::Tagged(tagged), TAGGED)?;
    let numbers = read::<List<'_>>(alloc, &[0x30, 6, 2, 1, 1, 2, 1, 2])?;
    is_made(alloc, AnyContent::Numbers(numbers), NUMBERS)?;
    is_made(alloc, AnyContent::Flag(Some(true)), FLAG)?;
    is_made(alloc, AnyContent::Flag(None), NO_FLAG)
}

#[test]
fn contents_of_other_identifiers(rt: HostRuntime) -> Result<(), Fail> {
    let alloc = rt.alloc();
    let null = read::<Tlv<'_>>(alloc, &[5, 0])?;
    for item in [some_oid(), other_oid(), sha256_with_rsa()] {
        assert!(rt; AnyContentUnknown::new(item, null).is_none());
    }
    let item = ObjectIdentifier::from_der(&[0x2a, 5])?;
    let Some(other) = AnyContentUnknown::new(item, null) else {
        return Err(Fail::new(format_args!("no content")));
    };
    is_made(alloc, AnyContent::Unknown(other), OTHER)
}

#[test]
fn contents_under_a_tag(rt: HostRuntime) -> Result<(), Fail> {
    let alloc = rt.alloc();
    let made = Entry {
        kind: DefinedByMarker::marker(),
        listed: Explicit::new(Listed::Number(5)),
        note: Some(true),
    };
    let octets = &[0x30, 12, 6, 2, 0x2a, 3, 0xa3, 3, 2, 1, 5, 1, 1, 0xff];
    both_ways(alloc, made, octets)?;
    let null = &[0x30, 8, 6, 2, 0x2a, 4, 0xa3, 2, 5, 0];
    are_written_back::<Entry<'_>>(alloc, &[null])?;
    let no_number = &[0x30, 8, 6, 2, 0x2a, 3, 0xa3, 2, 5, 0];
    is_at(
        refusal::<Entry<'_>>(alloc, no_number),
        "Entry::listed",
        other_tag(5),
    )?;
    let two = &[0x30, 10, 6, 2, 0x2a, 5, 0xa3, 4, 5, 0, 5, 0];
    is_at(refusal::<Entry<'_>>(alloc, two), "Entry::listed", EXTRA)
}
