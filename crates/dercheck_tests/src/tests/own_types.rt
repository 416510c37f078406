//! Types that are written by hand: their values are written and read.

use asn1::{
    Asn1DefinedByReadable, Asn1DefinedByWritable, Asn1Readable, Asn1Writable, DefinedByMarker,
    Explicit, ObjectIdentifier, ParseError, ParseErrorKind, ParseLocation, ParseResult, Parser,
    Tag, WriteError, Writer, parse_single, read_and_write_back, write_single,
};
use dercheck::own_types::entry::Entry;
use dercheck::own_types::my_sequence::{Content, MySequence, some_oid};
use dercheck::own_types::reason::Reason;
use dercheck::own_types::sealable::{SealError, Sealable};
use dercheck::own_types::signature::Signature;
use dercheck::own_types::some_sequence::SomeSequence;
use dercheck::own_types::time::Time;
use std::alloc::Global;
use std::test::Fail;
use testing::{
    all_same, are_both_ways, both_ways, closure_writes, error_of, is_refusal, is_shown, is_written,
    same, same_owned,
};

/// Why the octets aren't the encoding of a value of the type.
pub fn refusal<'a, T: Asn1Readable<'a>>(alloc: Global, octets: &'a [u8]) -> Option<ParseError> {
    error_of(parse_single::<T>(alloc, octets))
}

/// The error is of this kind, in the field with this name; an empty name is of none.
pub fn is_at(
    found: Option<ParseError>,
    name: &'static str,
    kind: ParseErrorKind,
) -> Result<(), Fail> {
    let mut error = ParseError::new(kind);
    if !name.is_empty() {
        error = error.add_location(ParseLocation::Field(name));
    }
    same_owned(found, Some(error))
}

/// The kind of the error for an element with this primitive universal tag.
pub fn other_tag(number: u32) -> ParseErrorKind {
    ParseErrorKind::UnexpectedTag {
        actual: Tag::primitive(number),
    }
}

pub const INVALID: ParseErrorKind = ParseErrorKind::InvalidValue;

pub const EXTRA: ParseErrorKind = ParseErrorKind::ExtraData;

pub const IS_DEFAULT: ParseErrorKind = ParseErrorKind::EncodedDefault;

pub const UNKNOWN: ParseErrorKind = ParseErrorKind::UnknownDefinedBy;

#[test]
fn reasons(rt: HostRuntime) -> Result<(), Fail> {
    are_both_ways(
        rt.alloc(),
        &[
            (Reason::Unspecified, &[0x0a, 1, 0]),
            (Reason::Superseded, &[0x0a, 1, 4]),
        ],
    )?;
    is_at(refusal::<Reason>(rt.alloc(), &[0x0a, 1, 1]), "", INVALID)
}

/// A signature.
const SIGNATURE: &[u8] = &[0x30, 6, 2, 1, 1, 2, 1, 2];

#[test]
fn signatures(rt: HostRuntime) -> Result<(), Fail> {
    let alloc = rt.alloc();
    both_ways(alloc, Signature { r: 1, s: 2 }, SIGNATURE)?;
    let no_s = &[0x30, 6, 2, 1, 1, 1, 1, 0xff];
    is_at(
        refusal::<Signature>(alloc, no_s),
        "Signature::s",
        other_tag(1),
    )?;
    is_at(
        refusal::<Signature>(alloc, &[0x30, 3, 1, 1, 0xff]),
        "Signature::r",
        other_tag(1),
    )?;
    let long = &[0x30, 8, 2, 1, 1, 2, 1, 2, 5, 0];
    is_at(refusal::<Signature>(alloc, long), "", EXTRA)?;
    let again = read_and_write_back::<Signature>(alloc, SIGNATURE)??;
    same(again.as_slice(), SIGNATURE)
}

/// A sequence with both fields.
const BOTH: SomeSequence<'static> = SomeSequence {
    a: Some(b"ab"),
    b: Some(5),
};

/// A sequence with neither.
const NEITHER: SomeSequence<'static> = SomeSequence { a: None, b: None };

#[test]
fn some_sequences(rt: HostRuntime) -> Result<(), Fail> {
    let alloc = rt.alloc();
    let octets = &[0x30, 9, 0x80, 2, 0x61, 0x62, 0xa1, 3, 2, 1, 5];
    both_ways(alloc, BOTH, octets)?;
    both_ways(alloc, NEITHER, &[0x30, 0])?;
    let short = ParseErrorKind::ShortData { needed: 1 };
    is_at(
        refusal::<SomeSequence<'_>>(alloc, &[0x30, 3, 0x82, 1, 0]),
        "",
        EXTRA,
    )?;
    is_at(
        refusal::<SomeSequence<'_>>(alloc, &[0x30, 3, 0xa1, 1, 0xff]),
        "SomeSequence::b",
        short,
    )
}

/// Times, and whether each is in the form of two digits.
const TIMES: &[(&[u8], bool)] = &[
    (b"\x17\x0d910506234540Z", true),
    (b"\x18\x0f20500506234540Z", false),
];

#[test]
fn times(rt: HostRuntime) -> Result<(), Fail> {
    let alloc = rt.alloc();
    for (octets, is_short) in TIMES {
        let time = parse_single::<Time>(alloc, octets)?;
        same(matches!(time, Time::UTCTime(_)), *is_short)?;
        same(time.encoded_length(), Some(octets.len()))?;
        is_written(alloc, &time, octets)?;
    }
    is_at(refusal::<Time>(alloc, &[5, 0]), "", other_tag(5))
}

/// A sequence with the one variant.
fn sequence_of_seven() -> MySequence {
    MySequence {
        content_type: DefinedByMarker::marker(),
        content: Content::SomeVariant(7),
    }
}

#[test]
fn my_sequences(rt: HostRuntime) -> Result<(), Fail> {
    let alloc = rt.alloc();
    let octets = &[0x30, 7, 6, 2, 0x2a, 3, 2, 1, 7];
    both_ways(alloc, sequence_of_seven(), octets)?;
    is_at(
        refusal::<MySequence>(alloc, &[0x30, 7, 6, 2, 0x2a, 4, 2, 1, 7]),
        "MySequence::content",
        UNKNOWN,
    )?;
    is_at(
        refusal::<MySequence>(alloc, &[0x30, 9, 6, 2, 0x2a, 3, 2, 1, 7, 5, 0]),
        "",
        EXTRA,
    )?;
    let flag = &[0x30, 3, 1, 1, 0xff];
    is_at(
        refusal::<MySequence>(alloc, flag),
        "MySequence::content_type",
        other_tag(1),
    )
}

/// An entry with the one variant.
fn entry(note: Option<bool>, version: u8) -> Entry {
    Entry {
        content_type: DefinedByMarker::marker(),
        content: Content::SomeVariant(7),
        note,
        version,
    }
}

#[test]
fn entries(rt: HostRuntime) -> Result<(), Fail> {
    let alloc = rt.alloc();
    let octets: &[u8] = &[
        0x30, 15, 6, 2, 0x2a, 3, 2, 1, 7, 1, 1, 0xff, 0xa0, 3, 2, 1, 2,
    ];
    both_ways(alloc, entry(Some(true), 2), octets)?;
    both_ways(alloc, entry(None, 1), &[0x30, 7, 6, 2, 0x2a, 3, 2, 1, 7])?;
    let again = read_and_write_back::<Entry>(alloc, octets)??;
    same(again.as_slice(), octets)
}

#[test]
fn entries_with_faults(rt: HostRuntime) -> Result<(), Fail> {
    let alloc = rt.alloc();
    let flag = &[0x30, 3, 1, 1, 0xff];
    is_at(
        refusal::<Entry>(alloc, flag),
        "Entry::content_type",
        other_tag(1),
    )?;
    let unknown = &[0x30, 7, 6, 2, 0x2a, 4, 2, 1, 7];
    is_at(refusal::<Entry>(alloc, unknown), "Entry::content", UNKNOWN)?;
    let flag = &[0x30, 7, 6, 2, 0x2a, 3, 1, 1, 0xff];
    is_at(
        refusal::<Entry>(alloc, flag),
        "Entry::content",
        other_tag(1),
    )
}

#[test]
fn entries_with_faults_behind(rt: HostRuntime) -> Result<(), Fail> {
    is_at(
        refusal::<Entry>(rt.alloc(), &[0x30, 10, 6, 2, 0x2a, 3, 2, 1, 7, 1, 1, 1]),
        "Entry::note",
        INVALID,
    )?;
    is_at(
        refusal::<Entry>(
            rt.alloc(),
            &[0x30, 12, 6, 2, 0x2a, 3, 2, 1, 7, 0xa0, 3, 2, 1, 1],
        ),
        "Entry::version",
        IS_DEFAULT,
    )?;
    is_at(
        refusal::<Entry>(rt.alloc(), &[0x30, 9, 6, 2, 0x2a, 3, 2, 1, 7, 5, 0]),
        "",
        EXTRA,
    )
}

/// Reads a content under the explicit tag 3, as the item defines it.
fn read_defined(
    alloc: Global,
    item: ObjectIdentifier,
    octets: &[u8],
) -> ParseResult<Explicit<Content, 3>> {
    let mut parser = Parser::new(alloc, octets);
    <Explicit<Content, 3> as Asn1DefinedByReadable<'_, ObjectIdentifier>>::parse(item, &mut parser)
}

/// A content under the explicit tag 3.
const UNDER_A_TAG: &[u8] = &[0xa3, 3, 2, 1, 7];

#[test]
fn contents(rt: HostRuntime) -> Result<(), Fail> {
    let value = read_defined(rt.alloc(), some_oid(), UNDER_A_TAG)?;
    same(value.as_inner(), &Content::SomeVariant(7))?;
    assert!(rt; Asn1DefinedByWritable::<ObjectIdentifier>::item(&value) == some_oid());
    let length = Asn1DefinedByWritable::<ObjectIdentifier>::encoded_length(&value);
    same(length, Some(5))?;
    closure_writes(
        rt.alloc(),
        |writer: &mut Writer<'_>| {
            Asn1DefinedByWritable::<ObjectIdentifier>::write(&value, writer)
        },
        UNDER_A_TAG,
    )
}

#[test]
fn contents_that_are_rejected(rt: HostRuntime) -> Result<(), Fail> {
    let alloc = rt.alloc();
    let two = read_defined(alloc, some_oid(), &[0xa3, 6, 2, 1, 7, 2, 1, 7]);
    is_refusal(two, EXTRA)?;
    let other = ObjectIdentifier::from_der(&[0x2a, 4])?;
    is_refusal(read_defined(alloc, other.clone()?, UNDER_A_TAG), UNKNOWN)?;
    let mut parser = Parser::new(alloc, &[2, 1, 7]);
    is_refusal(Content::parse(other, &mut parser), UNKNOWN)
}

#[test]
fn known_lengths() -> Result<(), Fail> {
    all_same(&[
        (Signature { r: 1, s: 2 }.encoded_length(), Some(8)),
        (sequence_of_seven().encoded_length(), Some(9)),
        (entry(Some(true), 2).encoded_length(), Some(17)),
        (entry(None, 1).encoded_length(), Some(9)),
        (BOTH.encoded_length(), Some(11)),
        (NEITHER.encoded_length(), Some(2)),
    ])
}

/// The value is written as these octets; `None` says that it is sealed. Out of memory is passed on.
pub fn is_written_or_sealed<T: Asn1Writable<Error = SealError>>(
    alloc: Global,
    value: &T,
    octets: Option<&[u8]>,
) -> Result<(), Fail>
    requires { T.der.closures (T.der.meaning value.now) }
{
    match write_single(alloc, value) {
        Ok(written) => same(Some(written.as_slice()), octets),
        Err(SealError::Sealed) => same(None, octets),
        Err(SealError::Write(error)) => Err(error.into()),
    }
}

#[test]
fn errors_of_its_own(rt: HostRuntime) -> Result<(), Fail> {
    let alloc = rt.alloc();
    let closed = Sealable {
        number: 7,
        sealed: true,
    };
    is_written_or_sealed(alloc, &closed, None)?;
    let octets: &[u8] = &[2, 1, 7];
    let open = parse_single::<Sealable>(alloc, octets)?;
    assert!(rt; !open.sealed);
    is_written_or_sealed(alloc, &open, Some(octets))?;
    let error = SealError::from(WriteError::AllocationError);
    same(&error, &SealError::Write(WriteError::AllocationError))
}

#[test]
fn structures_are_shown(rt: HostRuntime) -> Result<(), Fail> {
    let alloc = rt.alloc();
    let signature = Signature { r: 1, s: 2 };
    is_shown(alloc, &signature, "Signature { r: 1, s: 2 }")?;
    let some = SomeSequence {
        a: Some(b"ab"),
        b: None,
    };
    is_shown(alloc, &some, "SomeSequence { a: Some([97, 98]), b: None }")
}
