//! What `Debug` shows: the names and fields of the original; and that errors may go to other threads.

use asn1_core::parser::{ParseError, ParseErrorKind, ParseLocation, strip_tlv};
use asn1_core::tag::{Tag, TagClass, explicit_tag};
use asn1_core::writer::WriteError;
use std::test::Fail;
use testing::{all_different, are_shown, is_shown, same};

/// Kinds of errors, each with what `Debug` and `Display` show.
pub const KINDS: &[(ParseErrorKind, &str, &str)] = &[
    (
        ParseErrorKind::InvalidValue,
        "InvalidValue",
        "invalid value",
    ),
    (ParseErrorKind::InvalidTag, "InvalidTag", "invalid tag"),
    (
        ParseErrorKind::InvalidLength,
        "InvalidLength",
        "invalid length",
    ),
    (
        ParseErrorKind::InvalidSize {
            min: 1,
            max: 5,
            actual: 0,
        },
        "InvalidSize { min: 1, max: 5, actual: 0 }",
        "invalid container size (expected between 1 and 5, got 0)",
    ),
    (
        ParseErrorKind::ShortData { needed: 7 },
        "ShortData { needed: 7 }",
        "short data (needed at least 7 additional bytes)",
    ),
    (
        ParseErrorKind::IntegerOverflow,
        "IntegerOverflow",
        "integer overflow",
    ),
    (ParseErrorKind::ExtraData, "ExtraData", "extra data"),
    (
        ParseErrorKind::InvalidSetOrdering,
        "InvalidSetOrdering",
        "SET value was ordered incorrectly",
    ),
    (
        ParseErrorKind::EncodedDefault,
        "EncodedDefault",
        "DEFAULT value was explicitly encoded",
    ),
    (
        ParseErrorKind::OidTooLong,
        "OidTooLong",
        "OBJECT IDENTIFIER was too large to be stored in rust-asn1's buffer",
    ),
    (
        ParseErrorKind::UnknownDefinedBy,
        "UnknownDefinedBy",
        "DEFINED BY with unknown value",
    ),
    (
        ParseErrorKind::AllocationError,
        "AllocationError",
        "allocation error",
    ),
];

#[test]
fn kinds_of_errors_are_shown(rt: HostRuntime) -> Result<(), Fail> {
    for (kind, text, _) in KINDS {
        is_shown(rt.alloc(), kind, text)?;
    }
    is_shown(
        rt.alloc(),
        &ParseErrorKind::UnexpectedTag {
            actual: Tag::primitive(12),
        },
        "UnexpectedTag { actual: Tag { value: 12, constructed: false, class: Universal } }",
    )
}

#[test]
fn errors_and_places_are_shown(rt: HostRuntime) -> Result<(), Fail> {
    let alloc = rt.alloc();
    let field = ParseLocation::Field("Abc::123");
    is_shown(alloc, &field, "Field(\"Abc::123\")")?;
    is_shown(alloc, &ParseLocation::Index(12), "Index(12)")?;
    let error = ParseError::new(ParseErrorKind::ShortData { needed: 7 })
        .add_location(field)
        .add_location(ParseLocation::Index(12));
    is_shown(
        alloc,
        &error,
        "ParseError { kind: ShortData { needed: 7 }, location: [12, \"Abc::123\"] }",
    )?;
    is_shown(alloc, &WriteError::AllocationError, "AllocationError")?;
    is_shown(alloc, &WriteError::InvalidSetOrdering, "InvalidSetOrdering")
}

#[test]
fn tags_and_elements_are_shown(rt: HostRuntime) -> Result<(), Fail> {
    are_shown(
        rt.alloc(),
        &[
            (TagClass::Universal, "Universal"),
            (TagClass::Application, "Application"),
            (TagClass::ContextSpecific, "ContextSpecific"),
            (TagClass::Private, "Private"),
        ],
    )?;
    is_shown(
        rt.alloc(),
        &explicit_tag(3),
        "Tag { value: 3, constructed: true, class: ContextSpecific }",
    )?;
    let octets = [0x01, 0x01, 0xff];
    let (tlv, _rest) = strip_tlv(&octets)?;
    is_shown(
        rt.alloc(),
        &tlv,
        "Tlv { tag: Tag { value: 1, constructed: false, class: Universal }, data: [255], full_data: [1, 1, 255] }",
    )
}

#[test]
fn unequal_places() -> Result<(), Fail> {
    all_different(&[
        (ParseLocation::Field("a"), ParseLocation::Field("b")),
        (ParseLocation::Field("a"), ParseLocation::Field("ab")),
        (ParseLocation::Field("0"), ParseLocation::Index(0)),
        (ParseLocation::Index(1), ParseLocation::Index(2)),
    ])
}

/// Returns the value, which another thread may take over or see.
fn across_threads<T: Send + Sync>(value: T) -> T {
    value
}

#[test]
fn errors_go_to_other_threads() -> Result<(), Fail> {
    let error = ParseError::new(ParseErrorKind::ExtraData);
    let error = across_threads(error.add_location(ParseLocation::Field("Signature::r")));
    same(error.kind(), ParseErrorKind::ExtraData)
}
