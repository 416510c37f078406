//! Tags of every class, sets, and enums whose values have numbers.

use super::are_written_back;
use crate::tags::{
    Around, Both, Either, Entry, Header, Inventory, Neither, Nine, Preferences, Report, ResultCode,
    Sealed, Settings, Switch, Version,
};
use asn1::{Explicit, ParseErrorKind, Tag, TagClass};
use std::test::Fail;
use testing::{are_both_ways, are_refused, both_ways};

const INVALID: ParseErrorKind = ParseErrorKind::InvalidValue;

/// Each value of the three enums, as X.690 8.4 has it.
#[test]
fn values_with_numbers(rt: HostRuntime) -> Result<(), Fail> {
    let alloc = rt.alloc();
    are_both_ways(
        alloc,
        &[
            (ResultCode::Success, &[0x0a, 1, 0]),
            (ResultCode::TimeLimitExceeded, &[0x0a, 1, 3]),
            (ResultCode::Busy, &[0x0a, 1, 0x33]),
            (ResultCode::Other, &[0x0a, 1, 80]),
        ],
    )?;
    both_ways(alloc, Version::V3, &[2, 1, 2])?;
    both_ways(alloc, Switch::On, &[0xdf, 0x1f, 1, 1])
}

/// Numbers that no value has, and contents octets that are no number of 32 bits.
#[test]
fn other_numbers(rt: HostRuntime) -> Result<(), Fail> {
    let alloc = rt.alloc();
    let tag = ParseErrorKind::UnexpectedTag {
        actual: Tag::primitive(2),
    };
    are_refused::<ResultCode>(
        alloc,
        &[
            (&[0x0a, 1, 1], INVALID),
            (&[0x0a, 1, 0xff], INVALID),
            (&[0x0a, 2, 0, 3], INVALID),
            (&[0x0a, 0], INVALID),
            (&[0x0a, 5, 1, 0, 0, 0, 0], ParseErrorKind::IntegerOverflow),
            (&[2, 1, 0], tag),
        ],
    )?;
    are_refused::<Version>(alloc, &[(&[2, 1, 3], INVALID)])
}

const REPORT: &[u8] = &[
    0x63, 13, 0x0a, 1, 3, 0x41, 1, 5, 0xe2, 5, 0x12, 3, b'1', b'2', b'3',
];

/// Types under tags of the classes application and private.
#[test]
fn reports(rt: HostRuntime) -> Result<(), Fail> {
    let alloc = rt.alloc();
    are_written_back::<Report<'_>>(
        alloc,
        &[REPORT, &[0x63, 8, 0x0a, 1, 0, 0xe2, 3, 0x12, 1, b'0']],
    )?;
    are_written_back::<Sealed<'_>>(
        alloc,
        &[&[0x64, 10, 0x63, 8, 0x0a, 1, 0, 0xe2, 3, 0x12, 1, b'0']],
    )
}

/// The fields of a set, in the order of their tags alone.
#[test]
fn settings(rt: HostRuntime) -> Result<(), Fail> {
    let alloc = rt.alloc();
    both_ways(
        alloc,
        Settings {
            version: Version::V2,
            level: 8,
            switch: Switch::Off,
        },
        &[0x31, 10, 2, 1, 1, 0x80, 1, 8, 0xdf, 0x1f, 1, 0],
    )?;
    let level = ParseErrorKind::UnexpectedTag {
        actual: Tag::new(0, asn1::TagClass::ContextSpecific, false),
    };
    are_refused::<Settings>(
        alloc,
        &[
            (&[0x31, 10, 0x80, 1, 8, 2, 1, 1, 0xdf, 0x1f, 1, 0], level),
            (
                &[0x31, 10, 2, 1, 1, 0x80, 1, 7, 0xdf, 0x1f, 1, 0],
                ParseErrorKind::EncodedDefault,
            ),
        ],
    )
}

/// A set under a tag of the application: its fields in the order of their tags, and no set without this tag.
#[test]
fn preferences(rt: HostRuntime) -> Result<(), Fail> {
    let alloc = rt.alloc();
    are_written_back::<Preferences<'_>>(
        alloc,
        &[&[0x65, 9, 2, 1, 7, 4, 1, 9, 0x80, 1, 2], &[0x65, 2, 4, 0]],
    )?;
    let actual = Tag::constructed(0x11);
    are_refused::<Preferences<'_>>(
        alloc,
        &[
            (&[0x31, 2, 4, 0], ParseErrorKind::UnexpectedTag { actual }),
            (&[0x65, 5, 4, 0, 2, 1, 7], ParseErrorKind::ExtraData),
        ],
    )
}

/// Fields that may be missing behind a choice: each by itself, and in their order alone.
#[test]
fn headers(rt: HostRuntime) -> Result<(), Fail> {
    let alloc = rt.alloc();
    are_written_back::<Header<'_>>(
        alloc,
        &[
            &[0x30, 2, 5, 0],
            &[0x30, 7, 5, 0, 0xa0, 3, 2, 1, 7],
            &[0x30, 7, 5, 0, 0xa1, 3, 0x0a, 1, 80],
            &[0x30, 8, 4, 1, 9, 0xa2, 3, 0x49, 1, 5],
            &[0x30, 5, 5, 0, 0x83, 1, 9],
            &[
                0x30, 14, 5, 0, 0xa4, 10, 0x63, 8, 0x0a, 1, 0, 0xe2, 3, 0x12, 1, b'0',
            ],
            &[0x30, 5, 5, 0, 0x85, 1, 0xff],
            &[0x30, 9, 5, 0, 0xa6, 5, 0xa2, 3, 4, 1, 9],
            &[0x30, 8, 5, 0, 0x83, 1, 9, 0x85, 1, 0],
        ],
    )?;
    let number = ParseErrorKind::UnexpectedTag {
        actual: Tag::new(0, TagClass::ContextSpecific, true),
    };
    are_refused::<Header<'_>>(
        alloc,
        &[
            (&[0x30, 5, 0xa0, 3, 2, 1, 7], number),
            (
                &[0x30, 8, 5, 0, 0x85, 1, 0, 0x83, 1, 9],
                ParseErrorKind::ExtraData,
            ),
        ],
    )
}

/// Twenty fields that may be missing: none, each by itself, all, and in their order alone.
#[test]
fn inventories(rt: HostRuntime) -> Result<(), Fail> {
    let alloc = rt.alloc();
    are_written_back::<Inventory<'_>>(
        alloc,
        &[
            b"\x30\x00",
            b"\x30\x03\x04\x01\x09",
            b"\x30\x05\xa0\x03\x02\x01\x07",
            b"\x30\x05\xa1\x03\x49\x01\x05",
            b"\x30\x0a\xa2\x08\x0a\x01\x00\xe2\x03\x12\x01\x30",
            b"\x30\x04\xa3\x02\x05\x00",
            b"\x30\x05\xa4\x03\x0a\x01\x50",
            b"\x30\x03\x85\x01\x09",
            b"\x30\x03\x86\x01\xff",
            b"\x30\x07\xa7\x05\xa2\x03\x04\x01\x09",
            b"\x30\x0c\xa8\x0a\x63\x08\x0a\x01\x00\xe2\x03\x12\x01\x30",
            b"\x30\x09\xa9\x07\x02\x01\x00\xdf\x1f\x01\x01",
            b"\x30\x03\x8a\x01\x02",
            b"\x30\x06\xab\x04\xdf\x1f\x01\x01",
            b"\x30\x05\xac\x03\x49\x01\x05",
            b"\x30\x0c\xad\x0a\x63\x08\x0a\x01\x00\xe2\x03\x12\x01\x30",
            b"\x30\x04\xae\x02\x05\x00",
            b"\x30\x03\x8f\x01\x50",
            b"\x30\x05\xb0\x03\x04\x01\x09",
            b"\x30\x05\xb1\x03\x01\x01\x00",
            b"\x30\x07\xb2\x05\xa2\x03\x04\x01\x09",
            b"\x30\x0e\xb3\x0c\x64\x0a\x63\x08\x0a\x01\x00\xe2\x03\x12\x01\x30",
            b"\x30\x81\x82\x04\x01\x09\xa0\x03\x02\x01\x07\xa1\x03\x49\x01\x05\xa2\x08\x0a\x01\x00\xe2\x03\x12\
\x01\x30\xa3\x02\x05\x00\xa4\x03\x0a\x01\x50\x85\x01\x09\x86\x01\xff\xa7\x05\xa2\x03\x04\x01\x09\
\xa8\x0a\x63\x08\x0a\x01\x00\xe2\x03\x12\x01\x30\xa9\x07\x02\x01\x00\xdf\x1f\x01\x01\x8a\x01\x02\
\xab\x04\xdf\x1f\x01\x01\xac\x03\x49\x01\x05\xad\x0a\x63\x08\x0a\x01\x00\xe2\x03\x12\x01\x30\xae\
\x02\x05\x00\x8f\x01\x50\xb0\x03\x04\x01\x09\xb1\x03\x01\x01\x00\xb2\x05\xa2\x03\x04\x01\x09\xb3\
\x0c\x64\x0a\x63\x08\x0a\x01\x00\xe2\x03\x12\x01\x30",
        ],
    )?;
    are_refused::<Inventory<'_>>(
        alloc,
        &[
            // The second field before the first, the last before the first, one twice, and the choice behind a field.
            (
                b"\x30\x0a\xa1\x03\x49\x01\x05\xa0\x03\x02\x01\x07",
                ParseErrorKind::ExtraData,
            ),
            (
                b"\x30\x13\xb3\x0c\x64\x0a\x63\x08\x0a\x01\x00\xe2\x03\x12\x01\x30\xa0\x03\x02\x01\x07",
                ParseErrorKind::ExtraData,
            ),
            (
                b"\x30\x06\x8f\x01\x50\x8f\x01\x50",
                ParseErrorKind::ExtraData,
            ),
            (
                b"\x30\x08\xa0\x03\x02\x01\x07\x04\x01\x09",
                ParseErrorKind::ExtraData,
            ),
        ],
    )
}

/// Two choices that may be missing: both, either, none, and in their order alone.
#[test]
fn neither_choice(rt: HostRuntime) -> Result<(), Fail> {
    let alloc = rt.alloc();
    are_written_back::<Neither<'_>>(
        alloc,
        &[
            b"\x30\x00",
            b"\x30\x02\x05\x00",
            b"\x30\x05\xa2\x03\x04\x01\x09",
            b"\x30\x08\x04\x01\x07\xa2\x03\x04\x01\x09",
        ],
    )?;
    are_refused::<Neither<'_>>(
        alloc,
        &[(
            b"\x30\x07\xa2\x03\x04\x01\x09\x05\x00",
            ParseErrorKind::ExtraData,
        )],
    )
}

/// One tag in front of a field and behind it.
#[test]
fn one_tag_twice(rt: HostRuntime) -> Result<(), Fail> {
    let alloc = rt.alloc();
    are_both_ways(
        alloc,
        &[
            (around(None, None), b"\x30\x03\x01\x01\xff"),
            (around(Some(7), None), b"\x30\x06\x80\x01\x07\x01\x01\xff"),
            (around(None, Some(7)), b"\x30\x06\x01\x01\xff\x80\x01\x07"),
            (
                around(Some(7), Some(8)),
                b"\x30\x09\x80\x01\x07\x01\x01\xff\x80\x01\x08",
            ),
        ],
    )
}

fn around(before: Option<u8>, after: Option<u8>) -> Around {
    Around {
        before,
        flag: true,
        after,
    }
}

/// A choice under a tag is the alternative under the tag, and no structure.
#[test]
fn entries(rt: HostRuntime) -> Result<(), Fail> {
    let alloc = rt.alloc();
    both_ways(
        alloc,
        Entry::Either(Explicit::new(Either::Octets(b"ab"))),
        &[0xa1, 4, 4, 2, b'a', b'b'],
    )?;
    are_written_back::<Entry<'_>>(alloc, &[REPORT, &[0xa1, 2, 5, 0], &[0x49, 2, 1, 0]])?;
    let structure = ParseErrorKind::UnexpectedTag {
        actual: Tag::constructed(0x10),
    };
    are_refused::<Entry<'_>>(alloc, &[(&[0xa1, 4, 0x30, 2, 5, 0], structure)])
}

/// Each of nine alternatives is told by its tag, and the choice in the choice by its two.
#[test]
fn nine_alternatives(rt: HostRuntime) -> Result<(), Fail> {
    let alloc = rt.alloc();
    are_written_back::<Nine<'_>>(
        alloc,
        &[
            &[0x80, 1, 7],
            &[0x81, 1, 7],
            &[0x82, 1, 7],
            &[0xa3, 3, 2, 1, 7],
            &[0x44, 1, 7],
            &[0xc5, 1, 7],
            &[0x0a, 1, 3],
            &[4, 1, 7],
            &[5, 0],
            &[1, 1, 0xff],
        ],
    )?;
    let number = ParseErrorKind::UnexpectedTag {
        actual: Tag::primitive(2),
    };
    are_refused::<Nine<'_>>(alloc, &[(&[2, 1, 7], number)])
}

/// Each of two choices is told by its tags.
#[test]
fn both_choices(rt: HostRuntime) -> Result<(), Fail> {
    let alloc = rt.alloc();
    are_written_back::<Both<'_>>(
        alloc,
        &[
            &[4, 1, 7],
            &[5, 0],
            &[0xa1, 2, 0x31, 0],
            &[0xa2, 3, 4, 1, 7],
        ],
    )?;
    let unknown = ParseErrorKind::UnexpectedTag {
        actual: Tag::new(0, TagClass::ContextSpecific, true),
    };
    are_refused::<Both<'_>>(alloc, &[(&[0xa0, 3, 4, 1, 7], unknown)])
}
