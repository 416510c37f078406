//! Items that are numbers, and defaults that aren't literals.

use super::{are_written_back, is_at, other_tag, refusal};
use crate::numbers::{
    Defaults, ENC_TIMESTAMP, Named, OfVersion, OfVersionOther, PaData, PaValue, PaValueOther,
    VERSION, Version, Versioned, sha1,
};
use asn1::{DefinedByMarker, ParseErrorKind, RelativeOid, TeletexString, Tlv};
use std::test::Fail;
use testing::{are_refused, both_ways, read};

/// Of 2, of -1, of 136, and null of 3.
const ROWS: &[&[u8]] = &[
    &[0x30, 6, 2, 1, 2, 2, 1, 9],
    &[0x30, 6, 2, 1, 0xff, 1, 1, 0xff],
    &[0x30, 10, 2, 2, 0, 0x88, 0xa0, 4, 4, 2, b'a', b'b'],
    &[0x30, 5, 2, 1, 3, 5, 0],
];

#[test]
fn values_by_a_number(rt: HostRuntime) -> Result<(), Fail> {
    let alloc = rt.alloc();
    are_written_back::<PaData<'_>>(alloc, ROWS)?;
    let made = PaData {
        kind: DefinedByMarker::marker(),
        value: PaValue::Local(true),
    };
    both_ways(alloc, made, ROWS[1])?;
    is_at(
        refusal::<PaData<'_>>(alloc, &[0x30, 5, 2, 1, 2, 5, 0]),
        "PaData::value",
        other_tag(5),
    )
}

#[test]
fn values_by_other_numbers(rt: HostRuntime) -> Result<(), Fail> {
    let alloc = rt.alloc();
    let null = read::<Tlv<'_>>(alloc, &[5, 0])?;
    assert!(rt; PaValueOther::new(ENC_TIMESTAMP, null).is_none());
    assert!(rt; OfVersionOther::new(VERSION, null).is_none());
    let Some(other) = OfVersionOther::new(6, null) else {
        return Err(Fail::new(format_args!("no value")));
    };
    let made = Versioned {
        version: DefinedByMarker::marker(),
        value: OfVersion::Other(other),
    };
    both_ways(alloc, made, &[0x30, 5, 2, 1, 6, 5, 0])?;
    are_written_back::<Versioned<'_>>(alloc, &[&[0x30, 6, 2, 1, 5, 2, 1, 9]])
}

#[test]
fn defaults_by_name(rt: HostRuntime) -> Result<(), Fail> {
    let alloc = rt.alloc();
    let made = Defaults {
        version: Version::V1,
        number: 5,
        other: Version::V2,
        octets: [1, 0xff],
    };
    both_ways(alloc, made, &[0x30, 0])?;
    are_written_back::<Defaults>(
        alloc,
        &[&[
            0x30, 15, 0xa0, 3, 2, 1, 1, 2, 1, 6, 0x81, 1, 0, 4, 2, 1, 0xfe,
        ]],
    )?;
    are_refused::<Defaults>(
        alloc,
        &[
            (&[0x30, 5, 0xa0, 3, 2, 1, 0], ParseErrorKind::EncodedDefault),
            (&[0x30, 3, 2, 1, 5], ParseErrorKind::EncodedDefault),
            (&[0x30, 3, 0x81, 1, 1], ParseErrorKind::EncodedDefault),
            (&[0x30, 4, 4, 2, 1, 0xff], ParseErrorKind::EncodedDefault),
            (&[0x30, 3, 0x81, 1, 2], ParseErrorKind::InvalidValue),
        ],
    )
}

/// The default 1.3.14.3.2.26 of either field, and 1.2.3 in place of it.
#[test]
fn identifiers_as_defaults(rt: HostRuntime) -> Result<(), Fail> {
    let alloc = rt.alloc();
    let made = Named {
        hash: sha1(),
        other: sha1(),
        place: RelativeOid::from_der(&[0xc2, 0x7b, 3, 2])?,
        name: TeletexString::new(&[0xd0]),
    };
    both_ways(
        alloc,
        made,
        &[0x30, 9, 0x0d, 4, 0xc2, 0x7b, 3, 2, 0x14, 1, 0xd0],
    )?;
    are_written_back::<Named<'_>>(
        alloc,
        &[
            &[0x30, 12, 0xa0, 4, 6, 2, 0x2a, 3, 0x0d, 1, 5, 0x14, 1, 0xd0],
            &[0x30, 10, 6, 2, 0x2a, 3, 0x0d, 1, 5, 0x14, 1, 0xd0],
        ],
    )?;
    are_refused::<Named<'_>>(
        alloc,
        &[
            (
                &[
                    0x30, 15, 0xa0, 7, 6, 5, 0x2b, 0x0e, 3, 2, 0x1a, 0x0d, 1, 5, 0x14, 1, 0xd0,
                ],
                ParseErrorKind::EncodedDefault,
            ),
            (
                &[
                    0x30, 13, 6, 5, 0x2b, 0x0e, 3, 2, 0x1a, 0x0d, 1, 5, 0x14, 1, 0xd0,
                ],
                ParseErrorKind::EncodedDefault,
            ),
        ],
    )
}
