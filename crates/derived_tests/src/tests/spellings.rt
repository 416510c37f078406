//! Types that were declared in other spellings.

use super::are_written_back;
use crate::spellings::{Received, Sent, Spelled};
use asn1::ParseErrorKind;
use std::test::Fail;
use testing::{are_refused, is_written, read, same};

/// Sixteen octets, a list of one number, and a text.
const FEW: &[u8] = &[
    0x30, 26, 4, 16, 0, 1, 2, 3, 4, 5, 6, 7, 8, 9, 10, 11, 12, 13, 14, 15, 0x30, 3, 2, 1, 7, 0x16,
    1, b'a',
];

/// The same with a list of two numbers with the tag 31, and with values other than the defaults.
const ALL: &[u8] = &[
    0x30, 44, 4, 16, 0, 1, 2, 3, 4, 5, 6, 7, 8, 9, 10, 11, 12, 13, 14, 15, 0x30, 3, 2, 1, 7, 0xbf,
    0x1f, 6, 2, 1, 1, 2, 1, 2, 0x8a, 1, 0x81, 0xa4, 4, 2, 2, 0, 0xfe, 0x16, 1, b'a',
];

/// The default -128 with its tag, 10.
const LOW: &[u8] = &[
    0x30, 29, 4, 16, 0, 1, 2, 3, 4, 5, 6, 7, 8, 9, 10, 11, 12, 13, 14, 15, 0x30, 3, 2, 1, 7, 0x8a,
    1, 0x80, 0x16, 1, b'a',
];

#[test]
fn spelled_fields(rt: HostRuntime) -> Result<(), Fail> {
    let alloc = rt.alloc();
    are_written_back::<Spelled<'_>>(alloc, &[FEW, ALL])?;
    same(Spelled::NAMES, &[("Spelled::more", "any-number")])?;
    are_refused::<Spelled<'_>>(alloc, &[(LOW, ParseErrorKind::EncodedDefault)])
}

/// A type that is only read, and one that is only written.
#[test]
fn one_way(rt: HostRuntime) -> Result<(), Fail> {
    let octets = &[0x30, 3, 2, 1, 7];
    same(read::<Received>(rt.alloc(), octets)?.number, 7)?;
    is_written(rt.alloc(), &Sent { number: 7 }, octets)
}
