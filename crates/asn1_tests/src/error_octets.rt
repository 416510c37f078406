//! The octet at which an input is rejected: where `openssl asn1parse` lists the element, if it reads the input.

use crate::headline::Holder;
use crate::lists::List;
use crate::structures::Defaults;
use asn1::{
    OctetStringEncoded, ParseError, ParseErrorKind, SequenceOf, Tag, error_octet, expects_tag,
    parse_single,
};
use std::test::Fail;
use testing::{same, same_at};

/// Each input is rejected at the octet of its row, or isn't rejected.
fn are_rejected_at<F: Fn(&[u8]) -> Option<ParseError>>(
    rows: &[(&[u8], Option<usize>)],
    rejects: F,
) -> Result<(), Fail>
    requires { F.IsAlwaysCallable rejects }
{
    let mut scratch = [0; 64];
    for (octets, wanted) in rows {
        let found = error_octet(octets, scratch.as_mut_slice(), |it: &[u8]| rejects(it));
        same_at(*octets, found, *wanted)?;
    }
    Ok(())
}

/// A mark, and a set of pairs of numbers.
const HOLDERS: &[(&[u8], Option<usize>)] = &[
    (
        b"\x30\x15\x01\x01\xff\x31\x10\x30\x06\x02\x01\x01\x02\x01\x02\x30\x06\x02\x01\x03\x02\x01\x04",
        None,
    ),
    // Another tag than that of the whole, of the mark, of the second pair, of a number in it.
    (
        b"\x31\x15\x01\x01\xff\x31\x10\x30\x06\x02\x01\x01\x02\x01\x02\x30\x06\x02\x01\x03\x02\x01\x04",
        Some(0),
    ),
    (
        b"\x30\x15\x02\x01\xff\x31\x10\x30\x06\x02\x01\x01\x02\x01\x02\x30\x06\x02\x01\x03\x02\x01\x04",
        Some(2),
    ),
    (
        b"\x30\x15\x01\x01\xff\x31\x10\x30\x06\x02\x01\x01\x02\x01\x02\x31\x06\x02\x01\x03\x02\x01\x04",
        Some(15),
    ),
    (
        b"\x30\x15\x01\x01\xff\x31\x10\x30\x06\x02\x01\x01\x02\x01\x02\x30\x06\x02\x01\x03\x04\x01\x04",
        Some(20),
    ),
    // A Boolean of 01, an integer with a zero octet too many, a negative number, one above 2^64.
    (
        b"\x30\x15\x01\x01\x01\x31\x10\x30\x06\x02\x01\x01\x02\x01\x02\x30\x06\x02\x01\x03\x02\x01\x04",
        Some(2),
    ),
    (
        b"\x30\x16\x01\x01\xff\x31\x11\x30\x06\x02\x01\x01\x02\x01\x02\x30\x07\x02\x02\x00\x03\x02\x01\x04",
        Some(17),
    ),
    (
        b"\x30\x15\x01\x01\xff\x31\x10\x30\x06\x02\x01\x01\x02\x01\xff\x30\x06\x02\x01\x03\x02\x01\x04",
        Some(12),
    ),
    (
        b"\x30\x0d\x01\x01\xff\x31\x10\x30\x0e\x02\x09\x01\x00\x00\x00\x00\x00\x00\x00\x00\x02\x01\x02",
        Some(15),
    ),
    (
        b"\x30\x15\x01\x01\xff\x31\x10\x30\x0e\x02\x09\x01\x00\x00\x00\x00\x00\x00\x00\x00\x02\x01\x02",
        Some(9),
    ),
    // The second pair is less than the first.
    (
        b"\x30\x15\x01\x01\xff\x31\x10\x30\x06\x02\x01\x03\x02\x01\x02\x30\x06\x02\x01\x01\x02\x01\x04",
        Some(15),
    ),
    // Octets are left over: in a pair, in the whole, after the whole.
    (
        b"\x30\x0f\x01\x01\xff\x31\x0a\x30\x08\x02\x01\x01\x02\x01\x02\x05\x00",
        Some(15),
    ),
    (
        b"\x30\x0f\x01\x01\xff\x31\x08\x30\x06\x02\x01\x01\x02\x01\x02\x05\x00",
        Some(15),
    ),
    (
        b"\x30\x0d\x01\x01\xff\x31\x08\x30\x06\x02\x01\x01\x02\x01\x02\x0a",
        Some(15),
    ),
    // Octets are missing: a number of the first pair, contents octets in it, the set, the end.
    (
        b"\x30\x12\x01\x01\xff\x31\x0d\x30\x03\x02\x01\x01\x30\x06\x02\x01\x03\x02\x01\x04",
        Some(12),
    ),
    (
        b"\x30\x15\x01\x01\xff\x31\x10\x30\x06\x02\x01\x01\x02\x02\x02\x30\x06\x02\x01\x03\x02\x01\x04",
        Some(15),
    ),
    (b"\x30\x03\x01\x01\xff", Some(5)),
    (b"\x30\x15\x01\x01\xff\x31\x10\x30\x06", Some(9)),
    (b"", Some(0)),
    // Malformed identifier and length octets: of a pair, of its first number, of its second one, of the whole.
    (
        b"\x30\x0d\x01\x01\xff\x31\x08\x1f\x80\x02\x01\x01\x02\x01\x02",
        Some(7),
    ),
    (
        b"\x30\x0d\x01\x01\xff\x31\x08\x30\x06\x02\x80\x01\x02\x01\x02",
        Some(9),
    ),
    (
        b"\x30\x0d\x01\x01\xff\x31\x08\x30\x06\x02\x01\x01\x02\x80\x02",
        Some(12),
    ),
    (
        b"\x30\x0e\x01\x01\xff\x31\x09\x30\x81\x06\x02\x01\x01\x02\x01\x02",
        Some(7),
    ),
    (b"\x30\x80\x01\x01\xff\x31\x00\x00\x00", Some(0)),
];

/// The octet of an error is that of the element which is wrong, of the end, or of what is left over.
#[test]
fn errors_are_at_octets(rt: HostRuntime) -> Result<(), Fail> {
    let alloc = rt.alloc();
    are_rejected_at(HOLDERS, |octets: &[u8]| {
        parse_single::<Holder<'_>>(alloc, octets).err()
    })?;
    // A default under an explicit tag, and under an implicit one.
    are_rejected_at(
        &[
            (&[0x30, 6, 0xbf, 0x1f, 3, 2, 1, 3], Some(5)),
            (&[0x30, 4, 0x9f, 0x7f, 1, 3], Some(2)),
        ],
        |octets: &[u8]| parse_single::<Defaults>(alloc, octets).err(),
    )?;
    // One item is wanted.
    are_rejected_at(
        &[
            (&[0x30, 0], Some(0)),
            (&[0x30, 6, 2, 1, 1, 2, 1, 2], Some(0)),
        ],
        |octets: &[u8]| parse_single::<SequenceOf<'_, u64, 1, 1>>(alloc, octets).err(),
    )
}

/// Octets are missing where the innermost element ends that lacks them: in a list, and in an octet string that holds an
/// encoding. What looks like a header within an octet string is none.
#[test]
fn octets_are_missing_at_the_end_of_an_element(rt: HostRuntime) -> Result<(), Fail> {
    let alloc = rt.alloc();
    are_rejected_at(
        &[
            (&[0x30, 8, 0x30, 2, 1, 1, 0x30, 2, 0, 0], Some(6)),
            (&[0x30, 9, 0x30, 7, 1, 1, 0xff, 1, 1, 0, 1], Some(11)),
            (&[0x30, 4, 0x30, 3, 1, 1], Some(6)),
            (&[0x30], Some(1)),
        ],
        |octets: &[u8]| { parse_single::<List<'_, List<'_, bool>>>(alloc, octets).err() },
    )?;
    are_rejected_at(
        &[(&[4, 2, 1, 1, 5, 0], Some(4)), (&[4, 2, 0x30, 0x80], None)],
        |octets: &[u8]| parse_single::<OctetStringEncoded<bool>>(alloc, octets).err(),
    )
}

/// A copy is needed.
#[test]
fn short_scratch(rt: HostRuntime) -> Result<(), Fail> {
    let alloc = rt.alloc();
    let octets: &[u8] = &[1, 1, 1];
    let mut scratch = [0; 2];
    let octet = error_octet(octets, scratch.as_mut_slice(), |octets: &[u8]| {
        parse_single::<bool>(alloc, octets).err()
    });
    same(octet, None)?;
    let octet = error_octet(octets, &mut [0; 3], |octets: &[u8]| {
        parse_single::<bool>(alloc, octets).err()
    });
    same(octet, Some(0))
}

/// An error of all inputs is at no octet.
#[test]
fn no_octet_decides() -> Result<(), Fail> {
    let octet = error_octet(&[1, 1, 1], &mut [0; 3], |_octets: &[u8]| {
        Some(ParseError::new(ParseErrorKind::InvalidValue))
    });
    same(octet, None)
}

/// Places of tags of a mark and a set of pairs, other tags, and whether these are expected there.
const TAGS: &[(usize, &[u8], Option<bool>)] = &[
    (0, &[0x30], Some(true)),
    (0, &[0x31], Some(false)),
    (2, &[0x01], Some(true)),
    (2, &[0x02], Some(false)),
    (5, &[0x31], Some(true)),
    (5, &[0x01], Some(false)),
    (15, &[0x30], Some(true)),
    (15, &[0x31], Some(false)),
    (15, &[0x02], Some(false)),
    (20, &[0x02], Some(true)),
    (20, &[0x04], Some(false)),
    (20, &[0x1f, 0x1f], None),
    (40, &[0x02], None),
];

#[test]
fn tags_are_expected(rt: HostRuntime) -> Result<(), Fail> {
    let alloc = rt.alloc();
    let mut scratch = [0; 64];
    for (octet, identifier, wanted) in TAGS {
        let (tag, _rest) = Tag::from_bytes(identifier)?;
        let mut octets =
            *b"\x30\x15\x01\x01\xff\x31\x10\x30\x06\x02\x01\x01\x02\x01\x02\x30\x06\x02\x01\x03\x02\x01\x04";
        if let Some(found) = octets.get_mut(*octet) {
            *found = 0x33;
        }
        let (octets, octet) = (octets.as_slice(), *octet);
        let unexpected = ParseErrorKind::UnexpectedTag { actual: tag };
        let error = parse_single::<Holder<'_>>(alloc, octets).err();
        let error = error.unwrap_or(ParseError::new(unexpected));
        let is_expected = expects_tag(
            octets,
            &error,
            octet,
            tag,
            scratch.as_mut_slice(),
            |octets: &[u8]| { parse_single::<Holder<'_>>(alloc, octets).err() },
        );
        same(is_expected, *wanted)?;
    }
    Ok(())
}
