//! Bit strings: the original's cases, encodings from outside, and what is rejected.

use crate::simple_types::made::{is_hashed, is_made};
use asn1_core::{ParseErrorKind, Tag, parse_single};
use asn1_values::bit_string::{BitString, OwnedBitString};
use std::alloc::Global;
use std::test::Fail;
use testing::{
    are_equal_or_not, are_invalid, are_refused, hash_of, is_laid_out, is_shown, same, same_at,
};

const PADDING: &str = "a wrong padding";

#[test]
fn other_paddings_are_refused(rt: HostRuntime) -> Result<(), Fail> {
    const REFUSED: &[(&[u8], u8)] = &[(&[0x61, 0x62, 0x63], 8), (&[], 2), (&[0xff], 1), (&[], 8)];
    for (octets, padding) in REFUSED {
        let owned = OwnedBitString::new(Vec::from_slice(rt.alloc(), octets)?, *padding);
        let found = (BitString::new(octets, *padding).is_some(), owned.is_some());
        same_at((*octets, *padding), found, (false, false))?;
    }
    Ok(())
}

/// Octets of bits, how many of the last ones are padding, and the encoding.
const ROWS: &[(&[u8], u8, &[u8])] = &[
    (&[0xff], 0, &[0x03, 0x02, 0x00, 0xff]),
    (&[0xfe], 1, &[0x03, 0x02, 0x01, 0xfe]),
    (&[0xe0], 5, &[0x03, 0x02, 0x05, 0xe0]),
    (&[], 0, &[0x03, 0x01, 0x00]),
    (&[0x00], 7, &[0x03, 0x02, 0x07, 0x00]),
    (&[0x80], 7, &[0x03, 0x02, 0x07, 0x80]),
    (&[0x81, 0xf0], 4, &[0x03, 0x03, 0x04, 0x81, 0xf0]),
    (&[0x7e], 1, &[0x03, 0x02, 0x01, 0x7e]),
    // The example of X.690 8.6.4.2.
    (
        b"\x0a\x3b\x5f\x29\x1c\xd0",
        4,
        b"\x03\x07\x04\x0a\x3b\x5f\x29\x1c\xd0",
    ),
];

/// The bits and the owned ones are equal, as they are made and as they are read.
fn compare(alloc: Global, octets: &[u8], padding: u8, text: &[u8]) -> Result<(), Fail> {
    let bits = BitString::new(octets, padding).ok_or(PADDING)?;
    same((bits.as_bytes(), bits.padding_bits()), (octets, padding))?;
    let owned = OwnedBitString::new(Vec::from_slice(alloc, octets)?, padding).ok_or(PADDING)?;
    same(&owned.as_bitstring(), &bits)?;
    is_hashed(alloc, owned, text)?;
    is_hashed(alloc, bits, text)
}

#[test]
fn bit_strings_are_read_and_written(rt: HostRuntime) -> Result<(), Fail> {
    for (octets, padding, text) in ROWS {
        compare(rt.alloc(), octets, *padding, text)?;
    }
    Ok(())
}

/// Octets of bits, how many of the last ones are padding, the number of a bit, and whether it is set.
const BITS: &[(&[u8], u8, usize, bool)] = &[
    (&[0x80], 0, 0, true),
    (&[0x80], 0, 1, false),
    (&[0x80], 0, 7, false),
    (&[0x80], 0, 50, false),
    (&[0xc0], 4, 0, true),
    (&[0xc0], 4, 1, true),
    (&[0xc0], 4, 2, false),
    (&[0xc0], 4, 3, false),
    (&[0xc0], 4, 4, false),
    (&[0xc0], 4, 5, false),
    (&[0xc0], 4, 6, false),
    (&[0xc0], 4, 7, false),
    (&[0xc0], 4, 50, false),
];

#[test]
fn bits_are_set() -> Result<(), Fail> {
    for (octets, padding, place, is_set) in BITS {
        let bits = BitString::new(octets, *padding).ok_or(PADDING)?;
        same_at((*octets, *place), bits.has_bit_set(*place), *is_set)?;
    }
    Ok(())
}

#[test]
fn other_contents_are_no_bit_strings(rt: HostRuntime) -> Result<(), Fail> {
    const REFUSED: &[&[u8]] = &[
        &[0x03, 0x00],
        &[0x03, 0x01, 0x01],
        &[0x03, 0x02, 0x01, 0x01],
        &[0x03, 0x02, 0x07, 0x01],
        &[0x03, 0x02, 0x07, 0x40],
        &[0x03, 0x02, 0x08, 0x00],
    ];
    are_invalid::<BitString<'_>>(rt.alloc(), REFUSED)?;
    are_invalid::<OwnedBitString>(rt.alloc(), REFUSED)
}

/// The constructed encodings of X.690 8.6.4.2, which DER forbids (10.2), of indefinite and of definite length.
#[test]
fn bit_strings_in_parts_are_refused(rt: HostRuntime) -> Result<(), Fail> {
    const INDEFINITE: &[u8] = b"\x23\x80\x03\x03\x00\x0a\x3b\x03\x05\x04\x5f\x29\x1c\xd0\x00\x00";
    const DEFINITE: &[u8] = b"\x23\x0c\x03\x03\x00\x0a\x3b\x03\x05\x04\x5f\x29\x1c\xd0";
    are_refused::<BitString<'_>>(
        rt.alloc(),
        &[
            (INDEFINITE, ParseErrorKind::InvalidLength),
            (
                DEFINITE,
                ParseErrorKind::UnexpectedTag {
                    actual: Tag::constructed(0x03),
                },
            ),
        ],
    )
}

const TEXT: &[u8] = &[0x03, 0x03, 0x04, 0x81, 0xf0];

#[test]
fn bit_strings_are_shown_cloned_and_hashed(rt: HostRuntime) -> Result<(), Fail> {
    let alloc = rt.alloc();
    let bits = BitString::new(&[0x81, 0xf0], 4).ok_or(PADDING)?;
    is_shown(
        alloc,
        &bits,
        "BitString { data: [129, 240], padding_bits: 4 }",
    )?;
    let read = parse_single::<BitString<'_>>(alloc, TEXT)?;
    same(&bits.clone()?, &read)?;
    same(hash_of(&bits), hash_of(&read))
}

#[test]
fn owned_bit_strings_are_shown_cloned_and_hashed(rt: HostRuntime) -> Result<(), Fail> {
    let alloc = rt.alloc();
    let owned = parse_single::<OwnedBitString>(alloc, TEXT)?;
    is_shown(
        alloc,
        &owned,
        "OwnedBitString { data: [129, 240], padding_bits: 4 }",
    )?;
    let copy = owned.clone()?;
    same(hash_of(&copy), hash_of(&owned))?;
    same(&copy, &owned)
}

/// A bit string of 300 octets.
#[test]
fn long_bit_strings_are_cloned(rt: HostRuntime) -> Result<(), Fail> {
    let alloc = rt.alloc();
    let mut text = [0x61; 305];
    text[..5].copy_from_slice(&[0x03, 0x82, 0x01, 0x2d, 0x00]);
    let owned = OwnedBitString::new(Vec::from_slice(alloc, &[0x61; 300])?, 0).ok_or(PADDING)?;
    is_made(alloc, owned, &text)
}

#[test]
fn bit_strings_are_laid_out(rt: HostRuntime) -> Result<(), Fail> {
    let alloc = rt.alloc();
    let bits = BitString::new(&[0x81, 0xf0], 4).ok_or(PADDING)?;
    is_laid_out(
        alloc,
        &bits,
        "BitString {\n    data: [\n        129,\n        240,\n    ],\n    padding_bits: 4,\n}",
    )?;
    let owned = OwnedBitString::new(Vec::from_slice(alloc, &[0xfe])?, 1);
    is_laid_out(
        alloc,
        &owned.ok_or(PADDING)?,
        "OwnedBitString {\n    data: [\n        254,\n    ],\n    padding_bits: 1,\n}",
    )
}

#[test]
fn other_bit_strings_are_unequal(rt: HostRuntime) -> Result<(), Fail> {
    const DIFFERENT: &[(&[u8], &[u8], bool)] = &[
        (&[0x03, 0x02, 0x00, 0x80], &[0x03, 0x02, 0x07, 0x80], false),
        (&[0x03, 0x02, 0x06, 0x80], &[0x03, 0x02, 0x07, 0x80], false),
        (TEXT, &[0x03, 0x03, 0x04, 0x81, 0xe0], false),
        (TEXT, &[0x03, 0x03, 0x04, 0x01, 0xf0], false),
        (
            &[0x03, 0x02, 0x00, 0x00],
            &[0x03, 0x03, 0x00, 0x00, 0x00],
            false,
        ),
        (&[0x03, 0x01, 0x00], &[0x03, 0x02, 0x00, 0x00], false),
    ];
    are_equal_or_not::<BitString<'_>>(rt.alloc(), DIFFERENT)?;
    are_equal_or_not::<OwnedBitString>(rt.alloc(), DIFFERENT)
}
