use crate::simple_types::made::{is_hashed, is_made};
use asn1_core::ParseErrorKind;
use asn1_values::values::{BigInt, BigUint, Enumerated, OwnedBigInt, OwnedBigUint};
use std::alloc::Global;
use std::test::Fail;
use testing::{
    are_equal_or_not, are_invalid, are_refused, both_ways, different, is_laid_out, is_shown, read,
    same, same_at,
};

const NONE: &str = "no content";

/// The encoding of an integer of twelve octets, less than 0.
const TWELVE: &[u8] = &[
    0x02, 0x0c, 0xff, 0x7f, 0xff, 0xff, 0xff, 0xff, 0xff, 0xff, 0xff, 0xff, 0xff, 0xff,
];

/// Encodings of integers, with their contents octets. None of these is less than 0.
const UNSIGNED: &[(&[u8], &[u8])] = &[
    (&[0x02, 0x01, 0x00], &[0x00]),
    (&[0x02, 0x01, 0x01], &[0x01]),
    (&[0x02, 0x02, 0x7f, 0xff], &[0x7f, 0xff]),
    (&[0x02, 0x02, 0x00, 0xff], &[0x00, 0xff]),
    (&[0x02, 0x02, 0x00, 0x80], &[0x00, 0x80]),
    (&[0x02, 0x03, 0x00, 0xff, 0xff], &[0x00, 0xff, 0xff]),
    (
        &[
            0x02, 0x0d, 0x00, 0xff, 0xff, 0xff, 0xff, 0xff, 0xff, 0xff, 0xff, 0xff, 0xff, 0xff,
            0xff,
        ],
        &[
            0x00, 0xff, 0xff, 0xff, 0xff, 0xff, 0xff, 0xff, 0xff, 0xff, 0xff, 0xff, 0xff,
        ],
    ),
];

/// The same of integers less than 0.
const NEGATIVE: &[(&[u8], &[u8])] = &[
    (&[0x02, 0x01, 0x80], &[0x80]),
    (&[0x02, 0x01, 0xff], &[0xff]),
    (&[0x02, 0x02, 0xff, 0x00], &[0xff, 0x00]),
    (
        TWELVE,
        &[
            0xff, 0x7f, 0xff, 0xff, 0xff, 0xff, 0xff, 0xff, 0xff, 0xff, 0xff, 0xff,
        ],
    ),
];

fn are_signed(alloc: Global, rows: &[(&[u8], &[u8])]) -> Result<(), Fail> {
    for (text, content) in rows {
        let number = BigInt::new(content).ok_or(NONE)?;
        same(number.as_bytes(), *content)?;
        is_hashed(alloc, number, text)?;
    }
    Ok(())
}

#[test]
fn signed_integers_of_any_length(rt: HostRuntime) -> Result<(), Fail> {
    are_signed(rt.alloc(), UNSIGNED)?;
    are_signed(rt.alloc(), NEGATIVE)
}

fn are_owned_signed(alloc: Global, rows: &[(&[u8], &[u8])]) -> Result<(), Fail> {
    for (text, content) in rows {
        let number = OwnedBigInt::new(Vec::from_slice(alloc, content)?).ok_or(NONE)?;
        same(number.as_bytes(), *content)?;
        is_hashed(alloc, number, text)?;
    }
    Ok(())
}

#[test]
fn owned_signed_integers_of_any_length(rt: HostRuntime) -> Result<(), Fail> {
    are_owned_signed(rt.alloc(), UNSIGNED)?;
    are_owned_signed(rt.alloc(), NEGATIVE)
}

#[test]
fn unsigned_integers_of_any_length(rt: HostRuntime) -> Result<(), Fail> {
    for (text, content) in UNSIGNED {
        let number = BigUint::new(content).ok_or(NONE)?;
        same(number.as_bytes(), *content)?;
        is_hashed(rt.alloc(), number, text)?;
    }
    Ok(())
}

#[test]
fn owned_unsigned_integers_of_any_length(rt: HostRuntime) -> Result<(), Fail> {
    for (text, content) in UNSIGNED {
        let number = OwnedBigUint::new(Vec::from_slice(rt.alloc(), content)?).ok_or(NONE)?;
        same(number.as_bytes(), *content)?;
        is_hashed(rt.alloc(), number, text)?;
    }
    Ok(())
}

/// Contents octets of no integer.
const OTHERS: &[&[u8]] = &[
    &[],
    &[0x00, 0x01],
    &[0x00, 0x7f],
    &[0xff, 0x80],
    &[0xff, 0xff],
    &[0x00, 0x00, 0x80],
];

/// Octets with the tag of an integer and these contents octets.
const OTHER_TEXTS: &[&[u8]] = &[
    &[0x02, 0x00],
    &[0x02, 0x02, 0x00, 0x01],
    &[0x02, 0x02, 0x00, 0x7f],
    &[0x02, 0x02, 0xff, 0x80],
    &[0x02, 0x02, 0xff, 0xff],
    &[0x02, 0x03, 0x00, 0x00, 0x80],
];

/// There is no integer with these contents octets.
fn is_no_signed_integer(alloc: Global, content: &[u8]) -> Result<(), Fail> {
    let owned = OwnedBigInt::new(Vec::from_slice(alloc, content)?);
    let found = (BigInt::new(content).is_some(), owned.is_some());
    same_at(content, found, (false, false))
}

/// There is no integer from 0 on with these contents octets.
fn is_no_unsigned_integer(alloc: Global, content: &[u8]) -> Result<(), Fail> {
    let owned = OwnedBigUint::new(Vec::from_slice(alloc, content)?);
    let found = (BigUint::new(content).is_some(), owned.is_some());
    same_at(content, found, (false, false))
}

#[test]
fn other_contents_are_refused(rt: HostRuntime) -> Result<(), Fail> {
    for content in OTHERS {
        is_no_signed_integer(rt.alloc(), content)?;
        is_no_unsigned_integer(rt.alloc(), content)?;
    }
    are_invalid::<BigInt<'_>>(rt.alloc(), OTHER_TEXTS)?;
    are_invalid::<OwnedBigInt>(rt.alloc(), OTHER_TEXTS)?;
    are_invalid::<BigUint<'_>>(rt.alloc(), OTHER_TEXTS)?;
    are_invalid::<OwnedBigUint>(rt.alloc(), OTHER_TEXTS)
}

#[test]
fn negative_contents_are_refused(rt: HostRuntime) -> Result<(), Fail> {
    const TEXTS: &[&[u8]] = &[&[0x02, 0x01, 0x80], &[0x02, 0x01, 0xff], TWELVE];
    are_invalid::<BigUint<'_>>(rt.alloc(), TEXTS)?;
    are_invalid::<OwnedBigUint>(rt.alloc(), TEXTS)?;
    for (_, content) in NEGATIVE {
        is_no_unsigned_integer(rt.alloc(), content)?;
    }
    Ok(())
}

/// Encodings of integers, how many binary digits each has, and whether it is less than 0: 0, 1, 2, 3, 127, 128, 255,
/// 256, 65535 and 65536, and then those below 0: -1, -2, -3, -127, -128, -129, -255, -256, -65535 and -65536.
const DIGITS: &[(&[u8], usize, bool)] = &[
    (&[0x02, 0x01, 0x00], 0, false),
    (&[0x02, 0x01, 0x01], 1, false),
    (&[0x02, 0x01, 0x02], 2, false),
    (&[0x02, 0x01, 0x03], 2, false),
    (&[0x02, 0x01, 0x7f], 7, false),
    (&[0x02, 0x02, 0x00, 0x80], 8, false),
    (&[0x02, 0x02, 0x00, 0xff], 8, false),
    (&[0x02, 0x02, 0x01, 0x00], 9, false),
    (&[0x02, 0x03, 0x00, 0xff, 0xff], 16, false),
    (&[0x02, 0x03, 0x01, 0x00, 0x00], 17, false),
    (&[0x02, 0x01, 0xff], 1, true),
    (&[0x02, 0x01, 0xfe], 2, true),
    (&[0x02, 0x01, 0xfd], 2, true),
    (&[0x02, 0x01, 0x81], 7, true),
    (&[0x02, 0x01, 0x80], 8, true),
    (&[0x02, 0x02, 0xff, 0x7f], 8, true),
    (&[0x02, 0x02, 0xff, 0x01], 8, true),
    (&[0x02, 0x02, 0xff, 0x00], 9, true),
    (&[0x02, 0x03, 0xff, 0x00, 0x01], 16, true),
    (&[0x02, 0x03, 0xff, 0x00, 0x00], 17, true),
];

#[test]
fn binary_digits_are_counted(rt: HostRuntime) -> Result<(), Fail> {
    for (text, count, is_negative) in DIGITS {
        let number = read::<BigInt<'_>>(rt.alloc(), text)?;
        assert!(rt; number.as_bytes().len() < 0x80);
        let found = (number.bit_length(), number.is_negative());
        same_at(*text, found, (*count, *is_negative))?;
    }
    Ok(())
}

#[test]
fn binary_digits_of_owned_integers(rt: HostRuntime) -> Result<(), Fail> {
    for (text, count, is_negative) in DIGITS {
        let number = read::<OwnedBigInt>(rt.alloc(), text)?;
        assert!(rt; number.as_bytes().len() < 0x80);
        let found = (number.bit_length(), number.is_negative());
        same_at(*text, found, (*count, *is_negative))?;
    }
    Ok(())
}

#[test]
fn copies_are_equal(rt: HostRuntime) -> Result<(), Fail> {
    let signed = read::<OwnedBigInt>(rt.alloc(), &[0x02, 0x02, 0x00, 0x80])?;
    same(&signed.clone()?, &signed)
}

#[test]
fn copies_of_unsigned_integers_are_equal(rt: HostRuntime) -> Result<(), Fail> {
    let unsigned = read::<OwnedBigUint>(rt.alloc(), &[0x02, 0x02, 0x00, 0x80])?;
    same(&unsigned.clone()?, &unsigned)
}

/// Integers of 300 octets.
#[test]
fn long_integers_are_cloned(rt: HostRuntime) -> Result<(), Fail> {
    let alloc = rt.alloc();
    let mut text = [0x61; 304];
    text[..4].copy_from_slice(&[0x02, 0x82, 0x01, 0x2c]);
    let signed = OwnedBigInt::new(Vec::from_slice(alloc, &[0x61; 300])?).ok_or(NONE)?;
    is_made(alloc, signed, &text)?;
    let unsigned = OwnedBigUint::new(Vec::from_slice(alloc, &[0x61; 300])?).ok_or(NONE)?;
    is_made(alloc, unsigned, &text)
}

#[test]
fn enumerated_values(rt: HostRuntime) -> Result<(), Fail> {
    const ROWS: &[(u32, &[u8])] = &[
        (0, &[0x0a, 0x01, 0x00]),
        (4, &[0x0a, 0x01, 0x04]),
        (12, &[0x0a, 0x01, 0x0c]),
        (4294967295, &[0x0a, 0x05, 0x00, 0xff, 0xff, 0xff, 0xff]),
    ];
    for (number, text) in ROWS {
        same(Enumerated::new(*number).value(), *number)?;
        both_ways(rt.alloc(), Enumerated::new(*number), text)?;
    }
    Ok(())
}

#[test]
fn other_contents_are_no_enumerated_values(rt: HostRuntime) -> Result<(), Fail> {
    are_refused::<Enumerated>(
        rt.alloc(),
        &[
            (
                &[0x0a, 0x05, 0x01, 0x00, 0x00, 0x00, 0x00],
                ParseErrorKind::IntegerOverflow,
            ),
            (&[0x0a, 0x01, 0xff], ParseErrorKind::InvalidValue),
        ],
    )
}

#[test]
fn integers_are_shown(rt: HostRuntime) -> Result<(), Fail> {
    let alloc = rt.alloc();
    let signed = BigInt::new(&[0x00, 0xff]).ok_or(NONE)?;
    is_shown(alloc, &signed, "BigInt { data: [0, 255] }")?;
    let unsigned = BigUint::new(&[0x00, 0xff]).ok_or(NONE)?;
    is_shown(alloc, &unsigned, "BigUint { data: [0, 255] }")?;
    is_shown(alloc, &Enumerated::new(4), "Enumerated(4)")
}

#[test]
fn owned_integers_are_shown(rt: HostRuntime) -> Result<(), Fail> {
    let alloc = rt.alloc();
    let signed = read::<OwnedBigInt>(alloc, &[0x02, 0x02, 0x00, 0xff])?;
    is_shown(alloc, &signed, "OwnedBigInt { data: [0, 255] }")?;
    let unsigned = read::<OwnedBigUint>(alloc, &[0x02, 0x02, 0x00, 0xff])?;
    is_shown(alloc, &unsigned, "OwnedBigUint { data: [0, 255] }")
}

/// Unequal integers: they differ in sign, in one octet, in length.
#[test]
fn other_signed_integers_are_unequal(rt: HostRuntime) -> Result<(), Fail> {
    const ROWS: &[(&[u8], &[u8], bool)] = &[
        (&[0x02, 0x01, 0x01], &[0x02, 0x01, 0xff], false),
        (&[0x02, 0x02, 0x00, 0x80], &[0x02, 0x01, 0x80], false),
        (&[0x02, 0x02, 0x01, 0x00], &[0x02, 0x02, 0x01, 0x01], false),
        (&[0x02, 0x02, 0x01, 0x00], &[0x02, 0x02, 0x02, 0x00], false),
        (&[0x02, 0x01, 0x00], &[0x02, 0x01, 0x01], false),
        (&[0x02, 0x01, 0x7f], &[0x02, 0x02, 0x7f, 0x7f], false),
    ];
    are_equal_or_not::<BigInt<'_>>(rt.alloc(), ROWS)?;
    are_equal_or_not::<OwnedBigInt>(rt.alloc(), ROWS)
}

#[test]
fn other_unsigned_integers_are_unequal(rt: HostRuntime) -> Result<(), Fail> {
    const ROWS: &[(&[u8], &[u8], bool)] = &[
        (&[0x02, 0x02, 0x00, 0x80], &[0x02, 0x01, 0x7f], false),
        (&[0x02, 0x02, 0x01, 0x00], &[0x02, 0x02, 0x01, 0x01], false),
        (&[0x02, 0x01, 0x00], &[0x02, 0x01, 0x01], false),
        (&[0x02, 0x01, 0x7f], &[0x02, 0x02, 0x7f, 0x7f], false),
    ];
    are_equal_or_not::<BigUint<'_>>(rt.alloc(), ROWS)?;
    are_equal_or_not::<OwnedBigUint>(rt.alloc(), ROWS)
}

#[test]
fn other_enumerated_values_are_unequal() -> Result<(), Fail> {
    const ROWS: &[(u32, u32)] = &[(0, 1), (4, 5), (1, 257), (0, 4294967295)];
    for (value, other) in ROWS {
        different(&Enumerated::new(*value), &Enumerated::new(*other))?;
    }
    Ok(())
}

#[test]
fn integers_are_laid_out(rt: HostRuntime) -> Result<(), Fail> {
    let alloc = rt.alloc();
    let signed = BigInt::new(&[0x00, 0xff]).ok_or(NONE)?;
    is_laid_out(
        alloc,
        &signed,
        "BigInt {\n    data: [\n        0,\n        255,\n    ],\n}",
    )?;
    let unsigned = BigUint::new(&[0x00, 0xff]).ok_or(NONE)?;
    is_laid_out(
        alloc,
        &unsigned,
        "BigUint {\n    data: [\n        0,\n        255,\n    ],\n}",
    )
}

#[test]
fn owned_integers_are_laid_out(rt: HostRuntime) -> Result<(), Fail> {
    let alloc = rt.alloc();
    let signed = read::<OwnedBigInt>(alloc, &[0x02, 0x01, 0x80])?;
    is_laid_out(
        alloc,
        &signed,
        "OwnedBigInt {\n    data: [\n        128,\n    ],\n}",
    )?;
    let unsigned = read::<OwnedBigUint>(alloc, &[0x02, 0x01, 0x7f])?;
    is_laid_out(
        alloc,
        &unsigned,
        "OwnedBigUint {\n    data: [\n        127,\n    ],\n}",
    )
}
