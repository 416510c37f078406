//! Object identifiers: values from outside.

use crate::simple_types::made::is_hashed;
use asn1_core::ParseErrorKind;
use asn1_values::ObjectIdentifier;
use std::test::Fail;
use testing::{different, hash_of, is_displayed, is_laid_out, is_shown, kind_of, same, same_at};

const NONE: &str = "no identifier";

const INVALID: Option<ParseErrorKind> = Some(ParseErrorKind::InvalidValue);

/// The contents octets of the greatest first number, 2^128 - 1.
const GREATEST: [u8; 19] = [
    0x83, 0xff, 0xff, 0xff, 0xff, 0xff, 0xff, 0xff, 0xff, 0xff, 0xff, 0xff, 0xff, 0xff, 0xff, 0xff,
    0xff, 0xff, 0x7f,
];

/// The number 2^128 in base 128.
const TOO_GREAT: [u8; 19] = [
    0x84, 0x80, 0x80, 0x80, 0x80, 0x80, 0x80, 0x80, 0x80, 0x80, 0x80, 0x80, 0x80, 0x80, 0x80, 0x80,
    0x80, 0x80, 0x00,
];

#[test]
fn texts_are_read_and_shown(rt: HostRuntime) -> Result<(), Fail> {
    const TEXTS: &[&str] = &[
        "0.0",
        "0.4",
        "2.5",
        "2.39",
        "2.5.2",
        "1.2.3.4",
        "2.100.3",
        "1.2.840.113549",
        "1.2.840.133549.1.1.5",
        "2.1.750304883",
        "2.25.223663413560230117710484359924050447509",
        "2.25.340282366920938463463374607431768211455",
        "2.340282366920938463463374607431768211375",
    ];
    for text in TEXTS {
        let identifier = ObjectIdentifier::from_string(text).ok_or(NONE)?;
        is_displayed(rt.alloc(), &identifier, text)?;
    }
    Ok(())
}

#[test]
fn other_texts_of_an_identifier(rt: HostRuntime) -> Result<(), Fail> {
    let alloc = rt.alloc();
    let identifier = ObjectIdentifier::from_string("1.+2.03").ok_or(NONE)?;
    same(identifier.as_der(), &[0x2a, 0x03])?;
    is_displayed(alloc, &identifier, "1.2.3")
}

#[test]
fn identifiers_are_shown(rt: HostRuntime) -> Result<(), Fail> {
    let alloc = rt.alloc();
    let identifier = ObjectIdentifier::from_string("1.2.3.4").ok_or(NONE)?;
    is_shown(alloc, &identifier, "ObjectIdentifier { oid: 1.2.3.4 }")?;
    is_laid_out(
        alloc,
        &identifier,
        "ObjectIdentifier {\n    oid: 1.2.3.4,\n}",
    )
}

#[test]
fn other_identifiers_are_unequal() -> Result<(), Fail> {
    const ROWS: &[(&str, &str)] = &[
        ("1.2.3.4", "1.2.3.5"),
        ("1.2.3.4", "1.2.3"),
        ("1.2.3.4", "1.3.3.4"),
        ("1.2.3", "1.2.3.0"),
        ("2.5.129", "2.5.1.1"),
    ];
    for (text, other) in ROWS {
        let identifier = ObjectIdentifier::from_string(text).ok_or(NONE)?;
        let other = ObjectIdentifier::from_string(other).ok_or(NONE)?;
        different(&identifier, &other)?;
    }
    Ok(())
}

#[test]
fn equal_identifiers_hash_alike() -> Result<(), Fail> {
    let identifier = ObjectIdentifier::from_string("1.+2.03").ok_or(NONE)?;
    let other = ObjectIdentifier::from_der(&[0x2a, 0x03])?;
    same(&other, &identifier)?;
    same(hash_of(&other), hash_of(&identifier))
}

#[test]
fn other_texts_are_refused() -> Result<(), Fail> {
    const TEXTS: &[&str] = &[
        "",
        "1",
        "3.1",
        "3.10",
        "1.50",
        "2.12.a3.4",
        "a.4",
        "1.a",
        ".1",
        ".2.5",
        "1..2",
        "2..5",
        "1.-2",
        "2.5.",
        "2.340282366920938463463374607431768211376",
        "1.3.6.1.4.1.1248.1.1.2.1.3.21.69.112.115.111.110.32.83.116.121.108.117.115.32.80.114.111.32.52.57.48.48.123.124412.31.213321.123.110.32.83.116.121.108.117.115.32.80.114.111.32.52.57.48.48.123.124412.31.213321.123",
    ];
    for text in TEXTS {
        same_at(*text, ObjectIdentifier::from_string(text).is_some(), false)?;
    }
    Ok(())
}

#[test]
fn elements_are_read_and_written(rt: HostRuntime) -> Result<(), Fail> {
    const ROWS: &[(&str, &[u8])] = &[
        ("2.5", &[0x06, 0x01, 0x55]),
        ("2.5.2", &[0x06, 0x02, 0x55, 0x02]),
        ("2.4.0", &[0x06, 0x02, 0x54, 0x00]),
        ("1.2.3.4", &[0x06, 0x03, 0x2a, 0x03, 0x04]),
        ("2.100.3", &[0x06, 0x03, 0x81, 0x34, 0x03]),
        (
            "1.2.840.113549",
            &[0x06, 0x06, 0x2a, 0x86, 0x48, 0x86, 0xf7, 0x0d],
        ),
        (
            "1.2.840.133549.1.1.5",
            &[
                0x06, 0x09, 0x2a, 0x86, 0x48, 0x88, 0x93, 0x2d, 0x01, 0x01, 0x05,
            ],
        ),
    ];
    for (text, octets) in ROWS {
        let identifier = ObjectIdentifier::from_string(text).ok_or(NONE)?;
        is_hashed(rt.alloc(), identifier, octets)?;
    }
    Ok(())
}

#[test]
fn contents_are_read(rt: HostRuntime) -> Result<(), Fail> {
    let alloc = rt.alloc();
    let identifier = ObjectIdentifier::from_der(&GREATEST)?;
    is_displayed(
        alloc,
        &identifier,
        "2.340282366920938463463374607431768211375",
    )
}

#[test]
fn other_contents_are_refused() -> Result<(), Fail> {
    const ROWS: &[(&[u8], Option<ParseErrorKind>)] = &[
        (&[], INVALID),
        (&[0x80], INVALID),
        (&[0x80, 0x01], INVALID),
        (&[0x81], INVALID),
        (&[0x2a, 0x86], INVALID),
        (&[0x55, 0x02, 0xc0, 0x80, 0x80, 0x80, 0x80], INVALID),
        (&TOO_GREAT, INVALID),
        (&[0x01; 63], None),
        (&[0x01; 64], Some(ParseErrorKind::OidTooLong)),
        (&[0x01; 66], Some(ParseErrorKind::OidTooLong)),
    ];
    for (octets, kind) in ROWS {
        same_at(*octets, kind_of(ObjectIdentifier::from_der(octets)), *kind)?;
    }
    Ok(())
}

#[test]
fn contents_that_are_known() -> Result<(), Fail> {
    let mut octets = [0; 63];
    octets[0] = 0x55;
    let identifier = ObjectIdentifier::from_der_unchecked(octets, 1);
    same(&ObjectIdentifier::from_string("2.5"), &Some(identifier))?;
    let mut octets = [0; 63];
    octets[0] = 0x81;
    octets[1] = 0x34;
    octets[2] = 0x03;
    let identifier = ObjectIdentifier::from_der_unchecked(octets, 3);
    same(&ObjectIdentifier::from_string("2.100.3"), &Some(identifier))
}
