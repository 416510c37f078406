//! Values of single types, made and read through the names of this crate.

use crate::lists::{invalid, is_refused};
use asn1::{BitString, DateTime, ObjectIdentifier, OwnedBitString, ParseErrorKind, UtcTime};
use std::alloc::Global;
use std::test::Fail;
use testing::{is_refusal, is_written};

/// The bit string that is made, and the one that owns its octets, are written as this text.
fn are_written(alloc: Global, octets: &[u8], padding: u8, text: &[u8]) -> Result<(), Fail> {
    let bits = BitString::new(octets, padding).ok_or("no bit string")?;
    is_written(alloc, &bits, text)?;
    let octets = Vec::from_slice(alloc, octets)?;
    let owned = OwnedBitString::new(octets, padding).ok_or("no bit string")?;
    is_written(alloc, &owned, text)
}

#[test]
fn bit_strings_that_are_made_are_written(rt: HostRuntime) -> Result<(), Fail> {
    let alloc = rt.alloc();
    are_written(alloc, &[], 0, &[3, 1, 0])?;
    are_written(alloc, &[0x80], 7, &[3, 2, 7, 0x80])?;
    are_written(alloc, &[0x81, 0xf0], 4, &[3, 3, 4, 0x81, 0xf0])
}

#[test]
fn identifiers_are_refused(rt: HostRuntime) -> Result<(), Fail> {
    let alloc = rt.alloc();
    is_refused::<ObjectIdentifier>(alloc, &[6, 0], invalid())?;
    let zeros: &[u8] = &[6, 7, 0x55, 0x02, 0xc0, 0x80, 0x80, 0x80, 0x80];
    is_refused::<ObjectIdentifier>(alloc, zeros, invalid())?;
    is_refused::<ObjectIdentifier>(alloc, &[6, 2, 0x2a, 0x86], invalid())?;
    is_refusal(ObjectIdentifier::from_der(LONG), ParseErrorKind::OidTooLong)
}

const LONG: &[u8] =
    b"\x06\x40\x2b\x06\x01\x04\x01\x89\x60\x01\x01\x02\x01\x03\x15\x45\x70\x73\x6f\x6e\x20\x53\x74\x79\x6c\x75\x73\x20\x50\x72\x6f\x20\x34\x39\x30\x30\x7b\x87\xcb\x7c\x1f\x8d\x82\x49\x7b\x2b\x06\x01\x04\x01\x89\x60\x01\x01\x02\x01\x03\x15\x45\x70\x73\x6f\x6e\x20";

#[test]
fn identifiers_of_the_greatest_number(rt: HostRuntime) -> Result<(), Fail> {
    let identifier = ObjectIdentifier::from_string(
        "2.340282366920938463463374607431768211375",
    ).ok_or("no identifier")?;
    let text: &[u8] = &[
        6, 19, 0x83, 0xff, 0xff, 0xff, 0xff, 0xff, 0xff, 0xff, 0xff, 0xff, 0xff, 0xff, 0xff, 0xff,
        0xff, 0xff, 0xff, 0xff, 0x7f,
    ];
    is_written(rt.alloc(), &identifier, text)
}

#[test]
fn years_of_times() -> Result<(), Fail> {
    let _first = UtcTime::new(DateTime::new(1950, 1, 1, 12, 0, 0)?)?;
    for year in &[1949, 2050, 2100] {
        let time = UtcTime::new(DateTime::new(*year, 1, 1, 12, 0, 0)?);
        is_refusal(time, ParseErrorKind::InvalidValue)?;
    }
    Ok(())
}
