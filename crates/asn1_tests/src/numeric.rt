//! Numeric strings, and strings whose octets are kept as they are.

use asn1::{GeneralString, GraphicString, NumericString, TeletexString, VideotexString};
use std::test::Fail;
use testing::{are_invalid, both_ways, hash_of, is_shown, same};

#[test]
fn numeric_strings(rt: HostRuntime) -> Result<(), Fail> {
    let alloc = rt.alloc();
    let number = NumericString::new("49 30").ok_or("no numeric string")?;
    both_ways(alloc, number, &[0x12, 5, 0x34, 0x39, 0x20, 0x33, 0x30])?;
    let number = NumericString::new("49 30").ok_or("no numeric string")?;
    same(number.as_str(), "49 30")?;
    is_shown(alloc, &number, "NumericString(\"49 30\")")?;
    let none = NumericString::new("").ok_or("no numeric string")?;
    assert!(rt; number == number.clone()? && number != none && hash_of(&number) != hash_of(&none));
    both_ways(alloc, none, &[0x12, 0])
}

/// The octets beside the digits and the space, a letter, and one that isn't ASCII.
#[test]
fn other_octets_are_no_numeric_string(rt: HostRuntime) -> Result<(), Fail> {
    are_invalid::<NumericString<'_>>(
        rt.alloc(),
        &[
            &[0x12, 1, 0x1f],
            &[0x12, 1, 0x21],
            &[0x12, 1, 0x2f],
            &[0x12, 1, 0x3a],
            &[0x12, 2, 0x31, 0x41],
            &[0x12, 1, 0xa0],
        ],
    )?;
    assert!(rt; NumericString::new("4-9").is_none() && NumericString::new("\t").is_none());
    Ok(())
}

#[test]
fn octets_under_the_tags_of_strings(rt: HostRuntime) -> Result<(), Fail> {
    let alloc = rt.alloc();
    let octets: &[u8] = &[0x1b, 0xff];
    both_ways(alloc, TeletexString::new(octets), &[0x14, 2, 0x1b, 0xff])?;
    both_ways(alloc, VideotexString::new(octets), &[0x15, 2, 0x1b, 0xff])?;
    both_ways(alloc, GraphicString::new(octets), &[0x19, 2, 0x1b, 0xff])?;
    both_ways(alloc, GeneralString::new(octets), &[0x1b, 2, 0x1b, 0xff])
}
