//! Bit strings whose bits have names: zero bits at their end are removed before they are encoded (X.690 11.2.2).

use asn1::BitString;
use pkix::certificate::extensions::KeyUsage;
use pkix::common::NamedBits;
use std::test::Fail;
use testing::{are_invalid, are_written_back, is_written_back, read, same};

#[test]
fn encodings_of_named_bits(rt: HostRuntime) -> Result<(), Fail> {
    let alloc = rt.alloc();
    are_written_back::<NamedBits<'_>>(
        alloc,
        &[
            b"\x03\x01\x00",
            b"\x03\x02\x05\xa0",
            b"\x03\x02\x07\x80",
            b"\x03\x02\x00\x01",
            b"\x03\x03\x07\x00\x80",
        ],
    )?;
    let mut long = [0x80; 305];
    long[..5].copy_from_slice(b"\x03\x82\x01\x2d\x07");
    is_written_back::<NamedBits<'_>>(alloc, &long)?;
    are_invalid::<NamedBits<'_>>(
        alloc,
        &[
            b"\x03\x02\x00\xa0",
            b"\x03\x02\x04\xa0",
            b"\x03\x02\x00\x00",
            b"\x03\x03\x00\x00\x80",
            b"\x03\x03\x00\x80\x00",
            b"\x03\x02\x06\xa0",
            b"\x03\x01\x01",
            b"\x03\x00",
        ],
    )
}

#[test]
fn bits_by_number(rt: HostRuntime) -> Result<(), Fail> {
    let usage = read::<KeyUsage<'_>>(rt.alloc(), b"\x03\x02\x05\xa0")?;
    for (number, is_set) in [(0, true), (1, false), (2, true), (3, false), (8, false)] {
        same(usage.has_bit_set(number), is_set)?;
    }
    Ok(())
}

#[test]
fn bits_that_are_made(rt: HostRuntime) -> Result<(), Fail> {
    let rows: [(&[u8], u8, bool); 4] = [
        (b"", 0, true),
        (b"\xa0", 5, true),
        (b"\xa0", 4, false),
        (b"\x01\x00", 0, false),
    ];
    for (octets, padding, is_named) in rows {
        let Some(bits) = BitString::new(octets, padding) else {
            return Err(Fail::new(format_args!("no bits")));
        };
        same(NamedBits::new(bits).is_some(), is_named)?;
    }
    Ok(())
}
