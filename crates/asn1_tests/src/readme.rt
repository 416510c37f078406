//! The example of the README, as it is printed there, and further uses of the calls that it names.

use asn1::*;
use std::test::Fail;
use testing::same;

#[test]
fn reading(rt: HostRuntime) -> Result<(), Fail> {
    let alloc = rt.alloc();
    let octets = [5u8, 0, 1].as_slice();

    // One value, and nothing after it.
    let value = parse_single::<bool>(alloc, &[0x01, 0x01, 0xff])?;

    // Several, one after another.
    let pair = parse(
        alloc,
        &[1, 1, 0xff, 1, 1, 0],
        |parser| -> ParseResult<(bool, bool)> {
            Ok((
                parser.read_element::<bool>()?,
                parser.read_element::<bool>()?,
            ))
        },
    )?;

    // Any element, and what follows it.
    let (tlv, rest) = strip_tlv(octets)?;

    same((value, pair), (true, (true, false)))?;
    same((tlv.full_data(), rest), (&[5, 0], &[1]))
}

#[test]
fn writing(rt: HostRuntime) -> Result<(), Fail> {
    let alloc = rt.alloc();

    let octets = write_single(alloc, &true)?;

    // Under the explicit tag 2.
    let tagged = write(
        alloc,
        |writer: &mut Writer<'_>| writer.write_explicit_element(&true, 2),
    )?;

    // An octet string, whose length is patched once its content is there.
    let patched = write(alloc, |writer: &mut Writer<'_>| {
        writer.write_tlv(Tag::primitive(4), None, |dest| dest.push_slice(b"abc"))
    })?;

    same(octets.as_slice(), &[1, 1, 0xff])?;
    same(tagged.as_slice(), &[0xa2, 3, 1, 1, 0xff])?;
    same(patched.as_slice(), &[4, 3, 0x61, 0x62, 0x63])
}

#[test]
fn one_encoding(rt: HostRuntime) -> Result<(), Fail> {
    let alloc = rt.alloc();
    let octets = write_single(alloc, &true)?;
    assert_eq!(rt; octets.as_slice(), [1u8, 1, 0xff].as_slice());
    assert!(rt; parse_single::<bool>(alloc, octets.as_slice())?);
    // BER would read this as true. DER has one encoding of true, so it is rejected.
    match parse_single::<bool>(alloc, &[1u8, 1, 1]) {
        Ok(_) => return Err(Fail::new(format_args!("a second encoding of true"))),
        Err(error) => assert!(rt; error.kind() == ParseErrorKind::InvalidValue),
    }
    Ok(())
}
