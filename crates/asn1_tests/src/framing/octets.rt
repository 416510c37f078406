use crate::framing::writing::{HEADERS, compare_parts};
use asn1_core::parser::{ParseErrorKind, ParseResult, Parser, parse};
use asn1_core::types::Null;
use asn1_core::writer::write_single;
use std::alloc::Global;
use std::test::Fail;
use testing::{
    are_both_ways, are_invalid, are_refused, both_ways, is_written, read, same, same_at,
};

const LENGTH: ParseErrorKind = ParseErrorKind::InvalidLength;

#[test]
fn null_has_no_content(rt: HostRuntime) -> Result<(), Fail> {
    let null: Null = ();
    both_ways(rt.alloc(), null, &[0x05, 0x00])?;
    are_refused::<Null>(
        rt.alloc(),
        &[
            (&[0x05, 0x01, 0x00], ParseErrorKind::InvalidValue),
            (&[0x05, 0x00, 0xff], ParseErrorKind::ExtraData),
        ],
    )
}

#[test]
fn octet_strings_have_their_texts(rt: HostRuntime) -> Result<(), Fail> {
    are_both_ways::<&[u8]>(
        rt.alloc(),
        &[
            (&[], &[0x04, 0x00]),
            (&[0x01, 0x02, 0x03], &[0x04, 0x03, 0x01, 0x02, 0x03]),
            (&[0x61, 0x62, 0x63], &[0x04, 0x03, 0x61, 0x62, 0x63]),
        ],
    )
}

#[test]
fn other_texts_are_no_octet_string(rt: HostRuntime) -> Result<(), Fail> {
    are_refused::<&[u8]>(
        rt.alloc(),
        &[
            (&[0x04, 0x80], LENGTH),
            (&[0x04, 0x81, 0x00], LENGTH),
            (&[0x04, 0x81, 0x01, 0x09], LENGTH),
            (&[0x04, 0x82, 0x00, 0x80], LENGTH),
            (
                &[
                    0x04, 0x89, 0x01, 0x01, 0x01, 0x01, 0x01, 0x01, 0x01, 0x01, 0x01,
                ],
                LENGTH,
            ),
            (
                &[0x04, 0x03, 0x01, 0x02],
                ParseErrorKind::ShortData { needed: 1 },
            ),
            (
                &[0x04, 0x82, 0xff, 0xff, 0xff, 0xff, 0xff, 0xff],
                ParseErrorKind::ShortData { needed: 65531 },
            ),
            (&[0x04, 0x83, 0x00, 0xff, 0xff], LENGTH),
            (&[0x04, 0x84, 0x00, 0xff, 0xff, 0xff], LENGTH),
        ],
    )
}

/// The header and then this many letters are read as the letters.
fn compare_read(alloc: Global, header: &[u8], count: usize) -> Result<(), Fail> {
    let letters = vec![in alloc; b'a'; count]?;
    let mut text = Vec::from_slice(alloc, header)?;
    text.extend_from_slice(letters.as_slice())?;
    let found = read::<&[u8]>(alloc, text.as_slice())?;
    same_at(count, found == letters.as_slice(), true)
}

#[test]
fn long_octet_strings_are_read(rt: HostRuntime) -> Result<(), Fail> {
    compare_read(rt.alloc(), &[0x04, 0x81, 0x81], 129)?;
    compare_read(rt.alloc(), &[0x04, 0x83, 0x01, 0x11, 0x70], 70_000)?;
    compare_read(
        rt.alloc(),
        &[0x04, 0x84, 0x01, 0x31, 0x2d, 0x00],
        20_000_000,
    )
}

#[test]
fn headers_of_octet_strings(rt: HostRuntime) -> Result<(), Fail> {
    for (count, header) in HEADERS {
        let octets = vec![in rt.alloc(); b'a'; *count]?;
        let written = write_single(rt.alloc(), &octets.as_slice())?;
        compare_parts(written.as_slice(), header, octets.as_slice())?;
    }
    Ok(())
}

#[test]
fn octet_strings_of_a_size(rt: HostRuntime) -> Result<(), Fail> {
    let alloc = rt.alloc();
    both_ways::<[u8; 0]>(alloc, [], &[0x04, 0x00])?;
    both_ways(alloc, [1u8], &[0x04, 0x01, 0x01])?;
    both_ways(alloc, [2u8], &[0x04, 0x01, 0x02])?;
    both_ways(alloc, [2u8, 3], &[0x04, 0x02, 0x02, 0x03])
}

#[test]
fn octet_strings_of_another_size(rt: HostRuntime) -> Result<(), Fail> {
    let two = [0x04, 0x02, 0x01, 0x02];
    are_invalid::<[u8; 0]>(rt.alloc(), &[&two])?;
    are_invalid::<[u8; 1]>(rt.alloc(), &[&[0x04, 0x00], &two])?;
    are_invalid::<[u8; 2]>(rt.alloc(), &[&[0x04, 0x01, 0x61]])
}

/// What is read outlives the parser that read it.
#[test]
fn octets_outlive_their_parser(rt: HostRuntime) -> Result<(), Fail> {
    let text = [0x04, 0x01, 0x00];
    let mut parser = Parser::new(rt.alloc(), &text);
    let octets = parser.read_element::<&[u8]>()?;
    std::mem::drop(parser);
    same(octets, &[0x00])
}

/// What is read outlives the closure, whose clause states nothing: what is stated without a clause isn't proved.
#[test]
fn octets_outlive_a_closure(rt: HostRuntime) -> Result<(), Fail> {
    let text: &'static [u8] = &[0x04, 0x01, 0x00];
    let octets: &'static [u8] = parse(
        rt.alloc(),
        text,
        |parser: &mut Parser<'_>| -> ParseResult<&[u8]>
            ensures { Unit {0} }
        { parser.read_element::<&[u8]>() },
    )?;
    same(octets, &[0x00])
}
