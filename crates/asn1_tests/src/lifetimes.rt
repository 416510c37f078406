//! What is read outlives the parsers, structures and closures that it went through.
//!
//! The closures have clauses, which say nothing, since what is said without one isn't proved.

use asn1::{BitString, ParseResult, Parser, Sequence, parse};
use std::test::Fail;
use testing::same;

#[test]
fn octets_out_of_a_sequence(rt: HostRuntime) -> Result<(), Fail> {
    let alloc = rt.alloc();
    let text: &'static [u8] = &[0x30, 0x03, 0x04, 0x01, 0x00];
    let octets: &'static [u8] = parse(
        alloc,
        text,
        |parser: &mut Parser<'_>| -> ParseResult<&[u8]>
            ensures { Unit {0} }
        {
            let sequence = parser.read_element::<Sequence<'_>>()?;
            sequence.parse(
                alloc,
                |parser: &mut Parser<'_>| -> ParseResult<&[u8]>
                    ensures { Unit {0} }
                { parser.read_element::<&[u8]>() },
            )
        },
    )?;
    same(octets, &[0x00])
}

#[test]
fn octets_out_of_a_bit_string(rt: HostRuntime) -> Result<(), Fail> {
    let text: &'static [u8] = &[0x03, 0x02, 0x00, 0x00];
    let octets: &'static [u8] = parse(
        rt.alloc(),
        text,
        |parser: &mut Parser<'_>| -> ParseResult<&[u8]>
            ensures { Unit {0} }
        { Ok(parser.read_element::<BitString<'_>>()?.as_bytes()) },
    )?;
    same(octets, &[0x00])
}
