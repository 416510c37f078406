//! A plain, slow reader and writer of integers, written from the definitions alone, beside the real ones.

use asn1_core::parser::{ParseErrorKind, parse_single};
use asn1_core::types::{Asn1Readable, Asn1Writable};
use asn1_core::writer::WriteError;
use std::alloc::Global;
use std::test::Fail;
use testing::{is_written, same, same_at};

/// The number of up to 15 contents octets in two's complement (X.690 8.3.3).
fn slow_number(content: &[u8]) -> i128 {
    let mut number = match content.first() {
        Some(0x80..=0xff) => -1i128,
        _ => 0,
    };
    for octet in content {
        number = number.wrapping_mul(256).wrapping_add(i128::from(*octet));
    }
    number
}

/// What reading up to 15 contents octets returns: there is one, or there are more and the first changes the number.
fn slow_read(content: &[u8], min: i128, max: i128) -> Result<i128, ParseErrorKind> {
    let number = slow_number(content);
    match content {
        [] => return Err(ParseErrorKind::InvalidValue),
        [_] => {}
        [_, rest @ ..] => {
            if slow_number(rest) == number {
                return Err(ParseErrorKind::InvalidValue);
            }
        }
    }
    if min == 0 && number < 0 {
        return Err(ParseErrorKind::InvalidValue);
    }
    if number < min || number > max {
        return Err(ParseErrorKind::IntegerOverflow);
    }
    Ok(number)
}

/// The contents octets of a number: the fewest of its last octets that encode it.
fn slow_content(octets: &[u8; 16], number: i128) -> &[u8] {
    for start in 0..16usize {
        let content = &octets[15 - start..];
        if slow_number(content) == number {
            return content;
        }
    }
    octets
}

/// Both ways on an encoding of up to 15 contents octets, if the numbers of the type go from `min` to `max`.
fn compare<'a, T: Asn1Readable<'a> + Asn1Writable<Error = WriteError> + Copy + Into<i128>>(
    alloc: Global,
    text: &'a [u8],
    min: i128,
    max: i128,
) -> Result<(), Fail>
    requires { T.der.plain }
{
    let content = text.get(2..).unwrap_or(&[]);
    let slow = slow_read(content, min, max);
    match parse_single::<T>(alloc, text) {
        Ok(value) => {
            let number: i128 = value.into();
            same_at(text, Ok(number), slow)?;
            same(slow_content(&number.to_be_bytes(), number), content)?;
            is_written(alloc, &value, text)
        }
        Err(error) => same_at(text, Err(error.kind()), slow),
    }
}

/// Both ways on these contents octets, as each of the types.
fn compare_each(alloc: Global, content: &[u8]) -> Result<(), Fail> {
    let mut octets = [2u8; 17];
    let n = content.len() % 16;
    octets[1] = n as u8;
    for (place, octet) in content.iter().take(n).enumerate() {
        octets[2 + place] = *octet;
    }
    let text = &octets[..n + 2];
    compare_signed(alloc, text)?;
    compare_unsigned(alloc, text)
}

/// Both ways as each type of signed numbers.
fn compare_signed(alloc: Global, text: &[u8]) -> Result<(), Fail> {
    compare::<i8>(alloc, text, -0x80, 0x7f)?;
    compare::<i16>(alloc, text, -0x8000, 0x7fff)?;
    compare::<i32>(alloc, text, -0x8000_0000, 0x7fff_ffff)?;
    compare::<i64>(alloc, text, -0x8000_0000_0000_0000, 0x7fff_ffff_ffff_ffff)
}

/// Both ways as each type of unsigned numbers.
fn compare_unsigned(alloc: Global, text: &[u8]) -> Result<(), Fail> {
    compare::<u8>(alloc, text, 0, 0xff)?;
    compare::<u16>(alloc, text, 0, 0xffff)?;
    compare::<u32>(alloc, text, 0, 0xffff_ffff)?;
    compare::<u64>(alloc, text, 0, 0xffff_ffff_ffff_ffff)
}

#[test]
fn all_integers_of_up_to_two_octets(rt: HostRuntime) -> Result<(), Fail> {
    compare_each(rt.alloc(), &[])?;
    for first in 0..=255 {
        compare_each(rt.alloc(), &[first])?;
        for second in 0..=255 {
            compare_each(rt.alloc(), &[first, second])?;
        }
    }
    Ok(())
}

#[test]
fn longer_integers(rt: HostRuntime) -> Result<(), Fail> {
    let octets = [0x00, 0x01, 0x7f, 0x80, 0xfe, 0xff];
    for first in octets {
        for second in octets {
            for other in octets {
                let mut content = [other; 11];
                content[0] = first;
                content[1] = second;
                for end in 3..12usize {
                    compare_each(rt.alloc(), &content[..end])?;
                }
            }
        }
    }
    Ok(())
}
