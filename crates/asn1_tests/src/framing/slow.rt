//! A plain, slow reader, written from the definitions alone, beside the real one.

use asn1_core::parser::{ParseErrorKind, strip_tlv};
use asn1_core::tag::TagClass;
use std::test::Fail;
use testing::same_at;

/// The class's two bits, whether it is constructed, the number, and how many contents and remaining octets there are.
type Seen = Result<(u8, bool, u128, usize, usize), ParseErrorKind>;

const SHORT: ParseErrorKind = ParseErrorKind::ShortData { needed: 1 };

/// A number in base 128: each of its octets is a digit, and all but the last have the top bit.
fn slow_number(text: &[u8]) -> Result<(u128, &[u8]), ParseErrorKind> {
    if text.first() == Some(&0x80) {
        return Err(ParseErrorKind::InvalidTag);
    }
    let mut number = 0u128;
    for (place, octet) in text.iter().enumerate() {
        let Some(more) = number.checked_mul(128) else {
            return Err(ParseErrorKind::InvalidTag);
        };
        number = more | u128::from(*octet % 128);
        if *octet < 0x80 {
            return Ok((number, &text[place + 1..]));
        }
        if place >= 18 {
            return Err(ParseErrorKind::InvalidTag);
        }
    }
    Err(SHORT)
}

fn slow_tag(text: &[u8]) -> Result<(u8, bool, u128, &[u8]), ParseErrorKind> {
    let [first, after @ ..] = text else {
        return Err(SHORT);
    };
    let (number, rest) = if first % 32 < 31 {
        (u128::from(first % 32), after)
    } else {
        let (number, rest) = slow_number(after)?;
        if number < 31 || number >= 1 << 32 {
            return Err(ParseErrorKind::InvalidTag);
        }
        (number, rest)
    };
    Ok((first / 64, first / 32 % 2 == 1, number, rest))
}

/// The length that the octets begin with: the first octet counts those after it, and the first of these isn't zero.
fn slow_length(text: &[u8]) -> Result<(usize, &[u8]), ParseErrorKind> {
    let [first, after @ ..] = text else {
        return Err(SHORT);
    };
    match first {
        0x00..=0x7f => Ok((usize::from(*first), after)),
        0x81..=0x84 => {
            let count = usize::from(first % 16);
            if after.len() < count {
                return Err(ParseErrorKind::ShortData {
                    needed: count - after.len(),
                });
            }
            let (octets, rest) = after.split_at(count);
            let mut n = 0u32;
            for octet in octets {
                n = n.wrapping_mul(256) | u32::from(*octet);
            }
            if octets.first() == Some(&0) || n < 128 {
                return Err(ParseErrorKind::InvalidLength);
            }
            Ok((n as usize, rest))
        }
        _ => Err(ParseErrorKind::InvalidLength),
    }
}

fn slow_element(text: &[u8]) -> Seen {
    let (class, constructed, number, after) = slow_tag(text)?;
    let (n, after) = slow_length(after)?;
    if after.len() < n {
        return Err(ParseErrorKind::ShortData {
            needed: n - after.len(),
        });
    }
    Ok((class, constructed, number, n, after.len() - n))
}

fn real_element(text: &[u8]) -> Seen {
    match strip_tlv(text) {
        Ok((tlv, rest)) => {
            let tag = tlv.tag();
            let class = match tag.class() {
                TagClass::Universal => 0,
                TagClass::Application => 1,
                TagClass::ContextSpecific => 2,
                TagClass::Private => 3,
            };
            Ok((
                class,
                tag.is_constructed(),
                u128::from(tag.value()),
                tlv.data().len(),
                rest.len(),
            ))
        }
        Err(error) => Err(error.kind()),
    }
}

fn compare(text: &[u8]) -> Result<(), Fail> {
    same_at(text, real_element(text), slow_element(text))
}

#[test]
fn all_texts_of_up_to_three_octets() -> Result<(), Fail> {
    compare(&[])?;
    for first in 0..=255 {
        compare(&[first])?;
        for second in 0..=255 {
            compare(&[first, second])?;
            for third in 0..=255 {
                compare(&[first, second, third])?;
            }
        }
    }
    Ok(())
}

/// Compares on the octets with each octet replaced by each value, and on each prefix of these.
fn compare_damaged<const N: usize>(text: [u8; N]) -> Result<(), Fail> {
    for place in 0..N {
        for octet in 0..=255 {
            let mut damaged = text;
            damaged[place] = octet;
            for end in 0..N {
                compare(&damaged[..end + 1])?;
            }
        }
    }
    Ok(())
}

#[test]
fn damaged_texts() -> Result<(), Fail> {
    compare_damaged([0x04, 0x03, 0x61, 0x62, 0x63, 0x00])?;
    compare_damaged([
        0x30, 0x09, 0x02, 0x01, 0x01, 0x02, 0x01, 0x02, 0x02, 0x01, 0x03,
    ])?;
    compare_damaged([0x1f, 0x81, 0x80, 0x01, 0x00])?;
    compare_damaged([0x1f, 0x8f, 0xff, 0xff, 0xff, 0x7f, 0x01, 0x05])?;
    compare_damaged([0x04, 0x84, 0x00, 0xff, 0xff, 0xff])?;
    compare_damaged([0x04, 0x83, 0x01, 0x00, 0x00, 0x07])?;
    let mut long = [0xff; 21];
    long[0] = 0x1f;
    compare_damaged(long)
}
