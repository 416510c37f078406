//! Plain, slow readers of bits, identifiers, strings and times, by the definitions alone, compared with the real ones.

ghost use Rattle.std.specs.Prelude.{◌<◌, IfSome};

use asn1_core::{Asn1Readable, Asn1Writable, ParseErrorKind, WriteError, parse_single};
use asn1_values::{
    BMPString, BitString, DateTime, IA5String, ObjectIdentifier, PrintableString, UtcTime,
    Utf8String, VisibleString, X509GeneralizedTime,
};
use std::alloc::Global;
use std::test::Fail;
use testing::{is_written, is_written_back, kind_of, refused, same, same_at};

/// The bits of contents octets, the first at the top of the first octet, without the padding, which is fewer than eight
/// zeros (X.690 8.6, 11.2).
fn slow_bits(alloc: Global, content: &[u8]) -> Result<Option<Vec<bool>>, Fail> {
    let [padding, octets @ ..] = content else {
        return Ok(None);
    };
    let mut bits = Vec::new(alloc);
    for octet in octets {
        for weight in [128u8, 64, 32, 16, 8, 4, 2, 1] {
            bits.push(*octet / weight % 2 == 1)?;
        }
    }
    for _ in 0..*padding {
        if bits.pop() != Some(false) {
            return Ok(None);
        }
    }
    Ok(if *padding < 8 { Some(bits) } else { None })
}

/// Reads a bit string both ways, and compares the results.
fn compare_bits(alloc: Global, text: &[u8]) -> Result<(), Fail> {
    let Some(bits) = slow_bits(alloc, text.get(2..).unwrap_or(&[]))? else {
        let invalid = Some(ParseErrorKind::InvalidValue);
        return same_at(text, refused::<BitString<'_>>(alloc, text), invalid);
    };
    let value = match parse_single::<BitString<'_>>(alloc, text) {
        Ok(value) => value,
        Err(error) => return Err(Fail::new(format_args!("{text:?}: {error:?}"))),
    };
    for place in 0..bits.len() + 9 {
        let bit = bits.get(place).copied().unwrap_or(false);
        same_at((text, place), value.has_bit_set(place), bit)?;
    }
    is_written(alloc, &value, text)
}

#[test]
fn all_bit_strings_of_up_to_two_octets(rt: HostRuntime) -> Result<(), Fail> {
    compare_bits(rt.alloc(), &[3, 0])?;
    for first in 0..=255 {
        compare_bits(rt.alloc(), &[3, 1, first])?;
        for second in 0..=255 {
            compare_bits(rt.alloc(), &[3, 2, first, second])?;
        }
    }
    for last in 0..=255 {
        compare_bits(rt.alloc(), &[3, 4, 5, 0xa5, 0xff, last])?;
    }
    Ok(())
}

/// The numbers of an object identifier's contents octets: each in base 128, in the fewest octets (X.690 8.19.2).
fn slow_numbers(alloc: Global, content: &[u8]) -> Result<Option<Vec<u128>>, Fail> {
    let mut numbers = Vec::new(alloc);
    let mut number: Option<u128> = None;
    for octet in content {
        if number.is_none() && *octet == 0x80 {
            return Ok(None);
        }
        let high = number.unwrap_or(0).checked_mul(0x80);
        number = high.and_then(|high| high.checked_add(u128::from(*octet % 0x80)));
        let Some(whole) = number else {
            return Ok(None);
        };
        if *octet < 0x80 {
            numbers.push(whole)?;
            number = None;
        }
    }
    let is_right = number.is_none() && !numbers.is_empty();
    Ok(if is_right { Some(numbers) } else { None })
}

/// The dotted form of the numbers: the first encodes two (X.690 8.19.4).
fn slow_dotted(alloc: Global, numbers: &[u128]) -> Result<String, Fail> {
    let mut text = String::new(alloc);
    let mut is_first = true;
    for number in numbers {
        let more = match *number {
            first @ 0..=39 if is_first => format!(in alloc; "0.{first}")?,
            first @ 40..=79 if is_first => format!(in alloc; "1.{}", first - 40)?,
            first if is_first && first > 79 => format!(in alloc; "2.{}", first - 80)?,
            other => format!(in alloc; ".{other}")?,
        };
        text.push_str(more.as_str())?;
        is_first = false;
    }
    Ok(text)
}

/// Reads contents octets of an object identifier both ways, and compares the results.
fn compare_identifiers(alloc: Global, content: &[u8]) -> Result<(), Fail> {
    let Some(numbers) = slow_numbers(alloc, content)? else {
        let found = kind_of(ObjectIdentifier::from_der(content));
        return same_at(content, found, Some(ParseErrorKind::InvalidValue));
    };
    let value = match ObjectIdentifier::from_der(content) {
        Ok(value) => value,
        Err(error) => return Err(Fail::new(format_args!("{content:?}: {error:?}"))),
    };
    let shown = format!(in alloc; "{value}")?;
    let dotted = slow_dotted(alloc, numbers.as_slice())?;
    same_at(content, shown.as_str(), dotted.as_str())?;
    same(value.as_der(), content)
}

#[test]
fn all_identifiers_of_up_to_two_octets(rt: HostRuntime) -> Result<(), Fail> {
    compare_identifiers(rt.alloc(), &[])?;
    for first in 0..=255 {
        compare_identifiers(rt.alloc(), &[first])?;
        for second in 0..=255 {
            compare_identifiers(rt.alloc(), &[first, second])?;
        }
    }
    Ok(())
}

#[test]
fn longer_identifiers(rt: HostRuntime) -> Result<(), Fail> {
    let octets = [0x00, 0x01, 0x27, 0x28, 0x4f, 0x50, 0x7f, 0x80, 0x81, 0xff];
    for first in octets {
        for second in octets {
            for other in octets {
                let mut content = [other; 20];
                content[0] = first;
                content[1] = second;
                content[19] = 0x7f;
                compare_identifiers(rt.alloc(), &content[..3])?;
                compare_identifiers(rt.alloc(), &content[1..])?;
                compare_identifiers(rt.alloc(), &content)?;
            }
        }
    }
    Ok(())
}

/// A valid encoding is read and written back; any other is rejected.
fn compare_text<'a, T: Asn1Readable<'a> + Asn1Writable<Error = WriteError>>(
    alloc: Global,
    text: &'a [u8],
    is_right: bool,
) -> Result<(), Fail> {
    if is_right {
        return is_written_back::<T>(alloc, text);
    }
    let invalid = Some(ParseErrorKind::InvalidValue);
    same_at(text, refused::<T>(alloc, text), invalid)
}

/// The characters of a `PrintableString` (X.680 41.4).
fn is_printable(octet: u8) -> bool {
    matches!(octet, b'A'..=b'Z' | b'a'..=b'z' | b'0'..=b'9' | b' ' | b'\'' | b'(' | b')' | b'+')
        || matches!(octet, b',' | b'-' | b'.' | b'/' | b':' | b'=' | b'?')
}

/// Two octets as a character string of each type that has one octet a character, as UTF-8 and as a `BMPString`.
fn compare_two(alloc: Global, a: u8, b: u8) -> Result<(), Fail> {
    let printable = is_printable(a) && is_printable(b);
    let ia5 = a < 0x80 && b < 0x80;
    let visible = (0x20..0x7f).contains(&a) && (0x20..0x7f).contains(&b);
    let utf8 = ia5 || (0xc2..0xe0).contains(&a) && (0x80..0xc0).contains(&b);
    let bmp = !(0xd8..0xe0).contains(&a);
    compare_text::<PrintableString<'_>>(alloc, &[19, 2, a, b], printable)?;
    compare_text::<IA5String<'_>>(alloc, &[22, 2, a, b], ia5)?;
    compare_text::<VisibleString<'_>>(alloc, &[26, 2, a, b], visible)?;
    compare_text::<Utf8String<'_>>(alloc, &[12, 2, a, b], utf8)?;
    compare_text::<BMPString<'_>>(alloc, &[30, 2, a, b], bmp)
}

#[test]
fn all_texts_of_two_octets(rt: HostRuntime) -> Result<(), Fail> {
    for first in 0..=255 {
        for second in 0..=255 {
            compare_two(rt.alloc(), first, second)?;
        }
    }
    Ok(())
}

/// The number of two digits.
fn slow_two(digits: &[u8]) -> Option<u16>
    ensures { IfSome result (λ n. n < 100) }
{
    match digits {
        [a @ b'0'..=b'9', b @ b'0'..=b'9'] => {
            Some(u16::from(*a - b'0') * 10 + u16::from(*b - b'0'))
        }
        _ => None,
    }
}

/// The days of a month.
fn slow_days(year: u16, month: u16) -> u16 {
    let is_leap = year % 4 == 0 && (year % 100 != 0 || year % 400 == 0);
    match month {
        2 => 28 + u16::from(is_leap),
        4 | 6 | 9 | 11 => 30,
        1..=12 => 31,
        _ => 0,
    }
}

/// Month, day, hour, minute and second of `MMDDHHMMSSZ`, if they are a date and a time of day (X.690 11.7, 11.8).
fn slow_rest(year: u16, octets: &[u8]) -> Option<[u16; 5]> {
    if octets.len() != 11 || octets[10] != b'Z' {
        return None;
    }
    let month = slow_two(&octets[..2])?;
    let day = slow_two(&octets[2..4])?;
    let hour = slow_two(&octets[4..6])?;
    let minute = slow_two(&octets[6..8])?;
    let second = slow_two(&octets[8..10])?;
    let is_date = (1..=slow_days(year, month)).contains(&day);
    let is_time = hour < 24 && minute < 60 && second < 60;
    if is_date && is_time {
        Some([month, day, hour, minute, second])
    } else {
        None
    }
}

/// The year of a `UTCTime`, and the numbers after the year.
fn slow_utc(content: &[u8]) -> Option<(u16, [u16; 5])> {
    let year = slow_two(content.get(..2)?)?;
    let year = if year < 50 { 2000 + year } else { 1900 + year };
    Some((year, slow_rest(year, &content[2..])?))
}

/// The year of a `GeneralizedTime` without a fraction, and the numbers after the year.
fn slow_general(content: &[u8]) -> Option<(u16, [u16; 5])> {
    let year = slow_two(content.get(..2)?)? * 100 + slow_two(content.get(2..4)?)?;
    Some((year, slow_rest(year, &content[4..])?))
}

/// The numbers of a time that was read.
fn numbers_of(time: &DateTime) -> (u16, [u16; 5]) {
    let rest = [
        time.month(),
        time.day(),
        time.hour(),
        time.minute(),
        time.second(),
    ];
    (time.year(), rest.map(u16::from))
}

fn real_utc(alloc: Global, text: &[u8]) -> Option<(u16, [u16; 5])> {
    match parse_single::<UtcTime>(alloc, text) {
        Ok(time) => Some(numbers_of(time.as_datetime())),
        Err(_) => None,
    }
}

fn real_general(alloc: Global, text: &[u8]) -> Option<(u16, [u16; 5])> {
    match parse_single::<X509GeneralizedTime>(alloc, text) {
        Ok(time) => Some(numbers_of(time.as_datetime())),
        Err(_) => None,
    }
}

/// Reads an encoding of either type both ways: both return the same numbers, or both reject it.
fn compare_times(alloc: Global, text: &[u8]) -> Result<(), Fail> {
    let content = text.get(2..).unwrap_or(&[]);
    match text {
        [23, ..] => same_at(text, real_utc(alloc, text), slow_utc(content)),
        _ => same_at(text, real_general(alloc, text), slow_general(content)),
    }
}

/// Each contents octet is replaced by each other octet.
fn compare_damaged<const N: usize>(alloc: Global, text: [u8; N]) -> Result<(), Fail> {
    for place in 2..N {
        for octet in 0..=255 {
            let mut damaged = text;
            damaged[place] = octet;
            compare_times(alloc, &damaged)?;
        }
    }
    Ok(())
}

#[test]
fn damaged_times(rt: HostRuntime) -> Result<(), Fail> {
    let alloc = rt.alloc();
    compare_damaged(alloc, *b"\x17\x0d000229235959Z")?;
    compare_damaged(alloc, *b"\x17\x0d491231000000Z")?;
    compare_damaged(alloc, *b"\x17\x0d500430101112Z")?;
    compare_damaged(alloc, *b"\x18\x0f20000229235959Z")?;
    compare_damaged(alloc, *b"\x18\x0f19001130101112Z")?;
    compare_damaged(alloc, *b"\x18\x0f00000131000000Z")
}
