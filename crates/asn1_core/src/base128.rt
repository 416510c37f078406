//! Numbers in base 128: groups of seven bits, the most significant first, and every octet except the last has its top
//! bit set (X.690 8.1.2.4.2, 8.19.2). A number is below 2^128, so its encoding has 1 to 19 octets.

ghost use Rattle.std.specs.Prelude.{◌≡◌, ◌+◌, ◌<◌, ◌≤◌, ◌++◌, length, drop, IfNone, IfSome};
ghost use Rattle.asn1_core.specs.ReadError.{ReturnsPlain, ReturnsKind, with_rest};
ghost use Rattle.asn1_core.specs.Base128.{number_octets, leading_number};

use crate::parser::{ParseErrorKind, ParseResult, kind_as_error};

/// How many octets the encoding of the largest number has.
const MAX_NUMBER_OCTETS: usize = 19;

/// Reads the number at the start of `octets`: returns it and the remaining octets.
///
/// Errors, without a location: `InvalidValue` if the octets encode no number, whatever follows them: the first is
/// 0x80, a leading group of zeros; or the number is 2^128 or more; or the first 19 octets all have their top bit set.
/// `ShortData { needed: 1 }` if the octets end before the number does, also if there are none.
pub fn read(octets: &[u8]) -> ParseResult<(u128, &[u8])>
    ensures { ReturnsPlain with_rest result (leading_number octets.now) }
{
    kind_as_error(read_number(octets))
}

/// What [`read`] returns, with the kind of the error alone.
pub(crate) fn read_number(octets: &[u8]) -> Result<(u128, &[u8]), ParseErrorKind>
    ensures { ReturnsKind with_rest result (leading_number octets.now) }
{
    let mut number = 0u128;
    for i in 0..MAX_NUMBER_OCTETS {
        if i >= octets.len() {
            return Err(ParseErrorKind::ShortData { needed: 1 });
        }
        let octet = octets[i];
        if number > u128::MAX >> 7 || (i == 0 && octet == 0x80) {
            return Err(ParseErrorKind::InvalidValue);
        }
        number = (number << 7) | u128::from(octet & 0x7f);
        if octet < 0x80 {
            return Ok((number, &octets[i + 1..]));
        }
    }
    Err(ParseErrorKind::InvalidValue)
}

/// How many octets the encoding of the number has: 1 to 19.
pub fn length(n: u128) -> usize
    ensures encoding { result ≡ length (number_octets n) }
    ensures some { 0 < result }
    ensures most { result ≤ 19 }
{
    let mut rest = n >> 7;
    let mut count = 1;
    while rest > 0 {
        rest >>= 7;
        count += 1;
    }
    count
}

/// Writes the encoding of the number over the first of `octets`, leaves the octets after it as they were, and returns
/// how many octets it has: 1 to 19. `None` if `octets` has fewer; then all of them are as they were.
pub fn write(n: u128, octets: &mut [u8]) -> Option<usize>
    ensures short { IfNone result ((length octets.old < length (number_octets n))
        × (octets.new ≡ octets.old)) }
    ensures written { IfSome result (λ count. (count ≡ length (number_octets n))
        × (count ≤ length octets.old)
        × (octets.new ≡ number_octets n ++ drop count octets.old)) }
{
    let count = length(n);
    if octets.len() < count {
        return None;
    }
    octets[count - 1] = (n & 0x7f) as u8;
    let mut rest = n >> 7;
    for i in (0..count - 1).rev() {
        octets[i] = 0x80 | (rest & 0x7f) as u8;
        rest >>= 7;
    }
    Some(count)
}
