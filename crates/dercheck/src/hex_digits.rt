//! Octets in hex, read faster than the kit's `hex::decode`, which says where an error is.

ghost use Rattle.std.specs.Prelude.{◌≡◌, ◌<◌, IfOk, IfSome, IsErr, MatchOption};
ghost use Rattle.hex.specs.Hex.{decode_of, hex_digit_value};

use std::alloc::{AllocError, Global};

/// The value of a digit, whose letters may be of either case. `None` for other octets.
#[inline(always)]
fn digit(octet: u8) -> Option<u8>
    ensures value { result ≡ hex_digit_value octet }
    ensures range { IfSome result (λ value. value < 16) }
{
    if b'0' <= octet && octet <= b'9' {
        Some(octet - b'0')
    } else if b'a' <= octet && octet <= b'f' {
        Some(octet - b'a' + 10)
    } else if b'A' <= octet && octet <= b'F' {
        Some(octet - b'A' + 10)
    } else {
        None
    }
}

/// The octets whose hex this is, with letters of either case. `None` if it is hex of none. `Err` if out of memory.
///
/// A digit that isn't one doesn't end the loop, since the compiler then takes sixteen octets at a time.
pub(crate) fn octets_of(alloc: Global, hex: &[u8]) -> Result<Option<Vec<u8>>, AllocError>
    ensures { IfOk result (λ found. MatchOption found (IsErr (decode_of hex.now))
        (λ octets. decode_of hex.now ≡ Ok octets.items)) }
{
    if hex.len() % 2 != 0 {
        return Ok(None);
    }
    let mut octets = vec![in alloc; 0u8; hex.len() / 2]?;
    let mut is_hex = true;
    'octets: for i in 0..octets.len() {
        let (high, low) = (digit(hex[2 * i]), digit(hex[2 * i + 1]));
        is_hex &= high.is_some() & low.is_some();
        octets[i] = high.unwrap_or(0) * 16 + low.unwrap_or(0);
    }
    Ok(if is_hex { Some(octets) } else { None })
}
