//! Texts in a buffer of the caller's: the text of an error's number; and the version.

ghost use Rattle.std.specs.Prelude.{◌≡◌, ◌+◌, ◌*◌, ◌^◌, ◌≤◌, ◌<◌, length, true, false};
ghost use Rattle.asn1_for_c.specs.Texts.{LeavesText, text_number, words_of};

use crate::errors::{BUFFER_TOO_SMALL, UNKNOWN_TYPE};

/// Copies a text into a buffer if it has room for it, and says how many octets the text has. Returns whether it has.
pub(crate) fn leave_text(text: &[u8], buffer: &mut [u8], count: &mut usize) -> bool
    ensures text { LeavesText text.now buffer.old buffer.new count.new }
    ensures same { length buffer.new ≡ length buffer.old }
    ensures fits { result ≡ true → length text.now ≤ length buffer.old }
    ensures short { result ≡ false → length buffer.old < length text.now }
{
    *count = text.len();
    if buffer.len() < text.len() {
        return false;
    }
    buffer[..text.len()].copy_from_slice(text);
    true
}

/// What an error's number means.
fn error_words(number: u32) -> &'static [u8]
    ensures { result.now ≡ words_of number }
{
    match number {
        0 => b"no error",
        1 => b"the contents octets encode no value",
        2 => b"the identifier octets are malformed",
        3 => b"the length is indefinite, too large, or not in its fewest octets",
        4 => b"there are too few or too many items",
        5 => b"another tag is expected",
        6 => b"octets are missing",
        7 => b"the number is out of range",
        8 => b"octets follow the value",
        9 => b"the elements are out of order",
        10 => b"the default is encoded",
        11 => b"the object identifier has more than 63 octets",
        12 => b"the object identifier is unknown",
        13 => b"out of memory",
        UNKNOWN_TYPE => b"no type has this number",
        BUFFER_TOO_SMALL => b"the buffer is too small",
        _ => b"unknown error",
    }
}

/// Leaves what an error's number means in a buffer that has room for it, without a zero octet after it. Returns 0; or
/// the number of a buffer that is too small, which stays as it was. Sets `count` to how many octets the text has.
pub fn asn1_error_text(number: u32, buffer: &mut [u8], count: &mut usize) -> u32
    ensures text { LeavesText (words_of number) buffer.old buffer.new count.new }
    ensures number { result ≡ text_number (words_of number) buffer.old }
{
    if !leave_text(error_words(number), buffer, count) {
        return BUFFER_TOO_SMALL;
    }
    0
}

/// The version of the library, 0.24.1: each part has eight bits.
pub fn asn1_version() -> u32
    ensures { result ≡ 0 * 2 ^ 16 + 24 * 2 ^ 8 + 1 }
{
    0x00_18_01
}
