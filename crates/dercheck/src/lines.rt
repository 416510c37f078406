//! Octets in parts: lines, and what is around the first octet of a value.

ghost use Rattle.std.specs.Prelude.{◌≡◌, ◌∷◌, ◌<◌, ◌==◌, [], length, position, IfNone, IfSome};
ghost use Rattle.dercheck.specs.Lines.{split_once, lines_of, option_split};

use memchr::memchr;

/// The index of the first octet of that value.
fn place_of(text: &[u8], octet: u8) -> Option<usize>
    ensures { result ≡ position (λ next. next == octet) text.now }
{
    memchr(octet, text)
}

/// What is before and after the first octet of that value, if there is one.
pub(crate) fn split_once(text: &[u8], octet: u8) -> Option<(&[u8], &[u8])>
    ensures { option_split result ≡ split_once octet text.now }
{
    let at = place_of(text, octet)?;
    Some((&text[..at], &text[at + 1..]))
}

/// The first line, and what follows it.
pub(crate) fn next_line(text: &[u8]) -> Option<(&[u8], &[u8])>
    ensures none { IfNone result (text.now ≡ []) }
    ensures line { IfSome result (λ found. lines_of text.now ≡ found.0.now ∷ lines_of found.1.now) }
    ensures shorter { IfSome result (λ found. length found.1.now < length text.now) }
{
    if text.is_empty() {
        return None;
    }
    match split_once(text, b'\n') {
        Some((line, after)) => Some((line, after)),
        None => Some((text, &[])),
    }
}
