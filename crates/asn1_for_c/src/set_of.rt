//! The contents octets of a SET OF, from its elements in any order.

ghost use Rattle.std.specs.Prelude.{◌≡◌, ◌-◌, ◌+◌, ◌++◌, ◌≤◌, take, drop, length, ℕ, List, Option, MatchOption};
ghost use Rattle.std.specs.List.{concat};
ghost use Rattle.asn1.specs.Listing.{place_encoding};
ghost use Rattle.asn1_for_c.specs.SetOf.{AreElements, IsSetOf, LeavesSetOf, StopsAt};

use crate::errors::{Asn1Error, BUFFER_TOO_SMALL, error_of};
use asn1::{ParseErrorKind, strip_tlv};

/// The error of octets that aren't whole elements, one after another.
fn framing_error(octets: &[u8]) -> Option<ParseErrorKind>
    ensures { MatchOption result ((texts : List (List ℕ)) × AreElements octets.now texts)
        (λ kind. StopsAt octets.now kind) }
{
    let mut rest = octets;
    while !rest.is_empty() {
        match strip_tlv(rest) {
            Ok((_element, after)) => rest = after,
            Err(error) => return Some(error.kind()),
        }
    }
    None
}

/// How many octets of a listing of elements come before this element: those of the elements that are less.
fn place_of(listed: &[u8], text: &[u8]) -> usize
    ensures within { result ≤ length listed.now }
    ensures place { (texts : List (List ℕ)) → AreElements listed.now texts
        → concat (place_encoding text.now texts)
        ≡ take result listed.now ++ text.now ++ drop result listed.now }
{
    let mut rest = listed;
    while let Ok((element, after)) = strip_tlv(rest) {
        if !element.full_data().cmp(text).is_lt() {
            break;
        }
        rest = after;
    }
    listed.len() - rest.len()
}

/// Puts an element in its place in a listing, behind which there is as much room as it has octets.
fn insert(listed: &mut [u8], text: &[u8])
    requires { length text.now ≤ length listed.old }
    ensures { (texts : List (List ℕ))
        → AreElements (take (length listed.old - length text.now) listed.old) texts
        → listed.new ≡ concat (place_encoding text.now texts) }
{
    let end = listed.len() - text.len();
    let at = place_of(&listed[..end], text);
    listed[end..].copy_from_slice(text);
    listed[at..].rotate_right(text.len());
}

/// Puts the elements in ascending order.
fn order(octets: &[u8], buffer: &mut [u8])
    requires room { length octets.now ≡ length buffer.old }
    requires elements { (texts : List (List ℕ)) × AreElements octets.now texts }
    ensures { IsSetOf octets.now buffer.new }
{
    let mut rest = octets;
    let mut count = 0usize;
    while let Ok((element, after)) = strip_tlv(rest) {
        let text = element.full_data();
        count += text.len();
        insert(&mut buffer[..count], text);
        rest = after;
    }
}

/// Leaves the contents octets of the SET OF with these elements, which are one after another in any order: the
/// elements in ascending order (X.690 11.6), each as often as it was there, if `buffer` has room for them. Sets `count`
/// to how many octets these are, which is as many as came in. Returns 0, or the number of a buffer that is too small;
/// or the error of octets that aren't whole elements, and then sets `count` to 0. Sets `error` in each case.
///
/// The time that it takes grows with the square of the number of elements.
pub fn asn1_set_of(
    octets: &[u8],
    buffer: &mut [u8],
    count: &mut usize,
    error: &mut Asn1Error,
) -> u32
    ensures exact { LeavesSetOf octets.now buffer.old buffer.new count.new error.new }
    ensures number { result ≡ error.new.number }
{
    *count = 0;
    if let Some(kind) = framing_error(octets) {
        *error = error_of(kind);
        return error.number;
    }
    *count = octets.len();
    *error = Asn1Error::without_details(0);
    if buffer.len() < octets.len() {
        *error = Asn1Error::without_details(BUFFER_TOO_SMALL);
    } else {
        order(octets, &mut buffer[..octets.len()]);
    }
    error.number
}
