//! Plain, slow readers of sets, written from the definitions alone, beside the real ones.

use crate::lists::{at, is_refused};
use asn1::{
    Asn1Readable, Asn1Writable, ParseError, ParseErrorKind, Set, SetOf, Tag, TagClass, Tlv,
    WriteError, strip_tlv,
};
use std::alloc::Global;
use std::test::Fail;
use testing::is_written_back;

/// The position of the class in the order of classes (X.680 8.6), and the number.
fn rank(tag: Tag) -> (u8, u32) {
    let class = match tag.class() {
        TagClass::Universal => 0,
        TagClass::Application => 1,
        TagClass::ContextSpecific => 2,
        TagClass::Private => 3,
    };
    (class, tag.value())
}

/// Whether an element may come after another: in a `SET OF` by their octets, in a `SET` by their tags.
fn may_follow(last: Tlv<'_>, next: Tlv<'_>, by_octets: bool) -> bool {
    if by_octets {
        last.full_data() <= next.full_data()
    } else {
        rank(last.tag()) <= rank(next.tag())
    }
}

/// The first error of a set's contents octets. At each element, framing is checked first, then the order, and then in
/// a `SET OF` of Booleans the value.
fn slow_fault(content: &[u8], by_octets: bool) -> Option<ParseError> {
    let mut rest = content;
    let mut last: Option<Tlv<'_>> = None;
    for index in 0..content.len() {
        if rest.is_empty() {
            return None;
        }
        let (tlv, behind) = match strip_tlv(rest) {
            Ok(found) => found,
            Err(error) => return Some(at(index, error.kind())),
        };
        if let Some(last) = last {
            if !may_follow(last, tlv, by_octets) {
                return Some(at(index, ParseErrorKind::InvalidSetOrdering));
            }
        }
        if by_octets {
            match tlv.full_data() {
                [1, 1, 0x00 | 0xff] => {}
                [1, ..] => return Some(at(index, ParseErrorKind::InvalidValue)),
                _ => {
                    let actual = tlv.tag();
                    return Some(at(index, ParseErrorKind::UnexpectedTag { actual }));
                }
            }
        }
        last = Some(tlv);
        rest = behind;
    }
    None
}

/// Both kinds of sets of up to 127 contents octets: the same error, or none and the octets are written back.
fn compare(alloc: Global, text: &[u8]) -> Result<(), Fail> {
    let content = text.get(2..).unwrap_or(&[]);
    compare_as::<Set<'_>>(alloc, text, slow_fault(content, false))?;
    compare_as::<SetOf<'_, bool>>(alloc, text, slow_fault(content, true))
}

/// The type rejects the octets with this error. If there is none, the octets are read and written back.
fn compare_as<'a, T: Asn1Readable<'a> + Asn1Writable<Error = WriteError>>(
    alloc: Global,
    text: &'a [u8],
    fault: Option<ParseError>,
) -> Result<(), Fail> {
    match fault {
        Some(error) => is_refused::<T>(alloc, text, error),
        None => is_written_back::<T>(alloc, text),
    }
}

#[test]
fn all_sets_of_up_to_two_octets(rt: HostRuntime) -> Result<(), Fail> {
    compare(rt.alloc(), &[0x31, 0])?;
    for first in 0..=255 {
        compare(rt.alloc(), &[0x31, 1, first])?;
        for second in 0..=255 {
            compare(rt.alloc(), &[0x31, 2, first, second])?;
        }
    }
    Ok(())
}

/// Each of the set's contents octets is replaced by each other octet.
fn compare_damaged<const N: usize>(alloc: Global, text: [u8; N]) -> Result<(), Fail> {
    for place in 2..N {
        for octet in 0..=255 {
            let mut damaged = text;
            damaged[place] = octet;
            compare(alloc, &damaged)?;
        }
    }
    Ok(())
}

#[test]
fn damaged_sets(rt: HostRuntime) -> Result<(), Fail> {
    let alloc = rt.alloc();
    compare_damaged(alloc, [0x31, 6, 1, 1, 0, 1, 1, 0xff])?;
    compare_damaged(alloc, [0x31, 9, 1, 1, 0, 1, 1, 0xff, 1, 1, 0xff])?;
    compare_damaged(alloc, [0x31, 8, 1, 1, 0xff, 0x81, 0, 0xa2, 1, 7])?;
    compare_damaged(alloc, [0x31, 8, 5, 0, 0x45, 0, 0x85, 0, 0xc5, 0])?;
    compare_damaged(
        alloc,
        [0x31, 9, 0x9f, 0xff, 0x7f, 0, 0x9f, 0x81, 0x80, 0, 0],
    )
}
