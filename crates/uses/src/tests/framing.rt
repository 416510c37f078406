//! A stream that is cut at each octet.

use crate::framing::{each_element, missing, whole_elements};
use std::alloc::AllocError;
use std::test::Fail;
use testing::{same, same_at};

/// An INTEGER, an OCTET STRING, and a SEQUENCE of a BOOLEAN.
const STREAM: &[u8] = b"\x02\x01\x05\x04\x03abc\x30\x03\x01\x01\xff";

/// Where each element ends.
const ENDS: &[usize] = &[0, 3, 8, 13];

/// How many elements are whole, and how many octets these are, if so many octets have arrived.
fn whole(arrived: usize) -> (usize, usize) {
    let mut found = (0, 0);
    for (count, end) in ENDS.iter().enumerate() {
        if *end <= arrived {
            found = (count, *end);
        }
    }
    found
}

#[test]
fn no_element_is_split(rt: HostRuntime) -> Result<(), Fail> {
    let alloc = rt.alloc();
    for arrived in 0..=STREAM.len() {
        let octets = STREAM.get(..arrived).unwrap_or(STREAM);
        let (count, end) = whole(arrived);
        same_at(arrived, whole_elements(alloc, octets)?.len(), count)?;
        let mut handed = Vec::new(alloc);
        let rest = each_element(octets, |element| -> Result<(), AllocError> {
            handed.extend_from_slice(element.full_data())
        })?;
        same_at(arrived, Some(handed.as_slice()), STREAM.get(..end))?;
        same_at(arrived, Some(rest), octets.get(end..))?;
    }
    Ok(())
}

#[test]
fn an_error_ends_the_walk(rt: HostRuntime) -> Result<(), Fail> {
    let _rt = rt;
    let stopped = each_element(
        STREAM,
        |element| if element.data() == b"abc".as_slice() {
            Err(7)
        } else {
            Ok(())
        },
    );
    same(stopped, Err(7))
}

/// The octets that are missing, counted by hand (X.690 8.1.3). The last three aren't unfinished: an element is there, a
/// length is indefinite, and a length has a leading zero.
#[test]
fn octets_are_missing() -> Result<(), Fail> {
    let rows: &[(&[u8], Option<usize>)] = &[
        (b"", Some(1)),
        (b"\x04", Some(1)),
        (b"\x04\x03", Some(3)),
        (b"\x04\x03ab", Some(1)),
        (b"\x04\x82\x01", Some(1)),
        (b"\x04\x03abcd", None),
        (b"\x04\x80", None),
        (b"\x04\x82\x00\x80", None),
    ];
    for (octets, wanted) in rows {
        same_at(*octets, missing(octets), *wanted)?;
    }
    Ok(())
}
