//! Encodings that are cut or changed: a certificate (RFC 5280, 4.1) and a response with a time stamp (RFC 3161).

use crate::objects::{FULL, STAMP_RESPONSE};
use asn1::{Asn1Readable, Asn1Writable, WriteError};
use pkix::certificate::Certificate;
use pkix::timestamps::TimeStampResp;
use std::alloc::Global;
use std::test::Fail;
use testing::{is_written_back, read};

/// What each octet is changed by, in turn.
const MASKS: [u8; 4] = [0x01, 0x20, 0x80, 0xff];

/// An encoding again and again, each time with one octet changed: each octet by each of the masks.
fn changed(alloc: Global, whole: &[u8]) -> Result<Vec<u8>, Fail> {
    let mut others = Vec::new(alloc);
    for place in 0..whole.len() {
        for mask in MASKS {
            others.extend_from_slice(&whole[..place])?;
            others.push(whole[place] ^ mask)?;
            others.extend_from_slice(&whole[place + 1..])?;
        }
    }
    Ok(others)
}

/// Each proper prefix is rejected.
fn are_prefixes_rejected<'a, T: Asn1Readable<'a>>(
    alloc: Global,
    whole: &'a [u8],
) -> Result<(), Fail> {
    for end in 0..whole.len() {
        if read::<T>(alloc, whole.get(..end).unwrap_or(whole)).is_ok() {
            return Err(Fail::new(format_args!("the prefix of {end} octets is read")));
        }
    }
    Ok(())
}

/// Each of the encodings of this length is rejected, or written again as it is.
fn are_rejected_or_written<'a, T: Asn1Readable<'a> + Asn1Writable<Error = WriteError>>(
    alloc: Global,
    others: &'a [u8],
    length: usize,
) -> Result<(), Fail> {
    for other in others.chunks(length.max(1)) {
        if read::<T>(alloc, other).is_ok() {
            is_written_back::<T>(alloc, other)?;
        }
    }
    Ok(())
}

/// The encoding is written again as it is, each of its proper prefixes is rejected, and each of the changed ones is
/// rejected or written again as it is.
fn walk<'a, T: Asn1Readable<'a> + Asn1Writable<Error = WriteError>>(
    alloc: Global,
    whole: &'a [u8],
    others: &'a [u8],
) -> Result<(), Fail> {
    is_written_back::<T>(alloc, whole)?;
    are_prefixes_rejected::<T>(alloc, whole)?;
    are_rejected_or_written::<T>(alloc, others, whole.len())
}

#[test]
fn certificates(rt: HostRuntime) -> Result<(), Fail> {
    let alloc = rt.alloc();
    let whole = hex::decode(alloc, FULL)?;
    let others = changed(alloc, whole.as_slice())?;
    walk::<Certificate<'_>>(alloc, whole.as_slice(), others.as_slice())
}

#[test]
fn responses_with_time_stamps(rt: HostRuntime) -> Result<(), Fail> {
    let alloc = rt.alloc();
    let whole = hex::decode(alloc, STAMP_RESPONSE)?;
    let others = changed(alloc, whole.as_slice())?;
    walk::<TimeStampResp<'_>>(alloc, whole.as_slice(), others.as_slice())
}
