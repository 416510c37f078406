//! Encodings that are cut, and encodings in which one octet is changed.

use crate::{error_of, is_written_back};
use asn1_core::parser::{ParseError, ParseErrorKind, parse_single};
use asn1_core::types::{Asn1Readable, Asn1Writable};
use asn1_core::writer::WriteError;
use std::alloc::Global;
use std::test::Fail;

/// An encoding, and its copies in which one octet is replaced: each octet by each of the 256 values.
#[derive(Drop)]
pub struct Text {
    /// The encoding.
    pub whole: Vec<u8>,
    /// The changed copies, one after another.
    pub changed: Vec<u8>,
}

fn changes_of(alloc: Global, text: &[u8]) -> Result<Vec<u8>, Fail> {
    let mut changed = Vec::new(alloc);
    for place in 0..text.len() {
        for octet in 0..=255 {
            changed.extend_from_slice(&text[..place])?;
            changed.push(octet)?;
            changed.extend_from_slice(&text[place + 1..])?;
        }
    }
    Ok(changed)
}

/// These encodings and their changed copies, which are never freed: what is read borrows from them.
pub fn texts_of<'a>(alloc: Global, wholes: &[&[u8]]) -> Result<&'a [Text], Fail> {
    let mut texts = Vec::new(alloc);
    for text in wholes {
        let whole = Vec::from_slice(alloc, text)?;
        let changed = changes_of(alloc, text)?;
        texts.push(Text { whole, changed })?;
    }
    Ok(texts.leak())
}

/// The prefix of `end` octets is too short, and lacks `needed` octets.
fn is_short<'a, T: Asn1Readable<'a>>(
    alloc: Global,
    text: &'a [u8],
    end: usize,
    needed: usize,
) -> Result<(), Fail> {
    let short = Some(ParseError::new(ParseErrorKind::ShortData { needed }));
    let found = error_of(parse_single::<T>(alloc, text.get(..end).unwrap_or(text)));
    if found == short {
        return Ok(());
    }
    Err(Fail::new(format_args!("{end} of {text:?}: {found:?}")))
}

/// Each proper prefix of at least `first` octets is too short. One that ends in the header lacks as many octets as
/// `header` gives, and any other the remaining ones.
fn are_prefixes_short<'a, T: Asn1Readable<'a>>(
    alloc: Global,
    header: &[usize],
    text: &'a [u8],
    first: usize,
) -> Result<(), Fail> {
    for end in first..text.len() {
        let needed = header.get(end).copied().unwrap_or(text.len() - end);
        is_short::<T>(alloc, text, end, needed)?;
    }
    Ok(())
}

/// Each changed encoding is rejected, or written again as it is.
fn are_refused_or_written<'a, T: Asn1Readable<'a> + Asn1Writable<Error = WriteError>>(
    alloc: Global,
    text: &'a Text,
) -> Result<(), Fail> {
    for other in text.changed.chunks(text.whole.len().max(1)) {
        if parse_single::<T>(alloc, other).is_ok() {
            is_written_back::<T>(alloc, other)?;
        }
    }
    Ok(())
}

/// How many octets an encoding with a header of two lacks, if it is cut before the first and before the second.
pub const TWO_OCTETS: &[usize] = &[1, 1];

/// Each encoding is written again as it is, each of its proper prefixes is too short, and each of the changed ones is
/// rejected or written again. A prefix that ends in the header lacks as many octets as `header` gives, and any other
/// the remaining ones.
pub fn check<'a, T: Asn1Readable<'a> + Asn1Writable<Error = WriteError>>(
    alloc: Global,
    header: &[usize],
    texts: &'a [Text],
) -> Result<(), Fail> {
    for text in texts {
        let whole = text.whole.as_slice();
        is_written_back::<T>(alloc, whole)?;
        are_prefixes_short::<T>(alloc, header, whole, 0)?;
        are_refused_or_written::<T>(alloc, text)?;
    }
    Ok(())
}

/// The same for encodings with a header of two octets.
pub fn check_all<'a, T: Asn1Readable<'a> + Asn1Writable<Error = WriteError>>(
    alloc: Global,
    wholes: &[&[u8]],
) -> Result<(), Fail> {
    check::<T>(alloc, TWO_OCTETS, texts_of(alloc, wholes)?)
}

/// The same as `check` for a type that has an empty encoding, so that the empty prefix isn't too short.
pub fn check_optional<'a, T: Asn1Readable<'a> + Asn1Writable<Error = WriteError>>(
    alloc: Global,
    header: &[usize],
    texts: &'a [Text],
) -> Result<(), Fail> {
    is_written_back::<T>(alloc, &[])?;
    for text in texts {
        let whole = text.whole.as_slice();
        is_written_back::<T>(alloc, whole)?;
        are_prefixes_short::<T>(alloc, header, whole, 1)?;
        are_refused_or_written::<T>(alloc, text)?;
    }
    Ok(())
}
