//! What each type reads at its boundaries, in rows of text: each list empty, each number at its bounds, each field left
//! out, twice and under another tag, each default encoded.
//!
//! A row has octets in hex, and after a colon the answer: `read` if they are a value, which is written as the same
//! octets; else the kind of the error, and where it is, from the outside in. A field of the type itself goes by its
//! name alone.
//!
//! The octets are a whole encoding, or after `+` or `?` a field of a structure, whose fields are in the rows in their
//! order; `?` marks those that may be left out. Such a row has three answers: for the structure without this field,
//! with the field twice, and with the field under the tag `[14]`. In a row that begins with `=` the octets stand in
//! place of the field above. The structure is also read with all fields, and with each of them and no other that may be
//! left out; as a SET it is rejected.
//!
//! The answers are those of the modules of the RFCs, and of the comments of the declarations where these allow more.

mod certificate;
mod common;
mod keys;
mod lists_and_requests;
mod signatures;
mod timestamps;

use asn1::{Asn1Readable, Asn1Writable, ParseError, ParseErrorKind, WriteError, parse_single};
use std::alloc::{AllocError, Global};
use std::test::Fail;
use testing::{error_of, is_written_back};

/// Appends a kind of error in the words of a row.
fn push_kind(out: &mut String, kind: ParseErrorKind) -> Result<(), AllocError> {
    match kind {
        ParseErrorKind::UnexpectedTag { actual } => {
            let identifier = actual.as_u8().unwrap_or(0);
            write!(out, "tag {identifier:02x}")
        }
        ParseErrorKind::ShortData { needed } => write!(out, "short {needed}"),
        ParseErrorKind::InvalidSize { actual, .. } => write!(out, "{actual} items"),
        _ => write!(out, "{kind:?}"),
    }
}

/// An error of the type with this name in the words of a row.
pub fn words_of(alloc: Global, name: &str, error: &ParseError) -> Result<String, AllocError> {
    let mut words = String::new(alloc);
    push_kind(&mut words, error.kind())?;
    // An error shows its locations in its `Debug` alone: names of fields in quotes, and numbers of items.
    let shown = format!(in alloc; "{error:?}")?;
    let own = format!(in alloc; "{name}::")?;
    if let Some((_, places)) = shown.as_str().split_once("location: [") {
        for place in places.trim_end_matches("] }").split(", ") {
            let place = place.trim_matches('"');
            let field = place.strip_prefix(own.as_str()).unwrap_or(place);
            write!(words, " {field}")?;
        }
    }
    Ok(words)
}

/// The octets are read as the type, and written again as they are, or rejected, as the answer says.
pub fn are_octets_answered<'a, T: Asn1Readable<'a> + Asn1Writable<Error = WriteError>>(
    alloc: Global,
    name: &str,
    octets: &'a [u8],
    wanted: &str,
) -> Result<(), Fail> {
    let found = match error_of(parse_single::<T>(alloc, octets)) {
        None => {
            is_written_back::<T>(alloc, octets)?;
            format!(in alloc; "read")?
        }
        Some(error) if error.kind() == ParseErrorKind::AllocationError => return Err(error.into()),
        Some(error) => words_of(alloc, name, &error)?,
    };
    if found.as_str() == wanted {
        return Ok(());
    }
    Err(Fail::new(format_args!("{name}, {octets:?}: {found} isn't {wanted}")))
}

/// The same for octets in hex.
fn is_answered<'a, T: Asn1Readable<'a> + Asn1Writable<Error = WriteError>>(
    alloc: Global,
    name: &str,
    digits: &str,
    wanted: &str,
) -> Result<(), Fail> {
    // What is read borrows from the octets, which are never freed.
    let octets: &'a [u8] = hex::decode(alloc, digits)?.leak();
    are_octets_answered::<T>(alloc, name, octets, wanted)
}

/// The field of a row, if it has one, and whether it may be left out.
fn field_of(row: &str) -> Option<(&str, bool)> {
    let (octets, _answers) = row.split_once(": ")?;
    let optional = octets.strip_prefix("? ");
    let field = optional.or(octets.strip_prefix("+ "))?;
    Some((field, optional.is_some()))
}

/// The structure that has the fields of these rows, with others in place of one; without the other optional fields, if
/// it is `short`.
fn structure(
    alloc: Global,
    rows: &str,
    place: usize,
    others: &str,
    is_short: bool,
) -> Result<String, AllocError> {
    let mut fields = String::new(alloc);
    let mut number = 0usize;
    for row in rows.split('\n') {
        let Some((field, is_optional)) = field_of(row) else {
            continue
        };
        if number == place {
            fields.push_str(others)?;
        } else if !(is_short && is_optional) {
            fields.push_str(field)?;
        }
        number = number.saturating_add(1);
    }
    let length = fields.len() / 2;
    let long = if length < 0x80 { "" } else { "81" };
    format!(in alloc; "30{long}{length:02x}{fields}")
}

/// The field under the tag `[14]`, in its form.
fn under_another_tag(alloc: Global, field: &str) -> Result<String, Fail> {
    let mut octets = hex::decode(alloc, field)?;
    if let Some(identifier) = octets.first_mut() {
        *identifier = 0x8e | (*identifier & 0x20);
    }
    Ok(hex::encode(alloc, octets.as_slice())?)
}

/// The structure is answered as its row says: without this field, with the field twice and under another tag. It is
/// read without optional fields but this one.
fn is_field<'a, T: Asn1Readable<'a> + Asn1Writable<Error = WriteError>>(
    alloc: Global,
    name: &str,
    rows: &str,
    place: usize,
    field: &str,
    answers: &str,
) -> Result<(), Fail> {
    let twice = format!(in alloc; "{field}{field}")?;
    let other = under_another_tag(alloc, field)?;
    let mut answers = answers.split("; ");
    for fields in ["", twice.as_str(), other.as_str()] {
        let whole = structure(alloc, rows, place, fields, false)?;
        is_answered::<T>(alloc, name, whole.as_str(), answers.next().unwrap_or("?"))?;
    }
    let short = structure(alloc, rows, place, field, true)?;
    is_answered::<T>(alloc, name, short.as_str(), "read")
}

/// The structure with all fields is read, and not as a SET.
fn is_sequence<'a, T: Asn1Readable<'a> + Asn1Writable<Error = WriteError>>(
    alloc: Global,
    name: &str,
    rows: &str,
) -> Result<(), Fail> {
    let whole = structure(alloc, rows, usize::MAX, "", false)?;
    is_answered::<T>(alloc, name, whole.as_str(), "read")?;
    let contents = whole.as_str().strip_prefix("30").unwrap_or("");
    let set = format!(in alloc; "31{contents}")?;
    is_answered::<T>(alloc, name, set.as_str(), "tag 31")
}

/// The type with this name answers as each of the rows says.
fn are_answered<'a, T: Asn1Readable<'a> + Asn1Writable<Error = WriteError>>(
    alloc: Global,
    name: &str,
    rows: &str,
) -> Result<(), Fail> {
    let mut count = 0usize;
    for row in rows.split('\n') {
        let Some((octets, answer)) = row.split_once(": ") else {
            return Err(Fail::new(format_args!("{name}: the row {row} has no answer")));
        };
        if let Some((field, _)) = field_of(row) {
            is_field::<T>(alloc, name, rows, count, field, answer)?;
            count = count.saturating_add(1);
        } else if let Some(other) = octets.strip_prefix("= ") {
            let whole = structure(alloc, rows, count.saturating_sub(1), other, false)?;
            is_answered::<T>(alloc, name, whole.as_str(), answer)?;
        } else {
            is_answered::<T>(alloc, name, octets, answer)?;
        }
    }
    if count > 0 {
        is_sequence::<T>(alloc, name, rows)
    } else {
        Ok(())
    }
}

#[test]
fn each_type(rt: HostRuntime) -> Result<(), Fail> {
    let alloc = rt.alloc();
    certificate::certificates_and_policies(alloc)?;
    certificate::constraints_and_points(alloc)?;
    common::names_and_extensions(alloc)?;
    keys::keys_and_parameters(alloc)?;
    lists_and_requests::lists_and_requests(alloc)?;
    signatures::signed_data(alloc)?;
    timestamps::time_stamps(alloc)
}
