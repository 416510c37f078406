//! What the crates of tests share: comparisons, and walks over tables of values and their encodings.
//!
//! A library ends no process: each function returns a result, whose failure shows what is wrong. Tests pass that on
//! by `?`.
#![tactic(auto)]

ghost use Rattle.std.specs.Prelude.{◌≡◌, true, false, IfOk};
ghost use Rattle.asn1_core.specs.Writing.{IsWriter};
ghost use Rattle.asn1_core.specs.SetWriting.{IsSetWriter};

pub mod changed;

use asn1_core::parser::{ParseError, ParseErrorKind, ParseResult, parse_single};
use asn1_core::tag::Tag;
use asn1_core::types::{Asn1Readable, Asn1Writable};
use asn1_core::writer::{
    SetElementWriter, SetWriter, WriteError, WriteResult, Writer, write, write_single,
};
use std::alloc::Global;
use std::fmt::{Debug, Display};
use std::hash::{DefaultHasher, Hash, Hasher};
use std::test::Fail;

/// The failure of a value that isn't the one wanted: it shows both.
fn differs<L: Debug, R: Debug>(left: &L, right: &R) -> Fail {
    Fail::new(format_args!("{left:?} isn't {right:?}"))
}

/// The same of a row of a table.
fn differs_at<W: Debug, L: Debug, R: Debug>(row: &W, left: &L, right: &R) -> Fail {
    Fail::new(format_args!("at {row:?}: {left:?} isn't {right:?}"))
}

/// Both values are equal, or the failure shows both.
pub fn same<T: PartialEq + Debug + Copy>(left: T, right: T) -> Result<(), Fail>
    ensures { IfOk result (λ _. T.eq left right ≡ true) }
{
    if left == right {
        return Ok(());
    }
    Err(differs(&left, &right))
}

/// The same for values that own something, such as results that may hold an error.
pub fn same_owned<T: PartialEq + Debug + Drop>(left: T, right: T) -> Result<(), Fail>
    ensures { IfOk result (λ _. T.eq left right ≡ true) }
{
    if left == right {
        return Ok(());
    }
    Err(differs(&left, &right))
}

/// Both values are equal, or the failure shows both, and the row of a table that they come from.
pub fn same_at<R: Debug + Copy, T: PartialEq + Debug + Copy>(
    row: R,
    left: T,
    right: T,
) -> Result<(), Fail>
    ensures { IfOk result (λ _. T.eq left right ≡ true) }
{
    if left == right {
        return Ok(());
    }
    Err(differs_at(&row, &left, &right))
}

/// The values of each row are equal, or the failure shows both of the first row where they aren't, and its index.
pub fn all_same<T: PartialEq + Debug>(rows: &[(T, T)]) -> Result<(), Fail> {
    for (index, (left, right)) in rows.iter().enumerate() {
        if *left != *right {
            return Err(differs_at(&index, left, right));
        }
    }
    Ok(())
}

/// The values differ, or the failure shows both.
pub fn different<T: PartialEq + Debug + Copy>(left: T, right: T) -> Result<(), Fail>
    ensures { IfOk result (λ _. T.eq left right ≡ false) }
{
    if left != right {
        return Ok(());
    }
    Err(Fail::new(format_args!("{left:?} is {right:?}")))
}

/// The values of each row differ, or the failure shows the first row where they don't.
pub fn all_different<T: PartialEq + Debug>(rows: &[(T, T)]) -> Result<(), Fail> {
    for (left, right) in rows {
        different(left, right)?;
    }
    Ok(())
}

/// The result is the error of this kind, without a location.
pub fn is_refusal<T: PartialEq + Debug + Drop>(
    answer: ParseResult<T>,
    kind: ParseErrorKind,
) -> Result<(), Fail> {
    same_owned(answer, Err(ParseError::new(kind)))
}

/// The error of a result, if there is one.
pub fn error_of<T: Drop>(answer: ParseResult<T>) -> Option<ParseError> {
    match answer {
        Ok(_value) => None,
        Err(error) => Some(error),
    }
}

/// The kind of the error of a result, if there is one.
pub fn kind_of<T: Drop>(answer: ParseResult<T>) -> Option<ParseErrorKind> {
    match answer {
        Ok(_value) => None,
        Err(error) => Some(error.kind()),
    }
}

/// The kind of the error, if the octets aren't one value of the type.
pub fn refused<'a, T: Asn1Readable<'a>>(alloc: Global, octets: &'a [u8]) -> Option<ParseErrorKind> {
    kind_of(parse_single::<T>(alloc, octets))
}

/// The octets of each row are rejected as the type, with the row's kind.
pub fn are_refused<'a, T: Asn1Readable<'a>>(
    alloc: Global,
    rows: &[(&'a [u8], ParseErrorKind)],
) -> Result<(), Fail> {
    for (octets, kind) in rows {
        let found = refused::<T>(alloc, octets);
        if found != Some(*kind) {
            return Err(differs_at(octets, &found, kind));
        }
    }
    Ok(())
}

/// The octets of each row are rejected as the type, with the row's error and its locations.
pub fn are_refused_with<'a, T: Asn1Readable<'a>>(
    alloc: Global,
    rows: &[(&'a [u8], ParseError)],
) -> Result<(), Fail> {
    for (octets, error) in rows {
        let found = error_of(parse_single::<T>(alloc, octets));
        if found.as_ref() != Some(error) {
            return Err(differs_at(octets, &found, error));
        }
    }
    Ok(())
}

/// The octets of each row are rejected as the type, since their contents octets encode no value.
pub fn are_invalid<'a, T: Asn1Readable<'a>>(alloc: Global, rows: &[&'a [u8]]) -> Result<(), Fail> {
    for octets in rows {
        let found = refused::<T>(alloc, octets);
        if found != Some(ParseErrorKind::InvalidValue) {
            return Err(Fail::new(format_args!("{octets:?}: {found:?}")));
        }
    }
    Ok(())
}

/// The value is written as these octets.
pub fn is_written<T: Asn1Writable<Error = WriteError>>(
    alloc: Global,
    value: &T,
    octets: &[u8],
) -> Result<(), Fail>
    requires { T.der.closures (T.der.meaning value.now) }
{
    same(write_single(alloc, value)?.as_slice(), octets)
}

/// The closure writes these octets.
pub fn closure_writes<F: Fn(&mut Writer<'_>) -> WriteResult<()> + Drop>(
    alloc: Global,
    closure: F,
    octets: &[u8],
) -> Result<(), Fail>
    requires { IsWriter F.FnOnce closure }
{
    same(write(alloc, closure)?.as_slice(), octets)
}

/// The set whose elements the closure writes.
pub fn written_set<F: Fn(&mut SetElementWriter<'_>) -> WriteResult<()>>(
    alloc: Global,
    closure: &F,
) -> WriteResult<Vec<u8>>
    requires { IsSetWriter F.FnOnce closure.now }
{
    write_single(alloc, &SetWriter::new(closure))
}

/// The set whose elements the closure writes has these octets.
pub fn closure_writes_set<F: Fn(&mut SetElementWriter<'_>) -> WriteResult<()>>(
    alloc: Global,
    closure: &F,
    octets: &[u8],
) -> Result<(), Fail>
    requires { IsSetWriter F.FnOnce closure.now }
{
    same(written_set(alloc, closure)?.as_slice(), octets)
}

/// The first octets, and then the others so many times.
pub fn repeated(alloc: Global, first: &[u8], others: &[u8], count: usize) -> Result<Vec<u8>, Fail> {
    let mut octets = Vec::from_slice(alloc, first)?;
    for _ in 0..count {
        octets.extend_from_slice(others)?;
    }
    Ok(octets)
}

/// The failure of a read: the error itself if out of memory, and else the error with the octets.
fn unread(octets: &[u8], error: ParseError) -> Fail {
    if error.kind() == ParseErrorKind::AllocationError {
        return error.into();
    }
    Fail::new(format_args!("{octets:?}: {error:?}"))
}

/// What `parse_single` returns, and nothing of what it promises, which each proof of a test would hold for its type.
pub fn read<'a, T: Asn1Readable<'a>>(alloc: Global, octets: &'a [u8]) -> ParseResult<T> {
    parse_single::<T>(alloc, octets)
}

/// What is read as the type may be written: a call of the type says so.
fn may_be_written<'a, T: Asn1Readable<'a>>()
    ensures { T.der.plain }
{
    let _accepted = T::can_parse(Tag::primitive(0));
}

/// The octets are read as the type, with their length, and written again as they were.
pub fn is_written_back<'a, T: Asn1Readable<'a> + Asn1Writable<Error = WriteError>>(
    alloc: Global,
    octets: &'a [u8],
) -> Result<(), Fail> {
    may_be_written::<T>();
    match parse_single::<T>(alloc, octets) {
        Ok(value) => {
            same_at(octets, value.encoded_length(), Some(octets.len()))?;
            same(write_single(alloc, &value)?.as_slice(), octets)
        }
        Err(error) => Err(unread(octets, error)),
    }
}

/// The same for each row.
pub fn are_written_back<'a, T: Asn1Readable<'a> + Asn1Writable<Error = WriteError>>(
    alloc: Global,
    rows: &[&'a [u8]],
) -> Result<(), Fail> {
    for octets in rows {
        is_written_back::<T>(alloc, octets)?;
    }
    Ok(())
}

/// The octets are read as the value.
fn is_read<'a, T: Asn1Readable<'a> + PartialEq>(
    alloc: Global,
    octets: &'a [u8],
    value: &T,
) -> Result<(), Fail> {
    match parse_single::<T>(alloc, octets) {
        Ok(found) if found == *value => Ok(()),
        Ok(_) => Err(Fail::new(format_args!("{octets:?} is read as another value"))),
        Err(error) => Err(unread(octets, error)),
    }
}

/// The value is written as these octets, with their length, and read back.
pub fn both_ways<'a, T: Asn1Readable<'a> + Asn1Writable<Error = WriteError> + PartialEq>(
    alloc: Global,
    value: T,
    octets: &'a [u8],
) -> Result<(), Fail> {
    may_be_written::<T>();
    is_written(alloc, &value, octets)?;
    same(value.encoded_length(), Some(octets.len()))?;
    is_read(alloc, octets, &value)
}

/// The same for each row.
pub fn are_both_ways<'a, T: Asn1Readable<'a> + Asn1Writable<Error = WriteError> + PartialEq>(
    alloc: Global,
    rows: &[(T, &'a [u8])],
) -> Result<(), Fail> {
    may_be_written::<T>();
    for (value, octets) in rows {
        is_written(alloc, value, octets)?;
        same_at(*octets, value.encoded_length(), Some(octets.len()))?;
        is_read(alloc, octets, value)?;
    }
    Ok(())
}

/// The octets of each row are read as two values. These are equal and have equal hashes if the row says so, and else
/// neither.
pub fn are_equal_or_not<'a, T: Asn1Readable<'a> + PartialEq + Hash>(
    alloc: Global,
    rows: &[(&'a [u8], &'a [u8], bool)],
) -> Result<(), Fail> {
    for (octets, other, is_equal) in rows {
        let left = parse_single::<T>(alloc, octets)?;
        let right = parse_single::<T>(alloc, other)?;
        let found = (
            left == right,
            left != right,
            hash_of(&left) == hash_of(&right),
        );
        same_at((*octets, *other), found, (*is_equal, !*is_equal, *is_equal))?;
    }
    Ok(())
}

/// `Debug` shows the value as this text, in one line.
pub fn is_shown<T: Debug>(alloc: Global, value: &T, text: &str) -> Result<(), Fail> {
    same(format!(in alloc; "{value:?}")?.as_str(), text)
}

/// `Debug` shows the value of each row as its text, in one line.
pub fn are_shown<T: Debug>(alloc: Global, rows: &[(T, &str)]) -> Result<(), Fail> {
    for (value, text) in rows {
        is_shown(alloc, value, text)?;
    }
    Ok(())
}

/// `Debug` shows the value as this text, laid out in lines.
pub fn is_laid_out<T: Debug>(alloc: Global, value: &T, text: &str) -> Result<(), Fail> {
    same(format!(in alloc; "{value:#?}")?.as_str(), text)
}

/// `Display` shows the value as this text.
pub fn is_displayed<T: Display>(alloc: Global, value: &T, text: &str) -> Result<(), Fail> {
    same(format!(in alloc; "{value}")?.as_str(), text)
}

/// What a hasher returns for a value.
pub fn hash_of<T: Hash>(value: &T) -> u64 {
    let mut hasher = DefaultHasher::new();
    value.hash(&mut hasher);
    hasher.finish()
}
