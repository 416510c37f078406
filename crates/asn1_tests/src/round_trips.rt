//! What is read is written back, and what is written is read back.

use asn1::{
    Asn1Readable, Asn1Writable, Choice2, Explicit, ParseError, ParseErrorKind, SequenceOf,
    WriteError, read_and_write_back, write_and_read_back, write_readable,
};
use std::alloc::Global;
use std::test::Fail;
use testing::{error_of, same};

/// Checks that the octets are read as the type, and written back.
fn is_written_back<'a, T: Asn1Readable<'a> + Asn1Writable<Error = WriteError>>(
    alloc: Global,
    octets: &'a [u8],
) -> Result<(), Fail> {
    let again = read_and_write_back::<T>(alloc, octets)??;
    same(again.as_slice(), octets)
}

#[test]
fn texts_are_written_back(rt: HostRuntime) -> Result<(), Fail> {
    let alloc = rt.alloc();
    is_written_back::<u64>(alloc, &[2, 2, 0, 0x80])?;
    is_written_back::<Choice2<u64, bool>>(alloc, &[1, 1, 0xff])?;
    is_written_back::<Option<Explicit<bool, 2>>>(alloc, &[])?;
    is_written_back::<SequenceOf<'_, bool, 0, 2>>(alloc, &[0x30, 3, 1, 1, 0])?;
    let read = read_and_write_back::<bool>(alloc, &[1, 1, 1]);
    let invalid = ParseError::new(ParseErrorKind::InvalidValue);
    same(&error_of(read), &Some(invalid))
}

#[test]
fn values_are_read_back(rt: HostRuntime) -> Result<(), Fail> {
    let alloc = rt.alloc();
    let mut store = Vec::new(alloc);
    let read = write_and_read_back(alloc, &true, &mut store)??;
    assert!(rt; read);
    same(write_readable(alloc, &true)?.as_slice(), &[1, 1, 0xff])
}
