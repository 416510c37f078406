//! Memory that runs out: at an item that is read or iterated over, or at an element in a closure.
//!
//! These tests are run again with one request for memory refused, or with all from one on. They then end as out of
//! memory if each result was right; a wrong one fails an assertion.

ghost use Rattle.std.specs.Prelude.{◌≡◌};
ghost use Rattle.asn1.specs.Buffer.{KeepsPrefix};
ghost use Rattle.asn1.specs.Writing.{buffer_name, octets_of};

use crate::lists::{List, at, invalid, is_refused};
use asn1::{
    Choice3, OwnedBigInt, OwnedBigUint, OwnedBitString, ParseError, ParseErrorKind, ParseResult,
    SequenceWriter, SetOf, WriteError, WriteResult, Writer, parse_single, strip_tlv, write,
};
use std::alloc::Global;
use std::process::Abort;
use std::test::Fail;
use testing::same;

/// Of these items only reading the integer allocates.
type Item = Choice3<bool, Box<u8>, ()>;

/// Of these items only reading the integer and the bit string allocates.
type OwnedItem = Choice3<bool, OwnedBigUint, OwnedBitString>;

const LIST: &[u8] = &[0x30, 9, 2, 1, 1, 2, 1, 2, 2, 1, 3];

const SET: &[u8] = &[0x31, 9, 2, 1, 1, 2, 1, 2, 2, 1, 3];

const NO_MEMORY: ParseErrorKind = ParseErrorKind::AllocationError;

/// Whether there is memory now.
fn is_memory_there(alloc: Global) -> bool {
    Vec::<u8>::with_capacity(alloc, 64).is_ok()
}

/// The next number in order; or out of memory, without a location, and a second time only if there is no memory.
fn is_next<A: Abort>(
    rt: &A,
    alloc: Global,
    item: Option<Result<Box<u8>, ParseError>>,
    number: u8,
    found: Result<(), ParseError>,
) -> Result<(), ParseError> {
    match item {
        Some(Ok(item)) => {
            assert!(rt; *item == number, "{number}");
            return found;
        }
        item => {
            assert!(rt; found.is_ok() || !is_memory_there(alloc));
            assert!(rt; item == Some(Err(ParseError::new(NO_MEMORY))));
        }
    }
    Err(ParseError::new(NO_MEMORY))
}

#[test]
fn walks_go_on_behind_an_item_without_memory(rt: HostRuntime) -> Result<(), Fail> {
    let mut list = parse_single::<List<'_, Box<u8>>>(rt.alloc(), LIST)?;
    let mut found = Ok(());
    for (number, left) in [(1, 2), (2, 1), (3, 0)] {
        found = is_next(&rt, rt.alloc(), list.next(), number, found);
        same(list.len(), left)?;
    }
    assert!(rt; list.next().is_none() && list.len() == 0);
    let mut set = parse_single::<SetOf<'_, Box<u8>>>(rt.alloc(), SET)?;
    for number in 1..=3 {
        found = is_next(&rt, rt.alloc(), set.next(), number, found);
    }
    assert!(rt; set.next().is_none());
    found?;
    Ok(())
}

/// Lists and sets in which reading one item allocates, and its index.
const ONE_BOX: &[(usize, &[u8])] = &[
    (0, &[0x30, 7, 2, 1, 5, 5, 0, 5, 0]),
    (1, &[0x30, 8, 1, 1, 0xff, 2, 1, 5, 5, 0]),
    (2, &[0x30, 9, 1, 1, 0, 1, 1, 0xff, 2, 1, 5]),
    (0, &[0x31, 7, 2, 1, 5, 5, 0, 5, 0]),
    (1, &[0x31, 8, 1, 1, 0xff, 2, 1, 5, 5, 0]),
    (2, &[0x31, 9, 1, 1, 0, 1, 1, 0xff, 2, 1, 5]),
];

/// The same of items that own octets.
const ONE_OWNED: &[(usize, &[u8])] = &[
    (0, &[0x30, 6, 2, 1, 5, 1, 1, 0]),
    (1, &[0x30, 6, 1, 1, 0, 2, 1, 5]),
    (0, &[0x30, 7, 3, 2, 4, 0xf0, 1, 1, 0]),
    (2, &[0x30, 10, 1, 1, 0, 1, 1, 0, 3, 2, 4, 0xf0]),
    (1, &[0x31, 6, 1, 1, 0, 2, 1, 5]),
    (2, &[0x31, 9, 1, 1, 0, 1, 1, 0, 2, 1, 5]),
    (1, &[0x31, 7, 1, 1, 0, 3, 2, 4, 0xf0]),
    (2, &[0x31, 10, 1, 1, 0, 1, 1, 0, 3, 2, 4, 0xf0]),
];

/// All was read, or this item was out of memory; then the test ends as out of memory.
fn is_read_or_named<T: Drop>(read: ParseResult<T>, index: usize) -> Result<(), Fail> {
    match read {
        Ok(_value) => Ok(()),
        Err(error) => {
            same(&error, &at(index, NO_MEMORY))?;
            Err(WriteError::AllocationError.into())
        }
    }
}

#[test]
fn reading_names_the_item_without_memory(rt: HostRuntime) -> Result<(), Fail> {
    for (index, octets) in ONE_BOX {
        if octets.starts_with(&[0x30]) {
            is_read_or_named(parse_single::<List<'_, Item>>(rt.alloc(), octets), *index)?;
        } else {
            is_read_or_named(parse_single::<SetOf<'_, Item>>(rt.alloc(), octets), *index)?;
        }
    }
    Ok(())
}

#[test]
fn reading_names_the_owned_item_without_memory(rt: HostRuntime) -> Result<(), Fail> {
    for (index, octets) in ONE_OWNED {
        if octets.starts_with(&[0x30]) {
            is_read_or_named(
                parse_single::<List<'_, OwnedItem>>(rt.alloc(), octets),
                *index,
            )?;
        } else {
            is_read_or_named(
                parse_single::<SetOf<'_, OwnedItem>>(rt.alloc(), octets),
                *index,
            )?;
        }
    }
    Ok(())
}

#[test]
fn lists_of_owned_integers(rt: HostRuntime) -> Result<(), Fail> {
    let mut list = parse_single::<List<'_, OwnedBigInt>>(rt.alloc(), LIST)?;
    for number in 1..=3u8 {
        let item = list.next().ok_or("no item")??;
        same(item.as_bytes(), &[number])?;
    }
    assert!(rt; list.next().is_none());
    Ok(())
}

#[test]
fn lists_of_owned_naturals(rt: HostRuntime) -> Result<(), Fail> {
    let mut list = parse_single::<List<'_, OwnedBigUint>>(rt.alloc(), LIST)?;
    for number in 1..=3u8 {
        let item = list.next().ok_or("no item")??;
        same(item.as_bytes(), &[number])?;
    }
    assert!(rt; list.next().is_none());
    Ok(())
}

#[test]
fn lists_of_owned_bit_strings(rt: HostRuntime) -> Result<(), Fail> {
    let octets: &[u8] = &[0x30, 11, 3, 2, 4, 0x10, 3, 2, 0, 2, 3, 1, 0];
    let mut list = parse_single::<List<'_, OwnedBitString>>(rt.alloc(), octets)?;
    for bits in [[0x10u8].as_slice(), &[2], &[]] {
        let item = list.next().ok_or("no item")??;
        same(item.as_bitstring().as_bytes(), bits)?;
    }
    assert!(rt; list.next().is_none());
    Ok(())
}

/// Malformed contents octets are rejected with the same error whether or not there is memory: none is requested.
#[test]
fn faulty_contents_ask_for_no_memory(rt: HostRuntime) -> Result<(), Fail> {
    let alloc = rt.alloc();
    is_refused::<OwnedBigInt>(alloc, &[2, 2, 0, 1], invalid())?;
    is_refused::<OwnedBigUint>(alloc, &[2, 1, 0x80], invalid())?;
    is_refused::<OwnedBitString>(alloc, &[3, 2, 7, 1], invalid())?;
    is_refused::<Box<u8>>(alloc, &[2, 1, 0x80], invalid())
}

/// If a first write was out of memory, and there is memory again, a second write succeeds.
fn second_succeeds<A: Abort>(
    rt: &A,
    first: &WriteResult<()>,
    second: &WriteResult<()>,
    alloc: Global,
) {
    if first.is_err() && is_memory_there(alloc) {
        assert!(rt; second.is_ok());
    }
}

#[test]
fn an_element_without_memory_is_left_out(rt: HostRuntime) -> Result<(), Fail> {
    let goes_on = |writer: &mut Writer<'_>| -> WriteResult<()>
        ensures same_buffer { buffer_name writer.new ≡ buffer_name writer.old }
        ensures front { KeepsPrefix (octets_of writer.old) (octets_of writer.new) }
    {
        let first = writer.write_element(&5u8);
        let second = writer.write_element(&true);
        second_succeeds(&rt, &first, &second, rt.alloc());
        second
    };
    // After these six octets the buffer has to grow for the number.
    let octets = write(rt.alloc(), |writer: &mut Writer<'_>| -> WriteResult<()> {
        writer.write_element(&[1u8, 2, 3, 4])?;
        writer.write_element(&SequenceWriter::new(&goes_on))
    })?;
    let (_before, sequence) = strip_tlv(octets.as_slice())?;
    if sequence == [0x30u8, 3, 1, 1, 0xff].as_slice() {
        return Err(WriteError::AllocationError.into());
    }
    same(sequence, &[0x30, 6, 2, 1, 5, 1, 1, 0xff])
}
