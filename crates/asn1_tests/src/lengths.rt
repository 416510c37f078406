//! Lengths that are known before anything is written.

use crate::lists::List;
use asn1::fields::{explicit_length, implicit_length, value_length};
use asn1::{
    Asn1Readable, Asn1Writable, Choice1, Choice2, Choice3, Explicit, Implicit, OctetStringEncoded,
    Sequence, SequenceOf, SequenceOfWriter, SequenceWriter, Set, SetElementWriter, SetOf,
    SetOfWriter, SetWriter, SimpleAsn1Writable, Tlv, WriteResult, Writer, strip_tlv,
};
use std::alloc::Global;
use std::test::Fail;
use testing::{read, same, same_at};

/// The length of each value is known, and is that of the encoding from which the value was read.
fn lengths_are_known<'a, T: Asn1Readable<'a> + Asn1Writable>(
    alloc: Global,
    encodings: &[&'a [u8]],
) -> Result<(), Fail> {
    for octets in encodings {
        let value = read::<T>(alloc, octets)?;
        same_at(*octets, value.encoded_length(), Some(octets.len()))?;
    }
    Ok(())
}

/// The same, and the number of contents octets is known.
fn both_are_known<'a, T: Asn1Readable<'a> + SimpleAsn1Writable>(
    alloc: Global,
    encodings: &[&'a [u8]],
) -> Result<(), Fail> {
    for octets in encodings {
        let (tlv, _rest) = strip_tlv(octets)?;
        let value = read::<T>(alloc, octets)?;
        same_at(*octets, value.encoded_length(), Some(octets.len()))?;
        same_at(*octets, value.data_length(), Some(tlv.data().len()))?;
    }
    Ok(())
}

/// An element with this tag around 43 integers, whose length takes two octets.
fn many(alloc: Global, tag: u8) -> Result<&'static [u8], Fail> {
    let mut octets = Vec::from_slice(alloc, &[tag, 0x81, 129])?;
    for _ in 0..43 {
        octets.extend_from_slice(&[2, 1, 5])?;
    }
    Ok(octets.leak())
}

const LISTS: [&[u8]; 3] = [
    &[0x30, 0],
    &[0x30, 3, 2, 1, 5],
    &[0x30, 6, 2, 1, 5, 2, 1, 7],
];

const SETS: &[&[u8]] = &[
    &[0x31, 0],
    &[0x31, 3, 2, 1, 5],
    &[0x31, 6, 2, 1, 5, 2, 1, 7],
];

/// The same of these elements and of a long one.
fn are_known_with_a_long_one<'a, T: Asn1Readable<'a> + SimpleAsn1Writable>(
    alloc: Global,
    encodings: &[&'a [u8]],
    long: &'a [u8],
) -> Result<(), Fail> {
    both_are_known::<T>(alloc, encodings)?;
    both_are_known::<T>(alloc, &[long])
}

#[test]
fn lengths_of_lists(rt: HostRuntime) -> Result<(), Fail> {
    let alloc = rt.alloc();
    let many = many(alloc, 0x30)?;
    are_known_with_a_long_one::<List<'_, u64>>(alloc, &LISTS, many)?;
    are_known_with_a_long_one::<List<'_, Option<u8>>>(alloc, &LISTS, many)?;
    are_known_with_a_long_one::<List<'_, Choice2<bool, i64>>>(alloc, &LISTS, many)?;
    are_known_with_a_long_one::<Sequence<'_>>(alloc, &LISTS, many)?;
    both_are_known::<SequenceOf<'_, u64, 1, 2>>(alloc, &LISTS[1..])?;
    both_are_known::<List<'_, List<'_, u8>>>(alloc, &[&[0x30, 5, 0x30, 3, 2, 1, 5]])
}

#[test]
fn lengths_of_sets(rt: HostRuntime) -> Result<(), Fail> {
    let alloc = rt.alloc();
    let many = many(alloc, 0x31)?;
    are_known_with_a_long_one::<SetOf<'_, u64>>(alloc, SETS, many)?;
    are_known_with_a_long_one::<SetOf<'_, Option<u8>>>(alloc, SETS, many)?;
    are_known_with_a_long_one::<SetOf<'_, Choice2<bool, i64>>>(alloc, SETS, many)?;
    are_known_with_a_long_one::<Set<'_>>(alloc, SETS, many)?;
    both_are_known::<SetOf<'_, SetOf<'_, u8>>>(alloc, &[&[0x31, 5, 0x31, 3, 2, 1, 5]])
}

/// The length of a list and of a set that are iterated over is that of the remaining items.
#[test]
fn lengths_of_items_left(rt: HostRuntime) -> Result<(), Fail> {
    let mut list = read::<List<'_, u8>>(rt.alloc(), &[0x30, 7, 2, 1, 5, 2, 2, 0, 0x80])?;
    let mut set = read::<SetOf<'_, u8>>(rt.alloc(), &[0x31, 7, 2, 1, 5, 2, 2, 0, 0x80])?;
    for count in &[7, 4, 0] {
        length_is(&list, Some(*count))?;
        length_is(&set, Some(*count))?;
        assert!(rt; list.next().is_some() == (*count > 0) && set.next().is_some() == (*count > 0));
    }
    Ok(())
}

#[test]
fn lengths_of_wrappers(rt: HostRuntime) -> Result<(), Fail> {
    let alloc = rt.alloc();
    both_are_known::<Explicit<bool, 2>>(alloc, &[&[0xa2, 3, 1, 1, 0xff]])?;
    both_are_known::<Explicit<Option<bool>, 0>>(alloc, &[&[0xa0, 0], &[0xa0, 3, 1, 1, 0xff]])?;
    both_are_known::<Explicit<bool, 200>>(alloc, &[&[0xbf, 0x81, 0x48, 3, 1, 1, 0xff]])?;
    both_are_known::<Implicit<bool, 2>>(alloc, &[&[0x82, 1, 0xff]])?;
    both_are_known::<Implicit<SetOf<'_, u64>, 1>>(alloc, &[&[0xa1, 3, 2, 1, 5]])?;
    both_are_known::<OctetStringEncoded<bool>>(alloc, &[&[4, 3, 1, 1, 0xff]])
}

#[test]
fn lengths_of_alternatives(rt: HostRuntime) -> Result<(), Fail> {
    let alloc = rt.alloc();
    lengths_are_known::<Option<bool>>(alloc, &[&[1, 1, 0xff], &[]])?;
    lengths_are_known::<Choice1<bool>>(alloc, &[&[1, 1, 0xff]])?;
    lengths_are_known::<Choice2<bool, i64>>(alloc, &[&[1, 1, 0xff], &[2, 2, 1, 0]])?;
    lengths_are_known::<Choice3<bool, i64, ()>>(alloc, &[&[1, 1, 0xff], &[2, 2, 1, 0], &[5, 0]])?;
    lengths_are_known::<Tlv<'_>>(alloc, &[&[0x1f, 0x81, 0x80, 0x01, 1, 7]])
}

#[test]
fn lengths_of_values_in_variants() -> Result<(), Fail> {
    same(value_length(&true), Some(3))?;
    same(explicit_length(&true, 1), Some(5))?;
    same(implicit_length(&true, 1), Some(3))?;
    let writes = |writer: &mut Writer<'_>| -> WriteResult<()> { writer.write_element(&true) };
    same(value_length(&SequenceWriter::new(&writes)), None)
}

/// The value has this many contents octets, after two octets, or no known length.
fn length_is<T: SimpleAsn1Writable>(value: &T, count: Option<usize>) -> Result<(), Fail> {
    let whole = match count {
        Some(count) => count.checked_add(2),
        None => None,
    };
    same(
        (value.data_length(), value.encoded_length()),
        (count, whole),
    )
}

/// The same of a list and of a set of these items.
fn lengths_are<T: Asn1Writable>(items: &[T], count: Option<usize>) -> Result<(), Fail> {
    length_is(&SequenceOfWriter::new(items), count)?;
    length_is(&SetOfWriter::new(items), count)
}

#[test]
fn lengths_of_slices() -> Result<(), Fail> {
    let items = [1u16, 2, 256];
    for (end, count, whole) in &[(0, 0, 2), (1, 3, 5), (2, 6, 8), (3, 10, 12)] {
        let items = items.get(..*end).ok_or("too few items")?;
        lengths_are(items, Some(*count))?;
        lengths_are(&[SequenceOfWriter::new(items)], Some(*whole))?;
        lengths_are(&[SetOfWriter::new(items)], Some(*whole))?;
    }
    Ok(())
}

/// No length is known of what a closure writes, nor of a list of these.
#[test]
fn lengths_of_closures() -> Result<(), Fail> {
    let nothing = |_writer: &mut Writer<'_>| -> WriteResult<()> { Ok(()) };
    let sequences = [SequenceWriter::new(&nothing)];
    length_is(&sequences[0], None)?;
    lengths_are(&sequences, None)
}

#[test]
fn lengths_of_closures_of_sets() -> Result<(), Fail> {
    let no_element = |_set: &mut SetElementWriter<'_>| -> WriteResult<()> { Ok(()) };
    let sets = [SetWriter::new(&no_element)];
    length_is(&sets[0], None)?;
    lengths_are(&sets, None)
}
