//! The workloads of `scripts/bench`: calls of the port, each in a loop, in a library for C.
#![tactic(auto)]

mod answers;

ghost use Rattle.std.specs.Prelude.{◌≡◌};
ghost use Rattle.asn1.specs.Buffer.{KeepsPrefix};
ghost use Rattle.asn1.specs.Der.{IsWritable};
ghost use Rattle.asn1.specs.Writing.{buffer_name, octets_of};

use crate::answers::{Answer, FAILED, ListOf};
use asn1::{
    Asn1Readable, Asn1Writable, BitString, ObjectIdentifier, ParseErrorKind, Parser, SequenceOf,
    SequenceOfWriter, SetOf, SetOfWriter, Tag, Tlv, UtcTime, Utf8String, WriteBuf, WriteError,
    WriteResult, Writer, parse_single, write_single,
};
use pkix::certificate::Certificate;
use pkix::signatures::EcdsaSigValue;
use std::alloc::Global;

/// Reads this many elements, which follow one another.
#[inline(never)]
fn read<'a, T: Asn1Readable<'a> + Answer>(alloc: Global, octets: &'a [u8], times: u64) -> u64 {
    let mut parser = Parser::new(alloc, octets);
    let mut sum = 0u64;
    for _ in 0..times {
        match parser.read_element::<T>() {
            Ok(value) => sum = sum.wrapping_add(value.answer()),
            Err(_) => return FAILED,
        }
    }
    sum
}

/// Reads this many encodings of the same length, which follow one another, and each of which is rejected.
#[inline(never)]
fn reject<'a, T: Asn1Readable<'a> + Drop>(alloc: Global, octets: &'a [u8], times: u64) -> u64 {
    let mut sum = 0u64;
    let Some(length) = (octets.len() as u64).checked_div(times) else {
        return FAILED;
    };
    if length == 0 {
        return FAILED;
    }
    for one in octets.chunks_exact(length as usize) {
        match parse_single::<T>(alloc, one) {
            Ok(_) => return FAILED,
            Err(error) => match error.kind() {
                ParseErrorKind::InvalidValue => sum = sum.wrapping_add(1),
                ParseErrorKind::UnexpectedTag { .. } => sum = sum.wrapping_add(2),
                _ => sum = sum.wrapping_add(3),
            },
        }
    }
    sum
}

/// Writes a value this often.
#[inline(never)]
fn write_often<T: Asn1Writable<Error = WriteError>>(alloc: Global, value: &T, times: u64) -> u64
    requires { IsWritable T.der (T.der.meaning value.now) }
{
    let mut sum = 0u64;
    for _ in 0..times {
        match write_single(alloc, value) {
            Ok(octets) => sum = sum.wrapping_add((&*octets).answer()),
            Err(_) => return FAILED,
        }
    }
    sum
}

/// Reads a value once and writes it this often.
#[inline(never)]
fn write<'a, T: Asn1Readable<'a> + Asn1Writable<Error = WriteError>>(
    alloc: Global,
    octets: &'a [u8],
    times: u64,
) -> u64 {
    // By this call the type says that what is read may be written.
    let _accepted = T::can_parse(Tag::primitive(0));
    match parse_single::<T>(alloc, octets) {
        Ok(value) => write_often(alloc, &value, times),
        Err(_) => FAILED,
    }
}

/// Reads this many elements, which follow one another, and writes each.
#[inline(never)]
fn rewrite<'a, T: Asn1Readable<'a> + Asn1Writable<Error = WriteError>>(
    alloc: Global,
    octets: &'a [u8],
    times: u64,
) -> u64 {
    // As above.
    let _accepted = T::can_parse(Tag::primitive(0));
    let mut parser = Parser::new(alloc, octets);
    let mut sum = 0u64;
    for _ in 0..times {
        match parser.read_element::<T>() {
            Ok(value) => match write_single(alloc, &value) {
                Ok(written) => sum = sum.wrapping_add((&*written).answer()),
                Err(_) => return FAILED,
            },
            Err(_) => return FAILED,
        }
    }
    sum
}

/// The items of a list, as an array.
fn numbers(alloc: Global, octets: &[u8]) -> Option<Vec<u64>> {
    let mut numbers = Vec::new(alloc);
    for number in parse_single::<ListOf<'_, u64>>(alloc, octets).ok()? {
        numbers.push(number.ok()?).ok()?;
    }
    Some(numbers)
}

/// A number, which is within four sequences.
fn write_one(dest: &mut WriteBuf) -> WriteResult<()>
    ensures { KeepsPrefix dest.old.bytes dest.new.bytes }
{
    Writer::new(dest).write_element(&1u64)
}

/// One sequence around it.
fn write_1_deep(dest: &mut WriteBuf) -> WriteResult<()>
    ensures { KeepsPrefix dest.old.bytes dest.new.bytes }
{
    Writer::new(dest).write_tlv(Tag::constructed(0x10), None, write_one)
}

/// Two around it.
fn write_2_deep(dest: &mut WriteBuf) -> WriteResult<()>
    ensures { KeepsPrefix dest.old.bytes dest.new.bytes }
{
    Writer::new(dest).write_tlv(Tag::constructed(0x10), None, write_1_deep)
}

/// Three around it.
fn write_3_deep(dest: &mut WriteBuf) -> WriteResult<()>
    ensures { KeepsPrefix dest.old.bytes dest.new.bytes }
{
    Writer::new(dest).write_tlv(Tag::constructed(0x10), None, write_2_deep)
}

/// Writes this often the number and its four sequences, each of which patches its length.
#[inline(never)]
fn write_by_closures(alloc: Global, times: u64) -> u64 {
    let sequences = |writer: &mut Writer<'_>| -> WriteResult<()>
        ensures same_buffer { buffer_name writer.new ≡ buffer_name writer.old }
        ensures front { KeepsPrefix (octets_of writer.old) (octets_of writer.new) }
    { writer.write_tlv(Tag::constructed(0x10), None, write_3_deep) };
    let mut sum = 0u64;
    for _ in 0..times {
        match asn1::write(alloc, sequences) {
            Ok(octets) => sum = sum.wrapping_add((&*octets).answer()),
            Err(_) => return FAILED,
        }
    }
    sum
}

/// Does the workload of this number: reads this often what the octets hold, or writes it.
#[unsafe(no_mangle)]
pub extern "C" fn speed(alloc: Global, workload: u32, octets: &[u8], times: u64) -> u64 {
    match workload {
        0 => read::<Tlv<'_>>(alloc, octets, times),
        1 => read::<bool>(alloc, octets, times),
        2 => read::<u8>(alloc, octets, times),
        3 => read::<i64>(alloc, octets, times),
        4 => read::<u64>(alloc, octets, times),
        5 => read::<ObjectIdentifier>(alloc, octets, times),
        6 => read::<Utf8String<'_>>(alloc, octets, times),
        7 => read::<UtcTime>(alloc, octets, times),
        8 => read::<&[u8]>(alloc, octets, times),
        9 => read::<BitString<'_>>(alloc, octets, times),
        10 => read::<EcdsaSigValue<'_>>(alloc, octets, times),
        11 => read::<Certificate<'_>>(alloc, octets, times),
        12 => read::<ListOf<'_, u64>>(alloc, octets, times),
        13 => read::<SetOf<'_, u64>>(alloc, octets, times),
        14 => reject::<bool>(alloc, octets, times),
        15 => reject::<u64>(alloc, octets, times),
        16 => reject::<Utf8String<'_>>(alloc, octets, times),
        17 => reject::<EcdsaSigValue<'_>>(alloc, octets, times),
        18 => reject::<Certificate<'_>>(alloc, octets, times),
        19 => write::<bool>(alloc, octets, times),
        20 => write::<u8>(alloc, octets, times),
        21 => write::<i64>(alloc, octets, times),
        22 => write::<u64>(alloc, octets, times),
        23 => write::<ObjectIdentifier>(alloc, octets, times),
        24 => write::<EcdsaSigValue<'_>>(alloc, octets, times),
        25 => write_by_closures(alloc, times),
        26 => write::<ListOf<'_, ListOf<'_, ListOf<'_, ListOf<'_, u64>>>>>(alloc, octets, times),
        27 => rewrite::<ListOf<'_, u64>>(alloc, octets, times),
        28 => rewrite::<Certificate<'_>>(alloc, octets, times),
        29 => match numbers(alloc, octets) {
            Some(numbers) => write_often(alloc, &SequenceOfWriter::new(&numbers), times),
            None => FAILED,
        },
        30 => match numbers(alloc, octets) {
            Some(numbers) => write_often(alloc, &SetOfWriter::new(&numbers), times),
            None => FAILED,
        },
        _ => FAILED,
    }
}
