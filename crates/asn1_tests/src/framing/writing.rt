ghost use Rattle.std.specs.Prelude.{◌≡◌, ◌++◌, OnOk, OnErr};
ghost use Rattle.asn1_core.specs.Buffer.{KeepsPrefix};

use asn1_core::tag::Tag;
use asn1_core::writer::{WriteBuf, WriteError, WriteResult, Writer, write};
use std::alloc::{AllocError, Global};
use std::test::Fail;
use testing::{closure_writes, is_written, same, same_at};

#[test]
fn truth_values_are_written(rt: HostRuntime) -> Result<(), Fail> {
    is_written(rt.alloc(), &true, &[0x01, 0x01, 0xff])?;
    is_written(rt.alloc(), &false, &[0x01, 0x01, 0x00])?;
    closure_writes(
        rt.alloc(),
        |writer: &mut Writer<'_>| {
            writer.write_element(&true)?;
            writer.write_element(&false)?;
            writer.write_element(&())
        },
        &[0x01, 0x01, 0xff, 0x01, 0x01, 0x00, 0x05, 0x00],
    )
}

/// Pushes octets: one, and then the others.
fn push_all(dest: &mut WriteBuf, octets: &[u8]) -> WriteResult<()>
    ensures ok { OnOk result (dest.new.bytes ≡ dest.old.bytes ++ octets.now) }
    ensures err { OnErr result (KeepsPrefix dest.old.bytes dest.new.bytes) }
{
    dest.reserve_additional(octets.len())?;
    match octets {
        [] => Ok(()),
        [first, others @ ..] => {
            dest.push_byte(*first)?;
            dest.push_slice(others)
        }
    }
}

/// An element whose length is announced.
pub fn announced_element(alloc: Global, tag: Tag, octets: &[u8]) -> WriteResult<Vec<u8>> {
    write(alloc, |writer: &mut Writer<'_>| -> WriteResult<()> {
        writer.write_tlv(
            tag,
            Some(octets.len()),
            |dest: &mut WriteBuf| -> WriteResult<()> { push_all(dest, octets) },
        )
    })
}

/// An element whose length is patched.
fn patched_element(alloc: Global, tag: Tag, octets: &[u8]) -> WriteResult<Vec<u8>> {
    write(alloc, |writer: &mut Writer<'_>| -> WriteResult<()> {
        writer.write_tlv(tag, None, |dest: &mut WriteBuf| -> WriteResult<()> {
            push_all(dest, octets)
        })
    })
}

/// This many octets, each different from its neighbours.
fn counted_octets(alloc: Global, count: usize) -> Result<Vec<u8>, AllocError> {
    let mut octets = Vec::new(alloc);
    for i in 0..count {
        octets.push((i % 251) as u8)?;
    }
    Ok(octets)
}

/// The octets are the header and then the contents octets.
pub fn compare_parts(octets: &[u8], header: &[u8], content: &[u8]) -> Result<(), Fail> {
    let length = octets.len().checked_sub(content.len());
    let found = (
        length,
        octets.starts_with(header),
        octets.ends_with(content),
    );
    same_at(content.len(), found, (Some(header.len()), true, true))
}

/// How many contents octets there are, and the header of an octet string of these.
pub const HEADERS: &[(usize, &[u8])] = &[
    (0, &[0x04, 0x00]),
    (127, &[0x04, 0x7f]),
    (128, &[0x04, 0x81, 0x80]),
    (129, &[0x04, 0x81, 0x81]),
    (255, &[0x04, 0x81, 0xff]),
    (256, &[0x04, 0x82, 0x01, 0x00]),
    (258, &[0x04, 0x82, 0x01, 0x02]),
    (65535, &[0x04, 0x82, 0xff, 0xff]),
    (65536, &[0x04, 0x83, 0x01, 0x00, 0x00]),
];

/// The element is the same whether its length is announced or patched, and has this header.
fn compare_headers(alloc: Global, content: &[u8], header: &[u8]) -> Result<(), Fail> {
    let announced = announced_element(alloc, Tag::primitive(4), content)?;
    compare_parts(announced.as_slice(), header, content)?;
    let patched = patched_element(alloc, Tag::primitive(4), content)?;
    compare_parts(patched.as_slice(), header, content)
}

#[test]
fn headers_announced_and_patched(rt: HostRuntime) -> Result<(), Fail> {
    for (n, header) in HEADERS {
        let content = counted_octets(rt.alloc(), *n)?;
        compare_headers(rt.alloc(), content.as_slice(), header)?;
    }
    Ok(())
}

/// The length octets replace one octet, and the octets after it move.
#[test]
fn a_length_is_put_between(rt: HostRuntime) -> Result<(), Fail> {
    let octets = patched_element(rt.alloc(), Tag::primitive(1), &[3, 4])?;
    same(octets.as_slice(), &[1, 2, 3, 4])?;
    let mut content = [5; 129];
    content[0] = 3;
    content[128] = 4;
    let octets = patched_element(rt.alloc(), Tag::primitive(1), &content)?;
    compare_parts(octets.as_slice(), &[1, 0x81, 0x81], &content)
}

#[test]
fn errors_of_writes_compare() -> Result<(), Fail> {
    let memory = WriteError::AllocationError;
    let order = WriteError::InvalidSetOrdering;
    let found = (
        memory == WriteError::AllocationError,
        order == WriteError::InvalidSetOrdering,
        memory != order,
    );
    same(found, (true, true, true))
}
