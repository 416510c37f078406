//! Lists that were read, of items whose writes may fail: each item is written, so that its error is the list's.

ghost use Rattle.std.specs.Prelude.{◌≡◌};
ghost use Rattle.asn1.specs.Der.{viewed};
ghost use Rattle.asn1_tests.specs.declared.refused_items.Refusal.TheVariants.{Memory, Seven};

use crate::lists::List;
use asn1::{
    Asn1Readable, Asn1Type, Asn1Writable, Explicit, Implicit, OctetStringEncoded, ParseResult,
    SetOf, SimpleAsn1Readable, SimpleAsn1Writable, Tag, WriteBuf, WriteError, read_and_write_back,
};
use std::alloc::Global;
use std::test::Fail;
use testing::same;

/// Why a number was not written.
#[derive(Debug, PartialEq, Eq, Drop)]
enum Refusal {
    Memory,
    Seven,
}

impl From<WriteError> for Refusal {
    ghost from_gives = { λ _ e. e ≡ Memory };

    fn from(_e: WriteError) -> Refusal {
        Refusal::Memory
    }
}

/// A number that is read, and isn't written if it is seven.
#[derive(Drop)]
struct NotSeven(u64);

impl Asn1Type for NotSeven {
    ghost der = { viewed (λ v. v.0) ⟦<u64 as Asn1Type>⟧.der };

    fn known(&self) {
        self.0.known()
    }
}

impl<'a> SimpleAsn1Readable<'a> for NotSeven {
    fn tag() -> Tag {
        <u64 as SimpleAsn1Readable<'_>>::tag()
    }

    fn parse_data(alloc: Global, data: &'a [u8]) -> ParseResult<NotSeven> {
        match u64::parse_data(alloc, data) {
            Ok(number) => Ok(NotSeven(number)),
            Err(error) => Err(error),
        }
    }
}

impl SimpleAsn1Writable for NotSeven {
    type Error = Refusal;

    ghost write_errors = { λ _ e. e ≡ Seven };

    fn tag() -> Tag {
        <u64 as SimpleAsn1Writable>::tag()
    }

    fn write_data(&self, dest: &mut WriteBuf) -> Result<(), Refusal> {
        if self.0 == 7 {
            return Err(Refusal::Seven);
        }
        self.0.write_data(dest)?;
        Ok(())
    }

    fn data_length(&self) -> Option<usize> {
        self.0.data_length()
    }
}

/// A value is read from the octets, and not written, since a seven is in it.
fn is_not_written_back<'a, T: Asn1Readable<'a> + Asn1Writable<Error = Refusal>>(
    alloc: Global,
    octets: &'a [u8],
) -> Result<(), Fail> {
    match read_and_write_back::<T>(alloc, octets)? {
        Err(Refusal::Memory) => Err(WriteError::AllocationError)?,
        answer => same(matches!(answer, Err(Refusal::Seven)), true),
    }
}

#[test]
fn items_are_written_one_by_one(rt: HostRuntime) -> Result<(), Fail> {
    let alloc = rt.alloc();
    is_not_written_back::<List<'_, NotSeven>>(alloc, &[0x30, 6, 2, 1, 5, 2, 1, 7])?;
    is_not_written_back::<SetOf<'_, NotSeven>>(alloc, &[0x31, 6, 2, 1, 5, 2, 1, 7])?;
    is_not_written_back::<List<'_, SetOf<'_, NotSeven>>>(alloc, &[0x30, 5, 0x31, 3, 2, 1, 7])?;
    is_not_written_back::<SetOf<'_, List<'_, NotSeven>>>(alloc, &[0x31, 5, 0x30, 3, 2, 1, 7])?;
    is_not_written_back::<List<'_, Box<NotSeven>>>(alloc, &[0x30, 3, 2, 1, 7])?;
    is_not_written_back::<List<'_, Explicit<NotSeven, 1>>>(alloc, &[0x30, 5, 0xa1, 3, 2, 1, 7])?;
    is_not_written_back::<List<'_, Implicit<NotSeven, 1>>>(alloc, &[0x30, 3, 0x81, 1, 7])?;
    is_not_written_back::<List<'_, OctetStringEncoded<NotSeven>>>(alloc, &[0x30, 5, 4, 3, 2, 1, 7])
}

#[test]
fn other_items_are_written_as_they_were_read(rt: HostRuntime) -> Result<(), Fail> {
    let alloc = rt.alloc();
    let octets: &[u8] = &[0x30, 5, 0x31, 3, 2, 1, 7];
    let written = read_and_write_back::<List<'_, SetOf<'_, u64>>>(alloc, octets)??;
    same(written.as_slice(), octets)?;
    let octets: &[u8] = &[0x30, 3, 2, 1, 5];
    match read_and_write_back::<List<'_, NotSeven>>(alloc, octets)? {
        Ok(written) => same(written.as_slice(), octets),
        Err(_) => Err(WriteError::AllocationError)?,
    }
}
