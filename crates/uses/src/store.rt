//! A store of records: its list is read, a record is put behind it, and the longer list is written.
//!
//! It shows a type of one's own, which `tools/derive` printed from `declarations/store/record.rs`, a list that is read
//! and one that is written, and an error of one's own.

pub mod record;

ghost use Rattle.std.specs.Prelude.{◌≡◌, ◌++◌, ◌∷◌, [], List, map, IfOk};
ghost use Rattle.asn1.specs.Headline.{Encodes};
ghost use Rattle.uses.specs.declared.store.StoreError.TheVariants.{Read, Write};

use crate::store::record::laws::{record_is_lawful, records_is_lawful};
use crate::store::record::{Record, Records};
use asn1::{
    Asn1Type, ParseError, ParseResult, SequenceOfWriter, WriteError, WriteResult, parse_single,
    write_single,
};
use std::alloc::{AllocFailed, Global};

/// Why a store isn't extended.
#[derive(Debug, PartialEq, Drop)]
pub enum StoreError {
    /// The octets aren't a store, or memory ran out in reading.
    Read(ParseError),
    /// Memory ran out.
    Write(WriteError),
}

impl From<ParseError> for StoreError {
    ghost from_gives = { λ error result. result ≡ Read error };

    fn from(error: ParseError) -> StoreError {
        StoreError::Read(error)
    }
}

impl From<WriteError> for StoreError {
    ghost from_gives = { λ error result. result ≡ Write error };

    fn from(error: WriteError) -> StoreError {
        StoreError::Write(error)
    }
}

/// The records that the octets of a store encode.
pub fn read<'a>(alloc: Global, octets: &'a [u8]) -> ParseResult<Vec<Record<'a>>>
    ensures { IfOk result (λ all. Encodes ⟦<Records<'a> as Asn1Type>⟧.der
        (map ⟦<Record<'a> as Asn1Type>⟧.der.meaning all.items) octets.entry.now) }
{
    records_is_lawful();
    let list = parse_single::<Records<'a>>(alloc, octets)?;
    let all = list.to_vec()?;
    Ok(all)
}

/// The octets of a store of these records.
pub fn write<'a>(alloc: Global, all: &[Record<'a>]) -> WriteResult<Vec<u8>>
    ensures { IfOk result (λ out. out.items ≡ ⟦<Records<'a> as Asn1Type>⟧.der.encoding
        (map ⟦<Record<'a> as Asn1Type>⟧.der.meaning all.now)) }
{
    record_is_lawful();
    let out = write_single(alloc, &SequenceOfWriter::new(all))?;
    Ok(out)
}

/// The octets of a store with one record more, behind the others.
pub fn with_record<'a>(
    alloc: Global,
    octets: &'a [u8],
    record: Record<'a>,
) -> Result<Vec<u8>, StoreError>
    ensures { IfOk result (λ out. (records : List ⟦<Record<'a> as Asn1Type>⟧.der.Meaning)
        × Encodes ⟦<Records<'a> as Asn1Type>⟧.der records octets.entry.now
        × (out.items ≡ ⟦<Records<'a> as Asn1Type>⟧.der.encoding
        (records ++ ⟦<Record<'a> as Asn1Type>⟧.der.meaning «record».entry ∷ []))) }
{
    let mut all = read(alloc, octets)?;
    match all.push(record) {
        Ok(()) => Ok(write(alloc, all.as_slice())?),
        Err(_) => Err(StoreError::Write(WriteError::AllocationError)),
    }
}
