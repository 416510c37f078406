//! Stores that OpenSSL made (`openssl asn1parse -genconf`), of `number`, `name`, and `note` under the implicit tag 0.

use crate::store::record::Record;
use crate::store::{StoreError, read, with_record};
use asn1::{ParseErrorKind, Tag, Utf8String};
use std::alloc::Global;
use std::test::Fail;
use testing::same;

/// Two records.
const STORE: &str = "\
3022300a0201070c05666972737430140202012c0c067365636f6e64800661206e6f7465";

/// The same, and then a record of 0, no letters, and a note.
const LONGER: &str = "\
302f300a0201070c05666972737430140202012c0c067365636f6e64800661206e6f7465300b0201\
000c0080046c617374";

/// The octets of a store with one record more.
fn longer<'a>(
    alloc: Global,
    octets: &'a [u8],
    name: &'a str,
    note: &'a str,
) -> Result<Vec<u8>, StoreError> {
    let record = Record {
        number: 0,
        name: Utf8String::new(name),
        note: Some(Utf8String::new(note)),
    };
    with_record(alloc, octets, record)
}

/// Why octets aren't read as a store, if they aren't.
fn refusal(answer: Result<Vec<u8>, StoreError>) -> Option<ParseErrorKind> {
    match answer {
        Ok(_octets) => None,
        Err(StoreError::Read(error)) => Some(error.kind()),
        Err(StoreError::Write(_error)) => None,
    }
}

#[test]
fn records_are_read(rt: HostRuntime) -> Result<(), Fail> {
    let alloc = rt.alloc();
    let octets = hex::decode(alloc, STORE)?;
    let records = read(alloc, octets.as_slice())?;
    let wanted = [(7, "first", None), (300, "second", Some("a note"))];
    same(records.len(), wanted.len())?;
    for (record, (number, name, note)) in records.iter().zip(wanted) {
        same(record.number, number)?;
        same(record.name.as_str(), name)?;
        same(record.note.map(|note| note.as_str()), note)?;
    }
    Ok(())
}

#[test]
fn a_record_is_put_behind(rt: HostRuntime) -> Result<(), Fail> {
    let alloc = rt.alloc();
    let octets = hex::decode(alloc, STORE)?;
    let wanted = hex::decode(alloc, LONGER)?;
    let found = longer(alloc, octets.as_slice(), "", "last")?;
    same(found.as_slice(), wanted.as_slice())
}

/// A list of an INTEGER is no store.
#[test]
fn octets_that_are_no_store(rt: HostRuntime) -> Result<(), Fail> {
    let alloc = rt.alloc();
    let wanted = ParseErrorKind::UnexpectedTag {
        actual: Tag::primitive(2),
    };
    let found = longer(alloc, b"\x30\x03\x02\x01\x07", "a", "b");
    same(refusal(found), Some(wanted))
}
