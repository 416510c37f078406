//! Issuers and subjects of certificates, as OpenSSL lists them.

use super::{BARE, LEAF, ROOT};
use crate::issued::is_issued;
use asn1::ParseErrorKind;
use std::test::Fail;
use testing::{kind_of, same, same_at};

/// A certificate, another one, and whether the issuer of the one is the subject of the other.
const ROWS: &[(&str, &str, bool)] = &[
    (LEAF, ROOT, true),
    (BARE, ROOT, true),
    (ROOT, ROOT, true),
    (ROOT, LEAF, false),
    (LEAF, LEAF, false),
    (LEAF, BARE, false),
];

#[test]
fn issuers_are_subjects(rt: HostRuntime) -> Result<(), Fail> {
    let alloc = rt.alloc();
    for (row, (certificate, issuer, wanted)) in ROWS.iter().enumerate() {
        let octets = hex::decode(alloc, certificate)?;
        let others = hex::decode(alloc, issuer)?;
        same_at(
            row,
            is_issued(alloc, octets.as_slice(), others.as_slice())?,
            *wanted,
        )?;
    }
    Ok(())
}

#[test]
fn octets_that_are_no_certificate(rt: HostRuntime) -> Result<(), Fail> {
    let alloc = rt.alloc();
    let octets = hex::decode(alloc, ROOT)?;
    let short = octets.as_slice().get(1..).unwrap_or(&[]);
    same(
        kind_of(is_issued(alloc, octets.as_slice(), b"\x30")),
        Some(ParseErrorKind::ShortData { needed: 1 }),
    )?;
    same(is_issued(alloc, short, octets.as_slice()).is_err(), true)
}
