//! Hosts that certificates allow, beside what OpenSSL lists of them.

use super::{BARE, LEAF, ROOT};
use crate::hosts::{allows, names_host};
use asn1::{ParseErrorKind, parse_single};
use pkix::certificate::Certificate;
use std::test::Fail;
use testing::{kind_of, same, same_at};

/// A certificate, a host, and whether the one allows the other.
const ROWS: &[(&str, &str, bool)] = &[
    (LEAF, "www.example", true),
    (LEAF, "example", true),
    (LEAF, "mail.example", false),
    (LEAF, "issuer.example", false),
    (LEAF, "WWW.example", false),
    (LEAF, "ww.example", false),
    (LEAF, "", false),
    (ROOT, "Root", false),
    (BARE, "www.example", false),
];

#[test]
fn hosts_are_allowed(rt: HostRuntime) -> Result<(), Fail> {
    let alloc = rt.alloc();
    for (object, host, wanted) in ROWS {
        let octets = hex::decode(alloc, object)?;
        let certificate = parse_single::<Certificate<'_>>(alloc, octets.as_slice())?;
        same_at(*host, allows(alloc, &certificate, host)?, *wanted)?;
    }
    Ok(())
}

/// A GeneralNames has a name at least (RFC 5280, 4.2.1.6).
#[test]
fn octets_that_are_no_names(rt: HostRuntime) -> Result<(), Fail> {
    let alloc = rt.alloc();
    same(names_host(alloc, b"\x30\x03\x82\x01a", "a")?, true)?;
    let none = ParseErrorKind::InvalidSize {
        min: 1,
        max: usize::MAX,
        actual: 0,
    };
    same(kind_of(names_host(alloc, b"\x30\x00", "a")), Some(none))
}
