//! The example of docs/PKIX.md that reads a certificate.

use crate::objects::{CURVE, FULL, RSA};
use asn1::parse_single;
use pkix::certificate::Certificate;
use pkix::extension_values::ExtensionValue;
use std::alloc::Global;
use std::test::Fail;
use testing::same;

/// Whether the subject of this certificate may sign certificates.
fn may_sign(alloc: Global, octets: &[u8]) -> Result<bool, Fail> {
    let mut may_sign = false;
    let certificate = parse_single::<Certificate<'_>>(alloc, octets)?;
    if let Some(extensions) = &certificate.tbs_certificate.extensions {
        for extension in extensions.clone()? {
            if let ExtensionValue::BasicConstraints(constraints) = extension?.value(alloc)? {
                may_sign = constraints.ca;
            }
        }
    }
    Ok(may_sign)
}

/// As OpenSSL lists their basic constraints.
#[test]
fn who_may_sign(rt: HostRuntime) -> Result<(), Fail> {
    let alloc = rt.alloc();
    for (object, wanted) in [(RSA, true), (CURVE, false), (FULL, true)] {
        let octets = hex::decode(alloc, object)?;
        same(may_sign(alloc, octets.as_slice())?, wanted)?;
    }
    Ok(())
}
