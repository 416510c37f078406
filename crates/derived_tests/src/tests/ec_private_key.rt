//! A private key that openssl made.

use crate::ec_private_key::EcPrivateKey;
use asn1::{parse_single, write_readable};
use std::test::Fail;

/// A throwaway key of P-256, without the curve's identifier.
const KEY: &str = "\
306b0201010420de7d183d56384eb9ce6c7e6df033da2ad939d3eaa4acf251da184ca4b989cdf9a1\
4403420004371577ce1f22d7cd2264a0c5e18a7aa146ec200a31b3fb95d5d009893ad918a61a2530\
c1377c29a26169de99e20bc245fd2e939ceeba692a7e05df919256eead";

#[test]
fn a_key_is_read_and_written_back(rt: HostRuntime) -> Result<(), Fail> {
    let alloc = rt.alloc();
    let octets = hex::decode(alloc, KEY)?;
    let key = parse_single::<EcPrivateKey<'_>>(alloc, octets.as_slice())?;
    assert_eq!(rt; (key.version, key.private_key.len()), (1, 32));
    assert!(rt; key.parameters.is_none());
    assert_eq!(rt;
        key.public_key.as_ref().map(|bits| bits.as_bytes().len()),
        Some(65)
    );
    let written = write_readable(alloc, &key)?;
    assert!(rt; written.as_slice() == octets.as_slice());
    Ok(())
}
