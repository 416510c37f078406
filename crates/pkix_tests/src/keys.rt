//! Encrypted keys (RFC 5958, 3), which no program here shows.

use crate::objects::ENCRYPTED_KEY;
use pkix::keys::EncryptedPrivateKeyInfo;
use std::test::Fail;
use testing::{is_written_back, read, same};

/// By PBES2 (RFC 8018, A.4), to 64 octets.
#[test]
fn keys_that_are_encrypted(rt: HostRuntime) -> Result<(), Fail> {
    let alloc = rt.alloc();
    let whole = hex::decode(alloc, ENCRYPTED_KEY)?;
    is_written_back::<EncryptedPrivateKeyInfo<'_>>(alloc, whole.as_slice())?;
    let key = read::<EncryptedPrivateKeyInfo<'_>>(alloc, whole.as_slice())?;
    let algorithm = format!(in alloc; "{}", key.encryption_algorithm.algorithm)?;
    same(algorithm.as_str(), "1.2.840.113549.1.5.13")?;
    same(
        key.encryption_algorithm
            .parameters
            .map(|it| it.data().len()),
        Some(74),
    )?;
    same(Some(key.encrypted_data), whole.as_slice().get(94..))
}
