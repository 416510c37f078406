//! Why an object in DER is rejected, as a caller of `answer_to` displays it. The program tells this with the location,
//! and in other words.

use pkix_text::{Answer, Kind, Refusal, answer_to};
use std::test::Fail;
use testing::same;

/// What isn't an object of the kind, and what the original displays of the error of its type.
const REFUSED: &[(Kind, &[u8], &str)] = &[
    (
        Kind::Certificate,
        b"\x30\x00",
        "ASN.1 parsing error: short data (needed at least 1 additional bytes)",
    ),
    (
        Kind::Key,
        b"\x30\x06\x02\x01\x00\x04\x01\x00\x00",
        "ASN.1 parsing error: extra data",
    ),
    (
        Kind::TimestampRequest,
        b"\x30\x80",
        "ASN.1 parsing error: invalid length",
    ),
];

#[test]
fn errors_of_der_in_words(rt: HostRuntime) -> Result<(), Fail> {
    let alloc = rt.alloc();
    for (kind, octets, words) in REFUSED {
        match answer_to(alloc, *kind, octets, None)? {
            Answer::Rejected(refusal @ Refusal::Der(..)) => {
                same(format!(in alloc; "{refusal}")?.as_str(), words)?;
            }
            other => return Err(Fail::new(format_args!("{kind:?}: {other:?}"))),
        }
    }
    Ok(())
}
