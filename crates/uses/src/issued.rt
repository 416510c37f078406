//! Whether a certificate names the subject of another as its issuer (RFC 5280, 4.1.2.4 and 6.1.3). Signatures aren't
//! looked at.
//!
//! It shows what `==` of values says, and that a call with a large type has a function of its own with a short
//! contract.

ghost use Rattle.std.specs.Prelude.{◌≡◌, ◌↔◌, IfOk, IsOk, IsTrue};
ghost use Rattle.asn1.specs.Headline.{Encodes};
ghost use Rattle.uses.specs.Issued.{issuer_of, subject_of};

use asn1::{Asn1Type, ParseResult, parse_single};
use pkix::certificate::Certificate;
use pkix::certificate::laws::certificate_is_lawful;
use pkix::common::Name;
use std::alloc::Global;

/// Reads a certificate.
fn read_certificate<'a>(alloc: Global, octets: &'a [u8]) -> ParseResult<Certificate<'a>>
    ensures found { IfOk result (λ certificate. Encodes ⟦<Certificate<'a> as Asn1Type>⟧.der
        (⟦<Certificate<'a> as Asn1Type>⟧.der.meaning certificate) octets.entry.now) }
    ensures some { ((m : ⟦<Certificate<'a> as Asn1Type>⟧.der.Meaning)
        × Encodes ⟦<Certificate<'a> as Asn1Type>⟧.der m octets.entry.now) → IsOk result }
{
    certificate_is_lawful();
    let certificate = parse_single::<Certificate<'a>>(alloc, octets)?;
    Ok(certificate)
}

/// Whether the issuer of the one is the subject of the other. If so, both names have the same octets.
pub fn is_issued_by<'a>(certificate: &Certificate<'a>, issuer: &Certificate<'a>) -> bool
    ensures meaning { IsTrue result
        ↔ (issuer_of (⟦<Certificate<'a> as Asn1Type>⟧.der.meaning certificate.now)
        ≡ subject_of (⟦<Certificate<'a> as Asn1Type>⟧.der.meaning issuer.now)) }
    ensures octets { IsTrue result → ⟦<Name<'a> as Asn1Type>⟧.der.encoding
        (issuer_of (⟦<Certificate<'a> as Asn1Type>⟧.der.meaning certificate.now))
        ≡ ⟦<Name<'a> as Asn1Type>⟧.der.encoding
        (subject_of (⟦<Certificate<'a> as Asn1Type>⟧.der.meaning issuer.now)) }
{
    certificate.tbs_certificate.issuer == issuer.tbs_certificate.subject
}

/// Whether the octets are the encoding of a certificate whose issuer is the subject of the other certificate. The
/// error is that of the first octets that encode no certificate.
pub fn is_issued<'a>(alloc: Global, octets: &'a [u8], issuer: &'a [u8]) -> ParseResult<bool>
    ensures found { IfOk result (λ yes. (c i : ⟦<Certificate<'a> as Asn1Type>⟧.der.Meaning)
        × Encodes ⟦<Certificate<'a> as Asn1Type>⟧.der c octets.entry.now
        × Encodes ⟦<Certificate<'a> as Asn1Type>⟧.der i issuer.entry.now
        × (IsTrue yes ↔ (issuer_of c ≡ subject_of i))) }
    ensures some { ((c i : ⟦<Certificate<'a> as Asn1Type>⟧.der.Meaning)
        × Encodes ⟦<Certificate<'a> as Asn1Type>⟧.der c octets.entry.now
        × Encodes ⟦<Certificate<'a> as Asn1Type>⟧.der i issuer.entry.now) → IsOk result }
{
    let certificate = read_certificate(alloc, octets)?;
    let other = read_certificate(alloc, issuer)?;
    let yes = is_issued_by(&certificate, &other);
    Ok(yes)
}
