//! At which octet an object of `pkix` has its error.

ghost use Rattle.std.specs.Prelude.{◌≡◌, ℕ, List, Option, IfSome, false};
ghost use Rattle.asn1.specs.ReadError.{ReadError};
ghost use Rattle.asn1_for_c.specs.Objects.{IsNoObject, TellsOf, key_number, object_numbered, signature_number};
ghost use Rattle.asn1_for_c.specs.Octets.{LeavesOctet, rejected_as};
ghost use Rattle.asn1_for_c.specs.declared.objects.Object.TheVariants as objects;

use crate::objects::{Described, Object, form_of};
use asn1::{Asn1Readable, Asn1Type, ParseError, error_octet, parse_single};
use pkix::certificate::Certificate;
use pkix::certificate::laws::certificate_is_lawful;
use pkix::common::SubjectPublicKeyInfo;
use pkix::common::laws::subject_public_key_info_is_lawful;
use pkix::keys::laws::{
    ec_private_key_is_lawful, one_asymmetric_key_is_lawful, rsa_private_key_is_lawful,
    rsa_public_key_is_lawful,
};
use pkix::keys::{EcPrivateKey, OneAsymmetricKey, RsaPrivateKey, RsaPublicKey};
use pkix::request::CertificationRequest;
use pkix::request::laws::certification_request_is_lawful;
use pkix::revocation::CertificateList;
use pkix::revocation::laws::certificate_list_is_lawful;
use pkix::signatures::laws::{
    content_info_is_lawful, digest_info_is_lawful, ecdsa_sig_value_is_lawful,
};
use pkix::signatures::{ContentInfo, DigestInfo, EcdsaSigValue};
use pkix::timestamps::laws::{time_stamp_req_is_lawful, time_stamp_resp_is_lawful};
use pkix::timestamps::{TimeStampReq, TimeStampResp};
use std::alloc::Global;

/// With which error octets are rejected that have to be an object.
pub trait Rejecting {
    ghost rejected: { Self → List ℕ → Option ReadError };
}

impl Rejecting for Object {
    ghost rejected = { λ one. elim one as (λ _. List ℕ → Option ReadError) [
      | objects.Certificate ↦ rejected_as ⟦<Certificate<'static> as Asn1Type>⟧.der
      | objects.Crl ↦ rejected_as ⟦<CertificateList<'static> as Asn1Type>⟧.der
      | objects.Request ↦ rejected_as ⟦<CertificationRequest<'static> as Asn1Type>⟧.der
      | objects.PublicKey ↦ rejected_as ⟦<SubjectPublicKeyInfo<'static> as Asn1Type>⟧.der
      | objects.PrivateKey ↦ rejected_as ⟦<OneAsymmetricKey<'static> as Asn1Type>⟧.der
      | objects.EcPrivateKey ↦ rejected_as ⟦<EcPrivateKey<'static> as Asn1Type>⟧.der
      | objects.RsaPrivateKey ↦ rejected_as ⟦<RsaPrivateKey<'static> as Asn1Type>⟧.der
      | objects.RsaPublicKey ↦ rejected_as ⟦<RsaPublicKey<'static> as Asn1Type>⟧.der
      | objects.EcdsaSignature ↦ rejected_as ⟦<EcdsaSigValue<'static> as Asn1Type>⟧.der
      | objects.DigestInfo ↦ rejected_as ⟦<DigestInfo<'static> as Asn1Type>⟧.der
      | objects.SignedData ↦ rejected_as ⟦<ContentInfo<'static> as Asn1Type>⟧.der
      | objects.TimestampRequest ↦ rejected_as ⟦<TimeStampReq<'static> as Asn1Type>⟧.der
      | objects.TimestampResponse ↦ rejected_as ⟦<TimeStampResp<'static> as Asn1Type>⟧.der
    ] };
}

/// The error with which the octets are rejected that have to be the encoding of a value of the type `T`.
fn rejected_as<'a, T: Asn1Readable<'a>>(alloc: Global, octets: &'a [u8]) -> Option<ParseError>
    requires lawful { T.der.lawful }
    requires needs_no_memory { T.der.takes_memory → ⊥ }
    ensures { result ≡ rejected_as T.der octets.entry.now }
{
    parse_single::<T>(alloc, octets).err()
}

/// The same of one object, whose type is lawful.
fn rejected(alloc: Global, one: Object, octets: &[u8]) -> Option<ParseError>
    ensures { result ≡ ⟦<Object as Rejecting>⟧.rejected one octets.now }
{
    match one {
        Object::Certificate => {
            certificate_is_lawful();
            rejected_as::<Certificate<'_>>(alloc, octets)
        }
        Object::Crl => {
            certificate_list_is_lawful();
            rejected_as::<CertificateList<'_>>(alloc, octets)
        }
        Object::Request => {
            certification_request_is_lawful();
            rejected_as::<CertificationRequest<'_>>(alloc, octets)
        }
        Object::PublicKey => {
            subject_public_key_info_is_lawful();
            rejected_as::<SubjectPublicKeyInfo<'_>>(alloc, octets)
        }
        Object::PrivateKey => {
            one_asymmetric_key_is_lawful();
            rejected_as::<OneAsymmetricKey<'_>>(alloc, octets)
        }
        Object::EcPrivateKey => {
            ec_private_key_is_lawful();
            rejected_as::<EcPrivateKey<'_>>(alloc, octets)
        }
        Object::RsaPrivateKey => {
            rsa_private_key_is_lawful();
            rejected_as::<RsaPrivateKey<'_>>(alloc, octets)
        }
        Object::RsaPublicKey => {
            rsa_public_key_is_lawful();
            rejected_as::<RsaPublicKey<'_>>(alloc, octets)
        }
        Object::EcdsaSignature => {
            ecdsa_sig_value_is_lawful();
            rejected_as::<EcdsaSigValue<'_>>(alloc, octets)
        }
        Object::DigestInfo => {
            digest_info_is_lawful();
            rejected_as::<DigestInfo<'_>>(alloc, octets)
        }
        Object::SignedData => {
            content_info_is_lawful();
            rejected_as::<ContentInfo<'_>>(alloc, octets)
        }
        Object::TimestampRequest => {
            time_stamp_req_is_lawful();
            rejected_as::<TimeStampReq<'_>>(alloc, octets)
        }
        Object::TimestampResponse => {
            time_stamp_resp_is_lawful();
            rejected_as::<TimeStampResp<'_>>(alloc, octets)
        }
    }
}

/// Whether the octets are rejected as this object and the octet of the error is found, which is then left.
fn leave_octet(
    alloc: Global,
    one: Object,
    octets: &[u8],
    scratch: &mut [u8],
    octet: &mut usize,
) -> bool
    ensures exact { LeavesOctet (⟦<Object as Rejecting>⟧.rejected one) octets.now result
        octet.old octet.new }
    ensures stays { result ≡ false → octet.new ≡ octet.old }
{
    let found = error_octet(
        octets,
        scratch,
        |octets: &[u8]| rejected(alloc, one, octets),
    );
    match found {
        Some(found) => {
            *octet = found;
            true
        }
        None => false,
    }
}

/// Whether the octets are rejected as the object with this number, and the octet of the error is found, as
/// `asn1::error_octet` does. Then sets `octet` to it, and else leaves it as it was: if the octets are the encoding, if
/// no object has the number, or if `scratch`, which is overwritten, is shorter than `octets`.
pub fn pkix_error_octet(
    alloc: Global,
    number: u32,
    octets: &[u8],
    scratch: &mut [u8],
    octet: &mut usize,
) -> bool
    ensures exact { IfSome (object_numbered number) (λ one. LeavesOctet
        (⟦<Object as Rejecting>⟧.rejected one) octets.now result octet.old octet.new) }

    // A key is rejected as the form of which `pkix_check` tells, and so is a signature.
    ensures key { number ≡ key_number → (one : Object)
        × TellsOf (⟦<Object as Described>⟧.form one) ⟦<Object as Described>⟧.key octets.now
        × LeavesOctet (⟦<Object as Rejecting>⟧.rejected one) octets.now result
        octet.old octet.new }
    ensures signature { number ≡ signature_number → (one : Object)
        × TellsOf (⟦<Object as Described>⟧.form one) ⟦<Object as Described>⟧.signature octets.now
        × LeavesOctet (⟦<Object as Rejecting>⟧.rejected one) octets.now result
        octet.old octet.new }
    ensures none { IsNoObject number → result ≡ false }
    ensures stays { result ≡ false → octet.new ≡ octet.old }
{
    match form_of(alloc, number, octets) {
        Some(one) => leave_octet(alloc, one, octets, scratch, octet),
        None => false,
    }
}
