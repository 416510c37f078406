//! Whether octets are the one encoding of an object of `pkix`, such as a certificate, and where it has an error.

ghost use Rattle.std.specs.Prelude.{◌≡◌, [], IfErr, IfOk, IfSome, IfNone, IsOk, IsTrue};
ghost use Rattle.asn1.specs.ReadError.{IsOfInput};
ghost use Rattle.asn1.specs.Reading.{Fits, whole};
ghost use Rattle.asn1.specs.Reads.{ReadsWhole};
ghost use Rattle.asn1_for_c.specs.Errors.{unknown_type, without_details};
ghost use Rattle.asn1_for_c.specs.Locations.{told_location};
ghost use Rattle.asn1_for_c.specs.Objects.{IsNoObject, TellsOf, key_number, signature_number};
ghost use Rattle.asn1_for_c.specs.Objects.{object_number, object_numbered};
ghost use Rattle.asn1_for_c.specs.Texts.{LeavesText};
ghost use Rattle.asn1_for_c.specs.Types.{Checks, Form, IsEncoding, LeavesChecked, either, form};
ghost use Rattle.asn1_for_c.specs.declared.objects.Object.TheVariants as objects;

use crate::errors::{Asn1Error, UNKNOWN_TYPE, error_of};
use crate::locations::leave_location;
use crate::texts::leave_text;
use asn1::{Asn1Readable, Asn1Type, ParseResult, Tag, parse_single, strip_tlv};
use pkix::certificate::Certificate;
use pkix::certificate::laws::certificate_is_lawful;
use pkix::common::SubjectPublicKeyInfo;
use pkix::common::laws::subject_public_key_info_is_lawful;
use pkix::keys::laws::{
    ec_private_key_is_lawful, one_asymmetric_key_is_lawful, rsa_private_key_is_lawful,
    rsa_public_key_is_lawful,
};
use pkix::keys::{EcPrivateKey, OneAsymmetricKey, RsaPrivateKey, RsaPublicKey};
use pkix::request::CertificationRequest;
use pkix::request::laws::certification_request_is_lawful;
use pkix::revocation::CertificateList;
use pkix::revocation::laws::certificate_list_is_lawful;
use pkix::signatures::laws::{
    content_info_is_lawful, digest_info_is_lawful, ecdsa_sig_value_is_lawful,
};
use pkix::signatures::{ContentInfo, DigestInfo, EcdsaSigValue};
use pkix::timestamps::laws::{time_stamp_req_is_lawful, time_stamp_resp_is_lawful};
use pkix::timestamps::{TimeStampReq, TimeStampResp};
use std::alloc::Global;

/// An object that has a number.
#[derive(Clone, Copy)]
pub enum Object {
    /// Certificate (RFC 5280, 4.1).
    Certificate,
    /// CertificateList (RFC 5280, 5.1).
    Crl,
    /// CertificationRequest (RFC 2986, 4.2).
    Request,
    /// SubjectPublicKeyInfo (RFC 5280, 4.1).
    PublicKey,
    /// OneAsymmetricKey (RFC 5958, 2).
    PrivateKey,
    /// ECPrivateKey (RFC 5915, 3).
    EcPrivateKey,
    /// RSAPrivateKey (RFC 8017, A.1.2).
    RsaPrivateKey,
    /// RSAPublicKey (RFC 8017, A.1.1).
    RsaPublicKey,
    /// ECDSA-Sig-Value (RFC 3279, 2.2.3).
    EcdsaSignature,
    /// DigestInfo (RFC 8017, 9.2).
    DigestInfo,
    /// ContentInfo (RFC 5652, 3) of signed data.
    SignedData,
    /// TimeStampReq (RFC 3161, 2.4.1).
    TimestampRequest,
    /// TimeStampResp (RFC 3161, 2.4.2).
    TimestampResponse,
}

/// What octets have to be: objects of one form, keys, and signatures.
pub trait Described {
    ghost form: { Self → Form };

    ghost key: { Form };

    ghost signature: { Form };
}

impl Described for Object {
    ghost form = { λ one. elim one as (λ _. Form) [
      | objects.Certificate ↦ form ⟦<Certificate<'static> as Asn1Type>⟧.der
      | objects.Crl ↦ form ⟦<CertificateList<'static> as Asn1Type>⟧.der
      | objects.Request ↦ form ⟦<CertificationRequest<'static> as Asn1Type>⟧.der
      | objects.PublicKey ↦ form ⟦<SubjectPublicKeyInfo<'static> as Asn1Type>⟧.der
      | objects.PrivateKey ↦ form ⟦<OneAsymmetricKey<'static> as Asn1Type>⟧.der
      | objects.EcPrivateKey ↦ form ⟦<EcPrivateKey<'static> as Asn1Type>⟧.der
      | objects.RsaPrivateKey ↦ form ⟦<RsaPrivateKey<'static> as Asn1Type>⟧.der
      | objects.RsaPublicKey ↦ form ⟦<RsaPublicKey<'static> as Asn1Type>⟧.der
      | objects.EcdsaSignature ↦ form ⟦<EcdsaSigValue<'static> as Asn1Type>⟧.der
      | objects.DigestInfo ↦ form ⟦<DigestInfo<'static> as Asn1Type>⟧.der
      | objects.SignedData ↦ form ⟦<ContentInfo<'static> as Asn1Type>⟧.der
      | objects.TimestampRequest ↦ form ⟦<TimeStampReq<'static> as Asn1Type>⟧.der
      | objects.TimestampResponse ↦ form ⟦<TimeStampResp<'static> as Asn1Type>⟧.der
    ] };

    ghost key = { either (form ⟦<SubjectPublicKeyInfo<'static> as Asn1Type>⟧.der)
        (either (form ⟦<EcPrivateKey<'static> as Asn1Type>⟧.der)
        (either (form ⟦<RsaPrivateKey<'static> as Asn1Type>⟧.der)
        (either (form ⟦<RsaPublicKey<'static> as Asn1Type>⟧.der)
        (form ⟦<OneAsymmetricKey<'static> as Asn1Type>⟧.der)))) };

    ghost signature = { either (form ⟦<EcdsaSigValue<'static> as Asn1Type>⟧.der)
        (either (form ⟦<DigestInfo<'static> as Asn1Type>⟧.der)
        (form ⟦<ContentInfo<'static> as Asn1Type>⟧.der)) };
}

/// The number of a key in any of its forms.
const KEY: u32 = 14;
/// The number of a signature in any of its forms.
const SIGNATURE: u32 = 15;

impl Object {
    /// Each object once.
    pub(crate) const ALL: &'static [Object] = &[
        Object::Certificate,
        Object::Crl,
        Object::Request,
        Object::PublicKey,
        Object::PrivateKey,
        Object::EcPrivateKey,
        Object::RsaPrivateKey,
        Object::RsaPublicKey,
        Object::EcdsaSignature,
        Object::DigestInfo,
        Object::SignedData,
        Object::TimestampRequest,
        Object::TimestampResponse,
    ];

    /// The number.
    fn number(self) -> u32
        ensures { result ≡ object_number self }
    {
        match self {
            Object::Certificate => 1,
            Object::Crl => 2,
            Object::Request => 3,
            Object::PublicKey => 4,
            Object::PrivateKey => 5,
            Object::EcPrivateKey => 6,
            Object::RsaPrivateKey => 7,
            Object::RsaPublicKey => 8,
            Object::EcdsaSignature => 9,
            Object::DigestInfo => 10,
            Object::SignedData => 11,
            Object::TimestampRequest => 12,
            Object::TimestampResponse => 13,
        }
    }

    /// The object with this number.
    fn numbered(number: u32) -> Option<Object>
        ensures { result ≡ object_numbered number }
    {
        Object::ALL
            .iter()
            .copied()
            .find(|one| one.number() == number)
    }
}

/// Reads the octets as a value of the type `T`, by [`parse_single`], whose clauses are said here in fewer words.
fn read_object<'a, T: Asn1Readable<'a>>(alloc: Global, octets: &'a [u8]) -> ParseResult<T>
    requires lawful { T.der.lawful }
    requires needs_no_memory { T.der.takes_memory → ⊥ }
    ensures exact { ReadsWhole T.der octets.entry.now result }
    ensures found { IfOk result (λ _. IsEncoding T.der octets.entry.now) }
    ensures only { IsEncoding T.der octets.entry.now → Fits octets.entry.now → IsOk result }
    ensures no_memory_error { IfErr result IsOfInput }
{
    parse_single::<T>(alloc, octets)
}

/// Whether the octets are the encoding of a value of the type `T`. Returns the number of the error, and sets `error`
/// and the error's location.
fn check_object<'a, T: Asn1Readable<'a>>(
    alloc: Global,
    octets: &'a [u8],
    place: &mut [u8],
    count: &mut usize,
    error: &mut Asn1Error,
) -> u32
    requires lawful { T.der.lawful }
    requires needs_no_memory { T.der.takes_memory → ⊥ }
    ensures exact { Checks T.der octets.entry.now result error.new }
    ensures number { result ≡ error.new.number }
    ensures place { LeavesText (told_location (whole (T.der.read octets.entry.now)))
        place.old place.new count.new }
{
    match read_object::<T>(alloc, octets) {
        Ok(_value) => {
            *error = Asn1Error::without_details(0);
            leave_text(b"", place, count);
        }
        Err(fault) => {
            *error = error_of(fault.kind());
            leave_location(fault.places(), place, count);
        }
    }
    error.number
}

/// The same of one object, whose type is lawful.
fn check_one(
    alloc: Global,
    one: Object,
    octets: &[u8],
    place: &mut [u8],
    count: &mut usize,
    error: &mut Asn1Error,
) -> u32
    ensures exact { LeavesChecked (⟦<Object as Described>⟧.form one) octets.now result error.new
        place.old place.new count.new }
    ensures number { result ≡ error.new.number }
{
    match one {
        Object::Certificate => {
            certificate_is_lawful();
            check_object::<Certificate<'_>>(alloc, octets, place, count, error)
        }
        Object::Crl => {
            certificate_list_is_lawful();
            check_object::<CertificateList<'_>>(alloc, octets, place, count, error)
        }
        Object::Request => {
            certification_request_is_lawful();
            check_object::<CertificationRequest<'_>>(alloc, octets, place, count, error)
        }
        Object::PublicKey => {
            subject_public_key_info_is_lawful();
            check_object::<SubjectPublicKeyInfo<'_>>(alloc, octets, place, count, error)
        }
        Object::PrivateKey => {
            one_asymmetric_key_is_lawful();
            check_object::<OneAsymmetricKey<'_>>(alloc, octets, place, count, error)
        }
        Object::EcPrivateKey => {
            ec_private_key_is_lawful();
            check_object::<EcPrivateKey<'_>>(alloc, octets, place, count, error)
        }
        Object::RsaPrivateKey => {
            rsa_private_key_is_lawful();
            check_object::<RsaPrivateKey<'_>>(alloc, octets, place, count, error)
        }
        Object::RsaPublicKey => {
            rsa_public_key_is_lawful();
            check_object::<RsaPublicKey<'_>>(alloc, octets, place, count, error)
        }
        Object::EcdsaSignature => {
            ecdsa_sig_value_is_lawful();
            check_object::<EcdsaSigValue<'_>>(alloc, octets, place, count, error)
        }
        Object::DigestInfo => {
            digest_info_is_lawful();
            check_object::<DigestInfo<'_>>(alloc, octets, place, count, error)
        }
        Object::SignedData => {
            content_info_is_lawful();
            check_object::<ContentInfo<'_>>(alloc, octets, place, count, error)
        }
        Object::TimestampRequest => {
            time_stamp_req_is_lawful();
            check_object::<TimeStampReq<'_>>(alloc, octets, place, count, error)
        }
        Object::TimestampResponse => {
            time_stamp_resp_is_lawful();
            check_object::<TimeStampResp<'_>>(alloc, octets, place, count, error)
        }
    }
}

/// Whether the octets are the encoding of a value of the type `T`.
fn is_read<'a, T: Asn1Readable<'a>>(alloc: Global, octets: &'a [u8]) -> bool
    requires lawful { T.der.lawful }
    requires needs_no_memory { T.der.takes_memory → ⊥ }
    ensures yes { IsTrue result → IsEncoding T.der octets.entry.now }
    ensures no { IsEncoding T.der octets.entry.now → Fits octets.entry.now → IsTrue result }
{
    parse_single::<T>(alloc, octets).is_ok()
}

/// The tags of the first two elements within an element, as far as they are there, and whether octets follow these.
fn first_tags(octets: &[u8]) -> (Option<Tag>, Option<Tag>, bool) {
    let Ok((whole, _rest)) = strip_tlv(octets) else {
        return (None, None, false);
    };
    let Ok((first, after)) = strip_tlv(whole.data()) else {
        return (None, None, false);
    };
    match strip_tlv(after) {
        Ok((second, after)) => (Some(first.tag()), Some(second.tag()), !after.is_empty()),
        Err(_) => (Some(first.tag()), None, !after.is_empty()),
    }
}

/// The form of a key: the first that reads the octets, or else the one that the tags of their first elements tell. A
/// OneAsymmetricKey has a version and an algorithm, an ECPrivateKey a version and octets, an RSAPublicKey two integers,
/// an RSAPrivateKey more of them, a SubjectPublicKeyInfo begins with an algorithm.
fn key_form(alloc: Global, octets: &[u8]) -> Object
    ensures { TellsOf (⟦<Object as Described>⟧.form result) ⟦<Object as Described>⟧.key octets.now }
{
    subject_public_key_info_is_lawful();
    one_asymmetric_key_is_lawful();
    ec_private_key_is_lawful();
    rsa_private_key_is_lawful();
    rsa_public_key_is_lawful();
    if is_read::<SubjectPublicKeyInfo<'_>>(alloc, octets) {
        return Object::PublicKey;
    }
    if is_read::<EcPrivateKey<'_>>(alloc, octets) {
        return Object::EcPrivateKey;
    }
    if is_read::<RsaPrivateKey<'_>>(alloc, octets) {
        return Object::RsaPrivateKey;
    }
    if is_read::<RsaPublicKey<'_>>(alloc, octets) {
        return Object::RsaPublicKey;
    }
    if is_read::<OneAsymmetricKey<'_>>(alloc, octets) {
        return Object::PrivateKey;
    }
    let (first, second, has_more) = first_tags(octets);
    if first == Some(Tag::constructed(0x10)) {
        Object::PublicKey
    } else if second == Some(Tag::primitive(0x04)) {
        Object::EcPrivateKey
    } else if second != Some(Tag::primitive(0x02)) {
        Object::PrivateKey
    } else if has_more {
        Object::RsaPrivateKey
    } else {
        Object::RsaPublicKey
    }
}

/// The form of a signature, in the same way: an ECDSA-Sig-Value begins with an integer, a DigestInfo with an algorithm,
/// a ContentInfo with an identifier.
fn signature_form(alloc: Global, octets: &[u8]) -> Object
    ensures { TellsOf (⟦<Object as Described>⟧.form result) ⟦<Object as Described>⟧.signature
        octets.now }
{
    ecdsa_sig_value_is_lawful();
    digest_info_is_lawful();
    content_info_is_lawful();
    if is_read::<EcdsaSigValue<'_>>(alloc, octets) {
        return Object::EcdsaSignature;
    }
    if is_read::<DigestInfo<'_>>(alloc, octets) {
        return Object::DigestInfo;
    }
    if is_read::<ContentInfo<'_>>(alloc, octets) {
        return Object::SignedData;
    }
    let (first, _second, _has_more) = first_tags(octets);
    if first == Some(Tag::primitive(0x02)) {
        Object::EcdsaSignature
    } else if first == Some(Tag::constructed(0x10)) {
        Object::DigestInfo
    } else {
        Object::SignedData
    }
}

/// The object with this number; of keys and of signatures the form that these octets have.
pub(crate) fn form_of(alloc: Global, number: u32, octets: &[u8]) -> Option<Object>
    ensures one { IfSome (object_numbered number) (λ one. result ≡ object_numbered number) }
    ensures key { number ≡ key_number → IfSome result (λ one. TellsOf
        (⟦<Object as Described>⟧.form one) ⟦<Object as Described>⟧.key octets.now) }
    ensures signature { number ≡ signature_number → IfSome result (λ one. TellsOf
        (⟦<Object as Described>⟧.form one) ⟦<Object as Described>⟧.signature octets.now) }
    ensures none { IfNone result (IsNoObject number) }
    ensures some { IsNoObject number → result ≡ None }
{
    match number {
        KEY => Some(key_form(alloc, octets)),
        SIGNATURE => Some(signature_form(alloc, octets)),
        _ => Object::numbered(number),
    }
}

/// Which form of a key or of a signature the octets have: the number of that object, at which `pkix_check` tells of
/// them what it tells at `number`. Other objects have one form: their number is returned, or 0 if no object has it.
pub fn pkix_form(alloc: Global, number: u32, octets: &[u8]) -> u32
    ensures one { IfSome (object_numbered number) (λ one. result ≡ number) }
    ensures key { number ≡ key_number → IfSome (object_numbered result) (λ one. TellsOf
        (⟦<Object as Described>⟧.form one) ⟦<Object as Described>⟧.key octets.now) }
    ensures signature { number ≡ signature_number → IfSome (object_numbered result)
        (λ one. TellsOf (⟦<Object as Described>⟧.form one) ⟦<Object as Described>⟧.signature
        octets.now) }
    ensures some { IfNone (object_numbered result) (IsNoObject number) }
    ensures none { IsNoObject number → result ≡ 0 }
{
    match form_of(alloc, number, octets) {
        Some(one) => one.number(),
        None => 0,
    }
}

/// Whether the octets are the one encoding of the object with this number, as `asn1::parse_single` says. Returns 0 if
/// they are, and else the number of the error. Sets `error` in each case. Leaves the location of the error, such as
/// `tbsCertificate.validity.notAfter`, in `place` if it has room for it, and sets `count` to how many octets the
/// location has, which is 0 without an error.
pub fn pkix_check(
    alloc: Global,
    number: u32,
    octets: &[u8],
    place: &mut [u8],
    count: &mut usize,
    error: &mut Asn1Error,
) -> u32
    ensures exact { IfSome (object_numbered number) (λ one.
        LeavesChecked (⟦<Object as Described>⟧.form one) octets.now result error.new
        place.old place.new count.new) }

    // A key is one of its forms, and so is a signature.
    ensures key { number ≡ key_number → LeavesChecked ⟦<Object as Described>⟧.key octets.now
        result error.new place.old place.new count.new }
    ensures signature { number ≡ signature_number → LeavesChecked
        ⟦<Object as Described>⟧.signature octets.now result error.new
        place.old place.new count.new }
    ensures none { IsNoObject number → error.new ≡ without_details unknown_type }
    ensures no_place { IsNoObject number → LeavesText [] place.old place.new count.new }
    ensures number { result ≡ error.new.number }
{
    match form_of(alloc, number, octets) {
        Some(one) => check_one(alloc, one, octets, place, count, error),
        None => {
            *error = Asn1Error::without_details(UNKNOWN_TYPE);
            leave_text(b"", place, count);
            UNKNOWN_TYPE
        }
    }
}
