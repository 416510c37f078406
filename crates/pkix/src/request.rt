//! Requests for certificates (RFC 2986).
// Printed by tools/derive from declarations/request.rs, with the sum a97de466.

ghost use Rattle.std.specs.Prelude.{◌≡◌, ◌∷◌, [], IsTrue};
ghost use Rattle.asn1.specs.Reads.{HasOneEncoding, ReadsContents};
ghost use Rattle.asn1.specs.Structures.{field_names, implicit, structure, fields3, fields4};

use crate::common::{AlgorithmIdentifier, Attributes, Name, SubjectPublicKeyInfo};
use asn1::fields::{Fields3, Fields4, Row};
use asn1::{
    Asn1Type, Asn1Writable, BitString, Implicit, ParseResult, SimpleAsn1Readable,
    SimpleAsn1Writable, Tag, WriteBuf, WriteError, WriteResult, fields_length, known_fields,
    read_fields, write_fields,
};
use std::alloc::Global;

/// CertificationRequestInfo (RFC 2986, 4.1), a SEQUENCE: the part of a request that is signed.
#[derive(Debug, Clone, PartialEq, Eq, Drop)]
pub struct CertificationRequestInfo<'a> {
    /// The version, which is the number less one: 0 is v1. Any from 0 to 255 is read.
    pub version: u8,
    /// Whose key it is.
    pub subject: Name<'a>,
    /// The key.
    pub subject_pk_info: SubjectPublicKeyInfo<'a>,
    /// The attributes of the subject.
    pub attributes: Attributes<'a>,
}

impl<'a> CertificationRequestInfo<'a> {
    /// The fields that have another name in ASN.1 than theirs with capitals, as errors name them, with that name.
    pub const NAMES: &'static [(&'static str, &'static str)] = &[(
        "CertificationRequestInfo::subject_pk_info",
        "subjectPKInfo",
    )];
}

type CertificationRequestInfoAttributesField<'a> = Implicit<Attributes<'a>, 0>;

type CertificationRequestInfoFields<'a> = Fields4<
    u8,
    Name<'a>,
    SubjectPublicKeyInfo<'a>,
    CertificationRequestInfoAttributesField<'a>,
>;

macro_rules! fields_of_certification_request_info {
    ($body:ident, $($of:tt)*) => { $body!($($of)*;
        version, subject, subject_pk_info,
        attributes: CertificationRequestInfoAttributesField<'a>) };
}

impl<'a> Asn1Type for CertificationRequestInfo<'a> {
    ghost der = { structure (λ v. fields4 v.version v.subject v.subject_pk_info (implicit
        v.attributes)) ⟦<CertificationRequestInfoFields<'a> as Row>⟧.list
        (field_names "CertificationRequestInfo" ("version" ∷ "subject" ∷ "subject_pk_info" ∷
        "attributes" ∷ [])) };

    fn known(&self) {
        fields_of_certification_request_info!(known_fields, self)
    }
}

impl<'a> SimpleAsn1Readable<'a> for CertificationRequestInfo<'a> {
    fn tag() -> Tag
        ensures value { result ≡ ⟦<CertificationRequestInfo<'a> as Asn1Type>⟧.der.content.tag }
        ensures simple { ⟦<CertificationRequestInfo<'a> as Asn1Type>⟧.der.is_simple }
        ensures plain { ⟦<CertificationRequestInfo<'a> as Asn1Type>⟧.der.plain }
        ensures read { ⟦<CertificationRequestInfo<'a> as Asn1Type>⟧.der.is_read }
    {
        Tag::constructed(0x10)
    }

    fn parse_data(alloc: Global, data: &'a [u8]) -> ParseResult<CertificationRequestInfo<'a>>
        ensures { ReadsContents ⟦<CertificationRequestInfo<'a> as Asn1Type>⟧.der «data».entry.now
            result }
    {
        fields_of_certification_request_info!(read_fields,
            CertificationRequestInfoFields<'a>, alloc, data => CertificationRequestInfo)
    }
}

impl<'a> SimpleAsn1Writable for CertificationRequestInfo<'a> {
    type Error = WriteError;

    ghost length_known = { λ v. ⟦<Name<'a> as Asn1Writable>⟧.length_known v.subject ×
        ⟦<SubjectPublicKeyInfo<'a> as Asn1Writable>⟧.length_known v.subject_pk_info ×
        ⟦<Implicit<Attributes<'a>, 0> as Asn1Writable>⟧.length_known (implicit v.attributes) };

    fn tag() -> Tag
        ensures value { result ≡ ⟦<CertificationRequestInfo<'a> as Asn1Type>⟧.der.content.tag }
        ensures simple { ⟦<CertificationRequestInfo<'a> as Asn1Type>⟧.der.is_simple }
    {
        Tag::constructed(0x10)
    }

    fn write_data(&self, dest: &mut WriteBuf) -> WriteResult<()> {
        fields_of_certification_request_info!(write_fields, self, dest)
    }

    fn data_length(&self) -> Option<usize> {
        fields_of_certification_request_info!(fields_length, self)
    }

    fn writes_as_read() -> bool
        ensures { IsTrue result }
    {
        true
    }
}

/// CertificationRequest (RFC 2986, 4.2), a SEQUENCE.
#[derive(Debug, Clone, PartialEq, Eq, Drop)]
pub struct CertificationRequest<'a> {
    /// The part that is signed.
    pub certification_request_info: CertificationRequestInfo<'a>,
    /// The algorithm of the signature.
    pub signature_algorithm: AlgorithmIdentifier<'a>,
    /// The signature.
    pub signature: BitString<'a>,
}

type CertificationRequestFields<'a> = Fields3<
    CertificationRequestInfo<'a>,
    AlgorithmIdentifier<'a>,
    BitString<'a>,
>;

impl<'a> Asn1Type for CertificationRequest<'a> {
    ghost der = { structure (λ v. fields3 v.certification_request_info v.signature_algorithm
        v.signature) ⟦<CertificationRequestFields<'a> as Row>⟧.list
        (field_names "CertificationRequest" ("certification_request_info" ∷ "signature_algorithm" ∷
        "signature" ∷ [])) };

    fn known(&self) {
        known_fields!(self; certification_request_info, signature_algorithm, signature)
    }
}

impl<'a> SimpleAsn1Readable<'a> for CertificationRequest<'a> {
    fn tag() -> Tag
        ensures value { result ≡ ⟦<CertificationRequest<'a> as Asn1Type>⟧.der.content.tag }
        ensures simple { ⟦<CertificationRequest<'a> as Asn1Type>⟧.der.is_simple }
        ensures plain { ⟦<CertificationRequest<'a> as Asn1Type>⟧.der.plain }
        ensures read { ⟦<CertificationRequest<'a> as Asn1Type>⟧.der.is_read }
    {
        Tag::constructed(0x10)
    }

    fn parse_data(alloc: Global, data: &'a [u8]) -> ParseResult<CertificationRequest<'a>>
        ensures { ReadsContents ⟦<CertificationRequest<'a> as Asn1Type>⟧.der «data».entry.now
            result }
    {
        read_fields!(CertificationRequestFields<'a>, alloc, data => CertificationRequest;
            certification_request_info, signature_algorithm, signature)
    }
}

impl<'a> SimpleAsn1Writable for CertificationRequest<'a> {
    type Error = WriteError;

    ghost length_known = { λ v. ⟦<CertificationRequestInfo<'a> as Asn1Writable>⟧.length_known
        v.certification_request_info × ⟦<AlgorithmIdentifier<'a> as Asn1Writable>⟧.length_known
        v.signature_algorithm };

    fn tag() -> Tag
        ensures value { result ≡ ⟦<CertificationRequest<'a> as Asn1Type>⟧.der.content.tag }
        ensures simple { ⟦<CertificationRequest<'a> as Asn1Type>⟧.der.is_simple }
    {
        Tag::constructed(0x10)
    }

    fn write_data(&self, dest: &mut WriteBuf) -> WriteResult<()> {
        write_fields!(self, dest; certification_request_info, signature_algorithm, signature)
    }

    fn data_length(&self) -> Option<usize> {
        fields_length!(self; certification_request_info, signature_algorithm, signature)
    }

    fn writes_as_read() -> bool
        ensures { IsTrue result }
    {
        true
    }
}

/// The laws of the types, which do nothing.
pub mod laws {
    use super::{CertificationRequest, CertificationRequestInfo};
    use asn1::Asn1Type;

    /// Each value of `CertificationRequestInfo` has one encoding, which is read back.
    pub fn certification_request_info_is_lawful()
        ensures { HasOneEncoding ⟦<CertificationRequestInfo<'static> as Asn1Type>⟧.der }
    {
        crate::common::laws::name_is_lawful();
        crate::common::laws::subject_public_key_info_is_lawful();
        crate::common::laws::attributes_is_lawful();
    }

    /// Each value of `CertificationRequest` has one encoding, which is read back.
    pub fn certification_request_is_lawful()
        ensures { HasOneEncoding ⟦<CertificationRequest<'static> as Asn1Type>⟧.der }
    {
        certification_request_info_is_lawful();
        crate::common::laws::algorithm_identifier_is_lawful();
    }
}
