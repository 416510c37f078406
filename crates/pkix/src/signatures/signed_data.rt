//! Signed data (RFC 5652), as far as time stamps need it.
// Printed by tools/derive from declarations/signatures/signed_data.rs, with the sum 48213ce3.

ghost use Rattle.std.specs.Prelude.{◌≡◌, ◌∷◌, [], IsTrue};
ghost use Rattle.asn1.specs.Options.{option_meaning};
ghost use Rattle.asn1.specs.Reads.{HasOneEncoding, ReadsContents};
ghost use Rattle.asn1.specs.Structures.{explicit, field_names, implicit, structure, fields2, fields6};

use crate::certificate::Certificate;
use crate::common::AlgorithmIdentifier;
use crate::revocation::CertificateList;
use crate::signatures::SignerInfo;
use asn1::fields::{Fields2, Fields6, Row};
use asn1::{
    Asn1Type, Explicit, Implicit, ObjectIdentifier, ParseResult, SetOf, SimpleAsn1Readable,
    SimpleAsn1Writable, Tag, Tlv, WriteBuf, WriteError, WriteResult, fields_length, known_fields,
    read_fields, write_fields,
};
use std::alloc::Global;

/// ContentInfo (RFC 5652, 3), a SEQUENCE.
#[derive(Debug, Clone, Copy, PartialEq, Eq)]
pub struct ContentInfo<'a> {
    /// Which content it is.
    pub content_type: ObjectIdentifier,
    /// The content: an element of the type that `content_type` defines.
    pub content: Tlv<'a>,
}

type ContentInfoContentField<'a> = Explicit<Tlv<'a>, 0>;

type ContentInfoFields<'a> = Fields2<ObjectIdentifier, ContentInfoContentField<'a>>;

impl<'a> Asn1Type for ContentInfo<'a> {
    ghost der = { structure (λ v. fields2 v.content_type (explicit v.content))
        ⟦<ContentInfoFields<'a> as Row>⟧.list (field_names "ContentInfo" ("content_type" ∷ "content"
        ∷ [])) };

    fn known(&self) {
        known_fields!(self; content_type, content: ContentInfoContentField<'a>)
    }
}

impl<'a> SimpleAsn1Readable<'a> for ContentInfo<'a> {
    fn tag() -> Tag
        ensures value { result ≡ ⟦<ContentInfo<'a> as Asn1Type>⟧.der.content.tag }
        ensures simple { ⟦<ContentInfo<'a> as Asn1Type>⟧.der.is_simple }
        ensures plain { ⟦<ContentInfo<'a> as Asn1Type>⟧.der.plain }
        ensures read { ⟦<ContentInfo<'a> as Asn1Type>⟧.der.is_read }
    {
        Tag::constructed(0x10)
    }

    fn parse_data(alloc: Global, data: &'a [u8]) -> ParseResult<ContentInfo<'a>>
        ensures { ReadsContents ⟦<ContentInfo<'a> as Asn1Type>⟧.der «data».entry.now result }
    {
        read_fields!(ContentInfoFields<'a>, alloc, data => ContentInfo;
            content_type, content: ContentInfoContentField<'a>)
    }
}

impl<'a> SimpleAsn1Writable for ContentInfo<'a> {
    type Error = WriteError;

    ghost length_known = { λ _. Unit {0} };

    fn tag() -> Tag
        ensures value { result ≡ ⟦<ContentInfo<'a> as Asn1Type>⟧.der.content.tag }
        ensures simple { ⟦<ContentInfo<'a> as Asn1Type>⟧.der.is_simple }
    {
        Tag::constructed(0x10)
    }

    fn write_data(&self, dest: &mut WriteBuf) -> WriteResult<()> {
        write_fields!(self, dest; content_type, content: ContentInfoContentField<'a>)
    }

    fn data_length(&self) -> Option<usize> {
        fields_length!(self; content_type, content: ContentInfoContentField<'a>)
    }

    fn writes_as_read() -> bool
        ensures { IsTrue result }
    {
        true
    }
}

/// EncapsulatedContentInfo (RFC 5652, 5.2), a SEQUENCE.
#[derive(Debug, Clone, Copy, PartialEq, Eq)]
pub struct EncapsulatedContentInfo<'a> {
    /// Which content it is.
    pub e_content_type: ObjectIdentifier,
    /// The octets of the content.
    pub e_content: Option<&'a [u8]>,
}

type EncapsulatedContentInfoEContentField<'a> = Option<Explicit<&'a [u8], 0>>;

type EncapsulatedContentInfoFields<'a> = Fields2<
    ObjectIdentifier,
    EncapsulatedContentInfoEContentField<'a>,
>;

impl<'a> Asn1Type for EncapsulatedContentInfo<'a> {
    ghost der = { structure (λ v. fields2 v.e_content_type (option_meaning explicit v.e_content))
        ⟦<EncapsulatedContentInfoFields<'a> as Row>⟧.list (field_names "EncapsulatedContentInfo"
        ("e_content_type" ∷ "e_content" ∷ [])) };

    fn known(&self) {
        known_fields!(self; e_content_type, e_content: EncapsulatedContentInfoEContentField<'a>)
    }
}

impl<'a> SimpleAsn1Readable<'a> for EncapsulatedContentInfo<'a> {
    fn tag() -> Tag
        ensures value { result ≡ ⟦<EncapsulatedContentInfo<'a> as Asn1Type>⟧.der.content.tag }
        ensures simple { ⟦<EncapsulatedContentInfo<'a> as Asn1Type>⟧.der.is_simple }
        ensures plain { ⟦<EncapsulatedContentInfo<'a> as Asn1Type>⟧.der.plain }
        ensures read { ⟦<EncapsulatedContentInfo<'a> as Asn1Type>⟧.der.is_read }
    {
        Tag::constructed(0x10)
    }

    fn parse_data(alloc: Global, data: &'a [u8]) -> ParseResult<EncapsulatedContentInfo<'a>>
        ensures { ReadsContents ⟦<EncapsulatedContentInfo<'a> as Asn1Type>⟧.der «data».entry.now
            result }
    {
        read_fields!(EncapsulatedContentInfoFields<'a>, alloc, data => EncapsulatedContentInfo;
            e_content_type, e_content: EncapsulatedContentInfoEContentField<'a>)
    }
}

impl<'a> SimpleAsn1Writable for EncapsulatedContentInfo<'a> {
    type Error = WriteError;

    ghost length_known = { λ _. Unit {0} };

    fn tag() -> Tag
        ensures value { result ≡ ⟦<EncapsulatedContentInfo<'a> as Asn1Type>⟧.der.content.tag }
        ensures simple { ⟦<EncapsulatedContentInfo<'a> as Asn1Type>⟧.der.is_simple }
    {
        Tag::constructed(0x10)
    }

    fn write_data(&self, dest: &mut WriteBuf) -> WriteResult<()> {
        write_fields!(self, dest;
            e_content_type, e_content: EncapsulatedContentInfoEContentField<'a>)
    }

    fn data_length(&self) -> Option<usize> {
        fields_length!(self; e_content_type, e_content: EncapsulatedContentInfoEContentField<'a>)
    }

    fn writes_as_read() -> bool
        ensures { IsTrue result }
    {
        true
    }
}

/// SignedData (RFC 5652, 5.1), a SEQUENCE.
#[derive(Debug, Clone, PartialEq, Eq, Drop)]
pub struct SignedData<'a> {
    /// The version: 1, 3, 4 or 5. Any from 0 to 255 is read.
    pub version: u8,
    /// The algorithms of the signers' digests.
    pub digest_algorithms: SetOf<'a, AlgorithmIdentifier<'a>>,
    /// What is signed.
    pub encap_content_info: EncapsulatedContentInfo<'a>,
    /// Certificates: a CertificateSet without other forms.
    pub certificates: Option<SetOf<'a, Certificate<'a>>>,
    /// Revocation lists: RevocationInfoChoices without other forms.
    pub crls: Option<SetOf<'a, CertificateList<'a>>>,
    /// Who signed.
    pub signer_infos: SetOf<'a, SignerInfo<'a>>,
}

type SignedDataCertificatesField<'a> = Option<Implicit<SetOf<'a, Certificate<'a>>, 0>>;

type SignedDataCrlsField<'a> = Option<Implicit<SetOf<'a, CertificateList<'a>>, 1>>;

type SignedDataFields<'a> = Fields6<
    u8,
    SetOf<'a, AlgorithmIdentifier<'a>>,
    EncapsulatedContentInfo<'a>,
    SignedDataCertificatesField<'a>,
    SignedDataCrlsField<'a>,
    SetOf<'a, SignerInfo<'a>>,
>;

macro_rules! fields_of_signed_data {
    ($body:ident, $($of:tt)*) => { $body!($($of)*;
        version, digest_algorithms, encap_content_info,
        certificates: SignedDataCertificatesField<'a>, crls: SignedDataCrlsField<'a>,
        signer_infos) };
}

impl<'a> Asn1Type for SignedData<'a> {
    ghost der = { structure (λ v. fields6 v.version v.digest_algorithms v.encap_content_info
        (option_meaning implicit v.certificates) (option_meaning implicit v.crls) v.signer_infos)
        ⟦<SignedDataFields<'a> as Row>⟧.list (field_names "SignedData" ("version" ∷
        "digest_algorithms" ∷ "encap_content_info" ∷ "certificates" ∷ "crls" ∷ "signer_infos" ∷
        [])) };

    fn known(&self) {
        fields_of_signed_data!(known_fields, self)
    }
}

impl<'a> SimpleAsn1Readable<'a> for SignedData<'a> {
    fn tag() -> Tag
        ensures value { result ≡ ⟦<SignedData<'a> as Asn1Type>⟧.der.content.tag }
        ensures simple { ⟦<SignedData<'a> as Asn1Type>⟧.der.is_simple }
        ensures plain { ⟦<SignedData<'a> as Asn1Type>⟧.der.plain }
        ensures read { ⟦<SignedData<'a> as Asn1Type>⟧.der.is_read }
    {
        Tag::constructed(0x10)
    }

    fn parse_data(alloc: Global, data: &'a [u8]) -> ParseResult<SignedData<'a>>
        ensures { ReadsContents ⟦<SignedData<'a> as Asn1Type>⟧.der «data».entry.now result }
    {
        fields_of_signed_data!(read_fields, SignedDataFields<'a>, alloc, data => SignedData)
    }
}

impl<'a> SimpleAsn1Writable for SignedData<'a> {
    type Error = WriteError;

    ghost length_known = { λ _. Unit {0} };

    fn tag() -> Tag
        ensures value { result ≡ ⟦<SignedData<'a> as Asn1Type>⟧.der.content.tag }
        ensures simple { ⟦<SignedData<'a> as Asn1Type>⟧.der.is_simple }
    {
        Tag::constructed(0x10)
    }

    fn write_data(&self, dest: &mut WriteBuf) -> WriteResult<()> {
        fields_of_signed_data!(write_fields, self, dest)
    }

    fn data_length(&self) -> Option<usize> {
        fields_of_signed_data!(fields_length, self)
    }

    fn writes_as_read() -> bool
        ensures { IsTrue result }
    {
        true
    }
}

/// The laws of the types, which do nothing.
pub mod laws {
    use super::{ContentInfo, EncapsulatedContentInfo, SignedData};
    use asn1::Asn1Type;

    /// Each value of `ContentInfo` has one encoding, which is read back.
    pub fn content_info_is_lawful()
        ensures { HasOneEncoding ⟦<ContentInfo<'static> as Asn1Type>⟧.der }
    {}

    /// Each value of `EncapsulatedContentInfo` has one encoding, which is read back.
    pub fn encapsulated_content_info_is_lawful()
        ensures { HasOneEncoding ⟦<EncapsulatedContentInfo<'static> as Asn1Type>⟧.der }
    {}

    /// Each value of `SignedData` has one encoding, which is read back.
    pub fn signed_data_is_lawful()
        ensures { HasOneEncoding ⟦<SignedData<'static> as Asn1Type>⟧.der }
    {
        crate::common::laws::algorithm_identifier_is_lawful();
        encapsulated_content_info_is_lawful();
        crate::certificate::laws::certificate_is_lawful();
        crate::revocation::laws::certificate_list_is_lawful();
        crate::signatures::laws::signer_info_is_lawful();
    }
}
