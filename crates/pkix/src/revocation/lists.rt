//! Revocation lists (RFC 5280, 5.1 to 5.3).
// Printed by tools/derive from declarations/revocation/lists.rs, with the sum ffd79982.

ghost use Rattle.std.specs.Prelude.{◌≡◌, ◌∷◌, [], IsTrue};
ghost use Rattle.asn1.specs.Options.{option_meaning};
ghost use Rattle.asn1.specs.Reads.{HasOneEncoding, ReadsContents};
ghost use Rattle.asn1.specs.Structures.{explicit, field_names, structure, fields3, fields7};

use crate::common::{AlgorithmIdentifier, Extensions, Name, Time};
use asn1::fields::{Fields3, Fields7, Row};
use asn1::{
    Asn1Type, Asn1Writable, BigInt, BitString, Explicit, ParseResult, SequenceOf,
    SimpleAsn1Readable, SimpleAsn1Writable, Tag, WriteBuf, WriteError, WriteResult, fields_length,
    known_fields, read_fields, write_fields,
};
use std::alloc::Global;

/// An entry of a revocation list (RFC 5280, 5.1.2.6), a SEQUENCE.
#[derive(Debug, Clone, PartialEq, Eq, Drop)]
pub struct RevokedCertificate<'a> {
    /// The serial number of the certificate.
    pub user_certificate: BigInt<'a>,
    /// When it was revoked.
    pub revocation_date: Time,
    /// The extensions of the entry.
    pub crl_entry_extensions: Option<Extensions<'a>>,
}

type RevokedCertificateFields<'a> = Fields3<BigInt<'a>, Time, Option<Extensions<'a>>>;

impl<'a> Asn1Type for RevokedCertificate<'a> {
    ghost der = { structure (λ v. fields3 v.user_certificate v.revocation_date
        v.crl_entry_extensions) ⟦<RevokedCertificateFields<'a> as Row>⟧.list
        (field_names "RevokedCertificate" ("user_certificate" ∷ "revocation_date" ∷
        "crl_entry_extensions" ∷ [])) };

    fn known(&self) {
        known_fields!(self; user_certificate, revocation_date, crl_entry_extensions)
    }
}

impl<'a> SimpleAsn1Readable<'a> for RevokedCertificate<'a> {
    fn tag() -> Tag
        ensures value { result ≡ ⟦<RevokedCertificate<'a> as Asn1Type>⟧.der.content.tag }
        ensures simple { ⟦<RevokedCertificate<'a> as Asn1Type>⟧.der.is_simple }
        ensures plain { ⟦<RevokedCertificate<'a> as Asn1Type>⟧.der.plain }
        ensures read { ⟦<RevokedCertificate<'a> as Asn1Type>⟧.der.is_read }
    {
        Tag::constructed(0x10)
    }

    fn parse_data(alloc: Global, data: &'a [u8]) -> ParseResult<RevokedCertificate<'a>>
        ensures { ReadsContents ⟦<RevokedCertificate<'a> as Asn1Type>⟧.der «data».entry.now result }
    {
        read_fields!(RevokedCertificateFields<'a>, alloc, data => RevokedCertificate;
            user_certificate, revocation_date, crl_entry_extensions)
    }
}

impl<'a> SimpleAsn1Writable for RevokedCertificate<'a> {
    type Error = WriteError;

    ghost length_known = { λ v. ⟦<Time as Asn1Writable>⟧.length_known v.revocation_date ×
        ⟦<Option<Extensions<'a>> as Asn1Writable>⟧.length_known v.crl_entry_extensions };

    fn tag() -> Tag
        ensures value { result ≡ ⟦<RevokedCertificate<'a> as Asn1Type>⟧.der.content.tag }
        ensures simple { ⟦<RevokedCertificate<'a> as Asn1Type>⟧.der.is_simple }
    {
        Tag::constructed(0x10)
    }

    fn write_data(&self, dest: &mut WriteBuf) -> WriteResult<()> {
        write_fields!(self, dest; user_certificate, revocation_date, crl_entry_extensions)
    }

    fn data_length(&self) -> Option<usize> {
        fields_length!(self; user_certificate, revocation_date, crl_entry_extensions)
    }

    fn writes_as_read() -> bool
        ensures { IsTrue result }
    {
        true
    }
}

/// The entries of a revocation list (RFC 5280, 5.1.2.6), a SEQUENCE OF. An empty one is read.
pub type RevokedCertificates<'a> = SequenceOf<'a, RevokedCertificate<'a>, 0, { usize::MAX }>;

/// TBSCertList (RFC 5280, 5.1.2), a SEQUENCE: the part of a revocation list that is signed.
#[derive(Debug, Clone, PartialEq, Eq, Drop)]
pub struct TbsCertList<'a> {
    /// The version, which is the number less one: 1 is v2, and v1 is left out. Any from 0 to 255 is read.
    pub version: Option<u8>,
    /// The algorithm of the signature.
    pub signature: AlgorithmIdentifier<'a>,
    /// Who signs.
    pub issuer: Name<'a>,
    /// When the list was issued.
    pub this_update: Time,
    /// When the next list will be issued at the latest.
    pub next_update: Option<Time>,
    /// The entries.
    pub revoked_certificates: Option<RevokedCertificates<'a>>,
    /// The extensions.
    pub crl_extensions: Option<Extensions<'a>>,
}

type TbsCertListCrlExtensionsField<'a> = Option<Explicit<Extensions<'a>, 0>>;

type TbsCertListFields<'a> = Fields7<
    Option<u8>,
    AlgorithmIdentifier<'a>,
    Name<'a>,
    Time,
    Option<Time>,
    Option<RevokedCertificates<'a>>,
    TbsCertListCrlExtensionsField<'a>,
>;

macro_rules! fields_of_tbs_cert_list {
    ($body:ident, $($of:tt)*) => { $body!($($of)*;
        version, signature, issuer, this_update, next_update, revoked_certificates,
        crl_extensions: TbsCertListCrlExtensionsField<'a>) };
}

impl<'a> Asn1Type for TbsCertList<'a> {
    ghost der = { structure (λ v. fields7 v.version v.signature v.issuer v.this_update v.next_update
        v.revoked_certificates (option_meaning explicit v.crl_extensions))
        ⟦<TbsCertListFields<'a> as Row>⟧.list (field_names "TbsCertList" ("version" ∷ "signature" ∷
        "issuer" ∷ "this_update" ∷ "next_update" ∷ "revoked_certificates" ∷ "crl_extensions" ∷
        [])) };

    fn known(&self) {
        fields_of_tbs_cert_list!(known_fields, self)
    }
}

impl<'a> SimpleAsn1Readable<'a> for TbsCertList<'a> {
    fn tag() -> Tag
        ensures value { result ≡ ⟦<TbsCertList<'a> as Asn1Type>⟧.der.content.tag }
        ensures simple { ⟦<TbsCertList<'a> as Asn1Type>⟧.der.is_simple }
        ensures plain { ⟦<TbsCertList<'a> as Asn1Type>⟧.der.plain }
        ensures read { ⟦<TbsCertList<'a> as Asn1Type>⟧.der.is_read }
    {
        Tag::constructed(0x10)
    }

    fn parse_data(alloc: Global, data: &'a [u8]) -> ParseResult<TbsCertList<'a>>
        ensures { ReadsContents ⟦<TbsCertList<'a> as Asn1Type>⟧.der «data».entry.now result }
    {
        fields_of_tbs_cert_list!(read_fields, TbsCertListFields<'a>, alloc, data => TbsCertList)
    }
}

impl<'a> SimpleAsn1Writable for TbsCertList<'a> {
    type Error = WriteError;

    ghost length_known = { λ v. ⟦<AlgorithmIdentifier<'a> as Asn1Writable>⟧.length_known v.signature
        × ⟦<Name<'a> as Asn1Writable>⟧.length_known v.issuer × ⟦<Time as Asn1Writable>⟧.length_known
        v.this_update × ⟦<Option<Time> as Asn1Writable>⟧.length_known v.next_update ×
        ⟦<Option<Explicit<Extensions<'a>, 0>> as Asn1Writable>⟧.length_known (option_meaning
        explicit v.crl_extensions) };

    fn tag() -> Tag
        ensures value { result ≡ ⟦<TbsCertList<'a> as Asn1Type>⟧.der.content.tag }
        ensures simple { ⟦<TbsCertList<'a> as Asn1Type>⟧.der.is_simple }
    {
        Tag::constructed(0x10)
    }

    fn write_data(&self, dest: &mut WriteBuf) -> WriteResult<()> {
        fields_of_tbs_cert_list!(write_fields, self, dest)
    }

    fn data_length(&self) -> Option<usize> {
        fields_of_tbs_cert_list!(fields_length, self)
    }

    fn writes_as_read() -> bool
        ensures { IsTrue result }
    {
        true
    }
}

/// CertificateList (RFC 5280, 5.1.1), a SEQUENCE: a revocation list.
#[derive(Debug, Clone, PartialEq, Eq, Drop)]
pub struct CertificateList<'a> {
    /// The part that is signed.
    pub tbs_cert_list: TbsCertList<'a>,
    /// The algorithm of the signature.
    pub signature_algorithm: AlgorithmIdentifier<'a>,
    /// The signature.
    pub signature_value: BitString<'a>,
}

type CertificateListFields<'a> = Fields3<TbsCertList<'a>, AlgorithmIdentifier<'a>, BitString<'a>>;

impl<'a> Asn1Type for CertificateList<'a> {
    ghost der = { structure (λ v. fields3 v.tbs_cert_list v.signature_algorithm v.signature_value)
        ⟦<CertificateListFields<'a> as Row>⟧.list (field_names "CertificateList" ("tbs_cert_list" ∷
        "signature_algorithm" ∷ "signature_value" ∷ [])) };

    fn known(&self) {
        known_fields!(self; tbs_cert_list, signature_algorithm, signature_value)
    }
}

impl<'a> SimpleAsn1Readable<'a> for CertificateList<'a> {
    fn tag() -> Tag
        ensures value { result ≡ ⟦<CertificateList<'a> as Asn1Type>⟧.der.content.tag }
        ensures simple { ⟦<CertificateList<'a> as Asn1Type>⟧.der.is_simple }
        ensures plain { ⟦<CertificateList<'a> as Asn1Type>⟧.der.plain }
        ensures read { ⟦<CertificateList<'a> as Asn1Type>⟧.der.is_read }
    {
        Tag::constructed(0x10)
    }

    fn parse_data(alloc: Global, data: &'a [u8]) -> ParseResult<CertificateList<'a>>
        ensures { ReadsContents ⟦<CertificateList<'a> as Asn1Type>⟧.der «data».entry.now result }
    {
        read_fields!(CertificateListFields<'a>, alloc, data => CertificateList;
            tbs_cert_list, signature_algorithm, signature_value)
    }
}

impl<'a> SimpleAsn1Writable for CertificateList<'a> {
    type Error = WriteError;

    ghost length_known = { λ v. ⟦<TbsCertList<'a> as Asn1Writable>⟧.length_known v.tbs_cert_list ×
        ⟦<AlgorithmIdentifier<'a> as Asn1Writable>⟧.length_known v.signature_algorithm };

    fn tag() -> Tag
        ensures value { result ≡ ⟦<CertificateList<'a> as Asn1Type>⟧.der.content.tag }
        ensures simple { ⟦<CertificateList<'a> as Asn1Type>⟧.der.is_simple }
    {
        Tag::constructed(0x10)
    }

    fn write_data(&self, dest: &mut WriteBuf) -> WriteResult<()> {
        write_fields!(self, dest; tbs_cert_list, signature_algorithm, signature_value)
    }

    fn data_length(&self) -> Option<usize> {
        fields_length!(self; tbs_cert_list, signature_algorithm, signature_value)
    }

    fn writes_as_read() -> bool
        ensures { IsTrue result }
    {
        true
    }
}

/// The laws of the types, which do nothing.
pub mod laws {
    use super::{CertificateList, RevokedCertificate, RevokedCertificates, TbsCertList};
    use asn1::Asn1Type;

    /// Each value of `RevokedCertificate` has one encoding, which is read back.
    pub fn revoked_certificate_is_lawful()
        ensures { HasOneEncoding ⟦<RevokedCertificate<'static> as Asn1Type>⟧.der }
    {
        crate::common::laws::time_is_lawful();
        crate::common::laws::extensions_is_lawful();
    }

    /// Each value of `RevokedCertificates` has one encoding, which is read back.
    pub fn revoked_certificates_is_lawful()
        ensures { HasOneEncoding ⟦<RevokedCertificates<'static> as Asn1Type>⟧.der }
    {
        revoked_certificate_is_lawful();
    }

    /// Each value of `TbsCertList` has one encoding, which is read back.
    #[tactic(auto, using(asn1::specs::Lemmas::Fields::tags_differ))]
    pub fn tbs_cert_list_is_lawful()
        ensures { HasOneEncoding ⟦<TbsCertList<'static> as Asn1Type>⟧.der }
    {
        crate::common::laws::algorithm_identifier_is_lawful();
        crate::common::laws::name_is_lawful();
        crate::common::laws::time_is_lawful();
        revoked_certificates_is_lawful();
        crate::common::laws::extensions_is_lawful();
    }

    /// Each value of `CertificateList` has one encoding, which is read back.
    pub fn certificate_list_is_lawful()
        ensures { HasOneEncoding ⟦<CertificateList<'static> as Asn1Type>⟧.der }
    {
        tbs_cert_list_is_lawful();
        crate::common::laws::algorithm_identifier_is_lawful();
    }
}
