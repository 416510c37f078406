//! Who signed (RFC 5652, 5.3), and the values of signed attributes (11.1 to 11.3).
// Printed by tools/derive from declarations/signatures/signer.rs, with the sum 3a8a4c6d.

ghost use Rattle.std.specs.Prelude.{◌≡◌, ◌∷◌, [], IsTrue, OnErr, IfOk};
ghost use Rattle.asn1.specs.AlternativeLists.{after1, choice, first1};
ghost use Rattle.asn1.specs.Options.{option_meaning};
ghost use Rattle.asn1.specs.Reading.{EndsWith};
ghost use Rattle.asn1.specs.Reads.{BeginsWithEncodingOf, HasOneEncoding, ReadsContents, ReadsPrefix};
ghost use Rattle.asn1.specs.Structures.{field_names, implicit, structure, fields2, fields7};

use crate::common::{AlgorithmIdentifier, Attributes, Name, Time};
use asn1::alternatives::{
    Alternatives, AlternativesReadable, AsOneOf, ImplicitTag, OneOf2, read_choice,
};
use asn1::fields::{Fields2, Fields7, Row};
use asn1::{
    Asn1Readable, Asn1Type, Asn1Writable, BigInt, Implicit, ObjectIdentifier, ParseResult, Parser,
    SimpleAsn1Readable, SimpleAsn1Writable, Tag, WriteBuf, WriteError, WriteResult, Writer,
    choice_length, fields_length, known_choice, known_fields, read_fields, take_choice,
    write_choice, write_fields,
};
use std::alloc::Global;

/// IssuerAndSerialNumber (RFC 5652, 10.2.4), a SEQUENCE: a certificate's issuer and serial number.
#[derive(Debug, Clone, PartialEq, Eq, Drop)]
pub struct IssuerAndSerialNumber<'a> {
    /// The issuer.
    pub issuer: Name<'a>,
    /// The serial number.
    pub serial_number: BigInt<'a>,
}

type IssuerAndSerialNumberFields<'a> = Fields2<Name<'a>, BigInt<'a>>;

impl<'a> Asn1Type for IssuerAndSerialNumber<'a> {
    ghost der = { structure (λ v. fields2 v.issuer v.serial_number)
        ⟦<IssuerAndSerialNumberFields<'a> as Row>⟧.list (field_names "IssuerAndSerialNumber"
        ("issuer" ∷ "serial_number" ∷ [])) };

    fn known(&self) {
        known_fields!(self; issuer, serial_number)
    }
}

impl<'a> SimpleAsn1Readable<'a> for IssuerAndSerialNumber<'a> {
    fn tag() -> Tag
        ensures value { result ≡ ⟦<IssuerAndSerialNumber<'a> as Asn1Type>⟧.der.content.tag }
        ensures simple { ⟦<IssuerAndSerialNumber<'a> as Asn1Type>⟧.der.is_simple }
        ensures plain { ⟦<IssuerAndSerialNumber<'a> as Asn1Type>⟧.der.plain }
        ensures read { ⟦<IssuerAndSerialNumber<'a> as Asn1Type>⟧.der.is_read }
    {
        Tag::constructed(0x10)
    }

    fn parse_data(alloc: Global, data: &'a [u8]) -> ParseResult<IssuerAndSerialNumber<'a>>
        ensures { ReadsContents ⟦<IssuerAndSerialNumber<'a> as Asn1Type>⟧.der «data».entry.now
            result }
    {
        read_fields!(IssuerAndSerialNumberFields<'a>, alloc, data => IssuerAndSerialNumber;
            issuer, serial_number)
    }
}

impl<'a> SimpleAsn1Writable for IssuerAndSerialNumber<'a> {
    type Error = WriteError;

    ghost length_known = { λ v. ⟦<Name<'a> as Asn1Writable>⟧.length_known v.issuer };

    fn tag() -> Tag
        ensures value { result ≡ ⟦<IssuerAndSerialNumber<'a> as Asn1Type>⟧.der.content.tag }
        ensures simple { ⟦<IssuerAndSerialNumber<'a> as Asn1Type>⟧.der.is_simple }
    {
        Tag::constructed(0x10)
    }

    fn write_data(&self, dest: &mut WriteBuf) -> WriteResult<()> {
        write_fields!(self, dest; issuer, serial_number)
    }

    fn data_length(&self) -> Option<usize> {
        fields_length!(self; issuer, serial_number)
    }

    fn writes_as_read() -> bool
        ensures { IsTrue result }
    {
        true
    }
}

type SignerIdentifierChoice<'a> = OneOf2<IssuerAndSerialNumber<'a>, ImplicitTag<&'a [u8], 0>>;

type SignerIdentifierValues<'a> = <SignerIdentifierChoice<'a> as Alternatives>::Values;

/// SignerIdentifier (RFC 5652, 5.3), a CHOICE.
#[derive(Debug, Clone, PartialEq, Eq, Drop)]
pub enum SignerIdentifier<'a> {
    /// The certificate's issuer and serial number.
    IssuerAndSerialNumber(IssuerAndSerialNumber<'a>),
    /// The identifier of the certificate's key.
    SubjectKeyIdentifier(&'a [u8]),
}

impl<'a> AsOneOf<SignerIdentifierValues<'a>> for SignerIdentifier<'a> {
    ghost use Rattle.pkix.specs.declared.signatures.signer.SignerIdentifier.TheVariants.{IssuerAndSerialNumber};
    ghost use Rattle.pkix.specs.declared.signatures.signer.SignerIdentifier.TheVariants.{SubjectKeyIdentifier};

    ghost seen = { elim [
      | IssuerAndSerialNumber x ↦ first1 x
      | SubjectKeyIdentifier x ↦ after1 (first1 x)
    ] };

    fn from_one_of(value: SignerIdentifierValues<'a>) -> SignerIdentifier<'a>
        ensures { ⟦<SignerIdentifier<'a> as AsOneOf<SignerIdentifierValues<'a>>>⟧.seen result ≡
            value.entry }
    {
        take_choice!(value;
            SignerIdentifier(x); IssuerAndSerialNumber, SubjectKeyIdentifier: implicit 0)
    }
}

impl<'a> Asn1Type for SignerIdentifier<'a> {
    ghost der = { choice ⟦<SignerIdentifier<'a> as AsOneOf<SignerIdentifierValues<'a>>>⟧.seen
        ⟦<SignerIdentifierChoice<'a> as Alternatives>⟧.list };

    fn known(&self) {
        known_choice!(self;
            SignerIdentifier(x); IssuerAndSerialNumber, SubjectKeyIdentifier: implicit 0)
    }
}

impl<'a> Asn1Readable<'a> for SignerIdentifier<'a> {
    fn parse(parser: &mut Parser<'a>) -> ParseResult<SignerIdentifier<'a>>
        ensures answers { ReadsPrefix ⟦<SignerIdentifier<'a> as Asn1Type>⟧.der parser.old parser.new
            result }
        ensures found { IfOk result (λ v. BeginsWithEncodingOf
            ⟦<SignerIdentifier<'a> as Asn1Type>⟧.der v parser.old parser.new) }
        ensures rest { EndsWith parser.old parser.new }
        ensures stops { OnErr result (⟦<SignerIdentifier<'a> as Asn1Type>⟧.der.stops parser.old
            parser.new) }
    {
        read_choice::<SignerIdentifierChoice<'a>, SignerIdentifier<'a>>(parser)
    }

    fn can_parse(tag: Tag) -> bool
        ensures value { result ≡ ⟦<SignerIdentifier<'a> as Asn1Type>⟧.der.accepts tag }
        ensures plain { ⟦<SignerIdentifier<'a> as Asn1Type>⟧.der.plain }
        ensures read { ⟦<SignerIdentifier<'a> as Asn1Type>⟧.der.is_read }
    {
        <SignerIdentifierChoice<'a> as AlternativesReadable<'a>>::accepts(tag)
    }
}

impl<'a> Asn1Writable for SignerIdentifier<'a> {
    type Error = WriteError;

    ghost use Rattle.pkix.specs.declared.signatures.signer.SignerIdentifier.TheVariants.{IssuerAndSerialNumber};
    ghost use Rattle.pkix.specs.declared.signatures.signer.SignerIdentifier.TheVariants.{SubjectKeyIdentifier};

    ghost length_known = { elim [
      | IssuerAndSerialNumber x ↦
          ⟦<IssuerAndSerialNumber<'a> as Asn1Writable>⟧.length_known x
      | SubjectKeyIdentifier x ↦ Unit {0}
    ] };

    fn write(&self, dest: &mut Writer<'_>) -> WriteResult<()> {
        write_choice!(self, dest;
            SignerIdentifier(x); IssuerAndSerialNumber, SubjectKeyIdentifier: implicit 0)
    }

    fn encoded_length(&self) -> Option<usize> {
        choice_length!(self;
            SignerIdentifier(x); IssuerAndSerialNumber, SubjectKeyIdentifier: implicit 0)
    }

    fn writes_as_read() -> bool
        ensures { IsTrue result }
    {
        true
    }
}

/// SignerInfo (RFC 5652, 5.3), a SEQUENCE. Of both sets of attributes the RFC says `SIZE (1..MAX)`, which isn't
/// checked.
#[derive(Debug, Clone, PartialEq, Eq, Drop)]
pub struct SignerInfo<'a> {
    /// The version: 1 or 3. Any from 0 to 255 is read.
    pub version: u8,
    /// Who signed.
    pub sid: SignerIdentifier<'a>,
    /// The algorithm of the digest.
    pub digest_algorithm: AlgorithmIdentifier<'a>,
    /// The attributes that are signed with the content.
    pub signed_attrs: Option<Attributes<'a>>,
    /// The algorithm of the signature.
    pub signature_algorithm: AlgorithmIdentifier<'a>,
    /// The signature.
    pub signature: &'a [u8],
    /// The attributes that aren't signed.
    pub unsigned_attrs: Option<Attributes<'a>>,
}

type SignerInfoSignedAttrsField<'a> = Option<Implicit<Attributes<'a>, 0>>;

type SignerInfoUnsignedAttrsField<'a> = Option<Implicit<Attributes<'a>, 1>>;

type SignerInfoFields<'a> = Fields7<
    u8,
    SignerIdentifier<'a>,
    AlgorithmIdentifier<'a>,
    SignerInfoSignedAttrsField<'a>,
    AlgorithmIdentifier<'a>,
    &'a [u8],
    SignerInfoUnsignedAttrsField<'a>,
>;

macro_rules! fields_of_signer_info {
    ($body:ident, $($of:tt)*) => { $body!($($of)*;
        version, sid, digest_algorithm, signed_attrs: SignerInfoSignedAttrsField<'a>,
        signature_algorithm, signature, unsigned_attrs: SignerInfoUnsignedAttrsField<'a>) };
}

impl<'a> Asn1Type for SignerInfo<'a> {
    ghost der = { structure (λ v. fields7 v.version v.sid v.digest_algorithm (option_meaning
        implicit v.signed_attrs) v.signature_algorithm v.signature (option_meaning implicit
        v.unsigned_attrs)) ⟦<SignerInfoFields<'a> as Row>⟧.list (field_names "SignerInfo" ("version"
        ∷ "sid" ∷ "digest_algorithm" ∷ "signed_attrs" ∷ "signature_algorithm" ∷ "signature" ∷
        "unsigned_attrs" ∷ [])) };

    fn known(&self) {
        fields_of_signer_info!(known_fields, self)
    }
}

impl<'a> SimpleAsn1Readable<'a> for SignerInfo<'a> {
    fn tag() -> Tag
        ensures value { result ≡ ⟦<SignerInfo<'a> as Asn1Type>⟧.der.content.tag }
        ensures simple { ⟦<SignerInfo<'a> as Asn1Type>⟧.der.is_simple }
        ensures plain { ⟦<SignerInfo<'a> as Asn1Type>⟧.der.plain }
        ensures read { ⟦<SignerInfo<'a> as Asn1Type>⟧.der.is_read }
    {
        Tag::constructed(0x10)
    }

    fn parse_data(alloc: Global, data: &'a [u8]) -> ParseResult<SignerInfo<'a>>
        ensures { ReadsContents ⟦<SignerInfo<'a> as Asn1Type>⟧.der «data».entry.now result }
    {
        fields_of_signer_info!(read_fields, SignerInfoFields<'a>, alloc, data => SignerInfo)
    }
}

impl<'a> SimpleAsn1Writable for SignerInfo<'a> {
    type Error = WriteError;

    ghost length_known = { λ v. ⟦<SignerIdentifier<'a> as Asn1Writable>⟧.length_known v.sid ×
        ⟦<AlgorithmIdentifier<'a> as Asn1Writable>⟧.length_known v.digest_algorithm ×
        ⟦<Option<Implicit<Attributes<'a>, 0>> as Asn1Writable>⟧.length_known (option_meaning
        implicit v.signed_attrs) × ⟦<AlgorithmIdentifier<'a> as Asn1Writable>⟧.length_known
        v.signature_algorithm × ⟦<Option<Implicit<Attributes<'a>, 1>> as Asn1Writable>⟧.length_known
        (option_meaning implicit v.unsigned_attrs) };

    fn tag() -> Tag
        ensures value { result ≡ ⟦<SignerInfo<'a> as Asn1Type>⟧.der.content.tag }
        ensures simple { ⟦<SignerInfo<'a> as Asn1Type>⟧.der.is_simple }
    {
        Tag::constructed(0x10)
    }

    fn write_data(&self, dest: &mut WriteBuf) -> WriteResult<()> {
        fields_of_signer_info!(write_fields, self, dest)
    }

    fn data_length(&self) -> Option<usize> {
        fields_of_signer_info!(fields_length, self)
    }

    fn writes_as_read() -> bool
        ensures { IsTrue result }
    {
        true
    }
}

/// ContentType (RFC 5652, 11.1), an OBJECT IDENTIFIER: which content is signed; the attribute 1.2.840.113549.1.9.3.
pub type ContentType = ObjectIdentifier;

/// MessageDigest (RFC 5652, 11.2), an OCTET STRING: the digest of the content; the attribute 1.2.840.113549.1.9.4.
pub type MessageDigest<'a> = &'a [u8];

/// SigningTime (RFC 5652, 11.3), a Time: when the signer says that he signed; the attribute 1.2.840.113549.1.9.5.
pub type SigningTime = Time;

/// The laws of the types, which do nothing.
pub mod laws {
    use super::{
        ContentType, IssuerAndSerialNumber, MessageDigest, SignerIdentifier,
        SignerIdentifierChoice, SignerInfo, SigningTime,
    };
    use asn1::Asn1Type;
    use asn1::laws_wrappers::alternatives_apart_are_lawful;

    /// Each value of `IssuerAndSerialNumber` has one encoding, which is read back.
    pub fn issuer_and_serial_number_is_lawful()
        ensures { HasOneEncoding ⟦<IssuerAndSerialNumber<'static> as Asn1Type>⟧.der }
    {
        crate::common::laws::name_is_lawful();
    }

    /// Each value of `SignerIdentifier` has one encoding, which is read back.
    pub fn signer_identifier_is_lawful()
        ensures { HasOneEncoding ⟦<SignerIdentifier<'static> as Asn1Type>⟧.der }
    {
        issuer_and_serial_number_is_lawful();
        alternatives_apart_are_lawful::<SignerIdentifierChoice<'static>>();
    }

    /// Each value of `SignerInfo` has one encoding, which is read back.
    #[tactic(auto, using(asn1::specs::Lemmas::Fields::tags_differ))]
    pub fn signer_info_is_lawful()
        ensures { HasOneEncoding ⟦<SignerInfo<'static> as Asn1Type>⟧.der }
    {
        signer_identifier_is_lawful();
        crate::common::laws::algorithm_identifier_is_lawful();
        crate::common::laws::attributes_is_lawful();
    }

    /// Each value of `ContentType` has one encoding, which is read back.
    pub fn content_type_is_lawful()
        ensures { HasOneEncoding ⟦<ContentType as Asn1Type>⟧.der }
    {}

    /// Each value of `MessageDigest` has one encoding, which is read back.
    pub fn message_digest_is_lawful()
        ensures { HasOneEncoding ⟦<MessageDigest<'static> as Asn1Type>⟧.der }
    {}

    /// Each value of `SigningTime` has one encoding, which is read back.
    pub fn signing_time_is_lawful()
        ensures { HasOneEncoding ⟦<SigningTime as Asn1Type>⟧.der }
    {
        crate::common::laws::time_is_lawful();
    }
}
