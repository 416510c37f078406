//! Requests for time stamps, and responses (RFC 3161, 2.4).
// Printed by tools/derive from declarations/timestamps/exchange.rs, with the sum c3643834.

ghost use Rattle.std.specs.Prelude.{◌≡◌, ◌∷◌, [], false, IsTrue};
ghost use Rattle.asn1.specs.Options.{option_meaning};
ghost use Rattle.asn1.specs.Reads.{HasOneEncoding, ReadsContents};
ghost use Rattle.asn1.specs.Structures.{defaulted, field_names, implicit, structure, fields2, fields3, fields6};

use crate::common::{AlgorithmIdentifier, Extensions, NamedBits};
use crate::signatures::ContentInfo;
use asn1::fields::{Fields2, Fields3, Fields6, Row};
use asn1::{
    Asn1Type, Asn1Writable, BigInt, DefaultValue, Defaulted, Implicit, ObjectIdentifier,
    ParseResult, SequenceOf, SimpleAsn1Readable, SimpleAsn1Writable, Tag, Utf8String, WriteBuf,
    WriteError, WriteResult, fields_length, known_fields, read_fields, write_fields,
};
use std::alloc::Global;

/// MessageImprint (RFC 3161, 2.4.1), a SEQUENCE: the digest of what is stamped.
#[derive(Debug, Clone, Copy, PartialEq, Eq)]
pub struct MessageImprint<'a> {
    /// The algorithm of the digest.
    pub hash_algorithm: AlgorithmIdentifier<'a>,
    /// The digest.
    pub hashed_message: &'a [u8],
}

type MessageImprintFields<'a> = Fields2<AlgorithmIdentifier<'a>, &'a [u8]>;

impl<'a> Asn1Type for MessageImprint<'a> {
    ghost der = { structure (λ v. fields2 v.hash_algorithm v.hashed_message)
        ⟦<MessageImprintFields<'a> as Row>⟧.list (field_names "MessageImprint" ("hash_algorithm" ∷
        "hashed_message" ∷ [])) };

    fn known(&self) {
        known_fields!(self; hash_algorithm, hashed_message)
    }
}

impl<'a> SimpleAsn1Readable<'a> for MessageImprint<'a> {
    fn tag() -> Tag
        ensures value { result ≡ ⟦<MessageImprint<'a> as Asn1Type>⟧.der.content.tag }
        ensures simple { ⟦<MessageImprint<'a> as Asn1Type>⟧.der.is_simple }
        ensures plain { ⟦<MessageImprint<'a> as Asn1Type>⟧.der.plain }
        ensures read { ⟦<MessageImprint<'a> as Asn1Type>⟧.der.is_read }
    {
        Tag::constructed(0x10)
    }

    fn parse_data(alloc: Global, data: &'a [u8]) -> ParseResult<MessageImprint<'a>>
        ensures { ReadsContents ⟦<MessageImprint<'a> as Asn1Type>⟧.der «data».entry.now result }
    {
        read_fields!(MessageImprintFields<'a>, alloc, data => MessageImprint;
            hash_algorithm, hashed_message)
    }
}

impl<'a> SimpleAsn1Writable for MessageImprint<'a> {
    type Error = WriteError;

    ghost length_known = { λ v. ⟦<AlgorithmIdentifier<'a> as Asn1Writable>⟧.length_known
        v.hash_algorithm };

    fn tag() -> Tag
        ensures value { result ≡ ⟦<MessageImprint<'a> as Asn1Type>⟧.der.content.tag }
        ensures simple { ⟦<MessageImprint<'a> as Asn1Type>⟧.der.is_simple }
    {
        Tag::constructed(0x10)
    }

    fn write_data(&self, dest: &mut WriteBuf) -> WriteResult<()> {
        write_fields!(self, dest; hash_algorithm, hashed_message)
    }

    fn data_length(&self) -> Option<usize> {
        fields_length!(self; hash_algorithm, hashed_message)
    }

    fn writes_as_read() -> bool
        ensures { IsTrue result }
    {
        true
    }
}

/// TimeStampReq (RFC 3161, 2.4.1), a SEQUENCE.
#[derive(Debug, Clone, PartialEq, Eq, Drop)]
pub struct TimeStampReq<'a> {
    /// The version, which is 1. Any from 0 to 255 is read.
    pub version: u8,
    /// The digest of what is to be stamped.
    pub message_imprint: MessageImprint<'a>,
    /// The policy asked for.
    pub req_policy: Option<ObjectIdentifier>,
    /// A number that the response has to repeat.
    pub nonce: Option<BigInt<'a>>,
    /// Whether the response has to have the certificate.
    pub cert_req: bool,
    /// The extensions.
    pub extensions: Option<Extensions<'a>>,
}

/// What `cert_req` is if it is left out.
pub struct TimeStampReqCertReq;

impl DefaultValue<bool> for TimeStampReqCertReq {
    ghost default = { false };

    fn value() -> bool {
        false
    }
}

type TimeStampReqCertReqField = Defaulted<bool, TimeStampReqCertReq>;

type TimeStampReqExtensionsField<'a> = Option<Implicit<Extensions<'a>, 0>>;

type TimeStampReqFields<'a> = Fields6<
    u8,
    MessageImprint<'a>,
    Option<ObjectIdentifier>,
    Option<BigInt<'a>>,
    TimeStampReqCertReqField,
    TimeStampReqExtensionsField<'a>,
>;

macro_rules! fields_of_time_stamp_req {
    ($body:ident, $($of:tt)*) => { $body!($($of)*;
        version, message_imprint, req_policy, nonce, cert_req: TimeStampReqCertReqField,
        extensions: TimeStampReqExtensionsField<'a>) };
}

impl<'a> Asn1Type for TimeStampReq<'a> {
    ghost der = { structure (λ v. fields6 v.version v.message_imprint v.req_policy v.nonce
        (defaulted v.cert_req) (option_meaning implicit v.extensions))
        ⟦<TimeStampReqFields<'a> as Row>⟧.list (field_names "TimeStampReq" ("version" ∷
        "message_imprint" ∷ "req_policy" ∷ "nonce" ∷ "cert_req" ∷ "extensions" ∷ [])) };

    fn known(&self) {
        fields_of_time_stamp_req!(known_fields, self)
    }
}

impl<'a> SimpleAsn1Readable<'a> for TimeStampReq<'a> {
    fn tag() -> Tag
        ensures value { result ≡ ⟦<TimeStampReq<'a> as Asn1Type>⟧.der.content.tag }
        ensures simple { ⟦<TimeStampReq<'a> as Asn1Type>⟧.der.is_simple }
        ensures plain { ⟦<TimeStampReq<'a> as Asn1Type>⟧.der.plain }
        ensures read { ⟦<TimeStampReq<'a> as Asn1Type>⟧.der.is_read }
    {
        Tag::constructed(0x10)
    }

    fn parse_data(alloc: Global, data: &'a [u8]) -> ParseResult<TimeStampReq<'a>>
        ensures { ReadsContents ⟦<TimeStampReq<'a> as Asn1Type>⟧.der «data».entry.now result }
    {
        fields_of_time_stamp_req!(read_fields, TimeStampReqFields<'a>, alloc, data => TimeStampReq)
    }
}

impl<'a> SimpleAsn1Writable for TimeStampReq<'a> {
    type Error = WriteError;

    ghost length_known = { λ v. ⟦<MessageImprint<'a> as Asn1Writable>⟧.length_known
        v.message_imprint × ⟦<Option<Implicit<Extensions<'a>, 0>> as Asn1Writable>⟧.length_known
        (option_meaning implicit v.extensions) };

    fn tag() -> Tag
        ensures value { result ≡ ⟦<TimeStampReq<'a> as Asn1Type>⟧.der.content.tag }
        ensures simple { ⟦<TimeStampReq<'a> as Asn1Type>⟧.der.is_simple }
    {
        Tag::constructed(0x10)
    }

    fn write_data(&self, dest: &mut WriteBuf) -> WriteResult<()> {
        fields_of_time_stamp_req!(write_fields, self, dest)
    }

    fn data_length(&self) -> Option<usize> {
        fields_of_time_stamp_req!(fields_length, self)
    }

    fn writes_as_read() -> bool
        ensures { IsTrue result }
    {
        true
    }
}

/// PKIStatusInfo (RFC 3161, 2.4.2), a SEQUENCE.
#[derive(Debug, Clone, PartialEq, Eq, Drop)]
pub struct PkiStatusInfo<'a> {
    /// PKIStatus: 0 is granted, 1 granted with changes, 2 rejected, and so on to 5. Any from 0 to 2^32 - 1 is read.
    pub status: u32,
    /// PKIFreeText: words for people.
    pub status_string: Option<PkiFreeText<'a>>,
    /// PKIFailureInfo: why there is no time stamp.
    pub fail_info: Option<NamedBits<'a>>,
}

type PkiStatusInfoFields<'a> = Fields3<u32, Option<PkiFreeText<'a>>, Option<NamedBits<'a>>>;

impl<'a> Asn1Type for PkiStatusInfo<'a> {
    ghost der = { structure (λ v. fields3 v.status v.status_string v.fail_info)
        ⟦<PkiStatusInfoFields<'a> as Row>⟧.list (field_names "PkiStatusInfo" ("status" ∷
        "status_string" ∷ "fail_info" ∷ [])) };

    fn known(&self) {
        known_fields!(self; status, status_string, fail_info)
    }
}

impl<'a> SimpleAsn1Readable<'a> for PkiStatusInfo<'a> {
    fn tag() -> Tag
        ensures value { result ≡ ⟦<PkiStatusInfo<'a> as Asn1Type>⟧.der.content.tag }
        ensures simple { ⟦<PkiStatusInfo<'a> as Asn1Type>⟧.der.is_simple }
        ensures plain { ⟦<PkiStatusInfo<'a> as Asn1Type>⟧.der.plain }
        ensures read { ⟦<PkiStatusInfo<'a> as Asn1Type>⟧.der.is_read }
    {
        Tag::constructed(0x10)
    }

    fn parse_data(alloc: Global, data: &'a [u8]) -> ParseResult<PkiStatusInfo<'a>>
        ensures { ReadsContents ⟦<PkiStatusInfo<'a> as Asn1Type>⟧.der «data».entry.now result }
    {
        read_fields!(PkiStatusInfoFields<'a>, alloc, data => PkiStatusInfo;
            status, status_string, fail_info)
    }
}

impl<'a> SimpleAsn1Writable for PkiStatusInfo<'a> {
    type Error = WriteError;

    ghost length_known = { λ v. ⟦<Option<NamedBits<'a>> as Asn1Writable>⟧.length_known
        v.fail_info };

    fn tag() -> Tag
        ensures value { result ≡ ⟦<PkiStatusInfo<'a> as Asn1Type>⟧.der.content.tag }
        ensures simple { ⟦<PkiStatusInfo<'a> as Asn1Type>⟧.der.is_simple }
    {
        Tag::constructed(0x10)
    }

    fn write_data(&self, dest: &mut WriteBuf) -> WriteResult<()> {
        write_fields!(self, dest; status, status_string, fail_info)
    }

    fn data_length(&self) -> Option<usize> {
        fields_length!(self; status, status_string, fail_info)
    }

    fn writes_as_read() -> bool
        ensures { IsTrue result }
    {
        true
    }
}

/// PKIFreeText (RFC 3161, 2.4.2), a SEQUENCE of at least one UTF8String.
pub type PkiFreeText<'a> = SequenceOf<'a, Utf8String<'a>, 1, { usize::MAX }>;

/// TimeStampResp (RFC 3161, 2.4.2), a SEQUENCE.
#[derive(Debug, Clone, PartialEq, Eq, Drop)]
pub struct TimeStampResp<'a> {
    /// Whether there is a time stamp, and why not.
    pub status: PkiStatusInfo<'a>,
    /// The time stamp: a ContentInfo with SignedData of a TSTInfo.
    pub time_stamp_token: Option<ContentInfo<'a>>,
}

type TimeStampRespFields<'a> = Fields2<PkiStatusInfo<'a>, Option<ContentInfo<'a>>>;

impl<'a> Asn1Type for TimeStampResp<'a> {
    ghost der = { structure (λ v. fields2 v.status v.time_stamp_token)
        ⟦<TimeStampRespFields<'a> as Row>⟧.list (field_names "TimeStampResp" ("status" ∷
        "time_stamp_token" ∷ [])) };

    fn known(&self) {
        known_fields!(self; status, time_stamp_token)
    }
}

impl<'a> SimpleAsn1Readable<'a> for TimeStampResp<'a> {
    fn tag() -> Tag
        ensures value { result ≡ ⟦<TimeStampResp<'a> as Asn1Type>⟧.der.content.tag }
        ensures simple { ⟦<TimeStampResp<'a> as Asn1Type>⟧.der.is_simple }
        ensures plain { ⟦<TimeStampResp<'a> as Asn1Type>⟧.der.plain }
        ensures read { ⟦<TimeStampResp<'a> as Asn1Type>⟧.der.is_read }
    {
        Tag::constructed(0x10)
    }

    fn parse_data(alloc: Global, data: &'a [u8]) -> ParseResult<TimeStampResp<'a>>
        ensures { ReadsContents ⟦<TimeStampResp<'a> as Asn1Type>⟧.der «data».entry.now result }
    {
        read_fields!(TimeStampRespFields<'a>, alloc, data => TimeStampResp;
            status, time_stamp_token)
    }
}

impl<'a> SimpleAsn1Writable for TimeStampResp<'a> {
    type Error = WriteError;

    ghost length_known = { λ v. ⟦<PkiStatusInfo<'a> as Asn1Writable>⟧.length_known v.status ×
        ⟦<Option<ContentInfo<'a>> as Asn1Writable>⟧.length_known v.time_stamp_token };

    fn tag() -> Tag
        ensures value { result ≡ ⟦<TimeStampResp<'a> as Asn1Type>⟧.der.content.tag }
        ensures simple { ⟦<TimeStampResp<'a> as Asn1Type>⟧.der.is_simple }
    {
        Tag::constructed(0x10)
    }

    fn write_data(&self, dest: &mut WriteBuf) -> WriteResult<()> {
        write_fields!(self, dest; status, time_stamp_token)
    }

    fn data_length(&self) -> Option<usize> {
        fields_length!(self; status, time_stamp_token)
    }

    fn writes_as_read() -> bool
        ensures { IsTrue result }
    {
        true
    }
}

/// The laws of the types, which do nothing.
pub mod laws {
    use super::{MessageImprint, PkiFreeText, PkiStatusInfo, TimeStampReq, TimeStampResp};
    use asn1::Asn1Type;

    /// Each value of `MessageImprint` has one encoding, which is read back.
    pub fn message_imprint_is_lawful()
        ensures { HasOneEncoding ⟦<MessageImprint<'static> as Asn1Type>⟧.der }
    {
        crate::common::laws::algorithm_identifier_is_lawful();
    }

    /// Each value of `TimeStampReq` has one encoding, which is read back.
    pub fn time_stamp_req_is_lawful()
        ensures { HasOneEncoding ⟦<TimeStampReq<'static> as Asn1Type>⟧.der }
    {
        message_imprint_is_lawful();
        crate::common::laws::extensions_is_lawful();
    }

    /// Each value of `PkiStatusInfo` has one encoding, which is read back.
    #[tactic(auto, using(asn1::specs::Lemmas::Fields::tags_differ))]
    pub fn pki_status_info_is_lawful()
        ensures { HasOneEncoding ⟦<PkiStatusInfo<'static> as Asn1Type>⟧.der }
    {
        pki_free_text_is_lawful();
        crate::common::laws::named_bits_is_lawful();
    }

    /// Each value of `PkiFreeText` has one encoding, which is read back.
    pub fn pki_free_text_is_lawful()
        ensures { HasOneEncoding ⟦<PkiFreeText<'static> as Asn1Type>⟧.der }
    {}

    /// Each value of `TimeStampResp` has one encoding, which is read back.
    pub fn time_stamp_resp_is_lawful()
        ensures { HasOneEncoding ⟦<TimeStampResp<'static> as Asn1Type>⟧.der }
    {
        pki_status_info_is_lawful();
        crate::signatures::laws::content_info_is_lawful();
    }
}
