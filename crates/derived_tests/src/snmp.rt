//! SNMPv3 messages (RFC 3412, RFC 3414, RFC 3416).
// Printed by tools/derive from declarations/snmp.rs, with the sum 487a0364.

ghost use Rattle.std.specs.Prelude.{◌≡◌, ◌∷◌, [], IsTrue, OnErr, IfOk};
ghost use Rattle.asn1.specs.AlternativeLists.{after1, after3, after8, choice, first1, first3, second3, third3, first8};
ghost use Rattle.asn1.specs.AlternativeLists.{second8, third8, fourth8, fifth8, sixth8, seventh8, eighth8};
ghost use Rattle.asn1.specs.Reading.{EndsWith};
ghost use Rattle.asn1.specs.Reads.{BeginsWithEncodingOf, HasOneEncoding, ReadsContents, ReadsPrefix};
ghost use Rattle.asn1.specs.Structures.{field_names, structure, fields2, fields3, fields4, fields6};

use asn1::alternatives::{
    Alternatives, AlternativesReadable, AsOneOf, ImplicitTag, OneOf2, OneOf5, OneOf8, OneOfEight,
    read_choice,
};
use asn1::fields::{Fields2, Fields3, Fields4, Fields6, Row};
use asn1::{
    ApplicationImplicit, Asn1Readable, Asn1Type, Asn1Writable, Null, ObjectIdentifier,
    OctetStringEncoded, ParseResult, Parser, SequenceOf, SimpleAsn1Readable, SimpleAsn1Writable,
    Tag, WriteBuf, WriteError, WriteResult, Writer, choice_length, fields_length, known_choice,
    known_fields, read_fields, take_choice, write_choice, write_fields,
};
use std::alloc::Global;

/// A message (RFC 3412, 6).
#[derive(Drop)]
pub struct SnmpV3Message<'a> {
    /// msgVersion, 3.
    pub msg_version: u32,
    /// msgGlobalData.
    pub msg_global_data: HeaderData<'a>,
    /// msgSecurityParameters.
    pub msg_security_parameters: OctetStringEncoded<UsmSecurityParameters<'a>>,
    /// msgData.
    pub msg_data: ScopedPduData<'a>,
}

type SnmpV3MessageFields<'a> = Fields4<
    u32,
    HeaderData<'a>,
    OctetStringEncoded<UsmSecurityParameters<'a>>,
    ScopedPduData<'a>,
>;

impl<'a> Asn1Type for SnmpV3Message<'a> {
    ghost der = { structure (λ v. fields4 v.msg_version v.msg_global_data v.msg_security_parameters
        v.msg_data) ⟦<SnmpV3MessageFields<'a> as Row>⟧.list (field_names "SnmpV3Message"
        ("msg_version" ∷ "msg_global_data" ∷ "msg_security_parameters" ∷ "msg_data" ∷ [])) };

    fn known(&self) {
        known_fields!(self; msg_version, msg_global_data, msg_security_parameters, msg_data)
    }
}

impl<'a> SimpleAsn1Readable<'a> for SnmpV3Message<'a> {
    fn tag() -> Tag
        ensures value { result ≡ ⟦<SnmpV3Message<'a> as Asn1Type>⟧.der.content.tag }
        ensures simple { ⟦<SnmpV3Message<'a> as Asn1Type>⟧.der.is_simple }
        ensures plain { ⟦<SnmpV3Message<'a> as Asn1Type>⟧.der.plain }
        ensures read { ⟦<SnmpV3Message<'a> as Asn1Type>⟧.der.is_read }
    {
        Tag::constructed(0x10)
    }

    fn parse_data(alloc: Global, data: &'a [u8]) -> ParseResult<SnmpV3Message<'a>>
        ensures { ReadsContents ⟦<SnmpV3Message<'a> as Asn1Type>⟧.der «data».entry.now result }
    {
        read_fields!(SnmpV3MessageFields<'a>, alloc, data => SnmpV3Message;
            msg_version, msg_global_data, msg_security_parameters, msg_data)
    }
}

impl<'a> SimpleAsn1Writable for SnmpV3Message<'a> {
    type Error = WriteError;

    ghost length_known = { λ _. Unit {0} };

    fn tag() -> Tag
        ensures value { result ≡ ⟦<SnmpV3Message<'a> as Asn1Type>⟧.der.content.tag }
        ensures simple { ⟦<SnmpV3Message<'a> as Asn1Type>⟧.der.is_simple }
    {
        Tag::constructed(0x10)
    }

    fn write_data(&self, dest: &mut WriteBuf) -> WriteResult<()> {
        write_fields!(self, dest; msg_version, msg_global_data, msg_security_parameters, msg_data)
    }

    fn data_length(&self) -> Option<usize> {
        fields_length!(self; msg_version, msg_global_data, msg_security_parameters, msg_data)
    }

    fn writes_as_read() -> bool
        ensures { IsTrue result }
    {
        true
    }
}

/// HeaderData.
#[derive(Drop)]
pub struct HeaderData<'a> {
    /// msgID.
    pub msg_id: u32,
    /// msgMaxSize.
    pub msg_max_size: u32,
    /// msgFlags, one octet.
    pub msg_flags: &'a [u8],
    /// msgSecurityModel.
    pub msg_security_model: u32,
}

type HeaderDataFields<'a> = Fields4<u32, u32, &'a [u8], u32>;

impl<'a> Asn1Type for HeaderData<'a> {
    ghost der = { structure (λ v. fields4 v.msg_id v.msg_max_size v.msg_flags v.msg_security_model)
        ⟦<HeaderDataFields<'a> as Row>⟧.list (field_names "HeaderData" ("msg_id" ∷ "msg_max_size" ∷
        "msg_flags" ∷ "msg_security_model" ∷ [])) };

    fn known(&self) {
        known_fields!(self; msg_id, msg_max_size, msg_flags, msg_security_model)
    }
}

impl<'a> SimpleAsn1Readable<'a> for HeaderData<'a> {
    fn tag() -> Tag
        ensures value { result ≡ ⟦<HeaderData<'a> as Asn1Type>⟧.der.content.tag }
        ensures simple { ⟦<HeaderData<'a> as Asn1Type>⟧.der.is_simple }
        ensures plain { ⟦<HeaderData<'a> as Asn1Type>⟧.der.plain }
        ensures read { ⟦<HeaderData<'a> as Asn1Type>⟧.der.is_read }
    {
        Tag::constructed(0x10)
    }

    fn parse_data(alloc: Global, data: &'a [u8]) -> ParseResult<HeaderData<'a>>
        ensures { ReadsContents ⟦<HeaderData<'a> as Asn1Type>⟧.der «data».entry.now result }
    {
        read_fields!(HeaderDataFields<'a>, alloc, data => HeaderData;
            msg_id, msg_max_size, msg_flags, msg_security_model)
    }
}

impl<'a> SimpleAsn1Writable for HeaderData<'a> {
    type Error = WriteError;

    ghost length_known = { λ _. Unit {0} };

    fn tag() -> Tag
        ensures value { result ≡ ⟦<HeaderData<'a> as Asn1Type>⟧.der.content.tag }
        ensures simple { ⟦<HeaderData<'a> as Asn1Type>⟧.der.is_simple }
    {
        Tag::constructed(0x10)
    }

    fn write_data(&self, dest: &mut WriteBuf) -> WriteResult<()> {
        write_fields!(self, dest; msg_id, msg_max_size, msg_flags, msg_security_model)
    }

    fn data_length(&self) -> Option<usize> {
        fields_length!(self; msg_id, msg_max_size, msg_flags, msg_security_model)
    }

    fn writes_as_read() -> bool
        ensures { IsTrue result }
    {
        true
    }
}

/// UsmSecurityParameters (RFC 3414, 2.4).
#[derive(Drop)]
pub struct UsmSecurityParameters<'a> {
    /// msgAuthoritativeEngineID.
    pub msg_authoritative_engine_id: &'a [u8],
    /// msgAuthoritativeEngineBoots.
    pub msg_authoritative_engine_boots: u32,
    /// msgAuthoritativeEngineTime.
    pub msg_authoritative_engine_time: u32,
    /// msgUserName.
    pub msg_user_name: &'a [u8],
    /// msgAuthenticationParameters.
    pub msg_authentication_parameters: &'a [u8],
    /// msgPrivacyParameters.
    pub msg_privacy_parameters: &'a [u8],
}

type UsmSecurityParametersFields<'a> = Fields6<&'a [u8], u32, u32, &'a [u8], &'a [u8], &'a [u8]>;

macro_rules! fields_of_usm_security_parameters {
    ($body:ident, $($of:tt)*) => { $body!($($of)*;
        msg_authoritative_engine_id, msg_authoritative_engine_boots, msg_authoritative_engine_time,
        msg_user_name, msg_authentication_parameters, msg_privacy_parameters) };
}

impl<'a> Asn1Type for UsmSecurityParameters<'a> {
    ghost der = { structure (λ v. fields6 v.msg_authoritative_engine_id
        v.msg_authoritative_engine_boots v.msg_authoritative_engine_time v.msg_user_name
        v.msg_authentication_parameters v.msg_privacy_parameters)
        ⟦<UsmSecurityParametersFields<'a> as Row>⟧.list (field_names "UsmSecurityParameters"
        ("msg_authoritative_engine_id" ∷ "msg_authoritative_engine_boots" ∷
        "msg_authoritative_engine_time" ∷ "msg_user_name" ∷ "msg_authentication_parameters" ∷
        "msg_privacy_parameters" ∷ [])) };

    fn known(&self) {
        fields_of_usm_security_parameters!(known_fields, self)
    }
}

impl<'a> SimpleAsn1Readable<'a> for UsmSecurityParameters<'a> {
    fn tag() -> Tag
        ensures value { result ≡ ⟦<UsmSecurityParameters<'a> as Asn1Type>⟧.der.content.tag }
        ensures simple { ⟦<UsmSecurityParameters<'a> as Asn1Type>⟧.der.is_simple }
        ensures plain { ⟦<UsmSecurityParameters<'a> as Asn1Type>⟧.der.plain }
        ensures read { ⟦<UsmSecurityParameters<'a> as Asn1Type>⟧.der.is_read }
    {
        Tag::constructed(0x10)
    }

    fn parse_data(alloc: Global, data: &'a [u8]) -> ParseResult<UsmSecurityParameters<'a>>
        ensures { ReadsContents ⟦<UsmSecurityParameters<'a> as Asn1Type>⟧.der «data».entry.now
            result }
    {
        fields_of_usm_security_parameters!(read_fields,
            UsmSecurityParametersFields<'a>, alloc, data => UsmSecurityParameters)
    }
}

impl<'a> SimpleAsn1Writable for UsmSecurityParameters<'a> {
    type Error = WriteError;

    ghost length_known = { λ _. Unit {0} };

    fn tag() -> Tag
        ensures value { result ≡ ⟦<UsmSecurityParameters<'a> as Asn1Type>⟧.der.content.tag }
        ensures simple { ⟦<UsmSecurityParameters<'a> as Asn1Type>⟧.der.is_simple }
    {
        Tag::constructed(0x10)
    }

    fn write_data(&self, dest: &mut WriteBuf) -> WriteResult<()> {
        fields_of_usm_security_parameters!(write_fields, self, dest)
    }

    fn data_length(&self) -> Option<usize> {
        fields_of_usm_security_parameters!(fields_length, self)
    }

    fn writes_as_read() -> bool
        ensures { IsTrue result }
    {
        true
    }
}

type ScopedPduDataChoice<'a> = OneOf2<ScopedPdu<'a>, &'a [u8]>;

type ScopedPduDataValues<'a> = <ScopedPduDataChoice<'a> as Alternatives>::Values;

/// ScopedPduData.
#[derive(Drop)]
pub enum ScopedPduData<'a> {
    /// plaintext.
    Plaintext(ScopedPdu<'a>),
    /// encryptedPDU.
    EncryptedPdu(&'a [u8]),
}

impl<'a> AsOneOf<ScopedPduDataValues<'a>> for ScopedPduData<'a> {
    ghost use Rattle.derived_tests.specs.declared.snmp.ScopedPduData.TheVariants.{Plaintext, EncryptedPdu};

    ghost seen = { elim [ Plaintext x ↦ first1 x | EncryptedPdu x ↦ after1 (first1 x) ] };

    fn from_one_of(value: ScopedPduDataValues<'a>) -> ScopedPduData<'a>
        ensures { ⟦<ScopedPduData<'a> as AsOneOf<ScopedPduDataValues<'a>>>⟧.seen result ≡
            value.entry }
    {
        take_choice!(value; ScopedPduData(x); Plaintext, EncryptedPdu)
    }
}

impl<'a> Asn1Type for ScopedPduData<'a> {
    ghost der = { choice ⟦<ScopedPduData<'a> as AsOneOf<ScopedPduDataValues<'a>>>⟧.seen
        ⟦<ScopedPduDataChoice<'a> as Alternatives>⟧.list };

    fn known(&self) {
        known_choice!(self; ScopedPduData(x); Plaintext, EncryptedPdu)
    }
}

impl<'a> Asn1Readable<'a> for ScopedPduData<'a> {
    fn parse(parser: &mut Parser<'a>) -> ParseResult<ScopedPduData<'a>>
        ensures answers { ReadsPrefix ⟦<ScopedPduData<'a> as Asn1Type>⟧.der parser.old parser.new
            result }
        ensures found { IfOk result (λ v. BeginsWithEncodingOf ⟦<ScopedPduData<'a> as Asn1Type>⟧.der
            v parser.old parser.new) }
        ensures rest { EndsWith parser.old parser.new }
        ensures stops { OnErr result (⟦<ScopedPduData<'a> as Asn1Type>⟧.der.stops parser.old
            parser.new) }
    {
        read_choice::<ScopedPduDataChoice<'a>, ScopedPduData<'a>>(parser)
    }

    fn can_parse(tag: Tag) -> bool
        ensures value { result ≡ ⟦<ScopedPduData<'a> as Asn1Type>⟧.der.accepts tag }
        ensures plain { ⟦<ScopedPduData<'a> as Asn1Type>⟧.der.plain }
        ensures read { ⟦<ScopedPduData<'a> as Asn1Type>⟧.der.is_read }
    {
        <ScopedPduDataChoice<'a> as AlternativesReadable<'a>>::accepts(tag)
    }
}

impl<'a> Asn1Writable for ScopedPduData<'a> {
    type Error = WriteError;

    ghost length_known = { λ _. Unit {0} };

    fn write(&self, dest: &mut Writer<'_>) -> WriteResult<()> {
        write_choice!(self, dest; ScopedPduData(x); Plaintext, EncryptedPdu)
    }

    fn encoded_length(&self) -> Option<usize> {
        choice_length!(self; ScopedPduData(x); Plaintext, EncryptedPdu)
    }

    fn writes_as_read() -> bool
        ensures { IsTrue result }
    {
        true
    }
}

/// ScopedPDU.
#[derive(Drop)]
pub struct ScopedPdu<'a> {
    /// contextEngineID.
    pub context_engine_id: &'a [u8],
    /// contextName.
    pub context_name: &'a [u8],
    /// data.
    pub pdus: Pdus<'a>,
}

impl<'a> ScopedPdu<'a> {
    /// The fields that have another name in ASN.1 than theirs with capitals, as errors name them, with that name.
    pub const NAMES: &'static [(&'static str, &'static str)] = &[("ScopedPdu::pdus", "data")];
}

type ScopedPduFields<'a> = Fields3<&'a [u8], &'a [u8], Pdus<'a>>;

impl<'a> Asn1Type for ScopedPdu<'a> {
    ghost der = { structure (λ v. fields3 v.context_engine_id v.context_name v.pdus)
        ⟦<ScopedPduFields<'a> as Row>⟧.list (field_names "ScopedPdu" ("context_engine_id" ∷
        "context_name" ∷ "pdus" ∷ [])) };

    fn known(&self) {
        known_fields!(self; context_engine_id, context_name, pdus)
    }
}

impl<'a> SimpleAsn1Readable<'a> for ScopedPdu<'a> {
    fn tag() -> Tag
        ensures value { result ≡ ⟦<ScopedPdu<'a> as Asn1Type>⟧.der.content.tag }
        ensures simple { ⟦<ScopedPdu<'a> as Asn1Type>⟧.der.is_simple }
        ensures plain { ⟦<ScopedPdu<'a> as Asn1Type>⟧.der.plain }
        ensures read { ⟦<ScopedPdu<'a> as Asn1Type>⟧.der.is_read }
    {
        Tag::constructed(0x10)
    }

    fn parse_data(alloc: Global, data: &'a [u8]) -> ParseResult<ScopedPdu<'a>>
        ensures { ReadsContents ⟦<ScopedPdu<'a> as Asn1Type>⟧.der «data».entry.now result }
    {
        read_fields!(ScopedPduFields<'a>, alloc, data => ScopedPdu;
            context_engine_id, context_name, pdus)
    }
}

impl<'a> SimpleAsn1Writable for ScopedPdu<'a> {
    type Error = WriteError;

    ghost length_known = { λ _. Unit {0} };

    fn tag() -> Tag
        ensures value { result ≡ ⟦<ScopedPdu<'a> as Asn1Type>⟧.der.content.tag }
        ensures simple { ⟦<ScopedPdu<'a> as Asn1Type>⟧.der.is_simple }
    {
        Tag::constructed(0x10)
    }

    fn write_data(&self, dest: &mut WriteBuf) -> WriteResult<()> {
        write_fields!(self, dest; context_engine_id, context_name, pdus)
    }

    fn data_length(&self) -> Option<usize> {
        fields_length!(self; context_engine_id, context_name, pdus)
    }

    fn writes_as_read() -> bool
        ensures { IsTrue result }
    {
        true
    }
}

type PdusChoice<'a> = OneOf8<
    ImplicitTag<Pdu<'a>, 0>,
    ImplicitTag<Pdu<'a>, 1>,
    ImplicitTag<Pdu<'a>, 2>,
    ImplicitTag<Pdu<'a>, 3>,
    ImplicitTag<BulkPdu<'a>, 5>,
    ImplicitTag<Pdu<'a>, 6>,
    ImplicitTag<Pdu<'a>, 7>,
    ImplicitTag<Pdu<'a>, 8>,
>;

type PdusValues<'a> = <PdusChoice<'a> as Alternatives>::Values;

macro_rules! variants_of_pdus {
    ($body:ident, $($of:tt)*) => { $body!($($of)*; Pdus(x);
        GetRequest: implicit 0, GetNextRequest: implicit 1, Response: implicit 2,
        SetRequest: implicit 3, GetBulkRequest: implicit 5, InformRequest: implicit 6,
        Trap: implicit 7, Report: implicit 8) };
}

/// PDUs (RFC 3416, 3).
#[derive(Drop)]
pub enum Pdus<'a> {
    /// get-request.
    GetRequest(Pdu<'a>),
    /// get-next-request.
    GetNextRequest(Pdu<'a>),
    /// response.
    Response(Pdu<'a>),
    /// set-request.
    SetRequest(Pdu<'a>),
    /// get-bulk-request.
    GetBulkRequest(BulkPdu<'a>),
    /// inform-request.
    InformRequest(Pdu<'a>),
    /// snmpV2-trap.
    Trap(Pdu<'a>),
    /// report.
    Report(Pdu<'a>),
}

impl<'a> AsOneOf<PdusValues<'a>> for Pdus<'a> {
    ghost use Rattle.derived_tests.specs.declared.snmp.Pdus.TheVariants.{GetRequest, GetNextRequest, Response};
    ghost use Rattle.derived_tests.specs.declared.snmp.Pdus.TheVariants.{SetRequest, GetBulkRequest, InformRequest};
    ghost use Rattle.derived_tests.specs.declared.snmp.Pdus.TheVariants.{Trap, Report};

    ghost seen = { elim [
      | GetRequest x ↦ first8 x
      | GetNextRequest x ↦ second8 x
      | Response x ↦ third8 x
      | SetRequest x ↦ fourth8 x
      | GetBulkRequest x ↦ fifth8 x
      | InformRequest x ↦ sixth8 x
      | Trap x ↦ seventh8 x
      | Report x ↦ eighth8 x
    ] };

    fn from_one_of(value: PdusValues<'a>) -> Pdus<'a>
        ensures { ⟦<Pdus<'a> as AsOneOf<PdusValues<'a>>>⟧.seen result ≡ value.entry }
    {
        variants_of_pdus!(take_choice, value)
    }
}

impl<'a> Asn1Type for Pdus<'a> {
    ghost der = { choice ⟦<Pdus<'a> as AsOneOf<PdusValues<'a>>>⟧.seen
        ⟦<PdusChoice<'a> as Alternatives>⟧.list };

    fn known(&self) {
        variants_of_pdus!(known_choice, self)
    }
}

impl<'a> Asn1Readable<'a> for Pdus<'a> {
    fn parse(parser: &mut Parser<'a>) -> ParseResult<Pdus<'a>>
        ensures answers { ReadsPrefix ⟦<Pdus<'a> as Asn1Type>⟧.der parser.old parser.new result }
        ensures found { IfOk result (λ v. BeginsWithEncodingOf ⟦<Pdus<'a> as Asn1Type>⟧.der v
            parser.old parser.new) }
        ensures rest { EndsWith parser.old parser.new }
        ensures stops { OnErr result (⟦<Pdus<'a> as Asn1Type>⟧.der.stops parser.old parser.new) }
    {
        read_choice::<PdusChoice<'a>, Pdus<'a>>(parser)
    }

    fn can_parse(tag: Tag) -> bool
        ensures value { result ≡ ⟦<Pdus<'a> as Asn1Type>⟧.der.accepts tag }
        ensures plain { ⟦<Pdus<'a> as Asn1Type>⟧.der.plain }
        ensures read { ⟦<Pdus<'a> as Asn1Type>⟧.der.is_read }
    {
        <PdusChoice<'a> as AlternativesReadable<'a>>::accepts(tag)
    }
}

impl<'a> Asn1Writable for Pdus<'a> {
    type Error = WriteError;

    ghost length_known = { λ _. Unit {0} };

    fn write(&self, dest: &mut Writer<'_>) -> WriteResult<()> {
        variants_of_pdus!(write_choice, self, dest)
    }

    fn encoded_length(&self) -> Option<usize> {
        variants_of_pdus!(choice_length, self)
    }

    fn writes_as_read() -> bool
        ensures { IsTrue result }
    {
        true
    }
}

/// PDU.
#[derive(Drop)]
pub struct Pdu<'a> {
    /// request-id.
    pub request_id: i32,
    /// error-status.
    pub error_status: u32,
    /// error-index.
    pub error_index: u32,
    /// variable-bindings.
    pub variable_bindings: SequenceOf<'a, VarBind<'a>, 0, { usize::MAX }>,
}

type PduFields<'a> = Fields4<i32, u32, u32, SequenceOf<'a, VarBind<'a>, 0, { usize::MAX }>>;

impl<'a> Asn1Type for Pdu<'a> {
    ghost der = { structure (λ v. fields4 v.request_id v.error_status v.error_index
        v.variable_bindings) ⟦<PduFields<'a> as Row>⟧.list (field_names "Pdu" ("request_id" ∷
        "error_status" ∷ "error_index" ∷ "variable_bindings" ∷ [])) };

    fn known(&self) {
        known_fields!(self; request_id, error_status, error_index, variable_bindings)
    }
}

impl<'a> SimpleAsn1Readable<'a> for Pdu<'a> {
    fn tag() -> Tag
        ensures value { result ≡ ⟦<Pdu<'a> as Asn1Type>⟧.der.content.tag }
        ensures simple { ⟦<Pdu<'a> as Asn1Type>⟧.der.is_simple }
        ensures plain { ⟦<Pdu<'a> as Asn1Type>⟧.der.plain }
        ensures read { ⟦<Pdu<'a> as Asn1Type>⟧.der.is_read }
    {
        Tag::constructed(0x10)
    }

    fn parse_data(alloc: Global, data: &'a [u8]) -> ParseResult<Pdu<'a>>
        ensures { ReadsContents ⟦<Pdu<'a> as Asn1Type>⟧.der «data».entry.now result }
    {
        read_fields!(PduFields<'a>, alloc, data => Pdu;
            request_id, error_status, error_index, variable_bindings)
    }
}

impl<'a> SimpleAsn1Writable for Pdu<'a> {
    type Error = WriteError;

    ghost length_known = { λ _. Unit {0} };

    fn tag() -> Tag
        ensures value { result ≡ ⟦<Pdu<'a> as Asn1Type>⟧.der.content.tag }
        ensures simple { ⟦<Pdu<'a> as Asn1Type>⟧.der.is_simple }
    {
        Tag::constructed(0x10)
    }

    fn write_data(&self, dest: &mut WriteBuf) -> WriteResult<()> {
        write_fields!(self, dest; request_id, error_status, error_index, variable_bindings)
    }

    fn data_length(&self) -> Option<usize> {
        fields_length!(self; request_id, error_status, error_index, variable_bindings)
    }

    fn writes_as_read() -> bool
        ensures { IsTrue result }
    {
        true
    }
}

/// BulkPDU.
#[derive(Drop)]
pub struct BulkPdu<'a> {
    /// request-id.
    pub request_id: i32,
    /// non-repeaters.
    pub non_repeaters: u32,
    /// max-repetitions.
    pub max_repetitions: u32,
    /// variable-bindings.
    pub variable_bindings: SequenceOf<'a, VarBind<'a>, 0, { usize::MAX }>,
}

type BulkPduFields<'a> = Fields4<i32, u32, u32, SequenceOf<'a, VarBind<'a>, 0, { usize::MAX }>>;

impl<'a> Asn1Type for BulkPdu<'a> {
    ghost der = { structure (λ v. fields4 v.request_id v.non_repeaters v.max_repetitions
        v.variable_bindings) ⟦<BulkPduFields<'a> as Row>⟧.list (field_names "BulkPdu" ("request_id"
        ∷ "non_repeaters" ∷ "max_repetitions" ∷ "variable_bindings" ∷ [])) };

    fn known(&self) {
        known_fields!(self; request_id, non_repeaters, max_repetitions, variable_bindings)
    }
}

impl<'a> SimpleAsn1Readable<'a> for BulkPdu<'a> {
    fn tag() -> Tag
        ensures value { result ≡ ⟦<BulkPdu<'a> as Asn1Type>⟧.der.content.tag }
        ensures simple { ⟦<BulkPdu<'a> as Asn1Type>⟧.der.is_simple }
        ensures plain { ⟦<BulkPdu<'a> as Asn1Type>⟧.der.plain }
        ensures read { ⟦<BulkPdu<'a> as Asn1Type>⟧.der.is_read }
    {
        Tag::constructed(0x10)
    }

    fn parse_data(alloc: Global, data: &'a [u8]) -> ParseResult<BulkPdu<'a>>
        ensures { ReadsContents ⟦<BulkPdu<'a> as Asn1Type>⟧.der «data».entry.now result }
    {
        read_fields!(BulkPduFields<'a>, alloc, data => BulkPdu;
            request_id, non_repeaters, max_repetitions, variable_bindings)
    }
}

impl<'a> SimpleAsn1Writable for BulkPdu<'a> {
    type Error = WriteError;

    ghost length_known = { λ _. Unit {0} };

    fn tag() -> Tag
        ensures value { result ≡ ⟦<BulkPdu<'a> as Asn1Type>⟧.der.content.tag }
        ensures simple { ⟦<BulkPdu<'a> as Asn1Type>⟧.der.is_simple }
    {
        Tag::constructed(0x10)
    }

    fn write_data(&self, dest: &mut WriteBuf) -> WriteResult<()> {
        write_fields!(self, dest; request_id, non_repeaters, max_repetitions, variable_bindings)
    }

    fn data_length(&self) -> Option<usize> {
        fields_length!(self; request_id, non_repeaters, max_repetitions, variable_bindings)
    }

    fn writes_as_read() -> bool
        ensures { IsTrue result }
    {
        true
    }
}

/// VarBind.
#[derive(Drop)]
pub struct VarBind<'a> {
    /// name.
    pub name: ObjectIdentifier,
    /// The value.
    pub value: ObjectSyntax<'a>,
}

type VarBindFields<'a> = Fields2<ObjectIdentifier, ObjectSyntax<'a>>;

impl<'a> Asn1Type for VarBind<'a> {
    ghost der = { structure (λ v. fields2 v.name v.value) ⟦<VarBindFields<'a> as Row>⟧.list
        (field_names "VarBind" ("name" ∷ "value" ∷ [])) };

    fn known(&self) {
        known_fields!(self; name, value)
    }
}

impl<'a> SimpleAsn1Readable<'a> for VarBind<'a> {
    fn tag() -> Tag
        ensures value { result ≡ ⟦<VarBind<'a> as Asn1Type>⟧.der.content.tag }
        ensures simple { ⟦<VarBind<'a> as Asn1Type>⟧.der.is_simple }
        ensures plain { ⟦<VarBind<'a> as Asn1Type>⟧.der.plain }
        ensures read { ⟦<VarBind<'a> as Asn1Type>⟧.der.is_read }
    {
        Tag::constructed(0x10)
    }

    fn parse_data(alloc: Global, data: &'a [u8]) -> ParseResult<VarBind<'a>>
        ensures { ReadsContents ⟦<VarBind<'a> as Asn1Type>⟧.der «data».entry.now result }
    {
        read_fields!(VarBindFields<'a>, alloc, data => VarBind; name, value)
    }
}

impl<'a> SimpleAsn1Writable for VarBind<'a> {
    type Error = WriteError;

    ghost length_known = { λ _. Unit {0} };

    fn tag() -> Tag
        ensures value { result ≡ ⟦<VarBind<'a> as Asn1Type>⟧.der.content.tag }
        ensures simple { ⟦<VarBind<'a> as Asn1Type>⟧.der.is_simple }
    {
        Tag::constructed(0x10)
    }

    fn write_data(&self, dest: &mut WriteBuf) -> WriteResult<()> {
        write_fields!(self, dest; name, value)
    }

    fn data_length(&self) -> Option<usize> {
        fields_length!(self; name, value)
    }

    fn writes_as_read() -> bool
        ensures { IsTrue result }
    {
        true
    }
}

type ObjectSyntaxChoice<'a> = OneOfEight<
    i32,
    &'a [u8],
    ObjectIdentifier,
    ApplicationImplicit<&'a [u8], 0>,
    ApplicationImplicit<u32, 1>,
    ApplicationImplicit<u32, 2>,
    ApplicationImplicit<u32, 3>,
    ApplicationImplicit<&'a [u8], 4>,
    OneOf5<
        ApplicationImplicit<u64, 6>,
        Null,
        ImplicitTag<Null, 0>,
        ImplicitTag<Null, 1>,
        ImplicitTag<Null, 2>,
    >,
>;

type ObjectSyntaxValues<'a> = <ObjectSyntaxChoice<'a> as Alternatives>::Values;

macro_rules! variants_of_object_syntax {
    ($body:ident, $($of:tt)*) => { $body!($($of)*; ObjectSyntax(x);
        Integer, String, ObjectId, IpAddress, Counter, Unsigned, TimeTicks, Arbitrary, BigCounter,
        UnSpecified, NoSuchObject: implicit 0, NoSuchInstance: implicit 1,
        EndOfMibView: implicit 2) };
}

/// A value, or that there is none: SimpleSyntax, ApplicationSyntax, NULL and three tags.
#[derive(Drop)]
pub enum ObjectSyntax<'a> {
    /// integer-value.
    Integer(i32),
    /// string-value.
    String(&'a [u8]),
    /// objectID-value.
    ObjectId(ObjectIdentifier),
    /// ipAddress-value.
    IpAddress(ApplicationImplicit<&'a [u8], 0>),
    /// counter-value.
    Counter(ApplicationImplicit<u32, 1>),
    /// unsigned-integer-value.
    Unsigned(ApplicationImplicit<u32, 2>),
    /// timeticks-value.
    TimeTicks(ApplicationImplicit<u32, 3>),
    /// arbitrary-value.
    Arbitrary(ApplicationImplicit<&'a [u8], 4>),
    /// big-counter-value.
    BigCounter(ApplicationImplicit<u64, 6>),
    /// unSpecified.
    UnSpecified(Null),
    /// noSuchObject.
    NoSuchObject(Null),
    /// noSuchInstance.
    NoSuchInstance(Null),
    /// endOfMibView.
    EndOfMibView(Null),
}

impl<'a> AsOneOf<ObjectSyntaxValues<'a>> for ObjectSyntax<'a> {
    ghost use Rattle.derived_tests.specs.declared.snmp.ObjectSyntax.TheVariants.{Integer, String, ObjectId};
    ghost use Rattle.derived_tests.specs.declared.snmp.ObjectSyntax.TheVariants.{IpAddress, Counter, Unsigned};
    ghost use Rattle.derived_tests.specs.declared.snmp.ObjectSyntax.TheVariants.{TimeTicks, Arbitrary, BigCounter};
    ghost use Rattle.derived_tests.specs.declared.snmp.ObjectSyntax.TheVariants.{UnSpecified, NoSuchObject};
    ghost use Rattle.derived_tests.specs.declared.snmp.ObjectSyntax.TheVariants.{NoSuchInstance, EndOfMibView};

    ghost seen = { elim [
      | Integer x ↦ first8 x
      | String x ↦ second8 x
      | ObjectId x ↦ third8 x
      | IpAddress x ↦ fourth8 x
      | Counter x ↦ fifth8 x
      | Unsigned x ↦ sixth8 x
      | TimeTicks x ↦ seventh8 x
      | Arbitrary x ↦ eighth8 x
      | BigCounter x ↦ after8 (first3 x)
      | UnSpecified x ↦ after8 (second3 x)
      | NoSuchObject x ↦ after8 (third3 x)
      | NoSuchInstance x ↦ after8 (after3 (first1 x))
      | EndOfMibView x ↦ after8 (after3 (after1 (first1 x)))
    ] };

    fn from_one_of(value: ObjectSyntaxValues<'a>) -> ObjectSyntax<'a>
        ensures { ⟦<ObjectSyntax<'a> as AsOneOf<ObjectSyntaxValues<'a>>>⟧.seen result ≡
            value.entry }
    {
        variants_of_object_syntax!(take_choice, value)
    }
}

impl<'a> Asn1Type for ObjectSyntax<'a> {
    ghost der = { choice ⟦<ObjectSyntax<'a> as AsOneOf<ObjectSyntaxValues<'a>>>⟧.seen
        ⟦<ObjectSyntaxChoice<'a> as Alternatives>⟧.list };

    fn known(&self) {
        variants_of_object_syntax!(known_choice, self)
    }
}

impl<'a> Asn1Readable<'a> for ObjectSyntax<'a> {
    fn parse(parser: &mut Parser<'a>) -> ParseResult<ObjectSyntax<'a>>
        ensures answers { ReadsPrefix ⟦<ObjectSyntax<'a> as Asn1Type>⟧.der parser.old parser.new
            result }
        ensures found { IfOk result (λ v. BeginsWithEncodingOf ⟦<ObjectSyntax<'a> as Asn1Type>⟧.der
            v parser.old parser.new) }
        ensures rest { EndsWith parser.old parser.new }
        ensures stops { OnErr result (⟦<ObjectSyntax<'a> as Asn1Type>⟧.der.stops parser.old
            parser.new) }
    {
        read_choice::<ObjectSyntaxChoice<'a>, ObjectSyntax<'a>>(parser)
    }

    fn can_parse(tag: Tag) -> bool
        ensures value { result ≡ ⟦<ObjectSyntax<'a> as Asn1Type>⟧.der.accepts tag }
        ensures plain { ⟦<ObjectSyntax<'a> as Asn1Type>⟧.der.plain }
        ensures read { ⟦<ObjectSyntax<'a> as Asn1Type>⟧.der.is_read }
    {
        <ObjectSyntaxChoice<'a> as AlternativesReadable<'a>>::accepts(tag)
    }
}

impl<'a> Asn1Writable for ObjectSyntax<'a> {
    type Error = WriteError;

    ghost length_known = { λ _. Unit {0} };

    fn write(&self, dest: &mut Writer<'_>) -> WriteResult<()> {
        variants_of_object_syntax!(write_choice, self, dest)
    }

    fn encoded_length(&self) -> Option<usize> {
        variants_of_object_syntax!(choice_length, self)
    }

    fn writes_as_read() -> bool
        ensures { IsTrue result }
    {
        true
    }
}

/// The laws of the types, which do nothing.
pub mod laws {
    use super::{
        BulkPdu, HeaderData, ObjectSyntax, ObjectSyntaxChoice, Pdu, Pdus, PdusChoice, ScopedPdu,
        ScopedPduData, ScopedPduDataChoice, SnmpV3Message, UsmSecurityParameters, VarBind,
    };
    use asn1::Asn1Type;
    use asn1::laws_wrappers::alternatives_apart_are_lawful;

    /// Each value of `SnmpV3Message` has one encoding, which is read back.
    pub fn snmp_v3_message_is_lawful()
        ensures { HasOneEncoding ⟦<SnmpV3Message<'static> as Asn1Type>⟧.der }
    {
        header_data_is_lawful();
        usm_security_parameters_is_lawful();
        scoped_pdu_data_is_lawful();
    }

    /// Each value of `HeaderData` has one encoding, which is read back.
    pub fn header_data_is_lawful()
        ensures { HasOneEncoding ⟦<HeaderData<'static> as Asn1Type>⟧.der }
    {}

    /// Each value of `UsmSecurityParameters` has one encoding, which is read back.
    pub fn usm_security_parameters_is_lawful()
        ensures { HasOneEncoding ⟦<UsmSecurityParameters<'static> as Asn1Type>⟧.der }
    {}

    /// Each value of `ScopedPduData` has one encoding, which is read back.
    pub fn scoped_pdu_data_is_lawful()
        ensures { HasOneEncoding ⟦<ScopedPduData<'static> as Asn1Type>⟧.der }
    {
        scoped_pdu_is_lawful();
        alternatives_apart_are_lawful::<ScopedPduDataChoice<'static>>();
    }

    /// Each value of `ScopedPdu` has one encoding, which is read back.
    pub fn scoped_pdu_is_lawful()
        ensures { HasOneEncoding ⟦<ScopedPdu<'static> as Asn1Type>⟧.der }
    {
        pdus_is_lawful();
    }

    /// Each value of `Pdus` has one encoding, which is read back.
    pub fn pdus_is_lawful()
        ensures { HasOneEncoding ⟦<Pdus<'static> as Asn1Type>⟧.der }
    {
        pdu_is_lawful();
        bulk_pdu_is_lawful();
        alternatives_apart_are_lawful::<PdusChoice<'static>>();
    }

    /// Each value of `Pdu` has one encoding, which is read back.
    pub fn pdu_is_lawful()
        ensures { HasOneEncoding ⟦<Pdu<'static> as Asn1Type>⟧.der }
    {
        var_bind_is_lawful();
    }

    /// Each value of `BulkPdu` has one encoding, which is read back.
    pub fn bulk_pdu_is_lawful()
        ensures { HasOneEncoding ⟦<BulkPdu<'static> as Asn1Type>⟧.der }
    {
        var_bind_is_lawful();
    }

    /// Each value of `VarBind` has one encoding, which is read back.
    pub fn var_bind_is_lawful()
        ensures { HasOneEncoding ⟦<VarBind<'static> as Asn1Type>⟧.der }
    {
        object_syntax_is_lawful();
    }

    /// Each value of `ObjectSyntax` has one encoding, which is read back.
    pub fn object_syntax_is_lawful()
        ensures { HasOneEncoding ⟦<ObjectSyntax<'static> as Asn1Type>⟧.der }
    {
        alternatives_apart_are_lawful::<ObjectSyntaxChoice<'static>>();
    }
}
