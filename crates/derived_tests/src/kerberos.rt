//! Kerberos messages (RFC 4120, 5): a ticket, and the requests and replies of AS and TGS.
// Printed by tools/derive from declarations/kerberos.rs, with the sum 4a0ebc31.

ghost use Rattle.std.specs.Prelude.{◌≡◌, ◌∷◌, [], IsTrue};
ghost use Rattle.asn1.specs.Options.{option_meaning};
ghost use Rattle.asn1.specs.Reads.{HasOneEncoding, ReadsContents};
ghost use Rattle.asn1.specs.Structures.{explicit, field_names, structure, fields2, fields3, fields4, fields7, fields12};

use asn1::fields::{Fields2, Fields3, Fields4, Fields7, Fields12, Row};
use asn1::{
    ApplicationExplicit, Asn1Type, BitString, Explicit, IA5String, ParseResult, SequenceOf,
    SimpleAsn1Readable, SimpleAsn1Writable, Tag, UniversalImplicit, WriteBuf, WriteError,
    WriteResult, X509GeneralizedTime, fields_length, known_fields, read_fields, write_fields,
};
use std::alloc::Global;

/// KerberosString: a GeneralString with the characters of an IA5String (5.2.1).
pub type KerberosString<'a> = UniversalImplicit<IA5String<'a>, 27>;

/// PrincipalName (5.2.2).
#[derive(Drop)]
pub struct PrincipalName<'a> {
    /// name-type.
    pub name_type: i32,
    /// name-string.
    pub name_string: SequenceOf<'a, KerberosString<'a>, 0, { usize::MAX }>,
}

type PrincipalNameNameTypeField = Explicit<i32, 0>;

type PrincipalNameNameStringField<'a> = Explicit<
    SequenceOf<'a, KerberosString<'a>, 0, { usize::MAX }>,
    1,
>;

type PrincipalNameFields<'a> = Fields2<
    PrincipalNameNameTypeField,
    PrincipalNameNameStringField<'a>,
>;

impl<'a> Asn1Type for PrincipalName<'a> {
    ghost der = { structure (λ v. fields2 (explicit v.name_type) (explicit v.name_string))
        ⟦<PrincipalNameFields<'a> as Row>⟧.list (field_names "PrincipalName" ("name_type" ∷
        "name_string" ∷ [])) };

    fn known(&self) {
        known_fields!(self;
            name_type: PrincipalNameNameTypeField, name_string: PrincipalNameNameStringField<'a>)
    }
}

impl<'a> SimpleAsn1Readable<'a> for PrincipalName<'a> {
    fn tag() -> Tag
        ensures value { result ≡ ⟦<PrincipalName<'a> as Asn1Type>⟧.der.content.tag }
        ensures simple { ⟦<PrincipalName<'a> as Asn1Type>⟧.der.is_simple }
        ensures plain { ⟦<PrincipalName<'a> as Asn1Type>⟧.der.plain }
        ensures read { ⟦<PrincipalName<'a> as Asn1Type>⟧.der.is_read }
    {
        Tag::constructed(0x10)
    }

    fn parse_data(alloc: Global, data: &'a [u8]) -> ParseResult<PrincipalName<'a>>
        ensures { ReadsContents ⟦<PrincipalName<'a> as Asn1Type>⟧.der «data».entry.now result }
    {
        read_fields!(PrincipalNameFields<'a>, alloc, data => PrincipalName;
            name_type: PrincipalNameNameTypeField, name_string: PrincipalNameNameStringField<'a>)
    }
}

impl<'a> SimpleAsn1Writable for PrincipalName<'a> {
    type Error = WriteError;

    ghost length_known = { λ _. Unit {0} };

    fn tag() -> Tag
        ensures value { result ≡ ⟦<PrincipalName<'a> as Asn1Type>⟧.der.content.tag }
        ensures simple { ⟦<PrincipalName<'a> as Asn1Type>⟧.der.is_simple }
    {
        Tag::constructed(0x10)
    }

    fn write_data(&self, dest: &mut WriteBuf) -> WriteResult<()> {
        write_fields!(self, dest;
            name_type: PrincipalNameNameTypeField, name_string: PrincipalNameNameStringField<'a>)
    }

    fn data_length(&self) -> Option<usize> {
        fields_length!(self;
            name_type: PrincipalNameNameTypeField, name_string: PrincipalNameNameStringField<'a>)
    }

    fn writes_as_read() -> bool
        ensures { IsTrue result }
    {
        true
    }
}

/// HostAddress (5.2.5).
#[derive(Drop)]
pub struct HostAddress<'a> {
    /// addr-type.
    pub addr_type: i32,
    /// address.
    pub address: &'a [u8],
}

type HostAddressAddrTypeField = Explicit<i32, 0>;

type HostAddressAddressField<'a> = Explicit<&'a [u8], 1>;

type HostAddressFields<'a> = Fields2<HostAddressAddrTypeField, HostAddressAddressField<'a>>;

impl<'a> Asn1Type for HostAddress<'a> {
    ghost der = { structure (λ v. fields2 (explicit v.addr_type) (explicit v.address))
        ⟦<HostAddressFields<'a> as Row>⟧.list (field_names "HostAddress" ("addr_type" ∷ "address" ∷
        [])) };

    fn known(&self) {
        known_fields!(self;
            addr_type: HostAddressAddrTypeField, address: HostAddressAddressField<'a>)
    }
}

impl<'a> SimpleAsn1Readable<'a> for HostAddress<'a> {
    fn tag() -> Tag
        ensures value { result ≡ ⟦<HostAddress<'a> as Asn1Type>⟧.der.content.tag }
        ensures simple { ⟦<HostAddress<'a> as Asn1Type>⟧.der.is_simple }
        ensures plain { ⟦<HostAddress<'a> as Asn1Type>⟧.der.plain }
        ensures read { ⟦<HostAddress<'a> as Asn1Type>⟧.der.is_read }
    {
        Tag::constructed(0x10)
    }

    fn parse_data(alloc: Global, data: &'a [u8]) -> ParseResult<HostAddress<'a>>
        ensures { ReadsContents ⟦<HostAddress<'a> as Asn1Type>⟧.der «data».entry.now result }
    {
        read_fields!(HostAddressFields<'a>, alloc, data => HostAddress;
            addr_type: HostAddressAddrTypeField, address: HostAddressAddressField<'a>)
    }
}

impl<'a> SimpleAsn1Writable for HostAddress<'a> {
    type Error = WriteError;

    ghost length_known = { λ _. Unit {0} };

    fn tag() -> Tag
        ensures value { result ≡ ⟦<HostAddress<'a> as Asn1Type>⟧.der.content.tag }
        ensures simple { ⟦<HostAddress<'a> as Asn1Type>⟧.der.is_simple }
    {
        Tag::constructed(0x10)
    }

    fn write_data(&self, dest: &mut WriteBuf) -> WriteResult<()> {
        write_fields!(self, dest;
            addr_type: HostAddressAddrTypeField, address: HostAddressAddressField<'a>)
    }

    fn data_length(&self) -> Option<usize> {
        fields_length!(self;
            addr_type: HostAddressAddrTypeField, address: HostAddressAddressField<'a>)
    }

    fn writes_as_read() -> bool
        ensures { IsTrue result }
    {
        true
    }
}

/// PA-DATA (5.2.7).
#[derive(Drop)]
pub struct PaData<'a> {
    /// padata-type.
    pub padata_type: i32,
    /// padata-value.
    pub padata_value: &'a [u8],
}

type PaDataPadataTypeField = Explicit<i32, 1>;

type PaDataPadataValueField<'a> = Explicit<&'a [u8], 2>;

type PaDataFields<'a> = Fields2<PaDataPadataTypeField, PaDataPadataValueField<'a>>;

impl<'a> Asn1Type for PaData<'a> {
    ghost der = { structure (λ v. fields2 (explicit v.padata_type) (explicit v.padata_value))
        ⟦<PaDataFields<'a> as Row>⟧.list (field_names "PaData" ("padata_type" ∷ "padata_value" ∷
        [])) };

    fn known(&self) {
        known_fields!(self;
            padata_type: PaDataPadataTypeField, padata_value: PaDataPadataValueField<'a>)
    }
}

impl<'a> SimpleAsn1Readable<'a> for PaData<'a> {
    fn tag() -> Tag
        ensures value { result ≡ ⟦<PaData<'a> as Asn1Type>⟧.der.content.tag }
        ensures simple { ⟦<PaData<'a> as Asn1Type>⟧.der.is_simple }
        ensures plain { ⟦<PaData<'a> as Asn1Type>⟧.der.plain }
        ensures read { ⟦<PaData<'a> as Asn1Type>⟧.der.is_read }
    {
        Tag::constructed(0x10)
    }

    fn parse_data(alloc: Global, data: &'a [u8]) -> ParseResult<PaData<'a>>
        ensures { ReadsContents ⟦<PaData<'a> as Asn1Type>⟧.der «data».entry.now result }
    {
        read_fields!(PaDataFields<'a>, alloc, data => PaData;
            padata_type: PaDataPadataTypeField, padata_value: PaDataPadataValueField<'a>)
    }
}

impl<'a> SimpleAsn1Writable for PaData<'a> {
    type Error = WriteError;

    ghost length_known = { λ _. Unit {0} };

    fn tag() -> Tag
        ensures value { result ≡ ⟦<PaData<'a> as Asn1Type>⟧.der.content.tag }
        ensures simple { ⟦<PaData<'a> as Asn1Type>⟧.der.is_simple }
    {
        Tag::constructed(0x10)
    }

    fn write_data(&self, dest: &mut WriteBuf) -> WriteResult<()> {
        write_fields!(self, dest;
            padata_type: PaDataPadataTypeField, padata_value: PaDataPadataValueField<'a>)
    }

    fn data_length(&self) -> Option<usize> {
        fields_length!(self;
            padata_type: PaDataPadataTypeField, padata_value: PaDataPadataValueField<'a>)
    }

    fn writes_as_read() -> bool
        ensures { IsTrue result }
    {
        true
    }
}

/// EncryptedData (5.2.9).
#[derive(Drop)]
pub struct EncryptedData<'a> {
    /// etype.
    pub etype: i32,
    /// kvno.
    pub kvno: Option<u32>,
    /// cipher.
    pub cipher: &'a [u8],
}

type EncryptedDataEtypeField = Explicit<i32, 0>;

type EncryptedDataKvnoField = Option<Explicit<u32, 1>>;

type EncryptedDataCipherField<'a> = Explicit<&'a [u8], 2>;

type EncryptedDataFields<'a> = Fields3<
    EncryptedDataEtypeField,
    EncryptedDataKvnoField,
    EncryptedDataCipherField<'a>,
>;

macro_rules! fields_of_encrypted_data {
    ($body:ident, $($of:tt)*) => { $body!($($of)*;
        etype: EncryptedDataEtypeField, kvno: EncryptedDataKvnoField,
        cipher: EncryptedDataCipherField<'a>) };
}

impl<'a> Asn1Type for EncryptedData<'a> {
    ghost der = { structure (λ v. fields3 (explicit v.etype) (option_meaning explicit v.kvno)
        (explicit v.cipher)) ⟦<EncryptedDataFields<'a> as Row>⟧.list (field_names "EncryptedData"
        ("etype" ∷ "kvno" ∷ "cipher" ∷ [])) };

    fn known(&self) {
        fields_of_encrypted_data!(known_fields, self)
    }
}

impl<'a> SimpleAsn1Readable<'a> for EncryptedData<'a> {
    fn tag() -> Tag
        ensures value { result ≡ ⟦<EncryptedData<'a> as Asn1Type>⟧.der.content.tag }
        ensures simple { ⟦<EncryptedData<'a> as Asn1Type>⟧.der.is_simple }
        ensures plain { ⟦<EncryptedData<'a> as Asn1Type>⟧.der.plain }
        ensures read { ⟦<EncryptedData<'a> as Asn1Type>⟧.der.is_read }
    {
        Tag::constructed(0x10)
    }

    fn parse_data(alloc: Global, data: &'a [u8]) -> ParseResult<EncryptedData<'a>>
        ensures { ReadsContents ⟦<EncryptedData<'a> as Asn1Type>⟧.der «data».entry.now result }
    {
        fields_of_encrypted_data!(read_fields,
            EncryptedDataFields<'a>, alloc, data => EncryptedData)
    }
}

impl<'a> SimpleAsn1Writable for EncryptedData<'a> {
    type Error = WriteError;

    ghost length_known = { λ _. Unit {0} };

    fn tag() -> Tag
        ensures value { result ≡ ⟦<EncryptedData<'a> as Asn1Type>⟧.der.content.tag }
        ensures simple { ⟦<EncryptedData<'a> as Asn1Type>⟧.der.is_simple }
    {
        Tag::constructed(0x10)
    }

    fn write_data(&self, dest: &mut WriteBuf) -> WriteResult<()> {
        fields_of_encrypted_data!(write_fields, self, dest)
    }

    fn data_length(&self) -> Option<usize> {
        fields_of_encrypted_data!(fields_length, self)
    }

    fn writes_as_read() -> bool
        ensures { IsTrue result }
    {
        true
    }
}

/// What a ticket holds (5.3).
#[derive(Drop)]
pub struct TicketBody<'a> {
    /// tkt-vno, 5.
    pub tkt_vno: u8,
    /// realm.
    pub realm: KerberosString<'a>,
    /// sname.
    pub sname: PrincipalName<'a>,
    /// enc-part.
    pub enc_part: EncryptedData<'a>,
}

type TicketBodyTktVnoField = Explicit<u8, 0>;

type TicketBodyRealmField<'a> = Explicit<KerberosString<'a>, 1>;

type TicketBodySnameField<'a> = Explicit<PrincipalName<'a>, 2>;

type TicketBodyEncPartField<'a> = Explicit<EncryptedData<'a>, 3>;

type TicketBodyFields<'a> = Fields4<
    TicketBodyTktVnoField,
    TicketBodyRealmField<'a>,
    TicketBodySnameField<'a>,
    TicketBodyEncPartField<'a>,
>;

macro_rules! fields_of_ticket_body {
    ($body:ident, $($of:tt)*) => { $body!($($of)*;
        tkt_vno: TicketBodyTktVnoField, realm: TicketBodyRealmField<'a>,
        sname: TicketBodySnameField<'a>, enc_part: TicketBodyEncPartField<'a>) };
}

impl<'a> Asn1Type for TicketBody<'a> {
    ghost der = { structure (λ v. fields4 (explicit v.tkt_vno) (explicit v.realm) (explicit v.sname)
        (explicit v.enc_part)) ⟦<TicketBodyFields<'a> as Row>⟧.list (field_names "TicketBody"
        ("tkt_vno" ∷ "realm" ∷ "sname" ∷ "enc_part" ∷ [])) };

    fn known(&self) {
        fields_of_ticket_body!(known_fields, self)
    }
}

impl<'a> SimpleAsn1Readable<'a> for TicketBody<'a> {
    fn tag() -> Tag
        ensures value { result ≡ ⟦<TicketBody<'a> as Asn1Type>⟧.der.content.tag }
        ensures simple { ⟦<TicketBody<'a> as Asn1Type>⟧.der.is_simple }
        ensures plain { ⟦<TicketBody<'a> as Asn1Type>⟧.der.plain }
        ensures read { ⟦<TicketBody<'a> as Asn1Type>⟧.der.is_read }
    {
        Tag::constructed(0x10)
    }

    fn parse_data(alloc: Global, data: &'a [u8]) -> ParseResult<TicketBody<'a>>
        ensures { ReadsContents ⟦<TicketBody<'a> as Asn1Type>⟧.der «data».entry.now result }
    {
        fields_of_ticket_body!(read_fields, TicketBodyFields<'a>, alloc, data => TicketBody)
    }
}

impl<'a> SimpleAsn1Writable for TicketBody<'a> {
    type Error = WriteError;

    ghost length_known = { λ _. Unit {0} };

    fn tag() -> Tag
        ensures value { result ≡ ⟦<TicketBody<'a> as Asn1Type>⟧.der.content.tag }
        ensures simple { ⟦<TicketBody<'a> as Asn1Type>⟧.der.is_simple }
    {
        Tag::constructed(0x10)
    }

    fn write_data(&self, dest: &mut WriteBuf) -> WriteResult<()> {
        fields_of_ticket_body!(write_fields, self, dest)
    }

    fn data_length(&self) -> Option<usize> {
        fields_of_ticket_body!(fields_length, self)
    }

    fn writes_as_read() -> bool
        ensures { IsTrue result }
    {
        true
    }
}

/// Ticket (5.3).
pub type Ticket<'a> = ApplicationExplicit<TicketBody<'a>, 1>;

/// KDC-REQ-BODY (5.4.1).
#[derive(Drop)]
pub struct KdcReqBody<'a> {
    /// kdc-options.
    pub kdc_options: BitString<'a>,
    /// cname.
    pub cname: Option<PrincipalName<'a>>,
    /// realm.
    pub realm: KerberosString<'a>,
    /// sname.
    pub sname: Option<PrincipalName<'a>>,
    /// from.
    pub from: Option<X509GeneralizedTime>,
    /// till.
    pub till: X509GeneralizedTime,
    /// rtime.
    pub rtime: Option<X509GeneralizedTime>,
    /// nonce.
    pub nonce: u32,
    /// etype.
    pub etype: SequenceOf<'a, i32, 0, { usize::MAX }>,
    /// addresses.
    pub addresses: Option<SequenceOf<'a, HostAddress<'a>, 0, { usize::MAX }>>,
    /// enc-authorization-data.
    pub enc_authorization_data: Option<EncryptedData<'a>>,
    /// additional-tickets.
    pub additional_tickets: Option<SequenceOf<'a, Ticket<'a>, 0, { usize::MAX }>>,
}

type KdcReqBodyKdcOptionsField<'a> = Explicit<BitString<'a>, 0>;

type KdcReqBodyCnameField<'a> = Option<Explicit<PrincipalName<'a>, 1>>;

type KdcReqBodyRealmField<'a> = Explicit<KerberosString<'a>, 2>;

type KdcReqBodySnameField<'a> = Option<Explicit<PrincipalName<'a>, 3>>;

type KdcReqBodyFromField = Option<Explicit<X509GeneralizedTime, 4>>;

type KdcReqBodyTillField = Explicit<X509GeneralizedTime, 5>;

type KdcReqBodyRtimeField = Option<Explicit<X509GeneralizedTime, 6>>;

type KdcReqBodyNonceField = Explicit<u32, 7>;

type KdcReqBodyEtypeField<'a> = Explicit<SequenceOf<'a, i32, 0, { usize::MAX }>, 8>;

type KdcReqBodyAddressesField<'a> = Option<
    Explicit<SequenceOf<'a, HostAddress<'a>, 0, { usize::MAX }>, 9>,
>;

type KdcReqBodyEncAuthorizationDataField<'a> = Option<Explicit<EncryptedData<'a>, 10>>;

type KdcReqBodyAdditionalTicketsField<'a> = Option<
    Explicit<SequenceOf<'a, Ticket<'a>, 0, { usize::MAX }>, 11>,
>;

type KdcReqBodyFields<'a> = Fields12<
    KdcReqBodyKdcOptionsField<'a>,
    KdcReqBodyCnameField<'a>,
    KdcReqBodyRealmField<'a>,
    KdcReqBodySnameField<'a>,
    KdcReqBodyFromField,
    KdcReqBodyTillField,
    KdcReqBodyRtimeField,
    KdcReqBodyNonceField,
    KdcReqBodyEtypeField<'a>,
    KdcReqBodyAddressesField<'a>,
    KdcReqBodyEncAuthorizationDataField<'a>,
    KdcReqBodyAdditionalTicketsField<'a>,
>;

macro_rules! fields_of_kdc_req_body {
    ($body:ident, $($of:tt)*) => { $body!($($of)*;
        kdc_options: KdcReqBodyKdcOptionsField<'a>, cname: KdcReqBodyCnameField<'a>,
        realm: KdcReqBodyRealmField<'a>, sname: KdcReqBodySnameField<'a>, from: KdcReqBodyFromField,
        till: KdcReqBodyTillField, rtime: KdcReqBodyRtimeField, nonce: KdcReqBodyNonceField,
        etype: KdcReqBodyEtypeField<'a>, addresses: KdcReqBodyAddressesField<'a>,
        enc_authorization_data: KdcReqBodyEncAuthorizationDataField<'a>,
        additional_tickets: KdcReqBodyAdditionalTicketsField<'a>) };
}

impl<'a> Asn1Type for KdcReqBody<'a> {
    ghost der = { structure (λ v. fields12 (explicit v.kdc_options) (option_meaning explicit
        v.cname) (explicit v.realm) (option_meaning explicit v.sname) (option_meaning explicit
        v.from) (explicit v.till) (option_meaning explicit v.rtime) (explicit v.nonce) (explicit
        v.etype) (option_meaning explicit v.addresses) (option_meaning explicit
        v.enc_authorization_data) (option_meaning explicit v.additional_tickets))
        ⟦<KdcReqBodyFields<'a> as Row>⟧.list (field_names "KdcReqBody" ("kdc_options" ∷ "cname" ∷
        "realm" ∷ "sname" ∷ "from" ∷ "till" ∷ "rtime" ∷ "nonce" ∷ "etype" ∷ "addresses" ∷
        "enc_authorization_data" ∷ "additional_tickets" ∷ [])) };

    fn known(&self) {
        fields_of_kdc_req_body!(known_fields, self)
    }
}

impl<'a> SimpleAsn1Readable<'a> for KdcReqBody<'a> {
    fn tag() -> Tag
        ensures value { result ≡ ⟦<KdcReqBody<'a> as Asn1Type>⟧.der.content.tag }
        ensures simple { ⟦<KdcReqBody<'a> as Asn1Type>⟧.der.is_simple }
        ensures plain { ⟦<KdcReqBody<'a> as Asn1Type>⟧.der.plain }
        ensures read { ⟦<KdcReqBody<'a> as Asn1Type>⟧.der.is_read }
    {
        Tag::constructed(0x10)
    }

    fn parse_data(alloc: Global, data: &'a [u8]) -> ParseResult<KdcReqBody<'a>>
        ensures { ReadsContents ⟦<KdcReqBody<'a> as Asn1Type>⟧.der «data».entry.now result }
    {
        fields_of_kdc_req_body!(read_fields, KdcReqBodyFields<'a>, alloc, data => KdcReqBody)
    }
}

impl<'a> SimpleAsn1Writable for KdcReqBody<'a> {
    type Error = WriteError;

    ghost length_known = { λ _. Unit {0} };

    fn tag() -> Tag
        ensures value { result ≡ ⟦<KdcReqBody<'a> as Asn1Type>⟧.der.content.tag }
        ensures simple { ⟦<KdcReqBody<'a> as Asn1Type>⟧.der.is_simple }
    {
        Tag::constructed(0x10)
    }

    fn write_data(&self, dest: &mut WriteBuf) -> WriteResult<()> {
        fields_of_kdc_req_body!(write_fields, self, dest)
    }

    fn data_length(&self) -> Option<usize> {
        fields_of_kdc_req_body!(fields_length, self)
    }

    fn writes_as_read() -> bool
        ensures { IsTrue result }
    {
        true
    }
}

/// KDC-REQ (5.4.1).
#[derive(Drop)]
pub struct KdcReq<'a> {
    /// pvno, 5.
    pub pvno: u8,
    /// msg-type, 10 or 12.
    pub msg_type: u8,
    /// padata.
    pub padata: Option<SequenceOf<'a, PaData<'a>, 0, { usize::MAX }>>,
    /// req-body.
    pub req_body: KdcReqBody<'a>,
}

type KdcReqPvnoField = Explicit<u8, 1>;

type KdcReqMsgTypeField = Explicit<u8, 2>;

type KdcReqPadataField<'a> = Option<Explicit<SequenceOf<'a, PaData<'a>, 0, { usize::MAX }>, 3>>;

type KdcReqReqBodyField<'a> = Explicit<KdcReqBody<'a>, 4>;

type KdcReqFields<'a> = Fields4<
    KdcReqPvnoField,
    KdcReqMsgTypeField,
    KdcReqPadataField<'a>,
    KdcReqReqBodyField<'a>,
>;

macro_rules! fields_of_kdc_req {
    ($body:ident, $($of:tt)*) => { $body!($($of)*;
        pvno: KdcReqPvnoField, msg_type: KdcReqMsgTypeField, padata: KdcReqPadataField<'a>,
        req_body: KdcReqReqBodyField<'a>) };
}

impl<'a> Asn1Type for KdcReq<'a> {
    ghost der = { structure (λ v. fields4 (explicit v.pvno) (explicit v.msg_type) (option_meaning
        explicit v.padata) (explicit v.req_body)) ⟦<KdcReqFields<'a> as Row>⟧.list
        (field_names "KdcReq" ("pvno" ∷ "msg_type" ∷ "padata" ∷ "req_body" ∷ [])) };

    fn known(&self) {
        fields_of_kdc_req!(known_fields, self)
    }
}

impl<'a> SimpleAsn1Readable<'a> for KdcReq<'a> {
    fn tag() -> Tag
        ensures value { result ≡ ⟦<KdcReq<'a> as Asn1Type>⟧.der.content.tag }
        ensures simple { ⟦<KdcReq<'a> as Asn1Type>⟧.der.is_simple }
        ensures plain { ⟦<KdcReq<'a> as Asn1Type>⟧.der.plain }
        ensures read { ⟦<KdcReq<'a> as Asn1Type>⟧.der.is_read }
    {
        Tag::constructed(0x10)
    }

    fn parse_data(alloc: Global, data: &'a [u8]) -> ParseResult<KdcReq<'a>>
        ensures { ReadsContents ⟦<KdcReq<'a> as Asn1Type>⟧.der «data».entry.now result }
    {
        fields_of_kdc_req!(read_fields, KdcReqFields<'a>, alloc, data => KdcReq)
    }
}

impl<'a> SimpleAsn1Writable for KdcReq<'a> {
    type Error = WriteError;

    ghost length_known = { λ _. Unit {0} };

    fn tag() -> Tag
        ensures value { result ≡ ⟦<KdcReq<'a> as Asn1Type>⟧.der.content.tag }
        ensures simple { ⟦<KdcReq<'a> as Asn1Type>⟧.der.is_simple }
    {
        Tag::constructed(0x10)
    }

    fn write_data(&self, dest: &mut WriteBuf) -> WriteResult<()> {
        fields_of_kdc_req!(write_fields, self, dest)
    }

    fn data_length(&self) -> Option<usize> {
        fields_of_kdc_req!(fields_length, self)
    }

    fn writes_as_read() -> bool
        ensures { IsTrue result }
    {
        true
    }
}

/// AS-REQ (5.4.1).
pub type AsReq<'a> = ApplicationExplicit<KdcReq<'a>, 10>;

/// TGS-REQ (5.4.1).
pub type TgsReq<'a> = ApplicationExplicit<KdcReq<'a>, 12>;

/// KDC-REP (5.4.2).
#[derive(Drop)]
pub struct KdcRep<'a> {
    /// pvno, 5.
    pub pvno: u8,
    /// msg-type, 11 or 13.
    pub msg_type: u8,
    /// padata.
    pub padata: Option<SequenceOf<'a, PaData<'a>, 0, { usize::MAX }>>,
    /// crealm.
    pub crealm: KerberosString<'a>,
    /// cname.
    pub cname: PrincipalName<'a>,
    /// ticket.
    pub ticket: Ticket<'a>,
    /// enc-part.
    pub enc_part: EncryptedData<'a>,
}

type KdcRepPvnoField = Explicit<u8, 0>;

type KdcRepMsgTypeField = Explicit<u8, 1>;

type KdcRepPadataField<'a> = Option<Explicit<SequenceOf<'a, PaData<'a>, 0, { usize::MAX }>, 2>>;

type KdcRepCrealmField<'a> = Explicit<KerberosString<'a>, 3>;

type KdcRepCnameField<'a> = Explicit<PrincipalName<'a>, 4>;

type KdcRepTicketField<'a> = Explicit<Ticket<'a>, 5>;

type KdcRepEncPartField<'a> = Explicit<EncryptedData<'a>, 6>;

type KdcRepFields<'a> = Fields7<
    KdcRepPvnoField,
    KdcRepMsgTypeField,
    KdcRepPadataField<'a>,
    KdcRepCrealmField<'a>,
    KdcRepCnameField<'a>,
    KdcRepTicketField<'a>,
    KdcRepEncPartField<'a>,
>;

macro_rules! fields_of_kdc_rep {
    ($body:ident, $($of:tt)*) => { $body!($($of)*;
        pvno: KdcRepPvnoField, msg_type: KdcRepMsgTypeField, padata: KdcRepPadataField<'a>,
        crealm: KdcRepCrealmField<'a>, cname: KdcRepCnameField<'a>, ticket: KdcRepTicketField<'a>,
        enc_part: KdcRepEncPartField<'a>) };
}

impl<'a> Asn1Type for KdcRep<'a> {
    ghost der = { structure (λ v. fields7 (explicit v.pvno) (explicit v.msg_type) (option_meaning
        explicit v.padata) (explicit v.crealm) (explicit v.cname) (explicit v.ticket) (explicit
        v.enc_part)) ⟦<KdcRepFields<'a> as Row>⟧.list (field_names "KdcRep" ("pvno" ∷ "msg_type" ∷
        "padata" ∷ "crealm" ∷ "cname" ∷ "ticket" ∷ "enc_part" ∷ [])) };

    fn known(&self) {
        fields_of_kdc_rep!(known_fields, self)
    }
}

impl<'a> SimpleAsn1Readable<'a> for KdcRep<'a> {
    fn tag() -> Tag
        ensures value { result ≡ ⟦<KdcRep<'a> as Asn1Type>⟧.der.content.tag }
        ensures simple { ⟦<KdcRep<'a> as Asn1Type>⟧.der.is_simple }
        ensures plain { ⟦<KdcRep<'a> as Asn1Type>⟧.der.plain }
        ensures read { ⟦<KdcRep<'a> as Asn1Type>⟧.der.is_read }
    {
        Tag::constructed(0x10)
    }

    fn parse_data(alloc: Global, data: &'a [u8]) -> ParseResult<KdcRep<'a>>
        ensures { ReadsContents ⟦<KdcRep<'a> as Asn1Type>⟧.der «data».entry.now result }
    {
        fields_of_kdc_rep!(read_fields, KdcRepFields<'a>, alloc, data => KdcRep)
    }
}

impl<'a> SimpleAsn1Writable for KdcRep<'a> {
    type Error = WriteError;

    ghost length_known = { λ _. Unit {0} };

    fn tag() -> Tag
        ensures value { result ≡ ⟦<KdcRep<'a> as Asn1Type>⟧.der.content.tag }
        ensures simple { ⟦<KdcRep<'a> as Asn1Type>⟧.der.is_simple }
    {
        Tag::constructed(0x10)
    }

    fn write_data(&self, dest: &mut WriteBuf) -> WriteResult<()> {
        fields_of_kdc_rep!(write_fields, self, dest)
    }

    fn data_length(&self) -> Option<usize> {
        fields_of_kdc_rep!(fields_length, self)
    }

    fn writes_as_read() -> bool
        ensures { IsTrue result }
    {
        true
    }
}

/// AS-REP (5.4.2).
pub type AsRep<'a> = ApplicationExplicit<KdcRep<'a>, 11>;

/// TGS-REP (5.4.2).
pub type TgsRep<'a> = ApplicationExplicit<KdcRep<'a>, 13>;

/// The laws of the types, which do nothing.
pub mod laws {
    use super::{
        AsRep, AsReq, EncryptedData, HostAddress, KdcRep, KdcReq, KdcReqBody, KerberosString,
        PaData, PrincipalName, TgsRep, TgsReq, Ticket, TicketBody,
    };
    use asn1::Asn1Type;

    /// Each value of `KerberosString` has one encoding, which is read back.
    pub fn kerberos_string_is_lawful()
        ensures { HasOneEncoding ⟦<KerberosString<'static> as Asn1Type>⟧.der }
    {}

    /// Each value of `PrincipalName` has one encoding, which is read back.
    pub fn principal_name_is_lawful()
        ensures { HasOneEncoding ⟦<PrincipalName<'static> as Asn1Type>⟧.der }
    {
        kerberos_string_is_lawful();
    }

    /// Each value of `HostAddress` has one encoding, which is read back.
    pub fn host_address_is_lawful()
        ensures { HasOneEncoding ⟦<HostAddress<'static> as Asn1Type>⟧.der }
    {}

    /// Each value of `PaData` has one encoding, which is read back.
    pub fn pa_data_is_lawful()
        ensures { HasOneEncoding ⟦<PaData<'static> as Asn1Type>⟧.der }
    {}

    /// Each value of `EncryptedData` has one encoding, which is read back.
    pub fn encrypted_data_is_lawful()
        ensures { HasOneEncoding ⟦<EncryptedData<'static> as Asn1Type>⟧.der }
    {}

    /// Each value of `TicketBody` has one encoding, which is read back.
    pub fn ticket_body_is_lawful()
        ensures { HasOneEncoding ⟦<TicketBody<'static> as Asn1Type>⟧.der }
    {
        kerberos_string_is_lawful();
        principal_name_is_lawful();
        encrypted_data_is_lawful();
    }

    /// Each value of `Ticket` has one encoding, which is read back.
    pub fn ticket_is_lawful()
        ensures { HasOneEncoding ⟦<Ticket<'static> as Asn1Type>⟧.der }
    {
        ticket_body_is_lawful();
    }

    /// Each value of `KdcReqBody` has one encoding, which is read back.
    pub fn kdc_req_body_is_lawful()
        ensures { HasOneEncoding ⟦<KdcReqBody<'static> as Asn1Type>⟧.der }
    {
        principal_name_is_lawful();
        kerberos_string_is_lawful();
        host_address_is_lawful();
        encrypted_data_is_lawful();
        ticket_is_lawful();
    }

    /// Each value of `KdcReq` has one encoding, which is read back.
    pub fn kdc_req_is_lawful()
        ensures { HasOneEncoding ⟦<KdcReq<'static> as Asn1Type>⟧.der }
    {
        pa_data_is_lawful();
        kdc_req_body_is_lawful();
    }

    /// Each value of `AsReq` has one encoding, which is read back.
    pub fn as_req_is_lawful()
        ensures { HasOneEncoding ⟦<AsReq<'static> as Asn1Type>⟧.der }
    {
        kdc_req_is_lawful();
    }

    /// Each value of `TgsReq` has one encoding, which is read back.
    pub fn tgs_req_is_lawful()
        ensures { HasOneEncoding ⟦<TgsReq<'static> as Asn1Type>⟧.der }
    {
        kdc_req_is_lawful();
    }

    /// Each value of `KdcRep` has one encoding, which is read back.
    pub fn kdc_rep_is_lawful()
        ensures { HasOneEncoding ⟦<KdcRep<'static> as Asn1Type>⟧.der }
    {
        pa_data_is_lawful();
        kerberos_string_is_lawful();
        principal_name_is_lawful();
        ticket_is_lawful();
        encrypted_data_is_lawful();
    }

    /// Each value of `AsRep` has one encoding, which is read back.
    pub fn as_rep_is_lawful()
        ensures { HasOneEncoding ⟦<AsRep<'static> as Asn1Type>⟧.der }
    {
        kdc_rep_is_lawful();
    }

    /// Each value of `TgsRep` has one encoding, which is read back.
    pub fn tgs_rep_is_lawful()
        ensures { HasOneEncoding ⟦<TgsRep<'static> as Asn1Type>⟧.der }
    {
        kdc_rep_is_lawful();
    }
}
