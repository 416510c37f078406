//! Kerberos messages that openssl made of the ASN.1 of RFC 4120 (`openssl asn1parse -genconf`).

use super::writes;
use crate::kerberos::{AsRep, AsReq, TgsRep, Ticket};
use asn1::{ParseErrorKind, Tag, TagClass};
use std::test::Fail;
use testing::{read, refused, same};

/// A request of user@EXAMPLE.COM for a ticket of krbtgt/EXAMPLE.COM, with an address and a ticket in it.
const AS_REQ: &str = "\
6a82010930820105a103020105a20302010aa30e300c300aa10402020095a2020400a481e83081e5\
a00703050040800010a111300fa003020101a10830061b0475736572a20d1b0b4558414d504c452e\
434f4da320301ea003020102a11730151b066b72627467741b0b4558414d504c452e434f4da51118\
0f32303337303931333032343830355aa7060204468e5f47a80c300a0201120201110202ff7ba911\
300f300da003020102a1060404c0000201ab5a305861563054a003020105a10d1b0b4558414d504c\
452e434f4da220301ea003020102a11730151b066b72627467741b0b4558414d504c452e434f4da3\
1c301aa003020112a107020500ffffffffa20a04080123456789abcdef";

/// A reply with such a ticket.
const AS_REP: &str = "\
6b8194308191a003020105a10302010ba30d1b0b4558414d504c452e434f4da411300fa003020101\
a10830061b0475736572a55461523050a003020105a10d1b0b4558414d504c452e434f4da220301e\
a003020102a11730151b066b72627467741b0b4558414d504c452e434f4da3183016a003020112a1\
03020101a20a04080123456789abcdefa60d300ba003020111a204040200ff";

/// The request says what openssl was told, and is written back.
#[test]
fn a_request(rt: HostRuntime) -> Result<(), Fail> {
    let alloc = rt.alloc();
    let octets = hex::decode(alloc, AS_REQ)?;
    let request = read::<AsReq<'_>>(alloc, octets.as_slice())?;
    let message = request.as_inner();
    let body = &message.req_body;
    same(
        (message.pvno, message.msg_type, body.nonce, body.etype.len()),
        (5, 10, 1183735623, 3),
    )?;
    same(body.kdc_options.as_bytes(), &[0x40, 0x80, 0, 0x10])?;
    same(body.realm.as_inner().as_str(), "EXAMPLE.COM")?;
    same(body.till.as_datetime().year(), 2037)?;
    assert!(rt; body.from.is_none() && body.rtime.is_none() && body.addresses.is_some());
    writes(alloc, &request, octets.as_slice())
}

/// The reply has the ticket.
#[test]
fn a_reply(rt: HostRuntime) -> Result<(), Fail> {
    let alloc = rt.alloc();
    let octets = hex::decode(alloc, AS_REP)?;
    let reply = read::<AsRep<'_>>(alloc, octets.as_slice())?;
    let ticket = reply.as_inner().ticket.as_inner();
    same((ticket.tkt_vno, ticket.sname.name_type), (5, 2))?;
    same((ticket.enc_part.etype, ticket.enc_part.kvno), (18, Some(1)))?;
    same(
        ticket.enc_part.cipher,
        &[0x01, 0x23, 0x45, 0x67, 0x89, 0xab, 0xcd, 0xef],
    )?;
    writes(alloc, &reply, octets.as_slice())
}

/// A reply is no request, and none of TGS, whose tags have other numbers.
#[test]
fn other_messages(rt: HostRuntime) -> Result<(), Fail> {
    let alloc = rt.alloc();
    let octets = hex::decode(alloc, AS_REP)?;
    let found = ParseErrorKind::UnexpectedTag {
        actual: Tag::new(11, TagClass::Application, true),
    };
    same(refused::<AsReq<'_>>(alloc, octets.as_slice()), Some(found))?;
    same(refused::<TgsRep<'_>>(alloc, octets.as_slice()), Some(found))?;
    same(refused::<Ticket<'_>>(alloc, octets.as_slice()), Some(found))
}
