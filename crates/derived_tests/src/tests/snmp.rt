//! SNMPv3 messages that openssl made of the ASN.1 of RFC 3412, RFC 3414 and RFC 3416 (`openssl asn1parse -genconf`).

use super::{is_at, refusal, writes};
use crate::snmp::{ObjectSyntax, Pdus, ScopedPduData, SnmpV3Message};
use asn1::{ParseErrorKind, Tag, TagClass};
use std::test::Fail;
use testing::{read, same};

/// A response of thirteen values, one of each kind.
const RESPONSE: &str = "\
3082016802010330110204499602d2020300ffe304010402010304323030040d80001f8880e96300\
00d61ff449020111020500ffffffff040561646d696e040c00000000000000000000000004003082\
011a040d80001f8880e9630000d61ff4490400a28201050204800000000201000201003081f6300f\
060a2b0601020102020107010201ff301206082b060102010101000406526f75746572301606082b\
06010201010200060a2b06010401bf0803020a3012060a2b0601020104140101014004c000020130\
13060a2b060102010202010a01410500ffffffff3012060a2b060102010202010501420405f5e100\
301006082b0601020101030043040083d6003016060b2b060104018f650a01060144079f78043e99\
999a3018060b2b060102011f0101010601460900ffffffffffffffff300c06082b06010201010400\
0500300c06082b060102010105008000300c06082b060102010106008100300c06082b0601020101\
09008200";

/// A request for ten values behind one without a value.
const GET_BULK: &str = "\
307802010330110204499602d2020300ffe304010402010304323030040d80001f8880e9630000d6\
1ff449020111020500ffffffff040561646d696e040c0000000000000000000000000400302c040d\
80001f8880e9630000d61ff4490400a51902010702010102010a300e300c06082b06010201010400\
0500";

/// The name of a value's kind, and the number that it is or how many octets it has.
fn kind_of(value: &ObjectSyntax<'_>) -> (&'static str, i128) {
    match value {
        ObjectSyntax::Integer(number) => ("integer", i128::from(*number)),
        ObjectSyntax::String(octets) => ("string", octets.len() as i128),
        ObjectSyntax::ObjectId(identifier) => ("objectID", identifier.as_der().len() as i128),
        ObjectSyntax::IpAddress(octets) => ("ipAddress", octets.as_inner().len() as i128),
        ObjectSyntax::Counter(number) => ("counter", i128::from(*number.as_inner())),
        ObjectSyntax::Unsigned(number) => ("unsigned", i128::from(*number.as_inner())),
        ObjectSyntax::TimeTicks(number) => ("timeticks", i128::from(*number.as_inner())),
        ObjectSyntax::Arbitrary(octets) => ("arbitrary", octets.as_inner().len() as i128),
        ObjectSyntax::BigCounter(number) => ("big-counter", i128::from(*number.as_inner())),
        ObjectSyntax::UnSpecified(_) => ("unSpecified", 0),
        ObjectSyntax::NoSuchObject(_) => ("noSuchObject", 0),
        ObjectSyntax::NoSuchInstance(_) => ("noSuchInstance", 0),
        ObjectSyntax::EndOfMibView(_) => ("endOfMibView", 0),
    }
}

/// What the response's values are, in their order.
const VALUES: [(&str, i128); 13] = [
    ("integer", -1),
    ("string", 6),
    ("objectID", 10),
    ("ipAddress", 4),
    ("counter", 4294967295),
    ("unsigned", 100000000),
    ("timeticks", 8640000),
    ("arbitrary", 7),
    ("big-counter", 18446744073709551615),
    ("unSpecified", 0),
    ("noSuchObject", 0),
    ("noSuchInstance", 0),
    ("endOfMibView", 0),
];

/// The PDU of a message that isn't encrypted.
fn pdu_of<'b, 'a>(message: &'b SnmpV3Message<'a>) -> Result<&'b Pdus<'a>, Fail> {
    match &message.msg_data {
        ScopedPduData::Plaintext(scoped) => Ok(&scoped.pdus),
        ScopedPduData::EncryptedPdu(_) => Err(Fail::new(format_args!("it is encrypted"))),
    }
}

/// The response says what openssl was told, and is written back.
#[test]
fn a_response(rt: HostRuntime) -> Result<(), Fail> {
    let alloc = rt.alloc();
    let octets = hex::decode(alloc, RESPONSE)?;
    let message = read::<SnmpV3Message<'_>>(alloc, octets.as_slice())?;
    let security = message.msg_security_parameters.get();
    same(
        (
            message.msg_version,
            security.msg_authoritative_engine_boots,
            security.msg_authoritative_engine_time,
        ),
        (3, 17, 4294967295),
    )?;
    same(security.msg_user_name, b"admin")?;
    let Pdus::Response(response) = pdu_of(&message)? else {
        return Err(Fail::new(format_args!("it is no response")));
    };
    same(
        (response.request_id, response.error_status),
        (-2147483648, 0),
    )?;
    let mut values = VALUES.iter().copied();
    for binding in response.variable_bindings.clone()? {
        same(Some(kind_of(&binding?.value)), values.next())?;
    }
    same(values.next(), None)?;
    writes(alloc, &message, octets.as_slice())
}

/// The request, whose PDU is of another type than those of the others.
#[test]
fn a_request_for_many(rt: HostRuntime) -> Result<(), Fail> {
    let alloc = rt.alloc();
    let octets = hex::decode(alloc, GET_BULK)?;
    let message = read::<SnmpV3Message<'_>>(alloc, octets.as_slice())?;
    let Pdus::GetBulkRequest(request) = pdu_of(&message)? else {
        return Err(Fail::new(format_args!("it is no request for many")));
    };
    same(
        (
            request.request_id,
            request.non_repeaters,
            request.max_repetitions,
        ),
        (7, 1, 10),
    )?;
    writes(alloc, &message, octets.as_slice())
}

/// The value of a variable under a tag that no kind has, application 5, is rejected where it is.
#[test]
fn a_value_of_no_kind(rt: HostRuntime) -> Result<(), Fail> {
    let alloc = rt.alloc();
    let value = &[0x45, 1, 0];
    let actual = Tag::new(5, TagClass::Application, false);
    is_at(
        refusal::<ObjectSyntax<'_>>(alloc, value),
        "",
        ParseErrorKind::UnexpectedTag { actual },
    )
}
