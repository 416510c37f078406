//! Encodings of each type that are cut, and encodings in which one octet is changed.

use crate::lists::List;
use asn1::{
    BMPString, BigInt, BigUint, BitString, Choice1, Choice2, Choice3, Enumerated, Explicit,
    GeneralizedTime, IA5String, Implicit, Null, ObjectIdentifier, OctetStringEncoded, OwnedBigInt,
    OwnedBigUint, OwnedBitString, PrintableString, Sequence, SequenceOf, Set, SetOf, Tlv,
    UniversalString, UtcTime, Utf8String, VisibleString, X509GeneralizedTime,
};
use std::alloc::Global;
use std::test::Fail;
use testing::changed::{TWO_OCTETS, Text, check, check_all, check_optional, texts_of};

#[test]
fn truth_values_null_and_octets(rt: HostRuntime) -> Result<(), Fail> {
    let alloc = rt.alloc();
    check_all::<bool>(alloc, &[&[0x01, 0x01, 0xff], &[0x01, 0x01, 0x00]])?;
    check_all::<Null>(alloc, &[&[0x05, 0x00]])?;
    check_all::<[u8; 1]>(alloc, &[&[0x04, 0x01, 0x61]])?;
    check_all::<[u8; 3]>(alloc, &[&[0x04, 0x03, 0x61, 0x62, 0x63]])?;
    check_all::<&[u8]>(alloc, OCTETS)?;
    check_all::<Tlv<'_>>(alloc, OCTETS)
}

const OCTETS: &[&[u8]] = &[
    &[0x04, 0x00],
    &[0x04, 0x01, 0x61],
    &[0x04, 0x03, 0x61, 0x62, 0x63],
];

#[test]
fn signed_integers(rt: HostRuntime) -> Result<(), Fail> {
    let alloc = rt.alloc();
    check_all::<i8>(alloc, &[&[0x02, 0x01, 0x80], &[0x02, 0x01, 0x05]])?;
    check_all::<i16>(alloc, SIGNED)?;
    check_all::<i32>(alloc, SIGNED)?;
    check_all::<i64>(alloc, SIGNED)
}

const SIGNED: &[&[u8]] = &[
    &[0x02, 0x02, 0x80, 0x00],
    &[0x02, 0x02, 0xff, 0x7f],
    &[0x02, 0x02, 0x00, 0x80],
];

#[test]
fn unsigned_integers(rt: HostRuntime) -> Result<(), Fail> {
    let alloc = rt.alloc();
    check_all::<u8>(
        alloc,
        &[
            &[0x02, 0x02, 0x00, 0xff],
            &[0x02, 0x02, 0x00, 0x80],
            &[0x02, 0x01, 0x0c],
            &[0x02, 0x01, 0x05],
        ],
    )?;
    check_all::<u16>(alloc, SIXTEEN_BITS)?;
    check_all::<u32>(alloc, SIXTEEN_BITS)?;
    check_all::<u64>(
        alloc,
        &[
            b"\x02\x09\x00\xab\x7c\x95\x42\xbd\xdd\x89\x21",
            b"\x02\x09\x00\xff\xff\xff\xff\xff\xff\xff\xff",
        ],
    )
}

const SIXTEEN_BITS: &[&[u8]] = &[&[0x02, 0x03, 0x00, 0xff, 0xff], &[0x02, 0x02, 0x01, 0x00]];

#[test]
fn boxes_and_options(rt: HostRuntime) -> Result<(), Fail> {
    let alloc = rt.alloc();
    check_all::<Box<u8>>(alloc, TWELVE_AND_MORE)?;
    check_optional::<Option<u8>>(alloc, TWO_OCTETS, texts_of(alloc, TWELVE_AND_MORE)?)
}

const TWELVE_AND_MORE: &[&[u8]] = &[&[0x02, 0x01, 0x0c], &[0x02, 0x02, 0x00, 0x80]];

#[test]
fn integers_of_any_length(rt: HostRuntime) -> Result<(), Fail> {
    let alloc = rt.alloc();
    check_all::<BigUint<'_>>(alloc, NATURALS)?;
    check_all::<OwnedBigUint>(alloc, NATURALS)?;
    check_all::<BigInt<'_>>(alloc, NEGATIVE)?;
    check_all::<OwnedBigInt>(alloc, NEGATIVE)
}

const NATURALS: &[&[u8]] = &[
    &[0x02, 0x01, 0x00],
    &[0x02, 0x02, 0x00, 0x80],
    &[0x02, 0x03, 0x00, 0xff, 0xff],
];

const NEGATIVE: &[&[u8]] = &[
    &[0x02, 0x01, 0x80],
    &[0x02, 0x02, 0xff, 0x7f],
    &[0x02, 0x02, 0xff, 0x00],
    &[0x02, 0x01, 0xff],
    b"\x02\x0c\xff\x7f\xff\xff\xff\xff\xff\xff\xff\xff\xff\xff",
];

#[test]
fn enumerated_values_and_identifiers(rt: HostRuntime) -> Result<(), Fail> {
    let alloc = rt.alloc();
    check_all::<Enumerated>(
        alloc,
        &[
            &[0x0a, 0x01, 0x0c],
            &[0x0a, 0x02, 0x00, 0x80],
            &[0x0a, 0x05, 0x00, 0xff, 0xff, 0xff, 0xff],
        ],
    )?;
    check_all::<ObjectIdentifier>(
        alloc,
        &[
            &[0x06, 0x02, 0x2a, 0x03],
            &[0x06, 0x03, 0x2a, 0x03, 0x04],
            &[0x06, 0x03, 0x81, 0x34, 0x03],
            &[0x06, 0x06, 0x2a, 0x86, 0x48, 0x86, 0xf7, 0x0d],
            &[
                0x06, 0x13, 0x83, 0xff, 0xff, 0xff, 0xff, 0xff, 0xff, 0xff, 0xff, 0xff, 0xff, 0xff,
                0xff, 0xff, 0xff, 0xff, 0xff, 0xff, 0x7f,
            ],
        ],
    )
}

#[test]
fn bit_strings(rt: HostRuntime) -> Result<(), Fail> {
    check_all::<BitString<'_>>(rt.alloc(), BITS)?;
    check_all::<OwnedBitString>(rt.alloc(), BITS)
}

const BITS: &[&[u8]] = &[
    &[0x03, 0x01, 0x00],
    &[0x03, 0x02, 0x01, 0x7e],
    &[0x03, 0x03, 0x04, 0x81, 0xf0],
];

#[test]
fn texts(rt: HostRuntime) -> Result<(), Fail> {
    let alloc = rt.alloc();
    check_all::<PrintableString<'_>>(alloc, &[b"\x13\x0bTest User 1"])?;
    check_all::<IA5String<'_>>(alloc, &[&[0x16, 0x01, 0x7f], &[0x16, 0x02, 0x0a, 0x7f]])?;
    check_all::<VisibleString<'_>>(alloc, &[&[0x1a, 0x02, 0x20, 0x7e]])?;
    check_all::<Utf8String<'_>>(alloc, &[&[0x0c, 0x05, 0xe2, 0x82, 0xac, 0xc3, 0xa9]])?;
    check_all::<BMPString<'_>>(
        alloc,
        &[
            &[0x1e, 0x04, 0xd8, 0x00, 0xdc, 0x00],
            &[0x1e, 0x06, 0x00, 0x61, 0x00, 0x62, 0x00, 0x63],
        ],
    )?;
    check_all::<UniversalString<'_>>(alloc, &[&[0x1c, 0x04, 0x00, 0x10, 0xff, 0xff]])
}

#[test]
fn times(rt: HostRuntime) -> Result<(), Fail> {
    let alloc = rt.alloc();
    check_all::<UtcTime>(
        alloc,
        &[
            b"\x17\x0d910506234540Z",
            b"\x17\x0d500101000000Z",
            b"\x17\x0d491231235959Z",
            b"\x17\x0d091115225616Z",
        ],
    )?;
    check_all::<X509GeneralizedTime>(alloc, WHOLE_SECONDS)?;
    check_all::<GeneralizedTime>(alloc, WHOLE_SECONDS)?;
    check_all::<GeneralizedTime>(
        alloc,
        &[
            b"\x18\x1120090101000000.5Z",
            b"\x18\x1120091115225616.1Z",
            b"\x18\x1920091115225616.999999999Z",
            b"\x18\x1919910506234540.000001234Z",
        ],
    )
}

const WHOLE_SECONDS: &[&[u8]] = &[
    b"\x18\x0f20100102030405Z",
    b"\x18\x0f20000229000000Z",
    b"\x18\x0f19700101000000Z",
];

#[test]
fn values_in_tags(rt: HostRuntime) -> Result<(), Fail> {
    let alloc = rt.alloc();
    check_all::<Explicit<bool, 2>>(alloc, &[&[0xa2, 0x03, 0x01, 0x01, 0xff]])?;
    check_all::<Explicit<Option<bool>, 0>>(
        alloc,
        &[&[0xa0, 0x00], &[0xa0, 0x03, 0x01, 0x01, 0xff]],
    )?;
    check_all::<Implicit<bool, 2>>(alloc, &[&[0x82, 0x01, 0xff]])?;
    check_all::<Implicit<Sequence<'_>, 2>>(alloc, &[&[0xa2, 0x00], &[0xa2, 0x02, 0x05, 0x00]])?;
    check_all::<OctetStringEncoded<bool>>(alloc, &[&[0x04, 0x03, 0x01, 0x01, 0xff]])
}

#[test]
fn choices(rt: HostRuntime) -> Result<(), Fail> {
    let alloc = rt.alloc();
    check_all::<Choice1<bool>>(alloc, &[&[0x01, 0x01, 0xff]])?;
    check_all::<Choice2<bool, i64>>(alloc, &[&[0x01, 0x01, 0xff], &[0x02, 0x01, 0x12]])?;
    check_all::<Choice2<u8, u64>>(alloc, &[&[0x02, 0x01, 0x05]])?;
    check_all::<Choice3<bool, i64, ()>>(
        alloc,
        &[&[0x01, 0x01, 0xff], &[0x02, 0x01, 0x12], &[0x05, 0x00]],
    )
}

#[test]
fn sequences(rt: HostRuntime) -> Result<(), Fail> {
    let alloc = rt.alloc();
    check_all::<Sequence<'_>>(
        alloc,
        &[
            &[0x30, 0x00],
            &[0x30, 0x02, 0x05, 0x00],
            &[0x30, 0x06, 0x01, 0x01, 0xff, 0x02, 0x01, 0x06],
            &[
                0x30, 0x09, 0x02, 0x01, 0x01, 0x02, 0x01, 0x02, 0x02, 0x01, 0x03,
            ],
        ],
    )?;
    check_all::<SequenceOf<'_, u64, 2, 3>>(
        alloc,
        &[&[0x30, 0x06, 0x02, 0x01, 0x05, 0x02, 0x01, 0x07]],
    )?;
    check_all::<List<'_, Option<u8>>>(alloc, LISTS)?;
    check_all::<List<'_, BigInt<'_>>>(alloc, LISTS)
}

const LISTS: &[&[u8]] = &[
    &[0x30, 0x00],
    &[0x30, 0x03, 0x02, 0x01, 0x05],
    &[
        0x30, 0x09, 0x02, 0x01, 0x01, 0x02, 0x01, 0x02, 0x02, 0x01, 0x03,
    ],
];

#[test]
fn sets(rt: HostRuntime) -> Result<(), Fail> {
    let alloc = rt.alloc();
    check_all::<Set<'_>>(
        alloc,
        &[
            &[0x31, 0x00],
            &[0x31, 0x03, 0x01, 0x01, 0xff],
            &[0x31, 0x06, 0x02, 0x01, 0x01, 0x02, 0x01, 0x02],
            &[0x31, 0x06, 0x02, 0x01, 0x07, 0x02, 0x01, 0x05],
            &[0x31, 0x04, 0xa0, 0x00, 0x81, 0x00],
            &[
                0x31, 0x09, 0x9f, 0xff, 0x7f, 0x00, 0x9f, 0x81, 0x80, 0x00, 0x00,
            ],
            &[0x31, 0x08, 0xa0, 0x03, 0x01, 0x01, 0xff, 0x81, 0x01, 0xff],
        ],
    )?;
    check_all::<SetOf<'_, u64>>(alloc, SETS)?;
    check_all::<SetOf<'_, BigInt<'_>>>(alloc, SETS)?;
    check_all::<SetOf<'_, SetOf<'_, u8>>>(
        alloc,
        &[&[
            0x31, 0x0d, 0x31, 0x03, 0x02, 0x01, 0x01, 0x31, 0x06, 0x02, 0x01, 0x01, 0x02, 0x01,
            0x02,
        ]],
    )
}

const SETS: &[&[u8]] = &[
    &[0x31, 0x00],
    &[0x31, 0x06, 0x02, 0x01, 0x05, 0x02, 0x01, 0x07],
    &[0x31, 0x06, 0x02, 0x01, 0x05, 0x02, 0x01, 0x05],
    &[
        0x31, 0x09, 0x02, 0x01, 0x01, 0x02, 0x01, 0x02, 0x02, 0x01, 0x03,
    ],
    b"\x31\x0e\x02\x01\x01\x02\x01\x01\x02\x02\x00\xff\x02\x02\x01\x00",
];

#[test]
fn elements_with_long_tags(rt: HostRuntime) -> Result<(), Fail> {
    let alloc = rt.alloc();
    let five_octets = texts_of(alloc, &[&[0x1f, 0x81, 0x80, 0x01, 0x00]])?;
    check::<Tlv<'_>>(alloc, &[1; 5], five_octets)?;
    let seven_octets = texts_of(alloc, &[&[0x1f, 0x8f, 0xff, 0xff, 0xff, 0x7f, 0x00]])?;
    check::<Tlv<'_>>(alloc, &[1; 7], seven_octets)
}

/// An element of this many letters, of which no octet is changed.
fn long_text<'a>(alloc: Global, tag: u8, length: &[u8], count: usize) -> Result<&'a [Text], Fail> {
    let mut whole = Vec::from_slice(alloc, &[tag])?;
    whole.extend_from_slice(length)?;
    whole.extend_from_slice(vec![in alloc; b'a'; count]?.as_slice())?;
    let changed = Vec::new(alloc);
    let mut texts = Vec::new(alloc);
    texts.push(Text { whole, changed })?;
    Ok(texts.leak())
}

/// How many letters there are, their length's octets, and how many octets a prefix that ends in the header lacks.
const LONG: &[(usize, &[u8], &[usize])] = &[
    (127, &[0x7f], TWO_OCTETS),
    (128, &[0x81, 0x80], &[1, 1, 1]),
    (255, &[0x81, 0xff], &[1, 1, 1]),
    (256, &[0x82, 0x01, 0x00], &[1, 1, 2, 1]),
    (65535, &[0x82, 0xff, 0xff], &[1, 1, 2, 1]),
    (65536, &[0x83, 0x01, 0x00, 0x00], &[1, 1, 3, 2, 1]),
];

/// Octet strings, and sequences with these headers, are cut only.
#[test]
fn long_texts(rt: HostRuntime) -> Result<(), Fail> {
    let alloc = rt.alloc();
    for (count, length, needed) in LONG {
        check::<&[u8]>(alloc, needed, long_text(alloc, 0x04, length, *count)?)?;
        check::<Sequence<'_>>(alloc, needed, long_text(alloc, 0x30, length, *count)?)?;
    }
    Ok(())
}
