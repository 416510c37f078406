use asn1_core::parser::ParseErrorKind;
use asn1_core::tag::Tag;
use asn1_core::types::{Asn1Readable, Asn1Writable, SimpleAsn1Writable, is_integer_content};
use asn1_core::writer::WriteError;
use std::alloc::Global;
use std::num::{
    NonZeroI8, NonZeroI16, NonZeroI32, NonZeroI64, NonZeroU8, NonZeroU16, NonZeroU32, NonZeroU64,
    TryFromIntError,
};
use std::test::Fail;
use testing::{
    are_both_ways, are_refused, both_ways, is_refusal, is_written, read, repeated, same, same_at,
};

const INVALID: ParseErrorKind = ParseErrorKind::InvalidValue;

const OVERFLOW: ParseErrorKind = ParseErrorKind::IntegerOverflow;

const SHORT: ParseErrorKind = ParseErrorKind::ShortData { needed: 1 };

/// The encoding of 2^65, which no type here has.
const TWO_TO_65: &[u8] = &[
    0x02, 0x09, 0x02, 0x00, 0x00, 0x00, 0x00, 0x00, 0x00, 0x00, 0x00,
];

/// Each number is read and written by its encoding, and written so as a `NonZero` number too. Only 0 is none.
fn compare<
    'a,
    N: Asn1Readable<'a> + Asn1Writable<Error = WriteError> + PartialEq + Copy,
    T: Asn1Writable<Error = WriteError> + TryFrom<N, Error = TryFromIntError> + Copy,
>(alloc: Global, rows: &[(N, &'a [u8])]) -> Result<(), Fail>
    requires { (number : T) → T.der.closures (T.der.meaning number) }
{
    are_both_ways(alloc, rows)?;
    for (number, octets) in rows {
        match T::try_from(*number) {
            Ok(other) => is_written(alloc, &other, octets)?,
            Err(_) => same(*octets, &[0x02, 0x01, 0x00])?,
        }
    }
    Ok(())
}

const OF_I64: &[(i64, &[u8])] = &[
    (0, &[0x02, 0x01, 0x00]),
    (1, &[0x02, 0x01, 0x01]),
    (127, &[0x02, 0x01, 0x7f]),
    (128, &[0x02, 0x02, 0x00, 0x80]),
    (255, &[0x02, 0x02, 0x00, 0xff]),
    (256, &[0x02, 0x02, 0x01, 0x00]),
    (-1, &[0x02, 0x01, 0xff]),
    (-128, &[0x02, 0x01, 0x80]),
    (-129, &[0x02, 0x02, 0xff, 0x7f]),
    (-256, &[0x02, 0x02, 0xff, 0x00]),
    (
        i64::MAX,
        &[0x02, 0x08, 0x7f, 0xff, 0xff, 0xff, 0xff, 0xff, 0xff, 0xff],
    ),
    (
        i64::MIN,
        &[0x02, 0x08, 0x80, 0x00, 0x00, 0x00, 0x00, 0x00, 0x00, 0x00],
    ),
    (-65536, &[0x02, 0x03, 0xff, 0x00, 0x00]),
];

const OF_I32: &[(i32, &[u8])] = &[
    (0, &[0x02, 0x01, 0x00]),
    (1, &[0x02, 0x01, 0x01]),
    (127, &[0x02, 0x01, 0x7f]),
    (128, &[0x02, 0x02, 0x00, 0x80]),
    (255, &[0x02, 0x02, 0x00, 0xff]),
    (256, &[0x02, 0x02, 0x01, 0x00]),
    (-1, &[0x02, 0x01, 0xff]),
    (-128, &[0x02, 0x01, 0x80]),
    (-129, &[0x02, 0x02, 0xff, 0x7f]),
    (-256, &[0x02, 0x02, 0xff, 0x00]),
    (i32::MAX, &[0x02, 0x04, 0x7f, 0xff, 0xff, 0xff]),
    (i32::MIN, &[0x02, 0x04, 0x80, 0x00, 0x00, 0x00]),
];

#[test]
fn long_numbers(rt: HostRuntime) -> Result<(), Fail> {
    compare::<i64, NonZeroI64>(rt.alloc(), OF_I64)?;
    compare::<i32, NonZeroI32>(rt.alloc(), OF_I32)
}

/// A number outside the range of its type is rejected with `IntegerOverflow`, and no octets with `InvalidValue`.
#[test]
fn other_texts_are_no_long_number(rt: HostRuntime) -> Result<(), Fail> {
    are_refused::<i64>(
        rt.alloc(),
        &[
            (&[0x02, 0x02, 0x00], SHORT),
            (&[], SHORT),
            (&[0x02], SHORT),
            (TWO_TO_65, OVERFLOW),
            (
                &[
                    0x02, 0x09, 0x00, 0xd0, 0x07, 0x04, 0x00, 0x03, 0x31, 0x31, 0x00,
                ],
                OVERFLOW,
            ),
            (
                &[
                    0x02, 0x09, 0x00, 0x80, 0x00, 0x00, 0x00, 0x00, 0x00, 0x00, 0x00,
                ],
                OVERFLOW,
            ),
            (
                &[
                    0x02, 0x09, 0xff, 0x7f, 0xff, 0xff, 0xff, 0xff, 0xff, 0xff, 0xff,
                ],
                OVERFLOW,
            ),
            (
                &[
                    0x02, 0x0a, 0x80, 0x00, 0x00, 0x00, 0x00, 0x00, 0x00, 0x00, 0x00, 0x00,
                ],
                OVERFLOW,
            ),
            (&[0x02, 0x05, 0x00, 0x00, 0x00, 0x00, 0x01], INVALID),
            (&[0x02, 0x02, 0xff, 0x80], INVALID),
            (&[0x02, 0x00], INVALID),
            (&[0x02, 0x02, 0x00, 0x01], INVALID),
            (&[0x02, 0x02, 0x00, 0x7f], INVALID),
            (&[0x02, 0x02, 0xff, 0xff], INVALID),
        ],
    )?;
    are_refused::<i32>(
        rt.alloc(),
        &[
            (&[0x02, 0x02, 0x00], SHORT),
            (&[], SHORT),
            (&[0x02], SHORT),
            (TWO_TO_65, OVERFLOW),
            (&[0x02, 0x05, 0x00, 0x80, 0x00, 0x00, 0x00], OVERFLOW),
            (&[0x02, 0x05, 0x00, 0x00, 0x00, 0x00, 0x01], INVALID),
            (&[0x02, 0x02, 0xff, 0x80], INVALID),
            (&[0x02, 0x00], INVALID),
        ],
    )
}

#[test]
fn other_tags_are_no_number(rt: HostRuntime) -> Result<(), Fail> {
    let actual = Tag::primitive(3);
    let kind = ParseErrorKind::UnexpectedTag { actual };
    is_refusal(read::<i64>(rt.alloc(), &[0x03, 0x00]), kind)?;
    is_refusal(read::<i32>(rt.alloc(), &[0x03, 0x00]), kind)
}

const OF_I16: &[(i16, &[u8])] = &[
    (0, &[0x02, 0x01, 0x00]),
    (1, &[0x02, 0x01, 0x01]),
    (-256, &[0x02, 0x02, 0xff, 0x00]),
    (-1, &[0x02, 0x01, 0xff]),
    (-32768, &[0x02, 0x02, 0x80, 0x00]),
    (32767, &[0x02, 0x02, 0x7f, 0xff]),
];

const OF_I8: &[(i8, &[u8])] = &[
    (0, &[0x02, 0x01, 0x00]),
    (1, &[0x02, 0x01, 0x01]),
    (127, &[0x02, 0x01, 0x7f]),
    (-1, &[0x02, 0x01, 0xff]),
    (-128, &[0x02, 0x01, 0x80]),
];

#[test]
fn short_signed_numbers(rt: HostRuntime) -> Result<(), Fail> {
    compare::<i16, NonZeroI16>(rt.alloc(), OF_I16)?;
    compare::<i8, NonZeroI8>(rt.alloc(), OF_I8)?;
    are_refused::<i16>(rt.alloc(), &[(&[0x02, 0x03, 0x80, 0x00, 0x00], OVERFLOW)])?;
    are_refused::<i8>(
        rt.alloc(),
        &[
            (&[0x02, 0x02, 0x02, 0x00], OVERFLOW),
            (&[0x02, 0x02, 0xff, 0x7f], OVERFLOW),
            (&[0x02, 0x02, 0x00, 0x80], OVERFLOW),
            (&[0x02, 0x00], INVALID),
        ],
    )
}

const OF_U64: &[(u64, &[u8])] = &[
    (1, &[0x02, 0x01, 0x01]),
    (
        12356915591483590945,
        &[
            0x02, 0x09, 0x00, 0xab, 0x7c, 0x95, 0x42, 0xbd, 0xdd, 0x89, 0x21,
        ],
    ),
    (
        u64::MAX,
        &[
            0x02, 0x09, 0x00, 0xff, 0xff, 0xff, 0xff, 0xff, 0xff, 0xff, 0xff,
        ],
    ),
];

const OF_U32: &[(u32, &[u8])] = &[
    (1, &[0x02, 0x01, 0x01]),
    (256, &[0x02, 0x02, 0x01, 0x00]),
    (u32::MAX, &[0x02, 0x05, 0x00, 0xff, 0xff, 0xff, 0xff]),
];

const OF_U16: &[(u16, &[u8])] = &[
    (0, &[0x02, 0x01, 0x00]),
    (1, &[0x02, 0x01, 0x01]),
    (256, &[0x02, 0x02, 0x01, 0x00]),
    (65535, &[0x02, 0x03, 0x00, 0xff, 0xff]),
];

const OF_U8: &[(u8, &[u8])] = &[
    (0, &[0x02, 0x01, 0x00]),
    (1, &[0x02, 0x01, 0x01]),
    (127, &[0x02, 0x01, 0x7f]),
    (128, &[0x02, 0x02, 0x00, 0x80]),
    (255, &[0x02, 0x02, 0x00, 0xff]),
];

#[test]
fn unsigned_numbers(rt: HostRuntime) -> Result<(), Fail> {
    compare::<u64, NonZeroU64>(rt.alloc(), OF_U64)?;
    compare::<u32, NonZeroU32>(rt.alloc(), OF_U32)?;
    compare::<u16, NonZeroU16>(rt.alloc(), OF_U16)?;
    compare::<u8, NonZeroU8>(rt.alloc(), OF_U8)
}

/// A negative number is no value of an unsigned type.
#[test]
fn unsigned_numbers_have_no_sign(rt: HostRuntime) -> Result<(), Fail> {
    are_refused::<u64>(
        rt.alloc(),
        &[
            (&[0x02, 0x01, 0xff], INVALID),
            (TWO_TO_65, OVERFLOW),
            (
                &[
                    0x02, 0x09, 0x01, 0x00, 0x00, 0x00, 0x00, 0x00, 0x00, 0x00, 0x00,
                ],
                OVERFLOW,
            ),
            (
                &[
                    0x02, 0x09, 0xff, 0x7f, 0x00, 0x00, 0x00, 0x00, 0x00, 0x00, 0x00,
                ],
                INVALID,
            ),
            (&[0x02, 0x02, 0x00, 0x01], INVALID),
        ],
    )?;
    are_refused::<u32>(
        rt.alloc(),
        &[(&[0x02, 0x05, 0x01, 0x00, 0x00, 0x00, 0x00], OVERFLOW)],
    )?;
    are_refused::<u16>(rt.alloc(), &[(&[0x02, 0x03, 0x01, 0x00, 0x00], OVERFLOW)])?;
    are_refused::<u8>(
        rt.alloc(),
        &[
            (&[0x02, 0x02, 0x01, 0x00], OVERFLOW),
            (&[0x02, 0x01, 0x80], INVALID),
            (&[0x02, 0x02, 0xff, 0x00], INVALID),
        ],
    )
}

/// A value in a box is read and written as the value.
#[test]
fn boxes_hold_values(rt: HostRuntime) -> Result<(), Fail> {
    let alloc = rt.alloc();
    same(*read::<Box<u8>>(alloc, &[0x02, 0x01, 0x0c])?, 12)?;
    both_ways(alloc, Box::new(alloc, 12u8)?, &[0x02, 0x01, 0x0c])?;
    both_ways(alloc, Box::new(alloc, 0u8)?, &[0x02, 0x01, 0x00])?;
    both_ways(alloc, Box::new(alloc, true)?, &[0x01, 0x01, 0xff])?;
    are_refused::<Box<u8>>(alloc, &[(&[0x02, 0x01, 0x80], INVALID)])
}

/// A box of 300 contents octets.
#[test]
fn boxes_hold_large_values(rt: HostRuntime) -> Result<(), Fail> {
    let alloc = rt.alloc();
    let octets = repeated(alloc, &[0x04, 0x82, 0x01, 0x2c], &[0x61], 300)?;
    both_ways(alloc, Box::new(alloc, [0x61u8; 300])?, octets.as_slice())
}

/// The lengths are known before a value in a box, or behind a reference, is written.
#[test]
fn lengths_of_boxes_are_known(rt: HostRuntime) -> Result<(), Fail> {
    let boxed = Box::new(rt.alloc(), 128u8)?;
    let lengths = (boxed.data_length(), boxed.encoded_length());
    same(lengths, (Some(2), Some(4)))?;
    let seen = &-129i64;
    let lengths = ((&seen).data_length(), (&seen).encoded_length());
    same(lengths, (Some(2), Some(4)))?;
    is_written(rt.alloc(), &&12i64, &[0x02, 0x01, 0x0c])
}

#[test]
fn contents_are_tested() -> Result<(), Fail> {
    const CONTENTS: &[(&[u8], bool)] = &[
        (&[0x00], true),
        (&[0x00, 0x80], true),
        (&[], false),
        (&[0x00, 0x7f], false),
        (&[0xff, 0x80], false),
    ];
    for (content, is_right) in CONTENTS {
        same_at(*content, is_integer_content(content), *is_right)?;
    }
    Ok(())
}
