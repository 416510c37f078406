//! Character strings: the original's cases, values from outside, and what is rejected.

use crate::simple_types::made::{is_hashed, is_made};
use asn1_core::{ParseErrorKind, Tag};
use asn1_values::values::{
    BMPString, IA5String, PrintableString, UniversalString, Utf8String, VisibleString,
};
use std::alloc::Global;
use std::fmt::Debug;
use std::test::Fail;
use testing::{are_invalid, are_refused, different, is_shown, read, same};

const OTHER: &str = "characters of another type";

/// 128 letters.
const LONG: &str = "xxxxxxxxxxxxxxxxxxxxxxxxxxxxxxxxxxxxxxxxxxxxxxxxxxxxxxxxxxxxxxxx\
    xxxxxxxxxxxxxxxxxxxxxxxxxxxxxxxxxxxxxxxxxxxxxxxxxxxxxxxxxxxxxxxx";

/// The value is shown as this text, and equals its copy.
fn is_shown_and_copied<T: Debug + Clone + PartialEq + Drop>(
    alloc: Global,
    value: &T,
    text: &str,
) -> Result<(), Fail> {
    is_shown(alloc, value, text)?;
    same(&value.clone()?, value)
}

#[test]
fn printable_strings(rt: HostRuntime) -> Result<(), Fail> {
    const ROWS: &[(&str, &[u8])] = &[
        ("abc", b"\x13\x03abc"),
        (")", b"\x13\x01)"),
        ("", b"\x13\x00"),
        (" ", b"\x13\x01 "),
        ("Test User 1", b"\x13\x0bTest User 1"),
        (
            LONG,
            b"\x13\x81\x80xxxxxxxxxxxxxxxxxxxxxxxxxxxxxxxxxxxxxxxxxxxxxxxxxxxxxxxxxxxxxxxx\
            xxxxxxxxxxxxxxxxxxxxxxxxxxxxxxxxxxxxxxxxxxxxxxxxxxxxxxxxxxxxxxxx",
        ),
    ];
    for (characters, text) in ROWS {
        let value = PrintableString::new(characters).ok_or(OTHER)?;
        same(value.as_str(), *characters)?;
        is_hashed(rt.alloc(), value, text)?;
    }
    Ok(())
}

#[test]
fn other_characters_are_not_printable(rt: HostRuntime) -> Result<(), Fail> {
    are_invalid::<PrintableString<'_>>(
        rt.alloc(),
        &[&[0x13, 0x03, 0x61, 0x62, 0x00], &[0x13, 0x01, 0x25]],
    )?;
    let all = "ABCDEFGHIJKLMNOPQRSTUVWXYZabcdefghijklmnopqrstuvwxyz0123456789 '()+,-./:=?";
    let found = (
        PrintableString::new("%").is_some(),
        PrintableString::new("\0").is_some(),
        PrintableString::new(all).is_some(),
    );
    same(found, (false, false, true))
}

#[test]
fn ia5_strings(rt: HostRuntime) -> Result<(), Fail> {
    const ROWS: &[(&str, &[u8])] = &[
        ("abc", b"\x16\x03abc"),
        (")", b"\x16\x01)"),
        ("", b"\x16\x00"),
        (" ", b"\x16\x01 "),
        ("Test User 1", b"\x16\x0bTest User 1"),
        (
            LONG,
            b"\x16\x81\x80xxxxxxxxxxxxxxxxxxxxxxxxxxxxxxxxxxxxxxxxxxxxxxxxxxxxxxxxxxxxxxxx\
            xxxxxxxxxxxxxxxxxxxxxxxxxxxxxxxxxxxxxxxxxxxxxxxxxxxxxxxxxxxxxxxx",
        ),
    ];
    for (characters, text) in ROWS {
        let value = IA5String::new(characters).ok_or(OTHER)?;
        same(value.as_str(), *characters)?;
        is_made(rt.alloc(), value, text)?;
    }
    Ok(())
}

#[test]
fn other_characters_are_not_ascii(rt: HostRuntime) -> Result<(), Fail> {
    are_invalid::<IA5String<'_>>(
        rt.alloc(),
        &[&[0x16, 0x03, 0x61, 0x62, 0xff], &[0x16, 0x01, 0x80]],
    )?;
    let found = (IA5String::new("%").is_some(), IA5String::new("😄").is_some());
    same(found, (true, false))?;
    let delete = read::<IA5String<'_>>(rt.alloc(), &[0x16, 0x01, 0x7f])?;
    same(delete.as_str(), "\x7f")
}

#[test]
fn visible_strings(rt: HostRuntime) -> Result<(), Fail> {
    const ROWS: &[(&str, &[u8])] = &[
        // The example of X.690 8.23.
        ("Jones", b"\x1a\x05Jones"),
        ("abc", b"\x1a\x03abc"),
        (")", b"\x1a\x01)"),
        ("", b"\x1a\x00"),
        (" ", b"\x1a\x01 "),
        ("Test User 1", b"\x1a\x0bTest User 1"),
        (
            LONG,
            b"\x1a\x81\x80xxxxxxxxxxxxxxxxxxxxxxxxxxxxxxxxxxxxxxxxxxxxxxxxxxxxxxxxxxxxxxxx\
            xxxxxxxxxxxxxxxxxxxxxxxxxxxxxxxxxxxxxxxxxxxxxxxxxxxxxxxxxxxxxxxx",
        ),
    ];
    for (characters, text) in ROWS {
        let value = VisibleString::new(characters).ok_or(OTHER)?;
        same(value.as_str(), *characters)?;
        is_made(rt.alloc(), value, text)?;
    }
    Ok(())
}

#[test]
fn other_characters_are_not_visible(rt: HostRuntime) -> Result<(), Fail> {
    are_invalid::<VisibleString<'_>>(
        rt.alloc(),
        &[
            &[0x1a, 0x01, 0x0a],
            &[0x1a, 0x01, 0x7f],
            &[0x1a, 0x01, 0x1f],
        ],
    )?;
    let found = (
        VisibleString::new("\n").is_some(),
        VisibleString::new("~").is_some(),
    );
    same(found, (false, true))
}

/// The encodings of "Jones" in X.690 8.23 that DER forbids: in parts (10.2), and with a long length (10.1).
#[test]
fn visible_strings_have_one_form(rt: HostRuntime) -> Result<(), Fail> {
    are_refused::<VisibleString<'_>>(
        rt.alloc(),
        &[
            (
                b"\x3a\x80\x04\x03Jon\x04\x02es\x00\x00",
                ParseErrorKind::InvalidLength,
            ),
            (
                b"\x3a\x09\x04\x03Jon\x04\x02es",
                ParseErrorKind::UnexpectedTag {
                    actual: Tag::constructed(0x1a),
                },
            ),
            (b"\x1a\x81\x05Jones", ParseErrorKind::InvalidLength),
        ],
    )
}

#[test]
fn utf8_strings(rt: HostRuntime) -> Result<(), Fail> {
    const ROWS: &[(&str, &[u8])] = &[
        ("abc", b"\x0c\x03abc"),
        (")", b"\x0c\x01)"),
        ("", b"\x0c\x00"),
        (" ", b"\x0c\x01 "),
        ("Test User 1", b"\x0c\x0bTest User 1"),
        (
            LONG,
            b"\x0c\x81\x80xxxxxxxxxxxxxxxxxxxxxxxxxxxxxxxxxxxxxxxxxxxxxxxxxxxxxxxxxxxxxxxx\
            xxxxxxxxxxxxxxxxxxxxxxxxxxxxxxxxxxxxxxxxxxxxxxxxxxxxxxxxxxxxxxxx",
        ),
    ];
    for (characters, text) in ROWS {
        let value = Utf8String::new(characters);
        same(value.as_str(), *characters)?;
        is_hashed(rt.alloc(), value, text)?;
    }
    Ok(())
}

#[test]
fn other_octets_are_not_utf8(rt: HostRuntime) -> Result<(), Fail> {
    are_invalid::<Utf8String<'_>>(
        rt.alloc(),
        &[&[0x0c, 0x01, 0xff], &[0x0c, 0x02, 0xc3, 0x28]],
    )?;
    let smile = read::<Utf8String<'_>>(rt.alloc(), &[0x0c, 0x04, 0xf0, 0x9f, 0x98, 0x84])?;
    same(smile.as_str(), "😄")
}

#[test]
fn bmp_strings(rt: HostRuntime) -> Result<(), Fail> {
    const ROWS: &[(&[u8], &[u8])] = &[
        (
            &[0x1e, 0x06, 0x00, 0x61, 0x00, 0x62, 0x00, 0x63],
            &[0x00, 0x61, 0x00, 0x62, 0x00, 0x63],
        ),
        (
            &[0x1e, 0x04, 0xd8, 0x00, 0xdc, 0x00],
            &[0xd8, 0x00, 0xdc, 0x00],
        ),
        (&[0x1e, 0x02, 0x00, 0x61], &[0x00, 0x61]),
        (&[0x1e, 0x00], &[]),
    ];
    for (text, octets) in ROWS {
        let value = BMPString::new(octets).ok_or(OTHER)?;
        same(value.as_utf16_be_bytes(), *octets)?;
        is_hashed(rt.alloc(), value, text)?;
    }
    Ok(())
}

#[test]
fn other_octets_are_no_bmp_string(rt: HostRuntime) -> Result<(), Fail> {
    const REFUSED: &[&[u8]] = &[
        &[0x1e, 0x01, 0x61],
        &[0x1e, 0x04, 0xde, 0x7c, 0x58, 0x40],
        &[0x1e, 0x02, 0xde, 0x58],
        &[0x1e, 0x02, 0xd8, 0x00],
        &[0x1e, 0x04, 0xd8, 0x00, 0xd8, 0x00],
        &[0x1e, 0x03, 0xd8, 0x00, 0xdc],
    ];
    for text in REFUSED {
        same(&BMPString::new(text.get(2..).unwrap_or(&[])), &None)?;
    }
    are_invalid::<BMPString<'_>>(rt.alloc(), REFUSED)
}

#[test]
fn universal_strings(rt: HostRuntime) -> Result<(), Fail> {
    const ROWS: &[(&[u8], &[u8])] = &[
        (
            &[
                0x1c, 0x0c, 0x00, 0x00, 0x00, 0x61, 0x00, 0x00, 0x00, 0x62, 0x00, 0x00, 0x00, 0x63,
            ],
            &[
                0x00, 0x00, 0x00, 0x61, 0x00, 0x00, 0x00, 0x62, 0x00, 0x00, 0x00, 0x63,
            ],
        ),
        (
            &[0x1c, 0x04, 0x00, 0x10, 0xff, 0xff],
            &[0x00, 0x10, 0xff, 0xff],
        ),
        (
            &[0x1c, 0x04, 0x00, 0x00, 0x00, 0x61],
            &[0x00, 0x00, 0x00, 0x61],
        ),
        (&[0x1c, 0x00], &[]),
    ];
    for (text, octets) in ROWS {
        let value = UniversalString::new(octets).ok_or(OTHER)?;
        same(value.as_utf32_be_bytes(), *octets)?;
        is_hashed(rt.alloc(), value, text)?;
    }
    Ok(())
}

#[test]
fn other_octets_are_no_universal_string(rt: HostRuntime) -> Result<(), Fail> {
    const REFUSED: &[&[u8]] = &[
        &[0x1c, 0x01, 0x61],
        &[0x1c, 0x02, 0x61, 0x62],
        &[0x1c, 0x03, 0x61, 0x62, 0x63],
        &[0x1c, 0x04, 0x96, 0x8c, 0xea, 0x55],
        &[0x1c, 0x04, 0x00, 0x11, 0x00, 0x00],
        &[0x1c, 0x04, 0x00, 0x00, 0xd8, 0x00],
    ];
    for text in REFUSED {
        same(&UniversalString::new(text.get(2..).unwrap_or(&[])), &None)?;
    }
    are_invalid::<UniversalString<'_>>(rt.alloc(), REFUSED)
}

#[test]
fn texts_of_single_octets_are_shown_and_copied(rt: HostRuntime) -> Result<(), Fail> {
    let alloc = rt.alloc();
    let printable = PrintableString::new("a b").ok_or(OTHER)?;
    is_shown_and_copied(alloc, &printable, "PrintableString(\"a b\")")?;
    let ia5 = IA5String::new("\n").ok_or(OTHER)?;
    is_shown_and_copied(alloc, &ia5, "IA5String(\"\\n\")")?;
    let visible = VisibleString::new("~").ok_or(OTHER)?;
    is_shown_and_copied(alloc, &visible, "VisibleString(\"~\")")
}

#[test]
fn texts_of_several_octets_are_shown_and_copied(rt: HostRuntime) -> Result<(), Fail> {
    let alloc = rt.alloc();
    let utf8 = Utf8String::new("ü");
    is_shown_and_copied(alloc, &utf8, "Utf8String(\"ü\")")?;
    let bmp = BMPString::new(&[0, 97]).ok_or(OTHER)?;
    is_shown_and_copied(alloc, &bmp, "BMPString([0, 97])")?;
    let universal = UniversalString::new(&[0, 0, 0, 97]).ok_or(OTHER)?;
    is_shown_and_copied(alloc, &universal, "UniversalString([0, 0, 0, 97])")
}

/// Character strings that differ: in one character, in letters' case, in length, in the order of characters.
const DIFFERENT: &[(&str, &str)] = &[
    ("abc", "abd"),
    ("abc", "aBc"),
    ("abc", "ab"),
    ("", " "),
    ("ab", "ba"),
];

/// Both values are there, and they differ.
fn are_apart<T: PartialEq + Debug + Drop>(left: Option<T>, right: Option<T>) -> Result<(), Fail> {
    different(&left.ok_or(OTHER)?, &right.ok_or(OTHER)?)
}

#[test]
fn other_texts_are_unequal() -> Result<(), Fail> {
    for (text, other) in DIFFERENT {
        are_apart(PrintableString::new(text), PrintableString::new(other))?;
        are_apart(IA5String::new(text), IA5String::new(other))?;
        are_apart(VisibleString::new(text), VisibleString::new(other))?;
        different(&Utf8String::new(text), &Utf8String::new(other))?;
    }
    different(&Utf8String::new("ü"), &Utf8String::new("u"))
}

#[test]
fn other_wide_texts_are_unequal() -> Result<(), Fail> {
    const ROWS: &[(&[u8], &[u8])] = &[
        (&[0x00, 0x00, 0x00, 0x61], &[0x00, 0x00, 0x00, 0x62]),
        (&[0x00, 0x00, 0x00, 0x61], &[0x00, 0x01, 0x00, 0x61]),
        (&[0x00, 0x00, 0x00, 0x61], &[]),
        (
            &[0x00, 0x00, 0x00, 0x61],
            &[0x00, 0x00, 0x00, 0x61, 0x00, 0x00, 0x00, 0x61],
        ),
    ];
    for (octets, other) in ROWS {
        are_apart(BMPString::new(octets), BMPString::new(other))?;
        are_apart(UniversalString::new(octets), UniversalString::new(other))?;
    }
    Ok(())
}
