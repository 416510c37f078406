//! Errors of DER in words.

use crate::show::{escaped, marked};
use asn1::{BitString, ParseError, ParseErrorKind, Tag, TagClass, is_integer_content, strip_tlv};
use pkix::certificate::TbsCertificate;
use pkix::certificate::distribution::{DistributionPoint, IssuingDistributionPoint};
use pkix::certificate::extensions::BasicConstraints;
use pkix::common::{Attribute, AttributeTypeAndValue, Extension, OtherName};
use pkix::request::CertificationRequestInfo;
use std::alloc::{AllocError, Global};

/// Universal types by their identifier octets, in the words of X.680.
pub(crate) const UNIVERSAL: &[(u8, &str)] = &[
    (0x01, "BOOLEAN"),
    (0x02, "INTEGER"),
    (0x03, "BIT STRING"),
    (0x04, "OCTET STRING"),
    (0x05, "NULL"),
    (0x06, "OBJECT IDENTIFIER"),
    (0x0a, "ENUMERATED"),
    (0x0c, "UTF8String"),
    (0x30, "SEQUENCE"),
    (0x31, "SET"),
    (0x12, "NumericString"),
    (0x13, "PrintableString"),
    (0x14, "TeletexString"),
    (0x16, "IA5String"),
    (0x17, "UTCTime"),
    (0x18, "GeneralizedTime"),
    (0x1a, "VisibleString"),
    (0x1b, "GeneralString"),
    (0x1c, "UniversalString"),
    (0x1e, "BMPString"),
];

/// The fields whose names in ASN.1 are other than their words here with capitals.
const NAMES: &[&[(&str, &str)]] = &[
    Attribute::NAMES,
    AttributeTypeAndValue::NAMES,
    BasicConstraints::NAMES,
    CertificationRequestInfo::NAMES,
    DistributionPoint::NAMES,
    Extension::NAMES,
    IssuingDistributionPoint::NAMES,
    OtherName::NAMES,
    TbsCertificate::NAMES,
];

/// The universal type with this tag.
fn type_of(tag: Tag) -> Option<&'static str> {
    let row = UNIVERSAL.iter().find(|row| Some(row.0) == tag.as_u8())?;
    Some(row.1)
}

/// Appends a tag: its type, or its class and number; and its form, if a type or an expected tag has the other form.
fn push_tag(out: &mut String, tag: Tag, expected: &[Tag]) -> Result<(), AllocError> {
    let other = Tag::new(tag.value(), tag.class(), !tag.is_constructed());
    let is_known = type_of(other).is_some() || expected.contains(&other);
    let form = match (is_known, tag.is_constructed()) {
        (false, _) => "",
        (true, false) => "primitive ",
        (true, true) => "constructed ",
    };
    if let Some(name) = type_of(tag).or(type_of(other)) {
        return write!(out, "{form}{name}");
    }
    let class = match tag.class() {
        TagClass::Universal => "UNIVERSAL ",
        TagClass::Application => "APPLICATION ",
        TagClass::ContextSpecific => "",
        TagClass::Private => "PRIVATE ",
    };
    write!(out, "{form}[{class}{}]", tag.value())
}

/// Appends the expected tags, if there are any, and the one that was found.
fn push_found(out: &mut String, found: Tag, expected: &[Tag]) -> Result<(), AllocError> {
    if expected.is_empty() {
        push_tag(out, found, &[])?;
        return out.push_str(" isn't expected");
    }
    for (number, tag) in expected.iter().enumerate() {
        out.push_str(match number {
            0 => "expected ",
            _ if number.saturating_add(1) == expected.len() => " or ",
            _ => ", ",
        })?;
        push_tag(out, *tag, &[])?;
    }
    out.push_str(", found ")?;
    push_tag(out, found, expected)
}

/// Appends a part of a location, as errors and lines have it: a field goes by its struct and its name here, and is
/// shown by its name in ASN.1; anything else is shown as it is.
pub(crate) fn push_part(out: &mut String, part: &str) -> Result<(), AllocError> {
    for names in NAMES {
        if let Some((_, name)) = names.iter().find(|row| row.0 == part) {
            return out.push_str(name);
        }
    }
    let field = part.rsplit("::").next().unwrap_or(part);
    let mut is_next = false;
    for letter in field.chars() {
        if letter != '_' {
            let upper = letter.to_ascii_uppercase();
            out.push(if is_next { upper } else { letter })?;
        }
        is_next = letter == '_';
    }
    Ok(())
}

/// Appends the locations of the error, the outermost first, with a colon after them; nothing if there are none.
fn push_location(alloc: Global, out: &mut String, error: &ParseError) -> Result<(), AllocError> {
    // An error shows its locations in its `Debug` alone: names of fields, and numbers of items.
    let shown = format!(in alloc; "{error:?}")?;
    let Some((_, locations)) = shown.as_str().split_once(", location: [") else {
        return Ok(());
    };
    let locations = locations.trim_end_matches("] }").split(", ");
    for (number, location) in locations.enumerate() {
        out.push_str(if number > 0 { "." } else { "" })?;
        // An error has a field's name in quotes.
        push_part(out, location.trim_matches('"'))?;
    }
    out.push_str(": ")
}

/// How many contents octets are shown of those that encode no value.
const LONG: usize = 40;

/// What contents octets that encode no value aren't, by the identifier octet of a type with one rule.
const RULES: &[(u8, &str)] = &[
    (0x01, "a BOOLEAN is 00 or ff"),
    (0x05, "a NULL has none"),
    (
        0x06,
        "an arc has its fewest octets, the last of which is below 80, and is below 2^128",
    ),
    (0x0c, "they aren't UTF-8"),
    (
        0x13,
        "a PrintableString has letters, digits, blanks and '()+,-./:=? alone",
    ),
    (0x16, "an IA5String has octets below 80"),
    (0x1a, "a VisibleString has octets from 20 to 7e"),
    (0x1c, "four octets are a character"),
    (0x1e, "they aren't UTF-16"),
];

/// Which rule the contents octets of a time break that encode no value. A date and a time of day have so many digits.
fn rule_of_time(contents: &[u8], count: usize) -> &'static str {
    let mut pieces = contents.split(|octet| !octet.is_ascii_digit());
    let digits = pieces.next().unwrap_or(&[]).len();
    match contents.get(digits..).unwrap_or(&[]) {
        _ if digits.saturating_add(2) == count => "the seconds are missing",
        _ if digits != count => "a date and time of day have 14 digits, and in a UTCTime 12",
        b"Z" => "there is no such date or time of day",
        [b'.' | b',', ..] => "no fraction of a second is allowed, or not one of these digits",
        [b'+' | b'-', ..] => "the time isn't in UTC",
        _ => "Z isn't the last",
    }
}

/// Which rule the contents octets of a BIT STRING break that encode no value.
fn rule_of_bits(contents: &[u8]) -> &'static str {
    match contents {
        [unused, octets @ ..] if BitString::new(octets, *unused).is_some() => {
            "the last of bits with names is zero"
        }
        _ => "the first octet counts bits at the end, which are zero and at most 7",
    }
}

/// Which rule of its type these contents octets break that encode no value. `None` if the tag doesn't tell the type.
fn rule_of(tag: Tag, contents: &[u8]) -> Option<&'static str> {
    let identifier = tag.as_u8()?;
    match identifier {
        0x02 | 0x0a if is_integer_content(contents) => Some("the number is negative"),
        0x02 | 0x0a => Some("the first nine bits are the same"),
        0x03 => Some(rule_of_bits(contents)),
        0x17 => Some(rule_of_time(contents, 12)),
        0x18 => Some(rule_of_time(contents, 14)),
        _ => Some(RULES.iter().find(|row| row.0 == identifier)?.1),
    }
}

/// Contents octets, of which the first are enough: as text if the tag is that of a string or a time, else in hex.
fn shown(alloc: Global, tag: Tag, contents: &[u8]) -> Result<String, AllocError> {
    let (first, dots) = match contents.get(..LONG) {
        Some(first) => (first, ".."),
        None => (contents, ""),
    };
    let is_text = matches!(tag.as_u8(), Some(octet) if octet >= 0x0c && octet < 0x1c);
    let shown = match str::from_utf8(first) {
        Ok(text) if is_text => escaped(alloc, text)?,
        _ => marked(alloc, first)?,
    };
    format!(in alloc; "{shown}{dots}")
}

/// Appends that the contents octets of an element encode no value, and why, if it is known which element it is.
fn push_value(alloc: Global, out: &mut String, element: Option<&[u8]>) -> Result<(), AllocError> {
    let Ok((element, _rest)) = strip_tlv(element.unwrap_or(&[])) else {
        return out.push_str("the contents octets encode no value");
    };
    let (tag, contents) = (element.tag(), element.data());
    if contents.is_empty() {
        return out.push_str("there are no contents octets");
    }
    let shown = shown(alloc, tag, contents)?;
    write!(out, "the contents octets {shown} encode no value")?;
    match rule_of(tag, contents) {
        Some(rule) => write!(out, ": {rule}"),
        None => Ok(()),
    }
}

/// Appends why octets aren't the encoding of a value.
fn push_reason(
    alloc: Global,
    out: &mut String,
    kind: ParseErrorKind,
    expected: &[Tag],
    element: Option<&[u8]>,
) -> Result<(), AllocError> {
    let words = match kind {
        ParseErrorKind::InvalidValue => return push_value(alloc, out, element),
        ParseErrorKind::InvalidTag => "the identifier octets are malformed",
        ParseErrorKind::InvalidLength => {
            "the length is indefinite, too large, or not in its fewest octets"
        }
        ParseErrorKind::InvalidSize { min, max, actual } => {
            let than = if actual < min { "fewer" } else { "more" };
            let bound = if actual < min { min } else { max };
            return write!(out, "{actual} items are {than} than {bound}");
        }
        ParseErrorKind::UnexpectedTag { actual } => return push_found(out, actual, expected),
        ParseErrorKind::ShortData { needed } => {
            return write!(out, "octets are missing: at least {needed}");
        }
        ParseErrorKind::IntegerOverflow => "the number is out of range",
        ParseErrorKind::ExtraData => "octets follow the value",
        ParseErrorKind::InvalidSetOrdering => "the elements are out of order",
        ParseErrorKind::EncodedDefault => "the default is encoded",
        ParseErrorKind::OidTooLong => "the identifier has more than 63 octets",
        ParseErrorKind::UnknownDefinedBy => "the identifier is unknown",
        ParseErrorKind::AllocationError => "out of memory",
    };
    out.push_str(words)
}

/// Why octets aren't the encoding of a value, in words, after the location in the value. For a tag that isn't expected,
/// these are. If the error is at an element that is known, the octets from its first on are given.
pub(crate) fn in_words(
    alloc: Global,
    error: &ParseError,
    expected: &[Tag],
    element: Option<&[u8]>,
) -> Result<String, AllocError> {
    let mut out = String::new(alloc);
    push_location(alloc, &mut out, error)?;
    push_reason(alloc, &mut out, error.kind(), expected, element)?;
    Ok(out)
}
