//! The signed integers of fixed width, `i8` to `i64`: INTEGER (X.690 8.3), within the range of the type.

ghost use Rattle.std.specs.Prelude.{◌≡◌, ℤ, length};
ghost use Rattle.asn1_core.specs.Integer.{integer_content};
ghost use Rattle.asn1_core.specs.Reading.{Fits};
ghost use Rattle.asn1_core.specs.Sized.{integer_text};
ghost use Rattle.asn1_core.specs.CoreTypes.{signed_der};

use crate::parser::{ParseError, ParseResult};
use crate::tag::Tag;
use crate::types::integers::{is_short, length, read, write};
use crate::types::{Asn1Type, SimpleAsn1Readable, SimpleAsn1Writable};
use crate::writer::{WriteBuf, WriteError, WriteResult};
use std::alloc::Global;

/// INTEGER (X.690 8.3; universal 2) from -2^7 to 2^7 - 1. Reading rejects contents octets that aren't the fewest, or
/// none, with `InvalidValue`, and numbers outside the range with `IntegerOverflow`.
impl Asn1Type for i8 {
    ghost der = { signed_der 8 (λ number. number) };

    fn known(&self)
        ensures valid { (signed_der 8 (λ (z : ℤ). z)).valid self.now }
        ensures fits { Fits (integer_text self.now) }
    {
        // Reading the number tells that it is in its type's range.
        is_short(i128::from(*self))
    }
}

impl<'a> SimpleAsn1Readable<'a> for i8 {
    fn tag() -> Tag {
        Tag::primitive(0x02)
    }

    #[inline]
    fn parse_data(_alloc: Global, data: &'a [u8]) -> ParseResult<i8> {
        match read(data, i128::from(i8::MIN), i128::from(i8::MAX)) {
            Ok(number) => Ok(number as i8),
            Err(kind) => Err(ParseError::new(kind)),
        }
    }
}

impl SimpleAsn1Writable for i8 {
    type Error = WriteError;

    ghost length_known = { λ _. Unit {0} };

    fn tag() -> Tag {
        Tag::primitive(0x02)
    }

    fn write_data(&self, dest: &mut WriteBuf) -> WriteResult<()> {
        write(i128::from(*self), dest)
    }

    fn data_length(&self) -> Option<usize>
        ensures { result ≡ Some (length (integer_content self.now)) }
    {
        Some(length(i128::from(*self)))
    }

    fn writes_as_read() -> bool {
        true
    }
}

/// INTEGER (X.690 8.3; universal 2) from -2^15 to 2^15 - 1. Reading has the errors of `i8`.
impl Asn1Type for i16 {
    ghost der = { signed_der 16 (λ number. number) };

    fn known(&self)
        ensures valid { (signed_der 16 (λ (z : ℤ). z)).valid self.now }
        ensures fits { Fits (integer_text self.now) }
    {
        // Reading the number tells that it is in its type's range.
        is_short(i128::from(*self))
    }
}

impl<'a> SimpleAsn1Readable<'a> for i16 {
    fn tag() -> Tag {
        Tag::primitive(0x02)
    }

    #[inline]
    fn parse_data(_alloc: Global, data: &'a [u8]) -> ParseResult<i16> {
        match read(data, i128::from(i16::MIN), i128::from(i16::MAX)) {
            Ok(number) => Ok(number as i16),
            Err(kind) => Err(ParseError::new(kind)),
        }
    }
}

impl SimpleAsn1Writable for i16 {
    type Error = WriteError;

    ghost length_known = { λ _. Unit {0} };

    fn tag() -> Tag {
        Tag::primitive(0x02)
    }

    fn write_data(&self, dest: &mut WriteBuf) -> WriteResult<()> {
        write(i128::from(*self), dest)
    }

    fn data_length(&self) -> Option<usize>
        ensures { result ≡ Some (length (integer_content self.now)) }
    {
        Some(length(i128::from(*self)))
    }

    fn writes_as_read() -> bool {
        true
    }
}

/// INTEGER (X.690 8.3; universal 2) from -2^31 to 2^31 - 1. Reading has the errors of `i8`.
impl Asn1Type for i32 {
    ghost der = { signed_der 32 (λ number. number) };

    fn known(&self)
        ensures valid { (signed_der 32 (λ (z : ℤ). z)).valid self.now }
        ensures fits { Fits (integer_text self.now) }
    {
        // Reading the number tells that it is in its type's range.
        is_short(i128::from(*self))
    }
}

impl<'a> SimpleAsn1Readable<'a> for i32 {
    fn tag() -> Tag {
        Tag::primitive(0x02)
    }

    #[inline]
    fn parse_data(_alloc: Global, data: &'a [u8]) -> ParseResult<i32> {
        match read(data, i128::from(i32::MIN), i128::from(i32::MAX)) {
            Ok(number) => Ok(number as i32),
            Err(kind) => Err(ParseError::new(kind)),
        }
    }
}

impl SimpleAsn1Writable for i32 {
    type Error = WriteError;

    ghost length_known = { λ _. Unit {0} };

    fn tag() -> Tag {
        Tag::primitive(0x02)
    }

    fn write_data(&self, dest: &mut WriteBuf) -> WriteResult<()> {
        write(i128::from(*self), dest)
    }

    fn data_length(&self) -> Option<usize>
        ensures { result ≡ Some (length (integer_content self.now)) }
    {
        Some(length(i128::from(*self)))
    }

    fn writes_as_read() -> bool {
        true
    }
}

/// INTEGER (X.690 8.3; universal 2) from -2^63 to 2^63 - 1. Reading has the errors of `i8`.
impl Asn1Type for i64 {
    ghost der = { signed_der 64 (λ number. number) };

    fn known(&self)
        ensures valid { (signed_der 64 (λ (z : ℤ). z)).valid self.now }
        ensures fits { Fits (integer_text self.now) }
    {
        // Reading the number tells that it is in its type's range.
        is_short(i128::from(*self))
    }
}

impl<'a> SimpleAsn1Readable<'a> for i64 {
    fn tag() -> Tag {
        Tag::primitive(0x02)
    }

    #[inline]
    fn parse_data(_alloc: Global, data: &'a [u8]) -> ParseResult<i64> {
        match read(data, i128::from(i64::MIN), i128::from(i64::MAX)) {
            Ok(number) => Ok(number as i64),
            Err(kind) => Err(ParseError::new(kind)),
        }
    }
}

impl SimpleAsn1Writable for i64 {
    type Error = WriteError;

    ghost length_known = { λ _. Unit {0} };

    fn tag() -> Tag {
        Tag::primitive(0x02)
    }

    fn write_data(&self, dest: &mut WriteBuf) -> WriteResult<()> {
        write(i128::from(*self), dest)
    }

    fn data_length(&self) -> Option<usize>
        ensures { result ≡ Some (length (integer_content self.now)) }
    {
        Some(length(i128::from(*self)))
    }

    fn writes_as_read() -> bool {
        true
    }
}
