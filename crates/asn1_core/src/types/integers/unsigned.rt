//! The unsigned integers of fixed width, `u8` to `u64`: INTEGER (X.690 8.3), within the range of the type.

ghost use Rattle.std.specs.Prelude.{◌≡◌, ℕ, length, pos};
ghost use Rattle.asn1_core.specs.Integer.{integer_content};
ghost use Rattle.asn1_core.specs.Reading.{Fits};
ghost use Rattle.asn1_core.specs.Sized.{integer_text};
ghost use Rattle.asn1_core.specs.CoreTypes.{unsigned_der};

use crate::parser::{ParseError, ParseResult};
use crate::tag::Tag;
use crate::types::integers::{is_short, length, read, write};
use crate::types::{Asn1Type, SimpleAsn1Readable, SimpleAsn1Writable};
use crate::writer::{WriteBuf, WriteError, WriteResult};
use std::alloc::Global;

/// INTEGER (X.690 8.3; universal 2) from 0 to 2^8 - 1. Reading rejects contents octets that aren't the fewest, or none,
/// and negative numbers with `InvalidValue`, and greater numbers with `IntegerOverflow`.
impl Asn1Type for u8 {
    ghost der = { unsigned_der 8 (λ number. number) };

    fn known(&self)
        ensures valid { (unsigned_der 8 (λ (n : ℕ). n)).valid (pos self.now) }
        ensures fits { Fits (integer_text (pos self.now)) }
    {
        // Reading the number tells that it is in its type's range.
        is_short(i128::from(*self))
    }
}

impl<'a> SimpleAsn1Readable<'a> for u8 {
    fn tag() -> Tag {
        Tag::primitive(0x02)
    }

    #[inline]
    fn parse_data(_alloc: Global, data: &'a [u8]) -> ParseResult<u8> {
        match read(data, 0, i128::from(u8::MAX)) {
            Ok(number) => Ok(number as u8),
            Err(kind) => Err(ParseError::new(kind)),
        }
    }
}

impl SimpleAsn1Writable for u8 {
    type Error = WriteError;

    ghost length_known = { λ _. Unit {0} };

    fn tag() -> Tag {
        Tag::primitive(0x02)
    }

    fn write_data(&self, dest: &mut WriteBuf) -> WriteResult<()> {
        write(i128::from(*self), dest)
    }

    fn data_length(&self) -> Option<usize>
        ensures { result ≡ Some (length (integer_content (pos self.now))) }
    {
        Some(length(i128::from(*self)))
    }

    fn writes_as_read() -> bool {
        true
    }
}

/// INTEGER (X.690 8.3; universal 2) from 0 to 2^16 - 1. Reading has the errors of `u8`.
impl Asn1Type for u16 {
    ghost der = { unsigned_der 16 (λ number. number) };

    fn known(&self)
        ensures valid { (unsigned_der 16 (λ (n : ℕ). n)).valid (pos self.now) }
        ensures fits { Fits (integer_text (pos self.now)) }
    {
        // Reading the number tells that it is in its type's range.
        is_short(i128::from(*self))
    }
}

impl<'a> SimpleAsn1Readable<'a> for u16 {
    fn tag() -> Tag {
        Tag::primitive(0x02)
    }

    #[inline]
    fn parse_data(_alloc: Global, data: &'a [u8]) -> ParseResult<u16> {
        match read(data, 0, i128::from(u16::MAX)) {
            Ok(number) => Ok(number as u16),
            Err(kind) => Err(ParseError::new(kind)),
        }
    }
}

impl SimpleAsn1Writable for u16 {
    type Error = WriteError;

    ghost length_known = { λ _. Unit {0} };

    fn tag() -> Tag {
        Tag::primitive(0x02)
    }

    fn write_data(&self, dest: &mut WriteBuf) -> WriteResult<()> {
        write(i128::from(*self), dest)
    }

    fn data_length(&self) -> Option<usize>
        ensures { result ≡ Some (length (integer_content (pos self.now))) }
    {
        Some(length(i128::from(*self)))
    }

    fn writes_as_read() -> bool {
        true
    }
}

/// INTEGER (X.690 8.3; universal 2) from 0 to 2^32 - 1. Reading has the errors of `u8`.
impl Asn1Type for u32 {
    ghost der = { unsigned_der 32 (λ number. number) };

    fn known(&self)
        ensures valid { (unsigned_der 32 (λ (n : ℕ). n)).valid (pos self.now) }
        ensures fits { Fits (integer_text (pos self.now)) }
    {
        // Reading the number tells that it is in its type's range.
        is_short(i128::from(*self))
    }
}

impl<'a> SimpleAsn1Readable<'a> for u32 {
    fn tag() -> Tag {
        Tag::primitive(0x02)
    }

    #[inline]
    fn parse_data(_alloc: Global, data: &'a [u8]) -> ParseResult<u32> {
        match read(data, 0, i128::from(u32::MAX)) {
            Ok(number) => Ok(number as u32),
            Err(kind) => Err(ParseError::new(kind)),
        }
    }
}

impl SimpleAsn1Writable for u32 {
    type Error = WriteError;

    ghost length_known = { λ _. Unit {0} };

    fn tag() -> Tag {
        Tag::primitive(0x02)
    }

    fn write_data(&self, dest: &mut WriteBuf) -> WriteResult<()> {
        write(i128::from(*self), dest)
    }

    fn data_length(&self) -> Option<usize>
        ensures { result ≡ Some (length (integer_content (pos self.now))) }
    {
        Some(length(i128::from(*self)))
    }

    fn writes_as_read() -> bool {
        true
    }
}

/// INTEGER (X.690 8.3; universal 2) from 0 to 2^64 - 1. Reading has the errors of `u8`.
impl Asn1Type for u64 {
    ghost der = { unsigned_der 64 (λ number. number) };

    fn known(&self)
        ensures valid { (unsigned_der 64 (λ (n : ℕ). n)).valid (pos self.now) }
        ensures fits { Fits (integer_text (pos self.now)) }
    {
        // Reading the number tells that it is in its type's range.
        is_short(i128::from(*self))
    }
}

impl<'a> SimpleAsn1Readable<'a> for u64 {
    fn tag() -> Tag {
        Tag::primitive(0x02)
    }

    #[inline]
    fn parse_data(_alloc: Global, data: &'a [u8]) -> ParseResult<u64> {
        match read(data, 0, i128::from(u64::MAX)) {
            Ok(number) => Ok(number as u64),
            Err(kind) => Err(ParseError::new(kind)),
        }
    }
}

impl SimpleAsn1Writable for u64 {
    type Error = WriteError;

    ghost length_known = { λ _. Unit {0} };

    fn tag() -> Tag {
        Tag::primitive(0x02)
    }

    fn write_data(&self, dest: &mut WriteBuf) -> WriteResult<()> {
        write(i128::from(*self), dest)
    }

    fn data_length(&self) -> Option<usize>
        ensures { result ≡ Some (length (integer_content (pos self.now))) }
    {
        Some(length(i128::from(*self)))
    }

    fn writes_as_read() -> bool {
        true
    }
}
