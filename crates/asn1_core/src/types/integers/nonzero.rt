//! The integers that aren't 0: INTEGER (X.690 8.3; universal 2), written as the integers are, and not read.

ghost use Rattle.std.specs.Prelude.{◌≡◌, length, pos};
ghost use Rattle.std.specs.Int.NonZero.{non_zero_i8_get, non_zero_i16_get, non_zero_i32_get, non_zero_i64_get};
ghost use Rattle.std.specs.Int.NonZero.{non_zero_u8_get, non_zero_u16_get, non_zero_u32_get, non_zero_u64_get};
ghost use Rattle.asn1_core.specs.Integer.{integer_content};
ghost use Rattle.asn1_core.specs.CoreTypes.{non_zero_signed_der, non_zero_unsigned_der};

use crate::tag::Tag;
use crate::types::{Asn1Type, SimpleAsn1Writable};
use crate::writer::{WriteBuf, WriteError, WriteResult};
use std::num::{
    NonZeroI8, NonZeroI16, NonZeroI32, NonZeroI64, NonZeroU8, NonZeroU16, NonZeroU32, NonZeroU64,
};

impl Asn1Type for NonZeroI8 {
    ghost der = { non_zero_signed_der 8 non_zero_i8_get };

    fn known(&self) {
        self.get().known()
    }
}

impl SimpleAsn1Writable for NonZeroI8 {
    type Error = WriteError;

    ghost length_known = { λ _. Unit {0} };

    fn tag() -> Tag {
        i8::tag()
    }

    fn write_data(&self, dest: &mut WriteBuf) -> WriteResult<()> {
        self.get().write_data(dest)
    }

    fn data_length(&self) -> Option<usize>
        ensures { result ≡ Some (length (integer_content (non_zero_i8_get self.now))) }
    {
        self.get().data_length()
    }

    fn writes_as_read() -> bool {
        true
    }
}

impl Asn1Type for NonZeroI16 {
    ghost der = { non_zero_signed_der 16 non_zero_i16_get };

    fn known(&self) {
        self.get().known()
    }
}

impl SimpleAsn1Writable for NonZeroI16 {
    type Error = WriteError;

    ghost length_known = { λ _. Unit {0} };

    fn tag() -> Tag {
        i16::tag()
    }

    fn write_data(&self, dest: &mut WriteBuf) -> WriteResult<()> {
        self.get().write_data(dest)
    }

    fn data_length(&self) -> Option<usize>
        ensures { result ≡ Some (length (integer_content (non_zero_i16_get self.now))) }
    {
        self.get().data_length()
    }

    fn writes_as_read() -> bool {
        true
    }
}

impl Asn1Type for NonZeroI32 {
    ghost der = { non_zero_signed_der 32 non_zero_i32_get };

    fn known(&self) {
        self.get().known()
    }
}

impl SimpleAsn1Writable for NonZeroI32 {
    type Error = WriteError;

    ghost length_known = { λ _. Unit {0} };

    fn tag() -> Tag {
        i32::tag()
    }

    fn write_data(&self, dest: &mut WriteBuf) -> WriteResult<()> {
        self.get().write_data(dest)
    }

    fn data_length(&self) -> Option<usize>
        ensures { result ≡ Some (length (integer_content (non_zero_i32_get self.now))) }
    {
        self.get().data_length()
    }

    fn writes_as_read() -> bool {
        true
    }
}

impl Asn1Type for NonZeroI64 {
    ghost der = { non_zero_signed_der 64 non_zero_i64_get };

    fn known(&self) {
        self.get().known()
    }
}

impl SimpleAsn1Writable for NonZeroI64 {
    type Error = WriteError;

    ghost length_known = { λ _. Unit {0} };

    fn tag() -> Tag {
        i64::tag()
    }

    fn write_data(&self, dest: &mut WriteBuf) -> WriteResult<()> {
        self.get().write_data(dest)
    }

    fn data_length(&self) -> Option<usize>
        ensures { result ≡ Some (length (integer_content (non_zero_i64_get self.now))) }
    {
        self.get().data_length()
    }

    fn writes_as_read() -> bool {
        true
    }
}

impl Asn1Type for NonZeroU8 {
    ghost der = { non_zero_unsigned_der 8 non_zero_u8_get };

    fn known(&self) {
        self.get().known()
    }
}

impl SimpleAsn1Writable for NonZeroU8 {
    type Error = WriteError;

    ghost length_known = { λ _. Unit {0} };

    fn tag() -> Tag {
        u8::tag()
    }

    fn write_data(&self, dest: &mut WriteBuf) -> WriteResult<()> {
        self.get().write_data(dest)
    }

    fn data_length(&self) -> Option<usize>
        ensures { result ≡ Some (length (integer_content (pos (non_zero_u8_get self.now)))) }
    {
        self.get().data_length()
    }

    fn writes_as_read() -> bool {
        true
    }
}

impl Asn1Type for NonZeroU16 {
    ghost der = { non_zero_unsigned_der 16 non_zero_u16_get };

    fn known(&self) {
        self.get().known()
    }
}

impl SimpleAsn1Writable for NonZeroU16 {
    type Error = WriteError;

    ghost length_known = { λ _. Unit {0} };

    fn tag() -> Tag {
        u16::tag()
    }

    fn write_data(&self, dest: &mut WriteBuf) -> WriteResult<()> {
        self.get().write_data(dest)
    }

    fn data_length(&self) -> Option<usize>
        ensures { result ≡ Some (length (integer_content (pos (non_zero_u16_get self.now)))) }
    {
        self.get().data_length()
    }

    fn writes_as_read() -> bool {
        true
    }
}

impl Asn1Type for NonZeroU32 {
    ghost der = { non_zero_unsigned_der 32 non_zero_u32_get };

    fn known(&self) {
        self.get().known()
    }
}

impl SimpleAsn1Writable for NonZeroU32 {
    type Error = WriteError;

    ghost length_known = { λ _. Unit {0} };

    fn tag() -> Tag {
        u32::tag()
    }

    fn write_data(&self, dest: &mut WriteBuf) -> WriteResult<()> {
        self.get().write_data(dest)
    }

    fn data_length(&self) -> Option<usize>
        ensures { result ≡ Some (length (integer_content (pos (non_zero_u32_get self.now)))) }
    {
        self.get().data_length()
    }

    fn writes_as_read() -> bool {
        true
    }
}

impl Asn1Type for NonZeroU64 {
    ghost der = { non_zero_unsigned_der 64 non_zero_u64_get };

    fn known(&self) {
        self.get().known()
    }
}

impl SimpleAsn1Writable for NonZeroU64 {
    type Error = WriteError;

    ghost length_known = { λ _. Unit {0} };

    fn tag() -> Tag {
        u64::tag()
    }

    fn write_data(&self, dest: &mut WriteBuf) -> WriteResult<()> {
        self.get().write_data(dest)
    }

    fn data_length(&self) -> Option<usize>
        ensures { result ≡ Some (length (integer_content (pos (non_zero_u64_get self.now)))) }
    {
        self.get().data_length()
    }

    fn writes_as_read() -> bool {
        true
    }
}
