//! A type with an error of its own, whose contents octets are those of another type.

ghost use Rattle.std.specs.Prelude.{◌≡◌, true};
ghost use Rattle.asn1.specs.Der.{viewed};
ghost use Rattle.dercheck.specs.declared.own_types.sealable.SealError.TheVariants.{Write, Sealed};

use asn1::{
    Asn1Type, ParseResult, SimpleAsn1Readable, SimpleAsn1Writable, Tag, WriteBuf, WriteError,
};
use std::alloc::Global;

/// A number that is written only if it isn't sealed. A number that was read isn't sealed.
#[derive(Debug, PartialEq, Eq, Drop)]
pub struct Sealable {
    /// The number.
    pub number: u64,
    /// Whether it may not be written.
    pub sealed: bool,
}

/// Why a number was not written.
#[derive(Debug, PartialEq, Eq, Drop)]
pub enum SealError {
    /// The write was out of memory.
    Write(WriteError),
    /// The number is sealed.
    Sealed,
}

impl From<WriteError> for SealError {
    ghost from_gives = { λ error result. result ≡ Write error };

    fn from(error: WriteError) -> SealError {
        SealError::Write(error)
    }
}

impl Asn1Type for Sealable {
    ghost der = { viewed (λ v. v.number) ⟦<u64 as Asn1Type>⟧.der };

    fn known(&self) {
        self.number.known()
    }
}

impl<'a> SimpleAsn1Readable<'a> for Sealable {
    fn tag() -> Tag {
        <u64 as SimpleAsn1Readable<'_>>::tag()
    }

    fn parse_data(alloc: Global, data: &'a [u8]) -> ParseResult<Sealable> {
        match u64::parse_data(alloc, data) {
            Ok(number) => Ok(Sealable {
                number,
                sealed: false,
            }),
            Err(error) => Err(error),
        }
    }
}

impl SimpleAsn1Writable for Sealable {
    type Error = SealError;

    ghost write_errors = { λ v error. (v.sealed ≡ true) × (error ≡ Sealed) };

    fn tag() -> Tag {
        <u64 as SimpleAsn1Writable>::tag()
    }

    fn write_data(&self, dest: &mut WriteBuf) -> Result<(), SealError> {
        if self.sealed {
            return Err(SealError::Sealed);
        }
        self.number.write_data(dest)?;
        Ok(())
    }

    fn data_length(&self) -> Option<usize> {
        self.number.data_length()
    }
}
