//! Values of signatures (RFC 3279, 2.2.2 and 2.2.3; RFC 8017, 9.2).
// Printed by tools/derive from declarations/signatures/values.rs, with the sum 99cd7ea6.

ghost use Rattle.std.specs.Prelude.{◌≡◌, ◌∷◌, [], IsTrue};
ghost use Rattle.asn1.specs.Reads.{HasOneEncoding, ReadsContents};
ghost use Rattle.asn1.specs.Structures.{field_names, structure, fields2};

use crate::common::AlgorithmIdentifier;
use asn1::fields::{Fields2, Row};
use asn1::{
    Asn1Type, Asn1Writable, BigUint, ParseResult, SimpleAsn1Readable, SimpleAsn1Writable, Tag,
    WriteBuf, WriteError, WriteResult, fields_length, known_fields, read_fields, write_fields,
};
use std::alloc::Global;

/// ECDSA-Sig-Value (RFC 3279, 2.2.3), a SEQUENCE, and Dss-Sig-Value (RFC 3279, 2.2.2), which is the same. Its numbers
/// aren't negative.
#[derive(Debug, Clone, Copy, PartialEq, Eq)]
pub struct EcdsaSigValue<'a> {
    /// The first number.
    pub r: BigUint<'a>,
    /// The second number.
    pub s: BigUint<'a>,
}

type EcdsaSigValueFields<'a> = Fields2<BigUint<'a>, BigUint<'a>>;

impl<'a> Asn1Type for EcdsaSigValue<'a> {
    ghost der = { structure (λ v. fields2 v.r v.s) ⟦<EcdsaSigValueFields<'a> as Row>⟧.list
        (field_names "EcdsaSigValue" ("r" ∷ "s" ∷ [])) };

    fn known(&self) {
        known_fields!(self; r, s)
    }
}

impl<'a> SimpleAsn1Readable<'a> for EcdsaSigValue<'a> {
    fn tag() -> Tag
        ensures value { result ≡ ⟦<EcdsaSigValue<'a> as Asn1Type>⟧.der.content.tag }
        ensures simple { ⟦<EcdsaSigValue<'a> as Asn1Type>⟧.der.is_simple }
        ensures plain { ⟦<EcdsaSigValue<'a> as Asn1Type>⟧.der.plain }
        ensures read { ⟦<EcdsaSigValue<'a> as Asn1Type>⟧.der.is_read }
    {
        Tag::constructed(0x10)
    }

    fn parse_data(alloc: Global, data: &'a [u8]) -> ParseResult<EcdsaSigValue<'a>>
        ensures { ReadsContents ⟦<EcdsaSigValue<'a> as Asn1Type>⟧.der «data».entry.now result }
    {
        read_fields!(EcdsaSigValueFields<'a>, alloc, data => EcdsaSigValue; r, s)
    }
}

impl<'a> SimpleAsn1Writable for EcdsaSigValue<'a> {
    type Error = WriteError;

    ghost length_known = { λ _. Unit {0} };

    fn tag() -> Tag
        ensures value { result ≡ ⟦<EcdsaSigValue<'a> as Asn1Type>⟧.der.content.tag }
        ensures simple { ⟦<EcdsaSigValue<'a> as Asn1Type>⟧.der.is_simple }
    {
        Tag::constructed(0x10)
    }

    fn write_data(&self, dest: &mut WriteBuf) -> WriteResult<()> {
        write_fields!(self, dest; r, s)
    }

    fn data_length(&self) -> Option<usize> {
        fields_length!(self; r, s)
    }

    fn writes_as_read() -> bool
        ensures { IsTrue result }
    {
        true
    }
}

/// DigestInfo (RFC 8017, 9.2), a SEQUENCE: a digest, and the algorithm that made it.
#[derive(Debug, Clone, Copy, PartialEq, Eq)]
pub struct DigestInfo<'a> {
    /// The algorithm.
    pub digest_algorithm: AlgorithmIdentifier<'a>,
    /// The digest.
    pub digest: &'a [u8],
}

type DigestInfoFields<'a> = Fields2<AlgorithmIdentifier<'a>, &'a [u8]>;

impl<'a> Asn1Type for DigestInfo<'a> {
    ghost der = { structure (λ v. fields2 v.digest_algorithm v.digest)
        ⟦<DigestInfoFields<'a> as Row>⟧.list (field_names "DigestInfo" ("digest_algorithm" ∷
        "digest" ∷ [])) };

    fn known(&self) {
        known_fields!(self; digest_algorithm, digest)
    }
}

impl<'a> SimpleAsn1Readable<'a> for DigestInfo<'a> {
    fn tag() -> Tag
        ensures value { result ≡ ⟦<DigestInfo<'a> as Asn1Type>⟧.der.content.tag }
        ensures simple { ⟦<DigestInfo<'a> as Asn1Type>⟧.der.is_simple }
        ensures plain { ⟦<DigestInfo<'a> as Asn1Type>⟧.der.plain }
        ensures read { ⟦<DigestInfo<'a> as Asn1Type>⟧.der.is_read }
    {
        Tag::constructed(0x10)
    }

    fn parse_data(alloc: Global, data: &'a [u8]) -> ParseResult<DigestInfo<'a>>
        ensures { ReadsContents ⟦<DigestInfo<'a> as Asn1Type>⟧.der «data».entry.now result }
    {
        read_fields!(DigestInfoFields<'a>, alloc, data => DigestInfo; digest_algorithm, digest)
    }
}

impl<'a> SimpleAsn1Writable for DigestInfo<'a> {
    type Error = WriteError;

    ghost length_known = { λ v. ⟦<AlgorithmIdentifier<'a> as Asn1Writable>⟧.length_known
        v.digest_algorithm };

    fn tag() -> Tag
        ensures value { result ≡ ⟦<DigestInfo<'a> as Asn1Type>⟧.der.content.tag }
        ensures simple { ⟦<DigestInfo<'a> as Asn1Type>⟧.der.is_simple }
    {
        Tag::constructed(0x10)
    }

    fn write_data(&self, dest: &mut WriteBuf) -> WriteResult<()> {
        write_fields!(self, dest; digest_algorithm, digest)
    }

    fn data_length(&self) -> Option<usize> {
        fields_length!(self; digest_algorithm, digest)
    }

    fn writes_as_read() -> bool
        ensures { IsTrue result }
    {
        true
    }
}

/// The laws of the types, which do nothing.
pub mod laws {
    use super::{DigestInfo, EcdsaSigValue};
    use asn1::Asn1Type;

    /// Each value of `EcdsaSigValue` has one encoding, which is read back.
    pub fn ecdsa_sig_value_is_lawful()
        ensures { HasOneEncoding ⟦<EcdsaSigValue<'static> as Asn1Type>⟧.der }
    {}

    /// Each value of `DigestInfo` has one encoding, which is read back.
    pub fn digest_info_is_lawful()
        ensures { HasOneEncoding ⟦<DigestInfo<'static> as Asn1Type>⟧.der }
    {
        crate::common::laws::algorithm_identifier_is_lawful();
    }
}
