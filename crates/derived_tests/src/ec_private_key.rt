//! Private keys of elliptic curves (RFC 5915, 3).
// Printed by tools/derive from declarations/ec_private_key.rs, with the sum 5f74bc4d.

ghost use Rattle.std.specs.Prelude.{◌≡◌, ◌∷◌, [], IsTrue};
ghost use Rattle.asn1.specs.Options.{option_meaning};
ghost use Rattle.asn1.specs.Reads.{HasOneEncoding, ReadsContents};
ghost use Rattle.asn1.specs.Structures.{explicit, field_names, structure, fields4};

use asn1::fields::{Fields4, Row};
use asn1::{
    Asn1Type, BitString, Explicit, ObjectIdentifier, ParseResult, SimpleAsn1Readable,
    SimpleAsn1Writable, Tag, WriteBuf, WriteError, WriteResult, fields_length, known_fields,
    read_fields, write_fields,
};
use std::alloc::Global;

/// A private key.
#[derive(Debug, Clone, Copy, PartialEq, Eq, Hash)]
pub struct EcPrivateKey<'a> {
    /// The version, 1.
    pub version: u8,
    /// The key.
    pub private_key: &'a [u8],
    /// The curve, by its identifier.
    pub parameters: Option<ObjectIdentifier>,
    /// The public key.
    pub public_key: Option<BitString<'a>>,
}

type EcPrivateKeyParametersField = Option<Explicit<ObjectIdentifier, 0>>;

type EcPrivateKeyPublicKeyField<'a> = Option<Explicit<BitString<'a>, 1>>;

type EcPrivateKeyFields<'a> = Fields4<
    u8,
    &'a [u8],
    EcPrivateKeyParametersField,
    EcPrivateKeyPublicKeyField<'a>,
>;

macro_rules! fields_of_ec_private_key {
    ($body:ident, $($of:tt)*) => { $body!($($of)*;
        version, private_key, parameters: EcPrivateKeyParametersField,
        public_key: EcPrivateKeyPublicKeyField<'a>) };
}

impl<'a> Asn1Type for EcPrivateKey<'a> {
    ghost der = { structure (λ v. fields4 v.version v.private_key (option_meaning explicit
        v.parameters) (option_meaning explicit v.public_key)) ⟦<EcPrivateKeyFields<'a> as Row>⟧.list
        (field_names "EcPrivateKey" ("version" ∷ "private_key" ∷ "parameters" ∷ "public_key" ∷
        [])) };

    fn known(&self) {
        fields_of_ec_private_key!(known_fields, self)
    }
}

impl<'a> SimpleAsn1Readable<'a> for EcPrivateKey<'a> {
    fn tag() -> Tag
        ensures value { result ≡ ⟦<EcPrivateKey<'a> as Asn1Type>⟧.der.content.tag }
        ensures simple { ⟦<EcPrivateKey<'a> as Asn1Type>⟧.der.is_simple }
        ensures plain { ⟦<EcPrivateKey<'a> as Asn1Type>⟧.der.plain }
        ensures read { ⟦<EcPrivateKey<'a> as Asn1Type>⟧.der.is_read }
    {
        Tag::constructed(0x10)
    }

    fn parse_data(alloc: Global, data: &'a [u8]) -> ParseResult<EcPrivateKey<'a>>
        ensures { ReadsContents ⟦<EcPrivateKey<'a> as Asn1Type>⟧.der «data».entry.now result }
    {
        fields_of_ec_private_key!(read_fields, EcPrivateKeyFields<'a>, alloc, data => EcPrivateKey)
    }
}

impl<'a> SimpleAsn1Writable for EcPrivateKey<'a> {
    type Error = WriteError;

    ghost length_known = { λ _. Unit {0} };

    fn tag() -> Tag
        ensures value { result ≡ ⟦<EcPrivateKey<'a> as Asn1Type>⟧.der.content.tag }
        ensures simple { ⟦<EcPrivateKey<'a> as Asn1Type>⟧.der.is_simple }
    {
        Tag::constructed(0x10)
    }

    fn write_data(&self, dest: &mut WriteBuf) -> WriteResult<()> {
        fields_of_ec_private_key!(write_fields, self, dest)
    }

    fn data_length(&self) -> Option<usize> {
        fields_of_ec_private_key!(fields_length, self)
    }

    fn writes_as_read() -> bool
        ensures { IsTrue result }
    {
        true
    }
}

/// The laws of the types, which do nothing.
pub mod laws {
    use super::EcPrivateKey;
    use asn1::Asn1Type;

    /// Each value of `EcPrivateKey` has one encoding, which is read back.
    pub fn ec_private_key_is_lawful()
        ensures { HasOneEncoding ⟦<EcPrivateKey<'static> as Asn1Type>⟧.der }
    {}
}
