//! Keys, and the parameters of their algorithms (RFC 5958, 8017, 5915, 5480, 3279 and 4055).
// Printed by tools/derive from declarations/keys.rs, with the sum b04a3997.

ghost use Rattle.std.specs.Prelude.{◌≡◌, ◌∷◌, [], IsTrue};
ghost use Rattle.asn1.specs.Options.{option_meaning};
ghost use Rattle.asn1.specs.Reads.{HasOneEncoding, ReadsContents};
ghost use Rattle.asn1.specs.Structures.{defaulted, explicit, field_names, implicit, structure, fields2, fields3};
ghost use Rattle.asn1.specs.Structures.{fields4, fields5, fields10};

use crate::common::{AlgorithmIdentifier, Attributes};
use asn1::fields::{Fields2, Fields3, Fields4, Fields5, Fields10, Row};
use asn1::{
    Asn1Type, Asn1Writable, BigUint, BitString, DefaultValue, Defaulted, Explicit, Implicit,
    ObjectIdentifier, ParseResult, SequenceOf, SimpleAsn1Readable, SimpleAsn1Writable, Tag,
    WriteBuf, WriteError, WriteResult, fields_length, known_fields, read_fields, write_fields,
};
use std::alloc::Global;

/// OneAsymmetricKey (RFC 5958, 2), a SEQUENCE: a private key, and the public key if it is there. Fields after these,
/// which later versions may have, are rejected.
#[derive(Debug, Clone, PartialEq, Eq, Drop)]
pub struct OneAsymmetricKey<'a> {
    /// The version, which is the number less one: 0 is v1, and 1 is v2, which has a public key. Any from 0 to 255 is
    /// read.
    pub version: u8,
    /// The algorithm that the key is for.
    pub private_key_algorithm: AlgorithmIdentifier<'a>,
    /// The private key, whose octets the algorithm defines.
    pub private_key: &'a [u8],
    /// The attributes of the key.
    pub attributes: Option<Attributes<'a>>,
    /// The public key, whose bits the algorithm defines.
    pub public_key: Option<BitString<'a>>,
}

type OneAsymmetricKeyAttributesField<'a> = Option<Implicit<Attributes<'a>, 0>>;

type OneAsymmetricKeyPublicKeyField<'a> = Option<Implicit<BitString<'a>, 1>>;

type OneAsymmetricKeyFields<'a> = Fields5<
    u8,
    AlgorithmIdentifier<'a>,
    &'a [u8],
    OneAsymmetricKeyAttributesField<'a>,
    OneAsymmetricKeyPublicKeyField<'a>,
>;

macro_rules! fields_of_one_asymmetric_key {
    ($body:ident, $($of:tt)*) => { $body!($($of)*;
        version, private_key_algorithm, private_key,
        attributes: OneAsymmetricKeyAttributesField<'a>,
        public_key: OneAsymmetricKeyPublicKeyField<'a>) };
}

impl<'a> Asn1Type for OneAsymmetricKey<'a> {
    ghost der = { structure (λ v. fields5 v.version v.private_key_algorithm v.private_key
        (option_meaning implicit v.attributes) (option_meaning implicit v.public_key))
        ⟦<OneAsymmetricKeyFields<'a> as Row>⟧.list (field_names "OneAsymmetricKey" ("version" ∷
        "private_key_algorithm" ∷ "private_key" ∷ "attributes" ∷ "public_key" ∷ [])) };

    fn known(&self) {
        fields_of_one_asymmetric_key!(known_fields, self)
    }
}

impl<'a> SimpleAsn1Readable<'a> for OneAsymmetricKey<'a> {
    fn tag() -> Tag
        ensures value { result ≡ ⟦<OneAsymmetricKey<'a> as Asn1Type>⟧.der.content.tag }
        ensures simple { ⟦<OneAsymmetricKey<'a> as Asn1Type>⟧.der.is_simple }
        ensures plain { ⟦<OneAsymmetricKey<'a> as Asn1Type>⟧.der.plain }
        ensures read { ⟦<OneAsymmetricKey<'a> as Asn1Type>⟧.der.is_read }
    {
        Tag::constructed(0x10)
    }

    fn parse_data(alloc: Global, data: &'a [u8]) -> ParseResult<OneAsymmetricKey<'a>>
        ensures { ReadsContents ⟦<OneAsymmetricKey<'a> as Asn1Type>⟧.der «data».entry.now result }
    {
        fields_of_one_asymmetric_key!(read_fields,
            OneAsymmetricKeyFields<'a>, alloc, data => OneAsymmetricKey)
    }
}

impl<'a> SimpleAsn1Writable for OneAsymmetricKey<'a> {
    type Error = WriteError;

    ghost length_known = { λ v. ⟦<AlgorithmIdentifier<'a> as Asn1Writable>⟧.length_known
        v.private_key_algorithm ×
        ⟦<Option<Implicit<Attributes<'a>, 0>> as Asn1Writable>⟧.length_known (option_meaning
        implicit v.attributes) };

    fn tag() -> Tag
        ensures value { result ≡ ⟦<OneAsymmetricKey<'a> as Asn1Type>⟧.der.content.tag }
        ensures simple { ⟦<OneAsymmetricKey<'a> as Asn1Type>⟧.der.is_simple }
    {
        Tag::constructed(0x10)
    }

    fn write_data(&self, dest: &mut WriteBuf) -> WriteResult<()> {
        fields_of_one_asymmetric_key!(write_fields, self, dest)
    }

    fn data_length(&self) -> Option<usize> {
        fields_of_one_asymmetric_key!(fields_length, self)
    }

    fn writes_as_read() -> bool
        ensures { IsTrue result }
    {
        true
    }
}

/// EncryptedPrivateKeyInfo (RFC 5958, 3), a SEQUENCE: a private key that is encrypted.
#[derive(Debug, Clone, Copy, PartialEq, Eq)]
pub struct EncryptedPrivateKeyInfo<'a> {
    /// The algorithm that encrypted it.
    pub encryption_algorithm: AlgorithmIdentifier<'a>,
    /// The encoding of a OneAsymmetricKey, encrypted.
    pub encrypted_data: &'a [u8],
}

type EncryptedPrivateKeyInfoFields<'a> = Fields2<AlgorithmIdentifier<'a>, &'a [u8]>;

impl<'a> Asn1Type for EncryptedPrivateKeyInfo<'a> {
    ghost der = { structure (λ v. fields2 v.encryption_algorithm v.encrypted_data)
        ⟦<EncryptedPrivateKeyInfoFields<'a> as Row>⟧.list (field_names "EncryptedPrivateKeyInfo"
        ("encryption_algorithm" ∷ "encrypted_data" ∷ [])) };

    fn known(&self) {
        known_fields!(self; encryption_algorithm, encrypted_data)
    }
}

impl<'a> SimpleAsn1Readable<'a> for EncryptedPrivateKeyInfo<'a> {
    fn tag() -> Tag
        ensures value { result ≡ ⟦<EncryptedPrivateKeyInfo<'a> as Asn1Type>⟧.der.content.tag }
        ensures simple { ⟦<EncryptedPrivateKeyInfo<'a> as Asn1Type>⟧.der.is_simple }
        ensures plain { ⟦<EncryptedPrivateKeyInfo<'a> as Asn1Type>⟧.der.plain }
        ensures read { ⟦<EncryptedPrivateKeyInfo<'a> as Asn1Type>⟧.der.is_read }
    {
        Tag::constructed(0x10)
    }

    fn parse_data(alloc: Global, data: &'a [u8]) -> ParseResult<EncryptedPrivateKeyInfo<'a>>
        ensures { ReadsContents ⟦<EncryptedPrivateKeyInfo<'a> as Asn1Type>⟧.der «data».entry.now
            result }
    {
        read_fields!(EncryptedPrivateKeyInfoFields<'a>, alloc, data => EncryptedPrivateKeyInfo;
            encryption_algorithm, encrypted_data)
    }
}

impl<'a> SimpleAsn1Writable for EncryptedPrivateKeyInfo<'a> {
    type Error = WriteError;

    ghost length_known = { λ v. ⟦<AlgorithmIdentifier<'a> as Asn1Writable>⟧.length_known
        v.encryption_algorithm };

    fn tag() -> Tag
        ensures value { result ≡ ⟦<EncryptedPrivateKeyInfo<'a> as Asn1Type>⟧.der.content.tag }
        ensures simple { ⟦<EncryptedPrivateKeyInfo<'a> as Asn1Type>⟧.der.is_simple }
    {
        Tag::constructed(0x10)
    }

    fn write_data(&self, dest: &mut WriteBuf) -> WriteResult<()> {
        write_fields!(self, dest; encryption_algorithm, encrypted_data)
    }

    fn data_length(&self) -> Option<usize> {
        fields_length!(self; encryption_algorithm, encrypted_data)
    }

    fn writes_as_read() -> bool
        ensures { IsTrue result }
    {
        true
    }
}

/// RSAPublicKey (RFC 8017, A.1.1), a SEQUENCE. Its numbers aren't negative.
#[derive(Debug, Clone, Copy, PartialEq, Eq)]
pub struct RsaPublicKey<'a> {
    /// The modulus.
    pub modulus: BigUint<'a>,
    /// The exponent.
    pub public_exponent: BigUint<'a>,
}

type RsaPublicKeyFields<'a> = Fields2<BigUint<'a>, BigUint<'a>>;

impl<'a> Asn1Type for RsaPublicKey<'a> {
    ghost der = { structure (λ v. fields2 v.modulus v.public_exponent)
        ⟦<RsaPublicKeyFields<'a> as Row>⟧.list (field_names "RsaPublicKey" ("modulus" ∷
        "public_exponent" ∷ [])) };

    fn known(&self) {
        known_fields!(self; modulus, public_exponent)
    }
}

impl<'a> SimpleAsn1Readable<'a> for RsaPublicKey<'a> {
    fn tag() -> Tag
        ensures value { result ≡ ⟦<RsaPublicKey<'a> as Asn1Type>⟧.der.content.tag }
        ensures simple { ⟦<RsaPublicKey<'a> as Asn1Type>⟧.der.is_simple }
        ensures plain { ⟦<RsaPublicKey<'a> as Asn1Type>⟧.der.plain }
        ensures read { ⟦<RsaPublicKey<'a> as Asn1Type>⟧.der.is_read }
    {
        Tag::constructed(0x10)
    }

    fn parse_data(alloc: Global, data: &'a [u8]) -> ParseResult<RsaPublicKey<'a>>
        ensures { ReadsContents ⟦<RsaPublicKey<'a> as Asn1Type>⟧.der «data».entry.now result }
    {
        read_fields!(RsaPublicKeyFields<'a>, alloc, data => RsaPublicKey; modulus, public_exponent)
    }
}

impl<'a> SimpleAsn1Writable for RsaPublicKey<'a> {
    type Error = WriteError;

    ghost length_known = { λ _. Unit {0} };

    fn tag() -> Tag
        ensures value { result ≡ ⟦<RsaPublicKey<'a> as Asn1Type>⟧.der.content.tag }
        ensures simple { ⟦<RsaPublicKey<'a> as Asn1Type>⟧.der.is_simple }
    {
        Tag::constructed(0x10)
    }

    fn write_data(&self, dest: &mut WriteBuf) -> WriteResult<()> {
        write_fields!(self, dest; modulus, public_exponent)
    }

    fn data_length(&self) -> Option<usize> {
        fields_length!(self; modulus, public_exponent)
    }

    fn writes_as_read() -> bool
        ensures { IsTrue result }
    {
        true
    }
}

/// OtherPrimeInfo (RFC 8017, A.1.2), a SEQUENCE: a prime after the first two. Its numbers aren't negative.
#[derive(Debug, Clone, Copy, PartialEq, Eq)]
pub struct OtherPrimeInfo<'a> {
    /// The prime.
    pub prime: BigUint<'a>,
    /// The private exponent modulo the prime less one.
    pub exponent: BigUint<'a>,
    /// The inverse of the product of the primes before it, modulo the prime.
    pub coefficient: BigUint<'a>,
}

type OtherPrimeInfoFields<'a> = Fields3<BigUint<'a>, BigUint<'a>, BigUint<'a>>;

impl<'a> Asn1Type for OtherPrimeInfo<'a> {
    ghost der = { structure (λ v. fields3 v.prime v.exponent v.coefficient)
        ⟦<OtherPrimeInfoFields<'a> as Row>⟧.list (field_names "OtherPrimeInfo" ("prime" ∷ "exponent"
        ∷ "coefficient" ∷ [])) };

    fn known(&self) {
        known_fields!(self; prime, exponent, coefficient)
    }
}

impl<'a> SimpleAsn1Readable<'a> for OtherPrimeInfo<'a> {
    fn tag() -> Tag
        ensures value { result ≡ ⟦<OtherPrimeInfo<'a> as Asn1Type>⟧.der.content.tag }
        ensures simple { ⟦<OtherPrimeInfo<'a> as Asn1Type>⟧.der.is_simple }
        ensures plain { ⟦<OtherPrimeInfo<'a> as Asn1Type>⟧.der.plain }
        ensures read { ⟦<OtherPrimeInfo<'a> as Asn1Type>⟧.der.is_read }
    {
        Tag::constructed(0x10)
    }

    fn parse_data(alloc: Global, data: &'a [u8]) -> ParseResult<OtherPrimeInfo<'a>>
        ensures { ReadsContents ⟦<OtherPrimeInfo<'a> as Asn1Type>⟧.der «data».entry.now result }
    {
        read_fields!(OtherPrimeInfoFields<'a>, alloc, data => OtherPrimeInfo;
            prime, exponent, coefficient)
    }
}

impl<'a> SimpleAsn1Writable for OtherPrimeInfo<'a> {
    type Error = WriteError;

    ghost length_known = { λ _. Unit {0} };

    fn tag() -> Tag
        ensures value { result ≡ ⟦<OtherPrimeInfo<'a> as Asn1Type>⟧.der.content.tag }
        ensures simple { ⟦<OtherPrimeInfo<'a> as Asn1Type>⟧.der.is_simple }
    {
        Tag::constructed(0x10)
    }

    fn write_data(&self, dest: &mut WriteBuf) -> WriteResult<()> {
        write_fields!(self, dest; prime, exponent, coefficient)
    }

    fn data_length(&self) -> Option<usize> {
        fields_length!(self; prime, exponent, coefficient)
    }

    fn writes_as_read() -> bool
        ensures { IsTrue result }
    {
        true
    }
}

/// OtherPrimeInfos (RFC 8017, A.1.2), a SEQUENCE of at least one OtherPrimeInfo.
pub type OtherPrimeInfos<'a> = SequenceOf<'a, OtherPrimeInfo<'a>, 1, { usize::MAX }>;

/// RSAPrivateKey (RFC 8017, A.1.2), a SEQUENCE. Its numbers aren't negative.
#[derive(Debug, Clone, PartialEq, Eq, Drop)]
pub struct RsaPrivateKey<'a> {
    /// The version: 0 if there are two primes, and 1 if there are more, which isn't checked. Any from 0 to 255 is read.
    pub version: u8,
    /// The modulus, the product of the primes.
    pub modulus: BigUint<'a>,
    /// The exponent of the public key.
    pub public_exponent: BigUint<'a>,
    /// The exponent of the private key.
    pub private_exponent: BigUint<'a>,
    /// The first prime, p.
    pub prime1: BigUint<'a>,
    /// The second prime, q.
    pub prime2: BigUint<'a>,
    /// The private exponent modulo p - 1.
    pub exponent1: BigUint<'a>,
    /// The private exponent modulo q - 1.
    pub exponent2: BigUint<'a>,
    /// The inverse of q modulo p.
    pub coefficient: BigUint<'a>,
    /// The other primes.
    pub other_prime_infos: Option<OtherPrimeInfos<'a>>,
}

type RsaPrivateKeyFields<'a> = Fields10<
    u8,
    BigUint<'a>,
    BigUint<'a>,
    BigUint<'a>,
    BigUint<'a>,
    BigUint<'a>,
    BigUint<'a>,
    BigUint<'a>,
    BigUint<'a>,
    Option<OtherPrimeInfos<'a>>,
>;

macro_rules! fields_of_rsa_private_key {
    ($body:ident, $($of:tt)*) => { $body!($($of)*;
        version, modulus, public_exponent, private_exponent, prime1, prime2, exponent1, exponent2,
        coefficient, other_prime_infos) };
}

impl<'a> Asn1Type for RsaPrivateKey<'a> {
    ghost der = { structure (λ v. fields10 v.version v.modulus v.public_exponent v.private_exponent
        v.prime1 v.prime2 v.exponent1 v.exponent2 v.coefficient v.other_prime_infos)
        ⟦<RsaPrivateKeyFields<'a> as Row>⟧.list (field_names "RsaPrivateKey" ("version" ∷ "modulus"
        ∷ "public_exponent" ∷ "private_exponent" ∷ "prime1" ∷ "prime2" ∷ "exponent1" ∷ "exponent2" ∷
        "coefficient" ∷ "other_prime_infos" ∷ [])) };

    fn known(&self) {
        fields_of_rsa_private_key!(known_fields, self)
    }
}

impl<'a> SimpleAsn1Readable<'a> for RsaPrivateKey<'a> {
    fn tag() -> Tag
        ensures value { result ≡ ⟦<RsaPrivateKey<'a> as Asn1Type>⟧.der.content.tag }
        ensures simple { ⟦<RsaPrivateKey<'a> as Asn1Type>⟧.der.is_simple }
        ensures plain { ⟦<RsaPrivateKey<'a> as Asn1Type>⟧.der.plain }
        ensures read { ⟦<RsaPrivateKey<'a> as Asn1Type>⟧.der.is_read }
    {
        Tag::constructed(0x10)
    }

    fn parse_data(alloc: Global, data: &'a [u8]) -> ParseResult<RsaPrivateKey<'a>>
        ensures { ReadsContents ⟦<RsaPrivateKey<'a> as Asn1Type>⟧.der «data».entry.now result }
    {
        fields_of_rsa_private_key!(read_fields,
            RsaPrivateKeyFields<'a>, alloc, data => RsaPrivateKey)
    }
}

impl<'a> SimpleAsn1Writable for RsaPrivateKey<'a> {
    type Error = WriteError;

    ghost length_known = { λ _. Unit {0} };

    fn tag() -> Tag
        ensures value { result ≡ ⟦<RsaPrivateKey<'a> as Asn1Type>⟧.der.content.tag }
        ensures simple { ⟦<RsaPrivateKey<'a> as Asn1Type>⟧.der.is_simple }
    {
        Tag::constructed(0x10)
    }

    fn write_data(&self, dest: &mut WriteBuf) -> WriteResult<()> {
        fields_of_rsa_private_key!(write_fields, self, dest)
    }

    fn data_length(&self) -> Option<usize> {
        fields_of_rsa_private_key!(fields_length, self)
    }

    fn writes_as_read() -> bool
        ensures { IsTrue result }
    {
        true
    }
}

/// ECPrivateKey (RFC 5915, 3), a SEQUENCE.
#[derive(Debug, Clone, Copy, PartialEq, Eq)]
pub struct EcPrivateKey<'a> {
    /// The version, which is 1. Any from 0 to 255 is read.
    pub version: u8,
    /// The private key, a number of as many octets as the curve's order has.
    pub private_key: &'a [u8],
    /// ECParameters (RFC 5480, 2.1.1): the curve's identifier.
    pub parameters: Option<ObjectIdentifier>,
    /// The public key, a point.
    pub public_key: Option<BitString<'a>>,
}

type EcPrivateKeyParametersField = Option<Explicit<ObjectIdentifier, 0>>;

type EcPrivateKeyPublicKeyField<'a> = Option<Explicit<BitString<'a>, 1>>;

type EcPrivateKeyFields<'a> = Fields4<
    u8,
    &'a [u8],
    EcPrivateKeyParametersField,
    EcPrivateKeyPublicKeyField<'a>,
>;

macro_rules! fields_of_ec_private_key {
    ($body:ident, $($of:tt)*) => { $body!($($of)*;
        version, private_key, parameters: EcPrivateKeyParametersField,
        public_key: EcPrivateKeyPublicKeyField<'a>) };
}

impl<'a> Asn1Type for EcPrivateKey<'a> {
    ghost der = { structure (λ v. fields4 v.version v.private_key (option_meaning explicit
        v.parameters) (option_meaning explicit v.public_key)) ⟦<EcPrivateKeyFields<'a> as Row>⟧.list
        (field_names "EcPrivateKey" ("version" ∷ "private_key" ∷ "parameters" ∷ "public_key" ∷
        [])) };

    fn known(&self) {
        fields_of_ec_private_key!(known_fields, self)
    }
}

impl<'a> SimpleAsn1Readable<'a> for EcPrivateKey<'a> {
    fn tag() -> Tag
        ensures value { result ≡ ⟦<EcPrivateKey<'a> as Asn1Type>⟧.der.content.tag }
        ensures simple { ⟦<EcPrivateKey<'a> as Asn1Type>⟧.der.is_simple }
        ensures plain { ⟦<EcPrivateKey<'a> as Asn1Type>⟧.der.plain }
        ensures read { ⟦<EcPrivateKey<'a> as Asn1Type>⟧.der.is_read }
    {
        Tag::constructed(0x10)
    }

    fn parse_data(alloc: Global, data: &'a [u8]) -> ParseResult<EcPrivateKey<'a>>
        ensures { ReadsContents ⟦<EcPrivateKey<'a> as Asn1Type>⟧.der «data».entry.now result }
    {
        fields_of_ec_private_key!(read_fields, EcPrivateKeyFields<'a>, alloc, data => EcPrivateKey)
    }
}

impl<'a> SimpleAsn1Writable for EcPrivateKey<'a> {
    type Error = WriteError;

    ghost length_known = { λ _. Unit {0} };

    fn tag() -> Tag
        ensures value { result ≡ ⟦<EcPrivateKey<'a> as Asn1Type>⟧.der.content.tag }
        ensures simple { ⟦<EcPrivateKey<'a> as Asn1Type>⟧.der.is_simple }
    {
        Tag::constructed(0x10)
    }

    fn write_data(&self, dest: &mut WriteBuf) -> WriteResult<()> {
        fields_of_ec_private_key!(write_fields, self, dest)
    }

    fn data_length(&self) -> Option<usize> {
        fields_of_ec_private_key!(fields_length, self)
    }

    fn writes_as_read() -> bool
        ensures { IsTrue result }
    {
        true
    }
}

/// Dss-Parms (RFC 3279, 2.3.2), a SEQUENCE: the parameters of DSA. Its numbers aren't negative.
#[derive(Debug, Clone, Copy, PartialEq, Eq)]
pub struct DssParms<'a> {
    /// The prime that numbers are taken modulo.
    pub p: BigUint<'a>,
    /// The prime divisor of p - 1.
    pub q: BigUint<'a>,
    /// The generator, whose order is q.
    pub g: BigUint<'a>,
}

type DssParmsFields<'a> = Fields3<BigUint<'a>, BigUint<'a>, BigUint<'a>>;

impl<'a> Asn1Type for DssParms<'a> {
    ghost der = { structure (λ v. fields3 v.p v.q v.g) ⟦<DssParmsFields<'a> as Row>⟧.list
        (field_names "DssParms" ("p" ∷ "q" ∷ "g" ∷ [])) };

    fn known(&self) {
        known_fields!(self; p, q, g)
    }
}

impl<'a> SimpleAsn1Readable<'a> for DssParms<'a> {
    fn tag() -> Tag
        ensures value { result ≡ ⟦<DssParms<'a> as Asn1Type>⟧.der.content.tag }
        ensures simple { ⟦<DssParms<'a> as Asn1Type>⟧.der.is_simple }
        ensures plain { ⟦<DssParms<'a> as Asn1Type>⟧.der.plain }
        ensures read { ⟦<DssParms<'a> as Asn1Type>⟧.der.is_read }
    {
        Tag::constructed(0x10)
    }

    fn parse_data(alloc: Global, data: &'a [u8]) -> ParseResult<DssParms<'a>>
        ensures { ReadsContents ⟦<DssParms<'a> as Asn1Type>⟧.der «data».entry.now result }
    {
        read_fields!(DssParmsFields<'a>, alloc, data => DssParms; p, q, g)
    }
}

impl<'a> SimpleAsn1Writable for DssParms<'a> {
    type Error = WriteError;

    ghost length_known = { λ _. Unit {0} };

    fn tag() -> Tag
        ensures value { result ≡ ⟦<DssParms<'a> as Asn1Type>⟧.der.content.tag }
        ensures simple { ⟦<DssParms<'a> as Asn1Type>⟧.der.is_simple }
    {
        Tag::constructed(0x10)
    }

    fn write_data(&self, dest: &mut WriteBuf) -> WriteResult<()> {
        write_fields!(self, dest; p, q, g)
    }

    fn data_length(&self) -> Option<usize> {
        fields_length!(self; p, q, g)
    }

    fn writes_as_read() -> bool
        ensures { IsTrue result }
    {
        true
    }
}

/// RSASSA-PSS-params (RFC 4055, 3.1), a SEQUENCE. The defaults of its algorithms are structures: each is `None` if it
/// is left out, and if it is encoded, which DER forbids, it is read.
#[derive(Debug, Clone, Copy, PartialEq, Eq)]
pub struct RsassaPssParams<'a> {
    /// The digest, by default SHA-1 (`sha1Identifier`).
    pub hash_algorithm: Option<AlgorithmIdentifier<'a>>,
    /// The function that makes masks, by default MGF1 with SHA-1 (`mgf1SHA1`).
    pub mask_gen_algorithm: Option<AlgorithmIdentifier<'a>>,
    /// The number of the salt's octets. A number of 2^32 or more is rejected.
    pub salt_length: u32,
    /// The octets at the end: the RFC allows 1 alone. A number of 2^32 or more is rejected.
    pub trailer_field: u32,
}

/// What `salt_length` is if it is left out.
pub struct RsassaPssParamsSaltLength;

impl DefaultValue<Explicit<u32, 2>> for RsassaPssParamsSaltLength {
    ghost default = { record { inner = 20 } };

    fn value() -> Explicit<u32, 2> {
        Explicit::new(20)
    }
}

/// What `trailer_field` is if it is left out.
pub struct RsassaPssParamsTrailerField;

impl DefaultValue<Explicit<u32, 3>> for RsassaPssParamsTrailerField {
    ghost default = { record { inner = 1 } };

    fn value() -> Explicit<u32, 3> {
        Explicit::new(1)
    }
}

type RsassaPssParamsHashAlgorithmField<'a> = Option<Explicit<AlgorithmIdentifier<'a>, 0>>;

type RsassaPssParamsMaskGenAlgorithmField<'a> = Option<Explicit<AlgorithmIdentifier<'a>, 1>>;

type RsassaPssParamsSaltLengthField = Defaulted<Explicit<u32, 2>, RsassaPssParamsSaltLength>;

type RsassaPssParamsTrailerFieldField = Defaulted<Explicit<u32, 3>, RsassaPssParamsTrailerField>;

type RsassaPssParamsFields<'a> = Fields4<
    RsassaPssParamsHashAlgorithmField<'a>,
    RsassaPssParamsMaskGenAlgorithmField<'a>,
    RsassaPssParamsSaltLengthField,
    RsassaPssParamsTrailerFieldField,
>;

macro_rules! fields_of_rsassa_pss_params {
    ($body:ident, $($of:tt)*) => { $body!($($of)*;
        hash_algorithm: RsassaPssParamsHashAlgorithmField<'a>,
        mask_gen_algorithm: RsassaPssParamsMaskGenAlgorithmField<'a>,
        salt_length: RsassaPssParamsSaltLengthField,
        trailer_field: RsassaPssParamsTrailerFieldField) };
}

impl<'a> Asn1Type for RsassaPssParams<'a> {
    ghost der = { structure (λ v. fields4 (option_meaning explicit v.hash_algorithm) (option_meaning
        explicit v.mask_gen_algorithm) (defaulted (explicit v.salt_length)) (defaulted (explicit
        v.trailer_field))) ⟦<RsassaPssParamsFields<'a> as Row>⟧.list (field_names "RsassaPssParams"
        ("hash_algorithm" ∷ "mask_gen_algorithm" ∷ "salt_length" ∷ "trailer_field" ∷ [])) };

    fn known(&self) {
        fields_of_rsassa_pss_params!(known_fields, self)
    }
}

impl<'a> SimpleAsn1Readable<'a> for RsassaPssParams<'a> {
    fn tag() -> Tag
        ensures value { result ≡ ⟦<RsassaPssParams<'a> as Asn1Type>⟧.der.content.tag }
        ensures simple { ⟦<RsassaPssParams<'a> as Asn1Type>⟧.der.is_simple }
        ensures plain { ⟦<RsassaPssParams<'a> as Asn1Type>⟧.der.plain }
        ensures read { ⟦<RsassaPssParams<'a> as Asn1Type>⟧.der.is_read }
    {
        Tag::constructed(0x10)
    }

    fn parse_data(alloc: Global, data: &'a [u8]) -> ParseResult<RsassaPssParams<'a>>
        ensures { ReadsContents ⟦<RsassaPssParams<'a> as Asn1Type>⟧.der «data».entry.now result }
    {
        fields_of_rsassa_pss_params!(read_fields,
            RsassaPssParamsFields<'a>, alloc, data => RsassaPssParams)
    }
}

impl<'a> SimpleAsn1Writable for RsassaPssParams<'a> {
    type Error = WriteError;

    ghost length_known = { λ v.
        ⟦<Option<Explicit<AlgorithmIdentifier<'a>, 0>> as Asn1Writable>⟧.length_known
        (option_meaning explicit v.hash_algorithm) ×
        ⟦<Option<Explicit<AlgorithmIdentifier<'a>, 1>> as Asn1Writable>⟧.length_known
        (option_meaning explicit v.mask_gen_algorithm) };

    fn tag() -> Tag
        ensures value { result ≡ ⟦<RsassaPssParams<'a> as Asn1Type>⟧.der.content.tag }
        ensures simple { ⟦<RsassaPssParams<'a> as Asn1Type>⟧.der.is_simple }
    {
        Tag::constructed(0x10)
    }

    fn write_data(&self, dest: &mut WriteBuf) -> WriteResult<()> {
        fields_of_rsassa_pss_params!(write_fields, self, dest)
    }

    fn data_length(&self) -> Option<usize> {
        fields_of_rsassa_pss_params!(fields_length, self)
    }

    fn writes_as_read() -> bool
        ensures { IsTrue result }
    {
        true
    }
}

/// The laws of the types, which do nothing.
pub mod laws {
    use super::{
        DssParms, EcPrivateKey, EncryptedPrivateKeyInfo, OneAsymmetricKey, OtherPrimeInfo,
        OtherPrimeInfos, RsaPrivateKey, RsaPublicKey, RsassaPssParams,
    };
    use asn1::Asn1Type;

    /// Each value of `OneAsymmetricKey` has one encoding, which is read back.
    pub fn one_asymmetric_key_is_lawful()
        ensures { HasOneEncoding ⟦<OneAsymmetricKey<'static> as Asn1Type>⟧.der }
    {
        crate::common::laws::algorithm_identifier_is_lawful();
        crate::common::laws::attributes_is_lawful();
    }

    /// Each value of `EncryptedPrivateKeyInfo` has one encoding, which is read back.
    pub fn encrypted_private_key_info_is_lawful()
        ensures { HasOneEncoding ⟦<EncryptedPrivateKeyInfo<'static> as Asn1Type>⟧.der }
    {
        crate::common::laws::algorithm_identifier_is_lawful();
    }

    /// Each value of `RsaPublicKey` has one encoding, which is read back.
    pub fn rsa_public_key_is_lawful()
        ensures { HasOneEncoding ⟦<RsaPublicKey<'static> as Asn1Type>⟧.der }
    {}

    /// Each value of `OtherPrimeInfo` has one encoding, which is read back.
    pub fn other_prime_info_is_lawful()
        ensures { HasOneEncoding ⟦<OtherPrimeInfo<'static> as Asn1Type>⟧.der }
    {}

    /// Each value of `OtherPrimeInfos` has one encoding, which is read back.
    pub fn other_prime_infos_is_lawful()
        ensures { HasOneEncoding ⟦<OtherPrimeInfos<'static> as Asn1Type>⟧.der }
    {
        other_prime_info_is_lawful();
    }

    /// Each value of `RsaPrivateKey` has one encoding, which is read back.
    pub fn rsa_private_key_is_lawful()
        ensures { HasOneEncoding ⟦<RsaPrivateKey<'static> as Asn1Type>⟧.der }
    {
        other_prime_infos_is_lawful();
    }

    /// Each value of `EcPrivateKey` has one encoding, which is read back.
    pub fn ec_private_key_is_lawful()
        ensures { HasOneEncoding ⟦<EcPrivateKey<'static> as Asn1Type>⟧.der }
    {}

    /// Each value of `DssParms` has one encoding, which is read back.
    pub fn dss_parms_is_lawful()
        ensures { HasOneEncoding ⟦<DssParms<'static> as Asn1Type>⟧.der }
    {}

    /// Each value of `RsassaPssParams` has one encoding, which is read back.
    pub fn rsassa_pss_params_is_lawful()
        ensures { HasOneEncoding ⟦<RsassaPssParams<'static> as Asn1Type>⟧.der }
    {
        crate::common::laws::algorithm_identifier_is_lawful();
    }
}
