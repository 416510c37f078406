//! Parameters of algorithms, which their identifiers define (RFC 3279, 3370, 4055, 5480, 5754, 5758, 8410).

ghost use Rattle.std.specs.Prelude.{◌≡◌};
ghost use Rattle.asn1.specs.Identifier.{read_identifier};
ghost use Rattle.asn1.specs.IdentifierValues.{identifier_of};
ghost use Rattle.pkix.specs.Algorithms.{algorithm_numbers, algorithm_with, form_of, parameter_octets, ReadsForm};
ghost use Rattle.pkix.specs.Algorithms.{ReadsParameters};

use crate::common::AlgorithmIdentifier;
use crate::keys::{DssParms, RsassaPssParams};
use asn1::fields::{is_identifier, known_identifier};
use asn1::{
    Asn1Type, ObjectIdentifier, ParseError, ParseErrorKind, ParseResult, Tlv, parse_single,
};
use std::alloc::Global;

/// An algorithm whose parameters have a type here.
#[derive(Debug, Clone, Copy, PartialEq, Eq)]
pub enum KnownAlgorithm {
    /// rsaEncryption (RFC 3279, 2.3.1).
    RsaEncryption,
    /// sha-1WithRSAEncryption (RFC 3279, 2.2.1).
    Sha1WithRsaEncryption,
    /// sha224WithRSAEncryption (RFC 4055, 5).
    Sha224WithRsaEncryption,
    /// sha256WithRSAEncryption (RFC 4055, 5).
    Sha256WithRsaEncryption,
    /// sha384WithRSAEncryption (RFC 4055, 5).
    Sha384WithRsaEncryption,
    /// sha512WithRSAEncryption (RFC 4055, 5).
    Sha512WithRsaEncryption,
    /// id-RSASSA-PSS (RFC 4055, 3).
    RsassaPss,
    /// id-dsa (RFC 3279, 2.3.2).
    Dsa,
    /// dsa-with-sha1 (RFC 3279, 2.2.2).
    DsaWithSha1,
    /// dsa-with-sha224 (RFC 5758, 3.1).
    DsaWithSha224,
    /// dsa-with-sha256 (RFC 5758, 3.1).
    DsaWithSha256,
    /// id-ecPublicKey (RFC 5480, 2.1.1).
    EcPublicKey,
    /// id-ecDH (RFC 5480, 2.1.2).
    EcDh,
    /// id-ecMQV (RFC 5480, 2.1.2).
    EcMqv,
    /// ecdsa-with-SHA1 (RFC 3279, 2.2.3).
    EcdsaWithSha1,
    /// ecdsa-with-SHA224 (RFC 5758, 3.2).
    EcdsaWithSha224,
    /// ecdsa-with-SHA256 (RFC 5758, 3.2).
    EcdsaWithSha256,
    /// ecdsa-with-SHA384 (RFC 5758, 3.2).
    EcdsaWithSha384,
    /// ecdsa-with-SHA512 (RFC 5758, 3.2).
    EcdsaWithSha512,
    /// id-Ed25519 (RFC 8410, 3).
    Ed25519,
    /// id-Ed448 (RFC 8410, 3).
    Ed448,
    /// id-X25519 (RFC 8410, 3).
    X25519,
    /// id-X448 (RFC 8410, 3).
    X448,
    /// id-sha1 (RFC 3370, 2.1).
    Sha1,
    /// id-sha224 (RFC 5754, 2.1).
    Sha224,
    /// id-sha256 (RFC 5754, 2.2).
    Sha256,
    /// id-sha384 (RFC 5754, 2.3).
    Sha384,
    /// id-sha512 (RFC 5754, 2.4).
    Sha512,
}

/// What the parameters of an algorithm are.
#[derive(Clone, Copy)]
pub(crate) enum ParametersForm {
    /// NULL, which has to be there.
    Null,
    /// The identifier of a curve.
    NamedCurve,
    /// None.
    Absent,
    /// NULL, or none.
    NullOrAbsent,
    /// Dss-Parms, or none.
    DssOrAbsent,
    /// RSASSA-PSS-params, or none.
    RsassaPssOrAbsent,
}

impl KnownAlgorithm {
    /// Each of them once.
    pub const ALL: &'static [KnownAlgorithm] = &[
        KnownAlgorithm::RsaEncryption,
        KnownAlgorithm::Sha1WithRsaEncryption,
        KnownAlgorithm::Sha224WithRsaEncryption,
        KnownAlgorithm::Sha256WithRsaEncryption,
        KnownAlgorithm::Sha384WithRsaEncryption,
        KnownAlgorithm::Sha512WithRsaEncryption,
        KnownAlgorithm::RsassaPss,
        KnownAlgorithm::Dsa,
        KnownAlgorithm::DsaWithSha1,
        KnownAlgorithm::DsaWithSha224,
        KnownAlgorithm::DsaWithSha256,
        KnownAlgorithm::EcPublicKey,
        KnownAlgorithm::EcDh,
        KnownAlgorithm::EcMqv,
        KnownAlgorithm::EcdsaWithSha1,
        KnownAlgorithm::EcdsaWithSha224,
        KnownAlgorithm::EcdsaWithSha256,
        KnownAlgorithm::EcdsaWithSha384,
        KnownAlgorithm::EcdsaWithSha512,
        KnownAlgorithm::Ed25519,
        KnownAlgorithm::Ed448,
        KnownAlgorithm::X25519,
        KnownAlgorithm::X448,
        KnownAlgorithm::Sha1,
        KnownAlgorithm::Sha224,
        KnownAlgorithm::Sha256,
        KnownAlgorithm::Sha384,
        KnownAlgorithm::Sha512,
    ];

    /// The contents octets of its identifier.
    fn contents(self) -> &'static [u8]
        ensures octets { read_identifier result.now ≡ Ok (algorithm_numbers self) }
        ensures found { algorithm_with (algorithm_numbers self) ≡ Some self }
    {
        match self {
            KnownAlgorithm::RsaEncryption => b"\x2a\x86\x48\x86\xf7\x0d\x01\x01\x01",
            KnownAlgorithm::Sha1WithRsaEncryption => b"\x2a\x86\x48\x86\xf7\x0d\x01\x01\x05",
            KnownAlgorithm::Sha224WithRsaEncryption => b"\x2a\x86\x48\x86\xf7\x0d\x01\x01\x0e",
            KnownAlgorithm::Sha256WithRsaEncryption => b"\x2a\x86\x48\x86\xf7\x0d\x01\x01\x0b",
            KnownAlgorithm::Sha384WithRsaEncryption => b"\x2a\x86\x48\x86\xf7\x0d\x01\x01\x0c",
            KnownAlgorithm::Sha512WithRsaEncryption => b"\x2a\x86\x48\x86\xf7\x0d\x01\x01\x0d",
            KnownAlgorithm::RsassaPss => b"\x2a\x86\x48\x86\xf7\x0d\x01\x01\x0a",
            KnownAlgorithm::Dsa => b"\x2a\x86\x48\xce\x38\x04\x01",
            KnownAlgorithm::DsaWithSha1 => b"\x2a\x86\x48\xce\x38\x04\x03",
            KnownAlgorithm::DsaWithSha224 => b"\x60\x86\x48\x01\x65\x03\x04\x03\x01",
            KnownAlgorithm::DsaWithSha256 => b"\x60\x86\x48\x01\x65\x03\x04\x03\x02",
            KnownAlgorithm::EcPublicKey => b"\x2a\x86\x48\xce\x3d\x02\x01",
            KnownAlgorithm::EcDh => b"\x2b\x81\x04\x01\x0c",
            KnownAlgorithm::EcMqv => b"\x2b\x81\x04\x01\x0d",
            KnownAlgorithm::EcdsaWithSha1 => b"\x2a\x86\x48\xce\x3d\x04\x01",
            KnownAlgorithm::EcdsaWithSha224 => b"\x2a\x86\x48\xce\x3d\x04\x03\x01",
            KnownAlgorithm::EcdsaWithSha256 => b"\x2a\x86\x48\xce\x3d\x04\x03\x02",
            KnownAlgorithm::EcdsaWithSha384 => b"\x2a\x86\x48\xce\x3d\x04\x03\x03",
            KnownAlgorithm::EcdsaWithSha512 => b"\x2a\x86\x48\xce\x3d\x04\x03\x04",
            KnownAlgorithm::Ed25519 => b"\x2b\x65\x70",
            KnownAlgorithm::Ed448 => b"\x2b\x65\x71",
            KnownAlgorithm::X25519 => b"\x2b\x65\x6e",
            KnownAlgorithm::X448 => b"\x2b\x65\x6f",
            KnownAlgorithm::Sha1 => b"\x2b\x0e\x03\x02\x1a",
            KnownAlgorithm::Sha224 => b"\x60\x86\x48\x01\x65\x03\x04\x02\x04",
            KnownAlgorithm::Sha256 => b"\x60\x86\x48\x01\x65\x03\x04\x02\x01",
            KnownAlgorithm::Sha384 => b"\x60\x86\x48\x01\x65\x03\x04\x02\x02",
            KnownAlgorithm::Sha512 => b"\x60\x86\x48\x01\x65\x03\x04\x02\x03",
        }
    }

    /// Its identifier, which [`Self::with_identifier`] finds.
    pub fn identifier(self) -> ObjectIdentifier
        ensures value { identifier_of result ≡ algorithm_numbers self }
        ensures found { algorithm_with (identifier_of result) ≡ Some self }
    {
        known_identifier(self.contents())
    }

    /// The one with this identifier.
    pub fn with_identifier(identifier: &ObjectIdentifier) -> Option<KnownAlgorithm>
        ensures { result ≡ algorithm_with (identifier_of identifier.now) }
    {
        KnownAlgorithm::ALL.iter().copied().find(|algorithm| is_identifier(
            identifier,
            algorithm.identifier(),
        ))
    }

    /// What its parameters are.
    pub(crate) fn form(self) -> ParametersForm
        ensures { result ≡ form_of self }
    {
        match self {
            KnownAlgorithm::RsaEncryption | KnownAlgorithm::Sha1WithRsaEncryption => {
                ParametersForm::Null
            }
            KnownAlgorithm::EcPublicKey | KnownAlgorithm::EcDh | KnownAlgorithm::EcMqv => {
                ParametersForm::NamedCurve
            }
            KnownAlgorithm::RsassaPss => ParametersForm::RsassaPssOrAbsent,
            KnownAlgorithm::Dsa => ParametersForm::DssOrAbsent,
            KnownAlgorithm::DsaWithSha1
            | KnownAlgorithm::DsaWithSha224
            | KnownAlgorithm::DsaWithSha256
            | KnownAlgorithm::EcdsaWithSha1
            | KnownAlgorithm::EcdsaWithSha224
            | KnownAlgorithm::EcdsaWithSha256
            | KnownAlgorithm::EcdsaWithSha384
            | KnownAlgorithm::EcdsaWithSha512
            | KnownAlgorithm::Ed25519
            | KnownAlgorithm::Ed448
            | KnownAlgorithm::X25519
            | KnownAlgorithm::X448 => ParametersForm::Absent,
            KnownAlgorithm::Sha224WithRsaEncryption
            | KnownAlgorithm::Sha256WithRsaEncryption
            | KnownAlgorithm::Sha384WithRsaEncryption
            | KnownAlgorithm::Sha512WithRsaEncryption
            | KnownAlgorithm::Sha1
            | KnownAlgorithm::Sha224
            | KnownAlgorithm::Sha256
            | KnownAlgorithm::Sha384
            | KnownAlgorithm::Sha512 => ParametersForm::NullOrAbsent,
        }
    }
}

impl ParametersForm {
    /// Reads all of these octets as parameters of this form.
    pub(crate) fn read<'a>(
        self,
        alloc: Global,
        octets: &'a [u8],
    ) -> ParseResult<AlgorithmParameters<'a>>
        ensures { ReadsForm ⟦<DssParms<'a> as Asn1Type>⟧.der
            ⟦<RsassaPssParams<'a> as Asn1Type>⟧.der self octets.entry.now result }
    {
        match self {
            ParametersForm::Null => {
                parse_single::<()>(alloc, octets)?;
                Ok(AlgorithmParameters::Null)
            }
            ParametersForm::NamedCurve => {
                Ok(AlgorithmParameters::NamedCurve(parse_single(alloc, octets)?))
            }
            ParametersForm::Absent => {
                if octets.is_empty() {
                    Ok(AlgorithmParameters::Absent)
                } else {
                    Err(ParseError::new(ParseErrorKind::ExtraData))
                }
            }
            ParametersForm::NullOrAbsent => match parse_single::<Option<()>>(alloc, octets)? {
                Some(()) => Ok(AlgorithmParameters::Null),
                None => Ok(AlgorithmParameters::Absent),
            },
            ParametersForm::DssOrAbsent => match parse_single(alloc, octets)? {
                Some(parameters) => Ok(AlgorithmParameters::Dss(parameters)),
                None => Ok(AlgorithmParameters::Absent),
            },
            ParametersForm::RsassaPssOrAbsent => match parse_single(alloc, octets)? {
                Some(parameters) => Ok(AlgorithmParameters::RsassaPss(parameters)),
                None => Ok(AlgorithmParameters::Absent),
            },
        }
    }
}

/// The parameters of an algorithm, read as the type that its identifier defines.
#[derive(Debug, Clone, Copy, PartialEq, Eq)]
pub enum AlgorithmParameters<'a> {
    /// NULL. RSA has to have it, except in signatures with SHA-2. Digests may have it.
    Null,
    /// No parameters. Signatures by DSA and ECDSA and the algorithms of RFC 8410 may not have any. Digests may have
    /// none. Signatures by RSA with SHA-2 are written with NULL and have to be read without it too (RFC 4055, 5).
    /// id-dsa has none if they are inherited (RFC 3279, 2.3.2). id-RSASSA-PSS has to have parameters in a signature but
    /// not with a key (RFC 4055, 3.1): where they are isn't checked.
    Absent,
    /// Those of DSA, with a key.
    Dss(DssParms<'a>),
    /// Those of RSASSA-PSS.
    RsassaPss(RsassaPssParams<'a>),
    /// The identifier of a curve, which the algorithms of RFC 5480 have to have.
    NamedCurve(ObjectIdentifier),
    /// The parameters of every other algorithm, as they are.
    Other(Option<Tlv<'a>>),
}

impl<'a> AlgorithmIdentifier<'a> {
    /// The octets of the parameters: none if there is no element.
    fn parameter_octets(&self) -> &'a [u8]
        ensures { result.now ≡ parameter_octets self.now.parameters }
    {
        match self.parameters {
            Some(element) => element.full_data(),
            None => &[],
        }
    }

    /// The parameters, read as [`asn1::parse_single`] reads the type that `algorithm` defines. The parameters of an
    /// algorithm that isn't a [`KnownAlgorithm`] stay as they are.
    ///
    /// Returns the first error of the element's octets, or of no octets if there is no element: `ShortData` if there
    /// have to be parameters and there are none, and `UnexpectedTag` or `InvalidValue` if they aren't of that type.
    /// `ExtraData` if there are parameters and none are allowed, or if optional parameters have another tag. Of a
    /// structure it returns the first error of a field too.
    pub fn read_parameters(&self, alloc: Global) -> ParseResult<AlgorithmParameters<'a>>
        ensures { ReadsParameters ⟦<DssParms<'a> as Asn1Type>⟧.der
            ⟦<RsassaPssParams<'a> as Asn1Type>⟧.der
            (algorithm_with (identifier_of self.now.algorithm)) self.now.parameters result }
    {
        let Some(algorithm) = KnownAlgorithm::with_identifier(&self.algorithm) else {
            return Ok(AlgorithmParameters::Other(self.parameters));
        };
        algorithm.form().read(alloc, self.parameter_octets())
    }
}
