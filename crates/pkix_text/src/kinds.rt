//! What an input may be.

ghost use Rattle.std.specs.Prelude.{◌≡◌};
ghost use Rattle.pkix_text.specs.Program.{kind_name, kind_named};

/// The labels in PEM, by RFC 7468 and as OpenSSL writes them, of the objects of each kind that has any.
const LABELS: &[(&[u8], Kind)] = &[
    (b"CERTIFICATE", Kind::Certificate),
    (b"X509 CERTIFICATE", Kind::Certificate),
    (b"X509 CRL", Kind::Crl),
    (b"CERTIFICATE REQUEST", Kind::Request),
    (b"NEW CERTIFICATE REQUEST", Kind::Request),
    (b"PRIVATE KEY", Kind::Key),
    (b"PUBLIC KEY", Kind::Key),
    (b"RSA PRIVATE KEY", Kind::Key),
    (b"RSA PUBLIC KEY", Kind::Key),
    (b"EC PRIVATE KEY", Kind::Key),
    (b"CMS", Kind::Signature),
    (b"PKCS7", Kind::Signature),
    (b"PKCS #7 SIGNED DATA", Kind::Signature),
];

/// What an input should be the encoding of.
#[derive(Debug, Clone, Copy, PartialEq, Eq)]
pub enum Kind {
    /// `certificate`: a Certificate (RFC 5280, 4.1).
    Certificate,
    /// `crl`: a CertificateList (RFC 5280, 5.1).
    Crl,
    /// `request`: a CertificationRequest (RFC 2986, 4.2).
    Request,
    /// `key`: a OneAsymmetricKey (RFC 5958, 2), ECPrivateKey (RFC 5915, 3), RSAPrivateKey or RSAPublicKey (RFC 8017,
    /// A.1), or SubjectPublicKeyInfo (RFC 5280, 4.1).
    Key,
    /// `signature`: an ECDSA-Sig-Value (RFC 3279, 2.2.3), a DigestInfo (RFC 8017, 9.2) or a ContentInfo (RFC 5652, 3).
    Signature,
    /// `timestamp-request`: a TimeStampReq (RFC 3161, 2.4.1).
    TimestampRequest,
    /// `timestamp-response`: a TimeStampResp (RFC 3161, 2.4.2).
    TimestampResponse,
}

impl Kind {
    /// Each kind once.
    pub const ALL: &'static [Kind] = &[
        Kind::Certificate,
        Kind::Crl,
        Kind::Request,
        Kind::Key,
        Kind::Signature,
        Kind::TimestampRequest,
        Kind::TimestampResponse,
    ];

    /// The names, for a user who gave none of them.
    pub const NAMES: &'static str =
        "certificate, crl, request, key, signature, timestamp-request, timestamp-response";

    /// The name, as it is in an argument.
    pub(crate) fn name(self) -> &'static [u8]
        ensures { result.now ≡ kind_name self }
    {
        match self {
            Kind::Certificate => b"certificate",
            Kind::Crl => b"crl",
            Kind::Request => b"request",
            Kind::Key => b"key",
            Kind::Signature => b"signature",
            Kind::TimestampRequest => b"timestamp-request",
            Kind::TimestampResponse => b"timestamp-response",
        }
    }

    /// The kind with this name.
    pub fn named(name: &[u8]) -> Option<Kind>
        ensures { result ≡ kind_named name.now }
    {
        Kind::ALL.iter().copied().find(|kind| kind.name() == name)
    }

    /// The kind of the objects with this label in PEM.
    pub(crate) fn labelled(label: &[u8]) -> Option<Kind> {
        let row = LABELS.iter().find(|row| row.0 == label)?;
        Some(row.1)
    }
}
