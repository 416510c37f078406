//! Signatures (RFC 3279, 2.2; RFC 8017, 9.2) and signed data (RFC 5652, 3 and 5).

use crate::show::{Lines, Numbered, Show, fields};
use pkix::signatures::{
    ContentInfo, DigestInfo, EcdsaSigValue, EncapsulatedContentInfo, IssuerAndSerialNumber,
    SignedData, SignerIdentifier, SignerInfo,
};
use pkix::timestamps::TstInfo;

/// The first line says what two integers are taken for.
impl Show for EcdsaSigValue<'_> {
    fn show(&self, lines: &mut Lines) {
        lines.part("form", &"two integers, read as an ECDSA-Sig-Value");
        fields!(lines, self, EcdsaSigValue: r, s);
    }
}

impl Show for DigestInfo<'_> {
    fn show(&self, lines: &mut Lines) {
        fields!(lines, self, DigestInfo: digest_algorithm, digest);
    }
}

impl Show for IssuerAndSerialNumber<'_> {
    fn show(&self, lines: &mut Lines) {
        fields!(lines, self, IssuerAndSerialNumber: issuer, serial_number);
    }
}

/// The identifier, with its alternative as its location.
impl Show for SignerIdentifier<'_> {
    fn show(&self, lines: &mut Lines) {
        match self {
            SignerIdentifier::IssuerAndSerialNumber(id) => lines.part("issuerAndSerialNumber", id),
            SignerIdentifier::SubjectKeyIdentifier(id) => lines.part("subjectKeyIdentifier", id),
        }
    }
}

impl Show for SignerInfo<'_> {
    fn show(&self, lines: &mut Lines) {
        fields!(lines, self, SignerInfo:
            version, sid, digest_algorithm, signed_attrs, signature_algorithm, signature,
            unsigned_attrs);
    }
}

/// The content is shown as a TSTInfo if its type is that, and else as octets.
impl Show for EncapsulatedContentInfo<'_> {
    fn show(&self, lines: &mut Lines) {
        fields!(lines, self, EncapsulatedContentInfo: e_content_type);
        let name = lines.short_name(&self.e_content_type);
        match self.e_content {
            Some(octets) if name.as_str() == "tSTInfo" => {
                lines.inner::<TstInfo<'_>>("EncapsulatedContentInfo::e_content", octets)
            }
            octets => fields!(lines, self, EncapsulatedContentInfo: e_content = &octets),
        }
    }
}

impl Show for SignedData<'_> {
    fn show(&self, lines: &mut Lines) {
        fields!(lines, self, SignedData:
            version, digest_algorithms = &Numbered(Some(&self.digest_algorithms)),
            encap_content_info, certificates = &Numbered(self.certificates.as_ref()),
            crls = &Numbered(self.crls.as_ref()),
            signer_infos = &Numbered(Some(&self.signer_infos)));
    }
}

/// The content is shown as SignedData if its type is that, and else as octets.
impl Show for ContentInfo<'_> {
    fn show(&self, lines: &mut Lines) {
        fields!(lines, self, ContentInfo: content_type);
        match lines.short_name(&self.content_type).as_str() {
            "signedData" => lines.inner::<SignedData<'_>>(
                "ContentInfo::content",
                self.content.full_data(),
            ),
            _ => lines.element("ContentInfo::content", self.content),
        }
    }
}
