//! Certificates (RFC 5280, 4.1), revocation lists (RFC 5280, 5.1) and requests (RFC 2986, 4).

use crate::show::{Lines, Show, fields};
use pkix::certificate::{Certificate, TbsCertificate, Validity};
use pkix::request::{CertificationRequest, CertificationRequestInfo};
use pkix::revocation::{CertificateList, RevokedCertificate, TbsCertList};

impl Show for Validity {
    fn show(&self, lines: &mut Lines) {
        fields!(lines, self, Validity: not_before, not_after);
    }
}

impl Show for TbsCertificate<'_> {
    fn show(&self, lines: &mut Lines) {
        fields!(lines, self, TbsCertificate:
            version, serial_number, signature, issuer, validity, subject, subject_public_key_info,
            issuer_unique_id, subject_unique_id, extensions);
    }
}

/// The fields of its `tbsCertificate` are at the certificate's own location.
impl Show for Certificate<'_> {
    fn show(&self, lines: &mut Lines) {
        self.tbs_certificate.show(lines);
        fields!(lines, self, Certificate: signature_algorithm, signature_value);
    }
}

impl Show for RevokedCertificate<'_> {
    fn show(&self, lines: &mut Lines) {
        fields!(lines, self, RevokedCertificate:
            user_certificate, revocation_date, crl_entry_extensions);
    }
}

impl Show for TbsCertList<'_> {
    fn show(&self, lines: &mut Lines) {
        fields!(lines, self, TbsCertList:
            version, signature, issuer, this_update, next_update, revoked_certificates,
            crl_extensions);
    }
}

/// The fields of its `tbsCertList` are at the list's own location.
impl Show for CertificateList<'_> {
    fn show(&self, lines: &mut Lines) {
        self.tbs_cert_list.show(lines);
        fields!(lines, self, CertificateList: signature_algorithm, signature_value);
    }
}

impl Show for CertificationRequestInfo<'_> {
    fn show(&self, lines: &mut Lines) {
        fields!(lines, self, CertificationRequestInfo:
            version, subject, subject_pk_info, attributes);
    }
}

/// The fields of its `certificationRequestInfo` are at the request's own location.
impl Show for CertificationRequest<'_> {
    fn show(&self, lines: &mut Lines) {
        self.certification_request_info.show(lines);
        fields!(lines, self, CertificationRequest: signature_algorithm, signature);
    }
}
