//! Extensions (RFC 5280, 4.2 and 5.2), the known ones with their values.

use crate::common::OfSubject;
use crate::show::{Lines, Show, bmp_characters, characters, fields, with_name};
use crate::transparency::Timestamps;
use asn1::{SequenceOf, parse_single};
use pkix::certificate::access::AccessDescription;
use pkix::certificate::distribution::{
    DistributionPoint, DistributionPointName, IssuingDistributionPoint,
};
use pkix::certificate::extensions::{AuthorityKeyIdentifier, BasicConstraints};
use pkix::certificate::policies::{
    DisplayText, GeneralSubtree, NameConstraints, NoticeReference, PolicyConstraints,
    PolicyInformation, PolicyMapping, PolicyQualifierInfo, UserNotice,
};
use pkix::common::{Extension, NamedBits};
use pkix::extension_values::ExtensionValue;
use pkix::revocation::extensions::CrlReason;

impl Show for BasicConstraints<'_> {
    fn show(&self, lines: &mut Lines) {
        fields!(lines, self, BasicConstraints: ca, path_len_constraint);
    }
}

impl Show for AuthorityKeyIdentifier<'_> {
    fn show(&self, lines: &mut Lines) {
        fields!(lines, self, AuthorityKeyIdentifier:
            key_identifier, authority_cert_issuer, authority_cert_serial_number);
    }
}

/// The usages' names, in the order of their bits (RFC 5280, 4.2.1.3).
const USAGES: &str = "digitalSignature nonRepudiation keyEncipherment dataEncipherment \
    keyAgreement keyCertSign cRLSign encipherOnly decipherOnly";

/// The reasons' names, in the order of their bits (RFC 5280, 4.2.1.13).
const REASONS: &str = "unused keyCompromise cACompromise affiliationChanged superseded \
    cessationOfOperation certificateHold privilegeWithdrawn aACompromise";

/// Bits, if there are any, and the names of all in their order.
#[derive(Drop)]
pub(crate) struct Named<'a>(pub(crate) Option<&'a NamedBits<'a>>, pub(crate) &'a str);

/// The bits, and the name of each that is set.
impl Show for Named<'_> {
    fn show(&self, lines: &mut Lines) {
        let Named(Some(bits), names) = self else {
            lines.is_absent = true;
            return;
        };
        bits.show(lines);
        for (bit, name) in names.split(' ').enumerate() {
            if bits.has_bit_set(bit) {
                lines.part(name, &true);
            }
        }
    }
}

impl Show for AccessDescription<'_> {
    fn show(&self, lines: &mut Lines) {
        fields!(lines, self, AccessDescription: access_method, access_location);
    }
}

/// The names of each reason of an entry, from 0 (RFC 5280, 5.3.1). 7 isn't used.
const ENTRY_REASONS: &str = "unspecified keyCompromise cACompromise affiliationChanged superseded \
    cessationOfOperation certificateHold unknown removeFromCRL privilegeWithdrawn aACompromise";

impl Show for CrlReason {
    fn show(&self, lines: &mut Lines) {
        with_name(lines.alloc, self.value(), ENTRY_REASONS).show(lines);
    }
}

impl Show for DistributionPointName<'_> {
    fn show(&self, lines: &mut Lines) {
        match self {
            DistributionPointName::FullName(names) => lines.part("fullName", names),
            DistributionPointName::NameRelativeToCrlIssuer(set) => {
                lines.part("nameRelativeToCRLIssuer", set)
            }
        }
    }
}

impl Show for DistributionPoint<'_> {
    fn show(&self, lines: &mut Lines) {
        fields!(lines, self, DistributionPoint:
            distribution_point, reasons = &Named(self.reasons.as_ref(), REASONS), crl_issuer);
    }
}

impl Show for IssuingDistributionPoint<'_> {
    fn show(&self, lines: &mut Lines) {
        fields!(lines, self, IssuingDistributionPoint:
            distribution_point, only_contains_user_certs, only_contains_ca_certs,
            only_some_reasons = &Named(self.only_some_reasons.as_ref(), REASONS),
            indirect_crl, only_contains_attribute_certs);
    }
}

impl Show for ExtensionValue<'_> {
    fn show(&self, lines: &mut Lines) {
        match self {
            ExtensionValue::AuthorityInfoAccess(value) => value.show(lines),
            ExtensionValue::AuthorityKeyIdentifier(value) => value.show(lines),
            ExtensionValue::BasicConstraints(value) => value.show(lines),
            ExtensionValue::CertificateIssuer(value) => value.show(lines),
            ExtensionValue::CertificatePolicies(value) => value.show(lines),
            ExtensionValue::CrlDistributionPoints(value) => value.show(lines),
            ExtensionValue::CrlNumber(value) => value.show(lines),
            ExtensionValue::CrlReason(value) => value.show(lines),
            ExtensionValue::DeltaCrlIndicator(value) => value.show(lines),
            ExtensionValue::ExtendedKeyUsage(value) => value.show(lines),
            ExtensionValue::FreshestCrl(value) => value.show(lines),
            ExtensionValue::InhibitAnyPolicy(value) => value.show(lines),
            ExtensionValue::InvalidityDate(value) => value.show(lines),
            ExtensionValue::IssuerAltName(value) => value.show(lines),
            ExtensionValue::IssuingDistributionPoint(value) => value.show(lines),
            ExtensionValue::KeyUsage(value) => Named(Some(value), USAGES).show(lines),
            ExtensionValue::NameConstraints(value) => value.show(lines),
            ExtensionValue::PolicyConstraints(value) => value.show(lines),
            ExtensionValue::PolicyMappings(value) => value.show(lines),
            ExtensionValue::SubjectAltName(value) => value.show(lines),
            ExtensionValue::SubjectDirectoryAttributes(value) => OfSubject(value).show(lines),
            ExtensionValue::SubjectInfoAccess(value) => value.show(lines),
            ExtensionValue::SubjectKeyIdentifier(value) => value.show(lines),
            ExtensionValue::Other(value) => value.show(lines),
        }
    }
}

/// A list of numbers of extensions of TLS.
type Numbers<'a> = SequenceOf<'a, u16, 0, { usize::MAX }>;

/// The extensions that a server of TLS has to have, by their numbers (RFC 7633, 4.1).
#[derive(Drop)]
struct Features<'a>(Numbers<'a>);

/// Each number, with the extension's name if it is one that certificates demand (RFC 6066, 8; RFC 6961, 2.2).
impl Show for Features<'_> {
    fn show(&self, lines: &mut Lines) {
        let mut count = 0usize;
        for item in self.0.clone().unwrap() {
            let Some(number) = lines.item(item) else {
                return
            };
            let place = lines.kept(format!(in lines.alloc; "{count}"));
            let name = match number {
                5 => "status_request",
                17 => "status_request_v2",
                _ => "unknown",
            };
            lines.part(
                place.as_str(),
                &format!(in lines.alloc; "{number} ({name})"),
            );
            count = count.saturating_add(1);
        }
    }
}

/// Appends the lines of an extension whose value has no type in `pkix`.
fn show_other(lines: &mut Lines, name: &str, octets: &[u8]) {
    let alloc = lines.alloc;
    match name {
        "tlsFeature" => {
            let numbers = parse_single::<Numbers<'_>>(alloc, octets);
            lines.read(name, octets, numbers.map(Features))
        }
        "signedCertificateTimestampList" => {
            let list = parse_single::<&[u8]>(alloc, octets);
            lines.read(name, octets, list.map(Timestamps))
        }
        _ => lines.part("Extension::extn_value", &octets),
    }
}

/// The value of a known extension is shown under the extension's name. Other values are shown as octets, with the
/// reason if they aren't the encoding of a value that the identifier names.
impl Show for Extension<'_> {
    fn show(&self, lines: &mut Lines) {
        fields!(lines, self, Extension: extn_id, critical);
        let name = lines.short_name(&self.extn_id);
        match self.value(lines.alloc) {
            Ok(ExtensionValue::Other(octets)) => show_other(lines, name.as_str(), octets),
            Ok(value) => lines.part(name.as_str(), &value),
            value => lines.read("Extension::extn_value", self.extn_value, value),
        }
    }
}

/// The characters after their type, unless that is UTF8String.
impl Show for DisplayText<'_> {
    fn show(&self, lines: &mut Lines) {
        let alloc = lines.alloc;
        let text = match self {
            DisplayText::Ia5(text) => characters(alloc, "(IA5String) ", text.as_str()),
            DisplayText::Visible(text) => characters(alloc, "(VisibleString) ", text.as_str()),
            DisplayText::Bmp(text) => bmp_characters(alloc, text),
            DisplayText::Utf8(text) => characters(alloc, "", text.as_str()),
        };
        text.show(lines);
    }
}

impl Show for NoticeReference<'_> {
    fn show(&self, lines: &mut Lines) {
        fields!(lines, self, NoticeReference: organization, notice_numbers);
    }
}

impl Show for UserNotice<'_> {
    fn show(&self, lines: &mut Lines) {
        fields!(lines, self, UserNotice: notice_ref, explicit_text);
    }
}

/// The qualifier is shown as a UserNotice if its identifier is that, and else as an element.
impl Show for PolicyQualifierInfo<'_> {
    fn show(&self, lines: &mut Lines) {
        fields!(lines, self, PolicyQualifierInfo: policy_qualifier_id);
        match lines.short_name(&self.policy_qualifier_id).as_str() {
            "unotice" => {
                let octets = self.qualifier.full_data();
                lines.inner::<UserNotice<'_>>("PolicyQualifierInfo::qualifier", octets)
            }
            _ => fields!(lines, self, PolicyQualifierInfo: qualifier),
        }
    }
}

impl Show for PolicyInformation<'_> {
    fn show(&self, lines: &mut Lines) {
        fields!(lines, self, PolicyInformation: policy_identifier, policy_qualifiers);
    }
}

impl Show for PolicyMapping {
    fn show(&self, lines: &mut Lines) {
        fields!(lines, self, PolicyMapping: issuer_domain_policy, subject_domain_policy);
    }
}

impl Show for GeneralSubtree<'_> {
    fn show(&self, lines: &mut Lines) {
        fields!(lines, self, GeneralSubtree: base, minimum, maximum);
    }
}

impl Show for NameConstraints<'_> {
    fn show(&self, lines: &mut Lines) {
        fields!(lines, self, NameConstraints: permitted_subtrees, excluded_subtrees);
    }
}

impl Show for PolicyConstraints<'_> {
    fn show(&self, lines: &mut Lines) {
        fields!(lines, self, PolicyConstraints: require_explicit_policy, inhibit_policy_mapping);
    }
}
