//! What certificates, revocation lists, requests and keys have in common.

use crate::key_sizes::{modulus_size, show_size, size_by_algorithm};
use crate::show::{Lines, Numbered, Show, fields};
use asn1::{ObjectIdentifier, SetOf, Tlv, parse_single, write_readable};
use pkix::algorithm_parameters::AlgorithmParameters;
use pkix::algorithm_parameters::KnownAlgorithm::{self, RsaEncryption, RsassaPss};
use pkix::certificate::extensions::SubjectDirectoryAttributes;
use pkix::common::{
    AlgorithmIdentifier, Attribute, AttributeTypeAndValue, Attributes, DirectoryString, Extensions,
    SubjectPublicKeyInfo,
};
use pkix::keys::{DssParms, RsassaPssParams};

impl Show for DssParms<'_> {
    fn show(&self, lines: &mut Lines) {
        fields!(lines, self, DssParms: p, q, g);
    }
}

/// An algorithm within the parameters of another has parameters that could have algorithms again.
impl Show for RsassaPssParams<'_> {
    fn show(&self, lines: &mut Lines) {
        fields!(lines, self, RsassaPssParams:
            hash_algorithm = &self.hash_algorithm.as_ref().map(Plain),
            mask_gen_algorithm = &self.mask_gen_algorithm.as_ref().map(Plain),
            salt_length, trailer_field);
    }
}

/// An algorithm whose parameters are shown as an element: an identifier, as of a curve, or the octets, with the reason
/// if the contents octets aren't those of the element's type.
#[derive(Drop)]
struct Plain<'a>(&'a AlgorithmIdentifier<'a>);

impl Show for Plain<'_> {
    fn show(&self, lines: &mut Lines) {
        self.0.algorithm.show(lines);
        if let Some(parameters) = self.0.parameters {
            match parse_single::<ObjectIdentifier>(lines.alloc, parameters.full_data()) {
                Ok(curve) => fields!(lines, self, AlgorithmIdentifier: parameters = &curve),
                Err(_) => lines.element("AlgorithmIdentifier::parameters", parameters),
            }
        }
    }
}

/// The algorithm, and its parameters: by their fields if they are read as a structure, and else as an element; as
/// octets if they aren't those of a known algorithm, with the reason.
impl Show for AlgorithmIdentifier<'_> {
    fn show(&self, lines: &mut Lines) {
        match self.read_parameters(lines.alloc) {
            Ok(AlgorithmParameters::Dss(parameters)) => {
                self.algorithm.show(lines);
                fields!(lines, self, AlgorithmIdentifier: parameters = &parameters);
            }
            Ok(AlgorithmParameters::RsassaPss(parameters)) => {
                self.algorithm.show(lines);
                fields!(lines, self, AlgorithmIdentifier: parameters = &parameters);
            }
            Ok(_) => Plain(self).show(lines),
            Err(error) => {
                self.algorithm.show(lines);
                let octets = self.parameters.map(|parameters| parameters.full_data());
                fields!(lines, self, AlgorithmIdentifier: parameters = &octets);
                lines.part("AlgorithmIdentifier::parameters.rejected", &error);
            }
        }
    }
}

/// The fields, and the size of the key: that of its modulus, or the one that its algorithm says.
impl Show for SubjectPublicKeyInfo<'_> {
    fn show(&self, lines: &mut Lines) {
        fields!(lines, self, SubjectPublicKeyInfo: algorithm, subject_public_key);
        let size = match KnownAlgorithm::with_identifier(&self.algorithm.algorithm) {
            Some(RsaEncryption | RsassaPss) => {
                modulus_size(lines.alloc, self.subject_public_key.as_bytes())
            }
            _ => size_by_algorithm(lines.alloc, &self.algorithm),
        };
        show_size(lines, size);
    }
}

/// The string as the element that it is: most attributes of names have these, and are shown as elements.
impl Show for DirectoryString<'_> {
    fn show(&self, lines: &mut Lines) {
        match write_readable(lines.alloc, self) {
            Ok(octets) => {
                let element = parse_single::<Tlv<'_>>(lines.alloc, octets.as_slice());
                lines.item(element).show(lines);
            }
            Err(_) => lines.is_out_of_memory = true,
        }
    }
}

/// The value, with the attribute's type as its location.
impl Show for AttributeTypeAndValue<'_> {
    fn show(&self, lines: &mut Lines) {
        let name = lines.short_name(&self.type_id);
        lines.part(name.as_str(), &self.value);
    }
}

/// The attributes of a set, which is a part of a name: each at the set's own location.
impl<'a> Show for SetOf<'a, AttributeTypeAndValue<'a>> {
    fn show(&self, lines: &mut Lines) {
        for item in self.clone().unwrap() {
            let Some(item) = lines.item(item) else { return };
            item.show(lines);
        }
    }
}

/// An attribute whose values are shown as elements, with the attribute's type as their location.
#[derive(Drop)]
struct Elements<'s, 'a>(&'s Attribute<'a>);

impl Show for Elements<'_, '_> {
    fn show(&self, lines: &mut Lines) {
        let name = lines.short_name(&self.0.type_id);
        let mut is_empty = true;
        for item in self.0.values.clone().unwrap() {
            let Some(item) = lines.item(item) else { return };
            lines.part(name.as_str(), &item);
            is_empty = false;
        }
        if is_empty {
            lines.part(name.as_str(), &Numbered(Some(&self.0.values)));
        }
    }
}

/// Extensions that are asked for are read, and other values are shown as elements.
impl Show for Attribute<'_> {
    fn show(&self, lines: &mut Lines) {
        let name = lines.short_name(&self.type_id);
        let mut is_shown = false;
        if name.as_str() == "extensionRequest" {
            for item in self.values.clone().unwrap() {
                let Some(item) = lines.item(item) else { return };
                lines.inner::<Extensions<'_>>(name.as_str(), item.full_data());
                is_shown = true;
            }
        }
        if !is_shown {
            Elements(self).show(lines);
        }
    }
}

/// The attributes of a subject in an extension, in which no extensions are asked for.
#[derive(Drop)]
pub(crate) struct OfSubject<'s, 'a>(pub(crate) &'s SubjectDirectoryAttributes<'a>);

impl Show for OfSubject<'_, '_> {
    fn show(&self, lines: &mut Lines) {
        let mut count = 0usize;
        for item in self.0.clone().unwrap() {
            let Some(attribute) = lines.item(item) else {
                return
            };
            let place = lines.kept(format!(in lines.alloc; "{count}"));
            lines.part(place.as_str(), &Elements(&attribute));
            count = count.saturating_add(1);
        }
    }
}

impl Show for Attributes<'_> {
    fn show(&self, lines: &mut Lines) {
        Numbered(Some(self)).show(lines);
    }
}
