//! Whether a certificate names a host: as a dNSName of its first subjectAltName, letter by letter (RFC 5280, 4.2.1.6).
//!
//! It shows how a list is walked under a contract: `to_vec` says what its items mean, and `any` and `find` of std say
//! what they return of a slice.

ghost use Rattle.std.specs.Prelude.{◌≡◌, [], IfOk, List, map};
ghost use Rattle.std.specs.List.{find, list_any};
ghost use Rattle.std.specs.Option.{option_copied, option_map_or};
ghost use Rattle.asn1.specs.Headline.{Encodes};
ghost use Rattle.pkix.specs.declared.common.extension.Extension.{Extension};
ghost use Rattle.pkix.specs.declared.common.general_name.GeneralName.{GeneralName};
ghost use Rattle.uses.specs.Hosts.{Answers, is_alt_name, is_host};

use asn1::laws::identifiers_compare;
use asn1::{Asn1Type, ParseResult, parse_single};
use pkix::certificate::Certificate;
use pkix::common::laws::general_names_is_lawful;
use pkix::common::{Extension, Extensions, GeneralName, GeneralNames};
use pkix::extension_values::KnownExtension;
use std::alloc::Global;

/// Whether the name is this host.
fn is_named(name: &GeneralName<'_>, host: &str) -> bool
    ensures { result
        ≡ is_host host.now (⟦<GeneralName<'static> as Asn1Type>⟧.der.meaning name.now) }
{
    match name {
        GeneralName::DnsName(dns) => dns.as_str() == host,
        _ => false,
    }
}

/// Whether one of the names is.
fn is_one_named(names: &[GeneralName<'_>], host: &str) -> bool
    ensures { result ≡ list_any (λ name.
        is_host host.now (⟦<GeneralName<'static> as Asn1Type>⟧.der.meaning name)) names.now }
{
    names.iter().any(|name| is_named(name, host))
}

/// The names that the octets encode.
fn read_names<'a>(alloc: Global, octets: &'a [u8]) -> ParseResult<Vec<GeneralName<'a>>>
    ensures { IfOk result (λ names. Encodes ⟦<GeneralNames<'a> as Asn1Type>⟧.der
        (map ⟦<GeneralName<'a> as Asn1Type>⟧.der.meaning names.items) octets.entry.now) }
{
    general_names_is_lawful();
    let list = parse_single::<GeneralNames<'a>>(alloc, octets)?;
    let names = list.to_vec()?;
    Ok(names)
}

/// Whether one of the names that the octets encode is this host.
pub fn names_host<'a>(alloc: Global, octets: &'a [u8], host: &str) -> ParseResult<bool>
    ensures { IfOk result (λ answer. (names : List GeneralName)
        × Encodes ⟦<GeneralNames<'a> as Asn1Type>⟧.der
        (map ⟦<GeneralName<'a> as Asn1Type>⟧.der.meaning names) octets.entry.now
        × (answer ≡ list_any (λ name.
        is_host host.now (⟦<GeneralName<'a> as Asn1Type>⟧.der.meaning name)) names)) }
{
    let names = read_names(alloc, octets)?;
    let answer = is_one_named(names.as_slice(), host);
    Ok(answer)
}

/// Whether the extension is a subjectAltName.
fn has_names(extension: &Extension<'_>) -> bool
    ensures { result ≡ is_alt_name extension.now }
{
    identifiers_compare();
    extension.extn_id == KnownExtension::SubjectAltName.identifier()
}

/// The first subjectAltName.
pub fn alt_name<'e, 'a>(extensions: &'e [Extension<'a>]) -> Option<&'e Extension<'a>>
    ensures { option_copied result ≡ find is_alt_name extensions.now }
{
    extensions.iter().find(|extension| has_names(extension))
}

/// Whether the certificate allows this host. The error is that of the names, or memory ran out.
pub fn allows<'a>(alloc: Global, certificate: &Certificate<'a>, host: &str) -> ParseResult<bool>
    ensures { IfOk result (λ answer. (all : List Extension)
        × (map ⟦<Extension<'a> as Asn1Type>⟧.der.meaning all
        ≡ option_map_or ⟦<Extensions<'a> as Asn1Type>⟧.der.meaning
        certificate.now.tbs_certificate.extensions [])
        × Answers ⟦<GeneralName<'a> as Asn1Type>⟧.der (Encodes ⟦<GeneralNames<'a> as Asn1Type>⟧.der)
        (is_host host.now) (find is_alt_name all) answer) }
{
    let extensions = match &certificate.tbs_certificate.extensions {
        None => Vec::new(alloc),
        Some(list) => list.to_vec()?,
    };
    match alt_name(extensions.as_slice()) {
        None => Ok(false),
        Some(extension) => names_host(alloc, extension.extn_value, host),
    }
}
