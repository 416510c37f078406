//! General names (RFC 5280, 4.2.1.6).

use crate::show::{Lines, Show, fields, marked};
use asn1::{Sequence, write_readable};
use pkix::common::{EdiPartyName, GeneralName, OtherName};
use std::alloc::{AllocError, Global};

/// Where the longest run of groups that are zero begins, the first of several, and where it ends; the two are the same
/// if there is none.
fn zeros(octets: &[u8]) -> (usize, usize) {
    let (mut longest, mut start) = ((0usize, 0usize), 0usize);
    for (number, group) in octets.chunks(2).enumerate() {
        let end = number.saturating_add(1);
        if group != [0, 0].as_slice() {
            start = end;
        } else if end.saturating_sub(start) > longest.1.saturating_sub(longest.0) {
            longest = (start, end);
        }
    }
    longest
}

/// An address of IPv6 in its short form (RFC 5952, 4 and 5): groups in hex without zeros before them, of which the
/// longest run of zeros, if it has two or more, is left out; an address of IPv4 in one of IPv6 in decimal.
fn groups(alloc: Global, octets: &[u8]) -> Result<String, AllocError> {
    if let [0, 0, 0, 0, 0, 0, 0, 0, 0, 0, 0xff, 0xff, a, b, c, d] = octets {
        return format!(in alloc; "::ffff:{a}.{b}.{c}.{d}");
    }
    let (start, end) = zeros(octets);
    let is_short = end.saturating_sub(start) > 1;
    let mut groups = String::new(alloc);
    for (number, group) in octets.chunks(2).enumerate() {
        let [high, low] = group else { continue };
        if is_short && number >= start && number < end {
            groups.push_str(if number == start { "::" } else { "" })?;
        } else {
            let is_first = groups.is_empty() || groups.as_str().ends_with(':');
            let colon = if is_first { "" } else { ":" };
            write!(groups, "{colon}{:x}", u16::from_be_bytes([*high, *low]))?;
        }
    }
    Ok(groups)
}

/// An address of IPv4 in decimal, and one of IPv6 in its short form; of a range the address and its mask (RFC 5280,
/// 4.2.1.10); other octets in hex after `#`.
fn address(alloc: Global, octets: &[u8]) -> Result<String, AllocError> {
    match octets {
        [a, b, c, d] => format!(in alloc; "{a}.{b}.{c}.{d}"),
        [a, b, c, d, e, f, g, h] => format!(in alloc; "{a}.{b}.{c}.{d}/{e}.{f}.{g}.{h}"),
        _ if octets.len() == 16 => groups(alloc, octets),
        _ if octets.len() == 32 => {
            let (address, mask) = octets.split_at(16);
            format!(in alloc; "{}/{}", groups(alloc, address)?, groups(alloc, mask)?)
        }
        _ => marked(alloc, octets),
    }
}

/// The octets of a sequence whose elements aren't read.
impl Show for Sequence<'_> {
    fn show(&self, lines: &mut Lines) {
        match write_readable(lines.alloc, self) {
            Ok(octets) => marked(lines.alloc, octets.as_slice()).show(lines),
            Err(_) => lines.is_out_of_memory = true,
        }
    }
}

impl Show for OtherName<'_> {
    fn show(&self, lines: &mut Lines) {
        fields!(lines, self, OtherName: type_id, value);
    }
}

impl Show for EdiPartyName<'_> {
    fn show(&self, lines: &mut Lines) {
        fields!(lines, self, EdiPartyName: name_assigner, party_name);
    }
}

/// The name, with its alternative as its location.
impl Show for GeneralName<'_> {
    fn show(&self, lines: &mut Lines) {
        match self {
            GeneralName::OtherName(name) => lines.part("otherName", name),
            GeneralName::Rfc822Name(name) => lines.part("rfc822Name", name),
            GeneralName::DnsName(name) => lines.part("dNSName", name),
            GeneralName::X400Address(name) => lines.part("x400Address", name),
            GeneralName::DirectoryName(name) => lines.part("directoryName", name),
            GeneralName::EdiPartyName(name) => lines.part("ediPartyName", name),
            GeneralName::UniformResourceIdentifier(name) => {
                lines.part("uniformResourceIdentifier", name)
            }
            GeneralName::IpAddress(octets) => {
                lines.part("iPAddress", &address(lines.alloc, *octets))
            }
            GeneralName::RegisteredId(name) => lines.part("registeredID", name),
        }
    }
}
