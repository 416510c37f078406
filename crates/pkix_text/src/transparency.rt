//! Timestamps of logs of certificates, which are in an extension of a certificate (RFC 6962, 3.3).

use crate::show::{Lines, Show, date, marked, with_name};
use asn1::DateTime;
use std::alloc::{AllocError, Global};

/// The octets that the number in the first two counts, and those behind (RFC 5246, 4.3).
fn vector(octets: &[u8]) -> Option<(&[u8], &[u8])> {
    let [high, low, rest @ ..] = octets else {
        return None;
    };
    let length = usize::from(u16::from_be_bytes([*high, *low]));
    Some((rest.get(..length)?, rest.get(length..)?))
}

/// A timestamp of version 1 (RFC 6962, 3.2).
#[derive(Drop)]
struct Timestamp<'a> {
    log_id: &'a [u8],
    time: &'a [u8],
    extensions: &'a [u8],
    hash: u8,
    algorithm: u8,
    signature: &'a [u8],
}

/// The timestamp whose octets these are.
fn timestamp_of(octets: &[u8]) -> Option<Timestamp<'_>> {
    let [0, after_version @ ..] = octets else {
        return None;
    };
    let (log_id, after_log) = (after_version.get(..32)?, after_version.get(32..)?);
    let (time, after_time) = (after_log.get(..8)?, after_log.get(8..)?);
    let (extensions, signed) = vector(after_time)?;
    let [hash, algorithm, rest @ ..] = signed else {
        return None;
    };
    let (signature, []) = vector(rest)? else {
        return None;
    };
    Some(Timestamp {
        log_id,
        time,
        extensions,
        hash: *hash,
        algorithm: *algorithm,
        signature,
    })
}

/// The number of these octets.
fn number_of(octets: &[u8]) -> u64 {
    let mut number = 0u64;
    for octet in octets {
        number = number.wrapping_mul(0x100).wrapping_add(u64::from(*octet));
    }
    number
}

/// The date and time of this many seconds after the start of 1970, up to the year 65535. The years of the calendar are
/// counted from March on, in 400 years of 146,097 days, so that a leap day is the last of its year.
fn date_of(seconds: u64) -> Option<DateTime> {
    // No number here is near the bounds of its type, so that nothing saturates.
    let day = (seconds / 86_400).saturating_add(719_468);
    let of_era = day % 146_097;
    let leap_days = (of_era / 1_460)
        .saturating_add(of_era / 146_096)
        .saturating_sub(of_era / 36_524);
    let year = of_era.saturating_sub(leap_days) / 365;
    let of_leap_years = (year / 4).saturating_sub(year / 100);
    let of_year = of_era.saturating_sub(year.saturating_mul(365).saturating_add(of_leap_years));
    let month = of_year.saturating_mul(5).saturating_add(2) / 153;
    let before = month.saturating_mul(153).saturating_add(2) / 5;
    let of_month = of_year.saturating_sub(before).saturating_add(1);
    let is_next = month >= 10;
    let month = if is_next {
        month.saturating_sub(9)
    } else {
        month.saturating_add(3)
    };
    let year = (day / 146_097)
        .saturating_mul(400)
        .saturating_add(year)
        .saturating_add(u64::from(is_next));
    let of_day = seconds % 86_400;
    let (hour, minute, second) = (of_day / 3_600, of_day / 60 % 60, of_day % 60);
    DateTime::new(
        u16::try_from(year).ok()?,
        u8::try_from(month).ok()?,
        u8::try_from(of_month).ok()?,
        u8::try_from(hour).ok()?,
        u8::try_from(minute).ok()?,
        u8::try_from(second).ok()?,
    )
    .ok()
}

/// A time by its thousandths of a second since the start of 1970; if it is after the year 65535, their number.
fn shown(alloc: Global, thousandths: u64) -> Result<String, AllocError> {
    let fraction = format!(in alloc; ".{:03}", thousandths % 1_000)?;
    match date_of(thousandths / 1_000) {
        Some(time) => date(alloc, "", &time, fraction.as_str()),
        None => format!(in alloc; "{thousandths}"),
    }
}

/// The names of the algorithms, by their numbers (RFC 5246, 7.4.1.4.1).
const HASHES: &str = "none md5 sha1 sha224 sha256 sha384 sha512";

const ALGORITHMS: &str = "anonymous rsa dsa ecdsa";

impl Show for Timestamp<'_> {
    fn show(&self, lines: &mut Lines) {
        let alloc = lines.alloc;
        lines.part("version", &with_name(alloc, 0, "v1"));
        lines.part("logID", &self.log_id);
        lines.part("timestamp", &shown(alloc, number_of(self.time)));
        lines.part("extensions", &self.extensions);
        lines.part(
            "hashAlgorithm",
            &with_name(alloc, u32::from(self.hash), HASHES),
        );
        lines.part(
            "signatureAlgorithm",
            &with_name(alloc, u32::from(self.algorithm), ALGORITHMS),
        );
        lines.part("signature", &self.signature);
    }
}

/// A timestamp that isn't one of version 1 is shown as octets.
#[derive(Drop)]
struct Item<'a>(&'a [u8]);

impl Show for Item<'_> {
    fn show(&self, lines: &mut Lines) {
        match timestamp_of(self.0) {
            Some(timestamp) => timestamp.show(lines),
            None => marked(lines.alloc, self.0).show(lines),
        }
    }
}

/// A list of timestamps, the contents octets of the OCTET STRING in the extension.
#[derive(Drop)]
pub(crate) struct Timestamps<'a>(pub(crate) &'a [u8]);

/// Each item, with its number in its location; and the reason if the octets aren't a list.
impl Show for Timestamps<'_> {
    fn show(&self, lines: &mut Lines) {
        let (mut rest, after) = vector(self.0).unwrap_or((&[], self.0));
        for number in 0..rest.len() {
            let Some((item, others)) = vector(rest) else {
                break
            };
            let place = lines.kept(format!(in lines.alloc; "{number}"));
            lines.part(place.as_str(), &Item(item));
            rest = others;
        }
        if !(rest.is_empty() && after.is_empty()) {
            lines.part("rejected", &"octets are left over, or missing");
        }
    }
}
