//! The numbers by which `tools/beside_original` compares what both sides do.

use asn1::{BitString, ObjectIdentifier, SequenceOf, SetOf, Tlv, UtcTime, Utf8String};
use pkix::certificate::Certificate;
use pkix::signatures::EcdsaSigValue;

/// A list of any length.
pub(crate) type ListOf<'a, T> = SequenceOf<'a, T, 0, { usize::MAX }>;

/// What is returned if a call fails that shouldn't.
pub(crate) const FAILED: u64 = u64::MAX;

/// A value of which a number is made, so that it has to be read in full.
pub(crate) trait Answer {
    /// The number.
    fn answer(self) -> u64;
}

impl Answer for bool {
    fn answer(self) -> u64 {
        u64::from(self)
    }
}

impl Answer for u8 {
    fn answer(self) -> u64 {
        u64::from(self)
    }
}

impl Answer for i64 {
    fn answer(self) -> u64 {
        self.unsigned_abs()
    }
}

impl Answer for u64 {
    fn answer(self) -> u64 {
        self
    }
}

impl<'a> Answer for &'a [u8] {
    fn answer(self) -> u64 {
        match self.last() {
            Some(octet) => u64::from(*octet).wrapping_add(self.len() as u64),
            None => 0,
        }
    }
}

impl<'a> Answer for Tlv<'a> {
    fn answer(self) -> u64 {
        self.data().answer()
    }
}

impl<'a> Answer for BitString<'a> {
    fn answer(self) -> u64 {
        self.as_bytes().answer()
    }
}

impl<'a> Answer for Utf8String<'a> {
    fn answer(self) -> u64 {
        self.as_str().as_bytes().answer()
    }
}

impl Answer for ObjectIdentifier {
    fn answer(self) -> u64 {
        self.as_der().answer()
    }
}

impl Answer for UtcTime {
    fn answer(self) -> u64 {
        u64::from(self.as_datetime().second())
    }
}

impl<'a> Answer for EcdsaSigValue<'a> {
    fn answer(self) -> u64 {
        let s = self.s.as_bytes().answer();
        self.r.as_bytes().answer().wrapping_add(s)
    }
}

impl<'a> Answer for Certificate<'a> {
    fn answer(self) -> u64 {
        self.tbs_certificate.serial_number.as_bytes().answer()
    }
}

impl<'a> Answer for ListOf<'a, u64> {
    fn answer(self) -> u64 {
        let mut sum = 0u64;
        for item in self {
            match item {
                Ok(number) => sum = sum.wrapping_add(number),
                Err(_) => return FAILED,
            }
        }
        sum
    }
}

impl<'a> Answer for SetOf<'a, u64> {
    fn answer(self) -> u64 {
        let mut sum = 0u64;
        for item in self {
            match item {
                Ok(number) => sum = sum.wrapping_add(number),
                Err(_) => return FAILED,
            }
        }
        sum
    }
}
