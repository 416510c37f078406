//! Text around DER encodings (RFC 7468, lax form): each is in base64 between two lines with a label, which says what it
//! is. Other text may come before, between and after these. Spaces around a line, empty lines and the kind of line end
//! say nothing.

use base64::engine::general_purpose::STANDARD;
use base64::{DecodeAllocError, DecodeError};
use std::alloc::{AllocError, Global};
use std::fmt;

/// What begins the line before the base64.
const BEGIN: &[u8] = b"-----BEGIN ";

/// What begins the line after it.
const END: &[u8] = b"-----END ";

/// What ends both, after the label.
const DASHES: &[u8] = b"-----";

/// What some editors put at the start of a file: the byte order mark in UTF-8.
const MARK: &[u8] = b"\xef\xbb\xbf";

/// Why an object of a text has no octets.
#[derive(Debug, Clone, Copy, PartialEq, Eq)]
pub enum PemError {
    /// There is no line that ends it, or that line has another label.
    NoEnd,
    /// What is between the lines isn't base64.
    Base64(DecodeError),
}

impl fmt::Display for PemError {
    fn fmt<W: fmt::Write>(&self, f: &mut fmt::Formatter<W>) -> fmt::Result {
        match self {
            PemError::NoEnd => f.write_str("PEM: no line ends what the first one begins"),
            PemError::Base64(error) => write!(f, "PEM: {error}"),
        }
    }
}

/// An object of a text.
#[derive(Drop)]
pub(crate) struct Object<'a> {
    /// The label in its lines.
    pub(crate) label: &'a [u8],
    /// Whether a header says that it is encrypted, as in OpenSSL's older form of private keys.
    pub(crate) is_encrypted: bool,
    /// The base64 between its lines.
    symbols: Vec<u8>,
    /// The label in the line that ends it, if there is one.
    end: Option<&'a [u8]>,
}

impl<'a> Object<'a> {
    /// The octets that should be its encoding.
    pub(crate) fn octets(&self, alloc: Global) -> Result<Result<Vec<u8>, PemError>, AllocError> {
        if self.end != Some(self.label) {
            return Ok(Err(PemError::NoEnd));
        }
        match STANDARD.decode(alloc, self.symbols.as_slice()) {
            Ok(octets) => Ok(Ok(octets)),
            Err(DecodeAllocError::DecodeError(error)) => Ok(Err(PemError::Base64(error))),
            Err(DecodeAllocError::OutOfMemory) => Err(AllocError),
        }
    }

    /// Takes a line after the first one, unless it has ended. A header has a colon, which base64 doesn't have.
    fn take(&mut self, line: &'a [u8]) -> Result<(), AllocError> {
        match label_in(line, END) {
            _ if self.end.is_some() => {}
            None if line.contains(&b':') => self.is_encrypted |= line.ends_with(b"ENCRYPTED"),
            None => self.symbols.extend_from_slice(line)?,
            end => self.end = end,
        }
        Ok(())
    }
}

/// Whether there is no control character but tabs.
fn is_text(line: &[u8]) -> bool {
    let mut controls = line.iter().filter(|octet| octet.is_ascii_control());
    controls.all(|octet| *octet == b'\t')
}

/// The label of a line that starts like this.
fn label_in<'a>(line: &'a [u8], start: &[u8]) -> Option<&'a [u8]> {
    let label = line.strip_prefix(start)?;
    Some(label.strip_suffix(DASHES).unwrap_or(label))
}

/// The objects of a text, in order. There are none in an encoding in DER, whose first octets have a control character.
pub(crate) fn objects<'a>(alloc: Global, input: &'a [u8]) -> Result<Vec<Object<'a>>, AllocError> {
    let text = input.strip_prefix(MARK).unwrap_or(input);
    let mut objects: Vec<Object<'a>> = Vec::new(alloc);
    for whole in text.split(|octet| matches!(*octet, b'\n' | b'\r')) {
        let line = whole.trim_ascii();
        if let Some(label) = label_in(line, BEGIN) {
            objects.push(Object {
                label,
                is_encrypted: false,
                symbols: Vec::new(alloc),
                end: None,
            })?;
        } else if let Some(object) = objects.last_mut() {
            object.take(line)?;
        } else if !is_text(whole) {
            break;
        }
    }
    Ok(objects)
}
