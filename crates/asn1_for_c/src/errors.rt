//! Errors as numbers, with their details.

ghost use Rattle.std.specs.Prelude.{◌≡◌};
ghost use Rattle.asn1.specs.Tag.{class_number};
ghost use Rattle.asn1_for_c.specs.Errors.{kind_number, error_of, told_read, without_details};

use asn1::{ParseErrorKind, ParseResult, TagClass};

/// A number that no type has.
pub(crate) const UNKNOWN_TYPE: u32 = 64;
/// A buffer is too small.
pub(crate) const BUFFER_TOO_SMALL: u32 = 65;

/// An error and its details. A detail of another kind of error is 0.
#[repr(C)]
#[derive(Drop)]
pub struct Asn1Error {
    /// The number of the error; 0 if there is none.
    pub number: u32,
    /// The number of the tag that was found, if another was expected.
    pub tag_number: u32,
    /// The class of that tag: 0 to 3, as in the identifier octets.
    pub tag_class: u8,
    /// Whether that tag is of a constructed encoding.
    pub tag_constructed: bool,
    /// How many octets are missing at least, if octets are missing.
    pub needed: usize,
    /// The least count of items, if there are too few or too many.
    pub min: usize,
    /// The greatest count of items.
    pub max: usize,
    /// How many items there are.
    pub actual: usize,
}

impl Asn1Error {
    /// The error of this number, without details.
    pub(crate) fn without_details(number: u32) -> Asn1Error
        ensures { result ≡ without_details number }
    {
        Asn1Error {
            number,
            tag_number: 0,
            tag_class: 0,
            tag_constructed: false,
            needed: 0,
            min: 0,
            max: 0,
            actual: 0,
        }
    }
}

/// The class as bits 8 and 7 of the first identifier octet.
pub(crate) fn class_number(class: TagClass) -> u8
    ensures { result ≡ class_number class }
{
    match class {
        TagClass::Universal => 0,
        TagClass::Application => 1,
        TagClass::ContextSpecific => 2,
        TagClass::Private => 3,
    }
}

/// The number of a kind of error.
fn kind_number(kind: ParseErrorKind) -> u32
    ensures { result ≡ kind_number kind }
{
    match kind {
        ParseErrorKind::InvalidValue => 1,
        ParseErrorKind::InvalidTag => 2,
        ParseErrorKind::InvalidLength => 3,
        ParseErrorKind::InvalidSize { .. } => 4,
        ParseErrorKind::UnexpectedTag { .. } => 5,
        ParseErrorKind::ShortData { .. } => 6,
        ParseErrorKind::IntegerOverflow => 7,
        ParseErrorKind::ExtraData => 8,
        ParseErrorKind::InvalidSetOrdering => 9,
        ParseErrorKind::EncodedDefault => 10,
        ParseErrorKind::OidTooLong => 11,
        ParseErrorKind::UnknownDefinedBy => 12,
        ParseErrorKind::AllocationError => 13,
    }
}

/// The error of this kind, with its details.
pub(crate) fn error_of(kind: ParseErrorKind) -> Asn1Error
    ensures { result ≡ error_of kind }
{
    let mut error = Asn1Error::without_details(kind_number(kind));
    match kind {
        ParseErrorKind::InvalidSize { min, max, actual } => {
            error.min = min;
            error.max = max;
            error.actual = actual;
        }
        ParseErrorKind::UnexpectedTag { actual } => {
            error.tag_number = actual.value();
            error.tag_class = class_number(actual.class());
            error.tag_constructed = actual.is_constructed();
        }
        ParseErrorKind::ShortData { needed } => error.needed = needed,
        _ => {}
    }
    error
}

/// The error of a result, if it has one.
pub(crate) fn error_in<T: Drop>(found: ParseResult<T>) -> Asn1Error
    ensures { result ≡ told_read found }
{
    match found {
        Ok(_value) => Asn1Error::without_details(0),
        Err(fault) => error_of(fault.kind()),
    }
}
