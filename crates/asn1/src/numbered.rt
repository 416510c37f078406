//! Enums whose values have numbers: ENUMERATED (X.690 8.4), and INTEGER with named numbers alone (X.680 19.3).

ghost use Rattle.std.specs.Prelude.{◌≡◌, ◌<◌, ◌^◌, ℕ, List, MatchOption, pos, false, true};
ghost use Rattle.asn1_core.specs.declared.tag.Tag.{Tag};
ghost use Rattle.asn1_core.specs.Element.{element, element_encoding};
ghost use Rattle.asn1_core.specs.Integer.{integer_content};
ghost use Rattle.asn1_core.specs.Reading.{Returns, Fits};
ghost use Rattle.asn1.specs.Listed.{lists, numbered_content, read_listed, value_with};
ghost use Rattle.asn1_core.specs.Tag.{universal};

use asn1_core::{Asn1Type, ParseError, ParseErrorKind, ParseResult, SimpleAsn1Readable};
use std::alloc::Global;

/// An enum whose values have numbers from 0 to 2^32 - 1, each another. The impls of [`Asn1Type`],
/// [`SimpleAsn1Readable`] and [`crate::SimpleAsn1Writable`] beside this one say with which tag such a value is encoded.
pub trait Numbered: Copy {
    // The number of a value, and the numbers of all values.
    ghost number_of: { Self → ℕ };

    ghost numbers: { List ℕ };

    // The values, in the order of their numbers.
    ghost values: { List Self };

    /// The number of the value.
    fn number(self) -> u32
        ensures value { result ≡ number_of self }
        ensures listed { lists numbers (number_of self) ≡ true }
        ensures back { value_with numbers values (number_of self) ≡ Some self };

    /// The value with this number; `None` if no value has it.
    fn from_number(number: u32) -> Option<Self>
        ensures { MatchOption result (lists numbers number ≡ false) (λ v. number_of v ≡ number) };
}

/// States that the value's number is one of the list, and that its encoding is short enough to be read: the body of
/// `known`.
pub fn known_number<T: Numbered>(value: T)
    ensures valid { (numbered_content (universal 10) T.numbers).valid (pos (T.number_of value)) }
    ensures fits { (tag : Tag) → tag.value < 2 ^ 32
        → Fits (element_encoding (element tag (integer_content (pos (T.number_of value))))) }
{
    value.number().known()
}

/// Reads the number of a value from contents octets: the body of `parse_data`.
///
/// Errors: `InvalidValue` for no octets, more than the fewest, a negative number, or one that no value has;
/// `IntegerOverflow` for a number from 2^32 on.
pub fn read_number<T: Numbered>(alloc: Global, data: &[u8]) -> ParseResult<T>
    ensures { Returns (λ v. pos (T.number_of v)) (λ places. ⊥) result
        (read_listed T.numbers «data».entry.now) }
{
    let number = u32::parse_data(alloc, data)?;
    match T::from_number(number) {
        Some(value) => {
            known_number(value);
            Ok(value)
        }
        None => Err(ParseError::new(ParseErrorKind::InvalidValue)),
    }
}
