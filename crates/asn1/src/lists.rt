//! SEQUENCE, SEQUENCE OF, SET and SET OF (X.690 8.9 to 8.12, X.680 25 to 28): as they are encoded, as lists of items,
//! and written by a closure.

ghost use Rattle.std.specs.Prelude.{◌≡◌, ◌<◌, ◌^◌, ◌++◌, ◌∷◌, [], ℕ, List, OnOk};
ghost use Rattle.asn1_core.specs.declared.parser.Place.TheVariants.{Index};
ghost use Rattle.asn1_core.specs.ReadError.{within};
ghost use Rattle.asn1_core.specs.declared.tag.Tag.{Tag};
ghost use Rattle.asn1_core.specs.Element.{element, element_encoding};
ghost use Rattle.asn1.specs.Lists.{AreOctets};
ghost use Rattle.asn1.specs.MadeLists.{AreContents};

mod sequence;
mod sequence_of;
mod sets;
mod writers;

use asn1_core::{Asn1Type, ParseError, ParseErrorKind, ParseLocation, ParseResult, strip_tlv};
pub use sequence::Sequence;
pub use sequence_of::SequenceOf;
pub use sets::{Set, SetOf};
pub use writers::{SequenceOfWriter, SequenceWriter};

/// The error with the location of the item at an index. Few reads need it, so it is apart from the readers.
#[cold]
pub(crate) fn at_item(error: ParseError, index: usize) -> ParseError
    ensures { result ≡ within (Index index) error }
{
    error.add_location(ParseLocation::Index(index))
}

/// Appends an item. The error is `AllocationError`, without a location.
pub(crate) fn push_item<T: Drop>(all: &mut Vec<T>, item: T) -> ParseResult<()>
    ensures { OnOk result (all.new.items ≡ all.old.items ++ item ∷ []) }
{
    match all.push(item) {
        Ok(()) => Ok(()),
        Err(_) => Err(ParseError::new(ParseErrorKind::AllocationError)),
    }
}

/// States that a slice holds octets. The body looks at the slice, whose type says so.
#[inline(always)]
pub(crate) fn are_octets(octets: &[u8])
    ensures { AreOctets octets.now }
{
    let _count = octets.len();
}

/// The contents octets of the element that these octets are.
pub(crate) fn contents_of<'a>(octets: &'a [u8]) -> ParseResult<&'a [u8]>
    ensures { (tag : Tag) (content : List ℕ) → tag.value < 2 ^ 32
        → octets.entry.now ≡ element_encoding (element tag content) → AreContents content result }
{
    octets.known();
    let (tlv, _rest) = strip_tlv(octets)?;
    Ok(tlv.data())
}
