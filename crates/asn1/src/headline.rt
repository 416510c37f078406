//! The headline of the library, a function a sentence: what a call or two promise together, of every lawful type.
//!
//! Each function makes the calls that it is about and returns what they return. Its contract is the sentence, in the
//! words of `specs/Headline.antt`.

ghost use Rattle.std.specs.Prelude.{◌≡◌, ◌↔◌, ◌<◌, ◌++◌, ℕ, List, length, map, IfOk, IfErr, IsOk, IsOkAnd};
ghost use Rattle.asn1_core.specs.Element.{Element, IsLeadingElement};
ghost use Rattle.asn1_core.specs.Tlv.{element_of, stripped};
ghost use Rattle.asn1_core.specs.Reading.{Returns, IsErrorOf, whole};
ghost use Rattle.asn1_core.specs.Writing.{NamesError};
ghost use Rattle.asn1_core.specs.Listing.{SameEncodings};
ghost use Rattle.asn1_core.specs.Laws.{IsShort, with_more};
ghost use Rattle.asn1.specs.Headline.{Encodes, BeginsWith};

use crate::laws::equal_multisets;
use asn1_core::{
    Asn1Readable, Asn1Type, Asn1Writable, ParseResult, SetOfWriter, Tag, Tlv, parse_single,
    strip_tlv, write_single,
};
use std::alloc::Global;

/// [`parse_single`] returns a value exactly if its input is the one encoding of that value. No two values have the
/// same encoding. All other input is rejected with the first error in the order of the input.
///
/// Only a type whose reading allocates may return `AllocationError` in place of a value. The caller has to prove that
/// the type is lawful.
pub fn reads_the_one_encoding<'a, T: Asn1Readable<'a>>(
    alloc: Global,
    data: &'a [u8],
) -> ParseResult<T>
    requires { T.der.lawful }

    // The input is the encoding of the value that is returned.
    ensures found { IfOk result (λ v. Encodes T.der (T.der.meaning v) «data».entry.now) }

    // If the input is the encoding of a value, that value is returned, or memory ran out.
    ensures each { (m : T.der.Meaning) → Encodes T.der m «data».entry.now
        → Returns T.der.meaning (T.der.runs_out «data».entry.now) result (Ok m) }

    // A type that doesn't allocate returns a value exactly if the input is the encoding of one.
    ensures exactly { ¬ T.der.takes_memory → IsOk result
        ↔ ((m : T.der.Meaning) × Encodes T.der m «data».entry.now) }

    // The input is the encoding of one value at most.
    ensures one { (m n : T.der.Meaning) → Encodes T.der m «data».entry.now
        → Encodes T.der n «data».entry.now → m ≡ n }

    // No two valid values have this encoding, be they within the type's bounds or not.
    ensures alone { (m n : T.der.Meaning) → T.der.valid m → T.der.valid n
        → T.der.encoding m ≡ «data».entry.now → T.der.encoding n ≡ «data».entry.now → m ≡ n }
    ensures refused { IfErr result (IsErrorOf (T.der.runs_out «data».entry.now)
        (whole (T.der.read «data».entry.now))) }
{
    // By this call's contract the type isn't only written.
    let _accepted = T::can_parse(Tag::primitive(0));
    parse_single::<T>(alloc, data)
}

/// [`write_single`] writes exactly this encoding. An error is out of memory, or one that the value names.
///
/// The caller has to prove that a value of the type has one encoding (`plain`).
pub fn writes_the_one_encoding<T: Asn1Writable>(
    alloc: Global,
    value: &T,
) -> Result<Vec<u8>, T::Error>
    requires { T.der.plain }
    ensures encoding { IfOk result (λ octets. octets.items ≡ T.der.encoding
        (T.der.meaning value.now)) }
    ensures valid { T.der.valid (T.der.meaning value.now) }
    ensures error { IfErr result (NamesError T.Error.from_gives (T.write_errors value.now)) }
{
    value.known();
    write_single(alloc, value)
}

/// The same of a value that holds closures: the octets are one of the encodings that these may append.
///
/// The caller has to prove that the closures keep what they owe (`closures`).
pub fn writes_an_encoding<T: Asn1Writable>(alloc: Global, value: &T) -> Result<Vec<u8>, T::Error>
    requires { T.der.closures (T.der.meaning value.now) }
    ensures encoding { IfOk result (λ octets. T.der.encodings (T.der.meaning value.now)
        octets.items) }
    ensures error { IfErr result (NamesError T.Error.from_gives (T.write_errors value.now)) }
{
    write_single(alloc, value)
}

/// [`write_single`] writes the same octets whether lengths are announced or patched: two values with the same encoding
/// are written alike, whatever their types say of lengths.
pub fn writes_alike<T: Asn1Writable, U: Asn1Writable<Error = T::Error>>(
    alloc: Global,
    one: &T,
    other: &U,
) -> Result<(Vec<u8>, Vec<u8>), T::Error>
    requires plain { T.der.plain }
    requires other_plain { U.der.plain }
    requires same { T.der.encoding (T.der.meaning one.now) ≡ U.der.encoding
        (U.der.meaning other.now) }
    ensures alike { IfOk result (λ both. both.0.items ≡ both.1.items) }
    ensures encoding { IfOk result (λ both. both.0.items ≡ T.der.encoding
        (T.der.meaning one.now)) }
{
    let octets = write_single(alloc, one)?;
    let other_octets = write_single(alloc, other)?;
    Ok((octets, other_octets))
}

/// [`SetOfWriter`] writes equal octets exactly for equal multisets of the items' encodings.
///
/// The caller has to prove that the items are of a lawful element type with one encoding a value. They may be longer
/// than what is read.
pub fn sets_tell_multisets<'a, T: Asn1Writable>(
    alloc: Global,
    items: &'a [T],
    others: &'a [T],
) -> Result<(Vec<u8>, Vec<u8>), T::Error>
    requires lawful { T.der.lawful }
    requires plain { T.der.plain }
    requires element { T.der.is_element }
    ensures tell { IfOk result (λ both. (both.0.items ≡ both.1.items)
        ↔ SameEncodings (map (λ v. T.der.encoding (T.der.meaning v)) items.entry.now)
        (map (λ v. T.der.encoding (T.der.meaning v)) others.entry.now)) }

    // The first octets are the encoding of the set of the items, the second that of the set of the others.
    ensures sets { IfOk result (λ both. (both.0.items
        ≡ ⟦<SetOfWriter<'a, T> as Asn1Type>⟧.der.encoding (map T.der.meaning items.entry.now))
        × (both.1.items
        ≡ ⟦<SetOfWriter<'a, T> as Asn1Type>⟧.der.encoding (map T.der.meaning others.entry.now))) }
{
    equal_multisets::<T>();
    let first = SetOfWriter::new(items);
    let second = SetOfWriter::new(others);
    first.known();
    second.known();
    let octets = write_single(alloc, &first)?;
    let others_octets = write_single(alloc, &second)?;
    Ok((octets, others_octets))
}

/// [`strip_tlv`] cuts off exactly the element at the start. All other input is rejected with the first error.
pub fn cuts_off_the_element<'a>(data: &'a [u8]) -> ParseResult<(Tlv<'a>, &'a [u8])>
    ensures found { IfOk result (λ x. BeginsWith «data».entry.now (element_of x.0) x.1.now) }

    // Fewer octets remain.
    ensures progress { IfOk result (λ x. length x.1.now < length «data».entry.now) }
    ensures each { (e : Element) (rest : List ℕ) → BeginsWith «data».entry.now e rest
        → IsOkAnd result (λ x. (element_of x.0 ≡ e) × (x.1.now ≡ rest)) }
    ensures refused { IfErr result (λ e. IsLeadingElement «data».entry.now (Err e.kind)) }
{
    strip_tlv(data)
}

/// The first result of [`strip_tlv`] other than `ShortData` stays the same on every longer input, with only the
/// remaining octets longer. The results are those of two calls, the second on `longer`.
pub fn first_result_stands<'a>(
    data: &'a [u8],
    longer: &'a [u8],
) -> (
    ParseResult<(Tlv<'a>, &'a [u8])>,
    ParseResult<(Tlv<'a>, &'a [u8])>,
)
    ensures { (more : List ℕ) → longer.entry.now ≡ «data».entry.now ++ more
        → ¬ IsShort (stripped result.0)
        → stripped result.1 ≡ with_more (stripped result.0) more }
{
    (strip_tlv(data), strip_tlv(longer))
}
