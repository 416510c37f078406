//! What a user gets from the laws of octets: each function calls some of them, and its contract follows with no proof
//! by hand.

ghost use Rattle.std.specs.Prelude.{◌≡◌, ◌↔◌, ◌<◌, ◌^◌, ◌++◌, ◌∷◌, [], ℕ, ℤ, true, false, List, length, Result};
ghost use Rattle.std.specs.Prelude.{IfOk, OnOk, IsTrue};
ghost use Rattle.std.specs.List.{AllByRecursion, concat, flat_map};
ghost use Rattle.asn1.specs.Base128.{IsLeadingNumber, number_octets};
ghost use Rattle.asn1.specs.Base256.{IsOctets, signed_number};
ghost use Rattle.asn1.specs.Tag.{IsLeadingTag, IsTagBefore};
ghost use Rattle.asn1.specs.Length.{AreLengthOctets, IsLeadingLength, length_octets};
ghost use Rattle.asn1.specs.Element.{Element, IsLeadingElement, IsReadable, element, element_encoding, leading_element};
ghost use Rattle.asn1.specs.Reading.{Fits};
ghost use Rattle.asn1.specs.Buffer.{KeepsPrefix};
ghost use Rattle.asn1.specs.Writing.{IsElementOf, buffer_name, octets_of};
ghost use Rattle.asn1.specs.Listing.{IsElementEncoding, IsLess, IsListing, SameEncodings, listing, sequence_tag};
ghost use Rattle.asn1.specs.Integer.{IsIntegerContent};
ghost use Rattle.asn1.specs.Laws.{IsShort};
ghost use Rattle.asn1.specs.declared.Tag.{Tag};
ghost use Rattle.asn1.specs.declared.ParseErrorKind.{ParseErrorKind};
ghost use Rattle.asn1.specs.declared.ParseErrorKind.TheVariants.{ShortData};
ghost use Rattle.asn1_tests.specs.Encodings.{of_bool};

use asn1::headline::{writes_alike, writes_an_encoding};
use asn1::laws::{
    answers_stand, contents_alone_are_read, contents_are_short, elements_are_apart,
    fewer_are_short, joins_have_one_cutting, nine_bits_tell, one_answer, one_content, one_encoding,
    one_listing, one_order, one_tag_order, proper_fronts_are_short, worked_examples,
};
use asn1::{
    Asn1Type, ParseErrorKind, SequenceWriter, SimpleAsn1Writable, Tag, WriteResult, Writer,
    is_integer_content, strip_tlv,
};
use std::alloc::Global;

/// Octets begin with one number, one tag, one length and one element at most.
pub fn octets_have_one_start()
    ensures number { (octets : List ℕ) (a b : Result (ℕ × List ℕ) ParseErrorKind) → IsOctets octets
        → IsLeadingNumber octets a → IsLeadingNumber octets b → a ≡ b }
    ensures tag { (octets : List ℕ) (a b : Result (Tag × List ℕ) ParseErrorKind) → IsOctets octets
        → IsLeadingTag octets a → IsLeadingTag octets b → a ≡ b }
    ensures length { (octets : List ℕ) (a b : Result (ℕ × List ℕ) ParseErrorKind) → IsOctets octets
        → IsLeadingLength octets a → IsLeadingLength octets b → a ≡ b }
    ensures element { (octets : List ℕ) (a b : Result (Element × List ℕ) ParseErrorKind)
        → IsOctets octets → IsLeadingElement octets a → IsLeadingElement octets b → a ≡ b }
{
    one_answer();
}

/// Numbers with the same octets in base 128 are the same, and all length octets of a length are as many.
pub fn encodings_of_numbers()
    ensures number { (m n : ℕ) → m < 2 ^ 128 → n < 2 ^ 128 → number_octets m ≡ number_octets n
        → m ≡ n }
    ensures length { (octets : List ℕ) (n : ℕ) → AreLengthOctets octets n
        → length octets ≡ length (length_octets n) }
{
    one_encoding();
}

/// An element that octets begin with is still there if more follow.
pub fn elements_stay()
    ensures { (octets more rest : List ℕ) (e : Element) → IsOctets (octets ++ more)
        → leading_element octets ≡ Ok (e, rest)
        → leading_element (octets ++ more) ≡ Ok (e, rest ++ more) }
{
    answers_stand();
}

/// Octets of which three are missing begin with no element if two more follow.
pub fn two_more_octets()
    ensures { (octets : List ℕ) (one other : ℕ) → IsOctets (octets ++ one ∷ other ∷ [])
        → leading_element octets ≡ Err (ShortData 3)
        → IsShort (leading_element (octets ++ one ∷ other ∷ [])) }
{
    fewer_are_short();
}

/// A proper prefix of an element's encoding begins with no element.
pub fn prefixes_are_no_elements()
    ensures { (e f : Element) (octets more rest : List ℕ) → IsReadable e → IsOctets e.content
        → element_encoding e ≡ octets ++ more → 0 < length more
        → ¬ (leading_element octets ≡ Ok (f, rest)) }
{
    proper_fronts_are_short();
}

/// Two elements before the same octets are one if all the octets are the same.
pub fn encodings_are_of_one_element()
    ensures { (e f : Element) (rest : List ℕ) → IsReadable e → IsReadable f
        → element_encoding e ++ rest ≡ element_encoding f ++ rest → e ≡ f }
{
    elements_are_apart();
}

/// Elements whose encodings together are the same octets are as many.
pub fn as_many_elements()
    ensures { (es fs : List Element) → AllByRecursion IsReadable es → AllByRecursion IsReadable fs
        → flat_map element_encoding es ≡ flat_map element_encoding fs → length es ≡ length fs }
{
    joins_have_one_cutting();
}

/// Whether one encoding comes before another, as slices compare.
pub fn comes_before(a: &[u8], b: &[u8]) -> bool
    ensures { IsTrue result ↔ IsLess a.now b.now }
{
    one_order();
    a.cmp(b).is_lt()
}

/// A tag comes before another by class, or by number within a class.
pub fn tag_comes_before(a: Tag, b: Tag) -> bool
    ensures { IsTrue result ↔ IsTagBefore a b }
{
    one_tag_order();
    a.comes_before(b)
}

/// Encodings have one listing, so a set of elements has one sequence of contents octets, and these tell the set.
pub fn sets_have_one_listing()
    ensures one { (encodings listed : List (List ℕ)) → IsListing encodings listed
        → listed ≡ listing encodings }
    ensures contents { (encodings listed other : List (List ℕ))
        → AllByRecursion IsElementEncoding encodings → IsListing encodings listed
        → IsListing encodings other → concat listed ≡ concat other }
    ensures same { (encodings others listed other : List (List ℕ))
        → AllByRecursion IsElementEncoding encodings → AllByRecursion IsElementEncoding others
        → IsListing encodings listed → IsListing others other → concat listed ≡ concat other
        → SameEncodings encodings others }
{
    one_listing();
}

/// An octet is missing of the contents octets of an OCTET STRING of three.
pub fn two_of_three_octets() -> Option<ParseErrorKind>
    ensures { result ≡ Some (ShortData 1) }
{
    worked_examples();
    match strip_tlv(&[0x04, 0x03, 0x61, 0x62]) {
        Ok(_) => None,
        Err(e) => Some(e.kind()),
    }
}

// ---- integers

/// Contents octets of a number are those of no other, and are the only ones of it.
pub fn contents_of_one_number()
    ensures one { (c : List ℕ) (y z : ℤ) → IsOctets c → IsIntegerContent c y → IsIntegerContent c z
        → y ≡ z }
    ensures only { (c d : List ℕ) (z : ℤ) → IsIntegerContent c z → IsIntegerContent d z → c ≡ d }
{
    contents_alone_are_read();
    one_content();
}

/// Octets whose number is that of the octets after the first are no contents octets.
pub fn are_contents(octets: &[u8]) -> bool
    ensures { (octet next : ℕ) (others : List ℕ) → octets.now ≡ octet ∷ next ∷ others
        → signed_number octets.now ≡ signed_number (next ∷ others) → result ≡ false }
{
    octets.known();
    nine_bits_tell();
    is_integer_content(octets)
}

/// A part of the contents octets of an element that can be read has fewer than 2^32 octets.
pub fn parts_are_short()
    ensures { (tag : Tag) (front part behind : List ℕ) → tag.value < 2 ^ 32
        → Fits (element_encoding (element tag (front ++ part ++ behind))) → length part < 2 ^ 32 }
{
    contents_are_short();
}

// ---- writes

/// A value and a reference to it are written alike.
pub fn references_are_written_alike<T: SimpleAsn1Writable>(
    alloc: Global,
    value: &T,
) -> Result<bool, T::Error>
    requires { T.der.plain }
    ensures { IfOk result (λ same. IsTrue same) }
{
    let (octets, others) = writes_alike(alloc, value, &value)?;
    Ok(octets.as_slice() == others.as_slice())
}

/// A sequence whose closure writes a Boolean holds that Boolean alone.
pub fn a_flag_in_a_sequence(alloc: Global) -> WriteResult<Vec<u8>>
    ensures { IfOk result (λ v. IsElementOf sequence_tag
        (λ c. c ≡ of_bool true) v.items) }
{
    let writes = |writer: &mut Writer<'_>| -> WriteResult<()>
        ensures same_buffer { buffer_name writer.new ≡ buffer_name writer.old }
        ensures front { KeepsPrefix (octets_of writer.old) (octets_of writer.new) }
        ensures ok { OnOk result (octets_of writer.new
            ≡ octets_of writer.old ++ of_bool true) }
    { writer.write_element(&true) };
    writes_an_encoding(alloc, &SequenceWriter::new(&writes))
}
