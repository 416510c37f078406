//! The library for C, and for each language that calls C: an export for each call of `include/asn1.h`. The calls are
//! those of `asn1_for_c`, which has what they set and return, and whose clauses each export states again.
#![tactic(auto)]

ghost use Rattle.std.specs.Prelude.{◌≡◌, ◌+◌, ◌*◌, ◌^◌, ◌<◌, ◌≤◌, ◌++◌, [], ℕ, ℤ, List, length};
ghost use Rattle.std.specs.Prelude.{Result, IfSome, IfNone, false};
ghost use Rattle.asn1.specs.declared.ParseErrorKind.{ParseErrorKind};
ghost use Rattle.asn1.specs.Base256.{IsOctets};
ghost use Rattle.asn1.specs.CoreTypes.{signed_der, unsigned_der};
ghost use Rattle.asn1.specs.Element.{Element, IsLeadingElement, leading_element};
ghost use Rattle.asn1.specs.Laws.{IsShort};
ghost use Rattle.asn1.specs.Reading.{Fits, whole};
ghost use Rattle.asn1_for_c.specs.Elements.{Leaves};
ghost use Rattle.asn1_for_c.specs.Errors.{unknown_type, without_details};
ghost use Rattle.asn1_for_c.specs.Objects.{IsNoObject, TellsOf, key_number, object_numbered, signature_number};
ghost use Rattle.asn1_for_c.specs.Octets.{LeavesOctet};
ghost use Rattle.asn1_for_c.specs.SetOf.{LeavesSetOf};
ghost use Rattle.asn1_for_c.specs.Texts.{LeavesText, text_number, words_of};
ghost use Rattle.asn1_for_c.specs.Types.{IsEncoding, LeavesChecked, LeavesRead, told_at, type_numbered, type_of};
ghost use Rattle.asn1_for_c.specs.Values.{IsWidth, LeavesDotted, LeavesNatural, bits_in, shown_time};

use asn1::{Asn1Type, BitString, GeneralizedTime, ObjectIdentifier, UtcTime};
use asn1_for_c::{Asn1Bits, Asn1Element, Asn1Error, Asn1Time, Described, Object, Rejecting};
use std::alloc::Global;

/// Cuts off the element at the start of the octets.
#[unsafe(no_mangle)]
pub extern "C" fn asn1_strip_tlv(
    octets: &[u8],
    element: &mut Asn1Element,
    error: &mut Asn1Error,
) -> u32
    // The result is the one that the definitions allow.
    ensures grammar { (answer : Result (Element × List ℕ) ParseErrorKind)
        × IsLeadingElement octets.now answer × Leaves element.old element.new error.new answer }
    ensures only { (answer : Result (Element × List ℕ) ParseErrorKind)
        → IsLeadingElement octets.now answer → Leaves element.old element.new error.new answer }
    ensures number { result ≡ error.new.number }

    // The element is within the octets.
    ensures within { result ≡ 0
        → element.new.header_length + element.new.contents_length ≤ length octets.now }

    // The result stays the same for every longer input, unless octets are missing.
    ensures stays { (more : List ℕ) → IsOctets more → ¬ (result ≡ 6)
        → Leaves element.old element.new error.new (leading_element (octets.now ++ more)) }
    ensures fewer { (more : List ℕ) → IsOctets more → result ≡ 6
        → length more < error.new.needed → IsShort (leading_element (octets.now ++ more)) }
    ensures exact { Leaves element.old element.new error.new (leading_element octets.now) }
{
    asn1_for_c::asn1_strip_tlv(octets, element, error)
}

/// Whether the octets are the one encoding of a value of the type with this number.
#[unsafe(no_mangle)]
pub extern "C" fn asn1_check(
    alloc: Global,
    number: u32,
    octets: &[u8],
    error: &mut Asn1Error,
) -> u32
    ensures exact { error.new ≡ told_at (type_numbered number) octets.now }
    ensures number { result ≡ error.new.number }

    // The octets are the encoding of a value, and the encoding of a value is accepted.
    ensures found { result ≡ 0
        → IfSome (type_numbered number) (λ one. IsEncoding (type_of one).der octets.now) }
    ensures only { IfSome (type_numbered number) (λ one. IsEncoding (type_of one).der octets.now
        → Fits octets.now → result ≡ 0) }
{
    asn1_for_c::asn1_check(alloc, number, octets, error)
}

/// Which form of a key or of a signature the octets have.
#[unsafe(no_mangle)]
pub extern "C" fn pkix_form(alloc: Global, number: u32, octets: &[u8]) -> u32
    ensures one { IfSome (object_numbered number) (λ one. result ≡ number) }
    ensures key { number ≡ key_number → IfSome (object_numbered result) (λ one. TellsOf
        (⟦<Object as Described>⟧.form one) ⟦<Object as Described>⟧.key octets.now) }
    ensures signature { number ≡ signature_number → IfSome (object_numbered result)
        (λ one. TellsOf (⟦<Object as Described>⟧.form one) ⟦<Object as Described>⟧.signature
        octets.now) }
    ensures some { IfNone (object_numbered result) (IsNoObject number) }
    ensures none { IsNoObject number → result ≡ 0 }
{
    asn1_for_c::pkix_form(alloc, number, octets)
}

/// Whether the octets are the one encoding of the object with this number, and where its error is.
#[unsafe(no_mangle)]
pub extern "C" fn pkix_check(
    alloc: Global,
    number: u32,
    octets: &[u8],
    place: &mut [u8],
    count: &mut usize,
    error: &mut Asn1Error,
) -> u32
    ensures exact { IfSome (object_numbered number) (λ one.
        LeavesChecked (⟦<Object as Described>⟧.form one) octets.now result error.new
        place.old place.new count.new) }

    // A key is one of its forms, and so is a signature.
    ensures key { number ≡ key_number → LeavesChecked ⟦<Object as Described>⟧.key octets.now
        result error.new place.old place.new count.new }
    ensures signature { number ≡ signature_number → LeavesChecked
        ⟦<Object as Described>⟧.signature octets.now result error.new
        place.old place.new count.new }
    ensures none { IsNoObject number → error.new ≡ without_details unknown_type }
    ensures no_place { IsNoObject number → LeavesText [] place.old place.new count.new }
    ensures number { result ≡ error.new.number }
{
    asn1_for_c::pkix_check(alloc, number, octets, place, count, error)
}

/// At which octet the object with this number has its error.
#[unsafe(no_mangle)]
pub extern "C" fn pkix_error_octet(
    alloc: Global,
    number: u32,
    octets: &[u8],
    scratch: &mut [u8],
    octet: &mut usize,
) -> bool
    ensures exact { IfSome (object_numbered number) (λ one. LeavesOctet
        (⟦<Object as Rejecting>⟧.rejected one) octets.now result octet.old octet.new) }

    // A key is rejected as the form of which `pkix_check` tells, and so is a signature.
    ensures key { number ≡ key_number → (one : Object)
        × TellsOf (⟦<Object as Described>⟧.form one) ⟦<Object as Described>⟧.key octets.now
        × LeavesOctet (⟦<Object as Rejecting>⟧.rejected one) octets.now result
        octet.old octet.new }
    ensures signature { number ≡ signature_number → (one : Object)
        × TellsOf (⟦<Object as Described>⟧.form one) ⟦<Object as Described>⟧.signature octets.now
        × LeavesOctet (⟦<Object as Rejecting>⟧.rejected one) octets.now result
        octet.old octet.new }
    ensures none { IsNoObject number → result ≡ false }
    ensures stays { result ≡ false → octet.new ≡ octet.old }
{
    asn1_for_c::pkix_error_octet(alloc, number, octets, scratch, octet)
}

/// Reads a Boolean.
#[unsafe(no_mangle)]
pub extern "C" fn asn1_read_bool(
    alloc: Global,
    octets: &[u8],
    value: &mut bool,
    error: &mut Asn1Error,
) -> u32
    ensures exact { LeavesRead (λ it. it) value.old value.new error.new
        (whole (⟦<bool as Asn1Type>⟧.der.read octets.now)) }
    ensures number { result ≡ error.new.number }
{
    asn1_for_c::asn1_read_bool(alloc, octets, value, error)
}

/// Reads an integer of this many bits with a sign.
#[unsafe(no_mangle)]
pub extern "C" fn asn1_read_signed(
    alloc: Global,
    bits: u32,
    octets: &[u8],
    value: &mut i64,
    error: &mut Asn1Error,
) -> u32
    ensures exact { IsWidth bits → LeavesRead (λ it. it) value.old value.new error.new
        (whole ((signed_der {V = ℤ} bits (λ it. it)).read octets.now)) }
    ensures other { ¬ IsWidth bits → error.new ≡ without_details unknown_type }
    ensures kept { ¬ IsWidth bits → value.new ≡ value.old }
    ensures number { result ≡ error.new.number }
{
    asn1_for_c::asn1_read_signed(alloc, bits, octets, value, error)
}

/// Reads an integer of this many bits without a sign.
#[unsafe(no_mangle)]
pub extern "C" fn asn1_read_unsigned(
    alloc: Global,
    bits: u32,
    octets: &[u8],
    value: &mut u64,
    error: &mut Asn1Error,
) -> u32
    ensures exact { IsWidth bits → LeavesNatural value.old value.new error.new
        (whole ((unsigned_der {V = ℕ} bits (λ it. it)).read octets.now)) }
    ensures other { ¬ IsWidth bits → error.new ≡ without_details unknown_type }
    ensures kept { ¬ IsWidth bits → value.new ≡ value.old }
    ensures number { result ≡ error.new.number }
{
    asn1_for_c::asn1_read_unsigned(alloc, bits, octets, value, error)
}

/// Reads a bit string.
#[unsafe(no_mangle)]
pub extern "C" fn asn1_read_bits(
    alloc: Global,
    octets: &[u8],
    value: &mut Asn1Bits,
    error: &mut Asn1Error,
) -> u32
    ensures exact { LeavesRead (bits_in octets.now) value.old value.new error.new
        (whole (⟦<BitString<'static> as Asn1Type>⟧.der.read octets.now)) }
    ensures number { result ≡ error.new.number }
{
    asn1_for_c::asn1_read_bits(alloc, octets, value, error)
}

/// Reads a UTCTime.
#[unsafe(no_mangle)]
pub extern "C" fn asn1_read_utc_time(
    alloc: Global,
    octets: &[u8],
    value: &mut Asn1Time,
    error: &mut Asn1Error,
) -> u32
    ensures exact { LeavesRead (λ it. shown_time it None) value.old value.new error.new
        (whole (⟦<UtcTime as Asn1Type>⟧.der.read octets.now)) }
    ensures number { result ≡ error.new.number }
{
    asn1_for_c::asn1_read_utc_time(alloc, octets, value, error)
}

/// Reads a GeneralizedTime.
#[unsafe(no_mangle)]
pub extern "C" fn asn1_read_generalized_time(
    alloc: Global,
    octets: &[u8],
    value: &mut Asn1Time,
    error: &mut Asn1Error,
) -> u32
    ensures exact { LeavesRead (λ it. shown_time it.moment it.nanoseconds) value.old value.new
        error.new (whole (⟦<GeneralizedTime as Asn1Type>⟧.der.read octets.now)) }
    ensures number { result ≡ error.new.number }
{
    asn1_for_c::asn1_read_generalized_time(alloc, octets, value, error)
}

/// Reads an object identifier, and leaves its dotted text.
#[unsafe(no_mangle)]
pub extern "C" fn asn1_read_oid(
    alloc: Global,
    octets: &[u8],
    text: &mut [u8],
    count: &mut usize,
    error: &mut Asn1Error,
) -> u32
    ensures exact { LeavesDotted text.old text.new count.new error.new
        (whole (⟦<ObjectIdentifier as Asn1Type>⟧.der.read octets.now)) }
    ensures number { result ≡ error.new.number }
{
    asn1_for_c::asn1_read_oid(alloc, octets, text, count, error)
}

/// Leaves the contents octets of the SET OF with these elements.
#[unsafe(no_mangle)]
pub extern "C" fn asn1_set_of(
    octets: &[u8],
    buffer: &mut [u8],
    count: &mut usize,
    error: &mut Asn1Error,
) -> u32
    ensures exact { LeavesSetOf octets.now buffer.old buffer.new count.new error.new }
    ensures number { result ≡ error.new.number }
{
    asn1_for_c::asn1_set_of(octets, buffer, count, error)
}

/// Leaves what an error's number means.
#[unsafe(no_mangle)]
pub extern "C" fn asn1_error_text(number: u32, buffer: &mut [u8], count: &mut usize) -> u32
    ensures text { LeavesText (words_of number) buffer.old buffer.new count.new }
    ensures number { result ≡ text_number (words_of number) buffer.old }
{
    asn1_for_c::asn1_error_text(number, buffer, count)
}

/// The version of the library, 0.24.1: each part has eight bits.
#[unsafe(no_mangle)]
pub extern "C" fn asn1_version() -> u32
    ensures { result ≡ 0 * 2 ^ 16 + 24 * 2 ^ 8 + 1 }
{
    asn1_for_c::asn1_version()
}
