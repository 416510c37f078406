//! What a user gets from the laws of values: each function calls some of them, and its contract follows with no proof
//! by hand.

ghost use Rattle.std.specs.Prelude.{◌≡◌, ◌↔◌, ◌∷◌, Bool, true, false, List, IfOk, IfErr, IfSome, IsTrue};
ghost use Rattle.std.specs.List.{slice_index_or};
ghost use Rattle.asn1.specs.Base256.{IsOctets};
ghost use Rattle.asn1.specs.ReadError.{read_error};
ghost use Rattle.asn1.specs.Comparisons.{HashesAlike};
ghost use Rattle.asn1.specs.Bits.{Bits, IsBitsOf, bits};
ghost use Rattle.asn1.specs.BitStrings.{bits_of};
ghost use Rattle.asn1.specs.Identifier.{IsIdentifierContent, IsIdentifierText, IsPlainText};
ghost use Rattle.asn1.specs.IdentifierValues.{identifier_of};
ghost use Rattle.asn1.specs.Times.{IsUtcText, IsX509Text, Moment};
ghost use Rattle.asn1.specs.TimeValues.{utc_content, x509_content, x509_moment};
ghost use Rattle.asn1.specs.declared.ParseErrorKind.TheVariants.{InvalidValue};

use asn1::laws::{
    big_ints_compare, big_uints_compare, bit_strings_compare, bits_are_a_list, bmp_strings_compare,
    choices_are_cloned, choices_compare, choices_hash, contents_are_read, each_list_has_bits,
    enumerated_values_compare, filled_octets_are_bits, generalized_times_compare,
    ia5_strings_compare, identifiers_compare, one_bit_string, one_identifier,
    owned_big_uints_compare, owned_bit_strings_compare, plain_texts_are_shown_again,
    printable_strings_compare, set_bits, slices_compare, texts_are_read, times_are_read,
    times_are_written, universal_strings_compare, utc_times_compare, utf8_strings_compare,
    visible_strings_compare, wrappers_are_cloned, wrappers_compare, wrappers_hash,
    x509_generalized_times_compare,
};
use asn1::{
    Asn1Type, BMPString, BigInt, BigUint, BitString, Choice2, Choice3, Enumerated, Explicit,
    GeneralizedTime, IA5String, Implicit, ObjectIdentifier, OwnedBigUint, OwnedBitString,
    ParseResult, PrintableString, SequenceOfWriter, SimpleAsn1Readable, UniversalString, UtcTime,
    Utf8String, VisibleString, X509GeneralizedTime,
};
use std::alloc::{AllocError, Global};
use std::hash::Hash;

// ---- bit strings

/// A bit string holds a list of bits.
pub fn what_bits_are_held(value: &BitString<'_>)
    ensures { (list : List Bool) × IsBitsOf list (bits_of value.now) }
{
    bits_are_a_list();
    value.known();
}

/// Octets that a list of bits fills are accepted.
pub fn filled_octets_are_accepted(octets: &[u8], padding: u8) -> bool
    ensures { (list : List Bool) (b : Bits) → bits octets.now padding ≡ b → IsBitsOf list b
        → IsTrue result }
{
    filled_octets_are_bits();
    BitString::new(octets, padding).is_some()
}

/// Each list of bits after a bit that is set has a bit string.
pub fn lists_after_a_bit()
    ensures { (list : List Bool) → (b : Bits) × IsOctets b.octets × IsBitsOf (true ∷ list) b }
{
    each_list_has_bits();
}

/// Bit strings that are equal hold the same list of bits, and those that hold the same list are equal.
pub fn hold_same_bits(a: &BitString<'_>, b: &BitString<'_>) -> bool
    ensures same { IsTrue result → (list : List Bool) → IsBitsOf list (bits_of a.now)
        → IsBitsOf list (bits_of b.now) }
    ensures equal { (list : List Bool) (x y : Bits) → bits_of a.now ≡ x → bits_of b.now ≡ y
        → IsBitsOf list x → IsBitsOf list y → IsTrue result }
{
    a.as_bytes().known();
    b.as_bytes().known();
    bit_strings_compare();
    one_bit_string();
    *a == *b
}

/// Whether a bit is set in the list of bits.
pub fn is_set_in_the_list(value: &BitString<'_>, n: usize) -> bool
    ensures { (list : List Bool) (b : Bits) → bits_of value.now ≡ b → IsBitsOf list b
        → result ≡ slice_index_or list n false }
{
    set_bits();
    value.has_bit_set(n)
}

// ---- object identifiers

/// Identifiers are equal exactly if their contents octets are.
pub fn contents_tell_identifiers(a: &ObjectIdentifier, b: &ObjectIdentifier) -> bool
    ensures { IsTrue result }
{
    one_identifier();
    identifiers_compare();
    (a.as_der() == b.as_der()) == (*a == *b)
}

/// Octets are read as the identifier whose contents octets they are.
pub fn read_from_contents(octets: &[u8]) -> ParseResult<ObjectIdentifier>
    ensures { IfOk result (λ identifier. IsIdentifierContent octets.now
        (identifier_of identifier)) }
{
    octets.known();
    contents_are_read();
    ObjectIdentifier::from_der(octets)
}

/// A string is read as the identifier whose dotted form it is.
pub fn read_from_a_dotted_form(text: &str) -> Option<ObjectIdentifier>
    ensures { IfSome result (λ identifier. IsIdentifierText text.now
        (identifier_of identifier)) }
{
    texts_are_read();
    ObjectIdentifier::from_string(text)
}

/// A plain text that is read is displayed unchanged.
pub fn plain_texts_go_round(alloc: Global, text: &str) -> Result<bool, AllocError>
    requires { IsPlainText text.now }
    ensures { IfOk result (λ same. IsTrue same) }
{
    plain_texts_are_shown_again();
    let Some(identifier) = ObjectIdentifier::from_string(text) else {
        return Ok(true);
    };
    let shown = format!(in alloc; "{identifier}")?;
    Ok(shown.as_str() == text)
}

// ---- comparisons of types that are made of these

/// A name in one of three types of strings.
type Name<'a> = Choice3<PrintableString<'a>, UniversalString<'a>, BMPString<'a>>;

/// Whether two names mean the same.
pub fn are_same_names<'a>(a: &Name<'a>, b: &Name<'a>) -> bool
    ensures { IsTrue result ↔ (⟦<Name<'a> as Asn1Type>⟧.der.meaning a.now
        ≡ ⟦<Name<'a> as Asn1Type>⟧.der.meaning b.now) }
{
    printable_strings_compare();
    universal_strings_compare();
    bmp_strings_compare();
    choices_compare::<PrintableString<'a>, UniversalString<'a>, BMPString<'a>>();
    *a == *b
}

/// A text in one of three types of strings, under a tag.
type Text<'a> = Explicit<Choice3<IA5String<'a>, VisibleString<'a>, Utf8String<'a>>, 0>;

/// Whether two texts mean the same.
pub fn are_same_texts<'a>(a: &Text<'a>, b: &Text<'a>) -> bool
    ensures { IsTrue result ↔ (⟦<Text<'a> as Asn1Type>⟧.der.meaning a.now
        ≡ ⟦<Text<'a> as Asn1Type>⟧.der.meaning b.now) }
{
    ia5_strings_compare();
    visible_strings_compare();
    utf8_strings_compare();
    choices_compare::<IA5String<'a>, VisibleString<'a>, Utf8String<'a>>();
    wrappers_compare::<Choice3<IA5String<'a>, VisibleString<'a>, Utf8String<'a>>, 0>();
    *a == *b
}

/// A number, or the bits or the enumerated value in its place.
type Serial<'a> = Choice3<BigInt<'a>, BitString<'a>, Enumerated>;

/// Whether two of these mean the same.
pub fn are_same_serials<'a>(a: &Serial<'a>, b: &Serial<'a>) -> bool
    ensures { IsTrue result ↔ (⟦<Serial<'a> as Asn1Type>⟧.der.meaning a.now
        ≡ ⟦<Serial<'a> as Asn1Type>⟧.der.meaning b.now) }
{
    big_ints_compare();
    bit_strings_compare();
    enumerated_values_compare();
    choices_compare::<BigInt<'a>, BitString<'a>, Enumerated>();
    *a == *b
}

/// Numbers that are written as a list.
type Numbers<'a> = SequenceOfWriter<'a, BigUint<'a>>;

/// Whether two lists have the same numbers.
pub fn are_same_numbers<'a>(a: &Numbers<'a>, b: &Numbers<'a>) -> bool
    ensures { IsTrue result ↔ (⟦<Numbers<'a> as Asn1Type>⟧.der.meaning a.now
        ≡ ⟦<Numbers<'a> as Asn1Type>⟧.der.meaning b.now) }
{
    big_uints_compare();
    slices_compare::<BigUint<'a>>();
    *a == *b
}

/// A number or bits, which own their octets, each under a tag.
type Key = Choice2<Implicit<OwnedBigUint, 0>, Implicit<OwnedBitString, 1>>;

/// Keys that mean the same hash alike.
pub fn keys_hash()
    ensures { HashesAlike ⟦<Key as Asn1Type>⟧.der.meaning ⟦<Key as Hash>⟧.hash_input }
{
    owned_big_uints_compare();
    owned_bit_strings_compare();
    wrappers_hash::<OwnedBigUint, 0>();
    wrappers_hash::<OwnedBitString, 1>();
    choices_hash::<
        Implicit<OwnedBigUint, 0>,
        Implicit<OwnedBitString, 1>,
        Implicit<OwnedBitString, 1>,
    >();
}

/// A key equals its clone.
pub fn cloned_keys(key: &Key) -> Result<bool, AllocError>
    ensures { IfOk result (λ same. IsTrue same) }
{
    owned_big_uints_compare();
    owned_bit_strings_compare();
    wrappers_are_cloned::<OwnedBigUint, (), 0>();
    wrappers_are_cloned::<OwnedBitString, (), 1>();
    choices_are_cloned::<
        Implicit<OwnedBigUint, 0>,
        Implicit<OwnedBitString, 1>,
        Implicit<OwnedBitString, 1>,
    >();
    let copy = key.clone()?;
    Ok(copy == *key)
}

/// A time as a certificate has it (RFC 5280 4.1).
type Time = Choice2<UtcTime, X509GeneralizedTime>;

/// Whether two of these times mean the same; if they do, they hash alike.
pub fn are_same_times(a: &Time, b: &Time) -> bool
    ensures same { IsTrue result ↔ (⟦<Time as Asn1Type>⟧.der.meaning a.now
        ≡ ⟦<Time as Asn1Type>⟧.der.meaning b.now) }
    ensures hash { HashesAlike ⟦<Time as Asn1Type>⟧.der.meaning ⟦<Time as Hash>⟧.hash_input }
{
    utc_times_compare();
    x509_generalized_times_compare();
    choices_compare::<UtcTime, X509GeneralizedTime, X509GeneralizedTime>();
    choices_hash::<UtcTime, X509GeneralizedTime, X509GeneralizedTime>();
    *a == *b
}

// ---- times

/// Contents octets that are no text of a `UtcTime` are rejected with `InvalidValue`.
pub fn what_is_no_utc_time(alloc: Global, data: &[u8]) -> ParseResult<UtcTime>
    ensures kind { IfErr result (λ e. e ≡ read_error InvalidValue) }
    ensures none { IfErr result (λ e. (time : Moment) → ¬ IsUtcText «data».now time) }
{
    data.known();
    times_are_read();
    UtcTime::parse_data(alloc, data)
}

/// The text of a time is read as that time.
pub fn what_x509_time_was_read(alloc: Global, data: &[u8]) -> ParseResult<X509GeneralizedTime>
    ensures { (time : Moment) → IsX509Text «data».now time
        → IfOk result (λ t. x509_moment t ≡ time) }
{
    data.known();
    times_are_read();
    X509GeneralizedTime::parse_data(alloc, data)
}

/// A valid time is read back from the octets that are written.
pub fn times_are_read_back()
    ensures utc { (time : Moment) → utc_content.valid time → IsOctets (utc_content.encoding time)
        → utc_content.read (utc_content.encoding time) ≡ Ok time }
    ensures x509 { (time : Moment) → x509_content.valid time
        → IsOctets (x509_content.encoding time)
        → x509_content.read (x509_content.encoding time) ≡ Ok time }
{
    times_are_read();
    times_are_written();
}

/// What is before an earlier time is earlier, and another time.
pub fn earlier_times(a: &GeneralizedTime, b: &GeneralizedTime, c: &GeneralizedTime) -> bool
    ensures { IsTrue result }
{
    generalized_times_compare();
    !(*a < *b && *b < *c) || (*a < *c && *a != *c)
}
