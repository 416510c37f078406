//! Types whose equality compares what values mean and their encodings, so that the types may have a DEFAULT.

ghost use Rattle.std.specs.Prelude.{refl, pos};
ghost use Rattle.std.proofs.lemmas.Slice.Eq.{bytes_eq-Decides};
ghost use Rattle.asn1_core.specs.Listing.{sequence_tag, set_tag};
ghost use Rattle.asn1_core.specs.Tag.{explicit_tag_of, implicit_tag_of, universal};
ghost use Rattle.asn1_values.specs.BitStrings.{bits_of, owned_bits_of};
ghost use Rattle.asn1_values.specs.Values.{enumerated_value, big_int_octets, big_uint_octets, owned_big_int_octets};
ghost use Rattle.asn1_values.specs.Values.{owned_big_uint_octets};
ghost use Rattle.asn1_values.specs.TextValues.{ia5_octets, printable_octets, utf8_octets, visible_octets, bmp_octets};
ghost use Rattle.asn1_values.specs.TextValues.{universal_octets};
ghost use Rattle.asn1.specs.InHand.{explicit_inner, implicit_inner, octet_string_inner, octets_of_set, sequence_octets};
ghost use Rattle.asn1.specs.InHand.{tagged_explicit_inner, tagged_implicit_inner};
ghost use Rattle.asn1.specs.Tagged.{explicit_tag_in, implicit_tag_in};
ghost use Rattle.asn1.specs.Lemmas.Equalities.{big_content_tells, big_tells, bits_content_tells, bits_decide};
ghost use Rattle.asn1.specs.Lemmas.Equalities.{bits_tell, bools_content_tells, bools_tell};
ghost use Rattle.asn1.specs.Lemmas.Equalities.{generalized_times_content_tells, generalized_times_tell};
ghost use Rattle.asn1.specs.Lemmas.Equalities.{identifiers_content_tells, identifiers_tell, inside_tells};
ghost use Rattle.asn1.specs.Lemmas.Equalities.{integers_content_tells, integers_tell, naturals_content_tells};
ghost use Rattle.asn1.specs.Lemmas.Equalities.{naturals_tell, number_text, octets_tell, retagged_tells, seen_tells};
ghost use Rattle.asn1.specs.Lemmas.Equalities.{utc_times_content_tells, utc_times_tell, x509_times_content_tells};
ghost use Rattle.asn1.specs.Lemmas.Equalities.{x509_times_tell};

use crate::lists::{Sequence, Set};
use crate::wrappers::{
    Explicit, Implicit, MeaningEq, OctetStringEncoded, SimpleMeaningEq, TaggedExplicit,
    TaggedImplicit,
};
use asn1_values::{
    BMPString, BigInt, BigUint, BitString, Enumerated, GeneralizedTime, IA5String,
    ObjectIdentifier, OwnedBigInt, OwnedBigUint, OwnedBitString, PrintableString, UniversalString,
    UtcTime, Utf8String, VisibleString, X509GeneralizedTime,
};

impl MeaningEq for bool {
    ghost tells = { bools_tell (universal 1) ⟦<bool as PartialEq>⟧.eq refl refl refl refl };
}

impl SimpleMeaningEq for bool {
    ghost content_tells = { bools_content_tells ⟦<bool as PartialEq>⟧.eq refl refl };
}

impl MeaningEq for u8 {
    ghost tells = { naturals_tell (universal 2) };
}

impl SimpleMeaningEq for u8 {
    ghost content_tells = { naturals_content_tells };
}

impl MeaningEq for u16 {
    ghost tells = { naturals_tell (universal 2) };
}

impl SimpleMeaningEq for u16 {
    ghost content_tells = { naturals_content_tells };
}

impl MeaningEq for u32 {
    ghost tells = { naturals_tell (universal 2) };
}

impl SimpleMeaningEq for u32 {
    ghost content_tells = { naturals_content_tells };
}

impl MeaningEq for u64 {
    ghost tells = { naturals_tell (universal 2) };
}

impl SimpleMeaningEq for u64 {
    ghost content_tells = { naturals_content_tells };
}

impl MeaningEq for i8 {
    ghost tells = { integers_tell (universal 2) };
}

impl SimpleMeaningEq for i8 {
    ghost content_tells = { integers_content_tells };
}

impl MeaningEq for i16 {
    ghost tells = { integers_tell (universal 2) };
}

impl SimpleMeaningEq for i16 {
    ghost content_tells = { integers_content_tells };
}

impl MeaningEq for i32 {
    ghost tells = { integers_tell (universal 2) };
}

impl SimpleMeaningEq for i32 {
    ghost content_tells = { integers_content_tells };
}

impl MeaningEq for i64 {
    ghost tells = { integers_tell (universal 2) };
}

impl SimpleMeaningEq for i64 {
    ghost content_tells = { integers_content_tells };
}

impl MeaningEq for Enumerated {
    ghost tells = { λ a b. seen_tells enumerated_value (λ n. pos n) (number_text (universal 10))
        ⟦<u32 as PartialEq>⟧.eq a b (naturals_tell (universal 10) (enumerated_value a)
        (enumerated_value b)) };
}

impl SimpleMeaningEq for Enumerated {
    ghost content_tells = { λ a b. naturals_content_tells (enumerated_value a)
        (enumerated_value b) };
}

impl MeaningEq for () {
    ghost tells = { λ a b. record { means = λ e. refl; equal = λ e. refl } };
}

impl SimpleMeaningEq for () {
    ghost content_tells = { λ a b e. refl };
}

impl<'a> MeaningEq for &'a [u8] {
    ghost tells = { λ a b. octets_tell (λ octets. octets.now) (universal 4) _ a b (bytes_eq-Decides
        a.now b.now) };
}

impl<'a> SimpleMeaningEq for &'a [u8] {
    ghost content_tells = { λ a b. (bytes_eq-Decides a.now b.now).1 };
}

impl<const N: usize> MeaningEq for [u8; N] {
    ghost tells = { λ a b. octets_tell (λ octets. octets) (universal 4) _ a b (bytes_eq-Decides a
        b) };
}

impl<const N: usize> SimpleMeaningEq for [u8; N] {
    ghost content_tells = { λ a b. (bytes_eq-Decides a b).1 };
}

impl MeaningEq for ObjectIdentifier {
    ghost tells = { identifiers_tell };
}

impl SimpleMeaningEq for ObjectIdentifier {
    ghost content_tells = { identifiers_content_tells };
}

impl<'a> MeaningEq for PrintableString<'a> {
    ghost tells = { λ a b. octets_tell printable_octets (universal 19) _ a b (bytes_eq-Decides
        (printable_octets a) (printable_octets b)) };
}

impl<'a> SimpleMeaningEq for PrintableString<'a> {
    ghost content_tells = { λ a b. (bytes_eq-Decides (printable_octets a) (printable_octets b)).1 };
}

impl<'a> MeaningEq for IA5String<'a> {
    ghost tells = { λ a b. octets_tell ia5_octets (universal 22) _ a b (bytes_eq-Decides
        (ia5_octets a) (ia5_octets b)) };
}

impl<'a> SimpleMeaningEq for IA5String<'a> {
    ghost content_tells = { λ a b. (bytes_eq-Decides (ia5_octets a) (ia5_octets b)).1 };
}

impl<'a> MeaningEq for VisibleString<'a> {
    ghost tells = { λ a b. octets_tell visible_octets (universal 26) _ a b (bytes_eq-Decides
        (visible_octets a) (visible_octets b)) };
}

impl<'a> SimpleMeaningEq for VisibleString<'a> {
    ghost content_tells = { λ a b. (bytes_eq-Decides (visible_octets a) (visible_octets b)).1 };
}

impl<'a> MeaningEq for Utf8String<'a> {
    ghost tells = { λ a b. octets_tell utf8_octets (universal 12) _ a b (bytes_eq-Decides
        (utf8_octets a) (utf8_octets b)) };
}

impl<'a> SimpleMeaningEq for Utf8String<'a> {
    ghost content_tells = { λ a b. (bytes_eq-Decides (utf8_octets a) (utf8_octets b)).1 };
}

impl<'a> MeaningEq for BMPString<'a> {
    ghost tells = { λ a b. octets_tell bmp_octets (universal 30) _ a b (bytes_eq-Decides
        (bmp_octets a) (bmp_octets b)) };
}

impl<'a> SimpleMeaningEq for BMPString<'a> {
    ghost content_tells = { λ a b. (bytes_eq-Decides (bmp_octets a) (bmp_octets b)).1 };
}

impl<'a> MeaningEq for UniversalString<'a> {
    ghost tells = { λ a b. octets_tell universal_octets (universal 28) _ a b (bytes_eq-Decides
        (universal_octets a) (universal_octets b)) };
}

impl<'a> SimpleMeaningEq for UniversalString<'a> {
    ghost content_tells = { λ a b. (bytes_eq-Decides (universal_octets a) (universal_octets b)).1 };
}

impl MeaningEq for UtcTime {
    ghost tells = { utc_times_tell };
}

impl SimpleMeaningEq for UtcTime {
    ghost content_tells = { utc_times_content_tells };
}

impl MeaningEq for X509GeneralizedTime {
    ghost tells = { x509_times_tell };
}

impl SimpleMeaningEq for X509GeneralizedTime {
    ghost content_tells = { x509_times_content_tells };
}

impl MeaningEq for GeneralizedTime {
    ghost tells = { generalized_times_tell };
}

impl SimpleMeaningEq for GeneralizedTime {
    ghost content_tells = { generalized_times_content_tells };
}

impl<'a> MeaningEq for Sequence<'a> {
    ghost tells = { λ a b. octets_tell sequence_octets sequence_tag _ a b (bytes_eq-Decides
        (sequence_octets a) (sequence_octets b)) };
}

impl<'a> SimpleMeaningEq for Sequence<'a> {
    ghost content_tells = { λ a b. (bytes_eq-Decides (sequence_octets a) (sequence_octets b)).1 };
}

impl<'a> MeaningEq for Set<'a> {
    ghost tells = { λ a b. octets_tell octets_of_set set_tag _ a b (bytes_eq-Decides
        (octets_of_set a) (octets_of_set b)) };
}

impl<'a> SimpleMeaningEq for Set<'a> {
    ghost content_tells = { λ a b. (bytes_eq-Decides (octets_of_set a) (octets_of_set b)).1 };
}

impl<'a> MeaningEq for BigInt<'a> {
    ghost tells = { λ a b. big_tells big_int_octets
        ⟦<BigInt<'static> as PartialEq>⟧.eq a b a.is_content b.is_content
        (bytes_eq-Decides (big_int_octets a) (big_int_octets b)) };
}

impl<'a> SimpleMeaningEq for BigInt<'a> {
    ghost content_tells = { λ a b. big_content_tells big_int_octets
        ⟦<BigInt<'static> as PartialEq>⟧.eq a b a.is_content b.is_content
        (bytes_eq-Decides (big_int_octets a) (big_int_octets b)) };
}

impl<'a> MeaningEq for BigUint<'a> {
    ghost tells = { λ a b. big_tells big_uint_octets
        ⟦<BigUint<'static> as PartialEq>⟧.eq a b a.is_content.0 b.is_content.0
        (bytes_eq-Decides (big_uint_octets a) (big_uint_octets b)) };
}

impl<'a> SimpleMeaningEq for BigUint<'a> {
    ghost content_tells = { λ a b. big_content_tells big_uint_octets
        ⟦<BigUint<'static> as PartialEq>⟧.eq a b a.is_content.0 b.is_content.0
        (bytes_eq-Decides (big_uint_octets a) (big_uint_octets b)) };
}

impl MeaningEq for OwnedBigInt {
    ghost tells = { λ a b. big_tells owned_big_int_octets
        ⟦<OwnedBigInt as PartialEq>⟧.eq a b a.is_content b.is_content
        (bytes_eq-Decides (owned_big_int_octets a) (owned_big_int_octets b)) };
}

impl SimpleMeaningEq for OwnedBigInt {
    ghost content_tells = { λ a b. big_content_tells owned_big_int_octets
        ⟦<OwnedBigInt as PartialEq>⟧.eq a b a.is_content b.is_content
        (bytes_eq-Decides (owned_big_int_octets a) (owned_big_int_octets b)) };
}

impl MeaningEq for OwnedBigUint {
    ghost tells = { λ a b. big_tells owned_big_uint_octets
        ⟦<OwnedBigUint as PartialEq>⟧.eq a b a.is_content.0 b.is_content.0
        (bytes_eq-Decides (owned_big_uint_octets a) (owned_big_uint_octets b)) };
}

impl SimpleMeaningEq for OwnedBigUint {
    ghost content_tells = { λ a b. big_content_tells owned_big_uint_octets
        ⟦<OwnedBigUint as PartialEq>⟧.eq a b a.is_content.0 b.is_content.0
        (bytes_eq-Decides (owned_big_uint_octets a) (owned_big_uint_octets b)) };
}

impl<'a> MeaningEq for BitString<'a> {
    ghost tells = { λ a b. bits_tell
        (λ s. (bits_of s).octets) (λ s. (bits_of s).padding)
        ⟦<BitString<'static> as PartialEq>⟧.eq a b
        (bits_decide (bits_of a).octets (bits_of b).octets (bits_of a).padding
        (bits_of b).padding) };
}

impl<'a> SimpleMeaningEq for BitString<'a> {
    ghost content_tells = { λ a b. bits_content_tells
        (λ s. (bits_of s).octets) (λ s. (bits_of s).padding)
        ⟦<BitString<'static> as PartialEq>⟧.eq a b
        (bits_decide (bits_of a).octets (bits_of b).octets (bits_of a).padding
        (bits_of b).padding) };
}

impl MeaningEq for OwnedBitString {
    ghost tells = { λ a b. bits_tell
        (λ s. (owned_bits_of s).octets) (λ s. (owned_bits_of s).padding)
        ⟦<OwnedBitString as PartialEq>⟧.eq a b
        (bits_decide (owned_bits_of a).octets (owned_bits_of b).octets (owned_bits_of a).padding
        (owned_bits_of b).padding) };
}

impl SimpleMeaningEq for OwnedBitString {
    ghost content_tells = { λ a b. bits_content_tells
        (λ s. (owned_bits_of s).octets) (λ s. (owned_bits_of s).padding)
        ⟦<OwnedBitString as PartialEq>⟧.eq a b
        (bits_decide (owned_bits_of a).octets (owned_bits_of b).octets (owned_bits_of a).padding
        (owned_bits_of b).padding) };
}

impl<T: MeaningEq, const TAG: u32> MeaningEq for Explicit<T, TAG> {
    ghost tells = { λ a b. inside_tells explicit_inner T.der.meaning (explicit_tag_of TAG)
        T.der.encoding T.eq a b (T.tells (explicit_inner a) (explicit_inner b)) };
}

impl<T: MeaningEq, const TAG: u32> SimpleMeaningEq for Explicit<T, TAG> {
    ghost content_tells = { λ a b. (T.tells (explicit_inner a) (explicit_inner b)).equal };
}

impl<T: MeaningEq> MeaningEq for OctetStringEncoded<T> {
    ghost tells = { λ a b. inside_tells octet_string_inner T.der.meaning (universal 4)
        T.der.encoding
        T.eq a b (T.tells (octet_string_inner a) (octet_string_inner b)) };
}

impl<T: MeaningEq> SimpleMeaningEq for OctetStringEncoded<T> {
    ghost content_tells = { λ a b. (T.tells (octet_string_inner a) (octet_string_inner b)).equal };
}

impl<T: SimpleMeaningEq, const TAG: u32> MeaningEq for Implicit<T, TAG> {
    ghost tells = { λ a b. retagged_tells implicit_inner T.der.meaning (implicit_tag_of TAG
        T.der.content.tag) T.der.encoding T.der.content.encoding T.eq a b
        (T.tells (implicit_inner a)
        (implicit_inner b)) (T.content_tells (implicit_inner a) (implicit_inner b)) };
}

impl<T: SimpleMeaningEq, const TAG: u32> SimpleMeaningEq for Implicit<T, TAG> {
    ghost content_tells = { λ a b. T.content_tells (implicit_inner a) (implicit_inner b) };
}

impl<T: MeaningEq, const CLASS: u8, const NUMBER: u32> MeaningEq
    for TaggedExplicit<T, CLASS, NUMBER> {
    ghost tells = { λ a b. inside_tells tagged_explicit_inner T.der.meaning (explicit_tag_in CLASS
        NUMBER) T.der.encoding T.eq a b (T.tells (tagged_explicit_inner a)
        (tagged_explicit_inner b)) };
}

impl<T: MeaningEq, const CLASS: u8, const NUMBER: u32> SimpleMeaningEq
    for TaggedExplicit<T, CLASS, NUMBER> {
    ghost content_tells = { λ a b. (T.tells (tagged_explicit_inner a)
        (tagged_explicit_inner b)).equal };
}

impl<T: SimpleMeaningEq, const CLASS: u8, const NUMBER: u32> MeaningEq
    for TaggedImplicit<T, CLASS, NUMBER> {
    ghost tells = { λ a b. retagged_tells tagged_implicit_inner T.der.meaning (implicit_tag_in CLASS
        NUMBER T.der.content.tag) T.der.encoding T.der.content.encoding T.eq a b
        (T.tells (tagged_implicit_inner a) (tagged_implicit_inner b))
        (T.content_tells (tagged_implicit_inner a) (tagged_implicit_inner b)) };
}

impl<T: SimpleMeaningEq, const CLASS: u8, const NUMBER: u32> SimpleMeaningEq
    for TaggedImplicit<T, CLASS, NUMBER> {
    ghost content_tells = { λ a b. T.content_tells (tagged_implicit_inner a)
        (tagged_implicit_inner b) };
}

impl<T: MeaningEq> MeaningEq for Box<T> {
    ghost tells = { λ a b. seen_tells (λ x. x.value) T.der.meaning T.der.encoding T.eq a b (T.tells
        a.value b.value) };
}

impl<T: SimpleMeaningEq> SimpleMeaningEq for Box<T> {
    ghost content_tells = { λ a b. T.content_tells a.value b.value };
}
