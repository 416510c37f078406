//! Which types are lawful, have one encoding for each value, allocate and have bounds. Each law is the contract of a
//! function that does nothing. A type with parts is as its parts are.

ghost use Rattle.std.specs.Prelude.{◌≡◌, ◌<◌, ◌^◌, List, false, ℕ, length};
ghost use Rattle.asn1_core.specs.declared.tag.Tag.{Tag};
ghost use Rattle.asn1_core.specs.Apart.{IsFirst};
ghost use Rattle.asn1_core.specs.Reading.{Fits};
ghost use Rattle.asn1_core.specs.SetWriting.{IsElementWritten};
ghost use Rattle.asn1.specs.Structures.{structure};
ghost use Rattle.asn1.specs.TypeLaws.{Inherits, InheritsBoth, IsSound, IsSoundOwned};

use crate::fields::{Field, Last, Row};
use crate::{
    BMPString, BigInt, BigUint, BitString, Choice1, Choice2, Choice3, Date, DefaultValue,
    Defaulted, Enumerated, ErrorInto, Explicit, GeneralizedTime, IA5String, Implicit, MeaningEq,
    Null, NumericString, ObjectIdentifier, OctetStringEncoded, OwnedBigInt, OwnedBigUint,
    OwnedBitString, PrintableString, RelativeOid, Sequence, SequenceOf, SequenceOfWriter, Set,
    SetOf, SetOfWriter, TaggedExplicit, TaggedImplicit, Tlv, UniversalString, UtcTime, Utf8String,
    VisibleString, X509GeneralizedTime,
};
use asn1_core::Asn1Type;

/// Types of numbers are lawful, have one encoding for each value, don't allocate and have no bounds.
pub fn numbers_are_sound()
    ensures boolean { IsSound ⟦<bool as Asn1Type>⟧.der }
    ensures i8 { IsSound ⟦<i8 as Asn1Type>⟧.der }
    ensures i16 { IsSound ⟦<i16 as Asn1Type>⟧.der }
    ensures i32 { IsSound ⟦<i32 as Asn1Type>⟧.der }
    ensures i64 { IsSound ⟦<i64 as Asn1Type>⟧.der }
    ensures u8 { IsSound ⟦<u8 as Asn1Type>⟧.der }
    ensures u16 { IsSound ⟦<u16 as Asn1Type>⟧.der }
    ensures u32 { IsSound ⟦<u32 as Asn1Type>⟧.der }
    ensures u64 { IsSound ⟦<u64 as Asn1Type>⟧.der }
    ensures big_int { IsSound ⟦<BigInt<'static> as Asn1Type>⟧.der }
    ensures big_uint { IsSound ⟦<BigUint<'static> as Asn1Type>⟧.der }
    ensures enumerated { IsSound ⟦<Enumerated as Asn1Type>⟧.der }
{}

/// The same of types of octets, bits, characters, object identifiers and times.
pub fn values_are_sound<const N: usize>()
    ensures null { IsSound ⟦<Null as Asn1Type>⟧.der }
    ensures octets { IsSound ⟦<&'static [u8] as Asn1Type>⟧.der }
    ensures array { IsSound ⟦<[u8; N] as Asn1Type>⟧.der }
    ensures bits { IsSound ⟦<BitString<'static> as Asn1Type>⟧.der }
    ensures numeric { IsSound ⟦<NumericString<'static> as Asn1Type>⟧.der }
    ensures date { IsSound ⟦<Date as Asn1Type>⟧.der }
    ensures relative { IsSound ⟦<RelativeOid<'static> as Asn1Type>⟧.der }
    ensures printable { IsSound ⟦<PrintableString<'static> as Asn1Type>⟧.der }
    ensures ia5 { IsSound ⟦<IA5String<'static> as Asn1Type>⟧.der }
    ensures visible { IsSound ⟦<VisibleString<'static> as Asn1Type>⟧.der }
    ensures utf8 { IsSound ⟦<Utf8String<'static> as Asn1Type>⟧.der }
    ensures bmp { IsSound ⟦<BMPString<'static> as Asn1Type>⟧.der }
    ensures universal { IsSound ⟦<UniversalString<'static> as Asn1Type>⟧.der }
    ensures identifier { IsSound ⟦<ObjectIdentifier as Asn1Type>⟧.der }
    ensures utc { IsSound ⟦<UtcTime as Asn1Type>⟧.der }
    ensures x509 { IsSound ⟦<X509GeneralizedTime as Asn1Type>⟧.der }
    ensures generalized { IsSound ⟦<GeneralizedTime as Asn1Type>⟧.der }
{}

/// The same of elements as they are encoded.
pub fn elements_are_sound()
    ensures any { IsSound ⟦<Tlv<'static> as Asn1Type>⟧.der }
    ensures sequence { IsSound ⟦<Sequence<'static> as Asn1Type>⟧.der }
    ensures set { IsSound ⟦<Set<'static> as Asn1Type>⟧.der }
{}

/// The same of types that own memory, except that reading them allocates.
pub fn owned_types_are_sound()
    ensures big_int { IsSoundOwned ⟦<OwnedBigInt as Asn1Type>⟧.der }
    ensures big_uint { IsSoundOwned ⟦<OwnedBigUint as Asn1Type>⟧.der }
    ensures bits { IsSoundOwned ⟦<OwnedBitString as Asn1Type>⟧.der }
{}

/// Boxes and references are lawful if what they hold is, and have its encoding. Reading a box allocates.
pub fn references_are_lawful<'a, T: Asn1Type + 'a>()
    ensures boxed { T.der.lawful → ⟦<Box<T> as Asn1Type>⟧.der.lawful }
    ensures box_plain { T.der.plain → ⟦<Box<T> as Asn1Type>⟧.der.plain }
    ensures box_takes { ⟦<Box<T> as Asn1Type>⟧.der.takes_memory }
    ensures box_unbounded { (T.der.bounded → ⊥) → ⟦<Box<T> as Asn1Type>⟧.der.bounded → ⊥ }
    ensures reference { T.der.lawful → ⟦<&'a T as Asn1Type>⟧.der.lawful }
    ensures as_held { Inherits T.der ⟦<&'a T as Asn1Type>⟧.der }
{}

/// Lists and sets of lawful elements are lawful, read or written. A list that is read has bounds; a slice is only
/// written.
pub fn lists_are_lawful<'a, T: Asn1Type + 'a, const MIN: usize, const MAX: usize>()
    ensures list { T.der.lawful → T.der.is_element →
        ⟦<SequenceOf<'a, T, MIN, MAX> as Asn1Type>⟧.der.lawful }
    ensures list_plain { T.der.plain → ⟦<SequenceOf<'a, T, MIN, MAX> as Asn1Type>⟧.der.plain }
    ensures list_takes_none { (T.der.takes_memory → ⊥) →
        ⟦<SequenceOf<'a, T, MIN, MAX> as Asn1Type>⟧.der.takes_memory → ⊥ }
    ensures set { T.der.lawful → T.der.is_element → ⟦<SetOf<'a, T> as Asn1Type>⟧.der.lawful }
    ensures set_as_items { Inherits T.der ⟦<SetOf<'a, T> as Asn1Type>⟧.der }
    ensures slice { T.der.lawful → T.der.is_element →
        ⟦<SequenceOfWriter<'a, T> as Asn1Type>⟧.der.lawful }
    ensures slice_plain { T.der.plain → ⟦<SequenceOfWriter<'a, T> as Asn1Type>⟧.der.plain }
    ensures set_slice { T.der.lawful → T.der.is_element →
        ⟦<SetOfWriter<'a, T> as Asn1Type>⟧.der.lawful }
    ensures set_slice_plain { T.der.plain → ⟦<SetOfWriter<'a, T> as Asn1Type>⟧.der.plain }
{}

/// No two valid values of a lawful type that is read share an encoding, be they within its bounds or not; nor do two
/// within the bounds of a type that is only written, if the encoding fits. The encoding of a value may be written, if
/// the type has one for each value; it can be read if it is shorter than 2^32 octets; and whatever is written of a
/// value is nothing or one element.
pub fn encodings_tell_values<T: Asn1Type>()
    ensures one_value { T.der.is_read → T.der.lawful → (m n : T.der.Meaning) → T.der.valid m
        → T.der.valid n → T.der.encoding m ≡ T.der.encoding n → m ≡ n }
    ensures one_allowed { T.der.lawful → (m n : T.der.Meaning) → T.der.valid m → T.der.valid n
        → T.der.allowed m → T.der.allowed n → Fits (T.der.encoding m)
        → T.der.encoding m ≡ T.der.encoding n → m ≡ n }
    ensures has_encoding { T.der.plain → (m : T.der.Meaning) → T.der.valid m
        → T.der.encodings m (T.der.encoding m) }
    ensures short { T.der.lawful → (m : T.der.Meaning) → T.der.valid m
        → length (T.der.encoding m) < 2 ^ 32 → Fits (T.der.encoding m) }
    ensures element { (m : T.der.Meaning) → IsElementWritten T.der m }
{}

/// Wrappers have one encoding for each value, allocate and have bounds as their parts do.
pub fn wrappers_inherit<T: Asn1Type, const TAG: u32>()
    ensures option { Inherits T.der ⟦<Option<T> as Asn1Type>⟧.der }
    ensures explicit { Inherits T.der ⟦<Explicit<T, TAG> as Asn1Type>⟧.der }
    ensures implicit { T.der.is_simple → Inherits T.der ⟦<Implicit<T, TAG> as Asn1Type>⟧.der }
    ensures octet_string { Inherits T.der ⟦<OctetStringEncoded<T> as Asn1Type>⟧.der }
    ensures choice { Inherits T.der ⟦<Choice1<T> as Asn1Type>⟧.der }
{}

/// The same of types under a tag of any class.
pub fn tagged_types_inherit<T: Asn1Type, const CLASS: u8, const NUMBER: u32>()
    ensures explicit { Inherits T.der ⟦<TaggedExplicit<T, CLASS, NUMBER> as Asn1Type>⟧.der }
    ensures implicit { T.der.is_simple
        → Inherits T.der ⟦<TaggedImplicit<T, CLASS, NUMBER> as Asn1Type>⟧.der }
{}

/// The same of a field with a default, by its type.
pub fn defaults_inherit<T: MeaningEq, D: DefaultValue<T>>()
    ensures { Inherits T.der ⟦<Defaulted<T, D> as Asn1Type>⟧.der }
{}

/// The same of a value whose writes fail with another error.
pub fn error_into_inherits<T: Asn1Type, E>()
    ensures { Inherits T.der ⟦<ErrorInto<T, E> as Asn1Type>⟧.der }
{}

/// The same of choices, by each of their alternatives.
pub fn choices_inherit<A: Asn1Type, B: Asn1Type, C: Asn1Type>()
    ensures choice2 { InheritsBoth A.der B.der ⟦<Choice2<A, B> as Asn1Type>⟧.der }
    ensures choice3 { InheritsBoth A.der ⟦<Choice2<B, C> as Asn1Type>⟧.der
        ⟦<Choice3<A, B, C> as Asn1Type>⟧.der }
{}

/// A row of lawful fields is lawful if a field that may be missing accepts no tag with which the fields after it may
/// begin.
pub fn rows_are_lawful<A: Asn1Type, R: Row>()
    ensures last { A.der.lawful → ⟦<Last<A> as Row>⟧.list.fields.lawful }
    ensures element { A.der.lawful → A.der.is_element → R.list.fields.lawful →
        ⟦<Field<A, R> as Row>⟧.list.fields.lawful }
    ensures missing { A.der.lawful →
        ((tag : Tag) → IsFirst R.list.fields.tags tag → A.der.accepts tag ≡ false) →
        R.list.fields.lawful → ⟦<Field<A, R> as Row>⟧.list.fields.lawful }
{}

/// A row has one encoding for each value, allocates and has bounds as its fields do.
pub fn rows_inherit<A: Asn1Type, R: Row>()
    ensures last_plain { A.der.plain → ⟦<Last<A> as Row>⟧.list.fields.plain }
    ensures last_takes_none { (A.der.takes_memory → ⊥) →
        ⟦<Last<A> as Row>⟧.list.fields.takes_memory → ⊥ }
    ensures last_unbounded { (A.der.bounded → ⊥) → ⟦<Last<A> as Row>⟧.list.fields.bounded → ⊥ }
    ensures plain { A.der.plain → R.list.fields.plain → ⟦<Field<A, R> as Row>⟧.list.fields.plain }
    ensures takes_none { (A.der.takes_memory → ⊥) → (R.list.fields.takes_memory → ⊥) →
        ⟦<Field<A, R> as Row>⟧.list.fields.takes_memory → ⊥ }
    ensures unbounded { (A.der.bounded → ⊥) → (R.list.fields.bounded → ⊥) →
        ⟦<Field<A, R> as Row>⟧.list.fields.bounded → ⊥ }
{}

/// A structure is as its row is, whatever its names and the struct of its fields.
pub fn structures_inherit<V, R: Row>()
    ensures lawful { (view : V → R) (names : List (List ℕ)) → R.list.fields.lawful →
        (structure view R.list names).lawful }
    ensures plain { (view : V → R) (names : List (List ℕ)) → R.list.fields.plain →
        (structure view R.list names).plain }
    ensures takes_none { (view : V → R) (names : List (List ℕ)) →
        (R.list.fields.takes_memory → ⊥) → (structure view R.list names).takes_memory → ⊥ }
    ensures unbounded { (view : V → R) (names : List (List ℕ)) →
        (R.list.fields.bounded → ⊥) → (structure view R.list names).bounded → ⊥ }
    ensures simple { (view : V → R) (names : List (List ℕ)) →
        (structure view R.list names).is_simple }
    ensures element { (view : V → R) (names : List (List ℕ)) →
        (structure view R.list names).is_element }
{}
