//! How elements, lists, wrappers, choices, tags and errors compare. Each law is the contract of a function that does
//! nothing.

ghost use Rattle.asn1_core.specs.ReadError.{place_of};
ghost use Rattle.asn1_core.specs.Tlv.{element_of};
ghost use Rattle.asn1_values.specs.Comparisons.{ClonesAreEqual, HashesAlike, IsEqualityOf, NeverFails};
ghost use Rattle.asn1.specs.InHand.{octets_of_set, sequence_octets};
ghost use Rattle.asn1.specs.DateValues.{day_of};
ghost use Rattle.asn1.specs.NumericValues.{numeric_octets};
ghost use Rattle.asn1.specs.RelativeValues.{relative_arcs};

use crate::{
    Choice1, Choice2, Choice3, Date, DefaultValue, Defaulted, DefinedByMarker, ErrorInto, Explicit,
    Implicit, MeaningEq, NumericString, OctetStringEncoded, ParseErrorKind, ParseLocation,
    RelativeOid, Sequence, SequenceOf, SequenceOfWriter, Set, SetOf, SetOfWriter, Tag, TagClass,
    Tlv, WriteError,
};
use asn1_core::Asn1Type;
use std::hash::Hash;

/// Elements are equal exactly if tag and contents octets are, and then have the same hash. A clone never fails, and
/// equals its source.
pub fn elements_compare()
    ensures equality { IsEqualityOf element_of ⟦<Tlv<'static> as PartialEq>⟧.eq }
    ensures hash { HashesAlike element_of ⟦<Tlv<'static> as Hash>⟧.hash_input }
    ensures infallible { NeverFails ⟦<Tlv<'static> as Clone>⟧.is_infallible }
    ensures clone { ClonesAreEqual ⟦<Tlv<'static> as Clone>⟧.is_clone
        ⟦<Tlv<'static> as PartialEq>⟧.eq }
{}

/// Values of `Sequence`, and of `Set`, are equal exactly if their contents octets are, and then have the same hash. A
/// clone never fails, and equals its source.
pub fn contents_compare()
    ensures sequence { IsEqualityOf sequence_octets ⟦<Sequence<'static> as PartialEq>⟧.eq }
    ensures sequence_hash { HashesAlike sequence_octets ⟦<Sequence<'static> as Hash>⟧.hash_input }
    ensures sequence_infallible { NeverFails ⟦<Sequence<'static> as Clone>⟧.is_infallible }
    ensures sequence_clone { ClonesAreEqual ⟦<Sequence<'static> as Clone>⟧.is_clone
        ⟦<Sequence<'static> as PartialEq>⟧.eq }
    ensures set { IsEqualityOf octets_of_set ⟦<Set<'static> as PartialEq>⟧.eq }
    ensures set_hash { HashesAlike octets_of_set ⟦<Set<'static> as Hash>⟧.hash_input }
    ensures set_infallible { NeverFails ⟦<Set<'static> as Clone>⟧.is_infallible }
    ensures set_clone { ClonesAreEqual ⟦<Set<'static> as Clone>⟧.is_clone
        ⟦<Set<'static> as PartialEq>⟧.eq }
{}

/// Two lists are equal exactly if their remaining items mean the same, and then have the same hash. A clone never
/// fails, and equals its source. So lists may be the parts of wrappers and choices in the laws below.
pub fn lists_compare<'a, T: Asn1Type + 'a, const MIN: usize, const MAX: usize>()
    ensures equality { IsEqualityOf ⟦<SequenceOf<'a, T, MIN, MAX> as Asn1Type>⟧.der.meaning
        ⟦<SequenceOf<'a, T, MIN, MAX> as PartialEq>⟧.eq }
    ensures hash { HashesAlike ⟦<SequenceOf<'a, T, MIN, MAX> as Asn1Type>⟧.der.meaning
        ⟦<SequenceOf<'a, T, MIN, MAX> as Hash>⟧.hash_input }
    ensures infallible { NeverFails ⟦<SequenceOf<'a, T, MIN, MAX> as Clone>⟧.is_infallible }
    ensures clone { ClonesAreEqual ⟦<SequenceOf<'a, T, MIN, MAX> as Clone>⟧.is_clone
        ⟦<SequenceOf<'a, T, MIN, MAX> as PartialEq>⟧.eq }
{}

/// The same of sets of items.
pub fn sets_compare<'a, T: Asn1Type + 'a>()
    ensures equality { IsEqualityOf ⟦<SetOf<'a, T> as Asn1Type>⟧.der.meaning
        ⟦<SetOf<'a, T> as PartialEq>⟧.eq }
    ensures hash { HashesAlike ⟦<SetOf<'a, T> as Asn1Type>⟧.der.meaning
        ⟦<SetOf<'a, T> as Hash>⟧.hash_input }
    ensures infallible { NeverFails ⟦<SetOf<'a, T> as Clone>⟧.is_infallible }
    ensures clone { ClonesAreEqual ⟦<SetOf<'a, T> as Clone>⟧.is_clone
        ⟦<SetOf<'a, T> as PartialEq>⟧.eq }
{}

/// Two `NumericString`s are equal exactly if their octets are the same, and then have the same hash. A clone never
/// fails, and equals its source.
pub fn numeric_strings_compare()
    ensures equality { IsEqualityOf numeric_octets ⟦<NumericString<'static> as PartialEq>⟧.eq }
    ensures hash { HashesAlike numeric_octets ⟦<NumericString<'static> as Hash>⟧.hash_input }
    ensures clone { ClonesAreEqual ⟦<NumericString<'static> as Clone>⟧.is_clone
        ⟦<NumericString<'static> as PartialEq>⟧.eq }
    ensures infallible { NeverFails ⟦<NumericString<'static> as Clone>⟧.is_infallible }
{}

/// Two dates are equal exactly if their years, months and days are the same, and then have the same hash. A clone never
/// fails, and equals its source.
pub fn dates_compare()
    ensures equality { IsEqualityOf day_of ⟦<Date as PartialEq>⟧.eq }
    ensures hash { HashesAlike day_of ⟦<Date as Hash>⟧.hash_input }
    ensures clone { ClonesAreEqual ⟦<Date as Clone>⟧.is_clone ⟦<Date as PartialEq>⟧.eq }
    ensures infallible { NeverFails ⟦<Date as Clone>⟧.is_infallible }
{}

/// Two relative identifiers are equal exactly if their arcs are the same, and then have the same hash. A clone never
/// fails, and equals its source.
pub fn relative_oids_compare()
    ensures equality { IsEqualityOf relative_arcs ⟦<RelativeOid<'static> as PartialEq>⟧.eq }
    ensures hash { HashesAlike relative_arcs ⟦<RelativeOid<'static> as Hash>⟧.hash_input }
    ensures clone { ClonesAreEqual ⟦<RelativeOid<'static> as Clone>⟧.is_clone
        ⟦<RelativeOid<'static> as PartialEq>⟧.eq }
    ensures infallible { NeverFails ⟦<RelativeOid<'static> as Clone>⟧.is_infallible }
{}

/// If the equality of a type compares what values mean, so does the equality of its wrappers.
pub fn wrappers_compare<T: Asn1Type + PartialEq, const TAG: u32>()
    ensures explicit { IsEqualityOf T.der.meaning T.eq
        → IsEqualityOf ⟦<Explicit<T, TAG> as Asn1Type>⟧.der.meaning
        ⟦<Explicit<T, TAG> as PartialEq>⟧.eq }
    ensures implicit { IsEqualityOf T.der.meaning T.eq
        → IsEqualityOf ⟦<Implicit<T, TAG> as Asn1Type>⟧.der.meaning
        ⟦<Implicit<T, TAG> as PartialEq>⟧.eq }
    ensures octet_string { IsEqualityOf T.der.meaning T.eq
        → IsEqualityOf ⟦<OctetStringEncoded<T> as Asn1Type>⟧.der.meaning
        ⟦<OctetStringEncoded<T> as PartialEq>⟧.eq }
    ensures option { IsEqualityOf T.der.meaning T.eq
        → IsEqualityOf ⟦<Option<T> as Asn1Type>⟧.der.meaning ⟦<Option<T> as PartialEq>⟧.eq }
    ensures choice { IsEqualityOf T.der.meaning T.eq
        → IsEqualityOf ⟦<Choice1<T> as Asn1Type>⟧.der.meaning ⟦<Choice1<T> as PartialEq>⟧.eq }
{}

/// If the equality of each alternative compares what values mean, so does the equality of the choice.
pub fn choices_compare<A: Asn1Type + PartialEq, B: Asn1Type + PartialEq, C: Asn1Type + PartialEq>()
    ensures choice2 { IsEqualityOf A.der.meaning A.eq → IsEqualityOf B.der.meaning B.eq
        → IsEqualityOf ⟦<Choice2<A, B> as Asn1Type>⟧.der.meaning
        ⟦<Choice2<A, B> as PartialEq>⟧.eq }
    ensures choice3 { IsEqualityOf A.der.meaning A.eq → IsEqualityOf B.der.meaning B.eq
        → IsEqualityOf C.der.meaning C.eq
        → IsEqualityOf ⟦<Choice3<A, B, C> as Asn1Type>⟧.der.meaning
        ⟦<Choice3<A, B, C> as PartialEq>⟧.eq }
{}

/// If values of a type that mean the same have the same hash, those of its wrappers do too.
pub fn wrappers_hash<T: Asn1Type + Hash, const TAG: u32>()
    ensures explicit { HashesAlike T.der.meaning T.hash_input
        → HashesAlike ⟦<Explicit<T, TAG> as Asn1Type>⟧.der.meaning
        ⟦<Explicit<T, TAG> as Hash>⟧.hash_input }
    ensures implicit { HashesAlike T.der.meaning T.hash_input
        → HashesAlike ⟦<Implicit<T, TAG> as Asn1Type>⟧.der.meaning
        ⟦<Implicit<T, TAG> as Hash>⟧.hash_input }
    ensures octet_string { HashesAlike T.der.meaning T.hash_input
        → HashesAlike ⟦<OctetStringEncoded<T> as Asn1Type>⟧.der.meaning
        ⟦<OctetStringEncoded<T> as Hash>⟧.hash_input }
    ensures choice { HashesAlike T.der.meaning T.hash_input
        → HashesAlike ⟦<Choice1<T> as Asn1Type>⟧.der.meaning ⟦<Choice1<T> as Hash>⟧.hash_input }
{}

/// If values of each alternative that mean the same have the same hash, those of the choice do too.
pub fn choices_hash<A: Asn1Type + Hash, B: Asn1Type + Hash, C: Asn1Type + Hash>()
    ensures choice2 { HashesAlike A.der.meaning A.hash_input
        → HashesAlike B.der.meaning B.hash_input
        → HashesAlike ⟦<Choice2<A, B> as Asn1Type>⟧.der.meaning
        ⟦<Choice2<A, B> as Hash>⟧.hash_input }
    ensures choice3 { HashesAlike A.der.meaning A.hash_input
        → HashesAlike B.der.meaning B.hash_input
        → HashesAlike C.der.meaning C.hash_input
        → HashesAlike ⟦<Choice3<A, B, C> as Asn1Type>⟧.der.meaning
        ⟦<Choice3<A, B, C> as Hash>⟧.hash_input }
{}

/// If a clone of a type equals its source, so does a clone of one of its wrappers, or of a field with a default. If a
/// clone of the type never fails, theirs doesn't either.
pub fn wrappers_are_cloned<T: Clone + PartialEq, D, const TAG: u32>()
    ensures explicit { ClonesAreEqual T.is_clone T.eq
        → ClonesAreEqual ⟦<Explicit<T, TAG> as Clone>⟧.is_clone
        ⟦<Explicit<T, TAG> as PartialEq>⟧.eq }
    ensures implicit { ClonesAreEqual T.is_clone T.eq
        → ClonesAreEqual ⟦<Implicit<T, TAG> as Clone>⟧.is_clone
        ⟦<Implicit<T, TAG> as PartialEq>⟧.eq }
    ensures octet_string { ClonesAreEqual T.is_clone T.eq
        → ClonesAreEqual ⟦<OctetStringEncoded<T> as Clone>⟧.is_clone
        ⟦<OctetStringEncoded<T> as PartialEq>⟧.eq }
    ensures defaulted { ClonesAreEqual T.is_clone T.eq
        → ClonesAreEqual ⟦<Defaulted<T, D> as Clone>⟧.is_clone
        ⟦<Defaulted<T, D> as PartialEq>⟧.eq }
    ensures explicit_infallible { NeverFails T.is_infallible
        → NeverFails ⟦<Explicit<T, TAG> as Clone>⟧.is_infallible }
    ensures implicit_infallible { NeverFails T.is_infallible
        → NeverFails ⟦<Implicit<T, TAG> as Clone>⟧.is_infallible }
    ensures octet_string_infallible { NeverFails T.is_infallible
        → NeverFails ⟦<OctetStringEncoded<T> as Clone>⟧.is_infallible }
    ensures defaulted_infallible { NeverFails T.is_infallible
        → NeverFails ⟦<Defaulted<T, D> as Clone>⟧.is_infallible }
{}

/// The same of choices, by each of their alternatives.
pub fn choices_are_cloned<A: Clone + PartialEq, B: Clone + PartialEq, C: Clone + PartialEq>()
    ensures choice1 { ClonesAreEqual A.is_clone A.eq
        → ClonesAreEqual ⟦<Choice1<A> as Clone>⟧.is_clone ⟦<Choice1<A> as PartialEq>⟧.eq }
    ensures choice2 { ClonesAreEqual A.is_clone A.eq → ClonesAreEqual B.is_clone B.eq
        → ClonesAreEqual ⟦<Choice2<A, B> as Clone>⟧.is_clone
        ⟦<Choice2<A, B> as PartialEq>⟧.eq }
    ensures choice3 { ClonesAreEqual A.is_clone A.eq → ClonesAreEqual B.is_clone B.eq
        → ClonesAreEqual C.is_clone C.eq
        → ClonesAreEqual ⟦<Choice3<A, B, C> as Clone>⟧.is_clone
        ⟦<Choice3<A, B, C> as PartialEq>⟧.eq }
    ensures choice1_infallible { NeverFails A.is_infallible
        → NeverFails ⟦<Choice1<A> as Clone>⟧.is_infallible }
    ensures choice2_infallible { NeverFails A.is_infallible → NeverFails B.is_infallible
        → NeverFails ⟦<Choice2<A, B> as Clone>⟧.is_infallible }
    ensures choice3_infallible { NeverFails A.is_infallible → NeverFails B.is_infallible
        → NeverFails C.is_infallible
        → NeverFails ⟦<Choice3<A, B, C> as Clone>⟧.is_infallible }
{}

/// A value whose writes fail with another error compares as the value itself does.
pub fn error_into_compares<T: Asn1Type + PartialEq, E>()
    ensures { IsEqualityOf T.der.meaning T.eq
        → IsEqualityOf ⟦<ErrorInto<T, E> as Asn1Type>⟧.der.meaning
        ⟦<ErrorInto<T, E> as PartialEq>⟧.eq }
{}

/// A value in [`ErrorInto`] hashes as the value itself does.
pub fn error_into_hashes<T: Asn1Type + Hash, E>()
    ensures { HashesAlike T.der.meaning T.hash_input
        → HashesAlike ⟦<ErrorInto<T, E> as Asn1Type>⟧.der.meaning
        ⟦<ErrorInto<T, E> as Hash>⟧.hash_input }
{}

/// A value in [`ErrorInto`] is cloned as the value itself is.
pub fn error_into_is_cloned<T: Clone + PartialEq, E>()
    ensures clone { ClonesAreEqual T.is_clone T.eq
        → ClonesAreEqual ⟦<ErrorInto<T, E> as Clone>⟧.is_clone
        ⟦<ErrorInto<T, E> as PartialEq>⟧.eq }
    ensures infallible { NeverFails T.is_infallible
        → NeverFails ⟦<ErrorInto<T, E> as Clone>⟧.is_infallible }
{}

/// If the equality of a type compares what values mean, so does the equality of slices of it that are written.
pub fn slices_compare<'a, T: Asn1Type + PartialEq + 'a>()
    ensures sequence { IsEqualityOf T.der.meaning T.eq
        → IsEqualityOf ⟦<SequenceOfWriter<'a, T> as Asn1Type>⟧.der.meaning
        ⟦<SequenceOfWriter<'a, T> as PartialEq>⟧.eq }
    ensures set { IsEqualityOf T.der.meaning T.eq
        → IsEqualityOf ⟦<SetOfWriter<'a, T> as Asn1Type>⟧.der.meaning
        ⟦<SetOfWriter<'a, T> as PartialEq>⟧.eq }
{}

/// If values of a type that mean the same have the same hash, so do slices of it that are written.
pub fn slices_hash<'a, T: Asn1Type + Hash + 'a>()
    ensures sequence { HashesAlike T.der.meaning T.hash_input
        → HashesAlike ⟦<SequenceOfWriter<'a, T> as Asn1Type>⟧.der.meaning
        ⟦<SequenceOfWriter<'a, T> as Hash>⟧.hash_input }
    ensures set { HashesAlike T.der.meaning T.hash_input
        → HashesAlike ⟦<SetOfWriter<'a, T> as Asn1Type>⟧.der.meaning
        ⟦<SetOfWriter<'a, T> as Hash>⟧.hash_input }
{}

/// A clone of a slice that is written never fails, and equals its source if each item equals itself.
pub fn slices_are_cloned<'a, T: Clone + Eq + 'a>()
    ensures sequence { ClonesAreEqual ⟦<SequenceOfWriter<'a, T> as Clone>⟧.is_clone
        ⟦<SequenceOfWriter<'a, T> as PartialEq>⟧.eq }
    ensures sequence_infallible { NeverFails
        ⟦<SequenceOfWriter<'a, T> as Clone>⟧.is_infallible }
    ensures set { ClonesAreEqual ⟦<SetOfWriter<'a, T> as Clone>⟧.is_clone
        ⟦<SetOfWriter<'a, T> as PartialEq>⟧.eq }
    ensures set_infallible { NeverFails ⟦<SetOfWriter<'a, T> as Clone>⟧.is_infallible }
{}

/// If the equality of a type compares what values mean, and if these hash alike, the same holds of a field of the type
/// with a default.
pub fn defaults_compare<T: MeaningEq + PartialEq + Hash, D: DefaultValue<T>>()
    ensures equality { IsEqualityOf T.der.meaning T.eq
        → IsEqualityOf ⟦<Defaulted<T, D> as Asn1Type>⟧.der.meaning
        ⟦<Defaulted<T, D> as PartialEq>⟧.eq }
    ensures hash { HashesAlike T.der.meaning T.hash_input
        → HashesAlike ⟦<Defaulted<T, D> as Asn1Type>⟧.der.meaning
        ⟦<Defaulted<T, D> as Hash>⟧.hash_input }
{}

/// All markers of a type are equal, and hash alike. A clone never fails, and equals its source.
pub fn markers_compare<T: Clone + PartialEq + Hash>()
    ensures equality { IsEqualityOf (λ marker. tt {0}) ⟦<DefinedByMarker<T> as PartialEq>⟧.eq }
    ensures hash { HashesAlike (λ marker. tt {0}) ⟦<DefinedByMarker<T> as Hash>⟧.hash_input }
    ensures infallible { NeverFails ⟦<DefinedByMarker<T> as Clone>⟧.is_infallible }
    ensures clone { ClonesAreEqual ⟦<DefinedByMarker<T> as Clone>⟧.is_clone
        ⟦<DefinedByMarker<T> as PartialEq>⟧.eq }
{}

/// Tags are equal exactly if class, constructed bit and number are the same, and then have the same hash; classes if
/// they are the same. A clone never fails, and equals its source.
pub fn tags_compare()
    ensures equality { IsEqualityOf (λ tag. tag) ⟦<Tag as PartialEq>⟧.eq }
    ensures hash { HashesAlike (λ tag. tag) ⟦<Tag as Hash>⟧.hash_input }
    ensures infallible { NeverFails ⟦<Tag as Clone>⟧.is_infallible }
    ensures clone { ClonesAreEqual ⟦<Tag as Clone>⟧.is_clone ⟦<Tag as PartialEq>⟧.eq }
    ensures class { IsEqualityOf (λ class. class) ⟦<TagClass as PartialEq>⟧.eq }
    ensures class_hash { HashesAlike (λ class. class) ⟦<TagClass as Hash>⟧.hash_input }
    ensures class_infallible { NeverFails ⟦<TagClass as Clone>⟧.is_infallible }
    ensures class_clone { ClonesAreEqual ⟦<TagClass as Clone>⟧.is_clone
        ⟦<TagClass as PartialEq>⟧.eq }
{}

/// Kinds of errors are equal exactly if they are the same kind with the same numbers or the same tag, and errors of
/// writes if they are the same. A clone of a kind never fails, and equals its source. Locations are equal exactly if
/// they are the same index, or the same name.
pub fn errors_compare()
    ensures kind { IsEqualityOf (λ kind. kind) ⟦<ParseErrorKind as PartialEq>⟧.eq }
    ensures infallible { NeverFails ⟦<ParseErrorKind as Clone>⟧.is_infallible }
    ensures clone { ClonesAreEqual ⟦<ParseErrorKind as Clone>⟧.is_clone
        ⟦<ParseErrorKind as PartialEq>⟧.eq }
    ensures location { IsEqualityOf place_of ⟦<ParseLocation as PartialEq>⟧.eq }
    ensures write_error { IsEqualityOf (λ error. error) ⟦<WriteError as PartialEq>⟧.eq }
{}
