//! What a user gets from the laws: each function calls some of them, and its contract follows with no proof by hand.

ghost use Rattle.std.specs.Prelude.{◌≡◌, ◌↔◌, ◌<◌, ◌^◌, List, ℕ, length, IsTrue};
ghost use Rattle.asn1.specs.Base256.{IsOctets};
ghost use Rattle.asn1.specs.Tlv.{element_of};
ghost use Rattle.asn1.specs.ReadError.{place_of};
ghost use Rattle.asn1.specs.Reading.{Fits};
ghost use Rattle.asn1.specs.Reads.{HasOneEncoding};
ghost use Rattle.asn1.specs.Listing.{IsElementEncoding, encoding_less};
ghost use Rattle.asn1.specs.Comparisons.{ClonesAreEqual, HashesAlike, IsEqualityOf};
ghost use Rattle.asn1.specs.Alternatives.{Disjoint};
ghost use Rattle.asn1.specs.Sets.{set_read};
ghost use Rattle.asn1.specs.InHand.{octets_of_set, sequence_octets};
ghost use Rattle.asn1.specs.NumericValues.{numeric_octets};
ghost use Rattle.asn1.specs.TypeLaws.{IsListingOf};
ghost use Rattle.asn1.specs.Structures.{structure, IsReadAs, IsWrittenAs};

use crate::headline::Holder;
use asn1::fields::{
    DefinedField, Field, FieldWritable, Fields2, Item, ItemOf, Last, LastValue, NoFields, Plain,
    Row, RowBehind, RowReadable, RowWritable, ValueOf,
};
use asn1::laws::{equal_items, equal_multisets, sets_read_listings};
use asn1::laws_equality::{
    choices_are_cloned, choices_compare, choices_hash, contents_compare, defaults_compare,
    elements_compare, error_into_compares, error_into_hashes, error_into_is_cloned, errors_compare,
    lists_compare, markers_compare, numeric_strings_compare, sets_compare, slices_are_cloned,
    slices_compare, slices_hash, tags_compare, wrappers_are_cloned, wrappers_compare,
    wrappers_hash,
};
use asn1::laws_types::{
    choices_inherit, defaults_inherit, elements_are_sound, error_into_inherits, lists_are_lawful,
    numbers_are_sound, owned_types_are_sound, references_are_lawful, rows_are_lawful, rows_inherit,
    structures_inherit, values_are_sound, wrappers_inherit,
};
use asn1::laws_wrappers::{
    choices_are_elements, choices_are_lawful, defaults_are_lawful, defined_types_are_lawful,
    error_into_is_lawful, fields_are_encoded, items_are_encoded, rows_are_plain, rows_are_read,
    rows_are_written, rows_behind_items_are_plain, rows_behind_items_are_read,
    rows_behind_items_are_written, wrappers_are_elements, wrappers_are_lawful,
};
use asn1::{
    Asn1DefinedBy, Asn1DefinedByReadable, Asn1DefinedByWritable, Asn1Readable, Asn1Type,
    Asn1Writable, Choice2, DefaultValue, Defaulted, DefinedByMarker, ErrorInto, Explicit, Implicit,
    MeaningEq, NumericString, OwnedBigInt, ParseErrorKind, ParseLocation, Sequence, SequenceOf,
    SequenceOfWriter, Set, SetOf, SetOfWriter, SimpleAsn1Writable, SimpleMeaningEq, Tag, Tlv,
    WriteError,
};
use std::hash::Hash;
use std::test::Fail;

// ---- types with one encoding for each value

/// Types without parts have one encoding for each value.
pub fn types_without_parts<const N: usize>()
    ensures number { HasOneEncoding ⟦<u64 as Asn1Type>⟧.der }
    ensures octets { HasOneEncoding ⟦<[u8; N] as Asn1Type>⟧.der }
    ensures element { HasOneEncoding ⟦<Tlv<'static> as Asn1Type>⟧.der }
    ensures owned { HasOneEncoding ⟦<OwnedBigInt as Asn1Type>⟧.der }
{
    numbers_are_sound();
    values_are_sound::<N>();
    elements_are_sound();
    owned_types_are_sound();
}

/// An option under a tag has one encoding for each value, if its part is an element and has.
pub fn options_under_a_tag<T: Asn1Type, const TAG: u32>()
    requires one { HasOneEncoding T.der }
    requires element { T.der.is_element }
    ensures one { HasOneEncoding ⟦<Explicit<Option<T>, TAG> as Asn1Type>⟧.der }
    ensures element { ⟦<Explicit<Option<T>, TAG> as Asn1Type>⟧.der.is_element }
{
    wrappers_are_lawful::<T, TAG>();
    wrappers_inherit::<T, TAG>();
    wrappers_are_lawful::<Option<T>, TAG>();
    wrappers_inherit::<Option<T>, TAG>();
    wrappers_are_elements::<Option<T>, TAG>();
}

/// So has a field with a default, and a value whose writes fail with another error.
pub fn fields_with_a_default<T: MeaningEq, D: DefaultValue<T>, E>()
    requires one { HasOneEncoding T.der }
    requires element { T.der.is_element }
    ensures default { HasOneEncoding ⟦<Defaulted<T, D> as Asn1Type>⟧.der }
    ensures error { HasOneEncoding ⟦<ErrorInto<T, E> as Asn1Type>⟧.der }
{
    defaults_are_lawful::<T, D>();
    defaults_inherit::<T, D>();
    error_into_is_lawful::<T, E>();
    error_into_inherits::<T, E>();
}

/// So has an option of a choice, whose alternatives accept no tag in common.
pub fn optional_choices<T: Asn1Type, U: Asn1Type>()
    requires one { HasOneEncoding T.der }
    requires element { T.der.is_element }
    requires other { HasOneEncoding U.der }
    requires other_element { U.der.is_element }
    requires disjoint { Disjoint T.der.accepts U.der.accepts }
    ensures { HasOneEncoding ⟦<Option<Choice2<T, U>> as Asn1Type>⟧.der }
{
    choices_are_lawful::<T, U, U>();
    choices_are_elements::<T, U, U>();
    choices_inherit::<T, U, U>();
    wrappers_are_lawful::<Choice2<T, U>, 1>();
    wrappers_inherit::<Choice2<T, U>, 1>();
}

/// So has a list, a set and a box.
pub fn lists_of_elements<'a, T: Asn1Type + 'a, const MIN: usize, const MAX: usize>()
    requires one { HasOneEncoding T.der }
    requires element { T.der.is_element }
    ensures list { HasOneEncoding ⟦<SequenceOf<'a, T, MIN, MAX> as Asn1Type>⟧.der }
    ensures set { HasOneEncoding ⟦<SetOf<'a, T> as Asn1Type>⟧.der }
    ensures boxed { HasOneEncoding ⟦<Box<T> as Asn1Type>⟧.der }
{
    lists_are_lawful::<T, MIN, MAX>();
    references_are_lawful::<T>();
}

/// So has a row of one field more, and a structure of a row.
pub fn rows_and_structures<V, A: Asn1Type, R: Row>()
    requires one { HasOneEncoding A.der }
    requires element { A.der.is_element }
    requires lawful { R.list.fields.lawful }
    requires plain { R.list.fields.plain }
    requires read { R.list.fields.is_read }
    ensures row { ⟦<Field<A, R> as Row>⟧.list.fields.lawful }
    ensures row_plain { ⟦<Field<A, R> as Row>⟧.list.fields.plain }
    ensures row_read { ⟦<Field<A, R> as Row>⟧.list.fields.is_read }
    ensures structure { (view : V → R) (names : List (List ℕ)) →
        HasOneEncoding (structure view R.list names) }
{
    rows_are_lawful::<A, R>();
    rows_inherit::<A, R>();
    structures_inherit::<V, R>();
}

/// A type that an item defines is lawful under a tag.
pub fn defined_under_a_tag<T: Asn1Type, U: Asn1DefinedBy<T>, const TAG: u32>()
    requires lawful { U.by.means.lawful }
    requires element { (item : U.by.Item) → U.by.means.is_element item }
    requires plain { U.by.means.plain }
    ensures lawful { ⟦<Explicit<U, TAG> as Asn1DefinedBy<T>>⟧.by.means.lawful }
    ensures plain { ⟦<Explicit<U, TAG> as Asn1DefinedBy<T>>⟧.by.means.plain }
{
    defined_types_are_lawful::<T, U, TAG>();
}

/// A plain field appends the encodings of its type.
pub fn plain_fields<
    T: SimpleAsn1Writable + SimpleMeaningEq + Drop,
    D: DefaultValue<T>,
    E: DefaultValue<Explicit<T, TAG>>,
    I: DefaultValue<Implicit<T, TAG>>,
    const TAG: u32,
>()
    ensures { (v : T) (octets : List ℕ) → ⟦<Plain as FieldWritable<T>>⟧.encodings v octets
        ↔ T.der.encodings (T.der.meaning v) octets }
{
    fields_are_encoded::<T, D, E, I, TAG>();
}

/// An item is written as its type says, from the value that it defines.
pub fn items_that_are_written<
    T: Asn1Writable + Drop,
    C: DefinedField<T> + Asn1DefinedByWritable<T>,
>()
    ensures { (v : C) (octets : List ℕ) → ⟦<ItemOf<T> as FieldWritable<C>>⟧.encodings v octets
        → C.both.item.encodings (C.both.value.item (C.both.value.meaning v)) octets }
{
    items_are_encoded::<T, C>();
}

/// A row of two fields is read as `Row` says, and has one encoding for each value.
pub fn rows_of_two_are_read<'a, A: Asn1Readable<'a>, B: Asn1Readable<'a>>()
    ensures read { IsReadAs ⟦<Fields2<A, B> as Row>⟧.list
        ⟦<Fields2<A, B> as RowReadable<'a>>⟧.list }
    ensures plain { ⟦<Fields2<A, B> as RowReadable<'a>>⟧.list.fields.plain }
    ensures is_read { ⟦<Fields2<A, B> as RowReadable<'a>>⟧.list.fields.is_read }
{
    rows_are_read::<B, NoFields>();
    rows_are_read::<A, Last<B>>();
    rows_are_plain::<B, NoFields>();
    rows_are_plain::<A, Last<B>>();
}

/// So is a value with the item before it.
pub fn values_behind_items_are_read<
    'a,
    T: Asn1Readable<'a>,
    C: DefinedField<T> + Asn1DefinedByReadable<'a, T>,
>()
    ensures read { IsReadAs ⟦<Item<T, LastValue<C>> as Row>⟧.list
        ⟦<Item<T, LastValue<C>> as RowReadable<'a>>⟧.list }
    ensures plain { ⟦<Item<T, LastValue<C>> as RowReadable<'a>>⟧.list.fields.plain }
    ensures is_read { ⟦<Item<T, LastValue<C>> as RowReadable<'a>>⟧.list.fields.is_read }
{
    rows_behind_items_are_read::<T, T, C, NoFields, LastValue<C>>();
    rows_behind_items_are_plain::<T, T, C, NoFields, LastValue<C>>();
}

/// A row of two plain fields is written as the encoding of the one and then that of the other.
pub fn rows_of_two_are_written<'a, A: Asn1Writable + 'a, B: Asn1Writable<Error = A::Error> + 'a>()
    ensures { IsWrittenAs ⟦<Fields2<A, B> as Row>⟧.list.fields.encodings
        ⟦<Fields2<A, B> as Row>⟧.list.fields.closures
        (λ row. (A.der.meaning row.value.now, B.der.meaning row.rest.value.now))
        ⟦<Field<&'a A, Last<&'a B>> as RowWritable<Field<Plain, Last<Plain>>>>⟧.encodings
        ⟦<Field<&'a A, Last<&'a B>> as RowWritable<Field<Plain, Last<Plain>>>>⟧.owes }
{
    rows_are_written::<Field<&'a A, Last<&'a B>>, A, A, Plain, Last<B>, Last<Plain>, Last<&'a B>>();
}

/// A value that an item before it defines appends its own encoding.
pub fn values_behind_items_are_written<
    'a,
    T: Asn1Writable,
    C: DefinedField<T> + Asn1DefinedByWritable<T> + 'a,
>()
    ensures { IsWrittenAs ⟦<LastValue<C> as RowBehind<T>>⟧.behind.fields.encodings
        ⟦<LastValue<C> as RowBehind<T>>⟧.behind.fields.closures
        (λ row. C.both.value.meaning row.value.now)
        ⟦<Last<&'a C> as RowWritable<Last<ValueOf<T>>>>⟧.encodings
        ⟦<Last<&'a C> as RowWritable<Last<ValueOf<T>>>>⟧.owes }
{
    rows_behind_items_are_written::<
        Last<&'a C>,
        C,
        T,
        T,
        C,
        ValueOf<T>,
        NoFields,
        LastValue<C>,
        Last<ValueOf<T>>,
        Last<&'a C>,
    >();
}

// ---- lists and sets

/// What a set reads is a listing of encodings in ascending order.
pub fn what_sets_read<T: Asn1Type>()
    requires lawful { T.der.lawful }
    requires element { T.der.is_element }
    ensures { (c : List ℕ) (ms : List T.der.Meaning) → IsOctets c → length c < 2 ^ 32
        → set_read encoding_less T.der.read c ≡ Ok ms → IsListingOf T.der c }
{
    sets_read_listings::<T>();
}

/// The encoding of a value of an element type is one element.
pub fn encodings_are_elements<'a, T: Asn1Type + 'a>()
    requires lawful { T.der.lawful }
    requires element { T.der.is_element }
    ensures { (m : T.der.Meaning) → T.der.valid m → Fits (T.der.encoding m)
        → IsElementEncoding (T.der.encoding m) }
{
    equal_multisets::<'a, T>();
}

/// Lists in a list, under a tag.
type Lists<'a> = Explicit<SequenceOf<'a, SequenceOf<'a, u64, 0, 3>, 1, 5>, 0>;

/// A list and its items may be read back, if there are as many as the bounds allow.
pub fn is_allowed<'a>(value: &Lists<'a>) -> bool
    ensures { IsTrue result → ⟦<Lists<'a> as Asn1Type>⟧.der.allowed
        (⟦<Lists<'a> as Asn1Type>⟧.der.meaning value.now) }
{
    let count = value.as_inner().len();
    1 <= count && count <= 5
}

/// A structure with a set may be read back, if the items of the set may.
pub fn holders_are_allowed(holder: &Holder<'_>)
    ensures { ⟦<Holder<'static> as Asn1Type>⟧.der.allowed
        (⟦<Holder<'static> as Asn1Type>⟧.der.meaning holder.now) }
{
    holder.pairs.known_items();
}

// ---- comparisons

/// Whether two lists have the same items.
pub fn are_same_lists<'a, T: Asn1Readable<'a>>(
    a: &SequenceOf<'a, T, 0, 9>,
    b: &SequenceOf<'a, T, 0, 9>,
) -> bool
    requires { T.der.lawful }
    ensures { IsTrue result ↔ (⟦<SequenceOf<'a, T, 0, 9> as Asn1Type>⟧.der.meaning a.now
        ≡ ⟦<SequenceOf<'a, T, 0, 9> as Asn1Type>⟧.der.meaning b.now) }
{
    equal_items::<T>();
    *a == *b
}

/// A list or a set, under a tag.
type Listed<'a, T> = Explicit<Choice2<SequenceOf<'a, T, 0, 9>, SetOf<'a, T>>, 1>;

/// Whether two of these mean the same.
pub fn are_same_choices<'a, T: Asn1Type + 'a>(a: &Listed<'a, T>, b: &Listed<'a, T>) -> bool
    ensures { IsTrue result ↔ (⟦<Listed<'a, T> as Asn1Type>⟧.der.meaning a.now
        ≡ ⟦<Listed<'a, T> as Asn1Type>⟧.der.meaning b.now) }
{
    lists_compare::<T, 0, 9>();
    sets_compare::<T>();
    choices_compare::<SequenceOf<'a, T, 0, 9>, SetOf<'a, T>, SetOf<'a, T>>();
    wrappers_compare::<Choice2<SequenceOf<'a, T, 0, 9>, SetOf<'a, T>>, 1>();
    *a == *b
}

/// Whether two slices that are written have items that mean the same.
pub fn are_same_slices<'a, T: Asn1Type + PartialEq + 'a>(
    a: &SequenceOfWriter<'a, T>,
    b: &SequenceOfWriter<'a, T>,
) -> bool
    requires { IsEqualityOf T.der.meaning T.eq }
    ensures { IsTrue result ↔ (⟦<SequenceOfWriter<'a, T> as Asn1Type>⟧.der.meaning a.now
        ≡ ⟦<SequenceOfWriter<'a, T> as Asn1Type>⟧.der.meaning b.now) }
{
    slices_compare::<T>();
    *a == *b
}

/// How values with a default, or with another error, compare, and elements that are kept as octets.
pub fn other_equalities<T: MeaningEq + PartialEq + Hash, D: DefaultValue<T>, E>()
    requires { IsEqualityOf T.der.meaning T.eq }
    ensures default { IsEqualityOf ⟦<Defaulted<T, D> as Asn1Type>⟧.der.meaning
        ⟦<Defaulted<T, D> as PartialEq>⟧.eq }
    ensures error { IsEqualityOf ⟦<ErrorInto<T, E> as Asn1Type>⟧.der.meaning
        ⟦<ErrorInto<T, E> as PartialEq>⟧.eq }
    ensures element { IsEqualityOf element_of ⟦<Tlv<'static> as PartialEq>⟧.eq }
    ensures sequence { IsEqualityOf sequence_octets ⟦<Sequence<'static> as PartialEq>⟧.eq }
    ensures set { IsEqualityOf octets_of_set ⟦<Set<'static> as PartialEq>⟧.eq }
    ensures numeric { IsEqualityOf numeric_octets ⟦<NumericString<'static> as PartialEq>⟧.eq }
{
    numeric_strings_compare();
    defaults_compare::<T, D>();
    error_into_compares::<T, E>();
    elements_compare();
    contents_compare();
}

/// How parts of errors compare, and markers.
pub fn equalities_of_errors<T: Clone + PartialEq + Hash>(
    a: &ParseErrorKind,
    b: &ParseErrorKind,
) -> bool
    ensures kind { IsTrue result ↔ (a.now ≡ b.now) }
    ensures location { IsEqualityOf place_of ⟦<ParseLocation as PartialEq>⟧.eq }
    ensures write { IsEqualityOf (λ e. e) ⟦<WriteError as PartialEq>⟧.eq }
    ensures tag { IsEqualityOf (λ tag. tag) ⟦<Tag as PartialEq>⟧.eq }
    ensures marker { IsEqualityOf (λ marker. tt {0}) ⟦<DefinedByMarker<T> as PartialEq>⟧.eq }
{
    errors_compare();
    tags_compare();
    markers_compare::<T>();
    *a == *b
}

/// A value, or one with another error, under a tag.
type Chosen<T, E> = Explicit<Choice2<T, ErrorInto<T, E>>, 1>;

/// Values that mean the same hash alike, if their parts do.
pub fn hashes<'a, T: Asn1Type + Hash + 'a, E>()
    requires { HashesAlike T.der.meaning T.hash_input }
    ensures choice { HashesAlike ⟦<Chosen<T, E> as Asn1Type>⟧.der.meaning
        ⟦<Chosen<T, E> as Hash>⟧.hash_input }
    ensures slice { HashesAlike ⟦<SetOfWriter<'a, T> as Asn1Type>⟧.der.meaning
        ⟦<SetOfWriter<'a, T> as Hash>⟧.hash_input }
{
    error_into_hashes::<T, E>();
    choices_hash::<T, ErrorInto<T, E>, ErrorInto<T, E>>();
    wrappers_hash::<Choice2<T, ErrorInto<T, E>>, 1>();
    slices_hash::<T>();
}

/// Clones equal their sources, if clones of the parts do.
pub fn clones<'a, T: Clone + Eq + 'a, E>()
    requires { ClonesAreEqual T.is_clone T.eq }
    ensures choice { ClonesAreEqual ⟦<Chosen<T, E> as Clone>⟧.is_clone
        ⟦<Chosen<T, E> as PartialEq>⟧.eq }
    ensures slice { ClonesAreEqual ⟦<SetOfWriter<'a, T> as Clone>⟧.is_clone
        ⟦<SetOfWriter<'a, T> as PartialEq>⟧.eq }
{
    error_into_is_cloned::<T, E>();
    choices_are_cloned::<T, ErrorInto<T, E>, ErrorInto<T, E>>();
    wrappers_are_cloned::<Choice2<T, ErrorInto<T, E>>, T, 1>();
    slices_are_cloned::<T>();
}

#[test]
fn slices_of_one_length(rt: HostRuntime) -> Result<(), Fail> {
    let slice = SequenceOfWriter::new(&[1u8, 2]);
    assert!(rt; slice != SequenceOfWriter::new(&[1, 3]));
    Ok(())
}
