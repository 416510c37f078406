//! Laws of options, wrappers, choices and fields, each the contract of a function that does nothing.

ghost use Rattle.std.specs.Borrow.{Bor};
ghost use Rattle.asn1_core.specs.Options.{option_meaning};
ghost use Rattle.asn1_core.specs.Reads.{HasOneEncoding};
ghost use Rattle.asn1.specs.declared.fields.Field.{Field};
ghost use Rattle.asn1.specs.declared.fields.Last.{Last};
ghost use Rattle.asn1.specs.AlternativeLists.{choice, EachHasOneEncoding};
ghost use Rattle.asn1.specs.Alternatives.{Disjoint};
ghost use Rattle.asn1.specs.Structures.{defaulted, explicit, implicit, IsEncoded, IsPlainBehind, IsReadAs};
ghost use Rattle.asn1.specs.Structures.{AreReadBehind, IsReadBehind, IsWrittenAs};

use crate::alternatives::{
    Alternative, Alternatives, AsOneOf, EightOneByOne, NoOther, OneOf, OneOfEight, OneOfThree,
};
use crate::fields::{
    Before, DefinedField, Field, FieldWritable, Item, ItemOf, Last, LastValue, NoFields, Plain,
    Row, RowBehind, RowBehindReadable, RowReadable, RowWritable, Value, ValueOf,
};
use crate::{
    Choice1, Choice2, Choice3, DefaultValue, Defaulted, ErrorInto, Explicit, Implicit, MeaningEq,
    OctetStringEncoded, SimpleMeaningEq, TaggedExplicit, TaggedImplicit,
};
use asn1_core::{
    Asn1DefinedBy, Asn1DefinedByReadable, Asn1DefinedByWritable, Asn1Readable, Asn1Type,
    Asn1Writable, SimpleAsn1Writable, Tag,
};

/// Each wrapper of a lawful part is lawful: what is written is read back, and means the same. The part of an option
/// has to be an element, since else nothing distinguishes an option with a value from one without. A part under an
/// implicit tag has to be a type with a tag of its own. So the law holds for any nesting.
pub fn wrappers_are_lawful<T: Asn1Type, const TAG: u32>()
    ensures option { T.der.lawful → T.der.is_element → ⟦<Option<T> as Asn1Type>⟧.der.lawful }
    ensures explicit { T.der.lawful → ⟦<Explicit<T, TAG> as Asn1Type>⟧.der.lawful }
    ensures implicit { T.der.lawful → T.der.is_simple
        → ⟦<Implicit<T, TAG> as Asn1Type>⟧.der.lawful }
    ensures octet_string { T.der.lawful → ⟦<OctetStringEncoded<T> as Asn1Type>⟧.der.lawful }
{}

/// The same of types under a tag of any class, which are elements.
pub fn tagged_types_are_lawful<T: Asn1Type, const CLASS: u8, const NUMBER: u32>()
    ensures explicit { T.der.lawful → ⟦<TaggedExplicit<T, CLASS, NUMBER> as Asn1Type>⟧.der.lawful }
    ensures implicit { T.der.lawful → T.der.is_simple
        → ⟦<TaggedImplicit<T, CLASS, NUMBER> as Asn1Type>⟧.der.lawful }
    ensures explicit_element { ⟦<TaggedExplicit<T, CLASS, NUMBER> as Asn1Type>⟧.der.is_element }
    ensures implicit_element { ⟦<TaggedImplicit<T, CLASS, NUMBER> as Asn1Type>⟧.der.is_element }
{}

/// A field with a default is lawful if its part is, and if that part is an element, as for an option.
pub fn defaults_are_lawful<T: MeaningEq, D: DefaultValue<T>>()
    ensures { T.der.lawful → T.der.is_element → ⟦<Defaulted<T, D> as Asn1Type>⟧.der.lawful }
{}

/// A value whose writes fail with another error is lawful, and an element, if the value itself is.
pub fn error_into_is_lawful<T: Asn1Type, E>()
    ensures lawful { T.der.lawful → ⟦<ErrorInto<T, E> as Asn1Type>⟧.der.lawful }
    ensures element { T.der.is_element → ⟦<ErrorInto<T, E> as Asn1Type>⟧.der.is_element }
{}

/// A choice of lawful elements is lawful if no tag is accepted by two alternatives.
pub fn choices_are_lawful<A: Asn1Type, B: Asn1Type, C: Asn1Type>()
    ensures choice1 { A.der.lawful → A.der.is_element → ⟦<Choice1<A> as Asn1Type>⟧.der.lawful }
    ensures choice2 { A.der.lawful → A.der.is_element → B.der.lawful → B.der.is_element
        → Disjoint A.der.accepts B.der.accepts → ⟦<Choice2<A, B> as Asn1Type>⟧.der.lawful }
    ensures choice3 { A.der.lawful → A.der.is_element → ⟦<Choice2<B, C> as Asn1Type>⟧.der.lawful
        → Disjoint A.der.accepts B.der.accepts → Disjoint A.der.accepts C.der.accepts
        → ⟦<Choice3<A, B, C> as Asn1Type>⟧.der.lawful }
{}

/// Each value of a list of alternatives has one encoding if it is so of the first alternative, which has to be an
/// element, and of the others, and if no tag is accepted by the first and by one of the others. So the law holds of
/// lists of any length.
pub fn alternatives_are_lawful<A: Alternative, R: Alternatives>()
    ensures none { EachHasOneEncoding ⟦<NoOther as Alternatives>⟧.list }
    ensures first { HasOneEncoding A.der → A.der.is_element → EachHasOneEncoding R.list
        → Disjoint A.der.accepts R.list.all.accepts
        → EachHasOneEncoding ⟦<OneOf<A, R> as Alternatives>⟧.list }
{}

/// The same of a list of three alternatives and others, if it is so of the list that has the three one by one.
pub fn alternatives_by_three_are_lawful<
    A: Alternative,
    B: Alternative,
    C: Alternative,
    R: Alternatives,
>()
    ensures { EachHasOneEncoding ⟦<OneOf<A, OneOf<B, OneOf<C, R>>> as Alternatives>⟧.list
        → EachHasOneEncoding ⟦<OneOfThree<A, B, C, R> as Alternatives>⟧.list }
{}

/// The same of a list of eight.
pub fn alternatives_by_eight_are_lawful<
    A: Alternative,
    B: Alternative,
    C: Alternative,
    D: Alternative,
    E: Alternative,
    F: Alternative,
    G: Alternative,
    H: Alternative,
    R: Alternatives,
>()
    ensures { EachHasOneEncoding
        ⟦<EightOneByOne<A, B, C, D, E, F, G, H, R> as Alternatives>⟧.list
        → EachHasOneEncoding ⟦<OneOfEight<A, B, C, D, E, F, G, H, R> as Alternatives>⟧.list }
{}

/// So has a choice of one's own, whose values are seen as those of such a list; and it is an element.
pub fn choices_of_alternatives_are_lawful<R: Alternatives, C: AsOneOf<R::Values>>()
    ensures one { EachHasOneEncoding R.list → HasOneEncoding (choice C.seen R.list) }
    ensures element { (choice C.seen R.list).is_element }
{}

/// A list of alternatives is lawful if each alternative is, and no other accepts one of its tags. If all alternatives
/// but one have one tag each, the caller proves nothing by hand: these tags are compared by computing.
pub fn alternatives_apart_are_lawful<R: Alternatives>()
    requires { R.list.all.each_apart }
    ensures { R.list.all.lawful }
{}

/// No tag is accepted by both types. The law of alternatives asks it of two that have several tags each.
pub fn tags_are_apart<A: Asn1Type, B: Asn1Type>()
    requires { Disjoint A.der.accepts B.der.accepts }
    ensures { Disjoint A.der.accepts B.der.accepts }
{}

/// The wrappers other than options are elements: they may be the part of an option or an alternative of a choice.
pub fn wrappers_are_elements<T: Asn1Type, const TAG: u32>()
    ensures explicit { ⟦<Explicit<T, TAG> as Asn1Type>⟧.der.is_element }
    ensures implicit { ⟦<Implicit<T, TAG> as Asn1Type>⟧.der.is_element }
    ensures octet_string { ⟦<OctetStringEncoded<T> as Asn1Type>⟧.der.is_element }
{}

/// Choices are elements too.
pub fn choices_are_elements<A: Asn1Type, B: Asn1Type, C: Asn1Type>()
    ensures choice1 { ⟦<Choice1<A> as Asn1Type>⟧.der.is_element }
    ensures choice2 { ⟦<Choice2<A, B> as Asn1Type>⟧.der.is_element }
    ensures choice3 { ⟦<Choice3<A, B, C> as Asn1Type>⟧.der.is_element }
{}

/// A type that an item defines is lawful under an explicit tag if the type is lawful and its encoding is an element.
/// Its other properties are those without the tag.
pub fn defined_types_are_lawful<T: Asn1Type, U: Asn1DefinedBy<T>, const TAG: u32>()
    ensures lawful { U.by.means.lawful → ((item : U.by.Item) → U.by.means.is_element item) →
        ⟦<Explicit<U, TAG> as Asn1DefinedBy<T>>⟧.by.means.lawful }
    ensures plain { U.by.means.plain → ⟦<Explicit<U, TAG> as Asn1DefinedBy<T>>⟧.by.means.plain }
    ensures takes_none { (U.by.means.takes_memory → ⊥) →
        ⟦<Explicit<U, TAG> as Asn1DefinedBy<T>>⟧.by.means.takes_memory → ⊥ }
    ensures unbounded { (U.by.means.bounded → ⊥) →
        ⟦<Explicit<U, TAG> as Asn1DefinedBy<T>>⟧.by.means.bounded → ⊥ }
{}

/// What [`FieldWritable`] states of each kind of field, it states of the value with its tag and its default: what a
/// write may append are the encodings of that value, and what a write requires is what its type requires of closures.
pub fn fields_are_encoded<
    T: SimpleAsn1Writable + SimpleMeaningEq + Drop,
    D: DefaultValue<T>,
    E: DefaultValue<Explicit<T, TAG>>,
    I: DefaultValue<Implicit<T, TAG>>,
    const TAG: u32,
>()
    ensures plain { let field = ⟦<Plain as FieldWritable<T>>⟧ in
        IsEncoded T.der (λ v. v) field.encodings field.owes }
    ensures default { let field = ⟦<Defaulted<T, D> as FieldWritable<T>>⟧ in
        IsEncoded ⟦<Defaulted<T, D> as Asn1Type>⟧.der defaulted field.encodings field.owes }
    ensures explicit { let field = ⟦<Explicit<T, TAG> as FieldWritable<T>>⟧ in
        IsEncoded ⟦<Explicit<T, TAG> as Asn1Type>⟧.der explicit field.encodings field.owes }
    ensures explicit_option { let der = ⟦<Option<Explicit<T, TAG>> as Asn1Type>⟧.der in
        let field = ⟦<Option<Explicit<T, TAG>> as FieldWritable<Option<T>>>⟧ in
        IsEncoded der (option_meaning explicit) field.encodings field.owes }
    ensures explicit_default { let der = ⟦<Defaulted<Explicit<T, TAG>, E> as Asn1Type>⟧.der in
        let field = ⟦<Defaulted<Explicit<T, TAG>, E> as FieldWritable<T>>⟧ in
        IsEncoded der (λ v. defaulted (explicit v)) field.encodings field.owes }
    ensures implicit { let field = ⟦<Implicit<T, TAG> as FieldWritable<T>>⟧ in
        IsEncoded ⟦<Implicit<T, TAG> as Asn1Type>⟧.der implicit field.encodings field.owes }
    ensures implicit_option { let der = ⟦<Option<Implicit<T, TAG>> as Asn1Type>⟧.der in
        let field = ⟦<Option<Implicit<T, TAG>> as FieldWritable<Option<T>>>⟧ in
        IsEncoded der (option_meaning implicit) field.encodings field.owes }
    ensures implicit_default { let der = ⟦<Defaulted<Implicit<T, TAG>, I> as Asn1Type>⟧.der in
        let field = ⟦<Defaulted<Implicit<T, TAG>, I> as FieldWritable<T>>⟧ in
        IsEncoded der (λ v. defaulted (implicit v)) field.encodings field.owes }
{}

/// The same of an item, which is written from the value that it defines, and of that value.
pub fn items_are_encoded<T: Asn1Writable + Drop, C: DefinedField<T> + Asn1DefinedByWritable<T>>()
    ensures item { let field = ⟦<ItemOf<T> as FieldWritable<C>>⟧ in
        IsWrittenAs C.both.item.encodings C.both.item.closures
        (λ v. C.both.value.item (C.both.value.meaning v)) field.encodings field.owes }
    ensures value { let field = ⟦<ValueOf<T> as FieldWritable<C>>⟧ in
        IsWrittenAs C.both.value.encodings C.both.value.closures C.both.value.meaning
        field.encodings field.owes }
{}

/// What [`RowReadable`] states of a row is what [`Row`] states: of no fields, of the last field, and of a field with
/// those after it, if it holds of these. So it holds of rows of any length.
pub fn rows_are_read<'a, A: Asn1Readable<'a>, R: Row + RowReadable<'a>>()
    ensures none { IsReadAs ⟦<NoFields as Row>⟧.list ⟦<NoFields as RowReadable<'a>>⟧.list }
    ensures last { IsReadAs ⟦<Last<A> as Row>⟧.list ⟦<Last<A> as RowReadable<'a>>⟧.list }
    ensures field { IsReadAs R.Row.list R.RowReadable.list
        → IsReadAs ⟦<Field<A, R> as Row>⟧.list ⟦<Field<A, R> as RowReadable<'a>>⟧.list }
{}

/// The same of an item and the fields after it, if it holds of these: of the value that the item defines as the last
/// field, of that value with the fields after it, and of a field before it.
pub fn rows_behind_items_are_read<
    'a,
    A: Asn1Readable<'a>,
    T: Asn1Readable<'a>,
    C: DefinedField<T> + Asn1DefinedByReadable<'a, T>,
    R: Row + RowReadable<'a>,
    B: RowBehind<T> + RowBehindReadable<'a, T>,
>()
    ensures last_value { IsReadBehind ⟦<LastValue<C> as RowBehind<T>>⟧.behind
        ⟦<LastValue<C> as RowBehindReadable<'a, T>>⟧.behind }
    ensures value { IsReadAs R.Row.list R.RowReadable.list
        → IsReadBehind ⟦<Value<C, R> as RowBehind<T>>⟧.behind
        ⟦<Value<C, R> as RowBehindReadable<'a, T>>⟧.behind }
    ensures before { IsReadBehind B.RowBehind.behind B.RowBehindReadable.behind
        → IsReadBehind ⟦<Before<A, B> as RowBehind<T>>⟧.behind
        ⟦<Before<A, B> as RowBehindReadable<'a, T>>⟧.behind }
    ensures item { IsReadBehind B.RowBehind.behind B.RowBehindReadable.behind
        → IsReadAs ⟦<Item<T, B> as Row>⟧.list ⟦<Item<T, B> as RowReadable<'a>>⟧.list }
{}

/// What [`RowWritable`] states of a row of values is what [`Row`] states: of the last field, and of a field with those
/// after it, if it holds of the field and of these. [`fields_are_encoded`] says it of each kind of field.
pub fn rows_are_written<
    'a,
    V,
    P: 'a,
    A: Asn1Type,
    K: FieldWritable<P>,
    R: Row,
    KR,
    W: RowWritable<KR, Error = K::Error>,
>()
    ensures last { let fields = ⟦<Last<A> as Row>⟧.list.fields in
        let written = ⟦<Last<&'a P> as RowWritable<Last<K>>>⟧ in
        (row : V → Last (Bor P)) (m : V → A.der.Meaning)
        → IsWrittenAs A.der.encodings A.der.closures m (λ v. K.encodings (row v).value.now)
        (λ v. K.owes (row v).value.now)
        → IsWrittenAs fields.encodings fields.closures m (λ v. written.encodings (row v))
        (λ v. written.owes (row v)) }
    ensures field { let fields = ⟦<Field<A, R> as Row>⟧.list.fields in
        let written = ⟦<Field<&'a P, W> as RowWritable<Field<K, KR>>>⟧ in
        (row : V → Field (Bor P) W) (m : V → A.der.Meaning) (n : V → R.list.Meaning)
        → IsWrittenAs A.der.encodings A.der.closures m (λ v. K.encodings (row v).value.now)
        (λ v. K.owes (row v).value.now)
        → IsWrittenAs R.list.fields.encodings R.list.fields.closures n
        (λ v. W.encodings (row v).rest)
        (λ v. W.owes (row v).rest)
        → IsWrittenAs fields.encodings fields.closures (λ v. (m v, n v))
        (λ v. written.encodings (row v))
        (λ v. written.owes (row v)) }
{}

/// The same of an item and the fields after it, if it holds of these: of the value that the item defines as the last
/// field, of that value with the fields after it, and of a field before it. The item is written from that value.
pub fn rows_behind_items_are_written<
    'a,
    V,
    P: 'a,
    A: Asn1Type,
    T: Asn1Type,
    C: DefinedField<T>,
    K: FieldWritable<P>,
    R: Row,
    B: RowBehind<T>,
    KR,
    W: RowWritable<KR, Error = K::Error>,
>()
    ensures last_value { let fields = ⟦<LastValue<C> as RowBehind<T>>⟧.behind.fields in
        let written = ⟦<Last<&'a P> as RowWritable<Last<K>>>⟧ in
        (row : V → Last (Bor P)) (m : V → C.both.value.Meaning)
        → IsWrittenAs C.both.value.encodings C.both.value.closures m
        (λ v. K.encodings (row v).value.now) (λ v. K.owes (row v).value.now)
        → IsWrittenAs fields.encodings fields.closures m (λ v. written.encodings (row v))
        (λ v. written.owes (row v)) }
    ensures value { let fields = ⟦<Value<C, R> as RowBehind<T>>⟧.behind.fields in
        let written = ⟦<Field<&'a P, W> as RowWritable<Field<K, KR>>>⟧ in
        (row : V → Field (Bor P) W) (m : V → C.both.value.Meaning) (n : V → R.list.Meaning)
        → IsWrittenAs C.both.value.encodings C.both.value.closures m
        (λ v. K.encodings (row v).value.now) (λ v. K.owes (row v).value.now)
        → IsWrittenAs R.list.fields.encodings R.list.fields.closures n
        (λ v. W.encodings (row v).rest) (λ v. W.owes (row v).rest)
        → IsWrittenAs fields.encodings fields.closures (λ v. (m v, n v))
        (λ v. written.encodings (row v))
        (λ v. written.owes (row v)) }
    ensures before { let fields = ⟦<Before<A, B> as RowBehind<T>>⟧.behind.fields in
        let written = ⟦<Field<&'a P, W> as RowWritable<Field<K, KR>>>⟧ in
        (row : V → Field (Bor P) W) (m : V → A.der.Meaning) (n : V → B.behind.Meaning)
        → IsWrittenAs A.der.encodings A.der.closures m
        (λ v. K.encodings (row v).value.now) (λ v. K.owes (row v).value.now)
        → IsWrittenAs B.behind.fields.encodings B.behind.fields.closures n
        (λ v. W.encodings (row v).rest) (λ v. W.owes (row v).rest)
        → IsWrittenAs fields.encodings fields.closures (λ v. (m v, n v))
        (λ v. written.encodings (row v))
        (λ v. written.owes (row v)) }
    ensures item { let fields = ⟦<Item<T, B> as Row>⟧.list.fields in
        let written = ⟦<Field<&'a P, W> as RowWritable<Field<K, KR>>>⟧ in
        (row : V → Field (Bor P) W) (n : V → B.behind.Meaning)
        → IsWrittenAs B.behind.item.encodings B.behind.item.closures
        (λ v. B.behind.fields.item (n v))
        (λ v. K.encodings (row v).value.now) (λ v. K.owes (row v).value.now)
        → IsWrittenAs B.behind.fields.encodings B.behind.fields.closures n
        (λ v. W.encodings (row v).rest) (λ v. W.owes (row v).rest)
        → IsWrittenAs fields.encodings fields.closures n (λ v. written.encodings (row v))
        (λ v. written.owes (row v)) }
{}

/// A row that is read has one encoding for each value: no fields, a last field, and a field with those after it, if
/// these have. The clauses whose names end in `read` say that it isn't only written, as a type's `tag` has to say.
pub fn rows_are_plain<'a, A: Asn1Readable<'a>, R: RowReadable<'a>>()
    ensures none { ⟦<NoFields as RowReadable<'a>>⟧.list.fields.plain }
    ensures last { ⟦<Last<A> as RowReadable<'a>>⟧.list.fields.plain }
    ensures field { R.list.fields.plain → ⟦<Field<A, R> as RowReadable<'a>>⟧.list.fields.plain }
    ensures none_read { ⟦<NoFields as RowReadable<'a>>⟧.list.fields.is_read }
    ensures last_read { ⟦<Last<A> as RowReadable<'a>>⟧.list.fields.is_read }
    ensures field_read { R.list.fields.is_read
        → ⟦<Field<A, R> as RowReadable<'a>>⟧.list.fields.is_read }
{
    // By this call's contract each value of the type has one encoding, and is read.
    let _accepted = A::can_parse(Tag::primitive(0));
}

/// The same of an item and the fields after it, by what their row states.
pub fn rows_behind_items_are_plain<
    'a,
    A: Asn1Readable<'a>,
    T: Asn1Readable<'a>,
    C: DefinedField<T> + Asn1DefinedByReadable<'a, T>,
    R: RowReadable<'a>,
    B: RowBehindReadable<'a, T>,
>()
    ensures last_value { IsPlainBehind ⟦<LastValue<C> as RowBehindReadable<'a, T>>⟧.behind }
    ensures value { R.list.fields.plain
        → IsPlainBehind ⟦<Value<C, R> as RowBehindReadable<'a, T>>⟧.behind }
    ensures before { IsPlainBehind B.behind
        → IsPlainBehind ⟦<Before<A, B> as RowBehindReadable<'a, T>>⟧.behind }
    ensures item { IsPlainBehind B.behind
        → ⟦<Item<T, B> as RowReadable<'a>>⟧.list.fields.plain }
    ensures last_value_read { AreReadBehind
        ⟦<LastValue<C> as RowBehindReadable<'a, T>>⟧.behind }
    ensures value_read { R.list.fields.is_read
        → AreReadBehind ⟦<Value<C, R> as RowBehindReadable<'a, T>>⟧.behind }
    ensures before_read { AreReadBehind B.behind
        → AreReadBehind ⟦<Before<A, B> as RowBehindReadable<'a, T>>⟧.behind }
    ensures item_read { AreReadBehind B.behind
        → ⟦<Item<T, B> as RowReadable<'a>>⟧.list.fields.is_read }
{
    let _accepted = A::can_parse(Tag::primitive(0));
    let _item_accepted = T::can_parse(Tag::primitive(0));
    C::one_encoding();
}
