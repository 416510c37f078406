//! Fields that an item before them defines (ANY DEFINED BY of X.208).

ghost use Rattle.std.specs.Prelude.{◌≡◌, IsOk};
ghost use Rattle.std.specs.Str.{bytes_eq};
ghost use Rattle.asn1_core.specs.Reading.{Returns};
ghost use Rattle.asn1_values.specs.Identifier.{read_identifier};
ghost use Rattle.asn1_values.specs.IdentifierValues.{identifier_of};
ghost use Rattle.asn1.specs.Structures.{BehindItem, ItemErrors, before_behind, item_list, value_behind};
ghost use Rattle.asn1.specs.Structures.{value_last_behind};
ghost use Rattle.asn1.specs.ItemsAndValues.{Agrees, ItemAgrees, ItemAndValue};

use super::{FieldWritable, NameSource, Row, RowReadable, finish, placed};
use crate::laws::identifiers_compare;
use crate::wrappers::DefinedByMarker;
use asn1_core::{
    Asn1DefinedBy, Asn1DefinedByReadable, Asn1DefinedByWritable, Asn1Readable, Asn1Type,
    Asn1Writable, ParseResult, Parser, WriteError, Writer,
};
use asn1_values::ObjectIdentifier;
use std::marker::PhantomData;

/// A value that an item of the type `T` defines, if both are fields: what each means, for contracts alone.
pub trait DefinedField<T: Asn1Type>: Asn1DefinedBy<T> + Sized {
    ghost both: { ItemAndValue T Self };

    /// States that the item of the value is valid. The call does nothing at run time.
    fn known_item(&self)
        ensures { both.item.valid (both.value.item (both.value.meaning self.now)) };

    // `T.der` and `Self.by` state the same as `both`.
    ghost agrees: { Agrees T.der Self.by both };
}

/// The fields after an item of the type `T`, one of which the item defines: what they mean, for contracts alone.
pub trait RowBehind<T: Asn1Type>: Sized {
    ghost behind: { BehindItem T Self };

    // `T.der` states the same as `behind.item`.
    ghost item_agrees: { ItemAgrees T.der behind.item };
}

/// Fields after an item, which are read. Like [`RowReadable`], this states once more what they mean.
pub trait RowBehindReadable<'a, T: Asn1Readable<'a>>: Sized + Drop {
    ghost behind: { BehindItem T Self };

    /// Reads the fields after this item. Errors are those of [`RowReadable::read`].
    fn read<S: NameSource>(item: T, parser: Parser<'a>, names: S) -> ParseResult<Self>
        ensures { Returns behind.meaning (behind.fields.runs_out (S.texts names)
            (behind.item.meaning item) parser.entry) result
            (behind.fields.read (S.texts names) (behind.item.meaning item) parser.entry) };

    ghost item_agrees: { ItemAgrees T.der behind.item };
}

/// An item, and the fields after it. The item isn't kept, since the value that it defines determines it.
#[derive(Drop)]
pub struct Item<T, B> {
    /// A marker at the position of the item.
    pub value: DefinedByMarker<T>,
    /// The fields after it.
    pub rest: B,
}

/// A field between an item and the value that the item defines, and the fields after it.
#[derive(Drop)]
pub struct Before<A, B> {
    /// The field's value.
    pub value: A,
    /// The fields after it.
    pub rest: B,
}

/// A value that an item before it defines, and the fields after it.
#[derive(Drop)]
pub struct Value<C, R> {
    /// The value.
    pub value: C,
    /// The fields after it.
    pub rest: R,
}

/// A value that an item before it defines, as the last field.
#[derive(Drop)]
pub struct LastValue<C> {
    /// The value.
    pub value: C,
}

/// Reads the item, whose meaning is as `B.behind` states it.
fn read_item<'a, T: Asn1Readable<'a>, B: RowBehindReadable<'a, T>>(
    parser: &mut Parser<'a>,
) -> ParseResult<T>
    ensures { Returns (λ v. (B.behind.item.meaning v, parser.new))
        (B.behind.item.runs_out parser.old) result (B.behind.item.read parser.old) }
{
    parser.read_element::<T>()
}

/// Reads the value that the item defines. The meanings of both are as `C.both` states them.
fn read_value<'a, T: Asn1Readable<'a>, C: DefinedField<T> + Asn1DefinedByReadable<'a, T>>(
    item: T,
    parser: &mut Parser<'a>,
) -> ParseResult<C>
    ensures { Returns (λ v. (C.both.value.meaning v, parser.new))
        (C.both.value.runs_out (C.both.item.meaning item) parser.old) result
        (C.both.value.read (C.both.item.meaning item) parser.old) }
{
    C::parse(item, parser)
}

impl<T: Asn1Type, B: RowBehind<T>> Row for Item<T, B> {
    ghost list = { item_list (λ x. x.rest) B.behind };
}

impl<'a, T: Asn1Readable<'a>, B: RowBehindReadable<'a, T>> RowReadable<'a> for Item<T, B> {
    ghost list = { item_list (λ row. row.rest) B.behind };

    fn read<S: NameSource>(parser: Parser<'a>, names: S) -> ParseResult<Self> {
        let mut parser = parser;
        let item = placed(read_item::<T, B>(&mut parser), names.first())?;
        let rest = B::read(item, parser, names.others())?;
        Ok(Item {
            value: DefinedByMarker::marker(),
            rest,
        })
    }
}

impl<T: Asn1Type, A: Asn1Type, B: RowBehind<T>> RowBehind<T> for Before<A, B> {
    ghost behind = { before_behind (λ x. x.value) A.der (λ x. x.rest) B.behind };

    ghost item_agrees = { B.item_agrees };
}

impl<'a, T: Asn1Readable<'a>, A: Asn1Readable<'a>, B: RowBehindReadable<'a, T>> RowBehindReadable<
    'a,
    T,
> for Before<A, B> {
    ghost behind = { before_behind (λ row. row.value) A.der (λ row. row.rest) B.behind };

    ghost item_agrees = { B.item_agrees };

    fn read<S: NameSource>(item: T, parser: Parser<'a>, names: S) -> ParseResult<Self> {
        let mut parser = parser;
        let value = placed(parser.read_element::<A>(), names.first())?;
        let rest = B::read(item, parser, names.others())?;
        Ok(Before { value, rest })
    }
}

impl<T: Asn1Type, C: DefinedField<T>, R: Row> RowBehind<T> for Value<C, R> {
    ghost behind = { value_behind (λ x. x.value) C.both (λ x. x.rest) R.list };

    ghost item_agrees = { C.agrees.0 };
}

impl<
    'a,
    T: Asn1Readable<'a>,
    C: DefinedField<T> + Asn1DefinedByReadable<'a, T>,
    R: RowReadable<'a>,
> RowBehindReadable<'a, T> for Value<C, R> {
    ghost behind = { value_behind (λ row. row.value) C.both (λ row. row.rest) R.list };

    ghost item_agrees = { C.agrees.0 };

    fn read<S: NameSource>(item: T, parser: Parser<'a>, names: S) -> ParseResult<Self> {
        let mut parser = parser;
        let value = placed(read_value::<T, C>(item, &mut parser), names.first())?;
        let rest = R::read(parser, names.others())?;
        Ok(Value { value, rest })
    }
}

impl<T: Asn1Type, C: DefinedField<T>> RowBehind<T> for LastValue<C> {
    ghost behind = { value_last_behind (λ row. row.value) C.both };

    ghost item_agrees = { C.agrees.0 };
}

impl<'a, T: Asn1Readable<'a>, C: DefinedField<T> + Asn1DefinedByReadable<'a, T>> RowBehindReadable<
    'a,
    T,
> for LastValue<C> {
    ghost behind = { value_last_behind (λ row. row.value) C.both };

    ghost item_agrees = { C.agrees.0 };

    fn read<S: NameSource>(item: T, parser: Parser<'a>, names: S) -> ParseResult<Self> {
        let mut parser = parser;
        let value = placed(read_value::<T, C>(item, &mut parser), names.first())?;
        finish(parser)?;
        Ok(LastValue { value })
    }
}

/// The OBJECT IDENTIFIER with these contents octets. The caller has to prove that they are those of one (`requires`).
pub fn known_identifier(contents: &[u8]) -> ObjectIdentifier
    requires { IsOk (read_identifier contents.now) }
    ensures { read_identifier contents.now ≡ Ok (identifier_of result) }
{
    match ObjectIdentifier::from_der(contents) {
        Ok(identifier) => identifier,
        Err(_) => unreachable!(),
    }
}

/// Whether the two are the same OBJECT IDENTIFIER.
pub fn is_identifier(item: &ObjectIdentifier, known: ObjectIdentifier) -> bool
    ensures { result ≡ bytes_eq (identifier_of item.now) (identifier_of known) }
{
    // By this call's contract identifiers are equal exactly if their numbers are.
    identifiers_compare();
    *item == known
}

/// States that the item of a value is valid. The call does nothing at run time.
pub fn known_item<T: Asn1Type, C: DefinedField<T>>(value: &C)
    ensures { C.both.item.valid (C.both.value.item (C.both.value.meaning value.now)) }
{
    value.known_item()
}

/// States that a value that an item defines is valid. The call does nothing at run time.
pub fn known_value<T: Asn1Type, C: DefinedField<T>>(value: &C)
    ensures { C.both.value.valid (C.both.value.meaning value.now) }
{
    value.known_by()
}

/// The item of a value, which is written from the value: the value determines it.
pub struct ItemOf<T> {
    of: PhantomData<T>,
}

impl<T: Asn1Writable + Drop, C: DefinedField<T> + Asn1DefinedByWritable<T>> FieldWritable<C>
    for ItemOf<T> {
    type Error = T::Error;

    ghost encodings = { λ v. C.both.item.encodings (C.both.value.item (C.both.value.meaning v)) };

    ghost owes = { λ v. C.both.item.closures (C.both.value.item (C.both.value.meaning v)) };

    ghost write_errors = { λ v. ItemErrors C.both v T.write_errors };

    ghost length_known = { λ v. (item : T) → (C.both.item.meaning item ≡
        C.both.value.item (C.both.value.meaning v)) → T.length_known item };

    fn write_plain(value: &C, dest: &mut Writer<'_>) -> Result<(), T::Error> {
        let item = value.item();
        dest.write_element(&item)
    }

    fn plain_length(value: &C) -> Option<usize> {
        let item = value.item();
        item.encoded_length()
    }
}

/// A value that an item of the type `T` defines, which is written without the item.
pub struct ValueOf<T> {
    of: PhantomData<T>,
}

impl<T: Asn1Writable, C: DefinedField<T> + Asn1DefinedByWritable<T>> FieldWritable<C>
    for ValueOf<T> {
    type Error = C::Error;

    ghost encodings = { λ v. C.both.value.encodings (C.both.value.meaning v) };

    ghost owes = { λ v. C.both.value.closures (C.both.value.meaning v) };

    ghost write_errors = { C.write_errors_by };

    ghost length_known = { C.length_known_by };

    fn write_plain(value: &C, dest: &mut Writer<'_>) -> Result<(), C::Error> {
        value.write(dest)
    }

    fn plain_length(value: &C) -> Option<usize> {
        value.encoded_length()
    }
}
