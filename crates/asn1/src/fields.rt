//! Fields of structures. A user's own structure is a struct with public fields. It is read as a row of fields, which
//! the macro `read_fields` moves to the struct. `write_fields` and `fields_length` write it as a row of references to
//! its fields.

ghost use Rattle.std.specs.Prelude.{◌≡◌, List, ℕ};
ghost use Rattle.asn1_core.specs.Reading.{rest_rejected};
ghost use Rattle.asn1.specs.Fields.{first_name, other_names};
ghost use Rattle.asn1.specs.FieldReads.{in_field, IsSum};
ghost use Rattle.asn1.specs.Structures.{FieldList, ReadsRow, empty_list, last_field, first_field, texts_of};

use asn1_core::{
    Asn1Readable, Asn1Type, ParseError, ParseErrorKind, ParseLocation, ParseResult, Parser,
};
use std::alloc::Global;

mod defined;
mod plain;
mod writes;

pub use defined::{
    Before, DefinedField, Item, ItemOf, LastValue, RowBehind, RowBehindReadable, Value, ValueOf,
    is_identifier, known_identifier, known_item, known_value,
};
pub use plain::{
    FieldWritable, Plain, Wraps, explicit_length, implicit_length, into_plain, known_plain,
    plain_length, value_length, write_explicit, write_implicit, write_plain,
};
pub use writes::{Four, RowWritable};

/// Names of fields, in order.
#[derive(Clone, Copy)]
pub struct Names {
    /// The names, the first field's first.
    pub list: &'static [&'static str],
}

/// Names, of which reading a row takes one after another.
pub trait NameSource: Copy {
    ghost texts: { Self → List (List ℕ) };

    /// The first name.
    fn first(self) -> &'static str
        ensures { result.now ≡ first_name (texts self) };

    /// The other names.
    fn others(self) -> Self
        ensures { texts result ≡ other_names (texts self) };
}

impl NameSource for Names {
    ghost texts = { texts_of };

    #[inline(always)]
    fn first(self) -> &'static str {
        match self.list {
            [] => "",
            [name, ..] => *name,
        }
    }

    #[inline(always)]
    fn others(self) -> Names {
        match self.list {
            [] => self,
            [_, rest @ ..] => Names { list: rest },
        }
    }
}

/// What fields mean, for contracts alone.
pub trait Row: Sized {
    ghost list: { FieldList Self };
}

/// Fields that are read. If this trait had the supertrait [`Row`], the prover would compare what each row means in each
/// structure. So `list` is stated here too, and the laws [`crate::laws_wrappers::rows_are_read`] and
/// [`crate::laws_wrappers::rows_behind_items_are_read`] say that reading returns what `Row` says. By
/// [`crate::laws_wrappers::rows_are_plain`] a row that is read has one encoding for each value.
pub trait RowReadable<'a>: Sized + Drop {
    ghost list: { FieldList Self };

    /// Reads the fields, in order. Errors: the first error of a field, with the field's name as location;
    /// `ExtraData`, without a location, if octets remain after the last field.
    fn read<S: NameSource>(parser: Parser<'a>, names: S) -> ParseResult<Self>
        ensures { ReadsRow list (S.texts names) parser.entry result };
}

/// Reads fields with these names from the contents octets of a structure. Errors are those of [`RowReadable::read`].
#[inline(always)]
pub fn read_fields<'a, R: RowReadable<'a>, S: NameSource>(
    alloc: Global,
    data: &'a [u8],
    names: S,
) -> ParseResult<R>
    ensures { ReadsRow R.list (S.texts names) «data».entry.now result }
{
    R::read(Parser::new(alloc, data), names)
}

/// No fields: the row of a structure that has none.
#[derive(Drop)]
pub struct NoFields;

/// The last field.
#[derive(Drop)]
pub struct Last<A> {
    /// The field's value.
    pub value: A,
}

/// A field, and those after it.
#[derive(Drop)]
pub struct Field<A, R> {
    /// The first field's value.
    pub value: A,
    /// The fields after it.
    pub rest: R,
}

/// Two fields.
pub type Fields2<A, B> = Field<A, Last<B>>;

/// Three fields.
pub type Fields3<A, B, C> = Field<A, Fields2<B, C>>;

/// Four fields.
pub type Fields4<A, B, C, D> = Field<A, Fields3<B, C, D>>;

/// Five fields.
pub type Fields5<A, B, C, D, E> = Field<A, Fields4<B, C, D, E>>;

/// Six fields.
pub type Fields6<A, B, C, D, E, F> = Field<A, Fields5<B, C, D, E, F>>;

/// Seven fields.
pub type Fields7<A, B, C, D, E, F, G> = Field<A, Fields6<B, C, D, E, F, G>>;

/// Eight fields.
pub type Fields8<A, B, C, D, E, F, G, H> = Field<A, Fields7<B, C, D, E, F, G, H>>;

/// Nine fields.
pub type Fields9<A, B, C, D, E, F, G, H, I> = Field<A, Fields8<B, C, D, E, F, G, H, I>>;

/// Ten fields.
pub type Fields10<A, B, C, D, E, F, G, H, I, J> = Field<A, Fields9<B, C, D, E, F, G, H, I, J>>;

/// Eleven fields.
pub type Fields11<A, B, C, D, E, F, G, H, I, J, K> = Field<
    A,
    Fields10<B, C, D, E, F, G, H, I, J, K>,
>;

/// Twelve fields.
pub type Fields12<A, B, C, D, E, F, G, H, I, J, K, L> = Field<
    A,
    Fields11<B, C, D, E, F, G, H, I, J, K, L>,
>;

/// Thirteen fields.
pub type Fields13<A, B, C, D, E, F, G, H, I, J, K, L, M> = Field<
    A,
    Fields12<B, C, D, E, F, G, H, I, J, K, L, M>,
>;

/// Fourteen fields.
pub type Fields14<A, B, C, D, E, F, G, H, I, J, K, L, M, N> = Field<
    A,
    Fields13<B, C, D, E, F, G, H, I, J, K, L, M, N>,
>;

/// Fifteen fields.
pub type Fields15<A, B, C, D, E, F, G, H, I, J, K, L, M, N, O> = Field<
    A,
    Fields14<B, C, D, E, F, G, H, I, J, K, L, M, N, O>,
>;

/// Sixteen fields.
pub type Fields16<A, B, C, D, E, F, G, H, I, J, K, L, M, N, O, P> = Field<
    A,
    Fields15<B, C, D, E, F, G, H, I, J, K, L, M, N, O, P>,
>;

/// The result of reading a field: the value, or the field's error with the field's name as a further location.
#[inline(always)]
pub fn placed<T: Drop>(answer: ParseResult<T>, name: &'static str) -> ParseResult<T>
    ensures { result ≡ in_field name.now answer }
{
    match answer {
        Ok(value) => Ok(value),
        Err(error) => Err(error.add_location(ParseLocation::Field(name))),
    }
}

/// Rejects octets that remain after the last field, with `ExtraData` without a location.
#[inline(always)]
pub fn finish(parser: Parser<'_>) -> ParseResult<()>
    ensures { result ≡ rest_rejected parser.entry }
{
    if !parser.is_empty() {
        return Err(ParseError::new(ParseErrorKind::ExtraData));
    }
    Ok(())
}

/// The sum of two lengths, if both are known and the sum fits in a `usize`.
#[inline(always)]
pub fn sum(a: Option<usize>, b: Option<usize>) -> Option<usize>
    ensures { IsSum a b result }
{
    a?.checked_add(b?)
}

impl Row for NoFields {
    ghost list = { empty_list };
}

impl<'a> RowReadable<'a> for NoFields {
    ghost list = { empty_list };

    #[inline(always)]
    fn read<S: NameSource>(parser: Parser<'a>, _names: S) -> ParseResult<NoFields> {
        finish(parser)?;
        Ok(NoFields)
    }
}

impl<A: Asn1Type> Row for Last<A> {
    ghost list = { last_field (λ x. x.value) A.der };
}

impl<'a, A: Asn1Readable<'a>> RowReadable<'a> for Last<A> {
    ghost list = { last_field (λ row. row.value) A.der };

    #[inline(always)]
    fn read<S: NameSource>(parser: Parser<'a>, names: S) -> ParseResult<Self> {
        let mut parser = parser;
        // The error is returned from here: a `?` after `placed` would move the value and the error once more.
        let value = match parser.read_element::<A>() {
            Ok(value) => value,
            Err(error) => return Err(error.add_location(ParseLocation::Field(names.first()))),
        };
        finish(parser)?;
        Ok(Last { value })
    }
}

impl<A: Asn1Type, R: Row> Row for Field<A, R> {
    ghost list = { first_field (λ x. x.value) A.der (λ x. x.rest) R.list };
}

impl<'a, A: Asn1Readable<'a>, R: RowReadable<'a>> RowReadable<'a> for Field<A, R> {
    ghost list = { first_field (λ row. row.value) A.der (λ row. row.rest) R.list };

    #[inline(always)]
    fn read<S: NameSource>(parser: Parser<'a>, names: S) -> ParseResult<Self> {
        let mut parser = parser;
        let value = match parser.read_element::<A>() {
            Ok(value) => value,
            Err(error) => return Err(error.add_location(ParseLocation::Field(names.first()))),
        };
        let rest = R::read(parser, names.others())?;
        Ok(Field { value, rest })
    }
}
