//! Spellings of Rust that the script reads: numbers, comments, attributes, lifetimes and visibility.
// Printed by tools/derive from declarations/spellings.rs, with the sum 21e80824.

ghost use Rattle.std.specs.Prelude.{◌≡◌, ◌∷◌, [], negsuc, IsTrue};
ghost use Rattle.asn1.specs.Options.{option_meaning};
ghost use Rattle.asn1.specs.Reads.{HasOneEncoding, ReadsContents};
ghost use Rattle.asn1.specs.Structures.{defaulted, explicit, field_names, implicit, structure, fields1, fields6};

use asn1::fields::{Fields6, Last, Row};
use asn1::{
    Asn1Type, DefaultValue, Defaulted, Explicit, IA5String, Implicit, ParseResult, SequenceOf,
    SimpleAsn1Readable, SimpleAsn1Writable, Tag, WriteBuf, WriteError, WriteResult, fields_length,
    known_fields, read_fields, write_fields,
};
use std::alloc::Global;

/// Fields in many spellings.
#[derive(Drop)]
pub(crate) struct Spelled<'b> {
    /// Sixteen octets.
    pub(crate) hash: [u8; 16],
    /// At least one number, and at most four.
    pub items: SequenceOf<'b, u8, 1, 4>,
    /// Any number of numbers, from two on.
    pub(in crate::spellings) more: Option<SequenceOf<'b, u8, 2, { usize::MAX }>>,
    /// The field.
    low: i8,
    /// The field.
    high: u8,
    /// The field.
    text: IA5String<'b>,
}

impl<'b> Spelled<'b> {
    /// The fields that have another name in ASN.1 than theirs with capitals, as errors name them, with that name.
    pub(crate) const NAMES: &'static [(&'static str, &'static str)] = &[(
        "Spelled::more",
        "any-number",
    )];
}

/// What `low` is if it is left out.
pub(crate) struct SpelledLow;

impl DefaultValue<Implicit<i8, 10>> for SpelledLow {
    ghost default = { record { inner = negsuc 127 } };

    fn value() -> Implicit<i8, 10> {
        Implicit::new(-128)
    }
}

/// What `high` is if it is left out.
pub(crate) struct SpelledHigh;

impl DefaultValue<Explicit<u8, 4>> for SpelledHigh {
    ghost default = { record { inner = 255 } };

    fn value() -> Explicit<u8, 4> {
        Explicit::new(255)
    }
}

type SpelledMoreField<'b> = Option<Implicit<SequenceOf<'b, u8, 2, { usize::MAX }>, 31>>;

type SpelledLowField = Defaulted<Implicit<i8, 10>, SpelledLow>;

type SpelledHighField = Defaulted<Explicit<u8, 4>, SpelledHigh>;

type SpelledFields<'b> = Fields6<
    [u8; 16],
    SequenceOf<'b, u8, 1, 4>,
    SpelledMoreField<'b>,
    SpelledLowField,
    SpelledHighField,
    IA5String<'b>,
>;

macro_rules! fields_of_spelled {
    ($body:ident, $($of:tt)*) => { $body!($($of)*;
        hash, items, more: SpelledMoreField<'b>, low: SpelledLowField, high: SpelledHighField,
        text) };
}

impl<'b> Asn1Type for Spelled<'b> {
    ghost der = { structure (λ v. fields6 v.hash v.items (option_meaning implicit v.more) (defaulted
        (implicit v.low)) (defaulted (explicit v.high)) v.text) ⟦<SpelledFields<'b> as Row>⟧.list
        (field_names "Spelled" ("hash" ∷ "items" ∷ "more" ∷ "low" ∷ "high" ∷ "text" ∷ [])) };

    fn known(&self) {
        fields_of_spelled!(known_fields, self)
    }
}

impl<'b> SimpleAsn1Readable<'b> for Spelled<'b> {
    fn tag() -> Tag
        ensures value { result ≡ ⟦<Spelled<'b> as Asn1Type>⟧.der.content.tag }
        ensures simple { ⟦<Spelled<'b> as Asn1Type>⟧.der.is_simple }
        ensures plain { ⟦<Spelled<'b> as Asn1Type>⟧.der.plain }
        ensures read { ⟦<Spelled<'b> as Asn1Type>⟧.der.is_read }
    {
        Tag::constructed(0x10)
    }

    fn parse_data(alloc: Global, data: &'b [u8]) -> ParseResult<Spelled<'b>>
        ensures { ReadsContents ⟦<Spelled<'b> as Asn1Type>⟧.der «data».entry.now result }
    {
        fields_of_spelled!(read_fields, SpelledFields<'b>, alloc, data => Spelled)
    }
}

impl<'b> SimpleAsn1Writable for Spelled<'b> {
    type Error = WriteError;

    ghost length_known = { λ _. Unit {0} };

    fn tag() -> Tag
        ensures value { result ≡ ⟦<Spelled<'b> as Asn1Type>⟧.der.content.tag }
        ensures simple { ⟦<Spelled<'b> as Asn1Type>⟧.der.is_simple }
    {
        Tag::constructed(0x10)
    }

    fn write_data(&self, dest: &mut WriteBuf) -> WriteResult<()> {
        fields_of_spelled!(write_fields, self, dest)
    }

    fn data_length(&self) -> Option<usize> {
        fields_of_spelled!(fields_length, self)
    }

    fn writes_as_read() -> bool
        ensures { IsTrue result }
    {
        true
    }
}

/// A number that is only read.
#[derive(Drop)]
pub struct Received {
    /// The field.
    pub number: u8,
}

type ReceivedFields = Last<u8>;

impl Asn1Type for Received {
    ghost der = { structure (λ v. fields1 v.number) ⟦<ReceivedFields as Row>⟧.list
        (field_names "Received" ("number" ∷ [])) };

    fn known(&self) {
        known_fields!(self; number)
    }
}

impl<'a> SimpleAsn1Readable<'a> for Received {
    fn tag() -> Tag {
        Tag::constructed(0x10)
    }

    fn parse_data(alloc: Global, data: &'a [u8]) -> ParseResult<Received> {
        read_fields!(ReceivedFields, alloc, data => Received; number)
    }
}

/// A number that is only written.
#[derive(Drop)]
pub struct Sent {
    /// The field.
    pub number: u8,
}

type SentFields = Last<u8>;

impl Asn1Type for Sent {
    ghost der = { structure (λ v. fields1 v.number) ⟦<SentFields as Row>⟧.list (field_names "Sent"
        ("number" ∷ [])) };

    fn known(&self) {
        known_fields!(self; number)
    }
}

impl SimpleAsn1Writable for Sent {
    type Error = WriteError;

    ghost length_known = { λ _. Unit {0} };

    fn tag() -> Tag {
        Tag::constructed(0x10)
    }

    fn write_data(&self, dest: &mut WriteBuf) -> WriteResult<()> {
        write_fields!(self, dest; number)
    }

    fn data_length(&self) -> Option<usize> {
        fields_length!(self; number)
    }
}

/// The laws of the types, which do nothing.
pub mod laws {
    use super::{Received, Spelled};
    use asn1::Asn1Type;

    /// Each value of `Spelled` has one encoding, which is read back.
    pub(crate) fn spelled_is_lawful()
        ensures { HasOneEncoding ⟦<Spelled<'static> as Asn1Type>⟧.der }
    {}

    /// Each value of `Received` has one encoding, which is read back.
    pub fn received_is_lawful()
        ensures { HasOneEncoding ⟦<Received as Asn1Type>⟧.der }
    {}
}
