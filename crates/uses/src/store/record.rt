//! The records of a store.
// Printed by tools/derive from declarations/store/record.rs, with the sum 9d864074.

ghost use Rattle.std.specs.Prelude.{◌≡◌, ◌∷◌, [], IsTrue};
ghost use Rattle.asn1.specs.Options.{option_meaning};
ghost use Rattle.asn1.specs.Reads.{HasOneEncoding, ReadsContents};
ghost use Rattle.asn1.specs.Structures.{field_names, implicit, structure, fields3};

use asn1::fields::{Fields3, Row};
use asn1::{
    Asn1Type, Implicit, ParseResult, SequenceOf, SimpleAsn1Readable, SimpleAsn1Writable, Tag,
    Utf8String, WriteBuf, WriteError, WriteResult, fields_length, known_fields, read_fields,
    write_fields,
};
use std::alloc::Global;

/// A record: a number, a name, and a note if there is one.
#[derive(Debug, Clone, Copy, PartialEq, Eq)]
pub struct Record<'a> {
    /// The number.
    pub number: u64,
    /// The name.
    pub name: Utf8String<'a>,
    /// The note.
    pub note: Option<Utf8String<'a>>,
}

type RecordNoteField<'a> = Option<Implicit<Utf8String<'a>, 0>>;

type RecordFields<'a> = Fields3<u64, Utf8String<'a>, RecordNoteField<'a>>;

impl<'a> Asn1Type for Record<'a> {
    ghost der = { structure (λ v. fields3 v.number v.name (option_meaning implicit v.note))
        ⟦<RecordFields<'a> as Row>⟧.list (field_names "Record" ("number" ∷ "name" ∷ "note" ∷ [])) };

    fn known(&self) {
        known_fields!(self; number, name, note: RecordNoteField<'a>)
    }
}

impl<'a> SimpleAsn1Readable<'a> for Record<'a> {
    fn tag() -> Tag
        ensures value { result ≡ ⟦<Record<'a> as Asn1Type>⟧.der.content.tag }
        ensures simple { ⟦<Record<'a> as Asn1Type>⟧.der.is_simple }
        ensures plain { ⟦<Record<'a> as Asn1Type>⟧.der.plain }
        ensures read { ⟦<Record<'a> as Asn1Type>⟧.der.is_read }
    {
        Tag::constructed(0x10)
    }

    fn parse_data(alloc: Global, data: &'a [u8]) -> ParseResult<Record<'a>>
        ensures { ReadsContents ⟦<Record<'a> as Asn1Type>⟧.der «data».entry.now result }
    {
        read_fields!(RecordFields<'a>, alloc, data => Record;
            number, name, note: RecordNoteField<'a>)
    }
}

impl<'a> SimpleAsn1Writable for Record<'a> {
    type Error = WriteError;

    ghost length_known = { λ _. Unit {0} };

    fn tag() -> Tag
        ensures value { result ≡ ⟦<Record<'a> as Asn1Type>⟧.der.content.tag }
        ensures simple { ⟦<Record<'a> as Asn1Type>⟧.der.is_simple }
    {
        Tag::constructed(0x10)
    }

    fn write_data(&self, dest: &mut WriteBuf) -> WriteResult<()> {
        write_fields!(self, dest; number, name, note: RecordNoteField<'a>)
    }

    fn data_length(&self) -> Option<usize> {
        fields_length!(self; number, name, note: RecordNoteField<'a>)
    }

    fn writes_as_read() -> bool
        ensures { IsTrue result }
    {
        true
    }
}

/// The records of a store, in their order.
pub type Records<'a> = SequenceOf<'a, Record<'a>, 0, { usize::MAX }>;

/// The laws of the types, which do nothing.
pub mod laws {
    use super::{Record, Records};
    use asn1::Asn1Type;

    /// Each value of `Record` has one encoding, which is read back.
    pub fn record_is_lawful()
        ensures { HasOneEncoding ⟦<Record<'static> as Asn1Type>⟧.der }
    {}

    /// Each value of `Records` has one encoding, which is read back.
    pub fn records_is_lawful()
        ensures { HasOneEncoding ⟦<Records<'static> as Asn1Type>⟧.der }
    {
        record_is_lawful();
    }
}
