//! A structure of two fields that may be missing, each under a tag of its own.

ghost use Rattle.std.specs.Prelude.{◌≡◌, ◌∷◌, []};
ghost use Rattle.asn1.specs.Options.{option_meaning};
ghost use Rattle.asn1.specs.Reads.{ReadsContents};
ghost use Rattle.asn1.specs.Structures.{explicit, field_names, implicit, structure, fields2};

use asn1::fields::{Fields2, Row};
use asn1::{
    Asn1Type, Explicit, Implicit, ParseResult, SimpleAsn1Readable, SimpleAsn1Writable, Tag,
    WriteBuf, WriteError, WriteResult, fields_length, known_fields, read_fields, write_fields,
};
use std::alloc::Global;

/// Two fields in a sequence.
#[derive(Debug, Clone, PartialEq, Eq, Hash, Drop)]
pub struct SomeSequence<'a> {
    /// Octets under the implicit tag 0, which may be missing.
    pub a: Option<&'a [u8]>,
    /// A number under the explicit tag 1, which may be missing.
    pub b: Option<u64>,
}

type A<'a> = Option<Implicit<&'a [u8], 0>>;

type B = Option<Explicit<u64, 1>>;

type Fields<'a> = Fields2<A<'a>, B>;

impl<'a> Asn1Type for SomeSequence<'a> {
    ghost der = { structure (λ v. fields2 (option_meaning implicit v.a) (option_meaning explicit
        v.b)) ⟦<Fields<'a> as Row>⟧.list (field_names "SomeSequence" ("a" ∷ "b" ∷ [])) };

    fn known(&self) {
        known_fields!(self; a: A<'a>, b: B)
    }
}

impl<'a> SimpleAsn1Readable<'a> for SomeSequence<'a> {
    fn tag() -> Tag
        ensures value { result ≡ ⟦<SomeSequence<'a> as Asn1Type>⟧.der.content.tag }
        ensures simple { ⟦<SomeSequence<'a> as Asn1Type>⟧.der.is_simple }
        ensures plain { ⟦<SomeSequence<'a> as Asn1Type>⟧.der.plain }
        ensures read { ⟦<SomeSequence<'a> as Asn1Type>⟧.der.is_read }
    {
        Tag::constructed(0x10)
    }

    fn parse_data(alloc: Global, data: &'a [u8]) -> ParseResult<SomeSequence<'a>>
        ensures { ReadsContents ⟦<SomeSequence<'a> as Asn1Type>⟧.der «data».entry.now result }
    {
        read_fields!(Fields<'a>, alloc, data => SomeSequence; a: A<'a>, b: B)
    }
}

impl<'a> SimpleAsn1Writable for SomeSequence<'a> {
    type Error = WriteError;

    fn tag() -> Tag
        ensures value { result ≡ ⟦<SomeSequence<'a> as Asn1Type>⟧.der.content.tag }
        ensures simple { ⟦<SomeSequence<'a> as Asn1Type>⟧.der.is_simple }
    {
        Tag::constructed(0x10)
    }

    fn write_data(&self, dest: &mut WriteBuf) -> WriteResult<()> {
        write_fields!(self, dest; a: A<'a>, b: B)
    }

    fn data_length(&self) -> Option<usize> {
        fields_length!(self; a: A<'a>, b: B)
    }
}
