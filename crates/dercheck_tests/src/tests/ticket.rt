//! A structure of a user's own, and its test, in one file.

ghost use Rattle.std.specs.Prelude.{◌≡◌, ◌∷◌, []};
ghost use Rattle.asn1.specs.Reads.{HasOneEncoding, ReadsContents};
ghost use Rattle.asn1.specs.Structures.{field_names, structure, fields3};

use asn1::fields::{Fields3, Row};
use asn1::{
    Asn1Type, ParseResult, SimpleAsn1Readable, SimpleAsn1Writable, Tag, Utf8String, WriteBuf,
    WriteError, WriteResult, fields_length, known_fields, read_fields, write_fields,
};
use std::alloc::Global;
use std::test::Fail;
use testing::both_ways;

/// A number, whether it is paid, which may be missing, and whose it is.
#[derive(PartialEq, Drop)]
pub struct Ticket<'a> {
    pub number: u64,
    pub paid: Option<bool>,
    pub holder: Utf8String<'a>,
}

type Fields<'a> = Fields3<u64, Option<bool>, Utf8String<'a>>;

impl<'a> Asn1Type for Ticket<'a> {
    ghost der = { structure (λ v. fields3 v.number v.paid v.holder) ⟦<Fields<'a> as Row>⟧.list
        (field_names "Ticket" ("number" ∷ "paid" ∷ "holder" ∷ [])) };

    fn known(&self) {
        known_fields!(self; number, paid, holder)
    }
}

impl<'a> SimpleAsn1Readable<'a> for Ticket<'a> {
    fn tag() -> Tag
        ensures value { result ≡ ⟦<Ticket<'a> as Asn1Type>⟧.der.content.tag }
        ensures simple { ⟦<Ticket<'a> as Asn1Type>⟧.der.is_simple }
        ensures plain { ⟦<Ticket<'a> as Asn1Type>⟧.der.plain }
        ensures read { ⟦<Ticket<'a> as Asn1Type>⟧.der.is_read }
    {
        Tag::constructed(0x10)
    }

    fn parse_data(alloc: Global, data: &'a [u8]) -> ParseResult<Ticket<'a>>
        ensures { ReadsContents ⟦<Ticket<'a> as Asn1Type>⟧.der «data».entry.now result }
    {
        read_fields!(Fields<'a>, alloc, data => Ticket; number, paid, holder)
    }
}

impl<'a> SimpleAsn1Writable for Ticket<'a> {
    type Error = WriteError;

    fn tag() -> Tag
        ensures value { result ≡ ⟦<Ticket<'a> as Asn1Type>⟧.der.content.tag }
        ensures simple { ⟦<Ticket<'a> as Asn1Type>⟧.der.is_simple }
    {
        Tag::constructed(0x10)
    }

    fn write_data(&self, dest: &mut WriteBuf) -> WriteResult<()> {
        write_fields!(self, dest; number, paid, holder)
    }

    fn data_length(&self) -> Option<usize> {
        fields_length!(self; number, paid, holder)
    }
}

/// Each ticket has one encoding, which is read back.
pub fn tickets_are_lawful()
    ensures { HasOneEncoding ⟦<Ticket<'static> as Asn1Type>⟧.der }
{}

#[test]
fn tickets(rt: HostRuntime) -> Result<(), Fail> {
    let octets = &[
        0x30, 12, 2, 1, 7, 1, 1, 0xff, 0x0c, 4, b'A', b'n', b'n', b'a',
    ];
    let ticket = Ticket {
        number: 7,
        paid: Some(true),
        holder: Utf8String::new("Anna"),
    };
    both_ways(rt.alloc(), ticket, octets)
}
