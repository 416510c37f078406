//! Large values, and options under tags of large numbers: no contract says that there is memory to write these.

ghost use Rattle.std.specs.Prelude.{◌∷◌, []};
ghost use Rattle.asn1.specs.Der.{viewed};
ghost use Rattle.asn1.specs.Options.{option_meaning};
ghost use Rattle.asn1.specs.Structures.{explicit, field_names, fields2, implicit, structure};

use crate::lists::List;
use asn1::fields::{Fields2, Row};
use asn1::{
    Asn1Type, Asn1Writable, Explicit, Implicit, ParseResult, Sequence, SequenceOfWriter, Set,
    SetOf, SimpleAsn1Readable, SimpleAsn1Writable, Tag, WriteBuf, WriteError, WriteResult,
    fields_length, known_fields, read_and_write_back, read_fields, write_and_read_back,
    write_fields,
};
use std::alloc::Global;
use std::test::Fail;
use testing::{both_ways, is_written, is_written_back, repeated, same};

/// The list of the numbers is written as these octets.
fn is_list_of(alloc: Global, numbers: &[u8], octets: &[u8]) -> Result<(), Fail> {
    is_written(alloc, &SequenceOfWriter::new(numbers), octets)
}

/// 1001 items of 3 octets each.
#[test]
fn lists_and_sets_of_many_items(rt: HostRuntime) -> Result<(), Fail> {
    let alloc = rt.alloc();
    let list = repeated(alloc, &[0x30, 0x82, 0x0b, 0xbb], &[2, 1, 5], 1001)?;
    is_written_back::<List<'_, u8>>(alloc, list.as_slice())?;
    is_written_back::<Sequence<'_>>(alloc, list.as_slice())?;
    is_list_of(alloc, &[5; 1001], list.as_slice())?;
    let again = read_and_write_back::<List<'_, u8>>(alloc, list.as_slice())??;
    same(again.as_slice(), list.as_slice())?;
    let set = repeated(alloc, &[0x31, 0x82, 0x0b, 0xbb], &[2, 1, 5], 1001)?;
    is_written_back::<SetOf<'_, u8>>(alloc, set.as_slice())?;
    is_written_back::<Set<'_>>(alloc, set.as_slice())
}

/// A Boolean and octets under tags whose numbers have octets of their own (X.690 8.1.2.4). Either may be missing.
#[derive(PartialEq, Drop)]
pub struct HighTags {
    pub flag: Option<bool>,
    pub octets: Option<[u8; 1100]>,
}

type Flag = Option<Implicit<bool, 31>>;

type Octets = Option<Explicit<[u8; 1100], 128>>;

type HighTagsFields = Fields2<Flag, Octets>;

impl Asn1Type for HighTags {
    ghost der = { structure (λ v. fields2 (option_meaning implicit v.flag)
        (option_meaning explicit v.octets)) ⟦<HighTagsFields as Row>⟧.list
        (field_names "HighTags" ("flag" ∷ "octets" ∷ [])) };

    fn known(&self) {
        known_fields!(self; flag: Flag, octets: Octets)
    }
}

impl<'a> SimpleAsn1Readable<'a> for HighTags {
    fn tag() -> Tag {
        Tag::constructed(0x10)
    }

    fn parse_data(alloc: Global, data: &'a [u8]) -> ParseResult<HighTags> {
        read_fields!(HighTagsFields, alloc, data => HighTags; flag: Flag, octets: Octets)
    }
}

impl SimpleAsn1Writable for HighTags {
    type Error = WriteError;

    fn tag() -> Tag {
        Tag::constructed(0x10)
    }

    fn write_data(&self, dest: &mut WriteBuf) -> WriteResult<()> {
        write_fields!(self, dest; flag: Flag, octets: Octets)
    }

    fn data_length(&self) -> Option<usize> {
        fields_length!(self; flag: Flag, octets: Octets)
    }
}

/// The elements have 1 and 1104 contents octets.
#[test]
fn options_under_high_tags(rt: HostRuntime) -> Result<(), Fail> {
    let alloc = rt.alloc();
    let both = HighTags {
        flag: Some(true),
        octets: Some([0x61; 1100]),
    };
    let front: &[u8] = &[
        0x30, 0x82, 0x04, 0x5a, 0x9f, 0x1f, 1, 0xff, 0xbf, 0x81, 0x00, 0x82, 0x04, 0x50, 4, 0x82,
        0x04, 0x4c,
    ];
    let octets = repeated(alloc, front, &[0x61], 1100)?;
    both_ways(alloc, both, octets.as_slice())?;
    let neither = HighTags {
        flag: None,
        octets: None,
    };
    both_ways(alloc, neither, &[0x30, 0])
}

/// Octets whose number isn't told before they are written.
#[derive(Drop)]
pub struct Untold([u8; 1100]);

impl Asn1Type for Untold {
    ghost der = { viewed (λ v. v.0) ⟦<[u8; 1100] as Asn1Type>⟧.der };

    fn known(&self) {
        self.0.known()
    }
}

impl SimpleAsn1Writable for Untold {
    type Error = WriteError;

    fn tag() -> Tag {
        Tag::primitive(0x04)
    }

    fn write_data(&self, dest: &mut WriteBuf) -> WriteResult<()> {
        dest.push_slice(&self.0)
    }

    fn data_length(&self) -> Option<usize> {
        None
    }
}

/// Whether a scroll is sealed, and its text.
#[derive(Drop)]
pub struct Scroll {
    pub sealed: bool,
    pub text: Untold,
}

type ScrollFields = Fields2<bool, Untold>;

impl Asn1Type for Scroll {
    ghost der = { structure (λ v. fields2 v.sealed v.text) ⟦<ScrollFields as Row>⟧.list
        (field_names "Scroll" ("sealed" ∷ "text" ∷ [])) };

    fn known(&self) {
        known_fields!(self; sealed, text)
    }
}

impl SimpleAsn1Writable for Scroll {
    type Error = WriteError;

    fn tag() -> Tag {
        Tag::constructed(0x10)
    }

    fn write_data(&self, dest: &mut WriteBuf) -> WriteResult<()> {
        write_fields!(self, dest; sealed, text)
    }

    fn data_length(&self) -> Option<usize> {
        fields_length!(self; sealed, text)
    }
}

#[test]
fn a_last_field_of_unknown_length(rt: HostRuntime) -> Result<(), Fail> {
    let alloc = rt.alloc();
    let scroll = Scroll {
        sealed: true,
        text: Untold([0x61; 1100]),
    };
    same(scroll.encoded_length(), None)?;
    let front: &[u8] = &[0x30, 0x82, 0x04, 0x53, 1, 1, 0xff, 4, 0x82, 0x04, 0x4c];
    let octets = repeated(alloc, front, &[0x61], 1100)?;
    is_written(alloc, &scroll, octets.as_slice())
}

#[test]
fn a_large_value_is_read_back(rt: HostRuntime) -> Result<(), Fail> {
    let mut store = Vec::new(rt.alloc());
    let read = write_and_read_back(rt.alloc(), &[0x61u8; 1100], &mut store)??;
    same(&read, &[0x61; 1100])
}
