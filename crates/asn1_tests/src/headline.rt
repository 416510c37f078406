//! The headline of a type six deep, and of a structure that holds a set of structures.

ghost use Rattle.std.specs.Prelude.{◌≡◌, ◌↔◌, ◌∷◌, [], IsOk, IfOk, map};
ghost use Rattle.asn1.specs.Listing.{SameEncodings};
ghost use Rattle.asn1.specs.Reads.{HasOneEncoding, ReadsContents};
ghost use Rattle.asn1.specs.Structures.{field_names, structure, fields2};
ghost use Rattle.asn1.specs.Headline.{Encodes};

use asn1::fields::{Fields2, Row};
use asn1::headline::{
    cuts_off_the_element, first_result_stands, reads_the_one_encoding, sets_tell_multisets,
    writes_the_one_encoding,
};
use asn1::{
    Asn1Type, Choice2, Explicit, Implicit, OctetStringEncoded, ParseErrorKind, ParseResult,
    SequenceOf, SetOf, SimpleAsn1Readable, SimpleAsn1Writable, Tag, WriteBuf, WriteError,
    WriteResult, fields_length, known_fields, read_fields, write_fields,
};
use std::alloc::Global;
use std::test::Fail;
use testing::{kind_of, same};

/// A set of numbers in an octet string, under an implicit tag.
type InOctets<'a> = Implicit<OctetStringEncoded<SetOf<'a, u64>>, 1>;

/// A list of these, or a Boolean, or nothing, under an explicit tag.
type SixDeep<'a> = Explicit<Option<Choice2<SequenceOf<'a, InOctets<'a>, 0, 5>, bool>>, 7>;

/// Each value of the type has one encoding, which is read back.
pub fn six_deep_is_lawful()
    ensures { HasOneEncoding ⟦<SixDeep<'static> as Asn1Type>⟧.der }
{}

/// The type is read exactly from the encodings of its values.
fn read_six_deep<'a>(alloc: Global, data: &'a [u8]) -> ParseResult<SixDeep<'a>>
    ensures { IsOk result ↔ ((m : ⟦<SixDeep<'a> as Asn1Type>⟧.der.Meaning)
        × Encodes ⟦<SixDeep<'a> as Asn1Type>⟧.der m «data».entry.now) }
{
    reads_the_one_encoding::<SixDeep<'a>>(alloc, data)
}

/// A value of the type is written as its one encoding.
fn write_six_deep(alloc: Global, value: &SixDeep<'_>) -> Result<Vec<u8>, WriteError>
    ensures { IfOk result (λ octets. octets.items ≡ ⟦<SixDeep<'static> as Asn1Type>⟧.der.encoding
        (⟦<SixDeep<'static> as Asn1Type>⟧.der.meaning value.now)) }
{
    writes_the_one_encoding(alloc, value)
}

/// Two numbers in a sequence.
#[derive(Debug, Clone, PartialEq, Eq, Hash, Drop)]
pub struct Pair {
    pub r: u64,
    pub s: u64,
}

type PairFields = Fields2<u64, u64>;

impl Asn1Type for Pair {
    ghost der = { structure (λ v. fields2 v.r v.s) ⟦<PairFields as Row>⟧.list
        (field_names "Pair" ("r" ∷ "s" ∷ [])) };

    fn known(&self) {
        known_fields!(self; r, s)
    }
}

impl<'a> SimpleAsn1Readable<'a> for Pair {
    fn tag() -> Tag {
        Tag::constructed(0x10)
    }

    fn parse_data(alloc: Global, data: &'a [u8]) -> ParseResult<Pair> {
        read_fields!(PairFields, alloc, data => Pair; r, s)
    }
}

impl SimpleAsn1Writable for Pair {
    type Error = WriteError;

    fn tag() -> Tag {
        Tag::constructed(0x10)
    }

    fn write_data(&self, dest: &mut WriteBuf) -> WriteResult<()> {
        write_fields!(self, dest; r, s)
    }

    fn data_length(&self) -> Option<usize> {
        fields_length!(self; r, s)
    }
}

type HolderFields<'a> = Fields2<bool, SetOf<'a, Pair>>;

/// A mark, and a set of pairs.
#[derive(Debug, Clone, PartialEq, Eq, Hash, Drop)]
pub struct Holder<'a> {
    pub mark: bool,
    pub pairs: SetOf<'a, Pair>,
}

impl<'a> Asn1Type for Holder<'a> {
    ghost der = { structure (λ v. fields2 v.mark v.pairs) ⟦<HolderFields<'a> as Row>⟧.list
        (field_names "Holder" ("mark" ∷ "pairs" ∷ [])) };

    fn known(&self) {
        known_fields!(self; mark, pairs)
    }
}

impl<'a> SimpleAsn1Readable<'a> for Holder<'a> {
    fn tag() -> Tag
        ensures value { result ≡ ⟦<Holder<'a> as Asn1Type>⟧.der.content.tag }
        ensures simple { ⟦<Holder<'a> as Asn1Type>⟧.der.is_simple }
        ensures plain { ⟦<Holder<'a> as Asn1Type>⟧.der.plain }
        ensures read { ⟦<Holder<'a> as Asn1Type>⟧.der.is_read }
    {
        Tag::constructed(0x10)
    }

    fn parse_data(alloc: Global, data: &'a [u8]) -> ParseResult<Holder<'a>>
        ensures { ReadsContents ⟦<Holder<'a> as Asn1Type>⟧.der «data».entry.now result }
    {
        read_fields!(HolderFields<'a>, alloc, data => Holder; mark, pairs)
    }
}

/// Each value of the structure has one encoding, which is read back.
pub fn holder_is_lawful()
    ensures { HasOneEncoding ⟦<Holder<'static> as Asn1Type>⟧.der }
{}

/// The structure is read exactly from the encodings of its values.
fn read_holder<'a>(alloc: Global, data: &'a [u8]) -> ParseResult<Holder<'a>>
    ensures { IsOk result ↔ ((m : ⟦<Holder<'a> as Asn1Type>⟧.der.Meaning)
        × Encodes ⟦<Holder<'a> as Asn1Type>⟧.der m «data».entry.now) }
{
    reads_the_one_encoding::<Holder<'a>>(alloc, data)
}

/// Two sets of structures are written as equal octets exactly if the encodings of their items are the same, each as
/// often.
fn sets_of_pairs<'a>(
    alloc: Global,
    items: &'a [Pair],
    others: &'a [Pair],
) -> Result<(Vec<u8>, Vec<u8>), WriteError>
    ensures { IfOk result (λ both. (both.0.items ≡ both.1.items) ↔ SameEncodings
        (map (λ v. ⟦<Pair as Asn1Type>⟧.der.encoding (⟦<Pair as Asn1Type>⟧.der.meaning v))
        items.entry.now)
        (map (λ v. ⟦<Pair as Asn1Type>⟧.der.encoding (⟦<Pair as Asn1Type>⟧.der.meaning v))
        others.entry.now)) }
{
    sets_tell_multisets(alloc, items, others)
}

/// The numbers 5 and 7 as a set, in an octet string, in a list, under the outer tag.
const FIVE_AND_SEVEN: &[u8] = &[
    0xa7, 0x0c, 0x30, 0x0a, 0x81, 0x08, 0x31, 0x06, 0x02, 0x01, 0x05, 0x02, 0x01, 0x07,
];

/// The octets are read as a value six deep, and written again as they were.
fn is_six_deep(alloc: Global, octets: &[u8]) -> Result<(), Fail> {
    let value = read_six_deep(alloc, octets)?;
    same(write_six_deep(alloc, &value)?.as_slice(), octets)
}

#[test]
fn values_six_deep(rt: HostRuntime) -> Result<(), Fail> {
    let alloc = rt.alloc();
    is_six_deep(alloc, FIVE_AND_SEVEN)?;
    is_six_deep(alloc, &[0xa7, 0])?;
    is_six_deep(alloc, &[0xa7, 3, 1, 1, 0xff])?;
    let answer = read_six_deep(alloc, &[0xa7, 0, 1]);
    same(kind_of(answer), Some(ParseErrorKind::ExtraData))
}

#[test]
fn a_set_in_a_structure(rt: HostRuntime) -> Result<(), Fail> {
    let octets = &[
        0x30, 0x15, 1, 1, 0xff, 0x31, 0x10, 0x30, 6, 2, 1, 5, 2, 1, 7, 0x30, 6, 2, 1, 7, 2, 1, 5,
    ];
    let mut holder = read_holder(rt.alloc(), octets)?;
    let pair = holder.pairs.next().transpose()?;
    assert!(rt; holder.mark && pair == Some(Pair { r: 5, s: 7 }));
    Ok(())
}

#[test]
fn sets_without_items(rt: HostRuntime) -> Result<(), Fail> {
    let (octets, others_octets) = sets_of_pairs(rt.alloc(), &[], &[])?;
    same(
        (octets.as_slice(), others_octets.as_slice()),
        (&[0x31, 0], &[0x31, 0]),
    )
}

#[test]
fn each_set_in_its_place(rt: HostRuntime) -> Result<(), Fail> {
    let (octets, others_octets) = sets_tell_multisets(rt.alloc(), &[true], &[])?;
    same(
        (octets.as_slice(), others_octets.as_slice()),
        (&[0x31, 3, 1, 1, 0xff], &[0x31, 0]),
    )
}

#[test]
fn an_element_is_cut_off() -> Result<(), Fail> {
    let (tlv, rest) = cuts_off_the_element(&[5, 0, 1])?;
    same((tlv.full_data(), rest), (&[5, 0], &[1]))
}

#[test]
fn a_first_result_stands() -> Result<(), Fail> {
    let octets = [5u8, 0, 1];
    let (first, second) = first_result_stands(&octets[..2], &octets);
    let (_, nothing) = first?;
    let (_, rest) = second?;
    same((nothing, rest), (&[], &[1]))
}
