//! Sequences, and lists of items of one type.

ghost use Rattle.std.specs.Prelude.{◌≡◌, []};
ghost use Rattle.asn1.specs.Tag.{universal};
ghost use Rattle.asn1.specs.Buffer.{KeepsPrefix};
ghost use Rattle.asn1.specs.Writing.{IsWriter, buffer_name, octets_of};
ghost use Rattle.asn1.specs.Der.{simple_der};
ghost use Rattle.asn1.specs.SetWriting.{written};
ghost use Rattle.asn1.specs.LawsOf.Contents.{written_laws};
ghost use Rattle.asn1_tests.specs.declared.lists.Custom.TheVariants.{Memory, Refused};

use asn1::{
    Asn1Readable, Asn1Type, Asn1Writable, Choice2, ParseError, ParseErrorKind, ParseLocation,
    ParseResult, Parser, Sequence, SequenceOf, SequenceOfWriter, SequenceWriter, SetOf,
    SetOfWriter, SimpleAsn1Readable, SimpleAsn1Writable, Tag, WriteBuf, WriteError, WriteResult,
    Writer, parse_single, strip_tlv, write, write_single,
};
use std::alloc::Global;
use std::test::Fail;
use testing::{
    all_different, are_equal_or_not, error_of, hash_of, is_refusal, is_shown, is_written, same,
    same_at,
};

/// An error at the item of this index.
pub fn at(index: usize, kind: ParseErrorKind) -> ParseError {
    ParseError::new(kind).add_location(ParseLocation::Index(index))
}

/// The error of contents octets that encode no value, without a location.
pub fn invalid() -> ParseError {
    ParseError::new(ParseErrorKind::InvalidValue)
}

/// The error of an element with another tag, without a location.
pub fn other_tag(actual: Tag) -> ParseError {
    ParseError::new(ParseErrorKind::UnexpectedTag { actual })
}

/// The octets are rejected as the type, with this error and its locations.
pub fn is_refused<'a, T: Asn1Readable<'a>>(
    alloc: Global,
    octets: &'a [u8],
    error: ParseError,
) -> Result<(), Fail> {
    same_at(
        octets,
        &error_of(parse_single::<T>(alloc, octets)),
        &Some(error),
    )
}

/// A list of any number of items.
pub type List<'a, T> = SequenceOf<'a, T, 0, { usize::MAX }>;

const FIVE_AND_SEVEN: &[u8] = &[0x30, 0x06, 0x02, 0x01, 0x05, 0x02, 0x01, 0x07];

const ONE_TO_THREE: &[u8] = &[
    0x30, 0x09, 0x02, 0x01, 0x01, 0x02, 0x01, 0x02, 0x02, 0x01, 0x03,
];

#[test]
fn sequences_read_by_the_caller(rt: HostRuntime) -> Result<(), Fail> {
    let alloc = rt.alloc();
    let octets: &[u8] = &[0x30, 0x06, 0x01, 0x01, 0xff, 0x02, 0x01, 0x06];
    let sequence = parse_single::<Sequence<'_>>(alloc, octets)?;
    is_written(alloc, &sequence, octets)?;
    let parts = sequence.parse(
        alloc,
        |parser: &mut Parser<'_>| -> ParseResult<(bool, u8)> {
            Ok((parser.read_element::<bool>()?, parser.read_element::<u8>()?))
        },
    );
    same(&parts, &Ok((true, 6)))?;
    let first = sequence.parse(
        alloc,
        |parser: &mut Parser<'_>| parser.read_element::<bool>(),
    );
    is_refusal(first, ParseErrorKind::ExtraData)
}

#[test]
fn equal_sequences(rt: HostRuntime) -> Result<(), Fail> {
    let alloc = rt.alloc();
    let none = parse_single::<Sequence<'_>>(alloc, &[0x30, 0x00])?;
    let other = parse_single::<Sequence<'_>>(alloc, &[0x30, 0x02, 0x05, 0x00])?;
    assert!(rt; none == none.clone()? && none != other);
    assert!(rt; hash_of(&none) != hash_of(&other));
    is_shown(alloc, &none, "Sequence { data: [] }")
}

#[test]
fn lists_have_the_items_left(rt: HostRuntime) -> Result<(), Fail> {
    let mut list = parse_single::<SequenceOf<'_, u64, 2, 3>>(rt.alloc(), FIVE_AND_SEVEN)?;
    assert!(rt; list.len() == 2 && !list.is_empty());
    same(list.next().transpose()?, Some(5))?;
    same(list.next().transpose()?, Some(7))?;
    assert!(rt; list.next().is_none() && list.is_empty());
    Ok(())
}

#[test]
fn items_left_are_written(rt: HostRuntime) -> Result<(), Fail> {
    let alloc = rt.alloc();
    let mut list = parse_single::<SequenceOf<'_, u64, 2, 3>>(alloc, FIVE_AND_SEVEN)?;
    let whole = list.clone()?;
    assert!(rt; matches!(list.next(), Some(Ok(5))) && whole != list);
    is_written(alloc, &list, &[0x30, 0x03, 0x02, 0x01, 0x07])?;
    is_written(alloc, &whole, FIVE_AND_SEVEN)
}

/// The items of a list are taken in turn, until none remains.
#[test]
fn items_of_lists_are_taken(rt: HostRuntime) -> Result<(), Fail> {
    let mut list = parse_single::<List<'_, u64>>(rt.alloc(), FIVE_AND_SEVEN)?;
    same(list.take_next()?, Some(5))?;
    same(list.take_next()?, Some(7))?;
    same(list.take_next()?, None)
}

/// The items that are left of a list are counted, and taken all at once.
#[test]
fn items_left_are_taken_at_once(rt: HostRuntime) -> Result<(), Fail> {
    let mut list = parse_single::<List<'_, u64>>(rt.alloc(), FIVE_AND_SEVEN)?;
    same(list.to_vec()?.as_slice(), [5, 7].as_slice())?;
    same(list.clone()?.count(), 2)?;
    same(list.take_next()?, Some(5))?;
    same(list.to_vec()?.as_slice(), [7].as_slice())?;
    same(list.count(), 1)
}

#[test]
fn lists_are_made_of_items(rt: HostRuntime) -> Result<(), Fail> {
    let alloc = rt.alloc();
    let mut store = Vec::new(alloc);
    let list = SequenceOf::<'_, u64, 2, 3>::of(alloc, &[5, 7], &mut store)??;
    is_written(alloc, &list, FIVE_AND_SEVEN)?;
    let read = parse_single::<SequenceOf<'_, u64, 2, 3>>(alloc, FIVE_AND_SEVEN)?;
    assert!(rt; list == read && list.len() == 2);
    let few = SequenceOf::<'_, u64, 2, 3>::of(alloc, &[5], &mut store)?;
    is_refusal(
        few,
        ParseErrorKind::InvalidSize {
            min: 2,
            max: 3,
            actual: 1,
        },
    )
}

/// These items remain: 2 and 3.
fn two_and_three_are_left(list: &mut List<'_, u64>) -> Result<(), Fail> {
    same(list.next().transpose()?, Some(2))?;
    same(list.next().transpose()?, Some(3))?;
    same(list.next().transpose()?, None)
}

#[test]
fn copies_of_lists(rt: HostRuntime) -> Result<(), Fail> {
    let mut list = parse_single::<List<'_, u64>>(rt.alloc(), ONE_TO_THREE)?;
    assert!(rt; matches!(list.next(), Some(Ok(1))));
    let mut copy = list.clone()?;
    two_and_three_are_left(&mut list)?;
    two_and_three_are_left(&mut copy)
}

#[test]
fn copies_keep_their_count(rt: HostRuntime) -> Result<(), Fail> {
    let mut list = parse_single::<List<'_, u64>>(rt.alloc(), ONE_TO_THREE)?;
    let whole = list.clone()?;
    assert!(rt; list.len() == 3 && matches!(list.next(), Some(Ok(1))));
    assert!(rt; list.len() == 2 && whole.len() == 3);
    two_and_three_are_left(&mut list)?;
    assert!(rt; list.len() == 0 && list.is_empty() && list.next().is_none());
    assert!(rt; whole.len() == 3 && !whole.is_empty());
    Ok(())
}

#[test]
fn equal_lists(rt: HostRuntime) -> Result<(), Fail> {
    are_equal_or_not::<List<'_, bool>>(
        rt.alloc(),
        &[
            (&[0x30, 0], &[0x30, 0], true),
            (&[0x30, 0], &[0x30, 3, 1, 1, 0], false),
            (&[0x30, 3, 1, 1, 0], &[0x30, 3, 1, 1, 0xff], false),
        ],
    )?;
    let no = parse_single::<List<'_, bool>>(rt.alloc(), &[0x30, 3, 1, 1, 0])?;
    assert!(rt; no == no.clone()?);
    Ok(())
}

/// The error of a list of so many items, with these bounds.
fn wrong_count(min: usize, max: usize, actual: usize) -> ParseError {
    ParseError::new(ParseErrorKind::InvalidSize { min, max, actual })
}

#[test]
fn faults_of_lists(rt: HostRuntime) -> Result<(), Fail> {
    let alloc = rt.alloc();
    is_refused::<SequenceOf<'_, u64, 2, 3>>(alloc, &[0x30, 3, 2, 1, 5], wrong_count(2, 3, 1))?;
    is_refused::<SequenceOf<'_, u64, 2, 3>>(alloc, &[0x30, 3, 2, 1, 7], wrong_count(2, 3, 1))?;
    is_refused::<SequenceOf<'_, u64, 0, 1>>(alloc, FIVE_AND_SEVEN, wrong_count(0, 1, 2))?;
    // The error of an item comes before that of a wrong count.
    is_refused::<SequenceOf<'_, u64, 0, 1>>(
        alloc,
        &[0x30, 6, 2, 1, 5, 2, 1, 0xff],
        at(1, ParseErrorKind::InvalidValue),
    )?;
    is_refused::<List<'_, SequenceOf<'_, u64, 2, 3>>>(
        alloc,
        &[0x30, 5, 0x30, 3, 2, 1, 5],
        wrong_count(2, 3, 1).add_location(ParseLocation::Index(0)),
    )
}

#[test]
fn lists_of_options(rt: HostRuntime) -> Result<(), Fail> {
    let alloc = rt.alloc();
    let other: &[u8] = &[0x30, 0x03, 0x01, 0x01, 0xff];
    is_refused::<List<'_, Option<u8>>>(alloc, other, at(0, ParseErrorKind::ExtraData))?;
    let octets: &[u8] = &[0x30, 0x03, 0x02, 0x01, 0x05];
    let mut list = parse_single::<List<'_, Option<u8>>>(alloc, octets)?;
    is_written(alloc, &list, octets)?;
    assert!(rt; list.len() == 1);
    same(list.next().transpose()?, Some(Some(5)))?;
    same(list.next().transpose()?, None)
}

#[test]
fn lists_of_choices(rt: HostRuntime) -> Result<(), Fail> {
    let octets: &[u8] = &[0x30, 0x06, 0x01, 0x01, 0xff, 0x02, 0x01, 0x05];
    let mut list = parse_single::<List<'_, Choice2<bool, i64>>>(rt.alloc(), octets)?;
    assert!(rt; list.len() == 2);
    same(list.next().transpose()?, Some(Choice2::ChoiceA(true)))?;
    same(list.next().transpose()?, Some(Choice2::ChoiceB(5)))?;
    same(list.next().transpose()?, None)
}

/// The next item, and how many items then remain.
fn next_boxed(list: &mut List<'_, Box<u8>>) -> Result<(Option<u8>, usize), ParseError> {
    match list.next() {
        Some(item) => Ok((Some(*item?), list.len())),
        None => Ok((None, list.len())),
    }
}

#[test]
fn lists_whose_items_take_memory(rt: HostRuntime) -> Result<(), Fail> {
    let mut list = parse_single::<List<'_, Box<u8>>>(rt.alloc(), ONE_TO_THREE)?;
    is_written(rt.alloc(), &list, ONE_TO_THREE)?;
    let length = list.data_length().ok_or(WriteError::AllocationError)?;
    same(length, 9)?;
    for left in &[(Some(1), 2), (Some(2), 1), (Some(3), 0), (None, 0)] {
        same(next_boxed(&mut list)?, *left)?;
    }
    Ok(())
}

#[test]
fn lists_of_a_slice(rt: HostRuntime) -> Result<(), Fail> {
    let alloc = rt.alloc();
    let items = [1u8, 2, 3];
    let list = SequenceOfWriter::new(&items);
    is_written(alloc, &list, ONE_TO_THREE)?;
    is_written(alloc, &SequenceOfWriter::new(&items[..0]), &[0x30, 0x00])?;
    same(SequenceOfWriter::new(&items[..2]).data_length(), Some(6))?;
    assert!(rt; list.clone()? == list && list != SequenceOfWriter::new(&items[1..]));
    Ok(())
}

/// Each of these has two items, whose encodings have three octets.
#[test]
fn unequal_lists_of_as_many_items() -> Result<(), Fail> {
    all_different(&[
        (
            SequenceOfWriter::new(&[1u8, 2]),
            SequenceOfWriter::new(&[1, 3]),
        ),
        (
            SequenceOfWriter::new(&[1u8, 2]),
            SequenceOfWriter::new(&[3, 2]),
        ),
        (
            SequenceOfWriter::new(&[1u8, 2]),
            SequenceOfWriter::new(&[2, 1]),
        ),
    ])
}

/// A list of one sequence that the closure writes is written as these octets, and its length isn't known before. A list
/// of none is empty.
fn are_lists_of<F: Fn(&mut Writer<'_>) -> WriteResult<()>>(
    alloc: Global,
    closure: &F,
    octets: &[u8],
) -> Result<(), Fail>
    requires { IsWriter F.FnOnce closure.now }
{
    let sequences = [SequenceWriter::new(closure)];
    is_written(alloc, &SequenceOfWriter::new(&sequences[..0]), &[0x30, 0])?;
    let one = SequenceOfWriter::new(&sequences);
    same(one.data_length(), None)?;
    is_written(alloc, &one, octets)
}

#[test]
fn lists_of_closures(rt: HostRuntime) -> Result<(), Fail> {
    let nothing = |_writer: &mut Writer<'_>| -> WriteResult<()> { Ok(()) };
    are_lists_of(rt.alloc(), &nothing, &[0x30, 2, 0x30, 0])?;
    let number = |writer: &mut Writer<'_>| -> WriteResult<()> { writer.write_element(&1u64) };
    are_lists_of(rt.alloc(), &number, &[0x30, 5, 0x30, 3, 2, 1, 1])
}

#[test]
fn sequences_of_a_closure(rt: HostRuntime) -> Result<(), Fail> {
    let alloc = rt.alloc();
    same(sequence_around(alloc, &())?.as_slice(), &[0x30, 2, 5, 0])?;
    same(
        sequence_around(alloc, &true)?.as_slice(),
        &[0x30, 3, 1, 1, 0xff],
    )
}

/// A sequence of this value, by a closure.
fn sequence_around<T: Asn1Writable<Error = WriteError>>(
    alloc: Global,
    value: &T,
) -> WriteResult<Vec<u8>>
    requires { T.der.closures (T.der.meaning value.now) }
{
    let inner = |writer: &mut Writer<'_>| -> WriteResult<()>
        requires { T.der.closures (T.der.meaning value.now) }
    { writer.write_element(value) };
    write_single(alloc, &SequenceWriter::new(&inner))
}

/// A sequence of one octet string in another, by two closures.
fn two_sequences_around(alloc: Global, octets: &[u8]) -> WriteResult<Vec<u8>> {
    let inner = |writer: &mut Writer<'_>| -> WriteResult<()> { writer.write_element(&octets) };
    sequence_around(alloc, &SequenceWriter::new(&inner))
}

const LETTERS: [u8; 65532] = [0x61; 65532];

/// A sequence of one octet string, with these headers, is written three times: its length is patched for a closure
/// and for a slice's writer, and announced for an element as it is encoded.
fn compare_patched(
    alloc: Global,
    octets: &[u8],
    header: &[u8],
    inner_header: &[u8],
) -> Result<(), Fail> {
    let patched = sequence_around(alloc, &octets)?;
    let text = patched.as_slice();
    let (tlv, _rest) = strip_tlv(text)?;
    same(
        (
            text.starts_with(header),
            tlv.data().starts_with(inner_header),
        ),
        (true, true),
    )?;
    is_written(alloc, &SequenceOfWriter::new(&[octets]), text)?;
    is_written(alloc, &tlv, text)?;
    same(parse_single::<&[u8]>(alloc, tlv.data())?, octets)
}

/// How many letters there are, and the headers of the sequence and of the octet string.
const PATCHED: &[(usize, &[u8], &[u8])] = &[
    (125, &[0x30, 0x7f], &[0x04, 0x7d]),
    (126, &[0x30, 0x81, 0x80], &[0x04, 0x7e]),
    (129, &[0x30, 0x81, 0x84], &[0x04, 0x81, 0x81]),
    (252, &[0x30, 0x81, 0xff], &[0x04, 0x81, 0xfc]),
    (253, &[0x30, 0x82, 0x01, 0x00], &[0x04, 0x81, 0xfd]),
    (65531, &[0x30, 0x82, 0xff, 0xff], &[0x04, 0x82, 0xff, 0xfb]),
    (
        65532,
        &[0x30, 0x83, 0x01, 0x00, 0x00],
        &[0x04, 0x82, 0xff, 0xfc],
    ),
];

#[test]
fn patched_lengths(rt: HostRuntime) -> Result<(), Fail> {
    for (count, header, inner_header) in PATCHED {
        let octets = LETTERS.get(..*count).ok_or("too few letters")?;
        compare_patched(rt.alloc(), octets, header, inner_header)?;
    }
    Ok(())
}

/// The two sequences around an octet string begin with these headers.
fn compare_patched_twice(alloc: Global, octets: &[u8], headers: &[u8]) -> Result<(), Fail> {
    let outer = two_sequences_around(alloc, octets)?;
    let text = outer.as_slice();
    let (tlv, _rest) = strip_tlv(text)?;
    same(text.starts_with(headers), true)?;
    same(tlv.data(), sequence_around(alloc, &octets)?.as_slice())
}

#[test]
fn patched_lengths_in_one_another(rt: HostRuntime) -> Result<(), Fail> {
    let alloc = rt.alloc();
    let header: &[u8] = &[0x30, 0x81, 0x81, 0x30, 0x7f, 0x04, 0x7d];
    compare_patched_twice(alloc, &LETTERS[..125], header)?;
    let header: &[u8] = &[0x30, 0x81, 0x83, 0x30, 0x81, 0x80, 0x04, 0x7e];
    compare_patched_twice(alloc, &LETTERS[..126], header)
}

/// Why an item was rejected.
#[derive(Debug, PartialEq, Eq, Drop)]
enum Custom {
    Memory,
    Refused,
}

impl From<WriteError> for Custom {
    ghost from_gives = { λ _ e. e ≡ Memory };

    fn from(_e: WriteError) -> Custom {
        Custom::Memory
    }
}

/// An item that claims this length, appends one octet and then fails.
#[derive(Drop)]
struct Unwritable(Option<usize>);

impl Asn1Type for Unwritable {
    ghost der = { simple_der (λ v. tt {0}) (written (record {
      tag = universal 2;
      encoding = λ m. [];
      encodings = λ m t. ⊥;
      closures = λ m. Unit {0};
      valid = λ m. Unit {0};
      plain = ⊥;
      lawful = ⊥;
    })) (written_laws (record {
      one_encoding = λ p m t e. absurd e;
      has_encoding = λ p. absurd p;
      no_closures = λ p m. tt;
    })) };

    fn known(&self) {}
}

impl SimpleAsn1Writable for Unwritable {
    type Error = Custom;

    ghost write_errors = { λ _ e. e ≡ Refused };

    fn tag() -> Tag {
        Tag::primitive(2)
    }

    fn write_data(&self, dest: &mut WriteBuf) -> Result<(), Custom> {
        dest.push_byte(1)?;
        Err(Custom::Refused)
    }

    fn data_length(&self) -> Option<usize> {
        Some(self.0?)
    }
}

#[test]
fn refused_items(rt: HostRuntime) -> Result<(), Fail> {
    let alloc = rt.alloc();
    let items = [Unwritable(None), Unwritable(None)];
    match write_single(alloc, &SequenceOfWriter::new(&items)) {
        Err(Custom::Memory) => Err(WriteError::AllocationError)?,
        answer => assert!(rt; matches!(answer, Err(Custom::Refused))),
    }
    // A closure that goes on after an error: what the item appended is gone.
    let goes_on = |writer: &mut Writer<'_>| -> WriteResult<()>
        ensures same_buffer { buffer_name writer.new ≡ buffer_name writer.old }
        ensures front { KeepsPrefix (octets_of writer.old) (octets_of writer.new) }
    {
        if writer.write_element(&Unwritable(None)).is_ok() {
            return Ok(());
        }
        writer.write_element(&true)
    };
    is_written(
        alloc,
        &SequenceWriter::new(&goes_on),
        &[0x30, 3, 1, 1, 0xff],
    )
}

#[test]
fn lengths_that_pass_the_largest() -> Result<(), Fail> {
    let items = [
        Unwritable(Some(usize::MAX - 10)),
        Unwritable(Some(usize::MAX - 10)),
    ];
    same(items[0].encoded_length(), Some(usize::MAX))?;
    same(SequenceOfWriter::new(&items).data_length(), None)
}

#[test]
fn lists_and_sets_are_shown(rt: HostRuntime) -> Result<(), Fail> {
    let alloc = rt.alloc();
    let list = parse_single::<List<'_, i64>>(alloc, FIVE_AND_SEVEN)?;
    is_shown(alloc, &list, "[5, 7]")?;
    let octets: &[u8] = &[0x31, 6, 2, 1, 5, 2, 1, 7];
    let set = parse_single::<SetOf<'_, i64>>(alloc, octets)?;
    is_shown(alloc, &set, "[5, 7]")?;
    let numbers: &[i64] = &[7, 5];
    let slice = SequenceOfWriter::new(numbers);
    is_shown(alloc, &slice, "SequenceOfWriter { items: [7, 5] }")?;
    let slice = SetOfWriter::new(numbers);
    is_shown(alloc, &slice, "SetOfWriter { items: [7, 5] }")
}
