//! Sets that are written: of slices, of closures, and of a slice by a second buffer for each encoding.

ghost use Rattle.std.specs.Prelude.{◌≡◌, ◌∷◌, [], refl};
ghost use Rattle.asn1_core.specs.Tag.{universal};
ghost use Rattle.asn1_core.specs.Der.{simple_der};
ghost use Rattle.asn1_core.specs.SetWriting.{written};
ghost use Rattle.asn1_core.specs.LawsOf.Contents.{written_laws};
ghost use Rattle.asn1_tests.specs.declared.framing.sets.Custom.TheVariants.{Memory, Refused};

use crate::framing::writing::compare_parts;
use asn1_core::tag::Tag;
use asn1_core::types::{Asn1Type, Asn1Writable, SimpleAsn1Writable};
use asn1_core::writer::{
    SetElementWriter, SetOfWriter, WriteBuf, WriteError, WriteResult, write_single,
};
use std::alloc::Global;
use std::test::Fail;
use testing::{
    all_different, closure_writes_set, is_written, repeated, same, same_owned, written_set,
};

/// Numbers, and the sets of these.
const SETS: &[(&[u8], &[u8])] = &[
    (&[], &[0x31, 0]),
    (&[1], &[0x31, 3, 2, 1, 1]),
    (&[1, 2, 3], &[0x31, 9, 2, 1, 1, 2, 1, 2, 2, 1, 3]),
    (&[3, 2, 1], &[0x31, 9, 2, 1, 1, 2, 1, 2, 2, 1, 3]),
    (&[5, 5], &[0x31, 6, 2, 1, 5, 2, 1, 5]),
];

#[test]
fn sets_of_a_slice(rt: HostRuntime) -> Result<(), Fail> {
    let alloc = rt.alloc();
    for (items, octets) in SETS {
        is_written(alloc, &SetOfWriter::new(*items), octets)?;
    }
    let longer = [256u16, 1, 255, 1];
    is_written(
        alloc,
        &SetOfWriter::new(&longer),
        &[0x31, 0x0e, 2, 1, 1, 2, 1, 1, 2, 2, 0, 0xff, 2, 2, 1, 0],
    )?;
    same(SetOfWriter::new(&longer).data_length(), Some(14))
}

/// The set of the octet strings is written as these octets.
fn is_set_of(alloc: Global, items: &[&[u8]], octets: &[u8]) -> Result<(), Fail> {
    is_written(alloc, &SetOfWriter::new(items), octets)
}

/// An octet string of 300 octets in front of 1000 without any, which come before it in the set.
#[test]
fn large_sets_of_a_slice(rt: HostRuntime) -> Result<(), Fail> {
    let alloc = rt.alloc();
    let mut items: [&[u8]; 1001] = [&[]; 1001];
    items[0] = &[0x61; 300];
    let mut octets = repeated(alloc, &[0x31, 0x82, 0x09, 0x00], &[4, 0], 1000)?;
    octets.extend_from_slice(&[4, 0x82, 0x01, 0x2c])?;
    octets.extend_from_slice(&[0x61; 300])?;
    is_set_of(alloc, &items, octets.as_slice())
}

#[test]
fn sets_of_sets(rt: HostRuntime) -> Result<(), Fail> {
    let two = [2u8, 1];
    let one = [1u8];
    let sets = [SetOfWriter::new(&two), SetOfWriter::new(&one)];
    is_written(
        rt.alloc(),
        &SetOfWriter::new(&sets),
        &[0x31, 0x0d, 0x31, 3, 2, 1, 1, 0x31, 6, 2, 1, 1, 2, 1, 2],
    )
}

#[test]
fn sets_of_a_slice_are_copied() -> Result<(), Fail> {
    let items = [1u8, 2, 3];
    let set = SetOfWriter::new(&items);
    let copy = set.clone()?;
    let found = (copy == set, copy != SetOfWriter::new(&items[1..]));
    same(found, (true, true))
}

/// Each of these has two items, whose encodings have three octets.
#[test]
fn unequal_sets_of_as_many_items() -> Result<(), Fail> {
    all_different(&[
        (SetOfWriter::new(&[1u8, 2]), SetOfWriter::new(&[1, 3])),
        (SetOfWriter::new(&[1u8, 2]), SetOfWriter::new(&[3, 2])),
        (SetOfWriter::new(&[1u8, 2]), SetOfWriter::new(&[2, 1])),
    ])
}

/// The set of the value, as a closure writes it.
fn written_alone<T: Asn1Writable<Error = WriteError>>(
    alloc: Global,
    value: &T,
) -> WriteResult<Vec<u8>>
    requires { T.der.plain }
{
    let alone = |set: &mut SetElementWriter<'_>| -> WriteResult<()>
        requires { T.der.plain }
        ensures { set.new.front ≡ set.old.front }
    { set.write_element(value) };
    written_set(alloc, &alone)
}

#[test]
fn sets_of_a_closure(rt: HostRuntime) -> Result<(), Fail> {
    same(written_alone(rt.alloc(), &())?.as_slice(), &[0x31, 2, 5, 0])?;
    same(
        written_alone(rt.alloc(), &true)?.as_slice(),
        &[0x31, 3, 1, 1, 0xff],
    )
}

#[test]
fn long_sets_of_a_closure(rt: HostRuntime) -> Result<(), Fail> {
    let letters: &[u8] = &[0x61; 129];
    let octets = written_alone(rt.alloc(), &letters)?;
    compare_parts(
        octets.as_slice(),
        &[0x31, 0x81, 0x84, 4, 0x81, 0x81],
        letters,
    )?;
    let letters: &[u8] = &[0x61; 1100];
    let octets = written_alone(rt.alloc(), &letters)?;
    compare_parts(
        octets.as_slice(),
        &[0x31, 0x82, 0x04, 0x50, 4, 0x82, 0x04, 0x4c],
        letters,
    )
}

/// The set of both values, as a closure writes it.
fn written_pair<S: Asn1Writable<Error = WriteError>, T: Asn1Writable<Error = WriteError>>(
    alloc: Global,
    first: &S,
    second: &T,
) -> WriteResult<Vec<u8>>
    requires of_first { S.der.plain }
    requires of_second { T.der.plain }
{
    let both = |set: &mut SetElementWriter<'_>| -> WriteResult<()>
        requires of_first { S.der.plain }
        requires of_second { T.der.plain }
        ensures { set.new.front ≡ set.old.front }
    {
        set.write_element(first)?;
        set.write_element(second)
    };
    written_set(alloc, &both)
}

#[test]
fn elements_of_a_set_in_order(rt: HostRuntime) -> Result<(), Fail> {
    let alloc = rt.alloc();
    let both: &[u8] = &[0x31, 6, 1, 1, 0xff, 2, 1, 1];
    same(written_pair(alloc, &true, &Some(1i64))?.as_slice(), both)?;
    same(written_pair(alloc, &true, &1i64)?.as_slice(), both)?;
    let truth = written_pair(alloc, &true, &Option::<i64>::None)?;
    same(truth.as_slice(), &[0x31, 3, 1, 1, 0xff])
}

/// Whether the set rejects `true` behind a number.
pub fn rejects_true(set: &mut SetElementWriter<'_>) -> WriteResult<bool>
    ensures { set.new.front ≡ set.old.front }
{
    match set.write_element(&true) {
        Ok(()) => Ok(false),
        Err(WriteError::InvalidSetOrdering) => Ok(true),
        Err(error) => Err(error),
    }
}

#[test]
fn elements_of_a_set_out_of_order(rt: HostRuntime) -> Result<(), Fail> {
    let goes_on = |set: &mut SetElementWriter<'_>| -> WriteResult<()>
        ensures { set.new.front ≡ set.old.front }
    {
        set.write_element(&1i64)?;
        if !rejects_true(set)? {
            return Ok(());
        }
        set.write_element(&2i64)
    };
    closure_writes_set(rt.alloc(), &goes_on, &[0x31, 6, 2, 1, 1, 2, 1, 2])
}

#[test]
fn an_error_of_order_is_handed_on(rt: HostRuntime) -> Result<(), Fail> {
    match written_pair(rt.alloc(), &1i64, &true) {
        Err(WriteError::AllocationError) => Err(WriteError::AllocationError.into()),
        answer => same_owned(answer, Err(WriteError::InvalidSetOrdering)),
    }
}

#[test]
fn equal_tags_in_any_order(rt: HostRuntime) -> Result<(), Fail> {
    let numbers = written_pair(rt.alloc(), &7u8, &5u8)?;
    same(numbers.as_slice(), &[0x31, 6, 2, 1, 7, 2, 1, 5])
}

/// Why a digit was rejected.
#[derive(Drop)]
enum Custom {
    Memory,
    Refused,
}

impl From<WriteError> for Custom {
    ghost from_gives = { λ _ e. e ≡ Memory };

    fn from(_e: WriteError) -> Custom {
        Custom::Memory
    }
}

/// A number that is written if it is below ten.
struct Digit(u8);

impl Asn1Type for Digit {
    ghost der = { simple_der (λ v. v.0) (written (record {
      tag = universal 2;
      encoding = λ m. m ∷ [];
      encodings = λ m t. t ≡ m ∷ [];
      closures = λ m. Unit {0};
      valid = λ m. Unit {0};
      plain = Unit {0};
      lawful = ⊥;
    })) (written_laws (record {
      one_encoding = λ p m t e. e;
      has_encoding = λ p m v. refl;
      no_closures = λ p m. tt;
    })) };

    fn known(&self) {}
}

impl SimpleAsn1Writable for Digit {
    type Error = Custom;

    ghost write_errors = { λ _ e. e ≡ Refused };

    fn tag() -> Tag {
        Tag::primitive(2)
    }

    fn write_data(&self, dest: &mut WriteBuf) -> Result<(), Custom> {
        if self.0 >= 10 {
            return Err(Custom::Refused);
        }
        dest.push_byte(self.0)?;
        Ok(())
    }

    fn data_length(&self) -> Option<usize> {
        Some(1)
    }
}

#[test]
fn items_refuse_by_errors_of_their_own(rt: HostRuntime) -> Result<(), Fail> {
    match write_single(rt.alloc(), &SetOfWriter::new(&[Digit(3), Digit(10)])) {
        Err(Custom::Memory) => Err(WriteError::AllocationError)?,
        answer => assert!(rt; matches!(answer, Err(Custom::Refused))),
    }
    Ok(())
}

const VALUES: [u32; 7] = [0, 1, 127, 128, 255, 256, 65535];

/// How many slices of 0, 1, 2 and so on of the values there are.
const COUNTS: [usize; 6] = [1, 7, 49, 343, 2401, 16807];

/// A set of up to 127 contents octets, by a second buffer for each encoding.
fn slow_set(alloc: Global, items: &[u32]) -> Result<Vec<u8>, Fail> {
    let mut texts: Vec<Vec<u8>> = Vec::new(alloc);
    for item in items {
        texts.push(write_single(alloc, item)?)?;
    }
    texts.sort()?;
    let mut content = Vec::new(alloc);
    for text in &texts {
        content.extend_from_slice(text.as_slice())?;
    }
    let mut octets = Vec::from_slice(alloc, &[0x31, (content.len() % 128) as u8])?;
    octets.extend_from_slice(content.as_slice())?;
    Ok(octets)
}

#[test]
fn sets_by_two_ways(rt: HostRuntime) -> Result<(), Fail> {
    for n in 0..6usize {
        for index in 0..COUNTS[n] {
            let mut items = [0u32; 5];
            let mut rest = index;
            for place in 0..n {
                items[place] = VALUES[rest % 7];
                rest /= 7;
            }
            let items = &items[..n];
            let octets = write_single(rt.alloc(), &SetOfWriter::new(items))?;
            let slow = slow_set(rt.alloc(), items)?;
            same(octets.as_slice(), slow.as_slice())?;
        }
    }
    Ok(())
}
