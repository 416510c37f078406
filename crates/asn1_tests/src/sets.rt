//! Sets of any elements, and sets of items of one type.

ghost use Rattle.std.specs.Prelude.{◌≡◌};

use crate::lists::{at, is_refused};
use asn1::{
    Explicit, Implicit, ParseErrorKind, ParseResult, Parser, Set, SetElementWriter, SetOf,
    SetOfWriter, SetWriter, Tag, WriteResult, parse_single,
};
use std::test::Fail;
use testing::{
    are_equal_or_not, are_written_back, hash_of, is_refusal, is_shown, is_written, is_written_back,
    same,
};

const FIVE_TWICE: &[u8] = &[0x31, 0x06, 0x02, 0x01, 0x05, 0x02, 0x01, 0x05];

#[test]
fn sets_have_the_items_left(rt: HostRuntime) -> Result<(), Fail> {
    let alloc = rt.alloc();
    let mut set = parse_single::<SetOf<'_, u64>>(alloc, FIVE_TWICE)?;
    assert!(rt; matches!(set.next(), Some(Ok(5))));
    is_written(alloc, &set, &[0x31, 0x03, 0x02, 0x01, 0x05])?;
    same(set.next().transpose()?, Some(5))?;
    same(set.next().transpose()?, None)
}

#[test]
fn sets_are_made_of_items(rt: HostRuntime) -> Result<(), Fail> {
    let alloc = rt.alloc();
    let mut store = Vec::new(alloc);
    let set = SetOf::of(alloc, &[7u64, 5], &mut store)??;
    is_written(
        alloc,
        &set,
        &[0x31, 0x06, 0x02, 0x01, 0x05, 0x02, 0x01, 0x07],
    )?;
    let mut other_store = Vec::new(alloc);
    let twice = SetOf::of(alloc, &[5u64, 5], &mut other_store)??;
    is_written(alloc, &twice, FIVE_TWICE)
}

/// The items of a set are taken in its order, until none remains.
#[test]
fn items_of_sets_are_taken(rt: HostRuntime) -> Result<(), Fail> {
    let mut set = parse_single::<SetOf<'_, u64>>(rt.alloc(), FIVE_TWICE)?;
    same(set.take_next()?, Some(5))?;
    same(set.take_next()?, Some(5))?;
    same(set.take_next()?, None)
}

/// The items that are left of a set are taken all at once.
#[test]
fn items_left_of_sets_are_taken_at_once(rt: HostRuntime) -> Result<(), Fail> {
    let mut set = parse_single::<SetOf<'_, u64>>(rt.alloc(), FIVE_TWICE)?;
    same(set.to_vec()?.as_slice(), [5, 5].as_slice())?;
    same(set.take_next()?, Some(5))?;
    same(set.to_vec()?.as_slice(), [5].as_slice())
}

#[test]
fn copies_of_sets(rt: HostRuntime) -> Result<(), Fail> {
    let alloc = rt.alloc();
    let mut set = parse_single::<SetOf<'_, u64>>(alloc, FIVE_TWICE)?;
    let whole = set.clone()?;
    assert!(rt; whole == set && matches!(set.next(), Some(Ok(5))) && whole != set);
    is_written(alloc, &whole, FIVE_TWICE)?;
    is_written(alloc, &SetOfWriter::new(&[5u64, 5]), FIVE_TWICE)
}

#[test]
fn equal_sets(rt: HostRuntime) -> Result<(), Fail> {
    are_equal_or_not::<SetOf<'_, bool>>(
        rt.alloc(),
        &[
            (&[0x31, 0], &[0x31, 0], true),
            (&[0x31, 0], &[0x31, 3, 1, 1, 0], false),
            (&[0x31, 3, 1, 1, 0], &[0x31, 3, 1, 1, 0xff], false),
        ],
    )?;
    let no = parse_single::<SetOf<'_, bool>>(rt.alloc(), &[0x31, 3, 1, 1, 0])?;
    assert!(rt; no == no.clone()?);
    Ok(())
}

#[test]
fn faults_of_sets(rt: HostRuntime) -> Result<(), Fail> {
    let alloc = rt.alloc();
    let order = ParseErrorKind::InvalidSetOrdering;
    is_refused::<SetOf<'_, u64>>(alloc, &[0x31, 6, 2, 1, 7, 2, 1, 5], at(1, order))?;
    is_refused::<SetOf<'_, u64>>(alloc, &[0x31, 6, 2, 1, 7, 1, 1, 0xff], at(1, order))?;
    let actual = Tag::primitive(1);
    let other = at(0, ParseErrorKind::UnexpectedTag { actual });
    is_refused::<SetOf<'_, u64>>(alloc, TRUE, other)?;
    is_refused::<SetOf<'_, Option<u8>>>(alloc, TRUE, at(0, ParseErrorKind::ExtraData))
}

const TRUE: &[u8] = &[0x31, 3, 1, 1, 0xff];

#[test]
fn sets_whose_items_take_memory(rt: HostRuntime) -> Result<(), Fail> {
    let octets: &[u8] = &[0x31, 0x06, 0x02, 0x01, 0x01, 0x02, 0x01, 0x02];
    let mut set = parse_single::<SetOf<'_, Box<u8>>>(rt.alloc(), octets)?;
    is_written(rt.alloc(), &set, octets)?;
    same(*set.next().ok_or("no item")??, 1)?;
    same(*set.next().ok_or("no item")??, 2)?;
    assert!(rt; set.next().is_none());
    Ok(())
}

#[test]
fn sets_in_a_tag(rt: HostRuntime) -> Result<(), Fail> {
    let octets: &[u8] = &[0xa0, 0x08, 0x31, 0x06, 0x02, 0x01, 0x05, 0x02, 0x01, 0x07];
    is_written_back::<SetOf<'_, u64>>(rt.alloc(), &octets[2..])?;
    let explicit = parse_single::<Explicit<SetOf<'_, u64>, 0>>(rt.alloc(), octets)?;
    is_written(rt.alloc(), &explicit, octets)?;
    let mut set = explicit.into_inner();
    same(set.next().transpose()?, Some(5))?;
    same(set.next().transpose()?, Some(7))?;
    same(set.next().transpose()?, None)
}

#[test]
fn sets_of_any_elements(rt: HostRuntime) -> Result<(), Fail> {
    are_written_back::<Set<'_>>(
        rt.alloc(),
        &[
            &[0x31, 0x06, 0x01, 0x01, 0xff, 0x02, 0x01, 0x06],
            // A constructed element before a primitive one: the bit plays no part.
            &[0x31, 0x04, 0xa0, 0x00, 0x81, 0x00],
            // Equal tags, their contents octets in any order, constructed or not.
            &[0x31, 0x06, 0x02, 0x01, 0x07, 0x02, 0x01, 0x05],
            &[0x31, 0x04, 0xa0, 0x00, 0x80, 0x00],
            // The numbers 16383 and 16384.
            &[
                0x31, 0x09, 0x9f, 0xff, 0x7f, 0x00, 0x9f, 0x81, 0x80, 0x00, 0x00,
            ],
        ],
    )
}

#[test]
fn faults_of_sets_of_any_elements(rt: HostRuntime) -> Result<(), Fail> {
    let alloc = rt.alloc();
    let order = ParseErrorKind::InvalidSetOrdering;
    is_refused::<Set<'_>>(alloc, &[0x31, 4, 0x81, 0, 0xa0, 0], at(1, order))?;
    is_refused::<Set<'_>>(alloc, &[0x31, 6, 2, 1, 5, 1, 1, 0xff], at(1, order))?;
    // A private tag before one of the universal class.
    is_refused::<Set<'_>>(alloc, &[0x31, 5, 0xc0, 0, 1, 1, 0xff], at(1, order))?;
    let short = at(0, ParseErrorKind::ShortData { needed: 1 });
    is_refused::<Set<'_>>(alloc, &[0x31, 3, 2, 2, 5], short)
}

#[test]
fn parts_of_a_set(rt: HostRuntime) -> Result<(), Fail> {
    let octets: &[u8] = &[0x31, 0x06, 0x01, 0x01, 0xff, 0x02, 0x01, 0x05];
    let set = parse_single::<Set<'_>>(rt.alloc(), octets)?;
    let copy = set.clone()?;
    assert!(rt; set == copy && hash_of(&set) == hash_of(&copy));
    let parts = set.parse(
        rt.alloc(),
        |parser: &mut Parser<'_>| -> ParseResult<(bool, u8)> {
            Ok((parser.read_element::<bool>()?, parser.read_element::<u8>()?))
        },
    );
    same(&parts, &Ok((true, 5)))
}

#[test]
fn a_part_of_a_set_is_left(rt: HostRuntime) -> Result<(), Fail> {
    let octets: &[u8] = &[0x31, 0x06, 0x01, 0x01, 0xff, 0x02, 0x01, 0x05];
    let first = parse_single::<Set<'_>>(rt.alloc(), octets)?.parse(
        rt.alloc(),
        |parser: &mut Parser<'_>| parser.read_element::<bool>(),
    );
    is_refusal(first, ParseErrorKind::ExtraData)
}

#[test]
fn sets_are_shown(rt: HostRuntime) -> Result<(), Fail> {
    let none = parse_single::<Set<'_>>(rt.alloc(), &[0x31, 0x00])?;
    is_shown(rt.alloc(), &none, "Set { data: [] }")
}

#[test]
fn sets_of_a_closure_by_tag(rt: HostRuntime) -> Result<(), Fail> {
    let tagged = |set: &mut SetElementWriter<'_>| -> WriteResult<()>
        ensures { set.new.front ≡ set.old.front }
    {
        set.write_element(&Explicit::<bool, 0>::new(true))?;
        set.write_element(&Implicit::<bool, 1>::new(true))
    };
    is_written(
        rt.alloc(),
        &SetWriter::new(&tagged),
        &[0x31, 8, 0xa0, 3, 1, 1, 0xff, 0x81, 1, 0xff],
    )
}
