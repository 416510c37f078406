//! Options, wrappers, choices and defaults.

ghost use Rattle.std.specs.Prelude.{false};

use crate::lists::{is_refused, other_tag};
use asn1::{
    Choice1, Choice2, Choice3, DefaultValue, Defaulted, DefinedByMarker, Explicit, Implicit,
    ObjectIdentifier, OctetStringEncoded, ParseError, ParseErrorKind, Parser, SequenceWriter, Tag,
    TagClass, WriteResult, Writer, from_optional_default, to_optional_default,
};
use std::test::Fail;
use testing::{
    are_both_ways, are_refused, are_shown, both_ways, closure_writes, is_refusal, is_shown, same,
};

#[test]
fn options(rt: HostRuntime) -> Result<(), Fail> {
    let alloc = rt.alloc();
    are_both_ways::<Option<bool>>(
        alloc,
        &[
            (Some(true), &[1, 1, 0xff]),
            (Some(false), &[1, 1, 0]),
            (None, &[]),
        ],
    )?;
    let mut parser = Parser::new(alloc, &[5, 0]);
    same(parser.read_element::<Option<bool>>()?, None)?;
    same(parser.rest(), &[5, 0])
}

#[test]
fn faults_of_options(rt: HostRuntime) -> Result<(), Fail> {
    are_refused::<Option<bool>>(
        rt.alloc(),
        &[
            (&[1, 1, 1], ParseErrorKind::InvalidValue),
            (&[0x1f], ParseErrorKind::ExtraData),
            (&[5, 0], ParseErrorKind::ExtraData),
            (&[1, 1], ParseErrorKind::ShortData { needed: 1 }),
        ],
    )
}

#[test]
fn tags_and_octet_strings(rt: HostRuntime) -> Result<(), Fail> {
    let alloc = rt.alloc();
    both_ways(alloc, Explicit::<_, 2>::new(true), &[0xa2, 3, 1, 1, 0xff])?;
    both_ways(alloc, Explicit::<_, 2>::new(false), &[0xa2, 3, 1, 1, 0])?;
    both_ways(alloc, Explicit::<Option<bool>, 0>::new(None), &[0xa0, 0])?;
    both_ways(alloc, Implicit::<_, 2>::new(true), &[0x82, 1, 0xff])?;
    both_ways(alloc, Implicit::<_, 2>::new(false), &[0x82, 1, 0])?;
    both_ways(alloc, OctetStringEncoded::new(true), &[4, 3, 1, 1, 0xff])?;
    both_ways(alloc, OctetStringEncoded::new(false), &[4, 3, 1, 1, 0])
}

#[test]
fn faults_of_tags_and_octet_strings(rt: HostRuntime) -> Result<(), Fail> {
    let alloc = rt.alloc();
    let extra = ParseErrorKind::ExtraData;
    is_refused::<Explicit<bool, 0>>(alloc, &[0xa0, 4, 1, 1, 0xff, 0], ParseError::new(extra))?;
    let primitive = other_tag(Tag::new(0, TagClass::ContextSpecific, false));
    is_refused::<Explicit<bool, 0>>(alloc, &[0x80, 3, 1, 1, 0xff], primitive)?;
    let bits = other_tag(Tag::primitive(3));
    is_refused::<OctetStringEncoded<bool>>(alloc, &[3, 0], bits)?;
    let number = other_tag(Tag::primitive(2));
    is_refused::<OctetStringEncoded<bool>>(alloc, &[4, 2, 2, 0], number)?;
    let octets: &[u8] = &[4, 5, 1, 1, 0xff, 5, 0];
    is_refused::<OctetStringEncoded<bool>>(alloc, octets, ParseError::new(extra))
}

#[test]
fn wrapped_values() -> Result<(), Fail> {
    let explicit = Explicit::<i32, 0>::new(12);
    let implicit = Implicit::<i32, 0>::new(12);
    let string = OctetStringEncoded::new(12);
    same(
        [*explicit.as_inner(), *implicit.as_inner(), *string.get()],
        [12; 3],
    )?;
    same(
        [
            explicit.into_inner(),
            implicit.into_inner(),
            string.into_inner(),
        ],
        [12; 3],
    )?;
    let explicit: Explicit<i32, 0> = 12.into();
    let implicit: Implicit<i32, 0> = 12.into();
    same([explicit.into_inner(), implicit.into_inner()], [12; 2])
}

#[test]
fn implicit_tags_known_at_run_time(rt: HostRuntime) -> Result<(), Fail> {
    let nothing = |_writer: &mut Writer<'_>| -> WriteResult<()> { Ok(()) };
    let sequence = SequenceWriter::new(&nothing);
    closure_writes(
        rt.alloc(),
        |writer: &mut Writer<'_>| writer.write_implicit_element(&sequence, 2),
        &[0xa2, 0],
    )
}

type Three = Choice3<bool, i64, ()>;

#[test]
fn choices(rt: HostRuntime) -> Result<(), Fail> {
    let alloc = rt.alloc();
    both_ways(alloc, Choice1::ChoiceA(true), &[1, 1, 0xff])?;
    are_both_ways::<Choice2<bool, i64>>(
        alloc,
        &[
            (Choice2::ChoiceA(true), &[1, 1, 0xff]),
            (Choice2::ChoiceB(18), &[2, 1, 0x12]),
        ],
    )?;
    are_both_ways::<Three>(
        alloc,
        &[
            (Three::ChoiceA(true), &[1, 1, 0xff]),
            (Three::ChoiceB(18), &[2, 1, 0x12]),
            (Three::ChoiceC(()), &[5, 0]),
        ],
    )?;
    // The first alternative that accepts the tag is read.
    both_ways(alloc, Choice2::<u8, u64>::ChoiceA(5), &[2, 1, 5])
}

#[test]
fn faults_of_choices(rt: HostRuntime) -> Result<(), Fail> {
    let alloc = rt.alloc();
    is_refused::<Choice1<bool>>(alloc, &[5, 0], other_tag(Tag::primitive(5)))?;
    is_refused::<Choice2<bool, i64>>(alloc, &[5, 0], other_tag(Tag::primitive(5)))?;
    is_refused::<Three>(alloc, &[4, 0], other_tag(Tag::primitive(4)))?;
    are_refused::<Choice2<u8, u64>>(alloc, &[(&[2, 2, 1, 0], ParseErrorKind::IntegerOverflow)])
}

/// A Boolean is false if it is left out.
struct False;

impl DefaultValue<bool> for False {
    ghost default = { false };

    fn value() -> bool {
        false
    }
}

/// A number is 1 if it is left out.
struct One;

impl DefaultValue<Explicit<u8, 0>> for One {
    ghost default = { record { inner = 1 } };

    fn value() -> Explicit<u8, 0> {
        Explicit::new(1)
    }
}

type Critical = Defaulted<bool, False>;

#[test]
fn fields_with_a_default(rt: HostRuntime) -> Result<(), Fail> {
    let alloc = rt.alloc();
    both_ways(alloc, Critical::new(true), &[1, 1, 0xff])?;
    both_ways(alloc, Critical::new(false), &[])?;
    let mut parser = Parser::new(alloc, &[5, 0]);
    let value = parser.read_element::<Critical>()?;
    assert!(rt; !value.into_inner());
    same(parser.rest(), &[5, 0])
}

#[test]
fn faults_of_fields_with_a_default(rt: HostRuntime) -> Result<(), Fail> {
    are_refused::<Critical>(
        rt.alloc(),
        &[
            (&[1, 1, 0], ParseErrorKind::EncodedDefault),
            (&[1, 1, 1], ParseErrorKind::InvalidValue),
            (&[1, 1], ParseErrorKind::ShortData { needed: 1 }),
        ],
    )
}

type Version = Defaulted<Explicit<u8, 0>, One>;

#[test]
fn tagged_fields_with_a_default(rt: HostRuntime) -> Result<(), Fail> {
    let alloc = rt.alloc();
    both_ways(alloc, Version::new(Explicit::new(2)), &[0xa0, 3, 2, 1, 2])?;
    both_ways(alloc, Version::new(Explicit::new(1)), &[])?;
    are_refused::<Version>(
        alloc,
        &[(&[0xa0, 3, 2, 1, 1], ParseErrorKind::EncodedDefault)],
    )?;
    let value: Version = Explicit::new(3).into();
    same(*value.as_inner().as_inner(), 3)
}

#[test]
fn defaults(rt: HostRuntime) -> Result<(), Fail> {
    is_refusal(
        from_optional_default(Some(3u8), 3),
        ParseErrorKind::EncodedDefault,
    )?;
    assert!(rt; matches!(from_optional_default(None, 3u8), Ok(3)));
    assert!(rt; matches!(from_optional_default(Some(4u8), 3), Ok(4)));
    same(to_optional_default(&3u8, &3), None)?;
    same(to_optional_default(&4u8, &3), Some(&4))
}

#[test]
fn markers(rt: HostRuntime) -> Result<(), Fail> {
    let marker: DefinedByMarker<ObjectIdentifier> = DefinedByMarker::marker();
    assert!(rt; marker.clone()? == DefinedByMarker::marker());
    Ok(())
}

#[test]
fn wrappers_are_shown(rt: HostRuntime) -> Result<(), Fail> {
    let alloc = rt.alloc();
    let explicit = Explicit::<bool, 2>::new(true);
    is_shown(alloc, &explicit, "Explicit { inner: true }")?;
    let implicit = Implicit::<bool, 2>::new(true);
    is_shown(alloc, &implicit, "Implicit { inner: true }")
}

#[test]
fn wrappers_without_names_of_fields_are_shown(rt: HostRuntime) -> Result<(), Fail> {
    let alloc = rt.alloc();
    let encoded = OctetStringEncoded::new(true);
    is_shown(alloc, &encoded, "OctetStringEncoded(true)")?;
    let marker = DefinedByMarker::<bool>::marker();
    // The language has no names of types at run time; the original shows `PhantomData<bool>`.
    is_shown(alloc, &marker, "DefinedByMarker(PhantomData<_>)")
}

#[test]
fn choices_are_shown(rt: HostRuntime) -> Result<(), Fail> {
    let alloc = rt.alloc();
    is_shown(alloc, &Choice1::ChoiceA(true), "ChoiceA(true)")?;
    let second = Choice2::<bool, i64>::ChoiceB(18);
    is_shown(alloc, &second, "ChoiceB(18)")?;
    let rows = &[
        (Three::ChoiceA(true), "ChoiceA(true)"),
        (Three::ChoiceB(18), "ChoiceB(18)"),
        (Three::ChoiceC(()), "ChoiceC(())"),
    ];
    are_shown(alloc, rows)
}
