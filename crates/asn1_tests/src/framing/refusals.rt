//! What remains after an error, and what is rejected after a value.

ghost use Rattle.std.specs.Prelude.{◌≡◌};

use crate::framing::sets::rejects_true;
use asn1_core::{
    ParseErrorKind, Parser, SetElementWriter, SetOfWriter, SetWriter, Tlv, WriteError, WriteResult,
    Writer, strip_tlv,
};
use std::test::Fail;
use testing::{closure_writes, closure_writes_set, is_refusal, is_written, same};

#[test]
fn a_rest_inside_an_explicit_tag_is_refused(rt: HostRuntime) -> Result<(), Fail> {
    let octets = [0xa2, 0x05, 0x01, 0x01, 0xff, 0x05, 0x00];
    let answer = Parser::new(rt.alloc(), &octets).read_explicit_element::<bool>(2);
    is_refusal(answer, ParseErrorKind::ExtraData)
}

#[test]
fn a_parser_stays_in_front_of_an_unfinished_element(rt: HostRuntime) -> Result<(), Fail> {
    let octets = [0x04, 0x02, 0x00];
    let mut parser = Parser::new(rt.alloc(), &octets);
    let short = ParseErrorKind::ShortData { needed: 1 };
    is_refusal(parser.read_element::<Tlv<'_>>(), short)?;
    same(parser.rest(), &octets)
}

#[test]
fn an_order_is_kept_over_a_refusal(rt: HostRuntime) -> Result<(), Fail> {
    let twice = |set: &mut SetElementWriter<'_>| -> WriteResult<()>
        ensures { set.new.front ≡ set.old.front }
    {
        set.write_element(&1i64)?;
        if rejects_true(set)? && rejects_true(set)? {
            return Ok(());
        }
        set.write_element(&2i64)
    };
    closure_writes_set(rt.alloc(), &twice, &[0x31, 0x03, 0x02, 0x01, 0x01])
}

#[test]
fn a_refused_value_leaves_no_octets(rt: HostRuntime) -> Result<(), Fail> {
    let refuses = |set: &mut SetElementWriter<'_>| -> WriteResult<()>
        ensures { set.new.front ≡ set.old.front }
    {
        set.write_element(&1i64)?;
        set.write_element(&true)
    };
    closure_writes(
        rt.alloc(),
        |writer: &mut Writer<'_>| match writer.write_element(&SetWriter::new(&refuses)) {
            Err(WriteError::InvalidSetOrdering) => writer.write_element(&true),
            answer => answer,
        },
        &[0x01, 0x01, 0xff],
    )
}

#[test]
fn elements_of_several_tags_in_order(rt: HostRuntime) -> Result<(), Fail> {
    let (octets, _rest) = strip_tlv(&[0x04, 0x01, 0x00])?;
    let (number, _rest) = strip_tlv(&[0x02, 0x02, 0x01, 0x00])?;
    is_written(
        rt.alloc(),
        &SetOfWriter::new(&[octets, number]),
        &[0x31, 0x07, 0x02, 0x02, 0x01, 0x00, 0x04, 0x01, 0x00],
    )
}
