//! The worked examples of X.690 that are DER, in both directions.

ghost use Rattle.std.specs.Prelude.{◌≡◌};
ghost use Rattle.asn1.specs.Buffer.{KeepsPrefix};
ghost use Rattle.asn1.specs.Writing.{buffer_name, octets_of};

use asn1::{
    Explicit, IA5String, Implicit, ParseResult, Parser, Sequence, SequenceWriter, Tag, TagClass,
    Tlv, VisibleString, WriteResult, Writer, parse_single,
};
use std::alloc::Global;
use std::test::Fail;
use testing::{both_ways, closure_writes, is_written, same};

/// 8.2.2 and 8.8.2: a Boolean that is true, and null.
#[test]
fn true_and_null(rt: HostRuntime) -> Result<(), Fail> {
    both_ways(rt.alloc(), true, &[0x01, 0x01, 0xff])?;
    both_ways(rt.alloc(), (), &[0x05, 0x00])
}

/// 8.9.3: `SEQUENCE {name IA5String, ok BOOLEAN}` with `{name "Smith", ok TRUE}`.
const SMITH: &[u8] = b"\x30\x0a\x16\x05Smith\x01\x01\xff";

#[test]
fn a_sequence_is_read(rt: HostRuntime) -> Result<(), Fail> {
    let fields = parse_single::<Sequence<'_>>(rt.alloc(), SMITH)?.parse(
        rt.alloc(),
        |parser: &mut Parser<'_>| -> ParseResult<(bool, bool)> {
            let name = parser.read_element::<IA5String<'_>>()?;
            Ok((name.as_str() == "Smith", parser.read_element::<bool>()?))
        },
    );
    same(&fields, &Ok((true, true)))
}

#[test]
fn a_sequence_is_written(rt: HostRuntime) -> Result<(), Fail> {
    let name = IA5String::new("Smith").ok_or("no text")?;
    let fields = |writer: &mut Writer<'_>| -> WriteResult<()>
        ensures same_buffer { buffer_name writer.new ≡ buffer_name writer.old }
        ensures front { KeepsPrefix (octets_of writer.old) (octets_of writer.new) }
    {
        writer.write_element(&name)?;
        writer.write_element(&true)
    };
    is_written(rt.alloc(), &SequenceWriter::new(&fields), SMITH)
}

/// 8.14.3: a `VisibleString`, and the same value under tags, `Type1` to `Type5`.
const JONES: [&[u8]; 5] = [
    b"\x1a\x05Jones",
    b"\x43\x05Jones",
    b"\xa2\x07\x43\x05Jones",
    b"\x67\x07\x43\x05Jones",
    b"\x82\x05Jones",
];

#[test]
fn texts_under_tags(rt: HostRuntime) -> Result<(), Fail> {
    let alloc = rt.alloc();
    let jones = VisibleString::new("Jones").ok_or("no text")?;
    both_ways(alloc, jones.clone()?, JONES[0])?;
    both_ways(alloc, Implicit::<_, 2>::new(jones), JONES[4])?;
    let explicit = parse_single::<Explicit<Tlv<'_>, 2>>(alloc, JONES[2])?;
    same(explicit.as_inner().full_data(), JONES[1])?;
    is_written(alloc, &explicit, JONES[2])
}

/// An element of the class application with these contents octets is read and written.
fn is_of_an_application(
    alloc: Global,
    text: &[u8],
    number: u32,
    content: &[u8],
) -> Result<(), Fail> {
    let tlv = parse_single::<Tlv<'_>>(alloc, text)?;
    let (tag, _rest) = Tag::from_bytes(text)?;
    same(
        (tag.class(), tag.value(), tag.is_constructed()),
        (TagClass::Application, number, number == 7),
    )?;
    same((tlv.tag(), tlv.data()), (tag, content))?;
    is_written(alloc, &tlv, text)?;
    closure_writes(
        alloc,
        |writer: &mut Writer<'_>| writer.write_tlv(tag, None, |dest| dest.push_slice(content)),
        text,
    )
}

/// Any elements with tags of the application class. `application` has types with these tags.
#[test]
fn texts_under_tags_of_an_application(rt: HostRuntime) -> Result<(), Fail> {
    is_of_an_application(rt.alloc(), JONES[1], 3, b"Jones")?;
    is_of_an_application(rt.alloc(), JONES[3], 7, JONES[1])
}
