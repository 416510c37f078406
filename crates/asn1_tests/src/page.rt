//! The example of the crate's page.

ghost use Rattle.std.specs.Prelude.{◌≡◌, ◌++◌, true, false, OnOk, OnErr};
ghost use Rattle.asn1.specs.Buffer.{KeepsPrefix};
ghost use Rattle.asn1.specs.Writing.{buffer_name, octets_of};
ghost use Rattle.asn1.specs.Example.{bool_text};

use asn1::*;
use std::test::Fail;
use testing::same;

#[test]
fn one_value(rt: HostRuntime) -> Result<(), Fail> {
    let octets = write_single(rt.alloc(), &true)?;
    same(octets.as_slice(), &[1, 1, 0xff])?;
    let value = parse_single::<bool>(rt.alloc(), octets.as_slice());
    assert!(rt; matches!(value, Ok(true)));
    Ok(())
}

#[test]
fn several_values(rt: HostRuntime) -> Result<(), Fail> {
    let read = parse(
        rt.alloc(),
        &[1u8, 1, 0xff, 1, 1, 0],
        |parser| -> ParseResult<(bool, bool)> {
            Ok((
                parser.read_element::<bool>()?,
                parser.read_element::<bool>()?,
            ))
        },
    );
    assert!(rt; matches!(read, Ok((true, false))));
    let written = write(
        rt.alloc(),
        |writer: &mut Writer<'_>| -> WriteResult<()>
            ensures same_buffer { buffer_name writer.new ≡ buffer_name writer.old }
            ensures ok { OnOk result (octets_of writer.new
                ≡ octets_of writer.old ++ (bool_text true ++ bool_text false)) }
            ensures err { OnErr result (KeepsPrefix (octets_of writer.old) (octets_of writer.new)) }
        {
            writer.write_element(&true)?;
            writer.write_element(&false)
        },
    )?;
    same(written.as_slice(), &[1, 1, 0xff, 1, 1, 0])
}
