//! Sets whose elements a closure writes: it writes the contents octets of a `Set`, which are read as one.

ghost use Rattle.std.specs.Prelude.{◌≡◌, ◌<◌, ◌^◌, length, OnOk, IfOk};
ghost use Rattle.asn1.specs.Listing.{set_tag};
ghost use Rattle.asn1.specs.Sets.{IsSetContent};
ghost use Rattle.asn1.specs.SetWriting.{KeepsElements};
ghost use Rattle.asn1.specs.Writing.{IsElementOf};

use asn1::laws::set_writers_write_sets;
use asn1::{
    ParseResult, Parser, Set, SetElementWriter, SetWriter, WriteResult, parse_single, write_single,
};
use std::alloc::Global;
use std::test::Fail;
use testing::same;

/// A set of a Boolean and a number. The closure states that it keeps elements in the order of their tags, and so a
/// `Set` reads what is written.
fn written_set(alloc: Global, number: u64) -> WriteResult<Vec<u8>>
    ensures { IfOk result (λ v. IsElementOf set_tag (λ c. length c < 2 ^ 32
        → IsSetContent c) v.items) }
{
    let writes = |set: &mut SetElementWriter<'_>| -> WriteResult<()>
        ensures front { set.new.front ≡ set.old.front }
        ensures elements { OnOk result (KeepsElements set.old set.new) }
    {
        set.write_element(&true)?;
        set.write_element(&number)
    };
    set_writers_write_sets(&writes);
    write_single(alloc, &SetWriter::new(&writes))
}

/// The Boolean and the number of that set.
fn read_set(alloc: Global, octets: &[u8]) -> ParseResult<(bool, u64)> {
    let set = parse_single::<Set<'_>>(alloc, octets)?;
    set.parse(
        alloc,
        |parser: &mut Parser<'_>| -> ParseResult<(bool, u64)> {
            Ok((
                parser.read_element::<bool>()?,
                parser.read_element::<u64>()?,
            ))
        },
    )
}

#[test]
fn written_sets_are_read(rt: HostRuntime) -> Result<(), Fail> {
    let alloc = rt.alloc();
    let octets = written_set(alloc, 5)?;
    same(octets.as_slice(), &[0x31, 6, 1, 1, 0xff, 2, 1, 5])?;
    same(read_set(alloc, octets.as_slice())?, (true, 5))
}
