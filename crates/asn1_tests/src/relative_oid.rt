//! Relative object identifiers.

ghost use Rattle.asn1.specs.Comparisons.{IsEqualityOf};
ghost use Rattle.asn1.specs.Relative.{RelativesAreRead};
ghost use Rattle.asn1.specs.RelativeValues.{relative_arcs};

use asn1::RelativeOid;
use asn1::laws::relative_oids_are_read;
use asn1::laws_equality::relative_oids_compare;
use std::test::Fail;
use testing::{are_invalid, both_ways, hash_of, is_displayed, is_shown, same};

/// The example of X.690, 8.20.5: {8571 3 2}.
const EXAMPLE: &[u8] = &[0x0d, 4, 0xc2, 0x7b, 0x03, 0x02];

#[test]
fn the_example_of_the_standard(rt: HostRuntime) -> Result<(), Fail> {
    let alloc = rt.alloc();
    let relative = RelativeOid::from_der(&[0xc2, 0x7b, 0x03, 0x02])?;
    is_displayed(alloc, &relative, "8571.3.2")?;
    let rest = RelativeOid::from_der(&[0x03, 0x02])?;
    assert!(rt; relative.split_first() == (8571, Some(rest)));
    is_shown(alloc, &relative, "RelativeOid(8571.3.2)")?;
    let other = RelativeOid::from_der(&[0x03])?;
    assert!(rt; other.split_first() == (3, None));
    same(relative.as_der(), &[0xc2, 0x7b, 0x03, 0x02])?;
    assert!(rt; relative == relative.clone()? && relative != other);
    assert!(rt; hash_of(&relative) != hash_of(&other));
    both_ways(alloc, relative, EXAMPLE)
}

/// The first number is one arc, also below 80; the largest arc is 2^128 - 1.
#[test]
fn each_number_is_one_arc(rt: HostRuntime) -> Result<(), Fail> {
    let alloc = rt.alloc();
    is_displayed(alloc, &RelativeOid::from_der(&[0x2a])?, "42")?;
    is_displayed(
        alloc,
        &RelativeOid::from_der(&[0x00, 0x7f, 0x81, 0x00])?,
        "0.127.128",
    )?;
    let most: &[u8] = &[
        0x83, 0xff, 0xff, 0xff, 0xff, 0xff, 0xff, 0xff, 0xff, 0xff, 0xff, 0xff, 0xff, 0xff, 0xff,
        0xff, 0xff, 0xff, 0x7f,
    ];
    assert!(rt; RelativeOid::from_der(most)?.split_first() == (u128::MAX, None));
    Ok(())
}

/// None; a number without its end; one with a leading group of zeros, first and later; 2^128.
#[test]
fn other_octets_are_no_relative_oid(rt: HostRuntime) -> Result<(), Fail> {
    are_invalid::<RelativeOid<'_>>(
        rt.alloc(),
        &[
            &[0x0d, 0],
            &[0x0d, 1, 0x80],
            &[0x0d, 1, 0xc2],
            &[0x0d, 2, 0x03, 0x82],
            &[0x0d, 2, 0x80, 0x01],
            &[0x0d, 3, 0x03, 0x80, 0x01],
            &[
                0x0d, 19, 0x84, 0x80, 0x80, 0x80, 0x80, 0x80, 0x80, 0x80, 0x80, 0x80, 0x80, 0x80,
                0x80, 0x80, 0x80, 0x80, 0x80, 0x80, 0x00,
            ],
        ],
    )
}

/// What the laws say of relative identifiers.
pub fn laws_of_relative_oids()
    ensures equality { IsEqualityOf relative_arcs ⟦<RelativeOid<'static> as PartialEq>⟧.eq }
    ensures read { RelativesAreRead }
{
    relative_oids_compare();
    relative_oids_are_read();
}
