//! Fields with a default, of several types.

ghost use Rattle.std.specs.Prelude.{◌≡◌, ◌∷◌, [], negsuc, pos};
ghost use Rattle.asn1.specs.Der.{viewed};
ghost use Rattle.asn1.specs.Lemmas.Equalities.{naturals_tell, number_text, seen_tells};
ghost use Rattle.asn1.specs.IdentifierValues.{identifier_of};
ghost use Rattle.asn1.specs.Tag.{universal};
ghost use Rattle.asn1_tests.specs.Identifiers.{some_identifier};

use crate::lists::is_refused;
use asn1::{
    Asn1Readable, Asn1Type, Asn1Writable, DefaultValue, Defaulted, Implicit, MeaningEq,
    ObjectIdentifier, ParseError, ParseErrorKind, ParseResult, SimpleAsn1Readable,
    SimpleAsn1Writable, Tag, WriteBuf, WriteError, WriteResult,
};
use std::alloc::Global;
use std::test::Fail;
use testing::both_ways;

/// A port.
#[derive(Debug, Clone, Copy, PartialEq, Eq)]
struct Port {
    number: u16,
}

impl Asn1Type for Port {
    ghost der = { viewed (λ port. port.number) ⟦<u16 as Asn1Type>⟧.der };

    fn known(&self) {
        self.number.known()
    }
}

impl<'a> SimpleAsn1Readable<'a> for Port {
    fn tag() -> Tag {
        <u16 as SimpleAsn1Readable<'_>>::tag()
    }

    fn parse_data(alloc: Global, data: &'a [u8]) -> ParseResult<Port> {
        match u16::parse_data(alloc, data) {
            Ok(number) => Ok(Port { number }),
            Err(error) => Err(error),
        }
    }
}

impl SimpleAsn1Writable for Port {
    type Error = WriteError;

    fn tag() -> Tag {
        <u16 as SimpleAsn1Writable>::tag()
    }

    fn write_data(&self, dest: &mut WriteBuf) -> WriteResult<()> {
        self.number.write_data(dest)
    }

    fn data_length(&self) -> Option<usize> {
        self.number.data_length()
    }
}

impl MeaningEq for Port {
    ghost tells = { λ a b. seen_tells (λ port. port.number) (λ n. pos n) (number_text (universal
        2)) ⟦<u16 as PartialEq>⟧.eq a b (naturals_tell (universal 2) a.number b.number) };
}

struct Defaults;

impl DefaultValue<Port> for Defaults {
    ghost default = { record { number = 443 } };

    fn value() -> Port {
        Port { number: 443 }
    }
}

impl DefaultValue<Implicit<i64, 0>> for Defaults {
    ghost default = { record { inner = negsuc 0 } };

    fn value() -> Implicit<i64, 0> {
        Implicit::new(-1)
    }
}

/// The identifier 1.2.3.
fn one_two_three() -> ObjectIdentifier
    ensures { identifier_of result ≡ identifier_of some_identifier }
{
    let mut octets = [0; 63];
    octets[0] = 0x2a;
    octets[1] = 0x03;
    ObjectIdentifier::from_der_unchecked(octets, 2)
}

impl DefaultValue<ObjectIdentifier> for Defaults {
    ghost default = { some_identifier };

    fn value() -> ObjectIdentifier {
        one_two_three()
    }
}

impl DefaultValue<[u8; 2]> for Defaults {
    ghost default = { 0 ∷ 0 ∷ [] };

    fn value() -> [u8; 2] {
        [0, 0]
    }
}

/// The value is written as these octets and read from them, the default as none. The default's encoding is rejected.
fn has_a_default<
    'a,
    T: Asn1Readable<'a> + Asn1Writable<Error = WriteError> + MeaningEq,
    D: DefaultValue<T>,
>(alloc: Global, value: T, octets: &'a [u8], encoded_default: &'a [u8]) -> Result<(), Fail> {
    both_ways(alloc, Defaulted::<T, D>::new(value), octets)?;
    both_ways(alloc, Defaulted::<T, D>::new(D::value()), &[])?;
    let error = ParseError::new(ParseErrorKind::EncodedDefault);
    is_refused::<Defaulted<T, D>>(alloc, encoded_default, error)
}

#[test]
fn types_with_a_default(rt: HostRuntime) -> Result<(), Fail> {
    let alloc = rt.alloc();
    let port = Port { number: 80 };
    has_a_default::<Port, Defaults>(alloc, port, &[2, 1, 80], &[2, 2, 1, 0xbb])?;
    let two: Implicit<i64, 0> = Implicit::new(2);
    has_a_default::<_, Defaults>(alloc, two, &[0x80, 1, 2], &[0x80, 1, 0xff])?;
    has_a_default::<[u8; 2], Defaults>(alloc, [0, 1], &[4, 2, 0, 1], &[4, 2, 0, 0])?;
    let other = ObjectIdentifier::from_der(&[0x2a, 4])?;
    has_a_default::<_, Defaults>(alloc, other, &[6, 2, 0x2a, 4], &[6, 2, 0x2a, 3])
}
