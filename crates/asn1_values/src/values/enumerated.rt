//! ENUMERATED (X.690 8.4).

ghost use Rattle.std.specs.Prelude.{◌≡◌, ◌-ℤ◌, ◌^◌, pos, length};
ghost use Rattle.asn1_core.specs.Tag.{universal};
ghost use Rattle.asn1_core.specs.Integer.{integer_content};
ghost use Rattle.asn1_core.specs.Element.{element, element_encoding};
ghost use Rattle.asn1_core.specs.Reading.{Fits};
ghost use Rattle.asn1_core.specs.Sized.{sized_content};
ghost use Rattle.asn1_core.specs.LawsOf.Contents.{sized_laws};
ghost use Rattle.asn1_core.specs.Der.{simple_der};

use asn1_core::{
    Asn1Type, ParseResult, SimpleAsn1Readable, SimpleAsn1Writable, Tag, WriteBuf, WriteError,
    WriteResult,
};
use std::alloc::Global;

/// ENUMERATED (X.690 8.4; universal 10): the number of one of a list of values, from 0 to 2^32 - 1. The number is
/// encoded as an INTEGER is. Reading rejects more than the fewest contents octets, no octets, and negative numbers with
/// `InvalidValue`, and greater numbers with `IntegerOverflow`. The caller has to test whether the list has the number.
#[derive(Debug, PartialEq, Eq, Drop)]
pub struct Enumerated(u32);

impl Enumerated {
    ghost use Rattle.asn1_values.specs.Values.{enumerated_value};

    /// The value with this number.
    pub fn new(value: u32) -> Enumerated
        ensures { enumerated_value result ≡ value }
    {
        Enumerated(value)
    }

    /// The number.
    pub fn value(&self) -> u32
        ensures { result ≡ enumerated_value self.now }
    {
        self.0
    }
}

impl Asn1Type for Enumerated {
    ghost use Rattle.asn1_values.specs.Values.{enumerated_value};

    ghost der = { simple_der (λ e. pos (enumerated_value e))
        (sized_content (universal 10) (pos 0) (pos (2 ^ 32) -ℤ pos 1)) (sized_laws _ _ _) };

    fn known(&self)
        ensures valid { (sized_content (universal 10) (pos 0) (pos (2 ^ 32) -ℤ pos 1)).valid
            (pos (enumerated_value self.now)) }
        ensures fits { Fits (element_encoding (element (universal 10)
            (integer_content (pos (enumerated_value self.now))))) }
    {
        self.0.known()
    }
}

impl<'a> SimpleAsn1Readable<'a> for Enumerated {
    fn tag() -> Tag {
        Tag::primitive(0x0a)
    }

    #[inline]
    fn parse_data(alloc: Global, data: &'a [u8]) -> ParseResult<Enumerated> {
        let value = u32::parse_data(alloc, data)?;
        Ok(Enumerated(value))
    }
}

impl SimpleAsn1Writable for Enumerated {
    ghost use Rattle.asn1_values.specs.Values.{enumerated_value};

    type Error = WriteError;

    ghost length_known = { λ _. Unit {0} };

    fn tag() -> Tag {
        Tag::primitive(0x0a)
    }

    fn write_data(&self, dest: &mut WriteBuf) -> WriteResult<()> {
        self.0.write_data(dest)
    }

    fn data_length(&self) -> Option<usize>
        ensures { result ≡ Some (length (integer_content (pos (enumerated_value self.now)))) }
    {
        self.0.data_length()
    }

    fn writes_as_read() -> bool {
        true
    }
}
