//! Explicitly tagged values that an item beside them defines.

ghost use Rattle.asn1_core.specs.Tag.{explicit_tag_of};
ghost use Rattle.asn1.specs.Defined.{by_inside, defined_inside};
ghost use Rattle.asn1.specs.InHand.{explicit_inner};
ghost use Rattle.asn1.specs.ItemsAndValues.{agrees_inside};

use super::Explicit;
use crate::fields::DefinedField;
use asn1_core::writer::full_length;
use asn1_core::{
    Asn1DefinedBy, Asn1DefinedByReadable, Asn1DefinedByWritable, Asn1Readable, Asn1Type,
    Asn1Writable, ParseError, ParseErrorKind, ParseResult, Parser, Tlv, WriteBuf, Writer,
    explicit_tag,
};

impl<T: Asn1Type, U: Asn1DefinedBy<T>, const TAG: u32> Asn1DefinedBy<T> for Explicit<U, TAG> {
    ghost by = { by_inside (explicit_tag_of TAG) explicit_inner U.by };

    fn known_by(&self) {
        self.as_inner().known_by()
    }
}

/// Reads the element under the tag as it is encoded, and then its encoding as the item defines it. The error is
/// `ExtraData` if octets remain.
impl<
    'a,
    T: Asn1Readable<'a>,
    U: Asn1DefinedByReadable<'a, T>,
    const TAG: u32,
> Asn1DefinedByReadable<'a, T> for Explicit<U, TAG> {
    fn parse(item: T, parser: &mut Parser<'a>) -> ParseResult<Self> {
        let element = parser.read_element::<Explicit<Tlv<'a>, TAG>>()?;
        let mut inner = Parser::new(parser.alloc(), element.as_inner().full_data());
        let value = U::parse(item, &mut inner)?;
        if !inner.is_empty() {
            return Err(ParseError::new(ParseErrorKind::ExtraData));
        }
        Ok(Explicit::new(value))
    }

    fn one_encoding() {
        U::one_encoding()
    }
}

impl<T: Asn1Writable, U: Asn1DefinedByWritable<T>, const TAG: u32> Asn1DefinedByWritable<T>
    for Explicit<U, TAG> {
    type Error = U::Error;

    ghost write_errors_by = { λ x. U.write_errors_by (explicit_inner x) };

    ghost length_known_by = { λ x. U.length_known_by (explicit_inner x) };

    fn item(&self) -> T {
        self.as_inner().item()
    }

    fn write(&self, dest: &mut Writer<'_>) -> Result<(), U::Error> {
        let inner = self.as_inner();
        dest.write_tlv(
            explicit_tag(TAG),
            None,
            |dest: &mut WriteBuf| -> Result<(), U::Error>
                requires { U.by.means.closures (U.by.means.meaning inner.now) }
            { inner.write(&mut Writer::new(dest)) },
        )
    }

    fn encoded_length(&self) -> Option<usize> {
        full_length(explicit_tag(TAG), self.as_inner().encoded_length()?)
    }
}

impl<T: Asn1Type, U: DefinedField<T>, const TAG: u32> DefinedField<T> for Explicit<U, TAG> {
    ghost both = { record {
      item = U.both.item;
      value = defined_inside (explicit_tag_of TAG) explicit_inner U.both.value;
    } };

    fn known_item(&self) {
        self.as_inner().known_item()
    }

    ghost agrees = { agrees_inside (explicit_tag_of TAG) explicit_inner _ _ _ U.agrees };
}
